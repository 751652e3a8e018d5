//! A layer over any host that notes which processes were started and how they were ended.
use host::fault::{Fault, NotStarted};
use host::host::{Host, How};
use std::alloc::{AllocError, Global};

/// The most processes that a script host starts.
const MAX_PROCESSES: usize = 16;

/// A host that means and logs what the host below does, and notes how many processes were started and how each was ended.
#[derive(Drop)]
pub(crate) struct Watched<H> {
    pub(crate) below: H,
    pub(crate) started: usize,
    pub(crate) ended: Vec<Option<How>>,
}

impl<H: Drop> Watched<H> {
    /// A layer that has noted nothing.
    pub(crate) fn new(below: H, heap: Global) -> Result<Watched<H>, AllocError> {
        let ended: Vec<Option<How>> = vec![in heap; None; MAX_PROCESSES]?;
        Ok(Watched {
            below,
            started: 0,
            ended,
        })
    }
}

// Hands on by hand: one impl for every layer is only for host to write.
impl<H: Host> Host for Watched<H> {
    ghost world = { λ s. H.Host.world s.below };

    ghost capacity = { H.Host.capacity };

    ghost log = { λ s. H.Host.log s.below };

    fn start(&mut self, command: &[u8]) -> Result<usize, NotStarted> {
        let number = self.below.start(command)?;
        self.started = self.started.saturating_add(1);
        Ok(number)
    }

    fn receive(&mut self, process: usize, area: &mut [u8]) -> Result<usize, Fault> {
        self.below.receive(process, area)
    }

    fn send(&mut self, process: usize, bytes: &[u8]) -> Result<(), Fault> {
        self.below.send(process, bytes)
    }

    fn end(&mut self, process: usize, how: How) {
        self.below.end(process, how);
        if let Some(place) = self.ended.get_mut(process) {
            *place = Some(how);
        }
    }
}
