//! A layer over any host that tells with which process was talked.
ghost use Rattle.std.specs.Prelude.{◌≡◌};

use host::fault::{Fault, NotStarted};
use host::host::{Host, How};

/// A host that means and logs what the host below does; beside it stand how many processes were started, how often bytes were sent to one or asked of one, refused or not, and which one that was last. The counts stay at 2^64 - 1.
#[derive(Drop)]
pub(crate) struct Watched<H> {
    below: H,
    pub(crate) started: usize,
    pub(crate) talks: usize,
    pub(crate) last: usize,
}

impl<H> Watched<H> {
    pub(crate) fn new(below: H) -> Watched<H> {
        Watched {
            below,
            started: 0,
            talks: 0,
            last: 0,
        }
    }

    /// Bytes are sent to a process, or asked of it.
    fn talk(&mut self, process: usize)
        ensures { self.new.below ≡ self.old.below }
    {
        self.talks = self.talks.saturating_add(1);
        self.last = process;
    }
}

// Hands on by hand, as scripts' layers do: one impl for every layer is only for host to write.
impl<H: Host> Host for Watched<H> {
    ghost world = { λ s. H.Host.world s.below };

    ghost capacity = { H.Host.capacity };

    ghost log = { λ s. H.Host.log s.below };

    fn start(&mut self, command: &[u8]) -> Result<usize, NotStarted> {
        let process = self.below.start(command)?;
        self.started = self.started.saturating_add(1);
        Ok(process)
    }

    fn receive(&mut self, process: usize, area: &mut [u8]) -> Result<usize, Fault> {
        self.talk(process);
        self.below.receive(process, area)
    }

    fn send(&mut self, process: usize, bytes: &[u8]) -> Result<(), Fault> {
        self.talk(process);
        self.below.send(process, bytes)
    }

    fn end(&mut self, process: usize, how: How) {
        self.below.end(process, how);
    }
}
