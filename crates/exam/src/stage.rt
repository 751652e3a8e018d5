//! What a sheet is played on.
use crate::listing::{Listener, Listing, Nobody};
use crate::refusals::Stopped;
use crate::sheet::Pair;
use anyhow::Context;
use host::inner::MAX_LINE_LEN;
use process::area::MAX_STATUS_LEN;
use std::alloc::{AllocError, Global};
use trace::traced::Traced;

/// The host, a work area and a status area, the metadata that waits for an exchange, and for each process that was started the packets that passed, as long as it is open.
#[derive(Drop)]
pub(crate) struct Stage<H> {
    pub(crate) heap: Global,
    pub(crate) host: Traced<H>,
    pub(crate) work: Vec<u8>,
    pub(crate) status: Vec<u8>,
    pub(crate) pairs: Vec<Pair>,
    pub(crate) started: Vec<Option<Listing>>,
}

impl<H: Drop> Stage<H> {
    /// The stage for a host, with nothing started.
    pub(crate) fn new(heap: Global, host: H) -> Result<Stage<H>, AllocError> {
        let work: Vec<u8> = vec![in heap; 0; MAX_LINE_LEN]?;
        let status: Vec<u8> = vec![in heap; 0; MAX_STATUS_LEN]?;
        Ok(Stage {
            heap,
            host: Traced::new(host, heap),
            work,
            status,
            pairs: Vec::new(heap),
            started: Vec::new(heap),
        })
    }
}

impl<H> Stage<H> {
    /// Adds what passed to the packets of its process, and tells of those that it completes.
    pub(crate) fn tell<T: Listener>(&mut self, listener: &mut T) -> anyhow::Result<()> {
        let passed = self
            .host
            .take()
            .context("there is no memory for what passed")?;
        for note in &passed {
            if let Some(Some(listing)) = self.started.get_mut(note.process) {
                listing.add(note.direction, &note.bytes, listener)?;
            }
        }
        Ok(())
    }

    /// Counts the packets that passed.
    pub(crate) fn count(&mut self) -> anyhow::Result<()> {
        self.tell(&mut Nobody)
    }
}
