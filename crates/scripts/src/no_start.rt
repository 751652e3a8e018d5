//! A layer over any host that starts nothing.
ghost use Rattle.scripts.specs.Layers.{unstartable};

use host::fault::{Fault, NotStarted};
use host::host::{Host, How};

/// A host that refuses each start; all else is as below. It keeps no log, since the host below never hears of a start.
#[derive(Drop)]
pub struct NoStart<H> {
    pub below: H,
}

// Hands on by hand, for Forward's reason.
impl<H: Host> Host for NoStart<H> {
    ghost world = { λ s. unstartable (H.Host.world s.below) };

    ghost capacity = { H.Host.capacity };

    fn start(&mut self, _command: &[u8]) -> Result<usize, NotStarted> {
        Err(NotStarted)
    }

    fn receive(&mut self, process: usize, area: &mut [u8]) -> Result<usize, Fault> {
        self.below.receive(process, area)
    }

    fn send(&mut self, process: usize, bytes: &[u8]) -> Result<(), Fault> {
        self.below.send(process, bytes)
    }

    fn end(&mut self, process: usize, how: How) {
        self.below.end(process, how);
    }
}
