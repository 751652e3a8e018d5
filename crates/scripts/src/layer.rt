//! A layer over any host that changes nothing.
use host::fault::{Fault, NotStarted};
use host::host::{Host, How};

/// A host that hands on what it is asked: it means and logs what the host below does.
#[derive(Drop)]
pub struct Forward<H> {
    pub below: H,
}

// The layers forward by hand: one `impl Host` for every layer is only for the crate of `Host`, and a method that lends the host below needs a longer clause than these bodies.
impl<H: Host> Host for Forward<H> {
    ghost world = { λ s. H.Host.world s.below };

    ghost capacity = { H.Host.capacity };

    ghost log = { λ s. H.Host.log s.below };

    fn start(&mut self, command: &[u8]) -> Result<usize, NotStarted> {
        self.below.start(command)
    }

    fn receive(&mut self, process: usize, area: &mut [u8]) -> Result<usize, Fault> {
        self.below.receive(process, area)
    }

    fn send(&mut self, process: usize, bytes: &[u8]) -> Result<(), Fault> {
        self.below.send(process, bytes)
    }

    fn end(&mut self, process: usize, how: How) {
        self.below.end(process, how);
    }
}
