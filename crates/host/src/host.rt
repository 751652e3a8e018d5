//! A host of processes, by what it means.
ghost use Rattle.std.specs.Prelude.{ℕ, [], ◌∷◌, None};
ghost use Rattle.host.specs.Worlds.{World};
ghost use Rattle.host.specs.Acts.{Started, Received, Sent, Ended, Log, Grows, starting, taking, sending, ending, came};

use crate::fault::{Fault, NotStarted};

/// How a process is ended.
#[derive(Clone, Copy)]
pub enum How {
    Close,
    Kill,
}

/// A host starts processes, moves bytes to and from them, and ends them. Its meaning is its world: the processes that it
/// started, and which commands it can start now. Its log, if it keeps one, is what was really asked of it.
pub trait Host {
    ghost world: { Self → World };

    ghost capacity: { ℕ };

    ghost log: { Self → Log } = { λ s. None };

    /// Starts a command; its number is its place among the processes started.
    fn start(&mut self, command: &[u8]) -> Result<usize, NotStarted>
        ensures goes { Started capacity (world self.old) command.now result (world self.new) }
        ensures logs { Grows (log self.old) (starting command.now result ∷ []) (log self.new) };

    /// Some of the bytes that wait, at the front of `area`.
    fn receive(&mut self, process: usize, area: &mut [u8]) -> Result<usize, Fault>
        ensures goes { Received (world self.old) process area.old result (world self.new) area.new }
        ensures logs { Grows (log self.old) (taking process (came result area.new) ∷ []) (log self.new) };

    /// All of `bytes`, or none.
    fn send(&mut self, process: usize, bytes: &[u8]) -> Result<(), Fault>
        ensures goes { Sent (world self.old) process bytes.now result (world self.new) }
        ensures logs { Grows (log self.old) (sending process bytes.now result ∷ []) (log self.new) };

    /// Ends a process; on one that is not open it does nothing.
    fn end(&mut self, process: usize, how: How)
        ensures goes { Ended (world self.old) process (world self.new) }
        ensures logs { Grows (log self.old) (ending process how ∷ []) (log self.new) };
}
