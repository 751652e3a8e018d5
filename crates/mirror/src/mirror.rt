//! A host whose processes give content back as it came: each is a server.
ghost use Rattle.std.specs.Prelude.{◌≡◌, ◌≤◌, [], ◌∷◌, length, None};
ghost use Rattle.host.specs.Acts.{Started, Received, Sent, Ended, Grows, starting, taking, sending, ending, came};

use crate::house::House;
use crate::places::{end_at, receive_at, send_at, start_at};
use crate::seat::Seat;
use host::fault::{Fault, NotStarted};
use host::host::{Host, How};
use std::array;

/// The first `count` seats are the processes, in the order of their starts.
// The memory of its 16 processes, 17 KB each, is its own: a caller keeps a mirror where it is.
#[derive(Drop)]
pub struct Mirror {
    house: House,
    seats: [Seat; 16],
    count: usize,
    ghost long: { length seats ≡ 16 },
    ghost few: { count ≤ 16 },
}

impl Mirror {
    ghost use Rattle.mirror.specs.Worlds.{world_of, unstarted, Opened};

    /// A mirror where nothing was started.
    pub fn new() -> Mirror
        ensures { world_of result ≡ unstarted }
    {
        Mirror {
            house: House::new(),
            seats: array::from_fn(|_| Seat::new()),
            count: 0,
        }
    }

    /// Whether a process is open.
    fn is_open(&self, process: usize) -> bool
        ensures { Opened self.now process result }
    {
        process < self.count && self.seats[process].is_open
    }
}

impl Host for Mirror {
    ghost use Rattle.mirror.specs.Worlds.{world_of, StartsServer, Mirrors};

    ghost world = { world_of };

    ghost capacity = { 16 };

    fn start(&mut self, command: &[u8]) -> Result<usize, NotStarted>
        ensures goes { Started 16 (world_of self.old) command.now result (world_of self.new) }
        ensures logs { Grows None (starting command.now result ∷ []) None }
        ensures stands { StartsServer result (world_of self.new) }
    {
        let number = self.count;
        if number >= 16 {
            return Err(NotStarted);
        }
        start_at(&mut self.seats, number);
        self.count = number + 1;
        Ok(number)
    }

    fn receive(&mut self, process: usize, area: &mut [u8]) -> Result<usize, Fault>
        ensures goes { Received (world_of self.old) process area.old result (world_of self.new) area.new }
        ensures logs { Grows None (taking process (came result area.new) ∷ []) None }
    {
        if area.is_empty() {
            return Ok(0);
        }
        if !self.is_open(process) {
            return Err(Fault::Broken);
        }
        if !self.seats[process].waits() {
            return Err(Fault::Closed);
        }
        Ok(receive_at(&mut self.seats, process, area))
    }

    fn send(&mut self, process: usize, bytes: &[u8]) -> Result<(), Fault>
        ensures goes { Sent (world_of self.old) process bytes.now result (world_of self.new) }
        ensures logs { Grows None (sending process bytes.now result ∷ []) None }
        ensures mirrors { Mirrors (world_of self.old) process bytes.now result (world_of self.new) }
    {
        if !self.is_open(process) {
            return Err(Fault::Broken);
        }
        if bytes.len() > self.seats[process].allowance {
            return Err(Fault::Broken);
        }
        let house = self.house;
        send_at(&mut self.seats, process, &house, bytes);
        Ok(())
    }

    fn end(&mut self, process: usize, _how: How)
        ensures goes { Ended (world_of self.old) process (world_of self.new) }
        ensures logs { Grows None (ending process _how ∷ []) None }
    {
        if self.is_open(process) {
            end_at(&mut self.seats, process);
        }
    }
}
