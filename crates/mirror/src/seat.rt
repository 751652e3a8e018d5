//! A process of a mirror: a server behind two pipes.
ghost use Rattle.std.specs.Prelude.{◌≡◌, false, ◌++◌, ◌≤◌, length, take, drop, min};
ghost use Rattle.std.specs.Option.{option_map};
ghost use Rattle.packetline.specs.Packets.{front};
ghost use Rattle.packetline.specs.Reads.{pkt};
ghost use Rattle.host.specs.Acts.{some_wait};
ghost use Rattle.mirror.specs.Plans.{only};
ghost use Rattle.mirror.specs.Memory.{prefix_of, waiting_in};
ghost use Rattle.mirror.specs.Seats.{Fresh, Sends, Takes};

use crate::answer::Answer;
use crate::house::House;
use crate::server::Server;
use packetline::decode::streaming;
use packetline::packet::PacketLineRef;

/// How many bytes a process takes in all.
pub const ALLOWANCE: usize = 1 << 40;

/// A process that is open or not: its server, what that said and was not received, and how many bytes it still takes.
#[derive(Drop)]
pub(crate) struct Seat {
    pub(crate) is_open: bool,
    pub(crate) allowance: usize,
    pub(crate) server: Server,
    pub(crate) answer: Answer,
}

/// The packet that bytes are, if they are one and nothing else.
fn only_packet(bytes: &[u8]) -> Option<PacketLineRef<'_>>
    ensures { option_map pkt result ≡ only (front bytes.now) }
{
    let packet = streaming(bytes).ok()??;
    if packet.bytes_consumed < bytes.len() {
        return None;
    }
    Some(packet.line)
}

impl Seat {
    /// A seat where no process was started.
    pub(crate) fn new() -> Seat {
        Seat {
            is_open: false,
            allowance: 0,
            server: Server::new(),
            answer: Answer::none(),
        }
    }

    /// Starts a process.
    pub(crate) fn start(&mut self)
        ensures { Fresh self.new }
    {
        self.is_open = true;
        self.allowance = ALLOWANCE;
        self.server.restart();
        self.answer.clear();
    }

    /// Ends the process.
    pub(crate) fn end(&mut self)
        ensures { self.new.is_open ≡ false }
    {
        self.is_open = false;
    }

    /// Whether bytes wait.
    pub(crate) fn waits(&self) -> bool
        ensures { result ≡ some_wait (waiting_in self.now.answer) }
    {
        self.answer.waits()
    }

    /// The first bytes that wait, as many as the area has room for.
    pub(crate) fn receive(&mut self, area: &mut [u8]) -> usize
        ensures len { result ≡ min (length (waiting_in self.old.answer)) (length area.old) }
        ensures takes { Takes self.old result self.new }
        ensures laid { area.new ≡ take result (waiting_in self.old.answer) ++ drop result area.old }
    {
        self.answer.take(area)
    }

    /// Takes bytes that are within its allowance.
    pub(crate) fn send(&mut self, house: &House, bytes: &[u8])
        requires { length bytes.now ≤ self.old.allowance }
        ensures { Sends (prefix_of house.now) house.now.names self.old bytes.now self.new }
    {
        self.allowance -= bytes.len();
        if self.answer.waits() {
            return self.server.give_up();
        }
        self.answer.clear();
        match only_packet(bytes) {
            Some(packet) => self.server.hear(house, packet, &mut self.answer),
            None => self.server.give_up(),
        }
    }
}
