//! What can go wrong with a process and its pipes.
ghost use Rattle.std.specs.Prelude.{◌≡◌};
ghost use Rattle.host.specs.declared.fault.LineFault.TheVariants.{Host as of_host, Packet as of_packet, Text as of_text};
ghost use Rattle.host.specs.Faults.{start_number, fault_number, line_number, snag_fault};

use packetline::{decode, text};
use slices::refusal::Numbered;

/// The refusal of a command that cannot be started now, or for which the host has no place.
#[derive(Clone, Copy)]
pub struct NotStarted;

impl Numbered for NotStarted {
    ghost number = { start_number };

    fn refusal_number(self) -> u8 {
        10
    }
}

/// What a host answers where a process gives or takes nothing more.
#[derive(Clone, Copy)]
pub enum Fault {
    Closed,
    Broken,
    Other,
}

impl Numbered for Fault {
    ghost number = { fault_number };

    fn refusal_number(self) -> u8 {
        match self {
            Fault::Closed => 11,
            Fault::Broken => 12,
            Fault::Other => 13,
        }
    }
}

/// What a process answers to a send beyond its allowance.
// Not a `Fault`: `Closed` is never met on a send.
#[derive(Clone, Copy)]
pub enum Snag {
    Broken,
    Other,
}

impl From<Snag> for Fault {
    ghost from_gives = { λ s r. r ≡ snag_fault s };

    fn from(s: Snag) -> Fault {
        match s {
            Snag::Broken => Fault::Broken,
            Snag::Other => Fault::Other,
        }
    }
}

/// What ends a call on a process: the host's fault, or a packet that is not one that is wanted.
#[derive(Clone, Copy)]
pub enum LineFault {
    Host(Fault),
    Packet(decode::Error),
    Marker,
    Text(text::Error),
}

impl Numbered for LineFault {
    ghost number = { line_number };

    fn refusal_number(self) -> u8 {
        match self {
            LineFault::Host(fault) => fault.refusal_number(),
            LineFault::Packet(e) => e.refusal_number(),
            LineFault::Marker => 21,
            LineFault::Text(e) => e.refusal_number(),
        }
    }
}

impl From<Fault> for LineFault {
    ghost from_gives = { λ f r. r ≡ of_host f };

    fn from(f: Fault) -> LineFault {
        LineFault::Host(f)
    }
}

impl From<decode::Error> for LineFault {
    ghost from_gives = { λ e r. r ≡ of_packet e };

    fn from(e: decode::Error) -> LineFault {
        LineFault::Packet(e)
    }
}

impl From<text::Error> for LineFault {
    ghost from_gives = { λ e r. r ≡ of_text e };

    fn from(e: text::Error) -> LineFault {
        LineFault::Text(e)
    }
}
