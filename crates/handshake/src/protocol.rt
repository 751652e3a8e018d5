//! What can go wrong in a handshake.
ghost use Rattle.std.specs.Prelude.{◌≡◌};
ghost use Rattle.handshake.specs.declared.protocol.Refusal.TheVariants.{Line as of_line, Protocol as of_protocol};
ghost use Rattle.handshake.specs.declared.protocol.Objection.TheVariants.{Full as full};
ghost use Rattle.handshake.specs.Handshakes.{protocol_number};
ghost use Rattle.handshake.specs.Judged.{refusal_number};
ghost use Rattle.handshake.specs.Servers.{objection_number};

use host::fault::LineFault;
use slices::refusal::Numbered;
use slices::rows::Full;

/// What a process must not say in a handshake.
#[derive(Clone, Copy)]
pub enum Protocol {
    Welcome,
    Version,
    NotOffered,
    Flush,
    Capability,
}

impl Numbered for Protocol {
    ghost number = { protocol_number };

    fn refusal_number(self) -> u8 {
        match self {
            Protocol::Welcome => 30,
            Protocol::Version => 31,
            Protocol::NotOffered => 32,
            Protocol::Flush => 33,
            Protocol::Capability => 34,
        }
    }
}

/// What ends a server's handshake: the client says what it must not, no row is left for a version, or none of its versions is chosen.
#[derive(Clone, Copy)]
pub enum Objection {
    Welcome,
    Version,
    Full,
    Mismatch,
}

impl Numbered for Objection {
    ghost number = { objection_number };

    fn refusal_number(self) -> u8 {
        match self {
            Objection::Welcome => 30,
            Objection::Version => 31,
            Objection::Full => 7,
            Objection::Mismatch => 38,
        }
    }
}

impl<T: Drop> From<Full<T>> for Objection {
    ghost from_gives = { λ f r. r ≡ full };

    fn from(_: Full<T>) -> Objection {
        Objection::Full
    }
}

// Not a `CallError`: neither side is the caller, and both convert.
/// Why a handshake did not come to its end: the line is at fault, or the other side said what it must not.
#[derive(Clone, Copy)]
pub enum Refusal<P> {
    Line(LineFault),
    Protocol(P),
}

impl<P> From<LineFault> for Refusal<P> {
    ghost from_gives = { λ f r. r ≡ of_line f };

    fn from(f: LineFault) -> Refusal<P> {
        Refusal::Line(f)
    }
}

impl From<Protocol> for Refusal<Protocol> {
    ghost from_gives = { λ p r. r ≡ of_protocol p };

    fn from(p: Protocol) -> Refusal<Protocol> {
        Refusal::Protocol(p)
    }
}

impl From<Objection> for Refusal<Objection> {
    ghost from_gives = { λ p r. r ≡ of_protocol p };

    fn from(p: Objection) -> Refusal<Objection> {
        Refusal::Protocol(p)
    }
}

impl<P: Numbered> Numbered for Refusal<P> {
    ghost number = { refusal_number P.number };

    fn refusal_number(self) -> u8 {
        match self {
            Refusal::Line(fault) => fault.refusal_number(),
            Refusal::Protocol(p) => p.refusal_number(),
        }
    }
}
