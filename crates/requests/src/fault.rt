//! Why no request was read.
ghost use Rattle.std.specs.Prelude.{◌≡◌};
ghost use Rattle.requests.specs.declared.fault.RequestFault.TheVariants.{Line as of_line};
ghost use Rattle.requests.specs.Requests.{request_number};

use host::call::{AreaTooShort, CallError};
use host::fault::LineFault;
use slices::refusal::Numbered;

/// Why no request was read: the line is at fault, it does not say what it must, or there is no space for what it says.
#[derive(Clone, Copy)]
pub enum RequestFault {
    Line(LineFault),
    Command,
    Metadata,
    Full,
}

impl Numbered for RequestFault {
    ghost number = { request_number };

    fn refusal_number(self) -> u8 {
        match self {
            RequestFault::Line(fault) => fault.refusal_number(),
            RequestFault::Command => 39,
            RequestFault::Metadata => 40,
            RequestFault::Full => 7,
        }
    }
}

impl From<LineFault> for RequestFault {
    ghost from_gives = { λ f r. r ≡ of_line f };

    fn from(fault: LineFault) -> RequestFault {
        RequestFault::Line(fault)
    }
}

/// Why a server that asked for the next request was refused: the area is too short, or no request was read.
pub type RequestError = CallError<AreaTooShort, RequestFault>;
