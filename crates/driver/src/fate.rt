//! What becomes of a record and its process.
ghost use Rattle.std.specs.Prelude.{◌≡◌};
ghost use Rattle.rules.specs.Steps.{after_fault, result_lost};
ghost use Rattle.driver.specs.Fates.{fate_of};

use host::fault::{Fault, LineFault};
use host::host::How;
use process::capabilities::Capabilities;
use records::operation::Operation;
use records::record::Record;

/// A record stays, with what its process can do, and reading or not; or it leaves, and its process is ended.
#[derive(Clone, Copy)]
pub(crate) enum Fate {
    Stays(Capabilities, Option<Operation>),
    Leaves(How),
}

/// What a line fault comes to where content is asked for or paths are listed.
// The Rust's `handle_io_err`.
pub(crate) fn after_fault(entry: &Record, fault: LineFault) -> Fate
    ensures { fate_of result ≡ after_fault entry.now.capabilities.mask fault }
{
    match fault {
        LineFault::Host(Fault::Closed) | LineFault::Host(Fault::Broken) | LineFault::Marker => {
            Fate::Leaves(How::Close)
        }
        LineFault::Host(Fault::Other) | LineFault::Packet(_) | LineFault::Text(_) => {
            Fate::Stays(entry.capabilities, None)
        }
    }
}
