//! What the calls of a table answer, as one value.
ghost use Rattle.std.specs.Prelude.{◌≡◌};
ghost use Rattle.rules.specs.Answers.{answer_number};
ghost use Rattle.exchange.specs.Values.{answer_of};

use driver::list::Paths;
use driver::misuse::Misuse;
use handshake::protocol::Protocol;
use host::fault::LineFault;
use process::status::Status;
use slices::refusal::Numbered;

/// An answer of any call.
#[derive(Clone, Copy)]
pub enum Answer {
    /// Nothing was sent, since the process cannot do it.
    Passed,
    /// The process answers later.
    Delayed,
    /// A result waits to be read, from the process with this number.
    Result(usize),
    /// The length of a part of a result.
    Payload(usize),
    /// A result's end.
    Finished,
    Paths(Paths),
    Full(Paths),
    /// A result was given up, or all processes are closed.
    Done,
    /// A status that is none of success: of an exchange or a listing, of a result.
    Failed(Status),
    Unfinished(Status),
    /// Delayed, though it was not allowed.
    Unasked,
    Fault(LineFault),
    Misused(Misuse),
    NotStarted,
    Greeted(Protocol),
}

impl Answer {
    /// The number of a refusal.
    pub fn number(self) -> Option<u8>
        ensures { result ≡ answer_number (answer_of self) }
    {
        match self {
            Answer::Passed
            | Answer::Delayed
            | Answer::Result(_)
            | Answer::Payload(_)
            | Answer::Finished
            | Answer::Paths(_)
            | Answer::Done => None,
            Answer::Full(_) => Some(7),
            Answer::Failed(_) => Some(35),
            Answer::Unfinished(_) => Some(37),
            Answer::Unasked => Some(36),
            Answer::Fault(fault) => Some(fault.refusal_number()),
            Answer::Misused(why) => Some(why.refusal_number()),
            Answer::NotStarted => Some(10),
            Answer::Greeted(why) => Some(why.refusal_number()),
        }
    }
}
