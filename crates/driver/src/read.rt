//! What a read of a result answers.
ghost use Rattle.driver.specs.Answers.{unread_answer, read_answer, number_in, misuse_number};

use crate::misuse::Misuse;
use crate::result::FilterResult;
use host::fault::LineFault;
use process::status::Status;
use slices::refusal::Numbered;

/// The length of a payload, which lies at the front of the work area, and the result, of which more is to be read; or the end.
pub enum Read {
    Payload(usize, FilterResult),
    End,
}

/// A call that was refused hands its result back.
pub struct Refused {
    pub why: Misuse,
    pub back: FilterResult,
}

// By reference: the result is not let go for the number.
impl Numbered for &Refused {
    ghost number = { λ r. misuse_number r.now.why };

    fn refusal_number(self) -> u8 {
        self.why.refusal_number()
    }
}

/// The caller is at fault and has the result back; or it is spent: a line fault ended it, or its final status is none of success.
pub enum Error {
    Refused(Refused),
    Lost(LineFault),
    ProcessStatus(Status),
}

impl Numbered for &Error {
    ghost number = { λ e. number_in (read_answer e.now) };

    fn refusal_number(self) -> u8 {
        match self {
            Error::Refused(refused) => refused.refusal_number(),
            Error::Lost(fault) => fault.refusal_number(),
            Error::ProcessStatus(_) => 37,
        }
    }
}

/// The same of a read by the number of a process.
#[derive(Clone, Copy)]
pub enum Unread {
    Misuse(Misuse),
    Lost(LineFault),
    ProcessStatus(Status),
}

impl Numbered for Unread {
    ghost number = { λ e. number_in (unread_answer e) };

    fn refusal_number(self) -> u8 {
        match self {
            Unread::Misuse(why) => why.refusal_number(),
            Unread::Lost(fault) => fault.refusal_number(),
            Unread::ProcessStatus(_) => 37,
        }
    }
}
