//! Why no result was fetched.
ghost use Rattle.driver.specs.Answers.{fetch_answer, number_in};

use crate::misuse::Misuse;
use host::fault::LineFault;
use process::status::Status;
use slices::refusal::Numbered;

/// The caller is at fault, a line fault ended the exchange, or the process's status is none of success.
#[derive(Clone, Copy)]
pub enum Error {
    Misuse(Misuse),
    ProcessInvoke(LineFault),
    ProcessStatus(Status),
}

impl Numbered for Error {
    ghost number = { λ e. number_in (fetch_answer e) };

    fn refusal_number(self) -> u8 {
        match self {
            Error::Misuse(why) => why.refusal_number(),
            Error::ProcessInvoke(fault) => fault.refusal_number(),
            Error::ProcessStatus(_) => 35,
        }
    }
}
