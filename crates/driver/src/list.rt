//! What a listing answers.
ghost use Rattle.driver.specs.Answers.{list_answer, number_in};

use crate::misuse::Misuse;
use host::fault::LineFault;
use process::status::Status;
use slices::refusal::Numbered;

/// How many paths were named (a count that stays at 2^64 - 1), and how many of them are stored.
#[derive(Clone, Copy)]
pub struct Paths {
    pub named: usize,
    // A count: the rows are the caller's, and a slice of them would keep them borrowed.
    pub stored: usize,
}

/// The caller is at fault, a line fault ended the listing, the process's status is none of success, or a path found no space.
#[derive(Clone, Copy)]
pub enum Error {
    Misuse(Misuse),
    ProcessInvoke(LineFault),
    ProcessStatus(Status),
    Full(Paths),
}

impl Numbered for Error {
    ghost number = { λ e. number_in (list_answer e) };

    fn refusal_number(self) -> u8 {
        match self {
            Error::Misuse(why) => why.refusal_number(),
            Error::ProcessInvoke(fault) => fault.refusal_number(),
            Error::ProcessStatus(_) => 35,
            Error::Full(_) => 7,
        }
    }
}
