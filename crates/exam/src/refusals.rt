//! What calls answer in words, and refusals in words.
use slices::refusal::Numbered;
use std::error::Error;
use std::fmt;

/// A refusal by its number.
// By number, since docs/ANSWERS.md gives each its words, and the error types share them; none of the types is exam's.
#[derive(Clone, Copy)]
pub(crate) struct Refusal(pub(crate) u8);

impl Refusal {
    /// What its number means.
    fn meaning(self) -> &'static str {
        match self.0 {
            1 => "an area is too short",
            2 => "an argument is outside its limits",
            3 => "no record has this key",
            4 => "a result is being read",
            5 => "no result of this process is being read",
            6 => "no place is free for a record",
            7 => "no space left",
            10 => "the command cannot be started",
            11 => "closed: nothing more comes",
            12 => "broken: not open, or nothing more is taken",
            13 => "another fault",
            20 => "four bytes that are no header",
            21 => "a marker where none is wanted",
            22 => "a text that is not UTF-8",
            30 => "not the server's welcome",
            31 => "no version",
            32 => "a version that was not offered",
            33 => "no flush behind the version",
            34 => "a capability that is not desired",
            35 => "a status that is no success",
            36 => "delayed, which was not allowed",
            37 => "a final status that is no success",
            _ => "a refusal",
        }
    }
}

impl fmt::Display for Refusal {
    fn fmt<W: fmt::Write>(&self, f: &mut fmt::Formatter<W>) -> fmt::Result {
        let number = self.0;
        let meaning = self.meaning();
        write!(f, "{number}, {meaning}")
    }
}

/// Why a call has no answer: it was refused, or the program cannot go on.
#[derive(Drop)]
pub(crate) enum Stopped {
    Refused(Refusal),
    Failed(anyhow::Error),
}

/// What a call answers, in words.
pub(crate) type Answer = Result<String, Stopped>;

impl<E: Error> From<E> for Stopped {
    fn from(e: E) -> Stopped {
        Stopped::Failed(e.into())
    }
}

/// What stops a call that was refused.
pub(crate) fn refused<E: Numbered>(e: E) -> Stopped {
    Stopped::Refused(Refusal(e.refusal_number()))
}
