//! Why an exchange cannot be played.
use recording::failure::Failure;
use std::alloc::{AllocError, AllocFailed};
use std::error::Error;
use std::fmt;

/// Why an exchange cannot be played: a line is not of the format, or there is no memory.
#[derive(Clone, Copy, Debug)]
pub(crate) enum Bad {
    Line,
    OutOfMemory,
}

impl fmt::Display for Bad {
    fn fmt<W: fmt::Write>(&self, f: &mut fmt::Formatter<W>) -> fmt::Result {
        f.write_str(match self {
            Bad::Line => "a line is not of the format",
            Bad::OutOfMemory => "there is no memory for it",
        })
    }
}

impl Error for Bad {}

impl From<AllocError> for Bad {
    fn from(_e: AllocError) -> Bad {
        Bad::OutOfMemory
    }
}

impl<T: Drop> From<AllocFailed<T>> for Bad {
    fn from(_e: AllocFailed<T>) -> Bad {
        Bad::OutOfMemory
    }
}

impl<E: Drop> From<Failure<E>> for Bad {
    fn from(e: Failure<E>) -> Bad {
        match e {
            Failure::Refused(_) => Bad::Line,
            Failure::OutOfMemory => Bad::OutOfMemory,
        }
    }
}
