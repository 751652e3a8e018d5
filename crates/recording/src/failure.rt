//! Why something is not read.
ghost use Rattle.std.specs.Prelude.{◌≡◌, ℕ, List, Option};
ghost use Rattle.recording.specs.declared.failure.Failure.TheVariants.{OutOfMemory};
ghost use Rattle.recording.specs.Failures.{failure_text};

use std::alloc::{AllocError, AllocFailed};
use std::error::Error;
use std::fmt;

/// What is read is refused, or there is no memory for what it says.
#[derive(Clone, Copy, PartialEq, Eq, Debug)]
pub enum Failure<E> {
    Refused(E),
    OutOfMemory,
}

impl<E> From<AllocError> for Failure<E> {
    ghost from_gives = { λ _ r. r ≡ OutOfMemory };

    fn from(_e: AllocError) -> Failure<E> {
        Failure::OutOfMemory
    }
}

impl<E, T: Drop> From<AllocFailed<T>> for Failure<E> {
    ghost from_gives = { λ _ r. r ≡ OutOfMemory };

    fn from(_e: AllocFailed<T>) -> Failure<E> {
        Failure::OutOfMemory
    }
}

impl<E: fmt::Display> fmt::Display for Failure<E> {
    ghost output = { failure_text E.output };

    fn fmt<W: fmt::Write>(&self, f: &mut fmt::Formatter<W>) -> fmt::Result {
        match self {
            Failure::Refused(why) => fmt::Display::fmt(why, f),
            Failure::OutOfMemory => f.write_str("there is no memory for its bytes"),
        }
    }
}

impl<E: Error> Error for Failure<E> {}
