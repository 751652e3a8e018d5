//! Why a line of a sheet is bad.
use recording::failure::Failure;
use recording::line::NotHexadecimal;
use recording::show::NotShown;
use std::alloc::{AllocError, AllocFailed};
use std::error::Error;
use std::fmt;

/// Why a line of a sheet is bad.
#[derive(Clone, Copy, Debug)]
pub(crate) enum Bad {
    Words,
    NoProcess,
    MirrorLate,
    MirrorTold,
    NotShown,
    NotHexadecimal,
    OutsideLimits,
    NoVersions,
    ListTooLarge,
    NoKey,
    NoId,
    Mixed,
    ClaimedTwice,
    // Not a Failure<Bad>: that type is recording's, so what converts to it could not stand here.
    OutOfMemory,
}

impl fmt::Display for Bad {
    fn fmt<W: fmt::Write>(&self, f: &mut fmt::Formatter<W>) -> fmt::Result {
        f.write_str(match self {
            Bad::Words => "these are not the words of a sheet",
            Bad::NoProcess => "no process stands before what is given",
            Bad::MirrorLate => "the first line that says anything tells of a mirror, and no other",
            Bad::MirrorTold => "a sheet does not tell what the processes of a mirror give",
            Bad::NotShown => "bytes are not shown so between quotation marks",
            Bad::NotHexadecimal => "its bytes are not pairs of lower-case hexadecimal digits",
            Bad::OutsideLimits => "a payload has 1 to 65516 bytes",
            Bad::NoVersions => "its versions are not numbers parted by commas",
            Bad::ListTooLarge => "a listing has at most 65536 rows and 65536 bytes of room",
            Bad::NoKey => "a key has 1 to 128 bytes",
            Bad::NoId => "an id is 40 lower-case hexadecimal digits",
            Bad::Mixed => "a sheet makes the calls of a table, or others, and not both",
            Bad::ClaimedTwice => "a sheet makes one claim",
            Bad::OutOfMemory => "there is no memory for it",
        })
    }
}

impl Error for Bad {}

impl From<AllocError> for Bad {
    fn from(_e: AllocError) -> Bad {
        Bad::OutOfMemory
    }
}

impl<T: Drop> From<AllocFailed<T>> for Bad {
    fn from(_e: AllocFailed<T>) -> Bad {
        Bad::OutOfMemory
    }
}

impl From<NotShown> for Bad {
    fn from(_e: NotShown) -> Bad {
        Bad::NotShown
    }
}

impl From<NotHexadecimal> for Bad {
    fn from(_e: NotHexadecimal) -> Bad {
        Bad::NotHexadecimal
    }
}

impl<E> From<Failure<E>> for Bad
where
    Bad: From<E>,
{
    fn from(e: Failure<E>) -> Bad {
        match e {
            Failure::Refused(why) => why.into(),
            Failure::OutOfMemory => Bad::OutOfMemory,
        }
    }
}
