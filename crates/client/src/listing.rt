//! What a listing answers.
ghost use Rattle.std.specs.Prelude.{◌≡◌};
ghost use Rattle.client.specs.declared.listing.ListFault.TheVariants.{Line as of_line};
ghost use Rattle.client.specs.Listings.{list_number};

use host::call::{AreaTooShort, CallError};
use host::fault::LineFault;
use process::status::Status;
use slices::refusal::Numbered;

/// The status of a listing, how many paths were named (a count that stays at 2^64 - 1), and how many of them are stored.
#[derive(Clone, Copy)]
pub struct Listed {
    pub status: Status,
    pub named: usize,
    // A count: the rows are the caller's, and a slice of them would keep them borrowed.
    pub stored: usize,
}

/// Why not all paths were listed. Where a path found no space the listing was read to its end, and what it told is kept whole.
#[derive(Clone, Copy)]
pub enum ListFault {
    Full(Listed),
    Line(LineFault),
}

impl Numbered for ListFault {
    ghost number = { list_number };

    fn refusal_number(self) -> u8 {
        match self {
            ListFault::Full(_) => 7,
            ListFault::Line(fault) => fault.refusal_number(),
        }
    }
}

impl From<LineFault> for ListFault {
    ghost from_gives = { λ f r. r ≡ of_line f };

    fn from(fault: LineFault) -> ListFault {
        ListFault::Line(fault)
    }
}

/// Why a listing refuses: an area is too short, or not all paths were listed.
pub type ListError = CallError<AreaTooShort, ListFault>;
