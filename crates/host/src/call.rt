//! Why a call that users make did not do what it is for.
ghost use Rattle.host.specs.declared.call.CallError.TheVariants.{Line as of_line};
ghost use Rattle.std.specs.Prelude.{◌≡◌};
ghost use Rattle.host.specs.Refusals.{area_number, call_number};

use crate::fault::LineFault;
use slices::refusal::Numbered;

/// The caller is at fault, or what the call worked on is.
#[derive(Clone, Copy)]
pub enum CallError<C, E> {
    Caller(C),
    Line(E),
}

impl<C: Numbered, E: Numbered> Numbered for CallError<C, E> {
    ghost number = { λ e. call_number C.number E.number e };

    fn refusal_number(self) -> u8 {
        match self {
            CallError::Caller(misuse) => misuse.refusal_number(),
            CallError::Line(fault) => fault.refusal_number(),
        }
    }
}

impl<C, E> From<E> for CallError<C, E> {
    ghost from_gives = { λ e r. r ≡ of_line e };

    fn from(fault: E) -> CallError<C, E> {
        CallError::Line(fault)
    }
}

/// The refusal of an area that is too short for what a call may lay there.
#[derive(Clone, Copy)]
pub struct AreaTooShort;

impl Numbered for AreaTooShort {
    ghost number = { area_number };

    fn refusal_number(self) -> u8 {
        1
    }
}

/// Why a call refuses that judges its areas alone.
pub type AreaError = CallError<AreaTooShort, LineFault>;
