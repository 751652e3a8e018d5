//! A name as a plain value, lawful by its ghost field.
ghost use Rattle.std.specs.Prelude.{◌≡◌, true};
ghost use Rattle.slices.specs.Limits.{is_name};
ghost use Rattle.slices.specs.Padding.{padded_bytes};

use crate::padded::Padded;

/// A name of 1 to 64 visible bytes.
#[derive(Clone, Copy)]
pub struct Name {
    pub(crate) text: Padded<64>,
    ghost lawful: { is_name (padded_bytes text) ≡ true },
}

/// The refusal of a text that is no name.
#[derive(Clone, Copy, Debug)]
pub struct OutsideLimits;
