//! What a caller of a table may be at fault for.
ghost use Rattle.driver.specs.Answers.{misuse_number};

use slices::refusal::Numbered;

/// Nothing was changed: an area is too short, an argument is outside its limits, no record has the key, its result is being read, no reading record has the process of a result, or no place is free for a record.
#[derive(Clone, Copy, Debug)]
pub enum Misuse {
    AreaTooShort,
    OutsideLimits,
    UnknownKey,
    Reading,
    NotReading,
    NoFreePlace,
}

impl Numbered for Misuse {
    ghost number = { misuse_number };

    fn refusal_number(self) -> u8 {
        match self {
            Misuse::AreaTooShort => 1,
            Misuse::OutsideLimits => 2,
            Misuse::UnknownKey => 3,
            Misuse::Reading => 4,
            Misuse::NotReading => 5,
            Misuse::NoFreePlace => 6,
        }
    }
}
