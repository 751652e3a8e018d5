//! Payloads that are text, and numbers in digits.
ghost use Rattle.std.specs.Prelude.{◌≡◌, ◌<◌, length, take, drop, Some, IsUtf8, decimal as decimal_of, Decides};
ghost use Rattle.slices.specs.Answers.{told};
ghost use Rattle.packetline.specs.declared.text.Error.TheVariants.{NotUtf8};
ghost use Rattle.packetline.specs.Text.{IsText, number_of, text_number, text_of, utf8};

use slices::refusal::Numbered;
use std::str::Utf8Error;

/// Why a payload is no text.
#[derive(Clone, Copy, PartialEq, Eq, Debug)]
pub enum Error {
    NotUtf8,
}

impl Numbered for Error {
    ghost number = { text_number };

    fn refusal_number(self) -> u8 {
        match self {
            Error::NotUtf8 => 22,
        }
    }
}

impl From<Utf8Error> for Error {
    ghost from_gives = { λ _ r. r ≡ NotUtf8 };

    fn from(_: Utf8Error) -> Error {
        Error::NotUtf8
    }
}

/// The text of a payload, without the white space at its end.
#[tactic(auto, using(crate::proofs::Texts::utf8_decides))]
pub fn text(payload: &[u8]) -> Result<&str, Error>
    ensures value { told (λ x. x.now) text_number result ≡ text_of payload.now }
    ensures law { IsText payload.now (told (λ x. x.now) text_number result) }
    ensures decides { Decides (utf8 payload.now) (IsUtf8 payload.now) }
{
    let text = std::str::from_utf8(payload)?;
    Ok(text.trim_end())
}

/// The number that digits write, with or without a `+` before them. What does not fit in 64 bits is none.
pub fn number(digits: &[u8]) -> Option<u64>
    ensures { result ≡ number_of digits.now }
{
    let text = std::str::from_utf8(digits).ok()?;
    text.parse().ok()
}

/// The decimal digits of `n`, at the end of `digits`, and where they begin.
pub fn decimal(n: u64, digits: &mut [u8; 20]) -> usize
    ensures value { drop result digits.new ≡ decimal_of n }
    ensures stays { take result digits.new ≡ take result digits.old }
    ensures bound { result < 20 }
    ensures len { length digits.new ≡ 20 }
    ensures law { number_of (decimal_of n) ≡ Some n }
{
    // Counted by hand: nothing new is to be trusted, as the kit's formatter would be, and std prints to the heap or to a writer whose text no clause places.
    let mut at = 19;
    let mut left = n;
    while left >= 10 {
        digits[at] = b'0' + (left % 10) as u8;
        left /= 10;
        at -= 1;
    }
    digits[at] = b'0' + left as u8;
    at
}
