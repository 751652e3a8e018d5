//! Packets laid over the front of an area; what is behind them stays.
ghost use Rattle.std.specs.Prelude.{◌≡◌};
ghost use Rattle.slices.specs.Answers.{told};
ghost use Rattle.packetline.specs.Packets.{flush, line, line_pkt};
ghost use Rattle.packetline.specs.Frames.{encode_number, Framed};

use crate::inner::{lay_data, lay_flush};
use slices::refusal::Numbered;

/// The greatest length of a payload.
pub const MAX_DATA_LEN: usize = 65_516;

/// Why nothing was laid down.
#[derive(Clone, Copy, PartialEq, Eq, Debug)]
pub enum Error {
    AreaTooShort,
    OutsideLimits,
}

impl Numbered for Error {
    ghost number = { encode_number };

    fn refusal_number(self) -> u8 {
        match self {
            Error::AreaTooShort => 1,
            Error::OutsideLimits => 2,
        }
    }
}

/// The packet of `payload` over the front of `area`, and its length.
pub fn data_to_area(payload: &[u8], area: &mut [u8]) -> Result<usize, Error>
    ensures { Framed (line payload.now) area.old (told (λ n. n) encode_number result) area.new }
{
    if area.len() < payload.len() + 4 {
        return Err(Error::AreaTooShort);
    }
    if payload.is_empty() || payload.len() > MAX_DATA_LEN {
        return Err(Error::OutsideLimits);
    }
    Ok(lay_data(payload, area))
}

/// The packet of a text line, which goes out as given: no LF is added.
// A name of the Rust beside `data_to_area`: what a line may be is another definition, which here says the same.
pub fn line_to_area(text: &[u8], area: &mut [u8]) -> Result<usize, Error>
    ensures { Framed (line_pkt text.now) area.old (told (λ n. n) encode_number result) area.new }
{
    data_to_area(text, area)
}

/// A flush over the front of `area`, and its length.
pub fn flush_to_area(area: &mut [u8]) -> Result<usize, Error>
    ensures { Framed flush area.old (told (λ n. n) encode_number result) area.new }
{
    if area.len() < 4 {
        return Err(Error::AreaTooShort);
    }
    Ok(lay_flush(area))
}
