//! One line of a recording.
ghost use Rattle.std.specs.Prelude.{◌≡◌, ◌∷◌, Some};
ghost use Rattle.recording.specs.Recorded.{sign, DigitRead, ByteRead, BytesRead, Parsed, bad_line_text, refused_digits};

use crate::failure::Failure;
use std::alloc::Global;
use std::error::Error;
use std::fmt;

/// Who sent the bytes of a record: the client, or the process that gave them to it.
#[derive(Clone, Copy, PartialEq, Eq, Debug)]
pub enum Direction {
    Sent,
    Given,
}

/// The bytes that a line records.
#[derive(Drop, Debug)]
pub struct Record {
    pub direction: Direction,
    pub bytes: Vec<u8>,
}

/// Why a line is neither a comment nor a record.
#[derive(Clone, Copy, PartialEq, Eq, Debug)]
pub enum BadLine {
    NoDirection,
    NoBlank,
    NoBytes,
    NotHexadecimal,
}

impl fmt::Display for BadLine {
    ghost output = { λ e. Some (bad_line_text e) };

    fn fmt<W: fmt::Write>(&self, f: &mut fmt::Formatter<W>) -> fmt::Result {
        f.write_str(match self {
            BadLine::NoDirection => "it begins with neither > nor < nor #",
            BadLine::NoBlank => "no blank follows its sign",
            BadLine::NoBytes => "it has no bytes",
            BadLine::NotHexadecimal => "its bytes are not pairs of lower-case hexadecimal digits",
        })
    }
}

impl Error for BadLine {}

/// Digits that write no bytes.
#[derive(Clone, Copy, PartialEq, Eq, Debug)]
pub struct NotHexadecimal;

impl From<Failure<NotHexadecimal>> for Failure<BadLine> {
    ghost from_gives = { λ e r. r ≡ refused_digits e };

    fn from(e: Failure<NotHexadecimal>) -> Failure<BadLine> {
        match e {
            Failure::Refused(NotHexadecimal) => Failure::Refused(BadLine::NotHexadecimal),
            Failure::OutOfMemory => Failure::OutOfMemory,
        }
    }
}

/// The value of a hexadecimal digit in lower case.
pub(crate) fn hex_value(b: u8) -> Option<u8>
    ensures { DigitRead b result }
{
    // `to_digit` takes upper case as well.
    match b {
        b'0'..=b'9' => Some(b - b'0'),
        b'a'..=b'f' => Some(b - b'a' + 10),
        _ => None,
    }
}

/// The byte that two digits write.
fn hex_byte(high: u8, low: u8) -> Option<u8>
    ensures { ByteRead high low result }
{
    Some(hex_value(high)? * 16 + hex_value(low)?)
}

/// The bytes that digits write, two digits a byte.
pub fn hex_bytes(heap: Global, digits: &[u8]) -> Result<Vec<u8>, Failure<NotHexadecimal>>
    ensures { BytesRead digits.now result }
{
    let (pairs, odd) = digits.as_chunks::<2>();
    if !odd.is_empty() {
        return Err(Failure::Refused(NotHexadecimal));
    }
    let mut bytes = Vec::new(heap);
    for &[high, low] in pairs {
        let Some(b) = hex_byte(high, low) else {
            return Err(Failure::Refused(NotHexadecimal));
        };
        bytes.push(b)?;
    }
    Ok(bytes)
}

/// What stands behind the sign of a record: a blank, and the digits of one byte or more.
fn read_record(
    heap: Global,
    direction: Direction,
    rest: &[u8],
) -> Result<Option<Record>, Failure<BadLine>>
    ensures { Parsed (sign direction ∷ rest.now) result }
{
    let Some((b' ', digits)) = rest.split_first() else {
        return Err(Failure::Refused(BadLine::NoBlank));
    };
    if digits.is_empty() {
        return Err(Failure::Refused(BadLine::NoBytes));
    }
    let bytes = hex_bytes(heap, digits)?;
    Ok(Some(Record { direction, bytes }))
}

/// Reads a line: a record, or nothing.
pub fn parse(heap: Global, line: &[u8]) -> Result<Option<Record>, Failure<BadLine>>
    ensures { Parsed line.now result }
{
    match line.split_first() {
        None | Some((b'#', _)) => Ok(None),
        Some((b'>', rest)) => read_record(heap, Direction::Sent, rest),
        Some((b'<', rest)) => read_record(heap, Direction::Given, rest),
        Some(_) => Err(Failure::Refused(BadLine::NoDirection)),
    }
}
