//! The words of a line, and bytes as they are written and shown.
use crate::bad::Bad;
use packetline::text::number;
use recording::line::hex_bytes;
use std::alloc::{AllocError, Global};
use std::fmt;

/// How many equal bytes are told by their number.
const MANY: usize = 32;

/// The parts of a text between its LFs.
pub(crate) fn split_lines(heap: Global, text: &[u8]) -> Result<Vec<&[u8]>, AllocError> {
    text.split(|b| *b == b'\n').collect(heap)
}

/// The words of a line.
pub(crate) fn split_words(heap: Global, line: &[u8]) -> Result<Vec<&[u8]>, AllocError> {
    line.split(|b| *b == b' ').collect(heap)
}

/// The word at a place; where there is none it is empty, which no word is.
pub(crate) fn word<'a>(words: &[&'a [u8]], place: usize) -> &'a [u8] {
    match words.get(place) {
        Some(word) => word,
        None => b"",
    }
}

/// The items of a list that is parted by commas; `-` is an empty list.
pub(crate) fn items(heap: Global, text: &[u8]) -> Result<Vec<&[u8]>, AllocError> {
    if text == b"-".as_slice() {
        return Ok(Vec::new(heap));
    }
    text.split(|b| *b == b',').collect(heap)
}

/// A number.
pub(crate) fn whole_number(word: &[u8]) -> Result<u64, Bad> {
    number(word).ok_or(Bad::Line)
}

/// The numbers of a list.
pub(crate) fn numbers(heap: Global, text: &[u8]) -> Result<Vec<u64>, Bad> {
    items(heap, text)?
        .iter()
        .map(|item| whole_number(item))
        .try_collect(heap)
}

/// Adds one byte `count` times.
fn add_run(bytes: &mut Vec<u8>, count: u64, byte: u8) -> Result<(), AllocError> {
    for _ in 0..count {
        bytes.push(byte)?;
    }
    Ok(())
}

/// Adds what one part spells: pairs of digits, or `N*HH` for one byte N times.
fn add_part(heap: Global, bytes: &mut Vec<u8>, part: &[u8]) -> Result<(), Bad> {
    let mut halves = part.splitn(2, |b| *b == b'*');
    let first = halves.next().unwrap_or(b"");
    match halves.next() {
        None => bytes.extend_from_slice(&hex_bytes(heap, first)?)?,
        Some(digits) => {
            let one = hex_bytes(heap, digits)?;
            let byte = one.first().copied().ok_or(Bad::Line)?;
            add_run(bytes, whole_number(first)?, byte)?;
        }
    }
    Ok(())
}

/// The bytes that a word spells: parts joined by `+`; `-` for none.
pub(crate) fn spelt(heap: Global, word: &[u8]) -> Result<Vec<u8>, Bad> {
    let mut bytes = Vec::new(heap);
    if word == b"-".as_slice() {
        return Ok(bytes);
    }
    for part in word.split(|b| *b == b'+') {
        add_part(heap, &mut bytes, part)?;
    }
    Ok(bytes)
}

/// What was shown last of some bytes.
#[derive(Clone, Copy, PartialEq, Eq)]
enum Last {
    Nothing,
    Digits,
    Run,
}

/// Shows one byte `count` times, behind what was shown last.
fn show_run<W: fmt::Write>(
    f: &mut fmt::Formatter<W>,
    last: Last,
    count: usize,
    byte: u8,
) -> Result<Last, fmt::Error> {
    if count == 0 {
        return Ok(last);
    }
    if count >= MANY {
        if last != Last::Nothing {
            f.write_str("+")?;
        }
        write!(f, "{count}*{byte:02x}")?;
        return Ok(Last::Run);
    }
    if last == Last::Run {
        f.write_str("+")?;
    }
    for _ in 0..count {
        write!(f, "{byte:02x}")?;
    }
    Ok(Last::Digits)
}

/// Bytes as they are shown: digits, and 32 or more equal bytes by their number.
#[derive(Clone, Copy)]
pub(crate) struct Shown<'a>(pub(crate) &'a [u8]);

impl fmt::Display for Shown<'_> {
    fn fmt<W: fmt::Write>(&self, f: &mut fmt::Formatter<W>) -> fmt::Result {
        if self.0.is_empty() {
            return f.write_str("-");
        }
        let mut last = Last::Nothing;
        let mut count = 0usize;
        let mut byte = 0u8;
        for b in self.0 {
            if *b != byte {
                last = show_run(f, last, count, byte)?;
                count = 0;
                byte = *b;
            }
            count = count.saturating_add(1);
        }
        show_run(f, last, count, byte)?;
        Ok(())
    }
}
