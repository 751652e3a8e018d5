//! Lines of metadata: bytes, perhaps no text.
ghost use Rattle.std.specs.Prelude.{◌≡◌, ◌<◌, ◌≤◌, length, MatchOption};
ghost use Rattle.std.specs.Option.{option_map};
ghost use Rattle.packetline.specs.Metadata.{Bare, IsPair, LessEnds, Padded, blank, both, pair_of, part, rest, trim_both};

use crate::text::text;
use slices::equal::first;

// A side of a line. A switch, and no closure: its clause would have to name the definitions `part`, `rest` and `both` for its side.
#[derive(Clone, Copy)]
enum Side {
    Front,
    Back,
}

// The `n` bytes at a side of a line, and the others.
fn split(line: &[u8], side: Side, n: usize) -> (&[u8], &[u8])
    requires { n ≤ length line.now }
    ensures { both result ≡ (part side n line.now, rest side n line.now) }
{
    match side {
        Side::Front => line.split_at(n),
        Side::Back => {
            let (others, last) = line.split_at(line.len() - n);
            (last, others)
        }
    }
}

// Whether bytes are white space.
fn is_blank(bytes: &[u8]) -> bool
    ensures { result ≡ blank bytes.now }
{
    match text(bytes) {
        Ok(kept) => kept.is_empty(),
        Err(_) => false,
    }
}

// A line without the white character at a side, if there is one. UTF-8 spells it in at most three bytes.
fn less_white(line: &[u8], side: Side) -> Option<&[u8]>
    ensures { MatchOption result (Bare side line.now) (λ t. Padded side line.now t.now × (length t.now < length line.now)) }
{
    // `find_map` over the range was tried: the goal at the end stays open.
    for n in 1..4 {
        if n <= line.len() {
            let (bytes, others) = split(line, side, n);
            if is_blank(bytes) {
                return Some(others);
            }
        }
    }
    None
}

// A line without the white space at a side.
fn trim_side(line: &[u8], side: Side) -> &[u8]
    ensures { Padded side line.now result.now × Bare side result.now }
{
    // No iterator: a step depends on what is left.
    let mut trimmed = line;
    while let Some(less) = less_white(trimmed, side) {
        trimmed = less;
    }
    trimmed
}

/// A line without the white space at its ends. Bytes that are not UTF-8 are not white.
pub fn trim(line: &[u8]) -> &[u8]
    ensures value { result.now ≡ trim_both line.now }
    ensures law { LessEnds line.now result.now }
{
    trim_side(trim_side(line, Side::Front), Side::Back)
}

/// Key and value around the first `=`.
pub fn pair(line: &[u8]) -> Option<(&[u8], &[u8])>
    ensures value { option_map both result ≡ pair_of line.now }
    ensures law { IsPair line.now (option_map both result) }
{
    let at = first(line, &b'=')?;
    Some((&line[..at], &line[at + 1..]))
}
