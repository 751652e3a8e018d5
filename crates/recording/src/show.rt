//! Bytes shown to a person, each so that it can be told from every other.
ghost use Rattle.std.specs.Prelude.{◌≡◌, ◌*◌, ◌/◌, ◌%◌, ◌<◌, ◌≤◌, [], ◌∷◌, ◌++◌, IfOk, length, string_bytes, slice_index, Some};
ghost use Rattle.std.specs.Str.{IsUtf8};
ghost use Rattle.packetline.specs.Packets.{hex_char, over};
ghost use Rattle.recording.specs.Shown.{shown, escaped, Unambiguous, ReadBack, Behind, digit_value, lead};

use crate::failure::Failure;
use crate::line::hex_value;
use packetline::inner::hex_char;
use packetline::line::after;
use std::alloc::{AllocError, Global};
use std::fmt;

/// A text that shows no bytes.
#[derive(Clone, Copy, PartialEq, Eq, Debug)]
pub struct NotShown;

/// How many bytes are shown at a time, in an area on the stack.
const PART: usize = 256;

/// `bytes` over the front of `area`, and their number.
fn lay(bytes: &[u8], area: &mut [u8]) -> usize
    requires { length bytes.now ≤ length area.old }
    ensures value { area.new ≡ over bytes.now area.old }
    ensures len { result ≡ length bytes.now }
{
    area[..bytes.len()].copy_from_slice(bytes);
    bytes.len()
}

/// A byte as it is shown over the front of `area`, and its length there.
fn lay_shown(b: u8, area: &mut [u8]) -> usize
    requires { 4 ≤ length area.old }
    ensures value { area.new ≡ over (shown b) area.old }
    ensures len { result ≡ length (shown b) }
{
    match b {
        b'\n' => lay(b"\\n", area),
        b'"' => lay(b"\\\"", area),
        b'\\' => lay(b"\\\\", area),
        b' '..=b'~' => lay(&[b], area),
        _ => {
            let high = hex_char(usize::from(b / 16));
            let low = hex_char(usize::from(b % 16));
            lay(&[b'\\', b'x', high, low], area)
        }
    }
}

/// `bytes` as they are shown over the front of `area`, and their length there.
fn lay_escaped(bytes: &[u8], area: &mut [u8]) -> usize
    requires { 4 * length bytes.now ≤ length area.old }
    ensures value { area.new ≡ over (escaped bytes.now) area.old }
    ensures len { result ≡ length (escaped bytes.now) }
    ensures text { IsUtf8 (escaped bytes.now) }
{
    let mut n = 0;
    for b in bytes {
        n += lay_shown(*b, &mut area[n..]);
    }
    n
}

/// Bytes that print as a text: printable ASCII as it is, the rest behind a backslash.
#[derive(Clone, Copy)]
pub struct Escaped<'a>(pub &'a [u8]);

impl fmt::Display for Escaped<'_> {
    ghost output = { λ bytes. Some (escaped bytes.0.now) };

    fn fmt<W: fmt::Write>(&self, f: &mut fmt::Formatter<W>) -> fmt::Result {
        for part in self.0.chunks(PART) {
            let mut area = [0; 4 * PART];
            let n = lay_escaped(part, &mut area);
            f.write_str(str::from_utf8(&area[..n]).unwrap())?;
        }
        Ok(())
    }
}

/// Bytes as the text that `Escaped` prints.
#[tactic(auto, using(crate::proofs::Apart::unambiguous))]
pub fn escape(heap: Global, bytes: &[u8]) -> Result<String, AllocError>
    ensures value { IfOk result (λ t. string_bytes t ≡ escaped bytes.now) }
    ensures apart { Unambiguous }
{
    format!(in heap; "{}", Escaped(bytes))
}

/// The byte at an index, or 0 behind the end.
fn byte_at(text: &[u8], i: usize) -> u8
    ensures { result ≡ slice_index text.now i }
{
    text.get(i).copied().unwrap_or(0)
}

/// The value of a hexadecimal digit in lower case, or 0.
#[tactic(auto, using(crate::proofs::Apart::digit_of))]
fn digit_value(b: u8) -> u8
    ensures value { result ≡ digit_value b }
    ensures small { result < 16 }
{
    hex_value(b).unwrap_or(0)
}

/// The byte that a text shows first, if it shows any; some byte where it shows none, which `behind` then refuses.
// No Option: it would say first what `behind` says for every text.
fn lead(text: &[u8]) -> u8
    ensures { result ≡ lead text.now }
{
    let first = byte_at(text, 0);
    if first != b'\\' {
        return first;
    }
    match byte_at(text, 1) {
        b'n' => b'\n',
        b'x' => digit_value(byte_at(text, 2)) * 16 + digit_value(byte_at(text, 3)),
        second => second,
    }
}

/// What stands behind one byte as it is shown.
fn behind(text: &[u8], b: u8) -> Option<&[u8]>
    ensures { Behind text.now (shown b) result }
{
    match b {
        b'\n' => after(b"\\n", text),
        b'"' => after(b"\\\"", text),
        b'\\' => after(b"\\\\", text),
        b' '..=b'~' => after(&[b], text),
        _ => after(
            &[
                b'\\',
                b'x',
                hex_char(usize::from(b / 16)),
                hex_char(usize::from(b % 16)),
            ],
            text,
        ),
    }
}

/// The bytes that a text shows: exactly the texts that `escape` writes are taken.
pub fn read_back(heap: Global, text: &[u8]) -> Result<Vec<u8>, Failure<NotShown>>
    ensures { ReadBack text.now result }
{
    let mut bytes = Vec::new(heap);
    let mut rest = text;
    // No iterator: how many bytes a step takes depends on what is left.
    while !rest.is_empty() {
        let b = lead(rest);
        let Some(tail) = behind(rest, b) else {
            return Err(Failure::Refused(NotShown));
        };
        bytes.push(b)?;
        rest = tail;
    }
    Ok(bytes)
}
