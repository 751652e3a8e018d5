//! How what a request asks is stored in lent areas.
ghost use Rattle.std.specs.Prelude.{◌≡◌, ◌+◌, ◌≤◌, length};
ghost use Rattle.requests.specs.Requests.{StoresCommand, StoresLine};
ghost use Rattle.requests.specs.Stored.{LaysBehind, StoresPair};

use crate::asked::MetaRow;
use crate::fault::RequestFault;
use packetline::line::after;
use packetline::metadata::{pair, trim};
use slices::part::Part;
use slices::rows::Rows;

/// Lays bytes over a text area, from a place on.
fn lay(text: &mut [u8], at: usize, bytes: &[u8])
    requires { at + length bytes.now ≤ length text.old }
    ensures { LaysBehind at text.old bytes.now text.new }
{
    text[at..at + bytes.len()].copy_from_slice(bytes);
}

/// Stores the command in a line at the front of the text area; and its length.
pub fn store_command(text: &mut [u8], line: &[u8]) -> Result<usize, RequestFault>
    ensures { StoresCommand text.old line.now result text.new }
{
    let Some(command) = after(b"command=", line) else {
        return Err(RequestFault::Command);
    };
    let len = command.len();
    if len > text.len() {
        return Err(RequestFault::Full);
    }
    lay(text, 0, command);
    Ok(len)
}

// Rows and text area stand apart here, as the caller lends them.
/// Stores a pair from a place of the text area on, if rows and text area have space; and the place behind it.
fn store(
    rows: &mut Rows<'_, MetaRow>,
    text: &mut [u8],
    at: usize,
    key: &[u8],
    value: &[u8],
) -> Option<usize>
    requires { at ≤ length text.old }
    ensures lender { rows.new.rows.ghost_name ≡ rows.old.rows.ghost_name }
    ensures keeps { StoresPair at rows.old.rows.now rows.old.count text.old (key.now, value.now) result rows.new.rows.now rows.new.count text.new }
{
    if key.len() + value.len() > text.len() - at {
        return None;
    }
    let key_part = Part { at, len: key.len() };
    let value_part = Part {
        at: at + key.len(),
        len: value.len(),
    };
    rows.push(MetaRow {
        key: key_part,
        value: value_part,
    })
    .ok()?;
    lay(text, key_part.at, key);
    lay(text, value_part.at, value);
    Some(value_part.at + value_part.len)
}

/// Stores the pair in a line of metadata; and the place behind it.
pub fn store_pair(
    rows: &mut Rows<'_, MetaRow>,
    text: &mut [u8],
    at: usize,
    line: &[u8],
) -> Result<usize, RequestFault>
    requires { at ≤ length text.old }
    ensures lender { rows.new.rows.ghost_name ≡ rows.old.rows.ghost_name }
    ensures keeps { StoresLine at rows.old.rows.now rows.old.count text.old line.now result rows.new.rows.now rows.new.count text.new }
{
    let Some((key, value)) = pair(trim(line)) else {
        return Err(RequestFault::Metadata);
    };
    match store(rows, text, at, key, value) {
        Some(behind) => Ok(behind),
        None => Err(RequestFault::Full),
    }
}
