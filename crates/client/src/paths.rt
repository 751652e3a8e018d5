//! Where a listing stores paths.
ghost use Rattle.std.specs.Prelude.{◌≡◌, ◌≤◌, length, IfSome, Some};
ghost use Rattle.std.specs.Option.{option_map};
ghost use Rattle.packetline.specs.Lines.{kind_of};
ghost use Rattle.client.specs.Paths.{less_lf, path_in, KeepsPath, KeepsLine};

use packetline::line::Line;
use slices::rows::Rows;

/// Where a path lies in the text area.
#[derive(Clone, Copy)]
pub struct PathRow {
    // Places in the text area that the caller lends: the library allocates nothing.
    pub at: usize,
    pub len: usize,
}

/// What a listing keeps while it reads: how many paths were named (a count that stays at 2^64 - 1), and where in the text area the next one goes, unless a path found no space.
#[derive(Clone, Copy)]
pub(crate) struct Kept {
    pub(crate) named: usize,
    pub(crate) next: Option<usize>,
}

/// Bytes less one LF at their end.
fn less_lf(bytes: &[u8]) -> &[u8]
    ensures { result.now ≡ less_lf bytes.now }
{
    bytes.strip_suffix(b"\n").unwrap_or(bytes)
}

/// The path in a payload, if it is a `pathname=` line.
fn path_in(payload: &[u8]) -> Option<&[u8]>
    ensures { option_map (λ x. x.now) result ≡ path_in (kind_of payload.now) }
{
    match Line::read(payload) {
        Line::Pathname(part) => Some(less_lf(part)),
        _ => None,
    }
}

// Rows and text area stand apart here, as the caller lends them.
/// Stores a path from a place of the text area on, if rows and text area have space; and where the next one goes then.
fn store(rows: &mut Rows<'_, PathRow>, text: &mut [u8], at: usize, path: &[u8]) -> Option<usize>
    requires { at ≤ length text.old }
    ensures lender { rows.new.rows.ghost_name ≡ rows.old.rows.ghost_name }
    ensures keeps { KeepsPath (Some at) rows.old.rows.now rows.old.count text.old path.now result rows.new.rows.now rows.new.count text.new }
{
    let len = path.len();
    if len > text.len() - at {
        return None;
    }
    rows.push(PathRow { at, len }).ok()?;
    text[at..at + len].copy_from_slice(path);
    Some(at + len)
}

/// Takes note of one line: a path that it names is counted, and stored where all before it are and there is space.
pub(crate) fn keep(
    rows: &mut Rows<'_, PathRow>,
    text: &mut [u8],
    kept: Kept,
    payload: &[u8],
) -> Kept
    requires { IfSome kept.next (λ at. at ≤ length text.old) }
    ensures lender { rows.new.rows.ghost_name ≡ rows.old.rows.ghost_name }
    ensures keeps { KeepsLine kept rows.old.rows.now rows.old.count text.old (path_in (kind_of payload.now)) result rows.new.rows.now rows.new.count text.new }
{
    let Some(path) = path_in(payload) else {
        return kept;
    };
    let named = kept.named.saturating_add(1);
    let next = match kept.next {
        Some(at) => store(rows, text, at, path),
        None => None,
    };
    Kept { named, next }
}
