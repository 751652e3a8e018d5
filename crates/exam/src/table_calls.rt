//! The lines of a sheet that make a table's calls, and the line that claims which processes run.
use crate::bad::Bad;
use crate::sheet::{first_word, whole_number};
use exchange::call::{self, Call};
use recording::line::hex_bytes;
use recording::show::read_back;
use records::context::{Context, Delay};
use records::id::ObjectId;
use records::key::Key;
use records::operation::Operation;
use std::alloc::Global;

/// What an apply gives, and what it says of that.
// Not `Asked`, which borrows: a sheet's bytes stand escaped, so what they mean is owned here.
#[derive(Drop)]
pub(crate) struct Task {
    path: Vec<u8>,
    content: Vec<u8>,
    delay: Delay,
    ref_name: Option<Vec<u8>>,
    treeish: Option<ObjectId>,
    blob: Option<ObjectId>,
}

/// A table's call, with what its line says.
#[derive(Drop)]
pub(crate) enum TableCall {
    Apply(Key, Operation, Task),
    Fetch(Key, Operation, Vec<u8>),
    Paths(Key),
    Take(usize),
    GiveUp(usize),
    CloseAll,
}

impl Task {
    /// The same, as a call has it.
    fn as_asked(&self) -> call::Asked<'_> {
        call::Asked {
            context: Context {
                rela_path: &self.path,
                ref_name: self.ref_name.as_ref().map(|name| name.as_slice()),
                treeish: self.treeish,
                blob: self.blob,
            },
            delay: self.delay,
            content: &self.content,
        }
    }
}

impl TableCall {
    /// The call.
    pub(crate) fn as_call(&self) -> Call<'_> {
        match self {
            TableCall::Apply(key, operation, content) => {
                Call::Apply(*key, *operation, content.as_asked())
            }
            TableCall::Fetch(key, operation, path) => Call::Fetch(*key, *operation, path),
            TableCall::Paths(key) => Call::List(*key),
            TableCall::Take(process) => Call::Read(*process),
            TableCall::GiveUp(process) => Call::GiveUp(*process),
            TableCall::CloseAll => Call::CloseAll,
        }
    }
}

/// Where the quotation mark stands that ends a shown text.
fn closing_mark(text: &[u8]) -> Option<usize> {
    let mut is_escaped = false;
    for (i, b) in text.iter().enumerate() {
        if is_escaped {
            is_escaped = false;
        } else if *b == b'\\' {
            is_escaped = true;
        } else if *b == b'"' {
            return Some(i);
        }
    }
    None
}

/// The bytes that are shown first, between quotation marks, and the part behind the blank that follows; that part is empty where nothing follows.
fn first_shown(heap: Global, text: &[u8]) -> Result<(Vec<u8>, &[u8]), Bad> {
    let text = text.strip_prefix(b"\"").ok_or(Bad::Words)?;
    let end = closing_mark(text).ok_or(Bad::Words)?;
    let (front, rest) = text.split_at_checked(end).ok_or(Bad::Words)?;
    let rest = rest.strip_prefix(b"\"").ok_or(Bad::Words)?;
    let shown = read_back(heap, front)?;
    if rest.is_empty() {
        return Ok((shown, rest));
    }
    let rest = rest.strip_prefix(b" ").ok_or(Bad::Words)?;
    Ok((shown, rest))
}

/// The part behind a first word, if a text begins with that.
fn behind<'a>(word: &[u8], text: &'a [u8]) -> Option<&'a [u8]> {
    let (first, rest) = first_word(text);
    if first == word { Some(rest) } else { None }
}

/// A key that is the first word, and the part behind it.
fn first_key(text: &[u8]) -> Result<(Key, &[u8]), Bad> {
    let (word, rest) = first_word(text);
    match Key::new(word) {
        Ok(key) => Ok((key, rest)),
        Err(_) => Err(Bad::NoKey),
    }
}

/// A key that is a whole text.
fn whole_key(text: &[u8]) -> Result<Key, Bad> {
    let (key, rest) = first_key(text)?;
    if !rest.is_empty() {
        return Err(Bad::Words);
    }
    Ok(key)
}

/// An operation that is the first word, and the part behind it.
fn first_operation(text: &[u8]) -> Result<(Operation, &[u8]), Bad> {
    let (word, rest) = first_word(text);
    match word {
        b"clean" => Ok((Operation::Clean, rest)),
        b"smudge" => Ok((Operation::Smudge, rest)),
        _ => Err(Bad::Words),
    }
}

/// An object's id, in its digits.
fn id(heap: Global, digits: &[u8]) -> Result<ObjectId, Bad> {
    let Ok(bytes) = hex_bytes(heap, digits) else {
        return Err(Bad::NoId);
    };
    match bytes.as_slice().split_first_chunk::<20>() {
        Some((id, [])) => Ok(ObjectId::from(*id)),
        _ => Err(Bad::NoId),
    }
}

/// An id behind a word, if a text begins with that, and the part behind both.
fn named_id<'a>(
    heap: Global,
    word: &[u8],
    text: &'a [u8],
) -> Result<(Option<ObjectId>, &'a [u8]), Bad> {
    let Some(rest) = behind(word, text) else {
        return Ok((None, text));
    };
    let (digits, rest) = first_word(rest);
    Ok((Some(id(heap, digits)?), rest))
}

/// The name of a reference, if a text begins with one, and the part behind it.
fn reference(heap: Global, text: &[u8]) -> Result<(Option<Vec<u8>>, &[u8]), Bad> {
    let Some(rest) = behind(b"ref", text) else {
        return Ok((None, text));
    };
    let (name, rest) = first_shown(heap, rest)?;
    Ok((Some(name), rest))
}

/// Whether delay is allowed, and the part behind that.
fn allowance(text: &[u8]) -> (Delay, &[u8]) {
    match behind(b"delay", text) {
        Some(rest) => (Delay::Allow, rest),
        None => (Delay::Forbid, text),
    }
}

/// A path and a content, and what else is said of them, in this order.
fn content(heap: Global, text: &[u8]) -> Result<Task, Bad> {
    let (path, text) = first_shown(heap, text)?;
    let (content, text) = first_shown(heap, text)?;
    let (delay, text) = allowance(text);
    let (ref_name, text) = reference(heap, text)?;
    let (treeish, text) = named_id(heap, b"treeish", text)?;
    let (blob, text) = named_id(heap, b"blob", text)?;
    if !text.is_empty() {
        return Err(Bad::Words);
    }
    Ok(Task {
        path,
        content,
        delay,
        ref_name,
        treeish,
        blob,
    })
}

fn apply(heap: Global, text: &[u8]) -> Result<TableCall, Bad> {
    let (key, text) = first_key(text)?;
    let (operation, text) = first_operation(text)?;
    Ok(TableCall::Apply(key, operation, content(heap, text)?))
}

fn fetch(heap: Global, text: &[u8]) -> Result<TableCall, Bad> {
    let (key, text) = first_key(text)?;
    let (operation, text) = first_operation(text)?;
    let (path, rest) = first_shown(heap, text)?;
    if !rest.is_empty() {
        return Err(Bad::Words);
    }
    Ok(TableCall::Fetch(key, operation, path))
}

/// Whether a word begins a table's call.
pub(crate) fn is_table_word(word: &[u8]) -> bool {
    matches!(
        word,
        b"apply" | b"fetch" | b"paths" | b"take" | b"give-up" | b"close-all"
    )
}

/// A table's call, by its first word, which begins one, and the part behind it.
pub(crate) fn read_table_call(heap: Global, word: &[u8], rest: &[u8]) -> Result<TableCall, Bad> {
    match word {
        b"apply" => apply(heap, rest),
        b"fetch" => fetch(heap, rest),
        b"paths" => Ok(TableCall::Paths(whole_key(rest)?)),
        b"take" => Ok(TableCall::Take(whole_number(rest)?)),
        b"give-up" => Ok(TableCall::GiveUp(whole_number(rest)?)),
        b"close-all" if rest.is_empty() => Ok(TableCall::CloseAll),
        _ => Err(Bad::Words),
    }
}

/// The processes that are claimed to run: numbers parted by blanks, or `none`.
pub(crate) fn read_claim(heap: Global, text: &[u8]) -> Result<Vec<usize>, Bad> {
    if text == b"none".as_slice() {
        return Ok(Vec::new(heap));
    }
    text.split(|b| *b == b' ')
        .map(whole_number)
        .try_collect(heap)
}
