//! What a table's calls answer, in words.
use crate::asking::Said;
use crate::listing::shown;
use crate::refusals::Refusal;
use driver::list::Paths;
use exchange::answer::Answer;
use packetline::decode::PacketLines;
use packetline::line::Line;
use packetline::packet::PacketLineRef;
use packetline::text::text;
use process::status::Status;
use std::alloc::{AllocError, Global};

/// The name in a packet that tells a status.
fn name_in(packet: PacketLineRef<'_>) -> Option<&[u8]> {
    let PacketLineRef::Data(payload) = packet else {
        return None;
    };
    let text = text(payload).ok()?;
    match Line::read(text.as_bytes()) {
        Line::Status(name) => Some(name),
        _ => None,
    }
}

/// The name that the last status has, of those given.
fn last_name(given: &[u8]) -> &[u8] {
    let mut last: &[u8] = b"";
    for packet in PacketLines::new(given) {
        if let Some(name) = name_in(packet) {
            last = name;
        }
    }
    last
}

/// A status that a call answered, by what was given in the call.
fn said(given: &[u8], status: Status) -> Said<'_> {
    Said {
        status,
        area: last_name(given),
    }
}

/// The payload that was given first.
fn first_payload(given: &[u8]) -> &[u8] {
    match PacketLines::new(given).next() {
        Some(PacketLineRef::Data(payload)) => payload,
        _ => b"",
    }
}

/// The path in a payload, if it is a `pathname=` line.
fn path_in(payload: &[u8]) -> Option<&[u8]> {
    match Line::read(payload) {
        Line::Pathname(path) => Some(path.strip_suffix(b"\n").unwrap_or(path)),
        _ => None,
    }
}

/// The paths that were named before the first flush.
fn named_paths(heap: Global, given: &[u8]) -> Result<Vec<&[u8]>, AllocError> {
    let mut paths = Vec::new(heap);
    for packet in PacketLines::new(given) {
        match packet {
            PacketLineRef::Flush => break,
            PacketLineRef::Data(payload) => {
                if let Some(path) = path_in(payload) {
                    paths.push(path)?;
                }
            }
            _ => {}
        }
    }
    Ok(paths)
}

/// Adds a line for each path that is stored.
fn add_paths(
    heap: Global,
    mut answer: String,
    given: &[u8],
    stored: usize,
) -> Result<String, AllocError> {
    for path in named_paths(heap, given)?.iter().take(stored) {
        write!(answer, "\n    path {}", shown(path))?;
    }
    Ok(answer)
}

fn listed(heap: Global, given: &[u8], paths: Paths) -> Result<String, AllocError> {
    let stored = paths.stored;
    let noun = if stored == 1 { "path" } else { "paths" };
    add_paths(heap, format!(in heap; "{stored} {noun}")?, given, stored)
}

fn full(heap: Global, given: &[u8], paths: Paths) -> Result<String, AllocError> {
    let named = paths.named;
    let stored = paths.stored;
    let refusal = Refusal(7);
    let answer = format!(in heap; "{refusal}: {named} named, {stored} stored")?;
    add_paths(heap, answer, given, stored)
}

/// A refusal, by its number and what that means.
fn refused(heap: Global, answer: Answer) -> Result<String, AllocError> {
    let refusal = Refusal(answer.number().unwrap_or(0));
    format!(in heap; "{refusal}")
}

/// A status that is no success, with the number that it is refused by.
fn failed(heap: Global, answer: Answer, said: Said<'_>) -> Result<String, AllocError> {
    let refusal = Refusal(answer.number().unwrap_or(0));
    format!(in heap; "{refusal}: {said}")
}

/// What a call answered. Names, payloads and paths are read off what was given in the call.
pub(crate) fn words(heap: Global, answer: Answer, given: &[u8]) -> Result<String, AllocError> {
    match answer {
        Answer::Passed => String::from_str(heap, "passed"),
        Answer::Delayed => String::from_str(heap, "delayed"),
        Answer::Result(process) => format!(in heap; "a result of process {process}"),
        Answer::Payload(_) => format!(in heap; "payload {}", shown(first_payload(given))),
        Answer::Finished => String::from_str(heap, "end"),
        Answer::Paths(paths) => listed(heap, given, paths),
        Answer::Full(paths) => full(heap, given, paths),
        Answer::Done => String::from_str(heap, "done"),
        Answer::Failed(status) | Answer::Unfinished(status) => {
            failed(heap, answer, said(given, status))
        }
        _ => refused(heap, answer),
    }
}
