//! What a call answers.
use crate::room::Room;
use crate::words::Shown;
use process::area::MAX_STATUS_LEN;
use process::status::Status;
use slices::refusal::Numbered;
use std::alloc::{AllocError, Global};
use std::fmt;

/// What a call answers: a word, a refusal's number, the status that a refusal is for, a handshake's version and mask, or what lies in the areas then.
#[derive(Clone, Copy)]
pub(crate) enum Answer {
    Word(&'static str),
    Number(u8),
    Status(Status),
    Final(Status),
    Shaken(u64, u32),
    Payload(usize),
    Paths(usize),
}

/// A refusal's number.
pub(crate) fn refused<E: Numbered>(e: E) -> Answer {
    Answer::Number(e.refusal_number())
}

/// A status, whose name lies at the front of the area.
#[derive(Clone, Copy)]
struct Told<'a> {
    status: Status,
    area: &'a [u8],
}

impl fmt::Display for Told<'_> {
    fn fmt<W: fmt::Write>(&self, f: &mut fmt::Formatter<W>) -> fmt::Result {
        match self.status {
            Status::Previous => f.write_str("previous"),
            Status::Unset => f.write_str("unset"),
            Status::Named(_, len) => {
                let front = &self.area[0..len.min(MAX_STATUS_LEN).min(self.area.len())];
                write!(f, "named {}", Shown(front))?;
                if len > MAX_STATUS_LEN {
                    write!(f, " of {len}")?;
                }
                Ok(())
            }
        }
    }
}

/// A result's final status; no status at all and an empty name are told alike.
fn finished(heap: Global, told: Told<'_>) -> Result<String, AllocError> {
    match told.status {
        Status::Unset | Status::Named(_, 0) => String::from_str(heap, "37 nameless"),
        _ => format!(in heap; "37 {told}"),
    }
}

/// The paths that the rows place in the text area.
fn paths(heap: Global, room: &Room, stored: usize) -> Result<String, AllocError> {
    let mut all = String::from_str(heap, "paths")?;
    for row in room.paths.iter().take(stored) {
        let path = room
            .text
            .get(row.at..row.at.saturating_add(row.len))
            .unwrap_or(b"");
        write!(all, " {}", Shown(path))?;
    }
    Ok(all)
}

impl Answer {
    /// The answer as it is printed; what lies in the areas is told with it.
    pub(crate) fn told(self, heap: Global, room: &Room) -> Result<String, AllocError> {
        let area = room.status.as_slice();
        match self {
            Answer::Word(word) => String::from_str(heap, word),
            Answer::Number(number) => format!(in heap; "{number}"),
            Answer::Status(status) => format!(in heap; "35 {}", Told { status, area }),
            Answer::Final(status) => finished(heap, Told { status, area }),
            Answer::Shaken(version, mask) => format!(in heap; "0 {version} {mask}"),
            Answer::Payload(n) => {
                let payload = Shown(&room.work[0..n.min(room.work.len())]);
                format!(in heap; "payload {payload}")
            }
            Answer::Paths(stored) => paths(heap, room, stored),
        }
    }
}
