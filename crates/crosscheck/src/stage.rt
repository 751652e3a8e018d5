//! What an exchange is played on, and what is told of each call.
ghost use Rattle.std.specs.Prelude.{◌≤◌, length};

use crate::bad::Bad;
use crate::cast::Cast;
use crate::room::Room;
use crate::watched::Watched;
use crate::words::{Shown, spelt, split_words, word};
use driver::state::State;
use host::host::{Host, How};
use recording::line::Direction;
use records::record::Record;
use records::records::MAX_RECORDS;
use scripts::script::{Row, Script};
use std::alloc::{AllocError, Global};
use trace::traced::{Passed, Traced};

/// What a started process is known by: its row, how many bytes still wait there, and what went since that was last told.
#[derive(Drop)]
struct Seen {
    row: usize,
    left: usize,
    moved: bool,
    sent: Vec<u8>,
}

/// A table and a host with what is known of its processes, and what was told so far.
#[derive(Drop)]
pub(crate) struct Stage<'a> {
    pub(crate) heap: Global,
    pub(crate) host: Traced<Watched<Script<'a>>>,
    pub(crate) table: State,
    bytes: &'a [u8],
    rows: &'a [Row],
    seen: Vec<Seen>,
    pub(crate) told: String,
}

/// Takes note of bytes that passed.
fn note(seen: &mut Seen, passed: &Passed) -> Result<(), AllocError> {
    match passed.direction {
        Direction::Sent => seen.sent.extend_from_slice(&passed.bytes),
        Direction::Given => {
            seen.left = seen.left.saturating_sub(passed.bytes.len());
            seen.moved = true;
            Ok(())
        }
    }
}

/// Tells what a process was sent, and that it was ended or what still waits there.
fn tell(
    told: &mut String,
    number: usize,
    seen: &mut Seen,
    ended: Option<How>,
) -> Result<(), AllocError> {
    if !seen.sent.is_empty() {
        writeln!(told, "sent {number} {}", Shown(&seen.sent))?;
        seen.sent.clear();
    }
    match ended {
        Some(How::Close) => writeln!(told, "close {number}")?,
        Some(How::Kill) => writeln!(told, "kill {number}")?,
        None => {
            if seen.moved {
                let left = seen.left;
                writeln!(told, "left {number} {left}")?;
            }
        }
    }
    seen.moved = false;
    Ok(())
}

/// Where a record goes among others that stand in the order of their keys.
fn place_among(records: &[Record], record: &Record) -> usize
    ensures { result ≤ length records.now }
{
    let key = record.key.as_bytes();
    records
        .iter()
        .position(|other| other.key.as_bytes() > key)
        .unwrap_or(records.len())
}

impl<'a> Stage<'a> {
    pub(crate) fn new(heap: Global, cast: &'a Cast) -> Result<Stage<'a>, Bad> {
        let Ok(script) = Script::new(&cast.bytes, &cast.rows) else {
            return Err(Bad::Line);
        };
        Ok(Stage {
            heap,
            host: Traced::new(Watched::new(script, heap)?, heap),
            table: State::new(),
            bytes: &cast.bytes,
            rows: &cast.rows,
            seen: Vec::new(heap),
            told: String::new(heap),
        })
    }

    /// The first row of a command that no process has yet.
    fn unused(&self, command: &[u8]) -> Option<usize> {
        self.rows.iter().enumerate().position(|(i, row)| {
            row.command.slice(self.bytes) == command && self.seen.iter().all(|seen| seen.row != i)
        })
    }

    /// Takes note of a process that was just started for a command.
    fn enter(&mut self, command: &[u8], moved: bool) -> Result<(), Bad> {
        let row = self.unused(command).ok_or(Bad::Line)?;
        let left = match self.rows.get(row) {
            Some(row) => row.plays.len,
            None => 0,
        };
        self.seen.push(Seen {
            row,
            left,
            moved,
            sent: Vec::new(self.heap),
        })?;
        Ok(())
    }

    /// Starts the peer of a server; nothing is told of that.
    pub(crate) fn start_peer(&mut self) -> Result<usize, Bad> {
        let Ok(process) = self.host.start(b"") else {
            return Err(Bad::Line);
        };
        self.enter(b"", false)?;
        Ok(process)
    }

    /// Tells the processes that a command's call started; it starts one at most.
    fn tell_started(&mut self, command: &[u8]) -> Result<(), Bad> {
        let before = self.seen.len();
        for number in before..self.host.below.started {
            self.enter(command, true)?;
            writeln!(self.told, "start {number}")?;
        }
        Ok(())
    }

    /// Tells what passed, and which processes were ended.
    pub(crate) fn tell_passed(&mut self) -> Result<(), Bad> {
        let notes = self.host.take().ok_or(Bad::OutOfMemory)?;
        for passed in &notes {
            if let Some(seen) = self.seen.get_mut(passed.process) {
                note(seen, passed)?;
            }
        }
        for number in 0..self.seen.len() {
            let ended = match self.host.below.ended.get_mut(number) {
                Some(place) => place.take(),
                None => None,
            };
            if let Some(seen) = self.seen.get_mut(number) {
                tell(&mut self.told, number, seen, ended)?;
            }
        }
        Ok(())
    }

    /// Tells a table's records, in the order of their keys.
    fn tell_records(&mut self) -> Result<(), Bad> {
        let mut records: Vec<Record> = Vec::new(self.heap);
        for place in 0..MAX_RECORDS {
            if let Some(record) = self.table.records().get(place) {
                let at = place_among(&records, &record);
                records.insert(at, record)?;
            }
        }
        for record in records {
            let key = Shown(record.key.as_bytes());
            let process = record.process;
            let version = record.version;
            let mask = record.capabilities.mask;
            writeln!(self.told, "record {key} {process} {version} {mask}")?;
        }
        Ok(())
    }

    /// Tells a line as it is written.
    pub(crate) fn tell_line(&mut self, line: &[u8]) -> Result<(), Bad> {
        let Ok(line) = std::str::from_utf8(line) else {
            return Err(Bad::Line);
        };
        writeln!(self.told, "{line}")?;
        Ok(())
    }

    /// How many bytes still wait at a process.
    pub(crate) fn left(&self, number: usize) -> usize {
        match self.seen.get(number) {
            Some(seen) => seen.left,
            None => 0,
        }
    }

    /// Plays the lines of an exchange of a table.
    fn apply_lines(&mut self, room: &mut Room, lines: &[&[u8]]) -> Result<(), Bad> {
        for line in lines {
            if is_scene(line) {
                self.tell_line(line)?;
            } else {
                let words = split_words(self.heap, line)?;
                self.call(room, line, &words)?;
            }
        }
        Ok(())
    }

    /// Makes a call, and tells what it answered and what happened.
    fn call(&mut self, room: &mut Room, line: &[u8], words: &[&[u8]]) -> Result<(), Bad> {
        let answer = self.make(room, words)?.told(self.heap, room)?;
        self.tell_line(line)?;
        writeln!(self.told, "= {answer}")?;
        self.tell_started(&spelt(self.heap, word(words, 1))?)?;
        self.tell_passed()?;
        self.tell_records()
    }
}

/// Whether a line is no call: it is told as it is written.
pub(crate) fn is_scene(line: &[u8]) -> bool {
    match line.first() {
        Some(b'c') => line.starts_with(b"case "),
        Some(b'p') => line.starts_with(b"proc ") || line.starts_with(b"peer "),
        Some(b'#') => true,
        _ => false,
    }
}

/// Plays an exchange, and answers all that is told of it.
pub(crate) fn play(heap: Global, room: &mut Room, lines: &[&[u8]]) -> Result<String, Bad> {
    let mut cast = Cast::new(heap);
    for line in lines {
        cast.add(heap, line)?;
    }
    let mut stage = Stage::new(heap, &cast)?;
    if lines.iter().any(|line| line.starts_with(b"serve ")) {
        stage.attend(room, lines)?;
    } else {
        stage.apply_lines(room, lines)?;
    }
    stage.told.push_str("done\n")?;
    Ok(stage.told)
}
