//! A table's exchange is made and marked.
use crate::answers::words;
use crate::cast::{Asked, Claim, Exercise};
use crate::listing::Listing;
use crate::playing::print_line;
use crate::seen::{Sight, Watcher};
use crate::summary::{judged, state_lines};
use crate::watched::Watched;
use anyhow::Context;
use client::paths::PathRow;
use driver::inner::number_of;
use driver::read::Refused;
use driver::state::State;
use exchange::answer::Answer;
use exchange::call::{Call, Entry};
use exchange::key::{Runners, Seen};
use exchange::open::{Next, OpenResults};
use exchange::run::{Left, run};
use exchange::tally::Tally;
use host::fault::{Fault, LineFault};
use host::host::Host;
use host::inner::MAX_LINE_LEN;
use process::area::MAX_STATUS_LEN;
use recording::line::Direction;
use records::key::Key;
use std::alloc::{AllocError, Global};
use trace::traced::{Passed, Traced};

/// The rows that a listing is lent, and the bytes of its text area.
const ROWS: usize = 256;

const ROOM: usize = 65_536;

/// A process that was started: its key, what passed, what its flushes are counted by, the call that started it, and the call that ended it.
#[derive(Drop)]
pub(crate) struct Standing {
    key: Option<Key>,
    pub(crate) listing: Listing,
    pub(crate) tally: Tally,
    pub(crate) started_by: usize,
    pub(crate) ended_by: Option<usize>,
}

/// What is known of the processes after some calls.
#[derive(Drop)]
pub(crate) struct Marked {
    runners: Runners,
    pub(crate) standings: Vec<Standing>,
}

/// A call that was made, by its number, its answer, what was seen of it and what passed in it.
#[derive(Clone, Copy)]
struct Made<'a> {
    number: usize,
    call: Call<'a>,
    answer: Answer,
    sight: Sight,
    notes: &'a [Passed],
}

/// The key that an apply is for.
fn key_of(call: Call<'_>) -> Option<Key> {
    match call {
        Call::Apply(key, _, _) => Some(key),
        _ => None,
    }
}

/// How the input ended in a call, if it did.
fn ended(answer: Answer) -> Option<Fault> {
    match answer {
        Answer::Fault(LineFault::Host(fault)) => Some(fault),
        _ => None,
    }
}

/// The bytes that were given.
fn given_in(heap: Global, notes: &[Passed]) -> Result<Vec<u8>, AllocError> {
    let mut given = Vec::new(heap);
    for note in notes {
        if matches!(note.direction, Direction::Given) {
            given.extend_from_slice(&note.bytes)?;
        }
    }
    Ok(given)
}

impl Marked {
    fn new(heap: Global) -> Marked {
        Marked {
            runners: Runners::none(heap),
            standings: Vec::new(heap),
        }
    }

    /// Adds the processes that a call started, and answers whether there were any.
    fn start(&mut self, heap: Global, made: Made<'_>) -> Result<bool, AllocError> {
        let before = self.standings.len();
        for _ in before..made.sight.started {
            self.standings.push(Standing {
                key: key_of(made.call),
                listing: Listing::new(heap),
                tally: Tally::none(),
                started_by: made.number,
                ended_by: None,
            })?;
        }
        Ok(before < made.sight.started)
    }

    /// The process that a call talked with, and the packets that passed.
    fn talk(&mut self, heap: Global, made: Made<'_>, is_started: bool) -> anyhow::Result<String> {
        let mut lines = String::new(heap);
        let Some(process) = made.sight.process else {
            return Ok(lines);
        };
        let Some(standing) = self.standings.get_mut(process) else {
            return Ok(lines);
        };
        let how = if is_started { ", which it starts" } else { "" };
        writeln!(lines, "  talks with process {process}{how}")?;
        standing.listing.begin_call();
        for note in made.notes {
            standing
                .listing
                .add(note.direction, &note.bytes, &mut lines)?;
        }
        standing.tally = standing.tally.after(made.call, made.answer);
        Ok(lines)
    }

    /// The process that runs for a key.
    fn running(&self, key: Key) -> Option<usize> {
        self.standings
            .iter()
            .position(|s| s.ended_by.is_none() && s.key == Some(key))
    }

    /// The process that a call talked with. One that is passed talks with its key's process, and says nothing.
    fn talked_with(&self, made: Made<'_>) -> Option<usize> {
        match (made.sight.process, made.answer) {
            (None, Answer::Passed) => self.running(key_of(made.call)?),
            (process, _) => process,
        }
    }

    /// Notes which processes a call ended, by the key.
    fn end(&mut self, made: Made<'_>, given: &[u8]) -> Result<(), AllocError> {
        let process = self.talked_with(made);
        self.runners.after(
            made.call,
            Seen {
                process,
                given,
                ended: ended(made.answer),
            },
        )?;
        for (process, standing) in self.standings.iter_mut().enumerate() {
            if standing.ended_by.is_none() && !self.runners.contains(process) {
                standing.ended_by = Some(made.number);
            }
        }
        Ok(())
    }

    /// Takes a call, and answers its packets and its answer in lines.
    fn add(&mut self, heap: Global, made: Made<'_>) -> anyhow::Result<String> {
        let is_started = self.start(heap, made)?;
        let mut lines = self.talk(heap, made, is_started)?;
        let given = given_in(heap, made.notes)?;
        self.end(made, &given)?;
        let answer = words(heap, made.answer, &given)?;
        writeln!(lines, "  = {answer}")?;
        Ok(lines)
    }
}

/// Prints the calls, each with its packets and its answer.
fn print_calls<'a>(
    rt: &HostRuntime,
    asked: &[Asked<'_>],
    entries: &'a [Entry<'a>],
    notes: &'a [Passed],
    sights: &[Sight],
) -> anyhow::Result<Marked> {
    let heap = rt.alloc();
    let mut marked = Marked::new(heap);
    let mut before = 0;
    for (i, ((line, entry), sight)) in asked.iter().zip(entries).zip(sights).enumerate() {
        let number = i.saturating_add(1);
        let made = Made {
            number,
            call: entry.call,
            answer: entry.answer.context("a call has no answer")?,
            sight: *sight,
            notes: notes.get(before..sight.notes).unwrap_or(&[]),
        };
        before = sight.notes;
        print!(rt; "call {number}: ")?;
        print_line(rt, line.line)?;
        let lines = marked.add(heap, made)?;
        print!(rt; "{lines}")?;
    }
    Ok(marked)
}

/// Prints what becomes of a claim, under its line.
fn print_claim(rt: &HostRuntime, marked: &Marked, claim: &Claim<'_>) -> anyhow::Result<()> {
    print_line(rt, claim.line)?;
    let lines = judged(rt.alloc(), &marked.standings, claim)?;
    print!(rt; "{lines}")?;
    Ok(())
}

/// Prints an exchange that was worked off, what it leaves, and what becomes of the claim.
fn print_marked(
    rt: &HostRuntime,
    exercise: &Exercise<'_>,
    entries: &[Entry<'_>],
    table: &State,
    notes: Option<Vec<Passed>>,
    sights: Option<Vec<Sight>>,
) -> anyhow::Result<()> {
    let notes = notes.context("there is no memory for what passed")?;
    let sights = sights.context("there is no memory for what was seen")?;
    let marked = print_calls(rt, &exercise.asked, entries, &notes, &sights)?;
    let lines = state_lines(rt.alloc(), table, &marked)?;
    print!(rt; "{lines}")?;
    match &exercise.claim {
        Some(claim) => print_claim(rt, &marked, claim),
        None => Ok(()),
    }
}

/// Gives up the results that an exchange left open. A result that no record has any more is let go.
fn give_up_all<H: Host>(table: &mut State, host: &mut H, results: OpenResults) {
    let mut left = results;
    loop {
        match left.next() {
            Next::Open(token, others) => {
                left = others;
                if let Err(refused) = table.give_up(host, token) {
                    let Refused { why: _, back } = refused;
                    let _process = number_of(back);
                }
            }
            Next::None => break,
        }
    }
}

/// Works a table's exchange off over a host, and prints it marked.
pub(crate) fn mark<H: Host + Drop>(
    rt: &HostRuntime,
    host: H,
    exercise: &Exercise<'_>,
) -> anyhow::Result<()> {
    let heap = rt.alloc();
    let mut host = Traced::new(Watched::new(host), heap);
    let mut work: Vec<u8> = vec![in heap; 0; MAX_LINE_LEN]?;
    let mut status: Vec<u8> = vec![in heap; 0; MAX_STATUS_LEN]?;
    let mut rows: Vec<PathRow> = vec![in heap; PathRow { at: 0, len: 0 }; ROWS]?;
    let mut text: Vec<u8> = vec![in heap; 0; ROOM]?;
    let mut entries: Vec<Entry<'_>> = exercise
        .asked
        .iter()
        .map(|asked| Entry {
            call: asked.call.as_call(),
            answer: None,
        })
        .collect(heap)?;
    let mut watcher = Watcher::new(heap);
    let Left { mut table, open } = run(
        &mut host,
        &mut work,
        &mut status,
        &mut rows,
        &mut text,
        &mut entries,
        &mut watcher,
    );
    let notes = host.take();
    let sights = watcher.sights.take();
    let printed = print_marked(rt, exercise, &entries, &table, notes, sights);
    give_up_all(&mut table, &mut host, open);
    printed
}
