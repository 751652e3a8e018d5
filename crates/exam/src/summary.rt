//! What is printed behind the calls of an exchange: the table, what runs, the flushes, and the claim.
use crate::asking::Named;
use crate::cast::Claim;
use crate::marking::{Marked, Standing};
use driver::state::State;
use exchange::tally::Flushes;
use recording::show::Escaped;
use records::names::desired;
use records::record::Record;
use std::alloc::{AllocError, Global};
use std::fmt;

/// A record of the table, in a line.
#[derive(Clone, Copy)]
struct Recorded(Record);

impl fmt::Display for Recorded {
    fn fmt<W: fmt::Write>(&self, f: &mut fmt::Formatter<W>) -> fmt::Result {
        let Record {
            key,
            process,
            version,
            capabilities,
            reading,
        } = self.0;
        let key = Escaped(key.as_bytes());
        let names = desired();
        let named = Named {
            capabilities,
            names: &names,
        };
        write!(
            f,
            "record {key}: process {process}, version {version}, capabilities {named}, "
        )?;
        match reading {
            Some(operation) => write!(f, "reading for {}", Escaped(operation.as_bytes())),
            None => f.write_str("not reading"),
        }
    }
}

/// A line for each record.
fn table_lines(heap: Global, table: &State) -> Result<String, AllocError> {
    let mut lines = String::new(heap);
    for place in 0..8 {
        if let Some(record) = table.records().get(place) {
            writeln!(lines, "{}", Recorded(record))?;
        }
    }
    if lines.is_empty() {
        lines.push_str("no record\n")?;
    }
    Ok(lines)
}

/// Whether a process runs, or which call ended it.
#[derive(Clone, Copy)]
struct Running {
    process: usize,
    ended_by: Option<usize>,
}

impl fmt::Display for Running {
    fn fmt<W: fmt::Write>(&self, f: &mut fmt::Formatter<W>) -> fmt::Result {
        let process = self.process;
        match self.ended_by {
            Some(call) => write!(f, "process {process} does not run: call {call} ended it"),
            None => write!(f, "process {process} runs"),
        }
    }
}

/// A line for each process, by what was seen of the calls.
fn running_lines(heap: Global, standings: &[Standing]) -> Result<String, AllocError> {
    let mut lines = String::new(heap);
    for (process, standing) in standings.iter().enumerate() {
        let ended_by = standing.ended_by;
        writeln!(lines, "{}", Running { process, ended_by })?;
    }
    Ok(lines)
}

/// The flushes of a process, as they were counted.
fn counted(standing: &Standing) -> Flushes {
    Flushes {
        given: standing.listing.flushes_given(),
        sent: standing.listing.flushes_sent(),
    }
}

/// The counts of a process, its flushes, and what the rule says of them.
fn flush_line(heap: Global, process: usize, standing: &Standing) -> Result<String, AllocError> {
    let tally = standing.tally;
    let lists = tally.lists;
    let exchanges = tally.exchanges;
    let results = tally.results;
    let open = usize::from(tally.is_open);
    let Flushes { given, sent } = counted(standing);
    let mut line = format!(in heap;
        "process {process}: L {lists}, S {exchanges}, R {results}, O {open}; flushes {given} given, {sent} sent; "
    )?;
    if tally.is_faulted {
        line.push_str("exempt from the rule, since it had a line fault\n")?;
    } else {
        let Flushes { given, sent } = tally.flushes();
        writeln!(line, "by the rule {given} given, {sent} sent")?;
    }
    Ok(line)
}

/// A line for each recorded process.
fn flush_lines(heap: Global, table: &State, standings: &[Standing]) -> Result<String, AllocError> {
    let mut lines = String::new(heap);
    for place in 0..8 {
        if let Some(record) = table.records().get(place) {
            if let Some(standing) = standings.get(record.process) {
                lines.push_str(flush_line(heap, record.process, standing)?.as_str())?;
            }
        }
    }
    Ok(lines)
}

/// A line for each process that was claimed and does not run.
fn claimed_wrongly(
    heap: Global,
    standings: &[Standing],
    claimed: &[usize],
) -> Result<String, AllocError> {
    let mut lines = String::new(heap);
    for process in claimed {
        let process = *process;
        match standings.get(process) {
            None => writeln!(lines, "  = wrong: process {process} was never started")?,
            Some(standing) => {
                let ended_by = standing.ended_by;
                if ended_by.is_some() {
                    writeln!(lines, "  = wrong: {}", Running { process, ended_by })?;
                }
            }
        }
    }
    Ok(lines)
}

/// A line for each process that runs and was not claimed.
fn not_claimed(
    heap: Global,
    standings: &[Standing],
    claimed: &[usize],
) -> Result<String, AllocError> {
    let mut lines = String::new(heap);
    for (process, standing) in standings.iter().enumerate() {
        if standing.ended_by.is_none() && !claimed.iter().any(|p| *p == process) {
            let call = standing.started_by;
            writeln!(
                lines,
                "  = wrong: process {process} runs: call {call} started it"
            )?;
        }
    }
    Ok(lines)
}

/// What becomes of a claim.
pub(crate) fn judged(
    heap: Global,
    standings: &[Standing],
    claim: &Claim<'_>,
) -> Result<String, AllocError> {
    let mut lines = claimed_wrongly(heap, standings, &claim.processes)?;
    lines.push_str(not_claimed(heap, standings, &claim.processes)?.as_str())?;
    if lines.is_empty() {
        lines.push_str("  = right\n")?;
    }
    Ok(lines)
}

/// The table, what runs, and the flushes of the recorded processes.
pub(crate) fn state_lines(
    heap: Global,
    table: &State,
    marked: &Marked,
) -> Result<String, AllocError> {
    let mut lines = table_lines(heap, table)?;
    lines.push_str(running_lines(heap, &marked.standings)?.as_str())?;
    lines.push_str(flush_lines(heap, table, &marked.standings)?.as_str())?;
    Ok(lines)
}
