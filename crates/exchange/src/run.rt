//! A list of calls, worked off from an empty table.
ghost use Rattle.std.specs.Prelude.{◌≡◌, ◌≤◌, ℕ, List, length};
ghost use Rattle.host.specs.Talk.{sight, areas};
ghost use Rattle.process.specs.Given.{have_room};
ghost use Rattle.driver.specs.Answers.{init_answer, applied, fetched, paths_listed, piece_read, payload_length, done_or};
ghost use Rattle.exchange.specs.Opens.{read_from, open_processes};
ghost use Rattle.exchange.specs.Runs.{space, IsMade, IsRun};
ghost use Rattle.exchange.specs.Values.{call_of, answer_in, answer_of, blanked};

use crate::answer::Answer;
use crate::call::{Call, Entry};
use crate::observer::Observer;
use crate::open::OpenResults;
use client::paths::PathRow;
use driver::apply::{self, Applied};
use driver::misuse::Misuse;
use driver::read::Unread;
use driver::result::FilterResult;
use driver::state::State;
use driver::{fetch, init, inner, list};
use handshake::protocol::Refusal;
use host::host::Host;

fn init_answer(why: init::Error) -> Answer
    ensures { (area : List ℕ) → answer_in area result ≡ init_answer why }
{
    match why {
        init::Error::SpawnCommand(_) => Answer::NotStarted,
        init::Error::ProcessHandshake(Refusal::Line(fault)) => Answer::Fault(fault),
        init::Error::ProcessHandshake(Refusal::Protocol(why)) => Answer::Greeted(why),
    }
}

/// A result is kept by the number of its process.
fn applied(answer: Result<Applied, apply::Error>) -> Answer
    ensures { (area : List ℕ) → answer_in area result ≡ applied answer }
{
    match answer {
        Ok(Applied::Passed) => Answer::Passed,
        Ok(Applied::Delayed) => Answer::Delayed,
        Ok(Applied::Immediate(token)) => Answer::Result(inner::number_of(token)),
        Err(apply::Error::Misuse(why)) => Answer::Misused(why),
        Err(apply::Error::Init(why)) => init_answer(why),
        Err(apply::Error::ProcessInvoke(fault)) => Answer::Fault(fault),
        Err(apply::Error::DelayNotAllowed) => Answer::Unasked,
        Err(apply::Error::ProcessStatus(status)) => Answer::Failed(status),
    }
}

fn fetched(answer: Result<FilterResult, fetch::Error>) -> Answer
    ensures { (area : List ℕ) → answer_in area result ≡ fetched answer }
{
    match answer {
        Ok(token) => Answer::Result(inner::number_of(token)),
        Err(fetch::Error::Misuse(why)) => Answer::Misused(why),
        Err(fetch::Error::ProcessInvoke(fault)) => Answer::Fault(fault),
        Err(fetch::Error::ProcessStatus(status)) => Answer::Failed(status),
    }
}

fn listed(answer: Result<list::Paths, list::Error>) -> Answer
    ensures { (area : List ℕ) → answer_in area result ≡ paths_listed answer }
{
    match answer {
        Ok(paths) => Answer::Paths(paths),
        Err(list::Error::Misuse(why)) => Answer::Misused(why),
        Err(list::Error::ProcessInvoke(fault)) => Answer::Fault(fault),
        Err(list::Error::ProcessStatus(status)) => Answer::Failed(status),
        Err(list::Error::Full(paths)) => Answer::Full(paths),
    }
}

fn was_read(answer: Result<Option<usize>, Unread>) -> Answer
    ensures value { (area : List ℕ) → answer_in area result ≡ piece_read area answer }
    ensures told { (area : List ℕ) → payload_length answer ≤ length area → blanked (answer_in area result) ≡ answer_of result }
{
    match answer {
        Ok(Some(n)) => Answer::Payload(n),
        Ok(None) => Answer::Finished,
        Err(Unread::Misuse(why)) => Answer::Misused(why),
        Err(Unread::Lost(fault)) => Answer::Fault(fault),
        Err(Unread::ProcessStatus(status)) => Answer::Unfinished(status),
    }
}

fn done_or(answer: Result<(), Misuse>) -> Answer
    ensures { (area : List ℕ) → answer_in area result ≡ done_or answer }
{
    match answer {
        Ok(()) => Answer::Done,
        Err(why) => Answer::Misused(why),
    }
}

// What is lent stands apart here and below, as the table's calls have it.
/// Works off one call. A result is kept by the number of its process.
fn make<H: Host>(
    table: &mut State,
    host: &mut H,
    work: &mut [u8],
    status: &mut [u8],
    rows: &mut [PathRow],
    text: &mut [u8],
    call: Call<'_>,
) -> Answer
    ensures made { IsMade H.capacity (call_of (length rows.old) (length text.old) call.entry) (have_room work.old status.old) table.old.records.places (sight (H.log host.old) (H.world host.old)) (areas work.old status.old) (space rows.old text.old) (answer_in work.new result) table.new.records.places (sight (H.log host.new) (H.world host.new)) (areas work.new status.new) (space rows.new text.new) }
    ensures told { blanked (answer_in work.new result) ≡ answer_of result }
{
    match call {
        Call::Apply(key, operation, asked) => applied(table.apply_delayed(
            host,
            work,
            status,
            &key,
            asked.content,
            operation,
            asked.delay,
            &asked.context,
        )),
        Call::Fetch(key, operation, path) => {
            fetched(table.fetch_delayed(host, work, status, &key, path, operation))
        }
        Call::List(key) => listed(table.list_delayed_paths(host, work, status, &key, rows, text)),
        Call::Read(process) => was_read(inner::read(table, host, work, status, process)),
        Call::GiveUp(process) => done_or(inner::give_up(table, host, process)),
        Call::CloseAll => done_or(table.close_all(host)),
    }
}

/// What an exchange leaves: the table, and the results that are still open.
pub struct Left {
    pub table: State,
    pub open: OpenResults,
}

/// Works off the calls of an exchange, one behind the other, from an empty table. Each entry has its answer then. The observer looks after each call, and nothing is promised of what it sees.
pub fn run<H: Host, O: Observer<H>>(
    host: &mut H,
    work: &mut [u8],
    status: &mut [u8],
    rows: &mut [PathRow],
    text: &mut [u8],
    exchange: &mut [Entry<'_>],
    observer: &mut O,
) -> Left
    ensures runs { IsRun H.capacity (have_room work.old status.old) exchange.old (sight (H.log host.old) (H.world host.old)) (areas work.old status.old) (space rows.old text.old) exchange.new result.table.records.places (sight (H.log host.new) (H.world host.new)) (areas work.new status.new) (space rows.new text.new) }
    ensures open { open_processes result.open ≡ read_from result.table.records.places }
{
    let mut table = State::new();
    for i in 0..exchange.len() {
        let call = exchange[i].call;
        let answer = make(&mut table, host, work, status, rows, text, call);
        exchange[i] = Entry {
            call,
            answer: Some(answer),
        };
        observer.look(host, answer);
    }
    let open = OpenResults::of(&table);
    Left { table, open }
}
