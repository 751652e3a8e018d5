//! What was delayed is listed and fetched.
ghost use Rattle.std.specs.Prelude.{◌≡◌, length};
ghost use Rattle.slices.specs.Answers.{told};
ghost use Rattle.host.specs.Talk.{Wire, sight, areas};
ghost use Rattle.process.specs.Given.{have_room};
ghost use Rattle.client.specs.Listings.{counts_of};
ghost use Rattle.records.specs.Records.{lookup};
ghost use Rattle.rules.specs.Calls.{fetch, list};
ghost use Rattle.rules.specs.Promises.{IsStep};
ghost use Rattle.rules.specs.Steps.{verdict, after_exchange, never_delayed, after_fault, listed as all_or_full};
ghost use Rattle.driver.specs.Answers.{misuse_number, fetched, paths_listed};
ghost use Rattle.driver.specs.Fates.{fate_of};
ghost use Rattle.driver.specs.Talks.{judged, list_verdict, idle_record};
ghost use Rattle.driver.specs.Storing.{ListsStep};

use crate::apply::after_exchange;
use crate::fate::{Fate, after_fault};
use crate::list::Paths;
use crate::misuse::Misuse;
use crate::result::FilterResult;
use crate::state::State;
use crate::talk::{ask_again, have_room, list as list_paths};
use crate::{fetch, list};
use client::listing::{ListFault, Listed};
use client::paths::PathRow;
use host::fault::LineFault;
use host::host::{Host, How};
use process::status::{Status, Word};
use records::context::is_path;
use records::key::Key;
use records::operation::Operation;
use records::record::Record;

/// The paths of a listing that succeeded.
fn found(listed: Listed, full: bool) -> Result<Paths, list::Error>
    ensures { paths_listed result ≡ all_or_full (counts_of full listed) }
{
    let paths = Paths {
        named: listed.named,
        stored: listed.stored,
    };
    if full {
        return Err(list::Error::Full(paths));
    }
    Ok(paths)
}

/// What a listing comes to: the answer, and what becomes of the record.
fn after_listing(
    entry: &Record,
    told: Result<Listed, ListFault>,
) -> (Result<Paths, list::Error>, Fate)
    ensures { verdict (paths_listed result.0) (fate_of result.1) ≡ list_verdict entry.now.capabilities.mask told }
{
    let (listed, full) = match told {
        Ok(listed) => (listed, false),
        Err(ListFault::Full(listed)) => (listed, true),
        Err(ListFault::Line(fault)) => {
            return (
                Err(list::Error::ProcessInvoke(fault)),
                after_fault(entry, fault),
            );
        }
    };
    let keeps = Fate::Stays(entry.capabilities, None);
    match listed.status {
        Status::Named(Word::Success, _) => (found(listed, full), keeps),
        Status::Named(Word::Abort, _) | Status::Named(Word::Error, _) => {
            (Err(list::Error::ProcessStatus(listed.status)), keeps)
        }
        _ => (
            Err(list::Error::ProcessStatus(listed.status)),
            Fate::Leaves(How::Kill),
        ),
    }
}

/// What an exchange for what was delayed comes to: the answer, and what becomes of the record.
fn after_fetch(
    entry: &Record,
    operation: Operation,
    said: Result<Status, LineFault>,
) -> (Result<FilterResult, fetch::Error>, Fate)
    ensures { (v : Wire) → verdict (fetched result.0) (fate_of result.1) ≡ judged (λ s _. after_exchange entry.now.process operation entry.now.capabilities.mask never_delayed s) (after_fault entry.now.capabilities.mask) said v }
{
    let status = match said {
        Ok(status) => status,
        Err(fault) => return (
            Err(fetch::Error::ProcessInvoke(fault)),
            after_fault(entry, fault),
        ),
    };
    let (answer, fate) = after_exchange(entry, operation, status);
    let answer = match answer {
        Ok(result) => Ok(result),
        Err(status) => Err(fetch::Error::ProcessStatus(status)),
    };
    (answer, fate)
}

impl State {
    /// The record with a key, if its process's result is not being read.
    fn idle(&self, key: &Key) -> Result<Record, Misuse>
        ensures { told (λ r. r) misuse_number result ≡ idle_record (lookup self.now.records.places key.now) }
    {
        let record = self.records.record_of(key).ok_or(Misuse::UnknownKey)?;
        if record.reading.is_some() {
            return Err(Misuse::Reading);
        }
        Ok(record)
    }

    /// The paths that the process of a key can answer now: the text area holds them one behind the other, and the rows say where.
    pub fn list_delayed_paths<H: Host>(
        &mut self,
        host: &mut H,
        work: &mut [u8],
        status: &mut [u8],
        key: &Key,
        rows: &mut [PathRow],
        text: &mut [u8],
    ) -> Result<Paths, list::Error>
        ensures { ListsStep H.capacity (list key.now (length rows.old) (length text.old)) (have_room work.old status.old) self.old.records.places (sight (H.log host.old) (H.world host.old)) (areas work.old status.old) rows.old text.old (paths_listed result) self.new.records.places (sight (H.log host.new) (H.world host.new)) (areas work.new status.new) rows.new text.new }
    {
        if !have_room(work, status) {
            return Err(list::Error::Misuse(Misuse::AreaTooShort));
        }
        let record = match self.idle(key) {
            Ok(record) => record,
            Err(why) => return Err(list::Error::Misuse(why)),
        };
        let told = list_paths(host, record.process, work, status, rows, text);
        let (answer, fate) = after_listing(&record, told);
        self.settle(host, &record, fate);
        answer
    }

    /// The result of what was delayed, by its path.
    pub fn fetch_delayed<H: Host>(
        &mut self,
        host: &mut H,
        work: &mut [u8],
        status: &mut [u8],
        key: &Key,
        path: &[u8],
        operation: Operation,
    ) -> Result<FilterResult, fetch::Error>
        ensures { IsStep H.capacity (fetch key.now operation path.now) (have_room work.old status.old) self.old.records.places (sight (H.log host.old) (H.world host.old)) (areas work.old status.old) (fetched result) self.new.records.places (sight (H.log host.new) (H.world host.new)) (areas work.new status.new) }
    {
        if !have_room(work, status) {
            return Err(fetch::Error::Misuse(Misuse::AreaTooShort));
        }
        if !is_path(path) {
            return Err(fetch::Error::Misuse(Misuse::OutsideLimits));
        }
        let record = match self.idle(key) {
            Ok(record) => record,
            Err(why) => return Err(fetch::Error::Misuse(why)),
        };
        let said = ask_again(host, record.process, work, status, operation, path);
        let (answer, fate) = after_fetch(&record, operation, said);
        self.settle(host, &record, fate);
        answer
    }
}
