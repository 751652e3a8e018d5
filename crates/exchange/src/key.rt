//! The key: which processes still run, from what is seen of an exchange.
ghost use Rattle.std.specs.Prelude.{◌≡◌, ℕ, ◌≤◌, map, [], IfOk, OnOk, OnErr, vec_len, vec_capacity};
ghost use Rattle.packetline.specs.Lines.{kind_of};
ghost use Rattle.process.specs.declared.status.Status.TheVariants.{Previous as previous};
ghost use Rattle.process.specs.Statuses.{status_in, told_by};
ghost use Rattle.rules.specs.Stories.{telling, behind_flushes};
ghost use Rattle.rules.specs.Key.{after_telling, begins_with_payload, after_call, after_meeting, afterwards, is_running, is_read_from, some_read_from, others, settled, untalked, key_step, key};
ghost use Rattle.exchange.specs.Values.{call_of};
ghost use Rattle.exchange.specs.Watching.{seen_by, running, afterwards_of, packets_in, telling_of, watched_call, TellsWhoRuns};

use crate::call::Call;
use host::fault::Fault;
use packetline::decode::{PacketLines, count};
use packetline::line::Line;
use packetline::packet::Packet;
use packetline::text::text;
use process::status::{Status, Word};
use std::alloc::{AllocError, Global};

/// What is seen of a call: with which process it talked, the bytes that this gave, and how the input ended, if it did.
#[derive(Clone, Copy)]
pub struct Seen<'a> {
    pub process: Option<usize>,
    pub given: &'a [u8],
    pub ended: Option<Fault>,
}

/// A call with what was seen of it.
#[derive(Clone, Copy)]
pub struct Watched<'a> {
    pub call: Call<'a>,
    pub seen: Seen<'a>,
}

/// A process that runs, and whether its result is being read.
#[derive(Clone, Copy)]
pub struct Runner {
    pub process: usize,
    pub reading: bool,
}

/// The processes that run.
#[derive(Drop)]
pub struct Runners {
    pub all: Vec<Runner>,
}

/// What packets tell up to a flush: a status; none, since a marker came; or none, since they are cut off before, by a line that is no text too.
#[derive(Clone, Copy)]
enum Telling {
    Told(Status),
    Marked,
    Cut,
}

/// What a call leaves of the process that it talked with: it is ended; it runs; it runs, and its result is being read.
#[derive(Clone, Copy)]
enum Afterwards {
    Dies,
    Lives,
    Reads,
}

/// A status after a line more.
fn told_by(told: Status, text: &[u8]) -> Status
    ensures { result ≡ told_by told (status_in (kind_of text.now)) }
{
    match Line::read(text) {
        Line::Status(name) => Status::Named(Word::from(name), name.len()),
        _ => told.as_first(),
    }
}

/// What the packets of `bytes` tell.
fn telling_in(bytes: &[u8]) -> Telling
    ensures { telling_of result ≡ telling previous (packets_in bytes.now) }
{
    let mut lines = PacketLines::new(bytes);
    let mut told = Status::Previous;
    while let Some(packet) = lines.next() {
        match packet {
            Packet::Flush => return Telling::Told(told),
            Packet::Delimiter | Packet::ResponseEnd => return Telling::Marked,
            Packet::Data(payload) => {
                let Ok(text) = text(payload) else {
                    return Telling::Cut;
                };
                told = told_by(told, text.as_bytes());
            }
        }
    }
    Telling::Cut
}

/// What stands behind the first flush.
fn behind_flush(bytes: &[u8]) -> &[u8]
    ensures { packets_in result.now ≡ behind_flushes 1 (packets_in bytes.now) }
{
    let mut lines = PacketLines::new(bytes);
    while let Some(packet) = lines.next() {
        if let Packet::Flush = packet {
            return lines.rest();
        }
    }
    lines.rest()
}

fn begins_with_payload(bytes: &[u8]) -> bool
    ensures { result ≡ begins_with_payload (packets_in bytes.now) }
{
    let mut lines = PacketLines::new(bytes);
    let Some(packet) = lines.next() else {
        return false;
    };
    match packet {
        Packet::Data(_) => true,
        Packet::Flush | Packet::Delimiter | Packet::ResponseEnd => false,
    }
}

/// What an apply, a fetch or a list leaves of its process, by what was told, how the input ended, and the call.
fn after_telling(telling: Telling, ended: Option<Fault>, call: Call<'_>) -> Afterwards
    ensures { (rows room : ℕ) → afterwards_of result ≡ after_telling (telling_of telling) ended (call_of rows room call.entry) }
{
    match telling {
        Telling::Told(Status::Named(Word::Success, _)) => match call {
            Call::List(_) => Afterwards::Lives,
            _ => Afterwards::Reads,
        },
        Telling::Told(Status::Named(Word::Delayed, _)) => match call {
            Call::Apply(_, _, _) => Afterwards::Lives,
            _ => Afterwards::Dies,
        },
        Telling::Told(Status::Named(Word::Abort | Word::Error, _)) => Afterwards::Lives,
        Telling::Told(_) | Telling::Marked => Afterwards::Dies,
        Telling::Cut => match ended {
            Some(Fault::Closed | Fault::Broken) => Afterwards::Dies,
            Some(Fault::Other) | None => Afterwards::Lives,
        },
    }
}

/// What a call leaves of a process that ran before it.
fn after_call(call: Call<'_>, given: &[u8], ended: Option<Fault>) -> Afterwards
    ensures { (rows room : ℕ) → afterwards_of result ≡ after_call (call_of rows room call.entry) (packets_in given.now) ended }
{
    match call {
        Call::Apply(_, _, _) | Call::Fetch(_, _, _) => after_telling(
            telling_in(given),
            ended,
            call,
        ),
        // A listing's status stands behind the flush of its paths.
        Call::List(_) => after_telling(telling_in(behind_flush(given)), ended, call),
        Call::Read(_) => {
            if begins_with_payload(given) {
                Afterwards::Reads
            } else {
                Afterwards::Lives
            }
        }
        Call::GiveUp(_) | Call::CloseAll => Afterwards::Lives,
    }
}

/// What a call leaves of a process that it met: the handshake went well exactly if it gave two flushes.
fn after_meeting(call: Call<'_>, given: &[u8], ended: Option<Fault>) -> Afterwards
    ensures { (rows room : ℕ) → afterwards_of result ≡ after_meeting (call_of rows room call.entry) (packets_in given.now) ended }
{
    if count(given).flushes < 2 {
        return Afterwards::Dies;
    }
    after_call(call, behind_flush(behind_flush(given)), ended)
}

fn after_talk(known: bool, call: Call<'_>, given: &[u8], ended: Option<Fault>) -> Afterwards
    ensures { (rows room : ℕ) → afterwards_of result ≡ afterwards known (call_of rows room call.entry) (packets_in given.now) ended }
{
    if known {
        after_call(call, given, ended)
    } else {
        after_meeting(call, given, ended)
    }
}

impl Runners {
    /// None runs.
    pub fn none(heap: Global) -> Runners
        ensures { running result ≡ [] }
    {
        Runners {
            all: Vec::new(heap),
        }
    }

    /// Whether a process runs.
    pub fn contains(&self, process: usize) -> bool
        ensures { result ≡ is_running process (running self.now) }
    {
        self.all.iter().any(|r| r.process == process)
    }

    fn is_read_from(&self, process: usize) -> bool
        ensures { result ≡ is_read_from process (running self.now) }
    {
        self.all.iter().any(|r| r.process == process && r.reading)
    }

    fn some_read_from(&self) -> bool
        ensures { result ≡ some_read_from (running self.now) }
    {
        self.all.iter().any(|r| r.reading)
    }

    /// A process runs no more.
    fn remove(&mut self, process: usize)
        ensures left { running self.new ≡ others process (running self.old) }
        ensures len { vec_len self.new.all ≤ vec_len self.old.all }
        ensures room { vec_capacity self.new.all ≡ vec_capacity self.old.all }
    {
        self.all.retain(|r| r.process != process);
    }

    /// After a call that talked with a process.
    fn settle(&mut self, process: usize, afterwards: Afterwards) -> Result<(), AllocError>
        ensures ok { OnOk result (running self.new ≡ settled process (afterwards_of afterwards) (running self.old)) }
        ensures err { OnErr result (running self.new ≡ running self.old) }
    {
        let reading = match afterwards {
            Afterwards::Dies => {
                self.remove(process);
                return Ok(());
            }
            Afterwards::Lives => false,
            Afterwards::Reads => true,
        };
        self.all.try_reserve(1)?;
        self.remove(process);
        self.all.push(Runner { process, reading })?;
        Ok(())
    }

    /// After a call that talked with none: what is given up is ended if its result is being read, and all are closed if none's is.
    fn untalked(&mut self, call: Call<'_>)
        ensures { (rows room : ℕ) → running self.new ≡ untalked (call_of rows room call.entry) (running self.old) }
    {
        match call {
            Call::GiveUp(process) => {
                if self.is_read_from(process) {
                    self.remove(process);
                }
            }
            Call::CloseAll => {
                if !self.some_read_from() {
                    self.all.clear();
                }
            }
            _ => {}
        }
    }

    /// A call was made, and this was seen of it. Where memory is wanting nothing changes.
    pub fn after(&mut self, call: Call<'_>, seen: Seen<'_>) -> Result<(), AllocError>
        ensures ok { (rows room : ℕ) → OnOk result (running self.new ≡ key_step (call_of rows room call.entry) (seen_by seen.entry) (running self.old)) }
        ensures err { OnErr result (running self.new ≡ running self.old) }
    {
        match seen.process {
            Some(process) => {
                let known = self.contains(process);
                self.settle(process, after_talk(known, call, seen.given, seen.ended))
            }
            None => {
                self.untalked(call);
                Ok(())
            }
        }
    }
}

/// The processes that run after calls, from what was seen of each.
pub fn which_run(heap: Global, calls: &[Watched<'_>]) -> Result<Runners, AllocError>
    ensures value { (rows room : ℕ) → IfOk result (λ r. running r ≡ key (map (watched_call rows room) calls.now) []) }
    ensures law { IfOk result (λ r. TellsWhoRuns calls.now (running r)) }
{
    let mut runners = Runners::none(heap);
    for watched in calls {
        runners.after(watched.call, watched.seen)?;
    }
    Ok(runners)
}
