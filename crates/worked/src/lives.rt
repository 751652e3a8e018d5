//! Two lives of a table, the same that are computed over the definitions.
use client::paths::PathRow;
use driver::inner::number_of;
use driver::read::Refused;
use exchange::answer::Answer;
use exchange::call::{Asked, Call, Entry};
use exchange::observer::Nobody;
use exchange::open::Next;
use exchange::run::{Left, run};
use host::fault::{Fault, Snag};
use host::host::Host;
use host::inner::MAX_LINE_LEN;
use packetline::decode;
use process::area::MAX_STATUS_LEN;
use recording::line::Direction;
use records::context::{Context, Delay};
use records::key::Key;
use records::operation::Operation;
use scripts::script::{Part, Row, Script};
use std::io;
use trace::traced::{Passed, Traced};

/// The key of the process, and its command.
const COMMAND: &[u8] = b"git-lfs";

/// A process that greets, then delays one content, lists it, and gives it.
const DELAYING: &[u8] =
    b"0016git-filter-server\n000eversion=2\n00000015capability=clean\n0016capability=smudge\n0015capability=delay\n00000013status=delayed\n00000013pathname=a.txt\n00000013status=success\n00000013status=success\n00000009hello00000000";

/// A process that greets, gives a result, aborts it at its end, and answers `error` to what comes then.
const ABORTING: &[u8] =
    b"0016git-filter-server\n000eversion=2\n00000015capability=clean\n0016capability=smudge\n0015capability=delay\n00000013status=success\n00000009hello00000011status=abort\n00000011status=error\n0000";

/// What a content is, on a branch.
fn asked(delay: Delay, content: &[u8]) -> Asked<'_> {
    Asked {
        context: Context {
            rela_path: b"a.txt",
            ref_name: Some(b"refs/heads/main"),
            treeish: None,
            blob: None,
        },
        delay,
        content,
    }
}

fn entry(call: Call<'_>) -> Entry<'_> {
    Entry { call, answer: None }
}

/// How an answer reads.
fn word(answer: Answer) -> &'static str {
    match answer {
        Answer::Passed => "passed",
        Answer::Delayed => "delayed",
        Answer::Result(_) => "result",
        Answer::Payload(_) => "payload",
        Answer::Finished => "end",
        Answer::Paths(_) => "paths",
        Answer::Done => "done",
        _ => "refused",
    }
}

/// The flushes of all bytes that passed in a direction.
fn flushes(rt: &HostRuntime, passed: &[Passed], sent: bool) -> io::Result<usize> {
    let mut bytes = Vec::new(rt.alloc());
    for note in passed {
        if matches!(note.direction, Direction::Sent) == sent {
            bytes.extend_from_slice(&note.bytes)?;
        }
    }
    Ok(decode::count(&bytes).flushes)
}

/// Results that were left open are given up.
fn give_up_all<H: Host>(host: &mut H, left: Left) {
    let Left {
        mut table,
        mut open,
    } = left;
    loop {
        match open.next() {
            Next::Open(token, rest) => {
                if let Err(Refused { why: _, back }) = table.give_up(host, token) {
                    number_of(back);
                }
                open = rest;
            }
            Next::None => return,
        }
    }
}

/// Prints what each call answered: a refusal by its number.
fn print_answers(rt: &HostRuntime, name: &'static str, exchange: &[Entry<'_>]) -> io::Result<()> {
    print!(rt; "{name}:")?;
    for entry in exchange {
        if let Some(answer) = entry.answer {
            match answer.number() {
                Some(number) => print!(rt; " {number}")?,
                None => {
                    let word = word(answer);
                    print!(rt; " {word}")?
                }
            }
        }
    }
    println!(rt; "")
}

/// Works off calls over one process that plays these packets, and prints what they answered and how many flushes passed.
fn play(
    rt: &HostRuntime,
    name: &'static str,
    plays: &[u8],
    exchange: &mut [Entry<'_>],
) -> io::Result<()> {
    let mut bytes = Vec::from_slice(rt.alloc(), COMMAND)?;
    bytes.extend_from_slice(plays)?;
    let row = Row {
        command: Part {
            at: 0,
            len: COMMAND.len(),
        },
        plays: Part {
            at: COMMAND.len(),
            len: plays.len(),
        },
        ending: Fault::Closed,
        allowance: 100_000,
        snag: Snag::Broken,
    };
    let Ok(script) = Script::new(&bytes, &[row]) else {
        return println!(rt; "{name}: no script");
    };
    let mut host = Traced::new(script, rt.alloc());
    let mut work: Vec<u8> = vec![in rt.alloc(); 0; MAX_LINE_LEN]?;
    let mut status = [0u8; MAX_STATUS_LEN];
    let mut rows = [PathRow { at: 0, len: 0 }; 4];
    let mut text = [0u8; 100];
    let left = run(
        &mut host,
        &mut work,
        &mut status,
        &mut rows,
        &mut text,
        exchange,
        &mut Nobody,
    );
    give_up_all(&mut host, left);
    print_answers(rt, name, exchange)?;
    let Some(passed) = host.take() else {
        return println!(rt; "{name}: no memory");
    };
    let given = flushes(rt, &passed, false)?;
    let sent = flushes(rt, &passed, true)?;
    println!(rt; "{name}: {given} flushes came, {sent} went")
}

/// One delayed apply, one list, and one result read out.
pub(crate) fn delayed(rt: &HostRuntime) -> io::Result<()> {
    let Ok(key) = Key::new(COMMAND) else {
        return println!(rt; "no key");
    };
    let mut exchange = [
        entry(Call::Apply(key, Operation::Clean, asked(Delay::Allow, b"hello"))),
        entry(Call::List(key)),
        entry(Call::Fetch(key, Operation::Clean, b"a.txt")),
        entry(Call::Read(0)),
        entry(Call::Read(0)),
    ];
    play(rt, "delayed", DELAYING, &mut exchange)
}

/// A result that is aborted at its end: its operation is passed over from then on, and the other is not.
pub(crate) fn aborted(rt: &HostRuntime) -> io::Result<()> {
    let Ok(key) = Key::new(COMMAND) else {
        return println!(rt; "no key");
    };
    let mut exchange = [
        entry(Call::Apply(key, Operation::Clean, asked(Delay::Forbid, b""))),
        entry(Call::Read(0)),
        entry(Call::Read(0)),
        entry(Call::Apply(key, Operation::Clean, asked(Delay::Forbid, b""))),
        entry(Call::Apply(key, Operation::Smudge, asked(Delay::Forbid, b""))),
        entry(Call::CloseAll),
    ];
    play(rt, "aborted", ABORTING, &mut exchange)
}
