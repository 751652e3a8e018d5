//! Runs the worked cases, and some more at the limits. Those of the table are proved over the definitions too.
#![tactic(auto)]

ghost use Rattle.worked.specs.Lives.{ExamplesStand};
ghost use Rattle.worked.specs.Worked.{Worked};

mod lives;

use client::client::Client;
use host::fault::{Fault, Snag};
use host::host::Host;
use lives::{aborted, delayed};
use packetline::line::Line;
use packetline::packet::Packet;
use packetline::{decode, encode, metadata, text};
use process::capabilities::Capabilities;
use process::status::Status;
use scripts::script::{Part, Row, Script};
use slices::equal::first;
use slices::name::{Name, OutsideLimits};
use slices::refusal::Numbered;
use slices::rows::Rows;
use std::io;

/// The table of worked cases stands, and so do two lives of a table.
fn table_stands() -> bool
    ensures cases { Worked }
    ensures lives { ExamplesStand }
{
    true
}

/// A text, or what stands for one.
fn shown(bytes: &[u8]) -> &str {
    match std::str::from_utf8(bytes) {
        Ok(text) => text,
        Err(_) => "(no text)",
    }
}

/// Ends a line by a refusal's number.
fn print_refusal<E: Numbered>(rt: &HostRuntime, e: E) -> io::Result<()> {
    let number = e.refusal_number();
    println!(rt; "refusal {number}")
}

/// The packet of a line laid over an area of `room` dots.
fn frame(rt: &HostRuntime, line: &[u8], room: usize) -> io::Result<()> {
    let mut area: Vec<u8> = vec![in rt.alloc(); b'.'; room]?;
    let name = shown(line);
    print!(rt; "frame {name} in {room} bytes: ")?;
    match encode::line_to_area(line, &mut area) {
        Ok(n) => {
            let laid = shown(&area);
            println!(rt; "{laid}, {n} bytes")
        }
        Err(e) => print_refusal(rt, e),
    }
}

/// The header of a packet of `n` equal bytes.
fn frame_many(rt: &HostRuntime, n: usize) -> io::Result<()> {
    let payload: Vec<u8> = vec![in rt.alloc(); b'x'; n]?;
    let mut area: Vec<u8> = vec![in rt.alloc(); b'.'; 65536]?;
    print!(rt; "frame {n} bytes: ")?;
    match encode::data_to_area(&payload, &mut area) {
        Ok(len) => {
            let header = shown(area.get(0..4).unwrap_or(b""));
            println!(rt; "{header}, {len} bytes in all")
        }
        Err(e) => print_refusal(rt, e),
    }
}

fn header(rt: &HostRuntime, four_bytes: &[u8; 4]) -> io::Result<()> {
    let name = shown(four_bytes);
    print!(rt; "header {name}: ")?;
    match decode::hex_prefix(four_bytes) {
        Ok(packet) => println!(rt; "{packet:?}"),
        Err(e) => print_refusal(rt, e),
    }
}

/// What stands first in bytes, and how many packets and flushes they have.
fn front(rt: &HostRuntime, bytes: &[u8]) -> io::Result<()> {
    let name = shown(bytes);
    let tally = decode::count(bytes);
    let packets = tally.packets;
    let flushes = tally.flushes;
    let read = tally.bytes_consumed;
    let first = match decode::streaming(bytes) {
        Ok(Some(_)) => "whole",
        Ok(None) => "short",
        Err(_) => "bad",
    };
    println!(rt; "bytes {name}: {first}; {packets} packets, {flushes} flushes, {read} bytes read")
}

fn number(rt: &HostRuntime, digits: &[u8]) -> io::Result<()> {
    let name = shown(digits);
    match text::number(digits) {
        Some(n) => println!(rt; "number {name}: {n}"),
        None => println!(rt; "number {name}: none"),
    }
}

fn pair(rt: &HostRuntime, line: &[u8]) -> io::Result<()> {
    let name = shown(line);
    match metadata::pair(line) {
        Some((key, value)) => {
            let key = shown(key);
            let value = shown(value);
            println!(rt; "pair {name}: [{key}] and [{value}]")
        }
        None => println!(rt; "pair {name}: none"),
    }
}

fn kind(rt: &HostRuntime, line: &[u8]) -> io::Result<()> {
    let (kind, part) = match Line::read(line) {
        Line::Status(part) => ("status", part),
        Line::Capability(part) => ("capability", part),
        Line::Version(part) => ("version", part),
        Line::Pathname(part) => ("pathname", part),
        Line::Other(part) => ("other", part),
    };
    let part = shown(part);
    println!(rt; "line: {kind} [{part}]")
}

fn text_line(rt: &HostRuntime, payload: &[u8]) -> io::Result<()> {
    print!(rt; "text: ")?;
    match text::text(payload) {
        Ok(text) => println!(rt; "[{text}]"),
        Err(e) => print_refusal(rt, e),
    }
}

fn trim(rt: &HostRuntime, line: &[u8]) -> io::Result<()> {
    let less = metadata::trim(line);
    println!(rt; "trim {line:?}: {less:?}")
}

/// Where the first `smudge` and the first `delay` stand in clean, smudge, clean, smudge.
fn places() -> Result<(Option<usize>, Option<usize>), OutsideLimits> {
    let clean = Name::new(b"clean")?;
    let smudge = Name::new(b"smudge")?;
    let delay = Name::new(b"delay")?;
    let known = [clean, smudge, clean, smudge];
    Ok((first(&known, &smudge), first(&known, &delay)))
}

/// Names: which bytes make one, and where the first of equal ones stands.
fn names(rt: &HostRuntime) -> io::Result<()> {
    let long = [b'n'; 65];
    let fits = Name::new(&long[0..64]).is_ok();
    let over = Name::new(&long).is_ok();
    let none = Name::new(b"").is_ok();
    let blank = Name::new(b"a b").is_ok();
    println!(rt;
        "names of 64, 65 and 0 bytes, and one with a blank: {fits} {over} {none} {blank}"
    )?;
    print!(rt; "smudge and delay in clean, smudge, clean, smudge: ")?;
    match places() {
        Ok((smudge, delay)) => println!(rt; "{smudge:?} {delay:?}"),
        Err(e) => print_refusal(rt, e),
    }
}

/// Versions, and three rows into two places.
fn rows(rt: &HostRuntime) -> io::Result<()> {
    let versions = [3u64, 2, 2];
    let at = first(&versions, &2);
    println!(rt; "2 in 3, 2, 2: {at:?}")?;
    let mut space = [0u64; 2];
    let mut rows = Rows::new(&mut space);
    let one = rows.push(5).is_ok();
    let two = rows.push(6).is_ok();
    let three = rows.push(7).is_ok();
    let held = rows.as_slice();
    println!(rt; "5, 6 and 7 into two places: {one} {two} {three}, held {held:?}")
}

/// A host with one process that gives these bytes, and is then closed.
fn giving(bytes: &[u8]) -> Option<Script<'_>> {
    let whole = Part {
        at: 0,
        len: bytes.len(),
    };
    let row = Row {
        command: whole,
        plays: whole,
        ending: Fault::Closed,
        allowance: 0,
        snag: Snag::Broken,
    };
    let mut script = Script::new(bytes, &[row]).ok()?;
    script.start(bytes).ok()?;
    Some(script)
}

/// The status that a process tells which gives these bytes.
fn status(rt: &HostRuntime, bytes: &[u8]) -> io::Result<()> {
    let name = shown(bytes);
    let Some(mut host) = giving(bytes) else {
        return Ok(());
    };
    let client = Client {
        process: 0,
        version: 2,
        capabilities: Capabilities::none(),
    };
    let mut work: Vec<u8> = vec![in rt.alloc(); b'.'; 65520]?;
    let mut area = [b'.'; 128];
    print!(rt; "status of {name}: ")?;
    match client.read_status(&mut host, &mut work, &mut area) {
        Ok(Status::Previous) => println!(rt; "previous"),
        Ok(Status::Unset) => println!(rt; "unset"),
        Ok(Status::Named(_, len)) => {
            let said = shown(area.get(0..len).unwrap_or(b"(long)"));
            println!(rt; "{said}")
        }
        Err(e) => print_refusal(rt, e),
    }
}

/// The cases of the table.
fn table(rt: &HostRuntime) -> io::Result<()> {
    frame(rt, b"a", 8)?;
    frame_many(rt, 65516)?;
    header(rt, b"fff1")?;
    header(rt, b"0004")?;
    header(rt, b"0003")?;
    number(rt, b"+2")?;
    number(rt, b"18446744073709551616")?;
    pair(rt, b"a=b=c")?;
    status(rt, b"0000")?;
    status(rt, b"0009hello0000")?;
    status(rt, b"0012status=success0010status=error0000")
}

/// Packets at their limits.
fn packets(rt: &HostRuntime) -> io::Result<()> {
    frame(rt, b"abc", 6)?;
    frame(rt, b"", 3)?;
    frame(rt, b"", 4)?;
    frame_many(rt, 65517)?;
    header(rt, b"0000")?;
    header(rt, b"0001")?;
    header(rt, b"0002")?;
    header(rt, b"0005")?;
    header(rt, b"FFF0")?;
    header(rt, b"00fF")?;
    header(rt, b"000g")?;
    front(rt, b"0005a00000000")?;
    front(rt, b"0006a")?;
    front(rt, b"000")?;
    front(rt, b"00000001x0040000")
}

/// Lines, texts and numbers.
fn lines(rt: &HostRuntime) -> io::Result<()> {
    number(rt, b"18446744073709551615")?;
    number(rt, b"007")?;
    number(rt, b"+")?;
    number(rt, b"-1")?;
    number(rt, b"2 ")?;
    pair(rt, b"=b")?;
    pair(rt, b"key")?;
    kind(rt, b"status=success")?;
    kind(rt, b"capability=")?;
    kind(rt, b"version=2")?;
    kind(rt, b"pathname=a=b")?;
    kind(rt, b"Status=ok")?;
    text_line(rt, b" a\xe3\x80\x80\n")?;
    text_line(rt, b"\xe3\x80")?;
    trim(rt, b" \ta b\xe2\x80\xa8\n")?;
    trim(rt, b"\xff ")?;
    trim(rt, b"a\xe2\x80")?;
    trim(rt, b"\xc2\xa0 \r\n")
}

fn main(rt: HostRuntime) -> io::Result<()> {
    let _stands = table_stands();
    table(&rt)?;
    packets(&rt)?;
    lines(&rt)?;
    names(&rt)?;
    rows(&rt)?;
    delayed(&rt)?;
    aborted(&rt)
}
