//! `crosscheck [FILE..]` plays exchanges through the library and prints what happened; oracle/README.md has the format of both. `-`, or no file, is standard input.
#![tactic(auto)]

mod answer;
mod bad;
mod cast;
mod room;
mod serving;
mod stage;
mod table;
mod watched;
mod words;

use room::Room;
use stage::play;
use std::io::Read;
use std::{env, fs};
use words::split_lines;

/// The bytes of standard input.
fn standard_input(rt: &HostRuntime) -> anyhow::Result<Vec<u8>> {
    let mut bytes = Vec::new(rt.alloc());
    rt.stdin().read_to_end(&mut bytes)?;
    Ok(bytes)
}

/// The bytes of a file; `-` is standard input.
fn read(rt: &HostRuntime, name: &String) -> anyhow::Result<Vec<u8>> {
    if name.as_str() == "-" {
        return standard_input(rt);
    }
    Ok(fs::read(rt, name.as_str())?)
}

/// Plays the exchanges of a text one by one: each begins with a line `case NAME`, and an empty line says nothing.
fn play_all(rt: &HostRuntime, room: &mut Room, text: &[u8]) -> anyhow::Result<()> {
    let heap = rt.alloc();
    let lines = split_lines(heap, text)?;
    let mut case: Vec<&[u8]> = Vec::new(heap);
    for line in lines {
        if line.starts_with(b"case ") && !case.is_empty() {
            print!(rt; "{}", play(heap, room, &case)?)?;
            case.clear();
        }
        if !line.is_empty() {
            case.push(line)?;
        }
    }
    if !case.is_empty() {
        print!(rt; "{}", play(heap, room, &case)?)?;
    }
    Ok(())
}

/// Plays the exchanges of a file.
fn show(rt: &HostRuntime, room: &mut Room, name: &String) -> anyhow::Result<()> {
    let text = read(rt, name)?;
    play_all(rt, room, &text)
}

fn run(rt: &HostRuntime) -> anyhow::Result<()> {
    let mut room = Room::new(rt.alloc())?;
    let mut names = env::args(rt)?.skip(1);
    let first = match names.next() {
        Some(name) => name,
        None => String::from_str(rt.alloc(), "-")?,
    };
    show(rt, &mut room, &first)?;
    for name in names {
        show(rt, &mut room, &name)?;
    }
    Ok(())
}

fn main(rt: HostRuntime) -> anyhow::Result<()> {
    run(&rt)
}
