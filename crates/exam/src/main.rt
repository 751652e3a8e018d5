//! `exam [FILE..]` prints the packets of recorded exchanges and plays sheets; `-`, or no file, is standard input.
#![tactic(auto)]

mod answers;
mod asking;
mod bad;
mod cast;
mod lines;
mod listing;
mod marking;
mod playing;
mod reading;
mod refusals;
mod seen;
mod sheet;
mod stage;
mod summary;
mod table_calls;
mod watched;

use lines::split_lines;
use playing::play;
use reading::list;
use std::io::Read;
use std::{env, fs};

/// The bytes of standard input.
fn standard_input(rt: &HostRuntime) -> anyhow::Result<Vec<u8>> {
    let mut bytes = Vec::new(rt.alloc());
    rt.stdin().read_to_end(&mut bytes)?;
    Ok(bytes)
}

/// Whether lines are those of a recording: the first that says anything begins with a direction's sign.
fn is_recording(lines: &[&[u8]]) -> bool {
    let first = lines
        .iter()
        .filter_map(|line| line.first())
        .find(|b| **b != b'#');
    first.is_none_or(|b| matches!(b, b'>' | b'<'))
}

/// Prints a recording, or plays a sheet.
fn show(rt: &HostRuntime, name: &String) -> anyhow::Result<()> {
    let text = if name.as_str() == "-" {
        standard_input(rt)?
    } else {
        fs::read(rt, name.as_str())?
    };
    let lines = split_lines(rt.alloc(), &text)?;
    if is_recording(&lines) {
        println!(rt; "recording {name}")?;
        list(rt, &lines)
    } else {
        println!(rt; "sheet {name}")?;
        play(rt, &lines)
    }
}

fn run(rt: &HostRuntime) -> anyhow::Result<()> {
    let mut names = env::args(rt)?.skip(1);
    let first = match names.next() {
        Some(name) => name,
        None => String::from_str(rt.alloc(), "-")?,
    };
    show(rt, &first)?;
    for name in names {
        show(rt, &name)?;
    }
    Ok(())
}

fn main(rt: HostRuntime) -> anyhow::Result<()> {
    run(&rt)
}
