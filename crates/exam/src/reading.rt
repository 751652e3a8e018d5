//! A recording, line by line.
use crate::listing::{Listing, Printer};
use anyhow::bail;
use recording::line::{Record, parse};

/// Adds a record, and prints the packets that it completes.
fn add(listing: &mut Listing, record: Record, printer: &mut Printer<'_>) -> anyhow::Result<()> {
    listing.add(record.direction, &record.bytes, printer)?;
    printer.print()
}

/// Prints the packets that each line completes, and then what was counted. A bad line is told, and nothing from there on is read.
pub(crate) fn list(rt: &HostRuntime, lines: &[&[u8]]) -> anyhow::Result<()> {
    let mut listing = Listing::new(rt.alloc());
    let mut printer = Printer::new(rt);
    for (i, line) in lines.iter().enumerate() {
        match parse(rt.alloc(), line) {
            Ok(None) => {}
            Ok(Some(record)) => add(&mut listing, record, &mut printer)?,
            Err(e) => {
                let number = i.saturating_add(1);
                println!(rt; "line {number} is bad: {e}; nothing from there on is read")?;
                bail!("a line of the recording is bad");
            }
        }
    }
    listing.print_summary(rt)
}
