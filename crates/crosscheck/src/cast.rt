//! The processes that an exchange tells.
use crate::bad::Bad;
use crate::words::{spelt, split_words, whole_number, word};
use host::fault::{Fault, Snag};
use scripts::script::{Part, Row};
use std::alloc::Global;

/// As many bytes as a process takes whose allowance is `max`.
const MAX_ALLOWANCE: usize = 1 << 40;

/// All the bytes that the processes play, commands among them, and a row for each process.
#[derive(Drop)]
pub(crate) struct Cast {
    pub(crate) bytes: Vec<u8>,
    pub(crate) rows: Vec<Row>,
}

// No TryFrom: neither the word's type nor the fault's is ours.
fn ending(word: &[u8]) -> Result<Fault, Bad> {
    match word {
        b"11" => Ok(Fault::Closed),
        b"12" => Ok(Fault::Broken),
        b"13" => Ok(Fault::Other),
        _ => Err(Bad::Line),
    }
}

// No TryFrom, as for `ending`.
fn snag(word: &[u8]) -> Result<Snag, Bad> {
    match word {
        b"12" => Ok(Snag::Broken),
        b"13" => Ok(Snag::Other),
        _ => Err(Bad::Line),
    }
}

fn allowance(word: &[u8]) -> Result<usize, Bad> {
    if word == b"max".as_slice() {
        return Ok(MAX_ALLOWANCE);
    }
    usize::try_from(whole_number(word)?).map_err(|_| Bad::Line)
}

impl Cast {
    pub(crate) fn new(heap: Global) -> Cast {
        Cast {
            bytes: Vec::new(heap),
            rows: Vec::new(heap),
        }
    }

    /// Adds bytes behind the others, and tells where they lie.
    fn lay(&mut self, bytes: &[u8]) -> Result<Part, Bad> {
        let at = self.bytes.len();
        self.bytes.extend_from_slice(bytes)?;
        Ok(Part {
            at,
            len: bytes.len(),
        })
    }

    /// Adds the process that four words tell.
    fn enter(&mut self, heap: Global, command: &[u8], words: &[&[u8]]) -> Result<(), Bad> {
        let ending = ending(word(words, 0))?;
        let allowance = allowance(word(words, 1))?;
        let snag = snag(word(words, 2))?;
        let command = self.lay(command)?;
        let plays = self.lay(&spelt(heap, word(words, 3))?)?;
        self.rows.push(Row {
            command,
            plays,
            ending,
            allowance,
            snag,
        })?;
        Ok(())
    }

    /// Takes what a line tells of a process, if it does; the peer of a server has the empty command.
    pub(crate) fn add(&mut self, heap: Global, line: &[u8]) -> Result<(), Bad> {
        let words = split_words(heap, line)?;
        match words.as_slice() {
            [b"proc", command, rest @ ..] => self.enter(heap, &spelt(heap, command)?, rest),
            [b"peer", rest @ ..] => self.enter(heap, b"", rest),
            _ => Ok(()),
        }
    }
}
