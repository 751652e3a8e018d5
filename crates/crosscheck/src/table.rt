//! The calls of a table, and a client's handshake alone.
use crate::answer::{Answer, refused};
use crate::bad::Bad;
use crate::room::Room;
use crate::stage::Stage;
use crate::words::{items, numbers, spelt, word};
use client::client::Client;
use driver::apply::{self, Applied};
use driver::inner::{number_of, result_of};
use driver::read::{self, Read, Refused};
use driver::{fetch, list};
use host::host::{Host, How};
use records::context::{Context, Delay};
use records::id::ObjectId;
use records::key::Key;
use records::operation::Operation;
use slices::name::Name;
use std::alloc::Global;

/// A number that no process has.
const NO_PROCESS: usize = usize::MAX;

// No TryFrom here and below: a word's type is not ours.
fn operation(word: &[u8]) -> Result<Operation, Bad> {
    match word {
        b"clean" => Ok(Operation::Clean),
        b"smudge" => Ok(Operation::Smudge),
        _ => Err(Bad::Line),
    }
}

fn delay(word: &[u8]) -> Result<Delay, Bad> {
    match word {
        b"0" => Ok(Delay::Forbid),
        b"1" => Ok(Delay::Allow),
        _ => Err(Bad::Line),
    }
}

fn key(heap: Global, word: &[u8]) -> Result<Key, Bad> {
    let text = spelt(heap, word)?;
    Key::new(&text).map_err(|_| Bad::Line)
}

pub(crate) fn name(heap: Global, word: &[u8]) -> Result<Name, Bad> {
    let text = spelt(heap, word)?;
    Name::new(&text).map_err(|_| Bad::Line)
}

/// The names of a list.
pub(crate) fn names(heap: Global, list: &[u8]) -> Result<Vec<Name>, Bad> {
    items(heap, list)?
        .iter()
        .map(|item| name(heap, item))
        .try_collect(heap)
}

fn id(heap: Global, word: &[u8]) -> Result<Option<ObjectId>, Bad> {
    if word == b"-".as_slice() {
        return Ok(None);
    }
    match spelt(heap, word)?.as_slice().first_chunk::<20>() {
        Some(bytes) => Ok(Some(ObjectId::from(*bytes))),
        None => Err(Bad::Line),
    }
}

/// What an apply asks for, but its content. A reference's name is empty where it has none.
#[derive(Clone, Copy)]
struct Asked<'a> {
    operation: Operation,
    delay: Delay,
    path: &'a [u8],
    ref_name: &'a [u8],
    treeish: Option<ObjectId>,
    blob: Option<ObjectId>,
}

impl Stage<'_> {
    /// Gives content, and tells of its reference where that has a name.
    fn give<'b>(
        &mut self,
        room: &mut Room,
        key: &Key,
        asked: &Asked<'b>,
        content: &[u8],
    ) -> Answer {
        let name = asked.ref_name;
        let context = Context {
            rela_path: asked.path,
            ref_name: (!name.is_empty()).then_some(name),
            treeish: asked.treeish,
            blob: asked.blob,
        };
        let applied = self.table.apply_delayed(
            &mut self.host,
            &mut room.work,
            &mut room.status,
            key,
            content,
            asked.operation,
            asked.delay,
            &context,
        );
        match applied {
            Ok(Applied::Passed) => Answer::Word("passed"),
            Ok(Applied::Delayed) => Answer::Word("delayed"),
            Ok(Applied::Immediate(token)) => {
                number_of(token);
                Answer::Word("result")
            }
            Err(apply::Error::ProcessStatus(status)) => Answer::Status(status),
            Err(why) => refused(why),
        }
    }

    fn apply(&mut self, room: &mut Room, words: &[&[u8]]) -> Result<Answer, Bad> {
        let heap = self.heap;
        let key = key(heap, word(words, 1))?;
        let path = spelt(heap, word(words, 3))?;
        let ref_name = spelt(heap, word(words, 4))?;
        let content = spelt(heap, word(words, 8))?;
        let asked = Asked {
            operation: operation(word(words, 2))?,
            delay: delay(word(words, 7))?,
            path: &path,
            ref_name: &ref_name,
            treeish: id(heap, word(words, 5))?,
            blob: id(heap, word(words, 6))?,
        };
        Ok(self.give(room, &key, &asked, &content))
    }

    fn fetch(&mut self, room: &mut Room, words: &[&[u8]]) -> Result<Answer, Bad> {
        let key = key(self.heap, word(words, 1))?;
        let operation = operation(word(words, 2))?;
        let path = spelt(self.heap, word(words, 3))?;
        let fetched = self.table.fetch_delayed(
            &mut self.host,
            &mut room.work,
            &mut room.status,
            &key,
            &path,
            operation,
        );
        Ok(match fetched {
            Ok(token) => {
                number_of(token);
                Answer::Word("result")
            }
            Err(fetch::Error::ProcessStatus(status)) => Answer::Status(status),
            Err(why) => refused(why),
        })
    }

    fn list(&mut self, room: &mut Room, words: &[&[u8]]) -> Result<Answer, Bad> {
        let key = key(self.heap, word(words, 1))?;
        let listed = self.table.list_delayed_paths(
            &mut self.host,
            &mut room.work,
            &mut room.status,
            &key,
            &mut room.paths,
            &mut room.text,
        );
        Ok(match listed {
            Ok(paths) => Answer::Paths(paths.stored),
            Err(list::Error::ProcessStatus(status)) => Answer::Status(status),
            Err(why) => refused(why),
        })
    }

    /// Reads the result of a key's process once; a key without record names a process that no result is of.
    fn read(&mut self, room: &mut Room, words: &[&[u8]]) -> Result<Answer, Bad> {
        let key = key(self.heap, word(words, 1))?;
        let process = match self.table.records().record_of(&key) {
            Some(record) => record.process,
            None => NO_PROCESS,
        };
        let was_read = self.table.read(
            &mut self.host,
            &mut room.work,
            &mut room.status,
            result_of(process),
        );
        Ok(match was_read {
            Ok(Read::Payload(n, token)) => {
                number_of(token);
                Answer::Payload(n)
            }
            Ok(Read::End) => Answer::Word("end"),
            Err(read::Error::Refused(Refused { why, back })) => {
                number_of(back);
                refused(why)
            }
            Err(read::Error::Lost(fault)) => refused(fault),
            Err(read::Error::ProcessStatus(status)) => Answer::Final(status),
        })
    }

    /// Starts a command, shakes hands with its process, and closes it.
    fn shake(&mut self, room: &mut Room, words: &[&[u8]]) -> Result<Answer, Bad> {
        let heap = self.heap;
        let command = spelt(heap, word(words, 1))?;
        let prefix = name(heap, word(words, 2))?;
        let versions = numbers(heap, word(words, 3))?;
        let names = names(heap, word(words, 4))?;
        let process = match self.host.start(&command) {
            Ok(process) => process,
            Err(why) => return Ok(refused(why)),
        };
        let shaken = Client::handshake(
            &mut self.host,
            process,
            &mut room.work,
            &prefix,
            &versions,
            &names,
        );
        self.host.end(process, How::Close);
        Ok(match shaken {
            Ok(client) => Answer::Shaken(client.version, client.capabilities.mask),
            Err(why) => refused(why),
        })
    }

    /// Makes the call of a line.
    pub(crate) fn make(&mut self, room: &mut Room, words: &[&[u8]]) -> Result<Answer, Bad> {
        match word(words, 0) {
            b"apply" => self.apply(room, words),
            b"fetch" => self.fetch(room, words),
            b"list" => self.list(room, words),
            b"read" => self.read(room, words),
            b"shake" => self.shake(room, words),
            _ => Err(Bad::Line),
        }
    }
}
