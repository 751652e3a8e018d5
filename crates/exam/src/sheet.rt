//! The lines of a sheet: processes, what they give, and calls.
use crate::bad::Bad;
use crate::lines::items;
use crate::table_calls::{TableCall, is_table_word, read_claim, read_table_call};
use host::fault::{Fault, Snag};
use host::host::How;
use packetline::encode::MAX_DATA_LEN;
use packetline::text::number;
use recording::line::hex_bytes;
use recording::show::read_back;
use std::alloc::Global;

/// The most rows, and the most bytes of room, that a listing of a sheet has.
const MAX_LIST: usize = 65_536;

/// What is given or sent.
#[derive(Drop)]
pub(crate) enum What {
    /// The payload of a packet.
    Data(Vec<u8>),
    Flush,
    /// Bytes that are framed by nobody.
    Bytes(Vec<u8>),
}

/// A line of metadata.
// Not client's `Meta`, which borrows: a sheet's values stand escaped, so what they mean is owned here.
#[derive(Drop)]
pub(crate) struct Pair {
    pub(crate) key: Vec<u8>,
    pub(crate) value: Vec<u8>,
}

/// A call on the host itself.
#[derive(Drop)]
pub(crate) enum PlainCall<'a> {
    Start(&'a [u8]),
    Send(usize, What),
    Read(usize),
    Receive(usize, usize),
    End(usize, How),
}

/// A client's call on a process.
#[derive(Drop)]
pub(crate) enum ClientCall<'a> {
    /// The names are a list parted by commas.
    Handshake {
        prefix: &'a [u8],
        versions: Vec<u64>,
        names: &'a [u8],
    },
    Invoke {
        command: &'a [u8],
        content: Vec<u8>,
    },
    Status,
    Result,
    List {
        rows: usize,
        room: usize,
    },
}

/// What is played of a sheet.
#[derive(Drop)]
pub(crate) enum Call<'a> {
    Plain(PlainCall<'a>),
    /// Metadata for the next exchange.
    With(Pair),
    Client(usize, ClientCall<'a>),
}

/// What a line of a sheet says.
#[derive(Drop)]
pub(crate) enum Entry<'a> {
    /// The sheet is played over a mirror.
    Mirror,
    Process {
        command: &'a [u8],
        ending: Fault,
        allowance: usize,
        snag: Snag,
    },
    Gives(What),
    Call(Call<'a>),
    TableCall(TableCall),
    /// The processes that are claimed to run.
    Claim(Vec<usize>),
}

/// The part before the first blank, and the part behind it. Where a part is missing it is empty: a sheet's lines are refused alike for both.
pub(crate) fn first_word(line: &[u8]) -> (&[u8], &[u8]) {
    let mut parts = line.splitn(2, |b| *b == b' ');
    (parts.next().unwrap_or(b""), parts.next().unwrap_or(b""))
}

/// A number that is a whole line.
pub(crate) fn whole_number(line: &[u8]) -> Result<usize, Bad> {
    number(line)
        .and_then(|n| usize::try_from(n).ok())
        .ok_or(Bad::Words)
}

/// A number that is the first word, and the part behind it.
fn first_number(line: &[u8]) -> Result<(usize, &[u8]), Bad> {
    let (word, rest) = first_word(line);
    Ok((whole_number(word)?, rest))
}

/// A first word that is not empty, and the part behind it.
fn some_word(text: &[u8]) -> Result<(&[u8], &[u8]), Bad> {
    let (word, rest) = first_word(text);
    if word.is_empty() {
        return Err(Bad::Words);
    }
    Ok((word, rest))
}

/// A text that is one word.
fn one_word(text: &[u8]) -> Result<&[u8], Bad> {
    let (word, rest) = some_word(text)?;
    if !rest.is_empty() {
        return Err(Bad::Words);
    }
    Ok(word)
}

/// The bytes that are shown between a quotation mark at the front and one at the end.
fn quoted(heap: Global, text: &[u8]) -> Result<Vec<u8>, Bad> {
    let text = text.strip_prefix(b"\"").ok_or(Bad::Words)?;
    let text = text.strip_suffix(b"\"").ok_or(Bad::Words)?;
    Ok(read_back(heap, text)?)
}

/// The payload of a packet, between quotation marks.
fn payload(heap: Global, text: &[u8]) -> Result<Vec<u8>, Bad> {
    let payload = quoted(heap, text)?;
    if payload.is_empty() || payload.len() > MAX_DATA_LEN {
        return Err(Bad::OutsideLimits);
    }
    Ok(payload)
}

/// The versions that a handshake offers.
fn read_versions(heap: Global, list: &[u8]) -> Result<Vec<u64>, Bad> {
    items(heap, list)?
        .iter()
        .map(|item| number(item).ok_or(Bad::NoVersions))
        .try_collect(heap)
}

// No TryFrom: neither the word's type nor the fault's is exam's.
fn ending(word: &[u8]) -> Result<Fault, Bad> {
    match word {
        b"closed" => Ok(Fault::Closed),
        b"broken" => Ok(Fault::Broken),
        b"other" => Ok(Fault::Other),
        _ => Err(Bad::Words),
    }
}

// No TryFrom, as for `ending`.
fn snag(word: &[u8]) -> Result<Snag, Bad> {
    match word {
        b"broken" => Ok(Snag::Broken),
        b"other" => Ok(Snag::Other),
        _ => Err(Bad::Words),
    }
}

fn read_what(heap: Global, text: &[u8]) -> Result<What, Bad> {
    let (word, rest) = first_word(text);
    match word {
        b"flush" if rest.is_empty() => Ok(What::Flush),
        b"delimiter" if rest.is_empty() => Ok(What::Bytes(Vec::from_slice(heap, b"0001")?)),
        b"response-end" if rest.is_empty() => Ok(What::Bytes(Vec::from_slice(heap, b"0002")?)),
        b"data" => Ok(What::Data(payload(heap, rest)?)),
        b"bytes" => Ok(What::Bytes(hex_bytes(heap, rest)?)),
        _ => Err(Bad::Words),
    }
}

fn process(text: &[u8]) -> Result<Entry<'_>, Bad> {
    let (command, text) = some_word(text)?;
    let (word, text) = first_word(text);
    let ending = ending(word)?;
    let (allowance, text) = first_number(text)?;
    let snag = snag(text)?;
    Ok(Entry::Process {
        command,
        ending,
        allowance,
        snag,
    })
}

fn sending(heap: Global, text: &[u8]) -> Result<PlainCall<'_>, Bad> {
    let (process, rest) = first_number(text)?;
    Ok(PlainCall::Send(process, read_what(heap, rest)?))
}

fn receiving(text: &[u8]) -> Result<PlainCall<'_>, Bad> {
    let (process, rest) = first_number(text)?;
    Ok(PlainCall::Receive(process, whole_number(rest)?))
}

fn with(heap: Global, text: &[u8]) -> Result<Pair, Bad> {
    let (key, rest) = some_word(text)?;
    let value = quoted(heap, rest)?;
    let key = Vec::from_slice(heap, key)?;
    Ok(Pair { key, value })
}

fn handshake(heap: Global, text: &[u8]) -> Result<Call<'_>, Bad> {
    let (process, text) = first_number(text)?;
    let (prefix, text) = first_word(text);
    let (versions, text) = first_word(text);
    let names = one_word(text)?;
    let versions = read_versions(heap, versions)?;
    Ok(Call::Client(
        process,
        ClientCall::Handshake {
            prefix,
            versions,
            names,
        },
    ))
}

fn invoking(heap: Global, text: &[u8]) -> Result<Call<'_>, Bad> {
    let (process, text) = first_number(text)?;
    let (command, text) = some_word(text)?;
    let content = quoted(heap, text)?;
    Ok(Call::Client(process, ClientCall::Invoke { command, content }))
}

fn listing(text: &[u8]) -> Result<Call<'_>, Bad> {
    let (process, text) = first_number(text)?;
    let (rows, text) = first_number(text)?;
    let room = whole_number(text)?;
    if rows > MAX_LIST || room > MAX_LIST {
        return Err(Bad::ListTooLarge);
    }
    Ok(Call::Client(process, ClientCall::List { rows, room }))
}

/// A call, by its first word and the part behind it.
fn read_call<'a>(heap: Global, word: &[u8], rest: &'a [u8]) -> Result<Call<'a>, Bad> {
    match word {
        b"start" => Ok(Call::Plain(PlainCall::Start(one_word(rest)?))),
        b"send" => Ok(Call::Plain(sending(heap, rest)?)),
        b"read" => Ok(Call::Plain(PlainCall::Read(whole_number(rest)?))),
        b"receive" => Ok(Call::Plain(receiving(rest)?)),
        b"close" => Ok(Call::Plain(PlainCall::End(whole_number(rest)?, How::Close))),
        b"kill" => Ok(Call::Plain(PlainCall::End(whole_number(rest)?, How::Kill))),
        b"handshake" => handshake(heap, rest),
        b"with" => Ok(Call::With(with(heap, rest)?)),
        b"invoke" => invoking(heap, rest),
        b"status" => Ok(Call::Client(whole_number(rest)?, ClientCall::Status)),
        b"result" => Ok(Call::Client(whole_number(rest)?, ClientCall::Result)),
        b"list" => listing(rest),
        _ => Err(Bad::Words),
    }
}

/// Whether a line says something.
fn is_said(line: &[u8]) -> bool {
    !matches!(line.first(), None | Some(b'#'))
}

/// Whether a line of a sheet that makes no table's calls is played: it says something, and tells of no process and no mirror.
pub(crate) fn is_played(line: &[u8]) -> bool {
    is_said(line) && !matches!(first_word(line).0, b"mirror" | b"process" | b"gives")
}

/// The call of a line that is played.
pub(crate) fn read_played(heap: Global, line: &[u8]) -> Result<Call<'_>, Bad> {
    let (word, rest) = first_word(line);
    read_call(heap, word, rest)
}

/// What a line says, if it says anything.
pub(crate) fn read_entry(heap: Global, line: &[u8]) -> Result<Option<Entry<'_>>, Bad> {
    if !is_said(line) {
        return Ok(None);
    }
    let (word, rest) = first_word(line);
    let entry = match word {
        b"mirror" if rest.is_empty() => Entry::Mirror,
        b"process" => process(rest)?,
        b"gives" => Entry::Gives(read_what(heap, rest)?),
        b"claim" => Entry::Claim(read_claim(heap, rest)?),
        _ if is_table_word(word) => Entry::TableCall(read_table_call(heap, word, rest)?),
        _ => Entry::Call(read_call(heap, word, rest)?),
    };
    Ok(Some(entry))
}
