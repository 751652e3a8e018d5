//! Packets read from the front of a byte string.
ghost use Rattle.std.specs.Prelude.{◌≡◌, ◌<◌, ◌≤◌, length, IfSome, IfOk};
ghost use Rattle.slices.specs.Answers.{told};
ghost use Rattle.packetline.specs.Packets.{digit, number, header as heading, front, payload_length, ReadsSent, DecodesSent};
ghost use Rattle.packetline.specs.Reads.{decode_number, front_told, Within, Next, Counted};
ghost use Rattle.std.specs.Iterator.{at_most};

use crate::packet::{Header, Packet, PacketLineRef};
use slices::refusal::Numbered;

/// Why bytes are no packet.
#[derive(Clone, Copy, PartialEq, Eq, Debug)]
pub enum Error {
    BadHeader,
}

impl Numbered for Error {
    ghost number = { decode_number };

    fn refusal_number(self) -> u8 {
        match self {
            Error::BadHeader => 20,
        }
    }
}

/// A packet that is whole, and how many bytes it takes.
#[derive(Clone, Copy)]
pub struct Complete<'a> {
    pub line: PacketLineRef<'a>,
    pub bytes_consumed: usize,
}

/// The value of a hexadecimal digit of either case.
fn hex_digit(b: u8) -> Option<u32>
    ensures value { result ≡ digit b }
    ensures bound { IfSome result (λ d. d < 16) }
{
    (b as char).to_digit(16)
}

/// The number that four hexadecimal digits spell.
fn hex_number(four_bytes: &[u8; 4]) -> Option<u32>
    ensures { result ≡ number four_bytes.now }
{
    let a = hex_digit(four_bytes[0])?;
    let b = hex_digit(four_bytes[1])?;
    let c = hex_digit(four_bytes[2])?;
    let d = hex_digit(four_bytes[3])?;
    Some(a * 4096 + b * 256 + c * 16 + d)
}

/// What four bytes say as a header.
// The bound stands in the promise of each that reads: users get a length as a plain number.
pub fn hex_prefix(four_bytes: &[u8; 4]) -> Result<Header, Error>
    ensures value { told (λ k. k) decode_number result ≡ heading four_bytes.now }
    ensures bound { IfOk result (λ k. payload_length k ≤ 65516) }
{
    match hex_number(four_bytes) {
        Some(0) => Ok(Packet::Flush),
        Some(1) => Ok(Packet::Delimiter),
        Some(2) => Ok(Packet::ResponseEnd),
        Some(n @ 5..=65520) => Ok(Packet::Data(n as usize - 4)),
        _ => Err(Error::BadHeader),
    }
}

/// The packet at the front of `bytes`, if it is whole.
#[tactic(auto, using(crate::proofs::Exact::reads_sent, crate::proofs::Fronts::front_none))]
pub fn streaming(bytes: &[u8]) -> Result<Option<Complete<'_>>, Error>
    ensures value { front_told result bytes.now ≡ front bytes.now }
    ensures within { Within result bytes.now }
    ensures exactly { ReadsSent bytes.now }
{
    let Some((four_bytes, rest)) = bytes.split_first_chunk() else {
        return Ok(None);
    };
    let packet = hex_prefix(four_bytes)?;
    let bytes_consumed = 4 + packet.payload_length();
    if bytes.len() < bytes_consumed {
        return Ok(None);
    }
    Ok(Some(Complete {
        line: packet.with_payload(rest),
        bytes_consumed,
    }))
}

/// The packets of a byte string in order, as far as they go: to its end, to less than a packet, or to a bad header.
#[derive(Drop)]
pub struct PacketLines<'a> {
    unread: &'a [u8],
}

impl<'a> PacketLines<'a> {
    pub fn new(bytes: &'a [u8]) -> PacketLines<'a>
        ensures { result.unread.now ≡ bytes.now }
    {
        PacketLines { unread: bytes }
    }

    /// What is not read yet.
    pub fn rest(&self) -> &'a [u8]
        ensures { result.now ≡ self.now.unread.now }
    {
        self.unread
    }
}

impl<'a> Iterator for PacketLines<'a> {
    type Item = PacketLineRef<'a>;

    ghost next_gives = { λ s r t. Next s.unread.now r t.unread.now };

    ghost remaining = { λ s. at_most (length s.unread.now) };

    fn next(&mut self) -> Option<PacketLineRef<'a>> {
        let PacketLines { unread } = self;
        let Complete {
            line,
            bytes_consumed,
        } = streaming(unread).ok()??;
        *unread = &unread[bytes_consumed..];
        Some(line)
    }
}

/// How many packets and flushes a byte string has, and how many bytes they take.
#[derive(Clone, Copy)]
pub struct Tally {
    pub packets: usize,
    pub flushes: usize,
    pub bytes_consumed: usize,
}

/// Counts the packets of `bytes` from the first byte on.
#[tactic(auto, using(crate::proofs::Decoding::at_start))]
pub fn count(bytes: &[u8]) -> Tally
    ensures counted { Counted bytes.now result }
    ensures sent { DecodesSent bytes.now }
{
    let mut lines = PacketLines::new(bytes);
    let mut packets = 0;
    let mut flushes = 0;
    // `for` over `by_ref()` was tried: nothing ties what `lines` has left to the loop's last iterator.
    while let Some(line) = lines.next() {
        packets += 1;
        if let Packet::Flush = line {
            flushes += 1;
        }
    }
    Tally {
        packets,
        flushes,
        bytes_consumed: bytes.len() - lines.rest().len(),
    }
}
