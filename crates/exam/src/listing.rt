//! Packets as they are completed, numbered in order, and what each direction has left at the end.
ghost use Rattle.std.specs.Prelude.{◌≤◌, vec_len};

use packetline::decode;
use packetline::decode::streaming;
use packetline::packet::PacketLineRef;
use recording::line::Direction;
use recording::show::Escaped;
use slices::refusal::Numbered;
use std::alloc::Global;
use std::fmt;

/// How many bytes of a payload or of a path are shown.
const SHOWN: usize = 72;

/// What went in one direction: its bytes, how many of them were read as packets, and whether a bad header stopped that.
#[derive(Drop)]
struct Flow {
    bytes: Vec<u8>,
    // A place: a slice cannot be kept beside the Vec that it is of.
    read: usize,
    // A flag, since a bad header is told once: the bytes would tell it again with each record.
    bad: bool,
    ghost within: { read ≤ vec_len bytes },
}

/// The front of bytes between quotation marks, and how many bytes of the whole are behind it.
#[derive(Clone, Copy)]
pub(crate) struct Quoted<'a> {
    pub(crate) front: &'a [u8],
    pub(crate) whole: usize,
}

/// Bytes between quotation marks, as far as they are shown.
pub(crate) fn shown(bytes: &[u8]) -> Quoted<'_> {
    Quoted {
        front: &bytes[0..bytes.len().min(SHOWN)],
        whole: bytes.len(),
    }
}

impl fmt::Display for Quoted<'_> {
    fn fmt<W: fmt::Write>(&self, f: &mut fmt::Formatter<W>) -> fmt::Result {
        write!(f, "\"{}\"", Escaped(self.front))?;
        match self.whole.saturating_sub(self.front.len()) {
            0 => Ok(()),
            more => write!(f, " and {more} bytes more"),
        }
    }
}

/// A packet's kind, and its payload as far as it is shown.
#[derive(Clone, Copy)]
pub(crate) struct Described<'a>(pub(crate) PacketLineRef<'a>);

impl fmt::Display for Described<'_> {
    fn fmt<W: fmt::Write>(&self, f: &mut fmt::Formatter<W>) -> fmt::Result {
        match self.0 {
            PacketLineRef::Flush => f.write_str("flush"),
            PacketLineRef::Delimiter => f.write_str("delimiter"),
            PacketLineRef::ResponseEnd => f.write_str("response end"),
            PacketLineRef::Data(payload) => write!(f, "data {}", shown(payload)),
        }
    }
}

/// A packet that is whole, or four bytes that are no header, as a numbered line.
#[derive(Clone, Copy)]
pub(crate) struct PacketLine<'a> {
    number: usize,
    sign: &'static str,
    header: &'a [u8],
    packet: Result<PacketLineRef<'a>, decode::Error>,
}

impl fmt::Display for PacketLine<'_> {
    fn fmt<W: fmt::Write>(&self, f: &mut fmt::Formatter<W>) -> fmt::Result {
        let number = self.number;
        let sign = self.sign;
        let header = Escaped(self.header);
        match self.packet {
            Ok(packet) => {
                let packet = Described(packet);
                write!(f, "{number:>4} {sign} {header} {packet}")
            }
            Err(e) => {
                let refusal = e.refusal_number();
                write!(
                    f,
                    "{number:>4} {sign} {header} bad header, refusal {refusal}"
                )
            }
        }
    }
}

/// Who is told of packets, in order.
pub(crate) trait Listener {
    fn hear(&mut self, line: PacketLine<'_>) -> anyhow::Result<()>;
}

/// Lines stand one under the other.
impl Listener for String {
    fn hear(&mut self, line: PacketLine<'_>) -> anyhow::Result<()> {
        writeln!(self, "{line}")?;
        Ok(())
    }
}

/// Nobody listens: packets are only counted.
#[derive(Clone, Copy)]
pub(crate) struct Nobody;

impl Listener for Nobody {
    fn hear(&mut self, _line: PacketLine<'_>) -> anyhow::Result<()> {
        Ok(())
    }
}

/// How many bytes of lines are kept before they are printed.
const KEPT: usize = 65_536;

/// Standard output, to which lines go many at a time.
#[derive(Drop)]
pub(crate) struct Printer<'a> {
    rt: &'a HostRuntime,
    lines: String,
}

impl<'a> Printer<'a> {
    pub(crate) fn new(rt: &'a HostRuntime) -> Printer<'a> {
        Printer {
            rt,
            lines: String::new(rt.alloc()),
        }
    }

    /// Prints what is kept.
    pub(crate) fn print(&mut self) -> anyhow::Result<()> {
        let lines = self.lines.as_str();
        print!(self.rt; "{lines}")?;
        self.lines.clear();
        Ok(())
    }
}

impl Listener for Printer<'_> {
    fn hear(&mut self, line: PacketLine<'_>) -> anyhow::Result<()> {
        self.lines.hear(line)?;
        if self.lines.len() < KEPT {
            return Ok(());
        }
        self.print()
    }
}

impl Flow {
    fn new(heap: Global) -> Flow {
        Flow {
            bytes: Vec::new(heap),
            read: 0,
            bad: false,
        }
    }

    /// Reads each packet that is whole and was not read yet, tells of it, and answers the number of the last.
    fn advance<T: Listener>(
        &mut self,
        sign: &'static str,
        last: usize,
        listener: &mut T,
    ) -> anyhow::Result<usize> {
        let mut number = last;
        if self.bad {
            return Ok(number);
        }
        // No iterator: a packet is shown with its header's bytes, and a bad header has a line of its own.
        loop {
            let read = self.read;
            let unread = &self.bytes.as_slice()[read..];
            match streaming(unread) {
                Ok(Some(whole)) => {
                    number = number.saturating_add(1);
                    listener.hear(PacketLine {
                        number,
                        sign,
                        header: &unread[0..4],
                        packet: Ok(whole.line),
                    })?;
                    self.read = read + whole.bytes_consumed;
                }
                Ok(None) => break,
                Err(e) => {
                    number = number.saturating_add(1);
                    listener.hear(PacketLine {
                        number,
                        sign,
                        header: &unread[0..4],
                        packet: Err(e),
                    })?;
                    self.bad = true;
                    break;
                }
            }
        }
        Ok(number)
    }

    /// What was not read as packets is left so: reading goes on with what comes next.
    fn pass_over(&mut self) {
        self.read = self.bytes.len();
        self.bad = false;
    }

    /// How many flushes there are, from the first byte on.
    fn flushes(&self) -> usize {
        decode::count(self.bytes.as_slice()).flushes
    }

    /// What was not read as packets.
    fn print_left(&self, rt: &HostRuntime, name: &str) -> anyhow::Result<()> {
        let read = self.read;
        let left = self.bytes.len() - read;
        if left == 0 {
            println!(rt; "left over of what was {name}: nothing")?;
        } else if self.bad {
            println!(rt; "left over of what was {name}: {left} bytes, from a bad header on")?;
        } else {
            let n = left.min(SHOWN);
            let text = Escaped(&self.bytes.as_slice()[read..read + n]);
            println!(rt;
                "left over of what was {name}: {left} bytes, less than a packet: \"{text}\""
            )?;
        }
        Ok(())
    }
}

/// Both directions of an exchange.
#[derive(Drop)]
pub(crate) struct Listing {
    sent: Flow,
    given: Flow,
    last: usize,
}

impl Listing {
    pub(crate) fn new(heap: Global) -> Listing {
        Listing {
            sent: Flow::new(heap),
            given: Flow::new(heap),
            last: 0,
        }
    }

    /// What went in a direction.
    fn flow(&mut self, direction: Direction) -> &mut Flow {
        match direction {
            Direction::Sent => &mut self.sent,
            Direction::Given => &mut self.given,
        }
    }

    /// Adds a record, and tells of each packet that it completes.
    pub(crate) fn add<T: Listener>(
        &mut self,
        direction: Direction,
        bytes: &[u8],
        listener: &mut T,
    ) -> anyhow::Result<()> {
        // No Display: Direction is recording's, where a sign is a byte of a line.
        let sign = match direction {
            Direction::Sent => ">",
            Direction::Given => "<",
        };
        let last = self.last;
        let flow = self.flow(direction);
        flow.bytes.extend_from_slice(bytes)?;
        self.last = flow.advance(sign, last, listener)?;
        Ok(())
    }

    /// A call begins: what it reads begins with a packet, whatever the calls before it left.
    pub(crate) fn begin_call(&mut self) {
        self.sent.pass_over();
        self.given.pass_over();
    }

    /// How many flushes were sent, from the first byte on.
    pub(crate) fn flushes_sent(&self) -> usize {
        self.sent.flushes()
    }

    /// How many flushes were given, from the first byte on.
    pub(crate) fn flushes_given(&self) -> usize {
        self.given.flushes()
    }

    /// The flushes each way, and what is left over.
    pub(crate) fn print_summary(&self, rt: &HostRuntime) -> anyhow::Result<()> {
        let sent = self.flushes_sent();
        let given = self.flushes_given();
        println!(rt; "flushes: {sent} sent, {given} given")?;
        self.sent.print_left(rt, "sent")?;
        self.given.print_left(rt, "given")
    }
}
