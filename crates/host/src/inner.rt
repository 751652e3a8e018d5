//! What this crate lends the next: packets sent to and read from a peer, for a caller who has judged what is sent.
ghost use Rattle.std.specs.Prelude.{◌≡◌, ◌+◌, ◌≤◌, true, ◌∷◌, ◌++◌, map, length, take, IfSome, IfOk};
ghost use Rattle.packetline.specs.Packets.{flush, line, line_pkt, framable, sendable, all_sendable, payload_length};
ghost use Rattle.host.specs.Worlds.{waits};
ghost use Rattle.host.specs.Fills.{Filled, Brought};
ghost use Rattle.host.specs.Talk.{send, send_all, read, read_content, read_text, shown, shown_part};
ghost use Rattle.host.specs.Parts.{parts, Parted};
ghost use Rattle.host.specs.Calls.{Streamed};
ghost use Rattle.host.specs.Peers.{Does};

use crate::fault::{Fault, LineFault};
use crate::host::Host;
use crate::peer::Peer;
use packetline::decode::hex_prefix;
use packetline::encode::MAX_DATA_LEN;
use packetline::inner::{lay_data, lay_flush, lay_pair};
use packetline::packet::{Header, Packet};
use packetline::text::text;

/// The length of the longest packet, and the least length of an area that is lent for packets.
pub const MAX_LINE_LEN: usize = 65_520;

/// As many bytes as `area` has, however the host cuts them; or what came, and the ending.
fn fill<H: Host>(host: &mut H, process: usize, area: &mut [u8]) -> Result<(), Fault>
    ensures goes { Filled (H.world host.old) process area.old result (H.world host.new) area.new }
    ensures logs { Brought process (H.log host.old) (take (length area.old) (waits (H.world host.old) process)) (H.log host.new) }
{
    // Not a peer's: a header's four bytes are no work area. As the library's own `read_exact`: what is counted are bytes that came, and the host says how many.
    let mut got = 0;
    while got < area.len() {
        got += host.receive(process, &mut area[got..])?;
    }
    Ok(())
}

impl<H: Host> Peer<'_, H> {
    /// The next packet; its payload lies at the front of the work area.
    pub fn read_packet(&mut self) -> Result<Header, LineFault>
        ensures bound { IfOk result (λ k. payload_length k ≤ 65516) }
        ensures goes { Does H.log H.world read self.old (shown self.new.work.now result) self.new }
        ensures stream { Streamed (waits (H.world self.old.host.now) self.old.process) (shown self.new.work.now result) (waits (H.world self.new.host.now) self.old.process) }
    {
        // Fixed memory: the library allocates nothing.
        let mut head = [0u8; 4];
        fill(self.host, self.process, &mut head)?;
        let packet = hex_prefix(&head)?;
        if let Packet::Data(n) = packet {
            fill(self.host, self.process, &mut self.work[0..n])?;
        }
        Ok(packet)
    }

    /// The length of the next packet's payload, which lies at the front of the work area as it came; none at a flush.
    pub fn read_content(&mut self) -> Result<Option<usize>, LineFault>
        ensures bound { IfOk result (λ o. IfSome o (λ n. n ≤ 65516)) }
        ensures goes { Does H.log H.world read_content self.old (shown_part self.new.work.now result) self.new }
    {
        match self.read_packet()? {
            Packet::Flush => Ok(None),
            Packet::Data(n) => Ok(Some(n)),
            _ => Err(LineFault::Marker),
        }
    }

    /// The first `n` bytes of the work area.
    pub fn front(&self, n: usize) -> &[u8]
        requires { n ≤ 65520 }
        ensures { result.now ≡ take n self.now.work.now }
    {
        &self.work[0..n]
    }

    /// The length of the next packet's text, which lies at the front of the work area, the white space at its end not counted; none at a flush.
    pub fn read_text(&mut self) -> Result<Option<usize>, LineFault>
        ensures goes { Does H.log H.world read_text self.old (shown_part self.new.work.now result) self.new }
        ensures bound { IfOk result (λ o. IfSome o (λ n. n ≤ 65516)) }
    {
        let Some(n) = self.read_content()? else {
            return Ok(None);
        };
        let text = text(self.front(n))?;
        Ok(Some(text.len()))
    }

    /// The packet of `payload`, in one send; it is laid over the front of the work area first, and stays there where it is refused.
    pub fn send_packet(&mut self, payload: &[u8]) -> Result<(), LineFault>
        requires { framable payload.now ≡ true }
        ensures { Does H.log H.world (send (line payload.now)) self.old result self.new }
    {
        let len = lay_data(payload, self.work);
        Ok(self.host.send(self.process, &mut self.work[0..len])?)
    }

    /// The packet of a text line, which goes out as given: no LF is added.
    // A name of the Rust beside `send_packet`: what a line may be is another definition, which here says the same.
    pub fn send_line(&mut self, text: &[u8]) -> Result<(), LineFault>
        requires { sendable (line_pkt text.now) ≡ true }
        ensures { Does H.log H.world (send (line_pkt text.now)) self.old result self.new }
    {
        self.send_packet(text)
    }

    /// The packet of a text line in two parts with a sign between them, as `key=value`.
    pub fn send_pair(&mut self, left: &[u8], sign: u8, right: &[u8]) -> Result<(), LineFault>
        requires { length left.now + length right.now + 1 ≤ 65516 }
        ensures { Does H.log H.world (send (line_pkt (left.now ++ sign ∷ right.now))) self.old result self.new }
    {
        let end = lay_pair(left, sign, right, self.work);
        Ok(self.host.send(self.process, &mut self.work[0..end])?)
    }

    /// A flush.
    pub fn send_flush(&mut self) -> Result<(), LineFault>
        ensures { Does H.log H.world (send flush) self.old result self.new }
    {
        let n = lay_flush(self.work);
        Ok(self.host.send(self.process, &mut self.work[0..n])?)
    }

    /// A packet for each line, up to the first that is refused.
    pub fn send_lines(&mut self, lines: &[&[u8]]) -> Result<(), LineFault>
        requires { all_sendable (map (λ x. line_pkt x.now) lines.now) ≡ true }
        ensures { Does H.log H.world (send_all (map (λ x. line_pkt x.now) lines.now)) self.old result self.new }
    {
        for line in lines {
            self.send_line(line)?;
        }
        Ok(())
    }

    /// Content in packets of 65,516 bytes, the last perhaps shorter, up to the first that is refused; none for empty content.
    pub fn send_content(&mut self, content: &[u8]) -> Result<(), LineFault>
        ensures goes { Does H.log H.world (send_all (map line (parts content.now))) self.old result self.new }
        ensures law { Parted content.now }
    {
        for part in content.chunks(MAX_DATA_LEN) {
            self.send_packet(part)?;
        }
        Ok(())
    }
}
