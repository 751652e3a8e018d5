//! What a server said and its client has not received yet.
ghost use Rattle.std.specs.Prelude.{◌≡◌, ◌+◌, ◌<◌, ◌≤◌, [], ◌∷◌, ◌++◌, length, take, drop, min};
ghost use Rattle.packetline.specs.Packets.{flush, line, line_pkt, packet};
ghost use Rattle.host.specs.Acts.{some_wait};

use packetline::inner::{lay_data, lay_flush, lay_pair};

/// The bytes from one place to another are said and not received yet.
#[derive(Drop)]
pub(crate) struct Answer {
    // Fixed memory, with room for the longest answer: content of 4,096 bytes, its two statuses and its flush. The library allocates nothing.
    bytes: [u8; 4130],
    from: usize,
    to: usize,
    ghost long: { length bytes ≡ 4130 },
    ghost ordered: { from ≤ to },
    ghost fits: { to ≤ 4130 },
}

impl Answer {
    ghost use Rattle.mirror.specs.Memory.{waiting_in};

    /// Nothing.
    pub(crate) fn none() -> Answer
        ensures { waiting_in result ≡ [] }
    {
        Answer {
            bytes: [0; 4130],
            from: 0,
            to: 0,
        }
    }

    /// Forgets what was said.
    pub(crate) fn clear(&mut self)
        ensures waits { waiting_in self.new ≡ [] }
        ensures room { self.new.to ≡ 0 }
    {
        self.from = 0;
        self.to = 0;
    }

    /// Whether bytes wait.
    pub(crate) fn waits(&self) -> bool
        ensures { result ≡ some_wait (waiting_in self.now) }
    {
        self.from < self.to
    }

    /// The first bytes that wait, as many as the area has room for.
    pub(crate) fn take(&mut self, area: &mut [u8]) -> usize
        ensures len { result ≡ min (length (waiting_in self.old)) (length area.old) }
        ensures gone { waiting_in self.new ≡ drop result (waiting_in self.old) }
        ensures laid { area.new ≡ take result (waiting_in self.old) ++ drop result area.old }
    {
        let n = (self.to - self.from).min(area.len());
        let waiting = &self.bytes[self.from..self.to];
        area[0..n].copy_from_slice(&waiting[0..n]);
        self.from += n;
        n
    }

    /// Says a payload, in a packet.
    pub(crate) fn say(&mut self, payload: &[u8])
        requires some { 0 < length payload.now }
        requires room { self.old.to + length payload.now + 4 ≤ 4130 }
        ensures says { waiting_in self.new ≡ waiting_in self.old ++ packet (line payload.now) }
        ensures to { self.new.to ≡ self.old.to + length payload.now + 4 }
    {
        self.to += lay_data(payload, &mut self.bytes[self.to..]);
    }

    /// Says a line in two parts with a sign between them.
    pub(crate) fn say_pair(&mut self, left: &[u8], sign: u8, right: &[u8])
        requires { self.old.to + length left.now + length right.now + 5 ≤ 4130 }
        ensures says { waiting_in self.new ≡ waiting_in self.old ++ packet (line_pkt (left.now ++ sign ∷ right.now)) }
        ensures to { self.new.to ≡ self.old.to + length left.now + length right.now + 5 }
    {
        self.to += lay_pair(left, sign, right, &mut self.bytes[self.to..]);
    }

    /// Says a flush.
    pub(crate) fn say_flush(&mut self)
        requires { self.old.to + 4 ≤ 4130 }
        ensures says { waiting_in self.new ≡ waiting_in self.old ++ packet flush }
        ensures to { self.new.to ≡ self.old.to + 4 }
    {
        self.to += lay_flush(&mut self.bytes[self.to..]);
    }
}
