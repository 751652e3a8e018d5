//! Packets: by their header, and with their payload.
ghost use Rattle.std.specs.Prelude.{◌≡◌};
ghost use Rattle.packetline.specs.Packets.{payload_length, with_payload};
ghost use Rattle.packetline.specs.Reads.{pkt};

/// A packet, and of a data packet what is known of its payload.
#[derive(Clone, Copy, PartialEq, Eq, Debug)]
pub enum Packet<P> {
    Flush,
    Delimiter,
    ResponseEnd,
    Data(P),
}

/// What a header announces; of a data packet, how many bytes of payload follow.
pub type Header = Packet<usize>;

/// A packet with its payload, borrowed from the bytes that it was read from.
pub type PacketLineRef<'a> = Packet<&'a [u8]>;

impl Packet<usize> {
    /// How many bytes of payload follow the header.
    pub(crate) fn payload_length(self) -> usize
        ensures { result ≡ payload_length self }
    {
        match self {
            Packet::Data(n) => n,
            _ => 0,
        }
    }

    /// The packet with its payload from the front of `bytes`, as far as that is there.
    pub fn with_payload(self, bytes: &[u8]) -> PacketLineRef<'_>
        ensures { pkt result ≡ with_payload self bytes.now }
    {
        match self {
            Packet::Flush => Packet::Flush,
            Packet::Delimiter => Packet::Delimiter,
            Packet::ResponseEnd => Packet::ResponseEnd,
            Packet::Data(n) => Packet::Data(&bytes[0..n.min(bytes.len())]),
        }
    }
}
