//! Packets read from a process of any host. Host, process and area stand apart here: a call judges the area that it is lent, and a peer has one that was judged.
ghost use Rattle.std.specs.Prelude.{◌≡◌, ◌≤◌, IfOk};
ghost use Rattle.slices.specs.Answers.{told};
ghost use Rattle.packetline.specs.Packets.{payload_length, with_payload};
ghost use Rattle.host.specs.Worlds.{waits};
ghost use Rattle.host.specs.Talk.{sight, Works, read as read_one};
ghost use Rattle.host.specs.Calls.{Streamed, Checked, room};

use crate::call::{AreaError, AreaTooShort, CallError};
use crate::host::Host;
use crate::inner::MAX_LINE_LEN;
use crate::peer::Peer;
use packetline::packet::Header;

/// The next packet of a process; its payload lies at the front of `area`, which has room for the longest packet.
pub fn read<H: Host>(host: &mut H, process: usize, area: &mut [u8]) -> Result<Header, AreaError>
    ensures bound { IfOk result (λ k. payload_length k ≤ 65516) }
    ensures goes { Checked (room area.old) (λ x. Works read_one (sight (H.log host.old) (H.world host.old)) process area.old x (sight (H.log host.new) (H.world host.new)) area.new × Streamed (waits (H.world host.old) process) x (waits (H.world host.new) process)) ((host.new ≡ host.old) × (area.new ≡ area.old)) (told (λ k. with_payload k area.new) (λ e. e) result) }
{
    if area.len() < MAX_LINE_LEN {
        return Err(CallError::Caller(AreaTooShort));
    }
    let mut peer = Peer {
        host,
        process,
        work: area,
    };
    Ok(peer.read_packet()?)
}
