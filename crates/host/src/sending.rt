//! Packets sent to a process of any host. Host, process and area stand apart here: a call judges the area that it is lent, and a peer has one that was judged.
ghost use Rattle.std.specs.Prelude.{◌≡◌, map};
ghost use Rattle.packetline.specs.Packets.{flush, line, line_pkt};
ghost use Rattle.host.specs.Talk.{sight, Works, send, send_all};
ghost use Rattle.host.specs.Parts.{parts, Parted};
ghost use Rattle.host.specs.Calls.{Checked, room, judged};

use crate::call::{AreaError, AreaTooShort, CallError};
use crate::fault::LineFault;
use crate::host::Host;
use crate::inner::MAX_LINE_LEN;
use crate::peer::Peer;
use packetline::encode;
use packetline::encode::MAX_DATA_LEN;

/// Why a line was not sent: the area is too short, the line cannot be sent, or the process is at fault.
pub type SendError = CallError<encode::Error, LineFault>;

/// The packet of a text line, which goes out as given: no LF is added.
pub fn send_line<H: Host>(
    host: &mut H,
    process: usize,
    area: &mut [u8],
    text: &[u8],
) -> Result<(), SendError>
    ensures { Checked (judged (line_pkt text.now) area.old) (λ x. Works (send (line_pkt text.now)) (sight (H.log host.old) (H.world host.old)) process area.old x (sight (H.log host.new) (H.world host.new)) area.new) ((host.new ≡ host.old) × (area.new ≡ area.old)) result }
{
    if area.len() < MAX_LINE_LEN {
        return Err(CallError::Caller(encode::Error::AreaTooShort));
    }
    if text.is_empty() || text.len() > MAX_DATA_LEN {
        return Err(CallError::Caller(encode::Error::OutsideLimits));
    }
    let mut peer = Peer {
        host,
        process,
        work: area,
    };
    Ok(peer.send_line(text)?)
}

/// A flush.
pub fn send_flush<H: Host>(host: &mut H, process: usize, area: &mut [u8]) -> Result<(), AreaError>
    ensures { Checked (room area.old) (λ x. Works (send flush) (sight (H.log host.old) (H.world host.old)) process area.old x (sight (H.log host.new) (H.world host.new)) area.new) ((host.new ≡ host.old) × (area.new ≡ area.old)) result }
{
    if area.len() < MAX_LINE_LEN {
        return Err(CallError::Caller(AreaTooShort));
    }
    let mut peer = Peer {
        host,
        process,
        work: area,
    };
    Ok(peer.send_flush()?)
}

/// Content in packets of 65,516 bytes, the last perhaps shorter, up to the first that is refused; none for empty content.
pub fn send_content<H: Host>(
    host: &mut H,
    process: usize,
    area: &mut [u8],
    content: &[u8],
) -> Result<(), AreaError>
    ensures { Checked (room area.old) (λ x. Parted content.now × Works (send_all (map line (parts content.now))) (sight (H.log host.old) (H.world host.old)) process area.old x (sight (H.log host.new) (H.world host.new)) area.new) ((host.new ≡ host.old) × (area.new ≡ area.old)) result }
{
    if area.len() < MAX_LINE_LEN {
        return Err(CallError::Caller(AreaTooShort));
    }
    let mut peer = Peer {
        host,
        process,
        work: area,
    };
    Ok(peer.send_content(content)?)
}
