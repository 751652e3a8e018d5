//! What this crate lends the next: calls on a peer, for a caller who has judged what is sent.
ghost use Rattle.std.specs.Prelude.{◌≡◌, ℕ, ◌≤◌, true, List, length, IfOk};
ghost use Rattle.slices.specs.Answers.{told};
ghost use Rattle.packetline.specs.Packets.{all_sendable};
ghost use Rattle.host.specs.Peers.{seen, SameLent, Does};
ghost use Rattle.host.specs.Talk.{areas, send_all};
ghost use Rattle.process.specs.Peers.{DoesWith};
ghost use Rattle.client.specs.Listings.{list_request, ReadsPaths, Lists};
ghost use Rattle.client.specs.Requests.{request, content_packets, invoked, InvokeLaw};
ghost use Rattle.client.specs.Results.{piece_of, output_length, read_piece, PieceLaw};

use crate::invoke::Meta;
use crate::listing::{ListFault, Listed};
use crate::paths::{Kept, PathRow, keep};
use crate::result::Output;
use host::fault::LineFault;
use host::host::Host;
use host::peer::Peer;
use packetline::packet::Packet;
use process::area::StatusArea;
use process::inner::read_status;
use process::status::Status;
use slices::rows::Rows;

/// A command's lines and a flush.
// Command and metadata stand apart here and below, as the Rust's `invoke` has them.
fn send_request<H: Host>(
    peer: &mut Peer<'_, H>,
    command: &[u8],
    meta: &[Meta<'_>],
) -> Result<(), LineFault>
    requires { all_sendable (request command.now meta.now) ≡ true }
    ensures { Does H.log H.world (send_all (request command.now meta.now)) peer.old result peer.new }
{
    peer.send_pair(b"command", b'=', command)?;
    for row in meta {
        peer.send_pair(row.key, b'=', row.value)?;
    }
    peer.send_flush()
}

/// Content in packets, and a flush.
fn send_body<H: Host>(peer: &mut Peer<'_, H>, content: &[u8]) -> Result<(), LineFault>
    ensures { Does H.log H.world (send_all (content_packets content.now)) peer.old result peer.new }
{
    peer.send_content(content)?;
    peer.send_flush()
}

/// A command and its content; the status that the process answers.
pub fn invoke<H: Host>(
    peer: &mut Peer<'_, H>,
    status: &mut StatusArea<'_>,
    command: &[u8],
    meta: &[Meta<'_>],
    content: &[u8],
) -> Result<Status, LineFault>
    requires { all_sendable (request command.now meta.now) ≡ true }
    ensures { DoesWith H.log H.world (InvokeLaw command.now meta.now content.now) (invoked command.now meta.now content.now) peer.old status.old result peer.new status.new }
{
    send_request(peer, command, meta)?;
    send_body(peer, content)?;
    Ok(read_status(peer, status)?.as_first())
}

/// One read of a result: a payload, or at the flush the final status.
pub fn read<H: Host>(
    peer: &mut Peer<'_, H>,
    status: &mut StatusArea<'_>,
) -> Result<Output, LineFault>
    ensures bound { IfOk result (λ o. output_length o ≤ 65516) }
    ensures goes { DoesWith H.log H.world PieceLaw read_piece peer.old status.old (told (piece_of peer.new.work.now) (λ f. f) result) peer.new status.new }
{
    match peer.read_content()? {
        Some(n) => Ok(Output::Payload(n)),
        None => Ok(Output::Final(read_status(peer, status)?)),
    }
}

/// The request of a listing.
fn ask_paths<H: Host>(peer: &mut Peer<'_, H>) -> Result<(), LineFault>
    ensures { Does H.log H.world (send_all list_request) peer.old result peer.new }
{
    peer.send_line(b"command=list_available_blobs")?;
    peer.send_flush()
}

// Rows and text area stand apart here and below, as the caller lends them.
/// The paths that lines up to the flush name, stored as far as there is space, and how many are stored; markers and other lines are passed over.
fn read_paths<H: Host>(
    peer: &mut Peer<'_, H>,
    space: &mut [PathRow],
    text: &mut [u8],
) -> Result<(Kept, usize), LineFault>
    ensures lent { SameLent peer.old peer.new }
    ensures reads { (status : List ℕ) → ReadsPaths space.old text.old (seen H.log H.world peer.old) peer.old.process (areas peer.old.work.now status) result (seen H.log H.world peer.new) (areas peer.new.work.now status) space.new text.new }
{
    let mut rows = Rows::new(space);
    let mut notes = Kept {
        named: 0,
        next: Some(0),
    };
    loop {
        match peer.read_packet()? {
            Packet::Flush => return Ok((notes, rows.len())),
            Packet::Data(n) => notes = keep(&mut rows, text, notes, peer.front(n)),
            _ => {}
        }
    }
}

/// The paths that the process can answer now, and the status of the listing.
pub fn list<H: Host>(
    peer: &mut Peer<'_, H>,
    status: &mut StatusArea<'_>,
    rows: &mut [PathRow],
    text: &mut [u8],
) -> Result<Listed, ListFault>
    ensures lent { SameLent peer.old peer.new }
    ensures same_area { status.new.bytes.ghost_name ≡ status.old.bytes.ghost_name }
    ensures lists { Lists rows.old text.old (seen H.log H.world peer.old) peer.old.process (areas peer.old.work.now status.old.bytes.now) result (seen H.log H.world peer.new) (areas peer.new.work.now status.new.bytes.now) rows.new text.new }
{
    ask_paths(peer)?;
    let (kept, stored) = read_paths(peer, rows, text)?;
    let told = read_status(peer, status)?;
    let listed = Listed {
        status: told.as_first(),
        named: kept.named,
        stored,
    };
    match kept.next {
        Some(_) => Ok(listed),
        None => Err(ListFault::Full(listed)),
    }
}
