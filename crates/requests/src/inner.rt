//! What this crate lends the next: the next request, read from a peer; and how its lines are stored, for who reads them otherwise.
ghost use Rattle.std.specs.Prelude.{◌≡◌, ℕ, ◌≤◌, List, length};
ghost use Rattle.std.specs.Option.{option_map};
ghost use Rattle.host.specs.Peers.{seen, SameLent};
ghost use Rattle.host.specs.Talk.{areas};
ghost use Rattle.requests.specs.Requests.{unasked, heard, ReadsCommand, ReadsMeta, ReadsRequest};

use crate::asked::{Asked, MetaRow};
use crate::fault::RequestFault;
pub use crate::store::{store_command, store_pair};
use host::fault::{Fault, LineFault};
use host::host::Host;
use host::peer::Peer;
use packetline::packet::Packet;
use slices::rows::Rows;

/// What a fault in place of a first line comes to: nothing is asked where the client has closed, or where a marker stands.
fn unasked(fault: LineFault) -> Result<Option<usize>, RequestFault>
    ensures { (f : ℕ → List ℕ) → heard (option_map f) result ≡ unasked fault }
{
    match fault {
        LineFault::Host(Fault::Closed) | LineFault::Marker => Ok(None),
        _ => Err(RequestFault::Line(fault)),
    }
}

/// The command in the first line, stored at the front of the text area, by its length; or none.
fn read_command<H: Host>(
    peer: &mut Peer<'_, H>,
    text: &mut [u8],
) -> Result<Option<usize>, RequestFault>
    ensures lent { SameLent peer.old peer.new }
    ensures reads { (status : List ℕ) → ReadsCommand text.old (seen H.log H.world peer.old) peer.old.process (areas peer.old.work.now status) result (seen H.log H.world peer.new) (areas peer.new.work.now status) text.new }
{
    let line = match peer.read_text() {
        Ok(line) => line,
        Err(fault) => return unasked(fault),
    };
    let Some(n) = line else {
        return Err(RequestFault::Command);
    };
    let len = store_command(text, peer.front(n))?;
    Ok(Some(len))
}

// Rows and text area stand apart here and below, as the caller lends them.
/// Reads the pairs of metadata up to the flush, and stores them behind the command; and how many they are.
fn read_meta<H: Host>(
    peer: &mut Peer<'_, H>,
    space: &mut [MetaRow],
    text: &mut [u8],
    command: usize,
) -> Result<usize, RequestFault>
    requires { command ≤ length text.old }
    ensures lent { SameLent peer.old peer.new }
    ensures reads { (status : List ℕ) → ReadsMeta command space.old text.old (seen H.log H.world peer.old) peer.old.process (areas peer.old.work.now status) result (seen H.log H.world peer.new) (areas peer.new.work.now status) space.new text.new }
{
    let mut rows = Rows::new(space);
    let mut at = command;
    loop {
        match peer.read_packet()? {
            Packet::Flush => return Ok(rows.len()),
            Packet::Data(n) => at = store_pair(&mut rows, text, at, peer.front(n))?,
            _ => return Err(RequestFault::Metadata),
        }
    }
}

/// Reads the next request: the text area holds the command and each pair's key and value one behind the other, and the rows say where; or none.
pub fn next_request<H: Host>(
    peer: &mut Peer<'_, H>,
    rows: &mut [MetaRow],
    text: &mut [u8],
) -> Result<Option<Asked>, RequestFault>
    ensures lent { SameLent peer.old peer.new }
    ensures reads { (status : List ℕ) → ReadsRequest rows.old text.old (seen H.log H.world peer.old) peer.old.process (areas peer.old.work.now status) result (seen H.log H.world peer.new) (areas peer.new.work.now status) rows.new text.new }
{
    let Some(command) = read_command(peer, text)? else {
        return Ok(None);
    };
    let pairs = read_meta(peer, rows, text, command)?;
    Ok(Some(Asked { command, pairs }))
}
