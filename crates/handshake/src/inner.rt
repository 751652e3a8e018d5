//! What this crate lends the next: a handshake with a peer, of either end, for a caller who has judged how many names there are; and how a server judges each line that it hears, for who reads them otherwise.
ghost use Rattle.std.specs.Prelude.{◌≤◌, length};
ghost use Rattle.slices.specs.Names.{name_bytes};
ghost use Rattle.process.specs.Peers.{DoesBy};
ghost use Rattle.handshake.specs.Judged.{heard};
ghost use Rattle.handshake.specs.Handshakes.{handshake as handshaken, protocol_number, shaken_by, HandshakeLaw};
ghost use Rattle.handshake.specs.Servers.{served, objection_number, HoldsLater, ServedLaw};
ghost use Rattle.handshake.specs.Sharing.{met_by};

use crate::agreement::{Accord, Agreement};
pub use crate::hearing::{judge_hail, keep_version, with_line};
use crate::hearing::{read_versions, share};
use crate::judged::read_judged;
use crate::parts::{judge_end, judge_version, judge_welcome, read_names, send_desired, send_hello};
use crate::protocol::{Objection, Protocol, Refusal};
use choices::choice::Choice;
use host::host::Host;
use host::peer::Peer;
use slices::name::Name;

// Prefix, versions and names stand apart, as the Rust has them and as the promise names each.
/// Shakes hands with a process: both agree on a version, and the process names which of the desired names it knows.
pub fn handshake<H: Host>(
    peer: &mut Peer<'_, H>,
    prefix: &Name,
    versions: &[u64],
    names: &[Name],
) -> Result<Agreement, Refusal<Protocol>>
    requires { length names.now ≤ 32 }
    ensures { DoesBy H.log H.world (HandshakeLaw (name_bytes prefix.now) versions.now names.now) (handshaken (name_bytes prefix.now) versions.now names.now) peer.old (heard protocol_number shaken_by result) peer.new }
{
    send_hello(peer, prefix, versions)?;
    read_judged(peer, |line: Option<&[u8]>| judge_welcome(line, prefix))?;
    let version = read_judged(peer, |line: Option<&[u8]>| judge_version(line, versions))?;
    read_judged(peer, judge_end)?;
    send_desired(peer, names)?;
    let capabilities = read_names(peer, names)?;
    Ok(Agreement {
        version,
        capabilities,
    })
}

/// Shakes hands with a client: hears which versions it offers, which the rows then hold, chooses one of them, and names those of the client's names that are available.
pub fn serve<H: Host, C: Choice>(
    peer: &mut Peer<'_, H>,
    prefix: &Name,
    rows: &mut [u64],
    choice: &C,
    names: &[Name],
) -> Result<Accord, Refusal<Objection>>
    requires { length names.now ≤ 32 }
    ensures { DoesBy H.log H.world (λ sent given r. ServedLaw (name_bytes prefix.now) (length rows.old) (C.chosen choice.now) names.now sent given r × HoldsLater rows.old given rows.new) (served (name_bytes prefix.now) (length rows.old) (C.chosen choice.now) names.now) peer.old (heard objection_number met_by result) peer.new }
{
    read_judged(peer, |line: Option<&[u8]>| judge_hail(line, prefix))?;
    let count = read_versions(peer, rows)?;
    let version = choice.choose(&rows[0..count]).ok_or(Objection::Mismatch)?;
    let shared = share(peer, prefix, version, names)?;
    Ok(Accord { version, shared })
}
