//! The parts of a server's handshake.
ghost use Rattle.std.specs.Prelude.{◌≡◌, ◌≤◌, ◌<◌, Some, Ok, length, take, IfOk};
ghost use Rattle.std.specs.Option.{option_map};
ghost use Rattle.slices.specs.Answers.{told};
ghost use Rattle.slices.specs.Names.{name_bytes};
ghost use Rattle.packetline.specs.Lines.{kind_of};
ghost use Rattle.host.specs.Talk.{send_all};
ghost use Rattle.host.specs.Peers.{Does};
ghost use Rattle.process.specs.Peers.{DoesBy};
ghost use Rattle.handshake.specs.Judged.{version_in, capability_in, heard};
ghost use Rattle.handshake.specs.Places.{AllWithin};
ghost use Rattle.handshake.specs.Sharing.{places_of};
ghost use Rattle.handshake.specs.Servers.{objection_number, hailed, KeepsVersion, read_versions, HoldsOn, with_shared, read_shared, answers, shares, answers_then, met};

use crate::judged::{greets, place_of, send_version, version_in};
use crate::protocol::{Objection, Refusal};
use crate::shared::Shared;
use host::fault::LineFault;
use host::host::Host;
use host::peer::Peer;
use packetline::line::Line;
use slices::name::Name;
use slices::rows::Rows;

/// Judges whether a line is the client's welcome: the prefix and `-client`.
pub fn judge_hail(line: Option<&[u8]>, prefix: &Name) -> Result<(), Objection>
    ensures { told (λ u. u) objection_number result ≡ hailed (name_bytes prefix.now) (option_map (λ x. x.now) line.entry) }
{
    if !greets(line, prefix, b"-client") {
        return Err(Objection::Welcome);
    }
    Ok(())
}

/// Holds the version that a line offers in a row.
pub fn keep_version(rows: &mut Rows<'_, u64>, line: &[u8]) -> Result<(), Objection>
    ensures lender { rows.new.rows.ghost_name ≡ rows.old.rows.ghost_name }
    ensures keeps { KeepsVersion (version_in (Some line.now)) rows.old.rows.now rows.old.count result rows.new.rows.now rows.new.count }
{
    let version = version_in(Some(line)).ok_or(Objection::Version)?;
    Ok(rows.push(version)?)
}

/// Reads the versions that the client offers, up to the flush, into rows, and how many they are.
pub(crate) fn read_versions<H: Host>(
    peer: &mut Peer<'_, H>,
    space: &mut [u64],
) -> Result<usize, Refusal<Objection>>
    ensures room { IfOk result (λ n. n ≤ length space.new) }
    ensures goes { DoesBy H.log H.world (λ _ given r. HoldsOn space.old given r space.new) (read_versions (length space.old)) peer.old (heard objection_number (λ n. take n space.new) result) peer.new }
{
    let mut rows = Rows::new(space);
    while let Some(n) = peer.read_text()? {
        keep_version(&mut rows, peer.front(n))?;
    }
    Ok(rows.len())
}

/// The server's welcome, the version that it chose, and a flush.
fn send_answers<H: Host>(
    peer: &mut Peer<'_, H>,
    prefix: &Name,
    version: u64,
) -> Result<(), LineFault>
    ensures { Does H.log H.world (send_all (answers (name_bytes prefix.now) version)) peer.old result peer.new }
{
    peer.send_pair(prefix.as_bytes(), b'-', b"server")?;
    send_version(peer, version)?;
    peer.send_flush()
}

/// The names that are shared, with the one that a line names.
pub fn with_line(shared: Shared, line: &[u8], names: &[Name]) -> Shared
    requires few { length names.now ≤ 32 }
    requires inside { AllWithin (length names.now) (places_of shared) }
    ensures value { places_of result ≡ with_shared names.now (places_of shared) (capability_in (kind_of line.now)) }
    ensures within { AllWithin (length names.now) (places_of result) }
{
    let Line::Capability(name) = Line::read(line) else {
        return shared;
    };
    match place_of(names, name) {
        Some(k) => shared.insert(k),
        None => shared,
    }
}

/// Reads the names that the client sends, up to the flush, and keeps those that are available.
fn read_shared<H: Host>(peer: &mut Peer<'_, H>, names: &[Name]) -> Result<Shared, LineFault>
    requires { length names.now ≤ 32 }
    ensures goes { Does H.log H.world (read_shared names.now) peer.old (told places_of (λ f. f) result) peer.new }
    ensures within { IfOk result (λ s. AllWithin (length names.now) (places_of s)) }
{
    let mut shared = Shared::none();
    while let Some(n) = peer.read_text()? {
        shared = with_line(shared, peer.front(n), names);
    }
    Ok(shared)
}

/// A line for each shared name, and a flush.
fn send_shares<H: Host>(
    peer: &mut Peer<'_, H>,
    names: &[Name],
    shared: &Shared,
) -> Result<(), LineFault>
    requires few { length names.now ≤ 32 }
    requires inside { AllWithin (length names.now) (places_of shared.now) }
    ensures { Does H.log H.world (send_all (shares names.now (places_of shared.now))) peer.old result peer.new }
{
    for k in shared.as_slice() {
        peer.send_pair(b"capability", b'=', names[*k].as_bytes())?;
    }
    peer.send_flush()
}

/// Says the version that was chosen, hears which names the client wants, and names those that are available.
pub(crate) fn share<H: Host>(
    peer: &mut Peer<'_, H>,
    prefix: &Name,
    version: u64,
    names: &[Name],
) -> Result<Shared, LineFault>
    requires { length names.now ≤ 32 }
    ensures { Does H.log H.world (answers_then (name_bytes prefix.now) names.now version) peer.old (told (λ s. Ok (met version (places_of s))) (λ f. f) result) peer.new }
{
    send_answers(peer, prefix, version)?;
    let shared = read_shared(peer, names)?;
    send_shares(peer, names, &shared)?;
    Ok(shared)
}
