//! The parts of a client's handshake.
ghost use Rattle.std.specs.Prelude.{◌≡◌};
ghost use Rattle.std.specs.Option.{option_map};
ghost use Rattle.slices.specs.Answers.{told};
ghost use Rattle.slices.specs.Names.{name_bytes};
ghost use Rattle.host.specs.Talk.{send_all};
ghost use Rattle.host.specs.Peers.{Does};
ghost use Rattle.handshake.specs.Judged.{heard};
ghost use Rattle.handshake.specs.Handshakes.{protocol_number, welcomed, chosen, with_line, hello, desired, ended, read_names};

use crate::judged::{greets, place_of, send_version, version_in};
use crate::protocol::{Protocol, Refusal};
use host::fault::LineFault;
use host::host::Host;
use host::peer::Peer;
use packetline::line::Line;
use process::capabilities::Capabilities;
use slices::equal::first;
use slices::name::Name;

/// The client's welcome, the versions that it offers, and a flush.
pub(crate) fn send_hello<H: Host>(
    peer: &mut Peer<'_, H>,
    prefix: &Name,
    versions: &[u64],
) -> Result<(), LineFault>
    ensures { Does H.log H.world (send_all (hello (name_bytes prefix.now) versions.now)) peer.old result peer.new }
{
    peer.send_pair(prefix.as_bytes(), b'-', b"client")?;
    for version in versions {
        send_version(peer, *version)?;
    }
    peer.send_flush()
}

/// The names that the client desires, and a flush.
pub(crate) fn send_desired<H: Host>(peer: &mut Peer<'_, H>, names: &[Name]) -> Result<(), LineFault>
    ensures { Does H.log H.world (send_all (desired names.now)) peer.old result peer.new }
{
    for name in names {
        peer.send_pair(b"capability", b'=', name.as_bytes())?;
    }
    peer.send_flush()
}

/// Judges whether a line is the process's welcome: the prefix and `-server`.
pub(crate) fn judge_welcome(line: Option<&[u8]>, prefix: &Name) -> Result<(), Protocol>
    ensures { told (λ u. u) protocol_number result ≡ welcomed (name_bytes prefix.now) (option_map (λ x. x.now) line.entry) }
{
    if !greets(line, prefix, b"-server") {
        return Err(Protocol::Welcome);
    }
    Ok(())
}

/// The version that a line chooses, one of those that were offered.
pub(crate) fn judge_version(line: Option<&[u8]>, versions: &[u64]) -> Result<u64, Protocol>
    ensures { told (λ n. n) protocol_number result ≡ chosen versions.now (option_map (λ x. x.now) line.entry) }
{
    let version = version_in(line).ok_or(Protocol::Version)?;
    match first(versions, &version) {
        Some(_) => Ok(version),
        None => Err(Protocol::NotOffered),
    }
}

/// Judges whether a flush came, and no line.
pub(crate) fn judge_end(line: Option<&[u8]>) -> Result<(), Protocol>
    ensures { told (λ u. u) protocol_number result ≡ ended (option_map (λ x. x.now) line.entry) }
{
    match line {
        None => Ok(()),
        Some(_) => Err(Protocol::Flush),
    }
}

/// The names that a process named, with those of one more line.
fn with_line(named: Capabilities, text: &[u8], names: &[Name]) -> Result<Capabilities, Protocol>
    ensures { told (λ c. c.mask) protocol_number result ≡ with_line names.now named.mask text.now }
{
    let Line::Capability(name) = Line::read(text) else {
        return Ok(named);
    };
    match place_of(names, name) {
        Some(k) => Ok(named.insert(k)),
        None => Err(Protocol::Capability),
    }
}

/// Reads the names that the process sends, up to the flush.
pub(crate) fn read_names<H: Host>(
    peer: &mut Peer<'_, H>,
    names: &[Name],
) -> Result<Capabilities, Refusal<Protocol>>
    ensures { Does H.log H.world (read_names names.now) peer.old (heard protocol_number (λ c. c.mask) result) peer.new }
{
    let mut named = Capabilities::none();
    while let Some(n) = peer.read_text()? {
        named = with_line(named, peer.front(n), names)?;
    }
    Ok(named)
}
