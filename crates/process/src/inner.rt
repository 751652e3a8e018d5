//! What this crate lends the next: a status read from a peer.
ghost use Rattle.std.specs.Prelude.{◌≡◌};
ghost use Rattle.packetline.specs.Lines.{kind_of};
ghost use Rattle.host.specs.Talk.{name_over};
ghost use Rattle.process.specs.Peers.{DoesWith};
ghost use Rattle.process.specs.Statuses.{status_in, told_by, laid_by, read_status as status_read, StatusLaw};

use crate::area::{MAX_STATUS_LEN, StatusArea};
use crate::status::{Status, Word};
use host::fault::LineFault;
use host::host::Host;
use host::peer::Peer;
use packetline::line::Line;

impl StatusArea<'_> {
    /// The first 128 bytes of a name over the front of the area.
    fn lay(&mut self, name: &[u8])
        ensures lent { self.new.bytes.ghost_name ≡ self.old.bytes.ghost_name }
        ensures laid { self.new.bytes.now ≡ name_over name.now self.old.bytes.now }
    {
        let n = name.len().min(MAX_STATUS_LEN);
        self.bytes[0..n].copy_from_slice(&name[0..n]);
    }
}

/// The status after one more line of text; a name is laid over the status area.
fn note(told: Status, text: &[u8], status: &mut StatusArea<'_>) -> Status
    ensures answer { result ≡ told_by told (status_in (kind_of text.now)) }
    ensures lent { status.new.bytes.ghost_name ≡ status.old.bytes.ghost_name }
    ensures laid { status.new.bytes.now ≡ laid_by (status_in (kind_of text.now)) status.old.bytes.now }
{
    if let Line::Status(name) = Line::read(text) {
        status.lay(name);
        return Status::Named(Word::from(name), name.len());
    }
    told.as_first()
}

/// The status that lines up to the flush tell; the last one wins.
pub fn read_status<H: Host>(
    peer: &mut Peer<'_, H>,
    status: &mut StatusArea<'_>,
) -> Result<Status, LineFault>
    ensures { DoesWith H.log H.world StatusLaw status_read peer.old status.old result peer.new status.new }
{
    let mut told = Status::Previous;
    while let Some(n) = peer.read_text()? {
        told = note(told, peer.front(n), status);
    }
    Ok(told)
}
