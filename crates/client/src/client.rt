//! The client of one process: the calls that users make. They take host and areas apart and judge them; what goes on then takes a peer and a status area, which were judged.
ghost use Rattle.std.specs.Prelude.{◌≡◌, ◌≤◌, IfOk};
ghost use Rattle.slices.specs.Answers.{told};
ghost use Rattle.slices.specs.Names.{name_bytes};
ghost use Rattle.host.specs.Calls.{Checked};
ghost use Rattle.host.specs.Talk.{sight, areas};
ghost use Rattle.process.specs.Given.{TalksBy, WorksBy, rooms};
ghost use Rattle.handshake.specs.Judged.{heard};
ghost use Rattle.handshake.specs.Handshakes.{handshake as handshaken, protocol_number, HandshakeLaw};
ghost use Rattle.client.specs.Greetings.{shaken_with, handshake_fault};
ghost use Rattle.client.specs.Listings.{Lists};
ghost use Rattle.client.specs.Requests.{invoked, InvokeLaw, invoke_fault};
ghost use Rattle.client.specs.Results.{read_piece, piece_of, output_length, PieceLaw};
ghost use Rattle.process.specs.Statuses.{read_status, StatusLaw};

use crate::greeting::GreetingError;
use crate::inner;
use crate::invoke::{Meta, are_sendable};
use crate::listing::{ListError, Listed};
use crate::paths::PathRow;
use crate::result::Output;
use handshake::inner::handshake as shake_hands;
use host::call::{AreaError, AreaTooShort, CallError};
use host::host::Host;
use host::inner::MAX_LINE_LEN;
use host::peer::Peer;
use host::sending::SendError;
use packetline::encode;
pub use process::area::MAX_STATUS_LEN;
use process::area::StatusArea;
use process::capabilities::Capabilities;
use process::inner::read_status;
use process::status::Status;
use slices::name::Name;

/// The greatest number of versions that a client offers.
pub const MAX_VERSIONS: usize = 16;

/// The greatest number of names that a client desires.
pub const MAX_NAMES: usize = 32;

/// A process that hands were shaken with: its number, the version that it chose, and which of the desired names it named.
#[derive(Clone, Copy)]
pub struct Client {
    pub process: usize,
    pub version: u64,
    pub capabilities: Capabilities,
}

impl Client {
    /// Shakes hands with a process that was just started.
    pub fn handshake<H: Host>(
        host: &mut H,
        process: usize,
        work: &mut [u8],
        prefix: &Name,
        versions: &[u64],
        names: &[Name],
    ) -> Result<Client, GreetingError>
        ensures goes { Checked (handshake_fault work.old versions.now names.now) (λ x. WorksBy (HandshakeLaw (name_bytes prefix.now) versions.now names.now) (handshaken (name_bytes prefix.now) versions.now names.now) (sight (H.log host.old) (H.world host.old)) process work.old (heard protocol_number shaken_with x) (sight (H.log host.new) (H.world host.new)) work.new) ((host.new ≡ host.old) × (work.new ≡ work.old)) result }
        ensures itself { IfOk result (λ c. c.process ≡ process) }
    {
        if work.len() < MAX_LINE_LEN {
            return Err(CallError::Caller(encode::Error::AreaTooShort));
        }
        if versions.len() > MAX_VERSIONS || names.len() > MAX_NAMES {
            return Err(CallError::Caller(encode::Error::OutsideLimits));
        }
        let mut peer = Peer {
            host,
            process,
            work,
        };
        let agreed = shake_hands(&mut peer, prefix, versions, names)?;
        Ok(Client {
            process,
            version: agreed.version,
            capabilities: agreed.capabilities,
        })
    }

    /// Sends a command with its metadata and its content, and reads the status that the process answers.
    pub fn invoke<H: Host>(
        self,
        host: &mut H,
        work: &mut [u8],
        status: &mut [u8],
        command: &[u8],
        meta: &[Meta<'_>],
        content: &[u8],
    ) -> Result<Status, SendError>
        ensures { Checked (invoke_fault work.old status.old command.now meta.now) (λ x. TalksBy (InvokeLaw command.now meta.now content.now) (invoked command.now meta.now content.now) (sight (H.log host.old) (H.world host.old)) self.process (areas work.old status.old) x (sight (H.log host.new) (H.world host.new)) (areas work.new status.new)) ((host.new ≡ host.old) × (work.new ≡ work.old) × (status.new ≡ status.old)) result }
    {
        if work.len() < MAX_LINE_LEN || status.len() < MAX_STATUS_LEN {
            return Err(CallError::Caller(encode::Error::AreaTooShort));
        }
        if !are_sendable(command, meta) {
            return Err(CallError::Caller(encode::Error::OutsideLimits));
        }
        let process = self.process;
        let mut peer = Peer {
            host,
            process,
            work,
        };
        let mut status = StatusArea { bytes: status };
        Ok(inner::invoke(&mut peer, &mut status, command, meta, content)?)
    }

    /// Lists the paths that the process can answer now: the text area holds them one behind the other, and the rows say where.
    pub fn list_available_blobs<H: Host>(
        self,
        host: &mut H,
        work: &mut [u8],
        status: &mut [u8],
        rows: &mut [PathRow],
        text: &mut [u8],
    ) -> Result<Listed, ListError>
        ensures { Checked (rooms work.old status.old) (λ x. Lists rows.old text.old (sight (H.log host.old) (H.world host.old)) self.process (areas work.old status.old) x (sight (H.log host.new) (H.world host.new)) (areas work.new status.new) rows.new text.new) ((host.new ≡ host.old) × (work.new ≡ work.old) × (status.new ≡ status.old) × (rows.new ≡ rows.old) × (text.new ≡ text.old)) result }
    {
        if work.len() < MAX_LINE_LEN || status.len() < MAX_STATUS_LEN {
            return Err(CallError::Caller(AreaTooShort));
        }
        let process = self.process;
        let mut peer = Peer {
            host,
            process,
            work,
        };
        let mut status = StatusArea { bytes: status };
        Ok(inner::list(&mut peer, &mut status, rows, text)?)
    }

    /// One read of a result: the length of a payload, which lies at the front of the work area, or at the flush the final status.
    pub fn read<H: Host>(
        self,
        host: &mut H,
        work: &mut [u8],
        status: &mut [u8],
    ) -> Result<Output, AreaError>
        ensures bound { IfOk result (λ o. output_length o ≤ 65516) }
        ensures goes { Checked (rooms work.old status.old) (λ x. TalksBy PieceLaw read_piece (sight (H.log host.old) (H.world host.old)) self.process (areas work.old status.old) x (sight (H.log host.new) (H.world host.new)) (areas work.new status.new)) ((host.new ≡ host.old) × (work.new ≡ work.old) × (status.new ≡ status.old)) (told (piece_of work.new) (λ e. e) result) }
    {
        if work.len() < MAX_LINE_LEN || status.len() < MAX_STATUS_LEN {
            return Err(CallError::Caller(AreaTooShort));
        }
        let process = self.process;
        let mut peer = Peer {
            host,
            process,
            work,
        };
        let mut status = StatusArea { bytes: status };
        Ok(inner::read(&mut peer, &mut status)?)
    }

    /// The status that lines up to the flush tell; the last one wins.
    pub fn read_status<H: Host>(
        self,
        host: &mut H,
        work: &mut [u8],
        status: &mut [u8],
    ) -> Result<Status, AreaError>
        ensures { Checked (rooms work.old status.old) (λ x. TalksBy StatusLaw read_status (sight (H.log host.old) (H.world host.old)) self.process (areas work.old status.old) x (sight (H.log host.new) (H.world host.new)) (areas work.new status.new)) ((host.new ≡ host.old) × (work.new ≡ work.old) × (status.new ≡ status.old)) result }
    {
        if work.len() < MAX_LINE_LEN || status.len() < MAX_STATUS_LEN {
            return Err(CallError::Caller(AreaTooShort));
        }
        let process = self.process;
        let mut peer = Peer {
            host,
            process,
            work,
        };
        let mut status = StatusArea { bytes: status };
        Ok(read_status(&mut peer, &mut status)?)
    }
}
