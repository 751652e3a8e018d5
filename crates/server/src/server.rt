//! A server, between two requests.
ghost use Rattle.std.specs.Prelude.{◌≡◌, length, IfOk};
ghost use Rattle.slices.specs.Answers.{told};
ghost use Rattle.slices.specs.Names.{name_bytes};
ghost use Rattle.host.specs.Calls.{Checked, room};
ghost use Rattle.host.specs.Talk.{sight};
ghost use Rattle.process.specs.Given.{WorksBy};
ghost use Rattle.handshake.specs.Judged.{heard};
ghost use Rattle.handshake.specs.Servers.{served, objection_number};
ghost use Rattle.server.specs.Asking.{asked_in, GoesOn, ReadsNext};
ghost use Rattle.server.specs.Greetings.{met_with, serve_fault, GreetLaw};
ghost use Rattle.server.specs.Refusals.{why};

use crate::greeting::ServeError;
use crate::refused::Refused;
use crate::request::Request;
use choices::choice::Choice;
use handshake::inner::serve;
pub use handshake::shared::MAX_NAMES;
use handshake::shared::Shared;
use host::call::{AreaTooShort, CallError};
use host::host::Host;
use host::inner::MAX_LINE_LEN;
use host::peer::Peer;
use packetline::encode;
use requests::asked::{Asked, MetaRow};
use requests::fault::RequestError;
use requests::inner::next_request;
use slices::name::Name;

/// A server: the process that is its peer, the version that both speak, and which of the server's names the client named. It owns nothing, since the host has the pipes.
#[derive(Drop)]
pub struct Server {
    pub(crate) process: usize,
    pub(crate) version: u64,
    pub(crate) shared: Shared,
}

/// What a server is asked next.
pub enum Next {
    /// A request, to be worked off.
    Request(Request),
    /// Nothing more is asked: the server, whose client has closed.
    Over(Server),
}

/// What is asked next, if something is.
fn ask<H: Host>(
    host: &mut H,
    process: usize,
    work: &mut [u8],
    rows: &mut [MetaRow],
    text: &mut [u8],
) -> Result<Option<Asked>, RequestError>
    ensures { Checked (room work.old) (λ x. ReadsNext rows.old text.old (sight (H.log host.old) (H.world host.old)) process work.old x (sight (H.log host.new) (H.world host.new)) work.new rows.new text.new) ((host.new ≡ host.old) × (work.new ≡ work.old) × (rows.new ≡ rows.old) × (text.new ≡ text.old)) result }
{
    if work.len() < MAX_LINE_LEN {
        return Err(CallError::Caller(AreaTooShort));
    }
    let mut peer = Peer {
        host,
        process,
        work,
    };
    Ok(next_request(&mut peer, rows, text)?)
}

impl Server {
    /// Shakes hands with a client: the rows then hold the versions that it offers, the choice answers one of them, and the available names are named that it names.
    pub fn handshake<H: Host, C: Choice>(
        host: &mut H,
        process: usize,
        work: &mut [u8],
        prefix: &Name,
        versions: &mut [u64],
        choice: &C,
        available: &[Name],
    ) -> Result<Server, ServeError>
        ensures goes { Checked (serve_fault work.old available.now) (λ x. WorksBy (GreetLaw (name_bytes prefix.now) versions.old (C.chosen choice.now) available.now versions.new) (served (name_bytes prefix.now) (length versions.old) (C.chosen choice.now) available.now) (sight (H.log host.old) (H.world host.old)) process work.old (heard objection_number met_with x) (sight (H.log host.new) (H.world host.new)) work.new) ((host.new ≡ host.old) × (work.new ≡ work.old) × (versions.new ≡ versions.old)) result }
        ensures itself { IfOk result (λ s. s.process ≡ process) }
    {
        if work.len() < MAX_LINE_LEN {
            return Err(CallError::Caller(encode::Error::AreaTooShort));
        }
        if available.len() > MAX_NAMES {
            return Err(CallError::Caller(encode::Error::OutsideLimits));
        }
        let mut peer = Peer {
            host,
            process,
            work,
        };
        let accord = serve(&mut peer, prefix, versions, choice, available)?;
        Ok(Server {
            process,
            version: accord.version,
            shared: accord.shared,
        })
    }

    /// The process that is the server's peer.
    pub fn process(&self) -> usize
        ensures { result ≡ self.now.process }
    {
        self.process
    }

    /// The version that both speak.
    pub fn version(&self) -> u64
        ensures { result ≡ self.now.version }
    {
        self.version
    }

    /// The available names that the client named, by their places, in the order first named.
    pub fn capabilities(&self) -> Shared
        ensures { result ≡ self.now.shared }
    {
        self.shared
    }

    /// Reads the next request: the text area then holds the command and each pair's key and value one behind the other, and the rows say where.
    pub fn next_request<H: Host>(
        self,
        host: &mut H,
        work: &mut [u8],
        rows: &mut [MetaRow],
        text: &mut [u8],
    ) -> Result<Next, Refused<Server, RequestError>>
        ensures itself { GoesOn self result }
        ensures goes { Checked (room work.old) (λ x. ReadsNext rows.old text.old (sight (H.log host.old) (H.world host.old)) self.process work.old x (sight (H.log host.new) (H.world host.new)) work.new rows.new text.new) ((host.new ≡ host.old) × (work.new ≡ work.old) × (rows.new ≡ rows.old) × (text.new ≡ text.old)) (told asked_in why result) }
    {
        match ask(host, self.process, work, rows, text) {
            Ok(Some(asked)) => Ok(Next::Request(Request {
                server: self,
                asked,
            })),
            Ok(None) => Ok(Next::Over(self)),
            Err(why) => Err(Refused { back: self, why }),
        }
    }
}
