//! A request that is being answered.
ghost use Rattle.std.specs.Prelude.{◌≡◌, true};
ghost use Rattle.slices.specs.Answers.{told};
ghost use Rattle.host.specs.Calls.{Checked, room};
ghost use Rattle.host.specs.Parts.{Parted};
ghost use Rattle.process.specs.Given.{WorksBy};
ghost use Rattle.host.specs.Peers.{Does};
ghost use Rattle.host.specs.Talk.{sight, send_all};
ghost use Rattle.server.specs.Asking.{asked_in, GoesOn, ReadsNext};
ghost use Rattle.server.specs.Refusals.{why, went, HandsBack};
ghost use Rattle.server.specs.Responses.{sayable, report_packets, report_fault, IsTold};
ghost use Rattle.server.specs.Says.{Says};
ghost use Rattle.server.specs.Writings.{writing_on, written_whole, unflushed, EndsWriting, WholeLaw};

use crate::refused::Refused;
use crate::server::{Next, Server};
use crate::writing::{Unflushed, Writing};
use host::call::{AreaError, CallError};
use host::fault::LineFault;
use host::host::Host;
use host::inner::MAX_LINE_LEN;
use host::peer::Peer;
use host::sending::SendError;
use packetline::encode;
use process::area::MAX_STATUS_LEN;
use requests::asked::MetaRow;
use requests::fault::RequestError;

/// A request whose content was read or declared absent: statuses and writings answer it, until it is done. It cannot be dropped.
pub struct Response {
    pub(crate) server: Server,
}

/// What a server says of a command: nothing new, or a status by its name.
#[derive(Clone, Copy)]
pub enum Report<'a> {
    Previous,
    Named(&'a [u8]),
}

impl Report<'_> {
    /// Whether it can be said: a name has 1 to 128 bytes.
    fn is_sayable(self) -> bool
        ensures { result ≡ sayable self.entry }
    {
        match self {
            Report::Previous => true,
            Report::Named(name) => !name.is_empty() && name.len() <= MAX_STATUS_LEN,
        }
    }
}

/// The line of a status, if there is one, and a flush.
fn send_report<H: Host>(peer: &mut Peer<'_, H>, report: Report<'_>) -> Result<(), LineFault>
    requires { sayable report ≡ true }
    ensures { Does H.log H.world (send_all (report_packets report.entry)) peer.old result peer.new }
{
    if let Report::Named(name) = report {
        peer.send_pair(b"status", b'=', name)?;
    }
    peer.send_flush()
}

/// What a server says of a command.
fn say<H: Host>(
    host: &mut H,
    process: usize,
    work: &mut [u8],
    report: Report<'_>,
) -> Result<(), SendError>
    ensures { Checked (report_fault work.old report.entry) (λ x. Says (report_packets report.entry) (sight (H.log host.old) (H.world host.old)) process work.old x (sight (H.log host.new) (H.world host.new)) work.new) ((host.new ≡ host.old) × (work.new ≡ work.old)) result }
{
    if work.len() < MAX_LINE_LEN {
        return Err(CallError::Caller(encode::Error::AreaTooShort));
    }
    if !report.is_sayable() {
        return Err(CallError::Caller(encode::Error::OutsideLimits));
    }
    let mut peer = Peer {
        host,
        process,
        work,
    };
    Ok(send_report(&mut peer, report)?)
}

impl Response {
    /// Says a status: a line with its name, unless nothing new is said, and a flush.
    pub fn write_status<H: Host>(
        self,
        host: &mut H,
        work: &mut [u8],
        report: Report<'_>,
    ) -> Result<Response, Refused<Response, SendError>>
        ensures itself { HandsBack self result }
        ensures meant { IsTold report.entry }
        ensures goes { Checked (report_fault work.old report.entry) (λ x. Says (report_packets report.entry) (sight (H.log host.old) (H.world host.old)) self.server.process work.old x (sight (H.log host.new) (H.world host.new)) work.new) ((host.new ≡ host.old) × (work.new ≡ work.old)) (told went why result) }
    {
        match say(host, self.server.process, work, report) {
            Ok(()) => Ok(self),
            Err(why) => Err(Refused { back: self, why }),
        }
    }

    /// Begins a writing; nothing passes.
    pub fn writing(self) -> Writing
        ensures { result ≡ writing_on self }
    {
        let Response { server } = self;
        Writing { server }
    }

    /// A whole writing: begins it, writes bytes and ends it.
    pub fn write_all<H: Host>(
        self,
        host: &mut H,
        work: &mut [u8],
        bytes: &[u8],
    ) -> Result<Response, Unflushed<AreaError>>
        ensures ends { EndsWriting (writing_on self) result }
        ensures goes { Checked (room work.old) (λ x. Parted bytes.now × WorksBy (WholeLaw bytes.now result) (written_whole bytes.now) (sight (H.log host.old) (H.world host.old)) self.server.process work.old x (sight (H.log host.new) (H.world host.new)) work.new) ((host.new ≡ host.old) × (work.new ≡ work.old)) (told went (unflushed (λ e. e)) result) }
    {
        match self.writing().write(host, work, bytes) {
            Ok(writing) => Ok(writing.flush(host, work)?),
            Err(refused) => Err(Unflushed::Open(refused)),
        }
    }

    /// The request is answered, and the next one is read.
    pub fn then_next<H: Host>(
        self,
        host: &mut H,
        work: &mut [u8],
        rows: &mut [MetaRow],
        text: &mut [u8],
    ) -> Result<Next, Refused<Server, RequestError>>
        ensures itself { GoesOn self.server result }
        ensures goes { Checked (room work.old) (λ x. ReadsNext rows.old text.old (sight (H.log host.old) (H.world host.old)) self.server.process work.old x (sight (H.log host.new) (H.world host.new)) work.new rows.new text.new) ((host.new ≡ host.old) × (work.new ≡ work.old) × (rows.new ≡ rows.old) × (text.new ≡ text.old)) (told asked_in why result) }
    {
        self.done().next_request(host, work, rows, text)
    }

    /// The request is answered; nothing passes.
    pub fn done(self) -> Server
        ensures { result ≡ self.server }
    {
        let Response { server } = self;
        server
    }
}
