//! A request, and its content.
ghost use Rattle.std.specs.Prelude.{◌≡◌, ◌≤◌, IfSome, IfOk, take};
ghost use Rattle.slices.specs.Answers.{told};
ghost use Rattle.host.specs.Calls.{Checked, room};
ghost use Rattle.host.specs.Talk.{sight, read_content};
ghost use Rattle.process.specs.Given.{WorksBy};
ghost use Rattle.server.specs.Requests.{part_at, content_in, content_length, response_to, ReadsOn, ContentLaw};
ghost use Rattle.server.specs.Refusals.{why};

use crate::refused::Refused;
use crate::response::Response;
use crate::server::Server;
use host::call::{AreaError, AreaTooShort, CallError};
use host::host::Host;
use host::inner::MAX_LINE_LEN;
use host::peer::Peer;
use requests::asked::{Asked, MetaRow};

/// A request whose content was not read to its end. It cannot be dropped: its content is read or declared absent, and then it is answered.
pub struct Request {
    pub(crate) server: Server,
    pub(crate) asked: Asked,
}

/// What one read of a request's content gives.
pub enum Content {
    /// The length of a payload, which lies at the front of the work area, and the request, which may have more.
    Payload(Request, usize),
    /// The content's end, and the request to be answered.
    End(Response),
}

/// The length of the next payload, which lies at the front of the work area, or none at the flush.
fn read_part<H: Host>(
    host: &mut H,
    process: usize,
    work: &mut [u8],
) -> Result<Option<usize>, AreaError>
    ensures bound { IfOk result (λ o. IfSome o (λ n. n ≤ 65516)) }
    ensures goes { Checked (room work.old) (λ x. WorksBy ContentLaw read_content (sight (H.log host.old) (H.world host.old)) process work.old x (sight (H.log host.new) (H.world host.new)) work.new) ((host.new ≡ host.old) × (work.new ≡ work.old)) (told (part_at work.new) (λ e. e) result) }
{
    if work.len() < MAX_LINE_LEN {
        return Err(CallError::Caller(AreaTooShort));
    }
    let mut peer = Peer {
        host,
        process,
        work,
    };
    Ok(peer.read_content()?)
}

impl Request {
    /// The command, in the text area that the request was read into.
    pub fn command<'a>(&self, text: &'a [u8]) -> &'a [u8]
        ensures { result.now ≡ take self.now.asked.command text.now }
    {
        &text[0..self.asked.command.min(text.len())]
    }

    /// The rows that hold the pairs of metadata, among the rows that the request was read into.
    pub fn metadata<'a>(&self, rows: &'a [MetaRow]) -> &'a [MetaRow]
        ensures { result.now ≡ take self.now.asked.pairs rows.now }
    {
        &rows[0..self.asked.pairs.min(rows.len())]
    }

    /// Reads one payload, which then lies at the front of the work area, or the end of the content.
    pub fn read<H: Host>(
        self,
        host: &mut H,
        work: &mut [u8],
    ) -> Result<Content, Refused<Request, AreaError>>
        ensures on { ReadsOn self result }
        ensures bound { IfOk result (λ c. content_length c ≤ 65516) }
        ensures goes { Checked (room work.old) (λ x. WorksBy ContentLaw read_content (sight (H.log host.old) (H.world host.old)) self.server.process work.old x (sight (H.log host.new) (H.world host.new)) work.new) ((host.new ≡ host.old) × (work.new ≡ work.old)) (told (content_in work.new) why result) }
    {
        match read_part(host, self.server.process, work) {
            Ok(Some(n)) => Ok(Content::Payload(self, n)),
            Ok(None) => Ok(Content::End(self.without_content())),
            Err(why) => Err(Refused { back: self, why }),
        }
    }

    /// Declares the content absent; nothing passes.
    pub fn without_content(self) -> Response
        ensures { result ≡ response_to self }
    {
        let Request { server, asked: _ } = self;
        Response { server }
    }
}
