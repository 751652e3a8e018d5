//! Content that a server writes.
ghost use Rattle.std.specs.Prelude.{◌≡◌, ◌∷◌, []};
ghost use Rattle.slices.specs.Answers.{told};
ghost use Rattle.packetline.specs.Packets.{flush};
ghost use Rattle.host.specs.declared.call.CallError.TheVariants.{Caller as of_caller};
ghost use Rattle.host.specs.Calls.{Checked, room};
ghost use Rattle.host.specs.Parts.{Parted};
ghost use Rattle.host.specs.Talk.{sight};
ghost use Rattle.server.specs.Refusals.{why, went, HandsBack};
ghost use Rattle.server.specs.Says.{Says};
ghost use Rattle.server.specs.Writings.{written_packets, written_on, unflushed, unflushed_number, widened, EndsWriting};

use crate::refused::Refused;
use crate::response::Response;
use crate::server::Server;
use host::call::{AreaError, AreaTooShort, CallError};
use host::fault::LineFault;
use host::host::Host;
use host::sending::{send_content, send_flush};
use slices::refusal::Numbered;

/// A writing that has begun; its flush ends it. It cannot be dropped, and no status is said before its flush.
pub struct Writing {
    pub(crate) server: Server,
}

/// Why a writing was not ended as it should be: it is still open, or it ended although its flush was refused.
pub enum Unflushed<E> {
    Open(Refused<Writing, E>),
    Ended(Refused<Response, LineFault>),
}

// By reference: what is handed back is not let go for its number.
impl<E: Numbered + Copy> Numbered for &Unflushed<E> {
    ghost number = { λ e. unflushed_number E.number e.now };

    fn refusal_number(self) -> u8 {
        match self {
            Unflushed::Open(refused) => refused.refusal_number(),
            Unflushed::Ended(refused) => refused.refusal_number(),
        }
    }
}

impl From<Unflushed<AreaTooShort>> for Unflushed<AreaError> {
    ghost from_gives = { λ e r. r ≡ widened e };

    fn from(unflushed: Unflushed<AreaTooShort>) -> Unflushed<AreaError> {
        match unflushed {
            Unflushed::Open(Refused { back, why }) => Unflushed::Open(Refused {
                back,
                why: CallError::Caller(why),
            }),
            Unflushed::Ended(refused) => Unflushed::Ended(refused),
        }
    }
}

impl Writing {
    /// Writes bytes, in packets of 65,516, the last perhaps shorter; none for no bytes.
    pub fn write<H: Host>(
        self,
        host: &mut H,
        work: &mut [u8],
        bytes: &[u8],
    ) -> Result<Writing, Refused<Writing, AreaError>>
        ensures itself { HandsBack self result }
        ensures goes { Checked (room work.old) (λ x. Parted bytes.now × Says (written_packets bytes.now) (sight (H.log host.old) (H.world host.old)) self.server.process work.old x (sight (H.log host.new) (H.world host.new)) work.new) ((host.new ≡ host.old) × (work.new ≡ work.old)) (told went why result) }
    {
        match send_content(host, self.server.process, work, bytes) {
            Ok(()) => Ok(self),
            Err(why) => Err(Refused { back: self, why }),
        }
    }

    /// Ends the writing by a flush, and gives the request back.
    pub fn flush<H: Host>(
        self,
        host: &mut H,
        work: &mut [u8],
    ) -> Result<Response, Unflushed<AreaTooShort>>
        ensures ends { EndsWriting self result }
        ensures goes { Checked (room work.old) (λ x. Says (flush ∷ []) (sight (H.log host.old) (H.world host.old)) self.server.process work.old x (sight (H.log host.new) (H.world host.new)) work.new) ((host.new ≡ host.old) × (work.new ≡ work.old)) (told went (unflushed of_caller) result) }
    {
        match send_flush(host, self.server.process, work) {
            Ok(()) => Ok(self.ended()),
            Err(CallError::Caller(why)) => Err(Unflushed::Open(Refused { back: self, why })),
            Err(CallError::Line(why)) => Err(Unflushed::Ended(Refused {
                back: self.ended(),
                why,
            })),
        }
    }

    /// The request, once the writing's flush was sent or refused.
    fn ended(self) -> Response
        ensures { result ≡ written_on self }
    {
        let Writing { server } = self;
        Response { server }
    }
}
