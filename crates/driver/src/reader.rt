//! A result is read, or given up.
ghost use Rattle.std.specs.Prelude.{◌≡◌, ◌≤◌, Bool, IfErr, length};
ghost use Rattle.host.specs.Talk.{Areas, sight, areas};
ghost use Rattle.process.specs.Given.{have_room};
ghost use Rattle.rules.specs.Calls.{read, give_up};
ghost use Rattle.rules.specs.Promises.{IsStep};
ghost use Rattle.driver.specs.Answers.{was_read, read_length, given_up, HandsBack};

use crate::inner;
use crate::read::{Error, Read, Refused, Unread};
use crate::result::FilterResult;
use crate::state::State;
use host::host::Host;

impl State {
    /// One read of a result: a payload, or its end. A payload and a refused read hand the result back.
    pub fn read<H: Host>(
        &mut self,
        host: &mut H,
        work: &mut [u8],
        status: &mut [u8],
        token: FilterResult,
    ) -> Result<Read, Error>
        ensures bound { read_length result ≤ length work.new }
        ensures step { IsStep H.capacity (read token.process) (have_room work.old status.old) self.old.records.places (sight (H.log host.old) (H.world host.old)) (areas work.old status.old) (was_read work.new result) self.new.records.places (sight (H.log host.new) (H.world host.new)) (areas work.new status.new) }
        ensures back { HandsBack token.process result }
    {
        match inner::read(self, host, work, status, token.process()) {
            Ok(Some(n)) => Ok(Read::Payload(n, token)),
            Ok(None) => {
                token.spend();
                Ok(Read::End)
            }
            Err(Unread::Misuse(why)) => Err(Error::Refused(Refused { why, back: token })),
            Err(Unread::Lost(fault)) => {
                token.spend();
                Err(Error::Lost(fault))
            }
            Err(Unread::ProcessStatus(status)) => {
                token.spend();
                Err(Error::ProcessStatus(status))
            }
        }
    }

    /// Gives a result up: its process is killed, and the record leaves. A refused call hands the result back.
    pub fn give_up<H: Host>(&mut self, host: &mut H, token: FilterResult) -> Result<(), Refused>
        ensures step { (a : Areas) (room : Bool) → IsStep H.capacity (give_up token.process) room self.old.records.places (sight (H.log host.old) (H.world host.old)) a (given_up result) self.new.records.places (sight (H.log host.new) (H.world host.new)) a }
        ensures back { IfErr result (λ r. r.back.process ≡ token.process) }
    {
        match inner::give_up(self, host, token.process()) {
            Ok(()) => {
                token.spend();
                Ok(())
            }
            Err(why) => Err(Refused { why, back: token }),
        }
    }
}
