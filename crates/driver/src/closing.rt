//! All processes are closed.
ghost use Rattle.std.specs.Prelude.{◌≡◌, Bool};
ghost use Rattle.host.specs.Talk.{Areas, sight};
ghost use Rattle.rules.specs.Calls.{close_all};
ghost use Rattle.rules.specs.Promises.{IsStep};
ghost use Rattle.driver.specs.Answers.{done_or};

use crate::misuse::Misuse;
use crate::state::State;
use host::host::{Host, How};
use records::records::{MAX_RECORDS, Records};

impl State {
    /// Closes every process, unless a result is being read; no record is left then.
    pub fn close_all<H: Host>(&mut self, host: &mut H) -> Result<(), Misuse>
        ensures { (a : Areas) (room : Bool) → IsStep H.capacity close_all room self.old.records.places (sight (H.log host.old) (H.world host.old)) a (done_or result) self.new.records.places (sight (H.log host.new) (H.world host.new)) a }
    {
        if self.records.is_any_reading() {
            return Err(Misuse::Reading);
        }
        for place in 0..MAX_RECORDS {
            if let Some(record) = self.records.get(place) {
                host.end(record.process, How::Close);
            }
        }
        self.records = Records::none();
        Ok(())
    }
}
