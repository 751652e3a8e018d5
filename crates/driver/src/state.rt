//! A table of processes.
ghost use Rattle.std.specs.Prelude.{◌≡◌, ◌&&◌, true, replicate, None, is_some, ◌||◌};
ghost use Rattle.host.specs.Talk.{sight};
ghost use Rattle.driver.specs.Fates.{fate_of, Settles, has_place};

use crate::fate::Fate;
use host::host::Host;
use records::record::Record;
use records::records::Records;

/// The processes that a driver runs, by their keys.
#[derive(Drop)]
pub struct State {
    pub(crate) records: Records,
}

impl State {
    /// No process runs.
    pub fn new() -> State
        ensures { result.records.places ≡ replicate 8 None }
    {
        State {
            records: Records::none(),
        }
    }

    /// What is known of the processes.
    pub fn records(&self) -> &Records
        ensures { result.now ≡ self.now.records }
    {
        &self.records
    }

    /// A record and its process meet their fate.
    pub(crate) fn settle<H: Host>(&mut self, host: &mut H, entry: &Record, fate: Fate)
        requires { has_place self.old.records.places entry.now.key ≡ true }
        ensures { Settles entry.now (fate_of fate) self.old.records.places (sight (H.log host.old) (H.world host.old)) self.new.records.places (sight (H.log host.new) (H.world host.new)) }
    {
        match fate {
            Fate::Stays(capabilities, reading) => {
                let stays = Record {
                    capabilities,
                    reading,
                    ..*entry
                };
                match self.records.insert(stays) {
                    Ok(records) => self.records = records,
                    Err(_) => unreachable!(),
                }
            }
            Fate::Leaves(how) => {
                self.records = self.records.remove(&entry.key);
                host.end(entry.process, how);
            }
        }
    }
}
