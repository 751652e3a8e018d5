//! A sheet, read whole before anything is played.
use crate::bad::Bad;
use crate::sheet::{Entry, What, read_entry};
use crate::table_calls::TableCall;
use host::fault::{Fault, Snag};
use packetline::encode::line_to_area;
use scripts::script::{Part, Row};
use std::alloc::Global;

/// The packet of a payload.
fn framed(heap: Global, payload: &[u8]) -> Result<Vec<u8>, Bad> {
    let mut packet: Vec<u8> = vec![in heap; 0; payload.len().saturating_add(4)]?;
    match line_to_area(payload, &mut packet) {
        Ok(_) => Ok(packet),
        Err(_) => Err(Bad::OutsideLimits),
    }
}

/// The bytes of what is given.
fn raw(heap: Global, what: What) -> Result<Vec<u8>, Bad> {
    match what {
        What::Data(payload) => framed(heap, &payload),
        What::Flush => Ok(Vec::from_slice(heap, b"0000")?),
        What::Bytes(bytes) => Ok(bytes),
    }
}

/// All the bytes that the processes play, commands among them, and a row for each process.
#[derive(Drop)]
pub(crate) struct Cast {
    pub(crate) bytes: Vec<u8>,
    pub(crate) rows: Vec<Row>,
}

impl Cast {
    fn new(heap: Global) -> Cast {
        Cast {
            bytes: Vec::new(heap),
            rows: Vec::new(heap),
        }
    }

    /// Adds bytes behind the others, and tells where they lie.
    fn lay(&mut self, bytes: &[u8]) -> Result<Part, Bad> {
        let at = self.bytes.len();
        self.bytes.extend_from_slice(bytes)?;
        Ok(Part {
            at,
            len: bytes.len(),
        })
    }

    /// Adds a process, which gives nothing yet.
    fn enter(
        &mut self,
        command: &[u8],
        ending: Fault,
        allowance: usize,
        snag: Snag,
    ) -> Result<(), Bad> {
        let command = self.lay(command)?;
        let plays = self.lay(b"")?;
        self.rows.push(Row {
            command,
            plays,
            ending,
            allowance,
            snag,
        })?;
        Ok(())
    }

    /// Adds bytes behind what the last process gives.
    fn give(&mut self, bytes: &[u8]) -> Result<(), Bad> {
        let Some(row) = self.rows.last_mut() else {
            return Err(Bad::NoProcess);
        };
        self.bytes.extend_from_slice(bytes)?;
        row.plays.len = row.plays.len.saturating_add(bytes.len());
        Ok(())
    }
}

/// What a sheet is played over: processes that it tells itself, or those of a mirror.
#[derive(Drop)]
pub(crate) enum Scene {
    Script(Cast),
    Mirror,
}

/// A line that makes a table's call, and the call.
#[derive(Drop)]
pub(crate) struct Asked<'a> {
    pub(crate) line: &'a [u8],
    pub(crate) call: TableCall,
}

/// A line that claims which processes run, and their numbers.
#[derive(Drop)]
pub(crate) struct Claim<'a> {
    pub(crate) line: &'a [u8],
    pub(crate) processes: Vec<usize>,
}

/// A table's exchange, and what is claimed of it.
#[derive(Drop)]
pub(crate) struct Exercise<'a> {
    pub(crate) asked: Vec<Asked<'a>>,
    pub(crate) claim: Option<Claim<'a>>,
}

impl Exercise<'_> {
    /// Whether a line made a table's call, or claimed anything.
    pub(crate) fn is_begun(&self) -> bool {
        !self.asked.is_empty() || self.claim.is_some()
    }
}

/// What a sheet is played over, and what is played: a table's exchange, or other calls.
#[derive(Drop)]
pub(crate) struct Sheet<'a> {
    pub(crate) scene: Scene,
    // A flag: the calls stand in the lines, and are read there again as they are played, so that what they send is not kept beside the text.
    is_played: bool,
    pub(crate) exercise: Exercise<'a>,
}

impl<'a> Sheet<'a> {
    pub(crate) fn new(heap: Global) -> Sheet<'a> {
        Sheet {
            scene: Scene::Script(Cast::new(heap)),
            is_played: false,
            exercise: Exercise {
                asked: Vec::new(heap),
                claim: None,
            },
        }
    }

    /// Whether a line said something.
    fn is_begun(&self) -> bool {
        match &self.scene {
            Scene::Script(cast) => {
                !cast.rows.is_empty() || self.is_played || self.exercise.is_begun()
            }
            Scene::Mirror => true,
        }
    }

    /// Takes a call that is no table's.
    fn add_call(&mut self) -> Result<(), Bad> {
        if self.exercise.is_begun() {
            return Err(Bad::Mixed);
        }
        self.is_played = true;
        Ok(())
    }

    /// Takes a table's call.
    fn add_table_call(&mut self, line: &'a [u8], call: TableCall) -> Result<(), Bad> {
        if self.is_played {
            return Err(Bad::Mixed);
        }
        self.exercise.asked.push(Asked { line, call })?;
        Ok(())
    }

    /// Takes a claim.
    fn add_claim(&mut self, line: &'a [u8], processes: Vec<usize>) -> Result<(), Bad> {
        if self.is_played {
            return Err(Bad::Mixed);
        }
        if self.exercise.claim.is_some() {
            return Err(Bad::ClaimedTwice);
        }
        self.exercise.claim = Some(Claim { line, processes });
        Ok(())
    }

    /// Takes what a line says.
    pub(crate) fn add(&mut self, heap: Global, line: &'a [u8]) -> Result<(), Bad> {
        let Some(entry) = read_entry(heap, line)? else {
            return Ok(());
        };
        match entry {
            Entry::Mirror => {
                if self.is_begun() {
                    return Err(Bad::MirrorLate);
                }
                self.scene = Scene::Mirror;
            }
            Entry::Process {
                command,
                ending,
                allowance,
                snag,
            } => {
                let Scene::Script(cast) = &mut self.scene else {
                    return Err(Bad::MirrorTold);
                };
                cast.enter(command, ending, allowance, snag)?;
            }
            Entry::Gives(what) => {
                let Scene::Script(cast) = &mut self.scene else {
                    return Err(Bad::MirrorTold);
                };
                cast.give(&raw(heap, what)?)?;
            }
            Entry::Call(_call) => self.add_call()?,
            Entry::TableCall(call) => self.add_table_call(line, call)?,
            Entry::Claim(processes) => self.add_claim(line, processes)?,
        }
        Ok(())
    }
}
