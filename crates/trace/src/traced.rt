//! A layer over any host that notes what passes.
ghost use Rattle.std.specs.Prelude.{◌≡◌, ◌++◌, [], ◌∷◌, map, take, IfOk, OnOk, OnErr, IsSomeAnd, option_map};
ghost use Rattle.host.specs.Acts.{Started, Received, Sent as SentTo, Ended, Grows, starting, taking, sending, ending, came};
ghost use Rattle.recording.specs.declared.line.Direction.TheVariants.{Sent, Given};
ghost use Rattle.trace.specs.Notes.{note_of, Noted};

use host::fault::{Fault, NotStarted};
use host::host::{Host, How};
use recording::line::Direction;
use std::alloc::{AllocError, Global};

/// Bytes that a process took or gave.
// Not a process beside a recording's `Record`: a note's bytes may be none, and no user asks for the record alone.
#[derive(Drop)]
pub struct Passed {
    pub process: usize,
    pub direction: Direction,
    pub bytes: Vec<u8>,
}

/// A host that means and logs what the host below does, and notes in order what passed; `None` once there was no memory for a note.
#[derive(Drop)]
pub struct Traced<H> {
    pub below: H,
    pub heap: Global,
    pub passed: Option<Vec<Passed>>,
}

/// Adds a note behind others.
fn add(
    heap: Global,
    mut passed: Vec<Passed>,
    process: usize,
    direction: Direction,
    bytes: &[u8],
) -> Result<Vec<Passed>, AllocError>
    ensures { IfOk result (λ all. map note_of all.items ≡ map note_of passed.items ++ (process, direction, bytes.now) ∷ []) }
{
    let bytes = Vec::from_slice(heap, bytes)?;
    passed.push(Passed {
        process,
        direction,
        bytes,
    })?;
    Ok(passed)
}

impl<H> Traced<H> {
    /// A layer that has noted nothing.
    pub fn new(below: H, heap: Global) -> Traced<H>
        ensures below { result.below ≡ below }
        ensures noted { IsSomeAnd result.passed (λ all. all.items ≡ []) }
    {
        Traced {
            below,
            heap,
            passed: Some(Vec::new(heap)),
        }
    }

    /// Hands out what was noted, and begins anew unless there was no memory for a note.
    pub fn take(&mut self) -> Option<Vec<Passed>>
        ensures below { self.new.below ≡ self.old.below }
        ensures taken { result ≡ self.old.passed }
        ensures left { option_map (λ all. all.items) self.new.passed ≡ option_map (λ _. []) self.old.passed }
    {
        let passed = self.passed.take()?;
        self.passed = Some(Vec::new(self.heap));
        Some(passed)
    }

    /// Notes bytes that passed.
    fn note(&mut self, process: usize, direction: Direction, bytes: &[u8])
        ensures below { self.new.below ≡ self.old.below }
        ensures noted { Noted self.old.passed (process, direction, bytes.now) self.new.passed }
    {
        let heap = self.heap;
        self.passed = self
            .passed
            .take()
            .and_then(|passed| add(heap, passed, process, direction, bytes).ok());
    }
}

// Hands on by hand, as scripts' layers do: one impl for every layer is only for host to write.
impl<H: Host> Host for Traced<H> {
    ghost world = { λ s. H.Host.world s.below };

    ghost capacity = { H.Host.capacity };

    ghost log = { λ s. H.Host.log s.below };

    fn start(&mut self, command: &[u8]) -> Result<usize, NotStarted>
        ensures goes { Started H.capacity (H.world self.old.below) command.now result (H.world self.new.below) }
        ensures logs { Grows (H.log self.old.below) (starting command.now result ∷ []) (H.log self.new.below) }
        ensures notes { self.new.passed ≡ self.old.passed }
    {
        self.below.start(command)
    }

    fn receive(&mut self, process: usize, area: &mut [u8]) -> Result<usize, Fault>
        ensures goes { Received (H.world self.old.below) process area.old result (H.world self.new.below) area.new }
        ensures logs { Grows (H.log self.old.below) (taking process (came result area.new) ∷ []) (H.log self.new.below) }
        ensures notes { IfOk result (λ n. Noted self.old.passed (process, Given, take n area.new) self.new.passed) }
        ensures refused { OnErr result (self.new.passed ≡ self.old.passed) }
    {
        let n = self.below.receive(process, area)?;
        self.note(process, Direction::Given, &area[0..n.min(area.len())]);
        Ok(n)
    }

    fn send(&mut self, process: usize, bytes: &[u8]) -> Result<(), Fault>
        ensures goes { SentTo (H.world self.old.below) process bytes.now result (H.world self.new.below) }
        ensures logs { Grows (H.log self.old.below) (sending process bytes.now result ∷ []) (H.log self.new.below) }
        ensures notes { OnOk result (Noted self.old.passed (process, Sent, bytes.now) self.new.passed) }
        ensures refused { OnErr result (self.new.passed ≡ self.old.passed) }
    {
        self.below.send(process, bytes)?;
        self.note(process, Direction::Sent, bytes);
        Ok(())
    }

    fn end(&mut self, process: usize, how: How)
        ensures goes { Ended (H.world self.old.below) process (H.world self.new.below) }
        ensures logs { Grows (H.log self.old.below) (ending process how ∷ []) (H.log self.new.below) }
        ensures notes { self.new.passed ≡ self.old.passed }
    {
        self.below.end(process, how);
    }
}
