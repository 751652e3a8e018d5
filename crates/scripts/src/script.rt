//! A host that plays a script: each process plays a row, whose bytes are parts of one lent byte string.
ghost use Rattle.std.specs.Prelude.{◌≡◌, ◌<◌, ◌≤◌, true, [], ◌∷◌, length, is_some, IfSome, if◌then◌else◌, None, Ok, Err};
ghost use Rattle.std.specs.List.{list_all};
ghost use Rattle.slices.specs.Answers.{told};
ghost use Rattle.slices.specs.Names.{name_number};
ghost use Rattle.slices.specs.Parts.{part};
ghost use Rattle.host.specs.Acts.{Started, Received, Sent, Ended, Grows, starting, taking, sending, ending, came};
ghost use Rattle.host.specs.Worlds.{process, with_process};
ghost use Rattle.scripts.specs.Rows.{within, row_within, is_script, place_of, first_of, played, opening, places};

use host::fault::{Fault, NotStarted, Snag};
use host::host::{Host, How};
pub use slices::name::OutsideLimits;
pub use slices::part::Part;
use std::array;

/// A command, and what its process plays: the bytes that wait, what is met behind them, how many bytes it takes, and
/// what is met beyond those.
#[derive(Clone, Copy)]
pub struct Row {
    pub command: Part,
    pub plays: Part,
    pub ending: Fault,
    pub allowance: usize,
    pub snag: Snag,
}

/// A start takes the first unused row of its command. The first `count` places of `started` are the processes, each with
/// what it has yet to play, or with nothing once it is not open.
#[derive(Drop)]
pub struct Script<'a> {
    bytes: &'a [u8],
    // Fixed memory: 16 processes, and rows as places of one lent byte string; the library allocates nothing.
    unused: [Option<Row>; 16],
    started: [Option<Row>; 16],
    count: usize,
    ghost few: { count ≤ 16 },
}

/// Whether a part lies within the first `n` bytes.
fn is_within(p: Part, n: usize) -> bool
    ensures { result ≡ within n p }
{
    p.at <= n && p.len <= n - p.at
}

/// Whether both parts of a row lie within the first `n` bytes.
fn is_row_within(row: Row, n: usize) -> bool
    ensures { result ≡ row_within n row }
{
    is_within(row.command, n) && is_within(row.plays, n)
}

/// Whether each row lies within the first `n` bytes.
fn are_within(rows: &[Row], n: usize) -> bool
    ensures { result ≡ list_all (row_within n) rows.now }
{
    rows.iter().all(|row| is_row_within(*row, n))
}

/// The rows, each in a place of its own.
fn placed(rows: &[Row]) -> [Option<Row>; 16]
    requires { length rows.now ≤ 16 }
    ensures { result ≡ places rows.now }
{
    array::from_fn(|i| rows.get(i).copied())
}

/// Whether a place has a row of the command.
fn is_of(bytes: &[u8], place: Option<Row>, command: &[u8]) -> bool
    ensures { result ≡ place_of bytes.now command.now place }
{
    place.is_some_and(|row| row.command.slice(bytes) == command)
}

/// The first place that has a row of the command.
fn first_of(bytes: &[u8], places: &[Option<Row>], command: &[u8]) -> Option<usize>
    ensures value { result ≡ first_of bytes.now command.now places.now }
    ensures inside { IfSome result (λ i. i < length places.now) }
{
    places
        .iter()
        .position(|place| is_of(bytes, *place, command))
}

impl<'a> Script<'a> {
    ghost use Rattle.scripts.specs.Scripts.{world_of, Holds, Keeps};

    /// A script of these rows over `bytes`, with nothing started; more than 16 rows are none, nor are rows with a part outside the bytes.
    pub fn new(bytes: &'a [u8], rows: &[Row]) -> Result<Script<'a>, OutsideLimits>
        ensures value { told world_of name_number result ≡ (if is_script bytes.now rows.now then Ok (opening bytes.now rows.now) else Err 2) }
        ensures rows { Holds bytes.now rows.now result }
    {
        if rows.len() > 16 || !are_within(rows, bytes.len()) {
            return Err(OutsideLimits);
        }
        Ok(Script {
            bytes,
            unused: placed(rows),
            started: [None; 16],
            count: 0,
        })
    }

    /// What a process has yet to play, if it is open.
    fn playing(&self, number: usize) -> Option<Row>
        ensures meaning { process (world_of self.now) number ≡ played self.now.bytes.now result }
        ensures inside { is_some result ≡ true → number < 16 }
    {
        *self.started[..self.count].get(number)?
    }

    /// Lets a process play this from now on, or nothing any more.
    fn play(&mut self, number: usize, place: Option<Row>)
        requires { number < 16 }
        ensures value { world_of self.new ≡ with_process (world_of self.old) number (played self.old.bytes.now place) }
        ensures keeps { Keeps self.old self.new }
    {
        self.started[number] = place;
    }
}

impl Host for Script<'_> {
    ghost use Rattle.scripts.specs.Scripts.{world_of, Keeps, Plays};

    ghost world = { world_of };

    ghost capacity = { 16 };

    fn start(&mut self, command: &[u8]) -> Result<usize, NotStarted>
        ensures goes { Started 16 (world_of self.old) command.now result (world_of self.new) }
        ensures logs { Grows None (starting command.now result ∷ []) None }
        ensures plays { Plays self.old command.now result self.new }
    {
        let number = self.count;
        if number >= 16 {
            return Err(NotStarted);
        }
        let Some(i) = first_of(self.bytes, &self.unused, command) else {
            return Err(NotStarted);
        };
        let place = self.unused[i];
        self.unused[i] = None;
        self.started[number] = place;
        self.count = number + 1;
        Ok(number)
    }

    fn receive(&mut self, process: usize, area: &mut [u8]) -> Result<usize, Fault>
        ensures goes { Received (world_of self.old) process area.old result (world_of self.new) area.new }
        ensures logs { Grows None (taking process (came result area.new) ∷ []) None }
        ensures keeps { Keeps self.old self.new }
    {
        let room = area.len();
        if room == 0 {
            return Ok(0);
        }
        let Some(row) = self.playing(process) else {
            return Err(Fault::Broken);
        };
        let waiting = row.plays.slice(self.bytes);
        let n = waiting.len().min(room);
        if n == 0 {
            return Err(row.ending);
        }
        area[0..n].copy_from_slice(&waiting[0..n]);
        let Part { at, len } = row.plays;
        let plays = Part {
            at: at + n,
            len: len - n,
        };
        self.play(process, Some(Row { plays, ..row }));
        Ok(n)
    }

    fn send(&mut self, process: usize, bytes: &[u8]) -> Result<(), Fault>
        ensures goes { Sent (world_of self.old) process bytes.now result (world_of self.new) }
        ensures logs { Grows None (sending process bytes.now result ∷ []) None }
        ensures keeps { Keeps self.old self.new }
    {
        let Some(row) = self.playing(process) else {
            return Err(Fault::Broken);
        };
        let len = bytes.len();
        if len > row.allowance {
            return Err(Fault::from(row.snag));
        }
        let allowance = row.allowance - len;
        self.play(process, Some(Row { allowance, ..row }));
        Ok(())
    }

    fn end(&mut self, process: usize, _how: How)
        ensures goes { Ended (world_of self.old) process (world_of self.new) }
        ensures logs { Grows None (ending process _how ∷ []) None }
        ensures keeps { Keeps self.old self.new }
    {
        if self.playing(process).is_some() {
            self.play(process, None);
        }
    }
}
