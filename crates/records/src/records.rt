//! The table's records: eight places, changed by value.
ghost use Rattle.std.specs.Prelude.{◌≡◌, ◌↔◌, [], length, replicate, Some, None, Option, IsTrue, IsErr, IsNone, IfSome, IfOk, ◌<◌, slice_index_or, slice_set, option_map};
ghost use Rattle.std.specs.List.{list_any};
ghost use Rattle.slices.specs.Answers.{told};
ghost use Rattle.records.specs.Places.{Distinct, place_of, place_for, IsPlaceOf};
ghost use Rattle.records.specs.Records.{held, lookup, reading_by, is_reading, without, changed, inserted, with_reading, with_capabilities, IsRecordOf, IsReadingBy, ChangesOnly};

use crate::key::Key;
use crate::operation::Operation;
use crate::record::Record;
use process::capabilities::Capabilities;
use slices::equal::first;
use slices::refusal::Numbered;

/// How many records a table has.
pub const MAX_RECORDS: usize = 8;

/// At most eight records, no two with one key.
#[derive(Clone, Copy)]
pub struct Records {
    // Fixed memory: a table is a plain value, and the library allocates nothing.
    pub(crate) places: [Option<Record>; 8],
    ghost room: { length places ≡ 8 },
    ghost distinct: { Distinct places },
}

/// The refusal of a record for which no place is free.
#[derive(Clone, Copy, Debug)]
pub struct NoFreePlace;

impl Numbered for NoFreePlace {
    ghost use Rattle.records.specs.Refusals.{place_number};

    ghost number = { place_number };

    fn refusal_number(self) -> u8 {
        6
    }
}

impl Records {
    ghost use Rattle.records.specs.Refusals.{place_number};

    /// No record.
    pub fn none() -> Records
        ensures value { result.places ≡ replicate 8 None }
        ensures law { held result.places ≡ [] }
    {
        Records { places: [None; 8] }
    }

    /// The place of the record with this key.
    pub fn find(&self, key: &Key) -> Option<usize>
        ensures value { result ≡ place_of self.now.places key.now }
        ensures law { IsPlaceOf self.now.places key.now result }
        ensures within { IfSome result (λ place. place < 8) }
    {
        first(&self.places, &Some(Record::probe(*key)))
    }

    /// The record at a place.
    pub fn get(&self, place: usize) -> Option<Record>
        ensures { result ≡ slice_index_or self.now.places place None }
    {
        *self.places.get(place)?
    }

    /// The record with this key.
    pub fn record_of(&self, key: &Key) -> Option<Record>
        ensures value { result ≡ lookup self.now.places key.now }
        ensures law { IsRecordOf self.now.places key.now result }
    {
        self.get(self.find(key)?)
    }

    /// How many records there are.
    pub fn len(&self) -> usize
        ensures { result ≡ length (held self.now.places) }
    {
        self.places.iter().copied().flatten().count()
    }

    /// Whether there is none.
    pub fn is_empty(&self) -> bool
        ensures { IsTrue result ↔ (held self.now.places ≡ []) }
    {
        self.len() == 0
    }

    /// Whether there is no place for another one.
    pub fn is_full(&self) -> bool
        ensures { IsTrue result ↔ (length (held self.now.places) ≡ 8) }
    {
        self.len() == MAX_RECORDS
    }

    /// Whether a result is being read.
    pub fn is_any_reading(&self) -> bool
        ensures { result ≡ list_any is_reading (held self.now.places) }
    {
        self.places
            .iter()
            .copied()
            .flatten()
            .any(|r| r.reading.is_some())
    }

    // A function of its own: the law of `by_process` follows from the chain's value.
    fn first_reading(&self, process: usize) -> Option<Record>
        ensures { result ≡ reading_by self.now.places process }
    {
        self.places
            .iter()
            .copied()
            .flatten()
            .find(|r| r.process == process && r.reading.is_some())
    }

    /// The first reading record with this process number.
    pub fn by_process(&self, process: usize) -> Option<Record>
        ensures value { result ≡ reading_by self.now.places process }
        ensures law { IsReadingBy self.now.places process result }
    {
        self.first_reading(process)
    }

    /// Where a record with this key goes.
    fn place_for(&self, key: &Key) -> Option<usize>
        ensures { result ≡ place_for self.now.places key.now }
    {
        self.find(key).or_else(|| first(&self.places, &None))
    }

    /// The table where this place is free, or holds a record.
    fn with_place(self, place: usize, held: Option<Record>) -> Records
        requires inside { place < 8 }
        requires distinct { Distinct (slice_set self.places place held) }
        ensures { result.places ≡ slice_set self.places place held }
    {
        let mut places = self.places;
        places[place] = held;
        Records { places }
    }

    /// With this record in the place of the one with its key, or else in the first free place.
    pub fn insert(self, added: Record) -> Result<Records, NoFreePlace>
        ensures value { told (λ t. t.places) place_number result ≡ inserted self.places added }
        ensures law { IfOk result (λ t. ChangesOnly self.places t.places added.key (Some added)) }
        ensures full { IsErr result ↔ (IsNone (lookup self.places added.key) × (length (held self.places) ≡ 8)) }
    {
        let Some(place) = self.place_for(&added.key) else {
            return Err(NoFreePlace);
        };
        Ok(self.with_place(place, Some(added)))
    }

    /// Without the record with this key.
    pub fn remove(self, key: &Key) -> Records
        ensures value { result.places ≡ without self.places key.now }
        ensures law { ChangesOnly self.places result.places key.now None }
    {
        let Some(place) = self.find(key) else {
            return self;
        };
        self.with_place(place, None)
    }

    /// The record with this key is reading for an operation, or no more.
    pub fn with_reading(self, key: &Key, reading: Option<Operation>) -> Records
        ensures value { result.places ≡ changed (with_reading reading) self.places key.now }
        ensures law { ChangesOnly self.places result.places key.now (option_map (with_reading reading) (lookup self.places key.now)) }
    {
        let Some(place) = self.find(key) else {
            return self;
        };
        self.with_place(place, self.get(place).map(|r| r.with_reading(reading)))
    }

    /// The process of the record with this key can do this.
    pub fn with_capabilities(self, key: &Key, capabilities: Capabilities) -> Records
        ensures value { result.places ≡ changed (with_capabilities capabilities) self.places key.now }
        ensures law { ChangesOnly self.places result.places key.now (option_map (with_capabilities capabilities) (lookup self.places key.now)) }
    {
        let Some(place) = self.find(key) else {
            return self;
        };
        self.with_place(
            place,
            self.get(place).map(|r| r.with_capabilities(capabilities)),
        )
    }
}
