//! Rows over a lent slice that refuse when full.
ghost use Rattle.std.specs.Prelude.{◌≡◌, ◌≤◌, length, take, min};
ghost use Rattle.slices.specs.Answers.{told};
ghost use Rattle.slices.specs.Held.{full_number, handed_back, pushed, IsPush};

use crate::refusal::Numbered;

/// The refusal of a row for which there is no place: it hands the row back.
#[derive(Drop, Debug)]
pub struct Full<T> {
    pub row: T,
}

impl<T: Drop> Numbered for Full<T> {
    ghost number = { full_number };

    fn refusal_number(self) -> u8 {
        7
    }
}

/// The first `count` of the lent rows are held.
#[derive(Drop)]
pub struct Rows<'a, T> {
    // Lent memory, so that a row without a place is refused and handed back; contracts say of each place what it holds, so no model hides them.
    rows: &'a mut [T],
    count: usize,
    ghost fits: { count ≤ length rows.now },
}

impl<'a, T: Drop> Rows<'a, T> {
    // `lender`: a reference in a struct could be put in another's place, so that it was not is promised.
    /// No row is held yet.
    pub fn new(rows: &'a mut [T]) -> Rows<'a, T>
        ensures lender { result.rows.ghost_name ≡ rows.entry.ghost_name }
        ensures empty { (result.rows.now ≡ rows.old) × (result.count ≡ 0) }
    {
        Rows { rows, count: 0 }
    }

    /// The first `count` rows are held already; all of them, where there are not so many.
    pub fn resume(rows: &'a mut [T], count: usize) -> Rows<'a, T>
        ensures lender { result.rows.ghost_name ≡ rows.entry.ghost_name }
        ensures held { (result.rows.now ≡ rows.old) × (result.count ≡ min count (length rows.old)) }
    {
        let count = count.min(rows.len());
        Rows { rows, count }
    }

    /// Holds one row more, or hands the row back where each place is held.
    pub fn push(&mut self, row: T) -> Result<(), Full<T>>
        ensures lender { self.new.rows.ghost_name ≡ self.old.rows.ghost_name }
        ensures value { (told (λ u. u) handed_back result, self.new.rows.now, self.new.count) ≡ pushed self.old.rows.now self.old.count row }
        ensures meaning { IsPush self.old.rows.now self.old.count row (told (λ u. u) handed_back result) self.new.rows.now self.new.count }
    {
        let at = self.len();
        if at >= self.rows.len() {
            return Err(Full { row });
        }
        self.rows[at] = row;
        self.count = at + 1;
        Ok(())
    }

    /// How many rows are held.
    pub fn len(&self) -> usize
        ensures { result ≡ self.now.count }
    {
        self.count
    }

    /// The held rows.
    pub fn as_slice(&self) -> &[T]
        ensures { result.now ≡ take self.now.count self.now.rows.now }
    {
        &self.rows[0..self.len()]
    }
}
