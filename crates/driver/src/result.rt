//! A result that waits to be read.
ghost use Rattle.std.specs.Prelude.{◌≡◌};

/// A result of a table's process: read to its end, or given up.
// No `Drop`: a value of this type cannot be let go, so forgetting one does not compile.
pub struct FilterResult {
    process: usize,
}

impl FilterResult {
    /// The result of a process.
    pub(crate) fn of(process: usize) -> FilterResult
        ensures { result.process ≡ process }
    {
        FilterResult { process }
    }

    /// The number of its process.
    pub fn process(&self) -> usize
        ensures { result ≡ self.now.process }
    {
        self.process
    }

    /// It is read to its end, given up, or lost.
    pub(crate) fn spend(self) -> usize
        ensures { result ≡ self.process }
    {
        let FilterResult { process } = self;
        process
    }
}
