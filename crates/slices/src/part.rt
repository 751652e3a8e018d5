//! A part of a byte string, by its place.
ghost use Rattle.std.specs.Prelude.{◌≡◌};
ghost use Rattle.slices.specs.Parts.{part};

/// The `len` bytes from `at` on.
// A place, and no slice: it may lie in bytes that its holder does not borrow.
#[derive(Clone, Copy)]
pub struct Part {
    pub at: usize,
    pub len: usize,
}

impl Part {
    /// These bytes of a byte string, as far as they are there.
    pub fn slice(self, bytes: &[u8]) -> &[u8]
        ensures { result.now ≡ part bytes.now self }
    {
        let at = self.at.min(bytes.len());
        let end = at + self.len.min(bytes.len() - at);
        &bytes[at..end]
    }
}
