//! What a request asks, by its places in lent areas.
ghost use Rattle.std.specs.Prelude.{◌≡◌};

use slices::part::Part;

/// Where key and value of a pair lie in the text area.
#[derive(Clone, Copy)]
pub struct MetaRow {
    pub key: Part,
    pub value: Part,
}

impl MetaRow {
    ghost use Rattle.requests.specs.Stored.{pair_at};

    /// Key and value in the text area.
    pub fn pair(self, text: &[u8]) -> (&[u8], &[u8])
        ensures { (result.0.now, result.1.now) ≡ pair_at text.now self }
    {
        (self.key.slice(text), self.value.slice(text))
    }
}

/// The length of the command, which lies at the front of the text area, and how many rows hold a pair of metadata.
#[derive(Clone, Copy)]
pub struct Asked {
    pub command: usize,
    // A count: the rows are the caller's, and a slice of them would keep them borrowed.
    pub pairs: usize,
}
