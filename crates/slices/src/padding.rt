//! How a padded text is read and compared.
ghost use Rattle.std.specs.Prelude.{◌≡◌};
ghost use Rattle.slices.specs.Padding.{padded_bytes, same_padded};
ghost use Rattle.std.specs.Cmp.Rules.{comparing};
ghost use Rattle.std.proofs.Common.{rules};

use crate::padded::Padded;

impl<const N: usize> Padded<N> {
    /// The bytes of the text.
    pub fn as_bytes(&self) -> &[u8]
        ensures { result.now ≡ padded_bytes self.now }
    {
        let room = &self.bytes[..];
        &room[0..self.len]
    }
}

impl<const N: usize> PartialEq for Padded<N> {
    ghost eq = { same_padded };

    ghost laws = { Prim.search (comparing, rules) };

    fn eq(&self, other: &Padded<N>) -> bool {
        self.as_bytes() == other.as_bytes()
    }
}

impl<const N: usize> Eq for Padded<N> {
    ghost laws = { Prim.search (comparing, rules) };
}
