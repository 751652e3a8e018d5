//! A key as a plain value, lawful by its ghost field.
ghost use Rattle.std.specs.Prelude.{◌≡◌, true, is_ok, if◌then◌else◌, Ok, Err, Decides};
ghost use Rattle.slices.specs.Padding.{padded_bytes};
ghost use Rattle.records.specs.Limits.{is_key};

use slices::inner::padded;
use slices::name::OutsideLimits;
use slices::padded::Padded;

/// A key of 1 to 128 bytes: what a driver is known by in a table, and the command that starts it.
#[derive(Clone, Copy)]
pub struct Key {
    pub(crate) text: Padded<128>,
    ghost lawful: { is_key (padded_bytes text) ≡ true },
}

impl Key {
    ghost use Rattle.slices.specs.Answers.{told};
    ghost use Rattle.slices.specs.Names.{name_number};
    ghost use Rattle.records.specs.Limits.{IsKey};
    ghost use Rattle.records.specs.Keys.{key_bytes};

    /// The key that `text` spells, if it may be one.
    // A key that users make: a `TryFrom` beside it would be a second one.
    pub fn new(text: &[u8]) -> Result<Key, OutsideLimits>
        ensures value { told key_bytes name_number result ≡ (if is_key text.now then Ok text.now else Err 2) }
        ensures meaning { Decides (is_ok result) (IsKey text.now) }
    {
        match text.len() {
            1..=128 => Ok(Key { text: padded(text) }),
            _ => Err(OutsideLimits),
        }
    }

    /// The bytes of the key.
    pub fn as_bytes(&self) -> &[u8]
        ensures value { result.now ≡ key_bytes self.now }
        ensures lawful { is_key result.now ≡ true }
    {
        self.text.as_bytes()
    }
}

impl PartialEq for Key {
    ghost use Rattle.std.specs.Cmp.Rules.{comparing};
    ghost use Rattle.std.proofs.Common.{rules};
    ghost use Rattle.records.specs.Keys.{same_key};

    ghost eq = { same_key };

    ghost laws = { Prim.search (comparing, rules) };

    fn eq(&self, other: &Key) -> bool {
        self.text == other.text
    }
}

impl Eq for Key {
    ghost use Rattle.std.specs.Cmp.Rules.{comparing};
    ghost use Rattle.std.proofs.Common.{rules};
    ghost use Rattle.records.specs.Keys.{same_key};

    ghost laws = { Prim.search (comparing, rules) };
}
