//! How a name is made, read and compared.
ghost use Rattle.std.specs.Prelude.{◌≡◌, true, is_ok, if◌then◌else◌, Ok, Err, Decides};
ghost use Rattle.slices.specs.Answers.{told};
ghost use Rattle.slices.specs.Limits.{is_name, AllVisible, IsName};
ghost use Rattle.slices.specs.Names.{name_bytes, name_number, same_name};
ghost use Rattle.std.specs.Cmp.Rules.{comparing};
ghost use Rattle.std.proofs.Common.{rules};

use crate::inner::padded;
use crate::name::{Name, OutsideLimits};
use crate::refusal::Numbered;

/// Whether each byte of `text` is visible.
fn is_visible(text: &[u8]) -> bool
    ensures { Decides result (AllVisible text.now) }
{
    text.iter().all(|b| (b'!'..=b'~').contains(b))
}

/// Whether `text` may be a name.
fn is_lawful(text: &[u8]) -> bool
    ensures { Decides result (IsName text.now) }
{
    match text.len() {
        1..=64 => is_visible(text),
        _ => false,
    }
}

impl Numbered for OutsideLimits {
    ghost number = { name_number };

    fn refusal_number(self) -> u8 {
        2
    }
}

impl Name {
    /// The name that `text` spells, if it may be one.
    // A name that users call: a `TryFrom` beside it would be a second one.
    pub fn new(text: &[u8]) -> Result<Name, OutsideLimits>
        ensures value { told name_bytes name_number result ≡ (if is_name text.now then Ok text.now else Err 2) }
        ensures meaning { Decides (is_ok result) (IsName text.now) }
    {
        if !is_lawful(text) {
            return Err(OutsideLimits);
        }
        Ok(Name { text: padded(text) })
    }

    /// The bytes of the name.
    pub fn as_bytes(&self) -> &[u8]
        ensures value { result.now ≡ name_bytes self.now }
        ensures lawful { is_name result.now ≡ true }
    {
        self.text.as_bytes()
    }
}

impl PartialEq for Name {
    ghost eq = { same_name };

    ghost laws = { Prim.search (comparing, rules) };

    fn eq(&self, other: &Name) -> bool {
        self.text == other.text
    }
}

impl Eq for Name {
    ghost laws = { Prim.search (comparing, rules) };
}
