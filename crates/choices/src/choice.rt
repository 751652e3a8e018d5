//! A choice of a version, by what it means, and two of them.
ghost use Rattle.std.specs.Prelude.{◌≡◌, ℕ, List, Option};
ghost use Rattle.choices.specs.Choices.{highest_up_to, first_offered, IsHighestUpTo, IsFirstOffered};

use slices::equal::first;

/// A choice answers a version for each list of versions, or none. Its meaning is its answers.
pub trait Choice {
    ghost chosen: { Self → List ℕ → Option ℕ };

    /// The version that is chosen where these are offered.
    fn choose(&self, versions: &[u64]) -> Option<u64>
        ensures { result ≡ chosen self.now versions.now };
}

/// Chooses the highest of the offered versions that is not above the bound.
#[derive(Clone, Copy, Debug)]
pub struct HighestUpTo {
    pub bound: u64,
}

// A function of its own, as `first_offered` is: the law follows from the chain's value.
/// The highest of the versions that is not above the bound.
fn highest_up_to(versions: &[u64], bound: u64) -> Option<u64>
    ensures { result ≡ highest_up_to bound versions.now }
{
    versions.iter().copied().filter(|v| *v <= bound).max()
}

impl Choice for HighestUpTo {
    ghost chosen = { λ c. highest_up_to c.bound };

    fn choose(&self, versions: &[u64]) -> Option<u64>
        ensures value { result ≡ highest_up_to self.now.bound versions.now }
        ensures law { IsHighestUpTo self.now.bound versions.now result }
    {
        highest_up_to(versions, self.bound)
    }
}

/// Chooses the first of an own list of versions that is offered: the list's order is its preference.
#[derive(Clone, Copy, Debug)]
pub struct FirstOf<'a> {
    pub own: &'a [u64],
}

/// The first of the own versions that is offered.
fn first_offered(own: &[u64], versions: &[u64]) -> Option<u64>
    ensures { result ≡ first_offered own.now versions.now }
{
    own.iter().copied().find(|v| first(versions, v).is_some())
}

impl<'a> Choice for FirstOf<'a> {
    ghost chosen = { λ c. first_offered c.own.now };

    fn choose(&self, versions: &[u64]) -> Option<u64>
        ensures value { result ≡ first_offered self.now.own.now versions.now }
        ensures law { IsFirstOffered self.now.own.now versions.now result }
    {
        first_offered(self.own, versions)
    }
}
