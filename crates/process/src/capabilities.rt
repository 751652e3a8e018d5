//! What a process can do: one bit for each desired name.
ghost use Rattle.std.specs.Prelude.{◌≡◌, ℕ, ◌<◌, not, ◌&&◌, ◌||◌, ◌==◌, nat_lt, IsTrue};
ghost use Rattle.process.specs.Masks.{holds, with_bit, without_bit};

/// The desired names that a process named, by their places among the first 32.
#[derive(Clone, Copy)]
pub struct Capabilities {
    pub mask: u32,
}

/// Whether bit `k` of a mask is set.
fn has_bit(mask: u32, k: usize) -> bool
    ensures value { result ≡ holds mask k }
    ensures within { IsTrue result → k < 32 }
{
    if k >= 32 {
        return false;
    }
    (mask >> k) & 1 == 1
}

impl Capabilities {
    /// No name.
    // A name that users call; `Default` beside it would be a second one.
    pub fn none() -> Capabilities
        ensures { result.mask ≡ 0 }
    {
        Capabilities { mask: 0 }
    }

    /// Whether the name at place `k` is among them.
    pub fn contains(self, k: usize) -> bool
        ensures value { result ≡ holds self.mask k }
        ensures within { IsTrue result → k < 32 }
    {
        has_bit(self.mask, k)
    }

    /// With the name at place `k` too; a place from 32 on changes nothing.
    pub fn insert(self, k: usize) -> Capabilities
        ensures value { result.mask ≡ with_bit self.mask k }
        ensures law { (j : ℕ) → holds result.mask j ≡ ((j == k && nat_lt k 32) || holds self.mask j) }
    {
        if k >= 32 {
            return self;
        }
        Capabilities {
            mask: self.mask | 1 << k,
        }
    }

    /// Without the name at place `k`.
    pub fn remove(self, k: usize) -> Capabilities
        ensures value { result.mask ≡ without_bit self.mask k }
        ensures law { (j : ℕ) → holds result.mask j ≡ (holds self.mask j && not (j == k)) }
    {
        if !self.contains(k) {
            return self;
        }
        Capabilities {
            mask: self.mask ^ (1 << k),
        }
    }
}
