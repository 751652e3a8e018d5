//! Which of a server's names a client named.
ghost use Rattle.std.specs.Prelude.{◌≡◌, ℕ, ◌<◌, ◌≤◌, true, length, take, nat_eq};
ghost use Rattle.std.specs.List.{IsDistinct};
ghost use Rattle.std.proofs.Props.{props};
ghost use Rattle.handshake.specs.Places.{AllWithin};

/// The most names that a server has.
pub const MAX_NAMES: usize = 32;

/// The places of the available names that a client named, in the order first named, none twice.
#[derive(Clone, Copy)]
pub struct Shared {
    // Fixed memory: the library allocates nothing.
    places: [usize; 32],
    count: usize,
    ghost room: { length places ≡ 32 },
    ghost few: { count ≤ 32 },
    ghost once: { IsDistinct nat_eq (take count places) } by { Prim.hlevel props },
    ghost small: { AllWithin 32 (take count places) },
}

impl Shared {
    ghost use Rattle.std.specs.Prelude.{[], Some};
    ghost use Rattle.handshake.specs.Places.{is_among, with_place};
    ghost use Rattle.handshake.specs.Sharing.{places_of};

    /// No name.
    pub fn none() -> Shared
        ensures { places_of result ≡ [] }
    {
        Shared {
            places: [0; 32],
            count: 0,
        }
    }

    /// The places, in the order first named.
    pub fn as_slice(&self) -> &[usize]
        ensures { result.now ≡ places_of self.now }
    {
        &self.places[0..self.count]
    }

    /// Whether the name at place `k` is among them.
    pub fn contains(&self, k: usize) -> bool
        ensures { result ≡ is_among k (places_of self.now) }
    {
        self.as_slice().contains(&k)
    }

    /// With the name at place `k` too, behind the others.
    pub(crate) fn insert(self, k: usize) -> Shared
        requires { k < 32 }
        ensures { places_of result ≡ with_place (places_of self) (Some k) }
    {
        if self.contains(k) {
            return self;
        }
        let mut places = self.places;
        places[self.count] = k;
        Shared {
            places,
            count: self.count + 1,
        }
    }
}
