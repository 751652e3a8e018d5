//! What a mirror's client asks for.
ghost use Rattle.std.specs.Prelude.{◌≡◌, [], ◌∷◌, map, codes};
ghost use Rattle.slices.specs.Names.{name_bytes};

use slices::name::Name;

/// The prefix of the client's welcome, and the capabilities that it desires.
#[derive(Clone, Copy)]
pub(crate) struct Wanted {
    pub(crate) prefix: Name,
    pub(crate) names: [Name; 3],
    pub ghost called: { name_bytes prefix ≡ codes "git-filter" },
    pub ghost desired: { map name_bytes names ≡ codes "clean" ∷ codes "smudge" ∷ codes "delay" ∷ [] },
}

impl Wanted {
    /// `git-filter`, to clean, to smudge, and to delay.
    pub(crate) fn new() -> Wanted {
        let prefix = Name::new(b"git-filter").unwrap();
        let clean = Name::new(b"clean").unwrap();
        let smudge = Name::new(b"smudge").unwrap();
        let delay = Name::new(b"delay").unwrap();
        Wanted {
            prefix,
            names: [clean, smudge, delay],
        }
    }
}
