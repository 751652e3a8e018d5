//! What the servers of a mirror are called, and what they can do.
ghost use Rattle.std.specs.Prelude.{◌≡◌, [], ◌∷◌, map, codes};
ghost use Rattle.slices.specs.Names.{name_bytes};

use slices::name::Name;

/// The prefix of a server's welcome, and the names of its capabilities.
#[derive(Clone, Copy)]
pub(crate) struct House {
    pub(crate) prefix: Name,
    pub(crate) names: [Name; 2],
    pub ghost called: { name_bytes prefix ≡ codes "git-filter" },
    pub ghost can: { map name_bytes names ≡ codes "clean" ∷ codes "smudge" ∷ [] },
}

impl House {
    /// `git-filter`, which can clean and smudge.
    pub(crate) fn new() -> House {
        let prefix = Name::new(b"git-filter").unwrap();
        let clean = Name::new(b"clean").unwrap();
        let smudge = Name::new(b"smudge").unwrap();
        House {
            prefix,
            names: [clean, smudge],
        }
    }
}
