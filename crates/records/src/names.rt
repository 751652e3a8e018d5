//! The names by which a table shakes hands.
ghost use Rattle.std.specs.Prelude.{◌≡◌, true, map, codes};
ghost use Rattle.slices.specs.Limits.{is_name};
ghost use Rattle.slices.specs.Names.{name_bytes};
ghost use Rattle.records.specs.Operations.{desired};

use slices::name::Name;

/// The name that a lawful text spells.
fn name(text: &[u8]) -> Name
    requires { is_name text.now ≡ true }
    ensures { name_bytes result ≡ text.now }
{
    match Name::new(text) {
        Ok(name) => name,
        Err(_) => unreachable!(),
    }
}

/// The prefix of client and server.
pub fn prefix() -> Name
    ensures { name_bytes result ≡ codes "git-filter" }
{
    name(b"git-filter")
}

/// The names that a table desires of a process.
pub fn desired() -> [Name; 3]
    ensures { map name_bytes result ≡ desired }
{
    [name(b"clean"), name(b"smudge"), name(b"delay")]
}
