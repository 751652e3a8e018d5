//! What a filter can be asked to do.
ghost use Rattle.std.specs.Prelude.{◌≡◌, Some, slice_get};

/// An operation of a filter.
#[derive(Clone, Copy, Debug)]
pub enum Operation {
    /// Turns the content of a working tree into content to be stored.
    Clean,
    /// Turns stored content into content for a working tree.
    Smudge,
}

impl Operation {
    ghost use Rattle.records.specs.Operations.{operation_name, operation_place, desired};

    /// The operation's name, which is the command that asks for it.
    pub fn as_bytes(self) -> &'static [u8]
        ensures { result.now ≡ operation_name self }
    {
        match self {
            Operation::Clean => b"clean",
            Operation::Smudge => b"smudge",
        }
    }

    /// The place of its name among the names that a table desires.
    pub fn place(self) -> usize
        ensures value { result ≡ operation_place self }
        ensures law { slice_get desired result ≡ Some (operation_name self) }
    {
        match self {
            Operation::Clean => 0,
            Operation::Smudge => 1,
        }
    }
}
