//! The status of a command.
ghost use Rattle.std.specs.Prelude.{◌≡◌};
ghost use Rattle.process.specs.Statuses.{first, succeeds, word_of};

/// What a status name means.
#[derive(Clone, Copy)]
pub enum Word {
    Success,
    Delayed,
    Abort,
    Error,
    Other,
}

impl From<&[u8]> for Word {
    ghost from_gives = { λ name word. word ≡ word_of name.now };

    fn from(name: &[u8]) -> Word {
        match name {
            b"success" => Word::Success,
            b"delayed" => Word::Delayed,
            b"abort" => Word::Abort,
            b"error" => Word::Error,
            _ => Word::Other,
        }
    }
}

/// The status of a command: nothing new was said, lines without any status came, or a name with its whole length.
#[derive(Clone, Copy)]
pub enum Status {
    Previous,
    Unset,
    Named(Word, usize),
}

impl Status {
    /// Whether the command succeeded. After a result's content the status before still holds where none was said.
    pub fn is_success(self) -> bool
        ensures { result ≡ succeeds self }
    {
        matches!(self, Status::Previous | Status::Named(Word::Success, _))
    }

    /// The status as the first of an exchange, or as that of a listing: there is none before it.
    pub fn as_first(self) -> Status
        ensures { result ≡ first self }
    {
        match self {
            Status::Previous => Status::Unset,
            _ => self,
        }
    }
}
