//! Refusals, which have numbers.
ghost use Rattle.std.specs.Prelude.{◌≡◌, ℕ};

/// A refusal, which has a number.
pub trait Numbered {
    ghost number: { Self → ℕ };

    fn refusal_number(self) -> u8
        ensures { result ≡ number self };
}
