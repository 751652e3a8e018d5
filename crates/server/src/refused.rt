//! A refused call hands back what was moved into it.
ghost use Rattle.server.specs.Refusals.{why_number};

use slices::refusal::Numbered;

/// What was moved into a refused call, and why the call refused.
#[derive(Drop)]
pub struct Refused<S, E> {
    pub back: S,
    pub why: E,
}

// By reference: what is handed back is not let go for its number.
impl<S, E: Numbered + Copy> Numbered for &Refused<S, E> {
    ghost number = { λ r. why_number E.number r.now };

    fn refusal_number(self) -> u8 {
        self.why.refusal_number()
    }
}
