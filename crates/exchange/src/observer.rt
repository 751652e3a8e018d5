//! Somebody who stands beside a table.
use crate::answer::Answer;

/// Looks at the host after each call of an exchange, and at what the call answered.
pub trait Observer<H> {
    fn look(&mut self, host: &H, answer: Answer);
}

/// Nobody looks.
#[derive(Drop)]
pub struct Nobody;

impl<H> Observer<H> for Nobody {
    fn look(&mut self, _host: &H, _answer: Answer) {}
}
