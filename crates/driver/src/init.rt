//! Why a process was not made ready for a key.
ghost use Rattle.driver.specs.Answers.{init_answer, number_in};

use handshake::protocol::{Protocol, Refusal};
use host::fault::NotStarted;
use slices::refusal::Numbered;

/// Its command could not be started; or the handshake failed, and the process was closed.
#[derive(Clone, Copy)]
pub enum Error {
    SpawnCommand(NotStarted),
    ProcessHandshake(Refusal<Protocol>),
}

impl Numbered for Error {
    ghost number = { λ e. number_in (init_answer e) };

    fn refusal_number(self) -> u8 {
        match self {
            Error::SpawnCommand(why) => why.refusal_number(),
            Error::ProcessHandshake(why) => why.refusal_number(),
        }
    }
}
