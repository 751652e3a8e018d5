//! Why hands were not shaken with a client.
use handshake::protocol::{Objection, Refusal};
use host::call::CallError;
use packetline::encode;

/// Why hands were not shaken: the caller is at fault, or the handshake did not come to its end.
pub type ServeError = CallError<encode::Error, Refusal<Objection>>;
