//! Why hands were not shaken.
use handshake::protocol::{Protocol, Refusal};
use host::call::CallError;
use packetline::encode;

/// Why hands were not shaken: the caller is at fault, or the handshake did not come to its end.
pub type GreetingError = CallError<encode::Error, Refusal<Protocol>>;
