//! What a handshake comes to.
use crate::shared::Shared;
use process::capabilities::Capabilities;

/// The version that the process chose, and which of the desired names it named.
// Not client's `Client`, which names its process as well and is public with these fields.
#[derive(Clone, Copy)]
pub struct Agreement {
    pub version: u64,
    pub capabilities: Capabilities,
}

/// The version that a server chose, and which of its names the client named.
#[derive(Clone, Copy)]
pub struct Accord {
    pub version: u64,
    pub shared: Shared,
}
