//! The handshake of a client with a process, and of a server with its client.
#![tactic(auto)]

pub mod agreement;
pub mod inner;
mod hearing;
mod judged;
mod parts;
pub mod protocol;
pub mod shared;
