//! The client of one process: the handshake, an exchange, a listing, a result.
#![tactic(auto)]

pub mod client;
pub mod greeting;
pub mod inner;
pub mod invoke;
pub mod listing;
pub mod paths;
pub mod result;
