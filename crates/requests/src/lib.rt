//! How a server reads the next request of its client.
#![tactic(auto)]

pub mod asked;
pub mod fault;
pub mod inner;
mod store;
