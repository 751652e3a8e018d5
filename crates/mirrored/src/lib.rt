//! What a client is told by a mirror.
#![tactic(auto)]

pub mod exchange;
pub mod greeting;
mod wanted;
