//! What a process says of a command, and what it can do: statuses and capabilities.
#![tactic(auto)]

pub mod area;
pub mod capabilities;
pub mod inner;
pub mod status;
