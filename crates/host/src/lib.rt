//! Hosts of filter processes by their meaning, and packets sent to and read from a process of any host.
#![tactic(auto)]

pub mod call;
pub mod fault;
pub mod host;
pub mod inner;
pub mod peer;
pub mod reading;
pub mod sending;
