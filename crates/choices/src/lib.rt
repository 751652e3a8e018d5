//! How a server chooses a protocol version from those that a client offers.
#![tactic(auto)]

pub mod choice;
