//! An exchange: a list of a table's calls, worked off from an empty table; and what is read off it.
#![tactic(auto)]

pub mod answer;
pub mod call;
pub mod key;
pub mod observer;
pub mod open;
pub mod run;
pub mod tally;
