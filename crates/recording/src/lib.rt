//! Recorded exchanges: their lines, and bytes shown to a person.
#![tactic(auto)]

pub mod failure;
pub mod line;
pub mod show;
