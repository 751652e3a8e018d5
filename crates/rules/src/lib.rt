//! What a table of processes makes of each call, its whole life, and the rules that stand in it.
#![tactic(auto)]

pub mod stands;
