//! A layer over any host that notes what passes, for programs that show it.
#![tactic(auto)]

pub mod traced;
