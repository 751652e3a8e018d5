//! A host that plays a script, and layers over any host.
#![tactic(auto)]

pub mod layer;
pub mod no_start;
pub mod script;
