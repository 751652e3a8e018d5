//! What the other crates need of slices: the search for an equal element, names, parts of byte strings, rows that refuse when full, and the numbers of refusals.
#![tactic(auto)]

pub mod equal;
pub mod inner;
pub mod name;
pub mod names;
pub mod padded;
pub mod padding;
pub mod part;
pub mod refusal;
pub mod rows;
