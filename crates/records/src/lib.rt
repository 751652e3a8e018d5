//! The records of a process table: keys, operations, and the eight places, as plain values.
#![tactic(auto)]

pub mod context;
pub mod id;
pub mod key;
pub mod names;
pub mod operation;
pub mod record;
pub mod records;
