//! A driver's process table: processes are started for keys, talked with, and ended.
#![tactic(auto)]

pub mod apply;
pub mod closing;
pub mod delayed;
mod fate;
pub mod fetch;
pub mod init;
pub mod inner;
pub mod list;
pub mod misuse;
pub mod read;
pub mod reader;
pub mod result;
pub mod state;
mod talk;
