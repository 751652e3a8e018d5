//! A host whose processes are servers that give content back as it came.
#![tactic(auto)]

mod answer;
mod chosen;
mod content;
mod draft;
mod house;
pub mod mirror;
mod offered;
mod places;
mod response;
mod seat;
mod server;
