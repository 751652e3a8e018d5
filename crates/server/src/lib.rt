//! A server: hands are shaken, and request after request is read and worked off.
#![tactic(auto)]

pub mod greeting;
pub mod refused;
pub mod request;
pub mod response;
pub mod server;
pub mod writing;
