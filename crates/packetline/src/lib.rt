//! Packet lines: what a packet is, how one is laid down and read, and the lines that packets carry.
#![tactic(auto)]

pub mod decode;
pub mod encode;
pub mod inner;
pub mod line;
pub mod metadata;
pub mod packet;
pub mod text;
