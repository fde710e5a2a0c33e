//! TCP connections: the octets of both directions in order, each once, and the gaps between them.
#![tactic(auto)]

pub mod connection;
pub mod connections;
pub mod ends;
pub mod flow;
pub mod laws;
pub mod numbers;
pub mod piece;
pub mod waiting;
