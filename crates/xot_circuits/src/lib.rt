//! XOT (RFC 1613): the packets in the octets of TCP connections, one connection a circuit.
#![tactic(auto)]

pub mod call;
pub mod channels;
pub mod circuit;
pub mod exchange;
pub mod header;
pub mod item;
pub mod joining;
pub mod laws;
pub mod recording;
pub mod roles;
pub mod stream;
