//! The TCP segments in the datagrams that frames carry, over IPv4 and IPv6.
#![tactic(auto)]

pub mod carriers;
pub mod datagram;
mod ethernet;
pub mod fault;
pub mod fragments;
pub mod gathered;
pub mod laws;
mod numbers;
pub mod octets;
mod pieces;
pub mod segment;
mod tunnels;
mod version_4;
mod version_6;
