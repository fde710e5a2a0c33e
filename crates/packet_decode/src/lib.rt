//! From octets to packets and the fields of call packets.
#![tactic(auto)]

mod address;
pub mod decode;
mod facility;
pub mod fields;
pub mod rows;
