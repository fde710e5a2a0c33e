//! What the readers of captures hand to each other, and link headers: frames, what they carry, and why octets gave no rows.
#![tactic(auto)]

pub mod carried;
pub mod device;
mod ethernet;
pub mod frame;
pub mod header;
pub mod kind;
pub mod reason;
pub mod time;
