//! The packets of a LAPB link, as its receivers accepted them.
#![tactic(auto)]

pub mod check;
pub mod control;
pub mod ends;
pub mod frames;
pub mod laws;
pub mod link;
pub mod looks;
pub mod modulus;
pub mod receiver;
