//! The packets of a line, frame by frame: LAPB, packets alone, and packets of an X.25 device.
#![tactic(auto)]

pub mod choices;
pub mod given;
pub mod line;
pub mod station;
