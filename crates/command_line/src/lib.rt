//! The program over its words: which trace and which scan they choose, or which word is explained, what is said of a
//! fault, and the exit status.
#![tactic(auto)]

pub mod annotated_scan;
pub mod asked;
mod capture_words;
mod circuits;
mod conflicts;
mod copying;
mod explaining;
mod faults;
mod help;
mod json;
mod matches;
mod notes;
mod opening;
pub mod options;
mod pasted;
mod printing;
pub mod program;
mod refusing;
mod trying;
