//! The scan of a trace, in one thread or with workers: from a source's bytes to the report that a sink receives.
#![tactic(auto)]

pub mod following;
pub mod gate;
mod reading;
pub mod scan;
pub mod threaded;
