//! The text of a trace, read in chunks of any size.
#![tactic(auto)]

pub mod consumer;
mod content;
pub mod cuts;
mod digits;
mod header;
pub mod lines;
mod number;
mod reading;
mod row_front;
mod row_line;
pub mod trace_observer;
pub mod words;
