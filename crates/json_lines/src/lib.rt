//! The report as JSON lines: a sink that accepts the text of a report and writes to another one an object for each
//! line.
#![tactic(auto)]

pub mod fields;
pub mod laws;
mod lines;
mod objects;
pub mod sink;
pub mod text;
pub mod words;
