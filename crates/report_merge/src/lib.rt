//! The report of a trace: merged from the reports of its pieces, and written as text.
#![tactic(auto)]

mod fields;
mod judge;
mod lines;
mod log;
pub mod merging;
pub mod parts;
pub mod reports;
pub mod row_counts;
pub mod text;
pub mod words;
