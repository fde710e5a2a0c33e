//! Reports of a trace that grows: the observer that runs.
#![tactic(auto)]

mod ending;
pub mod follow;
pub mod judged_row;
pub mod laws;
pub mod live;
mod live_observer;
pub mod observer;
mod observing;
mod open_channels;
mod read_rows;
mod reporting;
mod row_ref;
pub mod row_text;
pub mod uncounted;
