//! The run of a piece: one logical channel, by any machine, from its rows to their result.
#![tactic(auto)]

pub mod live;
pub mod run;
pub mod status_word;
mod tally;
