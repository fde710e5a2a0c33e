//! The restart machine, and the epochs and pieces that it cuts a trace into.
#![tactic(auto)]

mod block_channel_rows;
pub mod block_cut;
mod block_rows;
mod channel_rows;
pub mod channel_table;
pub mod cut;
pub mod cutter;
mod ended_epoch;
mod kept_rows;
mod open_pieces;
pub mod parts;
pub mod restart;
pub mod rows_by_channel;
mod showing;
pub mod walk;
