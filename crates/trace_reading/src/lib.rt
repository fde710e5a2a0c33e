//! How a trace is read with workers: the blocks of its text, and the task of the thread that reads the source.
#![tactic(auto)]

pub mod block_queues;
mod blocks_in_flight;
pub mod feeding;
pub mod room;
mod taken_text;
pub mod text_block;
pub mod text_cutter;
