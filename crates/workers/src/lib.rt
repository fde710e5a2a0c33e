//! Workers over the queue of pieces and the book of reports, each in a thread of its own.
#![tactic(auto)]

mod gathering;
mod handler;
mod piece_feeding;
mod piece_gate;
mod piece_witness;
mod run;
mod starting;
mod thread_joining;
mod waiting;
mod whole;
mod worker;

pub use gathering::{Gathered, gather};
pub use handler::Handler;
pub use piece_feeding::{Feed, feed_piece, feed_pieces};
pub use piece_gate::Gate;
pub use run::{RunOutcome, run_scoped};
pub use starting::{ReadyWorkers, ready_workers};
pub use waiting::Backoff;
pub use whole::{Crew, Worked, work_through};
