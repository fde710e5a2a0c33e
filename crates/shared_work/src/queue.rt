//! A queue of numbered pieces between one feeder and many workers.

mod entry;
pub mod laws;
mod rule;
mod witness;
mod work;

pub use entry::{Bundle, QueueEntry};
pub use rule::{QueueNotes, Record};
pub use witness::Witness;
pub use work::{FeederPass, Taken, Work, WorkerPass};
