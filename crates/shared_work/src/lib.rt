//! What the feeder and the workers share: the queue of pieces, and the book of the reports of all pieces.
#![tactic(auto)]

pub mod findings;
pub mod queue;
