//! One logical channel: from its packets to events.
#![tactic(auto)]

pub mod channel;
mod events;
mod format;
pub mod gaps;
mod judging;
mod machine;
mod messages;
mod moves;
mod packed;
mod plain;
mod quick;
mod status;
mod step;
mod terms;
mod transfer;
