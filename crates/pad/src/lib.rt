//! PAD messages, and what is known of the parameters of a PAD from the messages of a call.
#![tactic(auto)]

mod concern;
pub mod message;
pub mod pairs;
pub mod settings;
mod values;
