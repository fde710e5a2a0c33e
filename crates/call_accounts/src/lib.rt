//! Calls, what each address pays for, and the greatest number of calls at once, from events and records of calls.
#![tactic(auto)]

pub mod account;
pub mod call;
mod counts;
mod pad_table;
pub mod peak;
pub mod so_far;
