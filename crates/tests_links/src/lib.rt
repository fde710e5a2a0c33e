//! The tests of link headers, of TCP connections, of circuits of XOT and their recordings, of LAPB links and of lines and of their traces.
#![tactic(auto)]

#[cfg(test)]
mod circuits;
#[cfg(test)]
mod connections;
#[cfg(test)]
mod headers;
pub mod item_log;
#[cfg(test)]
mod lines;
#[cfg(test)]
mod links;
#[cfg(test)]
mod recordings;
#[cfg(test)]
mod traces;
