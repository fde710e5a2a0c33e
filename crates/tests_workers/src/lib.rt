//! The tests of what the workers share: the queue of pieces, and the book of findings.
#![tactic(auto)]

#[cfg(test)]
mod host;
#[cfg(test)]
mod posting;
#[cfg(test)]
mod queue;
