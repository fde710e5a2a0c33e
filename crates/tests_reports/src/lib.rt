//! The tests of reports: merging, JSON lines, the report of a trace that grows, annotations, and channels.
#![tactic(auto)]

#[cfg(test)]
mod annotations;
#[cfg(test)]
mod channels;
#[cfg(test)]
mod json;
#[cfg(test)]
mod observing;
#[cfg(test)]
mod reports;
