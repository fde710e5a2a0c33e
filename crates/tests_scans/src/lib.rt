//! The tests of the scans: each way of trace_scan over traces that are cut and refused.
#![tactic(auto)]

#[cfg(test)]
mod host;
#[cfg(test)]
mod scans;
