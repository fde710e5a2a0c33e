//! The trial of headers: a trace is walked under each window and packet size that may explain it, and each gets a line
//! with its counts.
#![tactic(auto)]

mod headers;
mod reactions;
mod trial;
mod trials;
mod tried_channels;
mod tried_lines;
mod tried_text;
pub mod trying;
