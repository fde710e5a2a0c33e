//! Readers and writers of the system as sources and sinks, and what the program reads its trace from and writes its
//! report to.
#![tactic(auto)]

mod chunk;
pub mod input;
pub mod io;
pub mod kept_line;
pub mod opener;
pub mod output;
pub mod progress;
pub mod room_source;
mod shown_reader;
pub mod system;
