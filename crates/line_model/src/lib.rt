//! The types of the line model, the state tables, the definitions that every contract cites, and their laws.
#![tactic(auto)]

pub mod address;
pub mod call;
pub mod device;
pub mod diagnostic;
pub mod event;
pub mod fault;
pub mod finding;
pub mod gap;
pub mod history;
pub mod interface;
pub mod items;
pub mod laws;
pub mod lending;
pub mod packet;
pub mod part_items;
pub mod piece;
pub mod piece_items;
pub mod report;
pub mod route;
pub mod row;
pub mod state;
pub mod table;
pub mod totals;
pub mod write_buffer;
