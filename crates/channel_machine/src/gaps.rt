//! A logical channel of a recording with gaps.

mod adrift;
mod carried;
pub mod channel;
mod doubts;
pub(crate) mod kinds;
mod largest;
mod reading;
mod rows;
mod settled;
mod settled_data;
mod settled_rows;
mod step;
