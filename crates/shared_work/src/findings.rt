//! The reports of all pieces under one lock, and what each worker has posted.

mod book;
mod known_ids;
mod ledgers;
mod posts;
mod room;
mod share;
mod spares;
mod sums;
mod tally;
mod voucher;

pub use book::{Book, LockedPosts};
pub use ledgers::{Blanks, Ledgers};
pub use posts::Posts;
pub use share::Share;
pub use voucher::{AnyReport, Voucher};
