//! Where the program writes what it prints.

use line_model::device::Sink;
use line_model::lending::{Borrowed, Origin};
use std::io;

/// A sink that keeps the reason of its failure.
pub trait Output: Sink {
    /// Returns the system's error of the last write that failed; none where there was none.
    fn failure(&self) -> Option<io::Error>;
}

impl<K: Output, B: Origin> Output for Borrowed<'_, K, B> {
    fn failure(&self) -> Option<io::Error> {
        self.get_ref().failure()
    }
}
