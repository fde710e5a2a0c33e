//! How a thread waits for the queue.

use std::thread;
use std::time::{Clock, Duration};

/// A backoff of at least this many microseconds is a sleep: a shorter one costs the system longer than it lasts.
const SHORTEST: u64 = 64;

/// The first backoff, in microseconds.
const FIRST: u64 = 16;

/// The longest backoff, in microseconds.
const LONGEST: u64 = 8192;

/// How long a thread rests before it asks the queue again: a quarter longer each time, up to 8 ms. So it is late by at
/// most about a quarter of the time that it has waited.
#[derive(Drop)]
pub struct Backoff {
    micros: u64,
}

impl Backoff {
    /// Returns the first backoff.
    pub fn new() -> Backoff {
        Backoff { micros: FIRST }
    }

    /// Yields to other threads, or sleeps once the backoff is long enough. The next backoff is longer.
    pub fn wait(&mut self, clock: &impl Clock) {
        if self.micros < SHORTEST {
            thread::yield_now();
        } else {
            thread::sleep(clock, Duration::from_micros(self.micros));
        }
        let more = self.micros / 4;
        self.micros = self.micros.saturating_add(more).min(LONGEST);
    }
}
