//! Times of captures.

/// A time: nanoseconds since the beginning of 1970 (UTC); negative before it. Each time of a pcap or pcapng file fits,
/// whatever its resolution and its offset.
#[derive(Clone, Copy, PartialEq, Eq)]
pub struct Nanos {
    /// How many nanoseconds.
    pub count: i128,
}
