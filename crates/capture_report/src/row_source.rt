//! What carries the packets that are the rows of a trace.

/// What carries them.
#[derive(Clone, Copy, PartialEq, Eq, Debug)]
pub enum RowSource {
    /// A line: frames of LAPB, or frames that are packets.
    Line,
    /// TCP connections, as XOT (RFC 1613).
    Xot,
}
