//! The counts of a trace's rows.

/// How many rows of a trace are packets, and how many are gaps.
#[derive(Clone, Copy, Debug, PartialEq, Eq)]
pub struct RowCounts {
    /// The packets.
    pub packets: u32,
    /// The gaps, where the trace records them.
    pub gaps: Option<u32>,
}
