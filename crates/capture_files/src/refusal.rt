//! Why a file is not read as a capture.

use line_model::fault::Fault;

/// Why a file is not read as a capture.
#[derive(Clone, Copy)]
pub enum Refusal {
    /// It has no octet.
    Empty,
    /// It begins as neither pcap nor pcapng.
    Unknown,
    /// It ends inside of the header of a pcap file, after this number of octets.
    HeaderCut(usize),
    /// Its first section header has no byte-order magic.
    SectionOrder,
    /// The source failed, or memory was refused.
    Fault(Fault),
}

impl From<Fault> for Refusal {
    fn from(fault: Fault) -> Refusal {
        Refusal::Fault(fault)
    }
}
