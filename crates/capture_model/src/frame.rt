//! A recorded frame, whatever the format of its file.

ghost use Rattle.std.specs.Prelude.{◌≡◌, length, nat_lt};

use crate::time::Nanos;

/// The direction of a frame, seen from the recording host.
#[derive(Clone, Copy, PartialEq, Eq)]
pub enum Direction {
    /// The capture doesn't say.
    Unknown,
    /// The recording host received it.
    Received,
    /// The recording host sent it.
    Sent,
}

/// A frame that a recorder kept, whole or its first octets.
#[derive(Clone, Copy)]
pub struct Frame<'a> {
    /// Its number, from 1, as Wireshark counts the frames of a capture.
    pub number: u64,
    /// The link type: which link header comes first (LINKTYPE_ of pcap and pcapng).
    pub link: u16,
    /// The octets that were kept, without the frame check sequence that the file says is there.
    pub octets: &'a [u8],
    /// How many octets it had on the line, at least as many as were kept, without that check sequence.
    pub length: u32,
    /// Whether the recording host sent it.
    pub direction: Direction,
    /// The interface that it was recorded on, from 0, counted on through the sections of a pcapng file; 0 in pcap.
    pub interface: u32,
    /// When it was recorded, where the capture says.
    pub time: Option<Nanos>,
}

impl Frame<'_> {
    /// Returns whether the recorder kept fewer octets than there were on the line.
    pub fn is_cut(&self) -> bool
        ensures { result ≡ nat_lt (length self.now.octets.now) self.now.length }
    {
        self.octets.len() < self.length as usize
    }
}
