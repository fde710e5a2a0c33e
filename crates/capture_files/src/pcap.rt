//! The records of a pcap file.

ghost use Rattle.std.specs.Prelude.{◌≡◌, ◌+◌, ◌≤◌, length, pos};
ghost use Rattle.capture_files.specs.Entries.{frame_at};
ghost use Rattle.capture_files.specs.PcapRecords.{direction_of_kind, direction_in, header_size, line_length, nanoseconds, pcap_frame};

use crate::entry::FrameHead;
use crate::numbers::read_four;
use capture_model::frame::Direction;
use capture_model::time::Nanos;

/// What the header of a record has.
#[derive(Clone, Copy, PartialEq, Eq)]
pub enum RecordHeader {
    /// A time and two lengths: 16 octets.
    Plain,
    /// The same and 4 octets of Nokia's.
    Nokia,
    /// The same, then an interface, a protocol and a packet type: 24 octets, as Red Hat 6.1 wrote them.
    Modified,
    /// The same with 4 more octets, as SuSE 6.3 wrote them.
    Suse,
}

/// What the records of a file have in common.
#[derive(Clone, Copy)]
pub struct PcapForm {
    /// Whether the first octet of a number is its highest.
    pub is_big: bool,
    /// Whether times count nanoseconds, and not microseconds.
    pub is_nano: bool,
    /// What the header of a record has.
    pub header: RecordHeader,
    /// The link type of all frames.
    pub link: u16,
    /// How many octets of check sequence are at the end of each frame.
    pub check: u32,
    /// How many octets a record keeps at most.
    pub largest: u32,
}

impl RecordHeader {
    /// Returns how many octets it has.
    pub fn size(self) -> usize
        ensures size { result ≡ header_size self }
        ensures least { 16 ≤ result }
        ensures most { result ≤ 28 }
    {
        match self {
            RecordHeader::Plain => 16,
            RecordHeader::Nokia => 20,
            RecordHeader::Modified => 24,
            RecordHeader::Suse => 28,
        }
    }

    /// Returns the direction that the header of a record says.
    fn direction(self, octets: &[u8]) -> Direction
        requires { header_size self ≤ length octets.now }
        ensures { result ≡ direction_in self octets.now }
    {
        match self {
            RecordHeader::Plain | RecordHeader::Nokia => Direction::Unknown,
            RecordHeader::Modified => direction_of_kind(octets[22]),
            RecordHeader::Suse => direction_of_kind(octets[22]),
        }
    }
}

/// Returns the direction by a packet type of Linux.
fn direction_of_kind(kind: u8) -> Direction
    ensures { result ≡ direction_of_kind kind }
{
    match kind {
        0 | 1 | 2 => Direction::Received,
        4 => Direction::Sent,
        _ => Direction::Unknown,
    }
}

impl PcapForm {
    /// Returns how many octets the frame of a record had on the line, without its check sequence.
    #[inline(always)]
    fn line_length(&self, octets: &[u8]) -> u32
        requires { 16 ≤ length octets.now }
        ensures { result ≡ line_length self.now octets.now }
    {
        let kept = read_four(self.is_big, octets, 8);
        let length = read_four(self.is_big, octets, 12);
        kept.max(length).saturating_sub(self.check)
    }

    /// Returns the time of a record.
    #[inline(always)]
    fn time(&self, octets: &[u8]) -> Nanos
        requires { 16 ≤ length octets.now }
        ensures { result ≡ record { count = pos (nanoseconds self.now octets.now) } }
    {
        let seconds = u64::from(read_four(self.is_big, octets, 0));
        let share = u64::from(read_four(self.is_big, octets, 4));
        let unit = if self.is_nano { 1 } else { 1_000 };
        let count = seconds * 1_000_000_000 + share * unit;
        Nanos {
            count: i128::from(count),
        }
    }

    /// Returns the frame of a record, whole or its first octets.
    #[inline(always)]
    pub(crate) fn head(&self, number: u64, octets: &[u8]) -> FrameHead
        requires { header_size self.now.header ≤ length octets.now }
        ensures frame { frame_at result octets.now ≡ pcap_frame self.now number octets.now }
        ensures within { result.from + result.kept ≤ length octets.now }
    {
        let from = self.header.size();
        let length = self.line_length(octets);
        FrameHead {
            number,
            link: self.link,
            from,
            kept: (octets.len() - from).min(length as usize),
            length,
            direction: self.header.direction(octets),
            interface: 0,
            time: Some(self.time(octets)),
        }
    }
}
