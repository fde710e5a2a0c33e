//! A capture file of either format.

ghost use Rattle.std.specs.Prelude.{◌≡◌, ◌≤◌, [], ℕ, List, IfNone, IfOk, IsTrue, OnErr, OnOk, Option, Some, length, true};
ghost use Rattle.capture_files.specs.CaptureFiles.{records_left, records_of};
ghost use Rattle.capture_files.specs.CaptureSteps.{IsOpened, IsStep, number_of};
ghost use Rattle.capture_files.specs.Numbers.{number};
ghost use Rattle.capture_files.specs.Records.{Follows, record_in};
ghost use Rattle.capture_files.specs.Windows.{Advances, IsAtEnd, still};

use crate::block::{HEAD, SECTION};
use crate::entry::Entry;
use crate::numbers::read_four;
use crate::pcap_header::open_pcap;
use crate::pcap_reader::Pcap;
use crate::pcapng::Pcapng;
use crate::refusal::Refusal;
use crate::window::Window;
use line_model::fault::Fault;
use std::alloc::Global;
use streams::room_source::RoomSource;

/// The reader of a capture file, by its format.
#[derive(Drop)]
pub enum CaptureFile {
    /// Records.
    Pcap(Pcap),
    /// Blocks.
    Pcapng(Pcapng),
}

/// Returns whether a file is one of blocks, by its first octets: twelve at least, or all. Fails where there are none, and
/// where the first block begins a section of no byte order.
fn is_pcapng(octets: &[u8]) -> Result<bool, Refusal>
    ensures section { IfOk result (λ is. IsTrue is → (4 ≤ length octets.now) × (number true octets.now ≡ 168627466)) }
{
    if octets.is_empty() {
        return Err(Refusal::Empty);
    }
    if octets.len() < 8 || read_four(true, octets, 0) != SECTION {
        return Ok(false);
    }
    if octets.len() < HEAD {
        return Err(Refusal::SectionOrder);
    }
    match read_four(true, octets, 8) {
        0x1A2B_3C4D | 0x4D3C_2B1A => Ok(true),
        _ => Err(Refusal::SectionOrder),
    }
}

impl CaptureFile {
    /// Recognises a capture file by its first octets, and returns its reader; frames are counted on from `number`, the
    /// last one of the file before it, or 0. `may_wait` says whether more of the file may be read before its first frame
    /// is known: not from a pipe that is being written. Fails where the source does, when memory is refused, and where
    /// the file is no capture.
    pub fn open<S: RoomSource>(
        alloc: Global,
        window: &mut Window,
        source: &mut S,
        may_wait: bool,
        number: u64,
    ) -> Result<CaptureFile, Refusal>
        ensures opened { IfOk result (λ file. (header : List ℕ) × IsOpened number header file
            × Advances window.old (S.left source.old) window.new (S.left source.new) header) }
        ensures records { IfOk result (λ file. (octets : List ℕ) → still window.old.ahead (S.left source.old) ≡ Some octets
            → records_left file (still window.new.ahead (S.left source.new)) ≡ records_of may_wait number octets) }
    {
        window.fill(source, HEAD)?;
        if is_pcapng(window.ahead())? {
            return Ok(CaptureFile::Pcapng(Pcapng::new(alloc, number)));
        }
        Ok(CaptureFile::Pcap(open_pcap(window, source, may_wait, number)?))
    }

    /// Consumes the next record or block, or the next octets of a search after a damage, and returns what they give;
    /// `None` at the end of the file. The octets are those that the window consumed last. Fails where the source fails,
    /// and when memory is refused; nothing is consumed then.
    #[inline(always)]
    pub fn next<S: RoomSource>(
        &mut self,
        window: &mut Window,
        source: &mut S,
    ) -> Result<Option<Entry>, Fault>
        ensures passes { OnOk result (Advances window.old (S.left source.old) window.new (S.left source.new) window.new.last) }
        ensures refused { OnErr result (Advances window.old (S.left source.old) window.new (S.left source.new) []) }
        ensures end { IfOk result (λ entry. IfNone entry
            (IsAtEnd (still window.old.ahead (S.left source.old)) (S.left source.new))) }
        ensures step { IfOk result (λ entry. IsStep self.old self.new window.new entry) }
        ensures follows { IfOk result (λ entry. Follows (records_left self.old (still window.old.ahead (S.left source.old)))
            (records_left self.new (still window.new.ahead (S.left source.new))) (record_in window.new.last entry)) }
        ensures kept { OnErr result ((octets : Option (List ℕ)) → records_left self.new octets ≡ records_left self.old octets) }
    {
        match self {
            CaptureFile::Pcap(pcap) => pcap.next(window, source),
            CaptureFile::Pcapng(pcapng) => pcapng.next(window, source),
        }
    }

    /// Returns the number of the last frame.
    pub fn number(&self) -> u64
        ensures number { result ≡ number_of self.now }
    {
        match self {
            CaptureFile::Pcap(pcap) => pcap.number,
            CaptureFile::Pcapng(pcapng) => pcapng.number,
        }
    }
}
