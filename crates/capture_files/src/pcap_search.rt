//! Where records go on after a damage of a pcap file.

ghost use Rattle.std.specs.Prelude.{◌≡◌, ◌+◌, ◌<◌, ◌≤◌, IfSome, None, length};
ghost use Rattle.capture_files.specs.PcapRecords.{header_size};
ghost use Rattle.capture_files.specs.PcapSearch.{is_followed, kept_at};

use crate::numbers::read_four;
use crate::pcap::PcapForm;

/// How many octets are searched at once.
pub(crate) const SEARCHED: usize = 1 << 20;

/// How many zeros may begin a header that keeps octets.
const PASSED: usize = 11;

/// How far the times of two records that follow each other may be apart, in seconds.
const DAYS: u32 = 30 * 86_400;

impl PcapForm {
    /// Returns how many octets the record at a place keeps, or `None` where none can begin there. A record keeps
    /// octets, at most as many as there were, the part of a second is one, and the time is within 30 days of `last`.
    fn plausible(&self, octets: &[u8], at: usize, last: Option<u32>) -> Option<u32>
        ensures within { IfSome result (λ kept. at + header_size self.now.header ≤ length octets.now) }
        ensures kept { last ≡ None → result ≡ kept_at self.now octets.now at }
    {
        let size = self.header.size();
        if octets.len() < size || octets.len() - size < at {
            return None;
        }
        let seconds = read_four(self.is_big, octets, at);
        if last.is_some_and(|last| DAYS < seconds.abs_diff(last)) {
            return None;
        }
        let share = read_four(self.is_big, octets, at + 4);
        let kept = read_four(self.is_big, octets, at + 8);
        let length = read_four(self.is_big, octets, at + 12);
        let parts = if self.is_nano {
            1_000_000_000
        } else {
            1_000_000
        };
        let is_one = 0 < kept && kept <= length && length <= self.largest && share < parts;
        if is_one { Some(kept) } else { None }
    }

    /// Returns whether a record is at a place, and after it another one, or the end of the file where these octets
    /// reach to it.
    pub(crate) fn is_record(
        &self,
        octets: &[u8],
        at: usize,
        last: Option<u32>,
        is_end: bool,
    ) -> bool
        ensures { last ≡ None → result ≡ is_followed self.now octets.now at is_end }
    {
        let Some(kept) = self.plausible(octets, at, last) else {
            return false;
        };
        let after = at + self.header.size() + kept as usize;
        is_end && after == octets.len() || self.plausible(octets, after, last).is_some()
    }

    /// Returns the first place from `from` on where a record is. It looks at no place whose header would be zeros up to the
    /// end of the number of octets: after a power cut the rest of a file may be zeros.
    pub(crate) fn next_record(
        &self,
        octets: &[u8],
        from: usize,
        last: Option<u32>,
        is_end: bool,
    ) -> Option<usize>
        ensures within { IfSome result (λ at. at < length octets.now) }
    {
        let mut at = from;
        while at < octets.len() {
            if self.is_record(octets, at, last, is_end) {
                return Some(at);
            }
            let zeros = octets[at..].iter().position(|octet| *octet != 0);
            at = at.saturating_add(zeros.unwrap_or(SEARCHED).saturating_sub(PASSED).max(1));
        }
        None
    }
}
