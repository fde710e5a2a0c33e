//! The reader of a pcap file after its header.

ghost use Rattle.std.specs.Prelude.{◌≡◌, ◌+◌, ◌≤◌, ◌<◌, [], ◌++◌, ℕ, List, IfNone, IfOk, IfSome, IsSome, None, OnErr, OnOk, Some, length};
ghost use Rattle.capture_files.specs.Entries.{frame_at};
ghost use Rattle.capture_files.specs.Numbers.{next_number};
ghost use Rattle.capture_files.specs.PcapFiles.{pcap_left};
ghost use Rattle.capture_files.specs.PcapRecords.{Begins, header_size, kept, pcap_frame};
ghost use Rattle.capture_files.specs.PcapSteps.{IsPcapEntry, IsPcapStep, IsStart};
ghost use Rattle.capture_files.specs.declared.pcap_reader.RecordStart.TheVariants.{Record};
ghost use Rattle.capture_files.specs.Records.{Follows, record_in};
ghost use Rattle.capture_files.specs.Windows.{Advances, IsAtEnd, still};

use crate::entry::{Dropped, Entry};
use crate::numbers::read_four;
use crate::pcap::PcapForm;
use crate::pcap_search::SEARCHED;
use crate::window::Window;
use capture_model::reason::{FileDamage, FileFault};
use line_model::fault::Fault;
use streams::room_source::RoomSource;

/// A search for the next record after a damage.
#[derive(Clone, Copy)]
pub struct Search {
    /// How many octets the damaged record says.
    pub kept: u32,
    /// Where it begins in the file.
    pub start: u64,
    /// How many octets were passed over so far.
    pub passed: u64,
}

/// The records of a pcap file, up to where it was read.
#[derive(Clone, Copy)]
pub struct Pcap {
    /// What the records have in common.
    pub form: PcapForm,
    /// The number of the last frame; at first that of the file before it, or 0.
    pub number: u64,
    /// How many octets of the file were consumed.
    pub offset: u64,
    /// The seconds of the last record.
    pub seconds: Option<u32>,
    /// Whether the next record is sought.
    pub search: Option<Search>,
}

/// What begins at the front of a file.
#[derive(Clone, Copy)]
enum RecordStart {
    /// Nothing: the file ends.
    End,
    /// The header of a record, cut by the end of the file.
    HeaderCut(u32),
    /// A record that cannot be, which says so many octets: more than one may have, or of a frame without octets.
    Impossible(u32),
    /// A record of this size with its header, which may be cut by the end of the file.
    Record(usize),
}

impl PcapForm {
    /// Returns what begins at the front of a file, of which these are the first octets: the header of a record at
    /// least, or all.
    #[inline(always)]
    fn start(&self, octets: &[u8]) -> RecordStart
        ensures { IsStart self.now octets.now result }
    {
        let there = octets.len();
        let size = self.header.size();
        if there == 0 {
            return RecordStart::End;
        }
        if there < size {
            return RecordStart::HeaderCut(there as u32);
        }
        let kept = read_four(self.is_big, octets, 8);
        if self.largest < kept || read_four(self.is_big, octets, 12) == 0 {
            return RecordStart::Impossible(kept);
        }
        RecordStart::Record(size + kept as usize)
    }
}

impl Pcap {
    /// Returns the damage that begins at an offset.
    fn damage(&self, offset: u64, fault: FileFault) -> Option<FileDamage>
        ensures { IsSome result }
    {
        Some(FileDamage { offset, fault })
    }

    /// Returns the entry of a record, whose octets were consumed last: all of its `size`, or those up to the end of the
    /// file.
    #[inline(always)]
    fn record(&mut self, octets: &[u8], size: usize) -> Entry
        requires { header_size self.old.form.header ≤ length octets.now }
        ensures some { IsSome result.frame }
        ensures frame { IfSome result.frame (λ head. (head.from + head.kept ≤ length octets.now)
            × (frame_at head octets.now ≡ pcap_frame self.old.form (next_number self.old.number) octets.now)) }
        ensures whole { result.damage ≡ None → size ≤ length octets.now }
        ensures cut { IsSome result.damage → length octets.now < size }
        ensures dropped { result.dropped ≡ None }
        ensures number { self.new.number ≡ next_number self.old.number }
        ensures form { self.new.form ≡ self.old.form }
        ensures search { self.new.search ≡ self.old.search }
    {
        self.number = self.number.saturating_add(1);
        let head = self.form.head(self.number, octets);
        let mut damage = None;
        if octets.len() < size {
            let fault = FileFault::RecordCut {
                frame: self.number,
                octets: head.kept as u32,
                kept: read_four(self.form.is_big, octets, 8),
            };
            damage = self.damage(self.offset, fault);
        }
        self.offset = self.offset.saturating_add(octets.len() as u64);
        self.seconds = Some(read_four(self.form.is_big, octets, 0));
        Entry {
            frame: Some(head),
            damage,
            frame_damage: None,
            dropped: None,
            other_block: None,
        }
    }

    /// Consumes the record at the front, of `size` octets with its header, or what there is of it.
    #[inline(always)]
    fn take_record<S: RoomSource>(
        &mut self,
        window: &mut Window,
        source: &mut S,
        size: usize,
    ) -> Result<Entry, Fault>
        requires begins { Begins self.old.form window.old.ahead }
        requires size { size ≡ header_size self.old.form.header + kept self.old.form window.old.ahead }
        requires free { self.old.search ≡ None }
        ensures passes { OnOk result (Advances window.old (S.left source.old) window.new (S.left source.new) window.new.last) }
        ensures refused { OnErr result (Advances window.old (S.left source.old) window.new (S.left source.new) []) }
        ensures entry { IfOk result (λ entry. IsPcapEntry self.old window.new.last window.new.ahead entry) }
        ensures follows { IfOk result (λ entry. Follows (pcap_left self.old (still window.old.ahead (S.left source.old)))
            (pcap_left self.new (still window.new.ahead (S.left source.new))) (record_in window.new.last (Some entry))) }
        ensures kept { OnErr result (self.new ≡ self.old) }
    {
        window.fill(source, size)?;
        window.take(size.min(window.len()));
        Ok(self.record(window.last(), size))
    }

    /// Consumes the next octets of a search, and ends it where records go on, or where the file ends.
    #[cold]
    #[inline(never)]
    fn search_on<S: RoomSource>(
        &mut self,
        window: &mut Window,
        source: &mut S,
        mut search: Search,
    ) -> Result<Entry, Fault>
        ensures passes { OnOk result (Advances window.old (S.left source.old) window.new (S.left source.new) window.new.last) }
        ensures refused { OnErr result (Advances window.old (S.left source.old) window.new (S.left source.new) []) }
        ensures frame { IfOk result (λ entry. entry.frame ≡ None) }
        ensures front { OnOk result ((more : List ℕ) × (window.new.last ++ window.new.ahead ≡ window.old.ahead ++ more)) }
        ensures kept { OnErr result (self.new ≡ self.old) }
    {
        window.fill(source, SEARCHED)?;
        let there = window.len().min(SEARCHED);
        let is_end = there < SEARCHED;
        let from = if search.passed == 0 { 1 } else { 0 };
        let octets = &window.ahead()[..there];
        let found = self.form.next_record(octets, from, self.seconds, is_end);
        let passed = match found {
            Some(at) => at,
            None if is_end => there,
            None => SEARCHED / 2,
        };
        window.take(passed);
        search.passed = search.passed.saturating_add(passed as u64);
        self.offset = self.offset.saturating_add(passed as u64);
        if found.is_none() && !is_end {
            self.search = Some(search);
            return Ok(Entry::NOTHING);
        }
        self.search = None;
        Ok(self.searched(search))
    }

    /// Returns the entry at the end of a search.
    fn searched(&self, search: Search) -> Entry
        ensures { result.frame ≡ None }
    {
        let fault = FileFault::RecordLong {
            kept: search.kept,
            passed: search.passed,
        };
        Entry {
            damage: self.damage(search.start, fault),
            dropped: Some(Dropped {
                count: 0,
                number: self.number.saturating_add(1),
                time: None,
                interface: 0,
            }),
            ..Entry::NOTHING
        }
    }

    /// Returns the entry of the first octets of a header, with which the file ends.
    #[cold]
    #[inline(never)]
    fn header_cut(&mut self, octets: u32) -> Entry
        ensures { result.frame ≡ None }
    {
        let damage = self.damage(self.offset, FileFault::HeaderCut { octets });
        self.offset = self.offset.saturating_add(u64::from(octets));
        Entry {
            damage,
            ..Entry::NOTHING
        }
    }

    /// Returns the size of the next record with its header, where these octets have its header and no record is sought.
    #[inline(always)]
    fn size_ahead(&self, octets: &[u8]) -> Option<usize>
        ensures free { IsSome result → self.now.search ≡ None }
        ensures begins { IfSome result (λ size. IsStart self.now.form octets.now (Record size)) }
    {
        if self.search.is_some() {
            return None;
        }
        match self.form.start(octets) {
            RecordStart::Record(size) => Some(size),
            _ => None,
        }
    }

    /// Consumes the next record, or the next octets of a search for one, and returns what they give; `None` at the end
    /// of the file. Fails where the source fails, and when memory is refused; nothing is consumed then.
    #[inline(always)]
    pub fn next<S: RoomSource>(
        &mut self,
        window: &mut Window,
        source: &mut S,
    ) -> Result<Option<Entry>, Fault>
        ensures passes { OnOk result (Advances window.old (S.left source.old) window.new (S.left source.new) window.new.last) }
        ensures refused { OnErr result (Advances window.old (S.left source.old) window.new (S.left source.new) []) }
        ensures end { IfOk result (λ entry. IfNone entry
            (IsAtEnd (still window.old.ahead (S.left source.old)) (S.left source.new))) }
        ensures step { IfOk result (λ entry. IsPcapStep self.old window.new entry) }
        ensures follows { IfOk result (λ entry. Follows (pcap_left self.old (still window.old.ahead (S.left source.old)))
            (pcap_left self.new (still window.new.ahead (S.left source.new))) (record_in window.new.last entry)) }
        ensures kept { OnErr result (self.new ≡ self.old) }
    {
        match self.size_ahead(window.ahead()) {
            Some(size) => Ok(Some(self.take_record(window, source, size)?)),
            None => self.read_on(window, source),
        }
    }

    /// Does the same where the window has not the header of a record ahead, or a record is sought. It is not inlined: what
    /// it owns is large, and few records need it.
    #[cold]
    #[inline(never)]
    fn read_on<S: RoomSource>(
        &mut self,
        window: &mut Window,
        source: &mut S,
    ) -> Result<Option<Entry>, Fault>
        ensures passes { OnOk result (Advances window.old (S.left source.old) window.new (S.left source.new) window.new.last) }
        ensures refused { OnErr result (Advances window.old (S.left source.old) window.new (S.left source.new) []) }
        ensures end { IfOk result (λ entry. IfNone entry
            (IsAtEnd (still window.old.ahead (S.left source.old)) (S.left source.new))) }
        ensures step { IfOk result (λ entry. IsPcapStep self.old window.new entry) }
        ensures follows { IfOk result (λ entry. Follows (pcap_left self.old (still window.old.ahead (S.left source.old)))
            (pcap_left self.new (still window.new.ahead (S.left source.new))) (record_in window.new.last entry)) }
        ensures kept { OnErr result (self.new ≡ self.old) }
    {
        if let Some(search) = self.search {
            return Ok(Some(self.search_on(window, source, search)?));
        }
        window.fill(source, self.form.header.size())?;
        match self.form.start(window.ahead()) {
            RecordStart::End => {
                window.take(0);
                Ok(None)
            }
            RecordStart::HeaderCut(octets) => {
                window.take(window.len());
                Ok(Some(self.header_cut(octets)))
            }
            RecordStart::Impossible(kept) => {
                let search = Search {
                    kept,
                    start: self.offset,
                    passed: 0,
                };
                Ok(Some(self.search_on(window, source, search)?))
            }
            RecordStart::Record(size) => Ok(Some(self.take_record(window, source, size)?)),
        }
    }
}
