//! The reader of a pcapng file.

ghost use Rattle.std.specs.Prelude.{◌≡◌, ◌+◌, ◌-◌, ◌<◌, ◌≤◌, [], ◌++◌, ℕ, List, IfNone, IfOk, IfSome, IsSome, None, OnErr, OnOk, Some, drop, false, length, slice_get, true};
ghost use Rattle.capture_files.specs.BlockFrames.{body_of};
ghost use Rattle.capture_files.specs.Blocks.{BeginsBlock, IsWholeBlock, block_length};
ghost use Rattle.capture_files.specs.BlockSteps.{IsBlockEntry, IsBlockStep, IsDescribed, IsFrameOf, IsOneMore, first_snap};
ghost use Rattle.capture_files.specs.Entries.{frame_at};
ghost use Rattle.capture_files.specs.Numbers as numbers;
ghost use Rattle.capture_files.specs.Numbers.{number};
ghost use Rattle.capture_files.specs.PcapngFiles.{IsUnchanged, Reads, pcapng_left, section_of};
ghost use Rattle.capture_files.specs.PcapngRecords.{begun, content_read, frame_read, interface_read, missing, no_section, other_read, placed_drops, statistics_read, whole_read};
ghost use Rattle.capture_files.specs.Records.{Follows, record_in};
ghost use Rattle.capture_files.specs.Windows.{Advances, IsAtEnd, still};

use crate::block::{
    BlockStart, ENHANCED, HEAD, INTERFACE, PACKET, SECTION, SIMPLE, STATISTICS, block_start,
    is_numbered, next_block, order_at,
};
use crate::entry::{Dropped, Entry, FrameHead};
use crate::interface::Interface;
use crate::numbers::{next_number, read_four, read_two};
use crate::options::{count_of, frame_options, last_option};
use crate::packet_block::{Placed, placed_in};
use crate::pcap_search::SEARCHED;
use crate::window::Window;
use capture_model::reason::{FileDamage, FileFault};
use line_model::fault::Fault;
use std::alloc::Global;
use streams::room_source::RoomSource;

/// How many interfaces a section describes at most (profile).
const MOST_INTERFACES: usize = 1 << 16;

/// A search for the next block after a damage.
#[derive(Clone, Copy)]
pub struct BlockSearch {
    /// The type of the damaged block.
    pub kind: u32,
    /// Its length.
    pub length: u32,
    /// Where it begins in the file.
    pub start: u64,
    /// How many octets were passed over so far.
    pub passed: u64,
}

/// The blocks of a pcapng file, up to where it was read.
#[derive(Drop)]
pub struct Pcapng {
    /// Whether the first octet of a number is its highest, in the section that was begun last.
    pub is_big: bool,
    /// The interfaces of that section.
    pub interfaces: Vec<Interface>,
    /// How many frames of each were dropped up to its last statistics.
    pub dropped: Vec<u64>,
    /// The number of the section's first interface.
    pub first_interface: u32,
    /// The number of the last frame; at first that of the file before it, or 0.
    pub number: u64,
    /// How many octets of the file were consumed.
    pub offset: u64,
    /// Whether the file is damaged after the last frame.
    pub is_damaged: bool,
    /// Whether the next block is sought.
    pub search: Option<BlockSearch>,
}

impl Pcapng {
    /// Returns a reader at the beginning of a file. Frames are counted on from a number.
    pub fn new(alloc: Global, number: u64) -> Self
        ensures none { result.interfaces.items ≡ [] }
        ensures number { result.number ≡ number }
        ensures section { section_of result ≡ no_section number }
        ensures sound { result.is_damaged ≡ false }
        ensures free { result.search ≡ None }
    {
        Pcapng {
            is_big: false,
            interfaces: Vec::new(alloc),
            dropped: Vec::new(alloc),
            first_interface: 0,
            number,
            offset: 0,
            is_damaged: false,
            search: None,
        }
    }

    /// Notes a damage that begins at an offset.
    fn damage(&mut self, offset: u64, fault: FileFault) -> Option<FileDamage>
        ensures some { IsSome result }
        ensures same { self.new ≡ record self.old { is_damaged = true } }
    {
        self.is_damaged = true;
        Some(FileDamage { offset, fault })
    }

    /// Returns what is wrong with a block by its octets, which may be cut by the end of the file.
    fn block_damage(&self, octets: &[u8], said: u32) -> Option<FileDamage>
        requires { 12 ≤ said }
        ensures { length octets.now ≡ said → number self.now.is_big (drop (said - 4) octets.now) ≡ said → result ≡ None }
    {
        let size = said as usize;
        let fault = if octets.len() < size {
            FileFault::BlockCut {
                octets: octets.len() as u32,
                length: said,
            }
        } else {
            let second = read_four(self.is_big, octets, size - 4);
            if second == said {
                return None;
            }
            FileFault::LengthsDiffer {
                first: said,
                second,
            }
        };
        Some(FileDamage {
            offset: self.offset,
            fault,
        })
    }

    /// Adds the interface that a block describes. A section has at most 65,536. Fails when memory is refused; nothing
    /// has changed then.
    fn describe(&mut self, body: &[u8]) -> Result<Entry, Fault>
        ensures frame { IfOk result (λ entry. entry.frame ≡ None) }
        ensures described { OnOk result (IsOneMore self.old.is_big body.now self.old.interfaces.items self.new.interfaces.items) }
        ensures reads { IfOk result (Reads (interface_read (section_of self.old) body.now) self.old self.new body.now) }
        ensures kept { OnErr result (IsUnchanged self.old self.new) }
    {
        if body.len() < 16 {
            return Ok(Entry {
                other_block: Some(INTERFACE),
                ..Entry::NOTHING
            });
        }
        if self.interfaces.len() == MOST_INTERFACES {
            let damage = self.damage(self.offset, FileFault::InterfacesMany);
            return Ok(Entry {
                frame_damage: damage,
                ..Entry::NOTHING
            });
        }
        self.dropped.reserve(1)?;
        self.interfaces
            .push(Interface::described(self.is_big, body))?;
        self.dropped.push(0)?;
        Ok(Entry::NOTHING)
    }

    /// Begins a section, which has no interfaces yet.
    fn begin_section(&mut self) -> Entry
        ensures frame { result.frame ≡ None }
        ensures dropped { result.dropped ≡ None }
        ensures none { self.new.interfaces.items ≡ [] }
        ensures section { section_of self.new ≡ begun (section_of self.old) }
        ensures damaged { self.new.is_damaged ≡ self.old.is_damaged }
        ensures search { self.new.search ≡ self.old.search }
    {
        let count = u32::try_from(self.interfaces.len()).unwrap_or(u32::MAX);
        self.first_interface = self.first_interface.saturating_add(count);
        self.interfaces.clear();
        self.dropped.clear();
        Entry::NOTHING
    }

    /// Returns the frames that were dropped since the last statistics of an interface, by it or by the system.
    fn statistics(&mut self, body: &[u8]) -> Option<Dropped>
        ensures after { section_of self.new ≡ (statistics_read (section_of self.old) body.now).after }
        ensures dropped { result ≡ (statistics_read (section_of self.old) body.now).gives.dropped }
        ensures interfaces { self.new.interfaces.items ≡ self.old.interfaces.items }
        ensures damaged { self.new.is_damaged ≡ self.old.is_damaged }
        ensures search { self.new.search ≡ self.old.search }
    {
        if body.len() < 20 {
            return None;
        }
        let which = read_four(self.is_big, body, 8);
        let interface = self.interfaces.get(which as usize)?;
        let high = u64::from(read_four(self.is_big, body, 12));
        let low = u64::from(read_four(self.is_big, body, 16));
        let time = interface.time(high * 0x1_0000_0000 + low);
        let by_interface = count_of(self.is_big, last_option(self.is_big, body, 20, 5));
        let by_system = count_of(self.is_big, last_option(self.is_big, body, 20, 7));
        let all = by_interface.saturating_add(by_system);
        let before = self.dropped.get_mut(which as usize)?;
        let count = all.saturating_sub(*before);
        *before = all;
        missing(Dropped {
            count,
            number: self.number,
            time: Some(time),
            interface: self.first_interface.saturating_add(which),
        })
    }

    /// Returns the entry of a block that holds no frame. Some are numbered as if they did.
    fn other_block(&mut self, kind: u32, body: &[u8]) -> Entry
        ensures frame { result.frame ≡ None }
        ensures interfaces { self.new.interfaces.items ≡ self.old.interfaces.items }
        ensures reads { Reads (Some (other_read (section_of self.old) kind body.now)) self.old self.new body.now result }
    {
        if is_numbered(kind) {
            self.number = next_number(self.number);
        }
        let dropped = if kind == STATISTICS {
            self.statistics(body)
        } else {
            None
        };
        Entry {
            dropped,
            other_block: Some(kind),
            ..Entry::NOTHING
        }
    }

    /// Notes a damage of the next frame, and returns its entry.
    fn no_frame(&mut self, fault: FileFault) -> Entry
        ensures frame { result.frame ≡ None }
        ensures interfaces { self.new.interfaces.items ≡ self.old.interfaces.items }
    {
        Entry {
            frame_damage: self.damage(self.offset, fault),
            ..Entry::NOTHING
        }
    }

    /// Notes that a block has fewer octets of its frame than it says.
    fn frame_damage(&mut self, placed: &Placed, body: &[u8]) -> Option<FileDamage>
        requires { placed.now.from ≤ length body.now }
        ensures same { self.new ≡ record self.old { is_damaged = self.new.is_damaged } }
        ensures sound { placed.now.kept ≤ length body.now - placed.now.from → self.new.is_damaged ≡ self.old.is_damaged }
    {
        let there = placed.there(body);
        if there == placed.kept {
            return None;
        }
        let fault = FileFault::FrameCut {
            frame: self.number,
            octets: there,
            kept: placed.kept,
        };
        self.damage(self.offset, fault)
    }

    /// Returns the most octets that a simple block keeps of a frame; 0 for all.
    fn first_snap(&self) -> u32
        ensures { result ≡ first_snap self.now.interfaces.items }
    {
        match self.interfaces.get(0) {
            Some(first) => first.snap,
            None => 0,
        }
    }

    /// Returns the interface with this number in the section.
    fn interface(&self, which: u32) -> Option<Interface>
        ensures { result ≡ slice_get self.now.interfaces.items which }
    {
        self.interfaces.get(which as usize).copied()
    }

    /// Returns the frames that were dropped before a frame: this number, or an unknown one where the file is damaged
    /// before it.
    fn dropped_before(&mut self, count: u64, head: &FrameHead) -> Option<Dropped>
        ensures same { self.new ≡ record self.old { is_damaged = false } }
        ensures dropped { self.old.is_damaged ≡ false → result ≡ missing
            (record { count = count; number = head.now.number; time = head.now.time; interface = head.now.interface }) }
    {
        let is_damaged = self.is_damaged;
        self.is_damaged = false;
        if count == 0 && !is_damaged {
            return None;
        }
        Some(Dropped {
            count,
            number: head.number,
            time: head.time,
            interface: head.interface,
        })
    }

    /// Returns the entry of a block that holds a frame.
    fn framed(&mut self, kind: u32, body: &[u8]) -> Entry
        requires { 8 ≤ length body.now }
        ensures frame { IfSome result.frame (λ head. (head.from + head.kept ≤ length body.now)
            × IsFrameOf self.old.is_big kind self.old.interfaces.items self.old.first_interface
            (numbers.next_number self.old.number) body.now (frame_at head body.now)) }
        ensures interfaces { self.new.interfaces.items ≡ self.old.interfaces.items }
        ensures reads { Reads (frame_read (section_of self.old) kind body.now) self.old self.new body.now result }
    {
        self.number = next_number(self.number);
        let frame = self.number;
        let Some(placed) = placed_in(self.is_big, kind, self.first_snap(), body) else {
            return self.no_frame(FileFault::BlockShort { frame });
        };
        let Some(interface) = self.interface(placed.which) else {
            let interface = placed.which;
            return self.no_frame(FileFault::InterfaceUnknown { frame, interface });
        };
        let options = frame_options(self.is_big, body, placed.options());
        let head = placed.head(
            &interface,
            self.first_interface,
            frame,
            body,
            options.direction,
        );
        let count = placed_drops(self.is_big, kind, body, options.dropped);
        let frame_damage = self.frame_damage(&placed, body);
        Entry {
            frame: Some(head),
            frame_damage,
            dropped: self.dropped_before(count, &head),
            ..Entry::NOTHING
        }
    }

    /// Returns the entry of a block by its type and its body. Fails when memory is refused.
    fn content(&mut self, kind: u32, body: &[u8]) -> Result<Entry, Fault>
        requires { 8 ≤ length body.now }
        ensures frame { IfOk result (λ entry. IfSome entry.frame (λ head. (head.from + head.kept ≤ length body.now)
            × IsFrameOf self.old.is_big kind self.old.interfaces.items self.old.first_interface
            (numbers.next_number self.old.number) body.now (frame_at head body.now))) }
        ensures described { OnOk result (IsDescribed self.old.is_big kind body.now self.old.interfaces.items
            self.new.interfaces.items) }
        ensures reads { IfOk result (Reads (content_read (section_of self.old) kind body.now) self.old self.new body.now) }
        ensures kept { OnErr result (IsUnchanged self.old self.new) }
    {
        match kind {
            SECTION => Ok(self.begin_section()),
            INTERFACE => self.describe(body),
            PACKET | SIMPLE | ENHANCED => Ok(self.framed(kind, body)),
            _ => Ok(self.other_block(kind, body)),
        }
    }

    /// Returns the entry of a block by its octets, which may be cut by the end of the file, its byte order and the
    /// length that it says. Fails when memory is refused; nothing has changed then.
    fn block(&mut self, octets: &[u8], is_big: bool, said: u32) -> Result<Entry, Fault>
        requires head { 12 ≤ length octets.now }
        requires least { 12 ≤ said }
        requires said { said ≡ block_length is_big octets.now }
        ensures frame { IfOk result (λ entry. IfSome entry.frame (λ head. (head.from + head.kept ≤ length octets.now)
            × IsFrameOf is_big (number is_big octets.now) self.old.interfaces.items
            self.old.first_interface (numbers.next_number self.old.number) (body_of is_big octets.now)
            (frame_at head octets.now))) }
        ensures described { OnOk result (IsDescribed is_big (number is_big octets.now)
            (body_of is_big octets.now) self.old.interfaces.items self.new.interfaces.items) }
        ensures reads { IfOk result (λ entry. IsWholeBlock is_big octets.now
            → Reads (whole_read (record (section_of self.old) { is_big = is_big }) octets.now) self.old self.new octets.now
            entry) }
        ensures kept { OnErr result (IsUnchanged self.old self.new) }
    {
        let was_big = self.is_big;
        let was_damaged = self.is_damaged;
        self.is_big = is_big;
        let damage = self.block_damage(octets, said);
        self.is_damaged = was_damaged | damage.is_some();
        let kind = read_four(self.is_big, octets, 0);
        let body = &octets[..octets.len().min(said as usize - 4)];
        match self.content(kind, body) {
            Ok(entry) => {
                self.offset = self.offset.saturating_add(octets.len() as u64);
                Ok(Entry { damage, ..entry })
            }
            Err(fault) => {
                self.is_big = was_big;
                self.is_damaged = was_damaged;
                Err(fault)
            }
        }
    }

    /// Consumes the block at the front, which has this byte order and says this length, or what there is of it.
    fn take_block<S: RoomSource>(
        &mut self,
        window: &mut Window,
        source: &mut S,
        is_big: bool,
        said: u32,
    ) -> Result<Entry, Fault>
        requires begins { BeginsBlock is_big window.old.ahead }
        requires said { said ≡ block_length is_big window.old.ahead }
        ensures passes { OnOk result (Advances window.old (S.left source.old) window.new (S.left source.new) window.new.last) }
        ensures refused { OnErr result (Advances window.old (S.left source.old) window.new (S.left source.new) []) }
        ensures entry { IfOk result (λ entry. IsBlockEntry is_big self.old.interfaces.items self.new.interfaces.items
            self.old.first_interface self.old.number window.new.last window.new.ahead entry) }
        ensures front { OnOk result ((more : List ℕ) × (window.new.last ++ window.new.ahead ≡ window.old.ahead ++ more)) }
        ensures reads { IfOk result (λ entry. IsWholeBlock is_big window.new.last
            → Reads (whole_read (record (section_of self.old) { is_big = is_big }) window.new.last) self.old self.new
            window.new.last entry) }
        ensures cut { OnOk result (length window.new.last < block_length is_big window.new.last
            → IsAtEnd (still window.old.ahead (S.left source.old)) (S.left source.new)) }
        ensures kept { OnErr result (IsUnchanged self.old self.new) }
    {
        window.fill(source, said as usize)?;
        let taken = window.len().min(said as usize);
        let entry = self.block(&window.ahead()[..taken], is_big, said)?;
        window.take(taken);
        Ok(entry)
    }

    /// Consumes the next octets of a search, after this byte order, and ends it where a block is, or where the file ends.
    fn search_on<S: RoomSource>(
        &mut self,
        window: &mut Window,
        source: &mut S,
        is_big: bool,
        mut search: BlockSearch,
    ) -> Result<Entry, Fault>
        ensures passes { OnOk result (Advances window.old (S.left source.old) window.new (S.left source.new) window.new.last) }
        ensures refused { OnErr result (Advances window.old (S.left source.old) window.new (S.left source.new) []) }
        ensures frame { IfOk result (λ entry. entry.frame ≡ None) }
        ensures interfaces { self.new.interfaces.items ≡ self.old.interfaces.items }
        ensures front { OnOk result ((more : List ℕ) × (window.new.last ++ window.new.ahead ≡ window.old.ahead ++ more)) }
        ensures kept { OnErr result (IsUnchanged self.old self.new) }
    {
        window.fill(source, SEARCHED)?;
        self.is_big = is_big;
        let there = window.len().min(SEARCHED);
        let is_end = there < SEARCHED;
        let from = if search.passed == 0 { 4 } else { 0 };
        let found = next_block(is_big, &window.ahead()[..there], from);
        let passed = match found {
            Some(at) => at,
            None if is_end => there,
            None => SEARCHED / 2,
        };
        window.take(passed);
        search.passed = search.passed.saturating_add(passed as u64);
        self.offset = self.offset.saturating_add(passed as u64);
        if found.is_none() && !is_end {
            self.search = Some(search);
            return Ok(Entry::NOTHING);
        }
        self.search = None;
        Ok(self.searched(search))
    }

    /// Returns the entry at the end of a search.
    fn searched(&mut self, search: BlockSearch) -> Entry
        ensures frame { result.frame ≡ None }
        ensures interfaces { self.new.interfaces.items ≡ self.old.interfaces.items }
    {
        let fault = FileFault::BlockLength {
            kind: search.kind,
            length: search.length,
            passed: search.passed,
        };
        Entry {
            damage: self.damage(search.start, fault),
            ..Entry::NOTHING
        }
    }

    /// Returns the entry of the first octets of a block's head, with which the file ends.
    fn head_cut(&mut self, octets: u32) -> Entry
        ensures frame { result.frame ≡ None }
        ensures interfaces { self.new.interfaces.items ≡ self.old.interfaces.items }
    {
        let damage = self.damage(self.offset, FileFault::HeaderCut { octets });
        self.offset = self.offset.saturating_add(u64::from(octets));
        Entry {
            damage,
            ..Entry::NOTHING
        }
    }

    /// Consumes the next block, or the next octets of a search for one, and returns what they give; `None` at the end of
    /// the file. Fails where the source fails, and when memory is refused; nothing is consumed then.
    #[inline(never)]
    pub fn next<S: RoomSource>(
        &mut self,
        window: &mut Window,
        source: &mut S,
    ) -> Result<Option<Entry>, Fault>
        ensures passes { OnOk result (Advances window.old (S.left source.old) window.new (S.left source.new) window.new.last) }
        ensures refused { OnErr result (Advances window.old (S.left source.old) window.new (S.left source.new) []) }
        ensures end { IfOk result (λ entry. IfNone entry
            (IsAtEnd (still window.old.ahead (S.left source.old)) (S.left source.new))) }
        ensures step { IfOk result (λ entry. IsBlockStep self.old self.new window.new entry) }
        ensures follows { IfOk result (λ entry. Follows (pcapng_left self.old (still window.old.ahead (S.left source.old)))
            (pcapng_left self.new (still window.new.ahead (S.left source.new))) (record_in window.new.last entry)) }
        ensures kept { OnErr result (IsUnchanged self.old self.new) }
    {
        if let Some(search) = self.search {
            return Ok(Some(self.search_on(window, source, self.is_big, search)?));
        }
        window.fill(source, HEAD)?;
        let is_big = order_at(window.ahead(), self.is_big);
        match block_start(is_big, window.ahead()) {
            BlockStart::End => {
                window.take(0);
                Ok(None)
            }
            BlockStart::HeadCut(octets) => {
                window.take(window.len());
                Ok(Some(self.head_cut(octets)))
            }
            BlockStart::Unusable(length) => {
                let search = BlockSearch {
                    kind: read_four(is_big, window.ahead(), 0),
                    length,
                    start: self.offset,
                    passed: 0,
                };
                Ok(Some(self.search_on(window, source, is_big, search)?))
            }
            BlockStart::Block(length) => {
                Ok(Some(self.take_block(window, source, is_big, length)?))
            }
        }
    }
}

/// Returns frames that are missing, if there are some.
fn missing(dropped: Dropped) -> Option<Dropped>
    ensures { result ≡ missing dropped }
{
    if dropped.count == 0 {
        return None;
    }
    Some(dropped)
}

/// Returns how many frames a block says were dropped before its frame: an obsolete one in a field, in which 65,535 means
/// an unknown number, and an enhanced one in its options.
fn placed_drops(is_big: bool, kind: u32, body: &[u8], by_options: u64) -> u64
    requires { 12 ≤ length body.now }
    ensures { result ≡ placed_drops is_big kind body.now by_options }
{
    match kind {
        PACKET => match read_two(is_big, body, 10) {
            0xFFFF => 0,
            count => u64::from(count),
        },
        ENHANCED => by_options,
        _ => 0,
    }
}
