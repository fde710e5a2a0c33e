//! The blocks that hold frames: enhanced, obsolete and simple ones.

ghost use Rattle.std.specs.Prelude.{◌≡◌, ◌+◌, ◌-◌, ◌≤◌, IfSome, drop, length, min, take};
ghost use Rattle.std.specs.Option.{option_map};
ghost use Rattle.capture_files.specs.BlockFrames.{block_frame, placed_in, simple_in, time_of};
ghost use Rattle.capture_files.specs.Entries.{frame_at};
ghost use Rattle.capture_files.specs.Options.{padded};

use crate::block::{PACKET, SIMPLE};
use crate::entry::FrameHead;
use crate::interface::Interface;
use crate::numbers::{read_four, read_two};
use capture_model::frame::Direction;
use capture_model::time::Nanos;

/// Where a block has a frame, and what it says of it.
#[derive(Clone, Copy)]
pub struct Placed {
    /// The interface, counted in its section.
    pub which: u32,
    /// Where its octets begin.
    pub from: usize,
    /// How many were kept.
    pub kept: u32,
    /// How many there were on the line.
    pub length: u32,
    /// The timestamp.
    pub stamp: Option<u64>,
}

/// Returns where a block has its frame, by its type and the most octets that a simple one keeps (0 for all); `None`
/// where it is too short for that.
pub(crate) fn placed_in(is_big: bool, kind: u32, snap: u32, block: &[u8]) -> Option<Placed>
    ensures place { result ≡ placed_in is_big kind snap block.now }
    ensures within { IfSome result (λ p. (12 ≤ p.from) × (p.from ≤ length block.now) × (p.from ≤ 28)) }
{
    if kind == SIMPLE {
        return simple(is_big, snap, block);
    }
    if block.len() < 28 {
        return None;
    }
    let which = if kind == PACKET {
        u32::from(read_two(is_big, block, 8))
    } else {
        read_four(is_big, block, 8)
    };
    let high = u64::from(read_four(is_big, block, 12));
    let low = u64::from(read_four(is_big, block, 16));
    Some(Placed {
        which,
        from: 28,
        kept: read_four(is_big, block, 20),
        length: read_four(is_big, block, 24),
        stamp: Some(high * 0x1_0000_0000 + low),
    })
}

/// Returns where a simple block has its frame.
fn simple(is_big: bool, snap: u32, block: &[u8]) -> Option<Placed>
    ensures place { result ≡ simple_in is_big snap block.now }
    ensures within { IfSome result (λ p. (12 ≤ p.from) × (p.from ≤ length block.now) × (p.from ≤ 28)) }
{
    if block.len() < 12 {
        return None;
    }
    let length = read_four(is_big, block, 8);
    let kept = if snap == 0 { length } else { length.min(snap) };
    Some(Placed {
        which: 0,
        from: 12,
        kept,
        length,
        stamp: None,
    })
}

impl Placed {
    /// Returns where the options of the block begin.
    pub(crate) fn options(&self) -> usize
        requires { self.now.from ≤ 28 }
        ensures { result ≡ self.now.from + padded self.now.kept }
    {
        self.from + (self.kept as usize + 3) / 4 * 4
    }

    /// Returns how many octets of the frame are there.
    pub(crate) fn there(&self, block: &[u8]) -> u32
        requires { self.now.from ≤ length block.now }
        ensures there { result ≡ min (length block.now - self.now.from) self.now.kept }
        ensures few { result ≤ self.now.kept }
    {
        (block.len() - self.from).min(self.kept as usize) as u32
    }

    /// Returns how many octets of the frame are there, without its check sequence.
    fn kept(&self, block: &[u8], line: usize) -> usize
        requires { self.now.from ≤ length block.now }
        ensures octets { take result (drop self.now.from block.now) ≡ take line (take self.now.kept (drop self.now.from block.now)) }
        ensures within { self.now.from + result ≤ length block.now }
    {
        (self.there(block) as usize).min(line)
    }

    /// Returns the time that the timestamp says.
    fn time(&self, interface: &Interface) -> Option<Nanos>
        ensures { result ≡ option_map (time_of interface.now) self.now.stamp }
    {
        match self.stamp {
            Some(stamp) => Some(interface.time(stamp)),
            None => None,
        }
    }

    /// Returns the frame, by its interface and the number of the first interface of its section.
    pub(crate) fn head(
        &self,
        interface: &Interface,
        first: u32,
        number: u64,
        block: &[u8],
        direction: Direction,
    ) -> FrameHead
        requires { self.now.from ≤ length block.now }
        ensures frame { frame_at result block.now ≡ block_frame self.now interface.now first number result.direction block.now }
        ensures direction { result.direction ≡ direction }
        ensures within { result.from + result.kept ≤ length block.now }
    {
        let length = self.kept.max(self.length).saturating_sub(interface.check);
        FrameHead {
            number,
            link: interface.link,
            from: self.from,
            kept: self.kept(block, length as usize),
            length,
            direction,
            interface: first.saturating_add(self.which),
            time: self.time(interface),
        }
    }
}
