//! What a record or a block of a file gives.

ghost use Rattle.std.specs.Prelude.{◌≡◌, ◌+◌, ◌≤◌, length};
ghost use Rattle.capture_files.specs.Entries.{frame_at};
ghost use Rattle.capture_model.specs.Frames.{frame_view};

use capture_model::frame::{Direction, Frame};
use capture_model::reason::FileDamage;
use capture_model::time::Nanos;

/// A frame by where its octets are in those that were consumed last.
#[derive(Clone, Copy)]
pub struct FrameHead {
    /// Its number, from 1.
    pub number: u64,
    /// Its link type.
    pub link: u16,
    /// Where its octets begin.
    pub from: usize,
    /// How many of them are there.
    pub kept: usize,
    /// How many it had on the line.
    pub length: u32,
    /// Its direction.
    pub direction: Direction,
    /// Its interface.
    pub interface: u32,
    /// Its time.
    pub time: Option<Nanos>,
}

impl FrameHead {
    /// Returns the frame, whose octets are among these.
    pub fn frame<'a>(&self, octets: &'a [u8]) -> Frame<'a>
        requires within { self.now.from + self.now.kept ≤ length octets.now }
        ensures frame { frame_view result ≡ frame_at self.now octets.entry.now }
    {
        Frame {
            number: self.number,
            link: self.link,
            octets: &octets[self.from..self.from + self.kept],
            length: self.length,
            direction: self.direction,
            interface: self.interface,
            time: self.time,
        }
    }
}

/// Frames that the capture doesn't have.
#[derive(Clone, Copy)]
pub struct Dropped {
    /// How many, as the capture says; 0 where the file is damaged, and any number may be missing.
    pub count: u64,
    /// The number of the frame that they come before, or of the last one where the capture says it between frames.
    pub number: u64,
    /// The time of that frame, or when the recorder wrote the number.
    pub time: Option<Nanos>,
    /// The interface that they were dropped on.
    pub interface: u32,
}

/// What a record or a block of a file gives, or octets that were passed over in a search after a damage.
#[derive(Clone, Copy)]
pub struct Entry {
    /// Its frame.
    pub frame: Option<FrameHead>,
    /// What is wrong with the record or the block.
    pub damage: Option<FileDamage>,
    /// What is wrong with the frame in a block.
    pub frame_damage: Option<FileDamage>,
    /// The frames that are missing before it.
    pub dropped: Option<Dropped>,
    /// The type of a block that holds no frame, except those that describe sections and interfaces.
    pub other_block: Option<u32>,
}

impl Entry {
    /// The entry of octets that give nothing.
    pub const NOTHING: Entry = Entry {
        frame: None,
        damage: None,
        frame_damage: None,
        dropped: None,
        other_block: None,
    };
}
