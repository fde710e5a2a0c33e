//! A line that is written from its end to its front.

ghost use Rattle.std.specs.Prelude.{◌≡◌, ◌+◌, ◌-◌, ◌≤◌, ◌++◌, [], Some, decimal, drop, length};
ghost use Rattle.std.specs.Option.{option_map};
ghost use Rattle.descriptions.specs.Lines.{Puts};

use itoa::write_digits;
use std::marker::Model;

/// The bytes that a line may have: 1,024.
const ROOM: usize = 1024;

/// The digits of the longest number.
const LONGEST: usize = 20;

/// A line in a fixed room, which is written from its end to its front, so the digits of a number stay where they are
/// made. A line that finds no room is dropped.
#[derive(Drop)]
pub struct LineRoom {
    room: [u8; ROOM],
    start: usize,
    fits: bool,
}

impl Model for LineRoom {
    ghost use Rattle.std.specs.Prelude.{◌≤◌, List, ℕ, Option, Some, None, drop, if◌then◌else◌};

    ghost Value = { Option (List ℕ) };

    ghost view = { λ line. if line.fits then Some (drop line.start line.room) else None };

    ghost invariant = { λ line. line.start ≤ 1024 };
}

/// Puts bytes before those at a place of a room, and returns where they begin.
#[inline(always)]
fn put_before(bytes: &[u8], room: &mut [u8], end: usize) -> usize
    requires { (length bytes.now ≤ end) × (end ≤ length room.old) }
    ensures start { result + length bytes.now ≡ end }
    ensures written { drop result room.new ≡ bytes.now ++ drop end room.old }
    ensures len { length room.new ≡ length room.old }
{
    let start = end - bytes.len();
    room[start..end].copy_from_slice(bytes);
    start
}

impl LineRoom {
    /// Returns an empty line.
    pub fn new() -> Self
        ensures { result ≡ Some [] }
    {
        LineRoom {
            room: [0; ROOM],
            start: ROOM,
            fits: true,
        }
    }

    /// Empties the line.
    pub fn clear(&mut self)
        ensures { self.new ≡ Some [] }
    {
        self.start = ROOM;
        self.fits = true;
    }

    /// Returns the line, if it found room.
    pub fn line(&self) -> Option<&[u8]>
        ensures { option_map (λ line. line.now) result ≡ self.now }
    {
        if self.fits {
            Some(&self.room[self.start..])
        } else {
            None
        }
    }

    /// Puts bytes before the line.
    #[inline(always)]
    pub fn put(&mut self, bytes: &[u8])
        ensures { Puts bytes.now self.old self.new }
    {
        if bytes.len() <= self.start {
            self.start = put_before(bytes, &mut self.room, self.start);
        } else {
            self.fits = false;
        }
    }

    /// Puts the digits of a number before the line.
    #[inline(always)]
    pub fn number(&mut self, number: u64)
        ensures { Puts (decimal number) self.old self.new }
    {
        if LONGEST <= self.start {
            self.start = write_digits(number, &mut self.room, self.start);
        } else {
            self.fits = false;
        }
    }
}
