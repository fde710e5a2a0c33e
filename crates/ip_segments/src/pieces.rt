//! The octets of a datagram that came.

ghost use Rattle.std.specs.Prelude.{◌≡◌, ◌≤◌, ◌+◌, ◌++◌, [], IfOk, OnOk, drop, length, take};
ghost use Rattle.ip_segments.specs.Pieces.{after, before, part_view};

use crate::octets::Octets;
use std::alloc::{AllocError, Global};
use std::marker::Model;

/// What a fragment has at the places from one up to another.
#[derive(Clone, Copy)]
pub(crate) struct Part<'a> {
    /// The place of its first octet.
    pub at: u32,
    /// The place after its last one.
    pub until: u32,
    /// Its octets.
    pub octets: &'a [u8],
}

/// A part of a fragment, copied.
#[derive(Drop)]
pub struct Piece {
    /// The place of its first octet.
    pub(crate) at: u32,
    /// The place after its last one.
    pub(crate) until: u32,
    /// Its octets.
    pub(crate) octets: Octets,
}

/// Pieces in the order of their places. No two have a place in common.
#[derive(Drop)]
pub struct Pieces {
    items: Vec<Piece>,
}

impl Model for Pieces {
    ghost use Rattle.std.specs.Prelude.{List};
    ghost use Rattle.ip_segments.specs.declared.pieces.Piece.{Piece};

    ghost Value = { List Piece };

    ghost view = { λ p. p.items.items };
}

impl<'a> Part<'a> {
    /// Returns what it has before a place.
    fn before(&self, place: u32) -> Part<'a>
        ensures { part_view result ≡ before place (part_view self.now) }
    {
        let kept = place.saturating_sub(self.at) as usize;
        let (octets, _) = self.octets.split_at(kept.min(self.octets.len()));
        Part {
            at: self.at,
            until: place,
            octets,
        }
    }

    /// Returns what it has from a place on.
    fn after(&self, place: u32) -> Part<'a>
        ensures { part_view result ≡ after place (part_view self.now) }
    {
        let passed = place.saturating_sub(self.at) as usize;
        let (_, octets) = self.octets.split_at(passed.min(self.octets.len()));
        Part {
            at: self.at.max(place),
            until: self.until,
            octets,
        }
    }

    /// Returns a copy of it.
    fn copied(&self, alloc: Global) -> Result<Piece, AllocError>
        ensures { IfOk result (λ p. p ≡ part_view self.now) }
    {
        Ok(Piece {
            at: self.at,
            until: self.until,
            octets: Octets::copied(alloc, self.octets)?,
        })
    }
}

impl Pieces {
    ghost use Rattle.ip_segments.specs.Pieces.{all_octets, inserted, reach, some_of};

    /// Returns none.
    pub(crate) fn new(alloc: Global) -> Self
        ensures { result ≡ [] }
    {
        Pieces {
            items: Vec::new(alloc),
        }
    }

    /// Puts a part at an index, unless it has no place, and returns the index after it.
    fn put(&mut self, index: usize, part: &Part<'_>) -> Result<usize, AllocError>
        requires { index ≤ length self.old }
        ensures items { OnOk result (self.new
            ≡ take index self.old ++ some_of (part_view part.now) ++ drop index self.old) }
        ensures index { IfOk result (λ after. after ≡ index + length (some_of (part_view part.now))) }
    {
        if part.until <= part.at {
            return Ok(index);
        }
        let piece = part.copied(*self.items.allocator())?;
        self.items.insert(index, piece)?;
        Ok(index + 1)
    }

    /// Keeps what a part has at places that none of them has.
    pub(crate) fn insert(&mut self, part: &Part<'_>) -> Result<(), AllocError>
        ensures { OnOk result (self.new ≡ inserted (part_view part.now) self.old) }
    {
        let mut rest = *part;
        let mut index = 0;
        while index < self.items.len() && self.items[index].at < rest.until {
            let (at, until) = (self.items[index].at, self.items[index].until);
            index = self.put(index, &rest.before(at))? + 1;
            rest = rest.after(until);
        }
        self.put(index, &rest)?;
        Ok(())
    }

    /// Returns the first place that none of them has.
    pub(crate) fn reach(&self) -> u32
        ensures { result ≡ reach 0 self.now }
    {
        let mut next = 0;
        for piece in &self.items {
            if piece.at != next {
                return next;
            }
            next = piece.until;
        }
        next
    }

    /// Returns the octets of all of them.
    pub(crate) fn octets(&self) -> Result<Octets, AllocError>
        ensures { IfOk result (λ o. o ≡ all_octets self.now) }
    {
        let mut octets = Octets::new(*self.items.allocator());
        for piece in &self.items {
            octets.append(piece.octets.as_slice())?;
        }
        Ok(octets)
    }
}
