//! The pieces of a direction that wait.

ghost use Rattle.std.specs.Prelude.{◌≡◌, ◌≤◌, ◌<◌, ◌+◌, ◌++◌, [], ◌∷◌, IfOk, OnOk, OnErr, MatchOption, drop, length, take};
ghost use Rattle.tcp_streams.specs.Pieces.{part_view};

use crate::numbers::number_at;
use crate::piece::{Part, Piece};
use std::alloc::{AllocError, Global};
use std::marker::Model;

/// What a piece costs besides its octets.
const PIECE_COST: u64 = 512;

/// Pieces that wait, in the order of their places. No two have a place in common.
#[derive(Drop)]
pub struct Waiting {
    items: Vec<Piece>,
}

impl Model for Waiting {
    ghost use Rattle.std.specs.Prelude.{List};
    ghost use Rattle.tcp_streams.specs.declared.piece.Piece.{Piece};

    ghost Value = { List Piece };

    ghost view = { λ w. w.items.items };
}

impl Waiting {
    ghost use Rattle.tcp_streams.specs.Pieces.{cost_from, differs, inserted, last_number, some_of};

    /// Returns none.
    pub(crate) fn new(alloc: Global) -> Self
        ensures { result ≡ [] }
    {
        Waiting {
            items: Vec::new(alloc),
        }
    }

    /// Returns how many they are.
    pub(crate) fn len(&self) -> usize
        ensures count { result ≡ length self.now }
        ensures few { result < 0x8000000000000000 }
    {
        self.items.len()
    }

    /// Returns what they cost in memory, after other costs: their octets, and 512 for each; at most 2^64 - 1.
    pub(crate) fn cost_from(&self, cost: u64) -> u64
        ensures { result ≡ cost_from cost self.now }
    {
        let mut total = cost;
        for piece in &self.items {
            total = total.saturating_add(piece.octets.as_slice().len() as u64 + PIECE_COST);
        }
        total
    }

    /// Returns whether one of them has another octet than a part has at its place.
    pub(crate) fn differs(&self, part: &Part<'_>) -> bool
        ensures { result ≡ differs (part_view part.now) self.now }
    {
        self.items.iter().any(|piece| piece.differs_from(part))
    }

    /// Drops them.
    pub(crate) fn clear(&mut self)
        ensures { self.new ≡ [] }
    {
        self.items.clear();
    }

    /// Puts a part at an index, unless it has no place, and returns the index after it.
    fn put(&mut self, index: usize, part: &Part<'_>) -> Result<usize, AllocError>
        requires { index ≤ length self.old }
        ensures items { OnOk result (self.new
            ≡ take index self.old ++ some_of (part_view part.now) ++ drop index self.old) }
        ensures index { IfOk result (λ after. after ≡ index + length (some_of (part_view part.now))) }
    {
        if part.until <= part.at {
            return Ok(index);
        }
        let piece = part.copied(*self.items.allocator())?;
        self.items.insert(index, piece)?;
        Ok(index + 1)
    }

    /// Holds what a part has at places that none of them has.
    fn insert(&mut self, part: &Part<'_>) -> Result<(), AllocError>
        ensures { OnOk result (self.new ≡ inserted (part_view part.now) self.old) }
    {
        let mut rest = *part;
        let mut index = 0;
        while index < self.items.len() && self.items[index].at < rest.until {
            let (at, until) = (self.items[index].at, self.items[index].until);
            index = self.put(index, &rest.before(at))? + 1;
            rest = rest.after(until);
        }
        self.put(index, &rest)?;
        Ok(())
    }

    /// Holds what a part has at places that none of them has. Drops all of them where memory is refused.
    pub(crate) fn hold(&mut self, part: &Part<'_>) -> Result<(), AllocError>
        ensures held { OnOk result (self.new ≡ inserted (part_view part.now) self.old) }
        ensures dropped { OnErr result (self.new ≡ []) }
    {
        match self.insert(part) {
            Ok(()) => Ok(()),
            Err(error) => {
                self.clear();
                Err(error)
            }
        }
    }

    /// Returns the first one.
    pub(crate) fn first(&self) -> Option<&Piece>
        ensures { MatchOption result (self.now ≡ []) (λ p. self.now ≡ p.now ∷ drop 1 self.now) }
    {
        self.items.first()
    }

    /// Returns the number after the last octet of the last one.
    pub(crate) fn last_number(&self) -> Option<u32>
        ensures { result ≡ last_number self.now }
    {
        let piece = self.items.last()?;
        let length = piece.octets.as_slice().len() as u64;
        Some(number_at(u64::from(number_at(piece.at)) + length))
    }

    /// Removes the first one.
    pub(crate) fn pop(&mut self) -> Option<Piece>
        ensures { MatchOption result ((self.old ≡ []) × (self.new ≡ [])) (λ p. self.old ≡ p ∷ self.new) }
    {
        if self.items.is_empty() {
            return None;
        }
        Some(self.items.remove(0))
    }
}
