//! What a segment has at some places of a direction.

ghost use Rattle.std.specs.Prelude.{◌≡◌, IfOk};
ghost use Rattle.tcp_streams.specs.Pieces.{after, before, differs_from, part_view};

use capture_model::time::Nanos;
use std::alloc::{AllocError, Global};
use std::marker::Model;

/// The frame of a segment.
#[derive(Clone, Copy)]
pub struct Recorded {
    /// Its number.
    pub frame: u64,
    /// When it was recorded, where the capture says.
    pub time: Option<Nanos>,
}

/// What a segment has at the places from one up to another. Its octets come first; then octets that the recorder cut off; a
/// FIN has the last place.
#[derive(Clone, Copy)]
pub struct Part<'a> {
    /// The place of its first octet.
    pub at: u64,
    /// The place after its last one.
    pub until: u64,
    /// Its octets.
    pub octets: &'a [u8],
    /// Whether the direction ends with it (FIN).
    pub is_end: bool,
    /// The number that the segment acknowledges.
    pub acknowledged: Option<u32>,
    /// Its frame.
    pub recorded: Recorded,
}

/// Octets of a segment, copied.
#[derive(Drop)]
pub struct Octets {
    bytes: Vec<u8>,
}

impl Model for Octets {
    ghost use Rattle.std.specs.Prelude.{ℕ, List};

    ghost Value = { List ℕ };

    ghost view = { λ o. o.bytes.items };
}

impl Octets {
    /// Returns a copy of octets.
    fn copied(alloc: Global, octets: &[u8]) -> Result<Self, AllocError>
        ensures { IfOk result (λ o. o ≡ octets.now) }
    {
        let mut bytes = Vec::new(alloc);
        bytes.extend_from_slice(octets)?;
        Ok(Octets { bytes })
    }

    /// Returns them.
    pub fn as_slice(&self) -> &[u8]
        ensures { result.now ≡ self.now }
    {
        &self.bytes
    }
}

/// A part of a segment, copied.
#[derive(Drop)]
pub struct Piece {
    /// The place of its first octet.
    pub at: u64,
    /// The place after its last one.
    pub until: u64,
    /// Its octets, without those that the recorder cut off.
    pub octets: Octets,
    /// Whether the direction ends with it (FIN).
    pub is_end: bool,
    /// The number that the segment acknowledges.
    pub acknowledged: Option<u32>,
    /// The frame of the segment.
    pub recorded: Recorded,
}

impl<'a> Part<'a> {
    /// Returns what it has before a place.
    pub(crate) fn before(&self, place: u64) -> Part<'a>
        ensures { part_view result ≡ before place (part_view self.now) }
    {
        let kept = place.saturating_sub(self.at) as usize;
        let (octets, _) = self.octets.split_at(kept.min(self.octets.len()));
        Part {
            until: place,
            octets,
            is_end: false,
            ..*self
        }
    }

    /// Returns what it has from a place on.
    pub(crate) fn after(&self, place: u64) -> Part<'a>
        ensures { part_view result ≡ after place (part_view self.now) }
    {
        let passed = place.saturating_sub(self.at) as usize;
        let (_, octets) = self.octets.split_at(passed.min(self.octets.len()));
        Part {
            at: self.at.max(place),
            octets,
            ..*self
        }
    }

    /// Returns a copy of it.
    pub(crate) fn copied(&self, alloc: Global) -> Result<Piece, AllocError>
        ensures { IfOk result (λ p. p ≡ part_view self.now) }
    {
        Ok(Piece {
            at: self.at,
            until: self.until,
            octets: Octets::copied(alloc, self.octets)?,
            is_end: self.is_end,
            acknowledged: self.acknowledged,
            recorded: self.recorded,
        })
    }
}

impl Piece {
    /// Returns it, lent.
    fn lent(&self) -> Part<'_>
        ensures { part_view result ≡ self.now }
    {
        Part {
            at: self.at,
            until: self.until,
            octets: self.octets.as_slice(),
            is_end: self.is_end,
            acknowledged: self.acknowledged,
            recorded: self.recorded,
        }
    }

    /// Returns whether it has another octet than a part at one of the places that both have.
    pub(crate) fn differs_from(&self, part: &Part<'_>) -> bool
        ensures { result ≡ differs_from (part_view part.now) self.now }
    {
        let one = self.lent().after(part.at).octets;
        let other = part.after(self.at).octets;
        let count = one.len().min(other.len());
        one[..count] != other[..count]
    }
}
