//! One direction of a connection.

ghost use Rattle.std.specs.Prelude.{◌≡◌, ◌<◌, [], ◌∷◌, IfOk, MatchOption, OnErr, OnOk};
ghost use Rattle.ip_segments.specs.Views.{segment_view};
ghost use Rattle.tcp_streams.specs.Flows.{is_empty, number_of, part_of};
ghost use Rattle.tcp_streams.specs.Pieces.{part_view};

use crate::numbers::{LAST_PLACE, fin_numbers, first_place, forward, next_number, place_near};
use crate::piece::{Part, Piece, Recorded};
use crate::waiting::Waiting;
use ip_segments::segment::Segment;
use std::alloc::{AllocError, Global};

/// What becomes of a segment.
#[derive(Clone, Copy, PartialEq, Eq, Debug)]
pub enum SegmentUse {
    /// It has neither an octet nor a FIN.
    Empty,
    /// All its places were given out.
    Repeated,
    /// What it has at places that no other segment has waits, until `next` gives it out.
    Waits,
}

/// One direction of a connection.
///
/// ```text
///     given out           next        waiting
///     ....................|   missing |#####|   |###|
/// ```
#[derive(Drop)]
pub struct Flow {
    /// The number of its SYN, where that was recorded.
    pub(crate) first: Option<u32>,
    /// The place after those that were given out; none until its beginning is known.
    pub(crate) next: Option<u64>,
    /// The last number that the other end acknowledged.
    pub(crate) acknowledged: Option<u32>,
    /// Whether a FIN of it was recorded.
    pub(crate) is_leaving: bool,
    /// Whether its FIN was given out.
    pub(crate) is_ended: bool,
    pub(crate) waiting: Waiting,
}

/// Returns the number of the first octet of a segment: a SYN has one of its own before it.
pub(crate) fn number_of(segment: &Segment<'_>) -> u32
    ensures { result ≡ number_of (segment_view segment.now) }
{
    if segment.is_syn {
        next_number(segment.sequence)
    } else {
        segment.sequence
    }
}

/// Returns whether a segment has neither an octet nor a FIN.
pub(crate) fn is_empty(segment: &Segment<'_>) -> bool
    ensures { result ≡ is_empty (segment_view segment.now) }
{
    !segment.is_fin && segment.payload.octets.is_empty() && segment.payload.length == 0
}

/// Returns what a segment has, at the places where a direction expects `next`.
fn part_of<'a>(next: u64, segment: &Segment<'a>, recorded: Recorded) -> Part<'a>
    requires { next < 0x4000000000000000 }
    ensures { part_view result ≡ part_of next (segment_view segment.now) recorded }
{
    let at = place_near(next, number_of(segment));
    let octets = segment.payload.octets;
    let length = octets.len() as u64;
    let cut = u64::from(segment.payload.length).saturating_sub(length);
    Part {
        at,
        until: at + length + cut + fin_numbers(segment.is_fin),
        octets,
        is_end: segment.is_fin,
        acknowledged: segment.acknowledged,
        recorded,
    }
}

impl Flow {
    ghost use Rattle.tcp_streams.specs.Flows.{acknowledged_by, begun_at, emptied, given_out, has_begun_before, held, held_differs, held_use, opened, opening_gap, part_held, part_use, unknown, unsaid_gap};

    /// Returns a direction of which nothing is known.
    pub(crate) fn new(alloc: Global) -> Self
        ensures { result ≡ unknown }
    {
        Flow {
            first: None,
            next: None,
            acknowledged: None,
            is_leaving: false,
            is_ended: false,
            waiting: Waiting::new(alloc),
        }
    }

    /// Reads the number of its SYN.
    pub(crate) fn open(&mut self, number: u32)
        ensures { self.new ≡ opened number self.old }
    {
        if self.next.is_none() {
            self.first = Some(number);
            self.next = Some(first_place(number) + 1);
        }
    }

    /// Begins at a number that the other end acknowledges, unless its beginning is known.
    pub(crate) fn begin_at(&mut self, acknowledged: Option<u32>)
        ensures { self.new ≡ begun_at acknowledged self.old }
    {
        if self.next.is_none() {
            self.next = acknowledged.map(first_place);
        }
    }

    /// Returns whether it begins after its SYN with a segment that has a number.
    pub(crate) fn has_begun_before(&self, number: u32) -> bool
        ensures { result ≡ has_begun_before number self.now }
    {
        match self.first {
            Some(first) => next_number(first) == number,
            None => false,
        }
    }

    /// Returns how many octets of it the other end, `by`, acknowledges, where nothing of it was recorded; 0 where nobody
    /// knows how many. Its FIN is not counted.
    pub(crate) fn unsaid_gap(&self, by: &Flow, number: u32) -> Option<u64>
        ensures { result ≡ unsaid_gap by.now number self.now }
    {
        if self.next.is_some() {
            return None;
        }
        match self.acknowledged {
            Some(before) => {
                let octets = forward(before, number);
                if fin_numbers(by.is_leaving) < octets {
                    Some(octets)
                } else {
                    None
                }
            }
            None => by.first.map(|_| 0),
        }
    }

    /// Reads a number that the other end acknowledges.
    pub(crate) fn acknowledge(&mut self, number: u32)
        ensures { self.new ≡ acknowledged_by number self.old }
    {
        self.acknowledged = Some(number);
    }

    /// Returns how many octets come before its first segment, with a number, that were acknowledged and not recorded; 0
    /// where nobody knows how many.
    pub(crate) fn opening_gap(&self, other: &Flow, number: u32) -> Option<u64>
        ensures { result ≡ opening_gap other.now number self.now }
    {
        if self.next.is_some() {
            return None;
        }
        match self.acknowledged {
            Some(acknowledged) => {
                let octets = forward(acknowledged, number);
                if 0 < octets { Some(octets) } else { None }
            }
            None => other.first.map(|_| 0),
        }
    }

    /// Returns whether a segment has another octet than one that waits, at its place.
    pub(crate) fn differs(&self, segment: &Segment<'_>, recorded: Recorded) -> bool
        ensures { result ≡ held_differs (segment_view segment.now) recorded self.now }
    {
        match self.next {
            Some(next) if next < LAST_PLACE => {
                let part = part_of(next, segment, recorded);
                self.waiting.differs(&part.after(next))
            }
            _ => false,
        }
    }

    /// Holds what a segment has at places from the next one on that none has which waits. Where memory is refused, nothing
    /// waits any more.
    pub(crate) fn hold(
        &mut self,
        segment: &Segment<'_>,
        recorded: Recorded,
    ) -> Result<SegmentUse, AllocError>
        ensures held { OnOk result (self.new ≡ held (segment_view segment.now) recorded self.old) }
        ensures used { IfOk result (λ used. used ≡ held_use (segment_view segment.now) recorded self.old) }
        ensures dropped { OnErr result (self.new ≡ emptied self.old) }
    {
        match self.next {
            Some(next) if next < LAST_PLACE => {
                let part = part_of(next, segment, recorded);
                self.hold_part(&part.after(next))
            }
            _ => Ok(SegmentUse::Repeated),
        }
    }

    /// Holds what a part has at places that none has which waits.
    fn hold_part(&mut self, part: &Part<'_>) -> Result<SegmentUse, AllocError>
        ensures held { OnOk result (self.new ≡ part_held (part_view part.now) self.old) }
        ensures used { IfOk result (λ used. used ≡ part_use (part_view part.now) self.old) }
        ensures dropped { OnErr result (self.new ≡ emptied self.old) }
    {
        let before = self.waiting.len();
        self.waiting.hold(part)?;
        if self.waiting.len() == before {
            Ok(SegmentUse::Repeated)
        } else {
            Ok(SegmentUse::Waits)
        }
    }

    /// Gives out the first piece that waits.
    pub(crate) fn pop(&mut self) -> Option<Piece>
        ensures { MatchOption result ((self.old.waiting ≡ []) × (self.new ≡ self.old))
            (λ p. (self.old.waiting ≡ p ∷ self.new.waiting) × (self.new ≡ given_out p self.new.waiting self.old)) }
    {
        let piece = self.waiting.pop()?;
        self.next = Some(self.next.unwrap_or(0).max(piece.until));
        self.is_ended = self.is_ended || piece.is_end;
        Some(piece)
    }
}
