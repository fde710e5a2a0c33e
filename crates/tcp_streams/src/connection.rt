//! A connection: two directions and an order.

ghost use Rattle.std.specs.Prelude.{◌≡◌, ◌<◌, IfOk, IfSome, OnOk};
ghost use Rattle.ip_segments.specs.Views.{segment_view};
ghost use Rattle.tcp_streams.specs.Connections.{answered, answered_other, begins_with, fed_by, fed_other, fed_own, first_frame, follows, is_acknowledged, is_at_next, is_next_number, is_plain, lacking, lent_other, lent_own, lower, may_go, missing_for, missing_of, opened_other, opened_own, other_end, patience_is_over, ready_frame, unsaid_of};

use crate::flow::{Flow, SegmentUse, is_empty, number_of};
use crate::numbers::{LAST_PLACE, awaited, is_after, next_number, number_at};
use crate::piece::{Piece, Recorded};
use ip_segments::segment::Segment;
use std::alloc::{AllocError, Global};

/// The most that may wait in a connection, in octets: those of the pieces, and 512 for each.
const MOST_WAITING: u64 = 1 << 20;
/// How many pieces wait for octets that were acknowledged.
const PATIENCE: usize = 8;
/// How many wait for octets of which no acknowledgement was recorded.
const PATIENCE_ONE_WAY: usize = 64;

/// An end of a connection, and the direction of what it sends.
#[derive(Clone, Copy, PartialEq, Eq, Debug)]
pub enum End {
    /// The one that opened the connection.
    Opener,
    /// The other one.
    Answerer,
}

/// Some ends of a connection.
#[derive(Clone, Copy)]
pub struct EndSet {
    /// Whether the opener is one of them.
    pub opener: bool,
    /// Whether the answerer is one of them.
    pub answerer: bool,
}

/// Octets that no segment has which was recorded.
#[derive(Clone, Copy)]
pub struct StreamGap {
    /// Whose octets are missing.
    pub end: End,
    /// How many.
    pub octets: u64,
    /// The frame that waited for them.
    pub recorded: Recorded,
}

/// What comes next in a connection.
#[derive(Drop)]
pub enum Event {
    /// What a segment has at the next places of a direction.
    Piece(End, Piece),
    /// The octets at the next places of a direction are missing.
    Gap(StreamGap),
}

/// What a segment shows at once.
#[derive(Clone, Copy)]
pub struct Fed {
    /// How many octets it acknowledges of the other direction, of which nothing was recorded; 0 where nobody knows how many.
    pub unsaid: Option<u64>,
    /// How many octets come before it, the first segment of its direction; 0 where nobody knows how many.
    pub opening: Option<u64>,
    /// What becomes of it.
    pub used: SegmentUse,
    /// Whether it has another octet than a segment that waits, at its place.
    pub differs: bool,
}

/// The first octets that a piece waits for.
#[derive(Clone, Copy)]
struct Missing {
    gap: StreamGap,
    /// The place after them.
    until: u64,
}

/// A connection: what it gave out, and the pieces that wait.
#[derive(Drop)]
pub struct Connection {
    opener: Flow,
    answerer: Flow,
}

impl End {
    /// Returns the other end.
    pub fn other(self) -> End
        ensures { result ≡ other_end self }
    {
        match self {
            End::Opener => End::Answerer,
            End::Answerer => End::Opener,
        }
    }
}

impl EndSet {
    ghost use Rattle.tcp_streams.specs.Connections.{has_end, no_ends, with_end};

    /// Returns none.
    pub fn none() -> EndSet
        ensures { result ≡ no_ends }
    {
        EndSet {
            opener: false,
            answerer: false,
        }
    }

    /// Returns whether an end is one of them.
    pub fn has(self, end: End) -> bool
        ensures { result ≡ has_end end self }
    {
        match end {
            End::Opener => self.opener,
            End::Answerer => self.answerer,
        }
    }

    /// Returns them with an end.
    pub fn with(self, end: End) -> EndSet
        ensures { result ≡ with_end end self }
    {
        match end {
            End::Opener => EndSet {
                opener: true,
                ..self
            },
            End::Answerer => EndSet {
                answerer: true,
                ..self
            },
        }
    }
}

/// Reads the SYN of a segment.
fn open(own: &mut Flow, other: &mut Flow, segment: &Segment<'_>)
    ensures own { own.new ≡ opened_own (segment_view segment.now) own.old }
    ensures other { other.new ≡ opened_other (segment_view segment.now) other.old }
{
    if segment.is_syn {
        own.open(segment.sequence);
        other.begin_at(segment.acknowledged);
    }
}

/// Begins the other direction, where a segment is the first one of the opener after its SYN: it acknowledges no octet.
fn answer(own: &Flow, other: &mut Flow, from: End, segment: &Segment<'_>)
    ensures { other.new ≡ answered from (segment_view segment.now) own.now other.old }
{
    match from {
        End::Opener => {
            if own.has_begun_before(number_of(segment)) {
                other.begin_at(segment.acknowledged);
            }
        }
        End::Answerer => {}
    }
}

/// Reads the number that a segment acknowledges, and returns the gap that it shows where nothing of the other direction was
/// recorded.
fn acknowledge(own: &Flow, other: &mut Flow, from: End, segment: &Segment<'_>) -> Option<u64>
    ensures unsaid { result ≡ unsaid_of from (segment_view segment.now) own.now other.old }
    ensures other { other.new ≡ answered_other from (segment_view segment.now) own.now other.old }
{
    let number = segment.acknowledged?;
    answer(own, other, from, segment);
    let unsaid = other.unsaid_gap(own, number);
    other.acknowledge(number);
    unsaid
}

/// Reads a segment of one direction.
fn feed(
    own: &mut Flow,
    other: &mut Flow,
    from: End,
    segment: &Segment<'_>,
    recorded: Recorded,
) -> Result<Fed, AllocError>
    ensures own { OnOk result (own.new ≡ fed_own (segment_view segment.now) recorded own.old) }
    ensures other { other.new ≡ fed_other from (segment_view segment.now) own.old other.old }
    ensures fed { IfOk result (λ fed. fed ≡ fed_by from (segment_view segment.now) recorded own.old other.old) }
{
    open(own, other, segment);
    let unsaid = acknowledge(own, other, from, segment);
    own.is_leaving = own.is_leaving || segment.is_fin;
    if is_empty(segment) {
        return Ok(Fed {
            unsaid,
            opening: None,
            used: SegmentUse::Empty,
            differs: false,
        });
    }
    let opening = own.opening_gap(other, number_of(segment));
    own.begin_at(Some(number_of(segment)));
    let differs = own.differs(segment, recorded);
    let used = own.hold(segment, recorded)?;
    Ok(Fed {
        unsaid,
        opening,
        used,
        differs,
    })
}

/// Returns whether a SYN may begin a direction whose next place is known, or is the answer to another SYN.
fn begins_with(next: Option<u64>, segment: &Segment<'_>) -> bool
    ensures { result ≡ begins_with next (segment_view segment.now) }
{
    match next {
        Some(next) => {
            segment.acknowledged.is_some() || number_at(next) == next_number(segment.sequence)
        }
        None => segment.acknowledged.is_some(),
    }
}

/// Returns whether a segment has octets, and nothing else.
fn is_plain(segment: &Segment<'_>) -> bool
    ensures { result ≡ is_plain (segment_view segment.now) }
{
    let (length, flags) = (
        segment.payload.octets.len(),
        segment.is_syn || segment.is_fin || segment.is_reset,
    );
    !flags && 0 < length && segment.payload.length as usize <= length
}

/// Returns whether a number is that of the next place.
fn is_next_number(next: Option<u64>, number: u32) -> bool
    ensures { result ≡ is_next_number next number }
{
    match next {
        Some(next) => next < LAST_PLACE && number_at(next) == number,
        None => false,
    }
}

/// Returns whether the octets of a segment are the next ones of a direction, where nothing waits.
fn is_next(own: &Flow, other: &Flow, segment: &Segment<'_>) -> bool
    ensures { result ≡ follows (segment_view segment.now) own.now other.now }
{
    own.waiting.len() == 0
        && other.waiting.len() == 0
        && other.next.is_some()
        && is_plain(segment)
        && is_next_number(own.next, segment.sequence)
        && awaited(other.next, segment.acknowledged) == 0
}

/// Reads a segment whose octets are the next ones of a direction, and returns whether it is one.
fn lend(own: &mut Flow, other: &mut Flow, segment: &Segment<'_>) -> bool
    ensures lent { result ≡ follows (segment_view segment.now) own.old other.old }
    ensures own { own.new ≡ lent_own (segment_view segment.now) own.old other.old }
    ensures other { other.new ≡ lent_other (segment_view segment.now) own.old other.old }
{
    if !is_next(own, other, segment) {
        return false;
    }
    let length = segment.payload.octets.len() as u64;
    own.next = own.next.map(|next| next + length);
    if segment.acknowledged.is_some() {
        other.acknowledged = segment.acknowledged;
    }
    true
}

/// Returns whether a piece may go: its places are the next ones, and what it acknowledges was given out.
fn may_go(piece: &Piece, own: Option<u64>, other: Option<u64>) -> bool
    ensures { result ≡ may_go own other piece.now }
{
    piece.at <= own.unwrap_or(0) && awaited(other, piece.acknowledged) == 0
}

/// Returns the frame of the piece of a direction that may go.
fn ready_frame(own: &Flow, other: &Flow) -> Option<u64>
    ensures { result ≡ ready_frame own.now other.now }
{
    let piece = own.waiting.first()?;
    if may_go(piece, own.next, other.next) {
        Some(piece.recorded.frame)
    } else {
        None
    }
}

/// Returns the frame of the first piece of a direction.
fn first_frame(own: &Flow) -> Option<u64>
    ensures { result ≡ first_frame own.now }
{
    let piece = own.waiting.first()?;
    Some(piece.recorded.frame)
}

/// Returns the end with the lower frame, where one has a frame.
fn lower(opener: Option<u64>, answerer: Option<u64>) -> Option<End>
    ensures { result ≡ lower opener answerer }
{
    match opener {
        Some(frame) => match answerer {
            Some(other) if other < frame => Some(End::Answerer),
            _ => Some(End::Opener),
        },
        None => answerer.map(|_| End::Answerer),
    }
}

/// Returns whether the first piece of a direction is at its next place.
fn is_at_next(flow: &Flow) -> bool
    ensures { result ≡ is_at_next flow.now }
{
    match flow.waiting.first() {
        Some(piece) => piece.at <= flow.next.unwrap_or(0),
        None => false,
    }
}

/// Returns how many octets of the other direction come before a piece: at most those up to the first that has a piece.
fn lacking(piece: &Piece, other: &Flow) -> u64
    ensures { result ≡ lacking piece.now other.now }
{
    let awaited = awaited(other.next, piece.acknowledged);
    match other.waiting.first() {
        Some(first) => awaited.min(first.at.saturating_sub(other.next.unwrap_or(0))),
        None => awaited,
    }
}

/// Returns the first octets that a piece waits for.
fn missing_for(by: End, piece: &Piece, own: &Flow, other: &Flow) -> Missing
    ensures { result ≡ missing_for by piece.now own.now other.now }
{
    let recorded = piece.recorded;
    let octets = piece.at.saturating_sub(own.next.unwrap_or(0));
    if octets > 0 {
        return Missing {
            gap: StreamGap {
                end: by,
                octets,
                recorded,
            },
            until: piece.at,
        };
    }
    let octets = lacking(piece, other);
    Missing {
        gap: StreamGap {
            end: by.other(),
            octets,
            recorded,
        },
        until: other.next.unwrap_or(0) + octets,
    }
}

/// Returns the first octets that the first piece of a direction waits for.
fn missing_of(by: End, own: &Flow, other: &Flow) -> Option<Missing>
    ensures { result ≡ missing_of by own.now other.now }
{
    let piece = own.waiting.first()?;
    Some(missing_for(by, piece, own, other))
}

/// Returns whether no further segment will have the next octets of a direction, as far as its acknowledgements show it.
fn patience_is_over(flow: &Flow, waiting: usize) -> bool
    ensures { result ≡ patience_is_over flow.now waiting }
{
    match flow.acknowledged {
        Some(number) => {
            PATIENCE < waiting && is_after(number_at(flow.next.unwrap_or(0)), number)
        }
        None => PATIENCE_ONE_WAY < waiting,
    }
}

/// Returns whether the last octet that waits was acknowledged.
fn is_acknowledged(flow: &Flow) -> bool
    ensures { result ≡ is_acknowledged flow.now }
{
    match flow.waiting.last_number() {
        Some(last) => match flow.acknowledged {
            Some(number) => !is_after(number, last),
            None => false,
        },
        None => true,
    }
}

impl Connection {
    ghost use Rattle.tcp_streams.specs.Connections.{IsEvent, cost, fed_after, fed_of, given, given_up, goes_on, has_ended, has_next, is_next, is_over, is_overdue, lent_if, last_event, lost, missing, new_connection, next_event, seen_ends, turn, was_seen};
    ghost use Rattle.tcp_streams.specs.Progress.{steps};

    /// Returns a connection of which nothing was read.
    pub fn new(alloc: Global) -> Self
        ensures { result ≡ new_connection }
    {
        Connection {
            opener: Flow::new(alloc),
            answerer: Flow::new(alloc),
        }
    }

    /// Reads a segment. What it has waits then, until `next` gives it out. Where memory is refused, nothing of its direction
    /// waits any more.
    pub fn feed(
        &mut self,
        from: End,
        segment: &Segment<'_>,
        recorded: Recorded,
    ) -> Result<Fed, AllocError>
        ensures after { OnOk result (self.new ≡ fed_after from (segment_view segment.now) recorded self.old) }
        ensures fed { IfOk result (λ fed. fed ≡ fed_of from (segment_view segment.now) recorded self.old) }
    {
        match from {
            End::Opener => feed(
                &mut self.opener,
                &mut self.answerer,
                from,
                segment,
                recorded,
            ),
            End::Answerer => feed(
                &mut self.answerer,
                &mut self.opener,
                from,
                segment,
                recorded,
            ),
        }
    }

    /// Returns whether a SYN belongs to the connection: it comes again, or it was recorded after its answer. Otherwise it
    /// opens another connection between these ports.
    pub fn goes_on(&self, from: End, segment: &Segment<'_>) -> bool
        ensures { result ≡ goes_on from (segment_view segment.now) self.now }
    {
        let flow = match from {
            End::Opener => &self.opener,
            End::Answerer => &self.answerer,
        };
        match flow.first {
            Some(first) => first == segment.sequence,
            None => !self.is_over() && begins_with(flow.next, segment),
        }
    }

    /// Gives up what waits, where the caller reads the connection no more.
    pub fn give_up(&mut self)
        ensures { self.new ≡ given_up self.old }
    {
        self.opener.waiting.clear();
        self.answerer.waiting.clear();
    }

    /// Fast path: reads a segment whose octets are the next ones of its direction, where nothing waits, and returns whether
    /// it is one. Otherwise nothing changes, and `feed` reads it.
    pub fn lend(&mut self, from: End, segment: &Segment<'_>) -> bool
        ensures lent { result ≡ is_next from (segment_view segment.now) self.old }
        ensures after { self.new ≡ lent_if from (segment_view segment.now) self.old }
    {
        match from {
            End::Opener => lend(&mut self.opener, &mut self.answerer, segment),
            End::Answerer => lend(&mut self.answerer, &mut self.opener, segment),
        }
    }

    /// Returns what the pieces that wait cost in memory, in octets: 512 besides those of each.
    pub fn cost(&self) -> u64
        ensures { result ≡ cost self.now }
    {
        self.answerer
            .waiting
            .cost_from(self.opener.waiting.cost_from(0))
    }

    /// Returns the end whose piece goes next: of those that may go the one of the lower frame.
    fn turn(&self) -> Option<End>
        ensures { result ≡ turn self.now }
    {
        lower(
            ready_frame(&self.opener, &self.answerer),
            ready_frame(&self.answerer, &self.opener),
        )
    }

    /// Returns the first octets that the piece of the lowest frame waits for.
    fn missing(&self) -> Option<Missing>
        ensures { result ≡ missing self.now }
    {
        match lower(first_frame(&self.opener), first_frame(&self.answerer)) {
            Some(End::Opener) => missing_of(End::Opener, &self.opener, &self.answerer),
            Some(End::Answerer) => missing_of(End::Answerer, &self.answerer, &self.opener),
            None => None,
        }
    }

    /// Returns whether a segment of an end was recorded that opened its direction or acknowledged the other one.
    pub fn was_seen(&self, end: End) -> bool
        ensures { result ≡ was_seen end self.now }
    {
        match end {
            End::Opener => self.opener.first.is_some() || self.answerer.acknowledged.is_some(),
            End::Answerer => self.answerer.first.is_some() || self.opener.acknowledged.is_some(),
        }
    }

    /// Returns the ends of which such a segment was recorded.
    pub fn seen_ends(&self) -> EndSet
        ensures { result ≡ seen_ends self.now }
    {
        EndSet {
            opener: self.was_seen(End::Opener),
            answerer: self.was_seen(End::Answerer),
        }
    }

    /// Returns whether both ends sent a FIN and acknowledged all octets, or one did of which the other was never recorded.
    fn has_ended(&self) -> bool
        ensures { result ≡ has_ended self.now }
    {
        let (opener, answerer) = (self.opener.is_leaving, self.answerer.is_leaving);
        opener && answerer && is_acknowledged(&self.opener) && is_acknowledged(&self.answerer)
            || opener && !self.was_seen(End::Answerer)
            || answerer && !self.was_seen(End::Opener)
    }

    /// Returns whether missing octets are given up.
    fn is_overdue(&self, missing: &Missing, is_memory_full: bool) -> bool
        ensures { result ≡ is_overdue missing.now.gap.end is_memory_full self.now }
    {
        let waiting = self.opener.waiting.len() + self.answerer.waiting.len();
        let flow = match missing.gap.end {
            End::Opener => &self.opener,
            End::Answerer => &self.answerer,
        };
        is_memory_full
            || MOST_WAITING < self.cost()
            || self.has_ended()
            || patience_is_over(flow, waiting)
    }

    /// Gives out the first piece of an end.
    fn give(&mut self, end: End) -> Option<Event>
        ensures { IsEvent (given end self.old) self.old result self.new }
    {
        let piece = match end {
            End::Opener => self.opener.pop()?,
            End::Answerer => self.answerer.pop()?,
        };
        Some(Event::Piece(end, piece))
    }

    /// Returns whether a piece that waits is at the next place of its direction.
    fn has_next(&self, end: End) -> bool
        ensures { result ≡ has_next end self.now }
    {
        match end {
            End::Opener => is_at_next(&self.opener),
            End::Answerer => is_at_next(&self.answerer),
        }
    }

    /// Gives up octets that are missing. Where a piece has the next ones, each direction acknowledges what comes next in
    /// the other one: that piece is given out.
    fn lose(&mut self, missing: &Missing) -> Option<Event>
        ensures { IsEvent (lost missing.now self.old) self.old result self.new }
    {
        let gap = missing.gap;
        if self.has_next(gap.end) {
            return self.give(gap.end);
        }
        match gap.end {
            End::Opener => self.opener.next = Some(missing.until),
            End::Answerer => self.answerer.next = Some(missing.until),
        }
        Some(Event::Gap(gap))
    }

    /// Returns what comes next, where it need not wait: the piece of the lowest frame that may go; where none may, octets
    /// that will not come. `is_memory_full`: more waits in all connections than memory is for.
    pub fn next(&mut self, is_memory_full: bool) -> Option<Event>
        ensures event { IsEvent (next_event is_memory_full self.old) self.old result self.new }
        ensures ends { IfSome result (λ event. steps self.new < steps self.old) }
    {
        if let Some(end) = self.turn() {
            return self.give(end);
        }
        let missing = self.missing()?;
        if self.is_overdue(&missing, is_memory_full) {
            self.lose(&missing)
        } else {
            None
        }
    }

    /// Returns what comes next after the last segment. What is missing doesn't come then.
    pub fn finish(&mut self) -> Option<Event>
        ensures event { IsEvent (last_event self.old) self.old result self.new }
        ensures ends { IfSome result (λ event. steps self.new < steps self.old) }
    {
        if let Some(end) = self.turn() {
            return self.give(end);
        }
        let octets = self.missing()?;
        self.lose(&octets)
    }

    /// Returns whether the FINs of both ends were given out.
    pub fn is_over(&self) -> bool
        ensures { result ≡ is_over self.now }
    {
        self.opener.is_ended && self.answerer.is_ended
    }
}
