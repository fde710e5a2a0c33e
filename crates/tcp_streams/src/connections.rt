//! The connections of a recording, by their ends.

ghost use Rattle.std.specs.Prelude.{◌≡◌, ◌<◌, IfOk, IfSome, MatchOption, None, OnOk, Some};
ghost use Rattle.ip_segments.specs.Views.{segment_view};
ghost use Rattle.tcp_streams.specs.Tables.{opener_first, opens, opens_as, recharged};

use crate::connection::{Connection, End, EndSet, Event, Fed};
use crate::ends::Ends;
use crate::piece::Recorded;
use ip_segments::segment::Segment;
use std::alloc::{AllocError, Global};
use std::collections::{BTreeMap, VecDeque};

/// How many connections that are over are remembered.
const MOST_OVER: usize = 1000;
/// The most that may wait in all connections, as `Connection::cost` counts it.
const MOST_WAITING: u64 = 1 << 26;

/// A connection with its number.
#[derive(Drop)]
pub struct Tracked {
    /// Its number: that of the first connection is 1.
    pub number: u64,
    /// What was read of it.
    pub connection: Connection,
}

/// Which connection a segment belongs to.
#[derive(Clone, Copy, PartialEq, Eq, Debug)]
pub struct Place {
    /// The ends of the connection: its opener is the first one.
    pub ends: Ends,
    /// The end that sent the segment.
    pub from: End,
    /// The number of the connection.
    pub number: u64,
}

/// What a segment does.
#[derive(Drop)]
pub enum Placed {
    /// It goes on with a connection.
    GoesOn(Place),
    /// It begins a connection, and ends the one before it between its ends.
    Begins(Place, Option<Tracked>),
    /// It belongs to none, and has no octets.
    Nowhere,
}

/// The connections of a recording: of those between two ends the latest one.
#[derive(Drop)]
pub struct Connections {
    latest: BTreeMap<Ends, Tracked>,
    begun: u64,
    /// Those that are over, the first one first.
    over: VecDeque<Place>,
    /// What waits in all of them.
    waiting: u64,
    alloc: Global,
}

/// Returns whether a segment begins a connection, where none is known between its ends: a SYN does, and octets do.
fn opens(segment: &Segment<'_>) -> bool
    ensures { result ≡ opens (segment_view segment.now) }
{
    segment.is_syn
        || !segment.is_reset && (0 < segment.payload.octets.len() || 0 < segment.payload.length)
}

/// Returns whose segment is the first one of a connection: the opener's, unless it is a SYN that answers another one, or
/// else comes from a server.
fn opens_as(segment: &Segment<'_>, is_from_server: bool) -> End
    ensures { result ≡ opens_as is_from_server (segment_view segment.now) }
{
    let is_answer = if segment.is_syn {
        segment.acknowledged.is_some()
    } else {
        is_from_server
    };
    if is_answer {
        End::Answerer
    } else {
        End::Opener
    }
}

/// Returns the ends of a connection, its opener first, of which one sends a segment.
fn opener_first(ends: Ends, from: End) -> Ends
    ensures { result ≡ opener_first from ends }
{
    match from {
        End::Opener => ends,
        End::Answerer => ends.turned(),
    }
}

/// Returns what waits in all connections, where what waits in one of them changes.
fn recharged(waiting: u64, before: u64, after: u64) -> u64
    ensures { result ≡ recharged waiting before after }
{
    waiting.saturating_add(after).saturating_sub(before)
}

impl Tracked {
    ghost use Rattle.tcp_streams.specs.Tables.{goes_on_with};

    /// Returns the place in it of what an end sends. These are its ends.
    fn place(&self, ends: Ends, from: End) -> Place
        ensures { result ≡ record { ends = ends; from = from; number = self.now.number } }
    {
        Place {
            ends,
            from,
            number: self.number,
        }
    }

    /// Returns whether a segment of an end goes on with it: each one does, apart from a SYN that opens another.
    fn goes_on(&self, from: End, segment: &Segment<'_>) -> bool
        ensures { result ≡ goes_on_with (Some self.now) from (segment_view segment.now) }
    {
        !segment.is_syn || self.connection.goes_on(from, segment)
    }
}

impl Connections {
    ghost use Rattle.tcp_streams.specs.Tables.{begun_after, begun_place, ended_after, fed_at, fed_in, forgotten, found, given_up_in, is_lent_at, is_over_at, last_at, last_in, lent_in, next_at, next_in, no_connections, opened_by, placed, placed_after, seen_ends_at, table_of, without};
    ghost use Rattle.tcp_streams.specs.Progress.{steps_at};

    /// Returns a table without a connection.
    pub fn new(alloc: Global) -> Self
        ensures { table_of result ≡ no_connections }
    {
        Connections {
            latest: BTreeMap::new(alloc),
            begun: 0,
            over: VecDeque::new(alloc),
            waiting: 0,
            alloc,
        }
    }

    /// Returns the latest connection between two ends, and the place in it of what the first one sends.
    fn meet(&self, ends: Ends) -> Option<(Place, &Tracked)>
        ensures { MatchOption result (found ends (table_of self.now) ≡ None)
            (λ met. (found ends (table_of self.now) ≡ Some met.0) × (opened_by met.0.ends (table_of self.now) ≡ Some met.1.now)) }
    {
        if let Some(tracked) = self.latest.get(&ends) {
            return Some((tracked.place(ends, End::Opener), tracked));
        }
        let ends = ends.turned();
        let tracked = self.latest.get(&ends)?;
        Some((tracked.place(ends, End::Answerer), tracked))
    }

    /// Returns the place of what one end sends to another: that in the latest connection between them.
    pub fn find(&self, ends: Ends) -> Option<Place>
        ensures { result ≡ found ends (table_of self.now) }
    {
        let (place, _) = self.meet(ends)?;
        Some(place)
    }

    /// Takes the connection of an opener from the table.
    fn take(&mut self, ends: &Ends) -> Option<Tracked>
        ensures taken { result ≡ opened_by ends.now (table_of self.old) }
        ensures after { table_of self.new ≡ without ends.now (table_of self.old) }
    {
        let tracked = self.latest.remove(ends)?;
        self.waiting = recharged(self.waiting, tracked.connection.cost(), 0);
        Some(tracked)
    }

    /// Begins a connection, and returns the place of what its one end sends.
    fn begin(&mut self, ends: Ends, from: End) -> Result<Place, AllocError>
        ensures place { IfOk result (λ place. place ≡ begun_place ends from (table_of self.old)) }
        ensures after { OnOk result (table_of self.new ≡ begun_after ends from (table_of self.old)) }
    {
        let number = self.begun.saturating_add(1);
        let ends = opener_first(ends, from);
        let tracked = Tracked {
            number,
            connection: Connection::new(self.alloc),
        };
        self.latest.insert(ends, tracked)?;
        self.begun = number;
        Ok(Place { ends, from, number })
    }

    /// Returns which connection a segment belongs to that one end sends to another. Where it begins one, `is_from_server`
    /// says whether its sender would answer. The connection before it between these ends is taken from the table then: the
    /// caller finishes it.
    pub fn place(
        &mut self,
        ends: Ends,
        segment: &Segment<'_>,
        is_from_server: bool,
    ) -> Result<Placed, AllocError>
        ensures placed { IfOk result (λ p. p ≡ placed ends is_from_server (segment_view segment.now) (table_of self.old)) }
        ensures after { OnOk result (table_of self.new
            ≡ placed_after ends is_from_server (segment_view segment.now) (table_of self.old)) }
    {
        let mut before = None;
        match self.meet(ends) {
            Some((place, tracked)) => {
                if tracked.goes_on(place.from, segment) {
                    return Ok(Placed::GoesOn(place));
                }
                before = self.take(&place.ends);
            }
            None => {
                if !opens(segment) {
                    return Ok(Placed::Nowhere);
                }
            }
        }
        let place = self.begin(ends, opens_as(segment, is_from_server))?;
        Ok(Placed::Begins(place, before))
    }

    /// Fast path: reads a segment at a place as `Connection::lend` does, and returns whether it is read.
    pub fn lend(&mut self, place: &Place, segment: &Segment<'_>) -> bool
        ensures lent { result ≡ is_lent_at place.now (segment_view segment.now) (table_of self.old) }
        ensures after { table_of self.new ≡ lent_in place.now (segment_view segment.now) (table_of self.old) }
    {
        match self.latest.get_mut(&place.ends) {
            Some(tracked) => tracked.connection.lend(place.from, segment),
            None => false,
        }
    }

    /// Reads a segment at a place as `Connection::feed` does; `None` where no connection is there.
    pub fn feed(
        &mut self,
        place: &Place,
        segment: &Segment<'_>,
        recorded: Recorded,
    ) -> Result<Option<Fed>, AllocError>
        ensures fed { IfOk result (λ fed. fed ≡ fed_at place.now (segment_view segment.now) recorded (table_of self.old)) }
        ensures after { OnOk result (table_of self.new
            ≡ fed_in place.now (segment_view segment.now) recorded (table_of self.old)) }
    {
        match self.latest.get_mut(&place.ends) {
            Some(tracked) => {
                let before = tracked.connection.cost();
                let fed = tracked.connection.feed(place.from, segment, recorded)?;
                self.waiting = recharged(self.waiting, before, tracked.connection.cost());
                Ok(Some(fed))
            }
            None => Ok(None),
        }
    }

    /// Returns what comes next in the connection at a place, as `Connection::next` does. Memory is full where more than
    /// 64 MiB wait in all connections.
    #[tactic(auto, using(crate::proofs::Progress::next_at_ends))]
    pub fn next(&mut self, place: &Place) -> Option<Event>
        ensures event { result ≡ next_at place.now (table_of self.old) }
        ensures after { table_of self.new ≡ next_in place.now (table_of self.old) }
        ensures ends { IfSome result (λ event. steps_at place.now (table_of self.new) < steps_at place.now (table_of self.old)) }
    {
        let is_memory_full = MOST_WAITING < self.waiting;
        match self.latest.get_mut(&place.ends) {
            Some(tracked) => {
                let before = tracked.connection.cost();
                let event = tracked.connection.next(is_memory_full);
                self.waiting = recharged(self.waiting, before, tracked.connection.cost());
                event
            }
            None => None,
        }
    }

    /// Returns what comes next in the connection at a place after its last segment, as `Connection::finish` does.
    #[tactic(auto, using(crate::proofs::Progress::last_at_ends))]
    pub fn finish(&mut self, place: &Place) -> Option<Event>
        ensures event { result ≡ last_at place.now (table_of self.old) }
        ensures after { table_of self.new ≡ last_in place.now (table_of self.old) }
        ensures ends { IfSome result (λ event. steps_at place.now (table_of self.new) < steps_at place.now (table_of self.old)) }
    {
        match self.latest.get_mut(&place.ends) {
            Some(tracked) => {
                let before = tracked.connection.cost();
                let event = tracked.connection.finish();
                self.waiting = recharged(self.waiting, before, tracked.connection.cost());
                event
            }
            None => None,
        }
    }

    /// Gives up what waits in the connection at a place, where the caller reads it no more.
    pub fn give_up(&mut self, place: &Place)
        ensures { table_of self.new ≡ given_up_in place.now (table_of self.old) }
    {
        if let Some(tracked) = self.latest.get_mut(&place.ends) {
            let before = tracked.connection.cost();
            tracked.connection.give_up();
            self.waiting = recharged(self.waiting, before, tracked.connection.cost());
        }
    }

    /// Returns the ends of the connection at a place of which segments were recorded, as `Connection::seen_ends` does.
    pub fn seen_ends(&self, place: &Place) -> EndSet
        ensures { result ≡ seen_ends_at place.now (table_of self.now) }
    {
        match self.latest.get(&place.ends) {
            Some(tracked) => tracked.connection.seen_ends(),
            None => EndSet::none(),
        }
    }

    /// Returns whether the connection at a place is over: the FINs of both ends were given out.
    pub fn is_over(&self, place: &Place) -> bool
        ensures { result ≡ is_over_at place.now (table_of self.now) }
    {
        match self.latest.get(&place.ends) {
            Some(tracked) => tracked.connection.is_over(),
            None => false,
        }
    }

    /// Removes a connection from the table, unless another one is at its place.
    fn forget(&mut self, place: &Place)
        ensures { table_of self.new ≡ forgotten place.now (table_of self.old) }
    {
        let is_there = match self.latest.get(&place.ends) {
            Some(tracked) => tracked.number == place.number,
            None => false,
        };
        if is_there {
            self.take(&place.ends);
        }
    }

    /// Notes that a connection is over; callers say so once. It stays in the table for segments that come again. Of those
    /// that are over 1,000 stay at most: the first one is forgotten, unless another one began at its place.
    pub fn end(&mut self, place: &Place) -> Result<(), AllocError>
        ensures { OnOk result (table_of self.new ≡ ended_after place.now (table_of self.old)) }
    {
        self.over.push_back(*place)?;
        if self.over.len() <= MOST_OVER {
            return Ok(());
        }
        if let Some(first) = self.over.pop_front() {
            self.forget(&first);
        }
        Ok(())
    }
}
