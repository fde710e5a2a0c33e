//! The connections of a recording, as XOT.

ghost use Rattle.std.specs.Prelude.{◌≡◌, ◌++◌, [], IfOk, OnOk, map};
ghost use Rattle.tcp_streams.specs.Tables.{table_of};
ghost use Rattle.xot_circuits.specs.Exchanges.{events_read};
ghost use Rattle.xot_circuits.specs.Recordings.{feed_passage, last_events, last_table, left_events, next_events, next_table, origin_in, passage, recording_items, seen_view};

use crate::exchange::Exchange;
use crate::item::{CircuitGap, Items, Origin};
use crate::roles::Roles;
use ip_segments::segment::Segment;
use std::alloc::{AllocError, Global};
use std::collections::BTreeMap;
use tcp_streams::connection::{Connection, End};
use tcp_streams::connections::{Connections, Place, Placed, Tracked};
use tcp_streams::ends::Ends;
use tcp_streams::piece::Recorded;

/// A segment of a recording.
#[derive(Clone, Copy)]
pub struct Seen<'a> {
    /// Where it comes from, and where it goes.
    pub ends: Ends,
    /// Whether its sender would answer a connection that it begins: its port is one of XOT, and that of the other end is not.
    pub is_from_server: bool,
    /// The segment.
    pub segment: Segment<'a>,
    /// Its frame.
    pub recorded: Recorded,
}

/// A connection that has not ended.
#[derive(Drop)]
pub struct LiveConnection {
    /// Its ends.
    pub ends: Ends,
    /// What is read of it.
    pub exchange: Exchange,
}

/// The connections of a recording, and what is read of each that has not ended.
#[derive(Drop)]
pub struct Recording {
    roles: Roles,
    connections: Connections,
    live: BTreeMap<u64, LiveConnection>,
    alloc: Global,
}

impl Seen<'_> {
    /// Returns where its octets come from, at a place.
    fn origin(&self, place: &Place) -> Origin
        ensures { result ≡ origin_in place.now (seen_view self.now) }
    {
        Origin {
            connection: place.number,
            from: place.from,
            recorded: self.recorded,
        }
    }
}

/// Reads what comes next in a connection, as far as nothing is missing that may come.
fn read_next<I: Items>(
    connections: &mut Connections,
    place: &Place,
    exchange: &mut Exchange,
    out: &mut I,
) -> Result<(), AllocError>
    ensures table { OnOk result (table_of connections.new ≡ next_table place.now (table_of connections.old)) }
    ensures exchange { OnOk result (exchange.new ≡ (events_read place.now.number (next_events place.now (table_of connections.old)) exchange.old).after) }
    ensures items { OnOk result (I.taken out.new
        ≡ I.taken out.old ++ (events_read place.now.number (next_events place.now (table_of connections.old)) exchange.old).items) }
{
    while let Some(event) = connections.next(place) {
        exchange.take(place.number, &event, out)?;
    }
    Ok(())
}

/// Reads what is left in a connection.
fn read_last<I: Items>(
    connections: &mut Connections,
    place: &Place,
    exchange: &mut Exchange,
    out: &mut I,
) -> Result<(), AllocError>
    ensures table { OnOk result (table_of connections.new ≡ last_table place.now (table_of connections.old)) }
    ensures exchange { OnOk result (exchange.new ≡ (events_read place.now.number (last_events place.now (table_of connections.old)) exchange.old).after) }
    ensures items { OnOk result (I.taken out.new
        ≡ I.taken out.old ++ (events_read place.now.number (last_events place.now (table_of connections.old)) exchange.old).items) }
{
    while let Some(event) = connections.finish(place) {
        exchange.take(place.number, &event, out)?;
    }
    Ok(())
}

/// Reads what is left in a connection that was taken from its table.
fn read_taken<I: Items>(
    connection: &mut Connection,
    number: u64,
    exchange: &mut Exchange,
    out: &mut I,
) -> Result<(), AllocError>
    ensures exchange { OnOk result (exchange.new ≡ (events_read number (left_events connection.old) exchange.old).after) }
    ensures items { OnOk result (I.taken out.new ≡ I.taken out.old ++ (events_read number (left_events connection.old) exchange.old).items) }
{
    while let Some(event) = connection.finish() {
        exchange.take(number, &event, out)?;
    }
    Ok(())
}

/// Reads a segment of a connection, after those that come before it. Returns whether it ends the connection.
fn feed<I: Items>(
    connections: &mut Connections,
    place: &Place,
    exchange: &mut Exchange,
    seen: &Seen<'_>,
    out: &mut I,
) -> Result<bool, AllocError>
    ensures table { OnOk result (table_of connections.new ≡ (feed_passage place.now (seen_view seen.now) (table_of connections.old) exchange.old).table) }
    ensures exchange { OnOk result (exchange.new ≡ (feed_passage place.now (seen_view seen.now) (table_of connections.old) exchange.old).exchange) }
    ensures items { OnOk result (I.taken out.new
        ≡ I.taken out.old ++ (feed_passage place.now (seen_view seen.now) (table_of connections.old) exchange.old).items) }
    ensures ends { IfOk result (λ ends. ends ≡ (feed_passage place.now (seen_view seen.now) (table_of connections.old) exchange.old).ends) }
{
    let Some(fed) = connections.feed(place, &seen.segment, seen.recorded)? else {
        return Ok(false);
    };
    exchange.show(&seen.origin(place), &fed);
    read_next(connections, place, exchange, out)?;
    if exchange.is_left() {
        connections.give_up(place);
    }
    Ok(seen.segment.is_reset || connections.is_over(place))
}

/// Reads a segment of a connection. Returns whether it ends the connection. One that does not carry XOT is passed over.
fn pass<I: Items>(
    connections: &mut Connections,
    place: &Place,
    exchange: &mut Exchange,
    seen: &Seen<'_>,
    out: &mut I,
) -> Result<bool, AllocError>
    ensures table { OnOk result (table_of connections.new ≡ (passage place.now (seen_view seen.now) (table_of connections.old) exchange.old).table) }
    ensures exchange { OnOk result (exchange.new ≡ (passage place.now (seen_view seen.now) (table_of connections.old) exchange.old).exchange) }
    ensures items { OnOk result (I.taken out.new
        ≡ I.taken out.old ++ (passage place.now (seen_view seen.now) (table_of connections.old) exchange.old).items) }
    ensures ends { IfOk result (λ ends. ends ≡ (passage place.now (seen_view seen.now) (table_of connections.old) exchange.old).ends) }
{
    if exchange.is_left() {
        return Ok(seen.segment.is_reset);
    }
    if !connections.lend(place, &seen.segment) {
        return feed(connections, place, exchange, seen, out);
    }
    exchange.read(&seen.origin(place), seen.segment.payload.octets, out)?;
    Ok(false)
}

impl Recording {
    ghost use Rattle.xot_circuits.specs.Recordings.{at_read, begun, closed, finished, last_items, last_place, new_recorder, passed, read_of, recorder_of, replaced};

    /// Returns a recording of which nothing was read.
    pub fn new(alloc: Global, roles: Roles) -> Recording
        ensures { recorder_of result ≡ new_recorder roles }
    {
        Recording {
            roles,
            connections: Connections::new(alloc),
            live: BTreeMap::new(alloc),
            alloc,
        }
    }

    /// Reads the next segment, and gives out what it completes. Fails only when memory is refused; drop the recording then.
    pub fn read<I: Items>(&mut self, seen: &Seen<'_>, out: &mut I) -> Result<(), AllocError>
        ensures after { OnOk result (recorder_of self.new ≡ (read_of (seen_view seen.now) (recorder_of self.old)).after) }
        ensures items { OnOk result (I.taken out.new ≡ I.taken out.old ++ (read_of (seen_view seen.now) (recorder_of self.old)).items) }
    {
        let placed = self
            .connections
            .place(seen.ends, &seen.segment, seen.is_from_server)?;
        match placed {
            Placed::GoesOn(place) => self.read_at(&place, seen, out),
            Placed::Begins(place, before) => {
                self.replace(before, seen.recorded, out)?;
                self.begin(&place, seen)?;
                self.read_at(&place, seen, out)
            }
            Placed::Nowhere => Ok(()),
        }
    }

    /// Ends a connection that was taken from the table.
    fn replace<I: Items>(
        &mut self,
        before: Option<Tracked>,
        recorded: Recorded,
        out: &mut I,
    ) -> Result<(), AllocError>
        ensures after { OnOk result (recorder_of self.new ≡ (replaced before recorded (recorder_of self.old)).after) }
        ensures items { OnOk result (I.taken out.new ≡ I.taken out.old ++ (replaced before recorded (recorder_of self.old)).items) }
    {
        let Some(tracked) = before else {
            return Ok(());
        };
        let Some(live) = self.live.remove(&tracked.number) else {
            return Ok(());
        };
        let ends = live.ends;
        let (mut connection, mut exchange) = (tracked.connection, live.exchange);
        exchange.note_seen(connection.seen_ends());
        read_taken(&mut connection, tracked.number, &mut exchange, out)?;
        exchange.end(ends, tracked.number, Some(recorded), out)
    }

    /// Begins a connection.
    fn begin(&mut self, place: &Place, seen: &Seen<'_>) -> Result<(), AllocError>
        ensures { OnOk result (recorder_of self.new ≡ begun place.now (seen_view seen.now) (recorder_of self.old)) }
    {
        let gap = if seen.segment.is_syn {
            None
        } else {
            Some(CircuitGap {
                connection: place.number,
                recorded: seen.recorded,
                is_beginning: true,
            })
        };
        let live = LiveConnection {
            ends: place.ends,
            exchange: Exchange::new(self.alloc, self.roles.opener_side(&place.ends), gap),
        };
        self.live.insert(place.number, live)?;
        Ok(())
    }

    /// Reads a segment of a connection. One that has ended is passed over.
    fn read_at<I: Items>(
        &mut self,
        place: &Place,
        seen: &Seen<'_>,
        out: &mut I,
    ) -> Result<(), AllocError>
        ensures after { OnOk result (recorder_of self.new ≡ (at_read place.now (seen_view seen.now) (recorder_of self.old)).after) }
        ensures items { OnOk result (I.taken out.new ≡ I.taken out.old ++ (at_read place.now (seen_view seen.now) (recorder_of self.old)).items) }
    {
        if self.pass(place, seen, out)? {
            self.end(place, seen.recorded, out)
        } else {
            Ok(())
        }
    }

    /// Reads a segment of a connection. Returns whether it ends the connection.
    fn pass<I: Items>(
        &mut self,
        place: &Place,
        seen: &Seen<'_>,
        out: &mut I,
    ) -> Result<bool, AllocError>
        ensures after { OnOk result (recorder_of self.new ≡ (passed place.now (seen_view seen.now) (recorder_of self.old)).after) }
        ensures items { OnOk result (I.taken out.new ≡ I.taken out.old ++ (passed place.now (seen_view seen.now) (recorder_of self.old)).items) }
        ensures ends { IfOk result (λ ends. ends ≡ (passed place.now (seen_view seen.now) (recorder_of self.old)).ends) }
    {
        match self.live.get_mut(&place.number) {
            Some(live) => pass(&mut self.connections, place, &mut live.exchange, seen, out),
            None => Ok(false),
        }
    }

    /// Ends a connection.
    fn end<I: Items>(
        &mut self,
        place: &Place,
        recorded: Recorded,
        out: &mut I,
    ) -> Result<(), AllocError>
        ensures after { OnOk result (recorder_of self.new ≡ (finished place.now recorded (recorder_of self.old)).after) }
        ensures items { OnOk result (I.taken out.new ≡ I.taken out.old ++ (finished place.now recorded (recorder_of self.old)).items) }
    {
        let Some(live) = self.live.remove(&place.number) else {
            return Ok(());
        };
        let ends = live.ends;
        let mut exchange = live.exchange;
        exchange.note_seen(self.connections.seen_ends(place));
        read_last(&mut self.connections, place, &mut exchange, out)?;
        exchange.end(ends, place.number, Some(recorded), out)?;
        self.connections.end(place)
    }

    /// Gives out what is left at the end of the recording: one connection after the other, in the order of their numbers.
    pub fn finish<I: Items>(&mut self, out: &mut I) -> Result<(), AllocError>
        ensures live { OnOk result ((recorder_of self.new).live ≡ []) }
        ensures items { OnOk result (I.taken out.new
            ≡ I.taken out.old ++ closed (recorder_of self.old).live (recorder_of self.old).table) }
    {
        while let Some((number, live)) = self.live.pop_first() {
            self.close(number, live, out)?;
        }
        Ok(())
    }

    /// Gives out what is left in a connection at the end of the recording.
    fn close<I: Items>(
        &mut self,
        number: u64,
        live: LiveConnection,
        out: &mut I,
    ) -> Result<(), AllocError>
        ensures live { OnOk result ((recorder_of self.new).live ≡ (recorder_of self.old).live) }
        ensures table { OnOk result ((recorder_of self.new).table ≡ last_table (last_place number live) (recorder_of self.old).table) }
        ensures items { OnOk result (I.taken out.new
            ≡ I.taken out.old ++ last_items (last_place number live) None (recorder_of self.old).table live) }
    {
        let place = Place {
            ends: live.ends,
            from: End::Opener,
            number,
        };
        let mut exchange = live.exchange;
        exchange.note_seen(self.connections.seen_ends(&place));
        read_last(&mut self.connections, &place, &mut exchange, out)?;
        exchange.end(place.ends, number, None, out)
    }
}

/// Reads a whole recording. Fails only when memory is refused.
pub fn read_all<I: Items>(
    alloc: Global,
    roles: Roles,
    segments: &[Seen<'_>],
    out: &mut I,
) -> Result<(), AllocError>
    ensures { OnOk result (I.taken out.new ≡ I.taken out.old ++ recording_items roles (map seen_view segments.now)) }
{
    let mut recording = Recording::new(alloc, roles);
    for seen in segments {
        recording.read(seen, out)?;
    }
    recording.finish(out)
}
