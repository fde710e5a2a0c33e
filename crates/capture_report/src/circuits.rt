//! What the first reading of a capture of XOT shows: its circuits, and what their packets show of the header.

ghost use Rattle.std.specs.Prelude.{◌≡◌, ◌++◌, ◌≤◌, IfOk, IfSome, OnOk, Some, is_none, length, map, max, true};
ghost use Rattle.std.specs.Option.{option_map};
ghost use Rattle.xot_circuits.specs.Items.{item_view};
ghost use Rattle.capture_report.specs.CircuitChannels.{IsChannel, channel_of};
ghost use Rattle.capture_report.specs.CircuitLines.{circuits_text};
ghost use Rattle.capture_report.specs.CircuitRows.{circuit_row_view, is_typed_place};
ghost use Rattle.capture_report.specs.Circuits.{All, Of, begun, channel_in, circuit_ended, circuits_in, content_counted, ends_by, gap_counted, given_with, has_circuits, last_used, next_number, no_end, none_counted, packet_counted, permanent_count, wanted_of};
ghost use Rattle.capture_report.specs.Halves.{halves_of};
ghost use Rattle.capture_report.specs.Reasons.{without_channel};

use crate::circuit_batch::Batch;
use crate::circuit_lines::append_circuits;
use crate::circuit_row::{CircuitContent, CircuitRow, CircuitRule};
use crate::halves::HalfConnections;
use crate::header::Seen;
use crate::options::GivenHeader;
use crate::row::Row;
use crate::slots::Slots;
use lapb_link::frames::Place;
use line_model::interface::Interface;
use line_model::state::Side;
use std::alloc::{AllocError, Global};
use std::collections::BTreeMap;
use std::marker::Model;
use tcp_streams::ends::{Endpoint, Ends};
use xot_circuits::channels::{Purpose, Wanted, assign};
use xot_circuits::item::{EndedCircuit, Item};

/// The last logical channel.
const LAST_CHANNEL: usize = 4095;

/// The ends of a circuit by their sides.
#[derive(Clone, Copy)]
pub(crate) struct CircuitEnds {
    /// That of the DTE.
    pub dte: Endpoint,
    /// That of the DCE.
    pub dce: Endpoint,
}

/// A circuit with a packet.
#[derive(Clone, Copy)]
pub(crate) struct SeenCircuit {
    /// The number of its connection.
    pub connection: u64,
    /// For what it needs a logical channel, from its first packet to its last one.
    pub wanted: Wanted,
    /// Its ends.
    pub ends: CircuitEnds,
    /// The side that alone was recorded.
    pub alone: Option<Side>,
}

/// The circuits with a packet, and how many rows there are.
#[derive(Drop)]
struct CircuitCount {
    rows: u64,
    /// Their connections, in the order of the first packets.
    order: Vec<u64>,
    /// The circuits, by their connections.
    all: BTreeMap<u64, SeenCircuit>,
}

impl Model for CircuitCount {
    ghost use Rattle.capture_report.specs.Circuits.{Counted};

    ghost Value = { Counted };

    ghost view = { λ c. record { rows = c.rows; order = c.order.items; all = c.all.entries } };
}

/// Returns an end that is not known yet.
fn no_end() -> Endpoint
    ensures { result ≡ no_end }
{
    Endpoint {
        is_version_6: false,
        address: 0,
        port: 0,
    }
}

/// Returns a circuit whose first packet is a row. Until its connection ends, it is one of calls, its channel is not clear,
/// and its ends and what of it is missing are unknown.
fn begun(connection: u64, row: u64) -> SeenCircuit
    ensures { result ≡ begun connection row }
{
    SeenCircuit {
        connection,
        wanted: Wanted {
            purpose: Purpose::Calls(Side::T),
            first: row,
            last: row,
            is_clear: false,
        },
        ends: CircuitEnds {
            dte: no_end(),
            dce: no_end(),
        },
        alone: None,
    }
}

/// Returns the ends of a connection by their sides.
fn ends_by(opener: Side, ends: Ends) -> CircuitEnds
    ensures { result ≡ ends_by opener ends }
{
    match opener {
        Side::T => CircuitEnds {
            dte: ends.first,
            dce: ends.second,
        },
        Side::N => CircuitEnds {
            dte: ends.second,
            dce: ends.first,
        },
    }
}

impl CircuitCount {
    /// Returns no circuits. Allocates nothing.
    fn new(alloc: Global) -> CircuitCount
        ensures { result ≡ none_counted }
    {
        CircuitCount {
            rows: 0,
            order: Vec::new(alloc),
            all: BTreeMap::new(alloc),
        }
    }

    /// Counts a gap.
    fn add_gap(&mut self)
        ensures { self.new ≡ gap_counted self.old }
    {
        self.rows = self.rows.saturating_add(1);
    }

    /// Counts a packet. Fails only when memory is refused.
    fn add_packet(&mut self, connection: u64) -> Result<(), AllocError>
        ensures { OnOk result (self.new ≡ packet_counted connection self.old) }
    {
        self.rows = self.rows.saturating_add(1);
        if let Some(circuit) = self.all.get_mut(&connection) {
            circuit.wanted.last = self.rows;
            return Ok(());
        }
        self.order.push(connection)?;
        self.all.insert(connection, begun(connection, self.rows))?;
        Ok(())
    }

    /// Counts a row. Fails only when memory is refused.
    fn add(&mut self, row: &CircuitRow<'_>) -> Result<(), AllocError>
        ensures { OnOk result (self.new ≡ content_counted (circuit_row_view row.now).content row.now.connection self.old) }
    {
        match row.content {
            CircuitContent::Packet(..) => self.add_packet(row.connection),
            CircuitContent::Gap => {
                self.add_gap();
                Ok(())
            }
        }
    }

    /// Notes the end of a connection: what its circuit was, between which ends, and whether one side alone was recorded.
    fn end(&mut self, ended: &EndedCircuit)
        ensures { self.new ≡ circuit_ended ended.now self.old }
    {
        if let Some(circuit) = self.all.get_mut(&ended.connection) {
            circuit.wanted.purpose = ended.circuit.purpose();
            circuit.wanted.is_clear = ended.circuit.call.is_clear();
            circuit.ends = ends_by(ended.opener, ended.ends);
            circuit.alone = ended.alone;
        }
    }

    /// Returns the circuits in the order of their first packets. Fails only when memory is refused.
    fn in_order(&self, alloc: Global) -> Result<Vec<SeenCircuit>, AllocError>
        ensures { IfOk result (λ circuits. circuits.items ≡ circuits_in self.now) }
    {
        let mut circuits = Vec::new(alloc);
        for connection in &self.order {
            if let Some(circuit) = self.all.get(connection) {
                circuits.push(*circuit)?;
            }
        }
        Ok(circuits)
    }
}

/// The circuits of a recording, and what they show of the header.
#[derive(Drop)]
pub(crate) struct Circuits {
    rule: CircuitRule,
    counted: CircuitCount,
    slots: Slots,
    seen: Seen,
    /// No row has a greater number, where rows have the numbers of their frames.
    number: u64,
    octets: Vec<u8>,
}

impl Circuits {
    ghost use Rattle.capture_report.specs.CircuitSights.{first_circuit_sight, found_in, item_ended, item_joined, row_seen, seen_on, sight_in, slot_for, step_seen, steps_seen, with_circuit};
    ghost use Rattle.capture_report.specs.CircuitTexts.{are_typed, is_typed_step};

    /// Returns the circuits of a recording of which nothing was read. Allocates nothing.
    pub(crate) fn new(alloc: Global, rule: CircuitRule) -> Circuits
        ensures { sight_in result ≡ first_circuit_sight rule }
    {
        Circuits {
            rule,
            counted: CircuitCount::new(alloc),
            slots: Slots::new(alloc),
            seen: Seen::new(alloc),
            number: 0,
            octets: Vec::new(alloc),
        }
    }

    /// Sees what a frame completes. Fails only when memory is refused; drop the circuits then.
    pub(crate) fn see_all(&mut self, batch: &Batch) -> Result<(), AllocError>
        ensures seen { OnOk result (sight_in self.new ≡ steps_seen (map (λ i. Of i) batch.now) (sight_in self.old)) }
        ensures typed { OnOk result (are_typed (sight_in self.old).rule (map (λ i. Of i) batch.now) ≡ true) }
    {
        for index in 0..batch.len() {
            self.see_item(&batch.item(index))?;
        }
        Ok(())
    }

    /// Sees the gap of frames that were dropped. Fails only when memory is refused; drop the circuits then.
    pub(crate) fn see_dropped(&mut self, place: Place) -> Result<(), AllocError>
        ensures seen { OnOk result (sight_in self.new ≡ step_seen (All place) (sight_in self.old)) }
        ensures typed { is_typed_place place ≡ true }
    {
        self.counted.add_gap();
        self.pass(place.frame.saturating_sub(1));
        self.seen.see(&Row::gap_of_all(place))
    }

    /// Sees an item.
    fn see_item(&mut self, item: &Item<'_>) -> Result<(), AllocError>
        ensures seen { OnOk result (sight_in self.new ≡ step_seen (Of (item_view item.now)) (sight_in self.old)) }
        ensures typed { OnOk result (is_typed_step (sight_in self.old).rule (Of (item_view item.now)) ≡ true) }
    {
        self.join(item)?;
        let row = self.rule.row_of(item);
        self.see_row(row)?;
        self.end(item)
    }

    /// Begins the circuit of a connection inside of which the recording began.
    fn join(&mut self, item: &Item<'_>) -> Result<(), AllocError>
        ensures { OnOk result (sight_in self.new ≡ item_joined (item_view item.now) (sight_in self.old)) }
    {
        match item {
            Item::Gap(gap) if gap.is_beginning => {
                self.circuit_of(gap.connection, false)?;
                Ok(())
            }
            _ => Ok(()),
        }
    }

    /// Sees a row of a circuit, if there is one.
    fn see_row(&mut self, row: Option<CircuitRow<'_>>) -> Result<(), AllocError>
        ensures { OnOk result (sight_in self.new ≡ row_seen (option_map circuit_row_view row.entry) (sight_in self.old)) }
    {
        match row {
            Some(row) => self.see(&row),
            None => Ok(()),
        }
    }

    /// Sees a row of a circuit.
    fn see(&mut self, row: &CircuitRow<'_>) -> Result<(), AllocError>
        ensures { OnOk result (sight_in self.new ≡ row_seen (Some (circuit_row_view row.now)) (sight_in self.old)) }
    {
        self.counted.add(row)?;
        self.pass(least_number(row));
        let slot = self.circuit_of(row.connection, true)?;
        self.see_on(slot, row)
    }

    /// Sees a row on the slot of its circuit.
    fn see_on(&mut self, slot: u16, row: &CircuitRow<'_>) -> Result<(), AllocError>
        requires { slot ≤ 4095 }
        ensures { OnOk result (sight_in self.new ≡ record (sight_in self.old) { sighted = seen_on slot (circuit_row_view row.now) (sight_in self.old).sighted }) }
    {
        if !is_seen(slot, row) {
            return Ok(());
        }
        let row = row.on_channel(slot, &mut self.octets)?;
        self.seen.see(&row)
    }

    /// Passes a row of at least this number.
    fn pass(&mut self, least: u64)
        ensures { sight_in self.new ≡ record (sight_in self.old) { number = max least (next_number (sight_in self.old).number) } }
    {
        self.number = least.max(self.number.saturating_add(1));
    }

    /// Returns the slot of a connection's circuit, which may begin. `is_known`: its beginning was recorded.
    fn circuit_of(&mut self, connection: u64, is_known: bool) -> Result<u16, AllocError>
        ensures slot { IfOk result (λ slot. slot ≡ slot_for connection (sight_in self.old).sighted) }
        ensures within { IfOk result (λ slot. slot ≤ 4095) }
        ensures after { OnOk result (sight_in self.new ≡ record (sight_in self.old) { sighted = with_circuit connection is_known (sight_in self.old).sighted }) }
    {
        if let Some(slot) = self.slots.get(connection) {
            return Ok(slot);
        }
        let slot = self.slots.take(connection)?;
        self.seen.begin(slot, is_known)?;
        Ok(slot)
    }

    /// Ends the circuit of a connection that has ended.
    fn end(&mut self, item: &Item<'_>) -> Result<(), AllocError>
        ensures { OnOk result (sight_in self.new ≡ item_ended (item_view item.now) (sight_in self.old)) }
    {
        match item {
            Item::Ended(ended) => {
                self.counted.end(ended);
                self.slots.give_back(ended.connection)
            }
            _ => Ok(()),
        }
    }

    /// Returns what the recording shows where it has ended. Fails only when memory is refused.
    pub(crate) fn finish(
        self,
        alloc: Global,
        given: &GivenHeader,
    ) -> Result<FoundCircuits, AllocError>
        ensures { IfOk result (λ found. found ≡ found_in given.now (sight_in self)) }
    {
        let Circuits {
            counted,
            mut seen,
            number,
            ..
        } = self;
        let circuits = counted.in_order(alloc)?;
        seen.set_last(last_used(given, &circuits));
        Ok(FoundCircuits {
            circuits,
            seen,
            number,
        })
    }
}

ghost use Rattle.capture_report.specs.CircuitSights.{content_number, is_seen};

/// Returns the least number of a row, where rows have the numbers of their frames: a gap has the one before its frame.
fn least_number(row: &CircuitRow<'_>) -> u64
    ensures { result ≡ content_number (circuit_row_view row.now).content row.now.place.frame }
{
    match row.content {
        CircuitContent::Packet(..) => row.place.frame,
        CircuitContent::Gap => row.place.frame.saturating_sub(1),
    }
}

/// Returns whether a row is seen on a slot. Where none was left its slot is 0, and packets are not seen.
fn is_seen(slot: u16, row: &CircuitRow<'_>) -> bool
    ensures { result ≡ is_seen slot (circuit_row_view row.now).content }
{
    match row.content {
        CircuitContent::Packet(..) => slot > 0,
        CircuitContent::Gap => true,
    }
}

/// Returns how many circuits are permanent ones.
fn permanent_count(circuits: &[SeenCircuit]) -> usize
    ensures is { result ≡ permanent_count circuits.now }
    ensures within { result ≤ length circuits.now }
{
    let mut count = 0;
    for circuit in circuits {
        if matches!(circuit.wanted.purpose, Purpose::Permanent) {
            count += 1;
        }
    }
    count
}

/// Returns the last channel that circuits use: each has one of its own, as far as there are some.
fn last_used(given: &GivenHeader, circuits: &[SeenCircuit]) -> u16
    ensures { result ≡ last_used given.now circuits.now }
{
    let permanent = permanent_count(circuits);
    let first = match given.pvc {
        Some(pvc) => usize::from(pvc),
        None => permanent,
    };
    let last = first.saturating_add(circuits.len() - permanent);
    last.min(LAST_CHANNEL) as u16
}

/// What the circuits of a recording show.
#[derive(Drop)]
pub(crate) struct FoundCircuits {
    /// Those with a packet, in the order of their first ones.
    circuits: Vec<SeenCircuit>,
    seen: Seen,
    number: u64,
}

impl Model for FoundCircuits {
    ghost use Rattle.capture_report.specs.CircuitSights.{CircuitsFound};

    ghost Value = { CircuitsFound };

    ghost view = { λ f. record { circuits = f.circuits.items; seen = f.seen; number = f.number } };
}

impl FoundCircuits {
    /// Returns whether a circuit has a packet.
    pub(crate) fn has_packets(&self) -> bool
        ensures { result ≡ has_circuits self.now.circuits }
    {
        !self.circuits.is_empty()
    }

    /// Returns a number that no row exceeds, where rows have the numbers of their frames.
    pub(crate) fn number(&self) -> u64
        ensures { result ≡ self.now.number }
    {
        self.number
    }

    /// Returns what the packets show of the header.
    pub(crate) fn seen(&self) -> &Seen
        ensures { result.now ≡ self.now.seen }
    {
        &self.seen
    }

    /// Returns the numbers that are given of the header, with those that the circuits show.
    pub(crate) fn given(&self, given: &GivenHeader) -> GivenHeader
        ensures { result ≡ given_with given.now self.now.circuits }
    {
        let permanent = permanent_count(&self.circuits).min(LAST_CHANNEL) as u16;
        GivenHeader {
            pvc: Some(given.pvc.unwrap_or(permanent)),
            join: Some(given.join.unwrap_or(false)),
            ..*given
        }
    }

    /// Returns the logical channels of the circuits under a header. Fails only when memory is refused.
    pub(crate) fn channels(
        &self,
        alloc: Global,
        header: Interface,
    ) -> Result<CircuitChannels, AllocError>
        ensures { IfOk result (λ channels. channel_of channels ≡ channel_in header self.now.circuits) }
    {
        CircuitChannels::new(alloc, header, &self.circuits)
    }

    /// Returns how many circuits have no logical channel among these.
    pub(crate) fn without_channel(&self, channels: &CircuitChannels) -> usize
        ensures { result ≡ without_channel (channel_of channels.now) self.now.circuits }
    {
        without_channel(channels, &self.circuits)
    }

    /// Returns the connections of which one side alone was recorded. Fails only when memory is refused.
    pub(crate) fn halves(&self, alloc: Global) -> Result<HalfConnections, AllocError>
        ensures { IfOk result (λ halves. halves ≡ halves_of self.now.circuits) }
    {
        HalfConnections::of(alloc, &self.circuits)
    }

    /// Appends the line of each circuit, with its logical channel. Fails only when memory is refused.
    pub(crate) fn append_text(
        &self,
        alloc: Global,
        channels: &CircuitChannels,
        out: &mut Vec<u8>,
    ) -> Result<(), AllocError>
        ensures { OnOk result (out.new.items ≡ out.old.items ++ circuits_text (channel_of channels.now) self.now.circuits) }
    {
        append_circuits(alloc, &self.circuits, channels, out)
    }
}

/// Returns how many circuits have no logical channel.
fn without_channel(channels: &CircuitChannels, circuits: &[SeenCircuit]) -> usize
    ensures is { result ≡ without_channel (channel_of channels.now) circuits.now }
    ensures within { result ≤ length circuits.now }
{
    let mut count = 0;
    for circuit in circuits {
        if channels.lack(circuit.connection) {
            count += 1;
        }
    }
    count
}

/// Returns for what circuits need logical channels.
fn wanted_of(alloc: Global, circuits: &[SeenCircuit]) -> Result<Vec<Wanted>, AllocError>
    ensures { IfOk result (λ wanted. wanted.items ≡ wanted_of circuits.now) }
{
    let mut wanted = Vec::new(alloc);
    for circuit in circuits {
        wanted.push(circuit.wanted)?;
    }
    Ok(wanted)
}

/// The logical channels of circuits, by the numbers of their connections.
#[derive(Drop)]
pub(crate) struct CircuitChannels {
    channels: BTreeMap<u64, u16>,
}

impl Model for CircuitChannels {
    ghost use Rattle.std.specs.Prelude.{ℕ, List};
    ghost use Rattle.capture_report.specs.CircuitChannels.{AreChannels};

    ghost Value = { List (ℕ × ℕ) };

    ghost view = { λ c. c.channels.entries };

    ghost invariant = { λ c. AreChannels c.channels.entries };
}

impl CircuitChannels {
    /// Returns the channels of circuits under a header.
    fn new(
        alloc: Global,
        header: Interface,
        circuits: &[SeenCircuit],
    ) -> Result<CircuitChannels, AllocError>
        ensures { IfOk result (λ channels. channel_of channels ≡ channel_in header circuits.now) }
    {
        let wanted = wanted_of(alloc, circuits)?;
        let given = assign(alloc, header, &wanted)?;
        let mut channels = BTreeMap::new(alloc);
        for index in 0..circuits.len() {
            if let Some(given) = given[index] {
                channels.insert(circuits[index].connection, given.channel)?;
            }
        }
        Ok(CircuitChannels { channels })
    }

    /// Returns whether a connection's circuit has no channel.
    fn lack(&self, connection: u64) -> bool
        ensures { result ≡ is_none (channel_of self.now connection) }
    {
        self.get(connection).is_none()
    }

    /// Returns the channel of a connection's circuit; `None` where it has none.
    pub(crate) fn get(&self, connection: u64) -> Option<u16>
        ensures is { result ≡ channel_of self.now connection }
        ensures within { IfSome result IsChannel }
    {
        match self.channels.get(&connection) {
            Some(channel) => Some(*channel),
            None => None,
        }
    }
}
