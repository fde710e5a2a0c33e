//! PAD messages on a channel: their findings, and what they say of the settings.

ghost use Rattle.std.specs.Prelude.{◌≡◌, ◌+◌, ◌<◌, ◌≤◌, ◌++◌, ◌∷◌, [], List, ℕ, is_some, length, take, option_to_list, flat_map, vec_len, vec_capacity};
ghost use Rattle.line_model.specs.channels.Channels.{AcceptedData, PadMessage};
ghost use Rattle.line_model.specs.channels.Pad.{form_fault, is_parameter, settings_of, settings_after, message_fault};
ghost use Rattle.line_model.specs.channels.GapStep.{settings_by_form};
ghost use Rattle.line_model.specs.channels.ChannelStep.{data_reports, messages_after, option_found};
ghost use Rattle.pad.specs.Codes.{octets_of};
ghost use Rattle.pad.specs.Pairs.{shown};
ghost use Rattle.pad.specs.Effects.{indicated_one, asked_one};
ghost use Rattle.pad.specs.MessageEvents.{set_events, pad_message};
ghost use Rattle.channel_machine.specs.Events.{Reports};
ghost use Rattle.channel_machine.specs.Carried.{carried, room_for};

use crate::events::EventOrigin;
use crate::transfer::NumberedData;
use line_model::event::{Entry, Event, What};
use line_model::finding::{Code, Xcode};
use line_model::state::{Side, StateName};
use pad::message::{Message, MessageCode, read_message};
use pad::pairs::{Pair, Pairs};
use pad::settings::Settings;
use std::alloc::Allocator;

/// Room for the events of a packet that completes a message: the finding, the data, and a setting for each pair of a
/// message, or the return to initial values.
pub(crate) const ROOM: usize = 514;

/// Returns the room for the events of a packet, which may carry the end of a message.
pub(crate) fn room_for(carries_message: bool) -> usize
    ensures room { result ≡ room_for carries_message }
    ensures some { 1 ≤ result }
{
    if carries_message { ROOM } else { 1 }
}

/// The settings of both PADs of a call.
#[derive(Drop)]
pub struct BothSettings {
    of_t: Settings,
    of_n: Settings,
}

impl BothSettings {
    ghost use Rattle.channel_machine.specs.Messages.{SettingsRepresent, message_reports};

    /// Returns the settings before any message.
    pub(crate) fn new() -> BothSettings
        ensures { SettingsRepresent result [] }
    {
        BothSettings {
            of_t: Settings::new(Side::T),
            of_n: Settings::new(Side::N),
        }
    }

    /// Reports a packet of `size` octets that completes a sequence, with what its message says, if it carries one. `octets`
    /// are the first 1,025 of the sequence.
    pub(crate) fn report_completed<A: Allocator>(
        &mut self,
        packet: &NumberedData<'_>,
        octets: &[u8],
        size: u32,
        events: &mut Vec<Event, A>,
    )
        requires room { vec_len events.old + room_for packet.now.carries_message ≤ vec_capacity events.old }
        ensures reports { (m : List ℕ) (ts : List PadMessage) (p : AcceptedData) → p.length ≡ size
            → octets.now ≡ take 1025 m → SettingsRepresent self.old ts
            → Reports packet.now.origin events.old.items events.new.items
            (data_reports packet.now.side p ts (carried packet.now.carries_message m)) }
        ensures represented { (m : List ℕ) (ts : List PadMessage) → octets.now ≡ take 1025 m
            → SettingsRepresent self.old ts
            → SettingsRepresent self.new (messages_after packet.now.side ts (carried packet.now.carries_message m)) }
    {
        let NumberedData {
            origin,
            side,
            carries_message,
            ..
        } = *packet;
        if carries_message {
            self.report_message(origin, side, octets, size, events);
        } else {
            events.push_reserved(origin.event(data_packet(side, size)));
        }
    }

    /// Reports the message that a packet of `size` octets completes, and keeps its settings. `octets` are the first
    /// 1,025 of the message.
    fn report_message<A: Allocator>(
        &mut self,
        origin: EventOrigin,
        from: Side,
        octets: &[u8],
        size: u32,
        events: &mut Vec<Event, A>,
    )
        requires room { vec_len events.old + 514 ≤ vec_capacity events.old }
        ensures reports { (m : List ℕ) (ts : List PadMessage) → octets.now ≡ take 1025 m
            → SettingsRepresent self.old ts → Reports origin events.old.items events.new.items
            (message_reports from size ts m) }
        ensures represented { (m : List ℕ) (ts : List PadMessage) → octets.now ≡ take 1025 m
            → SettingsRepresent self.old ts → SettingsRepresent self.new (ts
            ++ record { from = from; message = m } ∷ []) }
    {
        match read_message(octets) {
            Err(fault) => {
                report_fault(origin, from, Some(fault), events);
                events.push_reserved(origin.event(data_packet(from, size)));
            }
            Ok(message) => self.report_well_formed(origin, from, &message, size, events),
        }
    }

    /// Reports a message without a fault of its own, which a packet of `size` octets completes, and keeps its settings.
    fn report_well_formed<A: Allocator>(
        &mut self,
        origin: EventOrigin,
        from: Side,
        message: &Message<'_>,
        size: u32,
        events: &mut Vec<Event, A>,
    )
        requires room { vec_len events.old + 514 ≤ vec_capacity events.old }
        requires short { length message.now.pairs.now < 1024 }
        ensures reports { (ts : List PadMessage) → SettingsRepresent self.old ts
            → Reports origin events.old.items events.new.items
            (message_reports from size ts (pad_message from message.now).message) }
        ensures represented { (ts : List PadMessage) → SettingsRepresent self.old ts
            → SettingsRepresent self.new (ts ++ pad_message from message.now ∷ []) }
    {
        let fault = self.apply(from, message);
        report_fault(origin, from, fault, events);
        events.push_reserved(origin.event(data_packet(from, size)));
        report_after(origin, from, fault, message, events);
    }

    /// Applies a message to the settings of both PADs, and returns its fault.
    fn apply(&mut self, from: Side, message: &Message<'_>) -> Option<Xcode>
        ensures fault { (ts : List PadMessage) → SettingsRepresent self.old ts
            → result ≡ message_fault from ts (pad_message from message.now).message }
        ensures represented { (ts : List PadMessage) → SettingsRepresent self.old ts
            → SettingsRepresent self.new (ts ++ pad_message from message.now ∷ []) }
    {
        let of_t = self.of_t.apply(message, from);
        let of_n = self.of_n.apply(message, from);
        match of_t {
            Some(fault) => Some(fault),
            None => of_n,
        }
    }
}

/// Returns a data packet of `octets` octets.
pub(crate) fn data_packet(side: Side, octets: u32) -> What
    ensures { result ≡ What.Data side octets }
{
    What::Data { side, octets }
}

/// Reports the fault of a message, which is judged in d1.
fn report_fault<A: Allocator>(
    origin: EventOrigin,
    from: Side,
    fault: Option<Xcode>,
    events: &mut Vec<Event, A>,
)
    requires room { vec_len events.old < vec_capacity events.old }
    ensures reports { Reports origin events.old.items events.new.items
        (option_to_list (option_found from fault)) }
    ensures capacity { vec_capacity events.new ≡ vec_capacity events.old }
    ensures len { vec_len events.new ≤ vec_len events.old + 1 }
{
    if let Some(fault) = fault {
        events.push_reserved(origin.event(found(from, fault)));
    }
}

/// The finding on a message.
fn found(side: Side, fault: Xcode) -> What
    ensures { result ≡ What.Found side StateName.D1 (Code.Pad fault) }
{
    What::Found {
        side,
        state: StateName::D1,
        code: Code::Pad(fault),
    }
}

/// Reports what a message says of the settings, where it may have a fault: with X4 it says nothing.
fn report_after<A: Allocator>(
    origin: EventOrigin,
    from: Side,
    fault: Option<Xcode>,
    message: &Message<'_>,
    events: &mut Vec<Event, A>,
)
    requires room { vec_len events.old + 512 ≤ vec_capacity events.old }
    requires short { length message.now.pairs.now < 1024 }
    ensures { Reports origin events.old.items events.new.items
        (settings_after fault from (octets_of message.now.code message.now.pairs.now)) }
{
    match fault {
        None => report_settings(origin, from, message, events),
        Some(Xcode::X3) => report_settings(origin, from, message, events),
        Some(_) => {}
    }
}

/// Reports the settings that a message says or asks.
fn report_settings<A: Allocator>(
    origin: EventOrigin,
    from: Side,
    message: &Message<'_>,
    events: &mut Vec<Event, A>,
)
    requires room { vec_len events.old + 512 ≤ vec_capacity events.old }
    requires short { length message.now.pairs.now < 1024 }
    ensures { Reports origin events.old.items events.new.items
        (settings_of from (octets_of message.now.code message.now.pairs.now)) }
{
    match message.code {
        MessageCode::Indication => {
            report_indicated(origin, from, Pairs::new(true, message.pairs), events);
        }
        MessageCode::Set => report_set(origin, from.other(), message.pairs, events),
        MessageCode::SetAndRead => report_set(origin, from.other(), message.pairs, events),
        _ => {}
    }
}

/// Reports the settings that a message says or asks, where it gives no finding: those of a message without a fault of its
/// own. `octets` are the first 1,025 of the message.
pub(crate) fn report_settings_of<A: Allocator>(
    origin: EventOrigin,
    from: Side,
    octets: &[u8],
    events: &mut Vec<Event, A>,
)
    requires room { vec_len events.old + 512 ≤ vec_capacity events.old }
    ensures { (m : List ℕ) → octets.now ≡ take 1025 m
        → Reports origin events.old.items events.new.items
        (settings_by_form (is_some (form_fault m)) from m) }
{
    match read_message(octets) {
        Ok(message) => report_settings(origin, from, &message, events),
        Err(_) => {}
    }
}

/// Reports a set of a PAD, whose octets after the code are these.
fn report_set<A: Allocator>(
    origin: EventOrigin,
    pad: Side,
    octets: &[u8],
    events: &mut Vec<Event, A>,
)
    requires room { vec_len events.old + 512 ≤ vec_capacity events.old }
    requires short { length octets.now < 1024 }
    ensures { Reports origin events.old.items events.new.items (set_events pad octets.now) }
{
    if octets.is_empty() {
        events.push_reserved(origin.event(What::Initial { pad }));
    } else {
        report_asked(origin, pad, Pairs::new(false, octets), events);
    }
}

/// Reports what the pairs of an indication say.
fn report_indicated<A: Allocator>(
    origin: EventOrigin,
    pad: Side,
    pairs: Pairs<'_>,
    events: &mut Vec<Event, A>,
)
    requires room { vec_len events.old + length pairs ≤ vec_capacity events.old }
    ensures { Reports origin events.old.items events.new.items
        (flat_map (indicated_one pad) pairs.entry) }
{
    for pair in pairs {
        report_indicated_one(origin, pad, pair, events);
    }
}

/// Reports what a pair of an indication says, if anything.
fn report_indicated_one<A: Allocator>(
    origin: EventOrigin,
    pad: Side,
    pair: Pair,
    events: &mut Vec<Event, A>,
)
    requires room { vec_len events.old < vec_capacity events.old }
    ensures reports { Reports origin events.old.items events.new.items
        (indicated_one pad (shown pair)) }
    ensures capacity { vec_capacity events.new ≡ vec_capacity events.old }
    ensures len { vec_len events.new ≤ vec_len events.old + 1 }
{
    let parameter = pair.reference % 128;
    if is_parameter(parameter) {
        let entry = if pair.reference >= 128 {
            Entry::Refused(pair.value)
        } else {
            Entry::Said(pair.value)
        };
        events.push_reserved(origin.event(What::Setting {
            pad,
            parameter,
            entry,
        }));
    }
}

/// Reports what the pairs of a set ask.
fn report_asked<A: Allocator>(
    origin: EventOrigin,
    pad: Side,
    pairs: Pairs<'_>,
    events: &mut Vec<Event, A>,
)
    requires room { vec_len events.old + length pairs ≤ vec_capacity events.old }
    ensures { Reports origin events.old.items events.new.items
        (flat_map (asked_one pad) pairs.entry) }
{
    for pair in pairs {
        report_asked_one(origin, pad, pair, events);
    }
}

/// Reports what a pair of a set asks, if anything.
fn report_asked_one<A: Allocator>(
    origin: EventOrigin,
    pad: Side,
    pair: Pair,
    events: &mut Vec<Event, A>,
)
    requires room { vec_len events.old < vec_capacity events.old }
    ensures reports { Reports origin events.old.items events.new.items (asked_one pad (shown pair)) }
    ensures capacity { vec_capacity events.new ≡ vec_capacity events.old }
    ensures len { vec_len events.new ≤ vec_len events.old + 1 }
{
    if is_parameter(pair.reference) {
        events.push_reserved(origin.event(What::Setting {
            pad,
            parameter: pair.reference,
            entry: Entry::Asked(pair.value),
        }));
    }
}

/// Whether a reference is one of the parameters 1 to 22.
fn is_parameter(reference: u8) -> bool
    ensures { result ≡ is_parameter reference }
{
    (1..=22).contains(&reference)
}
