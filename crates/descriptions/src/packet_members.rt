//! The fields of a packet, as members of an object.
#![tactic(auto, using(crate::proofs::MemberLemmas::further_then, crate::proofs::MemberLemmas::member_put, crate::proofs::MemberLemmas::no_member))]

ghost use Rattle.std.specs.Prelude.{[]};
ghost use Rattle.descriptions.specs.Members.{IsFurther, IsMembers, IsValue};
ghost use Rattle.descriptions.specs.Writing.{Adds, IsOpenArray, IsOpenObject};

use crate::calls::{is_pad, sizes_of, windows_of};
use crate::causes::{CauseTable, Causes, named_diagnostic};
use crate::facts::{RowFacts, user_octets};
use crate::json::{Json, Out};
use crate::messages::{name, pairs_of};
use crate::value::Value;
use explanations::lookup::parameter_row;
use line_model::event::{Entry, Event, What};
use line_model::packet::{DataHeader, Packet, PacketKind};
use line_model::state::Side;
use pad::message::{Message, MessageCode, read_message};
use pad::pairs::Pair;

/// Writes the members that say what the packet of a row has.
pub fn packet_members<O: Out>(json: &mut Json<O>, facts: &RowFacts<'_>)
    ensures { Adds O.has IsFurther json.old.out json.new.out }
{
    match &facts.last.packet {
        Packet::Restart => cause_members(json, &Causes::of(facts.octets), CauseTable::Restarting),
        Packet::Diagnostic => {
            json.begin(",\"diagnostic\":");
            json.named(named_diagnostic(facts.octets.get(3).copied()));
        }
        Packet::Channel { kind, .. } => kind_members(json, facts, kind),
        _ => {}
    }
}

/// Writes the members of a packet on a logical channel.
fn kind_members<O: Out>(json: &mut Json<O>, facts: &RowFacts<'_>, kind: &PacketKind)
    ensures { Adds O.has IsFurther json.old.out json.new.out }
{
    match kind {
        PacketKind::Call | PacketKind::Accepted => call_members(json, facts),
        PacketKind::Clear => cause_members(json, &Causes::of(facts.octets), CauseTable::Clearing),
        PacketKind::Reset => cause_members(json, &Causes::of(facts.octets), CauseTable::Resetting),
        PacketKind::Data(Some(header)) => data_members(json, facts, header),
        PacketKind::Rr(Some(number)) | PacketKind::Rnr(Some(number)) => {
            json.member(",\"receive\":", Value::Number(u64::from(*number)))
        }
        PacketKind::Interrupt => {
            let octets = facts.length.saturating_sub(3) as u64;
            json.member(",\"octets\":", Value::Number(octets));
        }
        _ => {}
    }
}

/// Writes a cause and a diagnostic code, each by number and name, null where there is none.
pub fn cause_members<O: Out>(json: &mut Json<O>, causes: &Causes, table: CauseTable)
    ensures { Adds O.has IsFurther json.old.out json.new.out }
{
    json.begin(",\"cause\":");
    json.named(causes.named_cause(table));
    json.begin(",\"diagnostic\":");
    json.named(named_diagnostic(causes.diagnostic));
}

/// Writes the members of a data packet, with the PAD message that it completes, where it does.
fn data_members<O: Out>(json: &mut Json<O>, facts: &RowFacts<'_>, header: &DataHeader)
    ensures { Adds O.has IsFurther json.old.out json.new.out }
{
    let octets = user_octets(facts.interface, facts.length);
    json.member(",\"send\":", Value::Number(u64::from(header.send)));
    json.member(",\"receive\":", Value::Number(u64::from(header.receive)));
    json.flag_member(",\"more\":", header.more);
    json.flag_member(",\"qualified\":", header.qualified);
    json.flag_member(",\"delivery\":", header.delivery);
    json.member(",\"octets\":", Value::Number(octets));
    if let Some(octets) = facts.message {
        json.begin(",\"message\":");
        message_object(json, octets);
    }
}

/// Writes a PAD message, null where it cannot be read.
fn message_object<O: Out>(json: &mut Json<O>, octets: &[u8])
    ensures { Adds O.has IsValue json.old.out json.new.out }
{
    match read_message(octets) {
        Ok(message) => {
            json.first("{\"name\":");
            json.value(Value::Text(name(message.code).as_bytes()));
            json.begin(",\"pairs\":");
            pairs(json, &message);
            json.raw(b"}");
        }
        Err(_) => json.value(Value::Null),
    }
}

/// Writes the standard pairs of a message; a read has no values.
fn pairs<O: Out>(json: &mut Json<O>, message: &Message<'_>)
    ensures { Adds O.has IsValue json.old.out json.new.out }
{
    json.raw(b"[");
    let mut is_first = true;
    for pair in pairs_of(message) {
        json.separate(is_first);
        is_first = false;
        pair_object(json, &pair, message.code);
    }
    json.raw(b"]");
}

/// Writes a pair of a message.
fn pair_object<O: Out>(json: &mut Json<O>, pair: &Pair, code: MessageCode)
    ensures { Adds O.has IsValue json.old.out json.new.out }
{
    let value = match code {
        MessageCode::Read => Value::Null,
        _ => Value::Number(u64::from(pair.value)),
    };
    parameter(json, pair.reference % 128);
    json.member(",\"value\":", value);
    json.raw(b"}");
}

/// Begins an object by the number and the name of a parameter, null where it has none.
fn parameter<O: Out>(json: &mut Json<O>, reference: u8)
    ensures { Adds O.has IsOpenObject json.old.out json.new.out }
{
    let name = match parameter_row(reference) {
        Some(row) => Value::Text(row.name.as_bytes()),
        None => Value::Null,
    };
    json.first("{\"parameter\":");
    json.value(Value::Number(u64::from(reference)));
    json.member(",\"name\":", name);
}

/// Writes the fields of a call packet without a fault.
fn call_members<O: Out>(json: &mut Json<O>, facts: &RowFacts<'_>)
    ensures { Adds O.has IsFurther json.old.out json.new.out }
{
    let Some(Ok(fields)) = facts.call_fields() else {
        return;
    };
    json.member(",\"called\":", Value::address(fields.called.as_bytes()));
    json.member(",\"calling\":", Value::address(fields.calling.as_bytes()));
    json.flag_member(",\"reverse\":", fields.reverse);
    json.flag_member(",\"fast\":", fields.fast);
    json.begin(",\"sizes\":");
    pair_of(json, sizes_of(&fields));
    json.begin(",\"windows\":");
    pair_of(json, windows_of(&fields));
    json.begin(",\"user_data\":");
    user_data(json, fields.user_data);
    json.flag_member(",\"pad\":", is_pad(fields.user_data));
}

/// Writes a value for data from the called DTE, and one for data from the calling DTE, null where there are none.
fn pair_of<O: Out>(json: &mut Json<O>, pair: Option<(u64, u64)>)
    ensures { Adds O.has IsValue json.old.out json.new.out }
{
    let Some((called, calling)) = pair else {
        return json.value(Value::Null);
    };
    json.first("{\"called\":");
    json.value(Value::Number(called));
    json.member(",\"calling\":", Value::Number(calling));
    json.raw(b"}");
}

/// Writes the user data of a call, null where it has none.
fn user_data<O: Out>(json: &mut Json<O>, user_data: &[u8])
    ensures { Adds O.has IsValue json.old.out json.new.out }
{
    match user_data {
        [] => json.value(Value::Null),
        octets => json.hex(octets),
    }
}

/// Writes what became known of PADs, where something did.
pub fn settings_member<O: Out>(json: &mut Json<O>, events: &[Event])
    ensures { Adds O.has IsFurther json.old.out json.new.out }
{
    if has_setting(events) {
        json.begin(",\"settings\":");
        settings(json, events);
    }
}

/// Whether something became known of a PAD.
fn has_setting(events: &[Event]) -> bool {
    for event in events {
        if let What::Setting { .. } = event.what {
            return true;
        }
    }
    false
}

/// Writes an array of what became known of PADs.
fn settings<O: Out>(json: &mut Json<O>, events: &[Event])
    ensures { Adds O.has IsValue json.old.out json.new.out }
{
    json.raw(b"[");
    let mut is_first = true;
    for event in events {
        if let What::Setting {
            pad,
            parameter: reference,
            entry,
        } = event.what
        {
            json.separate(is_first);
            is_first = false;
            setting(json, pad, reference, entry);
        }
    }
    json.raw(b"]");
}

/// Writes what is known of a parameter, whose value is null where it is not known.
fn setting<O: Out>(json: &mut Json<O>, pad: Side, reference: u8, entry: Entry)
    ensures { Adds O.has IsValue json.old.out json.new.out }
{
    let (word, value) = match entry {
        Entry::Unknown => (&b"unknown"[..], None),
        Entry::Asked(value) => (&b"asked"[..], Some(u64::from(value))),
        Entry::Said(value) => (&b"said"[..], Some(u64::from(value))),
        Entry::Refused(value) => (&b"refused"[..], Some(u64::from(value))),
    };
    parameter(json, reference);
    pad_member(json, pad);
    json.member(",\"word\":", Value::Text(word));
    json.member(",\"value\":", Value::number(value));
    json.raw(b"}");
}

/// Writes the side of a PAD.
fn pad_member<O: Out>(json: &mut Json<O>, pad: Side)
    ensures { Adds O.has (IsMembers []) json.old.out json.new.out }
{
    match pad {
        Side::T => json.raw(b",\"side\":\"T\""),
        Side::N => json.raw(b",\"side\":\"N\""),
    }
}
