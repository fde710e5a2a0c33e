//! The beginning of the object of a row.

ghost use Rattle.std.specs.Prelude.{◌≡◌, ℕ, List};
ghost use Rattle.channel_run.specs.StatusWord.{view_in};
ghost use Rattle.line_model.specs.basics.Records.{Item};
ghost use Rattle.line_model.specs.declared.interface.Interface.{Interface};
ghost use Rattle.line_model.specs.observer.Report.{code_word};
ghost use Rattle.descriptions.specs.CallTable.{cell_text};
ghost use Rattle.descriptions.specs.declared.call_columns.TableForm.TheVariants.{Objects};
ghost use Rattle.descriptions.specs.Facts.{AreFactsOf, IsFateOf};
ghost use Rattle.descriptions.specs.RowObjects.{channel_word, counted_word, finding_word, flag_word, gap_head, known_word, named_channel, number_word, owed_after, packet_head, row_head, state_members, word_after, word_before};
ghost use Rattle.descriptions.specs.Writing.{Adds, These};

use crate::facts::{Fate, RowFacts, gap_of, is_adrift};
use crate::json::{Json, Out};
use crate::value::Value;
use channel_run::status_word::{state_in, view_in};
use data_transfer::packed::FlowWord;
use itoa::Buffer;
use line_model::finding::{Code, Finding};
use line_model::packet::Packet;
use line_model::state::ChannelState;
use live_report::judged_row::{Judge, JudgedRow};
use report_merge::words::{pad_word, side_word, state_word};

/// The name of the state of a logical channel.
fn channel_word(state: ChannelState) -> &'static [u8]
    ensures { result.now ≡ channel_word state }
{
    match state {
        ChannelState::Setup(state) => state_word(state.name()),
        ChannelState::Transfer(state) => state_word(state.name()),
        ChannelState::Unknown => b"unknown",
    }
}

/// The name of the state of a logical channel, by its word.
fn known_word(word: &FlowWord) -> &'static [u8]
    ensures { result.now ≡ known_word (view_in word.now).adrift (view_in word.now).state }
{
    if is_adrift(word) {
        b"adrift"
    } else {
        channel_word(state_in(word.owner_bits()))
    }
}

/// The names of the states before and after a row.
fn state_words(judge: &Judge) -> (&'static [u8], &'static [u8])
    ensures before { result.0.now ≡ word_before judge.now }
    ensures after { result.1.now ≡ word_after judge.now }
{
    match judge {
        Judge::Restart { before, after } => (state_word(before.name()), state_word(after.name())),
        Judge::Channel { before, after, .. } => (known_word(before), known_word(after)),
    }
}

/// The logical channel that a packet names, or null.
fn channel_value(packet: &Packet) -> Value<'static>
    ensures { cell_text Objects result ≡ number_word (named_channel packet.now) }
{
    match packet {
        Packet::Channel { channel, .. } => Value::Number(u64::from(*channel)),
        _ => Value::Null,
    }
}

/// Writes the members of a packet up to what was counted.
fn write_states<O: Out>(json: &mut Json<O>, last: &JudgedRow)
    ensures { Adds O.has (These (state_members last.now.number last.now.side
        (named_channel last.now.packet) (word_before last.now.judge) (word_after last.now.judge)))
        json.old.out json.new.out }
{
    let (before, after) = state_words(&last.judge);
    json.raw(b"{\"line\":\"row\",\"packet\":");
    json.number(u64::from(last.number));
    json.raw(b",\"side\":\"");
    json.raw(side_word(last.side));
    json.raw(b"\",\"channel\":");
    json.value(channel_value(&last.packet));
    json.raw(b",\"before\":\"");
    json.raw(before);
    json.raw(b"\",\"after\":\"");
    json.raw(after);
    json.raw(b"\",\"counted\":");
}

/// Writes what was counted, or null.
fn write_counted<O: Out>(json: &mut Json<O>, fate: Fate)
    ensures { (lengths : List ℕ) → IsFateOf lengths fate
        → Adds O.has (These (counted_word lengths)) json.old.out json.new.out }
{
    let Fate::Counted { octets, segments } = fate else {
        return json.raw(b"null");
    };
    json.raw(b"{\"octets\":");
    json.number(u64::from(octets));
    json.raw(b",\"segments\":");
    json.number(segments);
    json.raw(b"}");
}

/// Returns a code, as the report prints it.
pub fn code_digits<'a>(code: Code, buffer: &'a mut Buffer) -> &'a [u8]
    ensures { result.now ≡ code_word code }
{
    match code {
        Code::Number(number) => buffer.format(number).as_bytes(),
        Code::Pad(code) => pad_word(code),
    }
}

/// Whether the DCE owes its indication after a row.
fn is_owed(judge: &Judge) -> bool
    ensures { result ≡ owed_after judge.now }
{
    match judge {
        Judge::Channel { after, .. } => view_in(after).owed,
        Judge::Restart { .. } => false,
    }
}

/// Returns the word of a flag.
pub fn flag_word(is_set: bool) -> &'static [u8]
    ensures { result.now ≡ flag_word is_set }
{
    if is_set { b"true" } else { b"false" }
}

/// Writes the object of a finding up to the number of the one that it may follow from, or null.
fn write_finding<O: Out>(json: &mut Json<O>, finding: Option<Finding>, follows: Option<u32>)
    ensures { Adds O.has (These (finding_word finding follows)) json.old.out json.new.out }
{
    let Some(finding) = finding else {
        return json.raw(b"null");
    };
    let mut code = Buffer::new();
    json.raw(b"{\"code\":\"");
    json.raw(code_digits(finding.code, &mut code));
    json.raw(b"\",\"follows\":");
    json.value(Value::packet(follows));
}

/// Writes the beginning of the object of a gap.
fn write_gap<O: Out>(json: &mut Json<O>, number: u32, channel: Option<u16>)
    ensures { Adds O.has (These (gap_head number channel)) json.old.out json.new.out }
{
    json.raw(b"{\"line\":\"gap\",\"packet\":");
    json.number(u64::from(number));
    json.raw(b",\"channel\":");
    match channel {
        Some(channel) => json.number(u64::from(channel)),
        None => json.raw(b"null"),
    }
}

/// Writes the beginning of the object of a row, which is a gap or a packet.
pub fn write_head<O: Out>(json: &mut Json<O>, facts: &RowFacts<'_>)
    ensures { (i : Interface) (earlier : List Item) (r : Item) → AreFactsOf i earlier r facts.now
        → Adds O.has (These (row_head i earlier r facts.now.last.now.finding)) json.old.out json.new.out }
{
    match gap_of(&facts.last.packet) {
        Some(channel) => write_gap(json, facts.last.number, channel),
        None => write_packet(json, facts),
    }
}

/// Writes the beginning of the object of a packet.
fn write_packet<O: Out>(json: &mut Json<O>, facts: &RowFacts<'_>)
    ensures { (i : Interface) (earlier : List Item) (r : Item) → AreFactsOf i earlier r facts.now
        → Adds O.has (These (packet_head i earlier r facts.now.last.now.finding)) json.old.out json.new.out }
{
    write_states(json, facts.last);
    write_counted(json, facts.fate);
    json.raw(b",\"epoch\":");
    json.number(u64::from(facts.earlier.epoch));
    json.raw(b",\"owed\":");
    json.raw(flag_word(is_owed(&facts.last.judge)));
    json.raw(b",\"finding\":");
    write_finding(json, facts.last.finding, facts.earlier.follows);
}
