//! The line of a finding.
#![tactic(auto, using(crate::proofs::ValueLemmas::these_then))]

ghost use Rattle.std.specs.Prelude.{◌≡◌, ◌++◌, List};
ghost use Rattle.line_model.specs.basics.Records.{Item};
ghost use Rattle.line_model.specs.declared.interface.Interface.{Interface};
ghost use Rattle.annotated_trace.specs.Annotation.{IsOneLine};
ghost use Rattle.descriptions.specs.Facts.{AreFactsOf};
ghost use Rattle.descriptions.specs.FindingLines.{IsFindingLine, call_words, channel_words, finding_head, follows_words, side_name, state_words};
ghost use Rattle.descriptions.specs.RowCalls.{row_call};
ghost use Rattle.descriptions.specs.RowObjects.{named_channel};
ghost use Rattle.descriptions.specs.Writing.{Adds, These};

use crate::facts::RowFacts;
use crate::faults::{Before, consequence, wrong};
use crate::json::{Json, Out};
use crate::prose::{Prose, say_number};
use crate::row_head::code_digits;
use crate::sentence::Sentence;
use crate::times::{Recorded, Time, after_first, point_before, trimmed};
use explanations::lookup::code_row;
use itoa::Buffer;
use line_model::finding::Finding;
use line_model::packet::Packet;
use line_model::state::{Side, StateName};
use report_merge::words::state_word;
use trace_text::cuts::split_at_byte;

/// The name of a side.
fn side_name(side: Side) -> &'static [u8]
    ensures { result.now ≡ side_name side }
{
    match side {
        Side::T => b"DTE",
        Side::N => b"DCE",
    }
}

/// Writes words up to their first LF, which they do not have.
pub fn put_words<O: Out>(json: &mut Json<O>, words: &[u8])
    ensures { Adds O.has IsOneLine json.old.out json.new.out }
{
    match split_at_byte(words, b'\n') {
        Some((line, _)) => json.raw(line),
        None => json.raw(words),
    }
}

/// Writes the logical channel that a packet names, if it names one.
fn put_channel<O: Out>(json: &mut Json<O>, packet: &Packet)
    ensures { Adds O.has (These (channel_words (named_channel packet.now))) json.old.out json.new.out }
{
    match packet {
        Packet::Channel { channel, .. } => {
            json.raw(b", channel ");
            json.number(u64::from(*channel));
        }
        _ => {}
    }
}

/// Writes the number of a call, unless it is 0.
fn put_call<O: Out>(json: &mut Json<O>, call: u32)
    ensures { Adds O.has (These (call_words call)) json.old.out json.new.out }
{
    match call {
        0 => {}
        call => {
            json.raw(b", call ");
            json.number(u64::from(call));
        }
    }
}

/// Writes the state in which a packet was judged, if it was in one.
fn put_state<O: Out>(json: &mut Json<O>, state: StateName)
    ensures { Adds O.has (These (state_words state)) json.old.out json.new.out }
{
    match state {
        StateName::Dash => {}
        state => {
            json.raw(b", state ");
            json.raw(state_word(state));
        }
    }
}

/// Writes the packet of the finding that another one may follow from, if there is one.
fn put_follows<O: Out>(json: &mut Json<O>, follows: Option<u32>)
    ensures { Adds O.has (These (follows_words follows)) json.old.out json.new.out }
{
    match follows {
        Some(packet) => {
            json.raw(b", may follow from packet ");
            json.number(u64::from(packet));
        }
        None => {}
    }
}

/// Writes the beginning of the line of a finding.
fn put_head<O: Out>(json: &mut Json<O>, facts: &RowFacts<'_>, finding: &Finding)
    ensures { Adds O.has (These (finding_head (named_channel facts.now.last.now.packet)
        (row_call facts.now.calls) facts.now.earlier.follows finding.now)) json.old.out json.new.out }
{
    let mut code = Buffer::new();
    json.raw(b"packet ");
    json.number(u64::from(finding.packet));
    json.raw(b", ");
    json.raw(side_name(finding.side));
    put_channel(json, &facts.last.packet);
    put_call(json, facts.calls.of_row());
    put_state(json, finding.state);
    json.raw(b", code ");
    json.raw(code_digits(finding.code, &mut code));
    put_follows(json, facts.earlier.follows);
}

/// Where and when a row was recorded, when the first one was, and which host sent the row.
#[derive(Clone, Copy)]
pub struct Place<'a> {
    /// When and where the row was.
    pub recorded: Recorded,
    /// When the first row with a time was.
    pub start: Option<Time>,
    /// The number of its circuit, where it is of one.
    pub circuit: Option<u64>,
    /// The address of its sender, where it is known.
    pub host: Option<&'a [u8]>,
}

/// Writes a time in seconds.
fn seconds(out: &mut Sentence, time: &Time) {
    let mut buffer = Buffer::new();
    let all = 1_000_000_000u64.saturating_add(u64::from(time.billionths));
    let part = trimmed(after_first(buffer.format(all).as_bytes()));
    out.number(time.seconds);
    out.append(point_before(part.is_empty()));
    out.append(part);
    out.say(" s");
}

/// Writes how long a time is after the first one, or before it.
fn elapsed(out: &mut Sentence, time: &Time, start: &Time) {
    out.say(", ");
    match (time.since(start), start.since(time)) {
        (Some(after), _) => seconds(out, &after),
        (None, Some(before)) => {
            out.say("-");
            seconds(out, &before);
        }
        (None, None) => {}
    }
}

/// Writes the frame of a row, its time, its circuit and the host that sent it, where they are known.
fn place_words(out: &mut Sentence, place: &Place<'_>) {
    if let Some(frame) = place.recorded.frame {
        say_number(out, ", frame ", frame);
    }
    if let (Some(time), Some(start)) = (&place.recorded.time, &place.start) {
        elapsed(out, time, start);
    }
    if let Some(circuit) = place.circuit {
        say_number(out, ", circuit ", circuit);
    }
    if let Some(host) = place.host {
        out.say(", host ");
        out.append(host);
    }
}

/// Writes what is wrong, what the DCE does next, and the clause.
fn fault_words(out: &mut Sentence, facts: &RowFacts<'_>, finding: &Finding) {
    if let Some(row) = code_row(finding.code) {
        out.say(": ");
        out.say(row.name);
        out.say(": ");
        wrong(out, &Before::of_row(facts), facts.octets, finding, row);
        out.say(" ");
        out.say(consequence(finding));
        out.say(" [");
        out.say(row.clause);
        out.say("]");
    }
}

/// Writes the line of the finding of a row, and nothing where it has none.
pub fn put_finding<O: Out>(json: &mut Json<O>, facts: &RowFacts<'_>, place: &Place<'_>)
    ensures { (i : Interface) (earlier : List Item) (r : Item) → AreFactsOf i earlier r facts.now
        → Adds O.has (IsFindingLine i earlier r) json.old.out json.new.out }
{
    let Some(finding) = &facts.last.finding else {
        return;
    };
    let mut words = Sentence::new();
    place_words(&mut words, place);
    fault_words(&mut words, facts, finding);
    put_head(json, facts, finding);
    put_words(json, words.as_bytes());
    json.raw(b"\n");
}
