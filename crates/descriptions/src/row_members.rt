//! What a row did, as members of an object.
#![tactic(auto, using(crate::proofs::MemberLemmas::further_then, crate::proofs::MemberLemmas::member_put, crate::proofs::MemberLemmas::no_member))]

ghost use Rattle.std.specs.Prelude.{◌≡◌, None};
ghost use Rattle.line_model.specs.packets.Says.{gap_of};
ghost use Rattle.descriptions.specs.CallTable.{cell_text};
ghost use Rattle.descriptions.specs.declared.call_columns.TableForm.TheVariants.{Objects};
ghost use Rattle.descriptions.specs.Members.{IsFurther, IsOfRow, IsValue, call_member, call_word, circuit_member};
ghost use Rattle.descriptions.specs.RowCalls.{row_call};
ghost use Rattle.descriptions.specs.RowObjects.{IsRest};
ghost use Rattle.descriptions.specs.Writing.{Adds, These};

use crate::facts::{Fate, RowFacts, gap_of};
use crate::faults::{Before, consequence, wrong};
use crate::json::{Element, Json, Out};
use crate::open_calls::EndedCall;
use crate::packet_members::{packet_members, settings_member};
use crate::packet_names::packet_type;
use crate::sentence::Sentence;
use crate::times::Recorded;
use crate::value::Value;
use explanations::lookup::code_row;
use line_model::event::{Event, What};
use line_model::finding::Finding;
use line_model::state::StateName;
use live_report::uncounted::Reason;
use report_merge::words::{how_word, state_word};

/// What is known of a row apart from what it is and did.
#[derive(Clone, Copy)]
pub struct RowSource<'a> {
    /// When and where it was recorded.
    pub recorded: Recorded,
    /// The address of the side that sent it, where its circuit was named.
    pub host: Option<&'a [u8]>,
    /// The hex digits of its octets, as its line has them.
    pub digits: Option<&'a [u8]>,
}

/// Writes the members of a row's object after its finding's first members, or of a gap's after its channel. A gap has
/// the time and the frame that show it, and its circuit, where these are known.
pub fn row_members<O: Out>(
    json: &mut Json<O>,
    facts: &RowFacts<'_>,
    ended: &[EndedCall],
    source: &RowSource<'_>,
)
    ensures { Adds O.has (IsRest (gap_of facts.now.last.now.packet) facts.now.last.now.finding
        source.now.recorded.circuit (row_call facts.now.calls)) json.old.out json.new.out }
{
    match gap_of(&facts.last.packet) {
        Some(_) => {
            json.known_member(",\"time\":", Value::seconds(source.recorded.time));
            json.known_member(",\"frame\":", Value::number(source.recorded.frame));
            circuit_member(json, source.recorded.circuit);
        }
        None => members_of_packet(json, facts, ended, source),
    }
}

/// The members of a packet's object after its finding's first members.
fn members_of_packet<O: Out>(
    json: &mut Json<O>,
    facts: &RowFacts<'_>,
    ended: &[EndedCall],
    source: &RowSource<'_>,
)
    ensures { Adds O.has (IsRest None facts.now.last.now.finding source.now.recorded.circuit
        (row_call facts.now.calls)) json.old.out json.new.out }
{
    match &facts.last.finding {
        Some(finding) => {
            finding_members(json, facts, finding);
            json.known_member(",\"host\":", Value::word(source.host));
            json.raw(b"}");
            further_members(json, facts, ended, source);
        }
        None => further_members(json, facts, ended, source),
    }
}

/// The members of a packet's object after its finding.
fn further_members<O: Out>(
    json: &mut Json<O>,
    facts: &RowFacts<'_>,
    ended: &[EndedCall],
    source: &RowSource<'_>,
)
    ensures { Adds O.has (IsOfRow source.now.recorded.circuit (row_call facts.now.calls))
        json.old.out json.new.out }
{
    let not_counted = match facts.fate {
        Fate::NotCounted(reason) => Value::Text(reason_word(reason)),
        _ => Value::Null,
    };
    let packet = packet_type(facts.last.side, &facts.last.packet);
    call_member(json, u64::from(facts.calls.of_row()));
    json.flag_member(",\"begins\":", facts.calls.opened != 0);
    json.flag_member(",\"up\":", is_up(facts.events));
    json.begin(",\"ends\":");
    json.array(ended);
    json.member(",\"not_counted\":", not_counted);
    json.member(",\"time\":", Value::seconds(source.recorded.time));
    json.known_member(",\"frame\":", Value::number(source.recorded.frame));
    circuit_member(json, source.recorded.circuit);
    json.member(",\"type\":", Value::Text(packet.as_bytes()));
    json.begin(",\"hex\":");
    hex(json, facts.octets, source.digits);
    packet_members(json, facts);
    settings_member(json, facts.events);
}

/// The explanation of a finding, if its code has one.
fn explanation_members<O: Out>(json: &mut Json<O>, facts: &RowFacts<'_>, finding: &Finding)
    ensures { Adds O.has IsFurther json.old.out json.new.out }
{
    let Some(row) = code_row(finding.code) else {
        return;
    };
    let before = Before::of_row(facts);
    let mut sentence = Sentence::new();
    wrong(&mut sentence, &before, facts.octets, finding, row);
    json.member(",\"name\":", Value::Text(row.name.as_bytes()));
    json.member(",\"wrong\":", Value::Text(sentence.as_bytes()));
    json.member(",\"then\":", Value::Text(consequence(finding).as_bytes()));
    json.member(",\"clause\":", Value::Text(row.clause.as_bytes()));
}

/// The members of a finding after its first ones: its explanation, and in a trace that may have gaps its state as its
/// line of the report has it, null for none.
fn finding_members<O: Out>(json: &mut Json<O>, facts: &RowFacts<'_>, finding: &Finding)
    ensures { Adds O.has IsFurther json.old.out json.new.out }
{
    explanation_members(json, facts, finding);
    if facts.interface.gaps {
        let state = match finding.state {
            StateName::Dash => Value::Null,
            state => Value::Text(state_word(state)),
        };
        json.member(",\"state\":", state);
    }
}

/// Writes the member of a call by its number, null for 0.
pub fn call_member<O: Out>(json: &mut Json<O>, call: u64)
    ensures { Adds O.has (These (call_member call)) json.old.out json.new.out }
{
    json.raw(b",\"call\":");
    json.value(call_value(call));
}

/// Writes the member of a circuit, where one is known.
fn circuit_member<O: Out>(json: &mut Json<O>, circuit: Option<u64>)
    ensures { Adds O.has (These (circuit_member circuit)) json.old.out json.new.out }
{
    match circuit {
        Some(number) => {
            json.raw(b",\"circuit\":");
            json.number(number);
        }
        None => {}
    }
}

/// The number of a call, null for 0.
fn call_value(call: u64) -> Value<'static>
    ensures { cell_text Objects result ≡ call_word call }
{
    match call {
        0 => Value::Null,
        call => Value::Number(call),
    }
}

/// Whether a call came into data transfer.
fn is_up(events: &[Event]) -> bool {
    for event in events {
        if let What::Up = event.what {
            return true;
        }
    }
    false
}

impl Element for EndedCall {
    fn write<O: Out>(&self, json: &mut Json<O>) {
        json.first("{\"call\":");
        json.value(Value::Number(u64::from(self.call)));
        json.member(",\"how\":", Value::Text(how_word(Some(self.how))));
        json.raw(b"}");
    }
}

/// Returns the word of a reason for which data was not counted.
pub fn reason_word(reason: Reason) -> &'static [u8] {
    match reason {
        Reason::Finding => b"finding",
        Reason::Owed => b"indication_owed",
        Reason::NotInTransfer => b"not_in_data_transfer",
        Reason::Discarded => b"discarded",
        Reason::Unknown => b"unknown",
        Reason::Restart => b"restart",
    }
}

/// The octets of a row: the hex digits of its line, where they are known, otherwise those of the octets.
fn hex<O: Out>(json: &mut Json<O>, octets: &[u8], digits: Option<&[u8]>)
    ensures { Adds O.has IsValue json.old.out json.new.out }
{
    match digits {
        Some(digits) => json.value(Value::Text(digits)),
        None => json.hex(octets),
    }
}
