//! The objects after those of the report: what was not counted, and what a call's line does not say.
#![tactic(auto, using(crate::proofs::MemberLemmas::further_then, crate::proofs::MemberLemmas::member_put, crate::proofs::MemberLemmas::no_member))]

ghost use Rattle.std.specs.Prelude.{◌≡◌, ◌<◌, ◌+◌, IfErr, OnErr, OnOk, codes, length};
ghost use Rattle.annotated_trace.specs.Printed.{HasTaken, HasTakenFirst};
ghost use Rattle.descriptions.specs.Members.{IsFurther, IsOfCall};
ghost use Rattle.descriptions.specs.Closing.{AreCallFacts, AreClosingObjects, AreUncounted, IsObjectLine};
ghost use Rattle.descriptions.specs.Writing.{Adds};

use crate::call_columns::{payer, payer_word};
use crate::call_memory::{CallMemory, Calls, CodeCount};
use crate::causes::CauseTable;
use crate::json::{Element, Json, Out};
use crate::packet_members::cause_members;
use crate::row_head::code_digits;
use crate::row_members::{call_member, reason_word};
use crate::sending::Sending;
use crate::times::Time;
use crate::value::Value;
use itoa::Buffer;
use line_model::call::CallRecord;
use line_model::device::Sink;
use line_model::event::How;
use line_model::fault::Fault;
use line_model::lending::{Borrowed, Origin, take_back};
use live_report::uncounted::{REASONS, Uncounted};
use report_merge::words::how_word;
use std::alloc::Allocator;
use std::marker::Brand;

/// What the objects after those of the report are made of.
#[derive(Drop)]
pub struct Rest<A: Allocator> {
    /// What is remembered of the calls.
    pub calls: Calls<A>,
    /// What was not counted.
    pub uncounted: Uncounted,
    /// Whether the trace may have gap rows.
    pub has_gaps: bool,
}

impl<A: Allocator + Copy> Rest<A> {
    /// Returns the gap rows in a call, where gaps are rows.
    pub fn gaps_of(&self, call: &CallMemory<A>) -> Option<u64> {
        if self.has_gaps {
            Some(u64::from(self.calls.gaps_of(call)))
        } else {
            None
        }
    }
}

/// An object for each call of the report, in order.
fn call_objects<O: Out, A: Allocator + Copy>(
    json: &mut Json<O>,
    rest: &Rest<A>,
    records: &[CallRecord<A>],
)
    ensures { Adds O.has (AreCallFacts (length records.now)) json.old.out json.new.out }
{
    for (index, record) in records.iter().enumerate() {
        call_object(json, index + 1, record, rest);
    }
}

/// As `write_rest`, to the sink of an origin.
fn write_to<'a, A: Allocator + Copy, K: Sink, B: Origin>(
    rest: &Rest<A>,
    records: &[CallRecord<A>],
    sink: &'a mut K,
) -> (&'a mut K, Result<(), Fault>)
    requires name { sink.ghost_name ≡ B.name }
    requires before { (K.taken sink.now, K.failures sink.now) ≡ B.before }
    ensures name { result.0.ghost_name ≡ B.name }
    ensures ok { OnOk result.1 (HasTaken (AreClosingObjects (length records.now)) B.before.0
        (K.taken result.0.now)) }
    ensures part { OnErr result.1 (HasTakenFirst (AreClosingObjects (length records.now)) B.before.0
        (K.taken result.0.now)) }
    ensures cause { OnErr result.1 (B.before.1 < K.failures result.0.now) }
    ensures write { IfErr result.1 (λ fault. fault ≡ Fault.Write) }
{
    let mut json = Json {
        out: Sending::new(Borrowed::<K, B>::new(sink)),
    };
    uncounted_objects(&mut json, &rest.uncounted);
    call_objects(&mut json, rest, records);
    let (lent, answer) = json.out.finish();
    (lent.give_back(), answer)
}

/// Writes to a sink the objects after those of the report, whose calls these are. Fails where the sink fails, which
/// accepted a first part of them.
pub fn write_rest<A: Allocator + Copy, K: Sink>(
    rest: &Rest<A>,
    records: &[CallRecord<A>],
    sink: &mut K,
) -> Result<(), Fault>
    ensures ok { OnOk result (HasTaken (AreClosingObjects (length records.now)) (K.taken sink.old)
        (K.taken sink.new)) }
    ensures part { OnErr result (HasTakenFirst (AreClosingObjects (length records.now))
        (K.taken sink.old) (K.taken sink.new)) }
    ensures cause { OnErr result (K.failures sink.old < K.failures sink.new) }
    ensures write { IfErr result (λ fault. fault ≡ Fault.Write) }
{
    let (sink, answer) = write_to::<A, K, Brand>(rest, records, sink);
    take_back(sink);
    answer
}

/// An object for each reason for which data was not counted.
fn uncounted_objects<O: Out>(json: &mut Json<O>, uncounted: &Uncounted)
    ensures { Adds O.has AreUncounted json.old.out json.new.out }
{
    for reason in &REASONS {
        let amount = uncounted.amount(*reason);
        if amount.packets != 0 {
            json.raw(b"{\"line\":\"not_counted\"");
            json.member(",\"reason\":", Value::Text(reason_word(*reason)));
            json.member(",\"packets\":", Value::Number(amount.packets));
            json.member(",\"octets\":", Value::Number(amount.octets));
            json.raw(b"}\n");
        }
    }
}

/// Writes what a call's line of the report does not say: who pays, the side that cleared it, null where none did, and
/// what is remembered of it.
fn call_object<O: Out, A: Allocator + Copy>(
    json: &mut Json<O>,
    number: usize,
    record: &CallRecord<A>,
    rest: &Rest<A>,
)
    ensures { Adds O.has (IsObjectLine (codes "call_facts") (IsOfCall number)) json.old.out json.new.out }
{
    json.raw(b"{\"line\":\"call_facts\"");
    call_member(json, number as u64);
    json.member(",\"pays\":", Value::Text(payer_word(record.reverse)));
    json.member(",\"payer\":", Value::address(payer(record).as_bytes()));
    let clearer = match record.how {
        Some(How::T | How::N) => Value::Text(how_word(record.how)),
        _ => Value::Null,
    };
    json.member(",\"cleared_by\":", clearer);
    memory_members(json, number, rest);
    json.raw(b"}\n");
}

/// What is remembered of a call's rows, where something is.
fn memory_members<O: Out, A: Allocator + Copy>(json: &mut Json<O>, number: usize, rest: &Rest<A>)
    ensures { Adds O.has IsFurther json.old.out json.new.out }
{
    let Some(call) = rest.calls.get(u32::try_from(number).unwrap_or(0)) else {
        return;
    };
    cause_members(json, &call.causes, CauseTable::Clearing);
    json.begin(",\"findings\":");
    json.array(call.codes.as_slice());
    json.member(",\"start\":", Value::seconds(call.start.time));
    json.member(",\"seconds\":", Value::seconds(call_length(call)));
    json.known_member(",\"gaps\":", Value::number(rest.gaps_of(call)));
}

/// Returns how long a call lasted, where both its rows have times.
pub fn call_length<A: Allocator>(call: &CallMemory<A>) -> Option<Time> {
    let end = call.end.time?;
    let start = call.start.time?;
    end.since(&start)
}

impl Element for CodeCount {
    fn write<O: Out>(&self, json: &mut Json<O>) {
        let mut code = Buffer::new();
        json.first("{\"code\":");
        json.value(Value::Text(code_digits(self.code, &mut code)));
        json.member(",\"count\":", Value::Number(self.count));
        json.raw(b"}");
    }
}
