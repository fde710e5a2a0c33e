//! The calls of one logical channel in one epoch, as its events come.

ghost use Rattle.std.specs.Prelude.{◌≡◌, ℕ, List, [], ◌∷◌, ◌++◌, Some, None, map, IfOk, IfErr, OnOk};
ghost use Rattle.line_model.specs.declared.event.Event.{Event};
ghost use Rattle.line_model.specs.declared.event.What.TheVariants.{Data, Open, End};
ghost use Rattle.call_accounts.specs.Counted.{Counts, IsCountable};
ghost use Rattle.call_accounts.specs.SoFar.{AddsEvent, AreCallsOf, IsOf, Represents, HasCalls, call_with, opening_of, ended_by, EndFirst};
ghost use Rattle.line_model.specs.basics.Records as records;
ghost use Rattle.line_model.specs.observer.Calls.{all_lengths, segments_of};

use crate::counts::CallCounts;
use line_model::address::Address;
use line_model::call::{CallRecord, copies};
use line_model::event::{Event, How, What};
use line_model::fault::Fault;
use line_model::state::Side;
use std::alloc::{AllocError, Allocator};

/// Returns the segments of 64 octets of a data packet; the last one begun counts whole.
pub fn segments_for(octets: u32) -> u64
    ensures { result ≡ segments_of (octets ∷ []) }
{
    u64::from(octets).div_ceil(64)
}

/// Returns the segments of 64 octets of an event, the last one begun counts whole; 0 where it is not a data packet.
pub fn segments_in(event: &Event) -> u64
    ensures { result ≡ segments_of (all_lengths (event.now ∷ [])) }
{
    match event.what {
        What::Data { octets, .. } => segments_for(octets),
        _ => 0,
    }
}

/// A call that has not ended: where it was opened, and what was counted of it since.
#[derive(Drop)]
pub struct OpenCall {
    epoch: u32,
    channel: u16,
    packet: u32,
    out: bool,
    called: Address,
    calling: Address,
    reverse: bool,
    counts: CallCounts,
}

impl OpenCall {
    /// The call that an event opens.
    fn new(event: &Event, out: bool, called: &Address, calling: &Address, reverse: bool) -> Self
        ensures opening { event.now.what ≡ Open out called.now calling.now reverse
            → opening_of result ≡ event.now }
        ensures counts { Counts result.counts [] }
    {
        OpenCall {
            epoch: event.epoch,
            channel: event.channel,
            packet: event.packet,
            out,
            called: called.copied(),
            calling: calling.copied(),
            reverse,
            counts: CallCounts::new(),
        }
    }

    /// Returns its record, with an end or without.
    fn record<A: Allocator>(
        &self,
        alloc: A,
        ended: Option<u32>,
        how: Option<How>,
    ) -> Result<CallRecord<A>, AllocError>
        ensures { IfOk result (λ r. (own : List Event) → Counts self.now.counts own
            → r ≡ call_with self.now own ended how) }
    {
        let counts = &self.counts;
        let settings = counts.settings(alloc)?;
        Ok(CallRecord {
            epoch: self.epoch,
            channel: self.channel,
            out: self.out,
            called: self.called.copied(),
            calling: self.calling.copied(),
            reverse: self.reverse,
            up: counts.up,
            opened: self.packet,
            ended,
            how,
            data_t: counts.data_t,
            oct_t: counts.oct_t,
            data_n: counts.data_n,
            oct_n: counts.oct_n,
            segments: counts.segments,
            settings,
        })
    }
}

/// Ends the calls that have not ended; they are the last ones.
fn end_last<A: Allocator>(calls: &mut Vec<CallRecord<A>, A>, packet: u32, how: How)
    ensures { EndFirst calls.old.items
        → calls.new.items ≡ map (ended_by packet how) calls.old.items }
{
    for index in (0..calls.len()).rev() {
        if calls[index].ended.is_some() {
            return;
        }
        let call = &mut calls[index];
        call.ended = Some(packet);
        call.how = Some(how);
    }
}

/// Appends a record. The first one gets room for one record alone.
fn push_record<A: Allocator>(
    calls: &mut Vec<CallRecord<A>, A>,
    call: CallRecord<A>,
) -> Result<(), AllocError>
    ensures { OnOk result (calls.new.items ≡ calls.old.items ++ call ∷ []) }
{
    if calls.is_empty() {
        calls.reserve_exact(1)?;
    }
    calls.push(call)?;
    Ok(())
}

/// The calls of one logical channel in one epoch so far: the records of those that are over, and the call that is open.
/// An opening where a call is open, which no channel makes, leaves that call without an end until one comes.
#[derive(Drop)]
pub struct CallsSoFar<A: Allocator> {
    closed: Vec<CallRecord<A>, A>,
    call: Option<OpenCall>,
}

impl<A: Allocator + Clone> CallsSoFar<A> {
    /// Returns the calls before any event. It needs no memory.
    pub fn new(alloc: A) -> Self
        ensures { (epoch channel : ℕ) → Represents result epoch channel [] }
    {
        CallsSoFar {
            closed: Vec::new(alloc),
            call: None,
        }
    }

    /// Adds the next event of the channel, which has `segments` segments (`segments_in`). Fails only when memory is
    /// refused; drop the value then.
    pub fn add_event(&mut self, event: &Event, segments: u64) -> Result<(), AllocError>
        requires segments { segments ≡ segments_of (all_lengths (event.now ∷ [])) }
        ensures added { AddsEvent self.old event.now self.new result }
    {
        match &event.what {
            What::Open {
                out,
                called,
                calling,
                reverse,
            } => {
                self.close()?;
                self.call = Some(OpenCall::new(event, *out, called, calling, *reverse));
                Ok(())
            }
            What::End(how) => self.end(event.packet, *how),
            _ => {
                if let Some(call) = &mut self.call {
                    call.counts.add_event(event, segments);
                }
                Ok(())
            }
        }
    }

    /// Adds the event of a data packet of a side, which has `segments` segments (`segments_for`). It needs no memory.
    #[inline(always)]
    pub fn add_data(&mut self, side: Side, octets: u32, segments: u64)
        ensures { (epoch channel : ℕ) (es : List Event) (e : Event)
            → Represents self.old epoch channel es → IsOf epoch channel e
            → e.what ≡ Data side octets → segments ≡ segments_of (octets ∷ [])
            → IsCountable (es ++ e ∷ []) → Represents self.new epoch channel (es ++ e ∷ []) }
    {
        if let Some(call) = &mut self.call {
            call.counts.add_data(side, octets, segments);
        }
    }

    /// Closes the call that is open, without an end.
    fn close(&mut self) -> Result<(), AllocError>
        ensures none { OnOk result (self.new.call ≡ None) }
        ensures closed { OnOk result (AreCallsOf self.old self.new.closed.items) }
        ensures has_calls { (cs : List records.CallRecord) → HasCalls self.old cs
            → OnOk result (self.new.closed.items ≡ cs) }
    {
        let Some(call) = &self.call else {
            return Ok(());
        };
        let alloc = self.closed.allocator().clone()?;
        let record = call.record(alloc, None, None)?;
        push_record(&mut self.closed, record)?;
        self.call = None;
        Ok(())
    }

    /// Ends the call that is open, and with it those without an end.
    fn end(&mut self, packet: u32, how: How) -> Result<(), AllocError>
        ensures { (epoch channel : ℕ) (es : List Event) (e : Event)
            → Represents self.old epoch channel es
            → IsOf epoch channel e → e.packet ≡ packet → e.what ≡ End how
            → OnOk result (Represents self.new epoch channel (es ++ e ∷ [])) }
    {
        let Some(call) = &self.call else {
            return Ok(());
        };
        let alloc = self.closed.allocator().clone()?;
        let record = call.record(alloc, Some(packet), Some(how))?;
        end_last(&mut self.closed, packet, how);
        push_record(&mut self.closed, record)?;
        self.call = None;
        Ok(())
    }

    /// Removes and returns the record of the call that was opened last, which is closed first if it is open.
    pub(crate) fn pop(&mut self) -> Result<Option<CallRecord<A>>, AllocError>
        ensures popped { (cs : List records.CallRecord) (r : records.CallRecord)
            → HasCalls self.old (cs ++ r ∷ []) → IfOk result (λ call. call ≡ Some r) }
        ensures left { (cs : List records.CallRecord) (r : records.CallRecord)
            → HasCalls self.old (cs ++ r ∷ []) → OnOk result (HasCalls self.new cs) }
    {
        self.close()?;
        Ok(self.closed.pop())
    }

    /// Returns the records of the calls so far, in the order of their openings. Fails only when memory is refused.
    pub fn calls(&self, alloc: A) -> Result<Vec<CallRecord<A>, A>, Fault>
        ensures calls { IfOk result (λ v. AreCallsOf self.now v.items) }
        ensures memory { IfErr result (λ f. f ≡ Fault.Memory) }
    {
        let mut calls = copies(alloc.clone()?, &self.closed)?;
        let Some(call) = &self.call else {
            return Ok(calls);
        };
        let record = call.record(alloc, None, None)?;
        push_record(&mut calls, record)?;
        Ok(calls)
    }

    /// Returns the records of the calls when no more events come, in the order of their openings. Fails only when
    /// memory is refused.
    pub fn finish(mut self) -> Result<Vec<CallRecord<A>, A>, AllocError>
        ensures calls { IfOk result (λ v. AreCallsOf self v.items) }
    {
        self.close()?;
        Ok(self.closed)
    }
}
