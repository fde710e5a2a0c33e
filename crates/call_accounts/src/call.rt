//! The records of calls, from a list of events of any channels.

ghost use Rattle.std.specs.Prelude.{◌≡◌, ℕ, ◌≤◌, ◌^◌, ◌==◌, ◌&&◌, List, [], ◌∷◌, ◌++◌, Some, false, map, OnOk, IfOk, IfErr, sum};
ghost use Rattle.line_model.specs.declared.event.Event.{Event};
ghost use Rattle.line_model.specs.basics.Records as records;
ghost use Rattle.line_model.specs.observer.Calls.{calls_of, all_lengths};
ghost use Rattle.call_accounts.specs.Counted.{IsCountable};
ghost use Rattle.call_accounts.specs.Places.{AreAdded, AreLeft, IsFound, calls_at, place_of};

use crate::so_far::{CallsSoFar, segments_in};
use line_model::call::CallRecord;
use line_model::event::{Event, What};
use line_model::fault::Fault;
use std::alloc::{AllocError, Allocator};
use std::collections::BTreeMap;
use std::mem::replace;

/// The calls of each channel in each epoch so far: one current place, the others in a map.
#[derive(Drop)]
struct Places<A: Allocator> {
    epoch: u32,
    channel: u16,
    here: CallsSoFar<A>,
    others: BTreeMap<(u32, u16), CallsSoFar<A>, A>,
}

impl<A: Allocator + Clone> Places<A> {
    /// Returns places without events. The place of the first event is current, so the events of one place need no room
    /// in the map.
    fn new(alloc: &A, events: &[Event]) -> Result<Self, AllocError>
        ensures { IfOk result (λ places. AreAdded places []) }
    {
        let (epoch, channel) = match events.first() {
            Some(event) => (event.epoch, event.channel),
            None => (0, 0),
        };
        Ok(Places {
            epoch,
            channel,
            here: CallsSoFar::new(alloc.clone()?),
            others: BTreeMap::new(alloc.clone()?),
        })
    }

    /// Makes (epoch, channel) the current place.
    fn select(&mut self, alloc: &A, epoch: u32, channel: u16) -> Result<(), AllocError>
        ensures current { OnOk result ((self.new.epoch ≡ epoch) × (self.new.channel ≡ channel)) }
        ensures here { OnOk result (IsFound (calls_at self.old epoch channel) self.new.here) }
        ensures others { OnOk result ((e c : ℕ) → (epoch == e && channel == c) ≡ false
            → calls_at self.new e c ≡ calls_at self.old e c) }
    {
        if self.epoch == epoch && self.channel == channel {
            return Ok(());
        }
        let next = match self.others.remove(&(epoch, channel)) {
            Some(calls) => calls,
            None => CallsSoFar::new(alloc.clone()?),
        };
        let here = replace(&mut self.here, next);
        self.others.insert((self.epoch, self.channel), here)?;
        self.epoch = epoch;
        self.channel = channel;
        Ok(())
    }

    /// Adds an event at its place.
    fn add_event(&mut self, alloc: &A, event: &Event) -> Result<(), AllocError>
        ensures { (es : List Event) → AreAdded self.old es → IsCountable (es ++ event.now ∷ [])
            → OnOk result (AreAdded self.new (es ++ event.now ∷ [])) }
    {
        self.select(alloc, event.epoch, event.channel)?;
        self.here.add_event(event, segments_in(event))
    }

    /// Removes and returns the record of the call that was opened last at a place.
    fn pop(
        &mut self,
        alloc: &A,
        epoch: u32,
        channel: u16,
    ) -> Result<Option<CallRecord<A>>, AllocError>
        ensures popped { (cs : List records.CallRecord) (r : records.CallRecord)
            → AreLeft self.old (cs ++ r ∷ []) → r.epoch ≡ epoch → r.channel ≡ channel
            → IfOk result (λ call. call ≡ Some r) }
        ensures left { (cs : List records.CallRecord) (r : records.CallRecord)
            → AreLeft self.old (cs ++ r ∷ []) → r.epoch ≡ epoch → r.channel ≡ channel
            → OnOk result (AreLeft self.new cs) }
    {
        self.select(alloc, epoch, channel)?;
        self.here.pop()
    }
}

/// Returns the records that are left, in the order of `openings`, which has the places of their calls.
fn in_order<A: Allocator + Clone>(
    alloc: &A,
    mut places: Places<A>,
    mut openings: Vec<(u32, u16), A>,
) -> Result<Vec<CallRecord<A>, A>, AllocError>
    ensures { (cs : List records.CallRecord) → AreLeft places cs → openings.items ≡ map place_of cs
        → IfOk result (λ v. v.items ≡ cs) }
{
    let mut calls = Vec::with_capacity(alloc.clone()?, openings.len())?;
    while let Some((epoch, channel)) = openings.pop() {
        if let Some(call) = places.pop(alloc, epoch, channel)? {
            calls.push(call)?;
        }
    }
    calls.reverse();
    Ok(calls)
}

/// Returns the records of the calls that events open, in order (X.25 clause 4; the record is profile). A call ends with
/// the first end after its opening in its epoch and channel. What comes before that end and before the next opening
/// there belongs to it: when it came up, its data packets and their octets by side, segments of 64 octets rounded up,
/// and what the last word on each PAD parameter was. Fails only when memory is refused.
pub fn calls_of<A: Allocator + Clone>(
    alloc: A,
    events: &[Event],
) -> Result<Vec<CallRecord<A>, A>, Fault>
    requires few_octets { sum (all_lengths events.now) ≤ 2 ^ 63 }
    ensures calls { IfOk result (λ v. v.items ≡ calls_of events.now) }
    ensures memory { IfErr result (λ f. f ≡ Fault.Memory) }
{
    let mut places = Places::new(&alloc, events)?;
    let mut openings = Vec::new(alloc.clone()?);
    for event in events {
        places.add_event(&alloc, event)?;
        if let What::Open { .. } = event.what {
            openings.push((event.epoch, event.channel))?;
        }
    }
    Ok(in_order(&alloc, places, openings)?)
}
