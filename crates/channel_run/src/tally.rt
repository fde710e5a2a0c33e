//! What is counted of one logical channel in one epoch, as its events come.

ghost use Rattle.std.specs.Prelude.{◌≡◌, ℕ, List, [], ◌∷◌, ◌++◌, sum, slice_get, IfOk, IfErr, OnOk};
ghost use Rattle.std.specs.List.{AllByRecursion};
ghost use Rattle.line_model.specs.declared.event.Event.{Event};
ghost use Rattle.line_model.specs.declared.event.What.TheVariants.{Data};
ghost use Rattle.line_model.specs.declared.fault.Fault.TheVariants.{Memory};
ghost use Rattle.line_model.specs.observer.Calls.{all_lengths};
ghost use Rattle.line_model.specs.observer.Report.{findings_of};
ghost use Rattle.call_accounts.specs.Counted.{IsCountable};
ghost use Rattle.call_accounts.specs.SoFar.{IsOf};
ghost use Rattle.channel_run.specs.Tally.{Counts, piece_result, IsWithin};

use call_accounts::so_far::{CallsSoFar, segments_for, segments_in};
use line_model::event::{Event, What};
use line_model::fault::Fault;
use line_model::finding::Finding;
use line_model::piece::PieceReport;
use line_model::state::Side;
use std::alloc::Allocator;

/// What is counted of one logical channel in one epoch so far.
#[derive(Drop)]
pub(crate) struct PieceTally<A: Allocator> {
    /// By packet.
    findings: Vec<Finding, A>,
    /// The calls that are over, and the one that is open.
    calls: CallsSoFar<A>,
    /// Octets of user data of all accepted data packets.
    octets: u64,
    /// Segments of 64 octets of these packets, each rounded up.
    segments: u64,
}

impl<A: Allocator + Clone> PieceTally<A> {
    /// Returns a tally of no events. Allocates nothing, except for a clone of the allocator.
    pub(crate) fn new(alloc: A) -> Result<Self, Fault>
        ensures none { IfOk result (λ tally. (epoch channel : ℕ)
            → Counts tally epoch channel []) }
        ensures memory { IfErr result (λ fault. fault ≡ Memory) }
    {
        Ok(PieceTally {
            findings: Vec::new(alloc.clone()?),
            calls: CallsSoFar::new(alloc),
            octets: 0,
            segments: 0,
        })
    }

    /// Returns the findings so far.
    pub(crate) fn findings(&self) -> &[Finding]
        ensures { (epoch channel : ℕ) (es : List Event) → Counts self.now epoch channel es
            → result.now ≡ findings_of es }
    {
        self.findings.as_slice()
    }

    /// Records the next event. Fails only when memory is refused; drop the tally then.
    #[inline(always)]
    pub(crate) fn record(&mut self, event: &Event) -> Result<(), Fault>
        ensures recorded { (epoch channel : ℕ) (es : List Event) → Counts self.old epoch channel es
            → IsOf epoch channel event.now → IsCountable (es ++ event.now ∷ [])
            → OnOk result (Counts self.new epoch channel (es ++ event.now ∷ [])) }
        ensures findings { OnOk result (self.new.findings.items ≡ self.old.findings.items
            ++ findings_of (event.now ∷ [])) }
        ensures memory { IfErr result (λ fault. fault ≡ Memory) }
    {
        push_finding(event, &mut self.findings)?;
        self.octets = self.octets.saturating_add(octets_in(event));
        let segments = segments_in(event);
        self.segments = self.segments.saturating_add(segments);
        self.calls.add_event(event, segments)?;
        Ok(())
    }

    /// Records the event of a data packet of a side, with `octets` octets of user data. Allocates nothing.
    #[inline(always)]
    pub(crate) fn add_data(&mut self, side: Side, octets: u32)
        ensures { (epoch channel : ℕ) (es : List Event) (e : Event) → Counts self.old epoch channel es
            → IsOf epoch channel e → e.what ≡ Data side octets → IsCountable (es ++ e ∷ [])
            → Counts self.new epoch channel (es ++ e ∷ []) }
    {
        let segments = segments_for(octets);
        self.octets = self.octets.saturating_add(u64::from(octets));
        self.segments = self.segments.saturating_add(segments);
        self.calls.add_data(side, octets, segments);
    }

    /// Records the next events, and returns the first finding among them. Fails only when memory is refused; drop the
    /// tally then.
    #[inline(always)]
    pub(crate) fn record_all(&mut self, events: &[Event]) -> Result<Option<Finding>, Fault>
        ensures recorded { (epoch channel : ℕ) (es : List Event) → Counts self.old epoch channel es
            → AllByRecursion (IsOf epoch channel) events.now → IsCountable (es ++ events.now)
            → OnOk result (Counts self.new epoch channel (es ++ events.now)) }
        ensures found { IfOk result (λ found. found ≡ slice_get (findings_of events.now) 0) }
        ensures memory { IfErr result (λ fault. fault ≡ Memory) }
    {
        let before = self.findings.as_slice().len();
        for event in events {
            self.record(event)?;
        }
        Ok(self.findings.as_slice().get(before).copied())
    }

    /// Returns the result of the channel so far, by a copy. Fails only when memory is refused.
    pub(crate) fn report(
        &self,
        alloc: A,
        id: u32,
        epoch: u32,
        channel: u16,
    ) -> Result<PieceReport<A>, Fault>
        requires within { (es : List Event) × Counts self.now epoch channel es × IsWithin es }
        ensures piece_result { IfOk result (λ report. (es : List Event) → Counts self.now epoch channel es
            → report ≡ piece_result id epoch channel es) }
        ensures memory { IfErr result (λ fault. fault ≡ Memory) }
    {
        Ok(PieceReport {
            id,
            epoch,
            channel,
            findings: Vec::from_slice(alloc.clone()?, &self.findings)?,
            calls: self.calls.calls(alloc)?,
            octets: self.octets,
            segments: self.segments,
        })
    }

    /// Returns the result of the channel when no more events come. Fails only when memory is refused.
    pub(crate) fn finish(self, id: u32, epoch: u32, channel: u16) -> Result<PieceReport<A>, Fault>
        requires within { (es : List Event) × Counts self epoch channel es × IsWithin es }
        ensures piece_result { IfOk result (λ report. (es : List Event) → Counts self epoch channel es
            → report ≡ piece_result id epoch channel es) }
        ensures memory { IfErr result (λ fault. fault ≡ Memory) }
    {
        let calls = self.calls.finish()?;
        Ok(PieceReport {
            id,
            epoch,
            channel,
            findings: self.findings,
            calls,
            octets: self.octets,
            segments: self.segments,
        })
    }
}

/// Adds the finding of an event, if it is one.
fn push_finding<A: Allocator>(event: &Event, findings: &mut Vec<Finding, A>) -> Result<(), Fault>
    ensures finding { OnOk result (findings.new.items ≡ findings.old.items
        ++ findings_of (event.now ∷ [])) }
    ensures memory { IfErr result (λ fault. fault ≡ Memory) }
{
    match event.what {
        What::Found { side, state, code } => {
            findings.push(Finding {
                packet: event.packet,
                side,
                state,
                code,
            })?;
            Ok(())
        }
        _ => Ok(()),
    }
}

/// The octets of an event, 0 where it is not a data packet.
fn octets_in(event: &Event) -> u64
    ensures { result ≡ sum (all_lengths (event.now ∷ [])) }
{
    match event.what {
        What::Data { octets, .. } => u64::from(octets),
        _ => 0,
    }
}
