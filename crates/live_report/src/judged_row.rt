//! A row, as an observer judged it.

ghost use Rattle.std.specs.Prelude.{◌≡◌, ℕ, List, Some, IfErr, OnOk};
ghost use Rattle.std.specs.Bool.{OnFalse, OnTrue};
ghost use Rattle.data_transfer.specs.Packed.{Packed};
ghost use Rattle.line_model.specs.basics.Records.{Item};
ghost use Rattle.line_model.specs.declared.event.Event.{Event};
ghost use Rattle.line_model.specs.declared.fault.Fault.TheVariants.{Memory};
ghost use Rattle.live_report.specs.JudgedRows.{judged_row, taker};
ghost use Rattle.live_report.specs.Effects.{with_data};
ghost use Rattle.live_report.specs.declared.judged_row.Judge.TheVariants.{Channel as OfChannel};

use data_transfer::packed::FlowWord;
use line_model::event::{Event, What};
use line_model::fault::Fault;
use line_model::finding::Finding;
use line_model::items::ItemRef;
use line_model::packet::Packet;
use line_model::state::{RState, Side};
use std::alloc::Allocator;

/// The machine that judged a row, and what it knew before and after the row.
#[derive(Clone, Copy)]
pub enum Judge {
    /// The restart machine, by its states.
    Restart {
        before: RState,
        after: RState,
    },
    /// The logical channel that the row went to, by its words, which `channel_run::status_word::view_in` reads.
    Channel {
        channel: u16,
        before: FlowWord,
        after: FlowWord,
        /// The octets of user data of an accepted data packet with Q 0, whose event is the row's only one.
        accepted: Option<u32>,
    },
}

impl Judge {
    /// Returns whether it is a logical channel that accepted a data packet with Q 0.
    #[inline(always)]
    pub(crate) fn is_accepted(&self) -> bool
        ensures accepted { OnTrue result ((k : ℕ) × (before : Packed) × (after : Packed) × (n : ℕ)
            × (self.now ≡ OfChannel k before after (Some n))) }
        ensures listed { OnFalse result ((epoch : ℕ) (r : Item) (events : List Event)
            → with_data epoch self.now r events ≡ events) }
    {
        match self {
            Judge::Restart { .. } => false,
            Judge::Channel { accepted, .. } => accepted.is_some(),
        }
    }

    /// Lists the event of accepted data with Q 0, where the row is such. Fails only when memory is refused.
    #[inline(always)]
    pub(crate) fn list_accepted<A: Allocator>(
        &self,
        epoch: u32,
        item: &ItemRef<'_>,
        events: &mut Vec<Event, A>,
    ) -> Result<(), Fault>
        ensures listed { OnOk result (events.new.items ≡ with_data epoch self.now item.now events.old.items) }
        ensures memory { IfErr result (λ fault. fault ≡ Memory) }
    {
        if let Judge::Channel {
            channel,
            accepted: Some(octets),
            ..
        } = self
        {
            events.push(Event {
                epoch,
                channel: *channel,
                packet: item.number,
                what: What::Data {
                    side: item.side,
                    octets: *octets,
                },
            })?;
        }
        Ok(())
    }
}

/// A row, as an observer judged it.
#[derive(Clone, Copy)]
pub struct JudgedRow {
    /// Its number.
    pub number: u32,
    /// The side that sent it.
    pub side: Side,
    /// Its packet.
    pub packet: Packet,
    /// The machine that judged it.
    pub judge: Judge,
    /// What it found.
    pub finding: Option<Finding>,
}

/// What came of a row.
#[derive(Clone, Copy)]
pub(crate) struct RowOutcome {
    /// The machine that judged it.
    pub(crate) judge: Judge,
    /// What it found.
    pub(crate) finding: Option<Finding>,
}

impl RowOutcome {
    /// Returns the row of this outcome as it was judged.
    #[inline(always)]
    pub(crate) fn row(&self, item: &ItemRef<'_>) -> JudgedRow
        ensures { result ≡ judged_row item.now self.now }
    {
        JudgedRow {
            number: item.number,
            side: item.side,
            packet: item.packet,
            judge: self.judge,
            finding: self.finding,
        }
    }
}

impl JudgedRow {
    /// Returns the logical channel that it went to; none where the restart machine judged it.
    pub fn channel(&self) -> Option<u16>
        ensures { result ≡ taker self.now.judge }
    {
        match &self.judge {
            Judge::Restart { .. } => None,
            Judge::Channel { channel, .. } => Some(*channel),
        }
    }
}
