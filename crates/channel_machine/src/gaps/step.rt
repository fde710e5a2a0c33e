//! What a row does to a channel of a recording with gaps.

ghost use Rattle.std.specs.Prelude.{◌≡◌, IfOk, None, OnSome};
ghost use Rattle.line_model.specs.basics.Bounds.{IsSaid};
ghost use Rattle.line_model.specs.channels.Gaps as gaps;
ghost use Rattle.line_model.specs.packets.Says.{gap_of};
ghost use Rattle.line_model.specs.observer.Observer.{row_step};
ghost use Rattle.channel_machine.specs.Channels.{IsMemory};
ghost use Rattle.channel_machine.specs.Events.{origin_at};
ghost use Rattle.channel_machine.specs.GapChannels.{GapDoesApart, IsGapUnchanged, Represents, interface_of, number_of};
ghost use Rattle.channel_machine.specs.GapView.KnownCertainty.{Certain};

use crate::gaps::channel::{Certainty, GapChannel};
use crate::gaps::kinds::gap_in;
use crate::gaps::rows::GapRow;
use crate::status::StatusStore;
use crate::step::listed;
use line_model::event::Event;
use line_model::fault::Fault;
use line_model::items::ItemRef;
use std::alloc::Allocator;

impl<A: Allocator + Clone, S: StatusStore> GapChannel<A, S> {
    /// Steps the channel as `advance` does, where the row is a gap, or something is in doubt. Nothing is in doubt of a settled
    /// channel any more where no call is open after the row and the channel is not in d1.
    #[inline(never)]
    pub(crate) fn handle_rarely(
        &mut self,
        epoch: u32,
        item: &ItemRef<'_>,
        events: &mut Vec<Event, A>,
    ) -> Result<Option<u32>, Fault>
        requires said { IsSaid (interface_of self.old) item.now }
        requires rare { self.old.certainty ≡ Certain → gap_of item.now.packet ≡ None → ⊥ }
        ensures does { (g : gaps.GapChannel) → Represents self.old g
            → IfOk result (λ accepted. GapDoesApart (origin_at epoch (number_of self.old) item.now)
            item.now.side self.old self.new events.old.items events.new.items accepted
            (row_step (interface_of self.old) (number_of self.old) g item.now)) }
        ensures apart { IfOk result (λ accepted. OnSome accepted (events.new ≡ events.old)) }
        ensures unchanged { IsGapUnchanged result self.old self.new events.old.items events.new.items }
        ensures memory { IsMemory result }
    {
        match gap_in(&item.packet) {
            Some(all_channels) => {
                self.gap(all_channels);
                Ok(None)
            }
            None => self.handle_in_doubt(epoch, item, events),
        }
    }

    /// Steps the channel by a packet, where something is in doubt.
    #[inline(always)]
    fn handle_in_doubt(
        &mut self,
        epoch: u32,
        item: &ItemRef<'_>,
        events: &mut Vec<Event, A>,
    ) -> Result<Option<u32>, Fault>
        requires said { IsSaid (interface_of self.old) item.now }
        requires packet { gap_of item.now.packet ≡ None }
        requires doubt { self.old.certainty ≡ Certain → ⊥ }
        ensures does { (g : gaps.GapChannel) → Represents self.old g
            → IfOk result (λ accepted. GapDoesApart (origin_at epoch (number_of self.old) item.now)
            item.now.side self.old self.new events.old.items events.new.items accepted
            (row_step (interface_of self.old) (number_of self.old) g item.now)) }
        ensures apart { IfOk result (λ accepted. OnSome accepted (events.new ≡ events.old)) }
        ensures unchanged { IsGapUnchanged result self.old self.new events.old.items events.new.items }
        ensures memory { IsMemory result }
    {
        let row = GapRow {
            origin: self.channel.origin(epoch, item),
            side: item.side,
        };
        match &mut self.certainty {
            Certainty::Adrift(adrift) => {
                let adrift = *adrift;
                listed(self.step_adrift(&row, adrift, item, events))
            }
            Certainty::Settled(settled) => {
                let accepted = self.channel.step_settled(settled, &row, item, events)?;
                if !self.channel.is_settled() {
                    self.certainty = Certainty::Certain;
                }
                Ok(accepted)
            }
            Certainty::Certain => Ok(None),
        }
    }
}
