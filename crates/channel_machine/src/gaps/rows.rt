//! What packets do to a channel adrift.

ghost use Rattle.std.specs.Prelude.{◌≡◌, ◌≤◌, ℕ, List, false, true, None, Option, Some, IfOk};
ghost use Rattle.line_model.specs.basics.Bounds.{IsSaid};
ghost use Rattle.line_model.specs.packets.Classes.{packet_class};
ghost use Rattle.line_model.specs.packets.Facilities.{fields_of};
ghost use Rattle.line_model.specs.packets.Says.{header_in};
ghost use Rattle.packet_decode.specs.Shown.{shown, IsUsable};
ghost use Rattle.line_model.specs.channels.Channels.{Channel, is_permanent, is_transfer};
ghost use Rattle.line_model.specs.channels.ChannelStep.{ending, entering, state_named};
ghost use Rattle.line_model.specs.channels.Gaps.{WhileAdrift as Drifting, drifting};
ghost use Rattle.line_model.specs.channels.GapStep.{adrift_acceptance, adrift_call, adrift_entry, adrift_reset, adrift_step, adrift_step_by, adrift_transfer, brought_up, cleared_by, confirmed_clear, owed_after, with_certainty};
ghost use Rattle.channel_machine.specs.Channels.{IsMemory, StatusRepresents};
ghost use Rattle.channel_machine.specs.GapChannels.{ComesAdrift, GapDoes, IsGapUnchanged, adrift_at, interface_of, number_of};
ghost use Rattle.channel_machine.specs.Contents.{AreOf, AreUsable, is_call};
ghost use Rattle.channel_machine.specs.GapSteps.{IsBare, received_after};
ghost use Rattle.channel_machine.specs.GapView.KnownCertainty.{Adrift};
ghost use Rattle.channel_machine.specs.Settling.{settling_by};
ghost use Rattle.channel_machine.specs.Sizes.{largest_length};

use crate::events::EventOrigin;
use crate::format::Contents;
use crate::gaps::adrift::{cleared_by, resetting_state};
use crate::gaps::carried::WhileAdrift;
use crate::gaps::channel::{Certainty, GapChannel};
use crate::gaps::kinds::{adrift_entry, is_nothing_owed, owed_after};
use crate::gaps::settled::{SettledNumbers, Settling, received};
use crate::status::StatusStore;
use line_model::event::{Event, How};
use line_model::fault::Fault;
use line_model::gap::{AdriftEntry, LastData};
use line_model::items::ItemRef;
use line_model::packet::Class;
use line_model::state::{Side, StateName};
use packet_decode::fields::CallFields;
use std::alloc::Allocator;

/// A row on a channel adrift: where its events come from, and its side.
#[derive(Clone, Copy)]
pub(crate) struct GapRow {
    pub(crate) origin: EventOrigin,
    pub(crate) side: Side,
}

impl<A: Allocator + Clone, S: StatusStore> GapChannel<A, S> {
    /// Steps a channel adrift by what a row says. Finds nothing; a packet with a fault of format does nothing.
    pub(crate) fn step_adrift(
        &mut self,
        row: &GapRow,
        adrift: WhileAdrift,
        item: &ItemRef<'_>,
        events: &mut Vec<Event, A>,
    ) -> Result<(), Fault>
        requires side { row.now.side ≡ item.now.side }
        requires said { IsSaid (interface_of self.old) item.now }
        ensures does { self.old.certainty ≡ Adrift adrift
            → ComesAdrift result row.now.origin self.old self.new events.old.items events.new.items
            adrift (adrift_step (interface_of self.old) (number_of self.old)
            item.now adrift) }
        ensures unchanged { IsGapUnchanged result self.old self.new events.old.items events.new.items }
        ensures memory { IsMemory result }
    {
        match self.channel.read_adrift(item) {
            Ok(contents) => self.handle_contents(row, adrift, &contents, item, events),
            Err(_) => Ok(()),
        }
    }

    /// Steps by what a packet without a fault of format says.
    #[inline(always)]
    fn handle_contents(
        &mut self,
        row: &GapRow,
        adrift: WhileAdrift,
        contents: &Contents<'_>,
        item: &ItemRef<'_>,
        events: &mut Vec<Event, A>,
    ) -> Result<(), Fault>
        requires side { row.now.side ≡ item.now.side }
        requires contents { AreOf contents.now item.now }
        requires usable { AreUsable contents.now (interface_of self.old) }
        requires short { packet_class item.now.packet ≡ Class.Data
            → item.now.length ≤ largest_length }
        ensures does { self.old.certainty ≡ Adrift adrift
            → ComesAdrift result row.now.origin self.old self.new
            events.old.items events.new.items adrift
            (adrift_step_by (adrift_entry (is_permanent (interface_of self.old) (number_of self.old))
            (packet_class item.now.packet)) (interface_of self.old) (number_of self.old) item.now adrift) }
        ensures unchanged { IsGapUnchanged result self.old self.new events.old.items events.new.items }
        ensures memory { IsMemory result }
    {
        let permanent = self.channel.is_permanent();
        match contents {
            Contents::Call(fields) => {
                if permanent {
                    return Ok(());
                }
                self.open_adrift(row, adrift, fields, events)
            }
            Contents::Accepted(fields) => {
                if permanent {
                    return Ok(());
                }
                self.accept_adrift(row, adrift, fields, events)
            }
            Contents::Other => {
                let entry = adrift_entry(permanent, item.packet.class());
                self.handle_entry(row, adrift, entry, item, events)
            }
        }
    }

    /// Steps by the entry of a packet other than those that open or accept a call.
    #[inline(always)]
    fn handle_entry(
        &mut self,
        row: &GapRow,
        adrift: WhileAdrift,
        entry: AdriftEntry,
        item: &ItemRef<'_>,
        events: &mut Vec<Event, A>,
    ) -> Result<(), Fault>
        requires side { row.now.side ≡ item.now.side }
        requires entry { entry ≡ adrift_entry
            (is_permanent (interface_of self.old) (number_of self.old)) (packet_class item.now.packet) }
        requires other { is_call (packet_class item.now.packet) ≡ false }
        requires short { packet_class item.now.packet ≡ Class.Data
            → item.now.length ≤ largest_length }
        ensures does { self.old.certainty ≡ Adrift adrift
            → ComesAdrift result row.now.origin self.old self.new
            events.old.items events.new.items adrift
            (adrift_step_by entry (interface_of self.old) (number_of self.old) item.now adrift) }
        ensures unchanged { IsGapUnchanged result self.old self.new events.old.items events.new.items }
        ensures memory { IsMemory result }
    {
        match entry {
            AdriftEntry::Clears => self.clear_adrift(row, adrift, events),
            AdriftEntry::ConfirmsClear => self.confirm_clear_adrift(row, adrift, events),
            AdriftEntry::Resets => {
                self.handle_reset(row, adrift, entry, resetting_state(row.side), events)
            }
            AdriftEntry::ConfirmsReset => {
                self.handle_reset(row, adrift, entry, StateName::D1, events)
            }
            AdriftEntry::Carries => self.carry_adrift(row, adrift, item, events),
            _ => Ok(()),
        }
    }

    /// Steps by a reset or its confirmation, after which less may be owed.
    fn handle_reset(
        &mut self,
        row: &GapRow,
        adrift: WhileAdrift,
        entry: AdriftEntry,
        to: StateName,
        events: &mut Vec<Event, A>,
    ) -> Result<(), Fault>
        requires transfer { is_transfer (state_named to) ≡ true }
        ensures does { ComesAdrift result row.now.origin self.old self.new
            events.old.items events.new.items adrift
            (adrift_reset (interface_of self.old) (number_of self.old)
            (owed_after row.now.side entry adrift.owed) adrift to) }
        ensures unchanged { IsGapUnchanged result self.old self.new events.old.items events.new.items }
        ensures memory { IsMemory result }
    {
        let owed = owed_after(row.side, entry, adrift.owed());
        self.reset_adrift(row, adrift.owing(owed), to, events)
    }

    /// Steps by a call, before which the end of another may be missing.
    fn open_adrift(
        &mut self,
        row: &GapRow,
        adrift: WhileAdrift,
        fields: &CallFields<'_>,
        events: &mut Vec<Event, A>,
    ) -> Result<(), Fault>
        requires usable { IsUsable (interface_of self.old) fields.now }
        requires not_permanent { is_permanent (interface_of self.old) (number_of self.old) ≡ false }
        ensures does { (xs : List ℕ) → shown fields.now ≡ fields_of xs
            → ComesAdrift result row.now.origin self.old self.new events.old.items events.new.items
            adrift (λ g. with_certainty g (drifting adrift.owed false)
            (adrift_call row.now.side xs g.channel)) }
        ensures unchanged { IsGapUnchanged result self.old self.new events.old.items events.new.items }
        ensures memory { IsMemory result }
    {
        self.channel
            .call_adrift(row.origin, row.side, fields, events)?;
        self.certainty = Certainty::Adrift(WhileAdrift::new(adrift.owed(), false));
        Ok(())
    }

    /// Steps by an acceptance, which brings up a call that was not up.
    fn accept_adrift(
        &mut self,
        row: &GapRow,
        adrift: WhileAdrift,
        fields: &CallFields<'_>,
        events: &mut Vec<Event, A>,
    ) -> Result<(), Fault>
        requires usable { IsUsable (interface_of self.old) fields.now }
        ensures does { (xs : List ℕ) → shown fields.now ≡ fields_of xs
            → self.old.certainty ≡ Adrift adrift
            → ComesAdrift result row.now.origin self.old self.new events.old.items events.new.items
            adrift (adrift_acceptance (interface_of self.old) row.now.side xs adrift) }
        ensures unchanged { IsGapUnchanged result self.old self.new events.old.items events.new.items }
        ensures memory { IsMemory result }
    {
        if !self.channel.is_calling() {
            return Ok(());
        }
        let hidden = self.channel.is_hidden_when_accepted(&adrift, row.side);
        self.channel
            .accept_adrift(row.origin, hidden, fields, events)?;
        self.certainty = Certainty::Adrift(adrift.hiding(hidden));
        Ok(())
    }

    /// Steps by a clear, which ends the call by its side.
    fn clear_adrift(
        &mut self,
        row: &GapRow,
        adrift: WhileAdrift,
        events: &mut Vec<Event, A>,
    ) -> Result<(), Fault>
        requires not_permanent { is_permanent (interface_of self.old) (number_of self.old) ≡ false }
        ensures does { ComesAdrift result row.now.origin self.old self.new
            events.old.items events.new.items adrift (λ g.
            with_certainty g
            (drifting (owed_after row.now.side AdriftEntry.Clears adrift.owed) false)
            (ending (cleared_by row.now.side) (entering StateName.P1 false g.channel))) }
        ensures unchanged { IsGapUnchanged result self.old self.new events.old.items events.new.items }
        ensures memory { IsMemory result }
    {
        events.reserve(1)?;
        self.channel.end(
            row.origin,
            cleared_by(row.side),
            StateName::P1,
            false,
            events,
        );
        let owed = owed_after(row.side, AdriftEntry::Clears, adrift.owed());
        self.certainty = Certainty::Adrift(WhileAdrift::new(owed, false));
        Ok(())
    }

    /// Steps by a clear confirmation: nothing is in doubt after it, unless an indication may still be owed or the
    /// interface may be restarting.
    fn confirm_clear_adrift(
        &mut self,
        row: &GapRow,
        adrift: WhileAdrift,
        events: &mut Vec<Event, A>,
    ) -> Result<(), Fault>
        requires not_permanent { is_permanent (interface_of self.old) (number_of self.old) ≡ false }
        ensures does { ComesAdrift result row.now.origin self.old self.new
            events.old.items events.new.items adrift (λ g.
            with_certainty g
            (confirmed_clear g.restarting
            (owed_after row.now.side AdriftEntry.ConfirmsClear adrift.owed))
            (ending How.Gap (entering StateName.P1 false g.channel))) }
        ensures unchanged { IsGapUnchanged result self.old self.new events.old.items events.new.items }
        ensures memory { IsMemory result }
    {
        events.reserve(1)?;
        self.channel
            .end(row.origin, How::Gap, StateName::P1, false, events);
        let owed = owed_after(row.side, AdriftEntry::ConfirmsClear, adrift.owed());
        self.certainty = if self.restarting || !is_nothing_owed(owed) {
            Certainty::Adrift(WhileAdrift::new(owed, false))
        } else {
            Certainty::Certain
        };
        Ok(())
    }

    /// Steps by a reset or its confirmation, which brings up a call that was not up. What is owed after it is known.
    fn reset_adrift(
        &mut self,
        row: &GapRow,
        adrift: WhileAdrift,
        to: StateName,
        events: &mut Vec<Event, A>,
    ) -> Result<(), Fault>
        requires transfer { is_transfer (state_named to) ≡ true }
        ensures does { ComesAdrift result row.now.origin self.old self.new
            events.old.items events.new.items adrift
            (adrift_reset (interface_of self.old) (number_of self.old) adrift.owed adrift to) }
        ensures unchanged { IsGapUnchanged result self.old self.new events.old.items events.new.items }
        ensures memory { IsMemory result }
    {
        if !self.channel.is_in_use() {
            self.certainty = Certainty::Adrift(adrift);
            return Ok(());
        }
        let hidden = self.channel.is_hidden_when_up(&adrift);
        self.channel.reset_adrift(row.origin, to, events)?;
        self.certainty = Certainty::Adrift(WhileAdrift::new(adrift.owed(), hidden));
        Ok(())
    }

    /// Steps by a packet of data transfer, which brings up a call that was not up and may settle the channel. While the
    /// other side resets it does nothing.
    fn carry_adrift(
        &mut self,
        row: &GapRow,
        adrift: WhileAdrift,
        item: &ItemRef<'_>,
        events: &mut Vec<Event, A>,
    ) -> Result<(), Fault>
        requires side { row.now.side ≡ item.now.side }
        requires short { packet_class item.now.packet ≡ Class.Data
            → item.now.length ≤ largest_length }
        ensures does { self.old.certainty ≡ Adrift adrift
            → ComesAdrift result row.now.origin self.old self.new
            events.old.items events.new.items adrift
            (adrift_transfer (interface_of self.old) (number_of self.old) item.now adrift) }
        ensures unchanged { IsGapUnchanged result self.old self.new events.old.items events.new.items }
        ensures memory { IsMemory result }
    {
        if self.channel.ignores_transfer(row.side) {
            return Ok(());
        }
        let adrift = adrift.hiding(self.channel.is_hidden_when_up(&adrift));
        match Settling::by(&adrift, row.side, &item.packet) {
            Some(settling) => self.settle(row, &adrift, &settling, item, events),
            None => self.stay_adrift(row, adrift, item, events),
        }
    }

    /// Steps by a packet that settles the channel.
    fn settle(
        &mut self,
        row: &GapRow,
        adrift: &WhileAdrift,
        settling: &Settling,
        item: &ItemRef<'_>,
        events: &mut Vec<Event, A>,
    ) -> Result<(), Fault>
        requires side { settling.now.side ≡ item.now.side }
        requires header { settling.now.header ≡ header_in item.now.packet }
        requires short { packet_class item.now.packet ≡ Class.Data
            → item.now.length ≤ largest_length }
        ensures does { (b : Drifting) (c : Channel) → StatusRepresents self.old.channel c
            → IsBare (brought_up (interface_of self.old) c).after
            → IfOk result (λ _. GapDoes row.now.origin self.old self.new
            events.old.items events.new.items
            (received_after (interface_of self.old) item.now adrift.now
            (adrift_at self.old b c)
            (Some settling.now.receive) (Some settling.now.last))) }
        ensures unchanged { IsGapUnchanged result self.old self.new events.old.items events.new.items }
        ensures memory { IsMemory result }
    {
        let interface = self.channel.interface();
        let hidden = adrift.is_hidden();
        let settled = SettledNumbers::boxed(events.allocator(), &interface, hidden, settling)?;
        self.channel.carry_on(row.origin, item, events)?;
        self.certainty = Certainty::Settled(settled);
        Ok(())
    }

    /// Steps by a packet that does not settle the channel.
    fn stay_adrift(
        &mut self,
        row: &GapRow,
        adrift: WhileAdrift,
        item: &ItemRef<'_>,
        events: &mut Vec<Event, A>,
    ) -> Result<(), Fault>
        requires side { row.now.side ≡ item.now.side }
        requires short { packet_class item.now.packet ≡ Class.Data
            → item.now.length ≤ largest_length }
        ensures does { (b : Drifting) (o : Option ℕ) (l : Option LastData)
            → settling_by row.now.side (header_in item.now.packet) o l ≡ None
            → (c : Channel) → StatusRepresents self.old.channel c
            → IsBare (brought_up (interface_of self.old) c).after
            → IfOk result (λ _. GapDoes row.now.origin self.old self.new
            events.old.items events.new.items
            (received_after (interface_of self.old) item.now adrift
            (adrift_at self.old b c) o l)) }
        ensures unchanged { IsGapUnchanged result self.old self.new events.old.items events.new.items }
        ensures memory { IsMemory result }
    {
        let modulus = self.channel.interface().modulus;
        self.channel.carry_on(row.origin, item, events)?;
        let mut adrift = adrift;
        let header = item.packet.data_header();
        adrift.receive(modulus, row.side, header, received(&item.packet));
        self.certainty = Certainty::Adrift(adrift);
        Ok(())
    }
}
