//! What packets do to a settled channel, by the state tables.

ghost use Rattle.std.specs.Prelude.{◌≡◌, ◌<◌, ◌||◌, true, IfOk, OnSome};
ghost use Rattle.line_model.specs.basics.Bounds.{IsSaid};
ghost use Rattle.line_model.specs.channels.Channels.{Channel, is_open};
ghost use Rattle.line_model.specs.channels.GapStep.{is_in_d1, transferring_in_doubt};
ghost use Rattle.line_model.specs.declared.table.Action.TheVariants.{Normal};
ghost use Rattle.line_model.specs.packets.Classes.{packet_class};
ghost use Rattle.channel_machine.specs.Channels.{IsMemory, StatusRepresents};
ghost use Rattle.channel_machine.specs.Entries.{comes_from, is_entry, is_transfer};
ghost use Rattle.channel_machine.specs.GapChannels.{at_rest};
ghost use Rattle.line_model.specs.packets.Formats.{window_in_force};
ghost use Rattle.channel_machine.specs.SettledSteps.{ComesSettled, ComesSettledApart, IsSettledUnchanged, settled_entry, settled_row};

use crate::channel::StatusChannel;
use crate::events::Judgement;
use crate::gaps::rows::GapRow;
use crate::gaps::settled::{SettledNumbers, received};
use crate::status::StatusStore;
use crate::step::listed;
use line_model::event::Event;
use line_model::fault::Fault;
use line_model::items::ItemRef;
use line_model::packet::Class;
use line_model::state::{ChannelState, DState, Side};
use line_model::table::Action;
use std::alloc::Allocator;

impl<A: Allocator + Clone, S: StatusStore> StatusChannel<A, S> {
    /// Steps a settled channel by what a row says. Of an accepted data packet with Q 0 it lists no event, and returns the
    /// octets of user data instead.
    pub(crate) fn step_settled(
        &mut self,
        settled: &mut SettledNumbers<A>,
        row: &GapRow,
        item: &ItemRef<'_>,
        events: &mut Vec<Event, A>,
    ) -> Result<Option<u32>, Fault>
        requires side { row.now.side ≡ item.now.side }
        requires said { IsSaid self.old.terms.interface item.now }
        ensures does { ComesSettledApart result row.now.origin item.now.side self.old self.new
            settled.old settled.new events.old.items events.new.items
            (settled_row self.old.terms.interface self.old.channel item.now settled.old.doubts) }
        ensures apart { IfOk result (λ accepted. OnSome accepted (events.new ≡ events.old)) }
        ensures unchanged { IsSettledUnchanged result self.old self.new settled.old settled.new
            events.old.items events.new.items }
        ensures memory { IsMemory result }
    {
        let (state, entry) = self.judge(item.side, item.packet.class());
        let judgement = Judgement {
            origin: row.origin,
            side: item.side,
            state,
        };
        match entry {
            Action::Normal => self.transfer_settled(settled, &judgement, item, events),
            _ => listed(self.act_settled(settled, &judgement, entry, item, events)),
        }
    }

    /// Handles a packet of data transfer.
    fn transfer_settled(
        &mut self,
        settled: &mut SettledNumbers<A>,
        judgement: &Judgement,
        item: &ItemRef<'_>,
        events: &mut Vec<Event, A>,
    ) -> Result<Option<u32>, Fault>
        requires side { judgement.now.side ≡ item.now.side }
        requires said { IsSaid self.old.terms.interface item.now }
        requires transfer { is_transfer (packet_class item.now.packet) ≡ true }
        requires in_d1 { is_in_d1 self.old.state ≡ true }
        ensures does { ComesSettledApart result judgement.now.origin item.now.side self.old self.new
            settled.old settled.new events.old.items events.new.items
            (settled_entry self.old.terms.interface self.old.channel
            (record { state = judgement.now.state; entry = Normal }) item.now settled.old.doubts) }
        ensures apart { IfOk result (λ accepted. OnSome accepted (events.new ≡ events.old)) }
        ensures unchanged { IsSettledUnchanged result self.old self.new settled.old settled.new
            events.old.items events.new.items }
        ensures memory { IsMemory result }
    {
        let class = item.packet.class();
        match self.length_fault(judgement.side, class, item.length) {
            Some(code) => {
                let error = Action::Error(code);
                listed(self.act_settled(settled, judgement, error, item, events))
            }
            None => match class {
                Class::Data => self.data_settled(settled, judgement, item, events),
                _ => listed(self.control_settled(settled, judgement, item, events)),
            },
        }
    }

    /// Handles an interrupt, an interrupt confirmation, RR or RNR without fault of format.
    fn control_settled(
        &mut self,
        settled: &mut SettledNumbers<A>,
        judgement: &Judgement,
        item: &ItemRef<'_>,
        events: &mut Vec<Event, A>,
    ) -> Result<(), Fault>
        requires side { judgement.now.side ≡ item.now.side }
        requires said { IsSaid self.old.terms.interface item.now }
        requires no_data { packet_class item.now.packet ≡ Class.Data → ⊥ }
        requires in_d1 { is_in_d1 self.old.state ≡ true }
        ensures does { ComesSettled result judgement.now.origin self.old self.new settled.old settled.new
            events.old.items events.new.items
            (transferring_in_doubt self.old.terms.interface judgement.now.state
            (packet_class item.now.packet) item.now settled.old.doubts) }
        ensures unchanged { IsSettledUnchanged result self.old self.new settled.old settled.new
            events.old.items events.new.items }
        ensures memory { IsMemory result }
    {
        let class = item.packet.class();
        match settled.control(class, judgement.side, received(&item.packet)) {
            Ok(()) => Ok(()),
            Err(code) => self.act_settled(settled, judgement, Action::Error(code), item, events),
        }
    }

    /// Does what an entry says that is not `Normal`. Outside d1 nothing is outstanding or begun, and only whether another
    /// call may be hidden stays in doubt.
    pub(crate) fn act_settled(
        &mut self,
        settled: &mut SettledNumbers<A>,
        judgement: &Judgement,
        entry: Action,
        item: &ItemRef<'_>,
        events: &mut Vec<Event, A>,
    ) -> Result<(), Fault>
        requires side { judgement.now.side ≡ item.now.side }
        requires said { IsSaid self.old.terms.interface item.now }
        requires fits { is_entry entry judgement.now.side (packet_class item.now.packet)
            self.old.state ≡ true }
        requires comes { comes_from entry self.old.state ≡ true }
        requires other { entry ≡ Normal → ⊥ }
        ensures does { ComesSettled result judgement.now.origin self.old self.new settled.old settled.new
            events.old.items events.new.items
            (settled_entry self.old.terms.interface self.old.channel
            (record { state = judgement.now.state; entry = entry }) item.now settled.old.doubts) }
        ensures unchanged { IsSettledUnchanged result self.old self.new settled.old settled.new
            events.old.items events.new.items }
        ensures memory { IsMemory result }
    {
        self.act(judgement, entry, item, events)?;
        if !self.is_in_d1() {
            settled.restart();
        }
        Ok(())
    }

    /// Returns whether the channel is in d1.
    #[inline(always)]
    pub(crate) fn is_in_d1(&self) -> bool
        ensures { result ≡ is_in_d1 self.now.state }
    {
        matches!(self.status.state(), ChannelState::Transfer(DState::D1))
    }

    /// Returns whether a channel that was settled still is: its call is open, or it is in d1.
    pub(crate) fn is_settled(&self) -> bool
        ensures { (c : Channel) → StatusRepresents self.now (at_rest c)
            → result ≡ (is_open c || is_in_d1 c.state) }
    {
        self.status.call().is_some() || self.is_in_d1()
    }

    /// Returns the window in force for data from a side.
    pub(crate) fn window(&self, side: Side) -> u8
        ensures window { (c : Channel) → StatusRepresents self.now (at_rest c)
            → result ≡ window_in_force self.now.terms.interface c side }
        ensures below { result < self.now.terms.interface.modulus }
    {
        let values = self.status.terms().values;
        match side {
            Side::T => values.window_t,
            Side::N => values.window_n,
        }
    }
}
