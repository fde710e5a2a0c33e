//! What a row does to its channel by the state tables.

ghost use Rattle.std.specs.Prelude.{◌≡◌, ◌≤◌, true, false, IfOk, OnSome};
ghost use Rattle.line_model.specs.basics.Bounds.{IsSaid};
ghost use Rattle.line_model.specs.basics.Records.{Item};
ghost use Rattle.line_model.specs.channels.Channels.{Channel, is_permanent};
ghost use Rattle.line_model.specs.channels.GapStep.{is_in_d1};
ghost use Rattle.line_model.specs.packets.Classes.{packet_class};
ghost use Rattle.line_model.specs.packets.Says.{header_in};
ghost use Rattle.line_model.specs.channels.ChannelStep.{call_change, channel_step, data_step, judged, moving, transferring};
ghost use Rattle.line_model.specs.declared.table.Action.TheVariants.{Move, Normal};
ghost use Rattle.channel_machine.specs.Channels.{StatusRepresents, Does, DoesApart, Comes, IsUnchanged, IsMemory, listed};
ghost use Rattle.channel_machine.specs.Events.{origin_at};
ghost use Rattle.channel_machine.specs.Contents.{AreOf, AreUsable};
ghost use Rattle.channel_machine.specs.Reached.{IsReached, is_from};
ghost use Rattle.channel_machine.specs.Entries.{comes_from, entry_step, is_entry, is_transfer, is_unqualified};
ghost use Rattle.channel_machine.specs.Sizes.{largest_length};

use crate::channel::StatusChannel;
use crate::events::Judgement;
use crate::format::Contents;
use crate::judging::{is_transfer, judged};
use crate::moves::{Change, change_of};
use crate::status::StatusStore;
use line_model::event::Event;
use line_model::fault::Fault;
use line_model::items::ItemRef;
use line_model::packet::Class;
use line_model::state::{Side, StateName};
use line_model::table::Action;
use std::alloc::Allocator;

impl<A: Allocator + Clone, S: StatusStore> StatusChannel<A, S> {
    /// Accepts or refuses a data packet with Q 1 without fault of format.
    fn handle_data(
        &mut self,
        judgement: &Judgement,
        item: &ItemRef<'_>,
        events: &mut Vec<Event, A>,
    ) -> Result<(), Fault>
        requires side { judgement.now.side ≡ item.now.side }
        requires said { IsSaid self.old.terms.interface item.now }
        requires class { packet_class item.now.packet ≡ Class.Data }
        requires short { item.now.length ≤ largest_length }
        requires qualified { is_unqualified (header_in item.now.packet) ≡ false }
        ensures does { Comes result judgement.now.origin self.old self.new
            events.old.items events.new.items
            (data_step self.old.terms.interface judgement.now.state item.now
            (header_in item.now.packet)) }
        ensures unchanged { IsUnchanged result self.old self.new events.old.items events.new.items }
        ensures memory { IsMemory result }
    {
        let Some(header) = item.packet.data_header() else {
            return Ok(());
        };
        let user_data = self.user_data(&header, item);
        match self.accept_data(judgement.origin, judgement.side, &header, user_data, events)? {
            Some(code) => self.fail(judgement, code, events),
            None => Ok(()),
        }
    }

    /// Moves to a state.
    #[inline(always)]
    pub(crate) fn go(
        &mut self,
        judgement: &Judgement,
        to: StateName,
        contents: &Contents<'_>,
        events: &mut Vec<Event, A>,
    ) -> Result<(), Fault>
        requires usable { AreUsable contents.now self.old.terms.interface }
        ensures does { (c : Channel) (r : Item) → AreOf contents.now r → IsReached c
            → is_from (call_change judgement.now.side (packet_class r.packet) to) to
            c.state ≡ true → StatusRepresents self.old c → IfOk result (λ _.
            Does judgement.now.origin self.old self.new events.old.items events.new.items
            (moving judgement.now.side (packet_class r.packet) r.octets to c)) }
        ensures unchanged { IsUnchanged result self.old self.new events.old.items events.new.items }
        ensures memory { IsMemory result }
    {
        let origin = judgement.origin;
        match change_of(judgement.side, contents, to) {
            Change::Opens(out, fields) => self.open(origin, out, fields, to, events),
            Change::GoesUp(fields) => self.go_up(origin, fields, to, events),
            Change::Ends(how) => {
                events.reserve(1)?;
                self.end(origin, how, to, false, events);
                Ok(())
            }
            Change::Keeps => {
                let terms = self.status.terms();
                self.enter(to, false, &terms);
                Ok(())
            }
        }
    }

    /// Handles a packet whose entry is a move.
    fn handle_move(
        &mut self,
        judgement: &Judgement,
        to: StateName,
        item: &ItemRef<'_>,
        events: &mut Vec<Event, A>,
    ) -> Result<(), Fault>
        requires side { judgement.now.side ≡ item.now.side }
        requires said { IsSaid self.old.terms.interface item.now }
        ensures does { (c : Channel) → IsReached c
            → is_from (call_change judgement.now.side (packet_class item.now.packet) to)
            to c.state ≡ true → StatusRepresents self.old c → IfOk result (λ _.
            Does judgement.now.origin self.old self.new events.old.items events.new.items
            (entry_step self.old.terms.interface self.old.channel
            (record { state = judgement.now.state; entry = Move to }) item.now c)) }
        ensures unchanged { IsUnchanged result self.old self.new events.old.items events.new.items }
        ensures memory { IsMemory result }
    {
        match self.read(item) {
            Ok(contents) => self.go(judgement, to, &contents, events),
            Err(code) => self.fail(judgement, code, events),
        }
    }

    /// Handles a packet of data transfer without fault of format, by its class.
    fn carry(
        &mut self,
        judgement: &Judgement,
        class: Class,
        item: &ItemRef<'_>,
        events: &mut Vec<Event, A>,
    ) -> Result<(), Fault>
        requires side { judgement.now.side ≡ item.now.side }
        requires said { IsSaid self.old.terms.interface item.now }
        requires class { class ≡ packet_class item.now.packet }
        requires short { class ≡ Class.Data → item.now.length ≤ largest_length }
        requires qualified { is_unqualified (header_in item.now.packet) ≡ false }
        ensures does { Comes result judgement.now.origin self.old self.new
            events.old.items events.new.items
            (transferring self.old.terms.interface judgement.now.state class item.now) }
        ensures unchanged { IsUnchanged result self.old self.new events.old.items events.new.items }
        ensures memory { IsMemory result }
    {
        match class {
            Class::Data => self.handle_data(judgement, item, events),
            _ => match self.accept_control(class, item) {
                Ok(()) => Ok(()),
                Err(code) => self.fail(judgement, code, events),
            },
        }
    }

    /// Handles a packet of data transfer.
    fn handle_transfer(
        &mut self,
        judgement: &Judgement,
        item: &ItemRef<'_>,
        events: &mut Vec<Event, A>,
    ) -> Result<(), Fault>
        requires side { judgement.now.side ≡ item.now.side }
        requires said { IsSaid self.old.terms.interface item.now }
        requires transfer { is_transfer (packet_class item.now.packet) ≡ true }
        requires qualified { is_unqualified (header_in item.now.packet) ≡ false }
        ensures does { Comes result judgement.now.origin self.old self.new
            events.old.items events.new.items
            (entry_step self.old.terms.interface self.old.channel
            (record { state = judgement.now.state; entry = Normal }) item.now) }
        ensures unchanged { IsUnchanged result self.old self.new events.old.items events.new.items }
        ensures memory { IsMemory result }
    {
        let class = item.packet.class();
        match self.length_fault(judgement.side, class, item.length) {
            Some(code) => self.fail(judgement, code, events),
            None => self.carry(judgement, class, item, events),
        }
    }

    /// Returns the state in whose column a packet is judged, and the entry there. In d1 every packet of data
    /// transfer is normal.
    #[inline(always)]
    pub(crate) fn judge(&self, side: Side, class: Class) -> (StateName, Action)
        ensures judged { (c : Channel) → StatusRepresents self.now c
            → record { state = result.0; entry = result.1 }
            ≡ judged (is_permanent self.now.terms.interface self.now.channel) side
            c.state c.owed class }
        ensures fits { is_entry result.1 side class self.now.state ≡ true }
        ensures comes { comes_from result.1 self.now.state ≡ true }
    {
        if is_transfer(class) && self.is_in_d1() {
            return (StateName::D1, Action::Normal);
        }
        judged(
            self.status.interface().is_permanent(self.channel),
            side,
            self.status.state(),
            self.status.is_owed(),
            class,
        )
    }

    /// Does what the entry of a packet says.
    pub(crate) fn act(
        &mut self,
        judgement: &Judgement,
        entry: Action,
        item: &ItemRef<'_>,
        events: &mut Vec<Event, A>,
    ) -> Result<(), Fault>
        requires side { judgement.now.side ≡ item.now.side }
        requires said { IsSaid self.old.terms.interface item.now }
        requires fits { is_entry entry judgement.now.side (packet_class item.now.packet)
            self.old.state ≡ true }
        requires qualified { entry ≡ Normal → is_unqualified (header_in item.now.packet) ≡ false }
        ensures does { (c : Channel) → IsReached c → StatusRepresents self.old c → IfOk result (λ _.
            Does judgement.now.origin self.old self.new events.old.items events.new.items
            (entry_step self.old.terms.interface self.old.channel
            (record { state = judgement.now.state; entry = entry }) item.now c)) }
        ensures unchanged { IsUnchanged result self.old self.new events.old.items events.new.items }
        ensures memory { IsMemory result }
    {
        match entry {
            Action::Move(to) => self.handle_move(judgement, to, item, events),
            Action::Normal => self.handle_transfer(judgement, item, events),
            Action::Error(code) => self.fail(judgement, code, events),
            Action::Ends => {
                self.status.settle();
                Ok(())
            }
            _ => Ok(()),
        }
    }

    /// Steps the channel by what a row says in an epoch, by the state tables, and appends the events of the row.
    /// In d1 it is no data packet with Q 0.
    #[inline(never)]
    pub(crate) fn handle_by_table(
        &mut self,
        epoch: u32,
        item: &ItemRef<'_>,
        events: &mut Vec<Event, A>,
    ) -> Result<Option<u32>, Fault>
        requires said { IsSaid self.old.terms.interface item.now }
        requires qualified { is_in_d1 self.old.state ≡ true
            → is_unqualified (header_in item.now.packet) ≡ false }
        ensures does { (c : Channel) → IsReached c → StatusRepresents self.old c
            → IfOk result (λ accepted. DoesApart (origin_at epoch self.old.channel item.now)
            item.now.side self.old self.new events.old.items events.new.items accepted
            (channel_step self.old.terms.interface self.old.channel c item.now)) }
        ensures apart { IfOk result (λ accepted. OnSome accepted (events.new ≡ events.old)) }
        ensures unchanged { IsUnchanged result self.old self.new events.old.items events.new.items }
        ensures memory { IsMemory result }
    {
        let (state, entry) = self.judge(item.side, item.packet.class());
        let judgement = Judgement {
            origin: self.origin(epoch, item),
            side: item.side,
            state,
        };
        listed(self.act(&judgement, entry, item, events))
    }
}

/// Returns the result of a step whose events are all listed.
pub(crate) fn listed(done: Result<(), Fault>) -> Result<Option<u32>, Fault>
    ensures { result ≡ listed done }
{
    match done {
        Ok(()) => Ok(None),
        Err(fault) => Err(fault),
    }
}
