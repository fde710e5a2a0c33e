//! What gaps and packets of call set-up, clearing and resets do to a channel adrift.

ghost use Rattle.std.specs.Prelude.{ℕ, ◌≡◌, ◌+◌, ◌-◌, ◌<◌, ◌≤◌, ◌||◌, ◌&&◌, not, List, None, IfNone, IfOk, option_map, false, vec_len, vec_capacity};
ghost use Rattle.line_model.specs.channels.Channels.{Channel, is_in_transfer, is_open, is_permanent, other};
ghost use Rattle.channel_machine.specs.TermsRepresent.{opened_of};
ghost use Rattle.line_model.specs.channels.ChannelStep.{and_then};
ghost use Rattle.line_model.specs.channels.FlowControl.{is_side};
ghost use Rattle.line_model.specs.declared.state.Side.TheVariants.{T};
ghost use Rattle.line_model.specs.packets.Facilities.{fields_of};
ghost use Rattle.packet_decode.specs.Shown.{shown, IsUsable};
ghost use Rattle.line_model.specs.channels.Gaps.{idle_name, is_hidden_by_gap, largest_terms, left_by_gap, owed_by, waiting_name};
ghost use Rattle.line_model.specs.channels.GapStep.{adrift_call, brought_up, coming_up, hidden_when_up, in_state, is_in_use, is_own_acceptance, is_resetting, terms_of_acceptance, calling_state, cleared_by, resetting_state};
ghost use Rattle.line_model.specs.packets.Classes.{header_length, packet_class};
ghost use Rattle.channel_machine.specs.Sizes.{largest_length};
ghost use Rattle.channel_machine.specs.GapSteps.{carried_on};
ghost use Rattle.channel_machine.specs.Reached.{IsUnanswered};
ghost use Rattle.channel_machine.specs.Channels.{StatusRepresents, Does, Comes, IsUnchanged, IsMemory};

use crate::channel::StatusChannel;
use crate::events::EventOrigin;
use crate::gaps::carried::WhileAdrift;
use crate::gaps::kinds::indication_of;
use crate::messages::data_packet;
use crate::status::StatusStore;
use crate::terms::{Opened, Terms};
use line_model::event::{Event, How, What};
use line_model::fault::Fault;
use line_model::gap::Owed;
use line_model::interface::Interface;
use line_model::items::ItemRef;
use line_model::packet::Class;
use line_model::state::{ChannelState, DState, Side, StateName};
use packet_decode::decode::header_length;
use packet_decode::fields::CallFields;
use std::alloc::Allocator;

/// The state of a channel with a call that is not up.
fn waiting_name(call: Option<Opened>) -> StateName
    ensures { (c : Channel) → call ≡ option_map opened_of c.opening
        → result ≡ waiting_name c.opening }
{
    match call {
        None => StateName::P1,
        Some(opened) => {
            if opened.out {
                StateName::P2
            } else {
                StateName::P3
            }
        }
    }
}

/// Returns the state in which the calling side waits.
pub(crate) fn calling_state(side: Side) -> StateName
    ensures { result ≡ calling_state side }
{
    match side {
        Side::T => StateName::P2,
        Side::N => StateName::P3,
    }
}

/// Whether a call of a side is outgoing.
fn is_outgoing(side: Side) -> bool
    ensures { result ≡ is_side T side }
{
    matches!(side, Side::T)
}

/// Returns the end of a call by the side that clears it.
pub(crate) fn cleared_by(side: Side) -> How
    ensures { result ≡ cleared_by side }
{
    match side {
        Side::T => How::T,
        Side::N => How::N,
    }
}

/// Returns the state in which a side resets.
pub(crate) fn resetting_state(side: Side) -> StateName
    ensures { result ≡ resetting_state side }
{
    match side {
        Side::T => StateName::D2,
        Side::N => StateName::D3,
    }
}

impl<A: Allocator + Clone, S: StatusStore> StatusChannel<A, S> {
    /// Returns the interface of the channel.
    pub(crate) fn interface(&self) -> Interface
        ensures { result ≡ self.now.terms.interface }
    {
        self.status.interface()
    }

    /// Returns the indication that the channel owes.
    pub(crate) fn owed(&self) -> Owed
        ensures { (c : Channel) → StatusRepresents self.now c → result ≡ owed_by c }
    {
        if self.status.is_owed() {
            indication_of(self.status.state())
        } else {
            Owed::NoIndication
        }
    }

    /// Returns whether the channel is in a state of data transfer.
    pub(crate) fn is_in_transfer(&self) -> bool
        ensures { (c : Channel) → StatusRepresents self.now c
            → result ≡ is_in_transfer c }
    {
        matches!(self.status.state(), ChannelState::Transfer(_))
    }

    /// Returns whether the channel is a permanent circuit.
    pub(crate) fn is_permanent(&self) -> bool
        ensures { result ≡ is_permanent self.now.terms.interface self.now.channel }
    {
        self.status.interface().is_permanent(self.channel)
    }

    /// Returns whether the channel has a call, or needs none.
    pub(crate) fn is_in_use(&self) -> bool
        ensures { (c : Channel) → StatusRepresents self.now c
            → result ≡ is_in_use self.now.terms.interface self.now.channel c }
    {
        self.is_permanent() || self.status.call().is_some()
    }

    /// Returns whether a call is open that is not up.
    pub(crate) fn is_calling(&self) -> bool
        ensures { (c : Channel) → StatusRepresents self.now c
            → result ≡ (is_open c && not (is_in_transfer c)) }
    {
        self.status.call().is_some() && !self.is_in_transfer()
    }

    /// Returns whether the side that called accepts: then another call may be hidden.
    pub(crate) fn is_own_acceptance(&self, side: Side) -> bool
        ensures { (c : Channel) → StatusRepresents self.now c
            → result ≡ is_own_acceptance side c.opening }
    {
        match self.status.call() {
            Some(opened) => is_outgoing(side) == opened.out,
            None => false,
        }
    }

    /// Returns whether another call may be hidden after a packet that brings the call up, if it is not.
    pub(crate) fn is_hidden_when_up(&self, adrift: &WhileAdrift) -> bool
        ensures { (c : Channel) → StatusRepresents self.now c → result ≡ hidden_when_up adrift.now c }
    {
        adrift.is_hidden() || !self.is_in_transfer()
    }

    /// Returns whether another call may be hidden after an acceptance of a side.
    pub(crate) fn is_hidden_when_accepted(&self, adrift: &WhileAdrift, side: Side) -> bool
        ensures { (c : Channel) → StatusRepresents self.now c
            → result ≡ (adrift.now.hidden || is_own_acceptance side c.opening) }
    {
        adrift.is_hidden() || self.is_own_acceptance(side)
    }

    /// Returns whether a side resets.
    pub(crate) fn is_resetting(&self, side: Side) -> bool
        ensures { (c : Channel) → StatusRepresents self.now c → result ≡ is_resetting side c.state }
    {
        match side {
            Side::T => self.status.state() == ChannelState::Transfer(DState::D2),
            Side::N => self.status.state() == ChannelState::Transfer(DState::D3),
        }
    }

    /// Returns whether a packet of data transfer of a side does nothing: there is no call, or the other side resets.
    pub(crate) fn ignores_transfer(&self, side: Side) -> bool
        ensures { (c : Channel) → StatusRepresents self.now c
            → result ≡ (not (is_in_use self.now.terms.interface self.now.channel c)
            || is_resetting (other side) c.state) }
    {
        if self.is_in_use() {
            self.is_resetting(side.other())
        } else {
            true
        }
    }

    /// Returns whether another call may be hidden after the open one, where a gap comes.
    pub(crate) fn is_hidden_by_gap(&self) -> bool
        ensures { (c : Channel) → StatusRepresents self.now c
            → result ≡ is_hidden_by_gap self.now.terms.interface self.now.channel c }
    {
        !self.is_permanent() && self.status.call().is_some()
    }

    /// Forgets all of the channel except its call, and whether that came up, as a gap does.
    pub(crate) fn drift(&mut self)
        ensures interface { self.new.terms.interface ≡ self.old.terms.interface }
        ensures channel { self.new.channel ≡ self.old.channel }
        ensures represented { (c : Channel) → StatusRepresents self.old c
            → StatusRepresents self.new (left_by_gap self.old.terms.interface self.old.channel c) }
    {
        let state = self.idle_name();
        let terms = self.status.terms();
        if self.is_hidden_by_gap() {
            self.enter(state, false, &terms.largest());
        } else {
            self.enter(state, false, &terms);
        }
    }

    /// Returns the state that says only whether a call is open and whether it came up.
    fn idle_name(&self) -> StateName
        ensures { (c : Channel) → StatusRepresents self.now c → result ≡ idle_name
            (is_permanent self.now.terms.interface self.now.channel || is_in_transfer c) c.opening }
    {
        if self.is_permanent() || self.is_in_transfer() {
            StateName::P4
        } else {
            waiting_name(self.status.call())
        }
    }

    /// Brings up a call that was not up, by a packet other than an acceptance.
    pub(crate) fn bring_up(&mut self, origin: EventOrigin, events: &mut Vec<Event, A>)
        requires room { vec_len events.old < vec_capacity events.old }
        ensures does { (c : Channel) → StatusRepresents self.old c
            → Does origin self.old self.new events.old.items events.new.items
            (brought_up self.old.terms.interface c) }
        ensures capacity { vec_capacity events.new ≡ vec_capacity events.old }
        ensures len { vec_len events.new ≤ vec_len events.old + 1 }
    {
        if !self.is_in_transfer() {
            self.come_up(origin, events);
        }
    }

    /// Brings a call up under the largest terms.
    pub(crate) fn come_up(&mut self, origin: EventOrigin, events: &mut Vec<Event, A>)
        requires room { vec_len events.old < vec_capacity events.old }
        ensures does { (c : Channel) → StatusRepresents self.old c
            → Does origin self.old self.new events.old.items events.new.items
            (coming_up (largest_terms self.old.terms.interface) c) }
        ensures capacity { vec_capacity events.new ≡ vec_capacity events.old }
        ensures len { vec_len events.new ≤ vec_len events.old + 1 }
    {
        events.push_reserved(origin.event(What::Up));
        let terms = self.status.terms().largest();
        self.enter(StateName::P4, false, &terms);
    }

    /// Steps by an acceptance of a call that is not up: under its terms, or under the largest where another call may be
    /// hidden.
    pub(crate) fn accept_adrift(
        &mut self,
        origin: EventOrigin,
        hidden: bool,
        fields: &CallFields<'_>,
        events: &mut Vec<Event, A>,
    ) -> Result<(), Fault>
        requires usable { IsUsable self.old.terms.interface fields.now }
        ensures does { (c : Channel) (xs : List ℕ) → shown fields.now ≡ fields_of xs
            → (hidden ≡ false → IsUnanswered c) → StatusRepresents self.old c
            → IfOk result (λ _. Does origin self.old self.new events.old.items events.new.items
            (coming_up (terms_of_acceptance hidden self.old.terms.interface xs) c)) }
        ensures unchanged { IsUnchanged result self.old self.new events.old.items events.new.items }
        ensures memory { IsMemory result }
    {
        if hidden {
            events.reserve(1)?;
            self.come_up(origin, events);
            Ok(())
        } else {
            self.go_up(origin, fields, StateName::P4, events)
        }
    }

    /// Steps by a reset or its confirmation on a channel with a call, which it brings up.
    pub(crate) fn reset_adrift(
        &mut self,
        origin: EventOrigin,
        to: StateName,
        events: &mut Vec<Event, A>,
    ) -> Result<(), Fault>
        ensures does { Comes result origin self.old self.new events.old.items events.new.items
            (λ c. and_then (brought_up self.old.terms.interface c) (in_state to)) }
        ensures unchanged { IsUnchanged result self.old self.new events.old.items events.new.items }
        ensures memory { IsMemory result }
    {
        events.reserve(1)?;
        self.bring_up(origin, events);
        let terms = self.status.terms();
        self.enter(to, false, &terms);
        Ok(())
    }

    /// Opens a call on a channel adrift; a gap ends the one before.
    pub(crate) fn call_adrift(
        &mut self,
        origin: EventOrigin,
        side: Side,
        fields: &CallFields<'_>,
        events: &mut Vec<Event, A>,
    ) -> Result<(), Fault>
        requires usable { IsUsable self.old.terms.interface fields.now }
        ensures does { (c : Channel) (xs : List ℕ) → shown fields.now ≡ fields_of xs
            → IfNone c.opening (c.accepting ≡ None) → StatusRepresents self.old c
            → IfOk result (λ _. Does origin self.old self.new events.old.items events.new.items
            (adrift_call side xs c)) }
        ensures unchanged { IsUnchanged result self.old self.new events.old.items events.new.items }
        ensures memory { IsMemory result }
    {
        let to = calling_state(side);
        let out = is_outgoing(side);
        events.reserve(2)?;
        self.end(origin, How::Gap, to, false, events);
        events.push_reserved(origin.event(What::Open {
            out,
            called: fields.called.copied(),
            calling: fields.calling.copied(),
            reverse: fields.reverse,
        }));
        let terms = Terms::opened(self.status.interface(), out, fields);
        self.enter(to, false, &terms);
        Ok(())
    }

    /// Steps by a packet of data transfer while the other side does not reset: it brings the call up, nothing is
    /// outstanding then, and data counts.
    pub(crate) fn carry_on(
        &mut self,
        origin: EventOrigin,
        item: &ItemRef<'_>,
        events: &mut Vec<Event, A>,
    ) -> Result<(), Fault>
        requires short { packet_class item.now.packet ≡ Class.Data
            → item.now.length ≤ largest_length }
        ensures does { Comes result origin self.old self.new events.old.items events.new.items
            (carried_on self.old.terms.interface item.now) }
        ensures unchanged { IsUnchanged result self.old self.new events.old.items events.new.items }
        ensures memory { IsMemory result }
    {
        events.reserve(2)?;
        self.bring_up(origin, events);
        let terms = self.status.terms();
        self.enter(StateName::D1, false, &terms);
        if item.packet.data_header().is_some() {
            let octets = self.data_length(item);
            events.push_reserved(origin.event(data_packet(item.side, octets)));
        }
        Ok(())
    }

    /// How many octets of user data a data packet has.
    fn data_length(&self, item: &ItemRef<'_>) -> u32
        requires short { item.now.length ≤ largest_length }
        ensures { result ≡ item.now.length - header_length self.now.terms.interface }
    {
        item.length
            .saturating_sub(header_length(&self.status.interface())) as u32
    }
}
