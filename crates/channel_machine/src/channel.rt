//! One channel of an interface, and what every change of its state does.

ghost use Rattle.std.specs.Prelude.{◌≡◌, ◌+◌, ◌<◌, ◌≤◌, vec_len, vec_capacity};
ghost use Rattle.line_model.specs.channels.Channels.{Channel, channel_in};
ghost use Rattle.line_model.specs.channels.ChannelStep.{entering, ending, failing, after_error};
ghost use Rattle.channel_machine.specs.Messages.{SettingsRepresent};
ghost use Rattle.channel_machine.specs.Agreed.{agreed_of};
ghost use Rattle.channel_machine.specs.TermsRepresent.{TermsRepresent};
ghost use Rattle.channel_machine.specs.Channels.{StatusRepresents, Does, Comes, IsUnchanged, IsMemory};
ghost use Rattle.channel_machine.specs.Events.{origin_at};

use crate::events::{EventOrigin, Judgement};
use crate::gaps::channel::GapChannel;
use crate::messages::BothSettings;
use crate::packed::PackedStatus;
use crate::plain::PlainStatus;
use crate::status::StatusStore;
use crate::terms::{Terms, Values};
use data_transfer::assembler::Assembler;
use line_model::event::{Event, How, What};
use line_model::fault::Fault;
use line_model::finding::Code;
use line_model::interface::Interface;
use line_model::items::ItemRef;
use line_model::state::{ChannelState, Side, StateName};
use std::alloc::{Allocator, Global};
use std::marker::Model;

/// A channel of which all is certain: its status, kept by an `S`, the sequences begun, and the settings of both PADs.
#[derive(Drop)]
pub struct StatusChannel<A: Allocator, S: StatusStore> {
    pub(crate) channel: u16,
    pub(crate) status: S,
    pub(crate) assembler: Assembler<A>,
    pub(crate) settings: BothSettings,
}

/// The channel that keeps each part of its status in a field.
pub type PlainChannel<A = Global> = GapChannel<A, PlainStatus>;

/// The channel that keeps its status in one word.
pub type PackedChannel<A = Global> = GapChannel<A, PackedStatus>;

impl<A: Allocator, S: StatusStore> Model for StatusChannel<A, S> {
    ghost use Rattle.channel_machine.specs.Channels.{Known, known};

    ghost Value = { Known };

    ghost view = { λ m. known m.channel (S.status m.status) m.assembler m.settings };
}

impl<A: Allocator + Clone, S: StatusStore> StatusChannel<A, S> {
    /// Returns a channel without a call in a state in which nothing was seen. Allocates nothing.
    pub(crate) fn in_state(
        alloc: A,
        interface: &Interface,
        channel: u16,
        state: ChannelState,
    ) -> Self
        ensures interface { result.terms.interface ≡ interface.now }
        ensures channel { result.channel ≡ channel }
        ensures represented { StatusRepresents result (channel_in state) }
    {
        let terms = Terms::new(*interface);
        StatusChannel {
            channel,
            status: S::entered(channel, state, false, &terms),
            assembler: Assembler::new(alloc, interface.size, interface.size),
            settings: BothSettings::new(),
        }
    }

    /// Enters a state under some terms.
    pub(crate) fn enter(&mut self, to: StateName, owed: bool, terms: &Terms)
        ensures interface { self.new.terms.interface ≡ terms.now.interface }
        ensures channel { self.new.channel ≡ self.old.channel }
        ensures represented { (c : Channel) → TermsRepresent (agreed_of terms.now) c
            → SettingsRepresent self.old.transfer.settings c.pad_messages
            → StatusRepresents self.new (entering to owed c) }
    {
        let Values { size_t, size_n, .. } = terms.values;
        self.assembler.renew(size_t, size_n);
        self.status = S::entered(self.channel, to.entered(), owed, terms);
    }

    /// Returns the origin of the events of a row in an epoch.
    pub(crate) fn origin(&self, epoch: u32, item: &ItemRef<'_>) -> EventOrigin
        ensures { result ≡ origin_at epoch self.now.channel item.now }
    {
        EventOrigin {
            epoch,
            channel: self.channel,
            packet: item.number,
        }
    }

    /// Enters a state, and ends the call.
    pub(crate) fn end(
        &mut self,
        origin: EventOrigin,
        how: How,
        to: StateName,
        owed: bool,
        events: &mut Vec<Event, A>,
    )
        requires room { vec_len events.old < vec_capacity events.old }
        ensures interface { self.new.terms.interface ≡ self.old.terms.interface }
        ensures capacity { vec_capacity events.new ≡ vec_capacity events.old }
        ensures len { vec_len events.new ≤ vec_len events.old + 1 }
        ensures does { (c : Channel) → StatusRepresents self.old c
            → Does origin self.old self.new events.old.items events.new.items
            (ending how (entering to owed c)) }
    {
        let terms = self.status.terms();
        match terms.call {
            None => self.enter(to, owed, &terms),
            Some(_) => {
                events.push_reserved(origin.event(What::End(how)));
                self.settings = BothSettings::new();
                self.enter(to, owed, &Terms::new(terms.interface));
            }
        }
    }

    /// Reports an error of a packet: one of the DTE has the DCE clear or reset, one of the DCE changes nothing.
    pub(crate) fn fail(
        &mut self,
        judgement: &Judgement,
        code: u8,
        events: &mut Vec<Event, A>,
    ) -> Result<(), Fault>
        ensures does { Comes result judgement.now.origin self.old self.new
            events.old.items events.new.items
            (failing judgement.now.side judgement.now.state code) }
        ensures unchanged { IsUnchanged result self.old self.new events.old.items events.new.items }
        ensures memory { IsMemory result }
    {
        let Judgement {
            origin,
            side,
            state,
        } = *judgement;
        events.reserve(2)?;
        events.push_reserved(origin.event(error(side, state, code)));
        match side {
            Side::T => self.give_up(origin, state, events),
            Side::N => {}
        }
        Ok(())
    }

    /// Has the DCE clear or reset after an error of the DTE.
    fn give_up(&mut self, origin: EventOrigin, state: StateName, events: &mut Vec<Event, A>)
        requires room { vec_len events.old < vec_capacity events.old }
        ensures { (c : Channel) → StatusRepresents self.old c
            → Does origin self.old self.new events.old.items events.new.items (after_error state c) }
    {
        let terms = self.status.terms();
        match state {
            StateName::D1 => self.enter(StateName::D3, true, &terms),
            StateName::D2 => self.enter(StateName::D3, true, &terms),
            StateName::D3 => self.enter(StateName::D3, true, &terms),
            _ => self.end(origin, How::N, StateName::P7, true, events),
        }
    }
}

/// The finding of an error.
fn error(side: Side, state: StateName, code: u8) -> What
    ensures { result ≡ What.Found side state (Code.Number code) }
{
    What::Found {
        side,
        state,
        code: Code::Number(code),
    }
}
