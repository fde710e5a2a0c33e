//! A data packet on a channel: its numbers, the sequence that it belongs to, and the message that it may complete.

ghost use Rattle.std.specs.Prelude.{◌≡◌, ◌≤◌, ◌-◌, ◌&&◌, ◌∷◌, [], List, drop, length, true, false, Some, IfOk, OnErr, OnSome};
ghost use Rattle.line_model.specs.channels.Channels.{AcceptedData, Channel, PadMessage};
ghost use Rattle.data_transfer.specs.Assembly.{accepted};
ghost use Rattle.data_transfer.specs.Assembler.{Represents, sizes};
ghost use Rattle.line_model.specs.channels.ChannelStep.{counting, counts_of, data_step, transferring};
ghost use Rattle.line_model.specs.channels.FlowControl.{count_receive};
ghost use Rattle.line_model.specs.packets.Classes.{header_length, packet_class};
ghost use Rattle.packet_decode.specs.SaidData.{IsSaidData};
ghost use Rattle.channel_machine.specs.Transfers.{IsAccepted, counted_in_force, packet};
ghost use Rattle.channel_machine.specs.Appending.{IsAppended};
ghost use Rattle.channel_machine.specs.Messages.{SettingsRepresent};
ghost use Rattle.channel_machine.specs.Channels.{StatusRepresents, IsJudged, IsUnchanged, IsMemory};
ghost use Rattle.channel_machine.specs.Sizes.{largest_length};

use crate::channel::StatusChannel;
use crate::events::EventOrigin;
use crate::format::receive_of;
use crate::messages::{BothSettings, data_packet, room_for};
use crate::status::StatusStore;
use crate::terms::is_pad_call;
use data_transfer::assembler::Assembler;
use data_transfer::sequence::{DataField, Put};
use line_model::diagnostic::INCONSISTENT_Q_BIT_SETTING;
use line_model::event::{Event, What};
use line_model::fault::Fault;
use line_model::items::ItemRef;
use line_model::packet::{Class, DataHeader};
use line_model::state::{Side, StateName};
use packet_decode::decode::header_length;
use std::alloc::Allocator;

/// A data packet on a channel, whose numbers are valid.
#[derive(Clone, Copy)]
pub(crate) struct NumberedData<'a> {
    /// Where its events come from.
    pub(crate) origin: EventOrigin,
    pub(crate) side: Side,
    pub(crate) field: DataField<'a>,
    /// Whether the sequence that it may complete is a message.
    pub(crate) carries_message: bool,
}

impl<A: Allocator + Clone, S: StatusStore> StatusChannel<A, S> {
    /// Accepts a data packet of a side with its octets, or returns its fault: that of its numbers, or of its Q bit.
    pub(crate) fn accept_data(
        &mut self,
        origin: EventOrigin,
        side: Side,
        header: &DataHeader,
        user_data: &[u8],
        events: &mut Vec<Event, A>,
    ) -> Result<Option<u8>, Fault>
        requires short { length user_data.now ≤ largest_length }
        ensures rest { self.new ≡ record self.old { transfer = self.new.transfer } }
        ensures accepted_data { (c : Channel) → StatusRepresents self.old c
            → IfOk result (λ o. IsAccepted o self.old.terms.interface origin self.old.transfer
            self.new.transfer events.old.items events.new.items side
            (packet side header.now user_data.now)
            (counted_in_force self.old.terms.interface side header.now.send
            header.now.receive c) c) }
        ensures faulted { IfOk result (λ o. OnSome o ((self.new ≡ self.old)
            × (events.new.items ≡ events.old.items))) }
        ensures unchanged { IsUnchanged result self.old self.new events.old.items events.new.items }
        ensures memory { IsMemory result }
    {
        let mut status = self.status;
        if let Err(code) = status.data(side, header.send, header.receive) {
            return Ok(Some(code));
        }
        let carries_message = is_message(is_pad_call(self.status.call()), header.qualified);
        let packet = NumberedData {
            origin,
            side,
            field: DataField {
                qualified: header.qualified,
                more: header.more,
                delivery: header.delivery,
                octets: user_data,
            },
            carries_message,
        };
        let is_alike = append_data(&mut self.assembler, &mut self.settings, &packet, events)?;
        if is_alike {
            self.status = status;
            return Ok(None);
        }
        Ok(Some(INCONSISTENT_Q_BIT_SETTING))
    }

    /// Returns the octets of user data of a data packet with Q 1.
    pub(crate) fn user_data<'a>(&self, header: &DataHeader, item: &ItemRef<'a>) -> &'a [u8]
        requires said { IsSaidData self.now.terms.interface item.now header.now }
        requires qualified { header.now.qualified ≡ true }
        ensures { result.now ≡ drop (header_length self.now.terms.interface) item.now.octets }
    {
        &item.octets[header_length(&self.status.interface())..]
    }

    /// Returns how many octets of user data a data packet has.
    #[inline(always)]
    pub(crate) fn user_data_length(&self, item: &ItemRef<'_>) -> usize
        requires whole { header_length self.now.terms.interface ≤ item.now.length }
        ensures { result ≡ item.now.length - header_length self.now.terms.interface }
    {
        item.length - header_length(&self.status.interface())
    }

    /// Accepts a data packet with Q 0 by its octets of user data, and returns how many they are; or returns its fault,
    /// that of its numbers or of the Q bit of the sequence begun, and the channel is as it was. Allocates nothing.
    #[inline(always)]
    pub(crate) fn accept_unqualified(
        &mut self,
        header: &DataHeader,
        item: &ItemRef<'_>,
        length: usize,
    ) -> Result<u32, u8>
        requires length { length ≡ item.now.length - header_length self.old.terms.interface }
        requires said { IsSaidData self.old.terms.interface item.now header.now }
        requires unqualified { header.now.qualified ≡ false }
        requires short { item.now.length ≤ largest_length }
        ensures judged { (c : Channel) (q : StateName) → StatusRepresents self.old c
            → IsJudged result (λ n. What.Data item.now.side n ∷ []) item.now.side q
            self.old self.new c
            (data_step self.old.terms.interface q item.now (Some header.now) c) }
        ensures faulted { OnErr result (self.new ≡ self.old) }
    {
        let mut status = self.status;
        if let Err(code) = status.data(item.side, header.send, header.receive) {
            return Err(code);
        }
        if !self.assembler.is_alike(item.side, false) {
            return Err(INCONSISTENT_Q_BIT_SETTING);
        }
        self.status = status;
        self.assembler
            .put_unqualified(item.side, header.more, header.delivery, length);
        Ok(length as u32)
    }

    /// Accepts the P(R) of a packet of a side, or returns its fault, and the channel is as it was.
    #[inline(always)]
    pub(crate) fn accept_ready(&mut self, side: Side, receive: u8) -> Result<(), u8>
        ensures judged { (c : Channel) (q : StateName) → StatusRepresents self.old c
            → IsJudged result (λ _. []) side q self.old self.new c (counting side q
            (count_receive self.old.terms.interface.modulus (counts_of c) side receive) c) }
        ensures faulted { OnErr result (self.new ≡ self.old) }
    {
        self.status.ack(side, receive)
    }

    /// Accepts an interrupt, an interrupt confirmation, RR or RNR, or returns its fault, and the channel is as it was.
    pub(crate) fn accept_control(&mut self, class: Class, item: &ItemRef<'_>) -> Result<(), u8>
        requires class { class ≡ packet_class item.now.packet }
        requires no_data { class ≡ Class.Data → ⊥ }
        ensures judged { (c : Channel) (q : StateName) → StatusRepresents self.old c
            → IsJudged result (λ _. []) item.now.side q self.old self.new c
            (transferring self.old.terms.interface q class item.now c) }
        ensures faulted { OnErr result (self.new ≡ self.old) }
    {
        match class {
            Class::Interrupt => self.status.interrupt(item.side),
            Class::InterruptConfirm => self.status.confirm(item.side),
            _ => self.accept_ready(item.side, receive_of(&item.packet)),
        }
    }
}

/// Adds a data packet to the sequence of its side, and reports it with what the message that it completes says. Returns
/// whether it has the Q bit of that sequence: if not, nothing has changed.
#[inline(always)]
fn append_data<A: Allocator + Clone>(
    assembler: &mut Assembler<A>,
    settings: &mut BothSettings,
    packet: &NumberedData<'_>,
    events: &mut Vec<Event, A>,
) -> Result<bool, Fault>
    requires short { length packet.now.field.octets.now ≤ largest_length }
    ensures appended { (hs : List AcceptedData) (ts : List PadMessage)
        → Represents assembler.old hs → SettingsRepresent settings.old ts
        → IfOk result (λ alike. IsAppended alike packet.now.carries_message packet.now.origin assembler.old
        assembler.new settings.new events.old.items events.new.items packet.now.side
        (accepted packet.now.side packet.now.field) hs ts) }
    ensures sizes { sizes assembler.new ≡ sizes assembler.old }
    ensures mixed { IfOk result (λ alike. alike ≡ false → (assembler.new ≡ assembler.old)
        × (settings.new ≡ settings.old) × (events.new.items ≡ events.old.items)) }
    ensures unchanged { OnErr result ((assembler.new ≡ assembler.old)
        × (settings.new ≡ settings.old) × (events.new.items ≡ events.old.items)) }
    ensures memory { IsMemory result }
{
    events.reserve(room_for(packet.carries_message))?;
    let put = assembler.put(packet.side, &packet.field)?;
    let length = packet.field.octets.len() as u32;
    match put {
        Put::Mixed => Ok(false),
        Put::Going => {
            events.push_reserved(packet.origin.event(data_packet(packet.side, length)));
            Ok(true)
        }
        Put::Complete(sequence) => {
            let octets = sequence.octets.as_slice();
            settings.report_completed(packet, octets, length, events);
            Ok(true)
        }
    }
}

/// Returns whether a complete sequence with a Q bit is a message.
pub(crate) fn is_message(pad_call: bool, qualified: bool) -> bool
    ensures { result ≡ (pad_call && qualified) }
{
    pad_call && qualified
}
