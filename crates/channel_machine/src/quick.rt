//! The common rows of a channel: data with Q 0 and RR in d1, which need no table.

ghost use Rattle.std.specs.Prelude.{◌≡◌, ◌∷◌, [], Some, false, IfOk, OnErr, OnSome};
ghost use Rattle.line_model.specs.basics.Bounds.{IsSaid};
ghost use Rattle.line_model.specs.channels.Channels.{Channel};
ghost use Rattle.line_model.specs.channels.ChannelStep.{channel_step, failing};
ghost use Rattle.line_model.specs.packets.Classes.{header_length, packet_class};
ghost use Rattle.line_model.specs.packets.Says.{header_in, receive_in};
ghost use Rattle.channel_machine.specs.Channels.{DoesApart, IsJudged, IsMemory, IsUnchanged, StatusRepresents};
ghost use Rattle.channel_machine.specs.Events.{origin_at};
ghost use Rattle.channel_machine.specs.Reached.{IsReached};

use crate::channel::StatusChannel;
use crate::events::Judgement;
use crate::status::StatusStore;
use crate::step::listed;
use line_model::diagnostic::PACKET_TOO_LONG;
use line_model::event::{Event, What};
use line_model::fault::Fault;
use line_model::items::ItemRef;
use line_model::packet::{Class, DataHeader, Packet, PacketKind};
use line_model::state::{ChannelState, DState, StateName};
use packet_decode::decode::header_length;
use std::alloc::Allocator;

impl<A: Allocator + Clone, S: StatusStore> StatusChannel<A, S> {
    /// Steps the channel by what a row says in an epoch, and appends the events of the row, except that of a data packet
    /// with Q 0 in d1: it returns that packet's octets of user data instead.
    #[inline(always)]
    pub(crate) fn handle(
        &mut self,
        epoch: u32,
        item: &ItemRef<'_>,
        events: &mut Vec<Event, A>,
    ) -> Result<Option<u32>, Fault>
        requires said { IsSaid self.old.terms.interface item.now }
        ensures does { (c : Channel) → IsReached c → StatusRepresents self.old c
            → IfOk result (λ accepted. DoesApart (origin_at epoch self.old.channel item.now)
            item.now.side self.old self.new events.old.items events.new.items accepted
            (channel_step self.old.terms.interface self.old.channel c item.now)) }
        ensures apart { IfOk result (λ accepted. OnSome accepted (events.new ≡ events.old)) }
        ensures unchanged { IsUnchanged result self.old self.new events.old.items events.new.items }
        ensures memory { IsMemory result }
    {
        let ChannelState::Transfer(DState::D1) = self.status.state() else {
            return self.handle_by_table(epoch, item, events);
        };
        match &item.packet {
            Packet::Channel {
                kind: PacketKind::Data(Some(header)),
                ..
            } if !header.qualified => self.handle_unqualified(epoch, header, item, events),
            Packet::Channel {
                kind: PacketKind::Rr(Some(receive)),
                ..
            } if item.length == header_length(&self.status.interface()) => {
                self.handle_ready(epoch, *receive, item, events)
            }
            _ => self.handle_by_table(epoch, item, events),
        }
    }

    /// Steps by a data packet with Q 0 in d1, and returns its octets of user data, unless it has a fault.
    #[inline(always)]
    fn handle_unqualified(
        &mut self,
        epoch: u32,
        header: &DataHeader,
        item: &ItemRef<'_>,
        events: &mut Vec<Event, A>,
    ) -> Result<Option<u32>, Fault>
        requires said { IsSaid self.old.terms.interface item.now }
        requires in_d1 { self.old.state ≡ ChannelState.Transfer DState.D1 }
        requires class { packet_class item.now.packet ≡ Class.Data }
        requires header { header_in item.now.packet ≡ Some header.now }
        requires unqualified { header.now.qualified ≡ false }
        ensures does { (c : Channel) → StatusRepresents self.old c
            → IfOk result (λ accepted. DoesApart (origin_at epoch self.old.channel item.now)
            item.now.side self.old self.new events.old.items events.new.items accepted
            (channel_step self.old.terms.interface self.old.channel c item.now)) }
        ensures apart { IfOk result (λ accepted. OnSome accepted (events.new ≡ events.old)) }
        ensures unchanged { IsUnchanged result self.old self.new events.old.items events.new.items }
        ensures memory { IsMemory result }
    {
        match self.judge_unqualified(header, item) {
            Ok(octets) => Ok(Some(octets)),
            Err(code) => self.refuse(epoch, item, code, events),
        }
    }

    /// Steps by RR in d1.
    #[inline(always)]
    fn handle_ready(
        &mut self,
        epoch: u32,
        receive: u8,
        item: &ItemRef<'_>,
        events: &mut Vec<Event, A>,
    ) -> Result<Option<u32>, Fault>
        requires in_d1 { self.old.state ≡ ChannelState.Transfer DState.D1 }
        requires class { packet_class item.now.packet ≡ Class.Rr }
        requires receive { receive_in item.now.packet ≡ Some receive }
        requires whole { item.now.length ≡ header_length self.old.terms.interface }
        ensures does { (c : Channel) → StatusRepresents self.old c
            → IfOk result (λ accepted. DoesApart (origin_at epoch self.old.channel item.now)
            item.now.side self.old self.new events.old.items events.new.items accepted
            (channel_step self.old.terms.interface self.old.channel c item.now)) }
        ensures apart { IfOk result (λ accepted. OnSome accepted (events.new ≡ events.old)) }
        ensures unchanged { IsUnchanged result self.old self.new events.old.items events.new.items }
        ensures memory { IsMemory result }
    {
        match self.judge_ready(receive, item) {
            Ok(()) => Ok(None),
            Err(code) => self.refuse(epoch, item, code, events),
        }
    }

    /// Accepts a data packet with Q 0 in d1, and returns how many octets of user data it has; or returns its fault, and
    /// the channel is as it was.
    #[inline(always)]
    fn judge_unqualified(&mut self, header: &DataHeader, item: &ItemRef<'_>) -> Result<u32, u8>
        requires said { IsSaid self.old.terms.interface item.now }
        requires in_d1 { self.old.state ≡ ChannelState.Transfer DState.D1 }
        requires class { packet_class item.now.packet ≡ Class.Data }
        requires header { header_in item.now.packet ≡ Some header.now }
        requires unqualified { header.now.qualified ≡ false }
        ensures judged { (c : Channel) → StatusRepresents self.old c
            → IsJudged result (λ n. What.Data item.now.side n ∷ []) item.now.side StateName.D1
            self.old self.new c
            (channel_step self.old.terms.interface self.old.channel c item.now) }
        ensures faulted { OnErr result (self.new ≡ self.old) }
    {
        let length = self.user_data_length(item);
        if length > usize::from(self.status.size(item.side)) {
            return Err(PACKET_TOO_LONG);
        }
        self.accept_unqualified(header, item, length)
    }

    /// Accepts RR in d1, or returns its fault, and the channel is as it was.
    #[inline(always)]
    fn judge_ready(&mut self, receive: u8, item: &ItemRef<'_>) -> Result<(), u8>
        requires in_d1 { self.old.state ≡ ChannelState.Transfer DState.D1 }
        requires class { packet_class item.now.packet ≡ Class.Rr }
        requires receive { receive_in item.now.packet ≡ Some receive }
        requires whole { item.now.length ≡ header_length self.old.terms.interface }
        ensures judged { (c : Channel) → StatusRepresents self.old c
            → IsJudged result (λ _. []) item.now.side StateName.D1 self.old self.new c
            (channel_step self.old.terms.interface self.old.channel c item.now) }
        ensures faulted { OnErr result (self.new ≡ self.old) }
    {
        self.accept_ready(item.side, receive)
    }

    /// Reports an error of a packet in d1.
    #[cold]
    #[inline(never)]
    fn refuse(
        &mut self,
        epoch: u32,
        item: &ItemRef<'_>,
        code: u8,
        events: &mut Vec<Event, A>,
    ) -> Result<Option<u32>, Fault>
        ensures does { (c : Channel) → StatusRepresents self.old c
            → IfOk result (λ accepted. DoesApart (origin_at epoch self.old.channel item.now)
            item.now.side self.old self.new events.old.items events.new.items accepted
            (failing item.now.side StateName.D1 code c)) }
        ensures apart { IfOk result (λ accepted. OnSome accepted (events.new ≡ events.old)) }
        ensures unchanged { IsUnchanged result self.old self.new events.old.items events.new.items }
        ensures memory { IsMemory result }
    {
        let judgement = Judgement {
            origin: self.origin(epoch, item),
            side: item.side,
            state: StateName::D1,
        };
        listed(self.fail(&judgement, code, events))
    }
}
