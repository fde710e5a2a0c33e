//! What is read of the packets of a channel, and their first faults (X.25 clause 5).

ghost use Rattle.std.specs.Prelude.{◌≡◌, ◌≤◌, ℕ, List, true, false, unwrap_or, IfOk, IfNone};
ghost use Rattle.std.specs.Result.{result_err};
ghost use Rattle.line_model.specs.basics.Bounds.{IsSaid};
ghost use Rattle.line_model.specs.channels.Channels.{Channel};
ghost use Rattle.line_model.specs.packets.Classes.{packet_class};
ghost use Rattle.line_model.specs.packets.Facilities.{fields_of};
ghost use Rattle.line_model.specs.packets.Formats.{direction_fault, format_fault, packet_fault};
ghost use Rattle.line_model.specs.packets.Says.{receive_in};
ghost use Rattle.packet_decode.specs.Shown.{shown, IsUsable};
ghost use Rattle.channel_machine.specs.Channels.{StatusRepresents};
ghost use Rattle.channel_machine.specs.Contents.{AreOf, AreUsable, is_call};
ghost use Rattle.channel_machine.specs.Lengths.{outside, too_long, too_short};
ghost use Rattle.channel_machine.specs.Sizes.{largest_length};

use crate::channel::StatusChannel;
use crate::status::StatusStore;
use crate::terms::was_fast;
use line_model::diagnostic::{CALL_ON_ONE_WAY_LOGICAL_CHANNEL, PACKET_TOO_LONG, PACKET_TOO_SHORT};
use line_model::items::ItemRef;
use line_model::packet::{Class, Packet, PacketKind};
use line_model::state::Side;
use packet_decode::decode::header_length;
use packet_decode::fields::{CallFields, call_fields};
use std::alloc::Allocator;

/// What a packet without a fault of format has in addition to its class and its length.
#[derive(Drop)]
pub(crate) enum Contents<'a> {
    /// The fields of a call request or incoming call.
    Call(CallFields<'a>),
    /// The fields of a call accepted or connected.
    Accepted(CallFields<'a>),
    /// A packet of which no more is read.
    Other,
}

/// P(R) of RR and RNR, 0 where it is cut and for every other packet.
pub(crate) fn receive_of(packet: &Packet) -> u8
    ensures { result ≡ unwrap_or (receive_in packet.now) 0 }
{
    match packet {
        Packet::Channel {
            kind: PacketKind::Rr(Some(receive)),
            ..
        } => *receive,
        Packet::Channel {
            kind: PacketKind::Rnr(Some(receive)),
            ..
        } => *receive,
        _ => 0,
    }
}

/// The fault of a packet that is shorter than it may be.
fn at_least(least: usize, length: usize) -> Option<u8>
    ensures { result ≡ too_short least length }
{
    if length < least {
        return Some(PACKET_TOO_SHORT);
    }
    None
}

/// The fault of a packet that is longer than it may be.
fn at_most(most: usize, length: usize) -> Option<u8>
    ensures { result ≡ too_long most length }
{
    if length > most {
        return Some(PACKET_TOO_LONG);
    }
    None
}

/// Returns the fault of a packet that is shorter or longer than it may be.
pub(crate) fn between(least: usize, most: usize, length: usize) -> Option<u8>
    ensures fault { result ≡ outside least most length }
    ensures within { IfNone result (length ≤ most) }
{
    if length < least {
        return Some(PACKET_TOO_SHORT);
    }
    if length > most {
        return Some(PACKET_TOO_LONG);
    }
    None
}

impl<A: Allocator + Clone, S: StatusStore> StatusChannel<A, S> {
    /// Returns what a packet says that moves its channel, or its first fault: a call against the direction of its
    /// channel (profile), or a fault of its format.
    #[inline(always)]
    pub(crate) fn read<'a>(&self, item: &ItemRef<'a>) -> Result<Contents<'a>, u8>
        requires said { IsSaid self.now.terms.interface item.now }
        ensures fault { (c : Channel) → StatusRepresents self.now c
            → result_err result ≡ packet_fault self.now.terms.interface self.now.channel c item.now }
        ensures contents { IfOk result (λ r. AreOf r item.now) }
        ensures usable { IfOk result (λ r. AreUsable r self.now.terms.interface) }
    {
        let class = item.packet.class();
        match self.direction_fault(item.side, class) {
            Some(code) => Err(code),
            None => self.read_format(class, item),
        }
    }

    /// What a packet of a class says, or the first fault of its format.
    #[inline(always)]
    fn read_format<'a>(&self, class: Class, item: &ItemRef<'a>) -> Result<Contents<'a>, u8>
        requires said { IsSaid self.now.terms.interface item.now }
        requires class { class ≡ packet_class item.now.packet }
        ensures fault { (c : Channel) → StatusRepresents self.now c
            → result_err result ≡ format_fault self.now.terms.interface c item.now.side class
            item.now.length item.now.octets }
        ensures contents { IfOk result (λ r. AreOf r item.now) }
        ensures usable { IfOk result (λ r. AreUsable r self.now.terms.interface) }
    {
        match class {
            Class::Call => match self.fields(class, item) {
                Ok(fields) => Ok(Contents::Call(fields)),
                Err(code) => Err(code),
            },
            Class::Accepted => match self.fields(class, item) {
                Ok(fields) => Ok(Contents::Accepted(fields)),
                Err(code) => Err(code),
            },
            _ => match self.length_fault(item.side, class, item.length) {
                Some(code) => Err(code),
                None => Ok(Contents::Other),
            },
        }
    }

    /// The fields of a packet of a call, or its first fault.
    fn fields<'a>(&self, class: Class, item: &ItemRef<'a>) -> Result<CallFields<'a>, u8>
        requires said { IsSaid self.now.terms.interface item.now }
        requires class { class ≡ packet_class item.now.packet }
        requires call { is_call class ≡ true }
        ensures fault { (c : Channel) → StatusRepresents self.now c
            → result_err result ≡ format_fault self.now.terms.interface c item.now.side class
            item.now.length item.now.octets }
        ensures fields { IfOk result (λ f. shown f ≡ fields_of item.now.octets) }
        ensures usable { IfOk result (λ f. IsUsable self.now.terms.interface f) }
    {
        let fast = was_fast(self.status.call());
        call_fields(&self.status.interface(), item.octets, fast)
    }

    /// Returns the first fault of a length, for the class of a packet other than those of a call, with the packet size
    /// in force for the side that sent it.
    #[inline(always)]
    pub(crate) fn length_fault(&self, side: Side, class: Class, length: usize) -> Option<u8>
        ensures fault { (c : Channel) (xs : List ℕ) → StatusRepresents self.now c → is_call class ≡ false
            → result ≡ format_fault self.now.terms.interface c side class length xs }
        ensures short { IfNone result (class ≡ Class.Data → length ≤ largest_length) }
    {
        let header = header_length(&self.status.interface());
        match class {
            Class::Clear => at_least(4, length),
            Class::Reset => between(4, 5, length),
            Class::ResetConfirm => at_most(3, length),
            Class::InterruptConfirm => at_most(3, length),
            Class::Interrupt => between(4, 35, length),
            Class::Rr => between(header, header, length),
            Class::Rnr => between(header, header, length),
            Class::Data => between(header, header + usize::from(self.status.size(side)), length),
            _ => None,
        }
    }

    /// The fault of a call against the direction of a one-way channel.
    fn direction_fault(&self, side: Side, class: Class) -> Option<u8>
        ensures { result ≡ direction_fault self.now.terms.interface self.now.channel side class }
    {
        match class {
            Class::Call => {
                if self.status.interface().is_against(side, self.channel) {
                    Some(CALL_ON_ONE_WAY_LOGICAL_CHANNEL)
                } else {
                    None
                }
            }
            _ => None,
        }
    }
}
