//! The numbers, interrupts and sequences of a settled channel.

ghost use Rattle.std.specs.Prelude.{◌≡◌, ◌⊎◌, ◌<◌, ◌-◌, ◌%◌, ◌&&◌, ℕ, List, [], not, true, false, option_and_then, IfErr, IfOk, OnErr, OnOk};
ghost use Rattle.line_model.specs.declared.fault.Fault.TheVariants.{Memory};
ghost use Rattle.line_model.specs.declared.state.Side.{Side as AnySide};
ghost use Rattle.line_model.specs.channels.Channels.{AcceptedData, Channel, of_side, other, with_side};
ghost use Rattle.line_model.specs.channels.ChannelStep.{counts_of};
ghost use Rattle.line_model.specs.channels.FlowControl.{Counts, count_confirm, count_data, count_interrupt, count_receive};
ghost use Rattle.line_model.specs.channels.Gaps.{of_both};
ghost use Rattle.line_model.specs.channels.GapStep.{acknowledged_data, completed_for_receive, completed_to, count_settled, doubts_after_data, is_mixed, may_be_begun, receive_by, settled_doubts, transferring_in_doubt, with_interrupt};
ghost use Rattle.line_model.specs.basics.Records.{Item};
ghost use Rattle.line_model.specs.packets.Formats.{size_in_force, window_in_force};
ghost use Rattle.line_model.specs.packets.Says.{header_in, receive_in};
ghost use Rattle.data_transfer.specs.Assembler.{begun_on};
ghost use Rattle.data_transfer.specs.Assembly.{Holds, is_like};
ghost use Rattle.data_transfer.specs.FlowResidues.{ResiduesRepresent};
ghost use Rattle.channel_machine.specs.Settling.{settled_after, settling_by};
ghost use Rattle.channel_machine.specs.SettledNumbers.{AreNumbered, IsCountedInDoubt, IsFirst, IsNumbered, IsRestarted, IsWidest, NumbersRepresent, SequencesRepresent};
ghost use Rattle.channel_machine.specs.SettledSteps.{IsControlled};
ghost use Rattle.channel_machine.specs.SettledSequences.{IsCompleted, IsContinued, kept_after};

use crate::gaps::carried::WhileAdrift;
use crate::gaps::doubts::Doubts;
use data_transfer::assembler::Assembler;
use data_transfer::flow::Flow;
use data_transfer::sequence::{DataField, UserData};
use line_model::fault::Fault;
use line_model::gap::LastData;
use line_model::interface::Interface;
use line_model::packet::{Class, DataHeader, Packet, PacketKind};
use line_model::state::{Side, StateName};
use std::alloc::Allocator;
use std::boxed::Box;
use std::marker::Model;

/// A packet of a side whose P(R) acknowledges the last data packet of the other side: it settles a channel adrift.
#[derive(Clone, Copy)]
pub(crate) struct Settling {
    pub(crate) side: Side,
    /// The header of the packet, if it is data.
    pub(crate) header: Option<DataHeader>,
    /// Its P(R).
    pub(crate) receive: u8,
    /// The data packet that it acknowledges.
    pub(crate) last: LastData,
}

impl Settling {
    /// Returns the packet of a side, if it settles the channel.
    pub(crate) fn by(adrift: &WhileAdrift, side: Side, packet: &Packet) -> Option<Settling>
        ensures { result ≡ settling_by side (header_in packet.now)
            (receive_by (header_in packet.now) (receive_in packet.now))
            (option_and_then (acknowledged_data adrift.now side)
            (receive_by (header_in packet.now) (receive_in packet.now))) }
    {
        let receive = received(packet)?;
        let last = adrift.acknowledged(side, receive)?;
        Some(Settling {
            side,
            header: packet.data_header(),
            receive,
            last,
        })
    }
}

/// P(R) of a packet, if it has one.
pub(crate) fn received(packet: &Packet) -> Option<u8>
    ensures { result ≡ receive_by (header_in packet.now) (receive_in packet.now) }
{
    match packet {
        Packet::Channel { kind, .. } => match kind {
            PacketKind::Data(Some(header)) => Some(header.receive),
            PacketKind::Rr(receive) => *receive,
            PacketKind::Rnr(receive) => *receive,
            _ => None,
        },
        _ => None,
    }
}

/// What is kept of a settled channel apart from its state and its call: what is in doubt, its numbers and interrupts,
/// and the sequences that it has begun. The windows here are the widest: the window in force is judged before them.
#[derive(Drop)]
pub(crate) struct SettledNumbers<A: Allocator> {
    doubts: Doubts,
    flow: Flow,
    assembler: Assembler<A>,
}

impl<A: Allocator> Model for SettledNumbers<A> {
    ghost use Rattle.channel_machine.specs.GapView.{InDoubt};

    ghost Value = { InDoubt };

    ghost use Rattle.channel_machine.specs.SettledNumbers.{IsWidest};

    ghost view = { λ s. record { doubts = s.doubts; flow = s.flow; assembler = s.assembler } };

    ghost invariant = { λ s. IsWidest s.flow };
}

impl<A: Allocator + Clone> SettledNumbers<A> {
    /// Returns what a packet that settles the channel makes certain. Allocates nothing.
    fn new(alloc: A, interface: &Interface, hidden: bool, settling: &Settling) -> SettledNumbers<A>
        ensures doubts { result.doubts
            ≡ settled_doubts hidden settling.now.side settling.now.header }
        ensures numbers { (c : Channel) → NumbersRepresent interface.now.modulus result
            (settled_after interface.now.modulus settling.now c) }
        ensures sequences { (x : AnySide) → Holds (begun_on result.assembler x) [] }
    {
        SettledNumbers {
            doubts: Doubts::settled(hidden, settling.side, settling.header.is_some()),
            flow: settled_flow(interface.modulus, settling),
            assembler: Assembler::new(alloc, interface.size, interface.size),
        }
    }

    /// Returns the same in a box. Fails only when memory is refused.
    pub(crate) fn boxed(
        alloc: &A,
        interface: &Interface,
        hidden: bool,
        settling: &Settling,
    ) -> Result<Box<SettledNumbers<A>, A>, Fault>
        ensures doubts { IfOk result (λ s. s.value.doubts
            ≡ settled_doubts hidden settling.now.side settling.now.header) }
        ensures numbers { IfOk result (λ s. (c : Channel) → NumbersRepresent interface.now.modulus s.value
            (settled_after interface.now.modulus settling.now c)) }
        ensures sequences { IfOk result (λ s. (x : AnySide) → Holds (begun_on s.value.assembler x) []) }
        ensures memory { IfErr result (λ fault. fault ≡ Memory) }
    {
        let numbers = SettledNumbers::new(alloc.clone()?, interface, hidden, settling);
        let settled = Box::new(alloc.clone()?, numbers)?;
        Ok(settled)
    }

    /// Returns what is in doubt.
    pub(crate) fn doubts(&self) -> Doubts
        ensures { result ≡ self.now.doubts }
    {
        self.doubts
    }

    /// Forgets what is outstanding or begun, as leaving d1 does. Only whether another call may be hidden stays in doubt.
    pub(crate) fn restart(&mut self)
        ensures { IsRestarted self.old self.new }
    {
        self.flow.reset();
        self.assembler.reset();
        self.doubts = self.doubts.outside_d1();
    }

    /// Judges the numbers of a data packet of a side in a window, and returns those after it: `INVALID_P_S` or
    /// `INVALID_P_R`. Where its next P(S) is in doubt, every P(S) of the modulus is valid.
    pub(crate) fn judge_data(&self, side: Side, header: &DataHeader, window: u8) -> Result<Flow, u8>
        ensures numbers { (i : Interface) (c : Channel) → NumbersRepresent i.modulus self.now c
            → window ≡ window_in_force i c side → window < i.modulus
            → IsNumbered result i self.now.doubts side header.now c }
        ensures widest { IfOk result (λ f. IsWidest f) }
        ensures modulus { IfOk result (λ f. f.modulus ≡ self.now.flow.modulus) }
    {
        let mut flow = self.presumed(side.other(), header.receive);
        if self.doubts.of(side).number {
            return judge_first(flow, side, header);
        }
        if let Err(code) = flow.data_within(side, window, header.send, header.receive) {
            return Err(code);
        }
        Ok(flow)
    }

    /// Accepts an interrupt, an interrupt confirmation, or the P(R) of an RR or RNR, or returns its fault and changes
    /// nothing.
    pub(crate) fn control(
        &mut self,
        class: Class,
        side: Side,
        receive: Option<u8>,
    ) -> Result<(), u8>
        requires no_data { class ≡ Class.Data → ⊥ }
        ensures judged { (i : Interface) (c : Channel) (q : StateName) (r : Item) → r.side ≡ side
            → receive ≡ receive_in r.packet → NumbersRepresent i.modulus self.old c
            → SequencesRepresent i self.old c
            → IsControlled result i side q self.new self.old.doubts c
            (transferring_in_doubt i q class r self.old.doubts c) }
        ensures unchanged { OnErr result (self.new ≡ self.old) }
    {
        match class {
            Class::Interrupt => self.interrupt(side),
            Class::InterruptConfirm => self.confirm(side),
            _ => match receive {
                Some(receive) => self.acknowledge(side, receive),
                None => Ok(()),
            },
        }
    }

    /// Judges the P(R) of a side: `INVALID_P_R` where it acknowledges no packet of the other side. Where the next P(S) of
    /// that side is in doubt, no P(R) is invalid.
    pub(crate) fn acknowledge(&mut self, side: Side, receive: u8) -> Result<(), u8>
        ensures counted { (i : Interface) (c : Channel) → NumbersRepresent i.modulus self.old c
            → SequencesRepresent i self.old c → IsCountedInDoubt result i self.new
            (count_receive i.modulus
            (counts_of (completed_for_receive i.modulus self.old.doubts side receive c))
            side receive) (completed_for_receive i.modulus self.old.doubts side receive c) }
        ensures doubts { self.new.doubts ≡ self.old.doubts }
        ensures unchanged { OnErr result (self.new ≡ self.old) }
    {
        let mut flow = self.presumed(side.other(), receive);
        if let Err(code) = flow.ack(side, receive) {
            return Err(code);
        }
        self.flow = flow;
        Ok(())
    }

    /// Judges an interrupt of a side: `UNAUTHORIZED_INTERRUPT` where it is certain that one is unconfirmed.
    pub(crate) fn interrupt(&mut self, side: Side) -> Result<(), u8>
        ensures counted { (i : Interface) (c : Channel) → NumbersRepresent i.modulus self.old c
            → SequencesRepresent i self.old c → IsCountedInDoubt result i self.new
            (count_interrupt (counts_of
            (with_interrupt (of_side side self.old.doubts.interrupts) side false c)) side)
            (with_interrupt (of_side side self.old.doubts.interrupts) side false c) }
        ensures doubts { OnOk result (self.new.doubts ≡ record self.old.doubts {
          interrupts = with_side side false self.old.doubts.interrupts;
        }) }
        ensures unchanged { OnErr result (self.new ≡ self.old) }
    {
        let mut flow = self.with_interrupt(side, false);
        if let Err(code) = flow.interrupt(side) {
            return Err(code);
        }
        self.flow = flow;
        self.doubts.settle_interrupt(side);
        Ok(())
    }

    /// Judges an interrupt confirmation of a side: `UNAUTHORIZED_INTERRUPT_CONFIRMATION` where it is certain that no
    /// interrupt of the other side is unconfirmed.
    pub(crate) fn confirm(&mut self, side: Side) -> Result<(), u8>
        ensures counted { (i : Interface) (c : Channel) → NumbersRepresent i.modulus self.old c
            → SequencesRepresent i self.old c → IsCountedInDoubt result i self.new
            (count_confirm (counts_of
            (with_interrupt (of_side (other side) self.old.doubts.interrupts) (other side) true c)) side)
            (with_interrupt (of_side (other side) self.old.doubts.interrupts) (other side) true c) }
        ensures doubts { OnOk result (self.new.doubts ≡ record self.old.doubts {
          interrupts = with_side (other side) false self.old.doubts.interrupts;
        }) }
        ensures unchanged { OnErr result (self.new ≡ self.old) }
    {
        let mut flow = self.with_interrupt(side.other(), true);
        if let Err(code) = flow.confirm(side) {
            return Err(code);
        }
        self.flow = flow;
        self.doubts.settle_interrupt(side.other());
        Ok(())
    }

    /// Returns whether it is certain that a packet of a side has another Q bit than the sequence that it continues.
    pub(crate) fn is_mixed(&self, side: Side, qualified: bool) -> bool
        ensures { (i : Interface) (c : Channel) (p : AcceptedData) → p.qualified ≡ qualified
            → SequencesRepresent i self.now c → result ≡ is_mixed self.now.doubts.hidden
            (of_side side self.now.doubts.sequences) p
            (may_be_begun self.now.doubts.hidden (size_in_force i c side) side c.accepted) }
    {
        self.is_known(side) && !self.assembler.is_alike(side, qualified)
    }

    /// Whether all packets of the sequence that a side has begun are known, and no other call may be hidden.
    fn is_known(&self, side: Side) -> bool
        ensures { result ≡ (not self.now.doubts.hidden
            && not (of_side side self.now.doubts.sequences)) }
    {
        !self.doubts.is_hidden() && !self.doubts.of(side).sequence
    }

    /// Whether a packet with a Q bit is kept with what its side has begun: of a sequence that is known from its beginning,
    /// and where another call may be hidden, only with Q 1.
    fn is_kept(&self, side: Side, qualified: bool) -> bool
        ensures { result ≡ (not (of_side side self.now.doubts.sequences)
            && (not (self.now.doubts.hidden && not qualified)
            && is_like (begun_on self.now.assembler side).qualified qualified)) }
    {
        !self.doubts.of(side).sequence
            && !(self.doubts.is_hidden() && !qualified)
            && self.assembler.is_alike(side, qualified)
    }

    /// Adds a data packet that is accepted to the sequence of its side, of which more follows or not. Returns the octets of
    /// the sequence that it completes, if that is known from its beginning.
    #[inline(always)]
    pub(crate) fn put<'a>(
        &mut self,
        side: Side,
        field: &DataField<'a>,
        is_category_a: bool,
    ) -> Result<Option<UserData<'a, A>>, Fault>
        ensures continued { (hs : List AcceptedData) (p : AcceptedData)
            → IsContinued self.old side field.now hs p
            → OnOk result (Holds (begun_on self.new.assembler side)
            (kept_after (of_side side self.old.doubts.sequences) self.old.doubts.hidden is_category_a hs p)) }
        ensures completed { (hs : List AcceptedData) (p : AcceptedData)
            → IsContinued self.old side field.now hs p
            → IfOk result (λ o. IsCompleted o
            (not (of_side side self.old.doubts.sequences) && not is_category_a) hs p) }
        ensures apart { begun_on self.new.assembler (other side)
            ≡ begun_on self.old.assembler (other side) }
        ensures doubts { self.new.doubts ≡ self.old.doubts }
        ensures flow { self.new.flow ≡ self.old.flow }
        ensures unchanged { OnErr result (self.new ≡ self.old) }
        ensures memory { IfErr result (λ fault. fault ≡ Memory) }
    {
        if !self.is_kept(side, field.qualified) {
            self.assembler.forget(side);
            return Ok(None);
        }
        if is_category_a {
            self.assembler.join(side, field)?;
            return Ok(None);
        }
        let octets = self.assembler.complete(side, field.octets)?;
        Ok(Some(octets))
    }

    /// Keeps the numbers after a data packet of a side that was accepted: its next P(S) is certain, and so is its sequence
    /// where the packet ends one.
    pub(crate) fn accept(&mut self, side: Side, flow: Flow, is_category_a: bool)
        requires widest { IsWidest flow }
        ensures { self.new ≡ record self.old {
          doubts = doubts_after_data side is_category_a self.old.doubts;
          flow = flow;
        } }
    {
        self.flow = flow;
        self.doubts.settle_data(side, is_category_a);
    }

    /// The numbers where an interrupt of a side is unconfirmed, or not, if that is in doubt.
    fn with_interrupt(&self, side: Side, unconfirmed: bool) -> Flow
        ensures represented { (c : Channel) → ResiduesRepresent self.now.flow (counts_of c)
            → ResiduesRepresent result (counts_of
            (with_interrupt (of_side side self.now.doubts.interrupts) side unconfirmed c)) }
        ensures modulus { result.modulus ≡ self.now.flow.modulus }
        ensures windows { result.windows ≡ self.now.flow.windows }
    {
        let mut flow = self.flow;
        if self.doubts.of(side).interrupt {
            flow.set_interrupted(side, unconfirmed);
            return flow;
        }
        flow
    }

    /// The numbers with the packets of a side that were missed up to a number, where its next P(S) is in doubt.
    fn presumed(&self, side: Side, number: u8) -> Flow
        ensures represented { (m : ℕ) (c : Channel) → NumbersRepresent m self.now c
            → ResiduesRepresent result (counts_of
            (completed_to m (of_side side self.now.doubts.numbers) side number c)) }
        ensures modulus { result.modulus ≡ self.now.flow.modulus }
        ensures windows { result.windows ≡ self.now.flow.windows }
    {
        let mut flow = self.flow;
        if self.doubts.of(side).number {
            let lowest = flow.send_window(side).lowest;
            flow.set_numbers(side, number % flow.modulus(), lowest);
            return flow;
        }
        flow
    }
}

/// Judges a data packet of a side whose next P(S) is in doubt, and returns the numbers after it: `INVALID_P_R`, or
/// `INVALID_P_S` where P(S) is not below the modulus.
fn judge_first(flow: Flow, side: Side, header: &DataHeader) -> Result<Flow, u8>
    requires widest { IsWidest flow }
    ensures numbers { (c : Counts) → IsFirst flow side header.now.send c
        → AreNumbered result flow.modulus true side
        (count_data flow.modulus flow.modulus c side header.now.send header.now.receive) }
    ensures widest { IfOk result (λ f. IsWidest f) }
    ensures modulus { IfOk result (λ f. f.modulus ≡ flow.modulus) }
{
    let mut flow = flow;
    let lowest = flow.send_window(side).lowest;
    let next = header.send % flow.modulus();
    flow.set_numbers(side, next, next);
    if let Err(code) = flow.data(side, header.send, header.receive) {
        return Err(code);
    }
    let after = flow.send_window(side).next;
    flow.set_numbers(side, after, lowest);
    Ok(flow)
}

/// The numbers that a packet which settles a channel makes certain.
fn settled_flow(modulus: u8, settling: &Settling) -> Flow
    requires { (modulus ≡ 8) ⊎ (modulus ≡ 128) }
    ensures modulus { result.modulus ≡ modulus }
    ensures widest { result.windows ≡ of_both (modulus - 1) }
    ensures represented { (c : Channel) → ResiduesRepresent result
        (counts_of (settled_after modulus settling.now c)) }
{
    let mut flow = Flow::new(modulus, modulus - 1, modulus - 1);
    let received = settling.receive % modulus;
    flow.set_numbers(settling.side.other(), received, received);
    let lowest = settling.last.receive % modulus;
    flow.set_numbers(settling.side, next_settled(modulus, settling), lowest);
    flow
}

/// The next P(S) of the side whose packet settles a channel: that after its data, or its lower window edge.
fn next_settled(modulus: u8, settling: &Settling) -> u8
    requires { (modulus ≡ 8) ⊎ (modulus ≡ 128) }
    ensures { result ≡ count_settled modulus settling.now.last.receive settling.now.header % modulus }
{
    match settling.header {
        Some(header) => (header.send % modulus + 1) % modulus,
        None => settling.last.receive % modulus,
    }
}
