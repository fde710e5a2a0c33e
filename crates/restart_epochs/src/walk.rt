//! The walk over the rows of a trace, except for what is on the logical channels: the restart machine, the epoch, and
//! what it found.

ghost use Rattle.std.specs.Prelude.{option_to_list, ◌≡◌, ◌<◌, ◌+◌, ◌^◌, ◌++◌, IfOk, IfSome, OnOk, OnErr, is_some};
ghost use Rattle.line_model.specs.channels.GapRestart.{is_of_all};
ghost use Rattle.line_model.specs.packets.Says.{gap_of};
ghost use Rattle.restart_epochs.specs.Walks.{epoch_after, passed, route_finding, start_after, start_joined, step_to, effect_of, HasJoined, HasRoom, IsAdvanced, IsFresh, IsFreshBlock, IsSameWalk, IsStep};

use crate::restart::{Restart, Route, packet_channel};
use line_model::finding::{Code, Finding};
use line_model::gap::EpochStart;
use line_model::interface::Interface;
use line_model::items::ItemRef;
use line_model::packet::{Packet, PacketKind};
use line_model::state::{RState, StateName};
use std::alloc::{AllocError, Allocator, Global};

/// What a row does to the logical channels.
#[derive(Clone, Copy)]
pub enum ChannelEffect {
    /// It goes to one of them.
    ToChannel(u16),
    /// It is a gap of all of them.
    ToAll,
    /// It ends all of them, since it leaves r1 or begins the next epoch in it.
    Ends,
    /// It does nothing to them.
    Stays,
}

/// What a row does to a walk.
#[derive(Clone, Copy)]
pub struct Step {
    /// The restart machine after the row.
    pub machine: Restart,
    /// The epoch after the row.
    pub epoch: u32,
    /// What the restart machine finds.
    pub finding: Option<Finding>,
    /// Whether the row is a gap.
    pub gap: bool,
    /// What it does to the logical channels.
    pub effect: ChannelEffect,
}

/// A walk over the rows of a trace, except for what is on the logical channels.
#[derive(Drop)]
pub struct EpochWalk<A: Allocator = Global> {
    /// The interface of the trace.
    pub interface: Interface,
    /// The restart machine after the rows so far.
    pub machine: Restart,
    /// The number of the current epoch, counted from 1.
    pub epoch: u32,
    /// How it began.
    pub start: EpochStart,
    /// How many rows were read.
    pub packets: u32,
    /// How many of them are gaps.
    pub gaps: u32,
    /// What the restart machine found.
    pub findings: Vec<Finding, A>,
}

impl<A: Allocator> EpochWalk<A> {
    /// Returns a walk before the first row. Allocates nothing.
    pub fn new(alloc: A, interface: &Interface) -> Self
        ensures { IsFresh interface.now result }
    {
        let machine = Restart::first(interface);
        EpochWalk {
            interface: *interface,
            machine,
            epoch: 1,
            start: machine.start(),
            packets: 0,
            gaps: 0,
            findings: Vec::new(alloc),
        }
    }

    /// Returns a walk over the rows of a block alone, before the first one, with this restart machine. Epochs are
    /// counted from 0, and how the first of them began is not known. Allocates nothing.
    pub fn of_block(alloc: A, interface: &Interface, machine: Restart) -> Self
        ensures { IsFreshBlock machine result }
    {
        EpochWalk {
            interface: *interface,
            machine,
            epoch: 0,
            start: machine.start(),
            packets: 0,
            gaps: 0,
            findings: Vec::new(alloc),
        }
    }

    /// Advances over the rows of a block, whose walk began with this walk's restart machine. Fails only when memory is
    /// refused; drop the walk then.
    pub fn join(&mut self, block: EpochWalk<A>) -> Result<(), AllocError>
        requires epochs { self.old.epoch + block.epoch < 2 ^ 32 }
        requires packets { self.old.packets + block.packets < 2 ^ 32 }
        requires gaps { self.old.gaps + block.gaps < 2 ^ 32 }
        ensures { OnOk result (HasJoined block self.old self.new) }
    {
        let mut block = block;
        self.findings.append(&mut block.findings)?;
        self.machine = block.machine;
        self.start = start_joined(block.epoch, self.start, block.start);
        self.epoch += block.epoch;
        self.packets += block.packets;
        self.gaps += block.gaps;
        Ok(())
    }

    /// Returns what the next row does to the walk, which stays where it is, with room for what the row finds. Fails only
    /// when memory is refused.
    #[inline(always)]
    pub fn step(&mut self, item: &ItemRef<'_>) -> Result<Step, AllocError>
        requires epochs { self.old.epoch + 1 < 2 ^ 32 }
        ensures step { IfOk result (IsStep self.old.machine self.old.epoch item.now) }
        ensures same { IsSameWalk self.old self.new }
        ensures room { IfOk result (λ step. HasRoom self.new step) }
    {
        if let Some(channel) = self.channel_of(item) {
            return Ok(Step {
                machine: self.machine,
                epoch: self.epoch,
                finding: None,
                gap: is_gap(&item.packet),
                effect: ChannelEffect::ToChannel(channel),
            });
        }
        self.step_by_machine(item)
    }

    /// Fast path: returns the logical channel that the next row goes to, while the restart machine and the epoch stay:
    /// in r1 each packet on a channel goes to it (X.25 clause 3). `None` where `step` returns what the row does.
    #[inline(always)]
    pub fn channel_of(&self, item: &ItemRef<'_>) -> Option<u16>
        ensures { IfSome result (λ channel. IsStep self.now.machine self.now.epoch item.now (step_to channel self.now item.now)) }
    {
        match &item.packet {
            Packet::Channel { channel, .. } if self.machine.state() == RState::R1 => Some(*channel),
            _ => None,
        }
    }

    /// The step of a row by the restart machine.
    #[inline(always)]
    fn step_by_machine(&mut self, item: &ItemRef<'_>) -> Result<Step, AllocError>
        requires epochs { self.old.epoch + 1 < 2 ^ 32 }
        ensures step { IfOk result (IsStep self.old.machine self.old.epoch item.now) }
        ensures same { IsSameWalk self.old self.new }
        ensures room { IfOk result (λ step. HasRoom self.new step) }
    {
        self.findings.reserve(1)?;
        let mut machine = self.machine;
        let route = machine.step(&item.packet, item.length, item.side);
        Ok(Step {
            machine,
            epoch: next_epoch(self.epoch, route),
            finding: finding_of(route, item),
            gap: is_gap(&item.packet),
            effect: effect_by(route, &item.packet),
        })
    }

    /// Advances over the row of a step.
    #[inline(always)]
    pub fn advance(&mut self, step: Step)
        requires room { HasRoom self.old step }
        requires packets { self.old.packets + 1 < 2 ^ 32 }
        requires gaps { self.old.gaps + 1 < 2 ^ 32 }
        ensures { IsAdvanced step self.old self.new }
    {
        if let Some(finding) = step.finding {
            self.findings.push_reserved(finding);
        }
        self.reach(&step);
        self.machine = step.machine;
        self.packets += 1;
        if step.gap {
            self.gaps += 1;
        }
    }

    /// Goes to the epoch after the row of a step.
    #[inline(always)]
    fn reach(&mut self, step: &Step)
        ensures { self.new ≡ record self.old {
          epoch = step.now.epoch;
          start = start_after self.old.epoch self.old.start step.now.epoch step.now.machine;
        } }
    {
        if step.epoch == self.epoch {
            return;
        }
        self.start = step.machine.start();
        self.epoch = step.epoch;
    }
}

/// Returns how the epoch that is open after the rows of a block began, where `begun` epochs began in the block.
pub fn start_joined(begun: u32, before: EpochStart, later: EpochStart) -> EpochStart
    ensures { result ≡ start_joined begun before later }
{
    if begun == 0 { before } else { later }
}

/// The epoch after a row, by its route.
fn next_epoch(epoch: u32, route: Route) -> u32
    requires { epoch + 1 < 2 ^ 32 }
    ensures { result ≡ epoch_after epoch route }
{
    match route {
        Route::Enter | Route::Renew => epoch + 1,
        _ => epoch,
    }
}

/// Returns whether a row is a gap of a channel, or of all.
#[inline(always)]
pub fn is_gap(packet: &Packet) -> bool
    ensures { result ≡ is_some (gap_of packet.now) }
{
    matches!(
        packet,
        Packet::GapOfAll
            | Packet::Channel {
                kind: PacketKind::Gap,
                ..
            }
    )
}

/// What a row that the restart machine passes does to the logical channels.
fn effect_of_passed(packet: &Packet) -> ChannelEffect
    ensures { result ≡ passed (is_of_all (gap_of packet.now)) }
{
    match packet {
        Packet::GapOfAll => ChannelEffect::ToAll,
        _ => ChannelEffect::Stays,
    }
}

/// What a row does to the logical channels, by its route.
fn effect_by(route: Route, packet: &Packet) -> ChannelEffect
    ensures { result ≡ effect_of packet.now route }
{
    match route {
        Route::ToChannel => ChannelEffect::ToChannel(packet_channel(packet)),
        Route::Leave(_) | Route::Renew => ChannelEffect::Ends,
        Route::Pass => effect_of_passed(packet),
        Route::Enter | Route::Found(..) => ChannelEffect::Stays,
    }
}

/// The finding of the restart machine on a row, if its route has one.
fn finding_of(route: Route, item: &ItemRef<'_>) -> Option<Finding>
    ensures { option_to_list result ≡ route_finding item.now route }
{
    let (state, code) = match route {
        Route::Found(state, code) => (state, code),
        Route::Leave(Some(code)) => (StateName::R1, code),
        _ => return None,
    };
    Some(Finding {
        packet: item.number,
        side: item.side,
        state,
        code: Code::Number(code),
    })
}

/// Appends a finding, if there is one. Fails only when memory is refused, and nothing has changed then.
pub fn append_finding<A: Allocator>(
    findings: &mut Vec<Finding, A>,
    finding: Option<Finding>,
) -> Result<(), AllocError>
    ensures ok { OnOk result (findings.new.items ≡ findings.old.items ++ option_to_list finding) }
    ensures refused { OnErr result (findings.new.items ≡ findings.old.items) }
{
    match finding {
        Some(finding) => {
            findings.push(finding)?;
            Ok(())
        }
        None => Ok(()),
    }
}
