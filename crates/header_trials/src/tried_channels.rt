//! The logical channels of a trace under one header, in the epoch that goes on.

ghost use Rattle.std.specs.Prelude.{◌≡◌, ◌≢◌, ℕ, ◌+◌, ◌<◌, ◌^◌, ◌++◌, [], IfErr, IfOk, OnOk, length, true};
ghost use Rattle.line_model.specs.basics.Bounds.{IsItem};
ghost use Rattle.line_model.specs.channels.Gaps.{GapChannel, gap_step};
ghost use Rattle.line_model.specs.declared.fault.Fault.TheVariants.{Memory};
ghost use Rattle.line_model.specs.declared.gap.EpochStart.{EpochStart};
ghost use Rattle.line_model.specs.declared.interface.Interface.{Interface as AnyInterface};
ghost use Rattle.line_model.specs.observer.Machine.{with_state};
ghost use Rattle.line_model.specs.observer.Observer.{row_step};
ghost use Rattle.channel_run.specs.Run.{data_events, row_events};
ghost use Rattle.restart_epochs.specs.ChannelTables.{value_at};
ghost use Rattle.header_trials.specs.Reactions.{channel_reaction};
ghost use Rattle.header_trials.specs.Tried.{AreChannels, IsCaughtUp, IsChannel, IsOpenChannelOf, no_channels};

use crate::reactions::{self, Reaction};
use channel_run::run::Channel;
use channel_run::status_word::view_in;
use line_model::event::{Event, What};
use line_model::fault::Fault;
use line_model::items::ItemRef;
use restart_epochs::channel_table::ChannelTable;
use restart_epochs::walk::EpochWalk;
use std::alloc::Allocator;
use std::boxed::Box;

/// A logical channel that has rows in the epoch.
#[derive(Drop)]
pub struct TriedChannel<C> {
    machine: C,
    /// How many gaps of all channels it applied.
    gaps: u32,
}

/// The logical channels that have rows in the epoch. A gap of all channels is applied to each of them before its next
/// row: several between two of its rows do what one does.
#[derive(Drop)]
pub struct TriedChannels<A: Allocator, C> {
    open_channels: ChannelTable<TriedChannel<C>, A>,
    /// How many gaps of all channels the epoch has.
    gaps: u32,
}

/// Applies to a channel the gaps of all channels that it has not applied. Fails only when memory is refused.
fn catch_up<A: Allocator + Copy, C: Channel<A>>(
    channel: &mut TriedChannel<C>,
    gaps: u32,
    epoch: u32,
    events: &mut Vec<Event, A>,
) -> Result<(), Fault>
    requires { (i : AnyInterface) × (k : ℕ) × (g : GapChannel)
        × IsChannel C.Channel i gaps k g channel.old × (0 < gaps → i.gaps ≡ true) }
    ensures represented { (i : AnyInterface) (k : ℕ) (g : GapChannel)
        → IsChannel C.Channel i gaps k g channel.old
        → OnOk result (IsCaughtUp C.Channel i gaps k g channel.new) }
    ensures events { (i : AnyInterface) (k : ℕ) (g : GapChannel)
        → IsChannel C.Channel i gaps k g channel.old
        → OnOk result (events.new.items ≡ events.old.items) }
    ensures memory { IfErr result (λ fault. fault ≡ Memory) }
{
    if channel.gaps < gaps {
        channel
            .machine
            .advance(epoch, &ItemRef::gap_of_all(epoch), events)?;
        channel.gaps = gaps;
    }
    Ok(())
}

/// Appends the event of accepted data, by its octets of user data, where a row is such data. Fails only when memory is
/// refused.
fn push_data<A: Allocator>(
    epoch: u32,
    channel: u16,
    item: &ItemRef<'_>,
    accepted: Option<u32>,
    events: &mut Vec<Event, A>,
) -> Result<(), Fault>
    ensures events { OnOk result (events.new.items
        ≡ events.old.items ++ data_events epoch channel item.now accepted) }
    ensures memory { IfErr result (λ fault. fault ≡ Memory) }
{
    if let Some(octets) = accepted {
        events.push(Event {
            epoch,
            channel,
            packet: item.number,
            what: What::Data {
                side: item.side,
                octets,
            },
        })?;
    }
    Ok(())
}

/// Steps a channel that has applied all gaps by its next row. Appends the events of the row, and returns what it does
/// there to an indication that is owed. Fails only when memory is refused.
fn take_row<A: Allocator + Copy, C: Channel<A>>(
    tried: &mut TriedChannel<C>,
    epoch: u32,
    channel: u16,
    item: &ItemRef<'_>,
    events: &mut Vec<Event, A>,
) -> Result<Reaction, Fault>
    requires { (i : AnyInterface) × (n : ℕ) × (g : GapChannel)
        × IsCaughtUp C.Channel i n channel g tried.old × IsItem i channel item.now }
    ensures represented { (i : AnyInterface) (n : ℕ) (g : GapChannel)
        → IsCaughtUp C.Channel i n channel g tried.old
        → OnOk result (IsCaughtUp C.Channel i n channel (row_step i channel g item.now).after tried.new) }
    ensures events { (i : AnyInterface) (n : ℕ) (g : GapChannel)
        → IsCaughtUp C.Channel i n channel g tried.old
        → OnOk result (events.new.items ≡ events.old.items ++ row_events i epoch channel g item.now) }
    ensures reaction { (i : AnyInterface) (n : ℕ) (g : GapChannel)
        → IsCaughtUp C.Channel i n channel g tried.old
        → IfOk result (λ reaction. reaction ≡ channel_reaction i channel g item.now) }
    ensures memory { IfErr result (λ fault. fault ≡ Memory) }
{
    let before = view_in(&tried.machine.word());
    let accepted = tried.machine.advance(epoch, item, events)?;
    let after = view_in(&tried.machine.word());
    push_data(epoch, channel, item, accepted, events)?;
    Ok(reactions::channel_reaction(&before, after.owed, item))
}

impl<A: Allocator + Copy, C: Channel<A>> TriedChannels<A, C> {
    /// Returns a value in which no channel has rows. Allocates no memory.
    pub fn new(alloc: A) -> Self
        ensures { result ≡ no_channels }
    {
        TriedChannels {
            open_channels: ChannelTable::new(alloc),
            gaps: 0,
        }
    }

    /// Removes and returns an open channel: as it was when the epoch began, where it has no rows yet. Fails only when
    /// memory is refused.
    fn take_out(
        &mut self,
        walk: &EpochWalk<A>,
        channel: u16,
    ) -> Result<Box<TriedChannel<C>, A>, Fault>
        ensures out { (states : ℕ → GapChannel)
            → AreChannels C.Channel walk.now.interface walk.now.start walk.now.epoch states self.old
            → IfOk result (λ c. IsChannel C.Channel walk.now.interface self.old.gaps channel (states channel) c.value) }
        ensures others { (states : ℕ → GapChannel)
            → AreChannels C.Channel walk.now.interface walk.now.start walk.now.epoch states self.old
            → OnOk result ((k : ℕ) → k ≢ channel
            → IsOpenChannelOf C.Channel walk.now.interface walk.now.start walk.now.epoch self.old.gaps k
            (states k) (value_at self.new.open_channels k)) }
        ensures gaps { self.new.gaps ≡ self.old.gaps }
        ensures room { OnOk result (channel < length self.new.open_channels.open_channels) }
        ensures memory { IfErr result (λ fault. fault ≡ Memory) }
    {
        if let Some(taken) = self.open_channels.take(channel) {
            return Ok(taken);
        }
        self.open_channels.list(channel)?;
        let alloc = *walk.findings.allocator();
        let begun = Box::new(
            alloc,
            TriedChannel {
                machine: C::fresh(alloc, &walk.interface, channel, walk.epoch, walk.start),
                gaps: 0,
            },
        )?;
        Ok(begun)
    }

    /// Steps the channel of a row, appends its events, and returns what the row does there to an indication that is owed.
    /// Fails only when memory is refused.
    pub fn step(
        &mut self,
        walk: &EpochWalk<A>,
        channel: u16,
        item: &ItemRef<'_>,
        events: &mut Vec<Event, A>,
    ) -> Result<Reaction, Fault>
        requires item { IsItem walk.now.interface channel item.now }
        requires channels { (states : ℕ → GapChannel)
            × AreChannels C.Channel walk.now.interface walk.now.start walk.now.epoch states self.old }
        ensures channels { (states : ℕ → GapChannel)
            → AreChannels C.Channel walk.now.interface walk.now.start walk.now.epoch states self.old
            → OnOk result (AreChannels C.Channel walk.now.interface walk.now.start walk.now.epoch
            (with_state states channel
            (row_step walk.now.interface channel (states channel) item.now).after) self.new) }
        ensures gaps { self.new.gaps ≡ self.old.gaps }
        ensures events { (states : ℕ → GapChannel)
            → AreChannels C.Channel walk.now.interface walk.now.start walk.now.epoch states self.old
            → OnOk result (events.new.items ≡ events.old.items
            ++ row_events walk.now.interface walk.now.epoch channel (states channel) item.now) }
        ensures reaction { (states : ℕ → GapChannel)
            → AreChannels C.Channel walk.now.interface walk.now.start walk.now.epoch states self.old
            → IfOk result (λ reaction. reaction
            ≡ channel_reaction walk.now.interface channel (states channel) item.now) }
        ensures memory { IfErr result (λ fault. fault ≡ Memory) }
    {
        let mut taken = self.take_out(walk, channel)?;
        catch_up(&mut *taken, self.gaps, walk.epoch, events)?;
        let reaction = take_row(&mut *taken, walk.epoch, channel, item, events)?;
        self.open_channels.put(channel, taken);
        Ok(reaction)
    }

    /// Counts a gap of all channels.
    pub fn take_gap(&mut self)
        requires { self.old.gaps + 1 < 2 ^ 32 }
        ensures channels { (i : AnyInterface) (start : EpochStart) (epoch : ℕ) (states : ℕ → GapChannel)
            → i.gaps ≡ true → AreChannels C.Channel i start epoch states self.old
            → AreChannels C.Channel i start epoch (λ k. gap_step i k true (states k)) self.new }
        ensures gaps { self.new.gaps ≡ self.old.gaps + 1 }
    {
        self.gaps += 1;
    }
}
