//! The counts of a trace's rows under one header.

ghost use Rattle.std.specs.Prelude.{◌≡◌, ◌≢◌, ℕ, ◌+◌, ◌<◌, ◌≤◌, ◌^◌, ◌++◌, ◌∷◌, [], List, IfErr, IfOk, IfSome, OnOk, length, option_to_list, sum, if◌then◌else◌, true};
ghost use Rattle.line_model.specs.basics.Bounds.{IsItem};
ghost use Rattle.line_model.specs.basics.Records as records;
ghost use Rattle.line_model.specs.channels.Gaps.{GapChannel};
ghost use Rattle.line_model.specs.declared.fault.Fault.TheVariants.{Memory};
ghost use Rattle.line_model.specs.declared.interface.Interface.{Interface as AnyInterface};
ghost use Rattle.line_model.specs.observer.Report.{findings_of};
ghost use Rattle.line_model.specs.packets.Says.{item_read};
ghost use Rattle.line_model.specs.pieces.Plan.{has_some};
ghost use Rattle.restart_epochs.specs.Walks.{channel_in};
ghost use Rattle.restart_epochs.specs.declared.walk.ChannelEffect.TheVariants.{ToAll};
ghost use Rattle.live_report.specs.Observing.{AreItems};
ghost use Rattle.header_trials.specs.Reactions.{reaction_on, reactions_in};
ghost use Rattle.header_trials.specs.Tried.{AreChannels, HasWalked, MayWalk, events_after, no_channels, states_after, uncounted_in};

use crate::reactions::{self, Reaction, Reactions, Watch};
use crate::tried_channels::TriedChannels;
use channel_run::run::Channel;
use line_model::event::Event;
use line_model::fault::Fault;
use line_model::finding::Finding;
use line_model::interface::Interface;
use line_model::items::ItemRef;
use line_model::row::ReadRow;
use live_report::uncounted;
use packet_decode::decode::{header_length, item_of_row};
use restart_epochs::restart::Restart;
use restart_epochs::walk::{ChannelEffect, EpochWalk};
use std::alloc::Allocator;

/// The counts of the rows.
#[derive(Clone, Copy)]
pub struct TrialCounts {
    /// The findings.
    pub findings: u32,
    /// The data packets that the sums leave out.
    pub packets: u32,
    /// Their octets of user data.
    pub octets: u32,
}

impl TrialCounts {
    /// Returns counts that are all 0.
    fn none() -> Self
        ensures { result ≡ record { findings = 0; packets = 0; octets = 0 } }
    {
        TrialCounts {
            findings: 0,
            packets: 0,
            octets: 0,
        }
    }

    /// Counts a finding, if a row has one.
    fn count_finding(&mut self, found: bool)
        requires { self.old.findings + 1 < 2 ^ 32 }
        ensures { self.new ≡ record self.old {
          findings = self.old.findings + (if found then 1 else 0);
        } }
    {
        if found {
            self.findings += 1;
        }
    }

    /// Counts the user data of a row, where it was left out.
    fn count_data(&mut self, octets: Option<u32>)
        requires packets { self.old.packets + 1 < 2 ^ 32 }
        requires octets { self.old.octets + sum (option_to_list octets) < 2 ^ 32 }
        ensures { self.new ≡ record self.old {
          packets = self.old.packets + length (option_to_list octets);
          octets = self.old.octets + sum (option_to_list octets);
        } }
    {
        match octets {
            Some(octets) => {
                self.packets += 1;
                self.octets += octets;
            }
            None => {}
        }
    }
}

impl TrialCounts {
    /// Counts a row: what the restart machine found on it, and the events of the logical channel that it went to.
    fn count(
        &mut self,
        interface: &Interface,
        item: &ItemRef<'_>,
        finding: Option<Finding>,
        events: &[Event],
    )
        requires findings { self.old.findings + 1 < 2 ^ 32 }
        requires packets { self.old.packets + 1 < 2 ^ 32 }
        requires octets { self.old.octets + item.now.length < 2 ^ 32 }
        ensures findings { length (option_to_list finding ++ findings_of events.now) ≤ 1
            → self.new.findings ≡ self.old.findings
            + length (option_to_list finding ++ findings_of events.now) }
        ensures packets { self.new.packets ≡ self.old.packets
            + length (uncounted_in interface.now item.now events.now) }
        ensures octets { self.new.octets ≡ self.old.octets
            + sum (uncounted_in interface.now item.now events.now) }
    {
        self.count_finding(finding.is_some() || has_finding(events));
        self.count_data(octets_left_out(interface, item, events));
    }
}

/// Whether events have a finding.
fn has_finding(events: &[Event]) -> bool
    ensures { result ≡ has_some (findings_of events.now) }
{
    uncounted::has_finding(events)
}

/// The length of the user data of a row, where it is a data packet and its events count no data.
fn octets_left_out(interface: &Interface, item: &ItemRef<'_>, events: &[Event]) -> Option<u32>
    requires octets { item.now.length < 2 ^ 32 }
    ensures { option_to_list result ≡ uncounted_in interface.now item.now events.now }
{
    if uncounted::is_data(&item.packet) && !uncounted::counts_data(events) {
        return Some(item.length.saturating_sub(header_length(interface)) as u32);
    }
    None
}

/// The rows of a trace so far, under one header. It keeps the states of the logical channels and the counts, and no
/// finding or call.
#[derive(Drop)]
pub struct Trial<A: Allocator, C: Channel<A>> {
    walk: EpochWalk<A>,
    /// The logical channels that have rows in the epoch that goes on.
    channels: TriedChannels<A, C>,
    pub tally: TrialCounts,
    watch: Watch<A>,
}

impl<A: Allocator + Copy, C: Channel<A>> Trial<A, C> {
    /// Returns the trial of a header before the first row. Allocates no memory.
    pub fn new(alloc: A, header: &Interface) -> Self
        ensures { HasWalked C.Channel header.now [] result }
    {
        Trial {
            walk: EpochWalk::new(alloc, header),
            channels: TriedChannels::new(alloc),
            tally: TrialCounts::none(),
            watch: Watch::new(alloc),
        }
    }

    /// Returns the header.
    pub fn header(&self) -> Interface
        ensures { result ≡ self.now.walk.interface }
    {
        self.walk.interface
    }

    /// Returns how the DCE reacted.
    pub fn reactions(&self) -> Reactions
        ensures { result ≡ reactions_in self.now.watch }
    {
        self.watch.reactions()
    }

    /// Steps the logical channels that a row goes to, and returns what the row does to an owed indication, there or in
    /// the restart machine; `after` is that machine after the row. The caller lends the list `events`, which has the
    /// events of the row afterwards.
    fn apply(
        &mut self,
        effect: ChannelEffect,
        after: &Restart,
        item: &ItemRef<'_>,
        events: &mut Vec<Event, A>,
    ) -> Result<Reaction, Fault>
        requires item { IfSome (channel_in effect) (λ k. IsItem self.old.walk.interface k item.now) }
        requires gap { effect ≡ ToAll → self.old.walk.interface.gaps ≡ true }
        requires gaps { self.old.channels.gaps + 1 < 2 ^ 32 }
        requires channels { (states : ℕ → GapChannel)
            × AreChannels C.Channel self.old.walk.interface self.old.walk.start
            self.old.walk.epoch states self.old.channels }
        ensures walk { self.new.walk ≡ self.old.walk }
        ensures tally { self.new.tally ≡ self.old.tally }
        ensures watch { self.new.watch ≡ self.old.watch }
        ensures gaps { self.new.channels.gaps ≤ self.old.channels.gaps + 1 }
        ensures channels { (states : ℕ → GapChannel)
            → AreChannels C.Channel self.old.walk.interface self.old.walk.start
            self.old.walk.epoch states self.old.channels
            → OnOk result (AreChannels C.Channel self.old.walk.interface self.old.walk.start
            self.old.walk.epoch (states_after effect self.old.walk.interface states item.now) self.new.channels) }
        ensures events { (states : ℕ → GapChannel)
            → AreChannels C.Channel self.old.walk.interface self.old.walk.start
            self.old.walk.epoch states self.old.channels
            → OnOk result (events.new.items ≡ events_after effect self.old.walk.interface
            self.old.walk.epoch states item.now) }
        ensures reaction { (states : ℕ → GapChannel)
            → AreChannels C.Channel self.old.walk.interface self.old.walk.start
            self.old.walk.epoch states self.old.channels
            → IfOk result (λ reaction. reaction ≡ reaction_on effect self.old.walk.interface
            self.old.walk.machine after.now states item.now) }
        ensures memory { IfErr result (λ fault. fault ≡ Memory) }
    {
        events.clear();
        match effect {
            ChannelEffect::ToChannel(channel) => self
                .channels
                .step(&self.walk, channel, item, events),
            ChannelEffect::ToAll => {
                self.channels.take_gap();
                Ok(reactions::restart_reaction(&self.walk.machine, after, item))
            }
            _ => Ok(reactions::restart_reaction(&self.walk.machine, after, item)),
        }
    }

    /// Makes all logical channels fresh where a further epoch begins.
    fn renew(&mut self, epoch: u32)
        ensures walk { self.new.walk ≡ self.old.walk }
        ensures tally { self.new.tally ≡ self.old.tally }
        ensures watch { self.new.watch ≡ self.old.watch }
        ensures same { epoch ≡ self.old.walk.epoch → self.new.channels ≡ self.old.channels }
        ensures renewed { epoch ≢ self.old.walk.epoch → self.new.channels ≡ no_channels }
    {
        if epoch != self.walk.epoch {
            self.channels = TriedChannels::new(*self.walk.findings.allocator());
        }
    }

    /// Walks the next row. Fails only when memory is refused; drop the trial then.
    pub fn take(&mut self, row: &ReadRow<A>, events: &mut Vec<Event, A>) -> Result<(), Fault>
        requires next { MayWalk C.Channel row.now self.old }
        ensures walked { (i : AnyInterface) (rows : List records.Item)
            → HasWalked C.Channel i rows self.old → AreItems i (rows ++ item_read i row.now ∷ [])
            → OnOk result (HasWalked C.Channel i (rows ++ item_read i row.now ∷ []) self.new) }
        ensures memory { IfErr result (λ fault. fault ≡ Memory) }
    {
        let item = item_of_row(&self.walk.interface, row);
        let step = self.walk.step(&item)?;
        let reaction = self.apply(step.effect, &step.machine, &item, events)?;
        self.tally.count(&self.walk.interface, &item, step.finding, events.as_slice());
        self.watch.take(step.effect, reaction)?;
        self.renew(step.epoch);
        self.walk.advance(step);
        self.walk.findings.clear();
        Ok(())
    }
}
