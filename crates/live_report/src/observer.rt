//! The observer that runs: it walks a trace row by row, and keeps what it found, not what it read.

ghost use Rattle.std.specs.Prelude.{◌≡◌, ℕ, ◌<◌, ◌≤◌, ◌+◌, ◌-◌, ◌^◌, ◌++◌, ◌∷◌, [], None, Some, true, List, length, map, IfErr, IfOk, MatchOption, OnOk, cond, is_some};
ghost use Rattle.line_model.specs.basics.Records as records;
ghost use Rattle.line_model.specs.declared.fault.Fault.TheVariants.{Memory};
ghost use Rattle.line_model.specs.declared.interface.Interface.{Interface as AnyInterface};
ghost use Rattle.line_model.specs.packets.Says.{gap_of, item_read};
ghost use Rattle.line_model.specs.pieces.Plans.{end_at, result_of};
ghost use Rattle.restart_epochs.specs.OpenRows.{OpenRows};
ghost use Rattle.restart_epochs.specs.Walks.{step_to, IsStep};
ghost use Rattle.restart_epochs.specs.Cutting.{Cutting, ended_by, gap_by_effect, observer, HasEffect};
ghost use Rattle.report_merge.specs.Gathered.{gathered};
ghost use Rattle.live_report.specs.OpenChannels.{ChannelsRepresent};
ghost use Rattle.live_report.specs.JudgedRows.{IsJudgedRow, judged_row};
ghost use Rattle.live_report.specs.Uncounted.{AreFew, uncounted_of};
ghost use Rattle.live_report.specs.declared.judged_row.Judge.TheVariants.{Restart};
ghost use Rattle.live_report.specs.Effects.{FindsBy, HasEvents, JudgesBy, MayAffect, OfOpen, RepresentsAt, epoch_of, with_data};
ghost use Rattle.live_report.specs.Observing.{HasKept, HasWalked, IsHolding, IsObserver, MayWalk, ReturnsFinding, ReturnsReport, WalksOn};

use crate::ending::end_channels;
use crate::judged_row::{Judge, JudgedRow, RowOutcome};
use crate::open_channels::OpenChannels;
use crate::reporting::report_channels;
use crate::row_ref::RowRef;
use crate::uncounted::Uncounted;
use channel_run::run::Channel;
use line_model::event::Event;
use line_model::fault::Fault;
use line_model::finding::Finding;
use line_model::interface::Interface;
use line_model::items::ItemRef;
use line_model::report::Report;
use line_model::row::{ReadRow, said_octets};
use line_model::state::RState;
use report_merge::parts::Parts;
use report_merge::row_counts::RowCounts;
use restart_epochs::parts::end_at;
use restart_epochs::walk::{ChannelEffect, EpochWalk, Step, is_gap};
use std::alloc::Allocator;

/// An observer of an interface, and what it found so far.
#[derive(Drop)]
pub struct Observer<A: Allocator, C: Channel<A>> {
    walk: EpochWalk<A>,
    /// The results of the pieces whose epochs have ended.
    ended: Parts<A>,
    /// The channels that have rows in the epoch that has not ended.
    open_channels: OpenChannels<A, C>,
    /// Whether it keeps each row as it was judged, with its events.
    pub(crate) keeps_rows: bool,
    /// The row that was read last, as it was judged, where rows are kept.
    last: Option<JudgedRow>,
    /// The events of the last row of a channel; where no rows are kept, without that of accepted data with Q 0.
    events: Vec<Event, A>,
    /// The data of the rows that was not counted.
    uncounted: Uncounted,
}

/// What came of a row that goes to no channel, which the restart machine judged in a state.
fn judged_on_level(before: RState, step: &Step) -> RowOutcome
    ensures { result ≡ record {
      judge = Restart before step.now.machine.level.state;
      finding = step.now.finding;
    } }
{
    RowOutcome {
        judge: Judge::Restart {
            before,
            after: step.machine.state(),
        },
        finding: step.finding,
    }
}

impl<A: Allocator + Copy, C: Channel<A>> OpenChannels<A, C> {
    /// Steps the channel that a row goes to, or ends the channels that it ends, and returns what came of it. Fails only
    /// when memory is refused.
    #[inline(always)]
    fn apply(
        &mut self,
        walk: &EpochWalk<A>,
        ended: &mut Parts<A>,
        events: &mut Vec<Event, A>,
        step: &Step,
        item: &ItemRef<'_>,
    ) -> Result<RowOutcome, Fault>
        requires room { (rows : OpenRows) × (reports : List records.PieceReport)
            × RepresentsAt C.Channel walk.now rows self.old × (ended.old ≡ gathered reports)
            × MayAffect step.now.effect walk.now.interface self.old.gap item.now rows }
        requires pieces { ended.old.pieces + length self.old.table.channels < 2 ^ 32 }
        ensures gap { OnOk result (self.new.gap ≡ gap_by_effect step.now.effect item.now self.old.gap) }
        ensures open_channels { OfOpen C.Channel walk.now self.old (λ rows. (after : OpenRows)
            → MayAffect step.now.effect walk.now.interface self.old.gap item.now rows
            → HasEffect step.now.effect item.now self.old.gap rows after
            → OnOk result (ChannelsRepresent C.Channel (epoch_of walk.now) after self.new)) }
        ensures ended { OfOpen C.Channel walk.now self.old (λ rows. (reports : List records.PieceReport)
            → ended.old ≡ gathered reports
            → OnOk result (ended.new ≡ gathered (reports ++ map result_of (ended_by step.now.effect
            walk.now.interface walk.now.epoch walk.now.start (end_at item.now) (length reports)
            self.old.gap rows)))) }
        ensures judge { OfOpen C.Channel walk.now self.old (λ rows. (after : OpenRows)
            → MayAffect step.now.effect walk.now.interface self.old.gap item.now rows
            → HasEffect step.now.effect item.now self.old.gap rows after
            → IfOk result (λ row. JudgesBy step.now.effect walk.now self.old.gap step.now.machine rows after row.judge)) }
        ensures finding { OfOpen C.Channel walk.now self.old (λ rows.
            IfOk result (λ row. FindsBy step.now walk.now self.old.gap rows item.now row.finding)) }
        ensures events { OfOpen C.Channel walk.now self.old (λ rows.
            IfOk result (λ row. HasEvents step.now.effect walk.now self.old.gap rows item.now
            (with_data walk.now.epoch row.judge item.now events.new.items))) }
        ensures memory { IfErr result (λ fault. fault ≡ Memory) }
    {
        match step.effect {
            ChannelEffect::ToChannel(channel) => self.step(walk, channel, item, events),
            ChannelEffect::ToAll => {
                self.gap = item.number;
                Ok(judged_on_level(walk.machine.state(), step))
            }
            ChannelEffect::Ends => {
                let alloc = *events.allocator();
                end_channels(alloc, Some(end_at(item)), self, ended)?;
                Ok(judged_on_level(walk.machine.state(), step))
            }
            ChannelEffect::Stays => Ok(judged_on_level(walk.machine.state(), step)),
        }
    }
}

/// Returns the counts of a walk's rows.
fn row_counts<A: Allocator>(walk: &EpochWalk<A>) -> RowCounts
    requires { walk.now.gaps ≤ walk.now.packets }
    ensures packets { result.packets ≡ walk.now.packets - walk.now.gaps }
    ensures gaps { result.gaps ≡ cond walk.now.interface.gaps (Some walk.now.gaps) None }
{
    RowCounts {
        packets: walk.packets - walk.gaps,
        gaps: if walk.interface.gaps {
            Some(walk.gaps)
        } else {
            None
        },
    }
}

impl<A: Allocator + Copy, C: Channel<A>> Observer<A, C> {
    /// Returns an observer before the first row, which keeps the row that it read last, or none. Allocates nothing.
    pub fn new(alloc: A, interface: &Interface, keeps_rows: bool) -> Self
        ensures walked { HasWalked C.Channel interface.now [] result }
        ensures keeps { result.keeps_rows ≡ keeps_rows }
    {
        Observer {
            walk: EpochWalk::new(alloc, interface),
            ended: Parts::new(alloc),
            open_channels: OpenChannels::new(alloc),
            keeps_rows,
            last: None,
            events: Vec::new(alloc),
            uncounted: Uncounted::none(),
        }
    }

    /// Returns the number of the current epoch, counted from 1.
    pub fn epoch(&self) -> u32
        ensures kept { result ≡ self.now.walk.epoch }
        ensures walked { (i : AnyInterface) (rows : List records.Item)
            → HasWalked C.Channel i rows self.now → result ≡ (observer i rows).epoch }
    {
        self.walk.epoch
    }

    /// Returns how many rows were read; a gap is one of them.
    pub fn packets(&self) -> u32
        ensures kept { result ≡ self.now.walk.packets }
        ensures walked { (i : AnyInterface) (rows : List records.Item)
            → HasWalked C.Channel i rows self.now → result ≡ length rows }
    {
        self.walk.packets
    }

    /// Returns the row that was read last, as it was judged; none before the first row, and where no rows are kept.
    pub fn last_row(&self) -> Option<&JudgedRow>
        ensures { (i : AnyInterface) (before : List records.Item) (row : records.Item)
            → HasKept C.Channel i (before ++ row ∷ []) self.now
            → MatchOption result ⊥ (λ last. IsJudgedRow i before row last.now self.now.events.items) }
    {
        self.last.as_ref()
    }

    /// Returns the events of the last row that went to a channel, where rows are kept.
    pub fn events(&self) -> &[Event]
        ensures { result.now ≡ self.now.events.items }
    {
        self.events.as_slice()
    }

    /// Returns the data of the rows that was not counted, and why.
    pub fn uncounted(&self) -> Uncounted
        ensures kept { result ≡ self.now.uncounted }
        ensures walked { (i : AnyInterface) (rows : List records.Item)
            → HasWalked C.Channel i rows self.now → result ≡ uncounted_of i rows }
    {
        self.uncounted
    }

    /// Reads the next row, and returns what it finds. Fails only when memory is refused; drop the observer then.
    pub fn take(&mut self, row: &ReadRow<A>) -> Result<Option<Finding>, Fault>
        requires room { MayWalk C.Channel self.old (λ i. item_read i row.now ∷ []) }
        // Of any rows that it read: it represents them and this one.
        ensures represented { WalksOn C.Channel self.old (λ i. item_read i row.now) self.new result }
        // What was found comes after all that was found before.
        ensures finding { ReturnsFinding C.Channel self.old (λ i. item_read i row.now) result }
        ensures keeps { self.new.keeps_rows ≡ self.old.keeps_rows }
        ensures memory { IfErr result (λ fault. fault ≡ Memory) }
    {
        self.take_row(RowRef {
            number: row.number,
            side: row.side,
            length: row.length,
            octets: row.octets.as_slice(),
            gap: row.gap,
        })
    }

    /// Reads the next row by a reference to its octets, as `take` does.
    pub(crate) fn take_row(&mut self, row: RowRef<'_>) -> Result<Option<Finding>, Fault>
        requires room { MayWalk C.Channel self.old (λ i. item_read i row ∷ []) }
        ensures represented { WalksOn C.Channel self.old (λ i. item_read i row.entry) self.new result }
        ensures finding { ReturnsFinding C.Channel self.old (λ i. item_read i row.entry) result }
        ensures keeps { self.new.keeps_rows ≡ self.old.keeps_rows }
        ensures memory { IfErr result (λ fault. fault ≡ Memory) }
    {
        let packet = row.packet(&self.walk.interface);
        self.take_item(&ItemRef {
            number: row.number,
            side: row.side,
            packet,
            length: row.length,
            octets: said_octets(row.octets),
        })
    }

    /// Reads the next row by what it says, as `take` does.
    fn take_item(&mut self, item: &ItemRef<'_>) -> Result<Option<Finding>, Fault>
        requires room { MayWalk C.Channel self.old (λ _. item.now ∷ []) }
        ensures represented { WalksOn C.Channel self.old (λ _. item.now) self.new result }
        ensures finding { ReturnsFinding C.Channel self.old (λ _. item.now) result }
        ensures keeps { self.new.keeps_rows ≡ self.old.keeps_rows }
        ensures memory { IfErr result (λ fault. fault ≡ Memory) }
    {
        match self.walk.channel_of(item) {
            Some(channel) => self.take_on_channel(channel, item),
            None => self.take_by_machine(item),
        }
    }

    /// Reads a row that goes to a logical channel, as `take` does.
    #[inline(always)]
    fn take_on_channel(
        &mut self,
        channel: u16,
        item: &ItemRef<'_>,
    ) -> Result<Option<Finding>, Fault>
        requires room { MayWalk C.Channel self.old (λ _. item.now ∷ []) }
        requires step { IsStep self.old.walk.machine self.old.walk.epoch item.now (step_to channel self.old.walk item.now) }
        ensures represented { WalksOn C.Channel self.old (λ _. item.now) self.new result }
        ensures finding { ReturnsFinding C.Channel self.old (λ _. item.now) result }
        ensures keeps { self.new.keeps_rows ≡ self.old.keeps_rows }
        ensures memory { IfErr result (λ fault. fault ≡ Memory) }
    {
        let outcome = self
            .open_channels
            .step(&self.walk, channel, item, &mut self.events)?;
        self.keep(&outcome, item)?;
        self.count_on_channel(item);
        Ok(outcome.finding)
    }

    /// Counts a row that goes to a logical channel.
    #[inline(always)]
    fn count_on_channel(&mut self, item: &ItemRef<'_>)
        requires packets { self.old.walk.packets + 1 < 2 ^ 32 }
        requires gaps { self.old.walk.gaps + 1 < 2 ^ 32 }
        ensures { self.new ≡ record self.old {
          walk = record self.old.walk {
            packets = self.old.walk.packets + 1;
            gaps = self.old.walk.gaps + cond (is_some (gap_of item.now.packet)) 1 0;
          };
        } }
    {
        self.walk.packets += 1;
        if is_gap(&item.packet) {
            self.walk.gaps += 1;
        }
    }

    /// Reads a row by the restart machine, as `take` does.
    #[inline(never)]
    fn take_by_machine(&mut self, item: &ItemRef<'_>) -> Result<Option<Finding>, Fault>
        requires room { MayWalk C.Channel self.old (λ _. item.now ∷ []) }
        ensures represented { WalksOn C.Channel self.old (λ _. item.now) self.new result }
        ensures finding { ReturnsFinding C.Channel self.old (λ _. item.now) result }
        ensures keeps { self.new.keeps_rows ≡ self.old.keeps_rows }
        ensures memory { IfErr result (λ fault. fault ≡ Memory) }
    {
        let step = self.walk.step(item)?;
        let judged = self
            .open_channels
            .apply(&self.walk, &mut self.ended, &mut self.events, &step, item)?;
        self.keep(&judged, item)?;
        self.walk.advance(step);
        Ok(judged.finding)
    }

    /// Counts the data of a row that was not counted. Where rows are kept, keeps the row as it was judged, and lists the
    /// event of accepted data with Q 0. Fails only when memory is refused.
    #[inline(always)]
    fn keep(&mut self, outcome: &RowOutcome, item: &ItemRef<'_>) -> Result<(), Fault>
        ensures rest { OnOk result (self.new
            ≡ record self.old { last = self.new.last; events = self.new.events; uncounted = self.new.uncounted }) }
        ensures uncounted { (i : AnyInterface) (epoch : ℕ) (earlier : List records.Item)
            → IsJudgedRow i earlier item.now (judged_row item.now outcome.now)
            (with_data epoch outcome.now.judge item.now self.old.events.items)
            → self.old.walk.interface ≡ i → AreFew (earlier ++ item.now ∷ [])
            → self.old.uncounted ≡ uncounted_of i earlier
            → OnOk result (self.new.uncounted ≡ uncounted_of i (earlier ++ item.now ∷ [])) }
        ensures last { self.old.keeps_rows ≡ true → OnOk result (self.new.last ≡ Some (judged_row item.now outcome.now)) }
        ensures events { self.old.keeps_rows ≡ true → OnOk result (self.new.events.items
            ≡ with_data self.old.walk.epoch outcome.now.judge item.now self.old.events.items) }
        ensures keeps { self.new.keeps_rows ≡ self.old.keeps_rows }
        ensures memory { IfErr result (λ fault. fault ≡ Memory) }
    {
        self.uncounted.take(&self.walk.interface, item, outcome, self.events.as_slice());
        if !self.keeps_rows {
            return Ok(());
        }
        outcome
            .judge
            .list_accepted(self.walk.epoch, item, &mut self.events)?;
        let row = outcome.row(item);
        self.last = Some(row);
        Ok(())
    }

    /// Returns the report of the rows that were read so far, by copies: the observer goes on. Fails only when memory is
    /// refused.
    pub fn report(&self) -> Result<Report<A>, Fault>
        requires room { IsObserver C.Channel self.now }
        ensures report { ReturnsReport C.Channel self.now result }
        ensures memory { IfErr result (λ fault. fault ≡ Memory) }
    {
        let alloc = *self.walk.findings.allocator();
        let findings = Vec::from_slice(alloc, self.walk.findings.as_slice())?;
        let mut parts = self.ended.copy()?;
        report_channels(alloc, &self.open_channels, &mut parts)?;
        parts.finish(findings, row_counts(&self.walk))
    }

    /// Returns the report of the rows that were read. Fails only when memory is refused.
    pub fn end(self) -> Result<Report<A>, Fault>
        requires room { IsObserver C.Channel self }
        ensures report { ReturnsReport C.Channel self result }
        ensures memory { IfErr result (λ fault. fault ≡ Memory) }
    {
        let Observer {
            walk,
            mut ended,
            mut open_channels,
            ..
        } = self;
        let alloc = *walk.findings.allocator();
        end_channels(alloc, None, &mut open_channels, &mut ended)?;
        let rows = row_counts(&walk);
        ended.finish(walk.findings, rows)
    }
}
