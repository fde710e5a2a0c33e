//! The logical channels that have rows in the epoch that has not ended.

ghost use Rattle.std.specs.Prelude.{◌≡◌, ℕ, ◌<◌, List, ◌++◌, ◌∷◌, [], IfErr, IfOk, OnOk, length};
ghost use Rattle.line_model.specs.basics.Bounds.{IsPiece};
ghost use Rattle.line_model.specs.basics.Records.{Item};
ghost use Rattle.line_model.specs.declared.fault.Fault.TheVariants.{Memory};
ghost use Rattle.line_model.specs.packets.Says.{gap_item};
ghost use Rattle.line_model.specs.pieces.Plans.{result_of};
ghost use Rattle.restart_epochs.specs.ChannelTables.{no_open_channels, HasListed};
ghost use Rattle.restart_epochs.specs.OpenRows.{OpenRows, rows_of, with_gap, HasMore};
ghost use Rattle.channel_run.specs.Live.{channel_so_far};
ghost use Rattle.channel_run.specs.Run.{row_events};
ghost use Rattle.live_report.specs.AddedPieces.{ArePieces};
ghost use Rattle.live_report.specs.OpenChannels.{ChannelsRepresent, OpenEpoch, OfOpenChannel, IsOpenFor, IsOut, begun_piece, ended_piece, FindsOn};
ghost use Rattle.live_report.specs.JudgedRows.{IsTaker};
ghost use Rattle.live_report.specs.Effects.{OfOpenChannels, TakesOn, epoch_of, reached_piece, with_data};

use crate::judged_row::{Judge, RowOutcome};
use channel_run::live::LiveChannel;
use channel_run::run::Channel;
use line_model::event::Event;
use line_model::fault::Fault;
use line_model::items::ItemRef;
use line_model::piece::{PieceEnd, PieceReport};
use restart_epochs::channel_table::ChannelTable;
use restart_epochs::walk::EpochWalk;
use std::alloc::Allocator;
use std::boxed::Box;

/// A logical channel that has rows in the open epoch. A gap of all channels is applied to it before its next row, or as
/// the epoch ends.
#[derive(Drop)]
pub struct OpenChannel<A: Allocator, C: Channel<A>> {
    pub(crate) live: LiveChannel<A, C>,
    /// The number of the last row that stepped it, or 0.
    last: u32,
}

impl<A: Allocator + Copy, C: Channel<A>> OpenChannel<A, C> {
    /// Steps the channel by the last gap of all channels of the epoch, where it has had no row since. Fails only when
    /// memory is refused.
    #[inline(always)]
    fn take_gap(&mut self, gap: u32, events: &mut Vec<Event, A>) -> Result<(), Fault>
        requires room { (e : OpenEpoch) × (k : ℕ) × (items : List Item)
            × IsOpenFor C.Channel e k items self.old
            × IsPiece e.interface k (with_gap gap items) }
        ensures represented { (e : OpenEpoch) (k : ℕ) (items : List Item)
            → IsOpenFor C.Channel e k items self.old
            → IsPiece e.interface k (with_gap gap items)
            → OnOk result (IsOpenFor C.Channel e k (with_gap gap items) self.new) }
        ensures memory { IfErr result (λ fault. fault ≡ Memory) }
    {
        if self.last < gap {
            return self.step_over(gap, events);
        }
        Ok(())
    }

    /// Steps the channel by a gap of all channels.
    #[inline(never)]
    fn step_over(&mut self, gap: u32, events: &mut Vec<Event, A>) -> Result<(), Fault>
        requires room { (e : OpenEpoch) × (k : ℕ) × (items : List Item)
            × IsOpenFor C.Channel e k items self.old
            × IsPiece e.interface k (items ++ gap_item gap ∷ []) }
        ensures represented { (e : OpenEpoch) (k : ℕ) (items : List Item)
            → IsOpenFor C.Channel e k items self.old
            → IsPiece e.interface k (items ++ gap_item gap ∷ [])
            → OnOk result (IsOpenFor C.Channel e k (items ++ gap_item gap ∷ []) self.new) }
        ensures memory { IfErr result (λ fault. fault ≡ Memory) }
    {
        self.live.take(&ItemRef::gap_of_all(gap), events)?;
        self.last = gap;
        Ok(())
    }

    /// Steps the channel by its next row, after the last gap of all channels of the epoch, and returns what came of it.
    /// The list has the row's events, except that of accepted data with Q 0. Fails only when memory is refused.
    #[inline(always)]
    fn step(
        &mut self,
        gap: u32,
        channel: u16,
        item: &ItemRef<'_>,
        events: &mut Vec<Event, A>,
    ) -> Result<RowOutcome, Fault>
        requires room { (e : OpenEpoch) × (items : List Item)
            × IsOpenFor C.Channel e channel items self.old
            × IsPiece e.interface channel (with_gap gap items)
            × IsPiece e.interface channel (with_gap gap items ++ item.now ∷ []) }
        ensures represented { OfOpenChannel C.Channel channel gap self.old (λ e items.
            IsPiece e.interface channel (items ++ item.now ∷ [])
            → OnOk result (IsOpenFor C.Channel e channel (items ++ item.now ∷ []) self.new)) }
        ensures judge { OfOpenChannel C.Channel channel gap self.old (λ e items.
            IsPiece e.interface channel (items ++ item.now ∷ [])
            → IfOk result (λ row. IsTaker e.interface channel (channel_so_far (begun_piece e channel items))
            (channel_so_far (begun_piece e channel (items ++ item.now ∷ []))) row.judge)) }
        ensures finding { OfOpenChannel C.Channel channel gap self.old (λ e items.
            IfOk result (λ row. FindsOn (begun_piece e channel items) item.now row.finding)) }
        ensures events { OfOpenChannel C.Channel channel gap self.old (λ e items.
            IfOk result (λ row. with_data e.number row.judge item.now events.new.items
            ≡ row_events e.interface e.number channel (channel_so_far (begun_piece e channel items)) item.now)) }
        ensures memory { IfErr result (λ fault. fault ≡ Memory) }
    {
        self.take_gap(gap, events)?;
        let before = self.live.word();
        let taken = self.live.take(item, events)?;
        let after = self.live.word();
        self.last = item.number;
        Ok(RowOutcome {
            judge: Judge::Channel {
                channel,
                before,
                after,
                accepted: taken.accepted,
            },
            finding: taken.finding,
        })
    }

    /// Returns the result of the channel as its epoch ends, in which the last gap of all channels has this number.
    /// Fails only when memory is refused.
    pub(crate) fn end(
        mut entry: Box<Self, A>,
        gap: u32,
        events: &mut Vec<Event, A>,
        id: u32,
        end: Option<PieceEnd>,
    ) -> Result<PieceReport<A>, Fault>
        requires room { (e : OpenEpoch) × (k : ℕ) × (items : List Item)
            × IsOpenFor C.Channel e k items entry.value
            × IsPiece e.interface k (with_gap gap items) }
        ensures value { IfOk result (λ report. (e : OpenEpoch) (k : ℕ) (items : List Item)
            → IsOpenFor C.Channel e k items entry.value
            → IsPiece e.interface k (with_gap gap items)
            → report ≡ result_of (ended_piece id e end k (with_gap gap items))) }
        ensures memory { IfErr result (λ fault. fault ≡ Memory) }
    {
        entry.take_gap(gap, events)?;
        Box::into_inner(entry).live.end(id, end)
    }
}

/// The logical channels that have rows in the open epoch.
#[derive(Drop)]
pub struct OpenChannels<A: Allocator, C: Channel<A>> {
    pub(crate) table: ChannelTable<OpenChannel<A, C>, A>,
    /// The number of the last gap of all channels in the epoch; 0 where there was none.
    pub(crate) gap: u32,
}

impl<A: Allocator + Copy, C: Channel<A>> OpenChannels<A, C> {
    /// Returns a value in which no channel has a row. Allocates nothing.
    pub fn new(alloc: A) -> Self
        ensures table { result.table ≡ no_open_channels }
        ensures gap { result.gap ≡ 0 }
    {
        OpenChannels {
            table: ChannelTable::new(alloc),
            gap: 0,
        }
    }

    /// Removes and returns a channel of the table, and begins one where the channel has no rows in this epoch.
    #[inline(always)]
    fn take_out(
        &mut self,
        alloc: A,
        walk: &EpochWalk<A>,
        channel: u16,
    ) -> Result<Box<OpenChannel<A, C>, A>, Fault>
        ensures out { OfOpenChannels C.Channel walk.now self.old (λ rows.
            IfOk result (λ entry. IsOut C.Channel (epoch_of walk.now) channel rows entry.value self.new)) }
        ensures gap { OnOk result (self.new.gap ≡ self.old.gap) }
        ensures room { OnOk result (channel < length self.new.table.open_channels) }
        ensures memory { IfErr result (λ fault. fault ≡ Memory) }
    {
        if let Some(entry) = self.table.take(channel) {
            return Ok(entry);
        }
        self.begin(alloc, walk, channel)
    }

    /// Begins a channel that is not in the table, and lists it.
    #[inline(never)]
    fn begin(
        &mut self,
        alloc: A,
        walk: &EpochWalk<A>,
        channel: u16,
    ) -> Result<Box<OpenChannel<A, C>, A>, Fault>
        ensures listed { OnOk result (HasListed channel self.old.table self.new.table) }
        ensures fresh { IfOk result (λ entry. IsOpenFor C.Channel (epoch_of walk.now) channel [] entry.value) }
        ensures gap { OnOk result (self.new.gap ≡ self.old.gap) }
        ensures memory { IfErr result (λ fault. fault ≡ Memory) }
    {
        self.table.list(channel)?;
        let live = LiveChannel::fresh(alloc, &walk.interface, channel, walk.epoch, walk.start)?;
        let entry = Box::new(alloc, OpenChannel { live, last: 0 })?;
        Ok(entry)
    }

    /// Steps a channel by its next row, and returns what came of it. The list has the row's events, except that of
    /// accepted data with Q 0. Fails only when memory is refused.
    #[inline(always)]
    pub fn step(
        &mut self,
        walk: &EpochWalk<A>,
        channel: u16,
        item: &ItemRef<'_>,
        events: &mut Vec<Event, A>,
    ) -> Result<RowOutcome, Fault>
        requires room { (rows : OpenRows) × ChannelsRepresent C.Channel (epoch_of walk.now) rows self.old
            × ArePieces (epoch_of walk.now) self.old.gap rows
            × IsPiece walk.now.interface channel (with_gap self.old.gap (rows_of rows channel) ++ item.now ∷ []) }
        ensures gap { OnOk result (self.new.gap ≡ self.old.gap) }
        ensures represented { OfOpenChannels C.Channel walk.now self.old (λ rows. (after : OpenRows)
            → HasMore self.old.gap channel item.now rows after
            → IsPiece walk.now.interface channel (rows_of after channel)
            → OnOk result (ChannelsRepresent C.Channel (epoch_of walk.now) after self.new)) }
        ensures judge { OfOpenChannels C.Channel walk.now self.old (λ rows. (after : OpenRows)
            → HasMore self.old.gap channel item.now rows after
            → IsPiece walk.now.interface channel (rows_of after channel)
            → IfOk result (λ row. TakesOn walk.now self.old.gap channel rows after row.judge)) }
        ensures finding { OfOpenChannels C.Channel walk.now self.old (λ rows.
            IfOk result (λ row. FindsOn (reached_piece walk.now self.old.gap channel rows) item.now row.finding)) }
        ensures events { OfOpenChannels C.Channel walk.now self.old (λ rows.
            IfOk result (λ row. with_data walk.now.epoch row.judge item.now events.new.items
            ≡ row_events walk.now.interface walk.now.epoch channel
            (channel_so_far (reached_piece walk.now self.old.gap channel rows)) item.now)) }
        ensures memory { IfErr result (λ fault. fault ≡ Memory) }
    {
        let alloc = *events.allocator();
        let mut entry = self.take_out(alloc, walk, channel)?;
        let outcome = entry.step(self.gap, channel, item, events)?;
        self.table.put(channel, entry);
        Ok(outcome)
    }
}
