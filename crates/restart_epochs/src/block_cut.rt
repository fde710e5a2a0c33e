//! Rows that are cut by epoch and logical channel apart from the rows before them.

ghost use Rattle.std.specs.Prelude.{◌≡◌, ◌+◌, ◌<◌, ◌++◌, ◌∷◌, ◌==◌, ◌^◌, [], List, IfOk, IfSome, OnOk, cond};
ghost use Rattle.line_model.specs.basics.Records as records;
ghost use Rattle.line_model.specs.channels.GapRestart.{GapInterfaceState};
ghost use Rattle.restart_epochs.specs.BlockStates.{HasBlockEffect, IsBlockCut, IsCutSoFar};

use crate::parts::{EndedRows, Part, end_at};
use crate::restart::Restart;
use crate::rows_by_channel::RowsByChannel;
use crate::walk::{ChannelEffect, EpochWalk};
use line_model::interface::Interface;
use line_model::items::ItemRef;
use std::alloc::{AllocError, Allocator, Global};

/// The rows of a block by epoch and logical channel. The first of its epochs may have begun before the block, and the
/// last may go on after it.
///
/// ```text
///  rows   7 ch 1 │ 8 restart │ 9 confirm │ 10 ch 1 │ 11 ch 2 │ 12 restart │ 13 confirm │ 14 ch 2
///
///  ended  epoch 0, end 8: 7 ch 1      epoch 1, end 12: 10 ch 1, 11 ch 2
///  tail   14 ch 2
/// ```
#[derive(Drop)]
pub struct BlockCut<A: Allocator = Global> {
    /// The walk over the block, which began with the restart machine of the rows before; its epochs are counted from 0.
    pub(crate) walk: EpochWalk<A>,
    pub(crate) ended: Vec<EndedRows<A>, A>,
    /// The rows of the epoch that is open after the block.
    pub(crate) tail: Vec<Part<A>, A>,
    /// The number of the last gap of all channels in that epoch, or 0.
    pub(crate) gap: u32,
    /// The number of the last row, or 0.
    pub(crate) last: u32,
    pub(crate) octets: u32,
}

impl<A: Allocator> BlockCut<A> {
    /// Returns the number of the last row after one of this number and the rows of the block.
    pub(crate) fn last_after(&self, before: u32) -> u32
        ensures { result ≡ cond (self.now.walk.packets == 0) before self.now.last }
    {
        if self.walk.packets == 0 {
            before
        } else {
            self.last
        }
    }
}

/// Cuts the rows of a block apart from the rows before them.
#[derive(Drop)]
pub struct BlockCutter<A: Allocator = Global> {
    walk: EpochWalk<A>,
    ended: Vec<EndedRows<A>, A>,
    /// The rows of the epoch that is open.
    rows: RowsByChannel<A>,
    /// The number of its last gap of all channels, or 0.
    gap: u32,
    last: u32,
    octets: u32,
}

impl<A: Allocator + Copy> BlockCutter<A> {
    /// Returns a cutter before the first row of a block, with the restart machine of the rows before it. It uses these
    /// lists again, and allocates nothing.
    pub fn new(alloc: A, interface: &Interface, machine: Restart, lists: RowsByChannel<A>) -> Self
        ensures { IsCutSoFar machine [] result }
    {
        BlockCutter {
            walk: EpochWalk::of_block(alloc, interface, machine),
            ended: Vec::new(alloc),
            rows: lists.emptied(),
            gap: 0,
            last: 0,
            octets: 0,
        }
    }

    /// Returns the octets with those of one more row. `None` where a count would overflow its type.
    fn octets_with(&self, item: &ItemRef<'_>) -> Option<u32>
        ensures { IfSome result (λ octets. (octets ≡ self.now.octets + item.now.length)
            × (self.now.walk.epoch + 1 < 2 ^ 32) × (self.now.walk.packets + 1 < 2 ^ 32)
            × (self.now.walk.gaps + 1 < 2 ^ 32)) }
    {
        let walk = &self.walk;
        if walk.epoch == u32::MAX || walk.packets == u32::MAX || walk.gaps == u32::MAX {
            return None;
        }
        let length = u32::try_from(item.length).ok()?;
        self.octets.checked_add(length)
    }

    /// Keeps a row that goes to a channel, and ends the epoch where a row does.
    fn apply(&mut self, effect: ChannelEffect, item: &ItemRef<'_>) -> Result<(), AllocError>
        ensures { OnOk result (HasBlockEffect effect item.now self.old self.new) }
    {
        match effect {
            ChannelEffect::ToChannel(channel) => self.rows.push(self.gap, channel, item),
            ChannelEffect::ToAll => {
                self.gap = item.number;
                Ok(())
            }
            ChannelEffect::Ends => {
                let ended = EndedRows {
                    parts: self.rows.take_parts()?,
                    gap: self.gap,
                    epoch: self.walk.epoch,
                    start: self.walk.start,
                    end: end_at(item),
                };
                self.ended.push(ended)?;
                self.gap = 0;
                Ok(())
            }
            ChannelEffect::Stays => Ok(()),
        }
    }

    /// Reads the next row. Fails when memory is refused, or a count would overflow its type; drop the cutter then.
    pub fn push(&mut self, item: &ItemRef<'_>) -> Result<(), AllocError>
        ensures { (l : GapInterfaceState) (items : List records.Item) → IsCutSoFar l items self.old
            → OnOk result (IsCutSoFar l (items ++ item.now ∷ []) self.new) }
    {
        let Some(octets) = self.octets_with(item) else {
            return Err(AllocError);
        };
        let step = self.walk.step(item)?;
        self.apply(step.effect, item)?;
        self.walk.advance(step);
        self.last = item.number;
        self.octets = octets;
        Ok(())
    }

    /// Returns the rows as they were cut, and the lists for the next cutter. Fails only when memory is refused.
    pub fn end(self) -> Result<(BlockCut<A>, RowsByChannel<A>), AllocError>
        ensures { (l : GapInterfaceState) (items : List records.Item) → IsCutSoFar l items self
            → IfOk result (λ cut. IsBlockCut l items cut.0) }
    {
        let BlockCutter {
            walk,
            ended,
            mut rows,
            gap,
            last,
            octets,
        } = self;
        let tail = rows.take_parts()?;
        let cut = BlockCut {
            walk,
            ended,
            tail,
            gap,
            last,
            octets,
        };
        Ok((cut, rows))
    }
}
