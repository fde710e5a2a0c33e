//! The pieces of the epoch that has not ended.

ghost use Rattle.std.specs.Prelude.{◌≡◌, ℕ, ◌<◌, ◌+◌, ◌^◌, ◌++◌, [], OnOk, OnErr, length};
ghost use Rattle.line_model.specs.basics.Bounds.{IsPiece};
ghost use Rattle.line_model.specs.pieces.Plans.{end_at};
ghost use Rattle.restart_epochs.specs.OpenRows.{IsSame};
ghost use Rattle.restart_epochs.specs.Cutting.{ended_by, gap_by_effect, given_after, items_out, pieces_out, HasEffect, IsEmptied};
ghost use Rattle.restart_epochs.specs.BlockCuts.{HasEnded, HaveEnded, MayEnd, MayEndAll};

use crate::channel_rows::ChannelRows;
use crate::channel_table::ChannelTable;
use crate::ended_epoch::{EndedEpoch, append_parts, append_pieces};
use crate::kept_rows::{keep_parts, keep_row};
use crate::parts::{EndedRows, end_at, gap_joined};
use crate::walk::{ChannelEffect, EpochWalk, start_joined};
use line_model::items::ItemRef;
use line_model::piece::Piece;
use std::alloc::{AllocError, Allocator};

/// The pieces of the open epoch.
#[derive(Drop)]
pub struct OpenPieces<A: Allocator> {
    /// How many pieces were given out.
    pub given: u32,
    /// The number of the last gap of all channels in the open epoch, or 0.
    pub gap: u32,
    /// The rows of each channel.
    pub rows: ChannelTable<ChannelRows<A>, A>,
}

impl<A: Allocator + Copy> OpenPieces<A> {
    /// Keeps a row that goes to a channel, and appends the pieces that a row ends. Of a gap of all channels only the
    /// number is kept. Fails only when memory is refused, and nothing has changed then.
    pub fn apply(
        &mut self,
        walk: &EpochWalk<A>,
        effect: ChannelEffect,
        item: &ItemRef<'_>,
        out: &mut Vec<Piece<A>, A>,
    ) -> Result<(), AllocError>
        requires ids { self.old.given + length self.old.rows.channels < 2 ^ 32 }
        requires pieces { (k : ℕ) → IsPiece walk.now.interface k (items_out self.old.gap self.old.rows k) }
        ensures rows { OnOk result (HasEffect effect item.now self.old.gap self.old.rows self.new.rows) }
        ensures gap { OnOk result (self.new.gap ≡ gap_by_effect effect item.now self.old.gap) }
        ensures count { OnOk result (self.new.given ≡ given_after effect self.old.given self.old.rows) }
        ensures given { OnOk result (out.new.items ≡ out.old.items
            ++ ended_by effect walk.now.interface walk.now.epoch walk.now.start (end_at item.now) self.old.given self.old.gap self.old.rows) }
        ensures refused { OnErr result ((self.new.given ≡ self.old.given) × (self.new.gap ≡ self.old.gap)
            × IsSame self.old.rows self.new.rows × (out.new.items ≡ out.old.items)) }
    {
        match effect {
            ChannelEffect::ToChannel(channel) => keep_row(
                *walk.findings.allocator(),
                self.gap,
                channel,
                item,
                &mut self.rows,
            ),
            ChannelEffect::ToAll => {
                self.gap = item.number;
                Ok(())
            }
            ChannelEffect::Ends => {
                let epoch = EndedEpoch {
                    interface: walk.interface,
                    number: walk.epoch,
                    start: walk.start,
                    gap: self.gap,
                    end: Some(end_at(item)),
                };
                self.give_out(epoch, out)
            }
            ChannelEffect::Stays => Ok(()),
        }
    }

    /// Appends the pieces of the open epoch, which has ended. Where memory is refused nothing has changed.
    fn give_out(&mut self, epoch: EndedEpoch, out: &mut Vec<Piece<A>, A>) -> Result<(), AllocError>
        requires ids { self.old.given + length self.old.rows.channels < 2 ^ 32 }
        requires pieces { (k : ℕ) → IsPiece epoch.interface k (items_out epoch.gap self.old.rows k) }
        ensures rows { OnOk result ((self.new.rows.channels ≡ []) × IsEmptied self.old.rows self.new.rows) }
        ensures gap { OnOk result (self.new.gap ≡ 0) }
        ensures count { OnOk result (self.new.given ≡ self.old.given + length self.old.rows.channels) }
        ensures given { OnOk result (out.new.items ≡ out.old.items
            ++ pieces_out epoch.interface epoch.number epoch.start epoch.end (items_out epoch.gap self.old.rows) self.old.given self.old.rows.channels) }
        ensures refused { OnErr result ((self.new.given ≡ self.old.given) × (self.new.gap ≡ self.old.gap)
            × IsSame self.old.rows self.new.rows × (out.new.items ≡ out.old.items)) }
    {
        let pieces = self.rows.len();
        out.reserve(pieces)?;
        append_pieces(epoch, self.given, &mut self.rows, out);
        self.given += pieces as u32;
        self.gap = 0;
        Ok(())
    }

    /// Adds the rows of an epoch of a block, and appends the pieces of the epoch: where no row and no gap is kept, the parts as
    /// they are. Where memory is refused rows are lost.
    fn end_epoch(
        &mut self,
        walk: &EpochWalk<A>,
        ended: EndedRows<A>,
        out: &mut Vec<Piece<A>, A>,
    ) -> Result<(), AllocError>
        requires rows { MayEnd walk.now.interface walk.now.epoch self.old.given self.old.gap self.old.rows ended }
        ensures pieces { OnOk result (HasEnded walk.now.interface walk.now.epoch walk.now.start ended self.old.given self.new.given
            self.old.gap self.old.rows self.new.rows out.old.items out.new.items) }
        ensures gap { OnOk result (self.new.gap ≡ 0) }
    {
        let EndedRows {
            parts,
            gap,
            epoch,
            start,
            end,
        } = ended;
        let epoch = EndedEpoch {
            interface: walk.interface,
            number: walk.epoch + epoch,
            start: start_joined(epoch, walk.start, start),
            gap: gap_joined(self.gap, gap),
            end: Some(end),
        };
        if self.rows.len() == 0 && self.gap == 0 {
            let count = parts.len();
            append_parts(epoch, self.given, parts, out)?;
            self.given += count as u32;
            return Ok(());
        }
        keep_parts(*walk.findings.allocator(), self.gap, parts, &mut self.rows)?;
        self.give_out(epoch, out)?;
        Ok(())
    }

    /// Adds the rows of the epochs of a block one after the other, and appends the pieces of each. Where memory is
    /// refused rows are lost.
    pub fn end_epochs(
        &mut self,
        walk: &EpochWalk<A>,
        ended: Vec<EndedRows<A>, A>,
        out: &mut Vec<Piece<A>, A>,
    ) -> Result<(), AllocError>
        requires rows { MayEndAll walk.now.interface walk.now.epoch walk.now.start self.old.given self.old.gap self.old.rows ended.items }
        ensures { OnOk result (HaveEnded walk.now.interface walk.now.epoch walk.now.start ended.items self.old.given self.new.given
            self.old.gap self.new.gap self.old.rows self.new.rows out.old.items out.new.items) }
    {
        for epoch in ended {
            self.end_epoch(walk, epoch, out)?;
        }
        Ok(())
    }
}
