//! The rows of a logical channel in the open epoch.

ghost use Rattle.std.specs.Prelude.{◌≡◌, ◌++◌, ◌∷◌, [], length, IfOk, OnErr, OnOk, ◌==◌};
ghost use Rattle.line_model.specs.basics.Bounds.{IsPiece};
ghost use Rattle.line_model.specs.packets.Says.{gap_item};
ghost use Rattle.restart_epochs.specs.Cutting.{piece_out};
ghost use Rattle.restart_epochs.specs.OpenRows.{with_gap, with_part};

use crate::ended_epoch::EndedEpoch;
use crate::parts::{Part, gap_after};
use line_model::items::{ItemRef, Items};
use line_model::part_items::PartItems;
use line_model::piece::Piece;
use line_model::piece_items::PieceItems;
use std::alloc::{AllocError, Allocator, Global};
use std::marker::Model;

/// The rows of a logical channel in the open epoch, with the gaps of all channels between them. A gap of all channels is kept
/// once a row comes after it.
#[derive(Drop)]
pub struct ChannelRows<A: Allocator = Global> {
    rows: PieceItems<A>,
    /// The number of the last row, or 0.
    last: u32,
}

impl<A: Allocator> Model for ChannelRows<A> {
    ghost use Rattle.std.specs.Prelude.{◌≡◌, List};
    ghost use Rattle.line_model.specs.basics.Records as records;
    ghost use Rattle.restart_epochs.specs.OpenRows.{last_number};

    ghost Value = { List records.Item };

    ghost view = { λ l. l.rows };

    ghost invariant = { λ l. l.last ≡ last_number l.rows };
}

/// Returns a gap of all channels, by its number, and a row.
fn behind_gap<A: Allocator + Copy>(
    alloc: A,
    number: u32,
    item: &ItemRef<'_>,
) -> Result<Items<A>, AllocError>
    ensures { IfOk result (λ rows. rows ≡ gap_item number ∷ item.now ∷ []) }
{
    let mut rows = Items::new(alloc);
    rows.push(&ItemRef::gap_of_all(number))?;
    rows.push(item)?;
    Ok(rows)
}

impl<A: Allocator + Copy> ChannelRows<A> {
    /// Returns no rows. Allocates nothing.
    pub fn new(alloc: A) -> Self
        ensures { result ≡ [] }
    {
        ChannelRows {
            rows: PieceItems::new(alloc),
            last: 0,
        }
    }

    /// Returns the rows of a part. Allocates nothing.
    pub fn of(part: Part<A>) -> Self
        ensures { result ≡ part.items }
    {
        let Part { items, last, .. } = part;
        ChannelRows {
            rows: PieceItems::of(PartItems::shared(items)),
            last,
        }
    }

    /// Returns whether there is no row.
    pub fn is_empty(&self) -> bool
        ensures { result ≡ (length self.now == 0) }
    {
        self.rows.is_empty()
    }

    /// Appends a row, and before it the last gap of all channels, where it came after the other rows. Where memory is refused
    /// nothing changes.
    pub fn push(&mut self, gap: u32, item: &ItemRef<'_>) -> Result<(), AllocError>
        ensures ok { OnOk result (self.new ≡ with_gap gap self.old ++ item.now ∷ []) }
        ensures refused { OnErr result (self.new ≡ self.old) }
    {
        if let Some(number) = gap_after(gap, self.last) {
            return self.push_behind(number, item);
        }
        self.rows.push(item)?;
        self.last = item.number;
        Ok(())
    }

    /// Appends a gap of all channels, by its number, and a row. Where memory is refused nothing changes.
    fn push_behind(&mut self, number: u32, item: &ItemRef<'_>) -> Result<(), AllocError>
        ensures ok { OnOk result (self.new ≡ self.old ++ gap_item number ∷ item.now ∷ []) }
        ensures refused { OnErr result (self.new ≡ self.old) }
    {
        let rows = behind_gap(*self.rows.allocator(), number, item)?;
        self.rows.add(PartItems::own(rows))?;
        self.last = item.number;
        Ok(())
    }

    /// Appends the last gap of all channels, where it came after the rows.
    fn push_gap(&mut self, gap: u32) -> Result<(), AllocError>
        ensures { OnOk result (self.new ≡ with_gap gap self.old) }
    {
        if let Some(number) = gap_after(gap, self.last) {
            self.rows.push(&ItemRef::gap_of_all(number))?;
            self.last = number;
        }
        Ok(())
    }

    /// Appends the rows of a part, which are not copied.
    fn append(&mut self, part: Part<A>) -> Result<(), AllocError>
        ensures { OnOk result (self.new ≡ self.old ++ part.items) }
    {
        let Part { items, last, .. } = part;
        let last = if items.len() == 0 { self.last } else { last };
        self.rows.add(PartItems::shared(items))?;
        self.last = last;
        Ok(())
    }

    /// Appends the rows of a part, which are not copied, and before them the last gap of all channels, where no other
    /// one is between the rows and the part. Fails only when memory is refused; drop the rows then.
    pub fn add(&mut self, gap: u32, part: Part<A>) -> Result<(), AllocError>
        ensures { OnOk result (self.new ≡ with_part gap self.old part.items) }
    {
        if part.begins_with_row() {
            self.push_gap(gap)?;
        }
        self.append(part)
    }

    /// Returns a copy of the rows. Fails only when memory is refused.
    pub fn copy(&self) -> Result<Self, AllocError>
        ensures { IfOk result (λ open_channel. open_channel ≡ self.now) }
    {
        Ok(ChannelRows {
            rows: self.rows.copy()?,
            last: self.last,
        })
    }

    /// Returns the piece of the channel in its epoch.
    pub fn into_piece(self, epoch: EndedEpoch, id: u32, channel: u16) -> Piece<A>
        requires piece { IsPiece epoch.interface channel (with_gap epoch.gap self) }
        ensures { result ≡ piece_out epoch.interface epoch.number epoch.start epoch.end id channel (with_gap epoch.gap self) }
    {
        let ChannelRows { rows, last } = self;
        let last_gap = gap_after(epoch.gap, last);
        Piece {
            id,
            interface: epoch.interface,
            epoch: epoch.number,
            start: epoch.start,
            channel,
            items: rows,
            last_gap,
            end: epoch.end,
        }
    }
}
