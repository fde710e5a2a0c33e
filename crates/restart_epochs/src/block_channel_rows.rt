//! The rows of a logical channel in a block.

ghost use Rattle.std.specs.Prelude.{◌≡◌, ◌++◌, ◌∷◌, [], length, OnOk, ◌==◌};
ghost use Rattle.restart_epochs.specs.OpenRows.{last_number, with_gap};

use crate::parts::gap_after;
use line_model::items::{ItemRef, Items, Iter};
use std::alloc::{AllocError, Allocator, Global};
use std::marker::Model;

/// The rows of a logical channel in an epoch of a block, with the gaps of all channels of the block before and between them.
#[derive(Drop)]
pub struct BlockChannelRows<A: Allocator = Global> {
    rows: Items<A>,
    /// The number of the last row, or 0.
    last: u32,
}

impl<A: Allocator> Model for BlockChannelRows<A> {
    ghost use Rattle.std.specs.Prelude.{◌≡◌, List};
    ghost use Rattle.line_model.specs.basics.Records as records;
    ghost use Rattle.restart_epochs.specs.OpenRows.{last_number};

    ghost Value = { List records.Item };

    ghost view = { λ l. l.rows };

    ghost invariant = { λ l. l.last ≡ last_number l.rows };
}

impl<A: Allocator> BlockChannelRows<A> {
    /// Returns how many rows there are.
    pub fn len(&self) -> usize
        ensures { result ≡ length self.now }
    {
        self.rows.len()
    }

    /// Returns whether there is no row.
    pub fn is_empty(&self) -> bool
        ensures { result ≡ (length self.now == 0) }
    {
        self.rows.is_empty()
    }

    /// Returns the number of the last row, or 0.
    pub fn last(&self) -> u32
        ensures { result ≡ last_number self.now }
    {
        self.last
    }

    /// Returns what the rows say, in order.
    pub fn iter(&self) -> Iter<'_>
        ensures { result ≡ self.now }
    {
        self.rows.iter()
    }

    /// Drops all rows. Their memory is kept.
    pub fn clear(&mut self)
        ensures { self.new ≡ [] }
    {
        self.rows.clear();
        self.last = 0;
    }

    /// Appends the last gap of all channels, where it came after the rows.
    fn push_gap(&mut self, gap: u32) -> Result<(), AllocError>
        ensures { OnOk result (self.new ≡ with_gap gap self.old) }
    {
        if let Some(number) = gap_after(gap, self.last) {
            self.rows.push(&ItemRef::gap_of_all(number))?;
            self.last = number;
        }
        Ok(())
    }

    /// Appends the last gap of all channels, where it came after the rows, and then a row. Fails only when memory is
    /// refused; drop the rows then.
    pub fn push(&mut self, gap: u32, item: &ItemRef<'_>) -> Result<(), AllocError>
        ensures { OnOk result (self.new ≡ with_gap gap self.old ++ item.now ∷ []) }
    {
        self.push_gap(gap)?;
        self.rows.push(item)?;
        self.last = item.number;
        Ok(())
    }
}

impl<A: Allocator + Copy> BlockChannelRows<A> {
    /// Returns no rows. Allocates nothing.
    pub fn new(alloc: A) -> Self
        ensures { result ≡ [] }
    {
        BlockChannelRows {
            rows: Items::new(alloc),
            last: 0,
        }
    }
}
