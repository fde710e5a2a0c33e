//! Rows by logical channel, in lists that are used again.

ghost use Rattle.std.specs.Prelude.{◌≡◌, ℕ, [], IfOk, OnOk};
ghost use Rattle.std.specs.Bool.{OnTrue};
ghost use Rattle.restart_epochs.specs.OpenRows.{no_rows, rows_of, HasMore};
ghost use Rattle.restart_epochs.specs.BlockCuts.{parts_of, AreAllOut};

use crate::block_channel_rows::BlockChannelRows;
use crate::block_rows::{all_rows, take_parts};
use crate::channel_table::ChannelTable;
use crate::parts::Part;
use line_model::items::ItemRef;
use std::alloc::{AllocError, Allocator, Global};
use std::boxed::Box;
use std::marker::Model;

/// Rows by logical channel. Rows that are removed are copied into one list; the list of each channel keeps its memory
/// for the next ones.
#[derive(Drop)]
pub struct RowsByChannel<A: Allocator = Global> {
    alloc: A,
    table: ChannelTable<BlockChannelRows<A>, A>,
    /// How many rows there are, except gaps of all channels.
    count: usize,
    /// How many octets are kept of them.
    octets: usize,
}

impl<A: Allocator> Model for RowsByChannel<A> {
    ghost use Rattle.restart_epochs.specs.OpenRows.{OpenRows, HasNoOthers};

    ghost Value = { OpenRows };

    ghost view = { λ r. r.table };

    ghost invariant = { λ r. HasNoOthers r.table };
}

impl<A: Allocator + Copy> RowsByChannel<A> {
    /// Returns no rows. Allocates nothing.
    pub fn new(alloc: A) -> Self
        ensures { result ≡ no_rows }
    {
        RowsByChannel {
            alloc,
            table: ChannelTable::new(alloc),
            count: 0,
            octets: 0,
        }
    }

    /// Returns `true` only where no channel has rows.
    pub fn is_empty(&self) -> bool
        ensures { OnTrue result ((self.now.channels ≡ []) × ((k : ℕ) → rows_of self.now k ≡ [])) }
    {
        self.table.len() == 0
    }

    /// Returns these lists, or new ones where a channel has rows.
    pub fn emptied(self) -> Self
        ensures channels { result.channels ≡ [] }
        ensures rows { (k : ℕ) → rows_of result k ≡ [] }
    {
        if self.is_empty() {
            return self;
        }
        RowsByChannel::new(self.alloc)
    }

    /// Appends the first row of a channel to its list, which is empty.
    fn push_first(
        &mut self,
        gap: u32,
        channel: u16,
        list: Box<BlockChannelRows<A>, A>,
        item: &ItemRef<'_>,
    ) -> Result<(), AllocError>
        requires none { rows_of self.old channel ≡ [] }
        requires empty { list.value ≡ [] }
        ensures { OnOk result (HasMore gap channel item.now self.old self.new) }
    {
        let mut list = list;
        list.push(gap, item)?;
        self.table.list(channel)?;
        self.table.put(channel, list);
        Ok(())
    }

    /// Appends a row of a channel after the last gap of all channels. Fails only when memory is refused, and the rows
    /// of the channel are lost then.
    pub fn push(&mut self, gap: u32, channel: u16, item: &ItemRef<'_>) -> Result<(), AllocError>
        ensures { OnOk result (HasMore gap channel item.now self.old self.new) }
    {
        self.count = self.count.saturating_add(1);
        self.octets = self.octets.saturating_add(item.octets.len());
        let Some(mut list) = self.table.take(channel) else {
            let list = Box::new(self.alloc, BlockChannelRows::new(self.alloc))?;
            return self.push_first(gap, channel, list, item);
        };
        if list.is_empty() {
            return self.push_first(gap, channel, list, item);
        }
        list.push(gap, item)?;
        self.table.put(channel, list);
        Ok(())
    }

    /// Removes and returns all rows, those of a channel as one part, in ascending order of the channels. The parts
    /// share one list. Fails only when memory is refused, and some rows are lost then.
    pub fn take_parts(&mut self) -> Result<Vec<Part<A>, A>, AllocError>
        ensures parts { IfOk result (λ parts. parts.items ≡ parts_of (rows_of self.old) self.old.channels) }
        ensures out { OnOk result (AreAllOut self.old self.new) }
    {
        let rows = all_rows(self.alloc, self.count, self.octets, &self.table)?;
        self.count = 0;
        self.octets = 0;
        take_parts(self.alloc, rows, &mut self.table)
    }
}
