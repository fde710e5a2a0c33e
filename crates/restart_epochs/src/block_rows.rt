//! The rows of the open epoch of a block, kept by logical channel.

ghost use Rattle.std.specs.Prelude.{◌≡◌, ◌++◌, [], length, IfOk, MatchOption, OnOk};
ghost use Rattle.std.specs.List.{flat_map};
ghost use Rattle.restart_epochs.specs.OpenRows.{last_number, rows_of, HasNoOthers, IsTakenOut};
ghost use Rattle.restart_epochs.specs.BlockCuts.{parts_of, AreAllOut};

use crate::block_channel_rows::BlockChannelRows;
use crate::channel_table::ChannelTable;
use crate::parts::Part;
use line_model::items::Items;
use line_model::items::shared::SharedItems;
use std::alloc::{AllocError, Allocator};

/// Appends the rows of a channel to the rows of others.
fn append_rows<A: Allocator + Copy>(
    channel: u16,
    table: &ChannelTable<BlockChannelRows<A>, A>,
    rows: &mut Items<A>,
) -> Result<(), AllocError>
    ensures { OnOk result (rows.new ≡ rows.old ++ rows_of table.now channel) }
{
    match table.get(channel) {
        Some(list) => rows.append(list.iter()),
        None => Ok(()),
    }
}

/// Returns the rows of all channels in one list, by channel. There are `count` of them, with so many octets.
pub fn all_rows<A: Allocator + Copy>(
    alloc: A,
    count: usize,
    octets: usize,
    table: &ChannelTable<BlockChannelRows<A>, A>,
) -> Result<SharedItems<A>, AllocError>
    ensures { IfOk result (λ rows. rows ≡ flat_map (rows_of table.now) table.now.channels) }
{
    let mut rows = Items::with_capacity(alloc, count, octets)?;
    for channel in table.channels() {
        append_rows(*channel, table, &mut rows)?;
    }
    SharedItems::of(rows)
}

/// Removes the rows of the first channel that is listed, and returns it with how many rows it had and the number of the
/// last, or 0. Its list keeps its memory.
fn clear_first<A: Allocator + Copy>(
    table: &mut ChannelTable<BlockChannelRows<A>, A>,
) -> Option<(u16, usize, u32)>
    ensures { MatchOption result ((table.old.channels ≡ []) × (table.new ≡ table.old))
        (λ first. (first.1 ≡ length (rows_of table.old first.0)) × (first.2 ≡ last_number (rows_of table.old first.0))
        × IsTakenOut first.0 (rows_of table.old first.0) table.old table.new) }
{
    let (channel, list) = table.pop_first()?;
    let Some(mut list) = list else {
        return Some((channel, 0, 0));
    };
    let (count, last) = (list.len(), list.last());
    list.clear();
    table.put(channel, list);
    Some((channel, count, last))
}

/// Removes the rows of the first channel that has some, and returns them as a part of the rows of all channels.
/// Where memory is refused they are lost.
fn take_first<A: Allocator + Copy>(
    rows: &mut SharedItems<A>,
    table: &mut ChannelTable<BlockChannelRows<A>, A>,
) -> Result<Option<Part<A>>, AllocError>
    requires rows { rows.old ≡ flat_map (rows_of table.old) table.old.channels }
    ensures first { IfOk result (λ first. MatchOption first ((table.old.channels ≡ []) × (table.new ≡ table.old))
        (λ part. IsTakenOut part.channel part.items table.old table.new)) }
    ensures rows { OnOk result (rows.new ≡ flat_map (rows_of table.new) table.new.channels) }
    ensures others { HasNoOthers table.old → HasNoOthers table.new }
{
    let Some((channel, count, last)) = clear_first(table) else {
        return Ok(None);
    };
    let items = rows.split_first(count)?;
    Ok(Some(Part {
        channel,
        items,
        last,
    }))
}

/// Removes and returns the rows of all channels, those of a channel as one part, in ascending order of the channels.
/// The parts share the list of all rows. Fails only when memory is refused, and some rows are lost then.
pub fn take_parts<A: Allocator + Copy>(
    alloc: A,
    rows: SharedItems<A>,
    table: &mut ChannelTable<BlockChannelRows<A>, A>,
) -> Result<Vec<Part<A>, A>, AllocError>
    requires rows { rows ≡ flat_map (rows_of table.old) table.old.channels }
    requires others { HasNoOthers table.old }
    ensures parts { IfOk result (λ parts. parts.items ≡ parts_of (rows_of table.old) table.old.channels) }
    ensures out { OnOk result (AreAllOut table.old table.new) }
    ensures others { HasNoOthers table.new }
{
    let mut rows = rows;
    let mut parts = Vec::with_capacity(alloc, table.len())?;
    while let Some(part) = take_first(&mut rows, table)? {
        parts.push(part)?;
    }
    Ok(parts)
}
