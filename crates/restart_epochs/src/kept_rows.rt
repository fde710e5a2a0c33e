//! The rows of the open epoch, kept by logical channel.

ghost use Rattle.std.specs.Prelude.{◌≡◌, [], IfOk, OnOk, OnErr, MatchOption};
ghost use Rattle.restart_epochs.specs.OpenRows.{rows_of, AreOut, IsSame, HasMore, IsTakenOut};
ghost use Rattle.restart_epochs.specs.BlockCuts.{AreAdded, HasAll, HasFirst};

use crate::channel_rows::ChannelRows;
use crate::channel_table::ChannelTable;
use crate::parts::Part;
use line_model::items::ItemRef;
use std::alloc::{AllocError, Allocator};
use std::boxed::Box;

/// Removes and returns the rows of a channel, if it has some. The channel stays listed.
fn take_rows<A: Allocator + Copy>(
    channel: u16,
    table: &mut ChannelTable<ChannelRows<A>, A>,
) -> Option<Box<ChannelRows<A>, A>>
    ensures { MatchOption result ((rows_of table.old channel ≡ []) × IsSame table.old table.new)
        (λ rows. AreOut channel rows.value table.old table.new) }
{
    let rows = table.take(channel)?;
    if rows.is_empty() {
        return None;
    }
    Some(rows)
}

/// Lists a channel, and keeps its first rows, if there are some. Fails only when memory is refused, and nothing has
/// changed then.
fn keep_first<A: Allocator + Copy>(
    alloc: A,
    channel: u16,
    rows: ChannelRows<A>,
    table: &mut ChannelTable<ChannelRows<A>, A>,
) -> Result<(), AllocError>
    requires none { rows_of table.old channel ≡ [] }
    ensures ok { OnOk result (HasFirst channel rows table.old table.new) }
    ensures refused { OnErr result (IsSame table.old table.new) }
{
    if rows.is_empty() {
        return Ok(());
    }
    let rows = Box::new(alloc, rows)?;
    table.list(channel)?;
    table.put(channel, rows);
    Ok(())
}

/// Appends a row of a channel after the last gap of all channels. Fails only when memory is refused, and the rows are
/// as they were then.
pub fn keep_row<A: Allocator + Copy>(
    alloc: A,
    gap: u32,
    channel: u16,
    item: &ItemRef<'_>,
    table: &mut ChannelTable<ChannelRows<A>, A>,
) -> Result<(), AllocError>
    ensures ok { OnOk result (HasMore gap channel item.now table.old table.new) }
    ensures refused { OnErr result (IsSame table.old table.new) }
{
    let Some(mut rows) = take_rows(channel, table) else {
        let mut first = ChannelRows::new(alloc);
        first.push(gap, item)?;
        return keep_first(alloc, channel, first, table);
    };
    let pushed = rows.push(gap, item);
    table.put(channel, rows);
    pushed
}

/// Appends a part of a channel's rows, which are not copied, after the last gap of all channels. Fails only when memory
/// is refused, and the rows of the channel are lost then.
fn keep_part<A: Allocator + Copy>(
    alloc: A,
    gap: u32,
    part: Part<A>,
    table: &mut ChannelTable<ChannelRows<A>, A>,
) -> Result<(), AllocError>
    ensures { OnOk result (HasAll gap part.channel part.items table.old table.new) }
{
    let channel = part.channel;
    let Some(mut rows) = take_rows(channel, table) else {
        let mut first = ChannelRows::new(alloc);
        first.add(gap, part)?;
        return keep_first(alloc, channel, first, table);
    };
    rows.add(gap, part)?;
    table.put(channel, rows);
    Ok(())
}

/// Appends the rows of parts, one part after the other. Fails only when memory is refused; some rows are lost then.
pub fn keep_parts<A: Allocator + Copy>(
    alloc: A,
    gap: u32,
    parts: Vec<Part<A>, A>,
    rows: &mut ChannelTable<ChannelRows<A>, A>,
) -> Result<(), AllocError>
    ensures { OnOk result (AreAdded gap parts.items rows.old rows.new) }
{
    for part in parts {
        keep_part(alloc, gap, part, rows)?;
    }
    Ok(())
}

/// Returns copies of the rows of a channel. Fails only when memory is refused.
pub fn copy_rows<A: Allocator + Copy>(
    alloc: A,
    channel: u16,
    rows: &ChannelTable<ChannelRows<A>, A>,
) -> Result<ChannelRows<A>, AllocError>
    ensures { IfOk result (λ items. items ≡ rows_of rows.now channel) }
{
    match rows.get(channel) {
        Some(items) => items.copy(),
        None => Ok(ChannelRows::new(alloc)),
    }
}

/// Removes the first channel that has rows, and returns it with them.
pub fn take_first<A: Allocator + Copy>(
    alloc: A,
    rows: &mut ChannelTable<ChannelRows<A>, A>,
) -> Option<(u16, ChannelRows<A>)>
    ensures { MatchOption result ((rows.old.channels ≡ []) × (rows.new ≡ rows.old))
        (λ taken. IsTakenOut taken.0 taken.1 rows.old rows.new) }
{
    match rows.pop_first()? {
        (channel, Some(items)) => Some((channel, Box::into_inner(items))),
        (channel, None) => Some((channel, ChannelRows::new(alloc))),
    }
}
