//! The pieces of an epoch that has ended.

ghost use Rattle.std.specs.Prelude.{◌≡◌, ℕ, ◌<◌, ◌≤◌, ◌+◌, ◌^◌, ◌++◌, [], length, OnOk};
ghost use Rattle.std.specs.List.{AllByRecursion};
ghost use Rattle.std.specs.Vec.{vec_len, vec_capacity};
ghost use Rattle.line_model.specs.basics.Bounds.{IsPiece};
ghost use Rattle.restart_epochs.specs.OpenRows.{with_gap};
ghost use Rattle.restart_epochs.specs.Cutting.{items_out, pieces_out, IsEmptied};
ghost use Rattle.restart_epochs.specs.BlockCuts.{part_pieces};

use crate::channel_rows::ChannelRows;
use crate::channel_table::ChannelTable;
use crate::kept_rows::take_first;
use crate::parts::Part;
use line_model::gap::EpochStart;
use line_model::interface::Interface;
use line_model::piece::{Piece, PieceEnd};
use std::alloc::{AllocError, Allocator};

/// An epoch that has ended.
#[derive(Clone, Copy)]
pub struct EndedEpoch {
    pub interface: Interface,
    pub number: u32,
    /// How it began.
    pub start: EpochStart,
    /// The number of the last gap of all channels in it, or 0.
    pub gap: u32,
    /// The row that ended it; none at the end of the trace.
    pub end: Option<PieceEnd>,
}

/// Appends the pieces of an epoch, by their channels, with ids from `first` on. The list has room for them.
pub fn append_pieces<A: Allocator + Copy>(
    epoch: EndedEpoch,
    first: u32,
    epoch_rows: &mut ChannelTable<ChannelRows<A>, A>,
    out: &mut Vec<Piece<A>, A>,
)
    requires room { vec_len out.old + length epoch_rows.old.channels ≤ vec_capacity out.old }
    requires ids { first + length epoch_rows.old.channels < 2 ^ 32 }
    requires pieces { (k : ℕ) → IsPiece epoch.interface k (items_out epoch.gap epoch_rows.old k) }
    ensures given { out.new.items
        ≡ out.old.items
        ++ pieces_out epoch.interface epoch.number epoch.start epoch.end (items_out epoch.gap epoch_rows.old) first epoch_rows.old.channels }
    ensures channels { epoch_rows.new.channels ≡ [] }
    ensures emptied { IsEmptied epoch_rows.old epoch_rows.new }
{
    let alloc = *out.allocator();
    let mut id = first;
    while let Some((channel, open_channel)) = take_first(alloc, epoch_rows) {
        out.push_reserved(open_channel.into_piece(epoch, id, channel));
        id += 1;
    }
}

/// Appends the pieces of an epoch whose rows are these parts, with ids from `first` on. Where memory is refused the rows
/// are lost.
pub fn append_parts<A: Allocator + Copy>(
    epoch: EndedEpoch,
    first: u32,
    parts: Vec<Part<A>, A>,
    out: &mut Vec<Piece<A>, A>,
) -> Result<(), AllocError>
    requires ids { first + length parts.items < 2 ^ 32 }
    requires pieces { AllByRecursion (λ p. IsPiece epoch.interface p.channel (with_gap epoch.gap p.items)) parts.items }
    ensures { OnOk result (out.new.items
        ≡ out.old.items ++ part_pieces epoch.interface epoch.number epoch.start epoch.end epoch.gap first parts.items) }
{
    let mut next = first;
    for part in parts {
        let channel = part.channel;
        out.push(ChannelRows::of(part).into_piece(epoch, next, channel))?;
        next += 1;
    }
    Ok(())
}
