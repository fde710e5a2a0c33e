//! The pieces of an epoch that has not ended, by copies.

ghost use Rattle.std.specs.Prelude.{◌≡◌, ℕ, ◌<◌, ◌+◌, ◌^◌, None, IfErr, IfOk, length};
ghost use Rattle.line_model.specs.basics.Bounds.{IsPiece};
ghost use Rattle.line_model.specs.declared.fault.Fault.TheVariants.{Memory};
ghost use Rattle.restart_epochs.specs.Cutting.{items_out, pieces_out};

use crate::channel_rows::ChannelRows;
use crate::channel_table::ChannelTable;
use crate::ended_epoch::EndedEpoch;
use crate::kept_rows::copy_rows;
use line_model::fault::Fault;
use line_model::piece::Piece;
use std::alloc::Allocator;

/// Returns copies of the pieces of an epoch, by their channels, with ids from `first` on. Fails only when memory is
/// refused.
pub fn copy_pieces<A: Allocator + Copy>(
    alloc: A,
    epoch: EndedEpoch,
    first: u32,
    epoch_rows: &ChannelTable<ChannelRows<A>, A>,
) -> Result<Vec<Piece<A>, A>, Fault>
    requires ids { first + length epoch_rows.now.channels < 2 ^ 32 }
    requires pieces { (k : ℕ) → IsPiece epoch.interface k (items_out epoch.gap epoch_rows.now k) }
    ensures copied { IfOk result (λ pieces. pieces.items
        ≡ pieces_out epoch.interface epoch.number epoch.start epoch.end (items_out epoch.gap epoch_rows.now) first epoch_rows.now.channels) }
    ensures memory { IfErr result (λ fault. fault ≡ Memory) }
{
    let mut pieces = Vec::new(alloc);
    let mut id = first;
    for channel in epoch_rows.channels() {
        let open_channel = copy_rows(alloc, *channel, epoch_rows)?;
        pieces.push(open_channel.into_piece(epoch, id, *channel))?;
        id += 1;
    }
    Ok(pieces)
}
