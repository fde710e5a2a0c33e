//! The logical channels of an epoch that has ended.

ghost use Rattle.std.specs.Prelude.{◌≡◌, ◌<◌, ◌+◌, ◌^◌, IfErr, length};
ghost use Rattle.line_model.specs.declared.fault.Fault.TheVariants.{Memory};
ghost use Rattle.live_report.specs.AddedPieces.{EmptiesOpenChannels, MayAddPieces, AddsPieces};

use crate::open_channels::{OpenChannel, OpenChannels};
use channel_run::run::Channel;
use line_model::fault::Fault;
use line_model::piece::PieceEnd;
use report_merge::parts::Parts;
use std::alloc::Allocator;

/// Ends the open channels of an epoch, by their channels, and adds the results of their pieces. Fails only when memory
/// is refused.
pub fn end_channels<A: Allocator + Copy, C: Channel<A>>(
    alloc: A,
    end: Option<PieceEnd>,
    open_channels: &mut OpenChannels<A, C>,
    out: &mut Parts<A>,
) -> Result<(), Fault>
    requires room { MayAddPieces C.Channel open_channels.old out.old }
    requires pieces { out.old.pieces + length open_channels.old.table.channels < 2 ^ 32 }
    ensures values { AddsPieces C.Channel end open_channels.old out.old out.new result }
    ensures emptied { EmptiesOpenChannels C.Channel open_channels.old open_channels.new result }
    ensures memory { IfErr result (λ fault. fault ≡ Memory) }
{
    let mut events = Vec::new(alloc);
    while let Some((channel, entry)) = open_channels.table.pop_first() {
        if let Some(entry) = entry {
            let report = OpenChannel::end(
                entry,
                open_channels.gap,
                &mut events,
                out.pieces(),
                end,
            )?;
            out.add(report)?;
        }
    }
    open_channels.gap = 0;
    Ok(())
}
