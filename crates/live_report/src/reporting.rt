//! The results of pieces so far, by copies.

ghost use Rattle.std.specs.Prelude.{◌≡◌, ◌<◌, ◌+◌, ◌^◌, None, IfErr, length};
ghost use Rattle.line_model.specs.declared.fault.Fault.TheVariants.{Memory};
ghost use Rattle.live_report.specs.AddedPieces.{MayAddPieces, AddsPieces};

use crate::open_channels::OpenChannels;
use channel_run::run::Channel;
use line_model::fault::Fault;
use report_merge::parts::Parts;
use std::alloc::Allocator;

/// Adds the results of the pieces of the open epoch so far, by their channels. The channels go on. Fails only when
/// memory is refused.
pub fn report_channels<A: Allocator + Copy, C: Channel<A>>(
    alloc: A,
    open_channels: &OpenChannels<A, C>,
    out: &mut Parts<A>,
) -> Result<(), Fault>
    requires room { MayAddPieces C.Channel open_channels.now out.old }
    requires pieces { out.old.pieces + length open_channels.now.table.channels < 2 ^ 32 }
    ensures values { AddsPieces C.Channel None open_channels.now out.old out.new result }
    ensures memory { IfErr result (λ fault. fault ≡ Memory) }
{
    for channel in open_channels.table.channels() {
        if let Some(entry) = open_channels.table.get(*channel) {
            let report = entry.live.report(alloc, out.pieces())?;
            out.add(report)?;
        }
    }
    Ok(())
}
