//! A live observer: it is fed a trace in pieces, counts the findings as they come, and returns its report at any
//! moment.

ghost use Rattle.live_report.specs.Lives.{IsFed};

use channel_run::run::Channel;
use line_model::device::Sink;
use line_model::fault::Fault;
use live_report::live::Live;
use std::alloc::Allocator;

/// Feeds an observer, and returns how many findings the rows gave.
fn count_findings<A: Allocator + Copy, C: Channel<A>>(
    live: &mut Live<A, C>,
    piece: &[u8],
) -> Result<usize, Fault>
    requires { IsFed C.interface_of C.number_of C.represents live.old }
    ensures { IsFed C.interface_of C.number_of C.represents live.new }
{
    live.feed(piece)?;
    Ok(live.found().len())
}

/// Feeds an observer the pieces of a trace, writes the report of the lines that have ended after each piece that found
/// something, and returns how many findings came.
pub fn watch<A: Allocator + Copy, C: Channel<A>, K: Sink>(
    alloc: A,
    pieces: &[&[u8]],
    sink: &mut K,
) -> Result<usize, Fault> {
    let mut live = Live::<A, C>::new(alloc);
    let mut count: usize = 0;
    for piece in pieces {
        let found = count_findings(&mut live, piece)?;
        if found > 0 {
            live.report(sink)?;
        }
        count = count.saturating_add(found);
    }
    Ok(count)
}
