//! Scans whose workers read blocks of any size.

ghost use Rattle.std.specs.Prelude.{◌≡◌, ◌<◌, ◌≤◌};
ghost use Rattle.std.specs.Option.{option_map};
ghost use Rattle.line_model.specs.traces.Traces.{trace_plan};

use crate::host::Host;
use line_model::device::Sink;
use line_model::fault::Fault;
use line_model::piece::Plan;
use report_merge::merging::merge;
use report_merge::text::write_report;
use std::alloc::Allocator;
use streams::room_source::RoomSource;
use trace_reading::block_queues::{BlockQueues, BlockSizes};
use trace_reading::feeding::ReadingTask;
use trace_reading::room::Room;
use trace_reading::text_block::TraceText;
use trace_scan::gate::BlockGate;
use trace_scan::threaded::ScanOutcome;
use workers::{Crew, Gate, Worked, work_through};

/// Scans a trace text by a crew whose gate may read the blocks of these queues.
pub fn scan_by_queues<
    P: Plan + TraceText + Send + Sync,
    A: Allocator + Copy + Send + Sync,
    S: RoomSource,
    K: Sink,
    G: Gate,
    R: Host,
>(
    rt: &R,
    alloc: A,
    source: &mut S,
    sink: &mut K,
    queues: &BlockQueues<P, A>,
    crew: Crew<'_, G>,
) -> Result<ScanOutcome<A>, Fault>
    requires text { P.text ≡ S.left source.old }
    requires plan { P.pieces ≡ option_map trace_plan P.text }
    requires workers { (0 < crew.workers) × (crew.workers ≤ 64) }
    requires capacity { (0 < crew.capacity) × (crew.capacity ≤ 4096) }
{
    let reading = ReadingTask {
        source,
        queues,
        room: Some(Room::new(Vec::new(alloc))?),
        outcome: None,
    };
    match work_through::<P, A, G, R, ReadingTask<P, A, S>>(rt, alloc, crew, reading) {
        Ok(Worked { task, gathered }) => {
            let read = task.outcome.unwrap_or(Err(Fault::Start))?;
            let made = gathered?;
            let (found, counts) = (read.interface_findings, read.counts);
            let report = merge(alloc, made.reports, found, counts, read.pieces)?;
            write_report(&report, sink)?;
            Ok(ScanOutcome {
                summary: report.summary,
                totals: made.totals,
                shares: made.shares,
            })
        }
        Err((_, fault)) => Err(fault),
    }
}

/// Scans a trace text by a crew. Each read of the source is for a block, which ends with a line once it has this number
/// of bytes.
pub fn scan_in_blocks<
    P: Plan + TraceText + Send + Sync,
    A: Allocator + Copy + Send + Sync,
    S: RoomSource,
    K: Sink,
    G: Gate,
    R: Host,
>(
    rt: &R,
    alloc: A,
    source: &mut S,
    sink: &mut K,
    crew: Crew<'_, G>,
    enough: usize,
) -> Result<ScanOutcome<A>, Fault>
    requires text { P.text ≡ S.left source.old }
    requires plan { P.pieces ≡ option_map trace_plan P.text }
    requires workers { (0 < crew.workers) × (crew.workers ≤ 64) }
    requires capacity { (0 < crew.capacity) × (crew.capacity ≤ 4096) }
{
    let sizes = BlockSizes {
        least_read: 1,
        enough,
    };
    let queues = BlockQueues::<P, A>::new(alloc, sizes)?;
    let gate = BlockGate {
        gate: crew.gate,
        queues: &queues,
    };
    let crew = Crew {
        workers: crew.workers,
        capacity: crew.capacity,
        gate: &gate,
    };
    scan_by_queues(rt, alloc, source, sink, &queues, crew)
}
