//! A scan with workers.

ghost use Rattle.std.specs.Prelude.{◌≡◌, ◌≢◌, ℕ, ◌+◌, ◌<◌, ◌≤◌, ◌⊎◌, ◌^◌, List, Some, Ok, Err, IfOk, IfErr, IfSome, OnOk, is_some, is_ok, true, vec_len};
ghost use Rattle.std.specs.Option.{option_map};
ghost use Rattle.line_model.specs.traces.Traces.{trace_plan, trace_report};
ghost use Rattle.line_model.specs.work.Book.{sum_of};
ghost use Rattle.live_report.specs.Reports.{IsReported, IsTaken, IsPartTaken};
ghost use Rattle.trace_text.specs.Sources.{IsRefusedBy};
ghost use Rattle.trace_reading.specs.Readings.{in_flight};
ghost use Rattle.trace_text.specs.Refusals.{IsRefusal};
ghost use Rattle.trace_scan.specs.Threaded.{AreRuns, AreScanParts, IsStopped, IsWorkedFault, trace_totals};

use crate::gate::BlockGate;
use line_model::device::Sink;
use line_model::fault::Fault;
use line_model::lending::take_back;
use line_model::piece::Plan;
use line_model::totals::{Summary, Totals};
use report_merge::merging::merge;
use report_merge::reports::BundleReport;
use report_merge::text::write_report;
use std::alloc::{Allocator, Global};
use std::marker::Brand;
use std::sync::Wait;
use std::thread::{Threads, available_parallelism};
use std::time::Clock;
use streams::room_source::RoomSource;
use trace_reading::block_queues::{BLOCK_BYTES, BlockQueues, BlockSizes};
use trace_reading::feeding::{Read, ReadingTask};
use trace_reading::room::Room;
use trace_reading::text_block::TraceText;
use workers::{Crew, Gate, Gathered, Worked, work_through};

/// What the reading thread read, and what the workers made of its pieces.
#[derive(Drop)]
pub struct ScanParts<A: Allocator = Global> {
    /// What was read.
    pub read: Read<A>,
    /// The reports of the pieces, with their sums.
    pub gathered: Gathered<A, BundleReport<A>>,
}

/// Returns what was read and made. Fails with the fault of the reading thread, or otherwise with that of a worker, which
/// is out of memory.
pub fn first_fault<A: Allocator>(
    outcome: Option<Result<Read<A>, Fault>>,
    gathered: Result<Gathered<A, BundleReport<A>>, Fault>,
) -> Result<ScanParts<A>, Fault>
    requires some { is_some outcome ≡ true }
    ensures both { IfOk result (λ t. (outcome ≡ Some (Ok t.read)) × (gathered ≡ Ok t.gathered)) }
    ensures first { IfErr result (λ f. (outcome ≡ Some (Err f))
        ⊎ (IfSome outcome (λ o. is_ok o ≡ true) × (gathered ≡ Err f))) }
{
    let Some(outcome) = outcome else {
        unreachable!();
    };
    let read = outcome?;
    let gathered = gathered?;
    Ok(ScanParts { read, gathered })
}

/// A read with fewer bytes is cut at once: such a source is slow, and its lines are refused as they come.
const LEAST_READ: usize = 1 << 15;

/// How the trace text is cut into blocks. On one processor nothing is a block: no other thread would read it meanwhile.
fn block_sizes(rt: &impl Threads) -> BlockSizes {
    let least_read = match available_parallelism(rt) {
        Ok(processors) if processors.get() > 1 => LEAST_READ,
        _ => usize::MAX,
    };
    BlockSizes {
        least_read,
        enough: BLOCK_BYTES,
    }
}

/// Reads a trace and works through its pieces.
fn work_on_trace<
    P: Plan + TraceText + Send + Sync,
    A: Allocator + Copy + Send + Sync,
    S: RoomSource,
    G: Gate,
    R: Threads + Wait + Clock + Sync,
>(rt: &R, alloc: A, source: &mut S, crew: Crew<'_, G>) -> Result<ScanParts<A>, Fault>
    requires text { P.text ≡ S.left source.old }
    requires plan { P.pieces ≡ option_map trace_plan P.text }
    requires workers { (0 < crew.workers) × (crew.workers ≤ 64) }
    requires capacity { (0 < crew.capacity) × (crew.capacity ≤ 4096) }
    ensures parts { IfOk result (AreScanParts P.pieces (G.ran crew.entry.gate.now) crew.entry.workers
        (S.left source.old) (S.left source.new) (S.before source.new)) }
    ensures stopped { IfErr result (IsStopped (S.left source.old) (S.left source.new)
        (S.before source.new)) }
    ensures read_failed { result ≡ Err Fault.Read → S.failures source.old < S.failures source.new }
    ensures start { result ≡ Err Fault.Start → source.new ≡ source.old }
    ensures unasked { S.calls source.new ≡ S.calls source.old → source.new ≡ source.old }
    ensures asked { S.calls source.new ≤ S.calls source.old + (2 ^ 30 + 1) }
{
    let queues = BlockQueues::<P, A>::new(alloc, block_sizes(rt))?;
    let room = Room::new(Vec::new(alloc))?;
    let gate = BlockGate {
        gate: crew.gate,
        queues: &queues,
    };
    let reading = ReadingTask {
        source,
        queues: &queues,
        room: Some(room),
        outcome: None,
    };
    let crew = Crew {
        workers: crew.workers,
        capacity: crew.capacity,
        gate: &gate,
    };
    match work_through::<P, A, BlockGate<P, A, G>, R, ReadingTask<P, A, S>>(
        rt, alloc, crew, reading,
    ) {
        Ok(worked) => {
            let Worked { task, gathered } = worked;
            let ReadingTask {
                source,
                room,
                outcome,
                ..
            } = task;
            drop(room);
            take_back(source);
            first_fault(outcome, gathered)
        }
        Err((reading, fault)) => {
            let ReadingTask {
                source,
                room,
                outcome,
                ..
            } = reading;
            drop(room);
            take_back(source);
            drop(outcome);
            Err(fault)
        }
    }
}

/// What a scan with workers returns: the last line of the report, the totals over the channels, and each worker's share
/// of them.
#[derive(Drop)]
pub struct ScanOutcome<A: Allocator = Global> {
    /// The report's last line.
    pub summary: Summary,
    /// The sums over all channels.
    pub totals: Totals,
    /// The sums of each worker's posts.
    pub shares: Vec<Totals, A>,
}

/// Reads a trace, and has 1 to 64 workers run its pieces while it is read, over a queue of 1 to 4,096 entries. After
/// the whole text was accepted and all workers were joined, it writes the report of one observer that walks the trace
/// packet by packet. Fails where no thread is started, before anything is read; with the first faulty line; where the
/// source fails, whose bytes then show no faulty line; when memory is refused, where all bytes except those of the
/// blocks in flight show none (`IsRefusal`); and where the sink fails, where the text has no fault. The fault of a line
/// is the text's whatever follows (`line_model::laws::fault`).
pub fn scan_with<
    A: Allocator + Copy + Send + Sync,
    S: RoomSource,
    K: Sink,
    G: Gate,
    R: Threads + Wait + Clock + Sync,
>(
    rt: &R,
    alloc: A,
    source: &mut S,
    sink: &mut K,
    workers: usize,
    capacity: usize,
    gate: &G,
) -> Result<ScanOutcome<A>, Fault>
    requires workers { (0 < workers) × (workers ≤ 64) }
    requires capacity { (0 < capacity) × (capacity ≤ 4096) }
    // Of a text without a fault the sink accepted exactly the report of the one observer.
    ensures reported { (text : List ℕ) → S.left source.old ≡ Some text
        → IfOk result (λ scan. IsReported text (K.taken sink.old) (K.taken sink.new) scan.summary) }
    // The totals are that observer's over the channels.
    ensures totals { (text : List ℕ) → S.left source.old ≡ Some text
        → IfOk result (λ scan. scan.totals ≡ trace_totals text) }
    // The same holds of some text for a source that hides its bytes.
    ensures of_text { IfOk result (λ scan. (text : List ℕ)
        × IsReported text (K.taken sink.old) (K.taken sink.new) scan.summary
        × (scan.totals ≡ trace_totals text)) }
    ensures shares { IfOk result (λ scan. (vec_len scan.shares ≡ workers)
        × (scan.totals ≡ sum_of scan.shares.items)) }
    // Each piece's report is one that this gate made of it.
    ensures runs { (text : List ℕ) → S.left source.old ≡ Some text
        → OnOk result (AreRuns (G.ran gate.now) text) }
    // A refusal is by the bytes that were read: by the first faulty line of all of them. Those before the last call of
    // the source show none, except for at most those of the blocks in flight.
    ensures refused { (text : List ℕ) → S.left source.old ≡ Some text
        → IfErr result (IsRefusedBy in_flight (IsRefusal in_flight) text (S.left source.new)
        (S.before source.new)) }
    ensures read_failed { result ≡ Err Fault.Read → S.failures source.old < S.failures source.new }
    ensures write_failed { result ≡ Err Fault.Write → K.failures sink.old < K.failures sink.new }
    // Where no thread was made the source was not asked.
    ensures start { result ≡ Err Fault.Start → source.new ≡ source.old }
    // The sink is not asked before the whole text was accepted and all workers were joined.
    ensures unwritten { IfErr result (λ fault. fault ≢ Fault.Write → sink.new ≡ sink.old) }
    ensures taken { (text : List ℕ) → S.left source.old ≡ Some text
        → IfErr result (IsTaken (K.taken sink.old) (K.taken sink.new) (trace_report text)) }
    // Whatever the source shows: where the sink failed, it accepted a first part of the report of a text without a fault.
    ensures part { result ≡ Err Fault.Write → IsPartTaken (K.taken sink.old) (K.taken sink.new) }
    // The merge fails only when memory is refused.
    ensures kinds { IfErr result IsWorkedFault }
    // A source that was not asked is as it was.
    ensures unasked { S.calls source.new ≡ S.calls source.old → source.new ≡ source.old }
    ensures asked { S.calls source.new ≤ S.calls source.old + (2 ^ 30 + 1) }
{
    let crew = Crew {
        workers,
        capacity,
        gate,
    };
    let parts = work_on_trace::<Brand, A, S, G, R>(rt, alloc, source, crew)?;
    let ScanParts { read, gathered } = parts;
    let Gathered {
        totals,
        shares,
        reports,
    } = gathered;
    let report = merge(
        alloc,
        reports,
        read.interface_findings,
        read.counts,
        read.pieces,
    )?;
    write_report(&report, sink)?;
    Ok(ScanOutcome {
        summary: report.summary,
        totals,
        shares,
    })
}
