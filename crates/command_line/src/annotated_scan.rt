//! The scan of one thread that annotates a trace.

ghost use Rattle.std.specs.Prelude.{◌≡◌, ◌+◌, ◌<◌, ◌≤◌, ◌^◌, Err, IfErr, IfOk};
ghost use Rattle.annotated_trace.specs.Annotating.{Annotates, IsAnnotatingFault, Stops};

use annotated_trace::annotating::annotate as annotate_by;
use annotated_trace::rows::Rows;
use channel_machine::channel::PackedChannel;
use descriptions::descriptions::Descriptions;
use line_model::device::{Sink, Source};
use line_model::fault::Fault;
use line_model::totals::Summary;
use live_report::live::Live;
use std::alloc::Allocator;

/// Writes a trace again with comments in words after its rows, as `annotated_trace::annotating::annotate` does.
pub fn annotate<A: Allocator + Copy, S: Source, K: Sink>(
    alloc: A,
    rows: Rows,
    source: &mut S,
    sink: &mut K,
) -> Result<Summary, Fault>
    // The source gave a text without a fault, and the sink accepted an annotation of exactly these rows of it.
    ensures annotated { IfOk result (Annotates rows (S.left source.old)
        (S.left source.new) (S.before source.new) (K.taken sink.old) (K.taken sink.new)) }
    // A refusal is by the bytes that were read, and the sink has a first part of their annotation.
    ensures stopped { IfErr result (Stops rows (S.left source.old) (S.left source.new) (S.before source.new)
        (K.taken sink.old) (K.taken sink.new) (K.failures sink.new ≡ K.failures sink.old)) }
    ensures kinds { IfErr result IsAnnotatingFault }
    ensures read_failed { result ≡ Err Fault.Read → S.failures source.old < S.failures source.new }
    ensures write_failed { result ≡ Err Fault.Write → K.failures sink.old < K.failures sink.new }
    // The source is asked at least once.
    ensures called { S.calls source.old < S.calls source.new }
    ensures asked { S.calls source.new ≤ S.calls source.old + (2 ^ 30 + 1) }
{
    annotate_by(
        alloc,
        Live::<A, PackedChannel<A>>::with_rows(alloc),
        Descriptions::new(alloc, rows),
        source,
        sink,
    )
}
