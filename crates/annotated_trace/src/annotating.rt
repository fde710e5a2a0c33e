//! A scan of one thread that writes a trace again.

ghost use Rattle.std.specs.Prelude.{◌≡◌, ◌+◌, ◌<◌, ◌≤◌, ◌^◌, [], Err, IfErr, IfOk};
ghost use Rattle.annotated_trace.specs.Annotating.{Annotates, IsAnnotatingFault, Stops};

use crate::annotation::Annotation;
use crate::describer::Describer;
use crate::printing::print_trace;
use line_model::device::{Sink, Source};
use line_model::fault::Fault;
use line_model::totals::Summary;
use std::alloc::Allocator;
use trace_text::trace_observer::TraceObserver;

/// Writes a trace again, each line with its comments, and returns the last line of its report as numbers. Fails with
/// the first faulty line, where the source or the sink fails, when memory is refused, and as `TracePrinter::end` does.
/// The sink has all lines before a faulty one with their comments, all lines that an LF ended where the source failed,
/// and otherwise a first part.
pub fn annotate<A: Allocator + Copy, O: TraceObserver<A>, D: Describer<A, O>, S: Source, K: Sink>(
    alloc: A,
    trace: O,
    describer: D,
    source: &mut S,
    sink: &mut K,
) -> Result<Summary, Fault>
    requires fresh { O.represents trace [] }
    // The source gave a text without a fault, and the sink accepted an annotation of it, of exactly the rows that the
    // describer chooses.
    ensures annotated { IfOk result (Annotates (D.rows describer) (S.left source.old)
        (S.left source.new)
        (S.before source.new) (K.taken sink.old) (K.taken sink.new)) }
    // A refusal is by the bytes that were read, and those before the last call of the source show no faulty line. The
    // sink has the annotation of all lines before the faulty one, if it did not fail; of all that ended where the source
    // failed, or memory was refused at the end; otherwise a first part.
    ensures stopped { IfErr result (Stops (D.rows describer) (S.left source.old) (S.left source.new)
        (S.before source.new) (K.taken sink.old) (K.taken sink.new) (K.failures sink.new
        ≡ K.failures sink.old)) }
    ensures kinds { IfErr result IsAnnotatingFault }
    ensures read_failed { result ≡ Err Fault.Read → S.failures source.old < S.failures source.new }
    ensures write_failed { result ≡ Err Fault.Write → K.failures sink.old < K.failures sink.new }
    // The source is asked at least once.
    ensures called { S.calls source.old < S.calls source.new }
    ensures asked { S.calls source.new ≤ S.calls source.old + (2 ^ 30 + 1) }
{
    print_trace(
        alloc,
        trace,
        Annotation::new(alloc, describer),
        source,
        sink,
    )
}
