//! A scan of one thread.

ghost use Rattle.std.specs.Prelude.{◌≡◌, ◌≢◌, ℕ, ◌+◌, ◌<◌, ◌≤◌, ◌^◌, List, Some, Err, IfOk, IfErr, OnOk};
ghost use Rattle.trace_text.specs.Sources.{IsRefusedBy};
ghost use Rattle.trace_text.specs.Refusals.{IsRefusal};
ghost use Rattle.live_report.specs.Uncounted.{trace_uncounted};
ghost use Rattle.live_report.specs.Reports.{IsReported, IsTaken, IsPartTaken, IsScanFault};
ghost use Rattle.line_model.specs.traces.Traces.{trace_report};

use crate::reading::Walk;
use channel_machine::channel::PackedChannel;
use line_model::device::{Sink, Source};
use line_model::fault::Fault;
use line_model::totals::Summary;
use live_report::live::Live;
use live_report::uncounted::Uncounted;
use std::alloc::Allocator;
use trace_text::consumer::read_to_end;

/// Walks a trace in one thread, writes the report once the whole text was accepted, and returns its last line as
/// numbers, and the data that was not counted. Fails with the first faulty line, where the source fails, when memory is
/// refused, and where the sink fails. The fault of a line is the text's whatever follows (`line_model::laws::fault`).
pub fn scan_alone<A: Allocator + Copy, S: Source, K: Sink>(
    alloc: A,
    source: &mut S,
    sink: &mut K,
    uncounted: &mut Uncounted,
) -> Result<Summary, Fault>
    // Of a text without a fault the sink accepted exactly the report.
    ensures reported { (text : List ℕ) → S.left source.old ≡ Some text
        → IfOk result (IsReported text (K.taken sink.old) (K.taken sink.new)) }
    // And what was not counted of it is returned.
    ensures uncounted { (text : List ℕ) → S.left source.old ≡ Some text
        → OnOk result (uncounted.new ≡ trace_uncounted text) }
    // The same holds for a source that hides its bytes.
    ensures of_text { IfOk result (λ sums. (text : List ℕ)
        × IsReported text (K.taken sink.old) (K.taken sink.new) sums) }
    // A refusal is by the bytes that were read. Those before the last call of the source show no faulty line, and all
    // but at most the last 65,536 show none.
    ensures refused { (text : List ℕ) → S.left source.old ≡ Some text
        → IfErr result (IsRefusedBy 0 (IsRefusal 0) text (S.left source.new) (S.before source.new)) }
    ensures kinds { IfErr result IsScanFault }
    ensures read_failed { result ≡ Err Fault.Read → S.failures source.old < S.failures source.new }
    ensures write_failed { result ≡ Err Fault.Write → K.failures sink.old < K.failures sink.new }
    // The sink is not asked before the whole text was accepted.
    ensures unwritten { IfErr result (λ fault. fault ≢ Fault.Write → sink.new ≡ sink.old) }
    ensures taken { (text : List ℕ) → S.left source.old ≡ Some text
        → IfErr result (IsTaken (K.taken sink.old) (K.taken sink.new) (trace_report text)) }
    // Whatever the source shows: where the sink failed, it accepted a first part of the report of a text without a fault.
    ensures part { result ≡ Err Fault.Write → IsPartTaken (K.taken sink.old) (K.taken sink.new) }
    // The source is asked at least once.
    ensures called { S.calls source.old < S.calls source.new }
    ensures asked { S.calls source.new ≤ S.calls source.old + (2 ^ 30 + 1) }
{
    let mut walk = Walk {
        live: Live::<A, PackedChannel<A>>::new(alloc),
    };
    read_to_end(source, &mut walk, sink)?;
    walk.live.end(sink, uncounted)
}
