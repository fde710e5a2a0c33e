//! The headers that explain a trace best.

ghost use Rattle.std.specs.Prelude.{◌≡◌, ◌≢◌, ℕ, ◌+◌, ◌<◌, ◌≤◌, ◌^◌, List, Some, Err, IfOk, IfErr};
ghost use Rattle.trace_text.specs.Sources.{IsRefusedBy};
ghost use Rattle.trace_text.specs.Refusals.{IsRefusal};
ghost use Rattle.live_report.specs.Reports.{IsRefusal as IsReportRefusal, IsReportFault, IsScanFault};
ghost use Rattle.header_trials.specs.Trials.{HasTaken};
ghost use Rattle.header_trials.specs.TriedLines.{HasTried, HasTriedPart};

use crate::tried_lines::{best_first, fewest_findings, write_lines};
use crate::tried_text::TriedText;
use channel_machine::channel::PackedChannel;
use channel_run::run::Channel;
use line_model::device::{Sink, Source};
use line_model::fault::Fault;
use std::alloc::Allocator;
use trace_text::consumer::read_to_end;

/// Writes the lines of the headers of a text that has ended, and returns the findings of the first.
fn write_tried<A: Allocator + Copy, C: Channel<A>, K: Sink>(
    alloc: A,
    text: TriedText<A, C>,
    sink: &mut K,
) -> Result<u32, Fault>
    requires { (x : List ℕ) × HasTaken C.Channel x text }
    ensures tried { (x : List ℕ) → HasTaken C.Channel x text
        → IfOk result (HasTried x (K.taken sink.old) (K.taken sink.new)) }
    ensures refused { (x : List ℕ) → HasTaken C.Channel x text
        → IfErr result (IsReportRefusal x) }
    ensures kinds { IfErr result IsReportFault }
    ensures write_failed { result ≡ Err Fault.Write → K.failures sink.old < K.failures sink.new }
    ensures unwritten { IfErr result (λ fault. fault ≢ Fault.Write → sink.new ≡ sink.old) }
    ensures part { (x : List ℕ) → HasTaken C.Channel x text
        → result ≡ Err Fault.Write → HasTriedPart x (K.taken sink.old) (K.taken sink.new) }
{
    let trials = text.end()?;
    let tried = best_first(alloc, trials.as_slice())?;
    write_lines(tried.as_slice(), sink)?;
    Ok(fewest_findings(tried.as_slice()))
}

/// Walks a trace under each header that is tried on it, and writes a heading and a line for each header, best first
/// (`AreTriedLines`): the reactions of the DCE, the findings, and the data that is not counted. Returns the findings of
/// the first line. Fails with the first faulty line, where the source or the sink fails, and when memory is refused.
/// The sink is then as it was, or it failed and accepted a first part.
pub fn try_headers<A: Allocator + Copy, S: Source, K: Sink>(
    alloc: A,
    source: &mut S,
    sink: &mut K,
) -> Result<u32, Fault>
    // Where it succeeds, the text has no fault, and the sink accepted exactly the heading and these lines, each once.
    ensures tried { (text : List ℕ) → S.left source.old ≡ Some text
        → IfOk result (HasTried text (K.taken sink.old) (K.taken sink.new)) }
    // The same holds for a source that hides its bytes.
    ensures of_text { IfOk result (λ findings. (text : List ℕ)
        × HasTried text (K.taken sink.old) (K.taken sink.new) findings) }
    // A refusal is by the bytes that were read.
    ensures refused { (text : List ℕ) → S.left source.old ≡ Some text
        → IfErr result (IsRefusedBy 0 (IsRefusal 0) text (S.left source.new) (S.before source.new)) }
    ensures kinds { IfErr result IsScanFault }
    ensures read_failed { result ≡ Err Fault.Read → S.failures source.old < S.failures source.new }
    ensures write_failed { result ≡ Err Fault.Write → K.failures sink.old < K.failures sink.new }
    // The sink is not asked before the whole text was accepted.
    ensures unwritten { IfErr result (λ fault. fault ≢ Fault.Write → sink.new ≡ sink.old) }
    // Where the sink failed, it accepted a first part of these lines.
    ensures part { (text : List ℕ) → S.left source.old ≡ Some text → result ≡ Err Fault.Write
        → HasTriedPart text (K.taken sink.old) (K.taken sink.new) }
    // For a source that hides its bytes, it accepted a first part of the lines of some text.
    ensures part_of_text { result ≡ Err Fault.Write → (text : List ℕ)
        × HasTriedPart text (K.taken sink.old) (K.taken sink.new) }
    // The source is asked at least once.
    ensures called { S.calls source.old < S.calls source.new }
    ensures asked { S.calls source.new ≤ S.calls source.old + (2 ^ 30 + 1) }
{
    let mut text = TriedText::<A, PackedChannel<A>>::new(alloc);
    read_to_end(source, &mut text, sink)?;
    write_tried(alloc, text, sink)
}
