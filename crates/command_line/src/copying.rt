//! The text of a trace in place of its report.

ghost use Rattle.std.specs.Prelude.{◌≡◌, ℕ, ◌<◌, ◌≤◌, ◌+◌, ◌^◌, IfErr, List, Some, false};
ghost use Rattle.command_line.specs.Copies.{CopiesOf, IsCopied};
ghost use Rattle.command_line.specs.Stopped.{HaltsRun, IsCause};

use crate::refusing::refuse_scan;
use line_model::device::{Sink, Source};
use line_model::fault::{Fault, Kind};
use line_model::write_buffer::write_all;
use std::alloc::Global;
use streams::input::Input;
use streams::output::Output;

/// The most bytes of a trace.
const MOST: usize = 1 << 30;

/// Returns the number of a line after bytes, by its number before them.
fn line_after(line: u32, bytes: &[u8]) -> u32 {
    let ended = bytes.iter().filter(|byte| **byte == b'\n').count();
    line.saturating_add(u32::try_from(ended).unwrap_or(u32::MAX))
}

/// Copies all bytes that a source gives to a sink, read by read. Fails where one of them fails, and at the line in which a
/// text goes on past the most bytes of a trace.
fn copy<S: Source, K: Sink>(source: &mut S, sink: &mut K) -> Result<(), Fault>
    ensures copied { (text : List ℕ) → S.left source.old ≡ Some text → IsCopied text (K.taken sink.old) (K.taken sink.new) result }
    ensures cause { IfErr result (IsCause (S.failures source.old < S.failures source.new)
        (K.failures sink.old < K.failures sink.new) ⊥) }
    ensures asked { S.calls source.new ≤ S.calls source.old + (2 ^ 30 + 1) }
{
    let mut room = MOST;
    let mut line = 1;
    loop {
        let Ok(()) = source.read() else {
            return Err(Fault::Read);
        };
        let chunk = source.latest();
        if chunk.is_empty() {
            return Ok(());
        }
        if chunk.len() > room {
            return Err(Fault::Trace(line_after(line, &chunk[..room]), Kind::TextLarge));
        }
        if let Err(fault) = write_all(sink, chunk) {
            return Err(fault);
        }
        room -= chunk.len();
        line = line_after(line, chunk);
    }
}

/// Returns the exit status of a trace whose text was printed: whether packets are missing from it.
fn copied_status<S: Input>(source: &S) -> u8
    ensures { result < 2 }
{
    if source.lacks_packets() { 1 } else { 0 }
}

/// Prints the text of the trace, and returns the exit status.
pub(crate) fn run_copy<S: Input, K: Output, E: Sink>(
    alloc: Global,
    source: &mut S,
    sink: &mut K,
    errors: &mut E,
) -> u8
    ensures status { CopiesOf (S.left source.old) (K.taken sink.old) (K.taken sink.new) result }
    ensures stopped { result ≡ 3 → HaltsRun S.Source K.Sink E.Sink false source.old source.new sink.old sink.new errors.old errors.new }
    ensures range { result < 4 }
    ensures asked { S.calls source.new ≤ S.calls source.old + (2 ^ 30 + 1) }
{
    match copy(source, sink) {
        Ok(()) => copied_status(source),
        Err(fault) => refuse_scan(alloc, source, sink, errors, fault),
    }
}
