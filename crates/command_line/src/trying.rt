//! The headers that explain a trace best, in place of its report.

ghost use Rattle.std.specs.Prelude.{◌≡◌, ◌<◌, ◌≤◌, ◌+◌, ◌^◌, false, ◌==◌, if◌then◌else◌};
ghost use Rattle.command_line.specs.Stopped.{HaltsRun};
ghost use Rattle.command_line.specs.Trying.{TriesOf};

use crate::refusing::refuse_scan;
use header_trials::trying::try_headers;
use line_model::device::Sink;
use std::alloc::Global;
use streams::input::Input;
use streams::output::Output;

/// The exit status by the findings of the best header.
fn tried_status(findings: u32) -> u8
    ensures { result ≡ (if findings == 0 then 0 else 1) }
{
    if findings == 0 { 0 } else { 1 }
}

/// Tries the headers on the trace, and returns the exit status.
pub(crate) fn run_try<S: Input, K: Output, E: Sink>(
    alloc: Global,
    source: &mut S,
    sink: &mut K,
    errors: &mut E,
) -> u8
    ensures status { TriesOf (S.left source.old) (S.left source.new) (S.before source.new)
        (K.taken sink.old) (K.taken sink.new) (K.failures sink.new ≡ K.failures sink.old) result }
    ensures stopped { result ≡ 3 → HaltsRun S.Source K.Sink E.Sink false source.old source.new sink.old sink.new errors.old errors.new }
    ensures range { result < 4 }
    ensures asked { S.calls source.new ≤ S.calls source.old + (2 ^ 30 + 1) }
{
    match try_headers(alloc, source, sink) {
        Ok(findings) => tried_status(findings),
        Err(fault) => refuse_scan(alloc, source, sink, errors, fault),
    }
}
