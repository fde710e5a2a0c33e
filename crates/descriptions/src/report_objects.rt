//! Writes the objects of a report to a sink.

ghost use Rattle.std.specs.Prelude.{◌≡◌, ◌<◌, ◌≤◌, IfErr, OnErr, OnOk};
ghost use Rattle.line_model.specs.basics.Device.{with_more};
ghost use Rattle.line_model.specs.basics.Written.{HasFront};
ghost use Rattle.line_model.specs.observer.Report.{text_of};
ghost use Rattle.json_lines.specs.Json.{json_text};

use json_lines::sink::JsonSink;
use line_model::fault::Fault;
use line_model::lending::LentSink;
use line_model::report::Report;
use report_merge::text::write_report;
use std::alloc::Allocator;

/// Writes to a lent sink the objects of the lines of a report. Fails where the sink fails, which accepted a first part.
pub fn write_report_objects<A: Allocator, S: LentSink>(
    report: &Report<A>,
    sink: S,
) -> (S, Result<(), Fault>)
    requires { (S.taken sink, S.failures sink) ≡ S.before }
    ensures ok { OnOk result.1 (S.taken result.0
        ≡ with_more S.before.0 (json_text (text_of report.now))) }
    ensures part { OnErr result.1 (HasFront S.before.0 (S.taken result.0)
        (json_text (text_of report.now))) }
    ensures rising { S.before.1 ≤ S.failures result.0 }
    ensures failed { IfErr result.1 (λ fault. (fault ≡ Fault.Write)
        × (S.before.1 < S.failures result.0)) }
{
    let mut json = JsonSink::new(sink);
    let written = write_report(report, &mut json);
    let (lent, answer) = json.finish();
    match written {
        Ok(()) => (lent, answer),
        Err(fault) => (lent, Err(fault)),
    }
}
