//! The text of a report.

ghost use Rattle.std.specs.Prelude.{◌≡◌, ◌<◌, ◌≤◌, OnOk, OnErr, IfErr};
ghost use Rattle.std.specs.List.{flat_map, enumerate_from};
ghost use Rattle.line_model.specs.observer.Report.{text_of, call_line, setting_line, setting_lines, account_line};
ghost use Rattle.report_merge.specs.Parts.{findings_text, rest_text};
ghost use Rattle.line_model.specs.basics.Written.{PutsTo, TakesAll, TakesFront};

use crate::lines::{
    put_account, put_call, put_finding, put_gaps, put_peak, put_setting, put_summary,
};
use line_model::call::{Account, CallRecord, SettingRecord};
use line_model::device::Sink;
use line_model::fault::Fault;
use line_model::finding::Finding;
use line_model::report::Report;
use line_model::write_buffer::WriteBuffer;
use std::alloc::Allocator;

/// Puts the lines of findings.
fn put_findings<W: Sink>(out: &mut WriteBuffer, sink: &mut W, findings: &[Finding])
    ensures { PutsTo W.Sink sink.old sink.new out.old out.new (findings_text findings.now) }
{
    for finding in findings {
        put_finding(out, sink, finding);
    }
}

/// Puts the lines of accounts.
fn put_accounts<W: Sink>(out: &mut WriteBuffer, sink: &mut W, accounts: &[Account])
    ensures { PutsTo W.Sink sink.old sink.new out.old out.new
        (flat_map account_line accounts.now) }
{
    for account in accounts {
        put_account(out, sink, account);
    }
}

/// Puts the lines of the settings of a call.
fn put_settings<W: Sink>(
    out: &mut WriteBuffer,
    sink: &mut W,
    number: u64,
    settings: &[SettingRecord],
)
    ensures { PutsTo W.Sink sink.old sink.new out.old out.new
        (flat_map (setting_line number) settings.now) }
{
    for setting in settings {
        put_setting(out, sink, number, setting);
    }
}

/// Puts the lines of calls.
fn put_calls<W: Sink, A: Allocator>(out: &mut WriteBuffer, sink: &mut W, calls: &[CallRecord<A>])
    ensures { PutsTo W.Sink sink.old sink.new out.old out.new
        (flat_map call_line (enumerate_from 1 calls.now)) }
{
    for (index, call) in calls.iter().enumerate() {
        put_call(out, sink, index as u64 + 1, call);
    }
}

/// Puts the lines of the settings of calls.
fn put_all_settings<W: Sink, A: Allocator>(
    out: &mut WriteBuffer,
    sink: &mut W,
    calls: &[CallRecord<A>],
)
    ensures { PutsTo W.Sink sink.old sink.new out.old out.new
        (flat_map setting_lines (enumerate_from 1 calls.now)) }
{
    for (index, call) in calls.iter().enumerate() {
        put_settings(out, sink, index as u64 + 1, call.settings.as_slice());
    }
}

/// Puts the lines of a report after its findings.
fn put_rest<W: Sink, A: Allocator>(out: &mut WriteBuffer, sink: &mut W, report: &Report<A>)
    ensures { PutsTo W.Sink sink.old sink.new out.old out.new (rest_text report.now) }
{
    put_calls(out, sink, report.calls.as_slice());
    put_all_settings(out, sink, report.calls.as_slice());
    put_accounts(out, sink, report.accounts.as_slice());
    put_peak(out, sink, report.peak);
    put_gaps(out, sink, report.gaps);
    put_summary(out, sink, &report.summary);
}

/// Puts all the lines of a report.
fn put_report<W: Sink, A: Allocator>(out: &mut WriteBuffer, sink: &mut W, report: &Report<A>)
    ensures { PutsTo W.Sink sink.old sink.new out.old out.new (text_of report.now) }
{
    put_findings(out, sink, report.findings.as_slice());
    put_rest(out, sink, report);
}

/// Writes the text of a report to a sink (the text is profile). Needs no memory. Returns `Write` only where the sink
/// failed; it accepted a first part of the text then.
pub fn write_report<W: Sink, A: Allocator>(report: &Report<A>, sink: &mut W) -> Result<(), Fault>
    ensures ok { OnOk result (TakesAll W.Sink sink.old sink.new (text_of report.now)) }
    ensures part { OnErr result (TakesFront W.Sink sink.old sink.new (text_of report.now)) }
    ensures cause { OnErr result (W.failures sink.old < W.failures sink.new) }
    ensures write { IfErr result (λ f. f ≡ Fault.Write) }
{
    let mut out = WriteBuffer::new();
    put_report(&mut out, sink, report);
    out.end(sink)
}

/// Writes the lines of findings to a sink, as `write_report` writes those of a report.
pub fn write_findings<W: Sink>(findings: &[Finding], sink: &mut W) -> Result<(), Fault>
    ensures ok { OnOk result (TakesAll W.Sink sink.old sink.new (findings_text findings.now)) }
    ensures part { OnErr result (TakesFront W.Sink sink.old sink.new (findings_text findings.now)) }
    ensures rising { W.failures sink.old ≤ W.failures sink.new }
    ensures cause { OnErr result (W.failures sink.old < W.failures sink.new) }
    ensures write { IfErr result (λ f. f ≡ Fault.Write) }
{
    let mut out = WriteBuffer::new();
    put_findings(&mut out, sink, findings);
    out.end(sink)
}

/// Writes to a sink the lines of a report after its findings, as `write_report` does.
pub fn write_rest<W: Sink, A: Allocator>(report: &Report<A>, sink: &mut W) -> Result<(), Fault>
    ensures ok { OnOk result (TakesAll W.Sink sink.old sink.new (rest_text report.now)) }
    ensures part { OnErr result (TakesFront W.Sink sink.old sink.new (rest_text report.now)) }
    ensures rising { W.failures sink.old ≤ W.failures sink.new }
    ensures cause { OnErr result (W.failures sink.old < W.failures sink.new) }
    ensures write { IfErr result (λ f. f ≡ Fault.Write) }
{
    let mut out = WriteBuffer::new();
    put_rest(&mut out, sink, report);
    out.end(sink)
}
