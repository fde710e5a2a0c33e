//! The rows of the trace in place of its report: the trace once more with comments, an object for each row, or a line for each
//! finding; or the table of its calls.

ghost use Rattle.std.specs.Prelude.{◌≡◌, ◌<◌, ◌≤◌, ◌+◌, ◌^◌, IfErr, IfOk, false};
ghost use Rattle.command_line.specs.Printing.{IsPrintStatus, PrintsTo, StopsTo};
ghost use Rattle.command_line.specs.Stopped.{HaltsRun, IsCause};

use crate::annotated_scan::annotate;
use crate::asked::{OutputForm, Printing};
use crate::program::summary_status;
use crate::refusing::refuse_scan;
use annotated_trace::printing::print_trace as print_by;
use annotated_trace::rows::Rows;
use channel_machine::channel::PackedChannel;
use descriptions::call_table::{CallTable, Csv, Objects};
use descriptions::finding_lines::FindingLines;
use descriptions::row_objects::RowObjects;
use line_model::device::{Sink, Source};
use line_model::fault::Fault;
use line_model::totals::Summary;
use line_model::write_buffer::write_all;
use live_report::live::Live;
use std::alloc::Global;
use streams::input::Input;
use streams::output::Output;

/// The observer of the trace that is printed, which keeps the row that it read last.
type Trace = Live<Global, PackedChannel<Global>>;

/// Prints how many calls the report has, where the rows of a further one were chosen.
fn print_missing_call<E: Sink>(alloc: Global, errors: &mut E, call: u32, calls: u64) {
    if u64::from(call) <= calls {
        return;
    }
    let counted = if calls == 1 { "call" } else { "calls" };
    if let Ok(text) = format!(in alloc;
        "x25scan: --call {call} chose no row: the report has {calls} {counted}\n"
    ) {
        let _ = write_all(errors, text.as_bytes());
    }
}

/// Prints which logical channels the header has, where the rows of a further one were chosen.
fn print_missing_channel<S: Input, E: Sink>(
    alloc: Global,
    errors: &mut E,
    channel: u16,
    source: &S,
) {
    let Some(line) = source.last_line() else {
        return;
    };
    let Some(interface) = line.interface else {
        return;
    };
    let last = interface.svc;
    if channel <= last {
        return;
    }
    if let Ok(text) = format!(in alloc;
        "x25scan: --channel {channel}: the header has logical channels 1 to {last}\n"
    ) {
        let _ = write_all(errors, text.as_bytes());
    }
}

/// Prints that the trace has no channel or no call of the numbers by which rows were chosen.
fn print_missing<S: Input, E: Sink>(
    alloc: Global,
    rows: Rows,
    source: &S,
    summary: &Summary,
    errors: &mut E,
) {
    let Rows::Chosen { channel, call } = rows else {
        return;
    };
    if let Some(channel) = channel {
        print_missing_channel(alloc, errors, channel, source);
    }
    if let Some(call) = call {
        print_missing_call(alloc, errors, call, summary.calls);
    }
}

/// Prints the trace in a form: with comments as `annotate` does, otherwise what its printer makes of each line, as
/// `annotated_trace::printing::print_trace` does.
fn print<S: Source, K: Sink>(
    alloc: Global,
    printing: Printing,
    source: &mut S,
    sink: &mut K,
) -> Result<Summary, Fault>
    ensures printed { IfOk result (PrintsTo S.Source K.Sink printing source.old source.new sink.old sink.new) }
    ensures stopped { IfErr result (StopsTo S.Source K.Sink printing source.old source.new sink.old sink.new) }
    ensures cause { IfErr result (IsCause (S.failures source.old < S.failures source.new)
        (K.failures sink.old < K.failures sink.new) ⊥) }
    ensures asked { S.calls source.new ≤ S.calls source.old + (2 ^ 30 + 1) }
{
    match printing.form {
        OutputForm::Comments => annotate(alloc, printing.rows, source, sink),
        OutputForm::Objects => {
            let rows = RowObjects::new(alloc, printing.rows);
            print_by(alloc, Trace::with_rows(alloc), rows, source, sink)
        }
        OutputForm::Findings => {
            let findings = FindingLines::new(alloc, printing.rows);
            print_by(alloc, Trace::with_rows(alloc), findings, source, sink)
        }
        OutputForm::Table => {
            let table = CallTable::<Global, Csv>::new(alloc);
            print_by(alloc, Trace::with_rows(alloc), table, source, sink)
        }
        OutputForm::TableObjects => {
            let objects = CallTable::<Global, Objects>::new(alloc);
            print_by(alloc, Trace::with_rows(alloc), objects, source, sink)
        }
    }
}

/// Prints the trace, and returns the exit status.
pub(crate) fn run_print<S: Input, K: Output, E: Sink>(
    alloc: Global,
    printing: Printing,
    source: &mut S,
    sink: &mut K,
    errors: &mut E,
) -> u8
    ensures status { IsPrintStatus printing (S.left source.old) (S.left source.new) (S.before source.new)
        (K.taken sink.old) (K.taken sink.new) (K.failures sink.new ≡ K.failures sink.old) result }
    ensures stopped { result ≡ 3 → HaltsRun S.Source K.Sink E.Sink false source.old source.new sink.old sink.new errors.old errors.new }
    ensures range { result < 4 }
    ensures asked { S.calls source.new ≤ S.calls source.old + (2 ^ 30 + 1) }
{
    match print(alloc, printing, source, sink) {
        Ok(summary) => {
            print_missing(alloc, printing.rows, source, &summary, errors);
            summary_status(&summary)
        }
        Err(fault) => refuse_scan(alloc, source, sink, errors, fault),
    }
}
