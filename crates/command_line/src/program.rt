//! The program: its words and its exit status.

ghost use Rattle.std.specs.Prelude.{◌≡◌, ◌≢◌, ℕ, ◌<◌, ◌≤◌, ◌+◌, ◌^◌, ◌⊎◌, Err, IfErr, IfOk, List, None, Some, map, not, option_map, true};
ghost use Rattle.clap.specs.Words.{kind_of};
ghost use Rattle.live_report.specs.Reports.{IsReported};
ghost use Rattle.command_line.specs.Answer.{IsAnswerTo, IsOutput, IsReportOutput};
ghost use Rattle.capture_report.specs.Given.{is_plain};
ghost use Rattle.command_line.specs.Asked.{asked_of, asked_words, has_options};
ghost use Rattle.command_line.specs.Faults.{IsSaid, fault_line};
ghost use Rattle.command_line.specs.Stopped.{HaltsRun, IsCause, IsStopped, asked_workers, has_workers, opened_by, output_workers};
ghost use Rattle.command_line.specs.Program.{IsAskedTextTaken, IsReportStatus, IsScanRefusal, IsStatusOfShown, IsUnread, RefusesLine, asked_text, fault_status, is_followed, lag_of, status_of, summary_status, trace_of, words_status};

use crate::asked::{Asked, AskedReport, AskedTrace, ScanMode, TraceOutput};
use crate::copying::run_copy;
use crate::explaining::explain_word;
use crate::help::{HELP, VERSION};
use crate::json::scan_json;
use crate::notes::print_note;
use crate::opening::open_trace;
use crate::options::parse;
use crate::printing::run_print;
use crate::refusing::{refuse, refuse_scan, refuse_usage};
use crate::trying::run_try;
use clap::Error;
use clap::error::ErrorKind;
use line_model::device::Sink;
use line_model::fault::Fault;
use line_model::totals::Summary;
use line_model::write_buffer::write_all;
use live_report::uncounted::Uncounted;
use std::alloc::Global;
use std::sync::Wait;
use std::thread::Threads;
use std::time::Clock;
use streams::input::Input;
use streams::output::Output;
use trace_scan::following::follow;
use trace_scan::gate::OpenGate;
use trace_scan::scan::scan_alone;
use trace_scan::threaded::scan_with;

/// The exit status where the words are refused.
pub const USAGE: u8 = 64;

/// The exit status of a fault that is not the trace's.
pub const OTHER_FAULT: u8 = 3;

/// The workers of a scan whose words name no number of them.
const WORKERS: u8 = 4;

/// How many bundles of pieces wait for the workers at the most.
const WAITING: usize = 64;

/// Prints what is wrong with the words, as far as it can be printed.
fn print_words_fault<E: Sink>(alloc: Global, errors: &mut E, error: &Error) {
    if let Ok(text) = format!(in alloc; "{error}") {
        let _ = write_all(errors, text.as_bytes());
    }
}

pub(crate) fn summary_status(summary: &Summary) -> u8
    ensures { result ≡ summary_status summary.now }
{
    if summary.findings == 0 { 0 } else { 1 }
}

pub(crate) fn fault_status(fault: Fault) -> u8
    ensures { result ≡ fault_status fault }
{
    match fault {
        Fault::Trace(_, _) => 2,
        _ => OTHER_FAULT,
    }
}

/// What the program runs on: the threads and the clock of the system, and its memory.
#[derive(Clone, Copy)]
pub(crate) struct Host<'a, R> {
    pub rt: &'a R,
    pub alloc: Global,
}

/// Whether a note is printed of the data that was not counted: where it is asked for, and automatically where a
/// terminal shows it and no number of workers is named.
fn has_note<S: Input>(report: &AskedReport, source: &S) -> bool {
    match report.mode {
        ScanMode::Workers(Some(_)) => false,
        _ => report.notes || source.shows_terminal(),
    }
}

/// Returns the mode of a scan whose note is printed or not: one thread scans in place of workers where it is.
fn noted_mode(mode: ScanMode, has_note: bool) -> ScanMode
    ensures lag { lag_of result ≤ lag_of mode }
    ensures followed { is_followed result ≡ is_followed mode }
    ensures workers { has_workers result ≡ true → has_workers mode ≡ true }
{
    match mode {
        ScanMode::Workers(count) => {
            if has_note {
                ScanMode::Alone
            } else {
                ScanMode::Workers(count)
            }
        }
        _ => mode,
    }
}

/// Scans a trace in a mode. Returns the sums of its report and, of one thread, the data that was not counted.
pub(crate) fn run_scan<S: Input, K: Output, R: Threads + Wait + Clock + Sync>(
    host: Host<'_, R>,
    mode: ScanMode,
    source: &mut S,
    sink: &mut K,
    uncounted: &mut Uncounted,
) -> Result<Summary, Fault>
    ensures reported { (text : List ℕ) → S.left source.old ≡ Some text
        → IfOk result (IsReported text (K.taken sink.old) (K.taken sink.new)) }
    // The same holds of some text for a source that hides its bytes.
    ensures of_text { IfOk result (λ sums. (text : List ℕ) × IsReported text (K.taken sink.old) (K.taken sink.new) sums) }
    ensures refused { (text : List ℕ) → S.left source.old ≡ Some text
        → IfErr result (IsScanRefusal (lag_of mode) (is_followed mode) text (S.left source.new) (S.before source.new)
        (K.taken sink.old) (K.taken sink.new) (K.failures sink.new ≡ K.failures sink.old)) }
    ensures write_failed { result ≡ Err Fault.Write → K.failures sink.old < K.failures sink.new }
    ensures cause { IfErr result (IsCause (S.failures source.old < S.failures source.new)
        (K.failures sink.old < K.failures sink.new)
        ((has_workers mode ≡ true) × (S.calls source.new ≡ S.calls source.old))) }
    ensures asked { S.calls source.new ≤ S.calls source.old + (2 ^ 30 + 1) }
{
    let Host { rt, alloc } = host;
    match mode {
        ScanMode::Follow => follow(alloc, source, sink, uncounted),
        ScanMode::Alone => scan_alone(alloc, source, sink, uncounted),
        ScanMode::Workers(count) => {
            let workers = usize::from(count.unwrap_or(WORKERS)).clamp(1, 64);
            let scan = scan_with(rt, alloc, source, sink, workers, WAITING, &OpenGate)?;
            Ok(scan.summary)
        }
    }
}

/// Runs the scan of a report, which is written in the form that is asked for.
fn scan_in_form<S: Input, K: Output, R: Threads + Wait + Clock + Sync>(
    host: Host<'_, R>,
    report: AskedReport,
    source: &mut S,
    sink: &mut K,
    uncounted: &mut Uncounted,
) -> Result<Summary, Fault>
    ensures shown { IsStatusOfShown (lag_of report.mode) report.json (is_followed report.mode) (S.left source.old) (S.left source.new) (S.before source.new)
        (K.taken sink.old) (K.taken sink.new) (K.failures sink.new ≡ K.failures sink.old) (status_of result) }
    ensures reported { IsReportStatus report.json (K.taken sink.old) (K.taken sink.new) (status_of result) }
    ensures refused { (text : List ℕ) → S.left source.old ≡ Some text
        → IfErr result (RefusesLine (lag_of report.mode) text (S.left source.new) (S.before source.new)) }
    ensures cause { IfErr result (IsCause (S.failures source.old < S.failures source.new)
        (K.failures sink.old < K.failures sink.new)
        ((has_workers report.mode ≡ true) × (S.calls source.new ≡ S.calls source.old))) }
    ensures asked { S.calls source.new ≤ S.calls source.old + (2 ^ 30 + 1) }
{
    if report.json {
        scan_json(host, report.mode, source, sink, uncounted)
    } else {
        run_scan(host, report.mode, source, sink, uncounted)
    }
}

/// Scans the trace for a report, in one thread where a note is printed, and returns the exit status.
fn scan<S: Input, K: Output, E: Sink, R: Threads + Wait + Clock + Sync>(
    host: Host<'_, R>,
    report: AskedReport,
    source: &mut S,
    sink: &mut K,
    errors: &mut E,
) -> u8
    ensures output { IsReportOutput S.Source K.Sink E.Sink report (S.left source.old) source.new sink.old sink.new errors.old errors.new result }
    ensures stopped { result ≡ 3 → HaltsRun S.Source K.Sink E.Sink (has_workers report.mode)
        source.old source.new sink.old sink.new errors.old errors.new }
    ensures range { result < 4 }
    ensures asked { S.calls source.new ≤ S.calls source.old + (2 ^ 30 + 1) }
{
    let alloc = host.alloc;
    let notes = has_note(&report, source);
    let mut noted = report;
    noted.mode = noted_mode(report.mode, notes);
    let mut uncounted = Uncounted::none();
    match scan_in_form(host, noted, source, sink, &mut uncounted) {
        Ok(summary) => {
            print_note(alloc, notes, &uncounted, errors);
            summary_status(&summary)
        }
        Err(fault) => refuse_scan(alloc, source, sink, errors, fault),
    }
}

/// Prints what is asked for of a trace, and returns the exit status.
fn print_output<S: Input, K: Output, E: Sink, R: Threads + Wait + Clock + Sync>(
    host: Host<'_, R>,
    output: TraceOutput,
    source: &mut S,
    sink: &mut K,
    errors: &mut E,
) -> u8
    ensures output { IsOutput S.Source K.Sink E.Sink output (S.left source.old) source.new sink.old sink.new errors.old errors.new result }
    ensures stopped { result ≡ 3 → HaltsRun S.Source K.Sink E.Sink (output_workers output)
        source.old source.new sink.old sink.new errors.old errors.new }
    ensures range { result < 4 }
    ensures asked { S.calls source.new ≤ S.calls source.old + (2 ^ 30 + 1) }
{
    match output {
        TraceOutput::Report(report) => scan(host, report, source, sink, errors),
        TraceOutput::Printing(printing) => run_print(host.alloc, printing, source, sink, errors),
        TraceOutput::Headers => run_try(host.alloc, source, sink, errors),
        TraceOutput::Text => run_copy(host.alloc, source, sink, errors),
    }
}

/// Prints what is asked for of standard input, or of the trace that is named, and returns the exit status.
fn print_trace<S: Input, K: Output, E: Sink, R: Threads + Wait + Clock + Sync>(
    host: Host<'_, R>,
    asked: AskedTrace<'_>,
    source: &mut S,
    sink: &mut K,
    errors: &mut E,
) -> u8
    ensures output { let name = option_map (λ name. name.now) asked.entry.name in
        IsUnread (not (is_plain asked.entry.capture)) source.old source.new sink.old sink.new result
        ⊎ IsOutput S.Source K.Sink E.Sink asked.entry.output (trace_of name (S.left source.old) (S.named source.old))
        source.new sink.old sink.new errors.old errors.new result }
    ensures stopped { result ≡ 3 → IsStopped S.Source K.Sink E.Sink (output_workers asked.entry.output)
        (option_map (λ name. name.now) asked.entry.name) source.old source.new sink.old sink.new errors.old errors.new }
    ensures unwritten { result ≡ 64 → sink.new ≡ sink.old }
    ensures asked { S.calls source.new ≤ S.calls source.old + (2 ^ 30 + 1) }
{
    match open_trace(host.alloc, asked, source, errors) {
        Ok(()) => {
            source.show_progress(asked.progress);
            print_output(host, asked.output, source, sink, errors)
        }
        Err(status) => status,
    }
}

/// Does what the words ask for, and returns the exit status.
fn run<S: Input, K: Output, E: Sink, R: Threads + Wait + Clock + Sync>(
    host: Host<'_, R>,
    asked: Asked<'_>,
    source: &mut S,
    sink: &mut K,
    errors: &mut E,
) -> u8
    ensures answered { IsUnread (has_options (asked_words asked.entry)) source.old source.new sink.old sink.new result
        ⊎ IsAnswerTo S.Source K.Sink E.Sink (S.named source.old) (asked_words asked.entry)
        source.old source.new sink.old sink.new errors.old errors.new result }
    ensures stopped { result ≡ 3 → IsStopped S.Source K.Sink E.Sink (asked_workers (asked_words asked.entry))
        (opened_by (asked_words asked.entry)) source.old source.new sink.old sink.new errors.old errors.new }
    ensures unwritten { result ≡ 64 → sink.new ≡ sink.old }
    ensures asked { S.calls source.new ≤ S.calls source.old + (2 ^ 30 + 1) }
{
    match asked {
        Asked::Conflict(text) => refuse_usage(errors, text.as_bytes()),
        Asked::Explanation(word) => explain_word(host.alloc, word, sink, errors),
        Asked::Trace(trace) => print_trace(host, trace, source, sink, errors),
    }
}

/// The text that words ask for in place of a scan: the help, or the version.
fn asked_text(kind: ErrorKind) -> Option<&'static str>
    ensures { option_map (λ text. text.now) result ≡ asked_text kind }
{
    match kind {
        ErrorKind::DisplayHelp => Some(HELP),
        ErrorKind::DisplayVersion => Some(VERSION),
        _ => None,
    }
}

/// Prints what is wrong with the words, or that memory ran out, and returns the exit status.
fn refuse_wrong<E: Sink>(alloc: Global, error: &Error, errors: &mut E) -> u8
    requires { asked_text (kind_of error.now) ≡ None }
    ensures status { result ≡ words_status (kind_of error.now) }
    ensures stopped { result ≡ 3 → IsSaid (fault_line Fault.Memory) (E.taken errors.old) (E.taken errors.new)
        (E.failures errors.new ≡ E.failures errors.old) }
{
    match error.kind() {
        ErrorKind::OutOfMemory => refuse(errors, Fault::Memory),
        _ => {
            print_words_fault(alloc, errors, error);
            USAGE
        }
    }
}

/// Help and the version go to the sink, and what is wrong with the words to the errors. That the sink does not accept
/// the help is no fault of the words.
fn refuse_words<K: Output, E: Sink>(alloc: Global, error: Error, sink: &mut K, errors: &mut E) -> u8
    ensures status { result ≡ words_status (kind_of error) }
    ensures printed { IsAskedTextTaken (asked_text (kind_of error)) (K.taken sink.old) (K.taken sink.new)
        (K.failures sink.new ≡ K.failures sink.old) }
    ensures unwritten { words_status (kind_of error) ≢ 0 → sink.new ≡ sink.old }
    ensures stopped { result ≡ 3 → IsSaid (fault_line Fault.Memory) (E.taken errors.old) (E.taken errors.new)
        (E.failures errors.new ≡ E.failures errors.old) }
{
    match asked_text(error.kind()) {
        Some(text) => {
            let _ = write_all(sink, text.as_bytes());
            0
        }
        None => refuse_wrong(alloc, &error, errors),
    }
}

/// Runs the program over its words, of which the first is its name. Returns the exit status (profile): 0 without
/// findings, or where an explanation was printed, or help or the version was asked for, 1 with findings, 2 where the
/// trace was refused, 3 at another fault, 64 for wrong words, for options that don't fit the file, and for a word that no
/// explanation has.
pub fn program<S: Input, K: Output, E: Sink, R: Threads + Wait + Clock + Sync>(
    rt: &R,
    alloc: Global,
    words: &[&str],
    source: &mut S,
    sink: &mut K,
    errors: &mut E,
) -> u8
    // The status, the bytes and the errors are those of what the words ask for. Or the trace could not be opened, or memory
    // ran out, and nothing was read: with status 3, or 64 where options of captures are given that don't fit the file.
    ensures answered { let asked = asked_of (map (λ word. word.now) words.now) in
        IsUnread (has_options asked) source.old source.new sink.old sink.new result
        ⊎ IsAnswerTo S.Source K.Sink E.Sink (S.named source.old) asked
        source.old source.new sink.old sink.new errors.old errors.new result }
    // Status 3 says that the trace could not be opened, that memory or a thread was refused, or that a read or a write
    // failed, and that the errors accepted the line of this fault first, or that they failed.
    ensures stopped { let asked = asked_of (map (λ word. word.now) words.now) in
        result ≡ 3 → IsStopped S.Source K.Sink E.Sink (asked_workers asked) (opened_by asked)
        source.old source.new sink.old sink.new errors.old errors.new }
    ensures unwritten { result ≡ 64 → sink.new ≡ sink.old }
    ensures asked { S.calls source.new ≤ S.calls source.old + (2 ^ 30 + 1) }
{
    match parse(alloc, words) {
        Ok(asked) => run(Host { rt, alloc }, asked, source, sink, errors),
        Err(error) => refuse_words(alloc, error, sink, errors),
    }
}
