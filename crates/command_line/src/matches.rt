//! What the matches of the command ask for.

ghost use Rattle.std.specs.Prelude.{◌≡◌, IfOk, codes, map, option_map};
ghost use Rattle.command_line.specs.Numbers.{has, number_of};
ghost use Rattle.command_line.specs.Options.{named_by};
ghost use Rattle.command_line.specs.Asked.{annotates, asked_by, asked_words, further_found, mode_of, output_of, progress_by, report_of, rows_of, table_of, trace_by, values_in};

use crate::asked::{Asked, AskedReport, AskedTrace, OutputForm, Printing, ScanMode, TraceOutput};
use crate::capture_words::capture_in;
use crate::conflicts::conflict;
use annotated_trace::rows::Rows;
use clap::ArgMatches;
use std::alloc::{AllocError, Global};
use streams::progress::ShowProgress;

/// Whether a flag is set.
pub(crate) fn is_given(matches: &ArgMatches<'_>, id: &str) -> bool
    ensures { result ≡ has (values_in matches.now) id.now }
{
    match matches.get_str(id) {
        Some(text) => text == "true",
        None => false,
    }
}

/// The name of the trace; none for `-`, which means standard input.
pub(crate) fn trace_in<'a>(matches: &ArgMatches<'a>) -> Option<&'a str>
    ensures { option_map (λ name. name.now) result
        ≡ named_by (values_in matches.now (codes "file")) }
{
    match matches.get_str("file") {
        Some(name) if name != "-" => Some(name),
        _ => None,
    }
}

/// The names of the captures that follow it. Fails when memory is refused.
pub(crate) fn further_in<'a>(
    alloc: Global,
    matches: &ArgMatches<'a>,
) -> Result<Vec<&'a str>, AllocError>
    ensures { IfOk result (λ names. map (λ name. name.now) names.items ≡ further_found matches.now) }
{
    match matches.get_strs("further") {
        Some(names) => names.iter().copied().collect(alloc),
        None => Ok(Vec::new(alloc)),
    }
}

/// The number that an option has.
pub(crate) fn number_in(matches: &ArgMatches<'_>, id: &str) -> Option<u16>
    ensures { result ≡ number_of 16 (values_in matches.now id.now) }
{
    match matches.get_str(id) {
        Some(text) => text.parse::<u16>().ok(),
        None => None,
    }
}

/// The number that an option has, of any call or interface.
pub(crate) fn long_number_in(matches: &ArgMatches<'_>, id: &str) -> Option<u32>
    ensures { result ≡ number_of 32 (values_in matches.now id.now) }
{
    match matches.get_str(id) {
        Some(text) => text.parse::<u32>().ok(),
        None => None,
    }
}

/// The number that an option has, below 256.
pub(crate) fn short_number_in(matches: &ArgMatches<'_>, id: &str) -> Option<u8>
    ensures { result ≡ number_of 8 (values_in matches.now id.now) }
{
    match matches.get_str(id) {
        Some(text) => text.parse::<u8>().ok(),
        None => None,
    }
}

/// Which rows are printed: those of the channel and of the call that are named, and all where neither is.
fn rows_in(matches: &ArgMatches<'_>) -> Rows
    ensures { result ≡ rows_of (values_in matches.now) }
{
    match (matches.get_str("channel"), matches.get_str("call")) {
        (None, None) => Rows::All,
        _ => Rows::Chosen {
            channel: number_in(matches, "channel"),
            call: long_number_in(matches, "call"),
        },
    }
}

/// Whether comments are asked for: a choice of rows asks for them too.
pub(crate) fn annotates(matches: &ArgMatches<'_>) -> bool
    ensures { result ≡ annotates (values_in matches.now) }
{
    is_given(matches, "annotate")
        || matches.get_str("channel").is_some()
        || matches.get_str("call").is_some()
}

/// How the trace is scanned.
fn mode_in(matches: &ArgMatches<'_>) -> ScanMode
    ensures { result ≡ mode_of (values_in matches.now) }
{
    if is_given(matches, "follow") {
        ScanMode::Follow
    } else if is_given(matches, "alone") || is_given(matches, "notes") {
        ScanMode::Alone
    } else {
        ScanMode::Workers(short_number_in(matches, "workers"))
    }
}

/// The form of the table of calls.
fn table_in(matches: &ArgMatches<'_>) -> OutputForm
    ensures { result ≡ table_of (values_in matches.now) }
{
    if is_given(matches, "json") {
        OutputForm::TableObjects
    } else {
        OutputForm::Table
    }
}

/// How the report is made.
fn report_in(matches: &ArgMatches<'_>) -> TraceOutput
    ensures { result ≡ report_of (values_in matches.now) }
{
    let json = is_given(matches, "json");
    let notes = is_given(matches, "notes");
    TraceOutput::Report(AskedReport {
        mode: mode_in(matches),
        json,
        notes,
    })
}

/// Rows that are printed in a form.
fn rows_as(form: OutputForm, rows: Rows) -> TraceOutput
    ensures { result ≡ TraceOutput.Printing (record { form = form; rows = rows }) }
{
    TraceOutput::Printing(Printing { form, rows })
}

/// What is printed of the trace.
fn output_in(matches: &ArgMatches<'_>) -> TraceOutput
    ensures { result ≡ output_of (values_in matches.now) }
{
    if is_given(matches, "trace") {
        TraceOutput::Text
    } else if is_given(matches, "try-headers") {
        TraceOutput::Headers
    } else if is_given(matches, "calls") {
        rows_as(table_in(matches), Rows::All)
    } else if is_given(matches, "findings") {
        rows_as(OutputForm::Findings, rows_in(matches))
    } else if is_given(matches, "rows") {
        rows_as(OutputForm::Objects, rows_in(matches))
    } else if annotates(matches) {
        rows_as(OutputForm::Comments, rows_in(matches))
    } else {
        report_in(matches)
    }
}

/// When progress is printed.
fn progress_in(matches: &ArgMatches<'_>, output: TraceOutput) -> ShowProgress
    ensures { result ≡ progress_by (has (values_in matches.now) (codes "progress"))
        (has (values_in matches.now) (codes "follow")) output }
{
    match output {
        TraceOutput::Printing(_) | TraceOutput::Text => ShowProgress::Never,
        _ => {
            if is_given(matches, "progress") {
                ShowProgress::Always
            } else if is_given(matches, "follow") {
                ShowProgress::Never
            } else {
                ShowProgress::OnTerminal
            }
        }
    }
}

/// What is printed of the trace, or why it can't be printed with what else is asked for.
fn trace_asked<'a>(matches: &ArgMatches<'a>) -> Asked<'a>
    ensures { asked_words result ≡ trace_by (values_in matches.now) (output_of (values_in matches.now)) }
{
    let output = output_in(matches);
    match conflict(matches, output) {
        Some(text) => Asked::Conflict(text),
        None => Asked::Trace(AskedTrace {
            name: trace_in(matches),
            progress: progress_in(matches, output),
            output,
            capture: capture_in(matches),
        }),
    }
}

/// What the matches ask for: an explanation in place of all else.
pub(crate) fn asked_in<'a>(matches: &ArgMatches<'a>) -> Asked<'a>
    ensures { asked_words result ≡ asked_by (values_in matches.now) }
{
    match matches.get_str("explain") {
        Some(word) => Asked::Explanation(word),
        None => trace_asked(matches),
    }
}
