//! What the words ask for.

use annotated_trace::rows::Rows;
use capture_report::options::CaptureOptions;
use streams::progress::ShowProgress;

/// What is printed in place of the report.
#[derive(Clone, Copy)]
pub enum OutputForm {
    /// The trace once more, with comments after its rows.
    Comments,
    /// An object for each row, and then those of the report.
    Objects,
    /// A line for each finding, and then what they add up to.
    Findings,
    /// The table of calls, as CSV.
    Table,
    /// The table of calls, as an object for each call.
    TableObjects,
}

/// Which rows are printed in place of the report, and how.
#[derive(Clone, Copy)]
pub struct Printing {
    /// How they are printed.
    pub form: OutputForm,
    /// Which rows.
    pub rows: Rows,
}

/// How a trace is scanned.
#[derive(Clone, Copy)]
pub enum ScanMode {
    /// By as many worker threads as `--workers` names. Where it names none, one thread scans if a note is printed.
    Workers(Option<u8>),
    /// By one thread: `--alone`, or `--notes` without `--workers`.
    Alone,
    /// By one thread, which prints findings while the trace is read: `--follow`.
    Follow,
}

/// How the report is made.
#[derive(Clone, Copy)]
pub struct AskedReport {
    /// How the trace is scanned.
    pub mode: ScanMode,
    /// Whether the report is printed as JSON lines: `--json`.
    pub json: bool,
    /// Whether the note of the data that was not counted is printed even where the errors are not a terminal:
    /// `--notes`.
    pub notes: bool,
}

/// What is printed of a trace.
#[derive(Clone, Copy)]
pub enum TraceOutput {
    /// The report.
    Report(AskedReport),
    /// Rows, or the table of calls.
    Printing(Printing),
    /// How each header explains the rows, best first.
    Headers,
    /// The text of the trace: of a capture, the trace that is made of it.
    Text,
}

/// A trace, and what is printed of it.
#[derive(Clone, Copy)]
pub struct AskedTrace<'a> {
    /// The name of the trace; none where it is standard input.
    pub name: Option<&'a str>,
    /// When progress is printed.
    pub progress: ShowProgress,
    /// What is printed.
    pub output: TraceOutput,
    /// How it is read, if it is a capture.
    pub capture: CaptureOptions,
}

/// What the words ask for.
#[derive(Clone, Copy)]
pub enum Asked<'a> {
    /// What can't be asked for, or not together; the text says so.
    Conflict(&'static str),
    /// The meaning of a word or of a line; the list of all words where it is empty.
    Explanation(&'a str),
    /// What is printed of a trace.
    Trace(AskedTrace<'a>),
}
