//! What can't be asked for together, and what is printed of it.

ghost use Rattle.std.specs.Prelude.{◌≡◌, ◌&&◌, is_some};
ghost use Rattle.command_line.specs.Asked.{conflicts, excludes, excludes_form, excludes_notes, has_form, output_conflicts, values_in};
ghost use Rattle.command_line.specs.Captures.{excludes_captures, excludes_files, excludes_further, excludes_numbers, excludes_standard, has_unknown, has_unknown_number, is_unknown};

use crate::asked::{OutputForm, TraceOutput};
use crate::capture_words::{capture_in, host_in, kind_in, modulus_in, size_in, source_in};
use crate::matches::{annotates, is_given, trace_in};
use clap::ArgMatches;

/// What is printed where a note of the data that was not counted is asked for with a form.
fn note_text(form: OutputForm) -> &'static str {
    match form {
        OutputForm::Table | OutputForm::TableObjects =>
            "error: --notes is for a report, and --calls prints a table of its calls: leave it out\n",
        OutputForm::Findings =>
            "error: --notes is for a report, and --findings prints at its end what was not counted: leave it out\n",
        _ =>
            "error: --notes is for a report, and --annotate, --rows, --channel and --call print why at each row: leave it out\n",
    }
}

/// Why a note of the data that was not counted can't be printed with an output, if it can't.
fn note_conflict(matches: &ArgMatches<'_>, output: TraceOutput) -> Option<&'static str>
    ensures { is_some result ≡ excludes_notes output (values_in matches.now) }
{
    match output {
        TraceOutput::Headers => Some(
            "error: --notes is for a report, and --try-headers prints what each header leaves out: leave it out\n",
        ),
        TraceOutput::Text => Some(
            "error: --notes is for a report, and --trace prints the trace alone: leave it out\n",
        ),
        TraceOutput::Printing(printing) => Some(note_text(printing.form)),
        TraceOutput::Report(_) => {
            let is_alone = is_given(matches, "alone") || is_given(matches, "follow");
            let has_workers = matches.get_str("workers").is_some();
            (has_workers && !is_alone).then_some(
                "error: --notes needs a scan of one thread: name --alone in place of --workers\n",
            )
        }
    }
}

/// Why a form can't be printed with what else is asked for, if it can't.
fn form_conflict(matches: &ArgMatches<'_>, form: OutputForm) -> Option<&'static str>
    ensures { is_some result ≡ excludes_form form (values_in matches.now) }
{
    match form {
        OutputForm::Comments => is_given(matches, "json").then_some(
            "error: --json writes the report, and --annotate, --channel and --call write a trace instead\n",
        ),
        OutputForm::Objects => is_given(matches, "annotate").then_some(
            "error: --annotate prints the trace again, and --rows an object for each row: name one of them\n",
        ),
        OutputForm::Findings => {
            let is_refused = is_given(matches, "rows")
                || is_given(matches, "json")
                || is_given(matches, "annotate");
            is_refused.then_some(
                "error: --findings prints a line for each finding: leave out --json, --annotate and --rows\n",
            )
        }
        _ => {
            let is_refused = is_given(matches, "follow")
                || is_given(matches, "findings")
                || is_given(matches, "rows")
                || annotates(matches);
            is_refused.then_some(
                "error: --calls prints a table of the report's calls: leave out --follow, --findings, --rows, --annotate, --channel and --call\n",
            )
        }
    }
}

/// Whether a report, rows or the table of calls are asked for in some form.
fn has_form(matches: &ArgMatches<'_>) -> bool
    ensures { result ≡ has_form (values_in matches.now) }
{
    is_given(matches, "json")
        || is_given(matches, "follow")
        || is_given(matches, "findings")
        || is_given(matches, "rows")
        || annotates(matches)
        || is_given(matches, "calls")
}

/// Why the text of the trace can't be printed with what else is asked for, if it can't.
fn text_conflict(matches: &ArgMatches<'_>) -> Option<&'static str>
    ensures { is_some result ≡ excludes TraceOutput.Text (values_in matches.now) }
{
    (has_form(matches) || is_given(matches, "try-headers")).then_some(
        "error: --trace prints the trace alone: leave out --json, --follow, --findings, --rows, --annotate, --calls, --channel, --call and --try-headers\n",
    )
}

/// Why headers can't be tried with what else is asked for, if they can't.
fn headers_conflict(matches: &ArgMatches<'_>) -> Option<&'static str>
    ensures { is_some result ≡ excludes TraceOutput.Headers (values_in matches.now) }
{
    has_form(matches).then_some(
        "error: --try-headers prints a line for each header: leave out --json, --follow, --findings, --rows, --annotate, --calls, --channel and --call\n",
    )
}

/// Why an output can't be printed with what else is asked for, if it can't.
fn output_conflict(matches: &ArgMatches<'_>, output: TraceOutput) -> Option<&'static str>
    ensures { is_some result ≡ excludes output (values_in matches.now) }
{
    match output {
        TraceOutput::Report(_) => None,
        TraceOutput::Printing(printing) => form_conflict(matches, printing.form),
        TraceOutput::Headers => headers_conflict(matches),
        TraceOutput::Text => text_conflict(matches),
    }
}

/// Whether an option has a value that names nothing.
fn is_unknown(matches: &ArgMatches<'_>, id: &str, is_named: bool) -> bool
    ensures { result ≡ is_unknown (values_in matches.now id.now) is_named }
{
    matches.get_str(id).is_some() && !is_named
}

/// Why the text of a number names none, if one does.
fn number_conflict(matches: &ArgMatches<'_>) -> Option<&'static str>
    ensures { is_some result ≡ has_unknown_number (values_in matches.now) }
{
    if is_unknown(matches, "mod", modulus_in(matches, "mod").is_some()) {
        return Some("error: --mod is the modulus of packets, 8 or 128\n");
    }
    if is_unknown(matches, "size", size_in(matches).is_some()) {
        return Some(
            "error: --size is a packet size: 16, 32, 64, 128, 256, 512, 1024, 2048 or 4096\n",
        );
    }
    is_unknown(
        matches,
        "lapb-modulo",
        modulus_in(matches, "lapb-modulo").is_some(),
    )
    .then_some("error: --lapb-modulo is how LAPB counts its frames, 8 or 128\n")
}

/// Why the value of an option names nothing, if one does.
fn value_conflict(matches: &ArgMatches<'_>) -> Option<&'static str>
    ensures { is_some result ≡ has_unknown (values_in matches.now) }
{
    if let Some(text) = number_conflict(matches) {
        return Some(text);
    }
    if is_unknown(matches, "as", kind_in(matches).is_some()) {
        return Some(
            "error: --as is what frames of all unknown link types hold: ethernet, sll, sll2, ip, lapb, lapb-dir, hdlc, x25 or x25-dir\n",
        );
    }
    if is_unknown(matches, "only", source_in(matches).is_some()) {
        return Some("error: --only is what carries the packets: lapb, x25 or xot\n");
    }
    is_unknown(matches, "dte", host_in(matches).is_some()).then_some(
        "error: --dte is the address of a host, such as 192.0.2.1 or 2001:db8::1\n",
    )
}

/// Why numbers of a header can't be given together, if they can't.
fn header_conflict(matches: &ArgMatches<'_>) -> Option<&'static str>
    ensures { is_some result ≡ excludes_numbers (values_in matches.now) }
{
    let is_refused = matches.get_str("svc").is_some()
        && (matches.get_str("in").is_some()
            || matches.get_str("two").is_some()
            || matches.get_str("out").is_some());
    is_refused.then_some(
        "error: --svc is the last of all channels, and --in, --two and --out name the last ones of their kinds: leave out --svc\n",
    )
}

/// Why options of captures can't be given for standard input, if they can't: a capture there is read once, under a whole header.
fn standard_conflict(matches: &ArgMatches<'_>) -> Option<&'static str>
    ensures { is_some result ≡ excludes_standard (values_in matches.now) }
{
    let capture = capture_in(matches);
    (trace_in(matches).is_none() && !capture.is_plain() && !capture.header.is_whole()).then_some(
        "error: standard input is read once, so options of captures need the whole header there: --mod, --win, --size, --pvc, and --svc or --out. Add what is missing, or name the capture\n",
    )
}

/// Why captures can't be named after the trace, if they can't: they follow a capture that is named.
fn further_conflict(matches: &ArgMatches<'_>) -> Option<&'static str>
    ensures { is_some result ≡ excludes_further (values_in matches.now) }
{
    (trace_in(matches).is_none() && matches.get_str("further").is_some()).then_some(
        "error: standard input is read alone: name each capture, in the order of their times\n",
    )
}

/// Why files can't be read as they are named, if they can't.
fn file_conflict(matches: &ArgMatches<'_>) -> Option<&'static str>
    ensures { is_some result ≡ excludes_files (values_in matches.now) }
{
    match further_conflict(matches) {
        Some(text) => Some(text),
        None => standard_conflict(matches),
    }
}

/// Why what is said of a capture can't be given, or not together, if it can't.
fn capture_conflict(matches: &ArgMatches<'_>) -> Option<&'static str>
    ensures { is_some result ≡ excludes_captures (values_in matches.now) }
{
    if let Some(text) = value_conflict(matches) {
        return Some(text);
    }
    if is_given(matches, "join") && is_given(matches, "no-join") {
        return Some(
            "error: the recording began in the middle, or it did not: leave out --join or --no-join\n",
        );
    }
    match header_conflict(matches) {
        Some(text) => Some(text),
        None => file_conflict(matches),
    }
}

/// Why what is asked for can't be given together, if it can't.
pub(crate) fn conflict(matches: &ArgMatches<'_>, output: TraceOutput) -> Option<&'static str>
    ensures { is_some result ≡ conflicts output (values_in matches.now) }
{
    match printed_conflict(matches, output) {
        Some(text) => Some(text),
        None => capture_conflict(matches),
    }
}

/// Why what is asked for can't be printed together, if it can't. A conflict with a note comes first.
fn printed_conflict(matches: &ArgMatches<'_>, output: TraceOutput) -> Option<&'static str>
    ensures { is_some result ≡ output_conflicts output (values_in matches.now) }
{
    if !is_given(matches, "notes") {
        return output_conflict(matches, output);
    }
    match note_conflict(matches, output) {
        Some(text) => Some(text),
        None => output_conflict(matches, output),
    }
}
