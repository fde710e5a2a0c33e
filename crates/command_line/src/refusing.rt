//! The messages of faults, and their exit statuses. The first line of a message is the fault. A second line says what is
//! wrong with a faulty line of the trace, or what the system says of a read or a write that failed. A message that standard
//! error does not accept is lost.

ghost use Rattle.std.specs.Prelude.{◌≡◌, ◌≤◌, false, true};
ghost use Rattle.command_line.specs.Faults.{Grows, IsFaultSaid, IsSaid, fault_line, lost_its_reader, open_line, open_status};
ghost use Rattle.command_line.specs.Program.{fault_status};

use crate::faults::{is_by_options, print_fault, print_unopened};
use crate::program::{OTHER_FAULT, USAGE, fault_status};
use explanations::advice::advice;
use line_model::device::Sink;
use line_model::fault::{Fault, Kind};
use line_model::write_buffer::write_all;
use std::alloc::Global;
use std::io;
use std::io::ErrorKind;
use streams::input::{Input, OpenRefusal};
use streams::output::Output;

/// Prints a text. What standard error does not accept of it is lost.
fn print_text<E: Sink>(errors: &mut E, text: &[u8])
    ensures more { Grows (E.taken errors.old) (E.taken errors.new) }
    ensures rising { E.failures errors.old ≤ E.failures errors.new }
{
    let _ = write_all(errors, text);
}

/// Prints the second line of a message, which begins with the name of the trace where it has one.
fn print_more<E: Sink>(alloc: Global, errors: &mut E, name: Option<&str>, more: &str)
    ensures more { Grows (E.taken errors.old) (E.taken errors.new) }
    ensures rising { E.failures errors.old ≤ E.failures errors.new }
{
    let line = match name {
        Some(name) => format!(in alloc; "  {name}: {more}\n"),
        None => format!(in alloc; "  {more}\n"),
    };
    match line {
        Ok(line) => print_text(errors, line.as_bytes()),
        Err(_) => {}
    }
}

/// Prints what the system says of a fault, where it says something.
fn print_reason<E: Sink>(
    alloc: Global,
    errors: &mut E,
    name: Option<&str>,
    reason: Option<io::Error>,
)
    ensures more { Grows (E.taken errors.old) (E.taken errors.new) }
    ensures rising { E.failures errors.old ≤ E.failures errors.new }
{
    let Some(reason) = reason else {
        return;
    };
    match format!(in alloc; "{reason}") {
        Ok(reason) => print_more(alloc, errors, name, &reason),
        Err(_) => {}
    }
}

/// Prints what is wrong with a line of the trace: after the name of the trace and the line, as editors read them, where
/// the trace was named.
fn print_at<E: Sink>(alloc: Global, errors: &mut E, name: Option<&str>, line: u32, sentence: &str)
    ensures more { Grows (E.taken errors.old) (E.taken errors.new) }
    ensures rising { E.failures errors.old ≤ E.failures errors.new }
{
    let text = match name {
        Some(name) => format!(in alloc; "{name}:{line}: {sentence}\n"),
        None => format!(in alloc; "  {sentence}\n"),
    };
    match text {
        Ok(text) => print_text(errors, text.as_bytes()),
        Err(_) => {}
    }
}

/// Prints what is wrong with the faulty line of the trace.
fn print_advice<S: Input, E: Sink>(alloc: Global, source: &S, errors: &mut E, line: u32, kind: Kind)
    ensures more { Grows (E.taken errors.old) (E.taken errors.new) }
    ensures rising { E.failures errors.old ≤ E.failures errors.new }
{
    let Some(refused) = source.last_line() else {
        return;
    };
    match advice(alloc, kind, refused) {
        Ok(sentence) => print_at(alloc, errors, source.name(), line, &sentence),
        Err(_) => {}
    }
}

/// Prints a fault, and returns the exit status.
pub fn refuse<E: Sink>(errors: &mut E, fault: Fault) -> u8
    ensures status { result ≡ fault_status fault }
    ensures said { IsSaid (fault_line fault) (E.taken errors.old) (E.taken errors.new)
        (E.failures errors.new ≡ E.failures errors.old) }
{
    let _ = print_fault(errors, fault);
    fault_status(fault)
}

/// Whether a write failed because the reader of its sink went away, as `head` does once it has its lines.
fn lost_its_reader(reason: Option<io::Error>) -> bool
    ensures { result ≡ lost_its_reader reason }
{
    match reason {
        Some(reason) => reason.kind() == ErrorKind::BrokenPipe,
        None => false,
    }
}

/// Prints that the sink failed, and the reason that the system gives. Prints nothing where its reader went away.
fn print_write<E: Sink>(alloc: Global, errors: &mut E, reason: Option<io::Error>)
    ensures said { lost_its_reader reason ≡ false → IsSaid (fault_line Fault.Write) (E.taken errors.old) (E.taken errors.new)
        (E.failures errors.new ≡ E.failures errors.old) }
    ensures silent { lost_its_reader reason ≡ true → errors.new ≡ errors.old }
{
    if lost_its_reader(reason) {
        return;
    }
    match print_fault(errors, Fault::Write) {
        Ok(()) => print_reason(alloc, errors, None, reason),
        Err(_) => {}
    }
}

/// Prints why a text was not written whole, and returns the exit status.
pub fn refuse_write<K: Output, E: Sink>(alloc: Global, sink: &K, errors: &mut E) -> u8
    ensures status { result ≡ 3 }
    ensures said { IsFaultSaid Fault.Write (E.taken errors.old) (E.taken errors.new)
        (E.failures errors.new ≡ E.failures errors.old) }
{
    print_write(alloc, errors, sink.failure());
    OTHER_FAULT
}

/// Prints the second line of a fault of reading, where there is one.
fn print_second<S: Input, E: Sink>(alloc: Global, source: &S, errors: &mut E, fault: Fault)
    ensures more { Grows (E.taken errors.old) (E.taken errors.new) }
    ensures rising { E.failures errors.old ≤ E.failures errors.new }
{
    match fault {
        Fault::Trace(line, kind) => print_advice(alloc, source, errors, line, kind),
        Fault::Read => print_reason(alloc, errors, source.name(), source.failure()),
        _ => {}
    }
}

/// Prints a fault, and its second line.
fn print_lines<S: Input, E: Sink>(alloc: Global, source: &S, errors: &mut E, fault: Fault)
    ensures { IsSaid (fault_line fault) (E.taken errors.old) (E.taken errors.new)
        (E.failures errors.new ≡ E.failures errors.old) }
{
    match print_fault(errors, fault) {
        Ok(()) => print_second(alloc, source, errors, fault),
        Err(_) => {}
    }
}

/// Prints why a scan gave up, and returns the exit status. The line of the fault comes first; nothing is printed where the
/// sink failed because its reader went away.
pub fn refuse_scan<S: Input, K: Output, E: Sink>(
    alloc: Global,
    source: &S,
    sink: &K,
    errors: &mut E,
    fault: Fault,
) -> u8
    ensures status { result ≡ fault_status fault }
    ensures said { IsFaultSaid fault (E.taken errors.old) (E.taken errors.new)
        (E.failures errors.new ≡ E.failures errors.old) }
{
    match fault {
        Fault::Write => refuse_write(alloc, sink, errors),
        _ => {
            print_lines(alloc, source, errors, fault);
            fault_status(fault)
        }
    }
}

/// Returns the exit status where a trace could not be opened: that of wrong words where options of captures are given and
/// don't fit the file.
fn open_status(has_options: bool, reason: Option<io::Error>) -> u8
    ensures { result ≡ open_status has_options reason }
{
    match has_options && is_by_options(reason) {
        true => USAGE,
        false => OTHER_FAULT,
    }
}

/// Prints why a trace could not be opened, and returns the exit status.
pub fn refuse_trace<E: Sink>(
    alloc: Global,
    errors: &mut E,
    name: &str,
    refusal: OpenRefusal,
    has_options: bool,
) -> u8
    ensures status { result ≡ open_status has_options refusal.reason }
    ensures said { IsSaid (open_line name.now refusal) (E.taken errors.old) (E.taken errors.new)
        (E.failures errors.new ≡ E.failures errors.old) }
{
    match print_unopened(errors, name, refusal) {
        Ok(()) => print_reason(alloc, errors, None, refusal.reason),
        Err(_) => {}
    }
    open_status(has_options, refusal.reason)
}

/// Prints what can't be asked for together, and returns the exit status.
pub fn refuse_usage<E: Sink>(errors: &mut E, usage: &[u8]) -> u8
    ensures status { result ≡ 64 }
    ensures said { IsSaid usage.now (E.taken errors.old) (E.taken errors.new)
        (E.failures errors.new ≡ E.failures errors.old) }
{
    let _ = write_all(errors, usage);
    USAGE
}
