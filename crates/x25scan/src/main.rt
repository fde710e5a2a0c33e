//! Reads the recorded packets of an X.25 interface, and reports what an observer of it finds.
#![tactic(auto)]

ghost use Rattle.std.specs.Prelude.{◌≡◌, ◌≢◌, IfErr, IfOk, map};
ghost use Rattle.clap.specs.Words.{kind_of};
ghost use Rattle.clap.specs.declared.error.kind.ErrorKind.TheVariants.{OutOfMemory};
ghost use Rattle.command_line.specs.Asked.{asked_of, asked_words};
ghost use Rattle.x25scan.specs.Captures.{AsksFurther, AsksOptions, PrintsCaptures, ReportsCaptures};

use capture_report::joined_files::JoinedFiles;
use capture_report::options::CaptureOptions;
use capture_report::pipes::Pipes;
use capture_report::recordings::Recordings;
use capture_report::standard::StandardInput;
use clap::Error;
use clap::error::ErrorKind as FaultKind;
use command_line::asked::Asked;
use command_line::options::{further_names, parse};
use command_line::program::{OTHER_FAULT, USAGE, program};
use line_model::device::Sink;
use std::alloc::Global;
use std::env;
use std::io::{Eprint, ErrorKind, IsTerminal, Read, Write};
use std::process::ExitCode;
use std::sync::Wait;
use std::thread::Threads;
use std::time::Clock;
use streams::io::{FileInput, WriteSink};
use streams::output::Output;
use streams::progress::Progress;
use streams::system::System;

/// Returns how captures are read for what is asked for. What is no trace has no say in this.
fn options_of(asked: Asked<'_>) -> CaptureOptions
    ensures { AsksOptions (asked_words asked.entry) result }
{
    match asked {
        Asked::Trace(trace) => trace.capture,
        Asked::Conflict(_) | Asked::Explanation(_) => CaptureOptions::plain(),
    }
}

/// Returns how captures are read where the words are refused. Fails with the exit status when memory is refused.
fn refused_options(error: &Error) -> Result<CaptureOptions, u8>
    ensures kind { IfOk result (λ options. kind_of error.now ≢ OutOfMemory) }
    ensures status { IfErr result (λ status. status ≡ 3) }
{
    match error.kind() {
        FaultKind::OutOfMemory => Err(OTHER_FAULT),
        _ => Ok(CaptureOptions::plain()),
    }
}

/// Returns how captures are read, as the words ask for it. Fails with the exit status when memory is refused.
fn capture_options(alloc: Global, words: &[&str]) -> Result<CaptureOptions, u8>
    ensures asked { IfOk result (AsksOptions (asked_of (map (λ word. word.now) words.now))) }
    ensures status { IfErr result (λ status. status ≡ 3) }
{
    match parse(alloc, words) {
        Ok(asked) => Ok(options_of(asked)),
        Err(error) => refused_options(&error),
    }
}

/// Returns the names of the captures that follow the one that the words name; none where the words are refused. Fails
/// with the exit status when memory is refused.
fn further_captures<'a>(alloc: Global, words: &'a [&'a str]) -> Result<Vec<&'a str>, u8>
    ensures further { IfOk result (λ names. AsksFurther (map (λ word. word.now) words.entry.now) (map (λ name. name.now) names.items)) }
    ensures status { IfErr result (λ status. status ≡ 3) }
{
    match further_names(alloc, words) {
        Ok(names) => Ok(names),
        Err(error) => match error.kind() {
            FaultKind::OutOfMemory => Err(OTHER_FAULT),
            _ => Ok(Vec::new(alloc)),
        },
    }
}

/// Runs the program over recordings. Where the words ask for the report of a file, and the system shows that it is a pcap
/// or pcapng file without damage, a status below 2 says that the sink accepted the report of one observer over the rows of
/// the capture, as the options of the recordings read them. Where they ask for the text of its trace, such a status says
/// that the sink accepted that.
fn run_over<
    O: Pipes + Clock + Drop,
    P: Eprint + Drop,
    I: Read + Drop,
    W: Write + Drop,
    K: Output,
    E: Sink,
    R: Threads + Wait + Clock + Sync,
>(
    threads: &R,
    alloc: Global,
    words: &[&str],
    source: &mut FileInput<'_, Recordings<O, P>, I, W>,
    sink: &mut K,
    errors: &mut E,
) -> u8
    ensures reported { let recordings = source.old.system.now in
        ReportsCaptures (O.named recordings.system) recordings.options (asked_of (map (λ word. word.now) words.now)) (K.taken sink.old) (K.taken sink.new) result }
    ensures printed { let recordings = source.old.system.now in
        PrintsCaptures (O.named recordings.system) recordings.options (asked_of (map (λ word. word.now) words.now)) (K.taken sink.old) (K.taken sink.new) result }
{
    program(threads, alloc, words, source, sink, errors)
}

/// What the program reads, and where it prints what it says of that.
struct Inputs<O, I, P, W: Write + Drop> {
    alloc: Global,
    /// How captures are read.
    options: CaptureOptions,
    /// The files.
    system: O,
    /// Standard input, and whether it is a terminal.
    standard: I,
    is_terminal: bool,
    /// Where the estimated numbers of a header are printed.
    notes: P,
    progress: Progress<W>,
}

/// Runs the program over files and standard input.
fn run_inputs<
    O: Pipes + Clock + Drop,
    I: Read + Drop,
    P: Eprint + Drop,
    W: Write + Drop,
    K: Output,
    E: Sink,
    R: Threads + Wait + Clock + Sync,
>(threads: &R, words: &[&str], inputs: Inputs<O, I, P, W>, sink: &mut K, errors: &mut E) -> u8 {
    let Inputs {
        alloc,
        options,
        system,
        standard,
        is_terminal,
        notes,
        progress,
    } = inputs;
    let recordings = Recordings::new(alloc, system, notes, options);
    let standard = StandardInput::new(alloc, standard, options);
    let mut source = FileInput::new(alloc, &recordings, standard, is_terminal, progress);
    run_over(threads, alloc, words, &mut source, sink, errors)
}

/// Runs the program over the streams of the process.
fn run_streams<R: Threads + Wait + Clock + Sync>(
    rt: &HostRuntime,
    threads: &R,
    words: &[&str],
    options: CaptureOptions,
    further: &[&str],
) -> u8 {
    let inputs = Inputs {
        alloc: rt.alloc(),
        options,
        system: JoinedFiles::new(rt.alloc(), System::new(rt), rt.stderr(), further),
        standard: rt.stdin(),
        is_terminal: rt.stdin().is_terminal(),
        notes: rt.stderr(),
        progress: Progress::new(rt.stderr(), rt.stderr().is_terminal()),
    };
    let mut sink = WriteSink::new(rt.stdout());
    let mut errors = WriteSink::new(rt.stderr());
    run_inputs(threads, words, inputs, &mut sink, &mut errors)
}

/// Returns the words of the command line. Fails with the exit status: 64 where they are not text, 3 when memory is
/// refused.
fn process_words(rt: &HostRuntime) -> Result<Vec<String>, u8> {
    match env::args(rt) {
        Ok(words) => words.collect(rt.alloc()).map_err(|_| OTHER_FAULT),
        Err(error) if error.kind() == ErrorKind::OutOfMemory => Err(OTHER_FAULT),
        Err(_) => Err(USAGE),
    }
}

/// Runs the program over the words and the streams of the process.
fn run_process<R: Threads + Wait + Clock + Sync>(rt: &HostRuntime, threads: &R) -> Result<u8, u8> {
    let words = process_words(rt)?;
    let names: Vec<&str> = words
        .iter()
        .map(|word| word.as_str())
        .collect(rt.alloc())
        .map_err(|_| OTHER_FAULT)?;
    let words = names.as_slice();
    let options = capture_options(rt.alloc(), words)?;
    let further = further_captures(rt.alloc(), words)?;
    Ok(run_streams(rt, threads, words, options, &further))
}

fn main(rt: HostRuntime) -> ExitCode {
    let status = match run_process(&rt, &rt) {
        Ok(status) => status,
        Err(status) => {
            let text = if status == USAGE {
                "arguments are no text\n  A word of the command line is not UTF-8. A file of such a name can be read as standard input: x25scan < FILE"
            } else {
                "out of memory"
            };
            let _ = eprintln!(rt; "x25scan: {text}");
            status
        }
    };
    ExitCode::from(status)
}
