//! The command line.

ghost use Rattle.std.specs.Prelude.{◌≡◌, ◌≤◌, IfOk, false, map};
ghost use Rattle.clap.specs.Words.{FailsBy, app_of, rule_of};
ghost use Rattle.command_line.specs.Asked.{asked_of, asked_words, further_of};
ghost use Rattle.command_line.specs.Options.{command, explain_rule, file_rule, flag_rule, further_rule, number_rule, text_rule, versioned, with_asking, with_capture, with_header, with_scanning, with_writing, words_fault};

use crate::asked::Asked;
use crate::help::VERSION;
use crate::matches::{asked_in, further_in};
use clap::{Arg, ArgAction, Command, Error, value_parser};
use std::alloc::{AllocError, Global};

/// A flag of this name.
fn flag<'a>(alloc: Global, name: &'a str) -> Arg<'a>
    ensures rule { rule_of result ≡ flag_rule name.entry.now }
    ensures local { result.global ≡ false }
{
    Arg::new(alloc, name).long(name).action(ArgAction::SetTrue)
}

/// The option that asks for the explanation of a word, or for the list of all words where none follows it.
fn explain<'a>(alloc: Global) -> Arg<'a>
    ensures rule { rule_of result ≡ explain_rule }
    ensures local { result.global ≡ false }
{
    Arg::new(alloc, "explain")
        .long("explain")
        .value_name("WORD")
        .action(ArgAction::Set)
        .num_args(0..=1)
        .default_missing_value("")
}

/// An option of this name whose value is a number.
#[tactic(auto, using(crate::proofs::NumberLemmas::narrowed))]
fn number<'a>(alloc: Global, name: &'a str, first: u32, last: u32) -> Arg<'a>
    ensures rule { rule_of result ≡ number_rule name.entry.now first last }
    ensures local { result.global ≡ false }
{
    Arg::new(alloc, name)
        .long(name)
        .value_name("N")
        .action(ArgAction::Set)
        .value_parser(value_parser!(u32).range(i64::from(first)..=i64::from(last)))
}

/// An option of this name whose value is a text. What the text may be is no rule of the words: see `crate::conflicts`.
fn text<'a>(alloc: Global, name: &'a str, value: &'a str) -> Arg<'a>
    ensures rule { rule_of result ≡ text_rule name.entry.now }
    ensures local { result.global ≡ false }
{
    Arg::new(alloc, name)
        .long(name)
        .value_name(value)
        .action(ArgAction::Set)
}

/// The name of the trace.
fn file<'a>(alloc: Global) -> Arg<'a>
    ensures rule { rule_of result ≡ file_rule }
    ensures local { result.global ≡ false }
{
    Arg::new(alloc, "file")
        .value_name("FILE")
        .action(ArgAction::Set)
}

/// The names of the captures that follow it.
fn further<'a>(alloc: Global) -> Arg<'a>
    ensures rule { rule_of result ≡ further_rule }
    ensures local { result.global ≡ false }
{
    Arg::new(alloc, "further")
        .value_name("FILE")
        .action(ArgAction::Append)
}

/// Adds the options that say how the trace is scanned.
fn with_scanning<'a>(alloc: Global, command: Command<'a>) -> Result<Command<'a>, AllocError>
    ensures { IfOk result (λ after. app_of after ≡ with_scanning (app_of command.entry)) }
{
    command
        .arg(number(alloc, "workers", 1, 64))?
        .arg(flag(alloc, "alone"))?
        .arg(flag(alloc, "follow"))
}

/// Adds the options that say what is written, and of which rows.
fn with_writing<'a>(alloc: Global, command: Command<'a>) -> Result<Command<'a>, AllocError>
    ensures { IfOk result (λ after. app_of after ≡ with_writing (app_of command.entry)) }
{
    command
        .arg(flag(alloc, "json"))?
        .arg(flag(alloc, "annotate"))?
        .arg(flag(alloc, "findings"))?
        .arg(flag(alloc, "rows"))?
        .arg(flag(alloc, "calls"))?
        .arg(number(alloc, "channel", 1, 4095))?
        .arg(number(alloc, "call", 1, 999_999_999))?
        .arg(flag(alloc, "try-headers"))?
        .arg(flag(alloc, "trace"))
}

/// Adds the options of the numbers in the header of a capture.
fn with_header<'a>(alloc: Global, command: Command<'a>) -> Result<Command<'a>, AllocError>
    ensures { IfOk result (λ after. app_of after ≡ with_header (app_of command.entry)) }
{
    command
        .arg(text(alloc, "mod", "N"))?
        .arg(number(alloc, "win", 1, 127))?
        .arg(text(alloc, "size", "N"))?
        .arg(number(alloc, "pvc", 0, 4095))?
        .arg(number(alloc, "svc", 1, 4095))?
        .arg(number(alloc, "in", 0, 4095))?
        .arg(number(alloc, "two", 0, 4095))?
        .arg(number(alloc, "out", 1, 4095))?
        .arg(flag(alloc, "join"))?
        .arg(flag(alloc, "no-join"))
}

/// Adds the options of how the frames of a capture are read.
fn with_capture<'a>(alloc: Global, command: Command<'a>) -> Result<Command<'a>, AllocError>
    ensures { IfOk result (λ after. app_of after ≡ with_capture (app_of command.entry)) }
{
    command
        .arg(text(alloc, "as", "KIND"))?
        .arg(text(alloc, "only", "CARRIER"))?
        .arg(number(alloc, "interface", 0, u32::MAX))?
        .arg(number(alloc, "port", 1, 65_535))?
        .arg(text(alloc, "lapb-modulo", "N"))?
        .arg(flag(alloc, "swap"))?
        .arg(text(alloc, "dte", "ADDRESS"))
}

/// Adds the options that ask for more, and the names of the trace and of the captures that follow it.
fn with_asking<'a>(alloc: Global, command: Command<'a>) -> Result<Command<'a>, AllocError>
    ensures { IfOk result (λ after. app_of after ≡ with_asking (app_of command.entry)) }
{
    command
        .arg(flag(alloc, "progress"))?
        .arg(flag(alloc, "notes"))?
        .arg(explain(alloc))?
        .arg(file(alloc))?
        .arg(further(alloc))
}

/// The program with a version, without options. `clap` reads the words; what help and the version print is in
/// `crate::help`.
fn plain<'a>(alloc: Global) -> Command<'a>
    ensures { app_of result ≡ versioned }
{
    Command::new(alloc, "x25scan").version(VERSION)
}

/// The command, as the words are read.
fn command<'a>(alloc: Global) -> Result<Command<'a>, AllocError>
    ensures { IfOk result (λ after. app_of after ≡ command) }
{
    let scanning = with_scanning(alloc, plain(alloc))?;
    let writing = with_writing(alloc, scanning)?;
    let headed = with_header(alloc, writing)?;
    let reading = with_capture(alloc, headed)?;
    with_asking(alloc, reading)
}

/// Reads the program's name and its arguments. Fails with an error of a kind that the words have, or when memory is
/// refused.
pub fn parse<'a>(alloc: Global, words: &'a [&'a str]) -> Result<Asked<'a>, Error>
    ensures kinds { FailsBy (words_fault (map (λ word. word.now) words.entry.now)) result }
    ensures asked { IfOk result (λ asked. asked_words asked ≡ asked_of (map (λ word. word.now) words.entry.now)) }
{
    let command = command(alloc)?;
    match command.try_get_matches_from(words) {
        Ok(matches) => Ok(asked_in(&matches)),
        Err(error) => Err(error),
    }
}

/// Returns the names of the captures that follow the one that the words name. Fails as `parse` does.
pub fn further_names<'a>(alloc: Global, words: &'a [&'a str]) -> Result<Vec<&'a str>, Error>
    ensures kinds { FailsBy (words_fault (map (λ word. word.now) words.entry.now)) result }
    ensures named { IfOk result (λ names. map (λ name. name.now) names.items ≡ further_of (map (λ word. word.now) words.entry.now)) }
{
    let command = command(alloc)?;
    match command.try_get_matches_from(words) {
        Ok(matches) => Ok(further_in(alloc, &matches)?),
        Err(error) => Err(error),
    }
}
