//! Prints the meaning of a word.

ghost use Rattle.std.specs.Prelude.{◌≡◌, ◌<◌, ℕ, ◌⊎◌, IfOk, option_map, string_bytes, take};
ghost use Rattle.line_model.specs.basics.Device.{with_more};
ghost use Rattle.explanations.specs.Table.{rows};
ghost use Rattle.command_line.specs.Explaining.{IsAnswer, IsAnswered, answer_by, asked_rows};
ghost use Rattle.command_line.specs.Faults.{IsFaultSaid};
ghost use Rattle.command_line.specs.Stopped.{IsHalted};

use crate::pasted::{push_pasted, unprefixed};
use crate::program::USAGE;
use crate::refusing::{refuse, refuse_write};
use explanations::explanation::Explanation;
use explanations::table::{all, push_explanations};
use explanations::text::{explanations_text, headings_text};
use line_model::device::Sink;
use line_model::fault::Fault;
use line_model::write_buffer::write_all;
use std::alloc::{AllocError, Global};
use streams::output::Output;

/// Returns the text of some explanations, if there are any.
fn answer_by(alloc: Global, found: &[Explanation]) -> Result<Option<String>, AllocError>
    ensures { IfOk result (λ printed. option_map string_bytes printed ≡ answer_by found.now) }
{
    if found.is_empty() {
        return Ok(None);
    }
    let text = explanations_text(alloc, found)?;
    Ok(Some(text))
}

/// Returns the explanations of a text: a word of the table, or a line that the program prints.
fn explanations_in(
    alloc: Global,
    table: &[&'static [Explanation]],
    text: &[u8],
) -> Result<Vec<Explanation>, AllocError>
    ensures { IfOk result (λ found. found.items ≡ asked_rows text.now (rows table.now)) }
{
    let mut found = Vec::new(alloc);
    push_explanations(alloc, table, text, &mut found)?;
    if found.as_slice().is_empty() {
        push_pasted(alloc, table, text, &mut found)?;
        Ok(found)
    } else {
        Ok(found)
    }
}

/// The text that explains a word: the list of all words where it is empty; none where it has no explanation.
fn answer(alloc: Global, word: &str) -> Result<Option<String>, AllocError>
    ensures { IfOk result (λ printed. IsAnswer word.now (option_map string_bytes printed)) }
{
    let table = all();
    if word.is_empty() {
        let text = headings_text(alloc, table.as_slice())?;
        return Ok(Some(text));
    }
    let found = explanations_in(alloc, table.as_slice(), unprefixed(word.as_bytes()))?;
    answer_by(alloc, found.as_slice())
}

/// Writes an explanation to the sink, and returns the exit status.
fn print_answer<K: Output, E: Sink>(alloc: Global, text: &str, sink: &mut K, errors: &mut E) -> u8
    ensures printed { result ≡ 0 → K.taken sink.new ≡ with_more (K.taken sink.old) text.now }
    ensures part { result ≡ 3 → (n : ℕ) × (K.taken sink.new
        ≡ with_more (K.taken sink.old) (take n text.now)) }
    ensures stopped { result ≡ 3 → (K.failures sink.old < K.failures sink.new)
        × IsFaultSaid Fault.Write (E.taken errors.old) (E.taken errors.new) (E.failures errors.new ≡ E.failures errors.old) }
    ensures range { (result ≡ 0) ⊎ (result ≡ 3) }
{
    match write_all(sink, text.as_bytes()) {
        Ok(()) => 0,
        Err(_) => refuse_write(alloc, sink, errors),
    }
}

/// Prints that a word has no explanation, as far as the errors accept it, and returns the exit status.
fn refuse_word<E: Sink>(alloc: Global, word: &str, errors: &mut E) -> u8
    ensures { result ≡ 64 }
{
    if let Ok(text) = format!(in alloc;
        "x25scan: no such word: {word} (x25scan --explain lists them)\n"
    ) {
        let _ = write_all(errors, text.as_bytes());
    }
    USAGE
}

/// Prints what a word means, or all words where it is empty. Returns the exit status (profile): 0 where it was printed,
/// 64 where no explanation has the word, 3 where memory ran out or the sink failed.
pub fn explain_word<K: Output, E: Sink>(
    alloc: Global,
    word: &str,
    sink: &mut K,
    errors: &mut E,
) -> u8
    ensures answered { IsAnswered word.now (K.taken sink.old) (K.taken sink.new) result }
    ensures stopped { result ≡ 3 → IsHalted ⊥ (K.failures sink.old < K.failures sink.new) ⊥ (E.taken errors.old)
        (E.taken errors.new) (E.failures errors.new ≡ E.failures errors.old) }
    ensures unwritten { result ≡ 64 → sink.new ≡ sink.old }
{
    match answer(alloc, word) {
        Ok(Some(text)) => print_answer(alloc, text.as_str(), sink, errors),
        Ok(None) => refuse_word(alloc, word, errors),
        Err(_) => refuse(errors, Fault::Memory),
    }
}
