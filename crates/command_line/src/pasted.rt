//! The explanations of a line that the program prints: one of the report, or a refusal.

ghost use Rattle.std.specs.Prelude.{◌≡◌, ◌++◌, OnOk, codes, drop, map, option_map};
ghost use Rattle.explanations.specs.Table.{explanations_of, of_topic, rows};
ghost use Rattle.json_lines.specs.Forms.{form_of};
ghost use Rattle.json_lines.specs.Json.{first_word};
ghost use Rattle.json_lines.specs.Shown.{field_shown};
ghost use Rattle.command_line.specs.Pasted.{code_topic, field_rows, is_message, line_rows, pasted_rows, refusal_word, unprefixed, word_rows, word_topic};

use explanations::explanation::Explanation;
use explanations::table::push_explanations_of_topic;
use json_lines::fields::{Field, form_of};
use json_lines::words::ReportWords;
use std::alloc::{AllocError, Global};

/// The length of `x25scan: `, with which a refusal begins.
const PREFIX: usize = 9;

/// Returns a text without the name of the program that a refusal begins with.
pub fn unprefixed(text: &[u8]) -> &[u8]
    ensures { result.now ≡ unprefixed text.now }
{
    if text.len() >= PREFIX {
        let (front, rest) = text.split_at(PREFIX);
        if front == b"x25scan: ".as_slice() {
            rest
        } else {
            text
        }
    } else {
        text
    }
}

/// Whether a code is one of a PAD message, as `X1`.
fn is_message(code: &[u8]) -> bool
    ensures { result ≡ is_message code.now }
{
    match code {
        [first, ..] => *first == b'X',
        [] => false,
    }
}

/// The topic of a code: a diagnostic code, or one of a PAD message.
fn code_topic(code: &[u8]) -> &'static str
    ensures { result.now ≡ code_topic code.now }
{
    if is_message(code) { "message" } else { "code" }
}

/// The topic of the words in a field of the report, where they are words of the table.
fn word_topic(field: &str, word: &[u8]) -> Option<&'static str>
    ensures { option_map (λ topic. topic.now) result ≡ word_topic field.now word.now }
{
    if field == "side" {
        Some("side")
    } else if field == "state" {
        Some("state")
    } else if field == "code" {
        Some(code_topic(word))
    } else if field == "direction" {
        Some("direction")
    } else if field == "how" {
        Some("end")
    } else if field == "parameter" {
        Some("parameter")
    } else if field == "word" {
        Some("setting")
    } else {
        None
    }
}

/// Appends what explains a word in a field: the word by its topic, otherwise the field.
fn push_word(
    alloc: Global,
    table: &[&'static [Explanation]],
    field: &Field,
    word: &[u8],
    found: &mut Vec<Explanation>,
) -> Result<(), AllocError>
    ensures { OnOk result (found.new.items ≡ found.old.items
        ++ word_rows (field_shown field.now).name word.now (rows table.now)) }
{
    match word_topic(field.name, word) {
        Some(topic) => push_explanations_of_topic(alloc, table, topic, word, found),
        None => { push_explanations_of_topic(alloc, table, "field", field.name.as_bytes(), found) }
    }
}

/// Appends what explains words in their fields, as long as there are both.
fn push_fields(
    alloc: Global,
    table: &[&'static [Explanation]],
    fields: &[Field],
    mut words: ReportWords<'_>,
    found: &mut Vec<Explanation>,
) -> Result<(), AllocError>
    ensures { OnOk result (found.new.items ≡ found.old.items
        ++ field_rows (map field_shown fields.now) words.entry (rows table.now)) }
{
    for field in fields {
        match words.next() {
            Some(word) => push_word(alloc, table, field, word, found)?,
            None => return Ok(()),
        }
    }
    Ok(())
}

/// The word of the table for a refusal that begins with a word, except a trace's.
fn refusal_word(first: &[u8]) -> &'static str
    ensures { result.now ≡ refusal_word first.now }
{
    if first == b"piece".as_slice() {
        "piece"
    } else if first == b"cannot".as_slice() {
        "open"
    } else if first == b"no".as_slice() {
        "word"
    } else {
        ""
    }
}

/// Appends what explains `line L: kind K`, of which the first word was removed.
fn push_kind(
    alloc: Global,
    table: &[&'static [Explanation]],
    mut words: ReportWords<'_>,
    found: &mut Vec<Explanation>,
) -> Result<(), AllocError>
    ensures { OnOk result (found.new.items ≡ found.old.items
        ++ explanations_of (of_topic (codes "kind") (first_word (drop 1 (drop 1 words.entry))))
        (rows table.now)) }
{
    words.take();
    words.take();
    push_explanations_of_topic(alloc, table, "kind", words.take(), found)
}

/// Appends what explains a line that begins with a word and goes on with others.
fn push_line(
    alloc: Global,
    table: &[&'static [Explanation]],
    first: &[u8],
    words: ReportWords<'_>,
    found: &mut Vec<Explanation>,
) -> Result<(), AllocError>
    ensures { OnOk result (found.new.items ≡ found.old.items
        ++ line_rows first.now words.entry (rows table.now)) }
{
    if first == b"line".as_slice() {
        return push_kind(alloc, table, words, found);
    }
    let form = form_of(first);
    if form.title == "unknown" {
        let word = refusal_word(first);
        return push_explanations_of_topic(alloc, table, "refusal", word.as_bytes(), found);
    }
    push_explanations_of_topic(alloc, table, "line", first, found)?;
    push_fields(alloc, table, form.fields, words, found)
}

/// Appends what explains a line that the program prints: each word of a line of the report by its field, or a refusal.
pub fn push_pasted(
    alloc: Global,
    table: &[&'static [Explanation]],
    text: &[u8],
    found: &mut Vec<Explanation>,
) -> Result<(), AllocError>
    ensures { OnOk result (found.new.items ≡ found.old.items
        ++ pasted_rows text.now (rows table.now)) }
{
    let mut words = ReportWords::new(text);
    let first = words.take();
    push_line(alloc, table, first, words, found)
}
