//! What is wrong with a faulty line of a trace, in words, by the line itself where that says more than its kind.

mod files;
mod header;
mod line;
mod quoted;
mod ranges;
mod rows;
mod sentence;

use crate::advice::files::{file_advice, other_text_advice};
use crate::advice::header::header_advice;
use crate::advice::line::split_line;
use crate::advice::rows::row_advice;
use crate::advice::sentence::fixed_sentence;
use crate::explanation::{Explanation, Topic};
use crate::table::{all, explain};
use line_model::device::LastLine;
use line_model::fault::Kind;
use std::alloc::{AllocError, Global};

/// The sentence on a trace text that is too large.
const TOO_LARGE: &str =
    "The text has more than 2^30 bytes: cut it after a restart confirmation, and begin each part with the header (/usr/share/doc/x25scan/GUIDE.md has the command).";

/// Returns what is wrong by the line itself, if it shows it.
fn line_advice(
    alloc: Global,
    kind: Kind,
    refused: LastLine<'_>,
) -> Result<Option<String>, AllocError> {
    match kind {
        Kind::HeaderMissing if refused.first.is_empty() => fixed_sentence(
            alloc,
            "The text is empty.",
        ),
        Kind::HeaderForm | Kind::HeaderRange => {
            let (line, _) = split_line(refused.text);
            header_advice(alloc, line)
        }
        Kind::LineForm | Kind::Number | Kind::Side | Kind::Hex => row_advice(alloc, kind, refused),
        Kind::TextLarge => fixed_sentence(alloc, TOO_LARGE),
        _ => Ok(None),
    }
}

/// Returns the meaning of a kind of faulty line, as the table of explanations has it.
fn meaning(alloc: Global, kind: Kind) -> Result<String, AllocError> {
    let word = format!(in alloc; "{}", kind.number())?;
    let found = explain(alloc, all().as_slice(), word.as_str())?;
    match found.iter().find(|row| row.topic == Topic::Kind) {
        Some(Explanation { meaning, .. }) => String::from_str(alloc, meaning),
        None => Ok(word),
    }
}

/// Returns what is wrong with a trace that was refused by a rule, in a sentence: by the refused line where it says more,
/// otherwise the meaning of the rule. Fails only when memory is refused.
pub fn advice(alloc: Global, kind: Kind, refused: LastLine<'_>) -> Result<String, AllocError> {
    if let Some(sentence) = file_advice(refused.first) {
        return String::from_str(alloc, sentence);
    }
    if refused.interface.is_none() {
        if let Some(sentence) = other_text_advice(alloc, refused)? {
            return Ok(sentence);
        }
    }
    match line_advice(alloc, kind, refused)? {
        Some(sentence) => Ok(sentence),
        None => meaning(alloc, kind),
    }
}
