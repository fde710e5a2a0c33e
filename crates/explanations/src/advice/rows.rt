//! What is wrong with a row.

use crate::advice::line::{
    RETURN, empty_advice, ends_in_return, number_in, space_advice, split_line,
};
use crate::advice::quoted::quoted;
use crate::advice::sentence::{fixed_sentence, quoting_sentence, some_sentence};
use line_model::device::LastLine;
use line_model::fault::Kind;
use std::alloc::{AllocError, Global};

/// The octets that a row may have.
const OCTET_LIMIT: usize = 4200;

/// The greatest number of a logical channel.
const CHANNELS: u32 = 4095;

/// The three words of a row.
#[derive(Clone, Copy)]
struct RowWords<'a> {
    number: &'a [u8],
    side: &'a [u8],
    octets: &'a [u8],
}

fn row_words(line: &[u8]) -> Option<RowWords<'_>> {
    let mut words = line.split(|byte| *byte == b' ');
    let number = words.next()?;
    let side = words.next()?;
    let octets = words.next()?;
    match words.next() {
        None if !number.is_empty() && !side.is_empty() && !octets.is_empty() => Some(RowWords {
            number,
            side,
            octets,
        }),
        _ => None,
    }
}

/// Whether these are the words of a gap row.
fn is_gap(row: RowWords<'_>) -> bool {
    row.side == b"?".as_slice()
}

/// Returns the sentence on a header among the rows.
const SECOND_HEADER: &str =
    "This is a second header, as in joined traces. Where the row numbers go on, awk '!/^X25 / || !n++' FILE.. | x25scan reads them as one trace.";

/// Whether a line is one of a header's, by its beginning.
fn is_like_header(line: &[u8]) -> bool {
    line.starts_with(b"X25 ")
}

/// Returns what is wrong with the form of a row; these bytes were read after it.
fn form_advice(alloc: Global, line: &[u8], after: &[u8]) -> Result<Option<String>, AllocError> {
    if line.is_empty() {
        return empty_advice(alloc, after);
    }
    if is_like_header(line) {
        return fixed_sentence(alloc, SECOND_HEADER);
    }
    match space_advice(alloc, line) {
        Ok(None) => word_count_advice(alloc, line),
        advice => advice,
    }
}

/// Returns the sentence on a row by how many words it has.
fn word_count_advice(alloc: Global, line: &[u8]) -> Result<Option<String>, AllocError> {
    let count = line.split(|byte| *byte == b' ').count();
    let words = if count == 1 { "word" } else { "words" };
    some_sentence(format!(in alloc;
        "The line has {count} {words}, and a row has three: its number, its side and its octets."
    ))
}

/// Returns what is wrong with a number after that of the row before, if it is wrong.
fn number_advice(alloc: Global, word: &[u8], before: u32) -> Result<Option<String>, AllocError> {
    match number_in(word) {
        None => quoting_sentence(
            alloc,
            "The row's number is ",
            word,
            ": 1 to 999999999 without a leading zero belongs there.",
        ),
        Some(0) => fixed_sentence(alloc, "The row's number is 0: rows are numbered from 1."),
        Some(number) => rise_advice(alloc, number, before),
    }
}

/// Returns what is wrong with a number that does not rise above that of the row before.
fn rise_advice(alloc: Global, number: u32, before: u32) -> Result<Option<String>, AllocError> {
    if number > before {
        return Ok(None);
    }
    some_sentence(format!(in alloc;
        "The row's number is {number}, and that of the row before is {before}: numbers rise."
    ))
}

/// Returns what is wrong with a side, if it is wrong.
fn side_advice(alloc: Global, word: &[u8]) -> Result<Option<String>, AllocError> {
    match word {
        [b'T'] | [b'N'] => Ok(None),
        [b't'] => fixed_sentence(alloc, "The side t is written T."),
        [b'n'] => fixed_sentence(alloc, "The side n is written N."),
        _ => quoting_sentence(
            alloc,
            "The side is ",
            word,
            ": T for the DTE or N for the DCE belongs there.",
        ),
    }
}

/// Returns what is wrong with the third word of a gap row, if it is wrong.
fn gap_advice(alloc: Global, word: &[u8], last: u32) -> Result<Option<String>, AllocError> {
    if word == b"*".as_slice() {
        return Ok(None);
    }
    match number_in(word) {
        Some(channel) if 1 <= channel && channel <= last => Ok(None),
        _ => {
            let word = quoted(alloc, word)?;
            some_sentence(format!(in alloc;
                "The gap's logical channel is {word}: 1 to {last} without a leading zero belongs there, or * for all."
            ))
        }
    }
}

/// Returns what is wrong with octets that begin after `front` bytes of their line, if they are wrong.
fn octets_advice(alloc: Global, word: &[u8], front: usize) -> Result<Option<String>, AllocError> {
    if word == b"-".as_slice() {
        return Ok(None);
    }
    if ends_in_return(word) {
        return fixed_sentence(alloc, RETURN);
    }
    match word.iter().position(|byte| !byte.is_ascii_hexdigit()) {
        Some(place) => digit_advice(alloc, word, place, front),
        None => count_advice(alloc, word.len(), front),
    }
}

/// Returns the sentence on a byte among the octets that is not a hex digit.
fn digit_advice(
    alloc: Global,
    word: &[u8],
    place: usize,
    front: usize,
) -> Result<Option<String>, AllocError> {
    let column = front.saturating_add(place).saturating_add(1);
    let byte = word.get(place..place.saturating_add(1)).unwrap_or(b"");
    let byte = quoted(alloc, byte)?;
    some_sentence(format!(in alloc; "Column {column} has {byte}, which is not a hex digit."))
}

/// Returns what is wrong with the number of hex digits, if it is wrong.
fn count_advice(alloc: Global, count: usize, front: usize) -> Result<Option<String>, AllocError> {
    let octets = count / 2;
    if octets > OCTET_LIMIT {
        return some_sentence(format!(in alloc;
            "The row has {octets} octets, and {OCTET_LIMIT} are the most."
        ));
    }
    if count % 2 == 1 {
        let column = front.saturating_add(count);
        return some_sentence(format!(in alloc;
            "The octets have {count} hex digits, an odd number: the last one, at column {column}, has no second digit."
        ));
    }
    Ok(None)
}

/// Returns what is wrong with the words of a row by a rule, if it breaks that rule.
fn words_advice(
    alloc: Global,
    kind: Kind,
    row: RowWords<'_>,
    refused: LastLine<'_>,
) -> Result<Option<String>, AllocError> {
    match kind {
        Kind::Number => number_advice(alloc, row.number, refused.number_before),
        Kind::Side => side_advice(alloc, row.side),
        Kind::Hex if is_gap(row) => gap_advice(alloc, row.octets, last_channel(refused)),
        Kind::Hex => {
            let front = row.number.len().saturating_add(row.side.len());
            octets_advice(alloc, row.octets, front.saturating_add(2))
        }
        _ => Ok(None),
    }
}

/// The last logical channel of the header.
fn last_channel(refused: LastLine<'_>) -> u32 {
    match refused.interface {
        Some(interface) => u32::from(interface.svc),
        None => CHANNELS,
    }
}

/// Returns what is wrong with a refused row by a rule, if it breaks that rule.
pub fn row_advice(
    alloc: Global,
    kind: Kind,
    refused: LastLine<'_>,
) -> Result<Option<String>, AllocError> {
    let (line, after) = split_line(refused.text);
    match row_words(line) {
        Some(row) => words_advice(alloc, kind, row, refused),
        None if kind == Kind::LineForm => form_advice(alloc, line, after),
        None => Ok(None),
    }
}
