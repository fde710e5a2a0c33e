//! A line, its words and the spaces between them.

use crate::advice::sentence::{fixed_sentence, some_sentence};
use memchr::{memchr, memmem};
use std::alloc::{AllocError, Global};

/// Returns the first line of a text, and what comes after it.
pub fn split_line(text: &[u8]) -> (&[u8], &[u8]) {
    match memchr(b'\n', text) {
        Some(end) => text.split_at(end),
        None => (text, b""),
    }
}

/// The column of a place in a line.
fn column(place: usize) -> usize {
    place.saturating_add(1)
}

/// Returns whether a line ends in a carriage return.
pub fn ends_in_return(line: &[u8]) -> bool {
    line.ends_with(b"\r")
}

/// Returns the sentence on a line that ends in a carriage return.
pub const RETURN: &str =
    "The line ends in a carriage return, and a line feed alone ends a line: tr -d '\\r' < FILE | x25scan reads the trace.";

/// Returns the sentence on an empty line.
const EMPTY: &str =
    "The line is empty: sed '/^$/d' FILE | x25scan reads the trace without its empty lines.";

/// Returns the sentence on an empty line that no other follows.
const LAST_EMPTY: &str =
    "The last line that was read is empty: sed '/^$/d' FILE | x25scan reads the trace without its empty lines.";

/// Returns the sentence on an empty line; these bytes were read after it.
pub fn empty_advice(alloc: Global, after: &[u8]) -> Result<Option<String>, AllocError> {
    if after.iter().all(|byte| *byte == b'\n') {
        fixed_sentence(alloc, LAST_EMPTY)
    } else {
        fixed_sentence(alloc, EMPTY)
    }
}

/// Returns what is wrong with the bytes between the words of a line, if something is.
pub fn space_advice(alloc: Global, line: &[u8]) -> Result<Option<String>, AllocError> {
    if line.is_empty() {
        return fixed_sentence(alloc, EMPTY);
    }
    if ends_in_return(line) {
        return fixed_sentence(alloc, RETURN);
    }
    if let Some(place) = memchr(b'\t', line) {
        let column = column(place);
        return some_sentence(format!(in alloc;
            "There is a tab at column {column}: single spaces part the words."
        ));
    }
    parting_advice(alloc, line)
}

/// Returns what is wrong with the spaces of a line, if something is.
fn parting_advice(alloc: Global, line: &[u8]) -> Result<Option<String>, AllocError> {
    if line.starts_with(b" ") {
        return fixed_sentence(alloc, "The line begins with a space.");
    }
    if let Some(place) = memmem::find(line, b"  ") {
        let column = column(place);
        return some_sentence(format!(in alloc;
            "There are two spaces at column {column}: single spaces part the words."
        ));
    }
    if line.ends_with(b" ") {
        return fixed_sentence(alloc, "The line ends in a space.");
    }
    Ok(None)
}

/// Returns the number that a word is: 1 to 9 digits without a leading zero, except for 0 itself.
pub fn number_in(word: &[u8]) -> Option<u32> {
    if word.is_empty() || word.len() > 9 || (word.len() > 1 && word.starts_with(b"0")) {
        return None;
    }
    let mut value: u32 = 0;
    for digit in word {
        if !digit.is_ascii_digit() {
            return None;
        }
        let digit = u32::from(digit.wrapping_sub(b'0'));
        value = value.saturating_mul(10).saturating_add(digit);
    }
    Some(value)
}
