//! What is wrong with the form of a header.

use crate::advice::line::{number_in, space_advice};
use crate::advice::quoted::quoted;
use crate::advice::ranges::{Numbers, range_advice};
use crate::advice::sentence::{fixed_sentence, quoting_sentence, some_sentence};
use std::alloc::{AllocError, Global};

/// A header of the first form, as an example.
const HEADER: &str = "X25 1 MOD 8 WIN 2 SIZE 128 PVC 0 SVC 4";

/// The names of the numbers in a header of the first form.
pub const FIRST_FORM: [&str; 5] = ["MOD", "WIN", "SIZE", "PVC", "SVC"];

/// The names of the numbers in a header of the second and the third form.
pub const SECOND_FORM: [&str; 7] = ["MOD", "WIN", "SIZE", "PVC", "IN", "TWO", "OUT"];

/// The words of a line that are left.
#[derive(Drop)]
struct WordsLeft<'a> {
    line: Option<&'a [u8]>,
}

impl<'a> WordsLeft<'a> {
    /// Returns the next word; none at the end.
    fn next(&mut self) -> Option<&'a [u8]> {
        let line = self.line?;
        let mut parts = line.splitn(2, |byte| *byte == b' ');
        let word = parts.next();
        self.line = parts.next();
        word
    }
}

/// Returns what is wrong with a word where a name belongs, if it is another word.
fn name_advice(
    alloc: Global,
    word: Option<&[u8]>,
    name: &str,
) -> Result<Option<String>, AllocError> {
    match word {
        None => some_sentence(format!(in alloc; "The header ends where {name} belongs.")),
        Some(word) if word == name.as_bytes() => Ok(None),
        Some(word) => other_name_advice(alloc, word, name),
    }
}

/// Returns what is wrong with another word where a name belongs.
fn other_name_advice(alloc: Global, word: &[u8], name: &str) -> Result<Option<String>, AllocError> {
    let is_same = word.eq_ignore_ascii_case(name.as_bytes());
    let word = quoted(alloc, word)?;
    some_sentence(if is_same {
        format!(in alloc; "The header's words are in capitals: {word} is written {name}.")
    } else {
        format!(in alloc; "The header has {word} where {name} belongs.")
    })
}

/// Returns the number after a name, or what is wrong there.
fn number_after(
    alloc: Global,
    word: Option<&[u8]>,
    name: &str,
) -> Result<Result<u32, String>, AllocError> {
    let Some(word) = word else {
        return refused(format!(in alloc; "The header ends where the number of {name} belongs."));
    };
    match number_in(word) {
        Some(number) => Ok(Ok(number)),
        None => refused(no_number_advice(alloc, word, name)),
    }
}

/// Returns the sentence in place of a number.
fn refused(sentence: Result<String, AllocError>) -> Result<Result<u32, String>, AllocError> {
    Ok(Err(sentence?))
}

/// Returns what is wrong with a word after a name where the word is not a number.
fn no_number_advice(alloc: Global, word: &[u8], name: &str) -> Result<String, AllocError> {
    let word = quoted(alloc, word)?;
    format!(in alloc;
        "{word} comes after {name}, where a number of 1 to 9 digits without a leading zero belongs."
    )
}

/// Removes a name and its number from the words, or returns what is wrong there.
fn next_number(
    alloc: Global,
    words: &mut WordsLeft<'_>,
    name: &str,
) -> Result<Result<u32, String>, AllocError> {
    match name_advice(alloc, words.next(), name)? {
        Some(sentence) => Ok(Err(sentence)),
        None => number_after(alloc, words.next(), name),
    }
}

/// Removes the names and their numbers from the words, or returns what is wrong with the first that is wrong.
fn next_numbers(
    alloc: Global,
    words: &mut WordsLeft<'_>,
    names: &[&str],
) -> Result<Result<Numbers, String>, AllocError> {
    let mut numbers = Numbers::none();
    for name in names {
        match next_number(alloc, words, name)? {
            Ok(number) => numbers.put(name, number),
            Err(sentence) => return Ok(Err(sentence)),
        }
    }
    Ok(Ok(numbers))
}

/// Returns what is wrong after the last number, if something is.
fn end_advice(
    alloc: Global,
    words: &mut WordsLeft<'_>,
    may_join: bool,
) -> Result<Option<String>, AllocError> {
    match words.next() {
        None => Ok(None),
        Some(word) if may_join => join_advice(alloc, word, words),
        Some(word) => quoting_sentence(alloc, "", word, " comes after the header's last number."),
    }
}

/// Returns what is wrong with a word in the place of JOIN and with those after it, if something is.
fn join_advice(
    alloc: Global,
    word: &[u8],
    words: &mut WordsLeft<'_>,
) -> Result<Option<String>, AllocError> {
    match name_advice(alloc, Some(word), "JOIN") {
        Ok(None) => end_advice_after(alloc, words),
        advice => advice,
    }
}

/// Returns what is wrong after JOIN, if something is.
fn end_advice_after(
    alloc: Global,
    words: &mut WordsLeft<'_>,
) -> Result<Option<String>, AllocError> {
    match words.next() {
        None => Ok(None),
        Some(word) => quoting_sentence(alloc, "", word, " comes after the header's JOIN."),
    }
}

/// Returns what is wrong with a header of one of the forms, after its number, if something is.
fn numbers_advice(
    alloc: Global,
    words: &mut WordsLeft<'_>,
    names: &[&str],
    may_join: bool,
) -> Result<Option<String>, AllocError> {
    match next_numbers(alloc, words, names)? {
        Err(sentence) => Ok(Some(sentence)),
        Ok(numbers) => match end_advice(alloc, words, may_join) {
            Ok(None) => range_advice(alloc, &numbers, may_join),
            advice => advice,
        },
    }
}

/// Returns what is wrong with the words of a header, if something is.
fn words_advice(alloc: Global, line: &[u8]) -> Result<Option<String>, AllocError> {
    let mut words = WordsLeft { line: Some(line) };
    match name_advice(alloc, words.next(), "X25") {
        Ok(None) => form_advice(alloc, &mut words),
        advice => advice,
    }
}

/// Returns what is wrong with the words of a header after its name, if something is.
fn form_advice(alloc: Global, words: &mut WordsLeft<'_>) -> Result<Option<String>, AllocError> {
    match words.next() {
        Some([b'1']) => numbers_advice(alloc, words, FIRST_FORM.as_slice(), false),
        Some([b'2' | b'3']) => numbers_advice(alloc, words, SECOND_FORM.as_slice(), true),
        _ => fixed_sentence(alloc, "After X25 comes the form of the header: 1, 2 or 3."),
    }
}

/// Returns what is wrong with a header, if something is.
pub fn header_advice(alloc: Global, line: &[u8]) -> Result<Option<String>, AllocError> {
    match space_advice(alloc, line) {
        Ok(None) => first_line_advice(alloc, line),
        advice => advice,
    }
}

/// Returns what is wrong with a header that is split into words, if something is.
fn first_line_advice(alloc: Global, line: &[u8]) -> Result<Option<String>, AllocError> {
    match line.first() {
        Some(byte) if byte.is_ascii_digit() => some_sentence(format!(in alloc;
            "A row comes before the header, which has to come first, as {HEADER}."
        )),
        _ => words_advice(alloc, line),
    }
}
