//! Words, numbers and octets, one after the other.

use annotated_trace::notes::{NoteWords, Notes};
use annotated_trace::page::ClosingPage;
use line_model::address::Address;
use line_model::lending::LentSink;
use std::alloc::{AllocError, Allocator};

/// The target of words: the comments of a row, the words of a mark, or the page of the closing comments. Its calls
/// never fail.
pub trait Prose {
    /// Appends words.
    fn say(&mut self, words: &str);

    /// Appends a number.
    fn number(&mut self, number: u64);

    /// Appends octets in hex.
    fn octets(&mut self, octets: &[u8]);
}

/// The target of comments of several lines.
pub trait Page: Prose {
    /// Begins a further line.
    fn next_line(&mut self);
}

/// Writes notes or words while memory lasts. Once memory is refused, nothing more is written, and `answer` fails.
#[derive(Drop)]
pub struct ProseWriter<'a, T> {
    to: &'a mut T,
    answer: Result<(), AllocError>,
}

impl<'a, T> ProseWriter<'a, T> {
    /// Returns a writer that has written nothing.
    pub fn new(to: &'a mut T) -> Self {
        ProseWriter { to, answer: Ok(()) }
    }

    /// Fails where memory was refused for something that was to be written.
    pub fn answer(&self) -> Result<(), AllocError> {
        self.answer
    }
}

impl<A: Allocator + Copy> Page for ProseWriter<'_, Notes<A>> {
    fn next_line(&mut self) {
        if self.answer.is_ok() {
            self.answer = self.to.next();
        }
    }
}

impl<A: Allocator + Copy> Prose for ProseWriter<'_, Notes<A>> {
    fn say(&mut self, words: &str) {
        if self.answer.is_ok() {
            self.answer = self.to.say(words);
        }
    }

    fn number(&mut self, number: u64) {
        if self.answer.is_ok() {
            self.answer = self.to.number(number);
        }
    }

    fn octets(&mut self, octets: &[u8]) {
        if self.answer.is_ok() {
            self.answer = self.to.octets(octets);
        }
    }
}

impl<A: Allocator + Copy> Prose for ProseWriter<'_, NoteWords<A>> {
    fn say(&mut self, words: &str) {
        if self.answer.is_ok() {
            self.answer = self.to.say(words);
        }
    }

    fn number(&mut self, number: u64) {
        if self.answer.is_ok() {
            self.answer = self.to.number(number);
        }
    }

    fn octets(&mut self, octets: &[u8]) {
        if self.answer.is_ok() {
            self.answer = self.to.octets(octets);
        }
    }
}

impl<S: LentSink> Page for ClosingPage<S> {
    fn next_line(&mut self) {
        self.next();
    }
}

impl<S: LentSink> Prose for ClosingPage<S> {
    fn say(&mut self, words: &str) {
        self.say(words);
    }

    fn number(&mut self, number: u64) {
        self.number(number);
    }

    fn octets(&mut self, octets: &[u8]) {
        self.octets(octets);
    }
}

/// Appends words and a number.
pub fn say_number<P: Prose>(out: &mut P, words: &str, number: u64) {
    out.say(words);
    out.number(number);
}

/// Appends a space and a name in brackets.
pub fn bracketed<P: Prose>(out: &mut P, name: &str) {
    out.say(" (");
    out.say(name);
    out.say(")");
}

/// Appends words and a number with the name of what it counts, which begins with a space and is plural except after 1.
pub fn count<P: Prose>(out: &mut P, words: &str, number: u64, one: &str) {
    say_number(out, words, number);
    out.say(one);
    if number != 1 {
        out.say("s");
    }
}

/// Appends the digits of an address, `-` for none.
pub fn address<P: Prose>(out: &mut P, address: &Address) {
    let digits = address.as_bytes();
    if digits.is_empty() {
        out.say("-");
        return;
    }
    for byte in digits {
        out.number(u64::from(byte.saturating_sub(b'0')));
    }
}
