//! The words of a line, which single spaces separate.

ghost use Rattle.std.specs.Prelude.{◌≡◌, ◌∷◌, [], MatchOption};
ghost use Rattle.trace_text.specs.WordsLeft.{words_left};
ghost use Rattle.line_model.specs.text.Header.{words_of};

use crate::cuts::split_at_byte;
use std::marker::Model;

/// The words of a line that are left. Single spaces separate them.
#[derive(Drop)]
pub struct Words<'a> {
    rest: Option<&'a [u8]>,
}

impl<'a> Model for Words<'a> {
    ghost use Rattle.std.specs.Prelude.{List, ℕ};
    ghost use Rattle.trace_text.specs.WordsLeft.{words_left};

    ghost Value = { List (List ℕ) };

    ghost view = { λ w. words_left w.rest };
}

impl<'a> Words<'a> {
    /// Returns the words of a line; an empty line has one empty word.
    pub fn new(line: &'a [u8]) -> Self
        ensures { result ≡ words_of line.entry.now }
    {
        Words { rest: Some(line) }
    }

    /// Returns no words.
    pub fn none() -> Self
        ensures { result ≡ [] }
    {
        Words { rest: None }
    }

    /// Returns the next word, which may be empty, if one is left.
    pub fn next(&mut self) -> Option<&'a [u8]>
        ensures { MatchOption result ((self.old ≡ [])
            × (self.new ≡ [])) (λ word. self.old ≡ word.now ∷ self.new) }
    {
        let text = self.rest?;
        match split_at_byte(text, b' ') {
            Some((word, rest)) => {
                self.rest = Some(rest);
                Some(word)
            }
            None => {
                self.rest = None;
                Some(text)
            }
        }
    }
}
