//! The words of a line of a report.

ghost use Rattle.std.specs.Prelude.{◌≡◌, ◌∷◌, [], drop, MatchOption};
ghost use Rattle.json_lines.specs.Json.{first_word, line_words};

use std::marker::Model;
use trace_text::words::Words as LineWords;

/// The words of a line of a report that are left. Single spaces separate them.
#[derive(Drop)]
pub struct ReportWords<'a> {
    words: LineWords<'a>,
}

impl<'a> Model for ReportWords<'a> {
    ghost use Rattle.std.specs.Prelude.{List, ℕ};

    ghost Value = { List (List ℕ) };

    ghost view = { λ w. w.words };
}

/// The number of octets that each line of a report stays below: 256.
const LINE_ROOM: usize = 256;

impl<'a> ReportWords<'a> {
    /// Returns the words of a line; none where the line is too long for a report.
    pub fn new(line: &'a [u8]) -> Self
        ensures { result ≡ line_words line.entry.now }
    {
        let words = if line.len() >= LINE_ROOM {
            LineWords::none()
        } else {
            LineWords::new(line)
        };
        ReportWords { words }
    }

    /// Removes and returns the next word, which may be empty, if one is left.
    pub fn next(&mut self) -> Option<&'a [u8]>
        ensures { MatchOption result ((self.old ≡ [])
            × (self.new ≡ [])) (λ word. self.old ≡ word.now ∷ self.new) }
    {
        self.words.next()
    }

    /// Removes and returns the next word, or a dash where none is left.
    pub fn take(&mut self) -> &'a [u8]
        ensures word { result.now ≡ first_word self.old }
        ensures rest { self.new ≡ drop 1 self.old }
    {
        match self.next() {
            Some(word) => word,
            None => b"-",
        }
    }
}
