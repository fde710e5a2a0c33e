//! The words of comments, as they are written.

ghost use Rattle.std.specs.Prelude.{◌≡◌, ◌==◌, ◌++◌, ◌∷◌, ◌≤◌, ℕ, List, [], OnErr, OnOk, decimal, length};
ghost use Rattle.hex.specs.Hex.{encode_upper};
ghost use Rattle.line_model.specs.traces.Traces.{text};
ghost use Rattle.annotated_trace.specs.Wording.{BeginsWith, IsWords, note_line, notes_of, plain, with_words, words_limit};

use itoa::Buffer;
use std::alloc::{AllocError, Allocator};
use std::marker::Model;
use trace_text::cuts::split_at_byte;

/// The most bytes of the words of a line (profile).
pub const WORDS_LIMIT: usize = 8000;

/// Appends words to bytes, a space in place of each LF. Fails only when memory is refused, after a first part or none.
pub fn append_plain<A: Allocator>(words: &[u8], out: &mut Vec<u8, A>) -> Result<(), AllocError>
    ensures ok { OnOk result (out.new.items ≡ out.old.items ++ plain words.now) }
    ensures kept { BeginsWith out.old.items out.new.items }
{
    let mut rest = words;
    while let Some((front, back)) = split_at_byte(rest, b'\n') {
        out.extend_from_slice(front)?;
        out.push(b' ')?;
        rest = back;
    }
    out.extend_from_slice(rest)
}

/// Appends words as a comment line. Fails only when memory is refused, after a first part or none.
fn append_note<A: Allocator>(words: &NoteWords<A>, out: &mut Vec<u8, A>) -> Result<(), AllocError>
    ensures ok { OnOk result (out.new.items ≡ out.old.items ++ text (note_line words.now ∷ [])) }
    ensures kept { BeginsWith out.old.items out.new.items }
    ensures words { OnOk result (IsWords words.now) }
{
    out.extend_from_slice(b"# ")?;
    words.append_to(out)?;
    out.push(b'\n')?;
    Ok(())
}

/// The words of a line. An LF becomes a space, and what goes past 8,000 bytes is cut off.
#[derive(Drop)]
pub struct NoteWords<A: Allocator> {
    /// As they were appended, with their LFs.
    bytes: Vec<u8, A>,
}

impl<A: Allocator> Model for NoteWords<A> {
    ghost Value = { List ℕ };

    ghost view = { λ words. plain words.bytes.items };

    ghost invariant = { λ words. length words.bytes.items ≤ words_limit };
}

impl<A: Allocator> NoteWords<A> {
    /// Returns a value without words. Allocates no memory.
    pub fn new(alloc: A) -> Self
        ensures { result ≡ [] }
    {
        NoteWords {
            bytes: Vec::new(alloc),
        }
    }

    /// Removes all words; their memory is kept.
    pub fn clear(&mut self)
        ensures { self.new ≡ [] }
    {
        self.bytes.clear();
    }

    /// Returns whether there are no words.
    pub fn is_empty(&self) -> bool
        ensures none { result ≡ (length self.now == 0) }
        ensures words { IsWords self.now }
    {
        self.bytes.is_empty()
    }

    /// Appends the words to bytes. Fails only when memory is refused, after a first part or none.
    pub(crate) fn append_to(&self, out: &mut Vec<u8, A>) -> Result<(), AllocError>
        ensures ok { OnOk result (out.new.items ≡ out.old.items ++ self.now) }
        ensures kept { BeginsWith out.old.items out.new.items }
        ensures words { IsWords self.now }
    {
        append_plain(self.bytes.as_slice(), out)
    }

    /// Appends bytes, as `say` appends words.
    fn add(&mut self, words: &[u8]) -> Result<(), AllocError>
        ensures ok { OnOk result (self.new ≡ with_words self.old words.now) }
    {
        let room = WORDS_LIMIT - self.bytes.len();
        let front = &words[..room.min(words.len())];
        self.bytes.extend_from_slice(front)?;
        Ok(())
    }

    /// Appends words. Fails only when memory is refused, after a first part or none.
    pub fn say(&mut self, words: &str) -> Result<(), AllocError>
        ensures ok { OnOk result (self.new ≡ with_words self.old words.now) }
    {
        self.add(words.as_bytes())
    }

    /// Appends a number in decimal digits, as `say` appends words.
    pub fn number(&mut self, number: u64) -> Result<(), AllocError>
        ensures ok { OnOk result (self.new ≡ with_words self.old (decimal number)) }
    {
        let mut buffer = Buffer::new();
        self.add(buffer.format(number).as_bytes())
    }
}

impl<A: Allocator + Copy> NoteWords<A> {
    /// Appends octets in hex digits, two for each, as `say` appends words.
    pub fn octets(&mut self, octets: &[u8]) -> Result<(), AllocError>
        ensures ok { OnOk result (self.new ≡ with_words self.old (encode_upper octets.now)) }
    {
        let digits = hex::encode_upper(*self.bytes.allocator(), octets)?;
        self.add(digits.as_bytes())
    }
}

/// Comment lines that mark no finding, each `# ` and words. The last one has not ended, and words are added to it.
#[derive(Drop)]
pub struct Notes<A: Allocator> {
    /// The lines that ended, with their LFs.
    lines: Vec<u8, A>,
    /// The words of the one that has not.
    line: NoteWords<A>,
}

impl<A: Allocator> Model for Notes<A> {
    ghost use Rattle.line_model.specs.text.Text.{ended_lines};
    ghost use Rattle.annotated_trace.specs.Wording.{AreNoteBytes, Remarks};

    ghost Value = { Remarks };

    ghost view = { λ notes. record { lines = ended_lines notes.lines.items; line = notes.line } };

    ghost invariant = { λ notes. AreNoteBytes notes.lines.items };
}

impl<A: Allocator + Copy> Notes<A> {
    ghost use Rattle.annotated_trace.specs.Wording.{AreNotes, IsSaid, Remarks, ended_notes};

    /// Returns a value without notes. Allocates no memory.
    pub fn new(alloc: A) -> Self
        ensures { result ≡ record { lines = []; line = [] } }
    {
        Notes {
            lines: Vec::new(alloc),
            line: NoteWords::new(alloc),
        }
    }

    /// Removes all notes; their memory is kept.
    pub fn clear(&mut self)
        ensures { self.new ≡ record { lines = []; line = [] } }
    {
        self.lines.clear();
        self.line.clear();
    }

    /// Adds words to the last line. Fails only when memory is refused, after a first part or none.
    pub fn say(&mut self, words: &str) -> Result<(), AllocError>
        ensures ok { OnOk result (self.new ≡ record self.old {
          line = with_words self.old.line
              words.now;
        }) }
    {
        self.line.say(words)
    }

    /// Adds a number in decimal digits, as `say` adds words.
    pub fn number(&mut self, number: u64) -> Result<(), AllocError>
        ensures ok { OnOk result (self.new ≡ record self.old {
          line = with_words self.old.line
              (decimal number);
        }) }
    {
        self.line.number(number)
    }

    /// Adds octets in hex digits, two for each, as `say` adds words.
    pub fn octets(&mut self, octets: &[u8]) -> Result<(), AllocError>
        ensures ok { OnOk result (self.new ≡ record self.old {
          line = with_words self.old.line
              (encode_upper octets.now);
        }) }
    {
        self.line.octets(octets)
    }

    /// Ends the last line, and begins a further one. Fails only when memory is refused; nothing has changed then.
    pub fn next(&mut self) -> Result<(), AllocError>
        ensures ok { OnOk result (self.new ≡ ended_notes self.old) }
        ensures said { OnOk result (IsSaid self.new) }
        ensures same { OnErr result (self.new ≡ self.old) }
    {
        let ended = self.lines.len();
        match append_note(&self.line, &mut self.lines) {
            Ok(()) => {
                self.line.clear();
                Ok(())
            }
            Err(error) => {
                self.lines.truncate(ended);
                Err(error)
            }
        }
    }

    /// Appends the notes to bytes, the last line only if it has words.
    pub(crate) fn append_to(&self, out: &mut Vec<u8, A>) -> Result<(), AllocError>
        ensures ok { OnOk result (out.new.items ≡ out.old.items ++ text (notes_of self.now)) }
        ensures notes { AreNotes (notes_of self.now) }
    {
        let is_ended = self.line.is_empty();
        out.extend_from_slice(self.lines.as_slice())?;
        if is_ended {
            return Ok(());
        }
        append_note(&self.line, out)
    }
}
