//! The comments after the last line of the trace text, as they go to a sink.

ghost use Rattle.std.specs.Prelude.{◌≡◌, ◌∷◌, []};
ghost use Rattle.hex.specs.Hex.{encode_upper};
ghost use Rattle.line_model.specs.basics.Written.{HasFront, PutsTo};
ghost use Rattle.annotated_trace.specs.Pages.{HasNoted, HasNotes};
ghost use Rattle.annotated_trace.specs.Wording.{feed_of, hash_of, plain};

use crate::notes::WORDS_LIMIT;
use itoa::Buffer;
use line_model::device::Sink;
use line_model::fault::Fault;
use line_model::lending::LentSink;
use line_model::write_buffer::WriteBuffer;
use trace_text::cuts::split_at_byte;

/// The hex digits of half an octet.
const DIGITS: &[u8; 16] = b"0123456789ABCDEF";

/// An octet in hex digits.
#[tactic(auto, unfolding(hex::specs::Hex::encode_with))]
fn digits(octet: u8) -> [u8; 2]
    ensures { result ≡ encode_upper (octet ∷ []) }
{
    [
        DIGITS[usize::from(octet / 16)],
        DIGITS[usize::from(octet % 16)],
    ]
}

/// Begins a line, unless `said`, the number of bytes written in it, shows that it has begun.
fn begin<K: Sink>(said: usize, out: &mut WriteBuffer, sink: &mut K)
    ensures { PutsTo K.Sink sink.old sink.new out.old out.new (hash_of said) }
{
    let hash: &[u8] = if said == 0 { b"# " } else { b"" };
    out.put(sink, hash)
}

/// Ends a line of `said` bytes; a line without words has not begun.
fn end<K: Sink>(said: usize, out: &mut WriteBuffer, sink: &mut K)
    ensures { PutsTo K.Sink sink.old sink.new out.old out.new (feed_of said) }
{
    let feed: &[u8] = if said == 0 { b"" } else { b"\n" };
    out.put(sink, feed)
}

/// Puts words, a space in place of each LF.
fn put_plain<K: Sink>(words: &[u8], out: &mut WriteBuffer, sink: &mut K)
    ensures { PutsTo K.Sink sink.old sink.new out.old out.new (plain words.now) }
{
    let mut rest = words;
    while let Some((front, back)) = split_at_byte(rest, b'\n') {
        out.put(sink, front);
        out.put(sink, b" ");
        rest = back;
    }
    out.put(sink, rest)
}

/// Comment lines that mark no finding, each `# ` and words, on their way to a sink. Writing them allocates no memory
/// and never fails: `finish` returns a failure of the sink, and nothing is sent after it.
#[derive(Drop)]
pub struct ClosingPage<S: LentSink> {
    sink: S,
    buffer: WriteBuffer,
    /// The bytes of the words of the line that has not ended.
    said: usize,
    ghost represented: { ∥ HasNotes S.before (S.taken sink, S.failures sink) buffer said ∥₁ },
}

impl<S: LentSink> ClosingPage<S> {
    ghost use Rattle.std.specs.Prelude.{◌<◌, IfErr, OnErr, OnOk, decimal};
    ghost use Rattle.line_model.specs.basics.Device.{with_more};
    ghost use Rattle.line_model.specs.traces.Traces.{text};
    ghost use Rattle.annotated_trace.specs.Wording.{Remarks, ended_notes, notes_of, with_words};

    /// Returns a page without words. The sink is as it was lent.
    pub(crate) fn new(sink: S) -> Self
        requires { (S.taken sink, S.failures sink) ≡ S.before }
        ensures nothing { HasNoted S.before (S.taken result.sink, S.failures result.sink)
            result.buffer result.said (record { lines = []; line = [] }) }
    {
        ClosingPage {
            sink,
            buffer: WriteBuffer::new(),
            said: 0,
        }
    }

    /// Adds words to the last line: a space for each LF, and no more than the line has room for.
    fn add(&mut self, words: &[u8])
        ensures said { (notes : Remarks) → HasNoted S.before
            (S.taken self.old.sink, S.failures self.old.sink) self.old.buffer self.old.said
            notes → HasNoted S.before (S.taken self.new.sink, S.failures self.new.sink)
            self.new.buffer self.new.said
            (record notes { line = with_words notes.line words.now }) }
    {
        let room = WORDS_LIMIT - self.said;
        let front = &words[..room.min(words.len())];
        if front.is_empty() {
            return;
        }
        begin(self.said, &mut self.buffer, &mut self.sink);
        put_plain(front, &mut self.buffer, &mut self.sink);
        self.said += front.len();
    }

    /// Adds words to the last line, as `Notes::say`: the notes that a page writes are those that `Notes` would hold.
    pub fn say(&mut self, words: &str)
        ensures said { (notes : Remarks) → HasNoted S.before
            (S.taken self.old.sink, S.failures self.old.sink) self.old.buffer self.old.said
            notes → HasNoted S.before (S.taken self.new.sink, S.failures self.new.sink)
            self.new.buffer self.new.said
            (record notes { line = with_words notes.line words.now }) }
    {
        self.add(words.as_bytes())
    }

    /// Adds a number in decimal digits, as `say` adds words.
    pub fn number(&mut self, number: u64)
        ensures said { (notes : Remarks) → HasNoted S.before
            (S.taken self.old.sink, S.failures self.old.sink) self.old.buffer self.old.said
            notes → HasNoted S.before (S.taken self.new.sink, S.failures self.new.sink)
            self.new.buffer self.new.said (record notes {
              line = with_words notes.line
                  (decimal number);
            }) }
    {
        let mut buffer = Buffer::new();
        self.add(buffer.format(number).as_bytes())
    }

    /// Adds an octet in hex digits.
    fn octet(&mut self, octet: u8)
        ensures said { (notes : Remarks) → HasNoted S.before
            (S.taken self.old.sink, S.failures self.old.sink) self.old.buffer self.old.said
            notes → HasNoted S.before (S.taken self.new.sink, S.failures self.new.sink)
            self.new.buffer self.new.said (record notes {
              line = with_words notes.line
                  (encode_upper (octet ∷ []));
            }) }
    {
        self.add(&digits(octet))
    }

    /// Adds octets in hex digits, two for each, as `say` adds words.
    pub fn octets(&mut self, octets: &[u8])
        ensures said { (notes : Remarks) → HasNoted S.before
            (S.taken self.old.sink, S.failures self.old.sink) self.old.buffer self.old.said
            notes → HasNoted S.before (S.taken self.new.sink, S.failures self.new.sink)
            self.new.buffer self.new.said (record notes {
              line = with_words notes.line
                  (encode_upper octets.now);
            }) }
    {
        for octet in octets {
            self.octet(*octet);
        }
    }

    /// Ends the last line, and begins a further one.
    pub fn next(&mut self)
        ensures ended { (notes : Remarks) → HasNoted S.before
            (S.taken self.old.sink, S.failures self.old.sink) self.old.buffer self.old.said
            notes → HasNoted S.before (S.taken self.new.sink, S.failures self.new.sink)
            self.new.buffer self.new.said (ended_notes notes) }
    {
        begin(self.said, &mut self.buffer, &mut self.sink);
        self.buffer.put(&mut self.sink, b"\n");
        self.said = 0;
    }

    /// Ends the last line, if it has words, and returns the sink. It accepted all notes, or it has failed and accepted a
    /// first part of them.
    pub(crate) fn finish(self) -> (S, Result<(), Fault>)
        ensures ok { (notes : Remarks) → HasNoted S.before
            (S.taken self.sink, S.failures self.sink) self.buffer
            self.said notes → OnOk result.1 (S.taken result.0
            ≡ with_more S.before.0 (text (notes_of notes))) }
        ensures part { (notes : Remarks) → HasNoted S.before
            (S.taken self.sink, S.failures self.sink) self.buffer
            self.said notes → OnErr result.1 (HasFront S.before.0
            (S.taken result.0) (text (notes_of notes))) }
        ensures cause { (notes : Remarks) → HasNoted S.before
            (S.taken self.sink, S.failures self.sink) self.buffer
            self.said notes → OnErr result.1 (S.before.1 < S.failures result.0) }
        ensures write { IfErr result.1 (λ fault. fault ≡ Fault.Write) }
    {
        let ClosingPage {
            mut sink,
            mut buffer,
            said,
        } = self;
        end(said, &mut buffer, &mut sink);
        let answer = buffer.end(&mut sink);
        (sink, answer)
    }
}
