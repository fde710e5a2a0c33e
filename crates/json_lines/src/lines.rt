//! The text of a report, which comes in parts, and the objects of its lines.

ghost use Rattle.std.specs.Prelude.{◌≡◌, ℕ, ◌+◌, List, [], ◌∷◌, ◌++◌, Option, OnErr, OnOk, is_err, length, if◌then◌else◌};
ghost use Rattle.line_model.specs.basics.Written.{has_failed};
ghost use Rattle.json_lines.specs.BetweenCalls.{Goes, IsBetweenCalls};

use crate::objects::put_object;
use arrayvec::ArrayVec;
use line_model::device::Sink;
use line_model::history::History;
use line_model::write_buffer::WriteBuffer;

/// The line that has not ended, and the objects on their way to a sink.
#[derive(Drop)]
pub struct JsonLines {
    buffer: WriteBuffer,
    line: ArrayVec<u8, 256>,
    /// The bytes that were accepted.
    given: History,
    /// A byte for each refusal.
    refused: History,
}

impl JsonLines {
    /// Returns a value that has accepted nothing.
    pub fn new() -> JsonLines
        ensures represented { (taken : Option (List ℕ) × ℕ) → IsBetweenCalls taken taken result }
        ensures given { result.given.bytes ≡ [] }
        ensures refused { result.refused.bytes ≡ [] }
    {
        JsonLines {
            buffer: WriteBuffer::new(),
            line: ArrayVec::new(),
            given: History::new(),
            refused: History::new(),
        }
    }

    /// Accepts a byte.
    fn take_byte<W: Sink>(&mut self, sink: &mut W, byte: u8)
        ensures goes { (before : Option (List ℕ) × ℕ)
            → Goes before (W.taken sink.old, W.failures sink.old) self.old
            → Goes before (W.taken sink.new, W.failures sink.new) self.new }
        ensures given { self.new.given.bytes ≡ self.old.given.bytes ++ byte ∷ [] }
        ensures refused { self.new.refused.bytes ≡ self.old.refused.bytes }
    {
        self.given = History::with(&self.given, &byte);
        if byte == b'\n' {
            put_object(&mut self.buffer, sink, self.line.as_slice());
            self.line.clear();
        } else if !self.line.is_full() {
            self.line.push(byte);
        }
    }

    /// Accepts bytes, and writes to a sink the objects of the lines that end in them. Once the sink has failed it
    /// refuses all bytes; what was accepted before the sink failed stays accepted.
    pub fn take<W: Sink>(&mut self, sink: &mut W, bytes: &[u8]) -> Result<(), ()>
        ensures represented { (before : Option (List ℕ) × ℕ)
            → IsBetweenCalls before (W.taken sink.old, W.failures sink.old) self.old
            → IsBetweenCalls before (W.taken sink.new, W.failures sink.new) self.new }
        ensures ok { OnOk result (self.new.given.bytes ≡ self.old.given.bytes ++ bytes.now) }
        ensures err { OnErr result (self.new.given.bytes ≡ self.old.given.bytes) }
        ensures refused { length self.new.refused.bytes
            ≡ (if is_err result then length self.old.refused.bytes + 1 else length
            self.old.refused.bytes) }
    {
        if self.buffer.has_failed() {
            self.refused = History::with(&self.refused, &0);
            return Err(());
        }
        for byte in bytes {
            self.take_byte(sink, *byte);
        }
        self.buffer.flush(sink);
        Ok(())
    }

    /// Returns whether the sink has failed.
    pub fn has_failed(&self) -> bool
        ensures { result ≡ has_failed self.now.buffer }
    {
        self.buffer.has_failed()
    }
}
