//! A reader, and the bytes that it shows.

ghost use Rattle.std.specs.Prelude.{◌≡◌, ◌≤◌, ◌^◌, IfOk, OnErr, OnOk, length, take};
ghost use Rattle.line_model.specs.basics.Device.{Gives};

use crate::chunk::Chunk;
use std::io;
use std::io::Read;
use std::marker::Model;
use std::snapshot::Snapshot;

/// A reader. Contracts see the bytes that it has left, where it has shown them from the beginning on.
#[derive(Drop)]
pub(crate) struct ShownReader<R: Read + Drop> {
    reader: R,
    // The reader as it was when this was made, and before its last read. Only contracts see them.
    first: Snapshot<R>,
    before: Snapshot<R>,
}

impl<R: Read + Drop> Model for ShownReader<R> {
    ghost use Rattle.std.specs.Prelude.{IsTrue};
    ghost use Rattle.streams.specs.Shown.{Left, shown, still_shows};

    ghost Value = { Left };

    ghost view = { λ r. record { left = shown (R.remaining r.first.value) (R.remaining r.reader); before = shown (R.remaining r.first.value) (R.remaining r.before.value) } };

    ghost invariant = { λ r. IsTrue (still_shows (R.remaining r.first.value) (R.remaining r.reader)) };
}

impl<R: Read + Drop> ShownReader<R> {
    /// Returns a reader that was not read yet.
    pub fn new(reader: R) -> Self
        ensures { result.left ≡ R.remaining reader }
    {
        let first = Snapshot::of(&reader);
        let before = Snapshot::of(&reader);
        ShownReader {
            reader,
            first,
            before,
        }
    }

    /// Returns the reader.
    pub fn reader(&self) -> &R {
        &self.reader
    }

    /// Reads once, into a chunk.
    pub fn read(&mut self, chunk: &mut Chunk) -> io::Result<()>
        ensures few { length chunk.new ≤ 2 ^ 16 }
        ensures given { OnOk result (Gives self.old.left self.new.left chunk.new) }
        ensures failed { OnErr result (self.new.left ≡ self.old.left) }
        ensures before { self.new.before ≡ self.old.left }
    {
        self.before = Snapshot::of(&self.reader);
        chunk.read(&mut self.reader)
    }

    /// Reads once, into the front of a room of 65,536 bytes.
    pub fn read_into(&mut self, room: &mut [u8]) -> io::Result<usize>
        requires room { length room.old ≡ 2 ^ 16 }
        ensures few { IfOk result (λ n. n ≤ 2 ^ 16) }
        ensures given { IfOk result (λ n. Gives self.old.left self.new.left (take n room.new)) }
        ensures failed { OnErr result (self.new.left ≡ self.old.left) }
        ensures before { self.new.before ≡ self.old.left }
    {
        self.before = Snapshot::of(&self.reader);
        self.reader.read(room)
    }
}
