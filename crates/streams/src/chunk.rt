//! The bytes of one read.

ghost use Rattle.std.specs.Prelude.{◌≡◌, ◌≤◌, ◌^◌, [], length, OnErr, OnOk};
ghost use Rattle.std.specs.Io.KnownBytes.{Consumes, IsAtEnd, Keeps};

use line_model::device::CHUNK;
use std::io;
use std::io::Read;
use std::marker::Model;

/// The bytes that a reader gave in its last read, at most 65,536.
#[derive(Drop)]
pub(crate) struct Chunk {
    bytes: [u8; CHUNK],
    len: usize,
}

impl Model for Chunk {
    ghost use Rattle.std.specs.Prelude.{ℕ, ◌≤◌, ◌^◌, List, take};

    ghost Value = { List ℕ };

    ghost view = { λ s. take s.len s.bytes };

    ghost invariant = { λ s. s.len ≤ 2 ^ 16 };
}

impl Chunk {
    /// Returns a chunk without bytes.
    pub fn new() -> Self
        ensures { result ≡ [] }
    {
        Chunk {
            bytes: [0; CHUNK],
            len: 0,
        }
    }

    /// Returns its bytes.
    pub fn as_slice(&self) -> &[u8]
        ensures { result.now ≡ self.now }
    {
        &self.bytes[..self.len]
    }

    /// Reads once; the bytes take the place of those of the last read. Fails where the reader fails.
    pub fn read<R: Read>(&mut self, from: &mut R) -> io::Result<()>
        ensures given { OnOk result (Consumes (R.remaining from.old) (R.remaining from.new) self.new) }
        // A read gives nothing only at the end.
        ensures ended { self.new ≡ [] → OnOk result (IsAtEnd (R.remaining from.new)) }
        ensures kept { OnErr result (Keeps (R.remaining from.old) (R.remaining from.new)) }
        ensures few { length self.new ≤ 2 ^ 16 }
    {
        self.len = from.read(&mut self.bytes)?;
        Ok(())
    }
}
