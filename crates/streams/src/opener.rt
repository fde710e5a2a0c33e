//! The trait that opens the trace of a name.

ghost use Rattle.std.specs.Prelude.{◌≡◌, IfErr, IfOk};
ghost use Rattle.streams.specs.OpenFaults.{IsByItsReason};

use crate::input::OpenRefusal;
use std::io::Read;

/// Opens files by their names.
pub trait Opener {
    ghost use Rattle.std.specs.Prelude.{ℕ, List, Option};

    /// A file that is open for reading.
    type File: Read + Drop;

    /// The bytes of the file of a name, where it shows them.
    ghost named: { Self → List ℕ → Option (List ℕ) };

    /// Opens the file of this name for reading. Fails where the system refuses it.
    fn open(&self, name: &str) -> Result<Self::File, OpenRefusal>
        ensures opened { IfOk result (λ file. Self.File.remaining file ≡ named self.now name.now) }
        // The fault is that of the system's reason.
        ensures reason { IfErr result IsByItsReason };

    /// Returns whether the file of this name can be opened again, to be read from its first byte on.
    fn lasts(&self, name: &str) -> bool;

    /// Returns whether packets are known to be missing from an opened file.
    fn lacks_packets(&self, _file: &Self::File) -> bool {
        false
    }

    /// Returns the lines that name the circuits of an opened file, each with its end, where they are known before it is read.
    fn circuits<'f>(&self, _file: &'f Self::File) -> &'f [u8] {
        b""
    }
}
