//! The octets of several captures, one after the other.
//!
//! ```text
//!  a.pcap   |header|records|
//!  b.pcap           .......|header|records|        ->  |header|records|records|
//!                           left out
//! ```

ghost use Rattle.std.specs.Prelude.{◌≡◌, ◌≤◌, ℕ, List, IfOk, Option, drop, option_map};
ghost use Rattle.std.specs.Fmt.{option_append};
ghost use Rattle.capture_report.specs.JoinedFiles.{IsHeaded, joined_left, part_left, parts_left};

use crate::begun_file::read_front;
use std::alloc::{AllocError, Global};
use std::io;
use std::io::{Chain, Cursor, Read};
use std::snapshot::Snapshot;

/// How many octets the header of a pcap file has.
pub(crate) const HEADER: usize = 24;

/// A file of which the octets of a header were read.
#[derive(Drop)]
pub struct HeadedFile<F: Read + Drop> {
    /// These octets, or all where the file has fewer.
    front: Vec<u8>,
    rest: F,
    /// The file as it was opened. Only contracts see it.
    first: Snapshot<F>,
}

impl<F: Read + Drop> HeadedFile<F> {
    /// Reads the first octets of a file. Fails where the file fails, and when memory is refused.
    pub(crate) fn new(alloc: Global, file: F) -> io::Result<HeadedFile<F>>
        ensures { IfOk result (IsHeaded F.remaining (F.remaining file)) }
    {
        let mut rest = file;
        let first = Snapshot::of(&rest);
        let front = read_front(alloc, &mut rest, HEADER)?;
        Ok(HeadedFile { front, rest, first })
    }

    /// Returns its first octets.
    pub(crate) fn front(&self) -> &[u8]
        ensures { result.now ≡ self.now.front.items }
    {
        &self.front
    }

    /// Returns the file without a number of its first octets.
    pub(crate) fn after(self, skipped: u64) -> JoinedPart<F>
        requires { skipped ≤ 24 }
        ensures { (bytes : Option (List ℕ)) → IsHeaded F.remaining bytes self → part_left F.remaining result ≡ option_map (drop skipped) bytes }
    {
        let HeadedFile { front, rest, first } = self;
        let mut front = Cursor::new(front);
        front.set_position(skipped);
        JoinedPart {
            octets: front.chain(rest),
            first,
        }
    }
}

/// A file that is read as a part of a capture: what is left of its first octets, and then the rest.
#[derive(Drop)]
pub struct JoinedPart<F: Read + Drop> {
    octets: Chain<Cursor<Vec<u8>>, F>,
    /// The file as it was opened. Only contracts see it.
    first: Snapshot<F>,
}

impl<F: Read + Drop> JoinedPart<F> {
    /// Returns a file that was not read yet.
    fn whole(alloc: Global, file: F) -> JoinedPart<F>
        ensures { part_left F.remaining result ≡ F.remaining file }
    {
        let first = Snapshot::of(&file);
        JoinedPart {
            octets: Cursor::new(Vec::new(alloc)).chain(file),
            first,
        }
    }
}

impl<F: Read + Drop> Read for JoinedPart<F> {
    ghost use Rattle.capture_report.specs.JoinedFiles.{part_left};

    ghost remaining = { part_left F.remaining };

    fn read(&mut self, buf: &mut [u8]) -> io::Result<usize> {
        self.octets.read(buf)
    }
}

/// Files that are read one after the other.
#[derive(Drop)]
pub struct JoinedFile<F: Read + Drop> {
    parts: Vec<JoinedPart<F>>,
    /// How many of them were read to their end.
    ended: usize,
}

impl<F: Read + Drop> JoinedFile<F> {
    /// Returns a file alone. Fails when memory is refused.
    pub(crate) fn alone(alloc: Global, file: F) -> Result<JoinedFile<F>, AllocError>
        ensures { IfOk result (λ joined. joined_left F.remaining joined ≡ F.remaining file) }
    {
        let mut parts = Vec::new(alloc);
        parts.push(JoinedPart::whole(alloc, file))?;
        Ok(JoinedFile { parts, ended: 0 })
    }

    /// Returns a file, and the parts of those that follow it. Fails when memory is refused.
    pub(crate) fn new(
        first: JoinedPart<F>,
        further: Vec<JoinedPart<F>>,
    ) -> Result<JoinedFile<F>, AllocError>
        ensures { IfOk result (λ joined. joined_left F.remaining joined ≡ option_append (part_left F.remaining first) (parts_left F.remaining further.items)) }
    {
        let mut parts = further;
        parts.insert(0, first)?;
        Ok(JoinedFile { parts, ended: 0 })
    }
}

impl<F: Read + Drop> Read for JoinedFile<F> {
    ghost use Rattle.capture_report.specs.JoinedFiles.{joined_left};

    ghost remaining = { joined_left F.remaining };

    fn read(&mut self, buf: &mut [u8]) -> io::Result<usize> {
        while let Some(part) = self.parts.get_mut(self.ended) {
            let count = part.read(buf)?;
            if count > 0 || buf.is_empty() {
                return Ok(count);
            }
            self.ended += 1;
        }
        Ok(0)
    }
}
