//! A file of which the first octets were read.

ghost use Rattle.std.specs.Prelude.{◌≡◌, ◌<◌, IfOk, length};
ghost use Rattle.std.specs.Io.KnownBytes.{Consumes, IsAtEnd};
ghost use Rattle.std.specs.Option.{option_to_list};
ghost use Rattle.capture_report.specs.Recordings.{IsOpened, begins_as_capture, is_magic};

use std::alloc::Global;
use std::io;
use std::io::{Chain, Cursor, Read};
use std::snapshot::Snapshot;

/// How many octets show whether a file is a capture.
const FRONT: usize = 4;

/// The first octets of a capture: of pcapng; of pcap in both byte orders, and of its forms with modified records and with
/// nanoseconds.
const MAGICS: [u32; 7] = [
    0x0A0D_0D0A,
    0xA1B2_C3D4,
    0xD4C3_B2A1,
    0xA1B2_CD34,
    0x34CD_B2A1,
    0xA1B2_3C4D,
    0x4D3C_B2A1,
];

/// A file of which the first octets were read. It gives them again, and then the rest.
#[derive(Drop)]
pub struct BegunFile<F: Read + Drop> {
    rest: Chain<Cursor<Vec<u8>>, F>,
    is_capture: bool,
    /// The file as it was opened. Only contracts see it.
    first: Snapshot<F>,
}

impl<F: Read + Drop> BegunFile<F> {
    /// Reads the first octets of a file. Fails where the file fails, and when memory is refused.
    pub fn new(alloc: Global, file: F) -> io::Result<BegunFile<F>>
        ensures { IfOk result (IsOpened F.remaining (F.remaining file)) }
    {
        let mut file = file;
        let first = Snapshot::of(&file);
        let front = read_front(alloc, &mut file, FRONT)?;
        Ok(BegunFile {
            is_capture: begins_as_capture(&front),
            rest: Cursor::new(front).chain(file),
            first,
        })
    }

    /// Returns whether it begins as a capture.
    pub fn is_capture(&self) -> bool
        ensures { result ≡ self.now.is_capture }
    {
        self.is_capture
    }
}

impl<F: Read + Drop> Read for BegunFile<F> {
    ghost use Rattle.capture_report.specs.Recordings.{begun_left};

    ghost remaining = { begun_left F.remaining };

    fn read(&mut self, buf: &mut [u8]) -> io::Result<usize> {
        self.rest.read(buf)
    }
}

/// Returns whether octets begin as a capture does.
#[tactic(auto, unfolding(capture_files::specs::Numbers::number))]
pub(crate) fn begins_as_capture(octets: &[u8]) -> bool
    ensures { result ≡ begins_as_capture octets.now }
{
    if octets.len() < FRONT {
        return false;
    }
    is_magic(u32::from_be_bytes([octets[0], octets[1], octets[2], octets[3]]))
}

/// Returns whether a capture begins with a number.
fn is_magic(number: u32) -> bool
    ensures { result ≡ is_magic number }
{
    MAGICS.iter().any(|magic| *magic == number)
}

/// Reads the next octet; `None` at the end.
fn read_octet<F: Read>(file: &mut F) -> io::Result<Option<u8>>
    ensures consumed { IfOk result (λ octet. Consumes (F.remaining file.old) (F.remaining file.new) (option_to_list octet)) }
    ensures end { IfOk result (λ octet. octet ≡ None → IsAtEnd (F.remaining file.new)) }
{
    let mut octets = [0u8; 1];
    match file.read(&mut octets)? {
        0 => Ok(None),
        _ => Ok(Some(octets[0])),
    }
}

/// Reads the first octets of a file, or all where it has fewer.
pub(crate) fn read_front<F: Read>(alloc: Global, file: &mut F, count: usize) -> io::Result<Vec<u8>>
    ensures consumed { IfOk result (λ front. Consumes (F.remaining file.old) (F.remaining file.new) front.items) }
    ensures whole { IfOk result (λ front. length front.items < count → IsAtEnd (F.remaining file.new)) }
{
    let mut front = Vec::new(alloc);
    for _ in 0..count {
        let Some(octet) = read_octet(file)? else {
            return Ok(front);
        };
        front.push(octet)?;
    }
    Ok(front)
}
