//! A file that can't be opened again, of which all octets are kept.

ghost use Rattle.std.specs.Prelude.{◌≡◌, IfErr, IfOk, List, Some, ℕ};
ghost use Rattle.streams.specs.OpenFaults.{IsByItsReason};

use std::alloc::Global;
use std::io;
use std::io::{ErrorKind, Read};
use streams::input::OpenRefusal;
use streams::opener::Opener;

/// How many octets are kept of a file: as many as a recording may have.
const MOST_KEPT: u64 = 1 << 30;

/// Why a file is refused that has more.
const LONG: &str = "a pipe is kept up to 1 GiB: save it to a file";

/// Reads a file to its end. Fails where the file fails, where it is longer than what is kept, and when memory is refused.
#[tactic(auto, using(crate::proofs::KeptLemmas::all_kept))]
pub(crate) fn keep<F: Read + Drop>(alloc: Global, file: F) -> Result<Vec<u8>, OpenRefusal>
    ensures octets { IfOk result (λ kept. (octets : List ℕ) → F.remaining file ≡ Some octets → kept.items ≡ octets) }
    ensures reason { IfErr result IsByItsReason }
{
    let mut octets = Vec::new(alloc);
    match file.take(MOST_KEPT + 1).read_to_end(&mut octets) {
        Ok(count) if count as u64 <= MOST_KEPT => Ok(octets),
        Ok(_) => Err(OpenRefusal::by_system(io::Error::new(ErrorKind::FileTooLarge, LONG))),
        Err(error) => Err(OpenRefusal::by_system(error)),
    }
}

/// The octets that were kept of a file. Each name opens them.
#[derive(Drop)]
pub(crate) struct KeptFile<'a> {
    pub octets: &'a [u8],
}

impl<'a> Opener for KeptFile<'a> {
    type File = &'a [u8];

    ghost named = { λ s name. Some s.octets.now };

    fn open(&self, _name: &str) -> Result<&'a [u8], OpenRefusal> {
        Ok(self.octets)
    }

    fn lasts(&self, _name: &str) -> bool {
        true
    }
}
