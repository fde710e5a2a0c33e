//! The files and the clock of the system.

ghost use Rattle.std.specs.Prelude.{IfErr};
ghost use Rattle.streams.specs.OpenFaults.{IsByItsReason};

use crate::input::OpenRefusal;
use crate::opener::Opener;
use std::fs::OpenFile;
use std::io::Read;
use std::rt::Files;
use std::time::{Clock, Duration};
use std::{fs, io};

/// A file of the system, which hides its bytes.
#[derive(Drop)]
pub struct SystemFile<F: Read + Drop> {
    file: F,
}

impl<F: Read + Drop> Read for SystemFile<F> {
    ghost use Rattle.std.specs.Prelude.{None};

    ghost remaining = { λ s. None };

    fn read(&mut self, buf: &mut [u8]) -> io::Result<usize> {
        self.file.read(buf)
    }
}

/// The files of the system, whose bytes no contract names, and its clock.
#[derive(Drop)]
pub struct System<'a, R: Files + Clock> {
    rt: &'a R,
}

impl<'a, R: Files + Clock> System<'a, R> {
    /// Returns the files and the clock of a runtime.
    pub fn new(rt: &'a R) -> Self {
        System { rt }
    }
}

impl<R: Files + Clock> Clock for System<'_, R> {
    fn monotonic(&self) -> io::Result<Duration> {
        self.rt.monotonic()
    }

    fn since_1970(&self) -> io::Result<Duration> {
        self.rt.since_1970()
    }

    fn sleep(&self, duration: Duration) {
        self.rt.sleep(duration)
    }
}

/// The system's error number for a directory (EISDIR).
const IS_A_DIRECTORY: i32 = 21;

/// Opens a file for reading. Refuses a directory.
fn open_file<R: Files>(files: &R, name: &str) -> Result<R::File, OpenRefusal>
    ensures { IfErr result IsByItsReason }
{
    let file = fs::open(files, name).map_err(OpenRefusal::by_system)?;
    match file.metadata() {
        Ok(metadata) if metadata.is_dir() => {
            Err(OpenRefusal::by_system(io::Error::from_raw_os_error(IS_A_DIRECTORY)))
        }
        _ => Ok(file),
    }
}

impl<R: Files + Clock> Opener for System<'_, R> {
    ghost use Rattle.std.specs.Prelude.{None};

    type File = SystemFile<R::File>;

    ghost named = { λ s name. None };

    fn open(&self, name: &str) -> Result<SystemFile<R::File>, OpenRefusal> {
        match open_file(self.rt, name) {
            Ok(file) => Ok(SystemFile { file }),
            Err(refusal) => Err(refusal),
        }
    }

    fn lasts(&self, name: &str) -> bool {
        match fs::metadata(self.rt, name) {
            Ok(metadata) => metadata.is_file(),
            Err(_) => false,
        }
    }
}
