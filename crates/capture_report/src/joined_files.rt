//! Several captures that are opened as one.

ghost use Rattle.std.specs.Prelude.{◌≡◌, ◌+◌, ◌≤◌, IfErr, IfOk, drop, length, map, option_map, true};
ghost use Rattle.capture_report.specs.JoinedFiles.{IsHeaded, has_header, is_pcapng, joined_left, joined_named, left_out, misfit_of, part_left, parts_left, without_headers};
ghost use Rattle.capture_files.specs.Numbers.{number};
ghost use Rattle.streams.specs.OpenFaults.{IsByItsReason};

use crate::begun_file::begins_as_capture;
use crate::first_reading::of_memory;
use crate::joined_file::{HEADER, HeadedFile, JoinedFile, JoinedPart};
use crate::pipes::Pipes;
use std::alloc::Global;
use std::io;
use std::io::{Eprint, ErrorKind};
use std::time::{Clock, Duration};
use streams::input::OpenRefusal;
use streams::opener::Opener;

/// Opens a file, and those that follow it, as one. A file that follows no other is opened as it is.
#[derive(Drop)]
pub struct JoinedFiles<'a, R: Pipes + Drop, E: Eprint + Drop> {
    alloc: Global,
    system: R,
    errors: E,
    /// The names of the files that follow, in their order.
    further: &'a [&'a str],
}

/// Why a file does not follow another one.
#[derive(Clone, Copy, PartialEq, Eq)]
pub enum Misfit {
    /// It is no pcap or pcapng file.
    NoCapture,
    /// It is of another format, byte order or resolution.
    Format,
    /// It is of another link type.
    Link,
}

/// The number with which a pcapng file begins.
const SECTION: u32 = 0x0A0D_0D0A;

/// What is said of a file that is no capture, and of one that is read once.
const NO_CAPTURE: &str = "no pcap or pcapng file";

const PIPE: &str = "a pipe";

/// What is advised where a file does not follow another one; an error keeps 80 bytes of it.
const ALONE: &str = "the parts of one trace: awk '!/^X25 / || !n++' FILE.. | x25scan";

const SAVE: &str = "files that follow each other are read twice: save what it gives to a file";

const MERGE: &str = "mergecap -a -w all.pcapng FILE.. joins captures of any format and link type";

const TOGETHER: &str = "files that follow each other are read together, or none of them";

/// Returns the number that four octets write, the highest first.
#[tactic(auto, unfolding(capture_files::specs::Numbers::number))]
fn four_at(octets: &[u8], at: usize) -> u32
    requires { at + 4 ≤ length octets.now }
    ensures { result ≡ number true (drop at octets.now) }
{
    u32::from_be_bytes([octets[at], octets[at + 1], octets[at + 2], octets[at + 3]])
}

/// Returns whether a file is a capture, by its first octets: 24, or all where it has fewer.
fn has_header(front: &[u8]) -> bool
    ensures { result ≡ has_header front.now }
{
    front.len() >= HEADER && begins_as_capture(front)
}

/// Returns whether a capture is a pcapng file.
fn is_pcapng(front: &[u8]) -> bool
    requires { 24 ≤ length front.now }
    ensures { result ≡ is_pcapng front.now }
{
    four_at(front, 0) == SECTION
}

/// Returns how many octets of a file that follows a capture are left out: the header of a pcap file.
fn left_out(first: &[u8]) -> u64
    requires { 24 ≤ length first.now }
    ensures few { result ≤ 24 }
    ensures left_out { result ≡ left_out first.now }
{
    if is_pcapng(first) { 0 } else { HEADER as u64 }
}

/// Returns why a file does not follow a capture, by the first octets of both.
fn misfit_of(first: &[u8], front: &[u8]) -> Option<Misfit>
    requires { 24 ≤ length first.now }
    ensures { result ≡ misfit_of first.now front.now }
{
    if !has_header(front) {
        Some(Misfit::NoCapture)
    } else if four_at(front, 0) != four_at(first, 0) {
        Some(Misfit::Format)
    } else if !is_pcapng(front) && four_at(front, 20) != four_at(first, 20) {
        Some(Misfit::Link)
    } else {
        None
    }
}

impl<'a, R: Pipes + Drop, E: Eprint + Drop> JoinedFiles<'a, R, E> {
    /// Returns the files of a system, each with those that follow it. Why one does not follow is printed to the errors.
    pub fn new(alloc: Global, system: R, errors: E, further: &'a [&'a str]) -> Self
        ensures system { result.system ≡ system }
        ensures further { result.further ≡ further.entry }
    {
        JoinedFiles {
            alloc,
            system,
            errors,
            further,
        }
    }

    /// Prints what a file is, as far as the errors accept it, and returns the refusal with an advice.
    fn refuse(&self, name: &str, words: &str, advice: &str) -> OpenRefusal
        ensures { IsByItsReason result }
    {
        let _ = eprintln!(self.errors; "x25scan: {name}: {words}");
        OpenRefusal::by_system(io::Error::new(ErrorKind::InvalidData, advice))
    }

    /// Prints in what a file differs from a capture that it follows, and returns the refusal.
    fn refuse_other(&self, first: &str, name: &str, words: &str) -> OpenRefusal
        ensures { IsByItsReason result }
    {
        let _ = eprintln!(self.errors; "x25scan: {name}: {words} than {first}");
        OpenRefusal::by_system(io::Error::new(ErrorKind::InvalidData, MERGE))
    }

    /// Returns the refusal of a file that does not follow a capture.
    fn refuse_misfit(&self, first: &str, name: &str, misfit: Misfit) -> OpenRefusal
        ensures { IsByItsReason result }
    {
        match misfit {
            Misfit::NoCapture => self.refuse(name, NO_CAPTURE, ALONE),
            Misfit::Format => self.refuse_other(first, name, "another format"),
            Misfit::Link => self.refuse_other(first, name, "another link type"),
        }
    }

    /// Prints why a file could not be opened, and returns the refusal of all.
    fn refuse_unopened(&self, name: &str, refusal: OpenRefusal) -> OpenRefusal
        ensures { IsByItsReason result }
    {
        let fault = refusal.fault;
        let _ = eprintln!(self.errors; "x25scan: {name}: {fault}");
        OpenRefusal::by_system(io::Error::new(ErrorKind::InvalidData, TOGETHER))
    }

    /// Opens a file that follows a capture.
    fn open_further(&self, name: &str) -> Result<R::File, OpenRefusal>
        ensures opened { IfOk result (λ file. R.File.remaining file ≡ R.named self.now.system name.now) }
        ensures reason { IfErr result IsByItsReason }
    {
        if name == "-" {
            return Err(self.refuse(name, PIPE, SAVE));
        }
        match self.system.open(name) {
            Ok(file) => Ok(file),
            Err(refusal) => Err(self.refuse_unopened(name, refusal)),
        }
    }

    /// Reads the first octets of a file that was opened. Refuses one that can't be opened again.
    fn begin(&self, name: &str, file: R::File) -> Result<HeadedFile<R::File>, OpenRefusal>
        ensures headed { IfOk result (IsHeaded R.File.remaining (R.File.remaining file)) }
        ensures reason { IfErr result IsByItsReason }
    {
        if self.system.is_pipe(name) {
            return Err(self.refuse(name, PIPE, SAVE));
        }
        match HeadedFile::new(self.alloc, file) {
            Ok(headed) => Ok(headed),
            Err(error) => Err(OpenRefusal::by_system(error)),
        }
    }

    /// Opens a file as what follows a capture of which the first octets are given.
    fn open_part(
        &self,
        first: &str,
        header: &[u8],
        name: &str,
    ) -> Result<JoinedPart<R::File>, OpenRefusal>
        requires { 24 ≤ length header.now }
        ensures left { IfOk result (λ part. part_left R.File.remaining part ≡ option_map (drop (left_out header.now)) (R.named self.now.system name.now)) }
        ensures reason { IfErr result IsByItsReason }
    {
        let file = self.open_further(name)?;
        let headed = self.begin(name, file)?;
        match misfit_of(header, headed.front()) {
            Some(misfit) => Err(self.refuse_misfit(first, name, misfit)),
            None => Ok(headed.after(left_out(header))),
        }
    }

    /// Opens the files that follow a capture of which the first octets are given.
    fn open_parts(
        &self,
        first: &str,
        header: &[u8],
    ) -> Result<Vec<JoinedPart<R::File>>, OpenRefusal>
        requires { 24 ≤ length header.now }
        ensures left { IfOk result (λ parts. parts_left R.File.remaining parts.items ≡ without_headers (left_out header.now) (R.named self.now.system) (map (λ name. name.now) self.now.further.now)) }
        ensures reason { IfErr result IsByItsReason }
    {
        let mut parts = Vec::new(self.alloc);
        for name in self.further {
            let part = self.open_part(first, header, name)?;
            match parts.push(part) {
                Ok(()) => {}
                Err(_) => return Err(of_memory()),
            }
        }
        Ok(parts)
    }

    /// Opens a capture, and the files that follow it. Each is looked at before one is read.
    fn open_all(&self, name: &str) -> Result<JoinedFile<R::File>, OpenRefusal>
        ensures left { IfOk result (λ file. joined_left R.File.remaining file ≡ joined_named (R.named self.now.system) name.now (map (λ name. name.now) self.now.further.now)) }
        ensures reason { IfErr result IsByItsReason }
    {
        let file = self.system.open(name)?;
        let headed = self.begin(name, file)?;
        if !has_header(headed.front()) {
            return Err(self.refuse_misfit(name, name, Misfit::NoCapture));
        }
        let further = self.open_parts(name, headed.front())?;
        match JoinedFile::new(headed.after(0), further) {
            Ok(joined) => Ok(joined),
            Err(_) => Err(of_memory()),
        }
    }

    /// Opens a file alone.
    fn open_alone(&self, name: &str) -> Result<JoinedFile<R::File>, OpenRefusal>
        ensures left { IfOk result (λ file. joined_left R.File.remaining file ≡ R.named self.now.system name.now) }
        ensures reason { IfErr result IsByItsReason }
    {
        let file = self.system.open(name)?;
        match JoinedFile::alone(self.alloc, file) {
            Ok(joined) => Ok(joined),
            Err(_) => Err(of_memory()),
        }
    }
}

impl<R: Pipes + Drop, E: Eprint + Drop> Opener for JoinedFiles<'_, R, E> {
    ghost use Rattle.capture_report.specs.JoinedFiles.{joined_named};

    type File = JoinedFile<R::File>;

    ghost named = { λ s name. joined_named (R.named s.system) name (map (λ name. name.now) s.further.now) };

    fn open(&self, name: &str) -> Result<JoinedFile<R::File>, OpenRefusal> {
        if self.further.is_empty() {
            self.open_alone(name)
        } else {
            self.open_all(name)
        }
    }

    fn lasts(&self, name: &str) -> bool {
        self.system.lasts(name)
    }
}

impl<R: Pipes + Drop, E: Eprint + Drop> Pipes for JoinedFiles<'_, R, E> {
    fn is_pipe(&self, name: &str) -> bool {
        self.system.is_pipe(name)
    }
}

impl<R: Pipes + Clock + Drop, E: Eprint + Drop> Clock for JoinedFiles<'_, R, E> {
    fn monotonic(&self) -> io::Result<Duration> {
        self.system.monotonic()
    }

    fn since_1970(&self) -> io::Result<Duration> {
        self.system.since_1970()
    }

    fn sleep(&self, duration: Duration) {
        self.system.sleep(duration)
    }
}
