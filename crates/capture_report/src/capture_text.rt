//! The trace of a capture that is read a second time, or once.

ghost use Rattle.std.specs.Prelude.{◌≡◌, ◌<◌, ◌≤◌, ℕ, List, IfErr, IfOk, OnOk, Some, false, length, take, true};
ghost use Rattle.std.specs.Io.KnownBytes.{Consumes};
ghost use Rattle.std.specs.Option.{option_and_then};
ghost use Rattle.capture_files.specs.CaptureFiles.{records_of};
ghost use Rattle.capture_report.specs.Traces.{text_left};
ghost use Rattle.streams.specs.OpenFaults.{IsByItsReason};

use crate::file_frames::FileFrames;
use crate::first_reading::open_frames;
use crate::reader::Reader;
use crate::reader_source::ReaderSource;
use crate::trace::CaptureTrace;
use line_model::device::Source;
use std::alloc::Global;
use std::io;
use std::io::Read;
use streams::input::OpenRefusal;

/// The trace of a capture that is read a second time, or once.
#[derive(Drop)]
pub struct CaptureText<F: Read + Drop> {
    trace: CaptureTrace<FileFrames<ReaderSource<F>>>,
    /// How many of the latest bytes of the trace were given.
    given: usize,
    /// Whether its end was reached.
    is_done: bool,
    /// The number of the last frame in the first reading; none where it is read once.
    last: Option<u64>,
    /// What was known of it before it was read.
    known: KnownText,
}

/// What is known of the trace of a capture before it is read.
#[derive(Drop)]
pub(crate) struct KnownText {
    /// Whether packets are missing.
    pub lacks_packets: bool,
    /// The lines that name its circuits, each with its end.
    pub circuits: Vec<u8>,
}

/// What reads the rows of a capture, and what the first reading showed of it.
#[derive(Drop)]
pub(crate) struct KnownRows {
    pub reader: Reader,
    /// The number of the last frame.
    pub last: u64,
    pub text: KnownText,
}

impl<F: Read + Drop> CaptureText<F> {
    ghost use Rattle.capture_report.specs.Recordings.{capture_left};

    /// Returns the trace of a capture by what reads its rows, and what the first reading showed of it.
    #[tactic(auto, using(crate::proofs::GivingLemmas::bytes_first))]
    pub(crate) fn new(
        alloc: Global,
        file: F,
        known: KnownRows,
    ) -> Result<CaptureText<F>, OpenRefusal>
        ensures left { IfOk result (λ text. capture_left F.Read text ≡ text_left (option_and_then (records_of true 0) (F.remaining file)) known.reader 0) }
        ensures reason { IfErr result IsByItsReason }
    {
        let frames = open_frames(alloc, file)?;
        Ok(CaptureText {
            trace: CaptureTrace::new(alloc, frames, known.reader),
            given: 0,
            is_done: false,
            last: Some(known.last),
            known: known.text,
        })
    }

    /// Returns the trace of a capture that is read once, by what reads its rows. It is given as frames come.
    #[tactic(auto, using(crate::proofs::GivingLemmas::bytes_first))]
    pub(crate) fn once(
        alloc: Global,
        frames: FileFrames<ReaderSource<F>>,
        reader: Reader,
    ) -> CaptureText<F>
        ensures { capture_left F.Read result ≡ text_left frames.left reader 0 }
    {
        CaptureText {
            trace: CaptureTrace::live(alloc, frames, reader),
            given: 0,
            is_done: false,
            last: None,
            known: KnownText {
                lacks_packets: false,
                circuits: Vec::new(alloc),
            },
        }
    }

    /// Returns what was known of it before it was read.
    pub(crate) fn known(&self) -> &KnownText {
        &self.known
    }

    /// Reads the next bytes of the trace, where all were given. Fails where the capture has other frames now than
    /// before.
    #[tactic(auto, using(crate::proofs::GivingLemmas::bytes_kept, crate::proofs::GivingLemmas::bytes_more, crate::proofs::GivingLemmas::bytes_end))]
    fn refill(&mut self) -> io::Result<()>
        requires all { length self.old.trace.made.latest ≤ self.old.given }
        requires begun { self.old.is_done ≡ false }
        ensures same { (text : List ℕ) → capture_left F.Read self.old ≡ Some text → capture_left F.Read self.new ≡ Some text }
        ensures some { OnOk result (self.new.is_done ≡ false → self.new.given < length self.new.trace.made.latest) }
    {
        if self.trace.read().is_err() {
            self.given = self.trace.latest().len();
            return Err(self.trace.frames().source().reason());
        }
        self.given = 0;
        if !self.trace.latest().is_empty() {
            return Ok(());
        }
        let number = self.trace.frames().number();
        if self.last.is_some_and(|last| last != number) {
            return Err(io::Error::other("the capture has changed"));
        }
        self.is_done = true;
        Ok(())
    }

    /// Has bytes to give, unless the end was reached.
    fn prepare(&mut self) -> io::Result<()>
        ensures same { (text : List ℕ) → capture_left F.Read self.old ≡ Some text → capture_left F.Read self.new ≡ Some text }
        ensures some { OnOk result (self.new.is_done ≡ false → self.new.given < length self.new.trace.made.latest) }
    {
        if self.is_done || self.given < self.trace.latest().len() {
            return Ok(());
        }
        self.refill()
    }

    /// Gives more of the bytes that were read last, and returns how many.
    fn give(&mut self, buf: &mut [u8]) -> usize
        requires begun { self.old.is_done ≡ false }
        requires some { self.old.given < length self.old.trace.made.latest }
        ensures few { result ≤ length buf.new }
        ensures given { Consumes (capture_left F.Read self.old) (capture_left F.Read self.new) (take result buf.new) }
        ensures none { result ≡ 0 → length buf.new ≡ 0 }
    {
        let latest = self.trace.latest();
        let from = self.given.min(latest.len());
        let count = buf.len().min(latest.len() - from);
        buf[..count].copy_from_slice(&latest[from..from + count]);
        self.given = from + count;
        count
    }
}

impl<F: Read + Drop> Read for CaptureText<F> {
    ghost use Rattle.capture_report.specs.Recordings.{capture_left};

    ghost remaining = { capture_left F.Read };

    #[tactic(auto, using(crate::proofs::GivingLemmas::consumed, crate::proofs::GivingLemmas::ended))]
    fn read(&mut self, buf: &mut [u8]) -> io::Result<usize> {
        self.prepare()?;
        if self.is_done {
            return Ok(0);
        }
        Ok(self.give(buf))
    }
}
