//! Standard input as the program reads it: a trace as it is, and a capture as its trace.

ghost use Rattle.std.specs.Prelude.{◌≡◌, ℕ, IfOk, List, OnOk, Some, is_some, true};
ghost use Rattle.capture_report.specs.Recordings.{capture_left};
ghost use Rattle.capture_report.specs.Standard.{capture_bytes, input_left};

use crate::begun_file::BegunFile;
use crate::capture_text::CaptureText;
use crate::options::CaptureOptions;
use crate::piped::open_once;
use crate::recordings::NO_CAPTURE;
use std::alloc::Global;
use std::io;
use std::io::{ErrorKind, Read};
use std::snapshot::Snapshot;
use streams::input::{CaptureFault, OpenFault, OpenRefusal};

/// Standard input. Where the whole header of captures is given it is read as a capture, otherwise its bytes are given as
/// they are.
#[derive(Drop)]
pub enum StandardInput<I: Read + Drop, B: Read + Drop> {
    /// Its bytes as they are.
    Trace(I),
    /// The trace of the capture that it has.
    Capture(StandardCapture<I, B>),
}

impl<I: Read + Drop> StandardInput<I, BegunFile<I>> {
    ghost use Rattle.capture_report.specs.Standard.{standard_bytes, standard_left};

    /// Returns standard input, with what is given of captures.
    pub fn new(alloc: Global, input: I, options: CaptureOptions) -> StandardInput<I, BegunFile<I>>
        ensures { standard_left I.Read ⟦<BegunFile<I> as Read>⟧ result ≡ standard_bytes options (I.remaining input) }
    {
        if options.header.is_whole() {
            StandardInput::Capture(StandardCapture::new(alloc, input, options))
        } else {
            StandardInput::Trace(input)
        }
    }
}

impl<I: Read + Drop> Read for StandardInput<I, BegunFile<I>> {
    ghost use Rattle.capture_report.specs.Standard.{standard_left};

    ghost remaining = { standard_left I.Read ⟦<BegunFile<I> as Read>⟧ };

    fn read(&mut self, buf: &mut [u8]) -> io::Result<usize> {
        match self {
            StandardInput::Trace(input) => input.read(buf),
            StandardInput::Capture(capture) => capture.read(buf),
        }
    }
}

/// The capture that standard input has. It is opened as it is read first, after its first octets.
#[derive(Drop)]
pub struct StandardCapture<I: Read + Drop, B: Read + Drop> {
    alloc: Global,
    options: CaptureOptions,
    /// The input, of which nothing was read; none once it was opened.
    input: Option<I>,
    /// The input as it was before it was opened. Only contracts see it.
    first: Snapshot<I>,
    /// The trace; none before it is opened, and where that failed.
    text: Option<CaptureText<B>>,
}

impl<I: Read + Drop> StandardCapture<I, BegunFile<I>> {
    /// Returns the capture of an input of which nothing was read.
    fn new(alloc: Global, input: I, options: CaptureOptions) -> StandardCapture<I, BegunFile<I>>
        ensures { input_left I.Read ⟦<BegunFile<I> as Read>⟧ result ≡ capture_bytes options (I.remaining input) }
    {
        let first = Snapshot::of(&input);
        StandardCapture {
            alloc,
            options,
            input: Some(input),
            first,
            text: None,
        }
    }

    /// Opens the capture, unless it is open. After a call that fails each further one fails.
    fn open(&mut self) -> io::Result<()>
        ensures same { (text : List ℕ) → input_left I.Read ⟦<BegunFile<I> as Read>⟧ self.old ≡ Some text → input_left I.Read ⟦<BegunFile<I> as Read>⟧ self.new ≡ Some text }
        ensures opened { OnOk result (is_some self.new.text ≡ true) }
    {
        if self.text.is_some() {
            return Ok(());
        }
        let Some(input) = self.input.take() else {
            return Err(io::Error::from(ErrorKind::Other));
        };
        self.first = Snapshot::of(&input);
        self.text = Some(opened(self.alloc, input, &self.options)?);
        Ok(())
    }
}

impl<I: Read + Drop> Read for StandardCapture<I, BegunFile<I>> {
    ghost use Rattle.capture_report.specs.Standard.{input_left};

    ghost remaining = { input_left I.Read ⟦<BegunFile<I> as Read>⟧ };

    #[tactic(auto, using(crate::proofs::PipedLemmas::read_prepared))]
    fn read(&mut self, buf: &mut [u8]) -> io::Result<usize> {
        self.open()?;
        match &mut self.text {
            Some(text) => text.read(buf),
            None => Ok(0),
        }
    }
}

/// Opens the capture in an input of which nothing was read. Fails where there is none.
fn opened<I: Read + Drop>(
    alloc: Global,
    input: I,
    options: &CaptureOptions,
) -> io::Result<CaptureText<BegunFile<I>>>
    ensures { IfOk result (λ text. (bytes : List ℕ) → capture_bytes options.now (I.remaining input) ≡ Some bytes
        → capture_left ⟦<BegunFile<I> as Read>⟧ text ≡ Some bytes) }
{
    let begun = BegunFile::new(alloc, input)?;
    if !begun.is_capture() {
        return Err(io::Error::other(NO_CAPTURE));
    }
    match open_once(alloc, begun, options) {
        Ok(text) => Ok(text),
        Err(refusal) => Err(reason_of(alloc, refusal)),
    }
}

/// Why a capture is refused that is no line.
const NO_LINE: &str =
    "frames of a network: --only xot /dev/stdin reads XOT, --only lapb or x25 a line";

/// Returns the reason of a refusal as an error of a read.
fn reason_of(alloc: Global, refusal: OpenRefusal) -> io::Error {
    if let Some(reason) = refusal.reason {
        return reason;
    }
    let words = match refusal.fault {
        OpenFault::Capture(CaptureFault::Piped) => return io::Error::other(NO_LINE),
        fault => format!(in alloc; "{fault}"),
    };
    match words {
        Ok(words) => io::Error::other(&words),
        Err(_) => io::Error::from(ErrorKind::OutOfMemory),
    }
}
