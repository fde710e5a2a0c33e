//! Files as the program reads them: a trace as it is, and a capture as its trace.

ghost use Rattle.std.specs.Prelude.{◌≡◌, IfErr, IfOk, List, Some, true, ℕ};
ghost use Rattle.std.specs.Option.{option_and_then};
ghost use Rattle.capture_files.specs.CaptureFiles.{records_of};
ghost use Rattle.streams.specs.OpenFaults.{IsByItsReason};

use crate::begun_file::BegunFile;
use crate::capture_text::{CaptureText, KnownRows, KnownText};
use crate::circuit_lines::lines_of_circuits;
use crate::circuit_reading::CircuitReading;
use crate::file_frames::FileFlaws;
use crate::first_reading::{CountedReader, FirstReading, of_memory};
use crate::half_words::{connection_words, line_words, recorded};
use crate::halves::Halves;
use crate::kept_file::{KeptFile, keep};
use crate::left_out::{LeftOut, frames_left_out, lacks_packets, others_left_out};
use crate::options::CaptureOptions;
use crate::other_ports::NamedPort;
use crate::piped::{missing_options, open_once};
use crate::pipes::Pipes;
use crate::reasons::Counts;
use crate::row_source::RowSource;
use line_model::state::Side;
use memchr::memchr;
use std::alloc::Global;
use std::io;
use std::io::{Cursor, Eprint, Read};
use std::time::{Clock, Duration};
use streams::input::{CaptureFault, OpenFault, OpenRefusal};
use streams::opener::Opener;

/// Opens recordings: a capture as the trace of its rows, and any other file as it is.
#[derive(Drop)]
pub struct Recordings<R: Pipes + Drop, E: Eprint + Drop> {
    alloc: Global,
    system: R,
    errors: E,
    options: CaptureOptions,
}

impl<R: Pipes + Drop, E: Eprint + Drop> Recordings<R, E> {
    ghost use Rattle.capture_report.specs.CaptureTexts.{IsLastReading, captured};
    ghost use Rattle.capture_report.specs.CircuitReadings.{AreCircuitsCounted, IsCircuitReading};
    ghost use Rattle.capture_report.specs.Piped.{IsPipedText};
    ghost use Rattle.capture_report.specs.Recordings.{IsCountedOf, IsLineCounted, IsOpened, IsReaderOf, begun_left, capture_left, recording_left};

    /// Returns the recordings among the files of a system, with what is given of captures. What the header of a capture was
    /// estimated from is printed to the errors.
    pub fn new(alloc: Global, system: R, errors: E, options: CaptureOptions) -> Self
        ensures system { result.system ≡ system }
        ensures options { result.options ≡ options }
    {
        Recordings {
            alloc,
            system,
            errors,
            options,
        }
    }

    /// Begins a file of a system.
    fn begin<S: Opener>(&self, system: &S, name: &str) -> Result<BegunFile<S::File>, OpenRefusal>
        ensures opened { IfOk result (IsOpened S.File.remaining (S.named system.now name.now)) }
        ensures reason { IfErr result IsByItsReason }
    {
        let file = system.open(name)?;
        match BegunFile::new(self.alloc, file) {
            Ok(begun) => Ok(begun),
            Err(error) => Err(OpenRefusal::by_system(error)),
        }
    }

    /// Reads a capture of a system a first time, from what was begun; and once more from its first octet where its link
    /// type is unknown and its first frame shows one.
    #[tactic(auto, using(crate::proofs::RecordingLemmas::last_reading))]
    fn read_first<S: Opener>(
        &self,
        system: &S,
        name: &str,
        begun: BegunFile<S::File>,
    ) -> Result<FirstReading, OpenRefusal>
        requires { begun_left S.File.remaining begun ≡ S.named system.now name.now }
        ensures read { IfOk result (IsLastReading self.now.options (option_and_then (records_of true 0) (S.named system.now name.now))) }
        ensures reason { IfErr result IsByItsReason }
    {
        let first = FirstReading::read(self.alloc, begun, self.options)?;
        match first.likely() {
            Some(kind) => {
                let options = self.options.with_unknown(kind);
                FirstReading::read(self.alloc, system.open(name)?, options)
            }
            None => Ok(first),
        }
    }

    /// Opens a capture that was begun, of a file or a pipe.
    fn open_recorded(
        &self,
        name: &str,
        begun: BegunFile<R::File>,
    ) -> Result<Recording<R::File, BegunFile<R::File>>, OpenRefusal>
        requires { begun_left R.File.remaining begun ≡ R.named self.now.system name.now }
        ensures left { IfOk result (λ file. recording_left R.File.Read ⟦<BegunFile<R::File> as Read>⟧ file ≡ captured self.now.options (R.named self.now.system name.now)) }
        ensures reason { IfErr result IsByItsReason }
    {
        if !self.system.is_pipe(name) {
            Ok(Recording::Capture(self.open_capture(name, begun)?))
        } else if self.options.reads_once() {
            Ok(Recording::Pipe(self.open_pipe(begun)?))
        } else {
            Ok(Recording::Kept(self.open_kept(name, begun)?))
        }
    }

    /// Opens a capture that was begun. It is not inlined: its room on the stack would be that of each scan.
    #[inline(never)]
    fn open_capture(
        &self,
        name: &str,
        begun: BegunFile<R::File>,
    ) -> Result<CaptureText<R::File>, OpenRefusal>
        requires { begun_left R.File.remaining begun ≡ R.named self.now.system name.now }
        ensures left { IfOk result (λ text. capture_left R.File.Read text ≡ captured self.now.options (R.named self.now.system name.now)) }
        ensures reason { IfErr result IsByItsReason }
    {
        let known = self.read_known(&self.system, name, begun)?;
        CaptureText::new(self.alloc, self.system.open(name)?, known)
    }

    /// Opens a capture that was begun, of a file that can't be opened again and is kept: it is read to its end first.
    #[inline(never)]
    fn open_kept(
        &self,
        name: &str,
        begun: BegunFile<R::File>,
    ) -> Result<CaptureText<Cursor<Vec<u8>>>, OpenRefusal>
        ensures text { IfOk result (λ text. (octets : List ℕ) → begun_left R.File.remaining begun ≡ Some octets
            → capture_left ⟦<Cursor<Vec<u8>> as Read>⟧ text ≡ captured self.now.options (Some octets)) }
        ensures reason { IfErr result IsByItsReason }
    {
        self.print_kept(name);
        let octets = keep(self.alloc, begun)?;
        let kept = KeptFile {
            octets: octets.as_slice(),
        };
        let begun = self.begin(&kept, name)?;
        let known = self.read_known(&kept, name, begun)?;
        CaptureText::new(self.alloc, Cursor::new(octets), known)
    }

    /// Reads a capture of a system as often as needed before its rows are read, from what was begun, and prints what is said
    /// of it before its trace.
    fn read_known<S: Opener>(
        &self,
        system: &S,
        name: &str,
        begun: BegunFile<S::File>,
    ) -> Result<KnownRows, OpenRefusal>
        requires { begun_left S.File.remaining begun ≡ S.named system.now name.now }
        ensures reader { IfOk result (λ known. IsReaderOf self.now.options (option_and_then (records_of true 0) (S.named system.now name.now)) known.reader) }
        ensures reason { IfErr result IsByItsReason }
    {
        let first = self.read_first(system, name, begun)?;
        let (last, flaws) = (first.last, first.flaws);
        let CountedReader {
            reader,
            counts,
            halves,
        } = self.reader(system, name, first)?;
        let head = reader.page().text();
        let text = KnownText {
            lacks_packets: halves.are_some() || lacks_packets(&counts, flaws),
            circuits: self.circuits_in(head)?,
        };
        self.print_estimate(name, head);
        self.print_halves(name, halves);
        self.print_left_out(name, &counts, flaws);
        Ok(KnownRows { reader, last, text })
    }

    /// Returns the lines among those before the rows that name circuits.
    fn circuits_in(&self, head: &[u8]) -> Result<Vec<u8>, OpenRefusal>
        ensures reason { IfErr result IsByItsReason }
    {
        match lines_of_circuits(self.alloc, head) {
            Ok(lines) => Ok(lines),
            Err(_) => Err(of_memory()),
        }
    }

    /// Opens a capture that was begun, of a file that can't be opened again: it is read once.
    #[inline(never)]
    fn open_pipe(
        &self,
        begun: BegunFile<R::File>,
    ) -> Result<CaptureText<BegunFile<R::File>>, OpenRefusal>
        ensures text { IfOk result (λ text. IsPipedText self.now.options (begun_left R.File.remaining begun) (capture_left ⟦<BegunFile<R::File> as Read>⟧ text)) }
        ensures reason { IfErr result IsByItsReason }
    {
        match open_once(self.alloc, begun, &self.options) {
            Ok(text) => Ok(text),
            Err(
                OpenRefusal {
                    fault: OpenFault::Capture(fault),
                    ..
                },
            ) => Err(self.refusal(fault)),
            Err(refusal) => Err(refusal),
        }
    }

    /// Returns what reads the rows of a capture again, behind the lines that come before them: those of its line or of its
    /// circuits, as options choose or the capture shows it; and what was counted of its frames.
    #[tactic(auto, using(crate::proofs::RecordingLemmas::chosen_line, crate::proofs::RecordingLemmas::chosen_circuits, crate::proofs::RecordingLemmas::line_without_internet, crate::proofs::RecordingLemmas::line_without_circuits, crate::proofs::RecordingLemmas::circuits_without_line))]
    fn reader<S: Opener>(
        &self,
        system: &S,
        name: &str,
        first: FirstReading,
    ) -> Result<CountedReader, OpenRefusal>
        requires { IsLastReading self.now.options (option_and_then (records_of true 0) (S.named system.now name.now)) first }
        ensures reader { IfOk result (IsCountedOf self.now.options (option_and_then (records_of true 0) (S.named system.now name.now))) }
        ensures reason { IfErr result IsByItsReason }
    {
        match self.options.source {
            Some(RowSource::Line) => self.line_reader(first),
            Some(RowSource::Xot) => {
                let circuits = self.read_circuits(system, name, first.options)?;
                self.circuit_reader(&circuits)
            }
            None if !first.survey.has_internet() => self.line_reader(first),
            None => {
                let circuits = self.read_circuits(system, name, first.options)?;
                if !circuits.has_packets() {
                    self.line_reader(first)
                } else if first.survey.seen().has_packets() {
                    Err(OpenRefusal::of_capture(CaptureFault::TwoCarriers))
                } else {
                    self.circuit_reader(&circuits)
                }
            }
        }
    }

    /// Returns what reads the rows of a line. Fails where it has no packet.
    fn line_reader(&self, first: FirstReading) -> Result<CountedReader, OpenRefusal>
        ensures reader { IfOk result (IsLineCounted first) }
        ensures reason { IfErr result IsByItsReason }
    {
        match first.survey.fault() {
            Some(fault) => Err(self.refusal(fault)),
            None => first.into_reader(self.alloc),
        }
    }

    /// Reads the circuits of a capture from its first octet on, and names other ports that look like XOT.
    fn read_circuits<S: Opener>(
        &self,
        system: &S,
        name: &str,
        options: CaptureOptions,
    ) -> Result<CircuitReading, OpenRefusal>
        ensures read { IfOk result (IsCircuitReading options (option_and_then (records_of true 0) (S.named system.now name.now))) }
        ensures reason { IfErr result IsByItsReason }
    {
        let circuits = CircuitReading::read(self.alloc, system.open(name)?, options)?;
        self.print_ports(name, circuits.ports());
        Ok(circuits)
    }

    /// Returns what reads the rows of circuits. Fails where none has a packet.
    fn circuit_reader(&self, circuits: &CircuitReading) -> Result<CountedReader, OpenRefusal>
        ensures reader { IfOk result (AreCircuitsCounted circuits.now) }
        ensures reason { IfErr result IsByItsReason }
    {
        if circuits.has_packets() {
            circuits.reader(self.alloc)
        } else {
            Err(self.refusal(CaptureFault::NoPacket))
        }
    }

    /// Returns why a capture has no trace. Where options choose packets, the capture may have others.
    fn refusal(&self, fault: CaptureFault) -> OpenRefusal
        ensures { IsByItsReason result }
    {
        let choices = &self.options.choices;
        match fault {
            CaptureFault::NoPacket | CaptureFault::Internet
                if self.options.source.is_some()
                    || choices.interface.is_some()
                    || self.options.dte.is_some() => {
                OpenRefusal::by_system(io::Error::other(NO_CHOICE))
            }
            _ => OpenRefusal::of_capture(fault),
        }
    }

    /// Prints why a pipe is read to its end before its rows are, as far as the errors accept it.
    fn print_kept(&self, name: &str) {
        let header = &self.options.header;
        if header.is_whole() {
            let _ = eprintln!(self.errors;
                "x25scan: {name}: XOT in a pipe is read to its end first"
            );
        } else if let Ok(missing) = missing_options(self.alloc, header) {
            let _ = eprintln!(self.errors;
                "x25scan: {name}: a pipe without {missing} is read to its end first"
            );
        }
    }

    /// Prints the comment of the lines before the rows where numbers were estimated, as far as the errors accept it.
    fn print_estimate(&self, name: &str, head: &[u8]) {
        let given = &self.options.header;
        if given.is_whole() {
            return;
        }
        let advice = if given.window.is_none() || given.size.is_none() {
            ADVICE
        } else {
            ""
        };
        let Some(end) = memchr(b'\n', head) else {
            return;
        };
        if let Some(Ok(words)) = head.get(2..end).map(str::from_utf8) {
            let _ = eprintln!(self.errors; "x25scan: {name}: {words}{advice}");
        }
    }

    /// Prints what was recorded of one side alone, as far as the errors accept it.
    fn print_halves(&self, name: &str, halves: Halves) {
        match halves {
            Halves::Line(None) => {}
            Halves::Line(Some(half)) => {
                let (words, place) = (recorded(half.side), line_words(half));
                let _ = eprintln!(self.errors; "x25scan: {name}: {words}{place}");
            }
            Halves::Connections(connections) => {
                self.print_half(name, Side::T, connections.dte);
                self.print_half(name, Side::N, connections.dce);
            }
        }
    }

    /// Prints the connections of which a side alone was recorded, where there are some.
    fn print_half(&self, name: &str, side: Side, numbers: Vec<u64>) {
        if numbers.is_empty() {
            return;
        }
        let words = recorded(side);
        if let Ok(place) = connection_words(self.alloc, numbers) {
            let _ = eprintln!(self.errors; "x25scan: {name}: {words}{place}");
        }
    }

    /// Prints the first of the other ports that look like XOT, as far as the errors accept it.
    fn print_ports(&self, name: &str, ports: &[NamedPort]) {
        for (index, found) in ports.iter().enumerate() {
            let (port, count) = (found.port, found.segments);
            let _ = if index < PORTS_NAMED {
                eprintln!(self.errors;
                    "x25scan: {name}: TCP port {port} looks like XOT, in {count} segments: --port {port} reads it"
                )
            } else {
                eprintln!(self.errors; "x25scan: {name}: {MORE_PORTS}")
            };
        }
    }

    /// Prints what is left out or missing, a line for each reason, as far as the errors accept it.
    fn print_left_out(&self, name: &str, counts: &Counts, flaws: FileFlaws) {
        self.print_lines(name, &frames_left_out(&counts.frames));
        self.print_lines(name, &others_left_out(counts, flaws));
    }

    /// Prints the lines of what there is.
    fn print_lines(&self, name: &str, lines: &[LeftOut]) {
        for line in lines {
            if line.count > 0 {
                let (place, words, count) = (line.place, line.words, line.count);
                let _ = eprintln!(self.errors; "x25scan: {name}: {place}: {words}: {count}");
            }
        }
    }
}

/// Why a capture is refused of which options leave no packet.
const NO_CHOICE: &str = "no packet is left by --only, --interface, --port or --dte: leave them out";

/// Why a trace is refused where options of captures are given.
pub(crate) const NO_CAPTURE: &str =
    "a trace has its own header and sides: leave out the options of captures";

/// How many of the ports that look like XOT are named.
const PORTS_NAMED: usize = 5;

/// What is said of the others.
const MORE_PORTS: &str =
    "more messages like the last one are not shown; a trace by x25trace has them as comments";

/// What is advised on an estimated header.
const ADVICE: &str =
    "\n  Data that broke smaller numbers is no finding: where you know WIN and SIZE, x25scan --win N --size N FILE";

impl<R: Pipes + Drop, E: Eprint + Drop> Opener for Recordings<R, E> {
    ghost use Rattle.capture_report.specs.Recordings.{recorded};

    type File = Recording<R::File, BegunFile<R::File>>;

    ghost named = { λ s name. recorded s.options (R.named s.system name) };

    fn open(&self, name: &str) -> Result<Recording<R::File, BegunFile<R::File>>, OpenRefusal> {
        let begun = self.begin(&self.system, name)?;
        if begun.is_capture() {
            self.open_recorded(name, begun)
        } else if self.options.is_plain() {
            Ok(Recording::Trace(begun))
        } else {
            Err(OpenRefusal::by_system(io::Error::other(NO_CAPTURE)))
        }
    }

    fn lasts(&self, name: &str) -> bool {
        self.system.lasts(name)
    }

    fn lacks_packets(&self, file: &Recording<R::File, BegunFile<R::File>>) -> bool {
        match file.known() {
            Some(known) => known.lacks_packets,
            None => false,
        }
    }

    fn circuits<'f>(&self, file: &'f Recording<R::File, BegunFile<R::File>>) -> &'f [u8] {
        match file.known() {
            Some(known) => known.circuits.as_slice(),
            None => b"",
        }
    }
}

impl<R: Pipes + Clock + Drop, E: Eprint + Drop> Clock for Recordings<R, E> {
    fn monotonic(&self) -> io::Result<Duration> {
        self.system.monotonic()
    }

    fn since_1970(&self) -> io::Result<Duration> {
        self.system.since_1970()
    }

    fn sleep(&self, duration: Duration) {
        self.system.sleep(duration)
    }
}

/// A recording that was opened, of a file or of one whose first octets were read.
#[derive(Drop)]
pub enum Recording<F: Read + Drop, B: Read + Drop> {
    /// A trace: its bytes as they are.
    Trace(B),
    /// A capture: the bytes of its trace.
    Capture(CaptureText<F>),
    /// A capture in a pipe, as its frames come: the bytes of its trace, which it hides.
    Pipe(CaptureText<B>),
    /// A capture in a pipe that was read to its end: the bytes of its trace, which it hides.
    Kept(CaptureText<Cursor<Vec<u8>>>),
}

impl<F: Read + Drop, B: Read + Drop> Recording<F, B> {
    /// Returns what was known of the trace of a capture before it is read; none where it is read once, and of a trace.
    fn known(&self) -> Option<&KnownText> {
        match self {
            Recording::Capture(text) => Some(text.known()),
            Recording::Kept(text) => Some(text.known()),
            Recording::Trace(_) | Recording::Pipe(_) => None,
        }
    }
}

impl<F: Read + Drop, B: Read + Drop> Read for Recording<F, B> {
    ghost use Rattle.capture_report.specs.Recordings.{recording_left};

    ghost remaining = { recording_left F.Read B.Read };

    fn read(&mut self, buf: &mut [u8]) -> io::Result<usize> {
        match self {
            Recording::Trace(begun) => begun.read(buf),
            Recording::Capture(text) => text.read(buf),
            Recording::Pipe(text) => text.read(buf),
            Recording::Kept(text) => text.read(buf),
        }
    }
}
