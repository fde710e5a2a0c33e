//! The reading of a capture that is read once, from a pipe, as its frames come.
//!
//! ```text
//!  dropped | first frame  frames ..  first packet | frames ..
//!  `passed over'`-- read before the header is known -'`- read as the trace is given
//! ```

ghost use Rattle.std.specs.Prelude.{◌≡◌, ◌++◌, IfErr, IfOk, OnOk, Some, false, true};
ghost use Rattle.std.specs.Option.{option_and_then, option_map};
ghost use Rattle.capture_files.specs.CaptureFiles.{records_of};
ghost use Rattle.capture_model.specs.Frames.{frame_view};
ghost use Rattle.capture_report.specs.Piped.{IsAtFrame, IsLineBegun, IsPipedReader, IsPipedText, interface_of, is_network, likely_of, on_interface, options_by, source_by};
ghost use Rattle.capture_report.specs.Recordings.{capture_left};
ghost use Rattle.capture_report.specs.Records.{record_view};
ghost use Rattle.streams.specs.OpenFaults.{IsByItsReason};

use crate::capture_text::CaptureText;
use crate::file_frames::FileFrames;
use crate::first_reading::{Head, line, of_memory};
use crate::frames::{Frames, Record};
use crate::line_reading::read_record;
use crate::options::{CaptureOptions, GivenHeader};
use crate::print::{Page, Printer};
use crate::reader::{Order, Reader, print_dropped, print_given};
use crate::reader_source::ReaderSource;
use crate::row_source::RowSource;
use crate::survey::{Survey, look_of};
use capture_files::refusal::Refusal;
use capture_model::frame::Frame;
use capture_model::header::read_header;
use capture_model::kind::{LinkKind, kind_of_link};
use capture_rows::choices::Choices;
use capture_rows::line::Line;
use line_model::fault::Fault;
use std::alloc::{AllocError, Global};
use std::io;
use std::io::Read;
use streams::input::{CaptureFault, OpenRefusal};

/// Goes on to the first frame, past what the capture says of frames that are missing before it. Returns whether there is
/// one.
#[tactic(auto, using(crate::proofs::PipedLemmas::passed_none, crate::proofs::PipedLemmas::passed_more, crate::proofs::PipedLemmas::frame_found, crate::proofs::PipedLemmas::frame_missing))]
fn go_to_frame<F: Frames>(frames: &mut F) -> Result<bool, Fault>
    ensures { IfOk result (IsAtFrame (F.left frames.old) (F.left frames.new) (F.latest frames.new)) }
{
    for _ in 0..u64::MAX {
        frames.advance()?;
        match frames.record() {
            None => return Ok(false),
            Some(record) if record.frame.is_some() => return Ok(true),
            Some(_) => {}
        }
    }
    Err(Fault::Read)
}

/// Returns the link header that an unknown link type likely has by its first frame, where none is given.
fn likely_of(options: &CaptureOptions, frame: &Frame<'_>) -> Option<LinkKind>
    ensures { result ≡ likely_of options.now (frame_view frame.now) }
{
    if options.choices.unknown.is_some() || kind_of_link(frame.link).is_some() {
        return None;
    }
    look_of(frame)
}

/// Returns the interface of a frame: that of its link header where it has one.
fn interface_of(kind: Option<LinkKind>, frame: &Frame<'_>) -> u32
    ensures { result ≡ interface_of kind (frame_view frame.now) }
{
    match kind {
        Some(kind) => read_header(kind, frame).index.unwrap_or(frame.interface),
        None => frame.interface,
    }
}

/// Returns the same, with the interface of a frame where none is chosen.
fn on_interface(options: &CaptureOptions, frame: &Frame<'_>) -> CaptureOptions
    ensures { result ≡ on_interface options.now (frame_view frame.now) }
{
    let kind = kind_of_link(frame.link).or(options.choices.unknown);
    let own = interface_of(kind, frame);
    let interface = options.choices.interface.unwrap_or(own);
    CaptureOptions {
        choices: Choices {
            interface: Some(interface),
            ..options.choices
        },
        ..*options
    }
}

/// Returns how a capture is read, by its first frame: the frames of one interface, and unknown link types as that one.
fn options_by(options: &CaptureOptions, frame: &Frame<'_>) -> CaptureOptions
    ensures { result ≡ options_by options.now (frame_view frame.now) }
{
    match likely_of(options, frame) {
        Some(kind) => on_interface(&options.with_unknown(kind), frame),
        None => on_interface(options, frame),
    }
}

/// Returns whether frames of a link header are those of a network, on which XOT is.
fn is_network(kind: Option<LinkKind>) -> bool
    ensures { result ≡ is_network kind }
{
    matches!(
        kind,
        Some(
            LinkKind::Loopback
                | LinkKind::Ethernet
                | LinkKind::Ppp
                | LinkKind::Internet
                | LinkKind::Cisco
                | LinkKind::Cooked1
                | LinkKind::Cooked2
        )
    )
}

/// Returns what carries the packets: what is chosen, otherwise what the link type of the first frame says.
fn source_by(options: &CaptureOptions, frame: &Frame<'_>) -> RowSource
    ensures { result ≡ source_by options.now (frame_view frame.now) }
{
    match options.source {
        Some(source) => source,
        None if is_network(kind_of_link(frame.link).or(options.choices.unknown)) => RowSource::Xot,
        None => RowSource::Line,
    }
}

/// A line of which rows are read before the header is known.
#[derive(Drop)]
struct LineStart {
    line: Line,
    /// The rows that were read.
    page: Page,
    survey: Survey,
}

impl LineStart {
    ghost use Rattle.std.specs.Prelude.{List};
    ghost use Rattle.capture_report.specs.Records as records;
    ghost use Rattle.capture_report.specs.CaptureTexts.{head_lines};
    ghost use Rattle.capture_report.specs.Headers.{has_packets};
    ghost use Rattle.capture_report.specs.Piped.{IsStarted, after_next, first_reading, gaps_expected, reading_of, text_from};
    ghost use Rattle.capture_report.specs.Traces.{text_left};

    /// Returns a line of which nothing was read.
    fn new(alloc: Global, options: &CaptureOptions) -> Result<LineStart, OpenRefusal>
        ensures start { IfOk result (λ start. reading_of start ≡ first_reading options.now) }
        ensures reason { IfErr result IsByItsReason }
    {
        Ok(LineStart {
            line: line(alloc, options)?,
            page: Page::new(Vec::new(alloc), Printer::new(true, options.is_swapped)),
            survey: Survey::new(alloc, options.choices.unknown),
        })
    }

    /// Reads what comes next in a capture: its rows, and what they show. Fails only when memory is refused; drop it then.
    #[tactic(auto, using(crate::proofs::PipedLemmas::next_read))]
    fn read(&mut self, alloc: Global, record: &Record<'_>) -> Result<(), AllocError>
        ensures { OnOk result (reading_of self.new ≡ after_next (record_view record.now) (reading_of self.old)) }
    {
        let mut shown = Vec::new(alloc);
        print_dropped(&self.line, record.dropped, &mut self.page)?;
        self.survey.see_dropped(&self.line, record.dropped)?;
        let read = read_record(alloc, &mut self.line, record, &mut shown)?;
        self.survey.see(record, &shown, read)?;
        print_given(
            &mut Order::Noticed,
            record.frame,
            &shown,
            read,
            &mut self.page,
        )
    }

    /// Reads what a capture gave last, and what comes next, up to the first packet or the end.
    #[tactic(auto, using(crate::proofs::PipedLemmas::starting_none, crate::proofs::PipedLemmas::started_end, crate::proofs::PipedLemmas::started_more, crate::proofs::PipedLemmas::starting_more))]
    fn read_on<F: Frames>(&mut self, alloc: Global, frames: &mut F) -> Result<(), Fault>
        requires empty { has_packets self.old.survey.seen.beginning ≡ false }
        ensures { OnOk result (IsStarted (F.left frames.old) (F.latest frames.old) (F.left frames.new) (reading_of self.old) (reading_of self.new)) }
    {
        for _ in 0..u64::MAX {
            let Some(record) = frames.record() else {
                return Ok(());
            };
            self.read(alloc, &record)?;
            if self.survey.seen().has_packets() {
                return Ok(());
            }
            frames.advance()?;
        }
        Err(Fault::Read)
    }

    /// Returns what reads the rest of the rows, behind the header and those that were read. Fails where there is no packet,
    /// and where the numbers of the header are those of none.
    #[tactic(auto, using(crate::proofs::PipedLemmas::headed))]
    fn into_reader(self, alloc: Global, options: &CaptureOptions) -> Result<Reader, OpenRefusal>
        ensures packets { IfOk result (λ reader. has_packets self.survey.seen.beginning ≡ true) }
        ensures text { IfOk result (λ reader. (rest : List records.Record) → text_left (Some rest) reader 0
            ≡ option_map (λ head. head ++ text_from (reading_of self) rest) (head_lines options.now.header (gaps_expected self.survey.seen))) }
        ensures reason { IfErr result IsByItsReason }
    {
        if !self.survey.seen().has_packets() {
            return Err(OpenRefusal::of_capture(
                self.survey.fault().unwrap_or(CaptureFault::NoPacket),
            ));
        }
        let LineStart { line, page, survey } = self;
        let seen = survey.into_seen().expecting_gaps();
        let head = Head::new(alloc, &seen, &options.header, &options.header)?;
        match page.behind(head.text) {
            Ok(page) => Ok(Reader::new(line, Order::Noticed, page)),
            Err(_) => Err(of_memory()),
        }
    }
}

/// Returns why the frames of a capture can't be read.
fn failed<F: Read + Drop>(frames: &FileFrames<ReaderSource<F>>) -> OpenRefusal
    ensures { IsByItsReason result }
{
    OpenRefusal::by_system(frames.source().reason())
}

/// Reads the line of a capture from the frame that was read last up to its first packet, and returns what reads the rest.
#[tactic(auto, using(crate::proofs::PipedLemmas::line_begun_if))]
fn begin_line<F: Read + Drop>(
    alloc: Global,
    frames: &mut FileFrames<ReaderSource<F>>,
    options: &CaptureOptions,
) -> Result<Reader, OpenRefusal>
    ensures reader { IfOk result (IsLineBegun options.now frames.old.left frames.old.latest frames.new.left) }
    ensures reason { IfErr result IsByItsReason }
{
    let mut start = LineStart::new(alloc, options)?;
    match start.read_on(alloc, frames) {
        Ok(()) => start.into_reader(alloc, options),
        Err(_) => Err(failed(frames)),
    }
}

/// Returns the names of the options that are missing for a whole header.
pub(crate) fn missing_options(alloc: Global, header: &GivenHeader) -> Result<String, AllocError> {
    let last = if header.has_ranges() {
        "--out"
    } else {
        "--svc"
    };
    let options = [
        ("--mod", header.modulus.is_some()),
        ("--win", header.window.is_some()),
        ("--size", header.size.is_some()),
        ("--pvc", header.pvc.is_some()),
        (last, header.last().is_some()),
    ];
    let mut names = String::new(alloc);
    for (name, is_given) in options {
        if !is_given {
            names.push_str(if names.is_empty() { "" } else { ", " })?;
            names.push_str(name)?;
        }
    }
    Ok(names)
}

/// Reads a capture up to its first packet, and returns what reads the rest of its trace. Fails where there is no packet, and
/// where they are those of circuits.
#[tactic(auto, using(crate::proofs::PipedLemmas::piped_reader_if))]
fn begin<F: Read + Drop>(
    alloc: Global,
    frames: &mut FileFrames<ReaderSource<F>>,
    options: &CaptureOptions,
) -> Result<Reader, OpenRefusal>
    ensures reader { IfOk result (IsPipedReader options.now frames.old.left frames.new.left) }
    ensures reason { IfErr result IsByItsReason }
{
    match go_to_frame(frames) {
        Ok(true) => {}
        Ok(false) => return Err(OpenRefusal::of_capture(CaptureFault::NoPacket)),
        Err(_) => return Err(failed(frames)),
    }
    let Some(
        Record {
            frame: Some(frame),
            ..
        },
    ) = frames.record()
    else {
        return Err(OpenRefusal::of_capture(CaptureFault::NoPacket));
    };
    let options = options_by(options, &frame);
    match source_by(&options, &frame) {
        RowSource::Xot => Err(OpenRefusal::of_capture(CaptureFault::Piped)),
        RowSource::Line => begin_line(alloc, frames, &options),
    }
}

/// Opens the frames of a capture in a pipe, which may still be written.
fn open_frames<F: Read + Drop>(
    alloc: Global,
    file: F,
) -> Result<FileFrames<ReaderSource<F>>, OpenRefusal>
    ensures left { IfOk result (λ frames. frames.left ≡ option_and_then (records_of false 0) (F.remaining file)) }
    ensures reason { IfErr result IsByItsReason }
{
    match FileFrames::open(alloc, ReaderSource::new(alloc, file), false, 0) {
        Ok(frames) => Ok(frames),
        Err((Refusal::Fault(_), source)) => Err(OpenRefusal::by_system(source.reason())),
        Err(_) => Err(OpenRefusal::of_capture(CaptureFault::Damaged)),
    }
}

/// Opens a capture that is read once, and reads it up to its first packet. Fails where its packets are those of circuits,
/// and where it has none.
#[tactic(auto, using(crate::proofs::PipedLemmas::piped_text_made))]
pub(crate) fn open_once<F: Read + Drop>(
    alloc: Global,
    file: F,
    options: &CaptureOptions,
) -> Result<CaptureText<F>, OpenRefusal>
    ensures text { IfOk result (λ text. IsPipedText options.now (F.remaining file) (capture_left F.Read text)) }
    ensures reason { IfErr result IsByItsReason }
{
    let mut frames = open_frames(alloc, file)?;
    let reader = begin(alloc, &mut frames, options)?;
    Ok(CaptureText::once(alloc, frames, reader))
}
