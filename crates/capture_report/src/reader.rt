//! The rows of what a capture has, as text.

ghost use Rattle.std.specs.Prelude.{◌≡◌, ◌∷◌, ◌++◌, List, OnOk, [], Option, option_map};
ghost use Rattle.std.specs.List.{flat_map, list_any};
ghost use Rattle.std.specs.Option.{option_to_list};
ghost use Rattle.capture_model.specs.Frames.{frame_view};
ghost use Rattle.capture_rows.specs.Givens.{given_view};
ghost use Rattle.capture_rows.specs.Lines.{read_view};
ghost use Rattle.capture_report.specs.Contents.{row_view};
ghost use Rattle.capture_report.specs.Records as records;
ghost use Rattle.capture_report.specs.Records.{record_view};
ghost use Rattle.capture_report.specs.Rows.{after_record, dropped_rows, has_packet, is_behind_gap, is_gap_at, noticed_rows, own_rows, placed_rows, record_rows, rows_behind, rows_given, settled, shown_rows};
ghost use Rattle.capture_report.specs.Texts.{with_rows};

use crate::circuit_batch::Batch;
use crate::circuit_page::CircuitPage;
use crate::frames::Record;
use crate::line_reading::read_record;
use crate::plan::Plan;
use crate::print::Page;
use crate::row::{Content, Row};
use crate::xot_frames::XotFrames;
use capture_files::entry::Dropped;
use capture_model::frame::Frame;
use capture_rows::given::{Given, of_held, packet_or_gap};
use capture_rows::line::{FrameRead, Line};
use lapb_link::frames::Place;
use lapb_link::receiver::Shown;
use std::alloc::{AllocError, Global};

/// The order of rows.
#[derive(Drop)]
pub enum Order {
    /// As they are noticed, of a capture that is read once.
    Noticed,
    /// At the places of their frames, by a first reading.
    Placed(Plan),
}

/// The frames of a line as the text of its rows.
#[derive(Drop)]
pub struct LineReader {
    line: Line,
    order: Order,
    page: Page,
}

impl LineReader {
    /// Reads what comes next in a capture, and appends the text of its rows. Fails only when memory is refused; drop
    /// the reader then.
    #[tactic(auto, using(crate::proofs::TextLemmas::with_rows_append))]
    fn read(&mut self, alloc: Global, record: &Record<'_>) -> Result<(), AllocError>
        ensures line { OnOk result (self.new.line ≡ after_record (record_view record.now) self.old.line) }
        ensures order { OnOk result (self.new.order ≡ self.old.order) }
        ensures page { OnOk result (self.new.page ≡ with_rows self.old.page
            (record_rows self.old.order (record_view record.now) self.old.line)) }
    {
        let mut shown = Vec::new(alloc);
        print_dropped(&self.line, record.dropped, &mut self.page)?;
        let read = read_record(alloc, &mut self.line, record, &mut shown)?;
        print_given(&mut self.order, record.frame, &shown, read, &mut self.page)
    }
}

/// The frames of circuits as the text of their rows.
#[derive(Drop)]
pub struct CircuitReader {
    frames: XotFrames,
    batch: Batch,
    page: CircuitPage,
}

impl CircuitReader {
    ghost use Rattle.capture_report.specs.CircuitRows.{printed};
    ghost use Rattle.capture_report.specs.Circuits.{dropped_steps, frame_steps, reader_after, steps_from};
    ghost use Rattle.capture_report.specs.Segments.{finish_items, reader_of};
    ghost use Rattle.capture_report.specs.Traces.{circuit_rows_next, rows_on};

    /// Reads what comes next in a capture, and appends the text of the rows that it completes. Fails only when memory is
    /// refused; drop the reader then.
    #[tactic(auto, using(crate::proofs::CircuitReaderLemmas::printed_next))]
    fn read(&mut self, record: &Record<'_>) -> Result<(), AllocError>
        ensures frames { OnOk result (reader_of self.new.frames ≡ reader_after (record_view record.now).frame (reader_of self.old.frames)) }
        ensures page { OnOk result (self.new.page ≡ printed (circuit_rows_next (record_view record.now) self.old) self.old.page) }
    {
        self.print_dropped(record.dropped)?;
        self.print_frame(record.frame)
    }

    /// Appends the gap of frames that were dropped.
    fn print_dropped(&mut self, dropped: Option<Dropped>) -> Result<(), AllocError>
        ensures frames { self.new.frames ≡ self.old.frames }
        ensures page { OnOk result (self.new.page ≡ printed (rows_on self.old.page (dropped_steps dropped (reader_of self.old.frames))) self.old.page) }
    {
        match dropped {
            Some(dropped) if dropped.count > 0 && self.frames.is_on(dropped.interface) => {
                self.page.print_dropped(Place {
                    frame: dropped.number,
                    time: dropped.time,
                })
            }
            _ => Ok(()),
        }
    }

    /// Appends the rows that a frame completes.
    #[tactic(auto, using(crate::proofs::CircuitReaderLemmas::printed_items))]
    fn print_frame(&mut self, frame: Option<Frame<'_>>) -> Result<(), AllocError>
        ensures frames { OnOk result (reader_of self.new.frames ≡ reader_after (option_map frame_view frame.entry) (reader_of self.old.frames)) }
        ensures page { OnOk result (self.new.page ≡ printed (rows_on self.old.page (frame_steps (option_map frame_view frame.entry) (reader_of self.old.frames))) self.old.page) }
    {
        let Some(frame) = frame else {
            return Ok(());
        };
        self.batch.clear();
        self.frames.read(&frame, &mut self.batch)?;
        self.page.print_all(&self.batch)
    }

    /// Appends the text of the rows that come at the end of the capture. Fails only when memory is refused; drop the
    /// reader then.
    #[tactic(auto, using(crate::proofs::CircuitReaderLemmas::printed_items))]
    fn finish(&mut self) -> Result<(), AllocError>
        ensures frames { OnOk result (finish_items (reader_of self.new.frames) ≡ []) }
        ensures page { OnOk result (self.new.page ≡ printed (rows_on self.old.page (steps_from (reader_of self.old.frames) [])) self.old.page) }
    {
        self.batch.clear();
        self.frames.finish(&mut self.batch)?;
        self.page.print_all(&self.batch)
    }
}

/// The frames of a capture as the text of its rows.
#[derive(Drop)]
pub enum Reader {
    /// Those of a line.
    Line(LineReader),
    /// Those of circuits of XOT.
    Circuits(CircuitReader),
}

impl Reader {
    ghost use Rattle.capture_report.specs.Traces.{cleared, page_of, rows_next, rows_of};

    /// Returns a reader of a line of which nothing was read.
    pub fn new(line: Line, order: Order, page: Page) -> Reader
        ensures { result ≡ Reader.Line (record { line = line; order = order; page = page }) }
    {
        Reader::Line(LineReader { line, order, page })
    }

    /// Returns a reader of circuits of which nothing was read.
    pub(crate) fn of_circuits(frames: XotFrames, batch: Batch, page: CircuitPage) -> Reader
        ensures { result ≡ Reader.Circuits (record { frames = frames; batch = batch; page = page }) }
    {
        Reader::Circuits(CircuitReader {
            frames,
            batch,
            page,
        })
    }

    /// Returns the text of the rows that were read.
    pub fn page(&self) -> &Page
        ensures { result.now ≡ page_of self.now }
    {
        match self {
            Reader::Line(reader) => &reader.page,
            Reader::Circuits(reader) => reader.page.page(),
        }
    }

    /// Removes that text.
    pub fn clear(&mut self)
        ensures { self.new ≡ cleared self.old }
    {
        match self {
            Reader::Line(reader) => reader.page.clear(),
            Reader::Circuits(reader) => reader.page.clear(),
        }
    }

    /// Reads what comes next in a capture, and appends the text of the rows that it completes. Fails only when memory is
    /// refused; drop the reader then.
    pub fn read(&mut self, alloc: Global, record: &Record<'_>) -> Result<(), AllocError>
        ensures page { OnOk result (page_of self.new ≡ with_rows (page_of self.old) (rows_next (record_view record.now) self.old)) }
        ensures rest { OnOk result ((rest : List records.Record) → rows_of self.old (record_view record.now ∷ rest) ≡ rows_next (record_view record.now) self.old ++ rows_of self.new rest) }
    {
        match self {
            Reader::Line(reader) => reader.read(alloc, record),
            Reader::Circuits(reader) => reader.read(record),
        }
    }

    /// Appends the text of the rows that come at the end of a capture. A further call appends nothing. Fails only when
    /// memory is refused; drop the reader then.
    #[tactic(auto, using(crate::proofs::CircuitReaderLemmas::circuits_end))]
    pub fn finish(&mut self) -> Result<(), AllocError>
        ensures page { OnOk result (page_of self.new ≡ with_rows (page_of self.old) (rows_of self.old [])) }
        ensures rest { OnOk result (rows_of self.new [] ≡ []) }
    {
        match self {
            Reader::Line(_) => Ok(()),
            Reader::Circuits(reader) => reader.finish(),
        }
    }
}

/// Appends the gap of frames that were dropped.
pub(crate) fn print_dropped(
    line: &Line,
    dropped: Option<Dropped>,
    page: &mut Page,
) -> Result<(), AllocError>
    ensures { OnOk result (page.new ≡ with_rows page.old (dropped_rows dropped line.now)) }
{
    match dropped {
        Some(dropped) if dropped.count > 0 && line.is_on(dropped.interface) => {
            page.print(&Row::gap_of_all(Place {
                frame: dropped.number,
                time: dropped.time,
            }))
        }
        _ => Ok(()),
    }
}

/// Appends the rows of a frame, by what it shows of frames before it, and what it gives.
pub(crate) fn print_given(
    order: &mut Order,
    frame: Option<Frame<'_>>,
    shown: &[Shown],
    read: Option<FrameRead<'_>>,
    page: &mut Page,
) -> Result<(), AllocError>
    ensures order { order.new ≡ order.old }
    ensures page { OnOk result (page.new ≡ with_rows page.old (rows_given order.old (option_map frame_view frame.entry) shown.now (option_map read_view read.entry))) }
{
    let Some(frame) = frame else {
        return Ok(());
    };
    let Some(read) = read else {
        return Ok(());
    };
    let place = Place {
        frame: frame.number,
        time: frame.time,
    };
    match order {
        Order::Noticed => print_noticed(place, shown, &read, page),
        Order::Placed(plan) => print_placed(plan, place, shown, &read, page),
    }
}

/// Appends the rows of a frame, and those that it shows of frames before it.
#[tactic(auto, using(crate::proofs::TextLemmas::with_rows_append))]
fn print_noticed(
    place: Place,
    shown: &[Shown],
    read: &FrameRead<'_>,
    page: &mut Page,
) -> Result<(), AllocError>
    ensures { OnOk result (page.new ≡ with_rows page.old (noticed_rows place shown.now (read_view read.now))) }
{
    print_shown(shown, page)?;
    print_behind(read.gap_before, place, &read.given, page)
}

/// Appends the rows of what a frame shows of frames before it.
#[tactic(auto, using(crate::proofs::TextLemmas::with_rows_append))]
fn print_shown(shown: &[Shown], page: &mut Page) -> Result<(), AllocError>
    ensures { OnOk result (page.new ≡ with_rows page.old (flat_map shown_rows shown.now)) }
{
    for one in shown {
        print_one(one, page)?;
    }
    Ok(())
}

/// Appends the row of one of these.
fn print_one(shown: &Shown, page: &mut Page) -> Result<(), AllocError>
    ensures { OnOk result (page.new ≡ with_rows page.old (shown_rows shown.now)) }
{
    print_row(shown_row(shown), page)
}

/// Appends a row, where there is one.
fn print_row(row: Option<Row<'_>>, page: &mut Page) -> Result<(), AllocError>
    ensures { OnOk result (page.new ≡ with_rows page.old (option_to_list (option_map row_view row.entry))) }
{
    match row {
        Some(row) => page.print(&row),
        None => Ok(()),
    }
}

/// Returns the row of what a frame shows of a frame before it.
pub(crate) fn shown_row<'a>(shown: &'a Shown) -> Option<Row<'a>>
    ensures { option_to_list (option_map row_view result) ≡ shown_rows shown.now }
{
    match shown {
        Shown::Gap(gap) => Some(Row::gap_of_all(gap.place)),
        Shown::Accepted(held) => own_row(held.place, &of_held(held)),
        Shown::Lost(..) | Shown::Refused(_) => None,
    }
}

/// Returns the row of what a frame gives.
pub(crate) fn own_row<'a>(place: Place, given: &Given<'a>) -> Option<Row<'a>>
    ensures { option_to_list (option_map row_view result) ≡ own_rows place (given_view given.now) }
{
    let content = match *given {
        Given::Packet(side, octets) => Content::Packet(side, octets),
        Given::Gap(channel, _) => Content::Gap(channel),
        Given::Held { .. } | Given::Unnumbered(_) | Given::LeftOut(_) => return None,
    };
    Some(Row {
        place,
        circuit: None,
        content,
    })
}

/// Appends the row of a frame at its place, behind a gap where packets may be missing.
fn print_placed(
    plan: &mut Plan,
    place: Place,
    shown: &[Shown],
    read: &FrameRead<'_>,
    page: &mut Page,
) -> Result<(), AllocError>
    ensures plan { plan.new ≡ plan.old }
    ensures page { OnOk result (page.new ≡ with_rows page.old (placed_rows plan.old place shown.now (read_view read.now))) }
{
    let given = settled(plan.is_accepted(place.frame), &read.given);
    let is_doubtful = plan.is_doubtful(place.frame);
    let is_behind = is_behind_gap(is_doubtful, place.frame, shown, read, &given);
    print_behind(is_behind, place, &given, page)
}

/// Returns what a held frame gives in the end.
fn settled<'a>(is_accepted: bool, given: &Given<'a>) -> Given<'a>
    ensures { given_view result ≡ settled is_accepted (given_view given.now) }
{
    match *given {
        Given::Held {
            side,
            octets,
            is_cut,
        } if is_accepted => packet_or_gap(side, octets, is_cut),
        given => given,
    }
}

/// Returns whether packets may be missing directly before a frame.
fn is_behind_gap(
    is_doubtful: bool,
    frame: u64,
    shown: &[Shown],
    read: &FrameRead<'_>,
    given: &Given<'_>,
) -> bool
    ensures { result ≡ is_behind_gap is_doubtful frame shown.now (read_view read.now) (given_view given.now) }
{
    read.gap_before || shows_gap_at(frame, shown) || has_packet(given) && is_doubtful
}

/// Returns whether a frame gives a packet, or the gap of one that is left out.
fn has_packet(given: &Given<'_>) -> bool
    ensures { result ≡ has_packet (given_view given.now) }
{
    matches!(given, Given::Packet(..) | Given::Gap(..))
}

/// Returns whether a frame shows a gap at its own place.
fn shows_gap_at(frame: u64, shown: &[Shown]) -> bool
    ensures { result ≡ list_any (is_gap_at frame) shown.now }
{
    shown.iter().any(|one| is_gap_at(frame, one))
}

/// Returns whether this is a gap at the place of a frame.
fn is_gap_at(frame: u64, shown: &Shown) -> bool
    ensures { result ≡ is_gap_at frame shown.now }
{
    match shown {
        Shown::Gap(gap) => gap.place.frame == frame,
        Shown::Accepted(_) | Shown::Lost(..) | Shown::Refused(_) => false,
    }
}

/// Appends the row of what a frame gives, behind a gap where packets may be missing.
fn print_behind(
    is_behind_gap: bool,
    place: Place,
    given: &Given<'_>,
    page: &mut Page,
) -> Result<(), AllocError>
    ensures { OnOk result (page.new ≡ with_rows page.old (rows_behind is_behind_gap place (given_view given.now))) }
{
    if is_behind_gap {
        page.print(&Row::gap_of_all(place))?;
    }
    print_own(place, given, page)
}

/// Appends the row of what a frame gives.
fn print_own(place: Place, given: &Given<'_>, page: &mut Page) -> Result<(), AllocError>
    ensures { OnOk result (page.new ≡ with_rows page.old (own_rows place (given_view given.now))) }
{
    print_row(own_row(place, given), page)
}
