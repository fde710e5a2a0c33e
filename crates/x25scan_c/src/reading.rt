//! A trace that grows, as a handle reads it.

ghost use Rattle.std.specs.Prelude.{◌≡◌, ◌++◌, ℕ, List, [], None, true, false, Ok, IfErr, OnOk, if◌then◌else◌};
ghost use Rattle.annotated_trace.specs.Printers.{IsEndRefusal, IsRefusalOf};
ghost use Rattle.json_lines.specs.Json.{json_text};
ghost use Rattle.line_model.specs.basics.Device.{with_more};
ghost use Rattle.line_model.specs.text.Text.{early, ended_lines, fault};
ghost use Rattle.line_model.specs.traces.Traces.{trace_report};
ghost use Rattle.live_report.specs.Found.{IsFoundUpTo, found as findings_of};
ghost use Rattle.live_report.specs.Reports.{IsRefusal};
ghost use Rattle.trace_text.specs.EndedPart.{ended_part as ended};
ghost use Rattle.x25scan_c.specs.Rows.{AddsRowsBefore, EndsRows};
ghost use Rattle.x25scan_c.specs.Sound.{Brings, IsSound, WasRead, has_ended, packet_line, prints_rows};
ghost use Rattle.x25scan_c.specs.Waits.{refusals, waiting};

use crate::report_reading::ReportReading;
use crate::row_reading::RowReading;
use crate::waiting::Waiting;
use channel_run::run::Channel;
use line_model::device::Sink;
use line_model::fault::Fault;
use line_model::finding::Finding;
use line_model::state::Side;
use live_report::uncounted::Uncounted;
use std::alloc::{Allocator, Global};
use std::mem::replace;
use streams::kept_line::KeptLine;

/// What is read.
#[derive(Drop)]
pub enum Reading<A: Allocator, C: Channel<A>> {
    /// A trace whose report can be asked for at any moment.
    Report(ReportReading<A, C>),
    /// A trace whose rows are printed as they come.
    Rows(RowReading<A, C>),
    /// The trace has ended.
    Ended,
}

impl<A: Allocator + Copy, C: Channel<A>> Reading<A, C> {
    /// Returns a trace of which nothing was fed. Allocates nothing.
    pub fn new(alloc: A, of_rows: bool) -> Self
        ensures sound { IsSound C.Channel result }
        ensures fed { WasRead C.Channel [] result }
        ensures form { prints_rows result ≡ of_rows }
    {
        if of_rows {
            Reading::Rows(RowReading::new(alloc))
        } else {
            Reading::Report(ReportReading::new(alloc))
        }
    }

    /// Returns whether rows are printed.
    pub fn prints_rows(&self) -> bool
        ensures { result ≡ prints_rows self.now }
    {
        matches!(self, Reading::Rows(_))
    }

    /// Returns a copy of the last line that was read, as `Lines::last_line`.
    pub fn last_line(&self, alloc: Global) -> Option<KeptLine> {
        match self {
            Reading::Report(reports) => KeptLine::of(alloc, reports.live.last_line()),
            Reading::Rows(printed) => KeptLine::of(alloc, printed.last_line()),
            Reading::Ended => None,
        }
    }

    /// Returns whether the trace has ended.
    pub fn has_ended(&self) -> bool
        ensures { result ≡ has_ended self.now }
    {
        matches!(self, Reading::Ended)
    }

    /// Reads the next bytes of the text, and appends what their rows found, or the objects of their rows. Fails with the
    /// first line that is faulty however the text goes on, after what the rows before it gave, and when memory is
    /// refused; from then on it fails with the same.
    pub fn feed(
        &mut self,
        chunk: &[u8],
        found: &mut Waiting<Finding, A>,
        rows: &mut Waiting<u8, A>,
    ) -> Result<(), Fault>
        requires { IsSound C.Channel self.old }
        ensures sound { IsSound C.Channel self.new }
        ensures read { (text : List ℕ) → WasRead C.Channel text self.old → OnOk result (WasRead C.Channel (text ++ chunk.now) self.new
            × Brings (prints_rows self.old) text (text ++ chunk.now) (waiting found.old) (waiting found.new) (waiting rows.old) (waiting rows.new)) }
        ensures refused { (text : List ℕ) → WasRead C.Channel text self.old
            → IfErr result (IsRefusalOf (early (text ++ chunk.now))) }
        ensures found { (text : List ℕ) → WasRead C.Channel text self.old → prints_rows self.old ≡ false
            → IfErr result (λ fault. IsFoundUpTo fault (waiting found.old) (waiting found.new) (findings_of text)
            (findings_of (text ++ chunk.now))) }
        ensures before { (text : List ℕ) → WasRead C.Channel text self.old → prints_rows self.old ≡ true
            → refusals rows.new ≡ refusals rows.old → IfErr result (AddsRowsBefore (ended_lines text)
            (ended_lines (text ++ chunk.now)) (waiting rows.old) (waiting rows.new)) }
        ensures form { prints_rows self.new ≡ prints_rows self.old }
    {
        match self {
            Reading::Report(reports) => reports.feed(chunk, found),
            Reading::Rows(printed) => printed.feed(chunk, rows),
            Reading::Ended => Ok(()),
        }
    }

    /// Reads a packet, and appends what it found. `false`: nothing was read, and the line that writes it has to be fed.
    #[inline(always)]
    pub fn packet(
        &mut self,
        number: u32,
        side: Side,
        octets: &[u8],
        found: &mut Waiting<Finding, A>,
    ) -> Result<bool, Fault>
        requires { IsSound C.Channel self.old }
        ensures sound { IsSound C.Channel self.new }
        ensures taken { (text waits : List ℕ) → WasRead C.Channel text self.old → result ≡ Ok true
            → WasRead C.Channel (text ++ packet_line number side octets.now) self.new
            × Brings (prints_rows self.old) text (text ++ packet_line number side octets.now) (waiting found.old) (waiting found.new) waits waits }
        ensures passed { (text : List ℕ) → WasRead C.Channel text self.old → result ≡ Ok false
            → WasRead C.Channel text self.new }
        ensures unfound { result ≡ Ok false → found.new ≡ found.old }
        ensures form { prints_rows self.new ≡ prints_rows self.old }
    {
        match self {
            Reading::Report(reports) => reports.packet(number, side, octets, found),
            _ => Ok(false),
        }
    }

    /// Writes the report of the lines that have ended, as `Live::report`, or where rows are printed its objects.
    pub fn report<K: Sink>(&self, alloc: A, sink: &mut K) -> Result<(), Fault>
        requires { IsSound C.Channel self.now }
        ensures reported { (text : List ℕ) → WasRead C.Channel text self.now → OnOk result ((fault (ended text) ≡ None)
            × (K.taken sink.new ≡ with_more (K.taken sink.old)
            (if prints_rows self.now then json_text (trace_report (ended text)) else trace_report (ended text)))) }
        ensures refused { (text : List ℕ) → WasRead C.Channel text self.now → IfErr result (IsRefusal (ended text)) }
    {
        match self {
            Reading::Report(reports) => {
                reports.live.report(sink)?;
                Ok(())
            }
            Reading::Rows(printed) => printed.report(alloc, sink),
            Reading::Ended => Ok(()),
        }
    }

    /// Ends the text: writes its report, as `Live::end`, or what comes after the rows that were printed.
    pub fn end<K: Sink>(&mut self, sink: &mut K) -> Result<(), Fault>
        requires { IsSound C.Channel self.old }
        ensures ended { self.new ≡ Reading.Ended }
        ensures reported { (text : List ℕ) → WasRead C.Channel text self.old → prints_rows self.old ≡ false
            → OnOk result ((fault text ≡ None)
            × (K.taken sink.new ≡ with_more (K.taken sink.old) (trace_report text))) }
        ensures rows { (text : List ℕ) → WasRead C.Channel text self.old → prints_rows self.old ≡ true
            → OnOk result (EndsRows text (K.taken sink.old) (K.taken sink.new)) }
        ensures refused { (text : List ℕ) → WasRead C.Channel text self.old → prints_rows self.old ≡ false
            → IfErr result (IsRefusal text) }
        ensures stopped { (text : List ℕ) → WasRead C.Channel text self.old → prints_rows self.old ≡ true
            → IfErr result (IsEndRefusal text) }
    {
        match replace(self, Reading::Ended) {
            Reading::Report(reports) => {
                reports.live.end(sink, &mut Uncounted::none())?;
                Ok(())
            }
            Reading::Rows(printed) => printed.end(sink),
            Reading::Ended => Ok(()),
        }
    }
}
