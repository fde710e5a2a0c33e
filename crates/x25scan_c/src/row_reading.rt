//! A trace whose rows are printed while it is read.

ghost use Rattle.std.specs.Prelude.{◌≡◌, ◌++◌, ℕ, List, [], None, IfErr, OnOk};
ghost use Rattle.annotated_trace.specs.Printers.{IsEndRefusal, IsRefusalOf};
ghost use Rattle.json_lines.specs.Json.{json_text};
ghost use Rattle.line_model.specs.basics.Device.{with_more};
ghost use Rattle.line_model.specs.text.Text.{early, ended_lines, fault};
ghost use Rattle.line_model.specs.traces.Traces.{trace_report};
ghost use Rattle.live_report.specs.Reports.{IsRefusal};
ghost use Rattle.trace_text.specs.EndedPart.{ended_part as ended};
ghost use Rattle.x25scan_c.specs.Rows.{AddsRows, AddsRowsBefore, EndsRows, HasPrintedRows, IsPrintingRows};
ghost use Rattle.x25scan_c.specs.Waits.{refusals, waiting};

use crate::waiting::Waiting;
use annotated_trace::printing::TracePrinter;
use annotated_trace::rows::Rows;
use channel_run::run::Channel;
use descriptions::row_objects::RowObjects;
use json_lines::text::write_json_lines;
use line_model::device::{LastLine, Sink};
use line_model::fault::Fault;
use live_report::live::Live;
use std::alloc::Allocator;

/// A trace that grows, and the printer of an object for each of its rows.
#[derive(Drop)]
pub struct RowReading<A: Allocator, C: Channel<A>> {
    printer: TracePrinter<A, Live<A, C>, RowObjects<A>>,
    refused: Option<Fault>,
}

impl<A: Allocator + Copy, C: Channel<A>> RowReading<A, C> {
    /// Returns a trace of which nothing was fed. Allocates nothing.
    pub fn new(alloc: A) -> Self
        ensures { HasPrintedRows C.Channel [] result }
    {
        let objects = RowObjects::new(alloc, Rows::All);
        RowReading {
            printer: TracePrinter::new(alloc, Live::with_rows(alloc), objects),
            refused: None,
        }
    }

    /// Returns the last line that was read, as `Lines::last_line`.
    pub fn last_line(&self) -> LastLine<'_> {
        self.printer.trace().last_line()
    }

    /// Reads the next bytes of the text, and appends the objects of their rows. Fails with the first line that is faulty
    /// however the text goes on, after the objects of the rows before it, and when memory is refused; from then on it
    /// fails with the same.
    pub fn feed(&mut self, chunk: &[u8], rows: &mut Waiting<u8, A>) -> Result<(), Fault>
        requires { IsPrintingRows C.Channel self.old }
        ensures sound { IsPrintingRows C.Channel self.new }
        ensures fed { (text : List ℕ) → HasPrintedRows C.Channel text self.old
            → OnOk result (HasPrintedRows C.Channel (text ++ chunk.now) self.new) }
        ensures rows { (text : List ℕ) → HasPrintedRows C.Channel text self.old
            → OnOk result (AddsRows (ended_lines text) (ended_lines (text ++ chunk.now)) (waiting rows.old) (waiting rows.new)) }
        ensures refused { (text : List ℕ) → HasPrintedRows C.Channel text self.old
            → IfErr result (IsRefusalOf (early (text ++ chunk.now))) }
        ensures before { (text : List ℕ) → HasPrintedRows C.Channel text self.old → refusals rows.new ≡ refusals rows.old
            → IfErr result (AddsRowsBefore (ended_lines text) (ended_lines (text ++ chunk.now)) (waiting rows.old) (waiting rows.new)) }
    {
        if let Some(fault) = self.refused {
            return Err(fault);
        }
        let answer = self.printer.feed(chunk, rows);
        self.refused = answer.err();
        answer
    }

    /// Writes the objects of the report of the lines that have ended, as `Live::report`.
    pub fn report<K: Sink>(&self, alloc: A, sink: &mut K) -> Result<(), Fault>
        requires { IsPrintingRows C.Channel self.now }
        ensures reported { (text : List ℕ) → HasPrintedRows C.Channel text self.now
            → OnOk result ((fault (ended text) ≡ None) × (K.taken sink.new
            ≡ with_more (K.taken sink.old) (json_text (trace_report (ended text))))) }
        ensures refused { (text : List ℕ) → HasPrintedRows C.Channel text self.now
            → IfErr result (IsRefusal (ended text)) }
    {
        if let Some(fault) = self.refused {
            return Err(fault);
        }
        let mut lines = Waiting::<u8, A>::new(alloc);
        self.printer.trace().report(&mut lines)?;
        write_json_lines(lines.as_slice(), sink)
    }

    /// Ends the text, and writes what comes after the rows that were printed. Fails as `TracePrinter::end`, and where it
    /// was refused before.
    pub fn end<K: Sink>(self, sink: &mut K) -> Result<(), Fault>
        requires { IsPrintingRows C.Channel self }
        ensures rows { (text : List ℕ) → HasPrintedRows C.Channel text self
            → OnOk result (EndsRows text (K.taken sink.old) (K.taken sink.new)) }
        ensures refused { (text : List ℕ) → HasPrintedRows C.Channel text self
            → IfErr result (IsEndRefusal text) }
    {
        if let Some(fault) = self.refused {
            return Err(fault);
        }
        self.printer.end(sink)?;
        Ok(())
    }
}
