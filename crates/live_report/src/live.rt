//! Reports of a trace that is fed in chunks.

ghost use Rattle.std.specs.Prelude.{◌≡◌, ◌≢◌, ℕ, ◌+◌, ◌<◌, ◌≤◌, ◌^◌, ◌++◌, [], List, Some, None, Ok, Err, true, false, length, IfErr, IfOk, OnOk};
ghost use Rattle.std.specs.Option.{option_map};
ghost use Rattle.line_model.specs.text.Text.{early_rows, ended_lines, fault, head, rows as rows_of_text};
ghost use Rattle.line_model.specs.basics.Records.{Row};
ghost use Rattle.line_model.specs.packets.Says.{read_row};
ghost use Rattle.line_model.specs.traces.Traces.{trace_report};
ghost use Rattle.trace_text.specs.Progress.{bytes_fed};
ghost use Rattle.trace_text.specs.Represents.{IsFaultOf, IsTextFault, last_row};
ghost use Rattle.trace_text.specs.EndedPart.{ended_part};
ghost use Rattle.trace_text.specs.RowTexts.{row_text};
ghost use Rattle.live_report.specs.Found.{HasFound, IsFoundBy, found};
ghost use Rattle.live_report.specs.Lives.{IsFed, IsFedOn, IsLastRow, KeepsRowsOf, OfFed, RefusesEarly, WasFed};
ghost use Rattle.live_report.specs.Reports.{IsMissing, IsRefusal, IsReportFault, IsReported, IsTaken};
ghost use Rattle.live_report.specs.Uncounted.{trace_uncounted};
ghost use Rattle.trace_text.specs.ObserverAnswers.{IsReportOf};

use crate::observer::Observer;
use crate::observing::{finish_observing, observe_chunk, observe_first, or_begun};
use crate::read_rows::ReadRows;
use crate::row_ref::RowRef;
use crate::uncounted::Uncounted;
use channel_run::run::Channel;
use line_model::device::{LastLine, Sink};
use line_model::fault::Fault;
use line_model::finding::Finding;
use line_model::interface::Interface;
use line_model::report::Report;
use line_model::row::ReadRow;
use line_model::state::Side;
use line_model::totals::Summary;
use report_merge::text::write_report;
use restart_epochs::walk::append_finding;
use std::alloc::Allocator;
use std::mem::replace;
use trace_text::lines::{Lines, TextEnd};

/// A trace that grows, and the observer of its rows so far. No line of the trace text that it represents is known to be
/// faulty, so a refusal of memory hides no faulty line of an earlier chunk.
#[derive(Drop)]
pub struct Live<A: Allocator, C: Channel<A>> {
    lines: Lines<A>,
    rows: ReadRows<A>,
    /// Whether the observer keeps the row that it read last.
    keeps_rows: bool,
    /// The observer, once the first row was read.
    observer: Option<Observer<A, C>>,
    /// What the rows of the last chunk found.
    found: Vec<Finding, A>,
    refused: Option<Fault>,
}

impl<A: Allocator + Copy, C: Channel<A>> Live<A, C> {
    /// Returns a trace of which nothing was fed, whose observer keeps no rows. Allocates nothing.
    pub fn new(alloc: A) -> Self
        ensures fed { IsFed C.interface_of C.number_of C.represents result }
        ensures represented { WasFed C.Channel [] result }
    {
        Live::begun(alloc, false)
    }

    /// Returns a trace of which nothing was fed, whose observer keeps the row that it read last. Allocates nothing.
    pub fn with_rows(alloc: A) -> Self
        ensures fed { IsFed C.interface_of C.number_of C.represents result }
        ensures represented { KeepsRowsOf C.Channel [] result }
    {
        Live::begun(alloc, true)
    }

    /// A trace of which nothing was fed.
    fn begun(alloc: A, keeps_rows: bool) -> Self
        ensures fed { IsFed C.interface_of C.number_of C.represents result }
        ensures represented { WasFed C.Channel [] result }
        ensures keeps { result.keeps_rows ≡ keeps_rows }
    {
        Live {
            lines: Lines::new(alloc),
            rows: ReadRows::new(alloc),
            keeps_rows,
            observer: None,
            found: Vec::new(alloc),
            refused: None,
        }
    }

    /// Returns the interface of the header, once an LF has ended it.
    pub fn interface(&self) -> Option<Interface>
        ensures { result ≡ self.now.lines.interface }
    {
        self.lines.interface()
    }

    /// Returns the last line that was read, as `Lines::last_line`.
    pub fn last_line(&self) -> LastLine<'_> {
        self.lines.last_line()
    }

    /// Keeps what comes after a refused line, as `Lines::keep_after`.
    pub(crate) fn keep_after(&mut self, after: &[u8]) {
        self.lines.keep_after(after);
    }

    /// Returns the last row of what was fed, as it was read, where rows are kept. Where there is none, its contents are
    /// unspecified.
    pub fn row(&self) -> &ReadRow<A>
        ensures last { (text : List ℕ) → KeepsRowsOf C.Channel text self.now
            → IsLastRow (early_rows text) result.now }
    {
        &self.rows.last
    }

    /// Returns the observer of the rows so far, once there is one.
    pub fn observer(&self) -> Option<&Observer<A, C>>
        ensures { option_map (λ o. o.now) result ≡ self.now.observer }
    {
        self.observer.as_ref()
    }

    /// Returns what the rows of the last chunk found, in their order.
    pub fn found(&self) -> &[Finding]
        ensures { result.now ≡ self.now.found.items }
    {
        self.found.as_slice()
    }

    /// Reads the rows of a chunk, and appends what they find.
    #[inline(always)]
    fn feed_rows(&mut self, chunk: &[u8]) -> Result<(), Fault>
        requires { (text : List ℕ) × WasFed C.Channel text self.old }
        ensures represented { IsFedOn C.Channel self.old chunk.now self.new result }
        ensures refused { RefusesEarly C.Channel self.old chunk.now result }
        ensures found { OfFed C.Channel self.old (λ text.
            IsFoundBy result self.old.found.items self.new.found.items
            (found text) (found (text ++ chunk.now))) }
        ensures few { length self.new.found.items ≤ length self.old.found.items + length chunk.now }
        ensures keeps { self.new.keeps_rows ≡ self.old.keeps_rows }
        ensures size { OnOk result (bytes_fed self.new.lines
            ≡ bytes_fed self.old.lines + length chunk.now) }
        ensures limit { OnOk result (bytes_fed self.new.lines ≤ 2 ^ 30) }
        ensures kinds { IfErr result IsTextFault }
    {
        if let Some(observer) = &mut self.observer {
            return observe_chunk(
                chunk,
                &mut self.lines,
                &mut self.rows,
                observer,
                &mut self.found,
            );
        }
        self.begin(chunk)
    }

    /// Reads the rows of a chunk before which there was none, and appends what they find.
    #[inline(never)]
    fn begin(&mut self, chunk: &[u8]) -> Result<(), Fault>
        requires fed { (text : List ℕ) × WasFed C.Channel text self.old }
        requires bare { self.old.observer ≡ None }
        ensures represented { IsFedOn C.Channel self.old chunk.now self.new result }
        ensures refused { RefusesEarly C.Channel self.old chunk.now result }
        ensures found { OfFed C.Channel self.old (λ text.
            IsFoundBy result self.old.found.items self.new.found.items
            (found text) (found (text ++ chunk.now))) }
        ensures few { length self.new.found.items ≤ length self.old.found.items + length chunk.now }
        ensures keeps { self.new.keeps_rows ≡ self.old.keeps_rows }
        ensures size { OnOk result (bytes_fed self.new.lines
            ≡ bytes_fed self.old.lines + length chunk.now) }
        ensures limit { OnOk result (bytes_fed self.new.lines ≤ 2 ^ 30) }
        ensures kinds { IfErr result IsTextFault }
    {
        let rest = match self.lines.next_row(chunk, &mut self.rows.next)? {
            Some(rest) => rest,
            None => return Ok(()),
        };
        let Some(interface) = self.lines.interface() else {
            return Ok(());
        };
        let alloc = *self.found.allocator();
        let mut observer = Observer::new(alloc, &interface, self.keeps_rows);
        let answer = observe_first(
            rest,
            &mut self.lines,
            &mut self.rows,
            &mut observer,
            &mut self.found,
        );
        drop(self.observer.replace(observer));
        answer
    }

    /// Reads the next chunk of the trace text, of any size. Fails with the first line that is faulty however the text
    /// goes on, and when memory is refused; from then on it fails with the same.
    #[inline(always)]
    pub fn feed(&mut self, chunk: &[u8]) -> Result<(), Fault>
        requires fed { IsFed C.interface_of C.number_of C.represents self.old }
        ensures fed { IsFed C.interface_of C.number_of C.represents self.new }
        // Of any trace text that it was fed: it was fed that text with the chunk.
        ensures represented { IsFedOn C.Channel self.old chunk.now self.new result }
        ensures refused { RefusesEarly C.Channel self.old chunk.now result }
        // What the rows of the chunk found comes after what all rows before it did; where memory is refused some first
        // part of it.
        ensures found { OfFed C.Channel self.old (λ text.
            IsFoundBy result [] self.new.found.items (found text) (found (text ++ chunk.now))) }
        ensures few { self.old.refused ≡ None → length self.new.found.items ≤ length chunk.now }
        ensures keeps { self.new.keeps_rows ≡ self.old.keeps_rows }
        ensures size { OnOk result (bytes_fed self.new.lines
            ≡ bytes_fed self.old.lines + length chunk.now) }
        ensures limit { OnOk result (bytes_fed self.new.lines ≤ 2 ^ 30) }
        ensures kinds { IfErr result IsTextFault }
        ensures refuses { IfErr result (λ fault. self.new.refused ≡ Some fault) }
        ensures again { (fault : Fault) → self.old.refused ≡ Some fault
            → (result ≡ Err fault) × (self.new ≡ self.old) }
    {
        if let Some(fault) = self.refused {
            return Err(fault);
        }
        self.found.clear();
        let answer = self.feed_rows(chunk);
        self.refused = answer.err();
        answer
    }

    /// Reads a packet after the first row, and appends what it finds. `false`: the line that writes it has to be fed.
    #[inline(always)]
    fn take_packet(&mut self, number: u32, side: Side, octets: &[u8]) -> Result<bool, Fault>
        requires { (text : List ℕ) × WasFed C.Channel text self.old }
        ensures taken { OfFed C.Channel self.old (λ text. result ≡ Ok true → WasFed C.Channel
            (text ++ row_text (record { number = number; side = side; octets = octets.now; gap = None })) self.new) }
        ensures passed { OfFed C.Channel self.old (λ text. result ≡ Ok false
            → WasFed C.Channel text self.new) }
        ensures found { OfFed C.Channel self.old (λ text. result ≡ Ok true
            → HasFound self.old.found.items self.new.found.items (found text)
            (found (text ++ row_text (record { number = number; side = side; octets = octets.now; gap = None })))) }
        ensures keeps { self.new.keeps_rows ≡ self.old.keeps_rows }
        ensures kinds { IfErr result IsTextFault }
    {
        let Some(observer) = &mut self.observer else {
            return Ok(false);
        };
        if !self.lines.pass_row(number, octets.len()) {
            return Ok(false);
        }
        let row = RowRef {
            number,
            side,
            length: octets.len(),
            octets,
            gap: None,
        };
        let finding = observer.take_row(row)?;
        append_finding(&mut self.found, finding)?;
        self.rows.keep_row(self.keeps_rows, number, side, octets)?;
        Ok(true)
    }

    /// Reads a packet by its number, its side and its octets, as `feed` reads the line that writes it. Returns `false`
    /// where it has read nothing and the line has to be fed: for the first row, a packet without octets, and one whose
    /// line is faulty. Fails only when memory is refused, and once `feed` has failed, with the same.
    #[inline(always)]
    pub fn packet(&mut self, number: u32, side: Side, octets: &[u8]) -> Result<bool, Fault>
        requires fed { IsFed C.interface_of C.number_of C.represents self.old }
        ensures fed { IsFed C.interface_of C.number_of C.represents self.new }
        // Of any trace text that it was fed: it was fed that text with the line, or no more than that text.
        ensures taken { OfFed C.Channel self.old (λ text. result ≡ Ok true → WasFed C.Channel
            (text ++ row_text (record { number = number; side = side; octets = octets.now; gap = None })) self.new) }
        ensures passed { OfFed C.Channel self.old (λ text. result ≡ Ok false
            → WasFed C.Channel text self.new) }
        ensures found { OfFed C.Channel self.old (λ text. result ≡ Ok true
            → HasFound [] self.new.found.items (found text)
            (found (text ++ row_text (record { number = number; side = side; octets = octets.now; gap = None })))) }
        ensures keeps { self.new.keeps_rows ≡ self.old.keeps_rows }
        ensures kinds { IfErr result IsTextFault }
        ensures refuses { IfErr result (λ fault. self.new.refused ≡ Some fault) }
        ensures again { (fault : Fault) → self.old.refused ≡ Some fault
            → (result ≡ Err fault) × (self.new ≡ self.old) }
    {
        if let Some(fault) = self.refused {
            return Err(fault);
        }
        self.found.clear();
        let taken = self.take_packet(number, side, octets);
        self.refused = taken.err();
        taken
    }

    /// The report of the text up to its last LF.
    fn report_so_far(&self) -> Result<Report<A>, Fault>
        requires fed { IsFed C.interface_of C.number_of C.represents self.now }
        ensures report_is { OfFed C.Channel self.now (λ text.
            IfOk result (IsReportOf (ended_part text))) }
        ensures refused { OfFed C.Channel self.now (λ text.
            IfErr result (IsFaultOf (fault (ended_part text)))) }
        ensures missing { OfFed C.Channel self.now (λ text.
            IfErr result (IsMissing (length (ended_lines text) + 1))) }
        ensures kinds { IfErr result IsTextFault }
        ensures again { (fault : Fault) → self.now.refused ≡ Some fault → result ≡ Err fault }
    {
        if let Some(fault) = self.refused {
            return Err(fault);
        }
        let interface = self.lines.ended_header()?;
        match &self.observer {
            Some(observer) => observer.report(),
            None => Observer::<A, C>::new(
                *self.rows.next.octets.allocator(),
                &interface,
                false,
            ).end(),
        }
    }

    /// Writes the report of the text up to its last LF, and returns its last line as numbers; the text goes on. Fails
    /// with `HeaderMissing` at the next line where no header was read, when memory is refused, and where the sink
    /// fails. Once `feed` has failed, it fails with the same.
    pub fn report<K: Sink>(&self, sink: &mut K) -> Result<Summary, Fault>
        requires fed { IsFed C.interface_of C.number_of C.represents self.now }
        // The sink received exactly the report.
        ensures reported { OfFed C.Channel self.now (λ text.
            IfOk result (IsReported (ended_part text) (K.taken sink.old) (K.taken sink.new))) }
        ensures refused { OfFed C.Channel self.now (λ text.
            IfErr result (IsRefusal (ended_part text))) }
        ensures missing { OfFed C.Channel self.now (λ text.
            IfErr result (IsMissing (length (ended_lines text) + 1))) }
        ensures kinds { IfErr result IsReportFault }
        ensures write_failed { result ≡ Err Fault.Write
            → K.failures sink.old < K.failures sink.new }
        ensures unwritten { IfErr result (λ fault. fault ≢ Fault.Write → sink.new ≡ sink.old) }
        ensures taken { OfFed C.Channel self.now (λ text.
            IfErr result
            (IsTaken (K.taken sink.old) (K.taken sink.new) (trace_report (ended_part text)))) }
        ensures again { (fault : Fault) → self.now.refused ≡ Some fault
            → (result ≡ Err fault) × (sink.new ≡ sink.old) }
    {
        let report = self.report_so_far()?;
        write_report(&report, sink)?;
        Ok(report.summary)
    }

    /// Ends the text, as `Lines::end_row` does; the row is put where the next one is read. Once `feed` has failed, it
    /// fails with the same.
    fn end_lines(&mut self) -> Result<TextEnd, Fault>
        requires fed { IsFed C.interface_of C.number_of C.represents self.old }
        ensures ok { OfFed C.Channel self.old (λ text.
            IfOk result (λ end. (fault text ≡ None) × (head text ≡ Some end.interface))) }
        ensures row { OfFed C.Channel self.old (λ text.
            IfOk result (λ end. (last : Row)
            × (rows_of_text text ≡ early_rows text ++ last_row end.has_row last)
            × (end.has_row ≡ true → self.new.rows.next ≡ read_row last))) }
        ensures observer { self.new.observer ≡ self.old.observer }
        ensures running { OnOk result (self.old.refused ≡ None) }
        ensures refused { OfFed C.Channel self.old (λ text. IfErr result (IsFaultOf (fault text))) }
        ensures kinds { IfErr result IsTextFault }
        ensures again { (fault : Fault) → self.old.refused ≡ Some fault → result ≡ Err fault }
    {
        if let Some(fault) = self.refused {
            return Err(fault);
        }
        let alloc = *self.found.allocator();
        let lines = replace(&mut self.lines, Lines::new(alloc));
        lines.end_row(&mut self.rows.next)
    }

    /// Returns the report of the whole text, and the data that was not counted. Fails with the first faulty line, or
    /// when memory is refused.
    pub fn whole(mut self, uncounted: &mut Uncounted) -> Result<Report<A>, Fault>
        requires fed { IsFed C.interface_of C.number_of C.represents self }
        ensures report_is { OfFed C.Channel self (λ text. IfOk result (IsReportOf text)) }
        ensures uncounted { OfFed C.Channel self (λ text.
            OnOk result (uncounted.new ≡ trace_uncounted text)) }
        ensures refused { OfFed C.Channel self (λ text. IfErr result (IsFaultOf (fault text))) }
        ensures kinds { IfErr result IsTextFault }
        ensures again { (fault : Fault) → self.refused ≡ Some fault → result ≡ Err fault }
    {
        let report = self.finish(uncounted);
        drop(self);
        report
    }

    /// Returns the report of the whole text, as `whole` does; the trace has no observer then.
    fn finish(&mut self, uncounted: &mut Uncounted) -> Result<Report<A>, Fault>
        requires fed { IsFed C.interface_of C.number_of C.represents self.old }
        ensures report_is { OfFed C.Channel self.old (λ text. IfOk result (IsReportOf text)) }
        ensures uncounted { OfFed C.Channel self.old (λ text.
            OnOk result (uncounted.new ≡ trace_uncounted text)) }
        ensures refused { OfFed C.Channel self.old (λ text. IfErr result (IsFaultOf (fault text))) }
        ensures kinds { IfErr result IsTextFault }
        ensures again { (fault : Fault) → self.old.refused ≡ Some fault → result ≡ Err fault }
    {
        let TextEnd { interface, has_row } = self.end_lines()?;
        let alloc = *self.found.allocator();
        let observer = or_begun(self.observer.take(), alloc, &interface);
        finish_observing(observer, has_row, &self.rows.next, uncounted)
    }

    /// Writes the report of the text, which has ended and may lack its last LF, and returns its last line as numbers,
    /// and the data that was not counted. Fails with the first faulty line, when memory is refused, and where the sink
    /// fails.
    pub fn end<K: Sink>(self, sink: &mut K, uncounted: &mut Uncounted) -> Result<Summary, Fault>
        requires fed { IsFed C.interface_of C.number_of C.represents self }
        ensures reported { OfFed C.Channel self (λ text.
            IfOk result (IsReported text (K.taken sink.old) (K.taken sink.new))) }
        ensures uncounted { OfFed C.Channel self (λ text.
            OnOk result (uncounted.new ≡ trace_uncounted text)) }
        ensures refused { OfFed C.Channel self (λ text. IfErr result (IsRefusal text)) }
        ensures kinds { IfErr result IsReportFault }
        ensures write_failed { result ≡ Err Fault.Write
            → K.failures sink.old < K.failures sink.new }
        ensures unwritten { IfErr result (λ fault. fault ≢ Fault.Write → sink.new ≡ sink.old) }
        ensures taken { OfFed C.Channel self (λ text.
            IfErr result (IsTaken (K.taken sink.old) (K.taken sink.new) (trace_report text))) }
        ensures again { (fault : Fault) → self.refused ≡ Some fault
            → (result ≡ Err fault) × (sink.new ≡ sink.old) }
    {
        let report = self.whole(uncounted)?;
        write_report(&report, sink)?;
        Ok(report.summary)
    }
}
