//! A trace that is printed line by line as it grows.

ghost use Rattle.trace_text.proofs.DecidedLemmas.{all_sound};
ghost use Rattle.trace_text.proofs.SourceLemmas.{few_bytes};
ghost use Rattle.std.specs.Prelude.{◌≡◌, ◌≢◌, ℕ, ◌+◌, ◌<◌, ◌≤◌, ◌^◌, ◌++◌, ◌∷◌, [], List, Option, Err, IfErr, IfOk, OnOk};
ghost use Rattle.line_model.specs.text.Text.{Line, begun_line, early, ended_lines};
ghost use Rattle.line_model.specs.declared.fault.Fault.TheVariants.{Memory};
ghost use Rattle.trace_text.specs.Represents.{IsFaultOf, IsTextFault};
ghost use Rattle.trace_text.specs.ObserverAnswers.{found_in};
ghost use Rattle.annotated_trace.specs.Annotation.{IsOneLine};
ghost use Rattle.annotated_trace.specs.Printed.{HasAppended, IsPrintOf};
ghost use Rattle.annotated_trace.specs.Printers.{HasFirstPrint, HasFirstPrintOf, HasFollowed, HasPrintBefore, HasPrinted, IsCloseRefusal, IsEndRefusal, IsFed, IsFedOn, IsPrinted, IsPrinterFault, IsRefusalOf, IsStoppedAt, OfFed, OfPrinted, PrintOf, WasFed, is_line};
ghost use Rattle.annotated_trace.specs.Printing.{HasPassed, HasWritten, IsPrintingFault, IsRefusedAfter, StopsPrinting};
ghost use Rattle.annotated_trace.specs.declared.rows.Rows.{Rows as AnyRows};

use crate::closing::send_closing;
use crate::holding::{send_held, send_much};
use crate::printer::Printer;
use line_model::device::{LastLine, Sink, Source};
use line_model::fault::Fault;
use line_model::totals::Summary;
use std::alloc::{AllocError, Allocator};
use trace_text::consumer::{Consumer, read_to_end};
use trace_text::cuts::split_at_byte;
use trace_text::trace_observer::TraceObserver;

/// Whether a fault is that of a line.
fn is_line(fault: Fault) -> bool
    ensures { result ≡ is_line fault }
{
    match fault {
        Fault::Trace(_, _) => true,
        _ => false,
    }
}

/// A trace that grows, and is printed: each line that an LF has ended becomes what the printer makes of it.
///
/// ```text
///  fed so far:  X25 1 MOD 8 ..\n1 T 10010B0000\n2 N 1001|
///               `--------- printed -----------'`-begun-'
/// ```
///
/// Drop it after a refusal.
#[derive(Drop)]
pub struct TracePrinter<A: Allocator, O: Drop, P: Drop> {
    trace: O,
    printer: P,
    /// What comes after the last LF.
    begun: Vec<u8, A>,
    /// What was printed and not yet sent to the sink.
    held: Vec<u8, A>,
}

impl<A: Allocator + Copy, O: TraceObserver<A>, P: Printer<A, O>> TracePrinter<A, O, P> {
    /// Returns a printer of a trace of which nothing was fed. Allocates no memory.
    pub fn new(alloc: A, trace: O, mut printer: P) -> Self
        requires fresh { O.represents trace [] }
        ensures fed { WasFed (HasFollowed O.TraceObserver P.Printer (P.rows printer)) result [] }
        ensures held { result.held.items ≡ [] }
    {
        printer.begin();
        TracePrinter {
            trace,
            printer,
            begun: Vec::new(alloc),
            held: Vec::new(alloc),
        }
    }

    /// Returns the trace.
    pub fn trace(&self) -> &O
        ensures { result.now ≡ self.now.trace }
    {
        &self.trace
    }

    /// Holds what the last line of the trace becomes, by its end with the LF.
    #[inline(always)]
    fn print_line(&mut self, end: &[u8]) -> Result<(), AllocError>
        ensures form { (before : List Line) (l : Line) (text : List ℕ)
            → P.printed self.old.printer before → O.represents self.old.trace text
            → ended_lines text ≡ before ++ l ∷ []
            → found_in (before ++ l ∷ []) ≡ found_in before ++ O.last_found self.old.trace
            → self.old.begun.items ++ end.now ≡ l ++ 10 ∷ [] → OnOk result
            (HasAppended (P.form (P.rows self.old.printer) before l)
            self.old.held.items self.new.held.items) }
        ensures printed { (before : List Line) (l : Line) (text : List ℕ)
            → P.printed self.old.printer before → O.represents self.old.trace text
            → ended_lines text ≡ before ++ l ∷ []
            → found_in (before ++ l ∷ []) ≡ found_in before ++ O.last_found self.old.trace
            → self.old.begun.items ++ end.now ≡ l ++ 10 ∷ []
            → OnOk result (P.printed self.new.printer (before ++ l ∷ [])) }
        ensures rows { P.rows self.new.printer ≡ P.rows self.old.printer }
        ensures trace { self.new.trace ≡ self.old.trace }
        ensures begun { OnOk result (self.new.begun.items ≡ []) }
    {
        if self.begun.is_empty() {
            return self.printer.print(&self.trace, end, &mut self.held);
        }
        self.begun.extend_from_slice(end)?;
        let line = self.begun.as_slice();
        self.printer.print(&self.trace, line, &mut self.held)?;
        self.begun.clear();
        Ok(())
    }

    /// Reads the end of a line with its LF, and holds what the line becomes. Of a refused line, what comes after it is kept.
    #[inline(always)]
    fn take_line(&mut self, end: &[u8], after: &[u8]) -> Result<(), Fault>
        requires { IsFed O.TraceObserver P.Printer self.old }
        ensures fed { (choice : AnyRows) (text front : List ℕ)
            → WasFed (HasFollowed O.TraceObserver P.Printer choice) self.old text
            → end.now ≡ front ++ 10 ∷ [] → IsOneLine front
            → OnOk result (WasFed (HasFollowed O.TraceObserver P.Printer choice) self.new
            (text ++ end.now)) }
        ensures held { (choice : AnyRows) (gone text front sent : List ℕ) → WasFed
            (HasFollowed O.TraceObserver P.Printer choice) self.old text → end.now ≡ front ++ 10 ∷ []
            → IsOneLine front → PrintOf P.Printer choice gone (ended_lines text)
            (sent ++ self.old.held.items) → OnOk result (PrintOf P.Printer choice gone
            (ended_lines (text ++ end.now)) (sent ++ self.new.held.items)) }
        ensures refused { OfFed O.TraceObserver P.Printer self.old (λ choice text.
            IfErr result (IsFaultOf (early (text ++ end.now)))) }
        ensures not_held { IfErr result (λ fault. fault ≢ Memory
            → self.new.held.items ≡ self.old.held.items) }
        ensures kinds { IfErr result IsTextFault }
    {
        if let Err(fault) = self.trace.feed(end) {
            self.trace.keep_after(after);
            return Err(fault);
        }
        self.print_line(end)?;
        Ok(())
    }

    /// Reads bytes without an LF.
    fn begin(&mut self, more: &[u8]) -> Result<(), Fault>
        requires { IsFed O.TraceObserver P.Printer self.old }
        ensures fed { (choice : AnyRows) (text : List ℕ)
            → WasFed (HasFollowed O.TraceObserver P.Printer choice) self.old text
            → IsOneLine more.now → OnOk result (WasFed (HasFollowed O.TraceObserver P.Printer choice)
            self.new (text ++ more.now)) }
        ensures refused { OfFed O.TraceObserver P.Printer self.old (λ choice text.
            IfErr result (IsFaultOf (early (text ++ more.now)))) }
        ensures held { self.new.held.items ≡ self.old.held.items }
        ensures kinds { IfErr result IsTextFault }
    {
        self.trace.feed(more)?;
        self.begun.extend_from_slice(more)?;
        Ok(())
    }

    /// Reads a chunk, holds what its lines become, and sends what is held to the sink once it is 2^18 bytes.
    fn take_lines<K: Sink>(&mut self, chunk: &[u8], sink: &mut K) -> Result<(), Fault>
        requires { IsFed O.TraceObserver P.Printer self.old }
        ensures fed { IsFedOn O.TraceObserver P.Printer self.old chunk.now self.new result }
        ensures printed { OfPrinted O.TraceObserver P.Printer self.old (K.taken sink.old)
            (λ choice gone text before.
            OnOk result (HasPrinted (PrintOf P.Printer choice gone) before (K.taken sink.new)
            self.new.held.items (ended_lines (text ++ chunk.now)))) }
        ensures refused { OfFed O.TraceObserver P.Printer self.old (λ choice text.
            IfErr result (IsRefusalOf (early (text ++ chunk.now)))) }
        ensures stopped { OfPrinted O.TraceObserver P.Printer self.old (K.taken sink.old)
            (λ choice gone text before.
            IfErr result (IsStoppedAt (PrintOf P.Printer choice gone) before (K.taken sink.new)
            self.new.held.items (ended_lines (text ++ chunk.now)))) }
        ensures kinds { IfErr result IsPrinterFault }
        ensures rising { K.failures sink.old ≤ K.failures sink.new }
        ensures write_failed { result ≡ Err Fault.Write
            → K.failures sink.old < K.failures sink.new }
    {
        let mut rest = chunk;
        while let Some((front, back)) = split_at_byte(rest, b'\n') {
            self.take_line(&rest[..front.len() + 1], back)?;
            send_much(&mut self.held, sink)?;
            rest = back;
        }
        self.begin(rest)
    }

    /// Reads the next chunk of the text, of any size, and writes what each line becomes that an LF of it ends. Fails
    /// with the first line that is faulty however the text goes on, after it has written what the lines before become;
    /// where the sink fails; and when memory is refused.
    pub fn feed<K: Sink>(&mut self, chunk: &[u8], sink: &mut K) -> Result<(), Fault>
        requires fed { IsFed O.TraceObserver P.Printer self.old }
        // Of any text that it was fed: it was fed that text with the chunk.
        ensures fed { IsFedOn O.TraceObserver P.Printer self.old chunk.now self.new result }
        // A sink that has the print of the lines that ended has that of the text with the chunk, and nothing is held.
        ensures printed { OfPrinted O.TraceObserver P.Printer self.old (K.taken sink.old)
            (λ choice gone text before.
            OnOk result (HasPrinted (PrintOf P.Printer choice gone) before (K.taken sink.new) []
            (ended_lines (text ++ chunk.now)))) }
        ensures none_held { OnOk result (self.new.held.items ≡ []) }
        ensures refused { OfFed O.TraceObserver P.Printer self.old (λ choice text.
            IfErr result (IsRefusalOf (early (text ++ chunk.now)))) }
        // At a refusal it has a first part, at a faulty line the print of all lines before it, if it did not fail.
        ensures taken { OfPrinted O.TraceObserver P.Printer self.old (K.taken sink.old)
            (λ choice gone text before.
            IfErr result (λ fault. HasFirstPrint (PrintOf P.Printer choice gone) before
            (K.taken sink.new) (ended_lines (text ++ chunk.now)))) }
        ensures at_line { OfPrinted O.TraceObserver P.Printer self.old (K.taken sink.old)
            (λ choice gone text before.
            K.failures sink.new ≡ K.failures sink.old → IfErr result (HasPrintBefore
            (PrintOf P.Printer choice gone) before (K.taken sink.new)
            (ended_lines (text ++ chunk.now)))) }
        ensures kinds { IfErr result IsPrinterFault }
        ensures rising { K.failures sink.old ≤ K.failures sink.new }
        ensures write_failed { result ≡ Err Fault.Write
            → K.failures sink.old < K.failures sink.new }
    {
        match self.take_lines(chunk, sink) {
            Ok(()) => send_held(&mut self.held, sink),
            Err(fault) => {
                if !is_line(fault) {
                    return Err(fault);
                }
                match send_held(&mut self.held, sink) {
                    Ok(()) => Err(fault),
                    Err(_) => Err(fault),
                }
            }
        }
    }

    /// Writes what comes after a text that an LF ended.
    fn close<K: Sink>(self, sink: &mut K) -> Result<Summary, Fault>
        requires { (choice : AnyRows) × (text : List ℕ)
            × WasFed (HasFollowed O.TraceObserver P.Printer choice) self text × (begun_line text ≡ []) }
        ensures printed { (choice : AnyRows) (gone text : List ℕ) (before : Option (List ℕ)) → WasFed
            (HasFollowed O.TraceObserver P.Printer choice) self text → begun_line text ≡ [] → HasPrinted
            (PrintOf P.Printer choice gone) before (K.taken sink.old) self.held.items (ended_lines text)
            → IfOk result (IsPrinted (PrintOf P.Printer choice gone) (P.closing choice) text before
            (K.taken sink.new)) }
        ensures refused { OfFed O.TraceObserver P.Printer self (λ choice text.
            IfErr result (IsCloseRefusal text)) }
        ensures taken { (choice : AnyRows) (gone text : List ℕ) (before : Option (List ℕ)) → WasFed
            (HasFollowed O.TraceObserver P.Printer choice) self text → begun_line text ≡ [] → HasPrinted
            (PrintOf P.Printer choice gone) before (K.taken sink.old) self.held.items (ended_lines text)
            → result ≡ Err Fault.Write → HasFirstPrintOf (PrintOf P.Printer choice gone)
            (P.closing choice) text before (K.taken sink.new) }
        ensures not_written { IfErr result (λ fault. fault ≢ Fault.Write → sink.new ≡ sink.old) }
        ensures kinds { IfErr result IsPrinterFault }
        ensures write_failed { result ≡ Err Fault.Write
            → K.failures sink.old < K.failures sink.new }
    {
        let TracePrinter {
            trace,
            mut printer,
            mut held,
            ..
        } = self;
        let report = trace.whole()?;
        send_closing(&report, &mut printer, &mut held, sink)
    }

    /// Ends the text: writes what its last line becomes, with an LF if it lacks one, and what comes after all lines.
    /// Returns the last line of the report as numbers. Fails with the first faulty line, when memory is refused, where
    /// the sink fails, and where the added LF would be byte 2^30 + 1.
    pub fn end<K: Sink>(mut self, sink: &mut K) -> Result<Summary, Fault>
        requires fed { IsFed O.TraceObserver P.Printer self }
        // A sink that has the print of the lines that ended has that of the text, and what comes after it.
        ensures printed { OfPrinted O.TraceObserver P.Printer self (K.taken sink.old)
            (λ choice gone text before.
            IfOk result (IsPrinted (PrintOf P.Printer choice gone) (P.closing choice) text before
            (K.taken sink.new))) }
        ensures refused { OfFed O.TraceObserver P.Printer self (λ choice text.
            IfErr result (IsEndRefusal text)) }
        ensures taken { OfPrinted O.TraceObserver P.Printer self (K.taken sink.old) (λ choice gone text before.
            result ≡ Err Fault.Write → HasFirstPrintOf (PrintOf P.Printer choice gone) (P.closing choice)
            text before (K.taken sink.new)) }
        ensures not_written { IfErr result (λ fault. fault ≢ Fault.Write → sink.new ≡ sink.old) }
        ensures kinds { IfErr result IsPrinterFault }
        ensures write_failed { result ≡ Err Fault.Write
            → K.failures sink.old < K.failures sink.new }
    {
        if self.begun.is_empty() {
            return self.close(sink);
        }
        self.take_line(b"\n", b"")?;
        self.close(sink)
    }
}

impl<A: Allocator + Copy, O: TraceObserver<A>, P: Printer<A, O>, K: Sink> Consumer<K>
    for TracePrinter<A, O, P> {
    ghost was_fed = { λ first start now sink text. HasWritten
        (HasFollowed O.TraceObserver P.Printer (P.rows first.printer)) O.size
        (IsPrintOf (P.form (P.rows first.printer)) []) (K.taken start) (K.taken sink)
        (K.failures start) (K.failures sink) text now };

    ghost refused = { λ first start now sink text last returned. IsRefusedAfter
        (IsPrintOf (P.form (P.rows first.printer)) []) (K.taken start) (K.taken sink)
        (K.failures start) (K.failures sink) text last returned };

    ghost expects = { λ text. Unit {0} };

    ghost lag = { 0 };

    ghost size = { λ now. O.size now.trace };

    fn feed(&mut self, chunk: &[u8], sink: &mut K) -> Result<(), Fault> {
        TracePrinter::feed(self, chunk, sink)
    }

    fn last_line(&self) -> LastLine<'_> {
        self.trace.last_line()
    }

    ghost sound = { λ first start now sink text fed. all_sound 0 text fed.sound };

    ghost sized = { λ first start now sink text fed. fed.sized };

    ghost few = { λ first start now sink text fed. few_bytes text fed.sound };
}

/// Prints the trace of a source, line by line, and what comes after the last line. Returns the last line of its report
/// as numbers. Fails with the first faulty line, where the source or the sink fails, when memory is refused, and as
/// `TracePrinter::end` does. The sink has what all lines before a faulty one become, what all lines become that an LF
/// ended where the source failed, and otherwise a first part. The clauses are about the end of the call; those of
/// `TracePrinter::feed` say what is written after each read.
pub fn print_trace<A: Allocator + Copy, O: TraceObserver<A>, P: Printer<A, O>, S: Source, K: Sink>(
    alloc: A,
    trace: O,
    printer: P,
    source: &mut S,
    sink: &mut K,
) -> Result<Summary, Fault>
    requires fresh { O.represents trace [] }
    // The source gave a text without a fault, and the sink accepted the print of its lines and what comes after them.
    ensures printed { IfOk result (HasPassed (IsPrinted (IsPrintOf (P.form (P.rows printer)) [])
        (P.closing (P.rows printer))) (S.left source.old) (S.left source.new)
        (S.before source.new) (K.taken sink.old) (K.taken sink.new)) }
    // A refusal is by the bytes that were read, and those before the last call of the source show no faulty line. The
    // sink has the print of all lines before the faulty one, if it did not fail; of all that ended where the source
    // failed, or memory was refused at the end; otherwise a first part.
    ensures stopped { IfErr result (StopsPrinting (IsPrintOf (P.form (P.rows printer)) [])
        (HasFirstPrintOf (IsPrintOf (P.form (P.rows printer)) [])
        (P.closing (P.rows printer))) (S.left source.old) (S.left source.new)
        (S.before source.new) (K.taken sink.old) (K.taken sink.new) (K.failures sink.new
        ≡ K.failures sink.old)) }
    ensures kinds { IfErr result IsPrintingFault }
    ensures read_failed { result ≡ Err Fault.Read → S.failures source.old < S.failures source.new }
    ensures write_failed { result ≡ Err Fault.Write → K.failures sink.old < K.failures sink.new }
    // The source is asked at least once.
    ensures called { S.calls source.old < S.calls source.new }
    ensures asked { S.calls source.new ≤ S.calls source.old + (2 ^ 30 + 1) }
{
    let mut printing = TracePrinter::new(alloc, trace, printer);
    read_to_end(source, &mut printing, sink)?;
    printing.end(sink)
}
