//! What is printed of a trace, line by line.

use crate::rows::Rows;
use line_model::fault::Fault;
use line_model::lending::LentSink;
use line_model::report::Report;
use std::alloc::{AllocError, Allocator};
use trace_text::trace_observer::TraceObserver;

/// Prints the lines of a trace, and what comes after the last one. `O` is the observed trace, such as `Live<A, C>`.
pub trait Printer<A: Allocator, O: TraceObserver<A>>: Drop {
    ghost use Rattle.std.specs.Prelude.{◌≡◌, ◌<◌, ℕ, ◌++◌, ◌∷◌, [], List, IfErr, OnErr, OnOk};
    ghost use Rattle.line_model.specs.basics.Records.{Report as AnyReport};
    ghost use Rattle.line_model.specs.text.Text.{Line, ended_lines, lines_of};
    ghost use Rattle.trace_text.specs.ObserverAnswers.{IsReportOf, found_in};
    ghost use Rattle.annotated_trace.specs.Printed.{HasAppended, HasTaken, HasTakenFirst};
    ghost use Rattle.annotated_trace.specs.declared.rows.Rows.{Rows as AnyRows};

    /// It has printed these lines.
    ghost printed: { Self → List Line → Type 0 };

    /// The rows that it prints.
    ghost rows: { Self → AnyRows };

    /// The bytes that a line becomes, after the lines before it.
    ghost form: { AnyRows → List Line → Line → List ℕ → Type 0 };

    /// The bytes after these lines, by their report.
    ghost closing: { AnyRows → List Line → AnyReport → List ℕ → Type 0 };

    /// The rows that it prints.
    fn rows(&self) -> Rows
        ensures { result ≡ rows self.now };

    /// Begins a trace of which no line was printed.
    fn begin(&mut self)
        ensures printed { printed self.new [] }
        ensures rows { rows self.new ≡ rows self.old };

    /// Appends what the last line of the trace becomes. `line` is its bytes with the LF. Fails only when memory is
    /// refused.
    fn print(&mut self, trace: &O, line: &[u8], out: &mut Vec<u8, A>) -> Result<(), AllocError>
        ensures form { (before : List Line) (l : Line) (text : List ℕ)
            → printed self.old before → O.represents trace.now text
            → ended_lines text ≡ before ++ l ∷ []
            → found_in (before ++ l ∷ []) ≡ found_in before ++ O.last_found trace.now
            → line.now ≡ l ++ 10 ∷ [] → OnOk result
            (HasAppended (form (rows self.old) before l) out.old.items out.new.items) }
        ensures printed { (before : List Line) (l : Line) (text : List ℕ)
            → printed self.old before → O.represents trace.now text
            → ended_lines text ≡ before ++ l ∷ []
            → found_in (before ++ l ∷ []) ≡ found_in before ++ O.last_found trace.now
            → line.now ≡ l ++ 10 ∷ [] → OnOk result (printed self.new (before ++ l ∷ [])) }
        ensures rows { rows self.new ≡ rows self.old };

    /// Writes to a lent sink what comes after the last line. Fails where the sink fails, which accepted a first part.
    fn close<S: LentSink>(&mut self, report: &Report<A>, sink: S) -> (S, Result<(), Fault>)
        requires { (S.taken sink, S.failures sink) ≡ S.before }
        ensures ok { (text : List ℕ) → printed self.old (lines_of text) → IsReportOf text report.now
            → OnOk result.1 (HasTaken (closing (rows self.old) (lines_of text) report.now) S.before.0
            (S.taken result.0)) }
        ensures part { (text : List ℕ) → printed self.old (lines_of text) → IsReportOf text report.now
            → OnErr result.1 (HasTakenFirst (closing (rows self.old) (lines_of text) report.now)
            S.before.0 (S.taken result.0)) }
        ensures cause { OnErr result.1 (S.before.1 < S.failures result.0) }
        ensures write { IfErr result.1 (λ fault. fault ≡ Fault.Write) };
}
