//! The words that an annotated trace has for its rows.

use crate::notes::{NoteWords, Notes};
use crate::page::ClosingPage;
use crate::rows::Rows;
use line_model::finding::Finding;
use line_model::lending::LentSink;
use line_model::report::Report;
use std::alloc::{AllocError, Allocator};
use trace_text::trace_observer::TraceObserver;

/// Finds the words of an annotated trace, and knows which rows are described. Its words are free: `Notes`, `NoteWords`
/// and `ClosingPage` keep the form. `O` is the observed trace, such as `Live<A, C>`.
pub trait Describer<A: Allocator, O: TraceObserver<A>>: Drop {
    ghost use Rattle.std.specs.Prelude.{◌≡◌, ℕ, ◌++◌, ◌∷◌, [], List, IfOk, OnOk, true};
    ghost use Rattle.line_model.specs.text.Text.{Line, ended_lines};
    ghost use Rattle.annotated_trace.specs.Marking.{IsPickedRightly};
    ghost use Rattle.annotated_trace.specs.Wording.{IsSaid};
    ghost use Rattle.annotated_trace.specs.declared.rows.Rows.{Rows as AnyRows};

    /// It has described these lines.
    ghost described: { Self → List Line → Type 0 };

    /// The rows that are described.
    ghost rows: { Self → AnyRows };

    /// The rows that are described.
    fn rows(&self) -> Rows
        ensures { result ≡ rows self.now };

    /// Begins a trace of which no line was described.
    fn begin(&mut self)
        ensures described { described self.new [] }
        ensures rows { rows self.new ≡ rows self.old };

    /// Writes what the last line of the trace did, and returns whether the line is a row that is described; for such a
    /// row it writes at least one comment. What it writes for any other line is dropped. `line` is its bytes with the
    /// LF. Fails only when memory is refused.
    fn describe(&mut self, trace: &O, line: &[u8], notes: &mut Notes<A>) -> Result<bool, AllocError>
        ensures picked { (before : List Line) (l : Line) (text : List ℕ)
            → described self.old before → O.represents trace.now text
            → ended_lines text ≡ before ++ l ∷ []
            → IfOk result (IsPickedRightly (rows self.old) before l) }
        ensures said { IfOk result (λ picked. picked ≡ true → IsSaid notes.new) }
        ensures described { (before : List Line) (l : Line) (text : List ℕ)
            → described self.old before → O.represents trace.now text
            → ended_lines text ≡ before ++ l ∷ []
            → OnOk result (described self.new (before ++ l ∷ [])) }
        ensures rows { rows self.new ≡ rows self.old };

    /// Writes what is wrong with the row of a finding of the last line, in words that come after its mark. Fails only
    /// when memory is refused.
    fn explain(
        &mut self,
        trace: &O,
        finding: &Finding,
        words: &mut NoteWords<A>,
    ) -> Result<(), AllocError>
        ensures described { (lines : List Line) → described self.old lines
            → described self.new lines }
        ensures rows { rows self.new ≡ rows self.old };

    /// Writes what comes after the last line of a text that has ended: its report in words. The words go to a sink at
    /// once, so this never fails.
    fn close<S: LentSink>(&mut self, report: &Report<A>, page: &mut ClosingPage<S>);
}
