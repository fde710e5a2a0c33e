//! A trace that is fed in chunks, and what its rows found.

use line_model::device::LastLine;
use line_model::fault::Fault;
use line_model::finding::Finding;
use line_model::report::Report;
use std::alloc::Allocator;

/// A trace that is fed in chunks of any size. It returns what the rows of a chunk found, and at the end the report.
pub trait TraceObserver<A: Allocator>: Drop {
    ghost use Rattle.std.specs.Prelude.{◌≡◌, ℕ, ◌++◌, List, None, IfErr, IfOk, OnOk, length};
    ghost use Rattle.line_model.specs.text.Text.{early, ended_lines, fault};
    ghost use Rattle.line_model.specs.declared.finding.Finding.{Finding as AnyFinding};
    ghost use Rattle.trace_text.specs.ObserverAnswers.{IsReportOf, found_in};
    ghost use Rattle.trace_text.specs.Represents.{IsFaultOf, IsTextFault};

    /// It was fed this text, and refused none of it.
    ghost represents: { Self → List ℕ → Type 0 };

    /// What the rows of the last chunk found.
    ghost last_found: { Self → List AnyFinding };

    /// How many bytes it was fed.
    ghost size: { Self → ℕ };

    /// Reads the next chunk of the text. Fails with the first line that is faulty however the text goes on, or when
    /// memory is refused.
    fn feed(&mut self, chunk: &[u8]) -> Result<(), Fault>
        requires fed { (text : List ℕ) × represents self.old text }
        ensures represented { (text : List ℕ) → represents self.old text
            → OnOk result (represents self.new (text ++ chunk.now)) }
        ensures refused { (text : List ℕ) → represents self.old text
            → IfErr result (IsFaultOf (early (text ++ chunk.now))) }
        ensures found { (text : List ℕ) → represents self.old text
            → OnOk result (found_in (ended_lines (text ++ chunk.now)) ≡ found_in (ended_lines text)
            ++ last_found self.new) }
        ensures kinds { IfErr result IsTextFault };

    /// Returns what the rows of the last chunk found, in their order.
    fn found(&self) -> &[Finding]
        ensures { result.now ≡ last_found self.now };

    /// Returns the last line that it read, as `Lines::last_line`.
    fn last_line(&self) -> LastLine<'_>;

    /// Keeps what comes after a refused line, as `Lines::keep_after`.
    fn keep_after(&mut self, after: &[u8]);

    /// Ends the text and returns its report. Fails with the first faulty line, or when memory is refused.
    fn whole(self) -> Result<Report<A>, Fault>
        requires fed { (text : List ℕ) × represents self text }
        ensures report_is { (text : List ℕ) → represents self text → IfOk result (IsReportOf text) }
        ensures refused { (text : List ℕ) → represents self text
            → IfErr result (IsFaultOf (fault text)) }
        ensures kinds { IfErr result IsTextFault };

    /// No line of what it was fed is known to be faulty.
    ghost sound: { (observer : Self) (text : List ℕ) → represents observer text → early text ≡ None };

    /// It counts the bytes of the text.
    ghost sized: { (observer : Self) (text : List ℕ) → represents observer text → size observer ≡ length text };
}
