//! The comments after a line.

ghost use Rattle.std.specs.Prelude.{◌≡◌, ℕ, ◌++◌, ◌∷◌, [], List, OnOk};
ghost use Rattle.line_model.specs.text.Text.{Line, ended_lines};
ghost use Rattle.annotated_trace.specs.Marking.{HasMarksOf, HasRightComments};

use crate::describer::Describer;
use crate::marks::append_mark;
use crate::notes::{NoteWords, Notes};
use crate::rows::Rows;
use std::alloc::{AllocError, Allocator};
use trace_text::trace_observer::TraceObserver;

/// Room for the words of comments, which is used again.
#[derive(Drop)]
pub struct CommentRoom<A: Allocator> {
    notes: Notes<A>,
    words: NoteWords<A>,
}

impl<A: Allocator + Copy> CommentRoom<A> {
    /// Returns room without words. Allocates no memory.
    pub fn new(alloc: A) -> Self {
        CommentRoom {
            notes: Notes::new(alloc),
            words: NoteWords::new(alloc),
        }
    }
}

/// Appends a mark for each finding of the last line.
fn append_marks<A: Allocator + Copy, O: TraceObserver<A>, D: Describer<A, O>>(
    trace: &O,
    describer: &mut D,
    words: &mut NoteWords<A>,
    out: &mut Vec<u8, A>,
) -> Result<(), AllocError>
    ensures marks { OnOk result (HasMarksOf (O.last_found trace.now) out.old.items out.new.items) }
    ensures described { (lines : List Line) → D.described describer.old lines
        → D.described describer.new lines }
    ensures rows { D.rows describer.new ≡ D.rows describer.old }
{
    let found = trace.found();
    for finding in found {
        words.clear();
        describer.explain(trace, finding, words)?;
        append_mark(finding, words, out)?;
    }
    Ok(())
}

/// Appends the comments after the last line; `line` is its bytes with the LF. Fails only when memory is refused; a
/// first part may have been appended then.
pub fn append_comments<A: Allocator + Copy, O: TraceObserver<A>, D: Describer<A, O>>(
    trace: &O,
    line: &[u8],
    describer: &mut D,
    room: &mut CommentRoom<A>,
    out: &mut Vec<u8, A>,
) -> Result<(), AllocError>
    ensures comments { (before : List Line) (l : Line) (text : List ℕ)
        → D.described describer.old before → O.represents trace.now text
        → ended_lines text ≡ before ++ l ∷ []
        → OnOk result (HasRightComments (D.rows describer.old) before l
        (O.last_found trace.now) out.old.items out.new.items) }
    ensures described { (before : List Line) (l : Line) (text : List ℕ)
        → D.described describer.old before → O.represents trace.now text
        → ended_lines text ≡ before ++ l ∷ []
        → OnOk result (D.described describer.new (before ++ l ∷ [])) }
    ensures rows { D.rows describer.new ≡ D.rows describer.old }
{
    room.notes.clear();
    let choice = describer.rows();
    let picked = describer.describe(trace, line, &mut room.notes)?;
    match (picked, choice) {
        (true, _) => {
            room.notes.append_to(out)?;
            append_marks(trace, describer, &mut room.words, out)
        }
        (false, Rows::All) => append_marks(trace, describer, &mut room.words, out),
        (false, Rows::Chosen { .. }) => Ok(()),
    }
}
