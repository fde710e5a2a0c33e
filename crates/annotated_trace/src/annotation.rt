//! A line of a trace as it was, and comments that say what it did.

ghost use Rattle.annotated_trace.specs.Annotation.{IsAnnotatedLine, IsUnmarked};

use crate::commenting::{CommentRoom, append_comments};
use crate::describer::Describer;
use crate::page::ClosingPage;
use crate::printer::Printer;
use crate::rows::Rows;
use line_model::fault::Fault;
use line_model::lending::LentSink;
use line_model::report::Report;
use std::alloc::{AllocError, Allocator};
use trace_text::trace_observer::TraceObserver;

/// Prints each line as it was, with comments after it, and comments after the last line.
#[derive(Drop)]
pub struct Annotation<A: Allocator, D: Drop> {
    describer: D,
    room: CommentRoom<A>,
}

impl<A: Allocator + Copy, D: Drop> Annotation<A, D> {
    ghost use Rattle.std.specs.Prelude.{◌≡◌};

    /// Makes the printer with the words of a describer. Allocates no memory.
    pub fn new(alloc: A, describer: D) -> Self
        ensures { result.describer ≡ describer }
    {
        Annotation {
            describer,
            room: CommentRoom::new(alloc),
        }
    }
}

impl<A: Allocator + Copy, O: TraceObserver<A>, D: Describer<A, O>> Printer<A, O>
    for Annotation<A, D> {
    ghost printed = { λ annotation. D.described annotation.describer };

    ghost rows = { λ annotation. D.rows annotation.describer };

    ghost form = { IsAnnotatedLine };

    ghost closing = { λ choice lines report bytes. IsUnmarked bytes };

    fn rows(&self) -> Rows {
        self.describer.rows()
    }

    fn begin(&mut self) {
        self.describer.begin()
    }

    fn print(&mut self, trace: &O, line: &[u8], out: &mut Vec<u8, A>) -> Result<(), AllocError> {
        out.extend_from_slice(line)?;
        append_comments(trace, line, &mut self.describer, &mut self.room, out)
    }

    fn close<S: LentSink>(&mut self, report: &Report<A>, sink: S) -> (S, Result<(), Fault>) {
        let mut page = ClosingPage::new(sink);
        self.describer.close(report, &mut page);
        page.finish()
    }
}
