//! The describer of an annotated trace.

use crate::chosen::Chosen;
use crate::closing;
use crate::course::Course;
use crate::faults::{Before, fault};
use crate::origins::Origins;
use crate::prose::ProseWriter;
use crate::row_words::row;
use crate::times::Recorded;
use annotated_trace::describer::Describer;
use annotated_trace::notes::{NoteWords, Notes};
use annotated_trace::page::ClosingPage;
use annotated_trace::rows::Rows;
use channel_run::run::Channel;
use line_model::finding::Finding;
use line_model::lending::LentSink;
use line_model::report::Report;
use live_report::live::Live;
use live_report::uncounted::Uncounted;
use std::alloc::{AllocError, Allocator};

/// What is kept of the lines before.
#[derive(Drop)]
struct Past<A: Allocator> {
    origins: Origins<A>,
    course: Course<A>,
    /// What was known before the last row with a finding.
    before: Option<Before>,
    uncounted: Uncounted,
    /// The frame of the next row, where a comment says it.
    frame: Option<u64>,
}

impl<A: Allocator + Copy> Past<A> {
    /// Returns the value before the first row. Allocates no memory.
    fn new(alloc: A) -> Self {
        Past {
            origins: Origins::new(alloc),
            course: Course::new(alloc),
            before: None,
            uncounted: Uncounted::none(),
            frame: None,
        }
    }

    /// Reads a line that writes no row: a comment may say the frame of the next one.
    fn take_comment(&mut self, line: &[u8]) {
        if let Some(recorded) = Recorded::of_comment(line) {
            self.frame = recorded.frame;
        }
    }

    /// Describes the last row of a trace.
    fn say_row<C: Channel<A>>(
        &mut self,
        trace: &Live<A, C>,
        notes: &mut Notes<A>,
    ) -> Result<(), AllocError> {
        let frame = self.frame.take();
        let (Some(observer), Some(interface)) = (trace.observer(), trace.interface()) else {
            return Ok(());
        };
        let read = trace.row();
        let Some(last) = observer.last_row() else {
            return Ok(());
        };
        let earlier = self
            .origins
            .take(last, observer.events(), observer.epoch())?;
        self.course.take(&interface, read.octets.as_slice(), last, observer, &earlier)?;
        let facts = self.course.facts(&interface, read, last, observer, earlier);
        if facts.last.finding.is_some() {
            self.before = Some(Before::of_row(&facts));
        }
        self.uncounted = observer.uncounted();
        let mut writer = ProseWriter::new(notes);
        row(&facts, frame, &mut writer);
        writer.answer()
    }
}

/// Describes what each row is and did, or each of those that are chosen.
#[derive(Drop)]
pub struct Descriptions<A: Allocator> {
    alloc: A,
    chosen: Chosen,
    past: Past<A>,
}

impl<A: Allocator + Copy> Descriptions<A> {
    ghost use Rattle.std.specs.Prelude.{◌≡◌};

    /// Returns the value before the first row. Allocates no memory.
    pub fn new(alloc: A, rows: Rows) -> Self
        ensures { result.chosen.rows ≡ rows }
    {
        Descriptions {
            alloc,
            chosen: Chosen::new(rows),
            past: Past::new(alloc),
        }
    }
}

impl<A: Allocator + Copy, C: Channel<A>> Describer<A, Live<A, C>> for Descriptions<A> {
    ghost use Rattle.descriptions.specs.Choosing.{HasChosen};

    ghost described = { λ d lines. HasChosen lines d.chosen };

    ghost rows = { λ d. d.chosen.rows };

    fn rows(&self) -> Rows {
        self.chosen.rows()
    }

    fn begin(&mut self) {
        self.chosen = Chosen::new(self.chosen.rows());
        self.past = Past::new(self.alloc);
    }

    fn describe(
        &mut self,
        trace: &Live<A, C>,
        line: &[u8],
        notes: &mut Notes<A>,
    ) -> Result<bool, AllocError> {
        let Some(picked) = self.chosen.judge_line(trace) else {
            self.past.take_comment(line);
            return Ok(false);
        };
        self.past.say_row(trace, notes)?;
        notes.next()?;
        Ok(picked)
    }

    fn explain(
        &mut self,
        trace: &Live<A, C>,
        finding: &Finding,
        words: &mut NoteWords<A>,
    ) -> Result<(), AllocError> {
        let mut writer = ProseWriter::new(words);
        if let Some(before) = &self.past.before {
            fault(&mut writer, before, trace.row().octets.as_slice(), finding);
        }
        writer.answer()
    }

    fn close<S: LentSink>(&mut self, report: &Report<A>, page: &mut ClosingPage<S>) {
        closing::report(page, report, &self.past.uncounted);
    }
}
