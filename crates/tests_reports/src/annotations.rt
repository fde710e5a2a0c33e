//! Traces that are annotated, and read again; and closing comments that are longer than what is held of them.

ghost use Rattle.std.specs.Prelude.{⊤};
ghost use Rattle.annotated_trace.specs.declared.rows.Rows.TheVariants.{All};

use annotated_trace::annotating::annotate;
use annotated_trace::describer::Describer;
use annotated_trace::notes::{NoteWords, Notes};
use annotated_trace::page::ClosingPage;
use annotated_trace::rows::Rows;
use channel_machine::channel::{PackedChannel, PlainChannel};
use line_model::fault::Fault;
use line_model::finding::Finding;
use line_model::lending::LentSink;
use line_model::report::Report;
use live_report::live::Live;
use live_report::uncounted::Uncounted;
use std::alloc::{AllocError, Allocator, Global};
use std::process::Abort;
use std::test::Fail;
use tests_devices::scarce::{Scarce, refuse_each};
use tests_devices::{CutSink, CutSource, Cuts};
use trace_text::trace_observer::TraceObserver;

/// Numbers lines, and says so of each; closes with words and octets. Then it may say a line that is longer than a line
/// may be, and `times` more.
#[derive(Drop)]
struct Numbered {
    lines: u64,
    times: Option<usize>,
}

impl<A: Allocator + Copy, O: TraceObserver<A>> Describer<A, O> for Numbered {
    ghost described = { λ d lines. ⊤ };

    ghost rows = { λ d. All };

    fn rows(&self) -> Rows {
        Rows::All
    }

    fn begin(&mut self) {}

    fn describe(
        &mut self,
        _trace: &O,
        _line: &[u8],
        notes: &mut Notes<A>,
    ) -> Result<bool, AllocError> {
        self.lines = self.lines.wrapping_add(1);
        notes.say("line\n")?;
        notes.number(self.lines)?;
        notes.next()?;
        Ok(true)
    }

    fn explain(
        &mut self,
        _trace: &O,
        finding: &Finding,
        words: &mut NoteWords<A>,
    ) -> Result<(), AllocError> {
        words.say("packet\n")?;
        words.number(u64::from(finding.packet))
    }

    fn close<S: LentSink>(&mut self, report: &Report<A>, page: &mut ClosingPage<S>) {
        page.say("findings: ");
        page.number(report.summary.findings);
        page.next();
        page.octets(b"\x0b\xff");
        let Some(times) = self.times else {
            return;
        };
        page.next();
        for _ in 0..1000 {
            page.say(WORDS);
        }
        for _ in 0..times {
            page.next();
            page.say(AGAIN);
        }
    }
}

/// A comment, two rows that are too short, and a last line without an LF.
const TRACE: &[u8] =
    b"# of Monday\nX25 1 MOD 8 WIN 2 SIZE 128 PVC 0 SVC 4\n1 T -\n2 T 20010B0000\n3 T 10010B0000";

const REPORT: &[u8] =
    b"F 1 T - 38\nF 2 T - 40\nC 1 1 1 out - - 3 - - open 0 0 0 0 0\nA - 1 0\nP 0 -\nZ 3 2 1 0 0\n";

/// The lines with their comments, and what closes them.
const DESCRIBED: &str =
    "# of Monday\n# line 1\nX25 1 MOD 8 WIN 2 SIZE 128 PVC 0 SVC 4\n# line 2\n1 T -\n# line 3\n#! F 1 T - 38: packet 1\n2 T 20010B0000\n# line 4\n#! F 2 T - 40: packet 2\n3 T 10010B0000\n# line 5\n";

const CLOSED: &str = "# findings: 2\n# 0BFF\n";

/// Ten bytes.
const WORDS: &str = "ten bytes ";

const AGAIN: &str = "A line that is said again and again.";

/// How many lines are said after a long one.
const TIMES: usize = 300;

/// Adds words to a text `times` times.
fn push_again(text: &mut String, words: &str, times: usize) -> Result<(), AllocError> {
    for _ in 0..times {
        text.push_str(words)?;
    }
    Ok(())
}

/// The annotation of the trace. Its long line has the 8,000 bytes that there is room for.
fn whole(alloc: Global, times: Option<usize>) -> Result<String, AllocError> {
    let mut text = String::from_str(alloc, DESCRIBED)?;
    text.push_str(CLOSED)?;
    if let Some(times) = times {
        text.push_str("# ")?;
        push_again(&mut text, WORDS, 800)?;
        text.push_str("\n")?;
        push_again(&mut text, "# A line that is said again and again.\n", times)?;
    }
    Ok(text)
}

/// Why a trace was refused, if it was, and what the sink accepted.
type Answer = (Option<Fault>, Vec<u8>);

/// The annotation of the trace, from a source and to a sink that cut and fail so.
fn annotated<A: Allocator + Copy>(
    heap: A,
    alloc: Global,
    cuts: Cuts,
    times: Option<usize>,
) -> Answer {
    let mut source = CutSource::new(TRACE, cuts);
    let mut sink = CutSink::new(alloc, cuts);
    let trace = Live::<A, PackedChannel<A>>::with_rows(heap);
    let describer = Numbered { lines: 0, times };
    let fault = annotate(heap, trace, describer, &mut source, &mut sink).err();
    (fault, sink.taken)
}

/// The report of a trace.
fn report(alloc: Global, text: &[u8]) -> Answer {
    let mut sink = CutSink::new(alloc, Cuts::none());
    let mut trace = Live::<Global, PlainChannel<Global>>::with_rows(alloc);
    let fault = match trace.feed(text) {
        Ok(()) => trace.end(&mut sink, &mut Uncounted::none()).err(),
        Err(fault) => Some(fault),
    };
    (fault, sink.taken)
}

#[test]
fn lines_that_chunks_cut_stand_as_they_were(rt: HostRuntime) -> Result<(), Fail> {
    let wanted = whole(rt.alloc(), None)?;
    for step in [1, 7] {
        let (fault, bytes) = annotated(rt.alloc(), rt.alloc(), Cuts::of_steps(step, step), None);
        assert!(rt; fault.is_none() && bytes.as_slice() == wanted.as_bytes());
        let (fault, bytes) = report(rt.alloc(), &bytes);
        assert!(rt; fault.is_none() && bytes.as_slice() == REPORT);
    }
    Ok(())
}

/// Whether the sink accepted all of a text, or it was refused so, and the sink accepted a first part of the text.
fn agrees(answer: &Answer, refused: Option<Fault>, text: &str) -> bool {
    let (fault, bytes) = answer;
    let whole = fault.is_some() || bytes.len() == text.len();
    *fault == refused && whole && text.as_bytes().starts_with(bytes.as_slice())
}

/// Fails the sink at the call after `good` good ones.
fn check_failure(rt: &impl Abort, alloc: Global, text: &str, cuts: Cuts, refused: Option<Fault>) {
    let answer = annotated(alloc, alloc, cuts, Some(TIMES));
    assert!(rt;
        agrees(&answer, refused, text),
        "after {} writes",
        cuts.good_writes
    );
}

/// The sink fails at each call that it needs, and at one that it does not.
#[test]
fn a_sink_that_fails_at_any_call_has_a_first_part(rt: HostRuntime) -> Result<(), Fail> {
    let wanted = whole(rt.alloc(), Some(TIMES))?;
    for step in [100, 1000] {
        let cuts = Cuts::of_steps(7, step);
        for good in 0..wanted.len() / step {
            check_failure(
                &rt,
                rt.alloc(),
                &wanted,
                cuts.with_writes(good),
                Some(Fault::Write),
            );
        }
        check_failure(&rt, rt.alloc(), &wanted, cuts, None);
    }
    Ok(())
}

/// Refuses the growths from one on, and sees that nothing of the closing was written. Returns whether there was such a
/// growth.
fn check_growth(
    rt: &impl Abort,
    alloc: Global,
    heap: &Scarce<Global>,
    good: u64,
) -> Result<bool, Fail> {
    heap.refuse_from(good);
    let answer = annotated(heap, alloc, Cuts::of_steps(7, 7), Some(TIMES));
    let refused = heap.was_refused();
    let right = match refused {
        true => agrees(&answer, Some(Fault::Memory), DESCRIBED),
        false => agrees(&answer, None, &whole(alloc, Some(TIMES))?),
    };
    assert!(rt; right, "growth {good}");
    Ok(refused)
}

#[test]
fn where_memory_runs_out_nothing_of_the_closing_is_written(rt: HostRuntime) -> Result<(), Fail> {
    let heap = Scarce::new(rt.alloc());
    refuse_each(&heap, |good| check_growth(&rt, rt.alloc(), &heap, good))
}

#[test]
fn a_longer_closing_takes_no_more_memory(rt: HostRuntime) {
    let heap = Scarce::new(rt.alloc());
    drop(annotated(&heap, rt.alloc(), Cuts::of_steps(7, 7), Some(0)));
    let short = heap.asked();
    heap.grant_all();
    drop(annotated(&heap, rt.alloc(), Cuts::of_steps(7, 7), Some(TIMES)));
    assert!(rt; heap.asked() == short);
}
