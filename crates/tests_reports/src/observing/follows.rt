//! Findings that are written as a trace grows.

ghost use Rattle.live_report.specs.Follows.{IsFed};

use channel_machine::channel::PlainChannel;
use channel_run::run::Channel;
use line_model::fault::Fault;
use live_report::follow::Follower;
use live_report::uncounted::Uncounted;
use std::alloc::{Allocator, Global};
use std::process::Abort;
use tests_devices::{CutSink, Cuts};

/// What a follower is fed, why it refuses it, if it does, what its sink has accepted then, and how often it was asked.
type Step = (&'static [u8], Option<Fault>, &'static [u8], usize);

/// What is seen of a sink.
fn look(rt: &impl Abort, sink: &CutSink, taken: &[u8], asked: usize) {
    assert!(rt; sink.taken.as_slice() == taken && sink.asked == asked);
}

/// Plays steps with a follower.
fn play_steps<A: Allocator + Copy, C: Channel<A>>(
    rt: &impl Abort,
    trace: &mut Follower<A, C>,
    sink: &mut CutSink,
    steps: &[Step],
)
    requires fed { IsFed C.interface_of C.number_of C.represents trace.old }
    ensures fed { IsFed C.interface_of C.number_of C.represents trace.new }
{
    for step in steps {
        let (chunk, fault, taken, asked) = *step;
        let answer = trace.feed(chunk, sink).err();
        assert!(rt; answer == fault);
        look(rt, sink, taken, asked);
    }
}

/// Plays steps with a follower of which nothing was fed, and ends it. Returns why it is refused, or how many findings it
/// has.
fn play(rt: &impl Abort, alloc: Global, sink: &mut CutSink, steps: &[Step]) -> Result<u64, Fault> {
    let mut trace = Follower::<Global, PlainChannel<Global>>::new(alloc);
    play_steps(rt, &mut trace, sink, steps);
    Ok(trace.end(sink, &mut Uncounted::none())?.findings)
}

const HEADER: &[u8] = b"X25 1 MOD 8 WIN 2 SIZE 128 PVC 0 SVC 4\n";

const LINES: [Step; 5] = [
    (HEADER, None, b"", 0),
    (b"1 T -", None, b"", 0),
    (b"\n", None, b"F 1 T - 38\n", 1),
    (
        b"2 T 20010B0000\n# 3\n",
        None,
        b"F 1 T - 38\nF 2 T - 40\n",
        2,
    ),
    (
        b"3 T 10010B0000\n4 T -\n5 T -",
        None,
        b"F 1 T - 38\nF 2 T - 40\nF 4 T - 38\n",
        3,
    ),
];

const REPORT: &[u8] =
    b"F 1 T - 38\nF 2 T - 40\nF 4 T - 38\nF 5 T - 38\nC 1 1 1 out - - 3 - - open 0 0 0 0 0\nA - 1 0\nP 0 -\nZ 5 4 1 0 0\n";

#[test]
fn a_finding_is_written_once_its_line_has_ended(rt: HostRuntime) {
    let mut sink = CutSink::new(rt.alloc(), Cuts::none());
    let answer = play(&rt, rt.alloc(), &mut sink, &LINES);
    assert!(rt; answer == Ok(4));
    assert!(rt; sink.taken.as_slice() == REPORT);
}

const FAILING_SINK: [Step; 4] = [
    (HEADER, None, b"", 0),
    (b"1 T -\n", None, b"F 1 T - 38\n", 1),
    (b"2 T -\n", Some(Fault::Write), b"F 1 T - 38\n", 2),
    (b"3 X -\n", Some(Fault::Write), b"F 1 T - 38\n", 2),
];

#[test]
fn a_sink_that_failed_is_not_asked_again(rt: HostRuntime) {
    let mut sink = CutSink::new(rt.alloc(), Cuts::none().with_writes(1));
    let answer = play(&rt, rt.alloc(), &mut sink, &FAILING_SINK);
    assert!(rt; answer == Err(Fault::Write));
    look(&rt, &sink, b"F 1 T - 38\n", 2);
}
