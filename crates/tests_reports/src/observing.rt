//! Reports of traces that grow.

ghost use Rattle.live_report.specs.Lives.{IsFed};

mod follows;
mod wanting;

use channel_machine::channel::PlainChannel;
use channel_run::run::Channel;
use line_model::fault::{Fault, Kind};
use line_model::state::Side;
use live_report::live::Live;
use live_report::uncounted::Uncounted;
use std::alloc::{Allocator, Global};
use std::process::Abort;
use tests_devices::{CutSink, Cuts};

/// Why a report was refused, if it was, and what it wrote.
type Answer = (Option<Fault>, Vec<u8>);

/// The report that must be written, or why it must be refused, and nothing written.
type Wanted = Result<&'static [u8], Fault>;

/// What a trace is fed, or asked for.
#[derive(Clone, Copy)]
enum Step {
    /// It is fed this chunk, and refuses it so, if it does.
    Feed(&'static [u8], Option<Fault>),
    /// It is fed a packet of the DTE, and reads it.
    Packet(u32, &'static [u8]),
    /// It is asked for its report so far.
    Report(Wanted),
}

/// The report of a trace so far.
fn got<A: Allocator + Copy, C: Channel<A>>(alloc: Global, trace: &Live<A, C>) -> Answer
    requires fed { IsFed C.interface_of C.number_of C.represents trace.now }
{
    let mut sink = CutSink::new(alloc, Cuts::none());
    let fault = trace.report(&mut sink).err();
    (fault, sink.taken)
}

/// The report of a trace that has ended.
fn ended<A: Allocator + Copy, C: Channel<A>>(alloc: Global, trace: Live<A, C>) -> Answer
    requires fed { IsFed C.interface_of C.number_of C.represents trace }
{
    let mut sink = CutSink::new(alloc, Cuts::none());
    let fault = trace.end(&mut sink, &mut Uncounted::none()).err();
    (fault, sink.taken)
}

/// Checks that an answer is the one that is expected.
fn agree(rt: &impl Abort, answer: &Answer, wanted: Wanted) {
    assert!(rt; answer.0 == wanted.err());
    assert!(rt; answer.1.as_slice() == wanted.unwrap_or(b""));
}

/// Plays steps with a trace.
fn play_steps<A: Allocator + Copy, C: Channel<A>>(
    rt: &impl Abort,
    alloc: Global,
    trace: &mut Live<A, C>,
    steps: &[Step],
)
    requires fed { IsFed C.interface_of C.number_of C.represents trace.old }
    ensures fed { IsFed C.interface_of C.number_of C.represents trace.new }
{
    for step in steps {
        match *step {
            Step::Feed(chunk, fault) => {
                let answer = trace.feed(chunk).err();
                assert!(rt; answer == fault);
            }
            Step::Packet(number, octets) => {
                let answer = trace.packet(number, Side::T, octets);
                assert!(rt; matches!(answer, Ok(true)));
            }
            Step::Report(wanted) => agree(rt, &got(alloc, trace), wanted),
        }
    }
}

/// Plays steps with a trace of which nothing was fed, and ends it.
fn play(rt: &impl Abort, alloc: Global, steps: &[Step], end: Wanted) {
    let mut trace = Live::<Global, PlainChannel<Global>>::new(alloc);
    play_steps(rt, alloc, &mut trace, steps);
    agree(rt, &ended(alloc, trace), end);
}

/// The report of a call that a restart ended.
const ENDED_CALL: &[u8] = b"C 1 1 1 out - - 1 2 3 restart 0 0 0 0 0\nA - 1 0\nP 1 2\nZ 4 0 1 0 0\n";

const CALL_AND_ITS_END: [Step; 7] = [
    Step::Feed(b"X25 1 MOD 8 WIN 2 SIZE 128 PVC 0 SV", None),
    Step::Feed(b"C 4\n1 T 10010B0000\n2 N 10010F", None),
    Step::Feed(b"\n", None),
    Step::Report(Ok(b"C 1 1 1 out - - 1 2 - open 0 0 0 0 0\nA - 1 0\nP 1 2\nZ 2 0 1 0 0\n")),
    Step::Packet(3, &[0x10, 0x00, 0xFB, 0x00, 0x00]),
    Step::Feed(b"4 N 1000FF\n", None),
    Step::Report(Ok(ENDED_CALL)),
];

/// The fault of a row that no side wrote.
const NO_SIDE: Fault = Fault::Trace(4, Kind::Side);

/// The report of a trace of one row, which is no packet.
const ONE_ROW: &[u8] = b"F 1 T - 38\nP 0 -\nZ 1 1 0 0 0\n";

const UP_TO_A_FAULTY_LINE: [Step; 12] = [
    Step::Report(Err(Fault::Trace(1, Kind::HeaderMissing))),
    Step::Feed(b"X25 1 MOD 8 WIN 2 SIZE 128 PVC 0 SVC 4\n", None),
    Step::Feed(b"1 T -\n", None),
    Step::Report(Ok(ONE_ROW)),
    Step::Feed(b"2 T 2", None),
    Step::Report(Ok(ONE_ROW)),
    Step::Feed(b"0010B0000\n", None),
    Step::Report(Ok(b"F 1 T - 38\nF 2 T - 40\nP 0 -\nZ 2 2 0 0 0\n")),
    Step::Feed(b"3 X -\n", Some(NO_SIDE)),
    Step::Report(Err(NO_SIDE)),
    Step::Feed(b"4 T -\n", Some(NO_SIDE)),
    Step::Report(Err(NO_SIDE)),
];

#[test]
fn reports_go_up_to_the_last_line_that_ended(rt: HostRuntime) {
    play(&rt, rt.alloc(), &CALL_AND_ITS_END, Ok(ENDED_CALL));
    play(&rt, rt.alloc(), &UP_TO_A_FAULTY_LINE, Err(NO_SIDE));
}
