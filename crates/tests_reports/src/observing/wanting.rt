//! Traces that grow while memory is refused.

ghost use Rattle.live_report.specs.Lives.{IsFed};

use crate::observing::{Wanted, agree, got};
use channel_machine::channel::PlainChannel;
use channel_run::run::Channel;
use line_model::fault::Fault;
use live_report::live::Live;
use std::alloc::{Allocator, Global};
use std::process::Abort;
use std::test::Fail;
use tests_devices::scarce::{Scarce, refuse_each};

/// A PAD call that a restart ends, and an epoch with findings and an open call. A chunk ends in the midst of a line.
const CHUNKS: [&[u8]; 2] = [
    b"X25 1 MOD 8 WIN 2 SIZE 128 PVC 0 SVC 4\n\
    1 T 10010B000001000000\n2 N 10010F\n3 N 900100020201\n4 T 900120000201\n\
    5 T 1000FB0000\n6 N 1000FF\n7 T 1002",
    b"00AA\n8 T 10010B0000\n9 N 10010F\n10 T 100100AA\n11 N -\n",
];

const REPORT: &[u8] = b"F 7 T p1 20\nF 11 N - 38\n\
    C 1 1 1 out - - 1 2 5 restart 1 3 1 3 2\nC 2 2 1 out - - 8 9 - open 1 1 0 0 1\n\
    S 1 T 2 said 1\nA - 2 3\nP 1 2\nZ 11 2 2 7 3\n";

/// What a trace reports, of which a growth was refused or none was.
fn wanted(refused: bool) -> Wanted {
    if refused {
        Err(Fault::Memory)
    } else {
        Ok(REPORT)
    }
}

/// Refuses each growth of a report, and checks that nothing is written, that no block is kept and that the next report
/// is right. Returns how many growths there are.
fn growths<A: Allocator + Copy, C: Channel<A>>(
    rt: &impl Abort,
    alloc: Global,
    heap: &Scarce<Global>,
    trace: &Live<A, C>,
) -> u64
    requires fed { IsFed C.interface_of C.number_of C.represents trace.now }
{
    let held = heap.held();
    for good in 0..1000 {
        heap.refuse_one(good);
        let answer = got(alloc, trace);
        let refused = heap.was_refused();
        assert!(rt; heap.held() == held);
        agree(rt, &answer, wanted(refused));
        agree(rt, &got(alloc, trace), wanted(false));
        if !refused {
            return good;
        }
    }
    panic!(rt; "there is no end of growths")
}

#[test]
fn a_report_out_of_memory_leaves_the_trace_as_it_was(rt: HostRuntime) {
    let heap = Scarce::new(rt.alloc());
    let mut trace = Live::<&Scarce<Global>, PlainChannel<&Scarce<Global>>>::new(&heap);
    assert!(rt; trace.feed(CHUNKS[0]).is_ok());
    assert!(rt; trace.feed(CHUNKS[1]).is_ok());
    assert!(rt; 0 < growths(&rt, rt.alloc(), &heap, &trace));
    drop(trace);
    assert!(rt; heap.held() == 0);
}

/// Refuses the growths of a trace that is fed, from one on: it is out of memory from then on. Returns whether there was
/// such a growth.
fn check_feeding(rt: &impl Abort, alloc: Global, heap: &Scarce<Global>, good: u64) -> bool {
    let mut trace = Live::<&Scarce<Global>, PlainChannel<&Scarce<Global>>>::new(heap);
    heap.refuse_from(good);
    let first = trace.feed(CHUNKS[0]);
    let both = first.and(trace.feed(CHUNKS[1]));
    let refused = heap.was_refused();
    let wanted = wanted(refused);
    assert!(rt; both.err() == wanted.err());
    if refused {
        let further = trace.feed(b"12 T -\n");
        assert!(rt; further == Err(Fault::Memory));
    }
    agree(rt, &got(alloc, &trace), wanted);
    refused
}

#[test]
fn a_trace_out_of_memory_stays_so(rt: HostRuntime) -> Result<(), Fail> {
    let heap = Scarce::new(rt.alloc());
    refuse_each(
        &heap,
        |good| Ok(check_feeding(&rt, rt.alloc(), &heap, good)),
    )
}
