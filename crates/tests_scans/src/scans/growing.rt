//! Reports of worked traces while they grow.

ghost use Rattle.live_report.specs.Lives.{IsFed};

use crate::host::Host;
use crate::scans::runs::{Way, scan};
use crate::scans::worked::{TRACES, worked};
use channel_machine::channel::PlainChannel;
use channel_run::run::Channel;
use live_report::live::Live;
use std::alloc::{Allocator, Global};
use std::test::Fail;
use tests_devices::{CutSink, Cuts};

/// Sees that a trace reports what the scan of one thread does of its lines so far.
fn check_lines<A: Allocator + Copy, C: Channel<A>, R: Host>(
    rt: &R,
    trace: &Live<A, C>,
    lines: &[u8],
)
    requires fed { IsFed C.interface_of C.number_of C.represents trace.now }
{
    let mut sink = CutSink::new(rt.alloc(), Cuts::none());
    let answer = trace.report(&mut sink);
    let scanned = scan(rt, Way::Alone, lines, Cuts::none());
    let right = answer == scanned.summary() && sink.taken.as_slice() == scanned.taken.as_slice();
    assert!(rt; right, "after {} bytes", lines.len());
}

/// Feeds a trace byte by byte, and looks at its report after each line feed.
fn check_grows<A: Allocator + Copy, C: Channel<A>, R: Host>(
    rt: &R,
    trace: &mut Live<A, C>,
    text: &[u8],
)
    requires fed { IsFed C.interface_of C.number_of C.represents trace.old }
{
    for (index, byte) in text.iter().enumerate() {
        let _ = trace.feed(&text[index..=index]);
        if *byte == b'\n' {
            check_lines(rt, trace, &text[..=index]);
        }
    }
}

#[test]
fn worked_traces_are_reported_while_they_grow(rt: HostRuntime) -> Result<(), Fail> {
    for trace in 0..TRACES {
        let (text, _) = worked(rt.alloc(), trace)?;
        let mut live = Live::<Global, PlainChannel<Global>>::new(rt.alloc());
        check_grows(&rt, &mut live, &text);
    }
    Ok(())
}
