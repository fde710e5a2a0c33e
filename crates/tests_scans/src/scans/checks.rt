//! Scans whose sources and sinks cut what they give and accept, and fail.

use crate::host::Host;
use crate::scans::runs::{Scanned, Way, scan};
use crate::scans::worked::Wanted;
use line_model::fault::Fault;
use std::alloc::Allocator;
use std::process::Abort;
use tests_devices::Cuts;

/// How many bytes a source gives at once.
pub const STEPS: [usize; 3] = [1, 7, usize::MAX];

/// Sees that a number is the one that is expected.
pub fn same(rt: &impl Abort, number: u64, wanted: u64, of: &str) {
    assert_eq!(rt; number, wanted, "{of}");
}

/// Sees why a scan was refused, if it was, and what its sink accepted.
pub fn agree<A: Allocator>(rt: &impl Abort, scanned: &Scanned<A>, wanted: Wanted<'_>, cuts: Cuts) {
    let (fault, report) = wanted;
    let refused = scanned.summary().err() == fault;
    assert!(rt; refused, "by {}, {} bytes", cuts.read_step, cuts.good_bytes);
    let written = scanned.taken.as_slice() == report;
    assert!(rt;
        written,
        "by {}, {} writes",
        cuts.read_step, cuts.good_writes
    );
}

/// Scans a trace text.
pub fn check(rt: &impl Host, way: Way, text: &[u8], wanted: Wanted<'_>, cuts: Cuts) {
    agree(rt, &scan(rt, way, text, cuts), wanted, cuts);
}

/// Scans a trace text in steps of any size, from a source that fails once `good` bytes were given.
pub fn check_steps(rt: &impl Host, way: Way, text: &[u8], wanted: Wanted<'_>, good: usize) {
    for step in STEPS {
        let cuts = Cuts::of_steps(step, step).with_bytes(good);
        check(rt, way, text, wanted, cuts);
    }
}

/// How many bytes a source gives before it fails, and what the scan comes to then.
pub type Stop<'a> = (usize, Wanted<'a>);

/// Scans a trace text whose source fails at one of several bytes.
pub fn check_stops(rt: &impl Host, way: Way, text: &[u8], stops: &[Stop<'_>]) {
    for (good, wanted) in stops {
        check_steps(rt, way, text, *wanted, *good);
    }
}

/// What a scan comes to whose sink accepts `bytes` bytes and no more.
fn cut_off(wanted: Wanted<'_>, bytes: usize) -> Wanted<'_> {
    let (_, report) = wanted;
    if bytes < report.len() {
        (Some(Fault::Write), &report[..bytes])
    } else {
        wanted
    }
}

/// Has the sink fail at each of its calls in turn, of which each before accepted a byte, and at none.
pub fn check_writes(rt: &impl Host, way: Way, text: &[u8], wanted: Wanted<'_>, step: usize) {
    for good in 0..wanted.1.len().saturating_add(2) {
        let cuts = Cuts::of_steps(step, 1).with_writes(good);
        check(rt, way, text, cut_off(wanted, good), cuts);
    }
}
