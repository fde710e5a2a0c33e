//! Worked traces in chunks of any size, in each way: they are reported and refused in the same words.

use crate::host::Host;
use crate::scans::checks::{STEPS, agree, check, check_steps};
use crate::scans::runs::{Way, scan};
use crate::scans::worked::{PAD_CALL, TRACES, Wanted, worked};
use line_model::fault::Fault;
use line_model::totals::Totals;
use std::test::Fail;
use tests_devices::Cuts;

#[test]
fn worked_traces_are_reported_however_they_are_cut(rt: HostRuntime) -> Result<(), Fail> {
    for trace in 0..TRACES {
        let (text, wanted) = worked(rt.alloc(), trace)?;
        check_steps(&rt, Way::Alone, &text, wanted, usize::MAX);
    }
    Ok(())
}

/// Follows a trace, as its source and its sink cut it. Where it is refused, findings may have been written.
fn check_followed(rt: &impl Host, text: &[u8], wanted: Wanted<'_>, step: usize) {
    let cuts = Cuts::of_steps(step, step);
    let scanned = scan(rt, Way::Following, text, cuts);
    let refused = wanted.0.is_some() && scanned.summary().err() == wanted.0;
    if !refused {
        agree(rt, &scanned, wanted, cuts);
    }
}

#[test]
fn followed_traces_end_with_their_reports(rt: HostRuntime) -> Result<(), Fail> {
    for trace in 0..TRACES {
        let (text, wanted) = worked(rt.alloc(), trace)?;
        for step in STEPS {
            check_followed(&rt, &text, wanted, step);
        }
    }
    Ok(())
}

/// Scans a trace by workers, whose totals are those of the report. Returns them, or why there are none.
fn totals(
    rt: &impl Host,
    way: Way,
    text: &[u8],
    wanted: Wanted<'_>,
    step: usize,
) -> Result<Totals, Fault> {
    let cuts = Cuts::of_steps(step, step);
    let scanned = scan(rt, way, text, cuts);
    agree(rt, &scanned, wanted, cuts);
    let scan = scanned.answer?;
    let (totals, summary) = (scan.totals, scan.summary);
    assert!(rt; (totals.octets, totals.segments) == (summary.octets, summary.segments));
    Ok(totals)
}

/// Scans each trace by a crew in steps of these sizes: it counts the same as one worker.
fn check_totals(rt: &impl Host, way: Way, steps: &[usize]) -> Result<(), Fail> {
    for trace in 0..TRACES {
        let (text, wanted) = worked(rt.alloc(), trace)?;
        let alone = totals(rt, Way::Crew(1, 1), &text, wanted, usize::MAX);
        for step in steps {
            let counted = totals(rt, way, &text, wanted, *step);
            assert!(rt; counted == alone, "trace {trace} by {step}");
        }
    }
    Ok(())
}

#[test]
fn worked_traces_are_reported_by_any_number_of_workers(rt: HostRuntime) -> Result<(), Fail> {
    for (workers, capacity) in [(1, 1), (1, 64), (2, 1), (2, 64), (64, 1), (64, 64)] {
        check_totals(&rt, Way::Crew(workers, capacity), &STEPS)?;
    }
    Ok(())
}

/// Workers, entries of their queue and bytes of a block, and how many bytes a source gives at once. Scans by 64 workers use
/// most of the time, so there are few.
const IN_BLOCKS: [(usize, usize, usize, &[usize]); 11] = [
    (1, 1, 1, &[1, 7, 64, 1 << 18]),
    (1, 64, 1, &[1, 7, 64, 1 << 18]),
    (2, 1, 1, &[1, 7, 64, 1 << 18]),
    (2, 64, 1, &[1, 7, 64, 1 << 18]),
    (4, 1, 1, &[1, 7, 64, 1 << 18]),
    (4, 64, 1, &[1, 7, 64, 1 << 18]),
    (64, 1, 1, &[1]),
    (64, 64, 1, &[64]),
    (2, 1, 7, &[7]),
    (2, 1, 64, &[1, 7]),
    (2, 1, 262_144, &[7]),
];

#[test]
fn worked_traces_are_reported_in_blocks_of_any_size(rt: HostRuntime) -> Result<(), Fail> {
    for (workers, capacity, bytes, steps) in IN_BLOCKS {
        check_totals(&rt, Way::InBlocks(workers, capacity, bytes), steps)?;
    }
    Ok(())
}

#[test]
fn a_text_says_the_same_wherever_it_is_cut(rt: HostRuntime) -> Result<(), Fail> {
    let (text, wanted) = worked(rt.alloc(), PAD_CALL)?;
    for step in 1..text.len() {
        let cuts = Cuts::of_steps(step, usize::MAX);
        check(&rt, Way::InBlocks(2, 1, 1), &text, wanted, cuts);
    }
    Ok(())
}
