//! Scans whose growths are refused.

use crate::host::Host;
use crate::scans::checks::agree;
use crate::scans::runs::{Way, scan_in};
use crate::scans::worked::{LONG_MESSAGE, MIXED, Wanted, worked};
use line_model::fault::Fault;
use std::alloc::Global;
use std::test::Fail;
use tests_devices::Cuts;
use tests_devices::scarce::{Scarce, refuse_each};

/// What a scan comes to of which a growth was refused. A crew goes on where it feeds one by one the pieces for whose
/// bundle there is no memory, and where the reading thread reads a block for which a worker has none. It may say that
/// a thread was refused, where nothing was read yet.
fn wanted_of(way: Way, fault: Option<Fault>, wanted: Wanted<'_>) -> Wanted<'_> {
    match (way, fault) {
        (Way::Crew(..) | Way::InBlocks(..), None) => wanted,
        (Way::Crew(..) | Way::InBlocks(..), Some(Fault::Start)) => (fault, b""),
        _ => (Some(Fault::Memory), b""),
    }
}

/// Refuses one growth of a scan, and sees that nothing is written. Returns whether there was such a growth.
fn check_growth(
    rt: &impl Host,
    heap: &Scarce<Global>,
    way: Way,
    text: &[u8],
    wanted: Wanted<'_>,
    good: u64,
) -> bool {
    let cuts = Cuts::of_steps(7, 7);
    heap.refuse_one(good);
    let scanned = scan_in(rt, heap, way, text, cuts);
    let refused = heap.was_refused();
    let wanted = match refused {
        true => wanted_of(way, scanned.summary().err(), wanted),
        false => wanted,
    };
    agree(rt, &scanned, wanted, cuts);
    refused
}

/// Refuses each growth of a scan. No block is kept: so all workers were joined.
fn check(rt: &impl Host, way: Way, trace: usize) -> Result<(), Fail> {
    let heap = Scarce::new(rt.alloc());
    let (text, wanted) = worked(rt.alloc(), trace)?;
    refuse_each(
        &heap,
        |good| Ok(check_growth(rt, &heap, way, &text, wanted, good)),
    )
}

#[test]
fn each_growth_of_a_scan_may_be_refused(rt: HostRuntime) -> Result<(), Fail> {
    for trace in MIXED {
        check(&rt, Way::Alone, trace)?;
    }
    check(&rt, Way::Alone, LONG_MESSAGE)
}

#[test]
fn each_growth_of_a_scan_with_workers_may_be_refused(rt: HostRuntime) -> Result<(), Fail> {
    for trace in MIXED {
        check(&rt, Way::Crew(2, 64), trace)?;
        check(&rt, Way::InBlocks(2, 64, 1), trace)?;
    }
    Ok(())
}
