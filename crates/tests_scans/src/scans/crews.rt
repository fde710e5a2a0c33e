//! The shares of workers.

use crate::scans::checks::{agree, same};
use crate::scans::runs::{Scanned, Way, findings, scan};
use crate::scans::worked::{NO_ROWS, NOTHING, ONE_PIECE, Wanted, worked};
use std::process::Abort;
use std::test::Fail;
use tests_devices::Cuts;

/// Sees what a scan by workers found, and how many of them had this many pieces with a finding each.
pub fn agree_on_shares(
    rt: &impl Abort,
    scanned: &Scanned,
    wanted: Wanted<'_>,
    shares: &[(usize, u64)],
) {
    agree(rt, scanned, wanted, Cuts::of_steps(7, 7));
    let Ok(scan) = &scanned.answer else {
        panic!(rt; "the trace is refused")
    };
    for (workers, pieces) in shares {
        let share = findings(*pieces);
        let count = scan.shares.iter().filter(|own| **own == share).count();
        same(rt, count as u64, *workers as u64, "workers with a share");
    }
}

#[test]
fn one_piece_is_one_workers_share(rt: HostRuntime) -> Result<(), Fail> {
    let (text, wanted) = worked(rt.alloc(), ONE_PIECE)?;
    let scanned = scan(&rt, Way::Crew(64, 1), &text, Cuts::of_steps(7, 7));
    agree_on_shares(&rt, &scanned, wanted, &[(1, 1), (63, 0)]);
    Ok(())
}

#[test]
fn a_trace_without_rows_leaves_all_shares_empty(rt: HostRuntime) {
    for capacity in [1, 64] {
        let scanned = scan(&rt, Way::Crew(64, capacity), NO_ROWS, Cuts::of_steps(7, 7));
        agree_on_shares(&rt, &scanned, NOTHING, &[(64, 0)]);
    }
}
