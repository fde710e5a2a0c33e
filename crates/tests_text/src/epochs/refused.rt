//! Cutting whose growths are refused.

use crate::checks::holds_at;
use crate::epochs::{EPOCH, rows_of};
use line_model::fault::Fault;
use restart_epochs::cut::cut;
use std::alloc::Global;
use std::process::Abort;
use std::test::Fail;
use std::thread::Threads;
use tests_devices::interfaces::PLAIN;
use tests_devices::scarce::{Scarce, refuse_each};

/// Refuses one growth of a cut, which then fails with `Memory`. Returns whether there was such a growth.
fn check_growth(
    rt: &(impl Abort + Threads + Sync),
    heap: &Scarce<Global>,
    good: u64,
) -> Result<bool, Fail> {
    let rows = rows_of(heap, EPOCH.as_slice())?;
    heap.refuse_one(good);
    let pieces = cut(rt, &PLAIN, rows).map(|cut| cut.pieces.len());
    let refused = heap.was_refused();
    let wanted = if refused { Err(Fault::Memory) } else { Ok(4) };
    holds_at(rt, pieces == wanted, good);
    Ok(refused)
}

#[test]
fn each_growth_of_a_cut_may_be_refused(rt: HostRuntime) -> Result<(), Fail> {
    let heap = Scarce::new(rt.alloc());
    refuse_each(&heap, |good| check_growth(&rt, &heap, good))
}
