//! Rows that are cut apart, in lists that are used again.

use crate::epochs::{EPOCH, rows_of};
use line_model::row::Row;
use packet_decode::decode::decode;
use restart_epochs::block_cut::BlockCutter;
use restart_epochs::restart::Restart;
use restart_epochs::rows_by_channel::RowsByChannel;
use std::alloc::Global;
use std::test::Fail;
use tests_devices::interfaces::PLAIN;
use tests_devices::scarce::Scarce;

/// Cuts rows, and returns the lists that it used.
fn cut<'a>(
    heap: &'a Scarce<Global>,
    rows: &[Row<&'a Scarce<Global>>],
    lists: RowsByChannel<&'a Scarce<Global>>,
) -> Result<RowsByChannel<&'a Scarce<Global>>, Fail> {
    let mut cutter = BlockCutter::new(heap, &PLAIN, Restart::first(&PLAIN), lists);
    for row in rows {
        let packet = decode(&PLAIN, row.octets.as_slice());
        cutter.push(&row.item(packet))?;
    }
    let (_, used) = cutter.end()?;
    Ok(used)
}

#[test]
fn lists_that_were_used_take_less_memory(rt: HostRuntime) -> Result<(), Fail> {
    let heap = Scarce::new(rt.alloc());
    let rows = rows_of(&heap, EPOCH.as_slice())?;
    heap.grant_all();
    let used = cut(&heap, &rows, RowsByChannel::new(&heap))?;
    let first = heap.asked();
    heap.grant_all();
    drop(cut(&heap, &rows, used)?);
    let second = heap.asked();
    assert!(rt; second < first, "{second} growths after {first}");
    Ok(())
}
