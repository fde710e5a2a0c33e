//! A reader whose growths are refused.

use crate::checks::holds_at;
use crate::texts::HEADER;
use line_model::fault::Fault;
use line_model::row::Row;
use std::alloc::{Allocator, Global};
use std::process::Abort;
use std::test::Fail;
use tests_devices::scarce::{Scarce, refuse_each};
use trace_text::lines::Lines;

/// Reads a trace text whose chunks end in the midst of lines.
fn feed<A: Allocator + Copy>(lines: &mut Lines<A>, rows: &mut Vec<Row<A>, A>) -> Result<(), Fault> {
    lines.feed(HEADER, rows)?;
    lines.feed(b"1 T 10010B0000\n2 N 1001", rows)?;
    lines.feed(b"0F\n3 T 100100", rows)?;
    lines.feed(b"AABBCC\n# the end\n", rows)
}

/// Refuses the growths of a reader from one on: it is out of memory from then on. Returns whether there was such a
/// growth.
fn check_growth(rt: &impl Abort, heap: &Scarce<Global>, good: u64) -> bool {
    let mut lines = Lines::new(heap);
    let mut rows = Vec::new(heap);
    heap.refuse_from(good);
    let answer = feed(&mut lines, &mut rows);
    let refused = heap.was_refused();
    let count = rows.len();
    let further = lines.feed(b"4 T -\n", &mut rows).err();
    let end = lines.end(&mut rows).err();
    let right = match refused {
        true => answer.err() == Some(Fault::Memory) && further == end && end == answer.err(),
        false => answer.is_ok() && count == 3,
    };
    holds_at(rt, right, good);
    refused
}

#[test]
fn a_reader_out_of_memory_stays_so(rt: HostRuntime) -> Result<(), Fail> {
    let heap = Scarce::new(rt.alloc());
    refuse_each(&heap, |good| Ok(check_growth(&rt, &heap, good)))
}
