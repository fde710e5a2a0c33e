//! Texts whose lines come first, in the middle and last in a block, by blocks of any number of lines.

use crate::host::Host;
use crate::scans::checks::{agree, same};
use crate::scans::held::length_of_lines;
use crate::scans::runs::{Way, scan, scan_from};
use crate::scans::worked::Wanted;
use line_model::fault::{Fault, Kind};
use std::alloc::{AllocError, Global};
use std::test::Fail;
use tests_devices::{Cuts, Pace, PacedSource};
use trace_scan::gate::OpenGate;

const HEADER: &str = "X25 1 MOD 8 WIN 2 SIZE 128 PVC 0 SVC 4\n";

/// Each read gives this many lines.
#[derive(Drop)]
struct Lines {
    count: usize,
}

impl Pace for Lines {
    fn next_read(&mut self, rest: &[u8]) -> Option<usize> {
        Some(length_of_lines(rest, self.count))
    }
}

/// Scans a trace text of which the source gives `lines` lines at once: they are a block, once the header was read.
/// Returns how many bytes the source was not asked for.
fn check(rt: &impl Host, way: Way, text: &[u8], lines: usize, wanted: Wanted<'_>) -> usize {
    let mut source = PacedSource::at(text, Lines { count: lines });
    let scanned = scan_from(rt, rt.alloc(), &OpenGate, way, &mut source, Cuts::none());
    agree(rt, &scanned, wanted, Cuts::of_steps(lines, usize::MAX));
    source.rest.len()
}

/// Scans a text by blocks of `lines` lines.
fn check_blocks(rt: &impl Host, text: &[u8], lines: usize, wanted: Wanted<'_>) {
    for workers in [1, 2, 4] {
        check(rt, Way::InBlocks(workers, 4, 1), text, lines, wanted);
    }
}

/// Scans a text without a fault by blocks of several numbers of lines: they write what the scan of one thread does.
fn check_rows(rt: &impl Host, text: &[u8], sizes: &[usize]) {
    let alone = scan(rt, Way::Alone, text, Cuts::none());
    assert!(rt; alone.answer.is_ok());
    for lines in sizes {
        check_blocks(rt, text, *lines, (None, alone.taken.as_slice()));
    }
}

/// Rows of an interface with four channels. With some number of lines in a block each row is the first one of a block, and
/// with another the last: restarts between calls, restarts that meet, no row between restarts, rows while a restart is
/// not confirmed, a last restart that is not confirmed, comments and no last LF.
const ROWS: [&str; 6] = [
    "1 T 100100AA\n2 T 10020B0000\n3 N 10020F\n4 T 1000FB0000\n5 N 1000FF\n6 T 10010B0000\n7 N 10010F\n8 T 100100AABB\n9 N 1000FB0000\n10 T 1000FF\n11 T 100200AA\n",
    "1 T 10010B0000\n2 T 1000FB0000\n3 N 1000FB0000\n4 T 10010B0000\n5 N 10010F\n6 N 1000FB0000\n7 T 1000FB0000\n8 N 10040B0000\n",
    "1 T 1000FB0000\n2 N 1000FF\n3 N 1000FB0000\n4 T 1000FF\n5 T 1000FB0000\n6 N 1000FF\n7 N 1000FB0000\n8 T 1000FF\n",
    "1 T 10010B0000\n2 T 1000FB0000\n3 T 100100AA\n4 N 100200AA\n5 T 10030B0000\n6 N 10030F\n7 T 10040B0000\n8 N 100113\n9 T 100117\n10 N 1000FF\n11 T 10010B0000\n12 N 10010F\n",
    "1 T 10010B0000\n2 N 10010F\n3 N 1000FB0000\n4 N 100100AA\n5 N 100200AA\n6 T 100300AA\n7 T 100400AA\n",
    "# one\n1 T 10010B0000\n# two\n# three\n# four\n2 N 10010F\n3 T 1000FB0000\n# five\n4 N 1000FF\n# six\n5 T 100100AA",
];

#[test]
fn rows_are_reported_in_blocks_of_any_number_of_lines(rt: HostRuntime) -> Result<(), Fail> {
    for rows in ROWS {
        let text = format!(in rt.alloc(); "{HEADER}{rows}")?;
        check_rows(
            &rt,
            text.as_bytes(),
            &[1, 2, 3, 4, 5, 6, 7, 8, 9, 10, 11, 12],
        );
    }
    Ok(())
}

/// How many rows of channels are between restarts: after one some rows are in order, and those after them by channel.
const RUNS: [u32; 4] = [127, 128, 129, 300];

/// Appends a row on a channel. Returns its number.
pub fn push_row(
    alloc: Global,
    text: &mut String,
    last: u32,
    channel: u32,
) -> Result<u32, AllocError> {
    let number = last.saturating_add(1);
    text.push_str(format!(in alloc; "{number} T 1{channel:03X}00AA\n")?.as_str())?;
    Ok(number)
}

/// Appends a restart that is confirmed. Returns the number of its last row.
pub fn push_restart(alloc: Global, text: &mut String, last: u32) -> Result<u32, AllocError> {
    let (number, confirmed) = (last.saturating_add(1), last.saturating_add(2));
    let rows = format!(in alloc; "{number} T 1000FB0000\n{confirmed} N 1000FF\n")?;
    text.push_str(rows.as_str())?;
    Ok(confirmed)
}

#[test]
fn runs_of_many_rows_are_reported_in_blocks(rt: HostRuntime) -> Result<(), Fail> {
    let mut text = String::from_str(rt.alloc(), HEADER)?;
    let mut last = 0;
    for rows in RUNS {
        for row in 0..rows {
            last = push_row(rt.alloc(), &mut text, last, row % 4 + 1)?;
        }
        last = push_restart(rt.alloc(), &mut text, last)?;
    }
    check_rows(&rt, text.as_bytes(), &[7, 100, 131, 1000]);
    Ok(())
}

/// How many rows a trace text has of which one is faulty.
const ALL_ROWS: u32 = 12;

/// What is in the place of a row, with its number less by this, and the rule that it breaks.
type Faulty = (u32, &'static str, Kind);

const FAULTY_ROWS: [Faulty; 5] = [
    (1, " T 100100\n", Kind::Number),
    (2, " T 100100\n", Kind::Number),
    (0, " X 100100\n", Kind::Side),
    (0, " T 10010\n", Kind::Hex),
    (0, " T\n", Kind::LineForm),
];

/// A trace text whose row of this index, from 0, is faulty.
fn faulty_text(alloc: Global, at: u32, faulty: Faulty) -> Result<String, AllocError> {
    let (less, rest, _) = faulty;
    let mut text = String::from_str(alloc, HEADER)?;
    for index in 0..ALL_ROWS {
        let own = index.saturating_add(10);
        let (number, row) = match index == at {
            true => (own.saturating_sub(less), rest),
            false => (own, " T 100100\n"),
        };
        text.push_str(format!(in alloc; "{number}{row}")?.as_str())?;
    }
    Ok(text)
}

/// Scans a trace text of which the source gives two lines at once: nothing is asked for after the read that gave the
/// faulty line.
fn check_slow(rt: &impl Host, text: &[u8], line: u32, wanted: Wanted<'_>) {
    let given = (line as usize).div_ceil(2).saturating_mul(2);
    let left = text.len().saturating_sub(length_of_lines(text, given));
    let unasked = check(rt, Way::Crew(2, 4), text, 2, wanted);
    same(rt, unasked as u64, left as u64, "bytes not asked for");
}

/// Scans a trace text from a source that fails after `given` lines: it is refused by its faulty line if that was given,
/// and otherwise by the source.
fn check_failure(rt: &impl Host, text: &[u8], given: u32, line: u32, wanted: Wanted<'_>) {
    let cuts = Cuts::of_steps(20, 7).with_bytes(length_of_lines(text, given as usize));
    let scanned = scan(rt, Way::InBlocks(2, 4, 1), text, cuts);
    let wanted = match given < line {
        true => (Some(Fault::Read), wanted.1),
        false => wanted,
    };
    agree(rt, &scanned, wanted, cuts);
}

/// Scans a text whose row of this index is faulty, by blocks of any number of lines, and whatever comes after the row.
fn check_faulty(rt: &impl Host, at: u32, faulty: Faulty) -> Result<(), Fail> {
    let mut text = faulty_text(rt.alloc(), at, faulty)?;
    let line = at.saturating_add(2);
    let wanted: Wanted<'_> = (Some(Fault::Trace(line, faulty.2)), b"");
    check_slow(rt, text.as_bytes(), line, wanted);
    for given in [at.saturating_add(1), line, ALL_ROWS] {
        check_failure(rt, text.as_bytes(), given, line, wanted);
    }
    for last in ["", "1 X 10\n"] {
        text.push_str(last)?;
        for lines in 1..6 {
            check_blocks(rt, text.as_bytes(), lines, wanted);
        }
    }
    Ok(())
}

#[test]
fn texts_are_refused_in_blocks_by_their_first_faulty_line(rt: HostRuntime) -> Result<(), Fail> {
    for faulty in FAULTY_ROWS {
        for at in 1..ALL_ROWS {
            check_faulty(&rt, at, faulty)?;
        }
    }
    Ok(())
}
