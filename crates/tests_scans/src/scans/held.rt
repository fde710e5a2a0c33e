//! Scans whose workers are held until others came, and whose reader waits for the workers.

use crate::host::Host;
use crate::scans::crews::agree_on_shares;
use crate::scans::runs::{Scanned, Way, scan_from, scan_through};
use crate::scans::worked::{THREE_EPOCHS, worked};
use line_model::fault::Fault;
use line_model::piece::{Piece, PieceReport};
use std::alloc::Allocator;
use std::process::Abort;
use std::sync::atomic::Ordering::SeqCst;
use std::sync::atomic::{AtomicBool, AtomicU64};
use std::test::Fail;
use std::{array, thread};
use tests_devices::{Cuts, Pace, PacedSource};
use trace_scan::gate::OpenGate;
use workers::Gate;

/// The pieces of three epochs on four channels.
const PIECES: usize = 12;

/// A hold ends after this number of turns.
const TURNS: u32 = 100_000_000;

/// A hold lets the other threads run once in this number of turns.
const TURNS_OF_ONE_YIELD: u32 = 8;

/// How often each piece was entered, and whether a hold ended before the pieces came that it waited for.
#[derive(Drop)]
pub struct Record {
    times: [AtomicU64; PIECES],
    late: AtomicBool,
}

impl Record {
    pub fn new() -> Record {
        Record {
            times: array::from_fn(|_| AtomicU64::new(0)),
            late: AtomicBool::new(false),
        }
    }

    /// How often a piece was entered.
    fn times(&self, id: usize) -> &AtomicU64 {
        &self.times[id % PIECES]
    }

    pub fn enter(&self, id: u32) {
        self.times(id as usize).fetch_add(1, SeqCst);
    }

    /// Whether each piece was entered `wanted` times.
    pub fn has_each(&self, wanted: u64) -> bool {
        (0..PIECES).all(|id| self.times(id).load(SeqCst) == wanted)
    }

    /// Whether a hold ended too early.
    pub fn is_late(&self) -> bool {
        self.late.load(SeqCst)
    }

    /// Whether these pieces were entered.
    pub fn has(&self, ids: &[usize]) -> bool {
        ids.iter().all(|id| self.times(*id).load(SeqCst) > 0)
    }

    /// Waits until these pieces were entered, and says whether they were.
    pub fn wait_for(&self, ids: &[usize]) -> bool {
        for turn in 0..TURNS {
            if self.has(ids) || self.is_late() {
                return self.has(ids);
            }
            if turn % TURNS_OF_ONE_YIELD == 0 {
                thread::yield_now();
            }
        }
        self.late.store(true, SeqCst);
        false
    }
}

/// Notes each piece, and holds it until all pieces of its group were entered.
#[derive(Drop)]
struct Holding<'a> {
    record: &'a Record,
    groups: &'a [&'a [usize]],
}

impl Gate for Holding<'_> {
    ghost ran = { λ gate piece report. Unit {0} };

    fn run<A: Allocator + Copy>(
        &self,
        alloc: A,
        piece: &Piece<A>,
    ) -> Result<PieceReport<A>, Fault> {
        self.record.enter(piece.id);
        for group in self.groups {
            if group.contains(&(piece.id as usize)) {
                self.record.wait_for(group);
            }
        }
        OpenGate.run(alloc, piece)
    }
}

/// The scan found what the one observer finds in three epochs, and each piece was entered once.
fn agree(
    rt: &impl Abort,
    scanned: &Scanned,
    record: &Record,
    report: &[u8],
    shares: &[(usize, u64)],
) {
    assert!(rt; !record.is_late(), "a piece was held for {TURNS} turns");
    assert!(rt; record.has_each(1));
    agree_on_shares(rt, scanned, (None, report), shares);
}

/// Two pieces each, which two workers run side by side.
const PAIRS: [&[usize]; 6] = [&[0, 1], &[2, 3], &[4, 5], &[6, 7], &[8, 9], &[10, 11]];

/// The pieces of the first epoch, which four workers run side by side.
const FOUR: [&[usize]; 1] = [&[0, 1, 2, 3]];

/// How many workers run the pieces, which ones they run side by side, and how many pieces each has, if that is known.
const CREWS: [(usize, &[&[usize]], &[(usize, u64)]); 4] = [
    (1, &[], &[(1, 12)]),
    (2, &PAIRS, &[(2, 6)]),
    (4, &FOUR, &[]),
    (64, &FOUR, &[]),
];

/// Scans by a crew that holds each piece until all pieces of its group were entered.
fn check_crew(
    rt: &impl Host,
    way: Way,
    text: &[u8],
    report: &[u8],
    groups: &[&[usize]],
    shares: &[(usize, u64)],
) {
    let record = Record::new();
    let gate = Holding {
        record: &record,
        groups,
    };
    let scanned = scan_through(rt, &gate, way, text, Cuts::of_steps(7, 7));
    agree(rt, &scanned, &record, report, shares);
}

/// Each piece of a group has a worker of its own.
#[test]
fn pieces_of_a_short_trace_are_run_side_by_side_by_1_2_4_and_64_workers(
    rt: HostRuntime,
) -> Result<(), Fail> {
    let (text, (_, report)) = worked(rt.alloc(), THREE_EPOCHS)?;
    for (workers, groups, shares) in CREWS {
        check_crew(&rt, Way::Crew(workers, 64), &text, report, groups, shares);
        check_crew(&rt, Way::Crew(workers, 1), &text, report, groups, shares);
    }
    Ok(())
}

/// Each read gives a line. Before row 7 it waits until the pieces of the first epoch were entered.
#[derive(Drop)]
struct Waiting<'a> {
    record: &'a Record,
    /// Whether no piece was entered when row 5 was asked for.
    none_at_row_5: bool,
    /// Whether the pieces of the first epoch were entered before row 7 was given.
    four_at_row_7: bool,
}

impl Pace for Waiting<'_> {
    fn next_read(&mut self, rest: &[u8]) -> Option<usize> {
        if rest.starts_with(b"5 ") {
            self.none_at_row_5 = self.record.has_each(0);
        }
        if rest.starts_with(b"7 ") {
            self.four_at_row_7 = self.record.wait_for(&[0, 1, 2, 3]);
        }
        Some(length_of_lines(rest, 1))
    }
}

/// How many bytes the first lines have, with their LFs.
pub fn length_of_lines(text: &[u8], lines: usize) -> usize {
    let mut left = lines;
    for (at, byte) in text.iter().enumerate() {
        if *byte == b'\n' {
            left = left.saturating_sub(1);
        }
        if left == 0 {
            return at.saturating_add(1);
        }
    }
    text.len()
}

/// Scans what a source gives that waits, and sees what it saw of the pieces.
fn scan_waiting(rt: &impl Host, source: &mut PacedSource<'_, Waiting<'_>>) -> Scanned {
    let gate = Holding {
        record: source.pace.record,
        groups: &[],
    };
    let (way, cuts) = (Way::Crew(2, 64), Cuts::of_steps(1, 7));
    let scanned = scan_from(rt, rt.alloc(), &gate, way, source, cuts);
    assert!(rt; source.pace.none_at_row_5 && source.pace.four_at_row_7);
    scanned
}

/// Scans a text whose source waits for pieces.
fn scan_paced(rt: &impl Host, text: &[u8], record: &Record) -> Scanned {
    let waiting = Waiting {
        record,
        none_at_row_5: false,
        four_at_row_7: false,
    };
    let mut source = PacedSource::at(text, waiting);
    scan_waiting(rt, &mut source)
}

#[test]
fn pieces_are_run_while_the_text_is_read(rt: HostRuntime) -> Result<(), Fail> {
    let (text, (_, report)) = worked(rt.alloc(), THREE_EPOCHS)?;
    let record = Record::new();
    let scanned = scan_paced(&rt, &text, &record);
    agree(&rt, &scanned, &record, report, &[]);
    Ok(())
}
