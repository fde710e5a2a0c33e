//! Reports of recorded interfaces, merged from the reports of their pieces, against reports that another program
//! printed.

ghost use Rattle.std.specs.Prelude.{◌≡◌};

use line_model::address::Address;
use line_model::call::CallRecord;
use line_model::fault::Fault;
use line_model::finding::{Code, Finding};
use line_model::piece::PieceReport;
use line_model::report::Report;
use line_model::state::{Side, StateName};
use report_merge::merging::merge;
use report_merge::reports::{BundleReport, Reports};
use report_merge::row_counts::RowCounts;
use report_merge::text::write_report;
use std::alloc::{AllocError, Allocator, Global};
use std::process::Abort;
use std::test::Fail;
use tests_devices::scarce::{Scarce, refuse_each};
use tests_devices::{CutSink, Cuts};

/// Writes a report to a sink that accepts one byte a call, and checks what that has then.
fn check(rt: &impl Abort, alloc: Global, report: &Report, room: usize, wanted: Result<(), Fault>) {
    let mut sink = CutSink::new(alloc, Cuts::of_steps(1, 1).with_writes(room));
    let answer = write_report(report, &mut sink);
    assert!(rt; answer == wanted);
    assert!(rt; sink.taken.as_slice() == &THREE_EPOCHS[..room.min(THREE_EPOCHS.len())]);
}

/// A call of the DTE that is up and open, without data.
fn open_call<A: Allocator>(alloc: A, epoch: u32, channel: u16, packet: u32) -> CallRecord<A>
    ensures octets { (result.oct_t ≡ 0) × (result.oct_n ≡ 0) }
    ensures segments { result.segments ≡ 0 }
{
    CallRecord {
        epoch,
        channel,
        out: true,
        called: Address::absent(),
        calling: Address::absent(),
        reverse: false,
        up: Some(packet),
        opened: packet,
        ended: None,
        how: None,
        data_t: 0,
        oct_t: 0,
        data_n: 0,
        oct_n: 0,
        segments: 0,
        settings: Vec::new(alloc),
    }
}

/// A piece: its id, its epoch, its channel and its packet.
type Piece = (u32, u32, u16, u32);

/// The report of a piece with one finding, that a data packet of the DTE came while the channel was ready, and one call.
fn report_of<A: Allocator + Copy>(alloc: A, piece: Piece) -> Result<PieceReport<A>, AllocError> {
    let (id, epoch, channel, packet) = piece;
    let finding = Finding {
        packet,
        side: Side::T,
        state: StateName::P1,
        code: Code::Number(20),
    };
    let mut calls = Vec::new(alloc);
    calls.push(open_call(alloc, epoch, channel, packet))?;
    Ok(PieceReport {
        id,
        epoch,
        channel,
        findings: vec![in alloc; finding]?,
        calls,
        octets: 0,
        segments: 0,
    })
}

/// Twelve pieces, four in each of three epochs.
const PIECES: [Piece; 12] = [
    (0, 1, 1, 1),
    (1, 1, 2, 2),
    (2, 1, 3, 3),
    (3, 1, 4, 4),
    (4, 2, 1, 7),
    (5, 2, 2, 8),
    (6, 2, 3, 9),
    (7, 2, 4, 10),
    (8, 3, 1, 13),
    (9, 3, 2, 14),
    (10, 3, 3, 15),
    (11, 3, 4, 16),
];

/// The rows of three epochs, of which none is a gap.
const ROWS: RowCounts = RowCounts {
    packets: 16,
    gaps: None,
};

/// The report of three epochs, parted by restarts in rows 5, 6, 11 and 12.
const THREE_EPOCHS: &[u8] = b"F 1 T p1 20\nF 2 T p1 20\nF 3 T p1 20\nF 4 T p1 20\n\
    F 7 T p1 20\nF 8 T p1 20\nF 9 T p1 20\nF 10 T p1 20\n\
    F 13 T p1 20\nF 14 T p1 20\nF 15 T p1 20\nF 16 T p1 20\n\
    C 1 1 1 out - - 1 1 - open 0 0 0 0 0\nC 2 1 2 out - - 2 2 - open 0 0 0 0 0\n\
    C 3 1 3 out - - 3 3 - open 0 0 0 0 0\nC 4 1 4 out - - 4 4 - open 0 0 0 0 0\n\
    C 5 2 1 out - - 7 7 - open 0 0 0 0 0\nC 6 2 2 out - - 8 8 - open 0 0 0 0 0\n\
    C 7 2 3 out - - 9 9 - open 0 0 0 0 0\nC 8 2 4 out - - 10 10 - open 0 0 0 0 0\n\
    C 9 3 1 out - - 13 13 - open 0 0 0 0 0\nC 10 3 2 out - - 14 14 - open 0 0 0 0 0\n\
    C 11 3 3 out - - 15 15 - open 0 0 0 0 0\nC 12 3 4 out - - 16 16 - open 0 0 0 0 0\n\
    A - 12 0\nP 12 16\nZ 16 12 12 0 0\n";

/// The reports of the twelve pieces, the last first, but with another id for the piece 3, or without it.
fn three_epochs<A: Allocator + Copy>(
    alloc: A,
    third: Option<u32>,
) -> Result<Vec<PieceReport<A>, A>, AllocError> {
    let mut reports = Vec::new(alloc);
    for piece in PIECES.iter().rev() {
        let (id, epoch, channel, packet) = *piece;
        let posted = if id == 3 { third } else { Some(id) };
        if let Some(id) = posted {
            reports.push(report_of(alloc, (id, epoch, channel, packet))?)?;
        }
    }
    Ok(reports)
}

/// The same reports in bundles of `pieces` pieces; the last bundle has what is left, or none.
fn bundles(alloc: Global, pieces: usize) -> Result<Vec<BundleReport>, AllocError> {
    let mut bundles = Vec::new(alloc);
    let mut bundle = BundleReport::new(alloc);
    for report in three_epochs(alloc, Some(3))? {
        bundle = bundle.with(report)?;
        if bundle.ids().len() == pieces {
            bundles.push(bundle.sorted()?)?;
            bundle = BundleReport::new(alloc);
        }
    }
    bundles.push(bundle)?;
    Ok(bundles)
}

/// The same reports dealt to `count` bundles one by one, so that the calls of each bundle lie between those of
/// others.
fn dealt(alloc: Global, count: u32) -> Result<Vec<BundleReport>, AllocError> {
    let mut bundles = Vec::new(alloc);
    for turn in 0..count {
        let mut bundle = BundleReport::new(alloc);
        for report in three_epochs(alloc, Some(3))? {
            if report.id.checked_rem(count) == Some(turn) {
                bundle = bundle.with(report)?;
            }
        }
        bundles.push(bundle.sorted()?)?;
    }
    Ok(bundles)
}

/// Checks that the reports of the twelve pieces give that of the three epochs.
fn check_merged<T: Reports<Global> + Drop>(
    rt: &impl Abort,
    alloc: Global,
    reports: Vec<T>,
) -> Result<(), Fault> {
    let report = merge(alloc, reports, Vec::new(alloc), ROWS, 12)?;
    check(rt, alloc, &report, THREE_EPOCHS.len(), Ok(()));
    Ok(())
}

#[test]
fn pieces_in_any_order_give_the_report_of_the_trace(rt: HostRuntime) -> Result<(), Fail> {
    check_merged(&rt, rt.alloc(), three_epochs(rt.alloc(), Some(3))?)?;
    let mut forwards = three_epochs(rt.alloc(), Some(3))?;
    forwards.reverse();
    check_merged(&rt, rt.alloc(), forwards)?;
    Ok(())
}

#[test]
fn bundles_give_the_report_of_the_trace(rt: HostRuntime) -> Result<(), Fail> {
    for pieces in [1, 2, 5, 12] {
        check_merged(&rt, rt.alloc(), bundles(rt.alloc(), pieces)?)?;
    }
    Ok(())
}

#[test]
fn bundles_with_every_other_piece_give_the_report_of_the_trace(
    rt: HostRuntime,
) -> Result<(), Fail> {
    for count in [2, 3, 5] {
        check_merged(&rt, rt.alloc(), dealt(rt.alloc(), count)?)?;
    }
    Ok(())
}

/// The ids of the piece 3, how many pieces the plan has, and why the reports are refused.
const REFUSALS: [(Option<u32>, u32, Fault); 4] = [
    (Some(5), 12, Fault::Double(5)),
    (Some(5), 11, Fault::UnknownPiece(11)),
    (Some(12), 12, Fault::UnknownPiece(12)),
    (None, 12, Fault::Missing(3)),
];

#[test]
fn reports_that_are_not_the_plans_are_refused(rt: HostRuntime) -> Result<(), Fail> {
    for (third, pieces, fault) in REFUSALS {
        let reports = three_epochs(rt.alloc(), third)?;
        let merged = merge(rt.alloc(), reports, Vec::new(rt.alloc()), ROWS, pieces);
        assert!(rt; merged.err() == Some(fault));
    }
    Ok(())
}

#[test]
fn a_sink_that_is_full_is_reported(rt: HostRuntime) -> Result<(), Fail> {
    let reports = three_epochs(rt.alloc(), Some(3))?;
    let report = merge(rt.alloc(), reports, Vec::new(rt.alloc()), ROWS, 12)?;
    check(
        &rt,
        rt.alloc(),
        &report,
        THREE_EPOCHS.len() - 1,
        Err(Fault::Write),
    );
    Ok(())
}

/// Refuses one growth of a merge, and sees that it is out of memory. Returns whether there was such a growth.
fn check_growth(rt: &impl Abort, heap: &Scarce<Global>, good: u64) -> Result<bool, Fail> {
    let reports = three_epochs(heap, Some(3))?;
    heap.refuse_one(good);
    let merged = merge(heap, reports, Vec::new(heap), ROWS, 12);
    let refused = heap.was_refused();
    let right = match merged {
        Ok(report) => !refused && report.findings.len() == 12 && report.calls.len() == 12,
        Err(fault) => refused && fault == Fault::Memory,
    };
    assert!(rt; right, "growth {good}");
    Ok(refused)
}

#[test]
fn each_growth_of_a_merge_may_be_refused(rt: HostRuntime) -> Result<(), Fail> {
    let heap = Scarce::new(rt.alloc());
    refuse_each(&heap, |good| check_growth(&rt, &heap, good))
}
