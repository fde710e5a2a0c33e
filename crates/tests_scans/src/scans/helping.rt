//! Workers whose gate has other work beside the pieces.

use crate::host::Host;
use crate::scans::checks::agree;
use crate::scans::held::Record;
use crate::scans::runs::{Way, scan_through};
use crate::scans::worked::{THREE_EPOCHS, Wanted, worked};
use line_model::fault::Fault;
use line_model::piece::{Piece, PieceReport};
use std::alloc::Allocator;
use std::sync::Wait;
use std::sync::atomic::AtomicU64;
use std::sync::atomic::Ordering::SeqCst;
use std::test::Fail;
use tests_devices::Cuts;
use trace_scan::gate::OpenGate;
use workers::Gate;

/// Notes each piece. It helps `times` times, and counts how often it is asked to.
#[derive(Drop)]
struct Helping {
    record: Record,
    times: u64,
    asked: AtomicU64,
}

impl Gate for Helping {
    ghost ran = { λ gate piece report. Unit {0} };

    fn run<A: Allocator + Copy>(
        &self,
        alloc: A,
        piece: &Piece<A>,
    ) -> Result<PieceReport<A>, Fault> {
        self.record.enter(piece.id);
        OpenGate.run(alloc, piece)
    }

    fn help<R: Wait>(&self, _rt: &R) -> bool {
        self.asked.fetch_add(1, SeqCst) < self.times
    }
}

/// Scans twelve pieces by a gate that helps `times` times. A worker asks before each piece and before its end.
fn check_helping(rt: &impl Host, text: &[u8], wanted: Wanted<'_>, workers: usize, times: u64) {
    let gate = Helping {
        record: Record::new(),
        times,
        asked: AtomicU64::new(0),
    };
    let scanned = scan_through(rt, &gate, Way::Crew(workers, 2), text, Cuts::none());
    agree(rt, &scanned, wanted, Cuts::none());
    assert!(rt;
        gate.record.has_each(1),
        "{workers} workers, help {times} times"
    );
    let asked = gate.asked.load(SeqCst);
    assert!(rt;
        asked >= (workers as u64).saturating_add(12),
        "{workers} workers asked {asked} times"
    );
}

#[test]
fn a_worker_helps_before_it_takes_and_runs_each_piece_once(rt: HostRuntime) -> Result<(), Fail> {
    let (text, wanted) = worked(rt.alloc(), THREE_EPOCHS)?;
    for times in [0, 3, 1000] {
        check_helping(&rt, &text, wanted, 1, times);
        check_helping(&rt, &text, wanted, 4, times);
    }
    Ok(())
}
