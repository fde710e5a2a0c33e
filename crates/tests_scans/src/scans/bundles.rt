//! Lists of pieces that are fed at once, and go through the queue in bundles.

use crate::scans::runs::{Way, scan_through};
use crate::scans::seams::{push_restart, push_row};
use line_model::fault::Fault;
use line_model::piece::{Piece, PieceReport};
use std::alloc::{AllocError, Allocator, Global};
use std::sync::Wait;
use std::sync::atomic::AtomicU64;
use std::sync::atomic::Ordering::SeqCst;
use std::test::Fail;
use tests_devices::Cuts;
use trace_scan::gate::OpenGate;
use workers::Gate;

/// Counts pieces and bundles, and pieces that are wrong: out of the order of their ids, or not the first of a bundle with
/// over 500 rows up to them. The only worker asks for help before each bundle.
#[derive(Drop)]
struct Counting {
    pieces: AtomicU64,
    bundles: AtomicU64,
    /// The rows of the bundle up to now.
    rows: AtomicU64,
    wrong: AtomicU64,
}

impl Gate for Counting {
    ghost ran = { λ gate piece report. Unit {0} };

    fn run<A: Allocator + Copy>(
        &self,
        alloc: A,
        piece: &Piece<A>,
    ) -> Result<PieceReport<A>, Fault> {
        let rows = piece.items.len() as u64;
        let before = self.rows.fetch_add(rows, SeqCst);
        if before == 0 {
            self.bundles.fetch_add(1, SeqCst);
        }
        let number = self.pieces.fetch_add(1, SeqCst);
        if u64::from(piece.id) != number || (0 < before && 500 < before.saturating_add(rows)) {
            self.wrong.fetch_add(1, SeqCst);
        }
        OpenGate.run(alloc, piece)
    }

    fn help<R: Wait>(&self, _rt: &R) -> bool {
        self.rows.store(0, SeqCst);
        false
    }
}

/// An epoch, how many pieces of it there are, and how many rows each of them has.
type Run = (u32, u32, u32);

/// A trace text of runs, and a restart after the last one.
fn text_of(alloc: Global, runs: &[Run]) -> Result<String, AllocError> {
    let mut text = String::from_str(alloc, "X25 1 MOD 8 WIN 2 SIZE 128 PVC 0 SVC 1000\n")?;
    let (mut last, mut channel, mut open) = (0u32, 0u32, 1u32);
    for (epoch, pieces, rows) in runs {
        if *epoch != open {
            last = push_restart(alloc, &mut text, last)?;
            (channel, open) = (0, *epoch);
        }
        for _ in 0..*pieces {
            channel = channel.saturating_add(1);
            for _ in 0..*rows {
                last = push_row(alloc, &mut text, last, channel)?;
            }
        }
    }
    push_restart(alloc, &mut text, last)?;
    Ok(text)
}

/// Runs, with how many pieces they have and how many bundles they make.
const LISTS: [(&[Run], u64, u64); 15] = [
    (&[], 0, 0),
    (&[(1, 1, 1)], 1, 1),
    (&[(1, 2, 1)], 2, 2),
    (&[(1, 64, 1)], 64, 64),
    (&[(1, 65, 1)], 65, 1),
    (&[(1, 500, 1)], 500, 1),
    (&[(1, 501, 1)], 501, 2),
    (&[(1, 1000, 1)], 1000, 2),
    (&[(1, 1, 501)], 1, 1),
    (&[(1, 65, 1), (1, 1, 501), (1, 3, 1)], 69, 3),
    (&[(1, 65, 1), (1, 1, 436)], 66, 2),
    (&[(1, 399, 1), (2, 101, 1)], 500, 1),
    (&[(1, 400, 1), (2, 100, 1)], 500, 2),
    (&[(1, 450, 1), (2, 399, 1), (3, 1, 1)], 850, 2),
    (&[(1, 450, 1), (2, 400, 1), (3, 1, 1)], 851, 3),
];

#[test]
fn the_pieces_of_a_list_of_more_than_64_are_taken_in_bundles_of_at_most_500_rows(
    rt: HostRuntime,
) -> Result<(), Fail> {
    for (runs, pieces, bundles) in LISTS {
        let text = text_of(rt.alloc(), runs)?;
        let gate = Counting {
            pieces: AtomicU64::new(0),
            bundles: AtomicU64::new(0),
            rows: AtomicU64::new(0),
            wrong: AtomicU64::new(0),
        };
        let scanned = scan_through(
            &rt,
            &gate,
            Way::Crew(1, 1024),
            text.as_bytes(),
            Cuts::none(),
        );
        assert!(rt; scanned.answer.is_ok());
        assert!(rt; gate.pieces.load(SeqCst) == pieces, "{pieces} pieces");
        assert!(rt; gate.bundles.load(SeqCst) == bundles, "{pieces} pieces");
        assert!(rt; gate.wrong.load(SeqCst) == 0, "{pieces} pieces");
    }
    Ok(())
}
