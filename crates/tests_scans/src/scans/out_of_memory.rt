//! Scans whose workers are out of memory.

use crate::host::Host;
use crate::scans::checks::agree;
use crate::scans::runs::{Way, scan_through};
use crate::scans::worked::{THREE_EPOCHS, Wanted, worked};
use line_model::fault::{Fault, Kind};
use line_model::piece::{Piece, PieceReport};
use std::alloc::Allocator;
use std::test::Fail;
use tests_devices::Cuts;
use trace_scan::gate::OpenGate;
use workers::Gate;

/// Is out of memory for one piece and runs all others, or is so for each.
#[derive(Drop)]
struct OutOfMemory {
    id: Option<u32>,
}

impl Gate for OutOfMemory {
    ghost ran = { λ gate piece report. Unit {0} };

    fn run<A: Allocator + Copy>(
        &self,
        alloc: A,
        piece: &Piece<A>,
    ) -> Result<PieceReport<A>, Fault> {
        match self.id {
            Some(id) if piece.id != id => OpenGate.run(alloc, piece),
            _ => Err(Fault::Memory),
        }
    }
}

/// Scans a trace text of which workers are out of memory for a piece or for each, and sees that nothing is written.
fn check(rt: &impl Host, way: Way, text: &[u8], fault: Fault, cuts: Cuts, id: Option<u32>) {
    let scanned = scan_through(rt, &OutOfMemory { id }, way, text, cuts);
    let wanted: Wanted<'_> = (Some(fault), b"");
    agree(rt, &scanned, wanted, cuts);
}

const CREWS: [Way; 5] = [
    Way::Crew(1, 1),
    Way::Crew(2, 64),
    Way::Crew(2, 1),
    Way::Crew(64, 64),
    Way::InBlocks(2, 64, 1),
];

/// For the first piece, for one in the middle, for the last and for each, also where the sink would fail.
#[test]
fn a_worker_out_of_memory_is_reported(rt: HostRuntime) -> Result<(), Fail> {
    let (text, _) = worked(rt.alloc(), THREE_EPOCHS)?;
    let cuts = Cuts::of_steps(7, 7);
    for way in CREWS {
        for id in [Some(0), Some(5), Some(11), None] {
            check(&rt, way, &text, Fault::Memory, cuts, id);
            check(&rt, way, &text, Fault::Memory, cuts.with_writes(0), id);
        }
    }
    Ok(())
}

/// A number that comes twice, once from a source that fails before its line.
#[test]
fn a_faulty_line_comes_before_a_worker_out_of_memory(rt: HostRuntime) -> Result<(), Fail> {
    let (mut text, _) = worked(rt.alloc(), THREE_EPOCHS)?;
    text.extend_from_slice(b"16 T -\n")?;
    let (way, cuts) = (Way::Crew(2, 64), Cuts::of_steps(1, 1));
    check(
        &rt,
        way,
        &text,
        Fault::Trace(18, Kind::Number),
        cuts,
        Some(0),
    );
    check(&rt, way, &text, Fault::Read, cuts.with_bytes(150), Some(0));
    Ok(())
}
