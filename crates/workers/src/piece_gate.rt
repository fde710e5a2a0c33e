//! How a worker runs a piece, and the other work that it does.

ghost use Rattle.std.specs.Prelude.{◌≡◌, All, IfOk, MatchResult, OnOk, map};
ghost use Rattle.line_model.specs.pieces.Plans.{result_of};
ghost use Rattle.line_model.specs.declared.fault.Fault.TheVariants.{Memory};

use line_model::fault::Fault;
use line_model::piece::{Piece, PieceReport};
use report_merge::reports::BundleReport;
use shared_work::queue::Bundle;
use std::alloc::Allocator;
use std::sync::Wait;

/// Runs pieces, and is shared by all workers.
pub trait Gate: Sync {
    ghost use Rattle.line_model.specs.basics.Records as records;

    /// It made this report of the piece. So callers know which gate ran their pieces.
    ghost ran: { Self → records.Piece → records.PieceReport → Type 0 };

    /// Returns the report of the piece. Fails only when memory is refused.
    fn run<A: Allocator + Copy>(&self, alloc: A, piece: &Piece<A>) -> Result<PieceReport<A>, Fault>
        ensures value { MatchResult result (λ r. r ≡ result_of piece.now) (λ fault. fault ≡ Memory) }
        ensures ran { IfOk result (ran self.now piece.now) };

    /// Returns the reports of the pieces of a bundle, in the bundle's order. Fails only when memory is refused.
    fn run_bundle<A: Allocator + Copy>(
        &self,
        alloc: A,
        bundle: &Bundle<A>,
    ) -> Result<BundleReport<A>, Fault>
        ensures values { MatchResult result (λ reports. reports ≡ map result_of bundle.now) (λ fault. fault
            ≡ Memory) }
        ensures ran { OnOk result (All (λ piece. ran self.now piece (result_of piece)) bundle.now) }
    {
        let (front, last) = bundle.parts();
        let mut reports = BundleReport::new(alloc);
        for piece in front {
            reports = reports.with(self.run(alloc, piece)?)?;
        }
        let reports = reports.with(self.run(alloc, last)?)?;
        Ok(reports.sorted()?)
    }

    /// May do other work of the scan, and returns whether it did. A worker calls it before it takes a piece.
    fn help<R: Wait>(&self, _rt: &R) -> bool {
        false
    }
}
