//! The reports of pieces: of one, or of a bundle of pieces.

ghost use Rattle.std.specs.Prelude.{◌≡◌, ◌++◌, ◌∷◌, [], All, IfOk};
ghost use Rattle.line_model.specs.basics.Records as records;
ghost use Rattle.line_model.specs.work.Book.{ids_of, totals_of};
ghost use Rattle.report_merge.specs.Gathered.{AreGathered, IsSmall};

use crate::log::Log;
use crate::parts::Parts;
use line_model::piece::PieceReport;
use line_model::totals::Totals;
use std::alloc::{AllocError, Allocator, Global};
use std::marker::Model;
use std::slice;

/// The reports of some pieces, which are posted and merged together.
pub trait Reports<A: Allocator> {
    ghost use Rattle.std.specs.Prelude.{List};
    ghost use Rattle.line_model.specs.basics.Records as records;

    /// The reports, one for each piece.
    ghost reports: { Self → List records.PieceReport };

    /// Returns the ids of the pieces.
    fn ids(&self) -> &[u32]
        ensures ids { result.now ≡ ids_of (reports self.now) }
        ensures small { All IsSmall (reports self.now) };

    /// Returns the totals of the reports.
    fn totals(&self) -> Totals
        ensures { result ≡ totals_of (reports self.now) };

    /// Returns the results of the pieces.
    fn into_parts(self) -> Parts<A>
        ensures { AreGathered (reports self) result };
}

impl<A: Allocator> Reports<A> for PieceReport<A> {
    ghost use Rattle.std.specs.Prelude.{◌∷◌, []};

    ghost reports = { λ report. report ∷ [] };

    fn ids(&self) -> &[u32] {
        slice::from_ref(&self.id)
    }

    fn totals(&self) -> Totals {
        Totals {
            posts: 1,
            findings: self.findings.len() as u64,
            octets: self.octets,
            segments: self.segments,
        }
    }

    fn into_parts(self) -> Parts<A> {
        Parts::of(self)
    }
}

/// The reports of a bundle of pieces, merged. Contracts see the reports.
#[derive(Drop)]
pub struct BundleReport<A: Allocator = Global> {
    ids: Vec<u32, A>,
    parts: Parts<A>,
    reports: Log<PieceReport<A>>,
}

impl<A: Allocator> Model for BundleReport<A> {
    ghost use Rattle.std.specs.Prelude.{List};
    ghost use Rattle.line_model.specs.basics.Records as records;
    ghost use Rattle.report_merge.specs.Gathered.{IsBundle};

    ghost Value = { List records.PieceReport };

    ghost view = { λ b. b.reports.items };

    ghost invariant = { λ b. IsBundle b.reports.items b.ids.items b.parts };
}

impl<A: Allocator + Copy> BundleReport<A> {
    /// Returns the report of no pieces. Needs no memory.
    pub fn new(alloc: A) -> Self
        ensures { result ≡ [] }
    {
        BundleReport {
            ids: Vec::new(alloc),
            parts: Parts::new(alloc),
            reports: Log::new(),
        }
    }

    /// Appends a report. Fails when memory is refused, or when there would be more than 2^32 - 1 reports.
    pub fn with(self, report: PieceReport<A>) -> Result<Self, AllocError>
        ensures { IfOk result (λ bundle. bundle ≡ self ++ report ∷ []) }
    {
        let BundleReport {
            mut ids,
            mut parts,
            reports,
        } = self;
        ids.push(report.id)?;
        let reports = reports.and(&report);
        parts.append(Parts::of(report))?;
        Ok(BundleReport {
            ids,
            parts,
            reports,
        })
    }

    /// Sorts the findings and calls in the order of their packets, so that a merge moves few of them. Fails only when
    /// memory is refused.
    pub fn sorted(self) -> Result<Self, AllocError>
        ensures { IfOk result (λ bundle. bundle ≡ self) }
    {
        let BundleReport {
            ids,
            mut parts,
            reports,
        } = self;
        parts.sort()?;
        Ok(BundleReport {
            ids,
            parts,
            reports,
        })
    }
}

impl<A: Allocator> Reports<A> for BundleReport<A> {
    ghost reports = { λ reports. reports };

    fn ids(&self) -> &[u32] {
        self.ids.as_slice()
    }

    fn totals(&self) -> Totals {
        self.parts.totals()
    }

    fn into_parts(self) -> Parts<A> {
        let BundleReport {
            ids: _,
            parts,
            reports: _,
        } = self;
        parts
    }
}
