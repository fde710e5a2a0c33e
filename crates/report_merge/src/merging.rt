//! The report of a trace, from the reports of its pieces.

ghost use Rattle.std.specs.Prelude.{◌≡◌, IfOk, IfErr};
ghost use Rattle.std.specs.List.{flat_map};
ghost use Rattle.line_model.specs.work.Book.{ids_of};
ghost use Rattle.report_merge.specs.Refusal.{unknown_id, IsRefusal, IsWhole};
ghost use Rattle.report_merge.specs.Gathered.{AreGathered};
ghost use Rattle.report_merge.specs.Merged.{IsMemoryOfWalk, IsMerged, IsReportOfWalk};

use crate::judge::{first_unknown_id, judge};
use crate::parts::Parts;
use crate::reports::Reports;
use crate::row_counts::RowCounts;
use line_model::fault::Fault;
use line_model::finding::Finding;
use line_model::report::Report;
use std::alloc::{AllocError, Allocator};

/// Returns the first id that is not of the plan.
fn unknown_id_of<A: Allocator, T: Reports<A>>(reports: &[T], pieces: u32) -> Option<u32>
    ensures { result ≡ unknown_id pieces (ids_of (flat_map T.reports reports.now)) }
{
    for some in reports {
        if let Some(id) = first_unknown_id(some.ids(), pieces) {
            return Some(id);
        }
    }
    None
}

/// Returns the ids of all pieces.
fn all_ids<A: Allocator, T: Reports<A>>(alloc: A, reports: &[T]) -> Result<Vec<u32, A>, AllocError>
    ensures { IfOk result (λ ids. ids.items ≡ ids_of (flat_map T.reports reports.now)) }
{
    let mut ids = Vec::new(alloc);
    for some in reports {
        ids.extend_from_slice(some.ids())?;
    }
    Ok(ids)
}

/// Puts the results of pieces together.
fn gather<A: Allocator + Clone, T: Reports<A> + Drop>(
    alloc: A,
    reports: Vec<T, A>,
) -> Result<Parts<A>, AllocError>
    ensures { IfOk result (AreGathered (flat_map T.reports reports.items)) }
{
    let mut parts = Parts::none(alloc.clone()?, alloc);
    for some in reports {
        parts.append(some.into_parts())?;
    }
    Ok(parts)
}

/// Merges the reports of pieces, or of bundles of pieces, in any order, with the findings of the restart machine, for a
/// trace of these rows and `pieces` pieces. Fails with `UnknownPiece`, the first report whose id is not below `pieces`;
/// otherwise with `Double`, the first whose id came before it; otherwise with `Missing`, the least absent id; or with
/// `Memory`. The order of a report is profile.
pub fn merge<A: Allocator + Clone, T: Reports<A> + Drop>(
    alloc: A,
    reports: Vec<T, A>,
    line: Vec<Finding, A>,
    rows: RowCounts,
    pieces: u32,
) -> Result<Report<A>, Fault>
    ensures whole { IfOk result (λ r. IsWhole pieces (ids_of (flat_map T.reports reports.items))) }
    ensures merged { IfOk result (λ r. IsMerged r (flat_map T.reports reports.items) line.items rows) }
    ensures report { IfOk result (IsReportOfWalk (flat_map T.reports reports.items) line.items rows pieces) }
    ensures refused { IfErr result (λ f. IsRefusal f pieces (ids_of (flat_map T.reports reports.items))) }
    ensures plan { IfErr result (IsMemoryOfWalk (flat_map T.reports reports.items) line.items rows pieces) }
{
    if let Some(id) = unknown_id_of(&reports, pieces) {
        return Err(Fault::UnknownPiece(id));
    }
    let ids = all_ids(alloc.clone()?, &reports)?;
    judge(alloc.clone()?, &ids, pieces)?;
    gather(alloc, reports)?.finish(line, rows)
}
