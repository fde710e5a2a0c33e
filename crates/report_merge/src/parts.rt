//! The results of pieces, merged as their reports come.

ghost use Rattle.std.specs.Prelude.{◌≡◌, ◌+◌, ◌<◌, ◌≤◌, ◌^◌, ◌++◌, ◌∷◌, [], List, length, IfOk, IfErr, OnErr, OnOk};
ghost use Rattle.line_model.specs.basics.Records as records;
ghost use Rattle.line_model.specs.declared.interface.Interface.{Interface};
ghost use Rattle.line_model.specs.observer.Report.{report_of};
ghost use Rattle.report_merge.specs.Gathered.{AreGathered, AreSorted, counted, gathered, joined};
ghost use Rattle.report_merge.specs.Merged.{IsMerged, IsOfWalk};

use crate::row_counts::RowCounts;
use call_accounts::account::accounts_of;
use call_accounts::peak::peak_of;
use line_model::call::{CallRecord, copies};
use line_model::fault::Fault;
use line_model::finding::Finding;
use line_model::piece::PieceReport;
use line_model::report::Report;
use line_model::totals::{Summary, Totals};
use std::alloc::{AllocError, Allocator};
use std::marker::Model;

/// Appends records to a list. They become the list where it is empty, and are not copied then. Where memory is refused
/// nothing changes.
fn append_to<T: Drop, A: Allocator>(
    list: &mut Vec<T, A>,
    records: Vec<T, A>,
) -> Result<(), AllocError>
    ensures ok { OnOk result (list.new.items ≡ list.old.items ++ records.items) }
    ensures refused { OnErr result (list.new.items ≡ list.old.items) }
{
    let mut records = records;
    if list.is_empty() {
        *list = records;
        return Ok(());
    }
    list.append(&mut records)
}

/// The results of some pieces, put together.
#[derive(Drop)]
pub struct Parts<A: Allocator> {
    pieces: u32,
    findings: Vec<Finding, A>,
    calls: Vec<CallRecord<A>, A>,
    octets: u64,
    segments: u64,
}

impl<A: Allocator> Model for Parts<A> {
    ghost use Rattle.report_merge.specs.Gathered.{AreFew, Gathered};

    ghost Value = { Gathered };

    ghost view = { λ p. record {
      pieces = p.pieces;
      findings = p.findings.items;
      calls = p.calls.items;
      octets = p.octets;
      segments = p.segments;
    } };

    ghost invariant = { λ p. AreFew p.pieces p.calls.items p.octets p.segments };
}

impl<A: Allocator> Parts<A> {
    /// Returns the results of one piece.
    pub fn of(report: PieceReport<A>) -> Self
        ensures { result ≡ gathered (report ∷ []) }
    {
        let PieceReport {
            findings,
            calls,
            octets,
            segments,
            ..
        } = report;
        Parts {
            pieces: 1,
            findings,
            calls,
            octets,
            segments,
        }
    }

    /// Returns the results of no pieces, with the allocators of its lists. Needs no memory.
    pub(crate) fn none(of_findings: A, of_calls: A) -> Self
        ensures { result ≡ gathered [] }
    {
        Parts {
            pieces: 0,
            findings: Vec::new(of_findings),
            calls: Vec::new(of_calls),
            octets: 0,
            segments: 0,
        }
    }

    /// Returns the number of pieces.
    pub fn pieces(&self) -> u32
        ensures { result ≡ self.now.pieces }
    {
        self.pieces
    }

    /// Returns the totals of the pieces.
    pub fn totals(&self) -> Totals
        ensures { result ≡ counted self.now }
    {
        Totals {
            posts: u64::from(self.pieces),
            findings: self.findings.len() as u64,
            octets: self.octets,
            segments: self.segments,
        }
    }
}

impl<A: Allocator + Copy> Parts<A> {
    /// Returns the results of no pieces. Needs no memory.
    pub fn new(alloc: A) -> Self
        ensures { result ≡ gathered [] }
    {
        Parts::none(alloc, alloc)
    }
}

impl<A: Allocator + Clone> Parts<A> {
    /// Appends the results of other pieces. Fails when memory is refused, or when there would be more than 2^32 - 1
    /// pieces; a part may have been added then.
    pub fn append(&mut self, other: Self) -> Result<(), AllocError>
        ensures { OnOk result (self.new ≡ joined self.old other) }
    {
        let Some(pieces) = self.pieces.checked_add(other.pieces) else {
            return Err(AllocError);
        };
        let Parts {
            findings,
            calls,
            octets,
            segments,
            ..
        } = other;
        self.pieces = pieces;
        self.octets += octets;
        self.segments += segments;
        append_to(&mut self.findings, findings)?;
        append_to(&mut self.calls, calls)
    }

    /// Adds the results of a piece. Where memory is refused a part of them may have been added.
    pub fn add(&mut self, report: PieceReport<A>) -> Result<(), AllocError>
        requires room { self.old.pieces + 1 < 2 ^ 32 }
        ensures added { (ps : List records.PieceReport) → self.old ≡ gathered ps
            → OnOk result (self.new ≡ gathered (ps ++ report ∷ [])) }
        ensures pieces { OnOk result (self.new.pieces ≡ self.old.pieces + 1) }
    {
        self.append(Parts::of(report))
    }

    /// Puts the findings in the order of their packets, and the calls in the order of the packets that opened them.
    /// Fails only where memory is refused, and leaves the calls as they were then.
    pub fn sort(&mut self) -> Result<(), AllocError>
        ensures { OnOk result (AreSorted self.old self.new) }
    {
        self.findings.sort_unstable_by_key(|finding| finding.packet);
        self.calls.sort_by_cached_key(|call| call.opened)
    }

    /// Returns a copy. Fails only when memory is refused.
    pub fn copy(&self) -> Result<Self, Fault>
        ensures same { IfOk result (λ parts. parts ≡ self.now) }
        ensures memory { IfErr result (λ fault. fault ≡ Fault.Memory) }
    {
        let alloc = self.findings.allocator();
        Ok(Parts {
            pieces: self.pieces,
            findings: Vec::from_slice(alloc.clone()?, &self.findings)?,
            calls: copies(alloc.clone()?, &self.calls)?,
            octets: self.octets,
            segments: self.segments,
        })
    }

    /// Returns the report of a trace of these rows, of which these are all pieces, with the findings of its restart
    /// machine. Fails only when memory is refused. The order of a report is profile.
    pub fn finish(self, line: Vec<Finding, A>, rows: RowCounts) -> Result<Report<A>, Fault>
        ensures merged { (ps : List records.PieceReport) → AreGathered ps self
            → IfOk result (λ report. IsMerged report ps line.items rows) }
        ensures report { (i : Interface) (rs : List records.Item) (ps : List records.PieceReport)
            → self ≡ gathered ps → IsOfWalk i rs ps line.items rows (length ps)
            → IfOk result (λ report. report ≡ report_of i rs) }
        ensures memory { IfErr result (λ fault. fault ≡ Fault.Memory) }
    {
        let mut all = self;
        let mut line = line;
        all.findings.append(&mut line)?;
        all.sort()?;
        let Parts {
            findings,
            calls,
            octets,
            segments,
            ..
        } = all;
        let accounts = accounts_of(line.allocator().clone()?, calls.as_slice())?;
        let peak = peak_of(line.allocator().clone()?, calls.as_slice())?;
        let summary = Summary {
            packets: u64::from(rows.packets),
            findings: findings.len() as u64,
            calls: calls.len() as u64,
            octets,
            segments,
        };
        Ok(Report {
            findings,
            calls,
            accounts,
            peak,
            gaps: rows.gaps,
            summary,
        })
    }
}
