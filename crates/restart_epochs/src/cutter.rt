//! The cutter, which cuts a trace into pieces by epoch and logical channel, row by row.

ghost use Rattle.std.specs.Prelude.{◌≡◌, ◌<◌, ◌≤◌, ◌+◌, ◌-◌, ◌^◌, ◌++◌, ◌∷◌, [], List, length, IfErr, IfOk, OnOk, Some, None, cond};
ghost use Rattle.line_model.specs.basics.Bounds.{IsSaid};
ghost use Rattle.restart_epochs.specs.Cutting.{IsUnchanged};

use crate::channel_table::ChannelTable;
use crate::ended_epoch::{EndedEpoch, append_pieces};
use crate::open_pieces::OpenPieces;
use crate::showing::copy_pieces;
use crate::walk::EpochWalk;
use line_model::fault::Fault;
use line_model::finding::Finding;
use line_model::interface::Interface;
use line_model::items::ItemRef;
use line_model::piece::Piece;
use std::alloc::{Allocator, Global};
use std::marker::Model;

/// Cuts a trace into pieces.
#[derive(Drop)]
pub struct Cutter<A: Allocator = Global> {
    walk: EpochWalk<A>,
    pieces: OpenPieces<A>,
    /// The number of the last row, or 0.
    last: u32,
    octets: u32,
}

impl<A: Allocator> Model for Cutter<A> {
    ghost use Rattle.restart_epochs.specs.Cutting.{Cutting, IsCutting};

    ghost Value = { Cutting };

    ghost view = { λ c. record {
      interface = c.walk.interface;
      level = c.walk.machine;
      epoch = c.walk.epoch;
      start = c.walk.start;
      given = c.pieces.given;
      packets = c.walk.packets;
      gaps = c.walk.gaps;
      last = c.last;
      octets = c.octets;
      findings = c.walk.findings.items;
      gap = c.pieces.gap;
      open_rows = c.pieces.rows;
    } };

    ghost invariant = { λ c. IsCutting (record {
      interface = c.walk.interface;
      level = c.walk.machine;
      epoch = c.walk.epoch;
      start = c.walk.start;
      given = c.pieces.given;
      packets = c.walk.packets;
      gaps = c.walk.gaps;
      last = c.last;
      octets = c.octets;
      findings = c.walk.findings.items;
      gap = c.pieces.gap;
      open_rows = c.pieces.rows;
    }) };
}

/// A trace that was cut: its pieces, the findings of the restart machine, and how many rows are packets, and how many are gaps
/// where gaps are rows.
#[derive(Drop)]
pub struct Cut<A: Allocator = Global> {
    pub pieces: Vec<Piece<A>, A>,
    pub interface_findings: Vec<Finding, A>,
    pub packets: u32,
    pub gaps: Option<u32>,
}

impl<A: Allocator + Copy> Cutter<A> {
    ghost use Rattle.line_model.specs.observer.Report.{gaps_among, gaps_of};
    ghost use Rattle.line_model.specs.pieces.Plans.{plan, level_findings};
    ghost use Rattle.line_model.specs.basics.Records as records;
    ghost use Rattle.line_model.specs.declared.interface.Interface.{Interface as AnyInterface};
    ghost use Rattle.line_model.specs.declared.fault.Fault.TheVariants.{Memory};
    ghost use Rattle.restart_epochs.specs.Cutting.{OfCut, Represents, IsCounted, HasAppended, given_of};

    /// Returns a cutter before the first row. Allocates nothing.
    pub fn new(alloc: A, interface: &Interface) -> Self
        ensures represented { Represents interface.now [] result }
        ensures last { result.last ≡ 0 }
        ensures octets { result.octets ≡ 0 }
    {
        Cutter {
            walk: EpochWalk::new(alloc, interface),
            pieces: OpenPieces {
                given: 0,
                gap: 0,
                rows: ChannelTable::new(alloc),
            },
            last: 0,
            octets: 0,
        }
    }

    /// Reads the next row, and appends the pieces of the epoch that it ends, if it leaves r1. Fails only when memory is
    /// refused, and nothing has changed then.
    pub fn push(&mut self, item: &ItemRef<'_>, out: &mut Vec<Piece<A>, A>) -> Result<(), Fault>
        requires said { IsSaid self.old.interface item.now }
        requires rising { self.old.last < item.now.number }
        requires number { item.now.number ≤ 999999999 }
        requires octets { self.old.octets + item.now.length ≤ 2 ^ 31 }
        // Of any rows that it has read: it represents them and this one.
        ensures represented { OfCut self.old (λ i rows.
            OnOk result (Represents i (rows ++ item.now ∷ []) self.new)) }
        // The pieces that are complete were appended to those that were.
        ensures given { (i : AnyInterface) (rows : List records.Item) (pieces : List records.Piece)
            → Represents i rows self.old → out.old.items ≡ pieces ++ given_of i rows
            → OnOk result (out.new.items ≡ pieces ++ given_of i (rows ++ item.now ∷ [])) }
        // Whatever the list had: the pieces that are complete now are appended.
        ensures appended { OfCut self.old (λ i rows.
            OnOk result (HasAppended out.old.items out.new.items
            (given_of i rows) (given_of i (rows ++ item.now ∷ [])))) }
        ensures counted { OnOk result (IsCounted item.now self.old self.new) }
        ensures refused { IfErr result (λ fault. (fault ≡ Memory)
            × IsUnchanged self.old self.new × (out.new.items ≡ out.old.items)) }
    {
        let step = self.walk.step(item)?;
        self.pieces.apply(&self.walk, step.effect, item, out)?;
        self.walk.advance(step);
        self.last = item.number;
        self.octets += item.length as u32;
        Ok(())
    }

    /// Returns copies of the pieces that were not given out yet, which have no end. The cutter stays as it is. Fails
    /// only when memory is refused.
    pub fn peek(&self) -> Result<Vec<Piece<A>, A>, Fault>
        ensures pieces { OfCut self.now (λ i rows.
            IfOk result (λ pieces. given_of i rows ++ pieces.items ≡ plan i rows)) }
        ensures refused { IfErr result (λ fault. fault ≡ Memory) }
    {
        copy_pieces(
            *self.walk.findings.allocator(),
            self.open_epoch(),
            self.pieces.given,
            &self.pieces.rows,
        )
    }

    /// Returns how many pieces were given out: those of the epochs that have ended.
    pub fn given(&self) -> usize
        ensures { OfCut self.now (λ i rows. result ≡ length (given_of i rows)) }
    {
        self.pieces.given as usize
    }

    /// Returns the findings of the restart machine so far.
    pub fn interface_findings(&self) -> &[Finding]
        ensures { OfCut self.now (λ i rows. result.now ≡ level_findings i rows) }
    {
        self.walk.findings.as_slice()
    }

    /// The epoch that has not ended.
    fn open_epoch(&self) -> EndedEpoch
        ensures interface { result.interface ≡ self.now.interface }
        ensures number { result.number ≡ self.now.epoch }
        ensures start { result.start ≡ self.now.start }
        ensures gap { result.gap ≡ self.now.gap }
        ensures end { result.end ≡ None }
    {
        EndedEpoch {
            interface: self.walk.interface,
            number: self.walk.epoch,
            start: self.walk.start,
            gap: self.pieces.gap,
            end: None,
        }
    }

    /// The number of gaps, where gaps are rows.
    fn gaps(&self) -> Option<u32>
        ensures { result ≡ cond self.now.interface.gaps (Some self.now.gaps) None }
    {
        if self.walk.interface.gaps {
            Some(self.walk.gaps)
        } else {
            None
        }
    }

    /// Returns the pieces that were not given out yet, all findings of the restart machine, and how many rows are
    /// packets and gaps. Fails only when memory is refused.
    pub fn end(self) -> Result<Cut<A>, Fault>
        ensures pieces { OfCut self (λ i rows.
            IfOk result (λ cut. given_of i rows ++ cut.pieces.items ≡ plan i rows)) }
        ensures interface_findings { OfCut self (λ i rows.
            IfOk result (λ cut. cut.interface_findings.items ≡ level_findings i rows)) }
        ensures packets { OfCut self (λ i rows. IfOk result (λ cut. cut.packets ≡ length rows - gaps_of rows)) }
        ensures gaps { OfCut self (λ i rows. IfOk result (λ cut. cut.gaps ≡ gaps_among i.gaps rows)) }
        ensures few { OfCut self (λ i rows.
            IfOk result (λ cut. length (given_of i rows) + length cut.pieces.items ≤ 999999999)) }
        // Each piece has a row.
        ensures of_rows { OfCut self (λ i rows.
            IfOk result (λ cut. length (given_of i rows) + length cut.pieces.items ≤ length rows)) }
        ensures refused { IfErr result (λ fault. fault ≡ Memory) }
    {
        let epoch = self.open_epoch();
        let gaps = self.gaps();
        let Cutter {
            walk,
            pieces: mut left,
            ..
        } = self;
        let mut pieces = Vec::new(*walk.findings.allocator());
        pieces.reserve(left.rows.len())?;
        append_pieces(epoch, left.given, &mut left.rows, &mut pieces);
        Ok(Cut {
            pieces,
            interface_findings: walk.findings,
            packets: walk.packets - walk.gaps,
            gaps,
        })
    }
}

mod joining;
mod taken;
