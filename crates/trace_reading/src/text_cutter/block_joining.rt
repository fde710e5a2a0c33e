//! A trace text that is cut block by block: the rows of a block were read apart, and are cut in the order of the text.

ghost use Rattle.std.specs.Prelude.{◌≡◌, ℕ, ◌++◌, ◌+◌, List, IfErr, IfOk, OnOk, MatchOption, false, true, length};
ghost use Rattle.std.specs.Bool.{OnTrue};
ghost use Rattle.std.specs.Option.{option_map};
ghost use Rattle.line_model.specs.basics.Records as records;
ghost use Rattle.line_model.specs.text.Text.{early};
ghost use Rattle.line_model.specs.declared.fault.Fault.TheVariants.{Memory};
ghost use Rattle.trace_text.specs.Progress.{bytes_fed};
ghost use Rattle.trace_text.specs.Represents.{IsFaultOf, IsTextFault};
ghost use Rattle.restart_epochs.specs.Cutting.{HasAppended, given_of};
ghost use Rattle.restart_epochs.specs.BlockStates.{IsBlockCut};
ghost use Rattle.live_report.specs.Observing.{AreItems};
ghost use Rattle.trace_reading.specs.TextBlocks.{IsReadAs};
ghost use Rattle.trace_reading.specs.TextCuts.{HasCut, HasTaken, OfCut, OfTaken, known_pieces};

use super::{RowCutter, TextCutter};
use crate::blocks_in_flight::UsedBlock;
use crate::text_block::{Block, BlockRows, ReadBlock, Start, TraceText};
use line_model::fault::Fault;
use line_model::piece::Piece;
use restart_epochs::block_cut::BlockCut;
use std::alloc::Allocator;

impl<A: Allocator + Copy> RowCutter<A> {
    /// Returns `true` only where the interface and the restart machine are those of `start`.
    fn is_at(&self, start: &Start) -> bool
        ensures { OnTrue result ((self.now.interface ≡ start.now.interface) × (self.now.cutter.level ≡ start.now.machine)) }
    {
        self.interface == start.interface && self.cutter.machine().is_same(&start.machine)
    }

    /// Adds rows that were read and cut elsewhere, and appends the pieces that are complete with them. After a
    /// refusal no cutter is left.
    fn join(self, block: BlockCut<A>, pieces: &mut Vec<Piece<A>, A>) -> Result<Self, Fault>
        requires next { (before : List records.Item) × (items : List records.Item)
            × HasCut before self × AreItems self.interface (before ++ items)
            × IsBlockCut self.cutter.level items block }
        ensures interface { IfOk result (λ cutter. cutter.interface ≡ self.interface) }
        ensures cut { OfCut self (λ before. (items : List records.Item)
            → AreItems self.interface (before ++ items)
            → IsBlockCut self.cutter.level items block
            → IfOk result (HasCut (before ++ items))) }
        ensures pieces { OfCut self (λ before. (items : List records.Item)
            → AreItems self.interface (before ++ items)
            → IsBlockCut self.cutter.level items block
            → IfOk result (λ cutter. HasAppended pieces.old.items pieces.new.items
            (given_of self.interface before) (given_of self.interface (before ++ items)))) }
        ensures memory { IfErr result (λ fault. fault ≡ Memory) }
    {
        let RowCutter { interface, cutter } = self;
        let cutter = cutter.join(block, pieces)?;
        Ok(RowCutter { interface, cutter })
    }
}

impl<A: Allocator + Copy> TextCutter<A> {
    /// Returns the interface and the restart machine after the rows so far, once a row was read.
    pub fn start(&self) -> Option<Start>
        ensures { result ≡ option_map (λ f. record { interface = f.interface; machine = f.cutter.level })
            self.now.row_cutter }
    {
        let row_cutter = self.row_cutter.as_ref()?;
        Some(Start {
            interface: row_cutter.interface,
            machine: row_cutter.cutter.machine(),
        })
    }

    /// Returns `true` only where a row was read, and the interface and the restart machine are those of `start`.
    fn is_at(&self, start: &Start) -> bool
        ensures { result ≡ true → MatchOption self.now.row_cutter ⊥
            (λ f. (f.interface ≡ start.now.interface) × (f.cutter.level ≡ start.now.machine)) }
    {
        match &self.row_cutter {
            Some(row_cutter) => row_cutter.is_at(start),
            None => false,
        }
    }

    /// Adds the rows of a block that was read after `start`, if they follow the text that was consumed, and appends the
    /// pieces that are complete with them. Returns `false` where they do not; nothing has changed then, and the bytes
    /// of the block are to be fed. Fails only when memory is refused.
    pub fn take_rows(
        &mut self,
        start: &Start,
        rows: BlockRows<A>,
        pieces: &mut Vec<Piece<A>, A>,
    ) -> Result<bool, Fault>
        requires { (text : List ℕ) × (bytes : List ℕ) × HasTaken text self.old
            × IsReadAs start.now bytes rows }
        ensures taken { OfTaken self.old (λ text. (bytes : List ℕ)
            → IsReadAs start.now bytes rows → IfOk result (λ taken. taken ≡ true
            → HasTaken (text ++ bytes) self.new)) }
        ensures pieces { OfTaken self.old (λ text. (bytes : List ℕ)
            → IsReadAs start.now bytes rows → IfOk result (λ taken. taken ≡ true
            → HasAppended pieces.old.items pieces.new.items (known_pieces text)
            (known_pieces (text ++ bytes)))) }
        ensures same { IfOk result (λ taken. taken ≡ false
            → (self.new ≡ self.old) × (pieces.new.items ≡ pieces.old.items)) }
        ensures memory { IfErr result (λ fault. fault ≡ Memory) }
    {
        if !self.is_at(start) || !self.lines.pass_block(&rows.span) {
            return Ok(false);
        }
        let Some(row_cutter) = self.row_cutter.take() else {
            unreachable!();
        };
        self.row_cutter = Some(row_cutter.join(rows.cut, pieces)?);
        Ok(true)
    }

    /// Consumes the next block of the text: its rows where it was read apart and follows the text that was consumed,
    /// otherwise its bytes. Fails with the first line that is faulty however the text goes on, or when memory is
    /// refused. Returns the pieces that are complete with it, and the memory of the block, which may be used again.
    pub fn take_block<P: TraceText>(
        &mut self,
        read: ReadBlock<P, A>,
    ) -> Result<(Vec<Piece<A>, A>, UsedBlock<A>), Fault>
        requires { (text : List ℕ) × HasTaken text self.old }
        ensures taken { OfTaken self.old (λ text.
            OnOk result (HasTaken (text ++ read.bytes) self.new)) }
        ensures pieces { OfTaken self.old (λ text.
            IfOk result (λ taken. known_pieces (text ++ read.bytes) ≡ known_pieces text
            ++ taken.0.items)) }
        ensures refused { OfTaken self.old (λ text.
            IfErr result (IsFaultOf (early (text ++ read.bytes)))) }
        ensures size { OnOk result (bytes_fed self.new.lines
            ≡ bytes_fed self.old.lines + length read.bytes) }
        ensures kinds { IfErr result IsTextFault }
    {
        let ReadBlock { block, rows } = read;
        let Block {
            start,
            bytes,
            lists,
            ..
        } = block;
        if let Some(rows) = rows {
            let mut pieces = Vec::new(*self.row.octets.allocator());
            if self.take_rows(&start, rows, &mut pieces)? {
                return Ok((pieces, UsedBlock { bytes, lists }));
            }
        }
        let pieces = self.feed(bytes.as_slice())?;
        Ok((pieces, UsedBlock { bytes, lists }))
    }
}
