//! A block: whole lines of a text that are read apart from those before them.

ghost use Rattle.std.specs.Prelude.{◌≡◌, ◌==◌, ℕ, ◌++◌, List, Some, false, true, IfSome, is_some, length};
ghost use Rattle.line_model.specs.basics.Records as records;
ghost use Rattle.line_model.specs.declared.interface.Interface.{Interface as AnyInterface};
ghost use Rattle.line_model.specs.text.Text.{early_rows};
ghost use Rattle.trace_text.specs.Blocks.{HasPassed, IsAtRows, IsBlock, IsHeading, IsSpanOf, first_number, may_pass};
ghost use Rattle.trace_text.specs.Represents.{Represents};

use crate::lines::{Lines, TEXT_LIMIT};
use arrayvec::ArrayVec;
use line_model::interface::Interface;
use std::alloc::Allocator;

/// The lines that a reader of a block has read before it.
const HEADING_LINES: u32 = 2;

/// Their bytes.
const HEADING_BYTES: u32 = 200;

/// What the reader of a text has to know of a block that was read apart from it.
#[derive(Clone, Copy)]
pub struct BlockSpan {
    /// The number of its first row, or 0.
    pub first: u32,
    /// The number of its last row, or 0.
    pub last: u32,
    /// How many lines it has.
    pub lines: u32,
    /// How many bytes they have, with their LFs.
    pub bytes: u32,
}

impl<A: Allocator> Lines<A> {
    /// Returns a reader that has read a header of this interface, and no row. It needs no memory.
    pub fn at_rows(alloc: A, interface: &Interface) -> Self
        ensures { IsAtRows interface.now result }
    {
        Lines {
            ended: HEADING_LINES,
            start: HEADING_BYTES,
            interface: Some(*interface),
            last: 0,
            begun: Vec::new(alloc),
            first: ArrayVec::new(),
            refused: None,
        }
    }

    /// Returns what was read since `at_rows`, as a block whose first row has this number, or 0 where it has no row.
    /// `None` where a line is begun.
    pub fn end_block(&self, first: u32) -> Option<BlockSpan>
        ensures span { (i : AnyInterface) (heading : List ℕ) (block : List ℕ) → IsHeading i heading
            → Represents self.now (heading ++ block)
            → first ≡ first_number (early_rows (heading ++ block))
            → IfSome result (λ span. IsBlock i block (early_rows (heading ++ block))
            × IsSpanOf block (early_rows (heading ++ block)) span) }
        ensures whole { is_some result ≡ (length self.now.begun == 0) }
    {
        if !self.begun.is_empty() {
            return None;
        }
        Some(BlockSpan {
            first,
            last: self.last,
            lines: self.ended.saturating_sub(HEADING_LINES),
            bytes: self.start.saturating_sub(HEADING_BYTES),
        })
    }

    /// Returns whether it may pass a block.
    fn may_pass(&self, span: &BlockSpan) -> bool
        ensures { result ≡ may_pass self.now span.now }
    {
        if self.interface.is_none() || !self.begun.is_empty() || self.refused.is_some() {
            return false;
        }
        let follows = span.first == 0 || self.last < span.first;
        follows && span.lines <= span.bytes && span.bytes <= TEXT_LIMIT - self.start
    }

    /// Passes a block that was read elsewhere, and returns whether it did: where no line is begun, the numbers of the
    /// rows rise, and the text has room for the block. Otherwise nothing has changed, and the block is to be fed.
    pub fn pass_block(&mut self, span: &BlockSpan) -> bool
        // Of any text that it represents, and any block with these rows: it represents the text with the block.
        ensures passed { (i : AnyInterface) (text : List ℕ) (block : List ℕ) (rows : List records.Row)
            → result ≡ true → Represents self.old text → self.old.interface ≡ Some i
            → IsBlock i block rows → IsSpanOf block rows span.now
            → HasPassed self.old self.new text block rows }
        ensures shown { result ≡ may_pass self.old span.now }
        ensures same { result ≡ false → self.new ≡ self.old }
    {
        if !self.may_pass(span) {
            return false;
        }
        self.ended += span.lines;
        self.start += span.bytes;
        if span.first != 0 {
            self.last = span.last;
        }
        true
    }
}
