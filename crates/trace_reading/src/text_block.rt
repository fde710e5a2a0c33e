//! Blocks of the trace text: whole lines that any thread reads.

ghost use Rattle.std.specs.Prelude.{◌≡◌, ◌++◌, ◌∷◌, [], List, ℕ, IfSome, OnOk, cond};
ghost use Rattle.line_model.specs.channels.GapRestart.{GapInterfaceState};
ghost use Rattle.line_model.specs.basics.Records as records;
ghost use Rattle.line_model.specs.packets.Says.{read_row};
ghost use Rattle.trace_reading.specs.TextBlocks.{AreRead, HasReadTo, IsReadAs};

use line_model::fault::Fault;
use line_model::interface::Interface;
use line_model::row::ReadRow;
use packet_decode::decode::item_of_row;
use restart_epochs::block_cut::{BlockCut, BlockCutter};
use restart_epochs::restart::Restart;
use restart_epochs::rows_by_channel::RowsByChannel;
use std::alloc::{AllocError, Allocator, Global};
use std::marker::{Brand, Model, PhantomData};
use std::mem;
use trace_text::lines::Lines;
use trace_text::lines::block::BlockSpan;

/// The text that a source shows, which only contracts see. Without one, contracts are about any text.
pub trait TraceText {
    ghost use Rattle.std.specs.Prelude.{Option, List, ℕ};

    ghost text: { Option (List ℕ) };
}

impl TraceText for Brand {
    ghost use Rattle.std.specs.Prelude.{None};

    ghost text = { None };
}

/// The state after which the rows of a block are read.
#[derive(Clone, Copy)]
pub struct Start {
    /// The interface of the header.
    pub interface: Interface,
    /// The restart machine after the rows before the block, by a guess: its reader has not read them.
    pub machine: Restart,
}

/// Bytes of the trace text, and how many of its bytes come before them.
#[derive(Drop)]
pub struct Block<P: TraceText, A: Allocator = Global> {
    pub place: u32,
    pub start: Start,
    pub bytes: Vec<u8, A>,
    /// Lists for its rows by channel, whose memory is used again.
    pub lists: RowsByChannel<A>,
    pub text: PhantomData<P>,
}

impl<P: TraceText, A: Allocator> Model for Block<P, A> {
    ghost use Rattle.std.specs.Prelude.{IfSome};
    ghost use Rattle.trace_reading.specs.TextBlocks.{BlockView, IsPartAt};

    ghost Value = { BlockView };

    ghost view = { λ b. record { place = b.place; start = b.start; bytes = b.bytes.items } };

    ghost invariant = { λ b. IfSome P.text (λ whole. IsPartAt whole b.place b.bytes.items) };
}

/// What the rows of a block say, by epoch and channel, and what the reader of the text has to know of it.
#[derive(Drop)]
pub struct BlockRows<A: Allocator = Global> {
    pub span: BlockSpan,
    pub cut: BlockCut<A>,
}

/// A block with its rows; none where it could not be read apart.
#[derive(Drop)]
pub struct ReadBlock<P: TraceText, A: Allocator = Global> {
    pub block: Block<P, A>,
    pub rows: Option<BlockRows<A>>,
}

impl<P: TraceText, A: Allocator> Model for ReadBlock<P, A> {
    ghost use Rattle.std.specs.Prelude.{IfSome};
    ghost use Rattle.trace_reading.specs.TextBlocks.{BlockView, IsReadAs, IsPartAt};

    ghost Value = { BlockView };

    ghost view = { λ r. r.block };

    ghost invariant = { λ r. IfSome P.text (λ whole. IsPartAt whole r.block.place r.block.bytes) × IfSome r.rows (IsReadAs r.block.start r.block.bytes) };
}

/// The rows that were read of a block so far.
#[derive(Drop)]
struct RowsSoFar<A: Allocator = Global> {
    interface: Interface,
    is_empty: bool,
    /// The number of the first row, or 0.
    first: u32,
    cutter: BlockCutter<A>,
}

impl<A: Allocator + Copy> RowsSoFar<A> {
    /// Returns the cut before the first row. Uses these lists again, and allocates no memory.
    fn new(alloc: A, start: &Start, lists: RowsByChannel<A>) -> Self
        ensures interface { result.interface ≡ start.now.interface }
        ensures none { AreRead start.now.machine [] result }
    {
        RowsSoFar {
            interface: start.interface,
            is_empty: true,
            first: 0,
            cutter: BlockCutter::new(alloc, &start.interface, start.machine, lists),
        }
    }

    /// Returns the number of the first row once a row of this number is added.
    fn first_with(&self, number: u32) -> u32
        ensures { result ≡ cond self.now.is_empty number self.now.first }
    {
        if self.is_empty { number } else { self.first }
    }

    /// Adds a row.
    fn add(&mut self, row: &ReadRow<A>) -> Result<(), AllocError>
        ensures interface { self.new.interface ≡ self.old.interface }
        ensures added { (l : GapInterfaceState) (rows : List records.Row) (next : records.Row)
            → AreRead l rows self.old → row.now ≡ read_row next
            → OnOk result (AreRead l (rows ++ next ∷ []) self.new) }
    {
        self.first = self.first_with(row.number);
        self.is_empty = false;
        let item = item_of_row(&self.interface, row);
        self.cutter.push(&item)
    }

    /// Adds the rows of the lines that an LF of these bytes ends, each read into the place of the one before.
    fn add_lines(
        &mut self,
        bytes: &[u8],
        lines: &mut Lines<A>,
        row: &mut ReadRow<A>,
    ) -> Result<(), Fault>
        ensures interface { self.new.interface ≡ self.old.interface }
        ensures added { (l : GapInterfaceState) (text : List ℕ) → HasReadTo l text lines.old self.old
            → OnOk result (HasReadTo l (text ++ bytes.now) lines.new self.new) }
    {
        let mut rest = bytes;
        while let Some(after) = lines.next_row(rest, row)? {
            self.add(row)?;
            rest = after;
        }
        Ok(())
    }
}

/// Returns the rows of a block that is read after `start`, and leaves the lists for the next block. `None` where a line
/// is faulty, the last line has no LF, or memory is refused; the lists are freed then.
fn rows_of<A: Allocator + Copy>(
    alloc: A,
    start: &Start,
    bytes: &[u8],
    lists: &mut RowsByChannel<A>,
) -> Option<BlockRows<A>>
    ensures { IfSome result (IsReadAs start.now bytes.now) }
{
    let mut lines = Lines::at_rows(alloc, &start.interface);
    let used = mem::replace(lists, RowsByChannel::new(alloc));
    let mut rows = RowsSoFar::new(alloc, start, used);
    let mut row = ReadRow::blank(alloc);
    let Ok(()) = rows.add_lines(bytes, &mut lines, &mut row) else {
        return None;
    };
    let span = lines.end_block(rows.first)?;
    let Ok((cut, left)) = rows.cutter.end() else {
        return None;
    };
    *lists = left;
    Some(BlockRows { span, cut })
}

impl<P: TraceText, A: Allocator + Copy> Block<P, A> {
    /// Reads the rows of the block apart from the text before it. Returns the block without rows where a line is faulty
    /// or memory is refused.
    pub fn read(self) -> ReadBlock<P, A>
        ensures { result ≡ self }
    {
        let mut block = self;
        let alloc = *block.bytes.allocator();
        let rows = rows_of(
            alloc,
            &block.start,
            block.bytes.as_slice(),
            &mut block.lists,
        );
        ReadBlock { block, rows }
    }
}
