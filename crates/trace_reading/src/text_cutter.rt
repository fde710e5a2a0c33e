//! A trace text that is cut part by part: after a part, the rows of all lines that an LF has ended are cut.

ghost use Rattle.std.specs.Prelude.{◌≡◌, ℕ, ◌++◌, ◌∷◌, ◌+◌, ◌≤◌, ◌^◌, [], List, Option, None, Some, IfErr, IfOk, IfSome, OnOk, length};
ghost use Rattle.line_model.specs.text.Text.{early, fault, head, rows};
ghost use Rattle.line_model.specs.basics.Records as records;
ghost use Rattle.line_model.specs.packets.Says.{item_read, items_of};
ghost use Rattle.line_model.specs.declared.interface.Interface.{Interface as AnyInterface};
ghost use Rattle.line_model.specs.declared.fault.Fault.TheVariants.{Memory};
ghost use Rattle.trace_text.specs.Progress.{bytes_fed};
ghost use Rattle.trace_text.specs.Represents.{IsFaultOf, IsTextFault};
ghost use Rattle.restart_epochs.specs.Cutting.{HasAppended, given_of};
ghost use Rattle.live_report.specs.Observing.{AreItems, last_item};
ghost use Rattle.trace_reading.specs.TextCuts.{AreCut, HasCut, HasTaken, IsCutTo, OfCut, OfCutTo, OfTaken, given_in, known_pieces};

use line_model::fault::Fault;
use line_model::interface::Interface;
use line_model::piece::Piece;
use line_model::row::ReadRow;
use packet_decode::decode::item_of_row;
use restart_epochs::cutter::Cutter;
use std::alloc::{Allocator, Global};
use trace_text::lines::Lines;

/// The cutter of a trace text whose header was read.
#[derive(Drop)]
pub struct RowCutter<A: Allocator = Global> {
    pub interface: Interface,
    pub cutter: Cutter<A>,
}

impl<A: Allocator + Copy> RowCutter<A> {
    /// Before the first row.
    fn new(alloc: A, interface: &Interface) -> Self
        ensures interface { result.interface ≡ interface.now }
        ensures cut { HasCut [] result }
    {
        RowCutter {
            interface: *interface,
            cutter: Cutter::new(alloc, interface),
        }
    }

    /// Cuts a row, and appends the pieces that are known whole with it.
    fn cut(&mut self, row: &ReadRow<A>, pieces: &mut Vec<Piece<A>, A>) -> Result<(), Fault>
        requires next { (before : List records.Item) × HasCut before self.old
            × AreItems self.old.interface (before ++ item_read self.old.interface row.now ∷ []) }
        ensures interface { self.new.interface ≡ self.old.interface }
        ensures cut { OfCut self.old (λ before.
            OnOk result (HasCut (before ++ item_read self.old.interface row.now ∷ []) self.new)) }
        ensures pieces { OfCut self.old (λ before.
            OnOk result (HasAppended pieces.old.items pieces.new.items
            (given_of self.old.interface before) (given_of self.old.interface
            (before ++ item_read self.old.interface row.now ∷ [])))) }
        ensures memory { IfErr result (λ fault. fault ≡ Memory) }
    {
        let item = item_of_row(&self.interface, row);
        self.cutter.push(&item, pieces)
    }

    /// Cuts the row of a last line that no LF ended, if it has one.
    fn cut_last(
        &mut self,
        has_row: bool,
        row: &ReadRow<A>,
        pieces: &mut Vec<Piece<A>, A>,
    ) -> Result<(), Fault>
        requires next { (before : List records.Item) × HasCut before self.old
            × AreItems self.old.interface (before ++ last_item self.old.interface has_row row.now) }
        ensures interface { self.new.interface ≡ self.old.interface }
        ensures cut { OfCut self.old (λ before.
            OnOk result (HasCut (before ++ last_item self.old.interface has_row row.now) self.new)) }
        ensures pieces { OfCut self.old (λ before.
            OnOk result (HasAppended pieces.old.items pieces.new.items
            (given_of self.old.interface before) (given_of self.old.interface
            (before ++ last_item self.old.interface has_row row.now)))) }
        ensures memory { IfErr result (λ fault. fault ≡ Memory) }
    {
        if has_row {
            return self.cut(row, pieces);
        }
        Ok(())
    }

    /// Cuts the rows of the lines that an LF of this part of the text ends, each read into the place of the one before,
    /// and appends the pieces that are known whole with them.
    fn cut_lines(
        &mut self,
        bytes: &[u8],
        lines: &mut Lines<A>,
        row: &mut ReadRow<A>,
        pieces: &mut Vec<Piece<A>, A>,
    ) -> Result<(), Fault>
        requires { (text : List ℕ) × IsCutTo text lines.old self.old }
        ensures interface { self.new.interface ≡ self.old.interface }
        ensures cut { OfCutTo lines.old self.old (λ text.
            OnOk result (IsCutTo (text ++ bytes.now) lines.new self.new)) }
        ensures pieces { OfCutTo lines.old self.old (λ text.
            OnOk result (HasAppended pieces.old.items pieces.new.items
            (given_in self.old.interface text) (given_in self.old.interface
            (text ++ bytes.now)))) }
        ensures refused { OfCutTo lines.old self.old (λ text.
            IfErr result (IsFaultOf (early (text ++ bytes.now)))) }
        ensures size { OnOk result (bytes_fed lines.new ≡ bytes_fed lines.old + length bytes.now) }
        ensures limit { OnOk result (bytes_fed lines.new ≤ 2 ^ 30) }
        ensures kinds { IfErr result IsTextFault }
    {
        let mut rest = bytes;
        while let Some(after) = lines.next_row(rest, row)? {
            self.cut(row, pieces)?;
            rest = after;
        }
        Ok(())
    }
}

/// The row cutter of a trace text whose header was read: a new one before its first row.
fn row_cutter_of<A: Allocator + Copy>(
    alloc: A,
    interface: &Interface,
    row_cutter: Option<RowCutter<A>>,
) -> RowCutter<A>
    ensures cut { (rows : List records.Row) (head : Option AnyInterface) → AreCut rows head row_cutter
        → IfSome head (λ i. i ≡ interface.now) → HasCut (items_of interface.now rows) result }
    ensures interface { (rows : List records.Row) (head : Option AnyInterface)
        → AreCut rows head row_cutter → IfSome head (λ i. i ≡ interface.now)
        → result.interface ≡ interface.now }
{
    match row_cutter {
        Some(row_cutter) => row_cutter,
        None => RowCutter::new(alloc, interface),
    }
}

/// A trace text that is read part by part, and cut into the pieces of its trace.
#[derive(Drop)]
pub struct TextCutter<A: Allocator = Global> {
    pub lines: Lines<A>,
    /// The last row, whose room the next one uses.
    row: ReadRow<A>,
    /// Made once the first row was read.
    row_cutter: Option<RowCutter<A>>,
}

impl<A: Allocator + Copy> TextCutter<A> {
    /// Starts before the first byte of the trace text. Allocates no memory.
    pub fn new(alloc: A) -> Self
        ensures { HasTaken [] result }
    {
        TextCutter {
            lines: Lines::new(alloc),
            row: ReadRow::blank(alloc),
            row_cutter: None,
        }
    }

    /// Cuts the next part of the text, and appends the pieces that are known whole with its rows.
    fn feed_into(&mut self, bytes: &[u8], pieces: &mut Vec<Piece<A>, A>) -> Result<(), Fault>
        requires { (text : List ℕ) × HasTaken text self.old }
        ensures taken { OfTaken self.old (λ text.
            OnOk result (HasTaken (text ++ bytes.now) self.new)) }
        ensures pieces { OfTaken self.old (λ text.
            OnOk result (HasAppended pieces.old.items pieces.new.items (known_pieces text)
            (known_pieces (text ++ bytes.now)))) }
        ensures refused { OfTaken self.old (λ text.
            IfErr result (IsFaultOf (early (text ++ bytes.now)))) }
        ensures size { OnOk result (bytes_fed self.new.lines
            ≡ bytes_fed self.old.lines + length bytes.now) }
        ensures limit { OnOk result (bytes_fed self.new.lines ≤ 2 ^ 30) }
        ensures kinds { IfErr result IsTextFault }
    {
        if let Some(row_cutter) = &mut self.row_cutter {
            return row_cutter.cut_lines(bytes, &mut self.lines, &mut self.row, pieces);
        }
        let Some(rest) = self.lines.next_row(bytes, &mut self.row)? else {
            return Ok(());
        };
        let Some(interface) = self.lines.interface() else {
            unreachable!();
        };
        let mut row_cutter = RowCutter::new(*self.row.octets.allocator(), &interface);
        row_cutter.cut(&self.row, pieces)?;
        let cut = row_cutter.cut_lines(rest, &mut self.lines, &mut self.row, pieces);
        self.row_cutter = Some(row_cutter);
        cut
    }

    /// Cuts the next part of the text. Returns the pieces that are known whole with its rows.
    pub fn feed(&mut self, bytes: &[u8]) -> Result<Vec<Piece<A>, A>, Fault>
        requires { (text : List ℕ) × HasTaken text self.old }
        ensures taken { OfTaken self.old (λ text.
            OnOk result (HasTaken (text ++ bytes.now) self.new)) }
        ensures pieces { OfTaken self.old (λ text.
            IfOk result (λ pieces. known_pieces (text ++ bytes.now) ≡ known_pieces text
            ++ pieces.items)) }
        ensures refused { OfTaken self.old (λ text.
            IfErr result (IsFaultOf (early (text ++ bytes.now)))) }
        ensures size { OnOk result (bytes_fed self.new.lines
            ≡ bytes_fed self.old.lines + length bytes.now) }
        ensures limit { OnOk result (bytes_fed self.new.lines ≤ 2 ^ 30) }
        ensures kinds { IfErr result IsTextFault }
    {
        let mut pieces = Vec::new(*self.row.octets.allocator());
        self.feed_into(bytes, &mut pieces)?;
        Ok(pieces)
    }

    /// Ends the text, whose last line may lack its LF: all its rows are cut. Appends the pieces that are known whole
    /// with the row of that line.
    pub fn end(self, pieces: &mut Vec<Piece<A>, A>) -> Result<RowCutter<A>, Fault>
        requires { (text : List ℕ) × HasTaken text self }
        ensures sound { OfTaken self (λ text.
            IfOk result (λ row_cutter. (fault text ≡ None)
            × (head text ≡ Some row_cutter.interface))) }
        ensures cut { OfTaken self (λ text. IfOk result (λ row_cutter.
            HasCut (items_of row_cutter.interface (rows text)) row_cutter)) }
        ensures pieces { OfTaken self (λ text.
            IfOk result (λ row_cutter. HasAppended pieces.old.items pieces.new.items
            (known_pieces text) (given_of row_cutter.interface
            (items_of row_cutter.interface (rows text))))) }
        ensures refused { OfTaken self (λ text. IfErr result (IsFaultOf (fault text))) }
        ensures kinds { IfErr result IsTextFault }
    {
        let TextCutter {
            lines,
            mut row,
            row_cutter,
        } = self;
        let end = lines.end_row(&mut row)?;
        let mut row_cutter = row_cutter_of(*row.octets.allocator(), &end.interface, row_cutter);
        row_cutter.cut_last(end.has_row, &row, pieces)?;
        Ok(row_cutter)
    }
}

mod block_joining;
