//! The reader of trace texts: it is fed chunks of any size, keeps the line that has not ended, and returns rows.

ghost use Rattle.std.specs.Prelude.{◌≡◌, ◌+◌, ◌≤◌, ◌<◌, ◌^◌};
ghost use Rattle.line_model.specs.text.Text.{size_kind};
ghost use Rattle.trace_text.specs.Reads.{kept_row, whole_row};

use crate::content::{Content, LineFault};
use crate::cuts::split_at_byte;
use crate::digits::{convert_digits, split_digits};
use crate::header::read_header;
use crate::reading::read_line;
use crate::row_front::split_front;
use arrayvec::ArrayVec;
use line_model::device::LastLine;
use line_model::fault::{Fault, Kind};
use line_model::interface::Interface;
use line_model::row::{ReadRow, Row, is_unqualified};
use std::alloc::{AllocError, Allocator};
use std::marker::Model;

/// The bytes that a text may have.
pub const TEXT_LIMIT: u32 = 1 << 30;

/// The bytes that a line may have without its LF.
pub const LINE_LIMIT: usize = 8500;

/// The last place where a line of `LINE_LIMIT` bytes may begin.
const LAST_START: u32 = TEXT_LIMIT - LINE_LIMIT as u32 - 1;

/// A reader of a trace text, which is fed in chunks.
///
/// ```text
///  fed so far:  X25 1 MOD 8 ..\n1 T 10010B0000\n2 N 1001|
///               `------ ended, start ----------'`begun-'
/// ```
///
/// Of the lines that an LF has ended it keeps the interface and the last number; of the line that has not ended it
/// keeps the bytes, at most 8,500. After a refusal it always returns the same fault, and keeps the refused line in their
/// place. No line of a text that it represents is known to be faulty, so refused memory hides no faulty line of an
/// earlier chunk.
#[derive(Drop)]
pub struct Lines<A: Allocator> {
    /// The lines that an LF has ended.
    ended: u32,
    /// Their bytes.
    start: u32,
    interface: Option<Interface>,
    /// The number of the last row, or 0.
    last: u32,
    /// The bytes after the last LF; after a refusal the refused line, and what was read after it.
    begun: Vec<u8, A>,
    /// The first bytes of the text, of those before its header.
    first: ArrayVec<u8, 32>,
    refused: Option<Fault>,
}

impl<A: Allocator> Model for Lines<A> {
    ghost use Rattle.std.specs.Prelude.{◌≤◌, ◌<◌, ◌+◌, ◌^◌, length, IfSome};
    ghost use Rattle.trace_text.specs.Progress.{Progress};
    ghost use Rattle.trace_text.specs.Represents.{IsTextFault};

    ghost Value = { Progress };

    ghost view = { λ l. record { ended = l.ended; start = l.start; interface = l.interface; last = l.last; begun = l.begun.items; refused = l.refused } };

    ghost invariant = { λ l. (l.ended ≤ l.start) × (l.start + length l.begun.items ≤ 2 ^ 30) × (length l.begun.items ≤ 8500) × IfSome l.refused IsTextFault };
}

/// How a text without a fault ends.
#[derive(Clone, Copy)]
pub struct TextEnd {
    /// The interface of the header.
    pub interface: Interface,
    /// Whether a last line that no LF ended writes a row.
    pub has_row: bool,
}

/// Returns a row for others to be read into. It needs no memory.
fn blank_row<A: Allocator + Clone>(alloc: &A) -> Result<ReadRow<A>, AllocError> {
    Ok(ReadRow::blank(alloc.clone()?))
}

/// The row that was read with all its octets.
fn whole_row<A: Allocator>(row: ReadRow<A>) -> Row<A>
    ensures { result ≡ whole_row row }
{
    Row {
        number: row.number,
        side: row.side,
        octets: row.octets,
        gap: row.gap,
    }
}

/// Sets the length of a row that has all its octets, and drops those that are not read, except where they are kept.
fn drop_unread<A: Allocator>(row: &mut ReadRow<A>, whole: bool)
    ensures { row.new ≡ kept_row whole (whole_row row.old) }
{
    row.length = row.octets.len();
    if !whole && is_unqualified(row.octets.as_slice()) {
        row.octets.truncate(4);
    }
}

/// Returns the rule on sizes that a line of `len` bytes breaks, after `start` bytes; `lf` is 1 where an LF ends it.
#[tactic(auto, unfolding(line_model::specs::text::Text::size_kind))]
fn size_fault(start: u32, lf: usize, len: usize) -> Option<Kind>
    requires start { start ≤ 2 ^ 30 }
    requires lf { lf ≤ 1 }
    requires len { len + lf < 2 ^ 64 }
    ensures { result ≡ size_kind start lf len }
{
    if len > LINE_LIMIT && start as usize + LINE_LIMIT + 1 <= TEXT_LIMIT as usize {
        return Some(Kind::LineLong);
    }
    if len + lf > (TEXT_LIMIT - start) as usize {
        return Some(Kind::TextLarge);
    }
    None
}

impl<A: Allocator> Lines<A> {
    ghost use Rattle.std.specs.Prelude.{◌≡◌, ℕ, true, ◌+◌, ◌<◌, ◌^◌, ◌++◌, [], List, Some, None, Err, OnOk, OnErr, IfErr, IfOk, IfSome, MatchOption, length, is_some, ◌≤◌, false};
    ghost use Rattle.std.specs.Option.{option_or};
    ghost use Rattle.line_model.specs.text.Header.{interface_of};
    ghost use Rattle.line_model.specs.text.Text.{early, early_head, early_rows, ended_lines as lines_ended, fault, head, lines_of, rows as rows_of_text, rows_in};
    ghost use Rattle.trace_text.specs.Progress.{Progress, bytes_fed};
    ghost use Rattle.trace_text.specs.Represents.{Represents, IsFaultOf, IsHeadKept, IsTextFault, EndsText, AreKnown, ReadsChunk, TakesRow, last_row};
    ghost use Rattle.trace_text.specs.EndedPart.{ended_part};
    ghost use Rattle.line_model.specs.declared.fault.Fault.{Fault};
    ghost use Rattle.line_model.specs.declared.fault.Fault.TheVariants.{Trace};
    ghost use Rattle.line_model.specs.declared.fault.Kind.TheVariants.{HeaderMissing};
    ghost use Rattle.trace_text.specs.Steps.{RefusedBy, EndsLine, TakesLine, ended_kind, after_content, after_line, is_packet, with_more};
    ghost use Rattle.trace_text.specs.Reads.{ReadsAs};
    ghost use Rattle.line_model.specs.basics.Records as records;
    ghost use Rattle.line_model.specs.packets.Says.{read_row};

    /// Returns a reader that was fed nothing. It needs no memory.
    pub fn new(alloc: A) -> Self
        ensures { Represents result [] }
    {
        Lines {
            ended: 0,
            start: 0,
            interface: None,
            last: 0,
            begun: Vec::new(alloc),
            first: ArrayVec::new(),
            refused: None,
        }
    }

    /// Returns the interface of the header, once an LF has ended the header.
    pub fn interface(&self) -> Option<Interface>
        ensures head { (text : List ℕ) → Represents self.now text → result ≡ early_head text }
        ensures kept { result ≡ self.now.interface }
    {
        self.interface
    }

    /// Returns how many lines an LF has ended.
    pub fn ended_lines(&self) -> u32
        ensures lines { (text : List ℕ) → Represents self.now text
            → result ≡ length (lines_ended text) }
        ensures kept { result ≡ self.now.ended }
    {
        self.ended
    }

    /// Returns how many bytes it was fed.
    pub fn bytes(&self) -> u32
        ensures { result ≡ bytes_fed self.now }
    {
        self.start + self.begun.len() as u32
    }

    /// Returns the header of the text up to its last LF, as if it ended there. Fails with `HeaderMissing` where it has
    /// none, and after a refusal with the same fault.
    pub fn ended_header(&self) -> Result<Interface, Fault>
        ensures ok { (text : List ℕ) → Represents self.now text
            → IfOk result (λ interface. (fault (ended_part text) ≡ None)
            × (head (ended_part text) ≡ Some interface)) }
        ensures refused { (text : List ℕ) → Represents self.now text
            → IfErr result (IsFaultOf (fault (ended_part text))) }
        ensures missing { (text : List ℕ) → Represents self.now text
            → IfErr result (λ f. f ≡ Trace (length (lines_ended text) + 1) HeaderMissing) }
        // The rows that were returned are those of that text.
        ensures rows { (text : List ℕ) → Represents self.now text
            → rows_of_text (ended_part text) ≡ early_rows text }
        ensures again { (fault : Fault) → self.now.refused ≡ Some fault → result ≡ Err fault }
    {
        if let Some(fault) = self.refused {
            return Err(fault);
        }
        match self.interface {
            Some(interface) => Ok(interface),
            None => Err(Fault::Trace(self.ended + 1, Kind::HeaderMissing)),
        }
    }

    /// Returns the interface of the header, also where the last line is the header.
    fn last_interface(&self) -> Option<Interface>
        ensures { result ≡ option_or self.now.interface (interface_of self.now.begun) }
    {
        if let Some(interface) = self.interface {
            return Some(interface);
        }
        match read_header(self.begun.as_slice()) {
            Ok(interface) => Some(interface),
            Err(_) => None,
        }
    }

    /// Returns the last line that was read: the one by which the text was refused, or the one that no LF has ended. Its
    /// interface is that of the header, also where the last line is the header.
    pub fn last_line(&self) -> LastLine<'_>
        ensures text { result.text.now ≡ self.now.begun }
        ensures number { result.number_before ≡ self.now.last }
        ensures interface { result.interface ≡ option_or self.now.interface (interface_of self.now.begun) }
    {
        LastLine {
            first: self.first.as_slice(),
            text: self.begun.as_slice(),
            number_before: self.last,
            interface: self.last_interface(),
        }
    }

    /// Keeps the first bytes of a text, of a chunk before which no header was read.
    fn keep_first(&mut self, chunk: &[u8])
        ensures { self.new ≡ self.old }
    {
        if self.interface.is_some() {
            return;
        }
        let room = self.first.remaining_capacity().min(chunk.len());
        let _ = self.first.try_extend_from_slice(&chunk[..room]);
    }

    /// Keeps more of what comes from a refused line on, at most 8,500 bytes in all.
    fn keep_rest(&mut self, rest: &[u8])
        ensures { self.new ≡ record self.old { begun = self.new.begun } }
    {
        let room = LINE_LIMIT - self.begun.len();
        let left = (TEXT_LIMIT - self.start) as usize - self.begun.len();
        let front = &rest[..rest.len().min(room).min(left)];
        let _ = self.begun.extend_from_slice(front);
    }

    /// Keeps the line by which a chunk was refused, if it was; `before` bytes were fed before the chunk.
    fn keep_refused(&mut self, chunk: &[u8], before: u32, is_refused: bool)
        ensures same { is_refused ≡ false → self.new ≡ self.old }
        ensures kept { self.new ≡ record self.old { begun = self.new.begun } }
    {
        if !is_refused {
            return;
        }
        let read = self.bytes().saturating_sub(before) as usize;
        if let Some(rest) = chunk.get(read..) {
            self.keep_rest(rest);
        }
    }

    /// After a refusal: keeps what comes after the refused line, at most 8,500 bytes with the line. Otherwise does nothing.
    pub fn keep_after(&mut self, after: &[u8])
        ensures same { self.old.refused ≡ None → self.new ≡ self.old }
        ensures kept { self.new ≡ record self.old { begun = self.new.begun } }
    {
        if self.refused.is_some() {
            self.keep_rest(after);
        }
    }

    /// Reads bytes without an LF.
    fn begin(&mut self, more: &[u8]) -> Result<(), Fault>
        ensures ok { OnOk result (self.new ≡ with_more self.old more.now) }
        ensures sound { OnOk result (size_kind self.old.start 0
            (length self.old.begun + length more.now) ≡ None) }
        ensures refused { IfErr result (RefusedBy
            (size_kind self.old.start 0 (length self.old.begun + length more.now))
            (self.old.ended + 1)) }
        ensures same { OnErr result (self.new ≡ self.old) }
    {
        match size_fault(self.start, 0, self.begun.len() + more.len()) {
            Some(kind) => Err(Fault::Trace(self.ended + 1, kind)),
            None => {
                self.begun.extend_from_slice(more)?;
                Ok(())
            }
        }
    }

    /// What a line says that ends here; `lf` is 1 where an LF ends it. A row is put in the place of another, as `read_row`
    /// does.
    fn read(&self, line: &[u8], lf: usize, row: &mut ReadRow<A>) -> Result<Content, Fault>
        requires { lf ≤ 1 }
        ensures reads { IfOk result (λ content.
            (ended_kind lf (record self.now { begun = line.now }) ≡ None)
            × ReadsAs (is_some self.now.interface) self.now.last line.now content (whole_row row.new)) }
        ensures refused { IfErr result (RefusedBy
            (ended_kind lf (record self.now { begun = line.now })) (self.now.ended + 1)) }
    {
        if let Some(kind) = size_fault(self.start, lf, line.len()) {
            return Err(Fault::Trace(self.ended + 1, kind));
        }
        match read_line(&self.interface, self.last, line, row) {
            Ok(content) => Ok(content),
            Err(LineFault::Memory) => Err(Fault::Memory),
            Err(LineFault::Broken(kind)) => Err(Fault::Trace(self.ended + 1, kind)),
        }
    }

    /// Records what a line says, and returns whether it is a row, whose number then is this.
    fn keep(&mut self, content: Content, number: u32) -> bool
        ensures reader { self.new ≡ after_content content number self.old }
        ensures is_packet_row { result ≡ is_packet content }
    {
        match content {
            Content::Comment => false,
            Content::Header(interface) => {
                self.interface = Some(interface);
                false
            }
            Content::Packet => {
                self.last = number;
                true
            }
        }
    }

    /// Counts a line of `size` bytes with its LF, which came before what is kept of the line begun.
    fn count_line(&mut self, size: usize)
        requires some { 1 ≤ size }
        requires fits { self.old.start + size + length self.old.begun ≤ 2 ^ 30 }
        ensures { self.new ≡ record self.old { ended = self.old.ended + 1; start = self.old.start + size } }
    {
        self.start += size as u32;
        self.ended += 1;
    }

    /// Begins the next line, after one of `len` bytes and its LF.
    fn next_line(&mut self, len: usize)
        requires { self.old.start + len + 1 ≤ 2 ^ 30 }
        ensures { self.new ≡ after_line len self.old }
    {
        self.begun.clear();
        self.count_line(len + 1);
    }

    /// Reads the end of a line, without its LF. Returns whether the line is a row, which then is put in the place of
    /// another, as `read_row` does.
    fn end_line(&mut self, front: &[u8], row: &mut ReadRow<A>) -> Result<bool, Fault>
        ensures ok { IfOk result (EndsLine (with_more self.old front.now) self.new
            (whole_row row.new)) }
        ensures refused { IfErr result (RefusedBy (ended_kind 1 (with_more self.old front.now))
            (self.old.ended + 1)) }
        ensures kept { OnErr result (self.new.interface ≡ self.old.interface) }
    {
        if self.begun.is_empty() {
            // The chunk has the whole line, which is read there.
            let content = self.read(front, 1, row)?;
            let is_row = self.keep(content, row.number);
            self.next_line(front.len());
            return Ok(is_row);
        }
        self.begin(front)?;
        let content = self.read(self.begun.as_slice(), 1, row)?;
        let is_row = self.keep(content, row.number);
        let len = self.begun.len();
        self.next_line(len);
        Ok(is_row)
    }

    /// Fast path: reads the row that a chunk begins with, unless it is to be kept `whole`, and returns the rest of the
    /// chunk. `None` where nothing was read; the line is then read by its words, and nothing says what the row has.
    #[inline(always)]
    fn read_first<'a>(
        &mut self,
        chunk: &'a [u8],
        row: &mut ReadRow<A>,
        whole: bool,
    ) -> Option<&'a [u8]>
        ensures { MatchOption result (self.new ≡ self.old) (λ rest. (taken : records.Row)
            × TakesLine self.old self.new chunk.now rest.now taken
            × (row.new ≡ kept_row whole taken)) }
    {
        if whole || self.interface.is_none() || !self.begun.is_empty() || self.start > LAST_START {
            return None;
        }
        let (number, side, digits) = split_front(self.last, chunk)?;
        let (length, values, rest) = split_digits(digits)?;
        convert_digits(values, digits, length, &mut row.octets)?;
        row.number = number;
        row.side = side;
        row.length = length;
        row.gap = None;
        self.last = number;
        self.count_line(chunk.len() - rest.len());
        Some(rest)
    }

    /// Reads lines up to the first row, or the whole chunk. The row is put in the place of another, with all its octets
    /// where it is to be kept `whole`.
    fn find_row<'a>(
        &mut self,
        chunk: &'a [u8],
        row: &mut ReadRow<A>,
        whole: bool,
    ) -> Result<Option<&'a [u8]>, Fault>
        ensures ok { IfOk result (λ next. MatchOption next (ReadsChunk self.old self.new chunk.now)
            (λ rest. (taken : records.Row)
            × TakesRow self.old self.new chunk.now rest.now taken
            × (row.new ≡ kept_row whole taken))) }
        ensures shorter { IfOk result (λ next.
            IfSome next (λ rest. length rest.now < length chunk.now)) }
        ensures headed { IfOk result (λ next.
            IfSome next (λ rest. is_some self.new.interface ≡ true)) }
        ensures refused { (text : List ℕ) → Represents self.old text
            → IfErr result (IsFaultOf (early (text ++ chunk.now))) }
        ensures known { (text : List ℕ) → Represents self.old text
            → IfErr result (AreKnown (early_rows text) (early_rows (text ++ chunk.now))) }
        ensures header { (text : List ℕ) → Represents self.old text
            → IsHeadKept result self.new.interface (early_head (text ++ chunk.now)) }
        ensures size { IfOk result (λ next. MatchOption next (bytes_fed self.new
            ≡ bytes_fed self.old + length chunk.now) (λ rest. bytes_fed self.new + length rest.now
            ≡ bytes_fed self.old + length chunk.now)) }
        ensures kinds { IfErr result IsTextFault }
    {
        let mut rest = chunk;
        loop {
            if let Some(after) = self.read_first(rest, row, whole) {
                return Ok(Some(after));
            }
            let Some((front, back)) = split_at_byte(rest, b'\n') else {
                break;
            };
            if self.end_line(front, row)? {
                drop_unread(row, whole);
                return Ok(Some(back));
            }
            rest = back;
        }
        self.begin(rest)?;
        Ok(None)
    }

    /// Reads the next row of the text from a chunk into `row`, whose memory is used again, and returns the rest of the
    /// chunk; `None` where the chunk was read to its end and has no further row. Fails with the first line that is
    /// faulty however the text goes on, or when memory is refused; from then on it fails with the same. Of data with Q
    /// 0 the hex digits after the fourth octet are validated, and not kept.
    ///
    /// ```text
    /// while let Some(rest) = lines.next_row(chunk, &mut row)? {
    ///     take(&row);
    ///     chunk = rest;
    /// }
    /// ```
    ///
    /// A line is read in the chunk; only one that the end of a chunk cuts is copied. Nothing says what `row` has where
    /// no row was read.
    #[inline(always)]
    pub fn next_row<'a>(
        &mut self,
        chunk: &'a [u8],
        row: &mut ReadRow<A>,
    ) -> Result<Option<&'a [u8]>, Fault>
        // Of any text that it represents: it represents the text with what was read, which has a row more, or none. The
        // row is put in place as it is read.
        ensures ok { IfOk result (λ next. MatchOption next (ReadsChunk self.old self.new chunk.now)
            (λ rest. (taken : records.Row)
            × TakesRow self.old self.new chunk.now rest.now taken
            × (row.new ≡ read_row taken))) }
        ensures shorter { IfOk result (λ next.
            IfSome next (λ rest. length rest.now < length chunk.now)) }
        ensures headed { IfOk result (λ next.
            IfSome next (λ rest. is_some self.new.interface ≡ true)) }
        // Otherwise it returns the fault of the first line that is faulty however the text goes on, or `Memory`.
        ensures refused { (text : List ℕ) → Represents self.old text
            → IfErr result (IsFaultOf (early (text ++ chunk.now))) }
        ensures known { (text : List ℕ) → Represents self.old text
            → IfErr result (AreKnown (early_rows text) (early_rows (text ++ chunk.now))) }
        ensures header { (text : List ℕ) → Represents self.old text
            → IsHeadKept result self.new.interface (early_head (text ++ chunk.now)) }

        // It was fed at most 2^30 bytes.
        ensures size { IfOk result (λ next. MatchOption next (bytes_fed self.new
            ≡ bytes_fed self.old + length chunk.now) (λ rest. bytes_fed self.new + length rest.now
            ≡ bytes_fed self.old + length chunk.now)) }
        ensures limit { bytes_fed self.new ≤ 2 ^ 30 }
        ensures kinds { IfErr result IsTextFault }
        // From a refusal on it returns the same.
        ensures refuses { IfErr result (λ fault. self.new.refused ≡ Some fault) }
        ensures again { (fault : Fault) → self.old.refused ≡ Some fault → (result ≡ Err fault)
            × (self.new ≡ self.old) × (row.new ≡ row.old) }
    {
        if let Some(fault) = self.refused {
            return Err(fault);
        }
        if let Some(rest) = self.read_first(chunk, row, false) {
            return Ok(Some(rest));
        }
        self.keep_first(chunk);
        let before = self.bytes();
        let next = self.find_row(chunk, row, false);
        self.keep_refused(chunk, before, next.is_err());
        self.refused = next.err();
        next
    }

    /// Ends the text, whose last line may lack its LF. Counts its lines, and returns whether the last one is a row, which
    /// then is put in the place of another, as `read_row` does.
    fn end_begun(&mut self, row: &mut ReadRow<A>) -> Result<(u32, bool), Fault>
        ensures ok { (text : List ℕ) → Represents self.old text
            → IfOk result (λ end. EndsText self.new end.0 text) }
        ensures few { IfOk result (λ end. end.0 ≤ 2 ^ 30 + 1) }
        ensures row { (text : List ℕ) → Represents self.old text
            → IfOk result (λ end. rows_in (lines_of text) ≡ early_rows text
            ++ last_row end.1 (whole_row row.new)) }
        ensures refused { (text : List ℕ) → Represents self.old text
            → IfErr result (IsFaultOf (fault text)) }
        ensures kinds { IfErr result IsTextFault }
    {
        if self.begun.is_empty() {
            return Ok((self.ended, false));
        }
        let count = self.ended + 1;
        let content = self.read(self.begun.as_slice(), 0, row)?;
        let is_row = self.keep(content, row.number);
        Ok((count, is_row))
    }

    /// Ends the text. Returns its header, and whether a last line that no LF ended writes a row, which is then put in
    /// the place of another, with all its octets where it is to be kept `whole`.
    fn end_text(mut self, row: &mut ReadRow<A>, whole: bool) -> Result<TextEnd, Fault>
        ensures ok { (text : List ℕ) → Represents self text
            → IfOk result (λ end. (fault text ≡ None) × (head text ≡ Some end.interface)) }
        ensures row { (text : List ℕ) → Represents self text
            → IfOk result (λ end. (last : records.Row)
            × (rows_of_text text ≡ early_rows text ++ last_row end.has_row last)
            × (end.has_row ≡ true → row.new ≡ kept_row whole last)) }
        ensures refused { (text : List ℕ) → Represents self text
            → IfErr result (IsFaultOf (fault text)) }
        ensures known { (text : List ℕ) → Represents self text
            → IfErr result (AreKnown (early_rows text) (rows_of_text text)) }
        ensures kinds { IfErr result IsTextFault }
        ensures again { (fault : Fault) → self.refused ≡ Some fault → (result ≡ Err fault)
            × (row.new ≡ row.old) }
    {
        if let Some(fault) = self.refused {
            return Err(fault);
        }
        let (count, has_row) = self.end_begun(row)?;
        drop_unread(row, whole);
        match self.interface {
            Some(interface) => Ok(TextEnd { interface, has_row }),
            None => Err(Fault::Trace(count + 1, Kind::HeaderMissing)),
        }
    }

    /// Ends the text. Returns its header, and whether a last line that no LF ended writes a row, which it then reads
    /// into `row` as `next_row` does. Fails with the first faulty line, or when memory is refused.
    pub fn end_row(self, row: &mut ReadRow<A>) -> Result<TextEnd, Fault>
        ensures ok { (text : List ℕ) → Represents self text
            → IfOk result (λ end. (fault text ≡ None) × (head text ≡ Some end.interface)) }
        ensures row { (text : List ℕ) → Represents self text
            → IfOk result (λ end. (last : records.Row)
            × (rows_of_text text ≡ early_rows text ++ last_row end.has_row last)
            × (end.has_row ≡ true → row.new ≡ read_row last)) }
        ensures refused { (text : List ℕ) → Represents self text
            → IfErr result (IsFaultOf (fault text)) }
        ensures known { (text : List ℕ) → Represents self text
            → IfErr result (AreKnown (early_rows text) (rows_of_text text)) }
        ensures kinds { IfErr result IsTextFault }
        ensures again { (fault : Fault) → self.refused ≡ Some fault → (result ≡ Err fault)
            × (row.new ≡ row.old) }
    {
        self.end_text(row, false)
    }
}

impl<A: Allocator + Clone> Lines<A> {
    ghost use Rattle.std.specs.Prelude.{◌≡◌, ℕ, ◌+◌, ◌^◌, ◌++◌, List, Some, None, Err, OnOk, IfErr, IfOk, length, ◌≤◌};
    ghost use Rattle.line_model.specs.text.Text.{early, early_head, early_rows, fault, head, rows as rows_of_text};
    ghost use Rattle.line_model.specs.basics.Records as records;
    ghost use Rattle.trace_text.specs.Progress.{bytes_fed};
    ghost use Rattle.trace_text.specs.Represents.{Represents, IsFaultOf, AreAppended, IsAppended, IsHeadKept, IsTextFault};
    ghost use Rattle.line_model.specs.declared.fault.Fault.{Fault};

    /// Appends the rows of a chunk.
    fn feed_rows(&mut self, chunk: &[u8], out: &mut Vec<Row<A>, A>) -> Result<(), Fault>
        ensures ok { OnOk result ((text : List ℕ) → Represents self.old text
            → Represents self.new (text ++ chunk.now)) }
        ensures refused { (text : List ℕ) → Represents self.old text
            → IfErr result (IsFaultOf (early (text ++ chunk.now))) }
        ensures appended { (text : List ℕ) → Represents self.old text
            → IsAppended result out.old.items out.new.items (early_rows text) (early_rows (text
            ++ chunk.now)) }
        ensures header { (text : List ℕ) → Represents self.old text
            → IsHeadKept result self.new.interface (early_head (text ++ chunk.now)) }
        ensures size { OnOk result (bytes_fed self.new ≡ bytes_fed self.old + length chunk.now) }
        ensures kinds { IfErr result IsTextFault }
    {
        let mut rest = chunk;
        loop {
            let mut row = blank_row(self.begun.allocator())?;
            let Some(after) = self.find_row(rest, &mut row, true)? else {
                return Ok(());
            };
            out.push(whole_row(row))?;
            rest = after;
        }
    }

    /// Reads the next chunk of the text, and appends the rows of the lines that an LF of it ends. Fails with the first
    /// line that is faulty however the text goes on, after the rows before it; or when memory is refused, after some
    /// rows. From then on it fails with the same.
    pub fn feed(&mut self, chunk: &[u8], out: &mut Vec<Row<A>, A>) -> Result<(), Fault>
        // Of any text that it represents: it represents the text with the chunk, none of whose lines is faulty so far.
        ensures ok { OnOk result ((text : List ℕ) → Represents self.old text
            → Represents self.new (text ++ chunk.now)) }
        // Otherwise it returns the fault of the first line that is faulty however the text goes on, or `Memory`.
        ensures refused { (text : List ℕ) → Represents self.old text
            → IfErr result (IsFaultOf (early (text ++ chunk.now))) }
        // Whatever the list has: the rows are appended, at a faulty line those before it, and where memory is refused
        // some first ones.
        ensures appended { (text : List ℕ) → Represents self.old text
            → IsAppended result out.old.items out.new.items (early_rows text) (early_rows (text
            ++ chunk.now)) }
        ensures rows_appended { (text : List ℕ) (rows : List records.Row) → Represents self.old text
            → out.old.items ≡ rows ++ early_rows text
            → AreAppended result out.new.items rows (early_rows (text ++ chunk.now)) }
        ensures header { (text : List ℕ) → Represents self.old text
            → IsHeadKept result self.new.interface (early_head (text ++ chunk.now)) }

        // It was fed at most 2^30 bytes.
        ensures size { OnOk result (bytes_fed self.new ≡ bytes_fed self.old + length chunk.now) }
        ensures limit { bytes_fed self.new ≤ 2 ^ 30 }
        ensures kinds { IfErr result IsTextFault }
        // From a refusal on it returns the same.
        ensures refuses { IfErr result (λ fault. self.new.refused ≡ Some fault) }
        ensures again { (fault : Fault) → self.old.refused ≡ Some fault → (result ≡ Err fault)
            × (self.new ≡ self.old) × (out.new.items ≡ out.old.items) }
    {
        if let Some(fault) = self.refused {
            return Err(fault);
        }
        self.keep_first(chunk);
        let before = self.bytes();
        let fed = self.feed_rows(chunk, out);
        self.keep_refused(chunk, before, fed.is_err());
        self.refused = fed.err();
        fed
    }

    /// Ends the text. Returns its header, and appends the row of a last line that no LF ended. Fails with the first
    /// faulty line, or when memory is refused.
    pub fn end(self, out: &mut Vec<Row<A>, A>) -> Result<Interface, Fault>
        ensures ok { (text : List ℕ) → Represents self text
            → IfOk result (λ interface. (fault text ≡ None) × (head text ≡ Some interface)) }
        ensures refused { (text : List ℕ) → Represents self text
            → IfErr result (IsFaultOf (fault text)) }
        ensures appended { (text : List ℕ) → Represents self text
            → IsAppended result out.old.items out.new.items (early_rows text) (rows_of_text text) }
        ensures rows_appended { (text : List ℕ) (rows : List records.Row) → Represents self text
            → out.old.items ≡ rows ++ early_rows text
            → AreAppended result out.new.items rows (rows_of_text text) }
        ensures kinds { IfErr result IsTextFault }
        ensures again { (fault : Fault) → self.refused ≡ Some fault → (result ≡ Err fault)
            × (out.new.items ≡ out.old.items) }
    {
        if let Some(fault) = self.refused {
            return Err(fault);
        }
        let mut row = blank_row(self.begun.allocator())?;
        let end = self.end_text(&mut row, true)?;
        if !end.has_row {
            return Ok(end.interface);
        }
        out.push(whole_row(row))?;
        Ok(end.interface)
    }
}

pub mod block;
pub mod row;
