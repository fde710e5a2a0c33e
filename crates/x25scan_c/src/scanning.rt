//! What a handle holds: a trace that is read, its findings, and the text that the caller has not received.

ghost use Rattle.std.specs.Prelude.{◌≡◌, ◌≢◌, ◌++◌, ◌==◌, if◌then◌else◌, ℕ, List, [], Some, true, false};
ghost use Rattle.json_lines.specs.Json.{json_text};
ghost use Rattle.line_model.specs.declared.fault.Fault.TheVariants.{Trace};
ghost use Rattle.line_model.specs.declared.fault.Kind.{Kind as AnyKind};
ghost use Rattle.line_model.specs.declared.state.Side.{Side as AnySide};
ghost use Rattle.line_model.specs.text.Text.{early, fault};
ghost use Rattle.trace_text.specs.EndedPart.{ended_part as ended};
ghost use Rattle.trace_text.specs.RowTexts.{side_letter};
ghost use Rattle.x25scan_c.specs.Rows.{EndsRows};
ghost use Rattle.x25scan_c.specs.Sound.{HasFoundBefore, HasRead, HasReport, HasRowsBefore, IsSound, Keeps, KeepsEndFault, KeepsFault, WasRead, has_ended, number_of, packet_line, prints_rows};
ghost use Rattle.x25scan_c.specs.Waits.{waiting};

use crate::errors::{ARGUMENT, ENDED, LINE, MEMORY, OK, ROWS, number_of};
use crate::reading::Reading;
use crate::waiting::Waiting;
use channel_machine::channel::PackedChannel;
use channel_run::run::Channel;
use explanations::advice::advice;
use json_lines::text::write_json_lines;
use line_model::fault::{Fault, Kind};
use line_model::finding::Finding;
use line_model::state::Side;
use live_report::row_text::put_row;
use std::alloc::Global;
use std::mem::replace;
use streams::kept_line::KeptLine;

/// The report as lines.
pub const LINES: u32 = 0;
/// The report as JSON lines.
pub const JSON: u32 = 1;
/// Rows as JSON lines, as they come, and last the report.
pub const ROW_OBJECTS: u32 = 2;

/// The most octets of a packet.
const MOST_OCTETS: usize = 4200;

/// What a handle holds.
#[derive(Drop)]
pub struct Scanning {
    pub reading: Reading<Global, PackedChannel<Global>>,
    pub found: Waiting<Finding, Global>,
    /// The room of the line that writes a packet.
    line: Vec<u8>,
    pub text: Waiting<u8, Global>,
    /// Whether the last line has not ended.
    has_begun: bool,
    pub refused: Option<(u32, Kind)>,
    advice: Option<String>,
}

/// The side of a letter.
fn side_of(letter: u8) -> Option<Side>
    ensures { (s : AnySide) → letter ≡ side_letter s → result ≡ Some s }
{
    match letter {
        b'T' => Some(Side::T),
        b'N' => Some(Side::N),
        _ => None,
    }
}

/// Whether the last line has not ended after a chunk.
fn has_begun(chunk: &[u8], before: bool) -> bool {
    match chunk {
        [.., last] => *last != b'\n',
        [] => before,
    }
}

impl Scanning {
    /// Returns a value of which nothing was fed. Allocates nothing.
    pub(crate) fn new(alloc: Global, form: u32) -> Scanning
        ensures sound { IsSound ⟦<PackedChannel<Global> as Channel<Global>>⟧ result.reading }
        ensures fed { WasRead ⟦<PackedChannel<Global> as Channel<Global>>⟧ [] result.reading }
        ensures form { prints_rows result.reading ≡ (form == 2) }
        ensures empty { (waiting result.found ≡ []) × (waiting result.text ≡ []) }
    {
        Scanning {
            reading: Reading::new(alloc, form == ROW_OBJECTS),
            found: Waiting::new(alloc),
            line: Vec::new(alloc),
            text: Waiting::new(alloc),
            has_begun: false,
            refused: None,
            advice: None,
        }
    }

    /// Keeps the fault of a refusal, and what is wrong with its line, and returns its number.
    fn refuse(&mut self, alloc: Global, fault: Fault, kept: Option<KeptLine>) -> u32
        ensures same { Keeps self.old self.new }
        ensures number { result ≡ number_of fault }
        ensures some { result ≢ 0 }
        ensures kept { (line : ℕ) (kind : AnyKind) → fault ≡ Trace line kind
            → self.new.refused ≡ Some (line, kind) }
    {
        if let Fault::Trace(line, kind) = fault {
            let known = self.refused;
            let is_known = match known {
                Some((known, broken)) => known == line && broken == kind,
                None => false,
            };
            if !is_known {
                self.advice = match kept {
                    Some(kept) => advice(alloc, kind, kept.line()).ok(),
                    None => None,
                };
                self.refused = Some((line, kind));
            }
        }
        number_of(fault)
    }

    /// Reads the next bytes of the text.
    pub(crate) fn feed(&mut self, alloc: Global, chunk: &[u8]) -> u32
        requires { IsSound ⟦<PackedChannel<Global> as Channel<Global>>⟧ self.old.reading }
        ensures sound { IsSound ⟦<PackedChannel<Global> as Channel<Global>>⟧ self.new.reading }
        ensures read { (text : List ℕ) → WasRead ⟦<PackedChannel<Global> as Channel<Global>>⟧ text self.old.reading → result ≡ 0
            → HasRead ⟦<PackedChannel<Global> as Channel<Global>>⟧ text (text ++ chunk.now) self.old self.new }
        ensures refused { (text : List ℕ) → WasRead ⟦<PackedChannel<Global> as Channel<Global>>⟧ text self.old.reading → result ≡ 2
            → KeepsFault (early (text ++ chunk.now)) self.new }
        ensures found { (text : List ℕ) → WasRead ⟦<PackedChannel<Global> as Channel<Global>>⟧ text self.old.reading → prints_rows self.old.reading ≡ false
            → result ≡ 2 → HasFoundBefore text (text ++ chunk.now) self.old self.new }
        ensures before { (text : List ℕ) → WasRead ⟦<PackedChannel<Global> as Channel<Global>>⟧ text self.old.reading → prints_rows self.old.reading ≡ true
            → result ≡ 2 → HasRowsBefore text (text ++ chunk.now) self.old self.new }
        ensures ended { has_ended self.old.reading ≡ true → (result ≡ 4) × (self.new ≡ self.old) }
    {
        if self.reading.has_ended() {
            return ENDED;
        }
        self.has_begun = has_begun(chunk, self.has_begun);
        match self.reading.feed(chunk, &mut self.found, &mut self.text) {
            Ok(()) => OK,
            Err(fault) => {
                let line = self.reading.last_line(alloc);
                self.refuse(alloc, fault, line)
            }
        }
    }

    /// Reads a packet, as the line that writes it.
    pub(crate) fn packet(&mut self, alloc: Global, number: u32, side: u8, octets: &[u8]) -> u32
        requires { IsSound ⟦<PackedChannel<Global> as Channel<Global>>⟧ self.old.reading }
        ensures sound { IsSound ⟦<PackedChannel<Global> as Channel<Global>>⟧ self.new.reading }
        ensures read { (text : List ℕ) (s : AnySide) → side ≡ side_letter s → WasRead ⟦<PackedChannel<Global> as Channel<Global>>⟧ text self.old.reading
            → result ≡ 0 → HasRead ⟦<PackedChannel<Global> as Channel<Global>>⟧ text (text ++ packet_line number s octets.now) self.old self.new }
    {
        let Some(sender) = side_of(side) else {
            return ARGUMENT;
        };
        if octets.len() > MOST_OCTETS {
            return ARGUMENT;
        }
        if self.has_begun {
            return LINE;
        }
        match self.reading.packet(number, sender, octets, &mut self.found) {
            Ok(true) => OK,
            Ok(false) => self.feed_row(alloc, number, sender, octets),
            Err(fault) => {
                let line = self.reading.last_line(alloc);
                self.refuse(alloc, fault, line)
            }
        }
    }

    /// Reads the line that writes a packet.
    #[inline(never)]
    fn feed_row(&mut self, alloc: Global, number: u32, side: Side, octets: &[u8]) -> u32
        requires { IsSound ⟦<PackedChannel<Global> as Channel<Global>>⟧ self.old.reading }
        ensures sound { IsSound ⟦<PackedChannel<Global> as Channel<Global>>⟧ self.new.reading }
        ensures read { (text : List ℕ) → WasRead ⟦<PackedChannel<Global> as Channel<Global>>⟧ text self.old.reading → result ≡ 0
            → HasRead ⟦<PackedChannel<Global> as Channel<Global>>⟧ text (text ++ packet_line number side octets.now) self.old self.new }
    {
        let mut line = replace(&mut self.line, Vec::new(alloc));
        match put_row(&mut line, number, side, octets) {
            Ok(()) => {
                let answer = self.feed(alloc, line.as_slice());
                self.line = line;
                answer
            }
            Err(_) => {
                self.line = line;
                MEMORY
            }
        }
    }

    /// Puts what was written in the place of what waits: a report as lines, or as objects; but the objects of a scan of
    /// rows after it. When it fails, what waits is as it was.
    fn put(&mut self, alloc: Global, form: u32, written: Waiting<u8, Global>) -> u32
        ensures reading { self.new.reading ≡ self.old.reading }
        ensures found { self.new.found ≡ self.old.found }
        ensures text { result ≡ 0 → waiting self.new.text ≡ (if form == 0 then waiting written
            else if form == 1 then json_text (waiting written) else waiting self.old.text ++ waiting written) }
        ensures failed { result ≢ 0 → waiting self.new.text ≡ waiting self.old.text }
        ensures number { result ≢ 2 }
    {
        match form {
            LINES => self.text = written,
            JSON => {
                let mut objects = Waiting::<u8, Global>::new(alloc);
                if write_json_lines(written.as_slice(), &mut objects).is_err() {
                    return MEMORY;
                }
                self.text = objects;
            }
            _ => {
                if self.text.append(written.as_slice()).is_err() {
                    return MEMORY;
                }
            }
        }
        OK
    }

    /// Makes the report of the lines that have ended, or its objects. When it fails, what waits is as it was.
    pub(crate) fn report(&mut self, alloc: Global, form: u32) -> u32
        requires { IsSound ⟦<PackedChannel<Global> as Channel<Global>>⟧ self.old.reading }
        ensures reading { self.new.reading ≡ self.old.reading }
        ensures found { self.new.found ≡ self.old.found }
        ensures reported { (text : List ℕ) → WasRead ⟦<PackedChannel<Global> as Channel<Global>>⟧ text self.old.reading → result ≡ 0
            → HasReport form (ended text) self.old self.new }
        ensures refused { (text : List ℕ) → WasRead ⟦<PackedChannel<Global> as Channel<Global>>⟧ text self.old.reading → result ≡ 2
            → KeepsFault (fault (ended text)) self.new }
        ensures failed { result ≢ 0 → waiting self.new.text ≡ waiting self.old.text }
        ensures once { has_ended self.old.reading ≡ true → (result ≢ 0) × (result ≢ 2) }
    {
        if form > ROW_OBJECTS {
            return ARGUMENT;
        }
        if self.reading.has_ended() {
            return ENDED;
        }
        match (self.reading.prints_rows(), form == ROW_OBJECTS) {
            (true, false) => return ROWS,
            (false, true) => return ARGUMENT,
            _ => {}
        }
        let mut written = Waiting::<u8, Global>::new(alloc);
        match self.reading.report(alloc, &mut written) {
            Ok(()) => self.put(alloc, form, written),
            Err(fault) => {
                let line = self.reading.last_line(alloc);
                self.refuse(alloc, fault, line)
            }
        }
    }

    /// Ends the text, and makes its report, or what comes after the objects of its rows. The trace has ended then, also
    /// when it fails, except where the form is another than the scan's.
    pub(crate) fn end(&mut self, alloc: Global, form: u32) -> u32
        requires { IsSound ⟦<PackedChannel<Global> as Channel<Global>>⟧ self.old.reading }
        ensures sound { IsSound ⟦<PackedChannel<Global> as Channel<Global>>⟧ self.new.reading }
        ensures found { self.new.found ≡ self.old.found }
        ensures reported { (text : List ℕ) → WasRead ⟦<PackedChannel<Global> as Channel<Global>>⟧ text self.old.reading → prints_rows self.old.reading ≡ false
            → result ≡ 0 → HasReport form text self.old self.new }
        ensures rows { (text : List ℕ) → WasRead ⟦<PackedChannel<Global> as Channel<Global>>⟧ text self.old.reading → prints_rows self.old.reading ≡ true
            → result ≡ 0 → EndsRows text (Some (waiting self.old.text)) (Some (waiting self.new.text)) }
        ensures refused { (text : List ℕ) → WasRead ⟦<PackedChannel<Global> as Channel<Global>>⟧ text self.old.reading → prints_rows self.old.reading ≡ false
            → result ≡ 2 → KeepsFault (fault text) self.new }
        ensures stopped { (text : List ℕ) → WasRead ⟦<PackedChannel<Global> as Channel<Global>>⟧ text self.old.reading → prints_rows self.old.reading ≡ true
            → result ≡ 2 → KeepsEndFault text self.new }
        ensures failed { result ≢ 0 → waiting self.new.text ≡ waiting self.old.text }
        ensures once { has_ended self.old.reading ≡ true → (result ≢ 0) × (result ≢ 2) }
        ensures ended { result ≡ 0 → has_ended self.new.reading ≡ true }
    {
        if self.reading.has_ended() {
            return ENDED;
        }
        if form > ROW_OBJECTS || self.reading.prints_rows() != (form == ROW_OBJECTS) {
            return ARGUMENT;
        }
        let mut written = Waiting::<u8, Global>::new(alloc);
        let line = self.reading.last_line(alloc);
        match self.reading.end(&mut written) {
            Ok(()) => self.put(alloc, form, written),
            Err(fault) => self.refuse(alloc, fault, line),
        }
    }

    /// Returns what is wrong with the faulty line, in a sentence.
    pub(crate) fn advice(&self) -> &[u8] {
        match &self.advice {
            Some(sentence) => sentence.as_bytes(),
            None => b"",
        }
    }
}
