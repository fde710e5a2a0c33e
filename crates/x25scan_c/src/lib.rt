//! The observer for C: exports that read a trace as it grows. `library/x25scan.h` is the manual.
//!
//! An export starts no thread and waits for none. A `Scan` is used by one call at a time.
#![tactic(auto)]

ghost use Rattle.std.specs.Prelude.{◌≡◌, ◌≢◌, ◌++◌, ◌∷◌, ◌==◌, if◌then◌else◌, ℕ, List, [], None, Some, true, false, IfErr, IfOk, OnErr, OnOk, IfSome, length, length as size, take as first};
ghost use Rattle.line_model.specs.basics.Faults.{kind_number};
ghost use Rattle.line_model.specs.declared.finding.Finding.{Finding as AnyFinding};
ghost use Rattle.line_model.specs.declared.state.Side.{Side as AnySide};
ghost use Rattle.line_model.specs.text.Text.{early, fault};
ghost use Rattle.trace_text.specs.EndedPart.{ended_part as ended};
ghost use Rattle.trace_text.specs.RowTexts.{side_letter};
ghost use Rattle.x25scan_c.specs.Owning.{Holds};
ghost use Rattle.x25scan_c.specs.Found.{numbers_of};
ghost use Rattle.x25scan_c.specs.Rows.{EndsRows};
ghost use Rattle.x25scan_c.specs.Sound.{HasFoundBefore, HasRead, HasReport, HasRowsBefore, IsSound, IsSoundScan, KeepsEndFault, KeepsFault, OfScans, WasScanned, packet_line, scan_ended, scan_prints_rows};
ghost use Rattle.x25scan_c.specs.Waits.{waiting};

pub mod errors;
pub mod found;
mod handle;
mod loose;
mod reading;
mod report_reading;
mod row_reading;
mod scanning;
mod waiting;

use crate::errors::{
    ARGUMENT, CLOSED, MEMORY, NONE_LEFT, NOT_OPEN, OK, OPEN, ROWS, SHORT, words_of,
};
use crate::found::FindingNumbers;
use crate::handle::Handle;
use crate::loose::Loose;
use crate::scanning::{ROW_OBJECTS, Scanning};
use channel_machine::channel::PackedChannel;
use channel_run::run::Channel;
use std::alloc::Global;
use std::mem::replace;

/// The mark of a scan that is open.
const IS_OPEN: u32 = 1;
/// The mark of a scan that was closed.
const IS_CLOSED: u32 = 2;

/// A scan, in memory of the caller. One whose bytes are 0 was not opened.
#[repr(C)]
#[derive(Drop)]
pub struct Scan {
    observer: Handle,
    mark: u32,
    ghost holds: { Holds mark observer.value },
}

/// Removes and returns what an open scan holds. Fails with the error of a scan that is not open.
fn take(alloc: Global, scan: &mut Scan) -> Result<Box<Scanning>, u32>
    requires { IsSoundScan ⟦<PackedChannel<Global> as Channel<Global>>⟧ scan.old.observer.value }
    ensures taken { OnOk result (scan.old.mark ≡ 1) }
    ensures sound { IfOk result (λ b. IsSound ⟦<PackedChannel<Global> as Channel<Global>>⟧ b.value.reading) }
    ensures held { IfOk result (λ b. scan.old.observer.value ≡ Some b.value) }
    ensures refused { OnErr result (scan.new ≡ scan.old) }
    ensures number { IfErr result (λ error. error ≡ (if scan.old.mark == 2 then 3 else 8)) }
    ensures open { OnErr result (scan.old.mark ≢ 1) }
{
    match scan.mark {
        IS_OPEN => {
            let empty = Scan {
                observer: Handle::none(),
                mark: 0,
            };
            let Scan { observer, .. } = replace(scan, empty);
            Ok(observer.into_loose(alloc).into_box())
        }
        IS_CLOSED => Err(CLOSED),
        _ => Err(NOT_OPEN),
    }
}

/// Puts back what an open scan holds.
fn put(scan: &mut Scan, held: Box<Scanning>)
    requires { IsSound ⟦<PackedChannel<Global> as Channel<Global>>⟧ held.value.reading }
    ensures mark { scan.new.mark ≡ 1 }
    ensures held { scan.new.observer.value ≡ Some held.value }
    ensures sound { IsSoundScan ⟦<PackedChannel<Global> as Channel<Global>>⟧ scan.new.observer.value }
{
    *scan = Scan {
        observer: Handle::holding(Loose::of(held)),
        mark: IS_OPEN,
    };
}

/// Copies bytes into a buffer, and sets `needed` to their number. A buffer that is too short is not changed.
fn copy_words(words: &[u8], buffer: &mut [u8], needed: &mut usize) -> u32
    ensures needed { needed.new ≡ length words.now }
    ensures copied { result ≡ 0 → first (length words.now) buffer.new ≡ words.now }
    ensures short { result ≢ 0 → (result ≡ 6) × (buffer.new ≡ buffer.old) }
{
    *needed = words.len();
    if words.len() > buffer.len() {
        return SHORT;
    }
    buffer[..words.len()].copy_from_slice(words);
    OK
}

/// Opens a scan of which nothing was fed, in a form: 0 for reports and findings, 2 for rows.
#[unsafe(no_mangle)]
pub extern "C" fn x25scan_open_form(alloc: Global, scan: &mut Scan, form: u32) -> u32
    requires { IsSoundScan ⟦<PackedChannel<Global> as Channel<Global>>⟧ scan.old.observer.value }
    ensures mark { result ≡ 0 → scan.new.mark ≡ 1 }
    ensures sound { IsSoundScan ⟦<PackedChannel<Global> as Channel<Global>>⟧ scan.new.observer.value }
    // Nothing was fed, and nothing waits.
    ensures fed { result ≡ 0 → WasScanned ⟦<PackedChannel<Global> as Channel<Global>>⟧ [] scan.new.observer.value }
    ensures empty { result ≡ 0 → IfSome scan.new.observer.value (λ s. (waiting s.found ≡ []) × (waiting s.text ≡ [])) }
    ensures form { result ≡ 0 → scan_prints_rows scan.new.observer.value ≡ (form == 2) }
    ensures refused { result ≢ 0 → scan.new ≡ scan.old }
{
    if scan.mark == IS_OPEN {
        return OPEN;
    }
    if form != 0 && form != ROW_OBJECTS {
        return ARGUMENT;
    }
    match Box::new(alloc, Scanning::new(alloc, form)) {
        Ok(held) => {
            put(scan, held);
            OK
        }
        Err(_) => MEMORY,
    }
}

/// Reads the next bytes of the text of the trace.
#[unsafe(no_mangle)]
pub extern "C" fn x25scan_feed_text(alloc: Global, scan: &mut Scan, text: &[u8]) -> u32
    requires { IsSoundScan ⟦<PackedChannel<Global> as Channel<Global>>⟧ scan.old.observer.value }
    ensures mark { scan.new.mark ≡ scan.old.mark }
    ensures sound { IsSoundScan ⟦<PackedChannel<Global> as Channel<Global>>⟧ scan.new.observer.value }
    // The observer was fed the text, and what its rows found waits, or where rows are printed their objects.
    ensures read { (before : List ℕ) → WasScanned ⟦<PackedChannel<Global> as Channel<Global>>⟧ before scan.old.observer.value → result ≡ 0
        → OfScans (HasRead ⟦<PackedChannel<Global> as Channel<Global>>⟧ before (before ++ text.now)) scan.old.observer.value scan.new.observer.value }
    // The trace is refused by its first faulty line, which is kept.
    ensures refused { (before : List ℕ) → WasScanned ⟦<PackedChannel<Global> as Channel<Global>>⟧ before scan.old.observer.value → result ≡ 2
        → IfSome scan.new.observer.value (KeepsFault (early (before ++ text.now))) }
    // What the rows before it found waits, or their objects.
    ensures found { (before : List ℕ) → WasScanned ⟦<PackedChannel<Global> as Channel<Global>>⟧ before scan.old.observer.value
        → scan_prints_rows scan.old.observer.value ≡ false → result ≡ 2
        → OfScans (HasFoundBefore before (before ++ text.now)) scan.old.observer.value scan.new.observer.value }
    ensures before { (before : List ℕ) → WasScanned ⟦<PackedChannel<Global> as Channel<Global>>⟧ before scan.old.observer.value
        → scan_prints_rows scan.old.observer.value ≡ true → result ≡ 2
        → OfScans (HasRowsBefore before (before ++ text.now)) scan.old.observer.value scan.new.observer.value }
    ensures ended { scan_ended scan.old.observer.value ≡ true → result ≢ 0 }
    ensures closed { scan.old.mark ≢ 1 → (result ≡ (if scan.old.mark == 2 then 3 else 8)) × (scan.new ≡ scan.old) }
{
    match take(alloc, scan) {
        Ok(mut held) => {
            let answer = held.feed(alloc, text);
            put(scan, held);
            answer
        }
        Err(error) => error,
    }
}

/// Reads a packet, as the line that writes it.
#[unsafe(no_mangle)]
pub extern "C" fn x25scan_feed_packet(
    alloc: Global,
    scan: &mut Scan,
    number: u32,
    side: u8,
    octets: &[u8],
) -> u32
    requires { IsSoundScan ⟦<PackedChannel<Global> as Channel<Global>>⟧ scan.old.observer.value }
    ensures mark { scan.new.mark ≡ scan.old.mark }
    ensures sound { IsSoundScan ⟦<PackedChannel<Global> as Channel<Global>>⟧ scan.new.observer.value }
    // The observer was fed the line that writes the packet, and what it found waits, or its object.
    ensures read { (before : List ℕ) (s : AnySide) → side ≡ side_letter s
        → WasScanned ⟦<PackedChannel<Global> as Channel<Global>>⟧ before scan.old.observer.value → result ≡ 0
        → OfScans (HasRead ⟦<PackedChannel<Global> as Channel<Global>>⟧ before (before ++ packet_line number s octets.now)) scan.old.observer.value scan.new.observer.value }
    ensures closed { scan.old.mark ≢ 1 → (result ≡ (if scan.old.mark == 2 then 3 else 8)) × (scan.new ≡ scan.old) }
{
    match take(alloc, scan) {
        Ok(mut held) => {
            let answer = held.packet(alloc, number, side, octets);
            put(scan, held);
            answer
        }
        Err(error) => error,
    }
}

/// Returns the next finding.
#[unsafe(no_mangle)]
pub extern "C" fn x25scan_take_finding(
    alloc: Global,
    scan: &mut Scan,
    finding: &mut FindingNumbers,
) -> u32
    requires { IsSoundScan ⟦<PackedChannel<Global> as Channel<Global>>⟧ scan.old.observer.value }
    ensures mark { scan.new.mark ≡ scan.old.mark }
    ensures sound { IsSoundScan ⟦<PackedChannel<Global> as Channel<Global>>⟧ scan.new.observer.value }
    // The finding is the first that waits, and waits no more.
    ensures next { result ≡ 0 → OfScans (λ s t. (f : AnyFinding) × (waiting s.found ≡ f ∷ waiting t.found)
        × (finding.new ≡ numbers_of f)) scan.old.observer.value scan.new.observer.value }
    ensures none { scan.old.mark ≡ 1 → result ≢ 0
        → IfSome scan.old.observer.value (λ s. waiting s.found ≡ []) }
    // What was read is as it was, and what waits of rows or of a report.
    ensures kept { scan.old.mark ≡ 1 → OfScans (λ s t. (t.reading ≡ s.reading) × (waiting t.text ≡ waiting s.text)) scan.old.observer.value scan.new.observer.value }
    ensures closed { scan.old.mark ≢ 1 → (result ≡ (if scan.old.mark == 2 then 3 else 8)) × (scan.new ≡ scan.old) }
{
    match take(alloc, scan) {
        Ok(mut held) => {
            let answer = match held.found.take_first() {
                Some(next) => {
                    *finding = FindingNumbers::of(&next);
                    OK
                }
                None if held.reading.prints_rows() => ROWS,
                None => NONE_LEFT,
            };
            put(scan, held);
            answer
        }
        Err(error) => error,
    }
}

/// Makes the report of the lines that have ended.
#[unsafe(no_mangle)]
pub extern "C" fn x25scan_make_report(alloc: Global, scan: &mut Scan, form: u32) -> u32
    requires { IsSoundScan ⟦<PackedChannel<Global> as Channel<Global>>⟧ scan.old.observer.value }
    ensures mark { scan.new.mark ≡ scan.old.mark }
    ensures sound { IsSoundScan ⟦<PackedChannel<Global> as Channel<Global>>⟧ scan.new.observer.value }
    // The report of the lines that have ended waits, in the form that is asked for; the trace goes on.
    ensures reported { (text : List ℕ) → WasScanned ⟦<PackedChannel<Global> as Channel<Global>>⟧ text scan.old.observer.value
        → result ≡ 0 → OfScans (HasReport form (ended text)) scan.old.observer.value scan.new.observer.value }
    // The trace is refused by its first faulty line, which is kept.
    ensures refused { (text : List ℕ) → WasScanned ⟦<PackedChannel<Global> as Channel<Global>>⟧ text scan.old.observer.value
        → result ≡ 2 → IfSome scan.new.observer.value (KeepsFault (fault (ended text))) }
    ensures failed { scan.old.mark ≡ 1 → result ≢ 0 → OfScans (λ s t. waiting t.text ≡ waiting s.text) scan.old.observer.value scan.new.observer.value }
    ensures once { scan_ended scan.old.observer.value ≡ true → (result ≢ 0) × (result ≢ 2) }
    // What was read is as it was, and the findings that wait.
    ensures kept { scan.old.mark ≡ 1 → OfScans (λ s t. (t.reading ≡ s.reading) × (waiting t.found ≡ waiting s.found)) scan.old.observer.value scan.new.observer.value }
    ensures closed { scan.old.mark ≢ 1 → (result ≡ (if scan.old.mark == 2 then 3 else 8)) × (scan.new ≡ scan.old) }
{
    match take(alloc, scan) {
        Ok(mut held) => {
            let answer = held.report(alloc, form);
            put(scan, held);
            answer
        }
        Err(error) => error,
    }
}

/// Ends the trace, and makes its report.
#[unsafe(no_mangle)]
pub extern "C" fn x25scan_end_trace(alloc: Global, scan: &mut Scan, form: u32) -> u32
    requires { IsSoundScan ⟦<PackedChannel<Global> as Channel<Global>>⟧ scan.old.observer.value }
    ensures mark { scan.new.mark ≡ scan.old.mark }
    ensures sound { IsSoundScan ⟦<PackedChannel<Global> as Channel<Global>>⟧ scan.new.observer.value }
    // The report of the text waits, in the form that is asked for, and the trace has ended.
    ensures reported { (text : List ℕ) → WasScanned ⟦<PackedChannel<Global> as Channel<Global>>⟧ text scan.old.observer.value
        → scan_prints_rows scan.old.observer.value ≡ false → result ≡ 0
        → OfScans (HasReport form text) scan.old.observer.value scan.new.observer.value }
    // Or what completes the objects of its rows to all that is printed of the text waits after what waited.
    ensures rows { (text : List ℕ) → WasScanned ⟦<PackedChannel<Global> as Channel<Global>>⟧ text scan.old.observer.value
        → scan_prints_rows scan.old.observer.value ≡ true → result ≡ 0
        → OfScans (λ s t. EndsRows text (Some (waiting s.text)) (Some (waiting t.text))) scan.old.observer.value scan.new.observer.value }
    // The trace is refused by its first faulty line, which is kept.
    ensures refused { (text : List ℕ) → WasScanned ⟦<PackedChannel<Global> as Channel<Global>>⟧ text scan.old.observer.value
        → scan_prints_rows scan.old.observer.value ≡ false → result ≡ 2
        → IfSome scan.new.observer.value (KeepsFault (fault text)) }
    ensures stopped { (text : List ℕ) → WasScanned ⟦<PackedChannel<Global> as Channel<Global>>⟧ text scan.old.observer.value
        → scan_prints_rows scan.old.observer.value ≡ true → result ≡ 2
        → IfSome scan.new.observer.value (KeepsEndFault text) }
    ensures failed { scan.old.mark ≡ 1 → result ≢ 0 → OfScans (λ s t. waiting t.text ≡ waiting s.text) scan.old.observer.value scan.new.observer.value }
    ensures found { scan.old.mark ≡ 1 → OfScans (λ s t. waiting t.found ≡ waiting s.found) scan.old.observer.value scan.new.observer.value }
    ensures once { scan_ended scan.old.observer.value ≡ true → (result ≢ 0) × (result ≢ 2) }
    ensures ended { result ≡ 0 → scan_ended scan.new.observer.value ≡ true }
    ensures closed { scan.old.mark ≢ 1 → (result ≡ (if scan.old.mark == 2 then 3 else 8)) × (scan.new ≡ scan.old) }
{
    match take(alloc, scan) {
        Ok(mut held) => {
            let answer = held.end(alloc, form);
            put(scan, held);
            answer
        }
        Err(error) => error,
    }
}

/// Returns the next bytes of a report or of rows, up to the room of the buffer.
#[unsafe(no_mangle)]
pub extern "C" fn x25scan_take_text(
    alloc: Global,
    scan: &mut Scan,
    buffer: &mut [u8],
    length: &mut usize,
    left: &mut usize,
) -> u32
    requires { IsSoundScan ⟦<PackedChannel<Global> as Channel<Global>>⟧ scan.old.observer.value }
    ensures mark { scan.new.mark ≡ scan.old.mark }
    ensures sound { IsSoundScan ⟦<PackedChannel<Global> as Channel<Global>>⟧ scan.new.observer.value }
    // The first bytes that wait are copied, as many as the buffer holds, and wait no more.
    ensures taken { result ≡ 0 → OfScans (λ s t. (first length.new buffer.new ++ waiting t.text ≡ waiting s.text)
        × (left.new ≡ size (waiting t.text))) scan.old.observer.value scan.new.observer.value }
    ensures full { result ≡ 0 → left.new ≢ 0 → length.new ≡ size buffer.old }
    ensures open { scan.old.mark ≡ 1 → result ≡ 0 }
    // What was read is as it was, and the findings that wait.
    ensures kept { scan.old.mark ≡ 1 → OfScans (λ s t. (t.reading ≡ s.reading) × (waiting t.found ≡ waiting s.found)) scan.old.observer.value scan.new.observer.value }
    ensures closed { scan.old.mark ≢ 1 → (result ≡ (if scan.old.mark == 2 then 3 else 8)) × (scan.new ≡ scan.old) }
{
    match take(alloc, scan) {
        Ok(mut held) => {
            let waiting = held.text.as_slice();
            let count = waiting.len().min(buffer.len());
            buffer[..count].copy_from_slice(&waiting[..count]);
            *length = count;
            held.text.take(count);
            *left = held.text.as_slice().len();
            put(scan, held);
            OK
        }
        Err(error) => error,
    }
}

/// Returns the faulty line: its number, its kind, and what is wrong with it in a sentence.
#[unsafe(no_mangle)]
pub extern "C" fn x25scan_take_fault(
    alloc: Global,
    scan: &mut Scan,
    line: &mut u32,
    kind: &mut u32,
    buffer: &mut [u8],
    needed: &mut usize,
) -> u32
    requires { IsSoundScan ⟦<PackedChannel<Global> as Channel<Global>>⟧ scan.old.observer.value }
    ensures mark { scan.new.mark ≡ scan.old.mark }
    ensures sound { IsSoundScan ⟦<PackedChannel<Global> as Channel<Global>>⟧ scan.new.observer.value }
    // The line and the kind are those of the refusal that is kept.
    ensures fault { result ≡ 0 → IfSome scan.old.observer.value (λ s. IfSome s.refused (λ at.
        (line.new ≡ at.0) × (kind.new ≡ kind_number at.1))) }
    ensures none { result ≡ 5 → IfSome scan.old.observer.value (λ s. s.refused ≡ None) }
    ensures same { scan.old.mark ≡ 1 → scan.new.observer.value ≡ scan.old.observer.value }
    ensures closed { scan.old.mark ≢ 1 → (result ≡ (if scan.old.mark == 2 then 3 else 8)) × (scan.new ≡ scan.old) }
{
    match take(alloc, scan) {
        Ok(held) => {
            let answer = match held.refused {
                Some((at, rule)) => {
                    *line = at;
                    *kind = u32::from(rule.number());
                    copy_words(held.advice(), buffer, needed)
                }
                None => NONE_LEFT,
            };
            put(scan, held);
            answer
        }
        Err(error) => error,
    }
}

/// Frees all memory of a scan, and marks it as closed.
#[unsafe(no_mangle)]
pub extern "C" fn x25scan_close_scan(alloc: Global, scan: &mut Scan) -> u32
    requires { IsSoundScan ⟦<PackedChannel<Global> as Channel<Global>>⟧ scan.old.observer.value }
    ensures mark { result ≡ 0 → scan.new.mark ≡ 2 }
    ensures sound { IsSoundScan ⟦<PackedChannel<Global> as Channel<Global>>⟧ scan.new.observer.value }
    ensures closed { scan.old.mark ≢ 1 → (result ≡ (if scan.old.mark == 2 then 3 else 8)) × (scan.new ≡ scan.old) }
{
    match take(alloc, scan) {
        Ok(_held) => {
            *scan = Scan {
                observer: Handle::none(),
                mark: IS_CLOSED,
            };
            OK
        }
        Err(error) => error,
    }
}

/// Returns the words of an error.
#[unsafe(no_mangle)]
pub extern "C" fn x25scan_copy_words(error: u32, buffer: &mut [u8], needed: &mut usize) -> u32 {
    copy_words(words_of(error), buffer, needed)
}
