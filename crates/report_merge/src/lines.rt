//! The lines of a report.

ghost use Rattle.std.specs.Prelude.{[], ◌∷◌, ◌++◌, decimal};
ghost use Rattle.line_model.specs.observer.Report.{number_word, address_word, finding_line, call_line, setting_line, account_line, peak_line, gap_lines, summary_line, line};
ghost use Rattle.line_model.specs.basics.Written.{PutsTo};

use crate::fields::{put_last, put_last_number, put_number, put_word};
use crate::words::{direction_word, how_word, pad_word, side_word, state_word};
use line_model::address::Address;
use line_model::call::{Account, CallRecord, SettingRecord};
use line_model::device::Sink;
use line_model::event::Entry;
use line_model::finding::{Code, Finding};
use line_model::report::Peak;
use line_model::totals::Summary;
use line_model::write_buffer::WriteBuffer;
use std::alloc::Allocator;

/// Puts a number or a dash, and a space.
fn put_maybe<W: Sink>(out: &mut WriteBuffer, sink: &mut W, number: Option<u32>)
    ensures { PutsTo W.Sink sink.old sink.new out.old out.new
        (number_word number ++ 32 ∷ []) }
{
    match number {
        Some(number) => put_number(out, sink, u64::from(number)),
        None => put_word(out, sink, b"-"),
    }
}

/// Puts an address or a dash, and a space.
fn put_address<W: Sink>(out: &mut WriteBuffer, sink: &mut W, address: &Address)
    ensures { PutsTo W.Sink sink.old sink.new out.old out.new
        (address_word address.now ++ 32 ∷ []) }
{
    match address.as_bytes() {
        [] => put_word(out, sink, b"-"),
        digits => put_word(out, sink, digits),
    }
}

/// Puts the line of a finding.
pub fn put_finding<W: Sink>(out: &mut WriteBuffer, sink: &mut W, finding: &Finding)
    ensures { PutsTo W.Sink sink.old sink.new out.old out.new (finding_line finding.now) }
{
    put_word(out, sink, b"F");
    put_number(out, sink, u64::from(finding.packet));
    put_word(out, sink, side_word(finding.side));
    put_word(out, sink, state_word(finding.state));
    match finding.code {
        Code::Number(number) => put_last_number(out, sink, u64::from(number)),
        Code::Pad(code) => put_last(out, sink, pad_word(code)),
    }
}

/// Puts the line of an account.
pub fn put_account<W: Sink>(out: &mut WriteBuffer, sink: &mut W, account: &Account)
    ensures { PutsTo W.Sink sink.old sink.new out.old out.new (account_line account.now) }
{
    put_word(out, sink, b"A");
    put_address(out, sink, &account.address);
    put_number(out, sink, account.calls);
    put_last_number(out, sink, account.segments);
}

/// Puts the last line of a report.
pub fn put_summary<W: Sink>(out: &mut WriteBuffer, sink: &mut W, summary: &Summary)
    ensures { PutsTo W.Sink sink.old sink.new out.old out.new (summary_line summary.now) }
{
    put_word(out, sink, b"Z");
    put_number(out, sink, summary.packets);
    put_number(out, sink, summary.findings);
    put_number(out, sink, summary.calls);
    put_number(out, sink, summary.octets);
    put_last_number(out, sink, summary.segments);
}

/// Puts the line of the peak.
pub fn put_peak<W: Sink>(out: &mut WriteBuffer, sink: &mut W, peak: Peak)
    ensures { PutsTo W.Sink sink.old sink.new out.old out.new (peak_line peak) }
{
    put_word(out, sink, b"P");
    put_number(out, sink, peak.count);
    match peak.packet {
        Some(packet) => put_last_number(out, sink, u64::from(packet)),
        None => put_last(out, sink, b"-"),
    }
}

/// Puts the line of the gaps, if the trace records them.
pub fn put_gaps<W: Sink>(out: &mut WriteBuffer, sink: &mut W, gaps: Option<u32>)
    ensures { PutsTo W.Sink sink.old sink.new out.old out.new (gap_lines gaps) }
{
    if let Some(gaps) = gaps {
        put_word(out, sink, b"G");
        put_last_number(out, sink, u64::from(gaps));
    }
}

/// Puts the line of a call.
pub fn put_call<W: Sink, A: Allocator>(
    out: &mut WriteBuffer,
    sink: &mut W,
    number: u64,
    call: &CallRecord<A>,
)
    ensures { PutsTo W.Sink sink.old sink.new out.old out.new (call_line (number, call.now)) }
{
    put_word(out, sink, b"C");
    put_number(out, sink, number);
    put_number(out, sink, u64::from(call.epoch));
    put_number(out, sink, u64::from(call.channel));
    put_word(out, sink, direction_word(call.out));
    put_address(out, sink, &call.called);
    put_address(out, sink, &call.calling);
    put_number(out, sink, u64::from(call.opened));
    put_maybe(out, sink, call.up);
    put_maybe(out, sink, call.ended);
    put_word(out, sink, how_word(call.how));
    put_number(out, sink, call.data_t);
    put_number(out, sink, call.oct_t);
    put_number(out, sink, call.data_n);
    put_number(out, sink, call.oct_n);
    put_last_number(out, sink, call.segments);
}

/// Puts the line of a setting.
pub fn put_setting<W: Sink>(
    out: &mut WriteBuffer,
    sink: &mut W,
    number: u64,
    setting: &SettingRecord,
)
    ensures { PutsTo W.Sink sink.old sink.new out.old out.new
        (setting_line number setting.now) }
{
    put_word(out, sink, b"S");
    put_number(out, sink, number);
    put_word(out, sink, side_word(setting.pad));
    let parameter = u64::from(setting.parameter);
    match setting.entry {
        Entry::Unknown => put_last_number(out, sink, parameter),
        Entry::Asked(value) => put_entry(out, sink, parameter, b"asked", value),
        Entry::Said(value) => put_entry(out, sink, parameter, b"said", value),
        Entry::Refused(value) => put_entry(out, sink, parameter, b"refused", value),
    }
}

/// Puts a parameter with its entry, and ends the line.
fn put_entry<W: Sink>(out: &mut WriteBuffer, sink: &mut W, parameter: u64, word: &[u8], value: u8)
    ensures { PutsTo W.Sink sink.old sink.new out.old out.new
        (line (decimal parameter ∷ word.now ∷ decimal value ∷ [])) }
{
    put_number(out, sink, parameter);
    put_word(out, sink, word);
    put_last_number(out, sink, u64::from(value));
}
