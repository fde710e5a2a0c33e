//! What the table of calls says of a call, column by column.

ghost use Rattle.std.specs.Prelude.{◌≡◌, ◌≤◌, flat_map};
ghost use Rattle.descriptions.specs.CallTable.{cause_columns, cell_text, circuit_columns, column_text, data_columns, last_columns, name_of, payer, payer_word, place_columns, span_columns, value_of};
ghost use Rattle.descriptions.specs.declared.call_columns.TableForm.{TableForm as AnyForm};

use crate::times::Time;
use crate::value::Value;
use line_model::address::Address;
use line_model::call::CallRecord;
use report_merge::words::{direction_word, how_word};
use std::alloc::Allocator;

/// How the table is printed.
#[derive(Clone, Copy)]
pub enum TableForm {
    /// As CSV with a heading (RFC 4180).
    Csv,
    /// As an object for each call.
    Objects,
}

/// A column of a call.
#[derive(Clone, Copy)]
pub struct Column<'a> {
    /// Its name in the heading.
    pub name: &'static [u8],
    /// What it says.
    pub cell: Value<'a>,
}

/// A cause or a diagnostic code, and its name.
#[derive(Clone, Copy)]
pub struct Named<'a> {
    /// The code.
    pub value: u8,
    /// Its name.
    pub name: &'a [u8],
}

/// What is known of a call apart from its record.
#[derive(Clone, Copy)]
pub struct Further<'a> {
    /// When it was opened.
    pub start: Option<Time>,
    /// How long it lasted.
    pub seconds: Option<Time>,
    /// The cause of the packet that cleared it.
    pub cause: Option<Named<'a>>,
    /// The diagnostic code of that packet.
    pub diagnostic: Option<Named<'a>>,
    /// The segments of the DTE's data packets, of those of the call.
    pub segments_t: u64,
    /// The findings of its rows.
    pub findings: u64,
    /// The gap rows in it, where gaps are rows.
    pub gaps: Option<u64>,
    /// The frame of the packet that opened it.
    pub opened_frame: Option<u64>,
    /// The frame of the packet that ended it.
    pub ended_frame: Option<u64>,
    /// The circuit of the packet that opened it.
    pub circuit: Option<u64>,
    /// The address of that circuit's DTE.
    pub dte_host: Option<&'a [u8]>,
    /// That of its DCE.
    pub dce_host: Option<&'a [u8]>,
}

/// A code that may be absent.
fn value_of<'a>(code: Option<Named<'_>>) -> Value<'a>
    ensures { (form : AnyForm) → cell_text form result ≡ value_of form code.entry }
{
    match code {
        Some(code) => Value::Number(u64::from(code.value)),
        None => Value::Null,
    }
}

/// The name of a code that may be absent.
fn name_of<'a>(code: Option<Named<'a>>) -> Value<'a>
    ensures { (form : AnyForm) → cell_text form result ≡ name_of form code.entry }
{
    match code {
        Some(code) => Value::Text(code.name),
        None => Value::Null,
    }
}

/// Returns who pays.
pub fn payer_word(reverse: bool) -> &'static [u8]
    ensures { result.now ≡ payer_word reverse }
{
    if reverse { b"called" } else { b"calling" }
}

/// Returns the address that pays.
pub fn payer<A: Allocator>(call: &CallRecord<A>) -> &Address
    ensures { result.now ≡ payer call.now }
{
    if call.reverse {
        &call.called
    } else {
        &call.calling
    }
}

/// Returns where a call is, and between whom.
pub fn place_columns<A: Allocator>(call: &CallRecord<A>) -> [Column<'_>; 4]
    ensures { (form : AnyForm) → flat_map (column_text form) result ≡ place_columns form call.now }
{
    [
        Column {
            name: b"channel",
            cell: Value::Number(u64::from(call.channel)),
        },
        Column {
            name: b"direction",
            cell: Value::Word(direction_word(call.out)),
        },
        Column {
            name: b"called",
            cell: Value::address(call.called.as_bytes()),
        },
        Column {
            name: b"calling",
            cell: Value::address(call.calling.as_bytes()),
        },
    ]
}

/// Returns from when to when it was open, and how it ended.
pub fn span_columns<'a, A: Allocator>(
    call: &CallRecord<A>,
    further: &Further<'_>,
) -> [Column<'a>; 5]
    ensures { (form : AnyForm) → flat_map (column_text form) result ≡ span_columns form call.now further.now }
{
    [
        Column {
            name: b"opened",
            cell: Value::Number(u64::from(call.opened)),
        },
        Column {
            name: b"ended",
            cell: Value::packet(call.ended),
        },
        Column {
            name: b"start",
            cell: Value::seconds(further.start),
        },
        Column {
            name: b"seconds",
            cell: Value::seconds(further.seconds),
        },
        Column {
            name: b"how",
            cell: Value::Word(how_word(call.how)),
        },
    ]
}

/// Returns what the packet that cleared it says.
pub fn cause_columns<'a>(further: &Further<'a>) -> [Column<'a>; 4]
    ensures { (form : AnyForm) → flat_map (column_text form) result ≡ cause_columns form further.now }
{
    [
        Column {
            name: b"cause",
            cell: value_of(further.cause),
        },
        Column {
            name: b"cause_name",
            cell: name_of(further.cause),
        },
        Column {
            name: b"diagnostic",
            cell: value_of(further.diagnostic),
        },
        Column {
            name: b"diagnostic_name",
            cell: name_of(further.diagnostic),
        },
    ]
}

/// Returns what each side sent.
pub fn data_columns<'a, A: Allocator>(
    call: &CallRecord<A>,
    further: &Further<'_>,
) -> [Column<'a>; 6]
    requires { further.now.segments_t ≤ call.now.segments }
    ensures { (form : AnyForm) → flat_map (column_text form) result ≡ data_columns form call.now further.now }
{
    let segments_n = call.segments - further.segments_t;
    [
        Column {
            name: b"data_t",
            cell: Value::Number(call.data_t),
        },
        Column {
            name: b"octets_t",
            cell: Value::Number(call.oct_t),
        },
        Column {
            name: b"segments_t",
            cell: Value::Number(further.segments_t),
        },
        Column {
            name: b"data_n",
            cell: Value::Number(call.data_n),
        },
        Column {
            name: b"octets_n",
            cell: Value::Number(call.oct_n),
        },
        Column {
            name: b"segments_n",
            cell: Value::Number(segments_n),
        },
    ]
}

/// Returns who pays, what was found, and where it was recorded.
pub fn last_columns<'a, A: Allocator>(
    call: &'a CallRecord<A>,
    further: &Further<'_>,
) -> [Column<'a>; 6]
    ensures { (form : AnyForm) → flat_map (column_text form) result ≡ last_columns form call.now further.now }
{
    [
        Column {
            name: b"pays",
            cell: Value::Word(payer_word(call.reverse)),
        },
        Column {
            name: b"payer",
            cell: Value::address(payer(call).as_bytes()),
        },
        Column {
            name: b"findings",
            cell: Value::Number(further.findings),
        },
        Column {
            name: b"gaps",
            cell: Value::number(further.gaps),
        },
        Column {
            name: b"opened_frame",
            cell: Value::number(further.opened_frame),
        },
        Column {
            name: b"ended_frame",
            cell: Value::number(further.ended_frame),
        },
    ]
}

/// Returns which circuit carried it, and between which hosts.
pub fn circuit_columns<'a>(further: &Further<'a>) -> [Column<'a>; 3]
    ensures { (form : AnyForm) → flat_map (column_text form) result ≡ circuit_columns form further.now }
{
    [
        Column {
            name: b"circuit",
            cell: Value::number(further.circuit),
        },
        Column {
            name: b"dte_host",
            cell: Value::word(further.dte_host),
        },
        Column {
            name: b"dce_host",
            cell: Value::word(further.dce_host),
        },
    ]
}
