//! The lines of the table of calls.
#![tactic(auto, using(crate::proofs::ValueLemmas::these_then))]

ghost use Rattle.std.specs.Prelude.{◌≡◌, ◌≤◌, flat_map};
ghost use Rattle.descriptions.specs.CallTable.{after_call, before_call, cell_text, character, column_text, entry, heading, quoted};
ghost use Rattle.descriptions.specs.Writing.{Adds, These};
ghost use Rattle.descriptions.specs.declared.call_columns.TableForm.TheVariants.{Csv};

use crate::call_columns::{
    Column, Further, TableForm, cause_columns, circuit_columns, data_columns, last_columns,
    place_columns, span_columns,
};
use crate::json::{Json, Out};
use crate::value::Value;
use line_model::call::CallRecord;
use std::alloc::Allocator;

/// The heading of the table as CSV.
const HEADING: &[u8] =
    b"call,channel,direction,called,calling,opened,ended,start,seconds,how,cause,cause_name,diagnostic,diagnostic_name,data_t,octets_t,segments_t,data_n,octets_n,segments_n,pays,payer,findings,gaps,opened_frame,ended_frame,circuit,dte_host,dce_host\n";

/// Writes a character of a field in quotes.
fn csv_character<O: Out>(json: &mut Json<O>, byte: u8)
    ensures { Adds O.has (These (character Csv byte)) json.old.out json.new.out }
{
    if byte == 34 {
        json.raw(b"\"\"");
    } else if byte == 10 {
        json.raw(b" ");
    } else {
        json.raw(&[byte]);
    }
}

/// Writes the characters of a field in quotes.
fn csv_characters<O: Out>(json: &mut Json<O>, text: &[u8])
    ensures { Adds O.has (These (flat_map (character Csv) text.now)) json.old.out json.new.out }
{
    for byte in text {
        csv_character(json, *byte);
    }
}

/// Writes a field of CSV.
fn csv_value<O: Out>(json: &mut Json<O>, value: Value<'_>)
    ensures { Adds O.has (These (cell_text Csv value.entry)) json.old.out json.new.out }
{
    match value {
        Value::Null => {}
        Value::Number(number) => json.number(number),
        Value::Seconds(time) => json.seconds(time.seconds, time.billionths),
        Value::Word(word) => json.raw(word),
        Value::Text(text) => {
            json.raw(b"\"");
            csv_characters(json, text);
            json.raw(b"\"");
        }
    }
}

/// Writes a column.
fn put_column<O: Out>(json: &mut Json<O>, form: TableForm, column: &Column<'_>)
    ensures { Adds O.has (These (column_text form column.now)) json.old.out json.new.out }
{
    match form {
        TableForm::Csv => {
            json.raw(b",");
            csv_value(json, column.cell);
        }
        TableForm::Objects => {
            json.raw(b",\"");
            json.raw(column.name);
            json.raw(b"\":");
            json.value(column.cell);
        }
    }
}

/// Writes columns.
fn put_columns<O: Out>(json: &mut Json<O>, form: TableForm, columns: &[Column<'_>])
    ensures { Adds O.has (These (flat_map (column_text form) columns.now)) json.old.out json.new.out }
{
    for column in columns {
        put_column(json, form, column);
    }
}

/// What comes before a call's number.
fn before_call(form: TableForm) -> &'static [u8]
    ensures { result.now ≡ before_call form }
{
    match form {
        TableForm::Csv => b"",
        TableForm::Objects => b"{\"line\":\"call_entry\",\"call\":",
    }
}

/// What comes after a call's last column.
fn after_call(form: TableForm) -> &'static [u8]
    ensures { result.now ≡ after_call form }
{
    match form {
        TableForm::Csv => b"\n",
        TableForm::Objects => b"}\n",
    }
}

/// Returns the heading, which objects have none of.
pub fn heading(form: TableForm) -> &'static [u8]
    ensures { result.now ≡ heading form }
{
    match form {
        TableForm::Csv => HEADING,
        TableForm::Objects => b"",
    }
}

/// A call, its number, and what is known of it.
#[derive(Clone, Copy)]
pub struct Listed<'a, A: Allocator> {
    /// Its number in the report.
    pub number: u64,
    /// Its record.
    pub record: &'a CallRecord<A>,
    /// What is known of it apart from its record.
    pub further: Further<'a>,
}

/// Writes the entry of a call.
pub fn put_entry<O: Out, A: Allocator>(json: &mut Json<O>, form: TableForm, call: &Listed<'_, A>)
    requires { call.now.further.segments_t ≤ call.now.record.now.segments }
    ensures { Adds O.has (These (entry form (call.now.number, call.now.record.now) call.now.further))
        json.old.out json.new.out }
{
    json.raw(before_call(form));
    json.number(call.number);
    put_columns(json, form, &place_columns(call.record));
    put_columns(json, form, &span_columns(call.record, &call.further));
    put_columns(json, form, &cause_columns(&call.further));
    put_columns(json, form, &data_columns(call.record, &call.further));
    put_columns(json, form, &last_columns(call.record, &call.further));
    put_columns(json, form, &circuit_columns(&call.further));
    json.raw(after_call(form));
}
