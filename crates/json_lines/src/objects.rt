//! The objects of lines.

ghost use Rattle.std.specs.Prelude.{map};
ghost use Rattle.json_lines.specs.Json.{beginning, json_line, member, members, quoted, value};
ghost use Rattle.json_lines.specs.Shown.{field_shown};
ghost use Rattle.line_model.specs.basics.Written.{PutsTo};

use crate::fields::{Field, FieldKind, form_of};
use crate::words::ReportWords;
use line_model::device::Sink;
use line_model::write_buffer::WriteBuffer;

/// Puts a word between quotation marks. A word of a report needs no escape.
fn put_quoted<W: Sink>(out: &mut WriteBuffer, sink: &mut W, word: &[u8])
    ensures { PutsTo W.Sink sink.old sink.new out.old out.new (quoted word.now) }
{
    out.put(sink, b"\"");
    out.put(sink, word);
    out.put(sink, b"\"");
}

/// Puts a word as a value.
fn put_value<W: Sink>(out: &mut WriteBuffer, sink: &mut W, kind: FieldKind, word: &[u8])
    ensures { PutsTo W.Sink sink.old sink.new out.old out.new (value kind word.now) }
{
    if word == b"-".as_slice() {
        out.put(sink, b"null");
    } else {
        match kind {
            FieldKind::Number => out.put(sink, word),
            FieldKind::Text => put_quoted(out, sink, word),
        }
    }
}

/// Puts a field after others.
fn put_member<W: Sink>(out: &mut WriteBuffer, sink: &mut W, field: &Field, word: &[u8])
    ensures { PutsTo W.Sink sink.old sink.new out.old out.new
        (member (field_shown field.now) word.now) }
{
    out.put(sink, b",");
    put_quoted(out, sink, field.name.as_bytes());
    out.put(sink, b":");
    put_value(out, sink, field.kind, word);
}

/// Puts fields, each with its word.
fn put_members<W: Sink>(
    out: &mut WriteBuffer,
    sink: &mut W,
    fields: &[Field],
    mut words: ReportWords<'_>,
)
    ensures { PutsTo W.Sink sink.old sink.new out.old out.new
        (members (map field_shown fields.now) words.entry) }
{
    for field in fields {
        let word = words.take();
        put_member(out, sink, field, word);
    }
}

/// Puts an object up to its title.
fn put_beginning<W: Sink>(out: &mut WriteBuffer, sink: &mut W, title: &str)
    ensures { PutsTo W.Sink sink.old sink.new out.old out.new (beginning title.now) }
{
    out.put(sink, b"{");
    put_quoted(out, sink, b"line");
    out.put(sink, b":");
    put_quoted(out, sink, title.as_bytes());
}

/// Writes the object of a line.
pub fn put_object<W: Sink>(out: &mut WriteBuffer, sink: &mut W, line: &[u8])
    ensures { PutsTo W.Sink sink.old sink.new out.old out.new (json_line line.now) }
{
    let mut words = ReportWords::new(line);
    let form = form_of(words.take());
    put_beginning(out, sink, form.title);
    put_members(out, sink, form.fields, words);
    out.put(sink, b"}\n");
}
