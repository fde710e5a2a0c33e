//! The fields of a line of a report, as they go to a sink.

ghost use Rattle.std.specs.Prelude.{[], ◌∷◌, ◌++◌, decimal};
ghost use Rattle.line_model.specs.basics.Written.{PutsTo};

use itoa::Buffer;
use line_model::device::Sink;
use line_model::write_buffer::WriteBuffer;

/// Puts a word and a space.
pub fn put_word<W: Sink>(out: &mut WriteBuffer, sink: &mut W, word: &[u8])
    ensures { PutsTo W.Sink sink.old sink.new out.old out.new (word.now ++ 32 ∷ []) }
{
    out.put(sink, word);
    out.put_byte(sink, b' ');
}

/// Puts the last word of a line.
pub fn put_last<W: Sink>(out: &mut WriteBuffer, sink: &mut W, word: &[u8])
    ensures { PutsTo W.Sink sink.old sink.new out.old out.new (word.now ++ 10 ∷ []) }
{
    out.put(sink, word);
    out.put_byte(sink, b'\n');
}

/// Puts a number and a space.
pub fn put_number<W: Sink>(out: &mut WriteBuffer, sink: &mut W, number: u64)
    ensures { PutsTo W.Sink sink.old sink.new out.old out.new (decimal number ++ 32 ∷ []) }
{
    let mut buffer = Buffer::new();
    put_word(out, sink, buffer.format(number).as_bytes());
}

/// Puts the number that ends a line.
pub fn put_last_number<W: Sink>(out: &mut WriteBuffer, sink: &mut W, number: u64)
    ensures { PutsTo W.Sink sink.old sink.new out.old out.new (decimal number ++ 10 ∷ []) }
{
    let mut buffer = Buffer::new();
    put_last(out, sink, buffer.format(number).as_bytes());
}
