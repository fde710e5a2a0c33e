//! A source that is read to its end, and the trait of what reads its bytes.

ghost use Rattle.std.specs.Prelude.{◌≡◌, ℕ, ◌+◌, ◌<◌, ◌≤◌, ◌^◌, [], Err, IfErr, OnOk};
ghost use Rattle.trace_text.specs.Sources.{IsFedAll, IsFedUpTo, MayBeFed};

use line_model::device::{LastLine, Source};
use line_model::fault::Fault;

/// Reads an input chunk by chunk, and puts what it makes of it into an `O`.
pub trait Consumer<O> {
    ghost use Rattle.std.specs.Prelude.{◌≡◌, ◌≢◌, ℕ, ◌++◌, ◌≤◌, ◌^◌, List, IfErr, OnOk, length};
    ghost use Rattle.trace_text.specs.Decided.{NoneDecidedButLast};
    ghost use Rattle.line_model.specs.declared.fault.Fault.{Fault as AnyFault};

    /// From the first state of it and of its `O` to the second, it was fed this text, and refused none of it.
    ghost was_fed: { Self → O → Self → O → List ℕ → Type 0 };

    /// After it was fed this text it refused this chunk.
    ghost refused: { Self → O → Self → O → List ℕ → List ℕ → AnyFault → Type 0 };

    /// A text that begins so may be fed.
    ghost expects: { List ℕ → Type 0 };

    /// At most this many of the last bytes that it was fed may show a faulty line.
    ghost lag: { ℕ };

    /// How many bytes it was fed.
    ghost size: { Self → ℕ };

    /// Reads the next chunk of the text. Fails with what it refuses, and never with `Read`.
    fn feed(&mut self, chunk: &[u8], out: &mut O) -> Result<(), Fault>
        requires fed { (first : Self) × (start : O) × (text : List ℕ)
            × was_fed first start self.old out.old text × expects (text ++ chunk.now) }
        ensures fed { (first : Self) (start : O) (text : List ℕ)
            → was_fed first start self.old out.old text
            → OnOk result (was_fed first start self.new out.new (text ++ chunk.now)) }
        ensures refused { (first : Self) (start : O) (text : List ℕ)
            → was_fed first start self.old out.old text
            → IfErr result (refused first start self.new out.new text chunk.now) }
        ensures kinds { IfErr result (λ fault. fault ≢ Fault.Read) };

    /// Returns the last line that it read, as `Lines::last_line`.
    fn last_line(&self) -> LastLine<'_>;

    /// No line of what it was fed is known to be faulty, except for those of the last bytes.
    ghost sound: { (first : Self) (start : O) (now : Self) (out : O) (text : List ℕ)
        → was_fed first start now out text → NoneDecidedButLast lag text };

    /// It counts the bytes of the text.
    ghost sized: { (first : Self) (start : O) (now : Self) (out : O) (text : List ℕ)
        → was_fed first start now out text → size now ≡ length text };

    /// It is fed at most the bytes that a text may have.
    ghost few: { (first : Self) (start : O) (now : Self) (out : O) (text : List ℕ)
        → was_fed first start now out text → length text ≤ 2 ^ 30 };
}

/// Feeds all bytes that a source gives, read by read. Fails with the first refusal of the consumer, and with
/// `Fault::Read` where the source fails.
fn feed_all<O, T: Consumer<O>, S: Source>(
    source: &mut S,
    consumer: &mut T,
    out: &mut O,
) -> Result<(), Fault>
    requires nothing { T.was_fed consumer.old out.old consumer.old out.old [] }
    requires expected { MayBeFed (S.left source.old) T.expects }
    ensures whole { OnOk result (IsFedAll T.lag (S.left source.old) (S.left source.new)
        (S.before source.new) (T.was_fed consumer.old out.old consumer.new out.new)) }
    ensures stopped { IfErr result (IsFedUpTo T.lag (S.left source.old) (S.left source.new)
        (S.before source.new) (T.was_fed consumer.old out.old consumer.new out.new)
        (T.refused consumer.old out.old consumer.new out.new)) }
    ensures read_failed { result ≡ Err Fault.Read → S.failures source.old < S.failures source.new }
    ensures called { S.calls source.old < S.calls source.new }
    ensures asked { S.calls source.new ≤ S.calls source.old + (2 ^ 30 + 1) }
{
    loop {
        let Ok(()) = source.read() else {
            return Err(Fault::Read);
        };
        let chunk = source.latest();
        if chunk.is_empty() {
            return Ok(());
        }
        consumer.feed(chunk, out)?;
    }
}

/// Feeds all bytes that a source gives, read by read, and gives the source the last line. Fails with the first refusal of
/// the consumer, and with `Fault::Read` where the source fails.
pub fn read_to_end<O, T: Consumer<O>, S: Source>(
    source: &mut S,
    consumer: &mut T,
    out: &mut O,
) -> Result<(), Fault>
    requires nothing { T.was_fed consumer.old out.old consumer.old out.old [] }
    requires expected { MayBeFed (S.left source.old) T.expects }
    ensures whole { OnOk result (IsFedAll T.lag (S.left source.old) (S.left source.new)
        (S.before source.new) (T.was_fed consumer.old out.old consumer.new out.new)) }
    // At a refusal, all bytes that the source gave before its last call were fed.
    ensures stopped { IfErr result (IsFedUpTo T.lag (S.left source.old) (S.left source.new)
        (S.before source.new) (T.was_fed consumer.old out.old consumer.new out.new)
        (T.refused consumer.old out.old consumer.new out.new)) }
    ensures read_failed { result ≡ Err Fault.Read → S.failures source.old < S.failures source.new }
    // The source is asked at least once.
    ensures called { S.calls source.old < S.calls source.new }
    ensures asked { S.calls source.new ≤ S.calls source.old + (2 ^ 30 + 1) }
{
    let read = feed_all(source, consumer, out);
    source.keep_line(consumer.last_line());
    read
}
