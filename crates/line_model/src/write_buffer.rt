//! A text on its way to a sink.

ghost use Rattle.std.specs.Prelude.{◌≡◌, ℕ, List, [], ◌∷◌, ◌<◌, ◌≤◌, Option, OnOk, OnErr, IfErr, false};
ghost use Rattle.line_model.specs.basics.Device.{with_more};
ghost use Rattle.line_model.specs.basics.Written.{HasFront, KeepsText, OfWriting, PutsTo, TakesAll, TakesFront, Writes, has_failed, held_bytes};

use crate::device::Sink;
use crate::fault::Fault;
use arrayvec::ArrayVec;

/// Writes all bytes to a sink. Fails where the sink fails, which accepted a first part of them.
pub fn write_all<W: Sink>(sink: &mut W, bytes: &[u8]) -> Result<(), Fault>
    ensures ok { OnOk result (TakesAll W.Sink sink.old sink.new bytes.now) }
    ensures part { OnErr result (TakesFront W.Sink sink.old sink.new bytes.now) }
    ensures rising { W.failures sink.old ≤ W.failures sink.new }
    ensures cause { OnErr result (W.failures sink.old < W.failures sink.new) }
    ensures write { IfErr result (λ fault. fault ≡ Fault.Write) }
{
    let mut rest = bytes;
    while !rest.is_empty() {
        match sink.write(rest) {
            Ok(n) => rest = &rest[n..],
            Err(()) => return Err(Fault::Write),
        }
    }
    Ok(())
}

/// Holds the last bytes of a text, so that small parts go to a sink in few writes. It needs no memory.
///
/// ```text
///  text put so far:  F 5 T d1 1\nC 1 1 1 out - - 1 2|
///                    `---- sent -----'`--- held ----'
/// ```
///
/// Each call gets the sink as an argument; the contracts are about a text that goes to one sink. After the sink has
/// failed, the buffer drops what is put, and does not ask the sink again.
#[derive(Drop)]
pub struct WriteBuffer {
    bytes: ArrayVec<u8, 4096>,
    failed: bool,
}

impl WriteBuffer {
    /// Returns an empty buffer.
    pub fn new() -> WriteBuffer
        ensures nothing { (taken : Option (List ℕ) × ℕ) → Writes taken taken result [] }
        ensures empty { held_bytes result ≡ [] }
        ensures working { has_failed result ≡ false }
    {
        WriteBuffer {
            bytes: ArrayVec::new(),
            failed: false,
        }
    }

    /// Returns whether the sink has failed.
    pub fn has_failed(&self) -> bool
        ensures { result ≡ has_failed self.now }
    {
        self.failed
    }

    /// Sends what is held.
    pub fn flush<W: Sink>(&mut self, sink: &mut W)
        ensures sent { KeepsText W.Sink sink.old sink.new self.old self.new }
        ensures empty { held_bytes self.new ≡ [] }
    {
        if self.failed {
            self.bytes.clear();
            return;
        }
        match write_all(sink, self.bytes.as_slice()) {
            Ok(()) => self.bytes.clear(),
            Err(_) => {
                self.failed = true;
                self.bytes.clear();
            }
        }
    }

    /// Sends bytes where nothing is held.
    fn send<W: Sink>(&mut self, sink: &mut W, bytes: &[u8])
        requires { held_bytes self.old ≡ [] }
        ensures { PutsTo W.Sink sink.old sink.new self.old self.new bytes.now }
    {
        if self.failed {
            return;
        }
        match write_all(sink, bytes) {
            Ok(()) => {}
            Err(_) => self.failed = true,
        }
    }

    /// Sends what is held, and then puts bytes.
    #[inline(never)]
    fn put_next<W: Sink>(&mut self, sink: &mut W, bytes: &[u8])
        ensures { PutsTo W.Sink sink.old sink.new self.old self.new bytes.now }
    {
        self.flush(sink);
        match self.bytes.try_extend_from_slice(bytes) {
            Ok(()) => {}
            Err(_) => self.send(sink, bytes),
        }
    }

    /// Puts bytes after those of the text so far. They are held where there is room; otherwise what is held is sent
    /// first.
    pub fn put<W: Sink>(&mut self, sink: &mut W, bytes: &[u8])
        ensures { PutsTo W.Sink sink.old sink.new self.old self.new bytes.now }
    {
        match self.bytes.try_extend_from_slice(bytes) {
            Ok(()) => {}
            Err(_) => self.put_next(sink, bytes),
        }
    }

    /// Puts a byte after those of the text so far, as `put` does.
    #[inline(always)]
    pub fn put_byte<W: Sink>(&mut self, sink: &mut W, byte: u8)
        ensures { PutsTo W.Sink sink.old sink.new self.old self.new (byte ∷ []) }
    {
        match self.bytes.try_push(byte) {
            Ok(()) => {}
            Err(_) => self.put_next(sink, &[byte]),
        }
    }

    /// Sends what is held. The sink then has the whole text. Fails where the sink has failed, which accepted a first
    /// part.
    pub fn end<W: Sink>(mut self, sink: &mut W) -> Result<(), Fault>
        ensures ok { OfWriting W.Sink sink.old self (λ before text.
            OnOk result (W.taken sink.new ≡ with_more before.0 text)) }
        ensures part { OfWriting W.Sink sink.old self (λ before text.
            OnErr result (HasFront before.0 (W.taken sink.new) text)) }
        ensures rising { OfWriting W.Sink sink.old self (λ before text.
            before.1 ≤ W.failures sink.new) }
        ensures cause { OfWriting W.Sink sink.old self (λ before text.
            OnErr result (before.1 < W.failures sink.new)) }
        ensures write { IfErr result (λ fault. fault ≡ Fault.Write) }
    {
        self.flush(sink);
        if self.failed {
            Err(Fault::Write)
        } else {
            Ok(())
        }
    }
}
