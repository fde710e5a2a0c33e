//! JSON on its way to a sink.

ghost use Rattle.std.specs.Prelude.{◌≡◌, ◌<◌, ℕ, List, [], IfErr, OnErr, OnOk};
ghost use Rattle.line_model.specs.basics.Device.{with_more};
ghost use Rattle.line_model.specs.basics.Written.{HasFront};

use crate::json::Out;
use line_model::device::Sink;
use line_model::fault::Fault;
use line_model::lending::LentSink;
use line_model::write_buffer::WriteBuffer;

/// A lent sink that accepts JSON in parts, through a buffer. Allocates no memory. Once the sink fails, nothing more is
/// sent, and `finish` returns the failure.
#[derive(Drop)]
pub struct Sending<S: LentSink> {
    sink: S,
    buffer: WriteBuffer,
}

impl<S: LentSink> Sending<S> {
    /// Returns a writer before the first byte. The sink is as it was lent.
    pub fn new(sink: S) -> Self
        requires { (S.taken sink, S.failures sink) ≡ S.before }
        ensures { ⟦<Sending<S> as Out>⟧.has result [] }
    {
        Sending {
            sink,
            buffer: WriteBuffer::new(),
        }
    }

    /// Returns the sink. It accepted all that was put, or it has failed and accepted a first part of it.
    pub fn finish(self) -> (S, Result<(), Fault>)
        ensures ok { (text : List ℕ) → ⟦<Sending<S> as Out>⟧.has self text
            → OnOk result.1 (S.taken result.0 ≡ with_more S.before.0 text) }
        ensures part { (text : List ℕ) → ⟦<Sending<S> as Out>⟧.has self text
            → OnErr result.1 (HasFront S.before.0 (S.taken result.0) text) }
        ensures cause { (text : List ℕ) → ⟦<Sending<S> as Out>⟧.has self text
            → OnErr result.1 (S.before.1 < S.failures result.0) }
        ensures write { IfErr result.1 (λ fault. fault ≡ Fault.Write) }
    {
        let Sending { mut sink, buffer } = self;
        let answer = buffer.end(&mut sink);
        (sink, answer)
    }
}

impl<S: LentSink> Out for Sending<S> {
    ghost use Rattle.line_model.specs.basics.Written.{Writes};

    ghost has = { λ s text. Writes S.before (S.taken s.sink, S.failures s.sink) s.buffer text };

    fn put(&mut self, bytes: &[u8]) {
        self.buffer.put(&mut self.sink, bytes);
    }
}
