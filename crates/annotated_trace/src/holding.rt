//! Bytes that are held for a sink.

ghost use Rattle.std.specs.Prelude.{◌≡◌, ◌<◌, ◌≤◌, ◌^◌, ◌++◌, [], List, ℕ, length, OnErr, OnOk, IfErr};
ghost use Rattle.line_model.specs.basics.Device.{with_more};

use line_model::device::Sink;
use line_model::fault::Fault;
use line_model::write_buffer::write_all;
use std::alloc::Allocator;

/// The most bytes that are held while a chunk is read.
const MUCH: usize = 1 << 18;

/// Writes to a sink what is held. Fails where the sink fails, which accepted a first part.
pub fn send_held<A: Allocator, K: Sink>(held: &mut Vec<u8, A>, sink: &mut K) -> Result<(), Fault>
    ensures ok { OnOk result (K.taken sink.new ≡ with_more (K.taken sink.old) held.old.items) }
    ensures none_held { OnOk result (held.new.items ≡ []) }
    ensures part { OnErr result ((front : List ℕ) × (rest : List ℕ)
        × (held.old.items ≡ front ++ rest) × (K.taken sink.new
        ≡ with_more (K.taken sink.old) front)) }
    ensures rising { K.failures sink.old ≤ K.failures sink.new }
    ensures cause { OnErr result (K.failures sink.old < K.failures sink.new) }
    ensures write { IfErr result (λ fault. fault ≡ Fault.Write) }
{
    write_all(sink, held.as_slice())?;
    held.clear();
    Ok(())
}

/// Writes what is held to a sink where it is 2^18 bytes or more. Fails where the sink fails, which accepted a first part.
pub fn send_much<A: Allocator, K: Sink>(held: &mut Vec<u8, A>, sink: &mut K) -> Result<(), Fault>
    ensures ok { OnOk result ((sent : List ℕ)
        × (K.taken sink.new ≡ with_more (K.taken sink.old) sent)
        × (sent ++ held.new.items ≡ held.old.items)) }
    ensures little { OnOk result (length held.new.items < 2 ^ 18) }
    ensures part { OnErr result ((front : List ℕ) × (rest : List ℕ)
        × (held.old.items ≡ front ++ rest) × (K.taken sink.new
        ≡ with_more (K.taken sink.old) front)) }
    ensures rising { K.failures sink.old ≤ K.failures sink.new }
    ensures cause { OnErr result (K.failures sink.old < K.failures sink.new) }
    ensures write { IfErr result (λ fault. fault ≡ Fault.Write) }
{
    if held.len() < MUCH {
        return Ok(());
    }
    send_held(held, sink)
}
