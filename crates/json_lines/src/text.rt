//! The whole text of a report as JSON lines.

ghost use Rattle.std.specs.Prelude.{◌≡◌, ◌<◌, ◌++◌, ℕ, List, IfErr, OnErr, OnOk};
ghost use Rattle.line_model.specs.basics.Device.{with_more};
ghost use Rattle.json_lines.specs.Json.{json_text};

use crate::sink::JsonSink;
use line_model::device::Sink;
use line_model::fault::Fault;
use line_model::lending::{Borrowed, Origin, take_back};
use line_model::write_buffer::write_all;
use std::marker::Brand;

/// As `write_json_lines`, to the sink of an origin.
fn write_to<'a, K: Sink, B: Origin>(text: &[u8], sink: &'a mut K) -> (&'a mut K, Result<(), Fault>)
    requires name { sink.ghost_name ≡ B.name }
    requires before { (K.taken sink.now, K.failures sink.now) ≡ B.before }
    ensures name { result.0.ghost_name ≡ B.name }
    ensures ok { OnOk result.1 (K.taken result.0.now
        ≡ with_more B.before.0 (json_text text.now)) }
    ensures part { OnErr result.1 ((front : List ℕ) × (rest : List ℕ)
        × (json_text text.now ≡ front ++ rest)
        × (K.taken result.0.now ≡ with_more B.before.0 front)) }
    ensures failed { IfErr result.1 (λ fault. (fault ≡ Fault.Write)
        × (B.before.1 < K.failures result.0.now)) }
{
    let mut json = JsonSink::new(Borrowed::<K, B>::new(sink));
    let written = write_all(&mut json, text);
    let (lent, answer) = json.finish();
    match written {
        Ok(()) => (lent.give_back(), answer),
        Err(fault) => (lent.give_back(), Err(fault)),
    }
}

/// Writes to a sink the objects of the lines of a text. Fails where the sink fails, which took a first part of them.
pub fn write_json_lines<K: Sink>(text: &[u8], sink: &mut K) -> Result<(), Fault>
    ensures ok { OnOk result (K.taken sink.new
        ≡ with_more (K.taken sink.old) (json_text text.now)) }
    ensures part { OnErr result ((front : List ℕ) × (rest : List ℕ)
        × (json_text text.now ≡ front ++ rest)
        × (K.taken sink.new ≡ with_more (K.taken sink.old) front)) }
    ensures failed { IfErr result (λ fault. (fault ≡ Fault.Write)
        × (K.failures sink.old < K.failures sink.new)) }
{
    let (sink, answer) = write_to::<K, Brand>(text, sink);
    take_back(sink);
    answer
}
