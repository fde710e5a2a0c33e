//! The objects of circuits, behind those of a report.

ghost use Rattle.std.specs.Prelude.{◌≡◌, ◌<◌, ◌≤◌, ◌++◌, IfErr, List, OnErr, OnOk, decimal, flat_map, length};
ghost use Rattle.descriptions.specs.Circuits.{Circuit};
ghost use Rattle.descriptions.specs.RowObjects.{circuit_object, number_word};
ghost use Rattle.line_model.specs.basics.Written.{PutsTo, TakesAll, TakesFront};

use descriptions::circuits::{Host, NamedCircuit, circuit_of_comment};
use itoa::Buffer;
use line_model::device::Sink;
use line_model::fault::Fault;
use line_model::state::Side;
use line_model::write_buffer::WriteBuffer;
use memchr::memchr;

/// Puts the digits of a number.
fn put_number<K: Sink>(out: &mut WriteBuffer, sink: &mut K, number: u64)
    ensures { PutsTo K.Sink sink.old sink.new out.old out.new (decimal number) }
{
    let mut buffer = Buffer::new();
    out.put(sink, buffer.format(number).as_bytes());
}

/// Puts a logical channel; `null` where there is none.
fn put_channel<K: Sink>(out: &mut WriteBuffer, sink: &mut K, channel: Option<u64>)
    ensures { PutsTo K.Sink sink.old sink.new out.old out.new (number_word channel) }
{
    match channel {
        Some(channel) => put_number(out, sink, channel),
        None => out.put(sink, b"null"),
    }
}

/// Puts the address of an end, and its port behind the name of that.
fn put_end<K: Sink>(out: &mut WriteBuffer, sink: &mut K, end: &Host<'_>, port: &[u8])
    ensures { PutsTo K.Sink sink.old sink.new out.old out.new
        (end.now.address ++ (port.now ++ decimal end.now.port)) }
{
    out.put(sink, end.address());
    out.put(sink, port);
    put_number(out, sink, end.port());
}

/// Puts the object of a circuit on a line of its own.
fn put_circuit<K: Sink>(out: &mut WriteBuffer, sink: &mut K, circuit: &NamedCircuit<'_>)
    ensures { PutsTo K.Sink sink.old sink.new out.old out.new (circuit_object circuit.now) }
{
    out.put(sink, b"{\"line\":\"circuit\",\"circuit\":");
    put_number(out, sink, circuit.number());
    out.put(sink, b",\"channel\":");
    put_channel(out, sink, circuit.channel());
    out.put(sink, b",\"dte\":\"");
    put_end(out, sink, circuit.end(Side::T), b"\",\"dte_port\":");
    out.put(sink, b",\"dce\":\"");
    put_end(out, sink, circuit.end(Side::N), b"\",\"dce_port\":");
    out.put(sink, b"}\n");
}

/// Puts the object of the circuit that a line names, if it names one.
fn put_named<K: Sink>(out: &mut WriteBuffer, sink: &mut K, line: &[u8])
    ensures { (circuits : List Circuit) × PutsTo K.Sink sink.old sink.new out.old out.new (flat_map circuit_object circuits) }
{
    if let Some(circuit) = circuit_of_comment(line) {
        put_circuit(out, sink, &circuit);
    }
}

/// Returns how many octets the first line of a text has, with its end.
fn first_line(text: &[u8]) -> usize
    requires { 0 < length text.now }
    ensures some { 0 < result }
    ensures fits { result ≤ length text.now }
{
    match memchr(b'\n', text) {
        Some(end) => end + 1,
        None => text.len(),
    }
}

/// Prints the objects of the circuits that lines name. Fails where the sink fails, which accepted a first part of them.
pub(crate) fn print_circuits<K: Sink>(lines: &[u8], sink: &mut K) -> Result<(), Fault>
    ensures ok { OnOk result ((circuits : List Circuit) × TakesAll K.Sink sink.old sink.new (flat_map circuit_object circuits)) }
    ensures part { OnErr result ((circuits : List Circuit) × TakesFront K.Sink sink.old sink.new (flat_map circuit_object circuits)) }
    ensures cause { OnErr result (K.failures sink.old < K.failures sink.new) }
    ensures write { IfErr result (λ fault. fault ≡ Fault.Write) }
{
    let mut out = WriteBuffer::new();
    let mut rest = lines;
    while !rest.is_empty() {
        let end = first_line(rest);
        put_named(&mut out, sink, &rest[..end]);
        rest = &rest[end..];
    }
    out.end(sink)
}
