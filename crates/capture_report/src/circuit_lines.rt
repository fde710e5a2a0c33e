//! The lines of circuits in the text of a trace: comments that programs read.

ghost use Rattle.std.specs.Prelude.{◌≡◌, ◌++◌, OnOk};
ghost use Rattle.std.specs.Net.Text.{ip_text};
ghost use Rattle.capture_report.specs.CircuitChannels.{channel_of};
ghost use Rattle.capture_report.specs.CircuitLines.{address_text, channel_word, circuit_line, circuits_text, end_text};

use crate::circuits::{CircuitChannels, SeenCircuit};
use crate::print::append_number;
use std::alloc::{AllocError, Global};
use std::net::{IpAddr, Ipv4Addr, Ipv6Addr};
use tcp_streams::ends::Endpoint;

/// Returns the address of an end.
#[tactic(auto, using(crate::proofs::CircuitLineLemmas::octets_of_bits, crate::proofs::CircuitLineLemmas::segments_of_bits))]
fn address_of(end: &Endpoint) -> IpAddr
    ensures { ip_text result ≡ address_text end.now }
{
    if end.is_version_6 {
        IpAddr::V6(Ipv6Addr::from_bits(end.address))
    } else {
        IpAddr::V4(Ipv4Addr::from_bits((end.address % (1 << 32)) as u32))
    }
}

/// Appends the address and the port of an end.
fn append_end(alloc: Global, end: &Endpoint, out: &mut Vec<u8>) -> Result<(), AllocError>
    ensures { OnOk result (out.new.items ≡ out.old.items ++ end_text end.now) }
{
    let address = address_of(end);
    let port = end.port;
    let text = format!(in alloc; " {address} {port}")?;
    out.extend_from_slice(text.as_bytes())
}

/// Appends the word of a circuit's channel.
fn append_channel(channel: Option<u16>, out: &mut Vec<u8>) -> Result<(), AllocError>
    ensures { OnOk result (out.new.items ≡ out.old.items ++ channel_word channel) }
{
    match channel {
        Some(channel) => {
            out.extend_from_slice(b" ")?;
            append_number(channel.into(), out)
        }
        None => out.extend_from_slice(b" -"),
    }
}

/// Appends the line of a circuit, without its end.
fn append_circuit(
    alloc: Global,
    circuit: &SeenCircuit,
    channel: Option<u16>,
    out: &mut Vec<u8>,
) -> Result<(), AllocError>
    ensures { OnOk result (out.new.items ≡ out.old.items ++ circuit_line circuit.now channel) }
{
    out.extend_from_slice(b"#@ circuit ")?;
    append_number(circuit.connection, out)?;
    append_channel(channel, out)?;
    append_end(alloc, &circuit.ends.dte, out)?;
    append_end(alloc, &circuit.ends.dce, out)
}

/// Appends the line of each circuit, with its logical channel. Fails only when memory is refused.
pub(crate) fn append_circuits(
    alloc: Global,
    circuits: &[SeenCircuit],
    channels: &CircuitChannels,
    out: &mut Vec<u8>,
) -> Result<(), AllocError>
    ensures { OnOk result (out.new.items ≡ out.old.items ++ circuits_text (channel_of channels.now) circuits.now) }
{
    for circuit in circuits {
        append_circuit(alloc, circuit, channels.get(circuit.connection), out)?;
        out.push(b'\n')?;
    }
    Ok(())
}

/// How the line of a circuit begins.
const CIRCUIT: &[u8] = b"#@ circuit ";

/// Returns the lines of a text that name circuits, each with its end. Fails only when memory is refused.
pub(crate) fn lines_of_circuits(alloc: Global, text: &[u8]) -> Result<Vec<u8>, AllocError> {
    let mut lines = Vec::new(alloc);
    for line in text.split_inclusive(|byte| *byte == b'\n') {
        if line.starts_with(CIRCUIT) {
            lines.extend_from_slice(line)?;
        }
    }
    Ok(lines)
}
