//! XOT: the packets of a stream, and the channels of circuits.

use line_model::interface::Interface;
use line_model::state::Side;
use std::alloc::{AllocError, Global};
use std::test::Fail;
use xot_circuits::channels::{Purpose, Wanted, assign};
use xot_circuits::circuit::Circuit;
use xot_circuits::stream::{Found, Stream};

/// A segment, or a gap where it has no octets, and the third octets of the packets that it completes.
type Step = (&'static [u8], &'static [u8]);

/// A call in three pieces, and data after it. A gap; a segment that begins inside of a packet, and one on another channel;
/// data whose header comes in two segments; another version, and data after that.
const STEPS: [Step; 10] = [
    (b"\x00\x00", b""),
    (b"\x00\x05\x10\x01\x0B", b""),
    (b"\x00\x00\x00\x00\x00\x03\x10\x01\x00", b"\x0B\x00"),
    (b"", b""),
    (b"\xAA\x00\x00\x00\x03\x10\x01\x02", b""),
    (b"\x00\x00\x00\x03\x10\x02\x02", b""),
    (b"\x00\x00\x00", b""),
    (b"\x03\x10\x01\x04", b"\x04"),
    (b"\x00\x01\x00\x03\x10\x01\x06", b""),
    (b"\x00\x00\x00\x03\x10\x01\x08", b"\x08"),
];

/// Follows a packet, and adds its third octet.
fn add(circuit: &mut Circuit, packet: &[u8], out: &mut Vec<u8>) -> Result<(), AllocError> {
    circuit.follow(Side::T, packet);
    if let [_, _, kind, ..] = packet {
        out.push(*kind)?;
    }
    Ok(())
}

/// Reads a segment or a gap.
fn read(
    stream: &mut Stream,
    circuit: &mut Circuit,
    octets: &[u8],
    out: &mut Vec<u8>,
) -> Result<(), AllocError> {
    if octets.is_empty() {
        stream.lose();
        circuit.lose();
    }
    if stream.is_sought() {
        stream.join(octets, &circuit.expected(Side::T))?;
    }
    let mut left = octets;
    for _ in 0..4 {
        if stream.is_sought() {
            return Ok(());
        }
        let next = stream.next(left)?;
        left = next.rest;
        match next.found {
            Found::Lent(packet) => add(circuit, packet, out)?,
            Found::Kept => add(circuit, stream.packet(), out)?,
            Found::Partial | Found::OtherVersion { .. } => return Ok(()),
        }
    }
    Ok(())
}

/// Two calls and a permanent circuit; a call while the second one's channel is free again, and one while none is.
const WANTED: [Wanted; 5] = [
    Wanted {
        purpose: Purpose::Calls(Side::T),
        first: 1,
        last: 9,
        is_clear: true,
    },
    Wanted {
        purpose: Purpose::Permanent,
        first: 2,
        last: 20,
        is_clear: true,
    },
    Wanted {
        purpose: Purpose::Calls(Side::T),
        first: 3,
        last: 6,
        is_clear: true,
    },
    Wanted {
        purpose: Purpose::Calls(Side::T),
        first: 8,
        last: 30,
        is_clear: false,
    },
    Wanted {
        purpose: Purpose::Calls(Side::T),
        first: 9,
        last: 11,
        is_clear: true,
    },
];

/// One permanent circuit, and two channels for calls.
const INTERFACE: Interface = Interface {
    modulus: 8,
    window: 2,
    size: 128,
    pvc: 1,
    incoming: 1,
    two_way: 3,
    svc: 3,
    join: false,
    gaps: true,
};

/// Returns the channels of these circuits, 0 for none.
fn given(alloc: Global) -> Result<Vec<u8>, AllocError> {
    let mut out = Vec::new(alloc);
    for one in &assign(alloc, INTERFACE, &WANTED)? {
        out.push(match one {
            Some(given) => (given.channel % 256) as u8,
            None => 0,
        })?;
    }
    Ok(out)
}

#[test]
fn packets_come_whole_and_are_joined_after_a_gap(rt: HostRuntime) -> Result<(), Fail> {
    let mut stream = Stream::new(rt.alloc(), false);
    let mut circuit = Circuit::new(false);
    for (octets, expected) in &STEPS {
        let mut found = Vec::new(rt.alloc());
        read(&mut stream, &mut circuit, octets, &mut found)?;
        assert!(rt; found.as_slice() == *expected);
    }
    Ok(())
}

#[test]
fn circuits_share_no_channel(rt: HostRuntime) -> Result<(), Fail> {
    assert!(rt; given(rt.alloc())?.as_slice() == b"\x02\x01\x03\x03\x00".as_slice());
    Ok(())
}
