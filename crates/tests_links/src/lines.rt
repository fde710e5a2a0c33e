//! Lines.

use capture_model::frame::{Direction, Frame};
use capture_model::kind::LinkKind;
use capture_rows::choices::Choices;
use capture_rows::given::Given;
use capture_rows::line::{FrameRead, Line};
use capture_rows::station::StationBy;
use lapb_link::ends::Ends;
use line_model::state::Side;
use std::alloc::AllocError;
use std::test::Fail;

/// A frame: its link type, its interface, its octets, how many there were on the line, and what it gives.
type Step = (u16, u32, &'static [u8], u32, &'static [u8]);

/// LAPB with directions: a set-up, a packet each way, a frame of another interface. Packets with directions: one, one that the
/// recorder cut, a frame without octets, and the packet after that.
const STEPS: [Step; 8] = [
    (207, 0, b"\x01\x01\x3F", 3, b"-"),
    (207, 0, b"\x01\x01\x00\x10\x01\x01", 6, b"T"),
    (207, 0, b"\x00\x03\x20\x10\x01\x01", 6, b"N"),
    (207, 1, b"\x01\x01\x22\x10\x01\x21", 6, b"-"),
    (150, 0, b"\x00\x10\x01\x01", 4, b"N"),
    (150, 0, b"\x01\x10\x01", 9, b"x"),
    (150, 0, b"", 0, b"-"),
    (150, 0, b"\x01\x10\x01\x01", 4, b"gT"),
];

/// Adds what a frame gives: a gap before it (`g`), the side of its packet, the gap of its packet (`x`), or nothing (`-`).
fn add(out: &mut Vec<u8>, read: &FrameRead<'_>) -> Result<(), AllocError> {
    if read.gap_before {
        out.push(b'g')?;
    }
    out.push(match read.given {
        Given::Packet(Side::T, _) => b'T',
        Given::Packet(Side::N, _) => b'N',
        Given::Gap(..) => b'x',
        Given::Held { .. } | Given::Unnumbered(_) | Given::LeftOut(_) => b'-',
    })?;
    Ok(())
}

#[test]
fn each_frame_gives_a_packet_a_gap_or_a_reason(rt: HostRuntime) -> Result<(), Fail> {
    let choices = Choices {
        unknown: Some(LinkKind::DirectedPacket),
        carrier: None,
        interface: Some(0),
        station_by: StationBy::Either,
        host: Side::T,
    };
    let mut line = Line::new(rt.alloc(), choices, None, Ends::by_address())?;
    let mut number = 0u64;
    for (link, interface, octets, length, expected) in &STEPS {
        number = number.saturating_add(1);
        let frame = Frame {
            number,
            link: *link,
            octets,
            length: *length,
            direction: Direction::Unknown,
            interface: *interface,
            time: None,
        };
        let read = line.read(rt.alloc(), &frame, &mut Vec::new(rt.alloc()))?;
        let mut found = Vec::new(rt.alloc());
        add(&mut found, &read)?;
        assert!(rt; found.as_slice() == *expected);
    }
    Ok(())
}
