//! Link headers, datagrams and segments.

use capture_model::carried::{Carried, Payload};
use capture_model::frame::{Direction, Frame};
use capture_model::header::read_header;
use capture_model::kind::LinkKind;
use ip_segments::carriers::{in_datagram, in_frame};
use ip_segments::datagram::{Datagram, Fragment, read_datagram};
use ip_segments::fragments::{Added, Fragments};
use ip_segments::gathered::GivenUp;
use ip_segments::segment::read_segment;
use std::alloc::{AllocError, Global};
use std::test::Fail;

/// Frames of tests/captures in carriers, their lengths, and how many carriers may be in their datagrams: GRE with all fields,
/// Ethernet in MPLS, PPPoE, and VXLAN with a tag.
const CARRIED: [(&[u8], u32, u8); 4] = [
    (
        b"\x02\x00\x00\x00\x00\x02\x02\x00\x00\x00\x00\x01\x08\x00\x45\x00\x00\x53\x00\x01\x00\x00\x40\x2F\x26\x11\xC6\x33\x64\x01\xC6\x33\x64\x02\xB0\x00\x08\x00\x12\x34\x00\x00\x00\x00\x00\x07\x00\x00\x00\x01\x45\x00\x00\x2F\x00\x01\x00\x00\x40\x06\xF6\xC4\xC0\x00\x02\x02\xC0\x00\x02\x01\x07\xCE\x04\x01\x00\x00\x13\x89\x00\x00\x03\xF2\x50\x10\x20\x00\xC9\x7B\x00\x00\x00\x00\x00\x03\x10\x01\x0F",
        97,
        7,
    ),
    (
        b"\x02\x00\x00\x00\x00\x02\x02\x00\x00\x00\x00\x01\x88\x47\x00\x01\x01\x40\x00\x00\x00\x00\x02\x00\x00\x00\x00\x02\x02\x00\x00\x00\x00\x01\x08\x00\x45\x00\x00\x2F\x00\x01\x00\x00\x40\x06\xF6\xC4\xC0\x00\x02\x02\xC0\x00\x02\x01\x07\xCE\x04\x01\x00\x00\x13\x89\x00\x00\x03\xF2\x50\x10\x20\x00\xC9\x7B\x00\x00\x00\x00\x00\x03\x10\x01\x0F",
        83,
        7,
    ),
    (
        b"\x02\x00\x00\x00\x00\x02\x02\x00\x00\x00\x00\x01\x88\x64\x11\x00\x00\x07\x00\x31\x00\x21\x45\x00\x00\x2F\x00\x01\x00\x00\x40\x06\xF6\xC4\xC0\x00\x02\x02\xC0\x00\x02\x01\x07\xCE\x04\x01\x00\x00\x13\x89\x00\x00\x03\xF2\x50\x10\x20\x00\xC9\x7B\x00\x00\x00\x00\x00\x03\x10\x01\x0F",
        69,
        8,
    ),
    (
        b"\x02\x00\x00\x00\x00\x02\x02\x00\x00\x00\x00\x01\x08\x00\x45\x00\x00\x65\x00\x01\x00\x00\x40\x11\x26\x1D\xC6\x33\x64\x01\xC6\x33\x64\x02\xC3\x50\x21\x18\x00\x51\x00\x00\x08\x00\x00\x00\x00\x00\x07\x00\x02\x00\x00\x00\x00\x02\x02\x00\x00\x00\x00\x01\x81\x00\x00\x09\x08\x00\x45\x00\x00\x2F\x00\x01\x00\x00\x40\x06\xF6\xC4\xC0\x00\x02\x02\xC0\x00\x02\x01\x07\xCE\x04\x01\x00\x00\x13\x89\x00\x00\x03\xF2\x50\x10\x20\x00\xC9\x7B\x00\x00\x00\x00\x00\x03\x10\x01\x0F",
        115,
        7,
    ),
];

/// Fragments that x25trace puts together in its own tests, and what becomes of each.
const FRAGMENTS: [(u16, bool, &[u8]); 4] = [
    (8, false, b"BBBBBBBBBBBBBBBB"),
    (8, true, b"XXXXXXXXXXXXXXXXXXXXXXXX"),
    (20, true, b"CCCCCCCC"),
    (0, false, b"AAAAAAAAAAAAAAAA"),
];

/// A frame of these octets, of which there were so many on the line.
fn frame(octets: &[u8], length: u32) -> Frame<'_> {
    Frame {
        number: 1,
        link: 1,
        octets,
        length,
        direction: Direction::Unknown,
        interface: 0,
        time: None,
    }
}

/// Returns the LAPB frame that a frame carries.
fn lapb<'a>(carried: Carried<'a>) -> Option<Payload<'a>> {
    match carried {
        Carried::Lapb(payload) => Some(payload),
        _ => None,
    }
}

/// Returns the datagram that a frame carries.
fn datagram<'a>(carried: Carried<'a>) -> Option<Datagram<'a>> {
    match carried {
        Carried::Internet(payload) => read_datagram(payload).ok(),
        _ => None,
    }
}

/// Whether the segment in a frame with a tag and a trailer of two octets is read.
fn has_segment() -> bool {
    let octets =
        b"\x02\0\0\0\0\x01\x02\0\0\0\0\x02\x81\0\0\x05\x08\0\x45\0\0\x2F\0\x01\0\0\x40\x06\0\0\x0A\0\0\x01\x0A\0\0\x02\x07\xCE\x9C\x40\x01\x02\x03\x04\x0A\x0B\x0C\x0D\x50\x12\x02\0\0\0\0\0\0\0\0\x03\x10\x01\x0F\0\0";
    let header = read_header(LinkKind::Ethernet, &frame(octets.as_slice(), 67));
    let Some(datagram) = datagram(header.carried) else {
        return false;
    };
    let Ok(segment) = read_segment(datagram.payload) else {
        return false;
    };
    datagram.source == b"\x0A\0\0\x01".as_slice()
        && (segment.source, segment.target) == (1998, 40000)
        && segment.sequence == 0x0102_0304
        && segment.acknowledged == Some(0x0A0B_0C0D)
        && segment.is_syn
        && !segment.is_fin
        && segment.payload.octets == b"\0\0\0\x03\x10\x01\x0F".as_slice()
}

/// Whether a fragment of IPv6 is read, after options and its fragment header.
fn has_fragment() -> bool {
    let octets =
        b"\x60\0\0\0\0\x18\0\x40\xFD\0\0\0\0\0\0\0\0\0\0\0\0\0\0\x01\xFD\0\0\0\0\0\0\0\0\0\0\0\0\0\0\x02\x2C\0\0\0\0\0\0\0\x06\0\0\x09\xDE\xAD\xBE\xEF\x41\x42\x43\x44\x45\x46\x47\x48";
    let header = read_header(LinkKind::Internet, &frame(octets.as_slice(), 64));
    let fragment = Fragment {
        identification: 0xDEAD_BEEF,
        place: 8,
        is_last: false,
    };
    datagram(header.carried).is_some_and(|datagram| {
        datagram.protocol == 6
            && datagram.fragment == Some(fragment)
            && datagram.payload.octets == b"ABCDEFGH".as_slice()
    })
}

/// Returns the port of the segment in all carriers of an Ethernet frame, and how many carriers may be in its datagram.
fn innermost(octets: &[u8], length: u32) -> Option<(u16, u8)> {
    let mut inner = in_frame(LinkKind::Ethernet, Payload { octets, length }).ok()?;
    for _ in 0..9 {
        let datagram = read_datagram(inner.payload).ok()?;
        if datagram.protocol == 6 {
            let segment = read_segment(datagram.payload).ok()?;
            return Some((segment.source, inner.left));
        }
        inner = in_datagram(inner.left, datagram.protocol, datagram.payload).ok()?;
    }
    None
}

/// Whether the segments in all carriers are found.
fn has_carried() -> bool {
    for (octets, length, left) in &CARRIED {
        if innermost(octets, *length) != Some((1998, *left)) {
            return false;
        }
    }
    in_datagram(
        0,
        4,
        Payload {
            octets: &[],
            length: 0,
        },
    )
    .is_err()
}

/// Adds a fragment of a datagram from 1.1.1.1 to 2.2.2.2.
fn add(
    fragments: &mut Fragments,
    frame: u64,
    part: &(u16, bool, &[u8]),
) -> Result<Added, AllocError> {
    let (place, is_last, octets) = *part;
    let fragment = Fragment {
        identification: 1,
        place,
        is_last,
    };
    let datagram = Datagram {
        protocol: 6,
        source: &[1, 1, 1, 1],
        target: &[2, 2, 2, 2],
        fragment: Some(fragment),
        payload: Payload { octets, length: 0 },
    };
    fragments.add(frame, fragment, &datagram)
}

/// Whether fragments make a datagram with the first copy of each octet, and are given up where one is missing.
fn has_whole(alloc: Global) -> Result<bool, AllocError> {
    let mut fragments = Fragments::new(alloc);
    let mut frame = 0u64;
    let mut whole = false;
    for part in &FRAGMENTS {
        frame = frame.saturating_add(1);
        if let Added::Whole(octets) = add(&mut fragments, frame, part)? {
            whole = frame == 4 && octets.as_slice() == b"AAAAAAAABBBBBBBBBBBBBBBBCCCC".as_slice();
        }
    }
    let was_empty = fragments.len() == 0;
    add(&mut fragments, 5, &FRAGMENTS[0])?;
    let lost = fragments.finish();
    Ok(
        whole
            && was_empty
            && lost
                == Some(GivenUp {
                    frame: 5,
                    fragments: 1,
                })
            && fragments.finish().is_none(),
    )
}

#[test]
fn what_comes_after_tags_and_headers_is_read(rt: HostRuntime) {
    let octets =
        b"\x02\0\0\0\0\x01\x02\0\0\0\0\x02\x81\0\0\x05\x88\xA8\0\x06\x60\0\x02\0\x01\x3F\0\0";
    let header = read_header(LinkKind::Ethernet, &frame(octets.as_slice(), 28));
    assert!(rt; header.source == b"\x02\0\0\0\0\x02".as_slice());
    let payload = lapb(header.carried);
    assert!(rt;
        payload.is_some_and(|payload| payload.octets == b"\x01\x3F".as_slice() && !payload.is_cut())
    );
    let octets = b"\0\x19\0\0\0\0\0\x07\x03\x06\x04\x02\xAA\xBB\0\0\0\0\0\0\x03\x73";
    let header = read_header(LinkKind::Cooked2, &frame(octets.as_slice(), 22));
    assert!(rt; header.direction == Direction::Sent);
    assert!(rt; header.index == Some(7));
    assert!(rt; header.source == b"\xAA\xBB".as_slice());
    assert!(rt;
        lapb(header.carried).is_some_and(|payload| payload.octets == b"\x03\x73".as_slice())
    );
}

#[test]
fn datagrams_and_segments_are_read(rt: HostRuntime) {
    assert!(rt; has_segment());
    assert!(rt; has_fragment());
}

#[test]
fn segments_are_found_in_carriers(rt: HostRuntime) {
    assert!(rt; has_carried());
}

#[test]
fn fragments_make_a_datagram(rt: HostRuntime) -> Result<(), Fail> {
    let has_whole = has_whole(rt.alloc())?;
    assert!(rt; has_whole);
    Ok(())
}
