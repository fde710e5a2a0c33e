//! LAPB links.

use lapb_link::check::unframe;
use lapb_link::ends::Ends;
use lapb_link::frames::Place;
use lapb_link::link::{Link, LinkFrame, What};
use lapb_link::receiver::Shown;
use std::alloc::{AllocError, Global};
use std::process::Abort;
use std::test::Fail;

/// A frame of a station, and what is to come of it: held frames and gaps before it (`a`, `g`), its packet (`p`), or that it
/// is held (`h`) or left out (`-`).
type Step = (Option<u64>, &'static [u8], &'static [u8]);

/// Adds what a frame shows.
fn add(out: &mut Vec<u8>, shown: &[Shown]) -> Result<(), AllocError> {
    for one in shown {
        match one {
            Shown::Gap(_) => out.push(b'g')?,
            Shown::Accepted(_) => out.push(b'a')?,
            Shown::Lost(..) | Shown::Refused(_) => {}
        }
    }
    Ok(())
}

/// Checks what comes of each frame.
fn check(rt: &impl Abort, alloc: Global, steps: &[Step]) -> Result<(), AllocError> {
    let mut link = Link::new(alloc, None, Ends::by_address())?;
    let mut frame = 0u64;
    for (source, octets, expected) in steps {
        frame = frame.saturating_add(1);
        let mut shown = Vec::new(alloc);
        let read = LinkFrame {
            place: Place { frame, time: None },
            source: *source,
            octets,
            is_cut: false,
        };
        let taken = link.read(alloc, &read, &mut shown)?;
        let mut found = Vec::new(alloc);
        add(&mut found, &shown)?;
        found.push(match taken.what {
            What::Packet(_) => b'p',
            What::Held(_) => b'h',
            What::Unnumbered(_) | What::LeftOut(_) => b'-',
        })?;
        assert!(rt; found.as_slice() == *expected);
    }
    Ok(())
}

/// A set-up; a frame, and it again; two with the second lost between them, which the other side shows; one that is held, refused,
/// and comes again after the frame before it.
const OF_ONE_SIDE: [Step; 9] = [
    (None, b"\x01\x3F", b"-"),
    (None, b"\x01\x00\x10\x01\x01", b"p"),
    (None, b"\x01\x00\x10\x01\x01", b"-"),
    (None, b"\x01\x04\x10\x01\x21", b"h"),
    (None, b"\x03\x60\x10\x01\x01", b"gap"),
    (None, b"\x01\x08\x10\x01\x41", b"h"),
    (None, b"\x01\x69", b"-"),
    (None, b"\x01\x06\x10\x01\x31", b"p"),
    (None, b"\x01\x08\x10\x01\x41", b"p"),
];

#[test]
fn frames_are_held_until_their_receiver_shows(rt: HostRuntime) -> Result<(), Fail> {
    check(&rt, rt.alloc(), &OF_ONE_SIDE)?;
    Ok(())
}

/// Two stations that send as the DTE, each with its own numbers, modulo 128.
const OF_TWO_STATIONS: [Step; 5] = [
    (Some(1), b"\x01\x7F", b"-"),
    (Some(2), b"\x03\x73", b"-"),
    (Some(1), b"\x01\x00\x00\x10\x01\x01", b"p"),
    (Some(2), b"\x01\x00\x02\x10\x01\x01", b"p"),
    (Some(2), b"\x01\x02\x02\x10\x01\x21", b"p"),
];

#[test]
fn stations_with_one_address_are_distinguished(rt: HostRuntime) -> Result<(), Fail> {
    check(&rt, rt.alloc(), &OF_TWO_STATIONS)?;
    Ok(())
}

#[test]
fn check_sequence_may_end_like_a_flag(rt: HostRuntime) {
    let framed = b"\x7E\x01\0\x10\x01\x57\x44\x7E\x7E\x7E";
    assert!(rt; unframe(framed.as_slice()) == Some(b"\x01\0\x10\x01\x57".as_slice()));
    assert!(rt; unframe(b"\x7E\x03\x3F\x5B\xED\x7E".as_slice()).is_none());
}
