//! XOT: the items of a recording.

use crate::connections::{Form, endpoint, segment};
use crate::item_log::{ItemLog, Kept};
use line_model::state::Side;
use std::alloc::AllocError;
use std::test::Fail;
use tcp_streams::connection::End;
use tcp_streams::ends::Ends;
use tcp_streams::piece::Recorded;
use xot_circuits::channels::Purpose;
use xot_circuits::recording::{Recording, Seen};
use xot_circuits::roles::{Host, Roles};

/// Adds an item as text: the octets of a packet, `?` for a gap, `-` for what is left out, at the end the side that called.
fn add(out: &mut Vec<u8>, item: &Kept) -> Result<(), AllocError> {
    match item {
        Kept::Packet(_, _, _, octets) => out.extend_from_slice(octets)?,
        Kept::Gap(_) => out.push(b'?')?,
        Kept::LeftOut(..) => out.push(b'-')?,
        Kept::Ended(ended) => out.push(match ended.circuit.purpose() {
            Purpose::Calls(Side::N) => b'N',
            _ => b'T',
        })?,
    }
    Ok(())
}

/// A call accepted packet, behind its header of XOT.
const ACCEPTED: &[u8] = b"\0\0\0\x03\x10\x01\x0F";

/// A data packet, behind its header of XOT.
const DATA: &[u8] = b"\0\0\0\x03\x10\x01\0";

/// A segment: its sender, its form, its number, the one that it acknowledges (0 for none), its octets.
type Step = (End, Form, u32, u32, &'static [u8]);

/// A call in two segments, and its answer; data, its acknowledgement, the data again; data that is only acknowledged; both FINs.
const STEPS: [Step; 10] = [
    (End::Opener, Form::Syn, 999, 0, b""),
    (End::Answerer, Form::Syn, 4999, 1000, b""),
    (End::Opener, Form::Plain, 1000, 5000, b"\0\0\0\x03"),
    (End::Opener, Form::Plain, 1004, 5000, b"\x10\x01\x0B"),
    (End::Answerer, Form::Plain, 5000, 1007, ACCEPTED),
    (End::Opener, Form::Plain, 1007, 5007, DATA),
    (End::Answerer, Form::Plain, 5007, 1014, b""),
    (End::Opener, Form::Plain, 1007, 5007, DATA),
    (End::Opener, Form::Fin, 1021, 5007, b""),
    (End::Answerer, Form::Fin, 5007, 1022, b""),
];

/// Returns a segment in its frame.
fn seen(step: &Step) -> Seen<'static> {
    let (from, form, sequence, acknowledged, octets) = *step;
    let client = Ends {
        first: endpoint(1025),
        second: endpoint(1998),
    };
    let is_from_server = matches!(from, End::Answerer);
    Seen {
        ends: if is_from_server {
            client.turned()
        } else {
            client
        },
        is_from_server,
        segment: segment(form, sequence, acknowledged, octets),
        recorded: Recorded {
            frame: 1,
            time: None,
        },
    }
}

#[test]
fn items_of_a_recording_are_its_packets_and_gaps(rt: HostRuntime) -> Result<(), Fail> {
    let host = Host {
        is_version_6: false,
        address: endpoint(1025).address,
    };
    let roles = Roles {
        dte: Some(host),
        is_swapped: true,
    };
    let mut recording = Recording::new(rt.alloc(), roles);
    let mut log = ItemLog::new(rt.alloc());
    for step in &STEPS {
        recording.read(&seen(step), &mut log)?;
    }
    recording.finish(&mut log)?;
    let mut text = Vec::new(rt.alloc());
    for item in &log.items {
        add(&mut text, item)?;
    }
    let expected = b"\x10\x01\x0B\x10\x01\x0F\x10\x01\0?N".as_slice();
    assert!(rt; text.as_slice() == expected);
    Ok(())
}
