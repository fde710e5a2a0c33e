//! Pieces by the other machine of a logical channel: the reports are the same.

use crate::host::Host;
use crate::scans::checks::agree;
use crate::scans::runs::{Way, scan, scan_through};
use crate::scans::worked::{TRACES, worked};
use channel_machine::channel::PlainChannel;
use channel_run::run::run_piece;
use hex::encode_upper;
use line_model::fault::Fault;
use line_model::piece::{Piece, PieceReport};
use std::alloc::{AllocError, Allocator, Global};
use std::test::Fail;
use tests_devices::Cuts;
use workers::Gate;

/// Runs each piece by the machine that scans don't use.
#[derive(Drop)]
struct PlainGate;

impl Gate for PlainGate {
    ghost ran = { λ gate piece report. Unit {0} };

    fn run<A: Allocator + Copy>(
        &self,
        alloc: A,
        piece: &Piece<A>,
    ) -> Result<PieceReport<A>, Fault> {
        run_piece::<A, PlainChannel<A>>(alloc, piece)
    }
}

#[test]
fn pieces_have_one_report_by_both_machines(rt: HostRuntime) -> Result<(), Fail> {
    for trace in 0..TRACES {
        let (text, wanted) = worked(rt.alloc(), trace)?;
        let scanned = scan_through(&rt, &PlainGate, Way::Crew(2, 4), &text, Cuts::none());
        agree(&rt, &scanned, wanted, Cuts::none());
    }
    Ok(())
}

/// Channel 0, a permanent circuit, a virtual channel, and one that is not assigned.
const CHANNELS: [u8; 4] = [0, 1, 2, 9];

/// Appends the rows of a packet from both sides, cut to each of its lengths, and returns the number of the last one.
fn push_cuts(
    alloc: Global,
    text: &mut String,
    last: u32,
    packet: &[u8],
) -> Result<u32, AllocError> {
    let mut number = last;
    for length in 1..=packet.len() {
        let digits = encode_upper(alloc, &packet[..length.min(packet.len())])?;
        let (own, other) = (number.saturating_add(1), number.saturating_add(2));
        text.push_str(format!(in alloc; "{own} T {digits}\n{other} N {digits}\n")?.as_str())?;
        number = other;
    }
    Ok(number)
}

/// Packets of each type on each channel: after the type two addresses of a digit, a facility and user data, where the
/// packet is of a call.
fn all_types(alloc: Global, header: &str, format: u8) -> Result<String, AllocError> {
    let mut text = String::from_str(alloc, header)?;
    text.push_str("1 T -\n2 N -\n")?;
    let mut last = 2;
    for code in 0..=u8::MAX {
        for channel in CHANNELS {
            let packet = [format, channel, code, 0x11, 0x12, 2, 1, 0, 1, 0xC0];
            last = push_cuts(alloc, &mut text, last, &packet)?;
        }
    }
    Ok(text)
}

/// Scans a text in one thread, and by a crew with the other machine.
fn check_machines(rt: &impl Host, text: &[u8]) {
    let alone = scan(rt, Way::Alone, text, Cuts::none());
    assert!(rt; alone.answer.is_ok());
    let plain = scan_through(rt, &PlainGate, Way::Crew(2, 4), text, Cuts::none());
    agree(rt, &plain, (None, alone.taken.as_slice()), Cuts::none());
}

const NUMBERINGS: [(&str, u8); 2] = [
    ("X25 1 MOD 8 WIN 2 SIZE 128 PVC 1 SVC 4\n", 0x10),
    ("X25 1 MOD 128 WIN 2 SIZE 128 PVC 1 SVC 4\n", 0x20),
];

#[test]
fn packets_of_each_type_are_cut_to_each_length(rt: HostRuntime) -> Result<(), Fail> {
    for (header, format) in NUMBERINGS {
        let text = all_types(rt.alloc(), header, format)?;
        check_machines(&rt, text.as_bytes());
    }
    Ok(())
}
