//! Three uses of the libraries: a list of packets is judged, an observer is fed a trace in pieces, and a trace in a file is
//! scanned by four workers.
#![tactic(auto)]

mod packets;
mod watching;

use crate::packets::{SentPacket, judge};
use crate::watching::watch;
use channel_machine::channel::PackedChannel;
use line_model::device::Sink;
use line_model::fault::Fault;
use line_model::state::Side;
use line_model::write_buffer::write_all;
use std::alloc::Global;
use std::io::IsTerminal;
use std::process::ExitCode;
use std::sync::Wait;
use std::thread::Threads;
use std::time::Clock;
use streams::input::Input;
use streams::io::{FileInput, WriteSink};
use streams::progress::Progress;
use streams::system::System;
use trace_scan::gate::OpenGate;
use trace_scan::threaded::scan_with;

/// The interface of the examples.
const HEADER: &[u8] = b"X25 1 MOD 8 WIN 2 SIZE 128 PVC 0 SVC 4\n";

/// A call on logical channel 1, its acceptance, and three data packets into a window of two.
const PACKETS: [SentPacket<'static>; 5] = [
    SentPacket {
        side: Side::T,
        octets: &[0x10, 0x01, 0x0B, 0x00, 0x00],
    },
    SentPacket {
        side: Side::N,
        octets: &[0x10, 0x01, 0x0F],
    },
    SentPacket {
        side: Side::T,
        octets: &[0x10, 0x01, 0x00, 0xAA],
    },
    SentPacket {
        side: Side::T,
        octets: &[0x10, 0x01, 0x02, 0xAA],
    },
    SentPacket {
        side: Side::T,
        octets: &[0x10, 0x01, 0x04, 0xAA],
    },
];

/// The same call as pieces of a trace, which end within lines too.
const PIECES: [&[u8]; 4] = [
    HEADER,
    b"1 T 10010B0000\n2 N 10",
    b"010F\n3 T 100100AA\n4 T 100102AA\n5 T 10",
    b"0104AA\n",
];

/// The most bundles of pieces that wait for the workers.
const WAITING: usize = 64;

/// Judges the packets, and feeds the pieces to an observer.
fn run_in_memory<K: Sink>(alloc: Global, sink: &mut K) -> Result<(), Fault> {
    let report = judge::<Global, PackedChannel<Global>>(alloc, HEADER, PACKETS.as_slice())?;
    write_all(sink, report.as_slice())?;
    let _ = watch::<Global, PackedChannel<Global>, K>(alloc, PIECES.as_slice(), sink)?;
    Ok(())
}

/// Scans the trace of this name with four workers.
fn scan_file<R: Threads + Wait + Clock + Sync, S: Input, K: Sink>(
    rt: &R,
    alloc: Global,
    source: &mut S,
    sink: &mut K,
) -> Result<(), Fault> {
    if source.open("day.trace").is_err() {
        return Err(Fault::Read);
    }
    let _ = scan_with(rt, alloc, source, sink, 4, WAITING, &OpenGate)?;
    Ok(())
}

fn run<R: Threads + Wait + Clock + Sync>(rt: &HostRuntime, threads: &R) -> Result<(), Fault> {
    let system = System::new(rt);
    let mut sink = WriteSink::new(rt.stdout());
    let mut source = FileInput::new(
        rt.alloc(),
        &system,
        rt.stdin(),
        rt.stdin().is_terminal(),
        Progress::new(rt.stderr(), rt.stderr().is_terminal()),
    );
    run_in_memory(rt.alloc(), &mut sink)?;
    scan_file(threads, rt.alloc(), &mut source, &mut sink)
}

fn main(rt: HostRuntime) -> ExitCode {
    ExitCode::from(match run(&rt, &rt) {
        Ok(()) => 0,
        Err(_) => 3,
    })
}
