//! Scans over the devices of the tests.

use crate::host::Host;
use crate::scans::in_blocks::scan_in_blocks;
use line_model::device::Sink;
use line_model::fault::Fault;
use line_model::totals::{Summary, Totals};
use live_report::uncounted::Uncounted;
use std::alloc::{Allocator, Global};
use std::marker::Brand;
use streams::room_source::RoomSource;
use tests_devices::{CutSink, CutSource, Cuts};
use trace_scan::following::follow;
use trace_scan::gate::OpenGate;
use trace_scan::scan::scan_alone;
use trace_scan::threaded::{ScanOutcome, scan_with};
use workers::{Crew, Gate};

/// How a trace text is scanned: in one thread, as it grows, or by a number of workers over a queue of a number of
/// pieces. In blocks the workers read each part of the text that the source gives, that ends a line and that has this
/// number of bytes; otherwise only parts of many lines.
#[derive(Clone, Copy)]
pub enum Way {
    Alone,
    Following,
    Crew(usize, usize),
    InBlocks(usize, usize, usize),
}

/// What a scan returned, and what its sink accepted. No worker has a share of a scan in one thread.
#[derive(Drop)]
pub struct Scanned<A: Allocator = Global> {
    pub answer: Result<ScanOutcome<A>, Fault>,
    pub taken: Vec<u8>,
}

impl<A: Allocator> Scanned<A> {
    /// The last line of the report, or why there is none.
    pub fn summary(&self) -> Result<Summary, Fault> {
        match &self.answer {
            Ok(scan) => Ok(scan.summary),
            Err(fault) => Err(*fault),
        }
    }
}

/// What pieces with a finding each come to.
pub fn findings(pieces: u64) -> Totals {
    Totals {
        posts: pieces,
        findings: pieces,
        octets: 0,
        segments: 0,
    }
}

/// What a scan returns of which no worker has a share.
fn unshared<A: Allocator>(
    heap: A,
    answer: Result<Summary, Fault>,
) -> Result<ScanOutcome<A>, Fault> {
    Ok(ScanOutcome {
        summary: answer?,
        totals: findings(0),
        shares: Vec::new(heap),
    })
}

/// Scans what a source gives.
fn scan_by<A: Allocator + Copy + Send + Sync, S: RoomSource, K: Sink, G: Gate, R: Host>(
    rt: &R,
    heap: A,
    gate: &G,
    way: Way,
    source: &mut S,
    sink: &mut K,
) -> Result<ScanOutcome<A>, Fault> {
    match way {
        Way::Alone => unshared(heap, scan_alone(heap, source, sink, &mut Uncounted::none())),
        Way::Following => unshared(heap, follow(heap, source, sink, &mut Uncounted::none())),
        Way::Crew(workers, capacity) => scan_with(
            rt,
            heap,
            source,
            sink,
            workers.clamp(1, 64),
            capacity.clamp(1, 4096),
            gate,
        ),
        Way::InBlocks(workers, capacity, enough) => {
            let crew = Crew {
                workers: workers.clamp(1, 64),
                capacity: capacity.clamp(1, 4096),
                gate,
            };
            scan_in_blocks::<Brand, A, S, K, G, R>(rt, heap, source, sink, crew, enough)
        }
    }
}

/// Scans what a source gives, with a heap of its own and through any gate.
pub fn scan_from<A: Allocator + Copy + Send + Sync, S: RoomSource, G: Gate, R: Host>(
    rt: &R,
    heap: A,
    gate: &G,
    way: Way,
    source: &mut S,
    cuts: Cuts,
) -> Scanned<A> {
    let mut sink = CutSink::new(rt.alloc(), cuts);
    let answer = scan_by(rt, heap, gate, way, source, &mut sink);
    Scanned {
        answer,
        taken: sink.taken,
    }
}

/// Scans a trace text with a heap of its own.
pub fn scan_in<A: Allocator + Copy + Send + Sync, R: Host>(
    rt: &R,
    heap: A,
    way: Way,
    text: &[u8],
    cuts: Cuts,
) -> Scanned<A> {
    let mut source = CutSource::new(text, cuts);
    scan_from(rt, heap, &OpenGate, way, &mut source, cuts)
}

/// Scans a trace text through any gate.
pub fn scan_through<G: Gate, R: Host>(
    rt: &R,
    gate: &G,
    way: Way,
    text: &[u8],
    cuts: Cuts,
) -> Scanned {
    let mut source = CutSource::new(text, cuts);
    scan_from(rt, rt.alloc(), gate, way, &mut source, cuts)
}

/// Scans a trace text.
pub fn scan(rt: &impl Host, way: Way, text: &[u8], cuts: Cuts) -> Scanned {
    scan_in(rt, rt.alloc(), way, text, cuts)
}
