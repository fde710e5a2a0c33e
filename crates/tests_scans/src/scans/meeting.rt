//! Texts whose source waits until workers have read blocks of it.

ghost use Rattle.std.specs.Prelude.{◌≡◌, Some};
ghost use Rattle.std.specs.Option.{option_map};
ghost use Rattle.line_model.specs.traces.Traces.{trace_plan};

use crate::host::Host;
use crate::scans::checks::same;
use crate::scans::held::{Record, length_of_lines};
use crate::scans::in_blocks::scan_by_queues;
use crate::scans::runs::{Way, scan};
use crate::scans::worked::{THREE_EPOCHS, worked};
use line_model::fault::Fault;
use line_model::piece::{Piece, PieceReport, Plan};
use std::alloc::{Allocator, Global};
use std::marker::Brand;
use std::process::Abort;
use std::sync::Wait;
use std::sync::atomic::Ordering::SeqCst;
use std::sync::atomic::{AtomicBool, AtomicU64};
use std::test::Fail;
use tests_devices::scarce::Scarce;
use tests_devices::{CutSink, Cuts, Pace, PacedSource};
use trace_reading::block_queues::{BlockQueues, BlockSizes};
use trace_reading::text_block::TraceText;
use trace_scan::gate::{BlockGate, OpenGate};
use workers::{Crew, Gate};

/// How many workers there are, which blocks they read while the source waits, by the order in which they read them, and
/// whether they have memory for it.
type Helpers = (usize, &'static [usize], bool);

/// Each worker that has read a block is held until the others have.
const HELPERS: [Helpers; 5] = [
    (2, &[], true),
    (1, &[0], true),
    (2, &[0, 1], true),
    (4, &[0, 1, 2, 3], true),
    (1, &[0], false),
];

/// Each read of the source that ends a line is a block.
const EACH_READ: BlockSizes = BlockSizes {
    least_read: 1,
    enough: 1,
};

/// What the source and the workers see of one another.
#[derive(Drop)]
struct Meeting<'a> {
    heap: &'a Scarce<Global>,
    /// The blocks that are read while the source waits, and whether the workers have memory for it.
    blocks: &'static [usize],
    has_memory: bool,
    /// Whether the source waits.
    waits: AtomicBool,
    /// How many blocks workers have read, and how many growths were refused meanwhile.
    read: AtomicU64,
    refused: AtomicU64,
    /// The blocks that were read, by their order.
    record: Record,
}

impl<'a> Meeting<'a> {
    fn new(heap: &'a Scarce<Global>, blocks: &'static [usize], has_memory: bool) -> Self {
        Meeting {
            heap,
            blocks,
            has_memory,
            waits: AtomicBool::new(false),
            read: AtomicU64::new(0),
            refused: AtomicU64::new(0),
            record: Record::new(),
        }
    }

    /// A worker has read a block, and is held until the others have.
    fn meet(&self) {
        let order = self.read.fetch_add(1, SeqCst);
        self.record.enter((order % 12) as u32);
        self.record.wait_for(self.blocks);
    }

    /// A worker begins to read a block. Where the workers have no memory all growths are refused.
    fn begin_block(&self) {
        if !self.has_memory {
            self.heap.refuse_from(0);
        }
    }

    /// A worker has read a block, if one waited.
    fn end_block(&self) {
        if !self.has_memory {
            self.refused.fetch_add(self.heap.asked(), SeqCst);
            self.heap.grant_all();
        }
    }
}

/// A gate by which workers read blocks only while the source waits for one that was not read yet.
#[derive(Drop)]
struct MeetingGate<'a, 'm, G> {
    gate: &'a G,
    meeting: &'m Meeting<'m>,
}

impl<G: Gate> Gate for MeetingGate<'_, '_, G> {
    ghost ran = { λ gate piece report. Unit {0} };

    fn run<A: Allocator + Copy>(
        &self,
        alloc: A,
        piece: &Piece<A>,
    ) -> Result<PieceReport<A>, Fault> {
        self.gate.run(alloc, piece)
    }

    fn help<R: Wait>(&self, rt: &R) -> bool {
        let meeting = self.meeting;
        if !meeting.waits.load(SeqCst) || meeting.record.has(meeting.blocks) {
            return false;
        }
        meeting.begin_block();
        let helped = self.gate.help(rt);
        meeting.end_block();
        if helped {
            meeting.meet();
        }
        helped
    }
}

/// Each read gives a line. Before the last one it waits until the blocks were read.
#[derive(Drop)]
struct BeforeTheLast<'a> {
    meeting: &'a Meeting<'a>,
}

impl Pace for BeforeTheLast<'_> {
    fn next_read(&mut self, rest: &[u8]) -> Option<usize> {
        let length = length_of_lines(rest, 1);
        if length == rest.len() && !rest.is_empty() {
            self.meeting.waits.store(true, SeqCst);
            self.meeting.record.wait_for(self.meeting.blocks);
            self.meeting.waits.store(false, SeqCst);
        }
        Some(length)
    }
}

/// Scans a trace text by the workers of a meeting.
fn scan_by_meeting<'m, P: Plan + TraceText + Send + Sync, R: Host>(
    rt: &R,
    meeting: &'m Meeting<'m>,
    workers: usize,
    source: &mut PacedSource<'m, BeforeTheLast<'m>>,
    sink: &mut CutSink,
    queues: &BlockQueues<P, &'m Scarce<Global>>,
) -> Result<(), Fault>
    requires text { P.text ≡ Some source.old.rest.now }
    requires plan { P.pieces ≡ option_map trace_plan P.text }
{
    let by_blocks = BlockGate {
        gate: &OpenGate,
        queues,
    };
    let gate = MeetingGate {
        gate: &by_blocks,
        meeting,
    };
    let crew = Crew {
        workers: workers.clamp(1, 64),
        capacity: 64,
        gate: &gate,
    };
    scan_by_queues(rt, meeting.heap, source, sink, queues, crew)?;
    Ok(())
}

/// Scans a trace text whose source and workers meet.
fn scan_meeting<'m, P: Plan + TraceText + Send + Sync, R: Host>(
    rt: &R,
    meeting: &'m Meeting<'m>,
    workers: usize,
    text: &'m [u8],
    sink: &mut CutSink,
) -> Result<(), Fault>
    requires text { P.text ≡ Some text.now }
    requires plan { P.pieces ≡ Some (trace_plan text.now) }
{
    let mut source = PacedSource::at(text, BeforeTheLast { meeting });
    let queues = BlockQueues::<P, &Scarce<Global>>::new(meeting.heap, EACH_READ)?;
    scan_by_meeting(rt, meeting, workers, &mut source, sink, &queues)
}

/// Sees which blocks workers have read while the source waited, and whether growths were refused meanwhile.
fn agree(rt: &impl Abort, meeting: &Meeting<'_>) {
    assert!(rt;
        !meeting.record.is_late(),
        "the workers were waited for too long"
    );
    let read = meeting.read.load(SeqCst);
    same(rt, read, meeting.blocks.len() as u64, "blocks by workers");
    let refused = 0 < meeting.refused.load(SeqCst);
    assert!(rt; refused != meeting.has_memory);
}

/// Scans a trace text whose source waits for some workers: the report is that of the scan of one thread.
fn check_helpers(rt: &impl Host, text: &[u8], helpers: Helpers) {
    let (workers, blocks, has_memory) = helpers;
    let heap = Scarce::new(rt.alloc());
    let meeting = Meeting::new(&heap, blocks, has_memory);
    let mut sink = CutSink::new(rt.alloc(), Cuts::none());
    let answer = scan_meeting::<Brand, _>(rt, &meeting, workers, text, &mut sink);
    assert!(rt; answer.is_ok(), "{workers} workers");
    agree(rt, &meeting);
    let alone = scan(rt, Way::Alone, text, Cuts::none());
    assert!(rt;
        sink.taken.as_slice() == alone.taken.as_slice(),
        "{workers} workers"
    );
    same(rt, heap.held(), 0, "blocks of memory");
}

/// Three epochs, and more rows than there may be blocks out.
#[test]
fn blocks_are_read_while_the_text_is_read(rt: HostRuntime) -> Result<(), Fail> {
    let (mut text, _) = worked(rt.alloc(), THREE_EPOCHS)?;
    for number in 17..50 {
        let row = format!(in rt.alloc(); "{number} T 100100AA\n")?;
        text.extend_from_slice(row.as_bytes())?;
    }
    for helpers in HELPERS {
        check_helpers(&rt, &text, helpers);
    }
    Ok(())
}
