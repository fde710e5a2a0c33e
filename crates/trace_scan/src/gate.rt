//! The gate through which a scan runs its pieces.

use channel_machine::channel::PackedChannel;
use channel_run::run::run_piece;
use line_model::fault::Fault;
use line_model::piece::{Piece, PieceReport};
use std::alloc::Allocator;
use std::sync::Wait;
use trace_reading::block_queues::BlockQueues;
use trace_reading::text_block::TraceText;
use workers::Gate;

/// Runs each piece at once.
#[derive(Drop)]
pub struct OpenGate;

impl Gate for OpenGate {
    ghost use Rattle.std.specs.Prelude.{◌≡◌};
    ghost use Rattle.line_model.specs.pieces.Plans.{result_of};

    ghost ran = { λ gate piece report. report ≡ result_of piece };

    fn run<A: Allocator + Copy>(
        &self,
        alloc: A,
        piece: &Piece<A>,
    ) -> Result<PieceReport<A>, Fault> {
        run_piece::<A, PackedChannel<A>>(alloc, piece)
    }
}

/// Runs pieces by another gate, and reads the blocks that wait.
#[derive(Drop)]
pub struct BlockGate<'a, P: TraceText, A: Allocator, G> {
    pub gate: &'a G,
    pub queues: &'a BlockQueues<P, A>,
}

impl<P: TraceText + Send + Sync, B: Allocator + Copy + Send + Sync, G: Gate> Gate
    for BlockGate<'_, P, B, G> {
    ghost ran = { λ gate piece report. G.ran gate.gate.now piece report };

    fn run<A: Allocator + Copy>(
        &self,
        alloc: A,
        piece: &Piece<A>,
    ) -> Result<PieceReport<A>, Fault> {
        self.gate.run(alloc, piece)
    }

    fn help<R: Wait>(&self, rt: &R) -> bool {
        self.queues.read_one(rt) || self.gate.help(rt)
    }
}
