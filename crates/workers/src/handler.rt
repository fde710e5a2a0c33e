//! What a worker does with a bundle of pieces, and between bundles.

ghost use Rattle.std.specs.Prelude.{◌≡◌, ◌+◌, All, OnOk, IfErr, length};
ghost use Rattle.line_model.specs.work.Book.{IsPlanned};
ghost use Rattle.workers.specs.Vouching.{HasPiece};

use crate::piece_gate::Gate;
use crate::piece_witness::{PieceWitness, QueueName};
use line_model::fault::Fault;
use line_model::piece::Plan;
use report_merge::reports::BundleReport;
use shared_work::findings::{Ledgers, LockedPosts, Share};
use shared_work::queue::{Bundle, Work, WorkerPass};
use std::alloc::Allocator;
use std::marker::PhantomData;
use std::sync::Wait;

/// Handles the bundles of all workers, each with a share of its own.
pub trait Handler<P: Plan, A: Allocator, L: Ledgers> {
    ghost use Rattle.shared_work.specs.queue.Passes.{QueueId};

    /// It handles bundles of this queue.
    ghost handles: { Self → QueueId → Type 0 };

    /// Runs the pieces of a bundle that was taken by this pass, and posts their reports. Fails only where memory is
    /// refused.
    fn handle<R: Wait>(
        &self,
        rt: &R,
        alloc: A,
        bundle: &Bundle<A>,
        pass: &mut WorkerPass<A>,
        share: &mut Share<L>,
    ) -> Result<(), Fault>
        requires planned { All (λ p. IsPlanned P.pieces p.id p) bundle.now }
        requires queue { handles self.now pass.old.queue }
        requires taken { All (HasPiece pass.old.pieces) bundle.now }
        ensures same { pass.new ≡ pass.old }
        ensures posted { OnOk result (share.new.posts ≡ share.old.posts + length bundle.now) }
        ensures refused { IfErr result (λ fault. fault ≡ Fault.Memory) };

    /// Does some other work, if there is some, and returns whether it did.
    fn help<R: Wait>(&self, _rt: &R) -> bool {
        false
    }
}

/// Runs the pieces of bundles by a gate, and posts the reports of a bundle together, with a witness of its pieces.
#[derive(Drop)]
pub struct Posting<'a, 'w, P: Plan, L: Ledgers + QueueName, A: Allocator, G> {
    pub work: &'w Work<P, A>,
    pub locked_posts: &'a LockedPosts<P, L, A, PieceWitness<'w, P, L, A>, BundleReport<A>>,
    pub gate: &'a G,
}

impl<'a, 'w, P: Plan, L: Ledgers + QueueName, A: Allocator + Copy, G: Gate> Handler<P, A, L>
    for Posting<'a, 'w, P, L, A, G> {
    ghost use Rattle.std.specs.Prelude.{◌≡◌};
    ghost use Rattle.line_model.specs.basics.Records as records;

    ghost handles = { λ posting id. (id ≡ L.queue) × (posting.work.now.queue ≡ L.queue)
        × ((piece : records.Piece) (report : records.PieceReport)
        → G.ran posting.gate.now piece report → L.ran piece report) };

    fn handle<R: Wait>(
        &self,
        rt: &R,
        alloc: A,
        bundle: &Bundle<A>,
        pass: &mut WorkerPass<A>,
        share: &mut Share<L>,
    ) -> Result<(), Fault> {
        let mut reports = self.gate.run_bundle(alloc, bundle)?;
        for _ in rt.forever() {
            // Reports that are returned as posted twice are posted again.
            let witness = PieceWitness {
                work: self.work,
                witness: self.work.witness_of(pass),
                name: PhantomData,
            };
            match self.locked_posts.post(rt, reports, share, witness) {
                Ok(()) => return Ok(()),
                Err((_, Fault::Memory)) => return Err(Fault::Memory),
                Err((back, _)) => reports = back,
            }
        }
        unreachable!()
    }

    fn help<R: Wait>(&self, rt: &R) -> bool {
        self.gate.help(rt)
    }
}
