//! Witnesses that know of which pieces the reports are.

ghost use Rattle.std.specs.Prelude.{◌≡◌, [], Some, length};
ghost use Rattle.line_model.specs.basics.Records as records;
ghost use Rattle.line_model.specs.work.Book.{IsValue};
ghost use Rattle.workers.specs.Vouching.{IsRunOfOne, IsValueOfOne};

use line_model::piece::Plan;
use shared_work::queue::{FeederPass, Work};
use std::alloc::Allocator;
use std::marker::{Brand, Model, PhantomData};

/// The queue of which the witnesses of a book are, and how their pieces were run, which contracts alone see.
pub trait QueueName {
    ghost use Rattle.line_model.specs.basics.Records as records;
    ghost use Rattle.shared_work.specs.queue.Passes.{QueueId};

    ghost queue: { QueueId };

    ghost ran: { records.Piece → records.PieceReport → Type 0 };
}

impl QueueName for Brand {
    ghost use Rattle.workers.specs.Vouching.{no_queue};

    ghost queue = { no_queue };

    ghost ran = { λ piece report. Unit {0} };
}

/// Vouches for the reports of pieces that were fed to the queue of this name and run as it says. Contracts see the
/// pieces that it knows of.
#[derive(Drop)]
pub struct PieceWitness<'a, P: Plan, N: QueueName, A: Allocator> {
    pub(crate) work: &'a Work<P, A>,
    pub(crate) witness: shared_work::queue::Witness<A>,
    pub(crate) name: PhantomData<N>,
}

impl<'a, P: Plan, N: QueueName, A: Allocator> Model for PieceWitness<'a, P, N, A> {
    ghost use Rattle.std.specs.Prelude.{◌≡◌, List};
    ghost use Rattle.line_model.specs.basics.Records as records;

    ghost Value = { List records.Piece };

    ghost view = { λ w. w.witness.pieces };

    ghost invariant = { λ w. (w.work.now.queue ≡ N.queue) × (w.witness.queue ≡ N.queue) };
}

impl<'a, P: Plan, N: QueueName, A: Allocator> PieceWitness<'a, P, N, A> {
    /// Returns a witness that knows of no piece.
    pub fn new(work: &'a Work<P, A>, pass: &mut FeederPass<A>) -> PieceWitness<'a, P, N, A>
        requires queue { pass.old.queue ≡ work.now.queue }
        requires named { work.now.queue ≡ N.queue }
        ensures same { pass.new ≡ pass.old }
        ensures none { result ≡ [] }
    {
        PieceWitness {
            work,
            witness: work.witness(pass),
            name: PhantomData,
        }
    }

    /// Ensures that each report that it vouches for is the result of the piece with its id among those that were fed,
    /// and was made of a piece that was run. The record of the feeder has the number of pieces.
    pub fn confirm(self, pass: FeederPass<A>)
        requires { pass.queue ≡ N.queue }
        ensures fed { (r : records.PieceReport) → IsValueOfOne self.entry r
            → IsValue (Some pass.pieces) r }
        ensures runs { (r : records.PieceReport) → IsRunOfOne N.ran self.entry r
            → IsRunOfOne N.ran pass.pieces r }
        ensures number { length pass.pieces ≡ pass.record_of.fed }
    {
        let PieceWitness {
            work,
            witness,
            name: _,
        } = self;
        work.confirm(pass, witness);
    }
}

impl<'a, P: Plan, N: QueueName, A: Allocator> shared_work::findings::Voucher
    for PieceWitness<'a, P, N, A> {
    ghost use Rattle.workers.specs.Vouching.{IsRunOfOne};

    ghost vouches = { λ pieces report. IsRunOfOne N.ran pieces report };

    fn learn(&mut self, other: PieceWitness<'a, P, N, A>) {
        let PieceWitness {
            work: _,
            witness,
            name: _,
        } = other;
        self.work.learn(&mut self.witness, witness);
    }
}
