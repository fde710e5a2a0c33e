//! What one worker does.

ghost use Rattle.std.specs.Prelude.{◌≡◌, ◌+◌, None, IfSome, IfNone, All, length};
ghost use Rattle.line_model.specs.work.Book.{IsPlanned};
ghost use Rattle.workers.specs.Vouching.{HasPiece};
ghost use Rattle.workers.specs.Workers.{IsWorkerOutcome, IsWorkerStart};

use crate::handler::Handler;
use crate::starting::WorkerStart;
use crate::waiting::Backoff;
use line_model::fault::Fault;
use line_model::piece::Plan;
use shared_work::findings::{Ledgers, Share};
use shared_work::queue::{Bundle, Taken, Work, WorkerPass};
use std::alloc::{Allocator, Global};
use std::sync::Wait;
use std::thread::Promise;
use std::time::Clock;

/// What a worker returns: its pass, which has had its end, its share, and its fault where memory ran out.
#[derive(Drop)]
pub struct WorkerOutcome<H, A: Allocator = Global> {
    pub pass: WorkerPass<A>,
    pub share: H,
    pub fault: Option<Fault>,
}

/// The promise of a worker of this queue.
#[derive(Clone, Copy)]
pub struct Finishes<'a, P: Plan, A: Allocator> {
    pub work: &'a Work<P, A>,
}

impl<'a, P: Plan, L: Ledgers, A: Allocator> Promise<WorkerOutcome<Share<L>, A>>
    for Finishes<'a, P, A> {
    ghost kept_by = { λ p r. IsWorkerOutcome p.work.now.queue r };
}

/// Handles a bundle, unless memory ran out before.
fn handle_unless<P: Plan, L: Ledgers, A: Allocator + Copy, W: Handler<P, A, L>, R: Wait>(
    rt: &R,
    alloc: A,
    handler: &W,
    bundle: &Bundle<A>,
    worker: &mut WorkerOutcome<Share<L>, A>,
)
    requires planned { All (λ p. IsPlanned P.pieces p.id p) bundle.now }
    requires queue { W.handles handler.now worker.old.pass.queue }
    requires taken { All (HasPiece worker.old.pass.pieces) bundle.now }
    requires memory { IfSome worker.old.fault (λ f. f ≡ Fault.Memory) }
    ensures same { worker.new.pass ≡ worker.old.pass }
    ensures posted { IfNone worker.new.fault ((worker.old.fault ≡ None)
        × (worker.new.share.posts ≡ worker.old.share.posts + length bundle.now)) }
    ensures memory { IfSome worker.new.fault (λ f. f ≡ Fault.Memory) }
{
    if worker.fault.is_none() {
        let handled = handler.handle(rt, alloc, bundle, &mut worker.pass, &mut worker.share);
        worker.fault = handled.err();
    }
}

/// Removes bundles of pieces and handles them, until the end of this worker comes. Where memory
/// ran out it keeps that fault, and drops the bundles that it removes from then on. It helps once
/// before each take, so bundles and other work alternate.
pub fn work_on<P: Plan, L: Ledgers, A: Allocator + Copy, W: Handler<P, A, L>, R: Wait + Clock>(
    rt: &R,
    alloc: A,
    work: &Work<P, A>,
    handler: &W,
    start: WorkerStart<Share<L>, A>,
) -> WorkerOutcome<Share<L>, A>
    requires start { IsWorkerStart work.now.queue start }
    requires handler { W.handles handler.now work.now.queue }
    ensures done { IsWorkerOutcome work.now.queue result }
{
    let mut worker = WorkerOutcome {
        pass: start.pass,
        share: start.share,
        fault: None,
    };
    let mut backoff = Backoff::new();
    for _ in rt.forever() {
        let helped = handler.help(rt);
        match work.take(rt, &mut worker.pass) {
            Taken::Got(bundle) => {
                backoff = Backoff::new();
                handle_unless(rt, alloc, handler, &bundle, &mut worker);
                work.give_back(rt, bundle);
            }
            Taken::Finish => return worker,
            Taken::Empty if helped => backoff = Backoff::new(),
            Taken::Empty => backoff.wait(rt),
        }
    }
    unreachable!()
}
