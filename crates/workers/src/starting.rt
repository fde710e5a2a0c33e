//! How the workers are started.

ghost use Rattle.std.specs.Prelude.{◌≡◌, ◌≤◌, [], All, IsTrue, IfOk, IfErr, IfSome, vec_len, vec_capacity};
ghost use Rattle.shared_work.specs.queue.Rule.{feeder};
ghost use Rattle.workers.specs.Workers.{IsWorkerOutcome, IsWorkerStart};

use crate::handler::Handler;
use crate::worker::{Finishes, WorkerOutcome, work_on};
use line_model::fault::Fault;
use line_model::piece::Plan;
use report_merge::reports::Reports;
use shared_work::findings::{Book, Ledgers, Share, Voucher};
use shared_work::queue::{FeederPass, Work, WorkerPass};
use std::alloc::{Allocator, Global};
use std::marker::Model;
use std::sync::Wait;
use std::thread::{PromisedHandle, Scope};
use std::time::Clock;

/// What a worker starts with: a pass of the queue, and a share of the book.
#[derive(Drop)]
pub struct WorkerStart<H, A: Allocator = Global> {
    pub pass: WorkerPass<A>,
    pub share: H,
}

/// A worker that runs.
pub type Running<'w, P, L, A> = PromisedHandle<WorkerOutcome<Share<L>, A>, Finishes<'w, P, A>>;

/// Workers that are ready to start over a queue, and the pass of its feeder. Contracts see which queue it is, and how
/// many workers there are.
#[derive(Drop)]
pub struct ReadyWorkers<'w, P: Plan, L: Ledgers, A: Allocator = Global> {
    pub(crate) work: &'w Work<P, A>,
    pub(crate) pass: FeederPass<A>,
    pub(crate) starts: Vec<WorkerStart<Share<L>, A>, A>,
}

impl<'w, P: Plan, L: Ledgers, A: Allocator> Model for ReadyWorkers<'w, P, L, A> {
    ghost use Rattle.std.specs.Prelude.{◌≡◌, [], All, vec_len};
    ghost use Rattle.shared_work.specs.queue.Rule.{feeder};
    ghost use Rattle.workers.specs.Workers.{IsWorkerStart};
    ghost use Rattle.workers.specs.Ready.{ReadyView};

    ghost Value = { ReadyView };

    ghost view = { λ c. record { queue = c.work.now.queue; count = vec_len c.starts } };

    ghost invariant = { λ c. (c.pass.queue ≡ c.work.now.queue) × (c.pass.record_of ≡ feeder 0 0 (vec_len c.starts) 0 []) × (c.pass.pieces ≡ []) × All (IsWorkerStart c.work.now.queue) c.starts.items };
}

/// Returns `workers` workers that are ready to start, each with a pass of the queue and a share of the book. Fails only
/// when memory is refused.
pub fn ready_workers<'w, P: Plan, L: Ledgers, A: Allocator + Copy, N: Voucher, T: Reports<A>>(
    alloc: A,
    work: &'w Work<P, A>,
    book: &mut Book<P, L, A, N, T>,
    pass: FeederPass<A>,
    workers: usize,
) -> Result<ReadyWorkers<'w, P, L, A>, Fault>
    requires queue { pass.queue ≡ work.now.queue }
    requires fresh { (pass.record_of ≡ feeder 0 0 0 0 []) × (pass.pieces ≡ []) }
    requires few { workers ≤ 64 }
    requires shares { book.old ≡ 0 }
    ensures queue { IfOk result (λ ready. ready.queue ≡ work.now.queue) }
    ensures count { IfOk result (λ ready. ready.count ≡ workers) }
    ensures given { IfOk result (λ ready. book.new ≡ workers) }
    ensures refused { IfErr result (λ fault. fault ≡ Fault.Memory) }
{
    let mut pass = pass;
    let mut starts = Vec::new(alloc);
    for _worker in 0..workers {
        starts.reserve(1)?;
        starts.push_reserved(WorkerStart {
            pass: work.split(&mut pass),
            share: book.share(),
        });
    }
    Ok(ReadyWorkers { work, pass, starts })
}

/// The queue and its feeder's pass, the workers that run, room for their shares, and whether each worker has its
/// thread.
#[derive(Drop)]
pub struct Started<'s, P: Plan, L: Ledgers, A: Allocator> {
    pub work: &'s Work<P, A>,
    pub pass: FeederPass<A>,
    pub running: Vec<Running<'s, P, L, A>, A>,
    pub shares: Vec<Share<L>, A>,
    pub all: bool,
}

/// Starts the workers, each in a thread of its own, up to the first that gets none. Fails only when memory is refused.
pub fn start_all<
    's,
    'e: 's,
    P: Plan + Send + Sync,
    L: Ledgers + Send + Sync + 's,
    A: Allocator + Copy + Send + Sync,
    W: Handler<P, A, L> + Sync,
    R: Wait + Clock + Sync,
>(
    scope: &'s Scope<'s, &'e ()>,
    rt: &'s R,
    handler: &'s W,
    ready: ReadyWorkers<'s, P, L, A>,
) -> Option<Started<'s, P, L, A>>
    requires handler { W.handles handler.now ready.queue }
    ensures queue { IfSome result (λ s. s.work.now.queue ≡ ready.entry.queue) }
    ensures pass { IfSome result (λ s. (s.pass.queue ≡ s.work.now.queue)
        × (s.pass.record_of ≡ feeder 0 0 ready.entry.count 0 []) × (s.pass.pieces ≡ [])) }
    ensures room { IfSome result (λ s. (vec_len s.shares ≡ 0)
        × (vec_len s.running ≤ vec_capacity s.shares)) }
    ensures all { IfSome result (λ s. IsTrue s.all → vec_len s.running ≡ ready.entry.count) }
    ensures promised { IfSome result (λ s. All (λ h. h.promise.work.now.queue ≡ s.work.now.queue)
        s.running.items) }
{
    let ReadyWorkers {
        work,
        pass: feeder_pass,
        starts,
    } = ready;
    let alloc = *starts.allocator();
    let count = starts.len();
    let Ok(mut running) = Vec::with_capacity(alloc, count) else {
        return None;
    };
    let Ok(shares) = Vec::with_capacity(alloc, count) else {
        return None;
    };
    for start in starts {
        let started = scope.spawn_with(
            Finishes { work },
            move || -> WorkerOutcome<Share<L>, A>
                requires { IsWorkerStart work.now.queue start × W.handles handler.now work.now.queue }
                ensures { IsWorkerOutcome work.entry.now.queue result }
            { work_on(rt, alloc, work, handler, start) },
        );
        match started.ok() {
            Some(one) => running.push_reserved(one),
            None => {
                return Some(Started {
                    work,
                    pass: feeder_pass,
                    running,
                    shares,
                    all: false,
                });
            }
        }
    }
    Some(Started {
        work,
        pass: feeder_pass,
        running,
        shares,
        all: true,
    })
}
