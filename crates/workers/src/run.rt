//! Reading and working side by side.

ghost use Rattle.std.specs.Prelude.{◌≡◌, ◌<◌, ◌⊎◌, IfOk, IfErr};
ghost use Rattle.workers.specs.Runs.{CameBack, IsRunOutcome};

use crate::handler::Handler;
use crate::piece_feeding::{Feed, feed_ends};
use crate::starting::{ReadyWorkers, Started, start_all};
use crate::thread_joining::join_all;
use line_model::fault::Fault;
use line_model::piece::Plan;
use rayon::scope;
use shared_work::findings::{Ledgers, Share};
use shared_work::queue::FeederPass;
use std::alloc::{Allocator, Global};
use std::sync::Wait;
use std::thread::{Scope, Threads, scope_env};
use std::time::Clock;

/// What became of the task, the pass that has fed, the shares of all workers, and the first of the workers' faults.
#[derive(Drop)]
pub struct RunOutcome<T, H, A: Allocator = Global> {
    pub task: T,
    pub pass: FeederPass<A>,
    pub shares: Vec<H, A>,
    pub fault: Option<Fault>,
}

/// Starts the workers, lets the task feed, feeds an end for each worker, and joins them. Where a thread is refused,
/// those that were started are given their ends and joined, and the task comes back.
fn run<
    's,
    'e: 's,
    P: Plan + Send + Sync,
    L: Ledgers + Send + Sync + 's,
    A: Allocator + Copy + Send + Sync,
    W: Handler<P, A, L> + Sync,
    R: Threads + Wait + Clock + Sync,
    T: Feed<P, A>,
>(
    scope: &'s Scope<'s, &'e ()>,
    rt: &'s R,
    handler: &'s W,
    ready: ReadyWorkers<'s, P, L, A>,
    task: T,
) -> Result<RunOutcome<T, Share<L>, A>, (T, Fault)>
    requires handler { W.handles handler.now ready.queue }
    requires some { 0 < ready.count }
    requires able { T.can_feed task }
    ensures ran { IfOk result (IsRunOutcome (T.feed_gives task) ready.entry.count ready.entry.queue) }
    ensures refused { IfErr result (CameBack T.unfed task) }
{
    let Some(started) = start_all(scope, rt, handler, ready) else {
        return Err((task.back(), Fault::Memory));
    };
    let Started {
        work,
        mut pass,
        running,
        shares,
        all,
    } = started;
    if !all {
        feed_ends(rt, work, running.len(), &mut pass);
        join_all(rt, work, pass, running, shares);
        return Err((task.back(), Fault::Start));
    }
    let task = task.feed(rt, work, &mut pass);
    feed_ends(rt, work, running.len(), &mut pass);
    let joined = join_all(rt, work, pass, running, shares);
    Ok(RunOutcome {
        task,
        pass: joined.pass,
        shares: joined.shares,
        fault: joined.fault,
    })
}

/// Runs the workers and the task in a scope of threads.
pub fn run_scoped<
    P: Plan + Send + Sync,
    L: Ledgers + Send + Sync,
    A: Allocator + Copy + Send + Sync,
    W: Handler<P, A, L> + Sync,
    R: Threads + Wait + Clock + Sync,
    T: Feed<P, A> + Drop,
>(
    rt: &R,
    handler: &W,
    ready: ReadyWorkers<'_, P, L, A>,
    task: T,
) -> Result<RunOutcome<T, Share<L>, A>, (T, Fault)>
    requires handler { W.handles handler.now ready.queue }
    requires some { 0 < ready.count }
    requires able { T.can_feed task }
    ensures ran { IfOk result (IsRunOutcome (T.feed_gives task) ready.entry.count ready.entry.queue) }
    ensures refused { IfErr result (λ e. T.unfed task e.0
        × ((e.1 ≡ Fault.Memory) ⊎ (e.1 ≡ Fault.Start))) }
{
    scope(
        scope_env(),
        rt,
        move |scope| -> Result<RunOutcome<T, Share<L>, A>, (T, Fault)>
            requires { (0 < ready.count) × T.can_feed task × W.handles handler.now ready.queue }
            ensures { IfOk result (IsRunOutcome (T.feed_gives task) ready.entry.count ready.entry.queue)
                × IfErr result (CameBack T.unfed task) }
        { run(scope, rt, handler, ready, task) },
    )
}
