//! How the workers are joined.

ghost use Rattle.std.specs.Prelude.{◌≡◌, ◌≤◌, All, length, vec_len, vec_capacity};
ghost use Rattle.workers.specs.Runs.{IsJoined};

use crate::starting::Running;
use line_model::fault::Fault;
use line_model::piece::Plan;
use shared_work::findings::{Ledgers, Share};
use shared_work::queue::{FeederPass, Work};
use std::alloc::{Allocator, Global};
use std::thread::Threads;

/// What all workers returned: the feeder's pass with theirs, their shares, and the first of their faults.
#[derive(Drop)]
pub struct JoinedWorkers<H, A: Allocator = Global> {
    pub pass: FeederPass<A>,
    pub shares: Vec<H, A>,
    pub fault: Option<Fault>,
}

/// Joins the threads and their passes.
pub fn join_all<'w, P: Plan, L: Ledgers, A: Allocator, R: Threads>(
    rt: &R,
    work: &Work<P, A>,
    mut pass: FeederPass<A>,
    running: Vec<Running<'w, P, L, A>, A>,
    mut shares: Vec<Share<L>, A>,
) -> JoinedWorkers<Share<L>, A>
    requires queue { pass.queue ≡ work.now.queue }
    requires promised { All (λ h. h.promise.work.now.queue ≡ work.now.queue) running.items }
    requires fresh { (pass.record_of.done ≡ 0) × (length pass.record_of.taken ≡ 0) }
    requires room { (vec_len shares ≡ 0) × (vec_len running ≤ vec_capacity shares) }
    ensures pieces { result.pass.pieces ≡ pass.pieces }
    ensures joined { IsJoined work.now.queue (vec_len running.entry) pass.record_of result }
{
    let mut fault = None;
    for one in running {
        let done = one.join(rt);
        work.join(&mut pass, done.pass);
        shares.push_reserved(done.share);
        if fault.is_none() {
            fault = done.fault;
        }
    }
    JoinedWorkers {
        pass,
        shares,
        fault,
    }
}
