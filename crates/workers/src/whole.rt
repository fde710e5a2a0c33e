//! A plan that is fed by one thread and worked through by others.

ghost use Rattle.std.specs.Prelude.{◌≡◌, ◌<◌, ◌≤◌, ◌⊎◌, [], None, IfOk, IfErr, MatchOption, sum_by, vec_len};
ghost use Rattle.line_model.specs.basics.Records as records;
ghost use Rattle.shared_work.specs.queue.Rule.{feeder};
ghost use Rattle.workers.specs.Gathers.{HasWorked, IsWhole};
ghost use Rattle.workers.specs.Runs.{CameBack};

use crate::gathering::{Gathered, gather_all};
use crate::handler::Posting;
use crate::piece_feeding::Feed;
use crate::piece_gate::Gate;
use crate::piece_witness::{PieceWitness, QueueName};
use crate::run::{RunOutcome, run_scoped};
use crate::starting::ready_workers;
use line_model::fault::Fault;
use line_model::piece::Plan;
use report_merge::reports::BundleReport;
use shared_work::findings::{Blanks, Book, Ledgers, Share};
use shared_work::queue::{FeederPass, Work};
use std::alloc::{Allocator, Global};
use std::marker::Brand;
use std::sync::Wait;
use std::thread::Threads;
use std::time::Clock;

/// A count of workers over a queue of a given capacity, which run pieces by a gate.
#[derive(Clone, Copy)]
pub struct Crew<'a, G> {
    /// How many workers there are.
    pub workers: usize,
    /// How many entries the queue holds.
    pub capacity: usize,
    /// How a worker runs a piece.
    pub gate: &'a G,
}

/// What became of the task, and what the workers made, unless memory was refused.
#[derive(Drop)]
pub struct Worked<T, A: Allocator = Global> {
    pub task: T,
    pub gathered: Result<Gathered<A, BundleReport<A>>, Fault>,
}

/// What the workers made, from the book and what became of their run.
fn gather_ran<'w, P: Plan, L: Ledgers + QueueName, A: Allocator + Copy, T: Drop>(
    alloc: A,
    book: Book<P, L, A, PieceWitness<'w, P, L, A>, BundleReport<A>>,
    ran: RunOutcome<T, Share<L>, A>,
) -> Worked<T, A>
    requires queue { ran.pass.queue ≡ L.queue }
    requires all { MatchOption ran.fault ((vec_len ran.shares ≡ book)
        × (sum_by (λ s. s.posts) ran.shares.items ≡ ran.pass.record_of.fed)) (λ fault. fault
        ≡ Fault.Memory) }
    ensures task { result.task ≡ ran.task }
    ensures whole { IfOk result.gathered (λ g. (ran.fault ≡ None)
        × IsWhole P.pieces L.ran (vec_len ran.shares) ran.pass.pieces g) }
    ensures refused { IfErr result.gathered (λ fault. fault ≡ Fault.Memory) }
{
    let RunOutcome {
        task,
        pass,
        shares,
        fault,
    } = ran;
    if let Some(fault) = fault {
        return Worked {
            task,
            gathered: Err(fault),
        };
    }
    Worked {
        task,
        gathered: gather_all(alloc, book, pass, shares),
    }
}

/// A new queue with its feeder's pass, and the allocator of all that is made for it.
#[derive(Drop)]
struct NewQueue<'w, P: Plan, A: Allocator> {
    alloc: A,
    work: &'w Work<P, A>,
    pass: FeederPass<A>,
}

/// As `work_through`, over the four ledgers of these blanks and this queue.
fn work_in<
    P: Plan + Send + Sync,
    L: Ledgers + QueueName + Send + Sync,
    A: Allocator + Copy + Send + Sync,
    G: Gate,
    R: Threads + Wait + Clock + Sync,
    T: Feed<P, A> + Drop,
>(
    rt: &R,
    blanks: Blanks,
    queue: NewQueue<'_, P, A>,
    crew: Crew<'_, G>,
    task: T,
) -> Result<Worked<T, A>, (T, Fault)>
    requires names { blanks ≡ L.names }
    requires named { queue.work.now.queue ≡ L.queue }
    requires queue { queue.pass.queue ≡ queue.work.now.queue }
    requires fresh { (queue.pass.record_of ≡ feeder 0 0 0 0 []) × (queue.pass.pieces ≡ []) }
    requires workers { (0 < crew.workers) × (crew.workers ≤ 64) }
    requires able { T.can_feed task }
    requires gate { (piece : records.Piece) (report : records.PieceReport)
        → G.ran crew.gate.now piece report → L.ran piece report }
    ensures worked { IfOk result (HasWorked P.pieces L.ran
        (T.feed_gives task) crew.entry.workers) }
    ensures refused { IfErr result (CameBack T.unfed task) }
{
    let NewQueue {
        alloc,
        work,
        mut pass,
    } = queue;
    let witness = PieceWitness::<P, L, A>::new(work, &mut pass);
    let mut book = Book::<P, L, A, PieceWitness<P, L, A>, BundleReport<A>>::new(
        alloc, blanks, witness,
    );
    let Ok(ready) = ready_workers(alloc, work, &mut book, pass, crew.workers) else {
        return Err((task.back(), Fault::Memory));
    };
    let posting = Posting {
        work,
        locked_posts: book.locked_posts(),
        gate: crew.gate,
    };
    let ran = run_scoped(rt, &posting, ready, task)?;
    Ok(gather_ran(alloc, book, ran))
}

/// Works through the pieces that the task feeds, with a crew of 1 to 64 workers over a queue of 1 to 4,096 entries.
/// Where memory ran out or a thread was refused before the task had its turn, it comes back without it.
pub fn work_through<
    P: Plan + Send + Sync,
    A: Allocator + Copy + Send + Sync,
    G: Gate,
    R: Threads + Wait + Clock + Sync,
    T: Feed<P, A> + Drop,
>(rt: &R, alloc: A, crew: Crew<'_, G>, task: T) -> Result<Worked<T, A>, (T, Fault)>
    requires workers { (0 < crew.workers) × (crew.workers ≤ 64) }
    requires capacity { (0 < crew.capacity) × (crew.capacity ≤ 4096) }
    requires able { T.can_feed task }
    ensures worked { IfOk result (HasWorked P.pieces (G.ran crew.entry.gate.now)
        (T.feed_gives task) crew.entry.workers) }
    ensures refused { IfErr result (λ e. T.unfed task e.0
        × ((e.1 ≡ Fault.Memory) ⊎ (e.1 ≡ Fault.Start))) }
{
    let Ok((work, pass)) = Work::<P, A>::new(alloc, crew.capacity) else {
        return Err((task.back(), Fault::Memory));
    };
    let queue = NewQueue {
        alloc,
        work: &work,
        pass,
    };
    work_in::<P, Brand, A, G, R, T>(rt, Blanks::new(), queue, crew, task)
}
