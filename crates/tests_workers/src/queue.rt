//! The queue in one thread, step by step, and between many threads.

ghost use Rattle.std.specs.Prelude.{◌≡◌, ℕ, ◌+◌, ◌<◌, ◌≤◌, [], false, IfSome, OnOk};
ghost use Rattle.line_model.specs.work.Book.{once_below, times};
ghost use Rattle.shared_work.specs.queue.Rule.{worker};

use crate::host::Host;
use line_model::gap::EpochStart;
use line_model::piece::Piece;
use line_model::piece_items::PieceItems;
use shared_work::queue::{Bundle, FeederPass, Taken, Work, WorkerPass};
use std::alloc::Global;
use std::marker::Brand;
use std::sync::Wait;
use std::sync::atomic::{AtomicU64, Ordering};
use std::test::Fail;
use std::thread;
use std::thread::Scope;
use tests_devices::interfaces::PLAIN;

/// A piece without rows.
fn piece(alloc: Global, id: u32) -> Piece
    ensures { result.id ≡ id }
{
    Piece {
        id,
        interface: PLAIN,
        epoch: 1,
        start: EpochStart::Restarted,
        channel: 1,
        items: PieceItems::new(alloc),
        last_gap: None,
        end: None,
    }
}

/// The id of the piece that a worker takes, if one waits. No end waits.
fn take_one<R: Wait>(rt: &R, work: &Work<Brand>, pass: &mut WorkerPass) -> Result<Option<u32>, Fail>
    requires queue { pass.old.queue ≡ work.now.queue }
    requires unfinished { pass.old.record_of.finished ≡ false }
    ensures queue { pass.new.queue ≡ work.now.queue }
    ensures unfinished { OnOk result (pass.new.record_of.finished ≡ false) }
{
    match work.take(rt, pass) {
        Taken::Got(bundle) => {
            let (_, last) = bundle.parts();
            Ok(Some(last.id))
        }
        Taken::Empty => Ok(None),
        Taken::Finish => Err("an end waits")?,
    }
}

/// Feeds a piece and an end to a queue that is full, each again once the piece before it was taken.
fn feed_when_taken<R: Host>(
    rt: &R,
    work: &Work<Brand>,
    feeder: &mut FeederPass,
    pass: &mut WorkerPass,
) -> Result<(), Fail>
    requires queue { feeder.old.queue ≡ work.now.queue }
    requires one { feeder.old.record_of.fed ≡ 1 }
    requires open { feeder.old.record_of.ends ≡ 0 }
    requires pass { pass.old.queue ≡ work.now.queue }
    requires unfinished { pass.old.record_of.finished ≡ false }
    ensures queue { feeder.new.queue ≡ work.now.queue }
    ensures fed { OnOk result (feeder.new.record_of.fed ≡ 2) }
    ensures pending { OnOk result (feeder.new.record_of.pending ≡ feeder.old.record_of.pending) }
    ensures pass { pass.new.queue ≡ work.now.queue }
    ensures unfinished { OnOk result (pass.new.record_of.finished ≡ false) }
{
    let Err(back) = work.feed(rt, piece(rt.alloc(), 1), feeder) else {
        return Err("two entries in a queue of one")?;
    };
    assert!(rt; back.id == 1);
    assert!(rt; take_one(rt, work, pass)? == Some(0));
    let Ok(()) = work.feed(rt, back, feeder) else {
        return Err("a piece came back")?;
    };
    assert!(rt; work.feed_end(rt, feeder).is_err());
    assert!(rt; take_one(rt, work, pass)? == Some(1));
    assert!(rt; work.feed_end(rt, feeder).is_ok());
    Ok(())
}

/// Takes the end of the only worker and joins it, if its end comes. The feeder's record has pieces 0 and 1 then, each
/// once, and no other.
fn join_one<R: Wait>(
    rt: &R,
    work: &Work<Brand>,
    mut feeder: FeederPass,
    mut pass: WorkerPass,
) -> Option<FeederPass>
    requires feeder { (feeder.queue ≡ work.now.queue) × (feeder.record_of.fed ≡ 2)
        × (feeder.record_of.pending ≡ 1) }
    requires pass { (pass.queue ≡ work.now.queue) × (pass.record_of.finished ≡ false) }
    ensures each_once { IfSome result (λ joined. (x : ℕ)
        → times x joined.record_of.taken ≡ once_below x 2) }
{
    let Taken::Finish = work.take(rt, &mut pass) else {
        return None;
    };
    work.join(&mut feeder, pass);
    Some(feeder)
}

#[test]
fn a_queue_of_one_entry_step_by_step(rt: HostRuntime) -> Result<(), Fail> {
    let (work, mut feeder) = Work::<Brand>::new(rt.alloc(), 1)?;
    let mut pass = work.split(&mut feeder);
    assert!(rt; take_one(&rt, &work, &mut pass)? == None);
    let Ok(()) = work.feed(&rt, piece(rt.alloc(), 0), &mut feeder) else {
        return Err("a piece came back")?;
    };
    feed_when_taken(&rt, &work, &mut feeder, &mut pass)?;
    assert!(rt; join_one(&rt, &work, feeder, pass).is_some());
    for id in 0..2 {
        work.give_back(&rt, Bundle::of(piece(rt.alloc(), id)));
    }
    assert_eq!(rt; work.free_used(&rt), 1);
    assert_eq!(rt; work.free_used(&rt), 0);
    Ok(())
}

/// Feeds a piece, again while the queue is full.
fn feed<R: Wait>(
    rt: &R,
    work: &Work<Brand>,
    mut next: Piece,
    feeder: &mut FeederPass,
) -> Result<(), &'static str>
    requires queue { feeder.old.queue ≡ work.now.queue }
    requires next { feeder.old.record_of.fed ≡ next.id }
    requires open { feeder.old.record_of.ends ≡ 0 }
    ensures queue { feeder.new.queue ≡ work.now.queue }
    ensures fed { OnOk result (feeder.new.record_of.fed ≡ next.id + 1) }
    ensures open { OnOk result (feeder.new.record_of.ends ≡ 0) }
{
    for _ in 0..100_000_000 {
        match work.feed(rt, next, feeder) {
            Ok(()) => return Ok(()),
            Err(back) => next = back,
        }
        thread::yield_now();
    }
    Err("a piece comes back again and again")
}

#[test]
fn a_witness_knows_what_each_worker_took(rt: HostRuntime) -> Result<(), Fail> {
    let (work, mut feeder) = Work::<Brand>::new(rt.alloc(), 4)?;
    let mut witness = work.witness(&mut feeder);
    let mut one = work.split(&mut feeder);
    let mut other = work.split(&mut feeder);
    feed(&rt, &work, piece(rt.alloc(), 0), &mut feeder)?;
    assert!(rt; matches!(work.take(&rt, &mut one), Taken::Got(_)));
    work.learn(&mut witness, work.witness_of(&mut one));
    feed(&rt, &work, piece(rt.alloc(), 1), &mut feeder)?;
    assert!(rt; matches!(work.take(&rt, &mut other), Taken::Got(_)));
    work.learn(&mut witness, work.witness_of(&mut other));
    work.confirm(feeder, witness);
    Ok(())
}

/// Counts a piece that was taken, in its hex digit.
fn count(taken: &AtomicU64, piece: &Piece) {
    let one = 1u64.wrapping_shl(piece.id.wrapping_mul(4));
    taken.fetch_add(one, Ordering::SeqCst);
}

/// Takes pieces until its end comes.
fn drain<R: Wait>(rt: &R, work: &Work<Brand>, mut pass: WorkerPass, taken: &AtomicU64)
    requires { (pass.queue ≡ work.now.queue) × (pass.record_of ≡ worker [] false 0) }
{
    for _ in rt.forever() {
        match work.take(rt, &mut pass) {
            Taken::Got(bundle) => {
                let (front, last) = bundle.parts();
                for piece in front {
                    count(taken, piece);
                }
                count(taken, last);
            }
            Taken::Finish => return,
            Taken::Empty => thread::yield_now(),
        }
    }
}

/// Feeds the pieces of three epochs on four channels, until one comes back again and again.
fn feed_all<R: Host>(rt: &R, work: &Work<Brand>, feeder: &mut FeederPass)
    requires queue { feeder.old.queue ≡ work.now.queue }
    requires fresh { (feeder.old.record_of.fed ≡ 0) × (feeder.old.record_of.ends ≡ 0) }
    ensures { feeder.new.queue ≡ work.now.queue }
{
    for id in 0..12 {
        let Ok(()) = feed(rt, work, piece(rt.alloc(), id), feeder) else {
            return;
        };
    }
}

/// Feeds an end for each worker.
fn feed_ends<R: Wait>(rt: &R, work: &Work<Brand>, feeder: &mut FeederPass, workers: u32)
    requires { feeder.old.queue ≡ work.now.queue }
{
    let mut left = workers;
    for _ in rt.forever() {
        if left == 0 {
            return;
        }
        match work.feed_end(rt, feeder) {
            Ok(()) => left -= 1,
            Err(()) => thread::yield_now(),
        }
    }
}

/// Starts workers; says how many threads were made.
fn start<'s, 'e: 's, R: Wait + Sync>(
    scope: &'s Scope<'s, &'e ()>,
    rt: &'s R,
    work: &'s Work<Brand>,
    feeder: &mut FeederPass,
    taken: &'s AtomicU64,
    workers: u32,
) -> u32
    requires { feeder.old.queue ≡ work.now.queue }
    ensures queue { feeder.new.queue ≡ work.now.queue }
    ensures fed { feeder.new.record_of.fed ≡ feeder.old.record_of.fed }
    ensures open { feeder.new.record_of.ends ≡ feeder.old.record_of.ends }
{
    let mut started = 0u32;
    for _ in 0..workers {
        let pass = work.split(feeder);
        let worker = scope.spawn(
            move ||
                requires { (pass.queue ≡ work.now.queue) × (pass.record_of ≡ worker [] false 0) }
            { drain(rt, work, pass, taken) },
        );
        started = started.wrapping_add(u32::from(worker.is_ok()));
    }
    started
}

/// How often workers took each piece, in hex digits.
fn run<R: Host>(rt: &R, workers: u32, capacity: usize) -> Result<u64, Fail>
    requires some { 0 < capacity }
    requires few { capacity ≤ 4096 }
{
    let (work, mut feeder) = Work::<Brand>::new(rt.alloc(), capacity)?;
    let taken = AtomicU64::new(0);
    let (queue, counts) = (&work, &taken);
    thread::scope(
        thread::scope_env(),
        rt,
        |scope|
            requires { (feeder.queue ≡ queue.now.queue) × (feeder.record_of.fed ≡ 0) × (feeder.record_of.ends ≡ 0) }
        {
            let started = start(scope, rt, queue, &mut feeder, counts, workers);
            feed_all(rt, queue, &mut feeder);
            feed_ends(rt, queue, &mut feeder, started);
        },
    );
    Ok(taken.load(Ordering::SeqCst))
}

#[test]
fn each_piece_is_taken_once_by_any_number_of_workers(rt: HostRuntime) -> Result<(), Fail> {
    for (workers, capacity) in [(1, 1), (1, 64), (2, 1), (2, 64), (64, 1), (64, 64)] {
        let taken = run(&rt, workers, capacity)?;
        assert!(rt;
            taken == 0x1111_1111_1111,
            "{workers} workers, capacity {capacity}"
        );
    }
    Ok(())
}
