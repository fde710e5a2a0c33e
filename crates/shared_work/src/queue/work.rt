//! The queue with its passes.
ghost use Rattle.std.specs.Prelude.{◌≡◌, ◌+◌, ◌<◌, ◌≤◌, [], ◌++◌, ◌∷◌, true, false, All, length, IfOk, OnOk, IfErr, OnErr, MatchResult};
ghost use Rattle.crossbeam_queue.specs.Fifo.{Held};
ghost use Rattle.line_model.specs.work.Book.{IsPlanned};
ghost use Rattle.shared_work.specs.queue.Known.{IsFed};
ghost use Rattle.shared_work.specs.queue.Rule.{feeder, worker, after_split, after_join, AreInQueue, ArePlanned, IsAccounted, KnowsAll};

use crate::queue::entry::{Bundle, QueueEntry};
use crate::queue::rule::{
    Confirmation, FeedsBundle, FeedsEnd, PlanOrder, QueueAccount, QueueNotes, Takes, Witnessing,
    Worker,
};
use crate::queue::witness::Witness;
use crossbeam_queue::{ArrayQueue, Pass, RuledArrayQueue};
use line_model::fault::Fault;
use line_model::piece::{Piece, Plan};
use std::alloc::{Allocator, Global};
use std::marker::Model;
use std::sync::Wait;

/// The most bundles that one call frees.
const MOST_FREED: usize = 4096;

/// A queue of bundles of pieces, and one of those that were run, on their way back. Contracts see which queue it is and
/// its capacity.
#[derive(Drop)]
pub struct Work<P: Plan, A: Allocator = Global> {
    queue: RuledArrayQueue<QueueEntry<A>, QueueNotes, PlanOrder<P>, A>,
    used: ArrayQueue<Bundle<A>, A>,
}

impl<P: Plan, A: Allocator> Model for Work<P, A> {
    ghost use Rattle.shared_work.specs.queue.Passes.{QueueView};
    ghost use Rattle.crossbeam_queue.specs.Passes.{ruled_capacity};

    ghost Value = { QueueView };

    ghost view = { λ s. record { queue = s.queue.table.shared.table_id; capacity = ruled_capacity s.queue } };
}

/// The pass of the thread that feeds. It has no bytes.
#[derive(Drop)]
pub struct FeederPass<A: Allocator = Global> {
    pass: Pass<QueueEntry<A>, QueueNotes>,
}

impl<A: Allocator> Model for FeederPass<A> {
    ghost use Rattle.std.specs.Prelude.{◌≡◌, [], true};
    ghost use Rattle.shared_work.specs.queue.Passes.{PassView};
    ghost use Rattle.crossbeam_queue.specs.Passes.{view as seen};

    ghost Value = { PassView };

    ghost view = { λ s. record { queue = s.pass.table_id; record_of = (seen s.pass).record_of; pieces = (seen s.pass).fed } };

    ghost invariant = { λ s. (s.pass.me.1 ≡ []) × ((seen s.pass).record_of.feeds ≡ true) × ((seen s.pass).known ≡ []) };
}

/// The pass of a worker. It has no bytes.
#[derive(Drop)]
pub struct WorkerPass<A: Allocator = Global> {
    pass: Pass<QueueEntry<A>, QueueNotes>,
}

impl<A: Allocator> Model for WorkerPass<A> {
    ghost use Rattle.std.specs.Prelude.{◌≡◌, []};
    ghost use Rattle.shared_work.specs.queue.Passes.{PassView};
    ghost use Rattle.shared_work.specs.queue.Rule.{IsWorker};
    ghost use Rattle.crossbeam_queue.specs.Passes.{view as seen};

    ghost Value = { PassView };

    ghost view = { λ s. record { queue = s.pass.table_id; record_of = (seen s.pass).record_of; pieces = (seen s.pass).known } };

    ghost invariant = { λ s. (s.pass.me.1 ≡ []) × IsWorker (seen s.pass).record_of };
}

/// What a worker took.
#[derive(Drop)]
pub enum Taken<A: Allocator = Global> {
    /// A bundle, whose pieces are the plan's of their ids.
    Got(Bundle<A>),
    /// An end: the pass removes no more.
    Finish,
    /// Nothing was taken; the pass is as it was.
    Empty,
}

impl<P: Plan, A: Allocator> Work<P, A> {
    ghost use Rattle.shared_work.specs.queue.Takes.{AddsTaken, IsTaken, WasDrained, WasEmpty};

    /// Returns an empty queue of `capacity` entries, and the feeder's pass. Fails only when memory is refused.
    pub fn new(alloc: A, capacity: usize) -> Result<(Work<P, A>, FeederPass<A>), Fault>
    where
        A: Clone,
        requires some { 0 < capacity }
        requires few { capacity ≤ 4096 }
        ensures ok { IfOk result (λ r. (r.0.capacity ≡ capacity) × (r.1.queue ≡ r.0.queue)
            × (r.1.record_of ≡ feeder 0 0 0 0 [])) }
        ensures none { IfOk result (λ r. r.1.pieces ≡ []) }
        ensures refused { IfErr result (λ fault. fault ≡ Fault.Memory) }
    {
        let used = ArrayQueue::new(alloc.clone()?, capacity)?;
        match RuledArrayQueue::ruled(alloc, capacity) {
            Ok((queue, pass)) => Ok((Work { queue, used }, FeederPass { pass })),
            Err(_) => Err(Fault::Memory),
        }
    }

    /// Hands a bundle that was run back to the thread that fed it, or frees it where the way back is full.
    pub fn give_back<R: Wait>(&self, rt: &R, bundle: Bundle<A>) {
        drop(self.used.push(rt, bundle));
    }

    /// Frees the bundles that were handed back, and returns how many. The thread that made their pieces does this:
    /// where one thread allocates memory and others free it, all of them wait for the lock of the allocator.
    pub fn free_used<R: Wait>(&self, rt: &R) -> usize
        ensures { result ≤ 4096 }
    {
        for freed in 0..MOST_FREED {
            match self.used.pop(rt) {
                Some(bundle) => drop(bundle),
                None => return freed,
            }
        }
        MOST_FREED
    }

    /// Returns a worker's pass, which has taken nothing.
    pub fn split(&self, pass: &mut FeederPass<A>) -> WorkerPass<A>
        requires { pass.old.queue ≡ self.now.queue }
        ensures queue { (pass.new.queue ≡ pass.old.queue) × (result.queue ≡ pass.old.queue) }
        ensures counted { pass.new.record_of ≡ after_split pass.old.record_of }
        ensures empty { result.record_of ≡ worker [] false 0 }
        ensures pieces { (pass.new.pieces ≡ pass.old.pieces) × (result.pieces ≡ []) }
    {
        let pass = self.queue.another::<Worker>(&mut pass.pass);
        WorkerPass { pass }
    }

    /// Feeds the plan's next piece. Returns it only if the queue was full at one moment of the call; the pass is then
    /// as it was.
    pub fn feed<R: Wait>(
        &self,
        rt: &R,
        piece: Piece<A>,
        pass: &mut FeederPass<A>,
    ) -> Result<(), Piece<A>>
    where
        A: Copy,
        requires queue { pass.old.queue ≡ self.now.queue }
        requires next { IsPlanned P.pieces pass.old.record_of.fed piece }
        requires open { pass.old.record_of.ends ≡ 0 }
        ensures queue { pass.new.queue ≡ pass.old.queue }
        ensures ok { OnOk result (pass.new.record_of
            ≡ feeder (pass.old.record_of.fed + 1) pass.old.record_of.ends pass.old.record_of.pending
            pass.old.record_of.done pass.old.record_of.taken) }
        ensures err { IfErr result (λ back. (back ≡ piece)
            × (pass.new.record_of ≡ pass.old.record_of)) }
        ensures pieces { MatchResult result
            (λ _. pass.new.pieces ≡ pass.old.pieces ++ piece ∷ [])
            (λ _. pass.new.pieces ≡ pass.old.pieces) }
        ensures full { OnErr result (Held self.now.capacity
            (AreInQueue P.pieces pass.old.record_of)) }
    {
        match self.feed_bundle(rt, Bundle::of(piece), pass) {
            Ok(()) => Ok(()),
            Err(Bundle { front: _, last }) => Err(last),
        }
    }

    /// Feeds the plan's next pieces as a bundle, which one worker removes. Returns it only if the queue was full at one
    /// moment of the call; the pass is then as it was.
    pub fn feed_bundle<R: Wait>(
        &self,
        rt: &R,
        bundle: Bundle<A>,
        pass: &mut FeederPass<A>,
    ) -> Result<(), Bundle<A>>
        requires queue { pass.old.queue ≡ self.now.queue }
        requires some { 0 < length bundle }
        requires next { ArePlanned P.pieces pass.old.record_of.fed bundle }
        requires open { pass.old.record_of.ends ≡ 0 }
        ensures queue { pass.new.queue ≡ pass.old.queue }
        ensures ok { OnOk result (pass.new.record_of
            ≡ feeder (pass.old.record_of.fed + length bundle) pass.old.record_of.ends
            pass.old.record_of.pending pass.old.record_of.done pass.old.record_of.taken) }
        ensures err { IfErr result (λ back. (back ≡ bundle)
            × (pass.new.record_of ≡ pass.old.record_of)) }
        ensures pieces { MatchResult result
            (λ _. pass.new.pieces ≡ pass.old.pieces ++ bundle)
            (λ _. pass.new.pieces ≡ pass.old.pieces) }
        ensures full { OnErr result (Held self.now.capacity
            (AreInQueue P.pieces pass.old.record_of)) }
    {
        let entry = QueueEntry {
            bundle: Some(bundle),
        };
        match self
            .queue
            .push_as::<FeedsBundle<P>, R>(rt, &mut pass.pass, entry)
        {
            Ok(()) => Ok(()),
            Err(
                QueueEntry {
                    bundle: Some(bundle),
                },
            ) => Err(bundle),
            Err(QueueEntry { bundle: None }) => unreachable!(),
        }
    }

    /// Feeds an end, of which each worker needs one. Fails only if the queue was full at one moment of the call; the
    /// pass is then as it was.
    pub fn feed_end<R: Wait>(&self, rt: &R, pass: &mut FeederPass<A>) -> Result<(), ()>
        requires queue { pass.old.queue ≡ self.now.queue }
        ensures queue { pass.new.queue ≡ pass.old.queue }
        ensures ok { OnOk result (pass.new.record_of
            ≡ feeder pass.old.record_of.fed (pass.old.record_of.ends + 1) pass.old.record_of.pending
            pass.old.record_of.done pass.old.record_of.taken) }
        ensures err { OnErr result (pass.new.record_of ≡ pass.old.record_of) }
        ensures pieces { pass.new.pieces ≡ pass.old.pieces }
        ensures full { OnErr result (Held self.now.capacity
            (AreInQueue P.pieces pass.old.record_of)) }
    {
        match self
            .queue
            .push_as::<FeedsEnd<P>, R>(rt, &mut pass.pass, QueueEntry { bundle: None })
        {
            Ok(()) => Ok(()),
            Err(_) => Err(()),
        }
    }

    /// Removes a bundle, whose pieces are the plan's of their ids and go into the record of the pass, or an end, after
    /// which the pass removes no more. Returns `Finish` only if at one moment of the call each piece that had been fed
    /// was taken, and only ends were in the queue; the record then has how many were fed. Returns `Empty` only if the
    /// queue was empty at one moment of the call; the record is then as it was.
    pub fn take<R: Wait>(&self, rt: &R, pass: &mut WorkerPass<A>) -> Taken<A>
        requires queue { pass.old.queue ≡ self.now.queue }
        requires unfinished { pass.old.record_of.finished ≡ false }
        ensures queue { pass.new.queue ≡ pass.old.queue }
        ensures taken { IsTaken P.pieces pass.old.record_of result pass.new.record_of }
        ensures pieces { AddsTaken pass.old.pieces result pass.new.pieces }
        ensures drained { WasDrained P.pieces pass.old.record_of result pass.new.record_of.fed }
        ensures empty { WasEmpty P.pieces pass.old.record_of result }
    {
        match self.queue.pop_as::<Takes<P>, R>(rt, &mut pass.pass) {
            Some(
                QueueEntry {
                    bundle: Some(bundle),
                },
            ) => Taken::Got(bundle),
            Some(QueueEntry { bundle: None }) => Taken::Finish,
            None => Taken::Empty,
        }
    }

    /// Adds what a worker took to the record. A worker that had its end knows how many pieces the feeder has fed. Where
    /// each pass is back, and one had its end, each piece that was fed was taken, once.
    pub fn join(&self, pass: &mut FeederPass<A>, other: WorkerPass<A>)
        requires { (pass.old.queue ≡ self.now.queue) × (other.queue ≡ self.now.queue) }
        ensures queue { pass.new.queue ≡ pass.old.queue }
        ensures joined { pass.new.record_of ≡ after_join pass.old.record_of other.record_of }
        ensures known_fed { KnowsAll pass.old.record_of other.record_of }
        ensures all { IsAccounted pass.new.record_of }
        ensures pieces { pass.new.pieces ≡ pass.old.pieces }
    {
        let WorkerPass { pass: other } = other;
        self.queue.absorb::<Worker>(&mut pass.pass, other);
        self.queue.learn_as::<QueueAccount>(&mut pass.pass);
    }

    /// Returns a witness that knows of no piece.
    pub fn witness(&self, pass: &mut FeederPass<A>) -> Witness<A>
        requires { pass.old.queue ≡ self.now.queue }
        ensures same { pass.new ≡ pass.old }
        ensures witness { (result.queue ≡ self.now.queue) × (result.pieces ≡ []) }
    {
        let pass = self.queue.another::<Witnessing>(&mut pass.pass);
        Witness { pass }
    }

    /// Returns a witness of the pieces that a worker took.
    pub fn witness_of(&self, pass: &mut WorkerPass<A>) -> Witness<A>
        requires { pass.old.queue ≡ self.now.queue }
        ensures same { pass.new ≡ pass.old }
        ensures witness { (result.queue ≡ self.now.queue) × (result.pieces ≡ pass.old.pieces) }
    {
        Witness {
            pass: self.queue.another::<Witnessing>(&mut pass.pass),
        }
    }

    /// Adds what another witness knows.
    pub fn learn(&self, witness: &mut Witness<A>, other: Witness<A>)
        requires { (witness.old.queue ≡ self.now.queue) × (other.queue ≡ self.now.queue) }
        ensures queue { witness.new.queue ≡ witness.old.queue }
        ensures pieces { witness.new.pieces ≡ witness.old.pieces ++ other.pieces }
    {
        let Witness { pass: other } = other;
        self.queue.absorb::<Witnessing>(&mut witness.pass, other);
    }

    /// Ensures that each piece that a witness knows of was fed, and is at its id among those that were fed. The record
    /// of the feeder has their number.
    pub fn confirm(&self, pass: FeederPass<A>, witness: Witness<A>)
        requires { (pass.queue ≡ self.now.queue) × (witness.queue ≡ self.now.queue) }
        ensures fed { All (IsFed pass.pieces) witness.pieces }
        ensures number { length pass.pieces ≡ pass.record_of.fed }
    {
        let FeederPass { mut pass } = pass;
        let Witness { pass: witness } = witness;
        self.queue.absorb::<Witnessing>(&mut pass, witness);
        self.queue.learn_as::<Confirmation>(&mut pass);
    }
}
