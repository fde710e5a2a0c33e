//! The rule of the queue: what it holds, and what each pass knows.
use crate::queue::entry::QueueEntry;
use crossbeam_queue::protocol::{Join, Lesson, Outcome, Protocol, Split};
use line_model::piece::{Piece, Plan};
use std::alloc::Allocator;
use std::collections::LinkedList;
use std::marker::PhantomData;

/// What a pass did, by numbers. No value of this type is made.
pub struct Record {
    /// Whether the pass is the feeder's.
    pub feeds: bool,
    /// Whether the pass is a worker's and was not joined.
    pub works: bool,
    /// How many pieces were fed. A worker knows it once it received its end.
    pub fed: u64,
    /// How many ends were fed.
    pub ends: u64,
    /// How many passes were split and not joined.
    pub pending: u64,
    /// How many passes that received their end were joined.
    pub done: u64,
    /// The numbers of the pieces that were taken.
    pub taken: LinkedList<u32>,
    /// Whether the worker received its end.
    pub finished: bool,
    /// How many pieces were fed, as the feeder knows from the worker that it joined last, if that one received its end.
    pub known_fed: u64,
}

/// What a pass knows. No value of this type is made.
pub struct QueueNotes {
    /// What it did, by numbers.
    pub record_of: Record,
    /// Of the feeder's: the pieces that were fed, in order.
    pub fed: LinkedList<Piece>,
    /// Pieces that it knows of, each of which was fed.
    pub known: LinkedList<Piece>,
}

/// The rule: the queue holds the plan's pieces that were fed and not taken, in order, and then ends; and each piece in
/// it, or that a pass knows of, was fed. An entry has one piece or more, or is an end.
pub struct PlanOrder<P> {
    plan: PhantomData<P>,
}

impl<P: Plan, A: Allocator> Protocol<QueueEntry<A>, QueueNotes> for PlanOrder<P> {
    ghost use Rattle.std.specs.Prelude.{[]};
    ghost use Rattle.shared_work.specs.queue.Rule.{feeder};
    ghost use Rattle.shared_work.specs.queue.Known.{AreBundled, notes};

    ghost holds = { AreBundled P.pieces };

    ghost first = { notes (feeder 0 0 0 0 []) [] [] };
}

/// A new worker's pass is split from the feeder's.
pub struct Worker;

impl Split<QueueNotes> for Worker {
    ghost use Rattle.std.specs.Prelude.{[], false};
    ghost use Rattle.shared_work.specs.queue.Rule.{after_split, worker};
    ghost use Rattle.shared_work.specs.queue.Known.{notes};

    ghost left = { λ v. notes (after_split v.record_of) v.fed v.known };

    ghost right = { λ v. notes (worker [] false 0) [] [] };
}

impl Join<QueueNotes> for Worker {
    ghost use Rattle.std.specs.Prelude.{[]};
    ghost use Rattle.shared_work.specs.queue.Rule.{after_join, nothing_done};
    ghost use Rattle.shared_work.specs.queue.Known.{notes};

    ghost both = { λ v w. notes (after_join v.record_of w.record_of) v.fed v.known };

    ghost spent = { notes nothing_done [] [] };
}

/// A witness is split from a pass and knows what the pass knows.
pub struct Witnessing;

impl Split<QueueNotes> for Witnessing {
    ghost use Rattle.std.specs.Prelude.{[]};
    ghost use Rattle.shared_work.specs.queue.Rule.{nothing_done};
    ghost use Rattle.shared_work.specs.queue.Known.{notes};

    ghost left = { λ v. v };

    ghost right = { λ v. notes nothing_done [] v.known };
}

impl Join<QueueNotes> for Witnessing {
    ghost use Rattle.std.specs.Prelude.{[]};
    ghost use Rattle.shared_work.specs.queue.Rule.{nothing_done};
    ghost use Rattle.shared_work.specs.queue.Known.{with_witness, notes};

    ghost both = { with_witness };

    ghost spent = { notes nothing_done [] [] };
}

/// The step that feeds a bundle of pieces.
pub struct FeedsBundle<P> {
    plan: PhantomData<P>,
}

impl<P: Plan, A: Allocator> Outcome<QueueEntry<A>, QueueNotes> for FeedsBundle<P> {
    ghost use Rattle.shared_work.specs.queue.Known.{FedBundle};

    ghost then = { FedBundle };
}

impl<P: Plan, A: Allocator> Lesson<QueueEntry<A>, QueueNotes> for FeedsBundle<P> {
    ghost use Rattle.shared_work.specs.queue.Rule.{AreInQueue};

    ghost fact = { λ v. AreInQueue P.pieces v.record_of };
}

/// The step that feeds an end.
pub struct FeedsEnd<P> {
    plan: PhantomData<P>,
}

impl<P: Plan, A: Allocator> Outcome<QueueEntry<A>, QueueNotes> for FeedsEnd<P> {
    ghost use Rattle.shared_work.specs.queue.Known.{FedEnd};

    ghost then = { FedEnd };
}

impl<P: Plan, A: Allocator> Lesson<QueueEntry<A>, QueueNotes> for FeedsEnd<P> {
    ghost use Rattle.shared_work.specs.queue.Rule.{AreInQueue};

    ghost fact = { λ v. AreInQueue P.pieces v.record_of };
}

/// The step that removes the first entry.
pub struct Takes<P> {
    plan: PhantomData<P>,
}

impl<P: Plan, A: Allocator> Outcome<QueueEntry<A>, QueueNotes> for Takes<P> {
    ghost use Rattle.shared_work.specs.queue.Known.{TookAll};

    ghost then = { TookAll P.pieces };
}

impl<P: Plan, A: Allocator> Lesson<QueueEntry<A>, QueueNotes> for Takes<P> {
    ghost use Rattle.shared_work.specs.queue.Known.{IsBetween};

    ghost fact = { IsBetween P.pieces };
}

/// What the feeder knows after it joined a pass: what that pass knew, and what all passes took.
pub struct QueueAccount;

impl<A: Allocator> Lesson<QueueEntry<A>, QueueNotes> for QueueAccount {
    ghost use Rattle.std.specs.Prelude.{◌≡◌};
    ghost use Rattle.shared_work.specs.queue.Rule.{IsAccounted};

    ghost fact = { λ v items. (v.record_of.known_fed ≡ v.record_of.fed) × IsAccounted v.record_of };
}

/// What the feeder knows once a witness is confirmed: each piece of the witness was fed.
pub struct Confirmation;

impl<A: Allocator> Lesson<QueueEntry<A>, QueueNotes> for Confirmation {
    ghost use Rattle.shared_work.specs.queue.Known.{IsConfirmed};

    ghost fact = { λ v items. IsConfirmed v };
}
