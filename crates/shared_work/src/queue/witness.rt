//! A proof that pieces were fed.
use crate::queue::entry::QueueEntry;
use crate::queue::rule::QueueNotes;
use crossbeam_queue::Pass;
use std::alloc::{Allocator, Global};
use std::marker::Model;

/// A proof that some pieces were fed, which `Work::confirm` gives to the feeder's pass. It has no bytes.
#[derive(Drop)]
pub struct Witness<A: Allocator = Global> {
    pub(crate) pass: Pass<QueueEntry<A>, QueueNotes>,
}

impl<A: Allocator> Model for Witness<A> {
    ghost use Rattle.std.specs.Prelude.{◌≡◌, []};
    ghost use Rattle.shared_work.specs.queue.Passes.{WitnessView};
    ghost use Rattle.shared_work.specs.queue.Rule.{nothing_done};
    ghost use Rattle.crossbeam_queue.specs.Passes.{view as seen};

    ghost Value = { WitnessView };

    ghost view = { λ s. record { queue = s.pass.table_id; pieces = (seen s.pass).known } };

    ghost invariant = { λ s. (s.pass.me.1 ≡ []) × ((seen s.pass).record_of ≡ nothing_done) };
}
