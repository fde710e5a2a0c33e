//! The entries of the queue.
ghost use Rattle.std.specs.Prelude.{◌≡◌, ◌<◌, ◌++◌, ◌∷◌, [], vec_len};

use line_model::piece::Piece;
use std::alloc::{Allocator, Global};
use std::marker::Model;

/// One or more pieces that go through the queue together, in the order of the plan. Contracts see the pieces.
#[derive(Drop)]
pub struct Bundle<A: Allocator = Global> {
    pub(crate) front: Vec<Piece<A>, A>,
    pub(crate) last: Piece<A>,
}

impl<A: Allocator> Model for Bundle<A> {
    ghost use Rattle.std.specs.Prelude.{List, ◌++◌, ◌∷◌, []};
    ghost use Rattle.line_model.specs.basics.Records as records;

    ghost Value = { List records.Piece };

    ghost view = { λ b. b.front.items ++ b.last ∷ [] };
}

impl<A: Allocator> Bundle<A> {
    /// Returns a bundle of one piece. Needs no memory.
    pub fn of(piece: Piece<A>) -> Bundle<A>
    where
        A: Copy,
        ensures { result ≡ piece ∷ [] }
    {
        Bundle {
            front: Vec::new(*piece.items.allocator()),
            last: piece,
        }
    }

    /// Returns a bundle of these pieces.
    pub fn of_all(pieces: Vec<Piece<A>, A>) -> Bundle<A>
        requires some { 0 < vec_len pieces }
        ensures { result ≡ pieces.items }
    {
        let mut front = pieces;
        let last = front.take_last();
        Bundle { front, last }
    }

    /// Returns all pieces except the last, and the last one.
    pub fn parts(&self) -> (&[Piece<A>], &Piece<A>)
        ensures { self.now ≡ result.0.now ++ result.1.now ∷ [] }
    {
        (self.front.as_slice(), &self.last)
    }
}

/// A bundle of pieces, or an end where there is none.
#[derive(Drop)]
pub struct QueueEntry<A: Allocator = Global> {
    pub(crate) bundle: Option<Bundle<A>>,
}

impl<A: Allocator> Model for QueueEntry<A> {
    ghost use Rattle.std.specs.Prelude.{List};
    ghost use Rattle.line_model.specs.work.Work as work;
    ghost use Rattle.shared_work.specs.queue.Entries.{entry_of};

    ghost Value = { List work.WorkEntry };

    ghost view = { λ e. entry_of e.bundle };
}
