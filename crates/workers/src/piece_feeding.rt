//! What the reading thread feeds.

ghost use Rattle.std.specs.Prelude.{◌≡◌, ◌+◌, ◌<◌, ◌++◌, ◌∷◌, [], length, vec_len};
ghost use Rattle.line_model.specs.work.Book.{IsPlanned};
ghost use Rattle.shared_work.specs.queue.Rule.{feeder};
ghost use Rattle.workers.specs.Workers.{ArePlanned, FeedsAll, FeedsFirst, HasFed};

use crate::waiting::Backoff;
use line_model::piece::{Piece, Plan};
use shared_work::queue::{Bundle, FeederPass, Work};
use std::alloc::Allocator;
use std::sync::Wait;
use std::time::Clock;

/// What the reading thread does while the workers run: it feeds the first pieces of the plan, in order.
pub trait Feed<P: Plan, A: Allocator> {
    ghost use Rattle.std.specs.Prelude.{List};
    ghost use Rattle.line_model.specs.basics.Records as records;

    /// What it needs.
    ghost can_feed: { Self → Type 0 };

    /// What becomes of it where these pieces were fed, in order.
    ghost feed_gives: { Self → List records.Piece → Self → Type 0 };

    /// What is known of it where its turn does not come.
    ghost unfed: { Self → Self → Type 0 };

    /// Returns the task without a turn.
    fn back(self) -> Self
        ensures { unfed self result };

    /// Takes its turn.
    fn feed<R: Wait + Clock>(self, rt: &R, work: &Work<P, A>, pass: &mut FeederPass<A>) -> Self
        requires able { can_feed self }
        requires queue { pass.old.queue ≡ work.now.queue }
        requires first { (pass.old.record_of.fed ≡ 0) × (pass.old.record_of.ends ≡ 0) }
        requires none { pass.old.pieces ≡ [] }
        ensures queue { pass.new.queue ≡ pass.old.queue }
        ensures fed { HasFed pass.old.record_of pass.new.record_of }
        ensures gives { feed_gives self pass.new.pieces result };
}

/// Feeds a bundle, again while the queue is full.
fn feed_bundle<P: Plan, A: Allocator, R: Wait + Clock>(
    rt: &R,
    work: &Work<P, A>,
    bundle: Bundle<A>,
    pass: &mut FeederPass<A>,
)
    requires queue { pass.old.queue ≡ work.now.queue }
    requires some { 0 < length bundle }
    requires next { ArePlanned P.pieces pass.old.record_of.fed bundle }
    requires open { pass.old.record_of.ends ≡ 0 }
    ensures queue { pass.new.queue ≡ pass.old.queue }
    ensures fed { pass.new.record_of ≡ feeder
        (pass.old.record_of.fed + length bundle) pass.old.record_of.ends pass.old.record_of.pending
        pass.old.record_of.done pass.old.record_of.taken }
    ensures pieces { pass.new.pieces ≡ pass.old.pieces ++ bundle }
{
    let mut bundle = bundle;
    let mut backoff = Backoff::new();
    for _ in rt.forever() {
        work.free_used(rt);
        match work.feed_bundle(rt, bundle, pass) {
            Ok(()) => return,
            Err(back) => bundle = back,
        }
        backoff.wait(rt);
    }
    unreachable!()
}

/// Feeds a piece, again while the queue is full.
pub fn feed_piece<P: Plan, A: Allocator + Copy, R: Wait + Clock>(
    rt: &R,
    work: &Work<P, A>,
    piece: Piece<A>,
    pass: &mut FeederPass<A>,
)
    requires queue { pass.old.queue ≡ work.now.queue }
    requires next { IsPlanned P.pieces pass.old.record_of.fed piece }
    requires open { pass.old.record_of.ends ≡ 0 }
    ensures queue { pass.new.queue ≡ pass.old.queue }
    ensures fed { pass.new.record_of ≡ feeder
        (pass.old.record_of.fed + 1) pass.old.record_of.ends pass.old.record_of.pending
        pass.old.record_of.done pass.old.record_of.taken }
    ensures pieces { pass.new.pieces ≡ pass.old.pieces ++ piece ∷ [] }
{
    feed_bundle(rt, work, Bundle::of(piece), pass);
}

/// The most rows of a bundle of more than one piece.
const MOST_ROWS: usize = 500;

/// A bundle with at least this many rows goes where another epoch begins. So its calls come before those of the next
/// bundle, unless an epoch has more rows.
const ENOUGH_ROWS: usize = 400;

/// The pieces of a list with no more pieces go through the queue one by one, so that each worker has work of a short
/// trace.
const FEW_PIECES: usize = 64;

/// How many rows a piece has. A gap of all channels after the others is one.
fn row_count<A: Allocator>(piece: &Piece<A>) -> usize {
    let last_gap = usize::from(piece.last_gap.is_some());
    piece.items.len().saturating_add(last_gap)
}

/// Pieces that are to go through the queue together, and how many rows they have.
#[derive(Drop)]
struct Waiting<A: Allocator> {
    pieces: Vec<Piece<A>, A>,
    rows: usize,
    /// Whether each piece goes alone.
    one_by_one: bool,
}

impl<A: Allocator> Waiting<A> {
    /// Whether the pieces go before this one does.
    fn go_before(&self, piece: &Piece<A>) -> bool {
        let is_next_epoch = match self.pieces.last() {
            Some(last) => last.epoch != piece.epoch,
            None => false,
        };
        let rows = self.rows.saturating_add(row_count(piece));
        self.one_by_one || rows > MOST_ROWS || (is_next_epoch && self.rows >= ENOUGH_ROWS)
    }
}

/// Feeds the pieces that wait.
fn feed_waiting<P: Plan, A: Allocator + Copy, R: Wait + Clock>(
    rt: &R,
    work: &Work<P, A>,
    waiting: Waiting<A>,
    pass: &mut FeederPass<A>,
) -> Waiting<A>
    requires queue { pass.old.queue ≡ work.now.queue }
    requires next { ArePlanned P.pieces pass.old.record_of.fed waiting.pieces.items }
    requires open { pass.old.record_of.ends ≡ 0 }
    ensures none { result.pieces.items ≡ [] }
    ensures fed { FeedsAll pass.old waiting.pieces.items pass.new }
{
    let none = Waiting {
        pieces: Vec::new(*waiting.pieces.allocator()),
        rows: 0,
        one_by_one: waiting.one_by_one,
    };
    if waiting.pieces.is_empty() {
        return none;
    }
    feed_bundle(rt, work, Bundle::of_all(waiting.pieces), pass);
    none
}

/// Lets one more piece wait. Those before it are fed first where pieces go one by one, where all of them have too many
/// rows together, or where enough rows wait and another epoch begins. All of them are fed where memory is refused.
fn add_waiting<P: Plan, A: Allocator + Copy, R: Wait + Clock>(
    rt: &R,
    work: &Work<P, A>,
    waiting: Waiting<A>,
    piece: Piece<A>,
    pass: &mut FeederPass<A>,
) -> Waiting<A>
    requires queue { pass.old.queue ≡ work.now.queue }
    requires next { ArePlanned P.pieces pass.old.record_of.fed (waiting.pieces.items ++ piece ∷ []) }
    requires open { pass.old.record_of.ends ≡ 0 }
    ensures fed { FeedsFirst pass.old (waiting.pieces.items ++ piece ∷ []) result.pieces.items pass.new }
{
    let mut waiting = waiting;
    if waiting.go_before(&piece) {
        waiting = feed_waiting(rt, work, waiting, pass);
    }
    waiting.rows = waiting.rows.saturating_add(row_count(&piece));
    match waiting.pieces.push(piece) {
        Ok(()) => waiting,
        Err(refused) => {
            let none = feed_waiting(rt, work, waiting, pass);
            feed_piece(rt, work, refused.value, pass);
            none
        }
    }
}

/// Feeds the plan's next pieces, in order. Of a list of more than 64 pieces, those that have few rows go together. All
/// of them are fed when it returns, so a piece waits only for the others of this list.
pub fn feed_pieces<P: Plan, A: Allocator + Copy, R: Wait + Clock>(
    rt: &R,
    work: &Work<P, A>,
    pieces: Vec<Piece<A>, A>,
    pass: &mut FeederPass<A>,
)
    requires queue { pass.old.queue ≡ work.now.queue }
    requires next { ArePlanned P.pieces pass.old.record_of.fed pieces.items }
    requires open { pass.old.record_of.ends ≡ 0 }
    ensures queue { pass.new.queue ≡ pass.old.queue }
    ensures fed { pass.new.record_of.fed ≡ pass.old.record_of.fed + vec_len pieces }
    ensures kept { HasFed pass.old.record_of pass.new.record_of }
    ensures pieces { pass.new.pieces ≡ pass.old.pieces ++ pieces.items }
{
    let mut waiting = Waiting {
        pieces: Vec::new(*pieces.allocator()),
        rows: 0,
        one_by_one: pieces.len() <= FEW_PIECES,
    };
    for piece in pieces {
        waiting = add_waiting(rt, work, waiting, piece, pass);
    }
    drop(feed_waiting(rt, work, waiting, pass));
}

/// Feeds an end, again while the queue is full.
fn feed_end<P: Plan, A: Allocator, R: Wait + Clock>(
    rt: &R,
    work: &Work<P, A>,
    pass: &mut FeederPass<A>,
)
    requires queue { pass.old.queue ≡ work.now.queue }
    ensures queue { pass.new.queue ≡ pass.old.queue }
    ensures fed { pass.new.record_of ≡ feeder pass.old.record_of.fed
        (pass.old.record_of.ends + 1) pass.old.record_of.pending pass.old.record_of.done
        pass.old.record_of.taken }
    ensures pieces { pass.new.pieces ≡ pass.old.pieces }
{
    let mut backoff = Backoff::new();
    for _ in rt.forever() {
        work.free_used(rt);
        match work.feed_end(rt, pass) {
            Ok(()) => return,
            Err(()) => {}
        }
        backoff.wait(rt);
    }
    unreachable!()
}

/// Feeds a count of ends.
pub fn feed_ends<P: Plan, A: Allocator, R: Wait + Clock>(
    rt: &R,
    work: &Work<P, A>,
    count: usize,
    pass: &mut FeederPass<A>,
)
    requires queue { pass.old.queue ≡ work.now.queue }
    ensures queue { pass.new.queue ≡ pass.old.queue }
    ensures fed { pass.new.record_of.fed ≡ pass.old.record_of.fed }
    ensures ends { pass.new.record_of.ends ≡ pass.old.record_of.ends + count }
    ensures pending { pass.new.record_of.pending ≡ pass.old.record_of.pending }
    ensures done { pass.new.record_of.done ≡ pass.old.record_of.done }
    ensures taken { pass.new.record_of.taken ≡ pass.old.record_of.taken }
    ensures pieces { pass.new.pieces ≡ pass.old.pieces }
{
    for _end in 0..count {
        feed_end(rt, work, pass);
    }
}
