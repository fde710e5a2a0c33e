//! The lock around the posts, and the shares.
ghost use Rattle.std.specs.Prelude.{◌≡◌, ℕ, ◌+◌, ◌^◌, ◌<◌, ◌≤◌, OnOk, IfErr, vec_len, List, All};
ghost use Rattle.std.specs.List.{flat_map};
ghost use Rattle.line_model.specs.basics.Records as records;
ghost use Rattle.line_model.specs.work.Book.{IsValue, totals_of, AreOf, IsWithin, sum_of};
ghost use Rattle.shared_work.specs.findings.Sums.{with_reports, IsPostFault};

use crate::findings::known_ids::KnownIds;
use crate::findings::ledgers::{Blanks, Ledgers};
use crate::findings::posts::Posts;
use crate::findings::share::Share;
use crate::findings::spares::Spares;
use crate::findings::sums::Sums;
use crate::findings::voucher::{AnyReport, Voucher};
use line_model::fault::Fault;
use line_model::piece::{PieceReport, Plan};
use line_model::totals::Totals;
use report_merge::reports::Reports;
use std::alloc::{Allocator, Global};
use std::marker::{Model, PhantomData};
use std::sync::{Mutex, Wait};

/// How many shares a book can give, and how many parts each of its ledgers has.
pub const MOST_SHARES: u64 = 4096;

/// The lock around the posts, which is all of a book that threads share.
#[derive(Drop)]
pub struct LockedPosts<
    P: Plan,
    L: Ledgers,
    A: Allocator = Global,
    W: Voucher = AnyReport,
    T: Reports<A> = PieceReport<A>,
> {
    locked: Mutex<Posts<P, L, A, W, T>>,
}

/// The posts under their lock, each the report of a piece or of a bundle, and the parts that were not given. Contracts
/// see how many shares were given.
#[derive(Drop)]
pub struct Book<
    P: Plan,
    L: Ledgers,
    A: Allocator = Global,
    W: Voucher = AnyReport,
    T: Reports<A> = PieceReport<A>,
> {
    locked_posts: LockedPosts<P, L, A, W, T>,
    spares: Spares<L>,
    given: u64,
}

impl<P: Plan, L: Ledgers, A: Allocator, W: Voucher, T: Reports<A>> Model for Book<P, L, A, W, T> {
    ghost Value = { ℕ };

    ghost view = { λ s. s.given };

    ghost invariant = { λ s. s.spares + s.given ≡ 4096 };
}

impl<P: Plan, L: Ledgers, A: Allocator, W: Voucher, T: Reports<A>> Book<P, L, A, W, T> {
    /// Returns a book without posts, over four ledgers of 4,096 parts, one for each share, with a witness that will
    /// vouch for the posts. Needs no memory.
    pub fn new(alloc: A, blanks: Blanks, witness: W) -> Book<P, L, A, W, T>
    where
        A: Copy,
        requires names { blanks ≡ L.names }
        ensures fresh { result ≡ 0 }
    {
        let (sums, spares) = Sums::<L>::open(blanks);
        let empty = Posts {
            witness,
            posts: Vec::new(alloc),
            ids: KnownIds::new(alloc),
            sums,
            plan: PhantomData,
        };
        Book {
            locked_posts: LockedPosts {
                locked: Mutex::new(empty),
            },
            spares,
            given: 0,
        }
    }

    /// Returns a share without posts, its totals 0.
    pub fn share(&mut self) -> Share<L>
        requires room { self.old < 4096 }
        ensures given { self.new ≡ self.old + 1 }
        ensures nothing { result ≡ record { posts = 0; findings = 0; octets = 0; segments = 0 } }
    {
        self.given += 1;
        self.spares.share()
    }

    /// Returns the part that threads share.
    pub fn locked_posts(&self) -> &LockedPosts<P, L, A, W, T> {
        &self.locked_posts
    }

    /// Returns the totals, the posts, and the witness that vouches for their reports, once every share is back. Each
    /// total is the sum over the shares.
    pub fn gather(self, shares: Vec<Share<L>, A>) -> (Totals, Vec<T, A>, W)
        requires all { vec_len shares ≡ self }
        ensures shares { result.0 ≡ sum_of shares.items }
        ensures reports { AreOf P.pieces (flat_map T.reports result.1.items) }
        ensures vouched { All (W.vouches result.2) (flat_map T.reports result.1.items) }
        ensures totals { result.0 ≡ totals_of (flat_map T.reports result.1.items) }
    {
        let Book {
            locked_posts,
            spares,
            given: _,
        } = self;
        let mut all = spares.into_returned();
        for share in shares {
            all.add(share);
        }
        let LockedPosts { locked } = locked_posts;
        locked.into_inner().gathered(all)
    }
}

impl<P: Plan, L: Ledgers, A: Allocator, W: Voucher, T: Reports<A>> LockedPosts<P, L, A, W, T> {
    /// Adds a post, for whose reports a witness vouches, to the posts and to the share. Fails where an id of its
    /// reports is among the posts, or when memory is refused; then it returns the post, and the share is as it was.
    pub fn post<R: Wait>(
        &self,
        rt: &R,
        post: T,
        share: &mut Share<L>,
        witness: W,
    ) -> Result<(), (T, Fault)>
    where
        A: Clone,
        requires values { All (IsValue P.pieces) (T.reports post) }
        requires vouched { All (W.vouches witness) (T.reports post) }
        ensures share { OnOk result (share.new ≡ with_reports share.old (T.reports post)) }
        ensures refused { IfErr result (λ e. (e.0 ≡ post) × (share.new ≡ share.old)) }
        ensures faults { IfErr result (λ e. IsPostFault e.1 (T.reports post)) }
    {
        self.locked.lock(rt).add(post, share, witness)
    }

    /// Returns the totals of some of the plan's pieces, each counted once. No number is below that of the share.
    pub fn look<R: Wait>(&self, rt: &R, share: &mut Share<L>) -> Totals
        ensures posts { (rs : List records.PieceReport) × AreOf P.pieces rs
            × (result ≡ totals_of rs) }
        ensures within { IsWithin share.old result }
        ensures unchanged { share.new ≡ share.old }
    {
        self.locked.lock(rt).seen_by(share)
    }
}
