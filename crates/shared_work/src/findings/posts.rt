//! What the lock guards.
ghost use Rattle.std.specs.Prelude.{◌≡◌, ◌++◌, All, OnOk, IfErr};
ghost use Rattle.std.specs.List.{flat_map};
ghost use Rattle.line_model.specs.work.Book.{IsValue, totals_of, AreOf, IsWithin};
ghost use Rattle.shared_work.specs.findings.Sums.{with_reports, IsPostRefusal};

use crate::findings::known_ids::KnownIds;
use crate::findings::ledgers::Ledgers;
use crate::findings::room::make_room;
use crate::findings::share::Share;
use crate::findings::spares::Returned;
use crate::findings::sums::Sums;
use crate::findings::voucher::{AnyReport, Voucher};
use line_model::fault::Fault;
use line_model::piece::{PieceReport, Plan};
use line_model::totals::Totals;
use report_merge::reports::Reports;
use std::alloc::{Allocator, Global};
use std::marker::{Model, PhantomData};

/// The posts, each the report of a piece or of a bundle, with their ids and their sums. Contracts see the reports of
/// the pieces in order.
#[derive(Drop)]
pub struct Posts<
    P: Plan,
    L: Ledgers,
    A: Allocator = Global,
    W: Voucher = AnyReport,
    T: Reports<A> = PieceReport<A>,
> {
    pub(crate) witness: W,
    pub(crate) posts: Vec<T, A>,
    pub(crate) ids: KnownIds<A>,
    pub(crate) sums: Sums<L>,
    pub(crate) plan: PhantomData<P>,
}

impl<P: Plan, L: Ledgers, A: Allocator, W: Voucher, T: Reports<A>> Model for Posts<P, L, A, W, T> {
    ghost use Rattle.std.specs.Prelude.{List, All};
    ghost use Rattle.std.specs.List.{flat_map};
    ghost use Rattle.line_model.specs.basics.Records as records;
    ghost use Rattle.shared_work.specs.findings.Sums.{IsBook};

    ghost Value = { List records.PieceReport };

    ghost view = { λ s. flat_map T.reports s.posts.items };

    ghost invariant = { λ s. IsBook P.pieces (flat_map T.reports s.posts.items) s.ids s.sums × All (W.vouches s.witness) (flat_map T.reports s.posts.items) };
}

impl<P: Plan, L: Ledgers, A: Allocator, W: Voucher, T: Reports<A>> Posts<P, L, A, W, T> {
    /// Appends a post for whose reports a witness vouches, and adds its numbers to the sums and to the share. Fails
    /// where an id of its reports is among the posts, or when memory is refused; then it returns the post, and no
    /// number has changed.
    pub fn add(&mut self, post: T, share: &mut Share<L>, witness: W) -> Result<(), (T, Fault)>
    where
        A: Clone,
        requires values { All (IsValue P.pieces) (T.reports post) }
        requires vouched { All (W.vouches witness) (T.reports post) }
        ensures added { OnOk result (self.new ≡ self.old ++ T.reports post) }
        ensures share { OnOk result (share.new ≡ with_reports share.old (T.reports post)) }
        ensures refused { IfErr result (λ e. (e.0 ≡ post) × (self.new ≡ self.old)
            × (share.new ≡ share.old)) }
        ensures faults { IfErr result (λ e. IsPostRefusal e.1 self.old (T.reports post)) }
    {
        self.witness.learn(witness);
        if let Err(fault) = make_room(&mut self.posts, &mut self.ids, post.ids()) {
            return Err((post, fault));
        }
        self.sums.add(share, post.totals());
        self.posts.push_reserved(post);
        Ok(())
    }

    /// Returns the sums of the posts.
    pub fn totals(&self) -> Totals
        ensures { result ≡ totals_of self.now }
    {
        self.sums.totals()
    }

    /// Ensures that no number of the share is above that of the posts.
    pub(crate) fn audit(&mut self, share: &mut Share<L>)
        ensures same { (self.new ≡ self.old) × (share.new ≡ share.old) }
        ensures posts { AreOf P.pieces self.old }
        ensures within { IsWithin share.old (totals_of self.old) }
    {
        self.sums.audit(share);
    }

    /// Returns the sums of the posts to the owner of a share. No number is below that of the share.
    pub(crate) fn seen_by(&mut self, share: &mut Share<L>) -> Totals
        ensures same { (self.new ≡ self.old) × (share.new ≡ share.old) }
        ensures posts { AreOf P.pieces self.old }
        ensures totals { result ≡ totals_of self.old }
        ensures within { IsWithin share.old result }
    {
        self.audit(share);
        self.totals()
    }

    /// Returns the totals, the posts, and the witness that vouches for them, given the parts of all shares. Each total
    /// is the sum over the shares.
    pub(crate) fn gathered(self, all: Returned<L>) -> (Totals, Vec<T, A>, W)
        requires all { all.parts ≡ 4096 }
        ensures shares { result.0 ≡ all.sums }
        ensures reports { flat_map T.reports result.1.items ≡ self }
        ensures posts { AreOf P.pieces (flat_map T.reports result.1.items) }
        ensures vouched { All (W.vouches result.2) (flat_map T.reports result.1.items) }
        ensures totals { result.0 ≡ totals_of (flat_map T.reports result.1.items) }
    {
        let Posts {
            witness,
            posts,
            ids: _,
            mut sums,
            plan: _,
        } = self;
        sums.settle(all);
        let totals = sums.totals();
        (totals, posts, witness)
    }
}
