//! What all workers made, gathered from the book and their shares.

ghost use Rattle.std.specs.Prelude.{◌≡◌, All, IfOk, IfErr, sum_by, vec_len};
ghost use Rattle.std.specs.List.{flat_map};
ghost use Rattle.workers.specs.Gathers.{IsWhole};
ghost use Rattle.line_model.specs.work.Book.{AreOf, totals_of, sum_of};

use crate::piece_witness::{PieceWitness, QueueName};
use line_model::fault::Fault;
use line_model::piece::{PieceReport, Plan};
use line_model::totals::Totals;
use report_merge::reports::{BundleReport, Reports};
use shared_work::findings::{Book, Ledgers, Share, Voucher};
use shared_work::queue::FeederPass;
use std::alloc::{Allocator, Global};

/// The totals of the book, those of each worker's share, and the reports of pieces or of bundles in the order in which
/// they were posted.
#[derive(Drop)]
pub struct Gathered<A: Allocator = Global, T = PieceReport<A>> {
    pub totals: Totals,
    pub shares: Vec<Totals, A>,
    pub reports: Vec<T, A>,
}

/// The totals of each share.
fn totals_of_each<L: Ledgers, A: Allocator + Copy>(
    alloc: A,
    shares: &[Share<L>],
) -> Result<Vec<Totals, A>, Fault>
    ensures same { IfOk result (λ v. v.items ≡ shares.now) }
    ensures refused { IfErr result (λ fault. fault ≡ Fault.Memory) }
{
    let mut all = Vec::new(alloc);
    for share in shares {
        all.push(share.totals())?;
    }
    Ok(all)
}

/// Returns what was posted, from all shares of the book, and the witness that vouches for it. Fails only when memory is
/// refused.
pub fn gather<P: Plan, L: Ledgers, A: Allocator + Copy, N: Voucher + Drop, T: Reports<A> + Drop>(
    alloc: A,
    book: Book<P, L, A, N, T>,
    shares: Vec<Share<L>, A>,
) -> Result<(Gathered<A, T>, N), Fault>
    requires all { vec_len shares ≡ book }
    ensures reports { IfOk result (λ g. AreOf P.pieces (flat_map T.reports g.0.reports.items)) }
    ensures vouched { IfOk result (λ g. All (N.vouches g.1) (flat_map T.reports g.0.reports.items)) }
    ensures totals { IfOk result (λ g. g.0.totals ≡ totals_of (flat_map T.reports g.0.reports.items)) }
    ensures sums { IfOk result (λ g. g.0.totals ≡ sum_of g.0.shares.items) }
    ensures each { IfOk result (λ g. g.0.shares.items ≡ shares.items) }
    ensures refused { IfErr result (λ fault. fault ≡ Fault.Memory) }
{
    let each = totals_of_each(alloc, shares.as_slice())?;
    let (totals, reports, witness) = book.gather(shares);
    let gathered = Gathered {
        totals,
        shares: each,
        reports,
    };
    Ok((gathered, witness))
}

/// Returns what was posted, where all pieces that were fed have their reports. Fails only when memory is refused.
pub fn gather_all<'w, P: Plan, L: Ledgers + QueueName, A: Allocator + Copy>(
    alloc: A,
    book: Book<P, L, A, PieceWitness<'w, P, L, A>, BundleReport<A>>,
    pass: FeederPass<A>,
    shares: Vec<Share<L>, A>,
) -> Result<Gathered<A, BundleReport<A>>, Fault>
    requires queue { pass.queue ≡ L.queue }
    requires all { vec_len shares ≡ book }
    requires posted { sum_by (λ s. s.posts) shares.items ≡ pass.record_of.fed }
    ensures whole { IfOk result (IsWhole P.pieces L.ran (vec_len shares) pass.pieces) }
    ensures refused { IfErr result (λ fault. fault ≡ Fault.Memory) }
{
    let (gathered, witness) = gather(alloc, book, shares)?;
    witness.confirm(pass);
    Ok(gathered)
}
