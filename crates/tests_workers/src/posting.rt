//! Reports that two shares post to one book, in turn or from two threads.

ghost use Rattle.std.specs.Prelude.{◌≡◌, ◌≤◌, IfOk, vec_len};

use crate::host::Host;
use line_model::fault::Fault;
use line_model::finding::{Code, Finding};
use line_model::piece::PieceReport;
use line_model::state::{Side, StateName};
use line_model::totals::Totals;
use shared_work::findings::{AnyReport, Blanks, Book, Ledgers, LockedPosts, Share};
use std::alloc::{Allocator, Global};
use std::marker::Brand;
use std::process::Abort;
use std::sync::Wait;
use std::test::Fail;
use std::thread;
use std::thread::Threads;
use tests_devices::scarce::{Scarce, refuse_each};

/// A report of a piece: its id, and its numbers of findings (one or two), octets and segments.
type Post = (u32, u32, u16, u16);

/// What posts come to.
const fn totals(posts: u64, findings: u64, octets: u64, segments: u64) -> Totals {
    Totals {
        posts,
        findings,
        octets,
        segments,
    }
}

/// A data packet of the DTE came while the channel was ready.
const FINDING: Finding = Finding {
    packet: 1,
    side: Side::T,
    state: StateName::P1,
    code: Code::Number(20),
};

/// One finding or two.
fn findings<A: Allocator>(alloc: A, count: u32) -> Result<Vec<Finding, A>, Fault>
    ensures few { IfOk result (λ findings. vec_len findings ≤ 2) }
{
    Ok(match count {
        1 => vec![in alloc; FINDING]?,
        _ => vec![in alloc; FINDING, FINDING]?,
    })
}

/// The report of a piece without calls.
fn report<A: Allocator + Copy>(alloc: A, post: Post) -> Result<PieceReport<A>, Fault> {
    let (id, count, octets, segments) = post;
    Ok(PieceReport {
        id,
        epoch: 1,
        channel: 1,
        findings: findings(alloc, count)?,
        calls: Vec::new(alloc),
        octets: u64::from(octets),
        segments: u64::from(segments),
    })
}

/// The first two shares of a book.
fn two_shares<L: Ledgers, A: Allocator>(
    alloc: A,
    book: &mut Book<Brand, L, A>,
) -> Result<Vec<Share<L>, A>, Fault>
    requires fresh { book.old ≡ 0 }
    ensures all { IfOk result (λ shares. vec_len shares ≡ book.new) }
{
    Ok(vec![in alloc; book.share(), book.share()]?)
}

/// What the shares of a book do.
#[derive(Clone, Copy)]
enum Scenario {
    Twice,
    SideBySide,
}

/// Plays a scenario with a new book and two shares. The book has these totals then.
fn play_with<R: Host, L: Ledgers + Sync>(
    rt: &R,
    mut book: Book<Brand, L>,
    scenario: Scenario,
    wanted: Totals,
) -> Result<Vec<PieceReport>, Fail>
    requires fresh { book ≡ 0 }
{
    let mut shares = two_shares(rt.alloc(), &mut book)?;
    let played = match scenario {
        Scenario::Twice => post_twice(rt, rt.alloc(), book.locked_posts(), &mut shares),
        Scenario::SideBySide => post_side_by_side(rt, book.locked_posts(), &mut shares),
    };
    let (totals, reports, _) = book.gather(shares);
    assert!(rt; totals == wanted);
    played?;
    Ok(reports)
}

/// The same with a book over the ledgers of these blanks.
fn play_in<R: Host, L: Ledgers + Sync>(
    rt: &R,
    blanks: Blanks,
    scenario: Scenario,
    wanted: Totals,
) -> Result<Vec<PieceReport>, Fail>
    requires names { blanks ≡ L.names }
{
    let book = Book::<Brand, L>::new(rt.alloc(), blanks, AnyReport);
    play_with(rt, book, scenario, wanted)
}

/// The same with a book over four new ledgers.
fn play<R: Host>(rt: &R, scenario: Scenario, wanted: Totals) -> Result<Vec<PieceReport>, Fail> {
    play_in::<R, Brand>(rt, Blanks::new(), scenario, wanted)
}

/// Posts a report, and looks at the totals. Returns why the report comes back, if it does.
fn post<R: Wait, L: Ledgers>(
    rt: &R,
    alloc: Global,
    posts: &LockedPosts<Brand, L>,
    share: &mut Share<L>,
    post: Post,
) -> Result<Option<Fault>, Fault> {
    let report = report(alloc, post)?;
    let back = match posts.post(rt, report, share, AnyReport) {
        Ok(()) => None,
        Err((_, fault)) => Some(fault),
    };
    let _ = posts.look(rt, share);
    Ok(back)
}

/// A report is accepted, and one of its id comes back.
fn post_twice<R: Wait + Abort, L: Ledgers>(
    rt: &R,
    alloc: Global,
    posts: &LockedPosts<Brand, L>,
    shares: &mut [Share<L>],
) -> Result<(), Fail> {
    let [share, ..] = shares else {
        return Err("there is no share")?;
    };
    assert!(rt; post(rt, alloc, posts, share, (3, 1, 130, 2))?.is_none());
    assert!(rt; post(rt, alloc, posts, share, (3, 1, 7, 1))? == Some(Fault::Double(3)));
    assert!(rt; share.totals() == totals(1, 1, 130, 2));
    assert!(rt; posts.look(rt, share) == totals(1, 1, 130, 2));
    Ok(())
}

#[test]
fn a_report_that_comes_twice_is_given_back(rt: HostRuntime) -> Result<(), Fail> {
    let reports = play(&rt, Scenario::Twice, totals(1, 1, 130, 2))?;
    assert!(rt; matches!(reports.as_slice(), [one] if (one.id, one.octets) == (3, 130)));
    Ok(())
}

/// Posts a report by each share, from a thread of its own.
fn post_each<R: Threads + Wait + Sync, L: Ledgers + Sync>(
    rt: &R,
    alloc: Global,
    posts: &LockedPosts<Brand, L>,
    first: &mut Share<L>,
    second: &mut Share<L>,
) -> Result<(), Fault> {
    let (one, other) = thread::join(
        rt,
        move || post(rt, alloc, posts, first, (0, 2, 3, 1)),
        move || post(rt, alloc, posts, second, (1, 1, 0, 0)),
    );
    one?;
    other?;
    Ok(())
}

/// Each of two threads posts a report and looks, both look once more, and a report of an id that was posted comes back.
fn post_side_by_side<R: Host, L: Ledgers + Sync>(
    rt: &R,
    posts: &LockedPosts<Brand, L>,
    shares: &mut [Share<L>],
) -> Result<(), Fail> {
    let [first, second] = shares else {
        return Err("there are not two shares")?;
    };
    post_each(rt, rt.alloc(), posts, first, second)?;
    assert!(rt; first.totals() == totals(1, 2, 3, 1) && second.totals() == totals(1, 1, 0, 0));
    assert!(rt; posts.look(rt, first) == totals(2, 3, 3, 1));
    let double = post(rt, rt.alloc(), posts, second, (0, 1, 7, 1))?;
    assert!(rt; double == Some(Fault::Double(0)));
    assert!(rt; posts.look(rt, second) == totals(2, 3, 3, 1));
    Ok(())
}

#[test]
fn two_threads_post_and_look(rt: HostRuntime) -> Result<(), Fail> {
    let reports = play(&rt, Scenario::SideBySide, totals(2, 3, 3, 1))?;
    assert!(rt; reports.len() == 2);
    Ok(())
}

/// Posts forty reports, each with one growth refused after `good` others. A report that comes back is as it was, a look
/// by the same share is not below it, and the same post succeeds then. Returns whether there was such a growth.
fn post_refused<'a, R: Wait + Abort, L: Ledgers>(
    rt: &R,
    heap: &'a Scarce<Global>,
    posts: &LockedPosts<Brand, L, &'a Scarce<Global>>,
    shares: &mut [Share<L>],
    good: u64,
) -> Result<bool, Fail> {
    let [share, ..] = shares else {
        return Err("there is no share")?;
    };
    let mut refused = false;
    for id in 0..40 {
        let (before, report) = (share.totals(), report(heap, (id, 1, 130, 2))?);
        heap.refuse_one(good);
        let answer = posts.post(rt, report, share, AnyReport);
        assert!(rt; heap.was_refused() == answer.is_err());
        if let Err((back, fault)) = answer {
            refused = true;
            assert!(rt; fault == Fault::Memory && back.findings.as_slice() == [FINDING].as_slice());
            assert!(rt; (back.id, back.octets, back.segments) == (id, 130, 2));
            assert!(rt; share.totals() == before && posts.look(rt, share) == before);
            assert!(rt; posts.post(rt, back, share, AnyReport).is_ok());
        }
    }
    Ok(refused)
}

/// The same with a book over the ledgers of these blanks, which has each report once then.
fn check_in<R: Host, L: Ledgers>(
    rt: &R,
    heap: &Scarce<Global>,
    blanks: Blanks,
    good: u64,
) -> Result<bool, Fail>
    requires names { blanks ≡ L.names }
{
    let mut book = Book::<Brand, L, &Scarce<Global>>::new(heap, blanks, AnyReport);
    let mut shares = two_shares(heap, &mut book)?;
    let refused = post_refused(rt, heap, book.locked_posts(), &mut shares, good);
    let (all, reports, _) = book.gather(shares);
    assert!(rt; all == totals(40, 40, 5200, 80));
    assert!(rt; reports.iter().map(|report| report.id).eq(0..40));
    refused
}

/// The same with a book over four new ledgers.
fn check_growth<R: Host>(rt: &R, heap: &Scarce<Global>, good: u64) -> Result<bool, Fail> {
    check_in::<R, Brand>(rt, heap, Blanks::new(), good)
}

#[test]
fn a_post_out_of_memory_gives_its_report_back(rt: HostRuntime) -> Result<(), Fail> {
    let heap = Scarce::new(rt.alloc());
    refuse_each(&heap, |good| check_growth(&rt, &heap, good))
}
