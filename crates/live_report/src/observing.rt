//! A chunk of a trace, row by row.

ghost use Rattle.std.specs.Prelude.{◌≡◌, ℕ, List, ◌+◌, ◌≤◌, ◌^◌, ◌++◌, ◌∷◌, [], length, true, IfErr, MatchOption, OnOk};
ghost use Rattle.line_model.specs.text.Text.{early, early_rows};
ghost use Rattle.line_model.specs.declared.fault.Fault.TheVariants.{Memory};
ghost use Rattle.trace_text.specs.Progress.{bytes_fed};
ghost use Rattle.trace_text.specs.Represents.{IsFaultOf, IsTextFault};
ghost use Rattle.live_report.specs.Found.{IsFoundBy, found_at};
ghost use Rattle.live_report.specs.Lives.{AtFirst, IsLastRow, ObservesSome, OfFirst, OfObserved, Observes};
ghost use Rattle.line_model.specs.declared.interface.Interface.{Interface as AnyInterface};
ghost use Rattle.line_model.specs.packets.Says.{item_read};
ghost use Rattle.live_report.specs.Observing.{HasWalked, LeavesOutWith, MayWalk, ReturnsReportWith, last_item};

use crate::observer::Observer;
use crate::read_rows::ReadRows;
use crate::uncounted::Uncounted;
use channel_run::run::Channel;
use line_model::fault::Fault;
use line_model::finding::Finding;
use line_model::interface::Interface;
use line_model::report::Report;
use line_model::row::ReadRow;
use restart_epochs::walk::append_finding;
use std::alloc::Allocator;
use trace_text::lines::Lines;

/// Has an observer read the rows of a chunk, and appends what they find. Fails with the first line that is faulty
/// however the text goes on, or when memory is refused.
#[inline(always)]
pub fn observe_chunk<A: Allocator + Copy, C: Channel<A>>(
    chunk: &[u8],
    lines: &mut Lines<A>,
    rows: &mut ReadRows<A>,
    observer: &mut Observer<A, C>,
    found: &mut Vec<Finding, A>,
) -> Result<(), Fault>
    requires { ObservesSome C.Channel lines.old observer.old }
    ensures observes { OfObserved C.Channel lines.old observer.old (λ i text.
        OnOk result (Observes C.Channel i (text ++ chunk.now) lines.new observer.new)) }
    ensures refused { OfObserved C.Channel lines.old observer.old (λ i text.
        IfErr result (IsFaultOf (early (text ++ chunk.now)))) }
    ensures found { OfObserved C.Channel lines.old observer.old (λ i text.
        IsFoundBy result found.old.items found.new.items
        (found_at i text) (found_at i (text ++ chunk.now))) }
    ensures last { OfObserved C.Channel lines.old observer.old (λ i text.
        observer.old.keeps_rows ≡ true → IsLastRow (early_rows text) rows.old.last
        → OnOk result (IsLastRow (early_rows (text ++ chunk.now)) rows.new.last)) }
    ensures few { length found.new.items ≤ length found.old.items + length chunk.now }
    ensures keeps { OnOk result (observer.new.keeps_rows ≡ observer.old.keeps_rows) }
    ensures size { OnOk result (bytes_fed lines.new ≡ bytes_fed lines.old + length chunk.now) }
    ensures limit { OnOk result (bytes_fed lines.new ≤ 2 ^ 30) }
    ensures kinds { IfErr result IsTextFault }
{
    let mut rest = chunk;
    while !rest.is_empty() {
        let Some(after) = lines.next_row(rest, &mut rows.next)? else {
            return Ok(());
        };
        append_finding(found, observer.take(&rows.next)?)?;
        rows.keep_next(observer.keeps_rows);
        rest = after;
    }
    Ok(())
}

/// Has an observer before the first row read that row, which was read, and then the rows of the rest of the chunk, as
/// `observe_chunk` does.
pub fn observe_first<A: Allocator + Copy, C: Channel<A>>(
    rest: &[u8],
    lines: &mut Lines<A>,
    rows: &mut ReadRows<A>,
    observer: &mut Observer<A, C>,
    found: &mut Vec<Finding, A>,
) -> Result<(), Fault>
    requires { (i : AnyInterface) × (text : List ℕ) × AtFirst C.Channel i text lines.old rows.old.next observer.old }
    ensures observes { OfFirst C.Channel lines.old rows.old.next observer.old (λ i text.
        OnOk result (Observes C.Channel i (text ++ rest.now) lines.new observer.new)) }
    ensures refused { OfFirst C.Channel lines.old rows.old.next observer.old (λ i text.
        IfErr result (IsFaultOf (early (text ++ rest.now)))) }
    ensures found { OfFirst C.Channel lines.old rows.old.next observer.old (λ i text.
        IsFoundBy result found.old.items found.new.items [] (found_at i (text ++ rest.now))) }
    ensures last { OfFirst C.Channel lines.old rows.old.next observer.old (λ i text.
        observer.old.keeps_rows ≡ true → OnOk result (IsLastRow (early_rows (text ++ rest.now)) rows.new.last)) }
    ensures few { length found.new.items ≤ length found.old.items + 1 + length rest.now }
    ensures keeps { OnOk result (observer.new.keeps_rows ≡ observer.old.keeps_rows) }
    ensures size { OnOk result (bytes_fed lines.new ≡ bytes_fed lines.old + length rest.now) }
    ensures limit { OnOk result (bytes_fed lines.new ≤ 2 ^ 30) }
    ensures kinds { IfErr result IsTextFault }
{
    append_finding(found, observer.take(&rows.next)?)?;
    rows.keep_next(observer.keeps_rows);
    observe_chunk(rest, lines, rows, observer, found)
}

/// Returns an observer of some rows, or where there is none, one of an interface before its first row.
pub fn or_begun<A: Allocator + Copy, C: Channel<A>>(
    observer: Option<Observer<A, C>>,
    alloc: A,
    interface: &Interface,
) -> Observer<A, C>
    ensures { MatchOption observer (HasWalked C.Channel interface.now [] result) (λ o. result ≡ o) }
{
    match observer {
        Some(observer) => observer,
        None => Observer::new(alloc, interface, false),
    }
}

/// Returns the report of an observer, which first reads the row of a last line that no LF ended, if there is one; and
/// the data that was not counted.
pub fn finish_observing<A: Allocator + Copy, C: Channel<A>>(
    observer: Observer<A, C>,
    has_row: bool,
    row: &ReadRow<A>,
    uncounted: &mut Uncounted,
) -> Result<Report<A>, Fault>
    requires room { MayWalk C.Channel observer (λ i. last_item i has_row row.now) }
    ensures report { ReturnsReportWith C.Channel observer (λ i. last_item i has_row row.now) result }
    ensures uncounted { LeavesOutWith C.Channel observer (λ i. last_item i has_row row.now) uncounted.new result }
    ensures memory { IfErr result (λ fault. fault ≡ Memory) }
{
    if has_row {
        return observe_last(observer, row, uncounted);
    }
    *uncounted = observer.uncounted();
    observer.end()
}

/// The report of an observer after one more row, and the data that was not counted.
fn observe_last<A: Allocator + Copy, C: Channel<A>>(
    mut observer: Observer<A, C>,
    row: &ReadRow<A>,
    uncounted: &mut Uncounted,
) -> Result<Report<A>, Fault>
    requires room { MayWalk C.Channel observer (λ i. item_read i row.now ∷ []) }
    ensures report { ReturnsReportWith C.Channel observer (λ i. item_read i row.now ∷ []) result }
    ensures uncounted { LeavesOutWith C.Channel observer (λ i. item_read i row.now ∷ []) uncounted.new result }
    ensures memory { IfErr result (λ fault. fault ≡ Memory) }
{
    if let Err(fault) = observer.take(row) {
        drop(observer);
        return Err(fault);
    }
    *uncounted = observer.uncounted();
    observer.end()
}
