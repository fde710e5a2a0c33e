//! Writes what comes after the last line of the trace text.

ghost use Rattle.std.specs.Prelude.{◌≡◌, ◌<◌, IfErr, IfOk, OnErr, OnOk};
ghost use Rattle.line_model.specs.basics.Device.{with_more};
ghost use Rattle.annotated_trace.specs.Printed.{HasTaken, HasTakenFirst, StopsClosing};
ghost use Rattle.annotated_trace.specs.Printers.{OfClosing};

use crate::holding::send_held;
use crate::printer::Printer;
use line_model::device::Sink;
use line_model::fault::Fault;
use line_model::lending::{Borrowed, Origin, take_back};
use line_model::report::Report;
use line_model::totals::Summary;
use std::alloc::Allocator;
use std::marker::Brand;
use trace_text::trace_observer::TraceObserver;

/// As `write_closing`, to the sink of an origin.
fn write_to<'a, A: Allocator, O: TraceObserver<A>, P: Printer<A, O>, K: Sink, B: Origin>(
    report: &Report<A>,
    printer: &mut P,
    sink: &'a mut K,
) -> (&'a mut K, Result<(), Fault>)
    requires name { sink.ghost_name ≡ B.name }
    requires before { (K.taken sink.now, K.failures sink.now) ≡ B.before }
    ensures name { result.0.ghost_name ≡ B.name }
    ensures ok { OfClosing P.Printer printer.old report.now (λ form.
        OnOk result.1 (HasTaken form B.before.0 (K.taken result.0.now))) }
    ensures part { OfClosing P.Printer printer.old report.now (λ form.
        OnErr result.1 (HasTakenFirst form B.before.0 (K.taken result.0.now))) }
    ensures cause { OnErr result.1 (B.before.1 < K.failures result.0.now) }
    ensures write { IfErr result.1 (λ fault. fault ≡ Fault.Write) }
{
    let (lent, answer) = printer.close(report, Borrowed::<K, B>::new(sink));
    (lent.give_back(), answer)
}

/// Writes to a sink what comes after the last line of a text. Fails where the sink fails, which accepted a first part.
fn write_closing<A: Allocator, O: TraceObserver<A>, P: Printer<A, O>, K: Sink>(
    report: &Report<A>,
    printer: &mut P,
    sink: &mut K,
) -> Result<(), Fault>
    ensures ok { OfClosing P.Printer printer.old report.now (λ form.
        OnOk result (HasTaken form (K.taken sink.old) (K.taken sink.new))) }
    ensures part { OfClosing P.Printer printer.old report.now (λ form.
        OnErr result (HasTakenFirst form (K.taken sink.old) (K.taken sink.new))) }
    ensures cause { OnErr result (K.failures sink.old < K.failures sink.new) }
    ensures write { IfErr result (λ fault. fault ≡ Fault.Write) }
{
    let (sink, answer) = write_to::<A, O, P, K, Brand>(report, printer, sink);
    take_back(sink);
    answer
}

/// Writes to a sink what is held, and what comes after the last line of a text; returns the last line of the report
/// as numbers. Fails where the sink fails, which accepted a first part of them.
pub fn send_closing<A: Allocator, O: TraceObserver<A>, P: Printer<A, O>, K: Sink>(
    report: &Report<A>,
    printer: &mut P,
    held: &mut Vec<u8, A>,
    sink: &mut K,
) -> Result<Summary, Fault>
    ensures ok { OfClosing P.Printer printer.old report.now (λ form. OnOk result (HasTaken form
        (with_more (K.taken sink.old) held.old.items) (K.taken sink.new))) }
    ensures sums { IfOk result (λ sums. sums ≡ report.now.summary) }
    ensures part { OfClosing P.Printer printer.old report.now (λ form.
        OnErr result (StopsClosing form held.old.items (K.taken sink.old) (K.taken sink.new))) }
    ensures cause { OnErr result (K.failures sink.old < K.failures sink.new) }
    ensures write { IfErr result (λ fault. fault ≡ Fault.Write) }
{
    send_held(held, sink)?;
    write_closing(report, printer, sink)?;
    Ok(report.summary)
}
