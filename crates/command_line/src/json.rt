//! The scan whose report is printed as JSON lines.

ghost use Rattle.std.specs.Prelude.{◌≡◌, ℕ, ◌<◌, ◌≤◌, ◌+◌, ◌^◌, [], IfErr, IfOk, List, OnErr, Some, flat_map, true};
ghost use Rattle.descriptions.specs.Circuits.{Circuit};
ghost use Rattle.descriptions.specs.RowObjects.{circuit_object};
ghost use Rattle.line_model.specs.basics.Written.{TakesAll, TakesFront};
ghost use Rattle.command_line.specs.Program.{IsReportStatus, IsReportStatusWith, IsScannedAsJson, RefusesLine, is_followed, lag_of, status_of};
ghost use Rattle.command_line.specs.Stopped.{IsCause, has_workers};

use crate::asked::ScanMode;
use crate::circuits::print_circuits;
use crate::program::{Host, run_scan};
use json_lines::sink::JsonSink;
use line_model::fault::Fault;
use line_model::lending::{Borrowed, Origin, take_back};
use line_model::totals::Summary;
use live_report::uncounted::Uncounted;
use std::marker::Brand;
use std::sync::Wait;
use std::thread::Threads;
use std::time::Clock;
use streams::input::Input;
use streams::output::Output;

/// As `scan_json`, to the sink of an origin.
fn scan_to<'a, S: Input, K: Output, R: Threads + Wait + Clock + Sync, B: Origin>(
    host: Host<'_, R>,
    mode: ScanMode,
    source: &mut S,
    sink: &'a mut K,
    uncounted: &mut Uncounted,
) -> (&'a mut K, Result<Summary, Fault>)
    requires name { sink.ghost_name ≡ B.name }
    requires before { (K.taken sink.now, K.failures sink.now) ≡ B.before }
    ensures name { result.0.ghost_name ≡ B.name }
    ensures shown { (text : List ℕ) → S.left source.old ≡ Some text
        → IsScannedAsJson [] (lag_of mode) (is_followed mode) text (S.left source.new) (S.before source.new) B.before.0
        (K.taken result.0.now) (K.failures result.0.now ≡ B.before.1) (status_of result.1) }
    ensures reported { IsReportStatusWith true [] B.before.0 (K.taken result.0.now) (status_of result.1) }
    ensures rising { B.before.1 ≤ K.failures result.0.now }
    ensures refused { (text : List ℕ) → S.left source.old ≡ Some text
        → IfErr result.1 (RefusesLine (lag_of mode) text (S.left source.new) (S.before source.new)) }
    ensures cause { IfErr result.1 (IsCause (S.failures source.old < S.failures source.new)
        (B.before.1 < K.failures result.0.now)
        ((has_workers mode ≡ true) × (S.calls source.new ≡ S.calls source.old))) }
    ensures asked { S.calls source.new ≤ S.calls source.old + (2 ^ 30 + 1) }
{
    let mut json = JsonSink::new(Borrowed::<K, B>::new(sink));
    let scanned = run_scan(host, mode, source, &mut json, uncounted);
    let (lent, answer) = json.finish();
    match answer {
        Ok(()) => (lent.give_back(), scanned),
        Err(fault) => (lent.give_back(), Err(fault)),
    }
}

/// Scans a trace in a mode, and prints each line of the report as an object. Where the sink failed, its fault is returned in
/// place of another.
fn scan_lines<S: Input, K: Output, R: Threads + Wait + Clock + Sync>(
    host: Host<'_, R>,
    mode: ScanMode,
    source: &mut S,
    sink: &mut K,
    uncounted: &mut Uncounted,
) -> Result<Summary, Fault>
    ensures shown { (text : List ℕ) → S.left source.old ≡ Some text
        → IsScannedAsJson [] (lag_of mode) (is_followed mode) text (S.left source.new) (S.before source.new) (K.taken sink.old)
        (K.taken sink.new) (K.failures sink.new ≡ K.failures sink.old) (status_of result) }
    ensures reported { IsReportStatusWith true [] (K.taken sink.old) (K.taken sink.new) (status_of result) }
    ensures rising { K.failures sink.old ≤ K.failures sink.new }
    ensures refused { (text : List ℕ) → S.left source.old ≡ Some text
        → IfErr result (RefusesLine (lag_of mode) text (S.left source.new) (S.before source.new)) }
    ensures cause { IfErr result (IsCause (S.failures source.old < S.failures source.new)
        (K.failures sink.old < K.failures sink.new)
        ((has_workers mode ≡ true) × (S.calls source.new ≡ S.calls source.old))) }
    ensures asked { S.calls source.new ≤ S.calls source.old + (2 ^ 30 + 1) }
{
    let (sink, scanned) = scan_to::<S, K, R, Brand>(host, mode, source, sink, uncounted);
    take_back(sink);
    scanned
}

/// Prints the objects of the circuits of a trace behind those of its report. Fails where the sink fails.
fn add_circuits<S: Input, K: Output>(
    source: &S,
    sink: &mut K,
    summary: Summary,
) -> Result<Summary, Fault>
    ensures added { IfOk result (λ sums. (sums ≡ summary) × ((circuits : List Circuit) × TakesAll K.Sink sink.old sink.new (flat_map circuit_object circuits))) }
    ensures part { OnErr result ((circuits : List Circuit) × TakesFront K.Sink sink.old sink.new (flat_map circuit_object circuits)) }
    ensures cause { OnErr result (K.failures sink.old < K.failures sink.new) }
    ensures write { IfErr result (λ fault. fault ≡ Fault.Write) }
{
    match print_circuits(source.circuits(), sink) {
        Ok(()) => Ok(summary),
        Err(fault) => Err(fault),
    }
}

/// Scans a trace in a mode, and prints each line of the report as an object, and behind them one for each of its circuits.
/// Where the sink failed, its fault is returned in place of another.
pub(crate) fn scan_json<S: Input, K: Output, R: Threads + Wait + Clock + Sync>(
    host: Host<'_, R>,
    mode: ScanMode,
    source: &mut S,
    sink: &mut K,
    uncounted: &mut Uncounted,
) -> Result<Summary, Fault>
    ensures shown { (text : List ℕ) → S.left source.old ≡ Some text
        → (circuits : List Circuit) × IsScannedAsJson circuits (lag_of mode) (is_followed mode) text (S.left source.new) (S.before source.new) (K.taken sink.old)
        (K.taken sink.new) (K.failures sink.new ≡ K.failures sink.old) (status_of result) }
    ensures reported { IsReportStatus true (K.taken sink.old) (K.taken sink.new) (status_of result) }
    ensures refused { (text : List ℕ) → S.left source.old ≡ Some text
        → IfErr result (RefusesLine (lag_of mode) text (S.left source.new) (S.before source.new)) }
    ensures cause { IfErr result (IsCause (S.failures source.old < S.failures source.new)
        (K.failures sink.old < K.failures sink.new)
        ((has_workers mode ≡ true) × (S.calls source.new ≡ S.calls source.old))) }
    ensures asked { S.calls source.new ≤ S.calls source.old + (2 ^ 30 + 1) }
{
    match scan_lines(host, mode, source, sink, uncounted) {
        Ok(summary) => add_circuits(source, sink, summary),
        Err(fault) => Err(fault),
    }
}
