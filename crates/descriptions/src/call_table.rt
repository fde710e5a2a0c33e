//! The table of calls: CSV with a heading, or an object for each call.

ghost use Rattle.std.specs.Prelude.{◌≡◌, ◌<◌, ◌≤◌, ◌++◌, ◌∷◌, [], IfErr, OnErr, OnOk, min};
ghost use Rattle.annotated_trace.specs.Printed.{HasTaken, HasTakenFirst};
ghost use Rattle.descriptions.specs.CallSums.{KeepsSums, sum_at};
ghost use Rattle.descriptions.specs.CallTable.{HasPutEntries, IsCallTable, host_said};
ghost use Rattle.descriptions.specs.Circuits.{AddsHosts, circuit_of, host_where, kept_host};
ghost use Rattle.line_model.specs.declared.state.Side.TheVariants.{T, N};
ghost use Rattle.line_model.specs.text.Text.{Line};
ghost use Rattle.descriptions.specs.RowObjects.{OfLastRow};
ghost use Rattle.descriptions.specs.Writing.{Adds, These};

use crate::call_columns::{Further, Named, TableForm};
use crate::call_sums::CallSums;
use crate::causes::{CauseTable, named_diagnostic};
use crate::chosen::Chosen;
use crate::circuits::Circuits;
use crate::closing_objects::{Rest, call_length};
use crate::json::{Json, Out};
use crate::row_objects::PastRows;
use crate::sending::Sending;
use crate::table_lines::{Listed, heading, put_entry};
use crate::times::Recorded;
use annotated_trace::printer::Printer;
use annotated_trace::rows::Rows;
use channel_run::run::Channel;
use line_model::call::CallRecord;
use line_model::fault::Fault;
use line_model::lending::LentSink;
use line_model::report::Report;
use line_model::state::Side;
use live_report::live::Live;
use std::alloc::{AllocError, Allocator};
use std::marker::PhantomData;

/// The form of a table, by its type.
pub trait TableKind {
    ghost use Rattle.descriptions.specs.declared.call_columns.TableForm.{TableForm as AnyForm};

    ghost form: { AnyForm };

    /// Returns the form.
    fn form() -> TableForm
        ensures { result ≡ form };
}

/// CSV with a heading (RFC 4180).
#[derive(Drop)]
pub struct Csv;

/// An object for each call.
#[derive(Drop)]
pub struct Objects;

impl TableKind for Csv {
    ghost use Rattle.descriptions.specs.declared.call_columns.TableForm.TheVariants as variants;

    ghost form = { variants.Csv };

    fn form() -> TableForm {
        TableForm::Csv
    }
}

impl TableKind for Objects {
    ghost use Rattle.descriptions.specs.declared.call_columns.TableForm.TheVariants as variants;

    ghost form = { variants.Objects };

    fn form() -> TableForm {
        TableForm::Objects
    }
}

/// Prints the table of calls after the last line, and nothing for the lines.
#[derive(Drop)]
pub struct CallTable<A: Allocator, K> {
    alloc: A,
    chosen: Chosen,
    past: PastRows<A>,
    /// The findings of each call.
    findings: CallSums<A>,
    /// The segments of its DTE's data.
    segments_t: CallSums<A>,
    kind: PhantomData<K>,
}

impl<A: Allocator + Copy, K: TableKind> CallTable<A, K> {
    /// Returns the printer before the first line. Allocates no memory.
    pub fn new(alloc: A) -> Self {
        CallTable {
            alloc,
            chosen: Chosen::new(Rows::All),
            past: PastRows::new(alloc),
            findings: CallSums::new(alloc),
            segments_t: CallSums::new(alloc),
            kind: PhantomData,
        }
    }

    /// Records the last row of a trace.
    fn take_row<C: Channel<A>>(
        &mut self,
        trace: &Live<A, C>,
        line: &[u8],
        out: &mut Vec<u8, A>,
    ) -> Result<(), AllocError>
        ensures kept { OfLastRow C.Channel trace.now line.now (λ i earlier r.
            KeepsSums i earlier self.old → OnOk result (KeepsSums i (earlier ++ r ∷ []) self.new)) }
        ensures chosen { self.new.chosen ≡ self.old.chosen }
        ensures circuits { self.new.past.circuits ≡ self.old.past.circuits }
        ensures unwritten { out.new.items ≡ out.old.items }
    {
        self.past.append_row(trace, line, false, out)?;
        let added = self.past.added;
        self.findings.add(added.call, added.findings)?;
        self.segments_t.add(added.call, added.segments_t)
    }

    /// Reads a line that writes no row.
    fn take_comment(&mut self, line: &[u8]) -> Result<(), AllocError>
        ensures hosts { (l : Line) → line.now ≡ l ++ 10 ∷ [] → OnOk result
            (AddsHosts (circuit_of l) self.old.past.circuits self.new.past.circuits) }
        ensures origins { self.new.past.origins ≡ self.old.past.origins }
        ensures findings { self.new.findings ≡ self.old.findings }
        ensures segments { self.new.segments_t ≡ self.old.segments_t }
        ensures chosen { self.new.chosen ≡ self.old.chosen }
    {
        let _ = self.past.take_comment(line)?;
        Ok(())
    }
}

/// What the entries of calls are made of.
#[derive(Drop)]
struct Sources<'a, A: Allocator> {
    rest: &'a Rest<A>,
    circuits: &'a Circuits<A>,
    findings: &'a CallSums<A>,
    segments_t: &'a CallSums<A>,
    calls: &'a [CallRecord<A>],
}

/// Returns what is known of a call apart from its record.
fn further<'a, A: Allocator + Copy>(
    sources: &Sources<'a, A>,
    number: usize,
    call: &CallRecord<A>,
) -> Further<'a>
    ensures findings { result.findings ≡ sum_at sources.now.findings.now number }
    ensures segments { result.segments_t ≡ min (sum_at sources.now.segments_t.now number) call.now.segments }
    ensures sides { result.segments_t ≤ call.now.segments }
    ensures dte { host_said result.dte_host
        ≡ host_where (kept_host sources.now.circuits.now) result.circuit T }
    ensures dce { host_said result.dce_host
        ≡ host_where (kept_host sources.now.circuits.now) result.circuit N }
{
    let known = Further {
        start: None,
        seconds: None,
        cause: None,
        diagnostic: None,
        segments_t: sources.segments_t.of_call(number).min(call.segments),
        findings: sources.findings.of_call(number),
        gaps: None,
        opened_frame: None,
        ended_frame: None,
        circuit: None,
        dte_host: None,
        dce_host: None,
    };
    match sources.rest.calls.get(u32::try_from(number).unwrap_or(0)) {
        Some(memory) => Further {
            start: memory.start.time,
            seconds: call_length(memory),
            cause: memory.causes.named_cause(CauseTable::Clearing),
            diagnostic: named_diagnostic(memory.causes.diagnostic),
            gaps: sources.rest.gaps_of(memory),
            opened_frame: memory.start.frame,
            ended_frame: memory.end.frame,
            circuit: memory.start.circuit,
            dte_host: sources.circuits.host_of(memory.start.circuit, Side::T),
            dce_host: sources.circuits.host_of(memory.start.circuit, Side::N),
            ..known
        },
        None => known,
    }
}

/// Writes the entries of calls.
fn put_entries<O: Out, A: Allocator + Copy>(
    json: &mut Json<O>,
    form: TableForm,
    sources: &Sources<'_, A>,
)
    ensures { HasPutEntries form (sum_at sources.now.findings.now) (sum_at sources.now.segments_t.now)
        (kept_host sources.now.circuits.now) sources.now.calls.now
        (λ bytes. Adds O.has (These bytes) json.old.out json.new.out) }
{
    let calls = sources.calls;
    for (index, record) in calls.iter().enumerate() {
        let number = index + 1;
        let call = Listed {
            number: number as u64,
            record,
            further: further(sources, number, record),
        };
        put_entry(json, form, &call);
    }
}

/// Writes the table of calls to a lent sink. Fails where the sink fails, which accepted a first part of it.
fn write_table<A: Allocator + Copy, S: LentSink>(
    form: TableForm,
    sources: &Sources<'_, A>,
    sink: S,
) -> (S, Result<(), Fault>)
    requires { (S.taken sink, S.failures sink) ≡ S.before }
    ensures ok { OnOk result.1 (HasTaken (IsCallTable form (sum_at sources.now.findings.now)
        (sum_at sources.now.segments_t.now) (kept_host sources.now.circuits.now)
        sources.now.calls.now) S.before.0 (S.taken result.0)) }
    ensures part { OnErr result.1 (HasTakenFirst (IsCallTable form (sum_at sources.now.findings.now)
        (sum_at sources.now.segments_t.now) (kept_host sources.now.circuits.now)
        sources.now.calls.now) S.before.0 (S.taken result.0)) }
    ensures cause { OnErr result.1 (S.before.1 < S.failures result.0) }
    ensures write { IfErr result.1 (λ fault. fault ≡ Fault.Write) }
{
    let mut json = Json {
        out: Sending::new(sink),
    };
    json.raw(heading(form));
    put_entries(&mut json, form, sources);
    json.out.finish()
}

impl<A: Allocator + Copy, C: Channel<A>, K: TableKind + Drop> Printer<A, Live<A, C>>
    for CallTable<A, K> {
    ghost use Rattle.std.specs.Prelude.{◌≡◌, []};
    ghost use Rattle.annotated_trace.specs.declared.rows.Rows.TheVariants.{All};
    ghost use Rattle.descriptions.specs.CallSums.{KeepsSums};
    ghost use Rattle.descriptions.specs.CallTable.{IsTableOf};
    ghost use Rattle.descriptions.specs.Circuits.{KeepsHosts};
    ghost use Rattle.descriptions.specs.Choosing.{HasChosen};
    ghost use Rattle.descriptions.specs.RowObjects.{OfRows};

    ghost printed = { λ p lines. HasChosen lines p.chosen × OfRows lines (λ i rs. KeepsSums i rs p)
        × KeepsHosts lines p.past.circuits };

    ghost rows = { λ p. All };

    ghost form = { λ rows before l bytes. bytes ≡ [] };

    ghost closing = { λ rows lines report bytes. IsTableOf K.form lines report.calls bytes };

    fn rows(&self) -> Rows {
        Rows::All
    }

    fn begin(&mut self) {
        self.chosen = Chosen::new(Rows::All);
        self.past = PastRows::new(self.alloc);
        self.findings = CallSums::new(self.alloc);
        self.segments_t = CallSums::new(self.alloc);
    }

    fn print(
        &mut self,
        trace: &Live<A, C>,
        line: &[u8],
        out: &mut Vec<u8, A>,
    ) -> Result<(), AllocError> {
        match self.chosen.judge_line(trace) {
            Some(_) => self.take_row(trace, line, out),
            None => self.take_comment(line),
        }
    }

    fn close<S: LentSink>(&mut self, report: &Report<A>, sink: S) -> (S, Result<(), Fault>) {
        let sources = Sources {
            rest: &self.past.rest,
            circuits: &self.past.circuits,
            findings: &self.findings,
            segments_t: &self.segments_t,
            calls: report.calls.as_slice(),
        };
        write_table(K::form(), &sources, sink)
    }
}
