//! The findings of a trace, a line for each.

ghost use Rattle.std.specs.Prelude.{◌≡◌, ◌<◌, ◌++◌, ◌∷◌, [], List, IfErr, OnErr, OnOk, false};
ghost use Rattle.line_model.specs.basics.Records.{Item};
ghost use Rattle.line_model.specs.declared.interface.Interface.{Interface};
ghost use Rattle.annotated_trace.specs.Printed.{HasAppended, HasTaken, HasTakenFirst};
ghost use Rattle.descriptions.specs.Facts.{AreFactsOf};
ghost use Rattle.descriptions.specs.FindingLines.{IsFindingLine, IsFindingSums, IsFindingWhere};
ghost use Rattle.descriptions.specs.Follows.{KeepsOrigins};
ghost use Rattle.descriptions.specs.RowObjects.{KeepsLast, OfLastRow};
ghost use Rattle.descriptions.specs.Writing.{Holds};

use crate::chosen::Chosen;
use crate::circuits::{Circuits, circuit_of_comment};
use crate::course::Course;
use crate::facts::RowFacts;
use crate::finding_sums::{FindingSums, put_finding_sums};
use crate::finding_words::{Place, put_finding};
use crate::json::{Growing, Json, Out};
use crate::origins::Origins;
use crate::sending::Sending;
use crate::times::{Recorded, Time};
use annotated_trace::printer::Printer;
use annotated_trace::rows::Rows;
use channel_run::run::Channel;
use line_model::fault::Fault;
use line_model::lending::LentSink;
use line_model::report::Report;
use live_report::live::Live;
use std::alloc::{AllocError, Allocator};

/// What is remembered of the rows before, and of the comments before the next one.
#[derive(Drop)]
struct PastFindings<A: Allocator> {
    origins: Origins<A>,
    course: Course<A>,
    /// The hosts of the circuits that comments named.
    circuits: Circuits<A>,
    /// What the findings add up to.
    sums: FindingSums<A>,
    /// When and where the next row was recorded.
    recorded: Option<Recorded>,
    /// When the first row with a time was.
    start: Option<Time>,
    /// Room for a line.
    line: Json<Growing<A>>,
}

/// Whether some rows are chosen.
fn is_choice(rows: Rows) -> bool {
    match rows {
        Rows::All => false,
        Rows::Chosen { .. } => true,
    }
}

/// The time of the first row that has one, after a further row.
fn first_time(first: Option<Time>, next: Option<Time>) -> Option<Time> {
    match first {
        Some(time) => Some(time),
        None => next,
    }
}

impl<A: Allocator + Copy> PastFindings<A> {
    /// Starts before the first row. Allocates no memory.
    fn new(alloc: A, rows: Rows) -> Self
        ensures { (i : Interface) → KeepsOrigins i [] result.origins }
    {
        PastFindings {
            origins: Origins::new(alloc),
            course: Course::new(alloc),
            circuits: Circuits::new(alloc),
            sums: FindingSums::new(alloc, is_choice(rows)),
            recorded: None,
            start: None,
            line: Json {
                out: Growing::new(alloc),
            },
        }
    }

    /// Reads a line that writes no row: a comment may say when and where the next one was recorded, or name a circuit.
    /// Fails only when memory is refused.
    fn take_comment(&mut self, line: &[u8]) -> Result<(), AllocError>
        ensures { self.new.origins ≡ self.old.origins }
    {
        if let Some(recorded) = Recorded::of_comment(line) {
            self.recorded = Some(recorded);
        }
        match circuit_of_comment(line) {
            Some(circuit) => self.circuits.add(&circuit),
            None => Ok(()),
        }
    }

    /// Reads the last row of a trace, and appends the line of its finding where the row is chosen.
    fn append_row<C: Channel<A>>(
        &mut self,
        trace: &Live<A, C>,
        line: &[u8],
        picked: bool,
        out: &mut Vec<u8, A>,
    ) -> Result<(), AllocError>
        ensures form { OfLastRow C.Channel trace.now line.now (λ i earlier r.
            KeepsOrigins i earlier self.old.origins → OnOk result
            (HasAppended (IsFindingWhere picked i earlier r) out.old.items out.new.items)) }
        ensures unpicked { picked ≡ false → out.new.items ≡ out.old.items }
        ensures kept { KeepsLast C.Channel trace.now line.now result self.old.origins self.new.origins }
    {
        let recorded = self.recorded.take().unwrap_or(Recorded::UNKNOWN);
        self.start = first_time(self.start, recorded.time);
        let Some(observer) = trace.observer() else {
            return Ok(());
        };
        let Some(interface) = trace.interface() else {
            return Ok(());
        };
        let row = trace.row();
        let Some(last) = observer.last_row() else {
            return Ok(());
        };
        let earlier = self
            .origins
            .take(last, observer.events(), observer.epoch())?;
        self.course.take(&interface, row.octets.as_slice(), last, observer, &earlier)?;
        let facts = self.course.facts(&interface, row, last, observer, earlier);
        self.sums.uncounted = observer.uncounted();
        let place = Place {
            recorded,
            start: self.start,
            circuit: recorded.circuit,
            host: self.circuits.host_of(recorded.circuit, facts.last.side),
        };
        self.sums.take(&facts, place.host, picked)?;
        if !picked {
            return Ok(());
        }
        write_line(&facts, &place, &mut self.line);
        out.extend_from_slice(self.line.out.written()?)
    }
}

/// Writes the line of the finding of a row, in place of what there was.
fn write_line<A: Allocator>(facts: &RowFacts<'_>, place: &Place<'_>, json: &mut Json<Growing<A>>)
    ensures { (i : Interface) (earlier : List Item) (r : Item) → AreFactsOf i earlier r facts.now
        → Holds ⟦<Growing<A> as Out>⟧.has (IsFindingLine i earlier r) json.new.out }
{
    json.out.clear();
    put_finding(json, facts, place);
}

/// Writes what the findings add up to, to a lent sink. Fails where the sink fails, which accepted a first part of it.
fn write_sums<A: Allocator + Copy, S: LentSink>(
    report: &Report<A>,
    sums: &FindingSums<A>,
    sink: S,
) -> (S, Result<(), Fault>)
    requires { (S.taken sink, S.failures sink) ≡ S.before }
    ensures ok { OnOk result.1 (HasTaken (IsFindingSums report.now) S.before.0 (S.taken result.0)) }
    ensures part { OnErr result.1 (HasTakenFirst (IsFindingSums report.now) S.before.0 (S.taken result.0)) }
    ensures cause { OnErr result.1 (S.before.1 < S.failures result.0) }
    ensures write { IfErr result.1 (λ fault. fault ≡ Fault.Write) }
{
    let mut json = Json {
        out: Sending::new(sink),
    };
    put_finding_sums(&mut json, report, sums);
    json.out.finish()
}

/// Prints a line for the finding of each row, or of each of those that are chosen, and after the last one what they add
/// up to.
#[derive(Drop)]
pub struct FindingLines<A: Allocator> {
    alloc: A,
    chosen: Chosen,
    past: PastFindings<A>,
}

impl<A: Allocator + Copy> FindingLines<A> {
    ghost use Rattle.std.specs.Prelude.{◌≡◌};

    /// Returns the printer before the first row. Allocates no memory.
    pub fn new(alloc: A, rows: Rows) -> Self
        ensures { result.chosen.rows ≡ rows }
    {
        FindingLines {
            alloc,
            chosen: Chosen::new(rows),
            past: PastFindings::new(alloc, rows),
        }
    }
}

impl<A: Allocator + Copy, C: Channel<A>> Printer<A, Live<A, C>> for FindingLines<A> {
    ghost use Rattle.descriptions.specs.Choosing.{HasChosen};
    ghost use Rattle.descriptions.specs.FindingLines.{IsFindingSums, IsLineFinding};
    ghost use Rattle.descriptions.specs.RowObjects.{KeepsPast};

    ghost printed = { λ p lines. HasChosen lines p.chosen × KeepsPast lines p.past.origins };

    ghost rows = { λ p. p.chosen.rows };

    ghost form = { λ rows before l bytes. IsLineFinding rows before l bytes };

    ghost closing = { λ rows lines report bytes. IsFindingSums report bytes };

    fn rows(&self) -> Rows {
        self.chosen.rows()
    }

    fn begin(&mut self) {
        let rows = self.chosen.rows();
        self.chosen = Chosen::new(rows);
        self.past = PastFindings::new(self.alloc, rows);
    }

    fn print(
        &mut self,
        trace: &Live<A, C>,
        line: &[u8],
        out: &mut Vec<u8, A>,
    ) -> Result<(), AllocError> {
        match self.chosen.judge_line(trace) {
            Some(picked) => self.past.append_row(trace, line, picked, out),
            None => self.past.take_comment(line),
        }
    }

    fn close<S: LentSink>(&mut self, report: &Report<A>, sink: S) -> (S, Result<(), Fault>) {
        write_sums(report, &self.past.sums, sink)
    }
}
