//! The rows of a trace as objects.

ghost use Rattle.std.specs.Prelude.{◌≡◌, ◌<◌, ◌^◌, ◌++◌, ◌∷◌, [], List, IfOk, IfSome, None, OnOk, Some, false, length};
ghost use Rattle.line_model.specs.basics.Records.{Item, Row};
ghost use Rattle.line_model.specs.declared.interface.Interface.{Interface};
ghost use Rattle.line_model.specs.packets.Says.{gap_of};
ghost use Rattle.line_model.specs.text.RowLine.{row_of};
ghost use Rattle.line_model.specs.text.Text.{Line};
ghost use Rattle.annotated_trace.specs.Printed.{HasAppended};
ghost use Rattle.descriptions.specs.CallSums.{IsAddend};
ghost use Rattle.descriptions.specs.Circuits.{AddsHosts, KeepsHosts, circuit_of};
ghost use Rattle.descriptions.specs.Facts.{AreFactsOf};
ghost use Rattle.descriptions.specs.Members.{IsText};
ghost use Rattle.descriptions.specs.Follows.{KeepsOrigins};
ghost use Rattle.descriptions.specs.RowCalls.{row_call};
ghost use Rattle.descriptions.specs.RowObjects.{AppendsObject, IsObjectWhere, IsRest, IsRowObject, KeepsLast, OfLastRow, circuit_line, circuit_object, circuit_recorded};
ghost use Rattle.descriptions.specs.Writing.{Adds, Holds, These};

use crate::call_memory::Calls;
use crate::call_sums::Addend;
use crate::chosen::Chosen;
use crate::circuits::{Circuits, NamedCircuit, circuit_of_comment, without_lf};
use crate::closing_objects::{Rest, write_rest};
use crate::common_objects::{CommonRow, common_object};
use crate::course::Course;
use crate::facts::RowFacts;
use crate::json::{Growing, Json, Out};
use crate::line_room::LineRoom;
use crate::open_calls::EndedCall;
use crate::origins::Origins;
use crate::report_objects::write_report_objects;
use crate::row_head::write_head;
use crate::row_members::{RowSource, row_members};
use crate::times::Recorded;
use crate::value::Value;
use annotated_trace::printer::Printer;
use annotated_trace::rows::Rows;
use channel_run::run::Channel;
use line_model::fault::Fault;
use line_model::lending::LentSink;
use line_model::report::Report;
use line_model::state::Side;
use live_report::live::Live;
use live_report::uncounted::Uncounted;
use std::alloc::{AllocError, Allocator};

/// What is remembered of the rows before, and of the comments before the next one.
#[derive(Drop)]
pub(crate) struct PastRows<A: Allocator> {
    origins: Origins<A>,
    course: Course<A>,
    /// What is remembered for the end.
    pub(crate) rest: Rest<A>,
    /// What the last row that was appended adds to the sums of its call.
    pub(crate) added: Addend,
    /// The circuits that comments named.
    pub(crate) circuits: Circuits<A>,
    /// When and where the next row was recorded.
    pub(crate) recorded: Option<Recorded>,
    /// Room for an object.
    object: Json<Growing<A>>,
}

impl<A: Allocator + Copy> PastRows<A> {
    /// Starts before the first row. Allocates no memory.
    pub(crate) fn new(alloc: A) -> Self
        ensures origins { (i : Interface) → KeepsOrigins i [] result.origins }
        ensures circuits { KeepsHosts [] result.circuits }
    {
        PastRows {
            origins: Origins::new(alloc),
            course: Course::new(alloc),
            rest: Rest {
                calls: Calls::new(alloc),
                uncounted: Uncounted::none(),
                has_gaps: false,
            },
            added: Addend::none(),
            circuits: Circuits::new(alloc),
            recorded: None,
            object: Json {
                out: Growing::new(alloc),
            },
        }
    }

    /// The object of the last row of a trace, where it is printed, is of the common case, and no comment says when or where
    /// it was recorded. Such a row changes nothing that is remembered.
    #[inline(always)]
    fn common_object<'r, C: Channel<A>>(
        &self,
        trace: &Live<A, C>,
        line: &[u8],
        is_picked: bool,
        room: &'r mut LineRoom,
    ) -> Option<&'r [u8]>
        ensures object { OfLastRow C.Channel trace.now line.now (λ i earlier r.
            KeepsOrigins i earlier self.now.origins
            → IfSome result (λ object. IsObjectWhere is_picked (circuit_recorded self.now.recorded)
            i earlier r object.now)) }
        ensures unpicked { is_picked ≡ false → result ≡ None }
        ensures kept { OfLastRow C.Channel trace.now line.now (λ i earlier r. IfSome result
            (λ object. KeepsOrigins i earlier self.now.origins
            → KeepsOrigins i (earlier ++ r ∷ []) self.now.origins)) }
    {
        if !is_picked {
            return None;
        }
        let Some(observer) = trace.observer() else {
            return None;
        };
        let Some(row) = observer.last_row() else {
            return None;
        };
        let Some(channel) = row.channel() else {
            return None;
        };
        let Some(digits) = last_digits(line, trace.row().length) else {
            return None;
        };
        if self.recorded.is_some() {
            return None;
        }
        let common = CommonRow {
            row,
            events: observer.events(),
            epoch: observer.epoch(),
            call: self.origins.call_on(channel),
            digits,
        };
        common_object(room, &common)
    }

    /// Reads the last row of a trace, and appends its object where it is chosen.
    #[inline(never)]
    pub(crate) fn append_row<C: Channel<A>>(
        &mut self,
        trace: &Live<A, C>,
        line: &[u8],
        picked: bool,
        out: &mut Vec<u8, A>,
    ) -> Result<(), AllocError>
        ensures object { AppendsObject C.Channel trace.now line.now picked
            (circuit_recorded self.old.recorded) self.old.origins result out.old.items out.new.items }
        ensures spent { self.new.recorded ≡ None }
        ensures circuits { self.new.circuits ≡ self.old.circuits }
        ensures unpicked { picked ≡ false → out.new.items ≡ out.old.items }
        ensures kept { KeepsLast C.Channel trace.now line.now result self.old.origins self.new.origins }
        ensures added { OfLastRow C.Channel trace.now line.now (λ i earlier r.
            KeepsOrigins i earlier self.old.origins
            → OnOk result (IsAddend i earlier r self.new.added × (length earlier < 2 ^ 32))) }
    {
        let recorded = take_recorded(&mut self.recorded);
        let Some(observer) = trace.observer() else {
            return Ok(());
        };
        let Some(interface) = trace.interface() else {
            return Ok(());
        };
        let row = trace.row();
        let Some(last) = observer.last_row() else {
            return Ok(());
        };
        let earlier = self
            .origins
            .take(last, observer.events(), observer.epoch())?;
        self.course.take(&interface, row.octets.as_slice(), last, observer, &earlier)?;
        let facts = self.course.facts(&interface, row, last, observer, earlier);
        self.rest
            .calls
            .take(&facts, self.origins.calls.ended(), recorded)?;
        self.rest.uncounted = observer.uncounted();
        self.rest.has_gaps = interface.gaps;
        self.added = Addend::of(&facts);
        if !picked {
            return Ok(());
        }
        let source = RowSource {
            recorded,
            host: self.circuits.host_of(recorded.circuit, last.side),
            digits: last_digits(line, facts.length),
        };
        let ended = self.origins.calls.ended();
        write_object(&facts, ended, &source, &mut self.object);
        out.extend_from_slice(self.object.out.written()?)
    }

    /// Reads a line that writes no row: a comment may say when and where the next one was recorded, or name a circuit,
    /// which is returned. Fails only when memory is refused.
    pub(crate) fn take_comment<'l>(
        &mut self,
        line: &'l [u8],
    ) -> Result<Option<NamedCircuit<'l>>, AllocError>
        ensures origins { self.new.origins ≡ self.old.origins }
        ensures circuit { (l : Line) → line.entry.now ≡ l ++ 10 ∷ [] → IfOk result (λ named. named ≡ circuit_of l) }
        ensures hosts { (l : Line) → line.entry.now ≡ l ++ 10 ∷ []
            → OnOk result (AddsHosts (circuit_of l) self.old.circuits self.new.circuits) }
    {
        if let Some(recorded) = Recorded::of_comment(line) {
            self.recorded = Some(recorded);
        }
        match circuit_of_comment(line) {
            Some(circuit) => {
                self.circuits.add(&circuit)?;
                Ok(Some(circuit))
            }
            None => Ok(None),
        }
    }

    /// Appends the object of a circuit.
    fn append_circuit(
        &mut self,
        circuit: &NamedCircuit<'_>,
        out: &mut Vec<u8, A>,
    ) -> Result<(), AllocError>
        ensures object { OnOk result (out.new.items ≡ out.old.items ++ circuit_object circuit.now) }
        ensures origins { self.new.origins ≡ self.old.origins }
    {
        self.object.out.clear();
        write_circuit(&mut self.object, circuit);
        out.extend_from_slice(self.object.out.written()?)
    }

    /// Reads a line that writes no row, and appends the object of the circuit that it names, if it names one. Fails only
    /// when memory is refused.
    fn print_comment(&mut self, line: &[u8], out: &mut Vec<u8, A>) -> Result<(), AllocError>
        ensures object { (l : Line) → line.now ≡ l ++ 10 ∷ [] → OnOk result (out.new.items
            ≡ out.old.items ++ circuit_line (circuit_of l)) }
        ensures origins { self.new.origins ≡ self.old.origins }
    {
        match self.take_comment(line)? {
            Some(circuit) => self.append_circuit(&circuit, out),
            None => Ok(()),
        }
    }
}

/// Removes and returns what the comment before a row says of it.
fn take_recorded(recorded: &mut Option<Recorded>) -> Recorded
    ensures circuit { result.circuit ≡ circuit_recorded recorded.old }
    ensures spent { recorded.new ≡ None }
{
    match recorded.take() {
        Some(recorded) => recorded,
        None => Recorded::UNKNOWN,
    }
}

/// Writes the object of a circuit on a line of its own.
fn write_circuit<O: Out>(json: &mut Json<O>, circuit: &NamedCircuit<'_>)
    ensures { Adds O.has (These (circuit_object circuit.now)) json.old.out json.new.out }
{
    json.raw(b"{\"line\":\"circuit\",\"circuit\":");
    json.number(circuit.number());
    json.raw(b",\"channel\":");
    json.value(Value::number(circuit.channel()));
    json.raw(b",\"dte\":\"");
    json.raw(circuit.end(Side::T).address());
    json.raw(b"\",\"dte_port\":");
    json.number(circuit.end(Side::T).port());
    json.raw(b",\"dce\":\"");
    json.raw(circuit.end(Side::N).address());
    json.raw(b"\",\"dce_port\":");
    json.number(circuit.end(Side::N).port());
    json.raw(b"}\n");
}

/// Writes the object of a row on a line of its own, in place of what there was.
fn write_object<A: Allocator>(
    facts: &RowFacts<'_>,
    ended: &[EndedCall],
    source: &RowSource<'_>,
    json: &mut Json<Growing<A>>,
)
    ensures { (i : Interface) (earlier : List Item) (r : Item) → AreFactsOf i earlier r facts.now
        → Holds ⟦<Growing<A> as Out>⟧.has (IsRowObject source.now.recorded.circuit i earlier r) json.new.out }
{
    json.out.clear();
    write_head(json, facts);
    row_members(json, facts, ended, source);
    json.raw(b"}\n");
}

/// The hex digits at the end of a row's line that write `octets` octets, where they come after a space.
fn last_digits(line: &[u8], octets: usize) -> Option<&[u8]>
    ensures { (l : Line) (r : Row) → line.now ≡ l ++ 10 ∷ [] → row_of l ≡ Some r
        → octets ≡ length r.octets → IfSome result (λ digits. IsText digits.now) }
{
    let words = without_lf(line);
    let count = octets.checked_mul(2)?;
    let place = words.len().checked_sub(count)?;
    let (front, digits) = words.split_at_checked(place)?;
    match front {
        [.., b' '] => Some(digits),
        _ => None,
    }
}

/// Prints an object for each circuit that a comment names, and for each row, or for each of those that are chosen, and
/// after the last one those of the report.
#[derive(Drop)]
pub struct RowObjects<A: Allocator> {
    alloc: A,
    chosen: Chosen,
    past: PastRows<A>,
    /// Room for the object of a row of the fast path.
    room: LineRoom,
}

impl<A: Allocator + Copy> RowObjects<A> {
    ghost use Rattle.std.specs.Prelude.{◌≡◌};

    /// Starts before the first row. Allocates no memory.
    pub fn new(alloc: A, rows: Rows) -> Self
        ensures { result.chosen.rows ≡ rows }
    {
        RowObjects {
            alloc,
            chosen: Chosen::new(rows),
            past: PastRows::new(alloc),
            room: LineRoom::new(),
        }
    }

    /// Reads the last row of a trace, and appends its object where it is chosen.
    #[inline(always)]
    fn print_row<C: Channel<A>>(
        &mut self,
        trace: &Live<A, C>,
        line: &[u8],
        picked: bool,
        out: &mut Vec<u8, A>,
    ) -> Result<(), AllocError>
        ensures object { AppendsObject C.Channel trace.now line.now picked
            (circuit_recorded self.old.past.recorded) self.old.past.origins result out.old.items out.new.items }
        ensures unpicked { picked ≡ false → out.new.items ≡ out.old.items }
        ensures kept { KeepsLast C.Channel trace.now line.now result self.old.past.origins self.new.past.origins }
        ensures chosen { self.new.chosen ≡ self.old.chosen }
    {
        match self.past.common_object(trace, line, picked, &mut self.room) {
            Some(object) => out.extend_from_slice(object),
            None => self.past.append_row(trace, line, picked, out),
        }
    }
}

impl<A: Allocator + Copy, C: Channel<A>> Printer<A, Live<A, C>> for RowObjects<A> {
    ghost use Rattle.descriptions.specs.Choosing.{HasChosen};
    ghost use Rattle.descriptions.specs.RowObjects.{IsClosing, IsLineObject, KeepsPast};

    ghost printed = { λ p lines. HasChosen lines p.chosen × KeepsPast lines p.past.origins };

    ghost rows = { λ p. p.chosen.rows };

    ghost form = { λ rows before l bytes. IsLineObject rows before l bytes };

    ghost closing = { λ rows lines report bytes. IsClosing report bytes };

    fn rows(&self) -> Rows {
        self.chosen.rows()
    }

    fn begin(&mut self) {
        self.chosen = Chosen::new(self.chosen.rows());
        self.past = PastRows::new(self.alloc);
    }

    #[inline(always)]
    fn print(
        &mut self,
        trace: &Live<A, C>,
        line: &[u8],
        out: &mut Vec<u8, A>,
    ) -> Result<(), AllocError> {
        match self.chosen.judge_line(trace) {
            Some(picked) => self.print_row(trace, line, picked, out),
            None => self.past.print_comment(line, out),
        }
    }

    fn close<S: LentSink>(&mut self, report: &Report<A>, sink: S) -> (S, Result<(), Fault>) {
        let (mut sink, answer) = write_report_objects(report, sink);
        match answer {
            Ok(()) => {
                let rest = write_rest(&self.past.rest, &report.calls, &mut sink);
                (sink, rest)
            }
            Err(fault) => (sink, Err(fault)),
        }
    }
}
