//! A trace text whose rows the trials of all headers walk as it is read.

ghost use Rattle.std.specs.Prelude.{◌≡◌, ℕ, ◌++◌, ◌∷◌, [], List, Option, IfErr, IfOk, IfSome, OnOk, is_some, true};
ghost use Rattle.line_model.specs.basics.Records as records;
ghost use Rattle.line_model.specs.declared.fault.Fault.TheVariants.{Memory};
ghost use Rattle.line_model.specs.declared.interface.Interface.{Interface as AnyInterface};
ghost use Rattle.line_model.specs.text.Text.{early, fault};
ghost use Rattle.trace_text.proofs.DecidedLemmas.{all_sound};
ghost use Rattle.trace_text.proofs.SourceLemmas.{few_bytes};
ghost use Rattle.trace_text.specs.FedBytes.{fed_length};
ghost use Rattle.trace_text.specs.Progress.{bytes_fed};
ghost use Rattle.trace_text.specs.Represents.{IsFaultOf, IsTextFault, last_row};
ghost use Rattle.line_model.specs.packets.Says.{read_row};
ghost use Rattle.header_trials.specs.Trials.{AreTried, HasTaken, IsTrace, IsTraceUnder, IsTriedText, IsTrying};

use crate::trial::Trial;
use crate::trials::Trials;
use channel_run::run::Channel;
use line_model::device::LastLine;
use line_model::fault::Fault;
use line_model::interface::Interface;
use line_model::row::ReadRow;
use std::alloc::Allocator;
use std::mem;
use trace_text::consumer::Consumer;
use trace_text::lines::Lines;

/// Returns the trials of a trace text whose header was read, new ones before its first row.
fn trials_or_new<A: Allocator + Copy, C: Channel<A>>(
    alloc: A,
    interface: &Interface,
    trials: Option<Trials<A, C>>,
) -> Result<Trials<A, C>, Fault>
    ensures trying { (rows : List records.Row) (head : Option AnyInterface)
        → AreTried C.Channel rows head trials → IfSome head (λ i. i ≡ interface.now)
        → IfOk result (IsTrying C.Channel interface.now rows) }
    ensures memory { IfErr result (λ fault. fault ≡ Memory) }
{
    match trials {
        Some(trials) => Ok(trials),
        None => Trials::new(alloc, interface),
    }
}

/// Has the trials walk the row of a last line that no LF ended, if there is one.
fn take_last<A: Allocator + Copy, C: Channel<A>>(
    trials: &mut Trials<A, C>,
    has_row: bool,
    row: &ReadRow<A>,
) -> Result<(), Fault>
    requires next { (i : AnyInterface) × (rows : List records.Row) × (last : records.Row)
        × IsTrying C.Channel i rows trials.old × (has_row ≡ true → row.now ≡ read_row last)
        × IsTrace i (rows ++ last_row has_row last) }
    ensures trying { (i : AnyInterface) (rows : List records.Row) (last : records.Row)
        → IsTrying C.Channel i rows trials.old → (has_row ≡ true → row.now ≡ read_row last)
        → IsTrace i (rows ++ last_row has_row last)
        → OnOk result (IsTrying C.Channel i (rows ++ last_row has_row last) trials.new) }
    ensures memory { IfErr result (λ fault. fault ≡ Memory) }
{
    if has_row {
        return trials.take(row);
    }
    Ok(())
}

/// A trace text that is read chunk by chunk.
#[derive(Drop)]
pub struct TriedText<A: Allocator, C: Channel<A>> {
    lines: Lines<A>,
    /// The last row, whose room the next one uses.
    row: ReadRow<A>,
    /// Made before the first row is walked.
    trials: Option<Trials<A, C>>,
}

impl<A: Allocator + Copy, C: Channel<A>> TriedText<A, C> {
    /// Returns a text of which nothing was fed. Allocates no memory.
    pub fn new(alloc: A) -> Self
        ensures { HasTaken C.Channel [] result }
    {
        TriedText {
            lines: Lines::new(alloc),
            row: ReadRow::blank(alloc),
            trials: None,
        }
    }

    /// Has the trials walk the row that was read last.
    fn take_row(&mut self) -> Result<(), Fault>
        requires headed { is_some self.old.lines.interface ≡ true }
        requires next { (rows : List records.Row) × (next : records.Row)
            × AreTried C.Channel rows self.old.lines.interface self.old.trials
            × (self.old.row ≡ read_row next)
            × IsTraceUnder self.old.lines.interface (rows ++ next ∷ []) }
        ensures lines { self.new.lines ≡ self.old.lines }
        ensures tried { (rows : List records.Row) (next : records.Row)
            → AreTried C.Channel rows self.old.lines.interface self.old.trials
            → self.old.row ≡ read_row next
            → IsTraceUnder self.old.lines.interface (rows ++ next ∷ [])
            → OnOk result (AreTried C.Channel (rows ++ next ∷ [])
            self.old.lines.interface self.new.trials) }
        ensures memory { IfErr result (λ fault. fault ≡ Memory) }
    {
        let Some(interface) = self.lines.interface() else {
            unreachable!();
        };
        let alloc = *self.row.octets.allocator();
        let before = mem::replace(&mut self.trials, None);
        let mut trials = trials_or_new(alloc, &interface, before)?;
        trials.take(&self.row)?;
        self.trials = Some(trials);
        Ok(())
    }

    /// Reads the next chunk of the text.
    fn take_chunk(&mut self, chunk: &[u8]) -> Result<(), Fault>
        requires { (text : List ℕ) × HasTaken C.Channel text self.old }
        ensures taken { (text : List ℕ) → HasTaken C.Channel text self.old
            → OnOk result (HasTaken C.Channel (text ++ chunk.now) self.new) }
        ensures refused { (text : List ℕ) → HasTaken C.Channel text self.old
            → IfErr result (IsFaultOf (early (text ++ chunk.now))) }
        ensures kinds { IfErr result IsTextFault }
    {
        let mut rest = chunk;
        loop {
            match self.lines.next_row(rest, &mut self.row) {
                Ok(Some(after)) => {
                    self.take_row()?;
                    rest = after;
                }
                Ok(None) => return Ok(()),
                Err(fault) => return Err(fault),
            }
        }
    }

    /// Ends the text, whose last line may lack its LF, and returns the trials of its headers. Fails with the first
    /// faulty line, or when memory is refused.
    pub fn end(self) -> Result<Vec<Trial<A, C>, A>, Fault>
        requires { (text : List ℕ) × HasTaken C.Channel text self }
        ensures tried { (text : List ℕ) → HasTaken C.Channel text self
            → IfOk result (λ trials. IsTriedText C.Channel text trials.items) }
        ensures refused { (text : List ℕ) → HasTaken C.Channel text self
            → IfErr result (IsFaultOf (fault text)) }
        ensures kinds { IfErr result IsTextFault }
    {
        let TriedText {
            lines,
            mut row,
            trials,
        } = self;
        let end = match lines.end_row(&mut row) {
            Ok(end) => end,
            Err(fault) => return Err(fault),
        };
        let mut trials = trials_or_new(*row.octets.allocator(), &end.interface, trials)?;
        take_last(&mut trials, end.has_row, &row)?;
        Ok(trials.chosen())
    }
}

impl<A: Allocator + Copy, C: Channel<A>, K> Consumer<K> for TriedText<A, C> {
    ghost was_fed = { λ first start now sink text. HasTaken C.Channel text now × (sink ≡ start) };

    ghost refused = { λ first start now sink text last returned. IsFaultOf (early (text ++ last)) returned
        × IsTextFault returned × (sink ≡ start) };

    ghost expects = { λ text. Unit {0} };

    ghost lag = { 0 };

    ghost size = { λ now. bytes_fed now.lines };

    fn feed(&mut self, chunk: &[u8], _sink: &mut K) -> Result<(), Fault> {
        self.take_chunk(chunk)
    }

    fn last_line(&self) -> LastLine<'_> {
        self.lines.last_line()
    }

    ghost sound = { λ first start now sink text fed. all_sound 0 text fed.0.reads.sound };

    ghost sized = { λ first start now sink text fed. fed_length now.lines text fed.0.reads };

    ghost few = { λ first start now sink text fed. few_bytes text fed.0.reads.sound };
}
