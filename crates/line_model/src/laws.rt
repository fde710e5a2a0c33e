//! Theorems about the definitions alone.

ghost use Rattle.std.specs.Prelude.{◌≡◌, ℕ, List, ◌++◌, Some};
ghost use Rattle.line_model.specs.traces.WorkedTraces.{WorkedTraces};
ghost use Rattle.line_model.specs.Laws.{ShuffleLaw, PiecesLaw, PlanLaw, FindingsLaw, FindingsOrderLaw, TotalsLaw, NumbersLaw, PeakLaw, CallsLaw, CallsOrderLaw, CallsPeakLaw, EarlyHeadLaw, EarlyRowsLaw, RowsLaw, FirstRowsLaw};
ghost use Rattle.line_model.specs.traces.WorkedGapTraces.{WorkedGapTraces};
ghost use Rattle.line_model.specs.text.Text.{early, fault};
ghost use Rattle.line_model.specs.declared.fault.Kind.{Kind};

/// Where rows of different channels change places, each row has the same events, and the observer is the same at the
/// end.
pub fn shuffle()
    ensures { ShuffleLaw }
{}

/// The events of each channel in each epoch are those of its piece alone.
pub fn pieces()
    ensures { PiecesLaw }
{}

/// The plan has each piece once.
pub fn plan()
    ensures { PlanLaw }
{}

/// The findings of the restart machine and of the pieces, by their packets, are those of the walk.
pub fn findings()
    ensures { FindingsLaw }
{}

/// The findings of the restart machine and of the pieces are those of the walk, whose packets rise.
pub fn findings_order()
    ensures { FindingsOrderLaw }
{}

/// The results of the pieces add up to the observer's totals over the channels.
pub fn totals()
    ensures sums { TotalsLaw }
    ensures numbers { NumbersLaw }
{}

/// The peak after any row is the greatest number of calls that are up at once.
pub fn peak()
    ensures { PeakLaw }
{}

/// The calls of the pieces, by their opening packets, are those of the walk.
pub fn calls()
    ensures { CallsLaw }
{}

/// The peak after any row is the peak over the times of the calls.
pub fn calls_peak()
    ensures { CallsPeakLaw }
{}

/// The calls of the pieces are those of the walk, whose opening packets rise.
pub fn calls_order()
    ensures { CallsOrderLaw }
{}

/// The worked traces are refused, or have their reports.
pub fn worked_traces()
    ensures { WorkedTraces }
{}

/// What the first lines of an input say stays as it goes on: their fault, the interface they set up, and their rows.
pub fn fault()
    ensures stays { (text more : List ℕ) (at : ℕ × Kind) → early text ≡ Some at → early (text ++ more) ≡ Some at }
    ensures whole { (text more : List ℕ) (at : ℕ × Kind) → early text ≡ Some at → fault (text ++ more) ≡ Some at }
    ensures header { EarlyHeadLaw }
    ensures rows { EarlyRowsLaw }
{}

/// The rows of an input are of its interface: gaps only where it says so, of its channels or of all.
pub fn rows()
    ensures all { RowsLaw }
    ensures first { FirstRowsLaw }
{}

/// Some recordings with gaps are refused, or have their reports.
pub fn worked_gaps()
    ensures { WorkedGapTraces }
{}
