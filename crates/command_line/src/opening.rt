//! The trace that the words name.

ghost use Rattle.std.specs.Prelude.{◌≡◌, IfErr, OnErr, OnOk, not, option_map};
ghost use Rattle.capture_report.specs.Given.{is_plain};
ghost use Rattle.command_line.specs.Faults.{IsUnopened, open_status};
ghost use Rattle.command_line.specs.Program.{trace_of};

use crate::asked::AskedTrace;
use crate::refusing::refuse_trace;
use line_model::device::Sink;
use std::alloc::Global;
use streams::input::Input;

/// Opens the trace of the name that is asked for, or stays at standard input where there is none. Where the trace can't be
/// opened it prints why, and returns the exit status.
pub fn open_trace<S: Input, E: Sink>(
    alloc: Global,
    asked: AskedTrace<'_>,
    source: &mut S,
    errors: &mut E,
) -> Result<(), u8>
    ensures opened { let name = option_map (λ name. name.now) asked.entry.name in
        OnOk result (S.left source.new ≡ trace_of name (S.left source.old) (S.named source.old)) }
    ensures refused { OnErr result (source.new ≡ source.old) }
    ensures calls { S.calls source.new ≡ S.calls source.old }
    ensures failures { S.failures source.new ≡ S.failures source.old }
    ensures silent { OnOk result (errors.new ≡ errors.old) }
    ensures said { IfErr result (λ status. (unopened : IsUnopened (option_map (λ name. name.now) asked.entry.name)
        (E.taken errors.old) (E.taken errors.new) (E.failures errors.new ≡ E.failures errors.old))
        × (status ≡ open_status (not (is_plain asked.entry.capture)) unopened.refusal.reason)) }
{
    let Some(name) = asked.name else {
        return Ok(());
    };
    let has_options = !asked.capture.is_plain();
    match source.open(name) {
        Ok(()) => Ok(()),
        Err(refusal) => Err(refuse_trace(alloc, errors, name, refusal, has_options)),
    }
}
