//! The parameters of a PAD, and the values that they can have (X.3 Table 1).

ghost use Rattle.std.specs.Prelude.{◌≡◌};
ghost use Rattle.std.specs.List.{list_any};
ghost use Rattle.line_model.specs.channels.Pad.{is_refusable, is_parameter};
ghost use Rattle.pad.specs.Pairs.{shown};

use crate::pairs::{Pair, Pairs};

/// Returns whether a reference is one of the parameters 1 to 22.
pub(crate) fn is_parameter(reference: u8) -> bool
    ensures { result ≡ is_parameter reference }
{
    (1..=22).contains(&reference)
}

/// Returns whether a parameter can't be set, or not to a value.
fn is_refusable(pair: Pair) -> bool
    ensures { result ≡ is_refusable (shown pair) }
{
    match pair.reference {
        11 => true,
        2 | 8 | 12 | 15 => pair.value > 1,
        16..=18 => pair.value > 127,
        _ => false,
    }
}

/// Returns whether a set has a pair that can't be set.
pub(crate) fn is_refused(pairs: Pairs<'_>) -> bool
    ensures { result ≡ list_any is_refusable pairs.entry }
{
    for pair in pairs {
        if is_refusable(pair) {
            return true;
        }
    }
    false
}
