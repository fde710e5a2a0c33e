//! The parameters of a PAD by number and name (X.3 Table 1).

use crate::names;
use crate::prose::{Prose, bracketed, say_number};
use explanations::lookup::parameter_row;
use line_model::event::Entry;
use line_model::state::Side;

/// Writes a parameter by its reference, with its name where X.3 has one.
pub fn parameter<P: Prose>(out: &mut P, reference: u8) {
    say_number(out, "parameter ", u64::from(reference));
    if let Some(named) = parameter_row(reference) {
        bracketed(out, named.name);
    }
}

/// Writes what is known of a parameter of the PAD on a side.
pub fn setting<P: Prose>(out: &mut P, pad: Side, reference: u8, entry: Entry) {
    out.say("PAD of the ");
    out.say(names::side(pad));
    out.say(": ");
    parameter(out, reference);
    match entry {
        Entry::Unknown => out.say(" is unknown"),
        Entry::Asked(value) => say_number(out, " asked to be ", u64::from(value)),
        Entry::Said(value) => say_number(out, " said to be ", u64::from(value)),
        Entry::Refused(value) => say_number(out, " refused, is ", u64::from(value)),
    }
}
