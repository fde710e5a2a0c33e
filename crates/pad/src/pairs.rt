//! The pairs of a message: parameter references and their values (X.29 clause 4.4).

ghost use Rattle.std.specs.Prelude.{◌≡◌};
ghost use Rattle.line_model.specs.channels.Pad.{is_separator};
ghost use Rattle.pad.specs.Pairs.{pairs_before, shown};

use std::marker::Model;

/// A parameter reference and its value.
#[derive(Clone, Copy, PartialEq, Eq, Debug)]
pub struct Pair {
    /// The parameter reference (X.3 Table 1).
    pub reference: u8,
    /// The value; in an indication, bit 8 of the reference marks an error.
    pub value: u8,
}

/// The standard pairs that are left of a message: those before the separator 00 00, in an indication also before
/// reference 80 (hexadecimal) with any value (X.29 clause 4.4.5.3; reference 80 is profile).
#[derive(Drop)]
pub struct Pairs<'a> {
    indication: bool,
    octets: &'a [u8],
}

impl<'a> Model for Pairs<'a> {
    ghost use Rattle.std.specs.Prelude.{List};
    ghost use Rattle.line_model.specs.channels.Pad as pad;
    ghost use Rattle.pad.specs.Pairs.{pairs_before};

    ghost Value = { List pad.Pair };

    ghost view = { λ p. pairs_before p.indication p.octets.now };
}

impl<'a> Pairs<'a> {
    /// Returns the standard pairs in the octets after the code of a message.
    pub fn new(indication: bool, octets: &'a [u8]) -> Self
        ensures { result ≡ pairs_before indication octets.entry.now }
    {
        Pairs { indication, octets }
    }
}

impl Iterator for Pairs<'_> {
    type Item = Pair;

    ghost use Rattle.std.specs.Iterator.{YieldsFirstBy, item_count};

    ghost next_gives = { YieldsFirstBy shown (λ s. s) };

    ghost remaining = { item_count (λ s. s) };

    fn next(&mut self) -> Option<Pair> {
        let [reference, value, rest @ ..] = self.octets else {
            return None;
        };
        let pair = Pair {
            reference: *reference,
            value: *value,
        };
        if is_separator(self.indication, pair) {
            return None;
        }
        self.octets = rest;
        Some(pair)
    }
}

/// Returns whether a pair is the separator between the standard and the national parameters.
fn is_separator(indication: bool, pair: Pair) -> bool
    ensures { result ≡ is_separator indication (shown pair) }
{
    (pair.reference == 0 && pair.value == 0) || (indication && pair.reference == 0x80)
}
