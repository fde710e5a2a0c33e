//! What is wrong with a PAD message, in words.

use crate::messages::pairs_of;
use crate::names;
use crate::parameters::parameter;
use crate::prose::{Prose, count, say_number};
use line_model::finding::Xcode;
use line_model::state::Side;
use pad::message::read_message;
use pad::pairs::Pair;

/// What the faults of a PAD message are about.
#[derive(Clone, Copy)]
pub struct MessageFacts {
    /// Its first octet, if it has one.
    first: Option<u8>,
    /// How many octets come after the first one.
    rest: u64,
    /// The first of its pairs that no PAD can set.
    refusable: Option<Pair>,
}

impl MessageFacts {
    /// Returns those of a message with these octets.
    pub fn of(octets: &[u8]) -> Self {
        MessageFacts {
            first: octets.first().copied(),
            rest: octets.len().saturating_sub(1) as u64,
            refusable: refusable_in(octets),
        }
    }
}

/// The first pair of a message that no PAD can set.
fn refusable_in(octets: &[u8]) -> Option<Pair> {
    let Ok(message) = read_message(octets) else {
        return None;
    };
    for pair in pairs_of(&message) {
        if pair.reference == 11 || pair.value > highest(pair.reference) {
            return Some(pair);
        }
    }
    None
}

/// Returns the highest value that a parameter can have (X.3 Table 1).
fn highest(reference: u8) -> u8 {
    match reference {
        2 | 8 | 12 | 15 => 1,
        16..=18 => 127,
        _ => 255,
    }
}

/// Writes what is wrong with a PAD message of a side, with its values where they are known.
pub fn message_fault<P: Prose>(
    out: &mut P,
    message: Option<MessageFacts>,
    code: Xcode,
    side: Side,
) {
    out.say("The ");
    out.say(names::side(side));
    match (code, message) {
        (Xcode::X1, Some(message)) => unknown(out, message.first),
        (Xcode::X1, None) => out.say(" sent an unknown PAD message"),
        (Xcode::X2, Some(message)) => badly_formed(out, &message),
        (Xcode::X2, None) => out.say(" sent a badly formed PAD message"),
        (Xcode::X3, Some(message)) => refused(out, message.refusable),
        (Xcode::X3, None) => out.say(" asked a setting that no PAD has"),
        (Xcode::X4, _) => {
            out.say(" sent a parameter indication that no set or read of the ");
            out.say(names::side(side.other()));
            out.say(" asked in this call");
        }
        (Xcode::XL, _) => out.say(" sent a PAD message of more than 1,024 octets"),
    }
}

/// Writes the first octet of a message that is none.
fn unknown<P: Prose>(out: &mut P, first: Option<u8>) {
    match first {
        Some(first) => {
            out.say(" sent a PAD message that begins with ");
            out.octets(&[first]);
            out.say(", where 00 to 08 are known");
        }
        None => out.say(" sent a PAD message without an octet"),
    }
}

/// Writes how many octets come after the first one of a message.
fn badly_formed<P: Prose>(out: &mut P, message: &MessageFacts) {
    out.say(match message.first {
        Some(0) => " sent a parameter indication with ",
        Some(2) => " sent a set with ",
        Some(3) => " sent an indication of break with ",
        Some(4) => " sent a read with ",
        _ => " sent a set and read with ",
    });
    count(out, "", message.rest, " octet");
    out.say(match message.first {
        Some(3) => " after its first, where it has none or the pair 8, 1",
        _ => " of pairs, and a pair has 2",
    });
}

/// Writes the setting that no PAD has.
fn refused<P: Prose>(out: &mut P, refusable: Option<Pair>) {
    let Some(pair) = refusable else {
        return out.say(" asked a setting that no PAD has");
    };
    out.say(" set ");
    parameter(out, pair.reference);
    if pair.reference == 11 {
        out.say(", which can't be set");
        return;
    }
    say_number(out, " to ", u64::from(pair.value));
    say_number(out, ", where ", u64::from(highest(pair.reference)));
    out.say(" is the highest value");
}
