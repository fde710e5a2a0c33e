//! What a row is and did, in words.

use crate::effects::{channel_move, event, of_call, reason_words, restart_move};
use crate::facts::{Fate, RowFacts, gap_of};
use crate::messages::message;
use crate::packets::packet;
use crate::prose::{Page, say_number};
use line_model::event::What;
use live_report::judged_row::Judge;
use live_report::uncounted::Reason;

/// Writes what a row is and its frame, where that is known, and on a further line what it did.
pub fn row<P: Page>(facts: &RowFacts<'_>, frame: Option<u64>, notes: &mut P) {
    match gap_of(&facts.last.packet) {
        Some(channel) => gap(channel, notes),
        None => packet(notes, facts),
    }
    if let Some(octets) = facts.message {
        message(notes, octets);
    }
    if let Some(frame) = frame {
        say_number(notes, "; frame ", frame);
    }
    notes.next_line();
    match &facts.last.judge {
        Judge::Restart { before, after } => restart_move(notes, facts, *before, *after),
        Judge::Channel { before, after, .. } => channel_move(notes, before, after),
    }
    calls(facts, notes);
    left_out(facts, notes);
}

/// Writes that packets of a logical channel may not have been recorded, or of any, where none is named.
fn gap<P: Page>(channel: Option<u16>, notes: &mut P) {
    notes.say("a gap: packets on ");
    match channel {
        Some(channel) => say_number(notes, "channel ", u64::from(channel)),
        None => notes.say("any channel"),
    }
    notes.say(" may be missing");
}

/// Writes the call that a row belongs to, and its events.
fn calls<P: Page>(facts: &RowFacts<'_>, notes: &mut P) {
    let mut call = facts.calls.before;
    let mut is_named = false;
    for what in facts.events {
        if let What::Open { .. } = what.what {
            call = facts.calls.opened;
            is_named = false;
        }
        if !is_named {
            of_call(notes, call);
            is_named = true;
        }
        event(notes, what);
    }
    if !is_named {
        of_call(notes, call);
    }
}

/// Writes why data was not counted. Writes nothing for a row with a finding, or one in a restart, which the finding or
/// the move explains.
fn left_out<P: Page>(facts: &RowFacts<'_>, notes: &mut P) {
    match facts.fate {
        Fate::NotCounted(Reason::Finding | Reason::Restart) => {}
        Fate::NotCounted(reason) => {
            notes.say("; not counted: ");
            notes.say(reason_words(reason, facts.interface.gaps));
        }
        _ => {}
    }
}
