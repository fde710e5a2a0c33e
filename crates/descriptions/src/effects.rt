//! What a row did, in words.

use crate::facts::{RowFacts, is_adrift, is_gap_of_all};
use crate::names;
use crate::parameters::setting;
use crate::prose::{Prose, count, say_number};
use call_accounts::so_far::segments_in;
use channel_run::status_word::state_in;
use data_transfer::packed::FlowWord;
use line_model::event::{Event, How, What};
use line_model::packet::Packet;
use line_model::state::RState;
use live_report::uncounted::Reason;

/// Writes a change of state, or the state where it stayed.
fn moved<P: Prose>(out: &mut P, before: &str, after: &str) {
    if before == after {
        out.say("stays ");
    } else {
        out.say(before);
        out.say(" to ");
    }
    out.say(after);
}

/// Writes what a packet of the restart machine did, or a gap that went to no channel.
pub fn restart_move<P: Prose>(out: &mut P, facts: &RowFacts<'_>, before: RState, after: RState) {
    moved(
        out,
        names::restart_state(before),
        names::restart_state(after),
    );
    if facts.renews {
        out.say(renewal(&facts.last.packet));
    } else if after == RState::R1 && is_gap_of_all(&facts.last.packet) {
        out.say("; all channels are adrift");
    } else {
        out.say(change(before, after));
    }
}

/// Returns what a change of the restart machine means for the channels.
fn change(before: RState, after: RState) -> &'static str {
    match (before, after) {
        (RState::R1, RState::R1) => "",
        (RState::R1, _) => "; all channels and their calls end",
        (_, RState::R1) => "; all channels are fresh",
        _ => "",
    }
}

/// Returns what it means for the channels that a packet ends an epoch after a gap of all channels and begins the next
/// one at once.
fn renewal(packet: &Packet) -> &'static str {
    if *packet == Packet::RestartConfirm {
        "; a restart was missed: all channels and their calls end, and all channels are fresh"
    } else {
        "; all channels and their calls end, and all channels are adrift"
    }
}

/// The state of a channel, by its word.
fn known_state(word: &FlowWord) -> &'static str {
    if is_adrift(word) {
        "adrift"
    } else {
        names::channel_state(state_in(word.owner_bits()))
    }
}

/// Writes how the state of a channel changed.
pub fn channel_move<P: Prose>(out: &mut P, before: &FlowWord, after: &FlowWord) {
    moved(out, known_state(before), known_state(after));
    if is_adrift(before) && !is_adrift(after) {
        out.say(", settled by this packet");
    }
}

/// Writes the call that a row belongs to, by its number in the report; nothing for 0.
pub fn of_call<P: Prose>(out: &mut P, call: u32) {
    if call == 0 {
        return;
    }
    say_number(out, "; call ", u64::from(call));
}

/// Writes what an event of a row is.
pub fn event<P: Prose>(out: &mut P, event: &Event) {
    match &event.what {
        What::Found { .. } => {}
        What::Open { .. } => out.say(" begins"),
        What::Up => out.say(", in data transfer from here on"),
        What::End(how) => out.say(ending(*how)),
        What::Data { octets, .. } => {
            count(out, "; counted: ", u64::from(*octets), " octet");
            count(out, " in ", segments_in(event), " segment");
        }
        What::Setting {
            pad,
            parameter: reference,
            entry,
        } => {
            out.say("; ");
            setting(out, *pad, *reference, *entry);
        }
        What::Initial { pad } => {
            out.say("; the settings of the PAD of the ");
            out.say(names::side(*pad));
            out.say(" are unknown again");
        }
    }
}

/// How a call ended.
fn ending(how: How) -> &'static str {
    match how {
        How::T => " ends, cleared by the DTE",
        How::N => " ends, cleared by the DCE",
        How::Collision => " ends, cancelled by a call request",
        How::Restart => " ends with a restart",
        How::Gap => " has ended, its end was not recorded",
    }
}

/// Returns why data was not counted, in words; a trace may have gaps.
pub fn reason_words(reason: Reason, has_gaps: bool) -> &'static str {
    match reason {
        Reason::Finding => "a finding",
        Reason::Owed => "the DCE owes its indication",
        Reason::NotInTransfer => "the channel is not in data transfer",
        Reason::Discarded => "the state discards data",
        Reason::Unknown if has_gaps => "nothing is known of the channel after a gap",
        Reason::Unknown =>
            "the recording began in the middle, and nothing is known of the channel yet",
        Reason::Restart => "a restart goes on",
    }
}
