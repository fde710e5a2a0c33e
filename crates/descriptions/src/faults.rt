//! What is wrong with a row, in words.

use crate::facility_faults::{facility_length, facility_value};
use crate::facts::{RowFacts, user_octets};
use crate::message_faults::{MessageFacts, message_fault};
use crate::names;
use crate::packet_names::packet_name;
use crate::prose::{Prose, count, say_number};
use channel_run::run::View;
use data_transfer::flow::SendWindow;
use explanations::explanation::Explanation;
use explanations::lookup::code_row;
use line_model::diagnostic::{
    CALL_ON_ONE_WAY_LOGICAL_CHANNEL, FACILITY_PARAMETER_NOT_ALLOWED, INCONSISTENT_Q_BIT_SETTING,
    INVALID_FACILITY_OR_REGISTRATION_LENGTH, INVALID_GENERAL_FORMAT_IDENTIFIER, INVALID_P_R,
    INVALID_P_S, INVALID_PACKET_TYPE_ON_A_PERMANENT_VIRTUAL_CIRCUIT,
    PACKET_ON_UNASSIGNED_LOGICAL_CHANNEL, PACKET_TOO_LONG, PACKET_TOO_SHORT,
    PACKET_TYPE_INVALID_FOR_STATE_D1, PACKET_TYPE_INVALID_FOR_STATE_D2,
    PACKET_TYPE_INVALID_FOR_STATE_D3, PACKET_TYPE_INVALID_FOR_STATE_P1,
    PACKET_TYPE_INVALID_FOR_STATE_P2, PACKET_TYPE_INVALID_FOR_STATE_P3,
    PACKET_TYPE_INVALID_FOR_STATE_P4, PACKET_TYPE_INVALID_FOR_STATE_P5,
    PACKET_TYPE_INVALID_FOR_STATE_P6, PACKET_TYPE_INVALID_FOR_STATE_P7,
    PACKET_TYPE_INVALID_FOR_STATE_R1, PACKET_TYPE_INVALID_FOR_STATE_R2,
    PACKET_TYPE_INVALID_FOR_STATE_R3, REJECT_NOT_SUBSCRIBED_TO,
    RESTART_PACKET_WITH_NON_ZERO_LOGICAL_CHANNEL_IDENTIFIER, UNAUTHORIZED_INTERRUPT,
    UNAUTHORIZED_INTERRUPT_CONFIRMATION, UNIDENTIFIABLE_PACKET,
};
use line_model::finding::{Code, Finding};
use line_model::interface::Interface;
use line_model::packet::{Packet, PacketKind};
use line_model::state::{Side, StateName};
use packet_decode::decode::logical_channel;

/// What was known before a row, and the row's packet.
#[derive(Clone, Copy)]
pub struct Before {
    /// The interface.
    pub interface: Interface,
    /// What was known of the packet's channel, if the channel had rows.
    pub view: Option<View>,
    /// The packet.
    pub packet: Packet,
    /// How many octets the packet has.
    pub length: usize,
    /// The channel had a gap in its call: its numbers may be others than the view has.
    pub had_gap: bool,
    /// The number of the finding that its own may follow from.
    pub follows: Option<u32>,
    /// The PAD message that the packet completes, if its octets are known.
    pub message: Option<MessageFacts>,
}

impl Before {
    /// Returns what was known before a row.
    pub fn of_row(facts: &RowFacts<'_>) -> Self {
        Before {
            interface: *facts.interface,
            view: facts.view_before(),
            packet: facts.last.packet,
            length: facts.length,
            had_gap: facts.had_gap,
            follows: facts.earlier.follows,
            message: facts.message.map(|octets| MessageFacts::of(octets)),
        }
    }
}

/// Writes a finding: the name of its code, what is wrong with the values of the row, what the DCE does next, the
/// clause, and the finding that it may follow from.
pub fn fault<P: Prose>(out: &mut P, before: &Before, octets: &[u8], finding: &Finding) {
    let Some(row) = code_row(finding.code) else {
        return;
    };
    out.say(row.name);
    out.say(": ");
    wrong(out, before, octets, finding, row);
    out.say(" ");
    out.say(consequence(finding));
    out.say(" (");
    out.say(row.clause);
    out.say(")");
    if let Some(number) = before.follows {
        say_number(out, " May follow from F ", u64::from(number));
        out.say(".");
    }
}

/// Writes what is wrong with a row: with its values, where these show it.
pub fn wrong<P: Prose>(
    out: &mut P,
    before: &Before,
    octets: &[u8],
    finding: &Finding,
    row: &Explanation,
) {
    if values(out, before, octets, finding) {
        out.say(".");
    } else {
        out.say(row.meaning);
    }
}

/// Returns what an error has the DCE do, as a sentence.
pub fn consequence(finding: &Finding) -> &'static str {
    match finding.code {
        Code::Pad(_) => "No state changes.",
        Code::Number(code) => match finding.side {
            Side::N => "Nothing changes.",
            Side::T => reaction(finding.state, code),
        },
    }
}

/// What the DCE does after an error of the DTE in a state.
fn reaction(state: StateName, code: u8) -> &'static str {
    match state {
        StateName::Dash => "Nothing changes.",
        StateName::R1 | StateName::R2 | StateName::R3 => match code {
            PACKET_TOO_SHORT | PACKET_TOO_LONG => "Nothing changes.",
            _ => "The DCE restarts the interface (r3).",
        },
        StateName::D1 | StateName::D2 | StateName::D3 => "The DCE resets the channel (d3).",
        _ => "The DCE clears the channel (p7).",
    }
}

/// Writes what is wrong with the values of a row, where its values show it.
fn values<P: Prose>(out: &mut P, before: &Before, octets: &[u8], finding: &Finding) -> bool {
    let code = match finding.code {
        Code::Number(code) => code,
        Code::Pad(code) => {
            message_fault(out, before.message, code, finding.side);
            return true;
        }
    };
    match code {
        INVALID_P_S | INVALID_P_R if before.had_gap => number_after_gap(out, before, code),
        INVALID_P_S => send_number(out, before, finding.side),
        INVALID_P_R => receive_number(out, before, finding.side),
        CALL_ON_ONE_WAY_LOGICAL_CHANNEL => direction(out, before, finding.side),
        PACKET_ON_UNASSIGNED_LOGICAL_CHANNEL => channel(out, before, octets, finding.side),
        PACKET_TOO_SHORT | PACKET_TOO_LONG => length(out, before, finding),
        INVALID_GENERAL_FORMAT_IDENTIFIER => format(out, before, octets),
        UNIDENTIFIABLE_PACKET => packet_type(out, octets, ", the type of no packet"),
        INCONSISTENT_Q_BIT_SETTING => qualifier(out, before),
        FACILITY_PARAMETER_NOT_ALLOWED => facility_value(out, &before.interface, octets),
        INVALID_FACILITY_OR_REGISTRATION_LENGTH => facility_length(out, octets),
        _ => out_of_place(out, before, finding.side, code),
    }
}

/// Writes who sent which packet.
fn sent<P: Prose>(out: &mut P, before: &Before, side: Side) {
    out.say("The ");
    out.say(names::side(side));
    out.say(" sent ");
    out.say(article(&before.packet));
    out.say(packet_name(side, &before.packet));
}

/// Returns what comes before the name of a packet in a sentence.
fn article(packet: &Packet) -> &'static str {
    match packet {
        Packet::Channel { kind, .. } => match kind {
            PacketKind::Data(_) | PacketKind::Rr(_) | PacketKind::Rnr(_) | PacketKind::Rej => "",
            PacketKind::Interrupt | PacketKind::InterruptConfirm => "an ",
            _ => "a ",
        },
        _ => "a ",
    }
}

/// Writes that a packet came where it may not, and for what its side had to wait.
fn out_of_place<P: Prose>(out: &mut P, before: &Before, side: Side, code: u8) -> bool {
    let Some(place) = place(side, code) else {
        return false;
    };
    sent(out, before, side);
    out.say(place);
    true
}

/// Returns where a packet of a side came that may not come there, by the code.
fn place(side: Side, code: u8) -> Option<&'static str> {
    match code {
        INVALID_PACKET_TYPE_ON_A_PERMANENT_VIRTUAL_CIRCUIT => {
            Some(" on a permanent circuit, which has no calls")
        }
        REJECT_NOT_SUBSCRIBED_TO => Some(", and the interface has no packet retransmission"),
        RESTART_PACKET_WITH_NON_ZERO_LOGICAL_CHANNEL_IDENTIFIER => {
            Some(", and restarts are on channel 0")
        }
        UNAUTHORIZED_INTERRUPT_CONFIRMATION => Some(match side {
            Side::T => ", and no interrupt of the DCE waits for one",
            Side::N => ", and no interrupt of the DTE waits for one",
        }),
        UNAUTHORIZED_INTERRUPT => Some(match side {
            Side::T => " before the DCE confirmed its last one",
            Side::N => " before the DTE confirmed its last one",
        }),
        _ => match side {
            Side::T => place_of_dte(code),
            Side::N => place_of_dce(code),
        },
    }
}

/// Returns in which state the DTE sent a packet that may not come there.
fn place_of_dte(code: u8) -> Option<&'static str> {
    match code {
        PACKET_TYPE_INVALID_FOR_STATE_R1 => Some(" in r1, and no restart waits for one"),
        PACKET_TYPE_INVALID_FOR_STATE_R2 => Some(" in r2, before the DCE confirmed its restart"),
        PACKET_TYPE_INVALID_FOR_STATE_P1 => Some(" in p1, where the channel has no call"),
        PACKET_TYPE_INVALID_FOR_STATE_P2 => {
            Some(" in p2, before the DCE answered its call request")
        }
        PACKET_TYPE_INVALID_FOR_STATE_P3 => Some(" in p3, before it answered the incoming call"),
        PACKET_TYPE_INVALID_FOR_STATE_P4 => Some(" in p4, where the call is up"),
        PACKET_TYPE_INVALID_FOR_STATE_P5 => {
            Some(" in p5, before the DCE answered its call request, which met an incoming call")
        }
        PACKET_TYPE_INVALID_FOR_STATE_P6 => Some(" in p6, before the DCE confirmed its clear"),
        PACKET_TYPE_INVALID_FOR_STATE_D1 => Some(" in d1, and no reset waits for one"),
        PACKET_TYPE_INVALID_FOR_STATE_D2 => Some(" in d2, before the DCE confirmed its reset"),
        _ => None,
    }
}

/// Returns in which state the DCE sent a packet that may not come there.
fn place_of_dce(code: u8) -> Option<&'static str> {
    match code {
        PACKET_TYPE_INVALID_FOR_STATE_R1 => Some(" in r1, and no restart waits for one"),
        PACKET_TYPE_INVALID_FOR_STATE_R3 => Some(" in r3, before the DTE confirmed its restart"),
        PACKET_TYPE_INVALID_FOR_STATE_P1 => Some(" in p1, where the channel has no call"),
        PACKET_TYPE_INVALID_FOR_STATE_P2 => Some(" in p2, before it answered the call request"),
        PACKET_TYPE_INVALID_FOR_STATE_P3 => {
            Some(" in p3, before the DTE answered its incoming call")
        }
        PACKET_TYPE_INVALID_FOR_STATE_P4 => Some(" in p4, where the call is up"),
        PACKET_TYPE_INVALID_FOR_STATE_P5 => {
            Some(" in p5, before it answered the call request, which met its incoming call")
        }
        PACKET_TYPE_INVALID_FOR_STATE_P7 => Some(" in p7, before the DTE confirmed its clear"),
        PACKET_TYPE_INVALID_FOR_STATE_D1 => Some(" in d1, and no reset waits for one"),
        PACKET_TYPE_INVALID_FOR_STATE_D3 => Some(" in d3, before the DTE confirmed its reset"),
        _ => None,
    }
}

/// Writes what is wrong with a P(S) that is not the next one, or lies outside the window.
fn send_number<P: Prose>(out: &mut P, before: &Before, side: Side) -> bool {
    let Some(header) = before.packet.data_header() else {
        return false;
    };
    let window = send_window(before, side);
    say_number(out, "P(S) ", u64::from(header.send));
    if header.send != window.next {
        say_number(out, " where ", u64::from(window.next));
        out.say(" comes next");
        return true;
    }
    out.say(" where ");
    let highest = u64::from(window.lowest) + u64::from(window.window).saturating_sub(1);
    range(out, before, u64::from(window.lowest), highest);
    true
}

/// Writes what is wrong with a P(R) that acknowledges nothing that was sent.
fn receive_number<P: Prose>(out: &mut P, before: &Before, side: Side) -> bool {
    let Some(number) = acknowledged(&before.packet) else {
        return false;
    };
    let window = send_window(before, side.other());
    say_number(out, "P(R) ", u64::from(number));
    out.say(" where ");
    range(
        out,
        before,
        u64::from(window.lowest),
        u64::from(window.next),
    );
    true
}

/// Writes the P(S) or P(R) of a packet after a gap in its call, which no packet missing there explains.
fn number_after_gap<P: Prose>(out: &mut P, before: &Before, code: u8) -> bool {
    let (name, number) = match (code, before.packet.data_header()) {
        (INVALID_P_S, Some(header)) => ("P(S) ", Some(header.send)),
        _ => ("P(R) ", acknowledged(&before.packet)),
    };
    let Some(number) = number else {
        return false;
    };
    say_number(out, name, u64::from(number));
    out.say(", which no packet missing in the gap explains");
    true
}

/// Writes the numbers that were allowed, from a first to a last one, each modulo the modulus.
fn range<P: Prose>(out: &mut P, before: &Before, first: u64, last: u64) {
    let modulus = if before.interface.modulus == 8 {
        8
    } else {
        128
    };
    let last = last % modulus;
    out.number(first);
    if first == last {
        out.say(" alone was allowed");
        return;
    }
    say_number(out, " to ", last);
    out.say(" were allowed");
}

/// The P(R) of a packet.
fn acknowledged(packet: &Packet) -> Option<u8> {
    match packet {
        Packet::Channel { kind, .. } => match kind {
            PacketKind::Rr(number) | PacketKind::Rnr(number) => *number,
            PacketKind::Data(Some(header)) => Some(header.receive),
            _ => None,
        },
        _ => None,
    }
}

/// What a side could send before the row; on a channel without rows the first packet of a window.
fn send_window(before: &Before, side: Side) -> SendWindow {
    match before.view {
        Some(view) => view.flow.send_window(side),
        None => SendWindow {
            next: 0,
            lowest: 0,
            window: before.interface.window,
            interrupted: false,
        },
    }
}

/// Writes that a call goes against the direction of its channel.
fn direction<P: Prose>(out: &mut P, before: &Before, side: Side) -> bool {
    let interface = &before.interface;
    match side {
        Side::T => channels(out, interface.pvc, interface.incoming, "incoming"),
        Side::N => channels(out, interface.two_way, interface.svc, "outgoing"),
    }
    true
}

/// Writes which channels are for calls of one side.
fn channels<P: Prose>(out: &mut P, below: u16, last: u16, calls: &str) {
    say_number(out, "logical channels ", u64::from(below) + 1);
    say_number(out, " to ", u64::from(last));
    out.say(" are for ");
    out.say(calls);
    out.say(" calls");
}

/// Writes that the interface does not have a channel, or that channel 0 does not have a packet.
fn channel<P: Prose>(out: &mut P, before: &Before, octets: &[u8], side: Side) -> bool {
    let channel = logical_channel(octets);
    if channel > before.interface.svc {
        say_number(out, "logical channel ", u64::from(channel));
        say_number(out, " where ", u64::from(before.interface.svc));
        out.say(" is the last");
        return true;
    }
    if before.packet == Packet::Diagnostic {
        sent(out, before, side);
        out.say(", which only a DCE sends");
        return true;
    }
    packet_type(out, octets, ", the type of no packet on logical channel 0")
}

/// Writes how long a packet is whose length is wrong, and which lengths are allowed.
fn length<P: Prose>(out: &mut P, before: &Before, finding: &Finding) -> bool {
    if before.packet.data_header().is_some() {
        return data_length(out, before, finding.side);
    }
    count(out, "", before.length as u64, " octet");
    out.say(" where ");
    out.say(allowed(before, finding.code == Code::Number(PACKET_TOO_SHORT)));
    true
}

/// Returns the lengths that a packet may have, which is too short or too long.
fn allowed(before: &Before, is_short: bool) -> &'static str {
    let Packet::Channel { kind, .. } = &before.packet else {
        return match before.packet {
            Packet::Restart => "a restart has 4, or 5 with a diagnostic code",
            Packet::RestartConfirm => "a restart confirmation has 3",
            _ => "a packet has at least 3",
        };
    };
    match kind {
        PacketKind::Call if is_short =>
            "a call needs at least 5 with its address lengths and facility length, and those that they count",
        PacketKind::Accepted if is_short =>
            "an acceptance is cut within its addresses or facilities",
        PacketKind::Call => "call user data has at most 16, with fast select 128",
        PacketKind::Accepted =>
            "an acceptance has at most 128 of called user data, without fast select none",
        PacketKind::Clear => "a clear has at least 4, with its cause",
        PacketKind::Reset => "a reset has 4, or 5 with a diagnostic code",
        PacketKind::ResetConfirm => "a reset confirmation has 3",
        PacketKind::Interrupt => "an interrupt has 4 to 35, with 1 to 32 of user data",
        PacketKind::InterruptConfirm => "an interrupt confirmation has 3",
        _
            if is_short
                && !matches!(
                    kind,
                    PacketKind::Data(_) | PacketKind::Rr(_) | PacketKind::Rnr(_)
                ) => "a packet has at least 3",
        _ if before.interface.modulus == 8 => "modulo 8 has 3 for P(R)",
        _ => "modulo 128 has 4 for P(R)",
    }
}

/// Writes how long data is that is too long, and how long it may be, by the call or by the header.
fn data_length<P: Prose>(out: &mut P, before: &Before, side: Side) -> bool {
    let size = match before.view {
        Some(view) => match side {
            Side::T => view.size_t,
            Side::N => view.size_n,
        },
        None => before.interface.size,
    };
    count(
        out,
        "",
        user_octets(&before.interface, before.length),
        " octet",
    );
    say_number(out, " of user data where ", u64::from(size));
    out.say(if size == before.interface.size {
        " are allowed by SIZE of the header"
    } else {
        " are allowed by the facilities of the call"
    });
    true
}

/// Writes bits 6 and 5 of the first octet.
fn format<P: Prose>(out: &mut P, before: &Before, octets: &[u8]) -> bool {
    let [first, ..] = octets else {
        return false;
    };
    out.say("bits 6 and 5 of octet 1 are ");
    out.say(match *first / 16 % 4 {
        0 => "00",
        1 => "01",
        2 => "10",
        _ => "11",
    });
    out.say(if before.interface.modulus == 8 {
        " where modulo 8 has 01"
    } else {
        " where modulo 128 has 10"
    });
    true
}

/// Writes the type octet of a packet, with words after it.
fn packet_type<P: Prose>(out: &mut P, octets: &[u8], words: &str) -> bool {
    let [_, _, kind, ..] = octets else {
        return false;
    };
    out.say("octet 3 is ");
    out.octets(&[*kind]);
    out.say(words);
    true
}

/// Writes that a packet has another Q bit than its sequence.
fn qualifier<P: Prose>(out: &mut P, before: &Before) -> bool {
    let Some(header) = before.packet.data_header() else {
        return false;
    };
    out.say(if header.qualified {
        "Q 1 in a sequence that began with Q 0"
    } else {
        "Q 0 in a sequence that began with Q 1"
    });
    true
}
