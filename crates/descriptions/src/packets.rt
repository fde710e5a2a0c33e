//! What a packet is: its name, its logical channel and its fields.

use crate::calls::call;
use crate::causes::{CauseTable, Causes};
use crate::diagnostics::diagnostic;
use crate::facts::{RowFacts, user_octets};
use crate::names;
use crate::packet_names::packet_name;
use crate::prose::{Prose, bracketed, count, say_number};
use line_model::packet::{DataHeader, Packet, PacketKind};

/// Says the packet of a row, with its side, its logical channel and its fields.
pub fn packet<P: Prose>(out: &mut P, facts: &RowFacts<'_>) {
    let side = facts.last.side;
    match &facts.last.packet {
        Packet::Channel { channel, kind } => {
            out.say(names::side(side));
            say_number(out, ", logical channel ", u64::from(*channel));
            out.say(": ");
            out.say(packet_name(side, &facts.last.packet));
            channel_fields(out, facts, kind)
        }
        packet => {
            out.say(names::side(side));
            out.say(": ");
            out.say(packet_name(side, packet));
            interface_fields(out, facts, packet)
        }
    }
}

/// The fields of a packet that is on no logical channel.
fn interface_fields<P: Prose>(out: &mut P, facts: &RowFacts<'_>, packet: &Packet) {
    match packet {
        Packet::Restart => causes(out, facts, CauseTable::Restarting),
        Packet::Diagnostic => match facts.octets {
            [_, _, _, code, ..] => say_diagnostic(out, *code),
            _ => {}
        },
        _ => {}
    }
}

/// The fields of a packet on a logical channel.
fn channel_fields<P: Prose>(out: &mut P, facts: &RowFacts<'_>, kind: &PacketKind) {
    match kind {
        PacketKind::Call | PacketKind::Accepted => call(out, facts),
        PacketKind::Clear => causes(out, facts, CauseTable::Clearing),
        PacketKind::Reset => causes(out, facts, CauseTable::Resetting),
        PacketKind::Data(Some(header)) => data(
            out,
            header,
            user_octets(facts.interface, facts.length),
        ),
        PacketKind::Rr(Some(number)) | PacketKind::Rnr(Some(number)) => say_number(
            out,
            ", P(R) ",
            u64::from(*number),
        ),
        PacketKind::Data(None) | PacketKind::Rr(None) | PacketKind::Rnr(None) => out.say(
            ", its header is cut",
        ),
        PacketKind::Interrupt => {
            count(out, ", ", facts.length.saturating_sub(3) as u64, " octet");
        }
        _ => {}
    }
}

/// A cause by number and name, and the diagnostic code after it, where the packet has them.
fn causes<P: Prose>(out: &mut P, facts: &RowFacts<'_>, table: CauseTable) {
    let said = Causes::of(facts.octets);
    if let Some(cause) = said.cause {
        say_number(out, ", cause ", u64::from(cause));
        bracketed(out, table.name(cause));
    }
    if let Some(code) = said.diagnostic {
        say_diagnostic(out, code);
    }
}

/// A diagnostic code by number and name.
fn say_diagnostic<P: Prose>(out: &mut P, code: u8) {
    say_number(out, ", diagnostic ", u64::from(code));
    bracketed(out, diagnostic(code));
}

/// A bit that is 1 by its name.
fn bit<P: Prose>(out: &mut P, name: &str, is_set: bool) {
    if is_set {
        out.say(name);
    }
}

/// The header of a data packet, and how much user data it has.
fn data<P: Prose>(out: &mut P, header: &DataHeader, user_octets: u64) {
    say_number(out, ", P(S) ", u64::from(header.send));
    say_number(out, ", P(R) ", u64::from(header.receive));
    bit(out, ", M", header.more);
    bit(out, ", D", header.delivery);
    bit(out, ", Q", header.qualified);
    count(out, ", ", user_octets, " octet");
}
