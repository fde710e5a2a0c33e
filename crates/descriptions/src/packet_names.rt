//! The names of packets.

use line_model::packet::{Packet, PacketKind};
use line_model::state::Side;

/// The name of a packet in a comment (X.25 Table 5-2), and the word of its kind in an object of a row (profile).
type PacketNames = (&'static str, &'static str);

/// Returns the name of a packet of a side (X.25 Table 5-2).
pub fn packet_name(from: Side, packet: &Packet) -> &'static str {
    names(from, packet).0
}

/// Returns the kind of a packet of a side in one word (profile).
pub fn packet_type(from: Side, packet: &Packet) -> &'static str {
    names(from, packet).1
}

/// The names of a packet of a side.
fn names(from: Side, packet: &Packet) -> PacketNames {
    match (from, packet) {
        (_, Packet::Short) => ("cut packet", "cut"),
        (_, Packet::WrongFormat) => (
            "packet with another general format identifier",
            "wrong_format",
        ),
        (_, Packet::Unassigned) => ("packet on an unassigned logical channel", "unassigned"),
        (_, Packet::Diagnostic) => ("diagnostic packet", "diagnostic"),
        (Side::T, Packet::Registration) => ("registration request", "registration_request"),
        (Side::N, Packet::Registration) => (
            "registration confirmation",
            "registration_confirmation",
        ),
        (Side::T, Packet::Restart) => ("restart request", "restart_request"),
        (Side::N, Packet::Restart) => ("restart indication", "restart_indication"),
        (_, Packet::RestartConfirm) => ("restart confirmation", "restart_confirmation"),
        (_, Packet::Channel { kind, .. }) => channel_packet(from, kind),
        (_, Packet::GapOfAll) => ("gap of all logical channels", "gap"),
    }
}

/// The names of a packet of a side on a logical channel.
fn channel_packet(from: Side, kind: &PacketKind) -> PacketNames {
    match (from, kind) {
        (_, PacketKind::TwoOctets) => ("packet without a type", "no_type"),
        (_, PacketKind::RestartHere) => (
            "restart packet on another channel than 0",
            "restart_on_channel",
        ),
        (Side::T, PacketKind::Call) => ("call request", "call_request"),
        (Side::N, PacketKind::Call) => ("incoming call", "incoming_call"),
        (Side::T, PacketKind::Accepted) => ("call accepted", "call_accepted"),
        (Side::N, PacketKind::Accepted) => ("call connected", "call_connected"),
        (Side::T, PacketKind::Clear) => ("clear request", "clear_request"),
        (Side::N, PacketKind::Clear) => ("clear indication", "clear_indication"),
        (_, PacketKind::ClearConfirm) => ("clear confirmation", "clear_confirmation"),
        (_, PacketKind::Interrupt) => ("interrupt", "interrupt"),
        (_, PacketKind::InterruptConfirm) => ("interrupt confirmation", "interrupt_confirmation"),
        (Side::T, PacketKind::Reset) => ("reset request", "reset_request"),
        (Side::N, PacketKind::Reset) => ("reset indication", "reset_indication"),
        (_, PacketKind::ResetConfirm) => ("reset confirmation", "reset_confirmation"),
        (_, PacketKind::Data(_)) => ("data", "data"),
        (_, PacketKind::Rr(_)) => ("RR", "rr"),
        (_, PacketKind::Rnr(_)) => ("RNR", "rnr"),
        (_, PacketKind::Rej) => ("REJ", "rej"),
        (_, PacketKind::Undefined) => ("packet of an undefined type", "undefined"),
        (_, PacketKind::Gap) => ("gap", "gap"),
    }
}
