//! A row as it is read, by a reference to its octets.

ghost use Rattle.std.specs.Prelude.{◌≡◌};
ghost use Rattle.line_model.specs.packets.Classes.{packet_of};
ghost use Rattle.line_model.specs.packets.Says.{gap_packet, packet_or_gap};

use line_model::interface::Interface;
use line_model::packet::{Packet, PacketKind};
use line_model::state::Side;
use packet_decode::decode::decode;
use std::marker::Model;

/// A row as it is read, by a reference to its octets.
#[derive(Drop)]
pub(crate) struct RowRef<'a> {
    /// The packet number.
    pub(crate) number: u32,
    /// The side that sent it.
    pub(crate) side: Side,
    /// How many octets it has.
    pub(crate) length: usize,
    /// The octets that are read of it.
    pub(crate) octets: &'a [u8],
    /// The gap that it is, of a channel or of all.
    pub(crate) gap: Option<Option<u16>>,
}

impl<'a> Model for RowRef<'a> {
    ghost use Rattle.line_model.specs.basics.Records as records;

    ghost Value = { records.ReadRow };

    ghost view = { λ r. record { number = r.number; side = r.side; length = r.length; octets = r.octets.now; gap = r.gap } };
}

impl RowRef<'_> {
    /// Returns the packet that the octets are, or the gap that the row is.
    #[inline(always)]
    pub(crate) fn packet(&self, interface: &Interface) -> Packet
        ensures { result ≡ packet_or_gap self.now.gap (packet_of interface.now self.now.octets) }
    {
        match self.gap {
            Some(gap) => gap_packet(gap),
            None => decode(interface, self.octets),
        }
    }
}

/// Returns the packet that represents a gap of a channel, or of all.
#[inline(always)]
fn gap_packet(gap: Option<u16>) -> Packet
    ensures { result ≡ gap_packet gap }
{
    match gap {
        None => Packet::GapOfAll,
        Some(channel) => Packet::Channel {
            channel,
            kind: PacketKind::Gap,
        },
    }
}
