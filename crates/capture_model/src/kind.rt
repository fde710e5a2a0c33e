//! The link headers that are read.

ghost use Rattle.std.specs.Prelude.{◌≡◌};
ghost use Rattle.capture_model.specs.Kinds.{kind_of_link};

/// A link header.
#[derive(Clone, Copy, PartialEq, Eq, Debug)]
pub enum LinkKind {
    /// Ethernet, with VLAN tags or without.
    Ethernet,
    /// Linux cooked, version 1.
    Cooked1,
    /// Linux cooked, version 2.
    Cooked2,
    /// None: an IPv4 or IPv6 datagram.
    Internet,
    /// BSD loopback: an address family of four octets, then a datagram.
    Loopback,
    /// PPP, with its address and control octets or without; with address 01 or 03 it is LAPB.
    Ppp,
    /// Cisco HDLC; with another address than 0F and 8F it is LAPB.
    Cisco,
    /// None: a LAPB frame without flags and check sequence.
    Lapb,
    /// An octet of the direction, then a LAPB frame.
    DirectedLapb,
    /// None: a LAPB frame with its check sequence, and perhaps with flags.
    CheckedLapb,
    /// None: an X.25 packet.
    Packet,
    /// An octet of the direction, then an X.25 packet.
    DirectedPacket,
}

/// Returns the header of a link type (LINKTYPE_ of pcap and pcapng); `None` where it is unknown, as 147 to 162 are, which
/// are for private use.
pub fn kind_of_link(link: u16) -> Option<LinkKind>
    ensures { result ≡ kind_of_link link }
{
    match link {
        0 | 108 => Some(LinkKind::Loopback),
        1 => Some(LinkKind::Ethernet),
        9 | 50 => Some(LinkKind::Ppp),
        12 | 14 | 101 | 228 | 229 => Some(LinkKind::Internet),
        104 => Some(LinkKind::Cisco),
        113 => Some(LinkKind::Cooked1),
        207 => Some(LinkKind::DirectedLapb),
        276 => Some(LinkKind::Cooked2),
        _ => None,
    }
}
