//! Link headers of frames.

ghost use Rattle.std.specs.Prelude.{◌≡◌};
ghost use Rattle.capture_model.specs.Frames.{frame_view};
ghost use Rattle.capture_model.specs.HeaderViews.{header_view};
ghost use Rattle.capture_model.specs.LinkHeaders.{by_ppp, cisco, cooked_1, cooked_2, directed, direction_of, ethernet, has_control, has_lapb_address, header_of, plain, ppp};
ghost use Rattle.capture_model.specs.Views.{carried_view, payload_view};

use crate::carried::{Carried, Payload};
use crate::ethernet::{after, by_cooked, by_type, two_octets};
use crate::frame::{Direction, Frame};
use crate::kind::LinkKind;

/// What a link header says.
#[derive(Clone, Copy)]
pub struct LinkHeader<'a> {
    /// What comes after it.
    pub carried: Carried<'a>,
    /// The direction of the frame: that of the header, where it has one.
    pub direction: Direction,
    /// The link address of the sender; no octets where the header has none.
    pub source: &'a [u8],
    /// The index of the interface that a cooked header of version 2 has.
    pub index: Option<u32>,
}

/// Reads the link header of a frame.
pub fn read_header<'a>(kind: LinkKind, frame: &Frame<'a>) -> LinkHeader<'a>
    ensures { header_view result ≡ header_of kind (frame_view frame.now) }
{
    let payload = Payload {
        octets: frame.octets,
        length: frame.length,
    };
    match kind {
        LinkKind::Ethernet => ethernet(frame.direction, payload),
        LinkKind::Cooked1 => cooked_1(payload),
        LinkKind::Cooked2 => cooked_2(payload),
        LinkKind::Internet => plain(frame.direction, Carried::Internet(payload)),
        LinkKind::Loopback => plain(frame.direction, Carried::Internet(after(payload, 4))),
        LinkKind::Ppp => plain(frame.direction, ppp(payload)),
        LinkKind::Cisco => plain(frame.direction, cisco(payload)),
        LinkKind::Lapb => plain(frame.direction, Carried::Lapb(payload)),
        LinkKind::DirectedLapb => directed(payload, Carried::Lapb(after(payload, 1))),
        LinkKind::CheckedLapb => plain(frame.direction, Carried::CheckedLapb(payload)),
        LinkKind::Packet => plain(frame.direction, Carried::Packet(payload)),
        LinkKind::DirectedPacket => directed(payload, Carried::Packet(after(payload, 1))),
    }
}

/// Returns what a frame carries whose header has no direction and no address.
fn plain<'a>(direction: Direction, carried: Carried<'a>) -> LinkHeader<'a>
    ensures { header_view result ≡ plain direction (carried_view carried.entry) }
{
    LinkHeader {
        carried,
        direction,
        source: &[],
        index: None,
    }
}

/// Reads two addresses of six octets, then an Ethernet type.
fn ethernet<'a>(direction: Direction, payload: Payload<'a>) -> LinkHeader<'a>
    ensures { header_view result ≡ ethernet direction (payload_view payload.entry) }
{
    if payload.octets.len() < 12 {
        return plain(direction, Carried::Cut);
    }
    LinkHeader {
        carried: by_type(after(payload, 12)),
        direction,
        source: &payload.octets[6..12],
        index: None,
    }
}

/// Reads a cooked header of version 1: packet type, hardware type, length of the address, address, protocol.
fn cooked_1<'a>(payload: Payload<'a>) -> LinkHeader<'a>
    ensures { header_view result ≡ cooked_1 (payload_view payload.entry) }
{
    let octets = payload.octets;
    if octets.len() < 16 {
        return plain(Direction::Unknown, Carried::Cut);
    }
    LinkHeader {
        carried: by_cooked(two_octets(octets[14], octets[15]), after(payload, 16)),
        direction: direction_of(octets[1]),
        source: &octets[6..6 + usize::from(octets[5]).min(8)],
        index: None,
    }
}

/// Reads a cooked header of version 2: protocol, index of the interface, hardware type, packet type, length of the
/// address, address.
fn cooked_2<'a>(payload: Payload<'a>) -> LinkHeader<'a>
    ensures { header_view result ≡ cooked_2 (payload_view payload.entry) }
{
    let octets = payload.octets;
    if octets.len() < 20 {
        return plain(Direction::Unknown, Carried::Cut);
    }
    let index = u32::from_be_bytes([octets[4], octets[5], octets[6], octets[7]]);
    LinkHeader {
        carried: by_cooked(two_octets(octets[0], octets[1]), after(payload, 20)),
        direction: direction_of(octets[10]),
        source: &octets[12..12 + usize::from(octets[11]).min(8)],
        index: Some(index),
    }
}

/// Returns the direction that a packet type of a cooked header says: to the host (0, 1, 2), or from it (4).
fn direction_of(kind: u8) -> Direction
    ensures { result ≡ direction_of kind }
{
    match kind {
        0 | 1 | 2 => Direction::Received,
        4 => Direction::Sent,
        _ => Direction::Unknown,
    }
}

/// Reads an octet of the direction, which is 0 for a frame that the recording host received.
fn directed<'a>(payload: Payload<'a>, carried: Carried<'a>) -> LinkHeader<'a>
    ensures { header_view result ≡ directed (payload_view payload.entry) (carried_view carried.entry) }
{
    match payload.octets {
        [] => plain(Direction::Unknown, Carried::Cut),
        [0, ..] => plain(Direction::Received, carried),
        _ => plain(Direction::Sent, carried),
    }
}

/// Reads PPP: its address and control octets, which may be left out, then a protocol.
fn ppp<'a>(payload: Payload<'a>) -> Carried<'a>
    ensures { carried_view result ≡ ppp (payload_view payload.entry) }
{
    if has_lapb_address(payload.octets) {
        return Carried::Lapb(payload);
    }
    if has_control(payload.octets) {
        return by_ppp(after(payload, 2));
    }
    by_ppp(payload)
}

/// Returns whether the address is that of a LAPB frame.
fn has_lapb_address(octets: &[u8]) -> bool
    ensures { result ≡ has_lapb_address octets.now }
{
    matches!(octets, [1 | 3, ..])
}

/// Returns whether the address and control octets of PPP are there.
fn has_control(octets: &[u8]) -> bool
    ensures { result ≡ has_control octets.now }
{
    matches!(octets, [0xFF, 3, ..])
}

/// Returns what a protocol of PPP carries.
fn by_ppp<'a>(payload: Payload<'a>) -> Carried<'a>
    ensures { carried_view result ≡ by_ppp (payload_view payload.entry) }
{
    match payload.octets {
        [0, 0x21 | 0x57, ..] => Carried::Internet(after(payload, 2)),
        [_, _, ..] => Carried::Other,
        _ => Carried::Cut,
    }
}

/// Reads Cisco HDLC: address 0F or 8F, an octet, and an Ethernet type. Other addresses mean LAPB.
fn cisco<'a>(payload: Payload<'a>) -> Carried<'a>
    ensures { carried_view result ≡ cisco (payload_view payload.entry) }
{
    let octets = payload.octets;
    if octets.len() < 2 {
        return Carried::Cut;
    }
    if octets.len() >= 4 && matches!(octets[0], 0x0F | 0x8F) {
        return by_cooked(two_octets(octets[2], octets[3]), after(payload, 4));
    }
    Carried::Lapb(payload)
}
