//! What a TCP segment of other ports than that of XOT shows of them.

ghost use Rattle.std.specs.Prelude.{◌≡◌, IfSome};
ghost use Rattle.std.specs.Option.{option_map};
ghost use Rattle.ip_segments.specs.Views.{segment_view};
ghost use Rattle.capture_report.specs.PortSights.{first_packet, packet_weight, pair_of, port_sight, split_packet, type_weight, weight};

use ip_segments::segment::Segment;

/// How many octets a packet has at the least and at the most.
const SHORTEST: usize = 3;

const LONGEST: usize = 4200;

/// Two ports, the lower one first.
#[derive(Clone, Copy, PartialEq, Eq, PartialOrd, Ord)]
pub(crate) struct PortPair {
    pub low: u16,
    pub high: u16,
}

impl PortPair {
    ghost use Rattle.capture_report.specs.PortSights.{has_port};

    /// Returns whether a port is one of them.
    pub(crate) fn has(&self, port: u16) -> bool
        ensures { result ≡ has_port port self.now }
    {
        self.low == port || self.high == port
    }
}

/// What a segment shows of its ports.
#[derive(Clone, Copy)]
pub(crate) enum PortSight {
    /// Nothing.
    Nothing,
    /// A connection is opened to this port.
    Server(u16),
    /// The octets between these ports are whole packets of XOT, with this weight.
    Xot(PortPair, u8),
}

/// Returns the first packet of a stream of XOT and the octets after it, if all of it is there.
fn first_packet(octets: &[u8]) -> Option<(&[u8], &[u8])>
    ensures { option_map (λ p. (p.0.now, p.1.now)) result ≡ first_packet octets.now }
{
    match octets {
        [0, 0, high, low, rest @ ..] => {
            split_packet(usize::from(*high) * 256 + usize::from(*low), rest)
        }
        _ => None,
    }
}

/// Returns a packet of so many octets, and the octets after it.
fn split_packet(length: usize, octets: &[u8]) -> Option<(&[u8], &[u8])>
    ensures { option_map (λ p. (p.0.now, p.1.now)) result ≡ split_packet length octets.now }
{
    if length < SHORTEST || length > LONGEST || length > octets.len() {
        return None;
    }
    Some(octets.split_at(length))
}

/// Returns the weight of a packet: many, if it sets up or clears a call.
fn type_weight(identifier: u8) -> u8
    ensures { result ≡ type_weight identifier }
{
    match identifier {
        0x0B | 0x0F | 0x13 | 0x17 => 3,
        _ => 1,
    }
}

/// Returns the weight of what may be a packet of X.25; 0 of what is none.
fn packet_weight(packet: &[u8]) -> u8
    ensures { result ≡ packet_weight packet.now }
{
    match packet {
        [format, _, identifier, ..] if matches!(*format / 16 % 4, 1 | 2) => type_weight(
            *identifier,
        ),
        _ => 0,
    }
}

/// Returns the greatest weight of octets that are whole packets of XOT; 0 of other octets.
fn weight(octets: &[u8]) -> u8
    ensures { result ≡ weight octets.now }
{
    let mut found = 0;
    let mut rest = octets;
    for _ in 0..octets.len() {
        if rest.is_empty() {
            return found;
        }
        let Some((packet, after)) = first_packet(rest) else {
            return 0;
        };
        let more = packet_weight(packet);
        if more == 0 {
            return 0;
        }
        found = found.max(more);
        rest = after;
    }
    0
}

/// Returns two ports as a pair.
fn pair_of(one: u16, other: u16) -> PortPair
    ensures { result ≡ pair_of one other }
{
    if one <= other {
        PortPair {
            low: one,
            high: other,
        }
    } else {
        PortPair {
            low: other,
            high: one,
        }
    }
}

/// Returns what a segment shows of its ports.
pub(crate) fn port_sight(segment: &Segment<'_>) -> PortSight
    ensures { result ≡ port_sight (segment_view segment.now) }
{
    if segment.is_syn {
        let server = if segment.acknowledged.is_some() {
            segment.source
        } else {
            segment.target
        };
        return PortSight::Server(server);
    }
    match weight(segment.payload.octets) {
        0 => PortSight::Nothing,
        found => PortSight::Xot(pair_of(segment.source, segment.target), found),
    }
}
