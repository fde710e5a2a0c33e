//! TCP segments (RFC 9293).

ghost use Rattle.std.specs.Prelude.{◌≡◌};
ghost use Rattle.std.specs.Result.{result_map_both};
ghost use Rattle.capture_model.specs.Views.{payload_view};
ghost use Rattle.ip_segments.specs.Segments.{acknowledged, segment_of};
ghost use Rattle.ip_segments.specs.Views.{segment_view};

use crate::fault::HeaderFault;
use crate::numbers::{after, read_four, read_two};
use capture_model::carried::Payload;

/// A TCP segment.
#[derive(Clone, Copy)]
pub struct Segment<'a> {
    /// The port of its sender.
    pub source: u16,
    /// The port of its receiver.
    pub target: u16,
    /// Its sequence number.
    pub sequence: u32,
    /// The number of the octet that its sender expects next; `None` without the ACK flag.
    pub acknowledged: Option<u32>,
    /// Whether it opens its direction (SYN).
    pub is_syn: bool,
    /// Whether it ends its direction (FIN).
    pub is_fin: bool,
    /// Whether it gives up the connection (RST).
    pub is_reset: bool,
    /// The octets that it carries.
    pub payload: Payload<'a>,
}

/// Reads the segment that a datagram carries. The checksum and the options are not judged.
#[tactic(auto, unfolding(crate::specs::Segments::segment_of))]
pub fn read_segment(payload: Payload<'_>) -> Result<Segment<'_>, HeaderFault>
    ensures { result_map_both segment_view (λ fault. fault) result ≡ segment_of (payload_view payload.entry) }
{
    let octets = payload.octets;
    if octets.len() < 20 || payload.length < 20 {
        return Err(HeaderFault::TcpCut);
    }
    let header = octets[12] / 16 * 4;
    if header < 20 || payload.length < u32::from(header) {
        return Err(HeaderFault::TcpLength(header));
    }
    let flags = octets[13];
    Ok(Segment {
        source: read_two(octets, 0),
        target: read_two(octets, 2),
        sequence: read_four(octets, 4),
        acknowledged: acknowledged(flags, read_four(octets, 8)),
        is_syn: flags / 2 % 2 == 1,
        is_fin: flags % 2 == 1,
        is_reset: flags / 4 % 2 == 1,
        payload: after(payload, u32::from(header)),
    })
}

/// Returns the acknowledgement number, where the ACK flag says that it counts.
fn acknowledged(flags: u8, number: u32) -> Option<u32>
    ensures { result ≡ acknowledged flags number }
{
    if flags / 16 % 2 == 1 {
        Some(number)
    } else {
        None
    }
}
