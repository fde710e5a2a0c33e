//! Numbers in headers, the high octet first.

ghost use Rattle.std.specs.Prelude.{◌≡◌, ◌+◌, ◌≤◌, length};
ghost use Rattle.capture_model.specs.Views.{payload_view};
ghost use Rattle.ip_segments.specs.Numbers.{after, four, two, within};

use capture_model::carried::Payload;

/// Returns the number of the two octets at a place.
#[tactic(auto, unfolding(crate::specs::Numbers::two))]
pub(crate) fn read_two(octets: &[u8], at: usize) -> u16
    requires { at + 2 ≤ length octets.now }
    ensures { result ≡ two at octets.now }
{
    u16::from_be_bytes([octets[at], octets[at + 1]])
}

/// Returns the number of the four octets at a place.
#[tactic(auto, unfolding(crate::specs::Numbers::four))]
pub(crate) fn read_four(octets: &[u8], at: usize) -> u32
    requires { at + 4 ≤ length octets.now }
    ensures { result ≡ four at octets.now }
{
    u32::from_be_bytes([octets[at], octets[at + 1], octets[at + 2], octets[at + 3]])
}

/// Returns what comes after some octets, none where there are fewer.
pub(crate) fn after<'a>(payload: Payload<'a>, count: u32) -> Payload<'a>
    ensures { payload_view result ≡ after count (payload_view payload.entry) }
{
    let (_, octets) = payload
        .octets
        .split_at((count as usize).min(payload.octets.len()));
    Payload {
        octets,
        length: payload.length.saturating_sub(count),
    }
}

/// Returns the first octets of a packet that has this length.
pub(crate) fn within<'a>(octets: &'a [u8], length: u32) -> Payload<'a>
    ensures { payload_view result ≡ within length octets.entry.now }
{
    let (octets, _) = octets.split_at((length as usize).min(octets.len()));
    Payload { octets, length }
}
