//! What an Ethernet type carries.

ghost use Rattle.std.specs.Prelude.{◌≡◌};
ghost use Rattle.capture_model.specs.Ethernet.{after, by_cooked, by_protocol, by_type, is_tag, is_tagged, lapb_over_ethernet, two_octets, untagged};
ghost use Rattle.capture_model.specs.Views.{carried_view, payload_view};

use crate::carried::{Carried, Payload};

/// Returns the number of two octets, the high one first.
pub(crate) fn two_octets(high: u8, low: u8) -> u16
    ensures { result ≡ two_octets high low }
{
    u16::from(high) * 256 + u16::from(low)
}

/// Returns whether a protocol is that of a VLAN tag (IEEE 802.1Q).
fn is_tag(protocol: u16) -> bool
    ensures { result ≡ is_tag protocol }
{
    matches!(protocol, 0x8100 | 0x88A8 | 0x9100)
}

/// Returns what comes after some octets, none where there are fewer.
pub(crate) fn after<'a>(payload: Payload<'a>, count: u8) -> Payload<'a>
    ensures { payload_view result ≡ after count (payload_view payload.entry) }
{
    let (_, octets) = payload
        .octets
        .split_at(usize::from(count).min(payload.octets.len()));
    Payload {
        octets,
        length: payload.length.saturating_sub(u32::from(count)),
    }
}

/// Returns whether octets begin with a whole tag: its type and its control information.
fn is_tagged(octets: &[u8]) -> bool
    ensures { result ≡ is_tagged octets.now }
{
    match octets {
        [high, low, _, _, ..] => is_tag(two_octets(*high, *low)),
        _ => false,
    }
}

/// Returns what comes after VLAN tags.
#[tactic(auto, using(crate::proofs::Tags::untagged_tag, crate::proofs::Tags::untagged_none, crate::proofs::Tags::tagged_long))]
fn untagged<'a>(payload: Payload<'a>) -> Payload<'a>
    ensures { payload_view result ≡ untagged payload.entry.octets.now payload.entry.length }
{
    let mut payload = payload;
    while is_tagged(payload.octets) {
        payload = after(payload, 4);
    }
    payload
}

/// Returns what an Ethernet type carries, perhaps after VLAN tags.
pub(crate) fn by_type<'a>(payload: Payload<'a>) -> Carried<'a>
    ensures { carried_view result ≡ by_type (payload_view payload.entry) }
{
    let payload = untagged(payload);
    match payload.octets {
        [high, low, octets @ ..] => {
            let rest = Payload {
                octets,
                length: payload.length.saturating_sub(2),
            };
            by_protocol(two_octets(*high, *low), rest)
        }
        _ => Carried::Cut,
    }
}

/// Returns what a protocol carries: a tag carries nothing here.
fn by_protocol<'a>(protocol: u16, payload: Payload<'a>) -> Carried<'a>
    ensures { carried_view result ≡ by_protocol protocol (payload_view payload.entry) }
{
    match protocol {
        0x0800 | 0x86DD => Carried::Internet(payload),
        0x0805 => Carried::Device(payload),
        0x0019 => Carried::Lapb(payload),
        0x6000 => lapb_over_ethernet(payload),
        0x8100 | 0x88A8 | 0x9100 => Carried::Cut,
        _ => Carried::Other,
    }
}

/// Returns what the protocol of a cooked header carries.
pub(crate) fn by_cooked<'a>(protocol: u16, payload: Payload<'a>) -> Carried<'a>
    ensures { carried_view result ≡ by_cooked protocol (payload_view payload.entry) }
{
    if is_tag(protocol) {
        by_type(after(payload, 2))
    } else {
        by_protocol(protocol, payload)
    }
}

/// Returns the LAPB frame after its length, the low octet first, as `lapbether` of Linux sends it.
fn lapb_over_ethernet<'a>(payload: Payload<'a>) -> Carried<'a>
    ensures { carried_view result ≡ lapb_over_ethernet (payload_view payload.entry) }
{
    match payload.octets {
        [low, high, rest @ ..] => {
            let length = two_octets(*high, *low);
            if u32::from(length) > payload.length.saturating_sub(2) {
                return Carried::Other;
            }
            let (octets, _) = rest.split_at(usize::from(length).min(rest.len()));
            Carried::Lapb(Payload {
                octets,
                length: u32::from(length),
            })
        }
        _ => Carried::Cut,
    }
}
