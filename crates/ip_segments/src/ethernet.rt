//! What comes after Ethernet types, MPLS labels and protocols of PPP.

ghost use Rattle.std.specs.Prelude.{◌≡◌, ◌+◌, ◌≤◌, false, length};
ghost use Rattle.capture_model.specs.Ethernet.{is_tag, is_tagged, untagged};
ghost use Rattle.capture_model.specs.Views.{payload_view};
ghost use Rattle.ip_segments.specs.CarrierViews.{layer_view};
ghost use Rattle.ip_segments.specs.Carriers.{by_labels, by_ppp, by_protocol, by_type, by_version, cisco, cooked, framed_ppp, has_label, is_cisco, labels, ppp, type_of, types};

use crate::carriers::{CarrierFault, Layer};
use crate::numbers::{after, read_two};
use capture_model::carried::Payload;

/// Returns whether a protocol is that of a VLAN tag (IEEE 802.1Q).
fn is_tag(protocol: u16) -> bool
    ensures { result ≡ is_tag protocol }
{
    matches!(protocol, 0x8100 | 0x88A8 | 0x9100)
}

/// Returns whether octets begin with a whole tag: its type and its control information.
fn is_tagged(octets: &[u8]) -> bool
    ensures { result ≡ is_tagged octets.now }
{
    match octets {
        [high, low, _, _, ..] => is_tag(u16::from(*high) * 256 + u16::from(*low)),
        _ => false,
    }
}

/// Returns what comes after VLAN tags.
#[tactic(auto, using(capture_model::proofs::Tags::untagged_tag, capture_model::proofs::Tags::untagged_none, capture_model::proofs::Tags::tagged_long))]
fn untagged<'a>(payload: Payload<'a>) -> Payload<'a>
    ensures { payload_view result ≡ untagged payload.entry.octets.now payload.entry.length }
{
    let mut payload = payload;
    while is_tagged(payload.octets) {
        payload = after(payload, 4);
    }
    payload
}

/// Returns whether octets begin with an MPLS label that is not the last one.
fn has_label(octets: &[u8]) -> bool
    ensures { result ≡ has_label octets.now }
{
    match octets {
        [_, _, flags, _, _, ..] => flags % 2 == 0,
        _ => false,
    }
}

/// Returns what comes after the labels before the last one.
#[tactic(auto, using(crate::proofs::Labels::labels_on, crate::proofs::Labels::label_long))]
fn last_label<'a>(payload: Payload<'a>) -> Payload<'a>
    ensures last { has_label result.octets.now ≡ false }
    ensures same { by_labels result.octets.now result.length ≡ by_labels payload.entry.octets.now payload.entry.length }
{
    let mut payload = payload;
    while has_label(payload.octets) {
        payload = after(payload, 4);
    }
    payload
}

/// Returns what comes after MPLS labels.
#[tactic(auto, using(crate::proofs::Labels::labels_cut, crate::proofs::Labels::labels_end))]
fn labels<'a>(payload: Payload<'a>) -> Layer<'a>
    ensures { layer_view result ≡ labels (payload_view payload.entry) }
{
    let payload = last_label(payload);
    let octets = payload.octets;
    if octets.len() < 5 {
        return Layer::Neither(CarrierFault::Cut);
    }
    by_version(octets[4] / 16, after(payload, 4))
}

/// Returns what comes after the last label, by its first four bits.
fn by_version<'a>(version: u8, payload: Payload<'a>) -> Layer<'a>
    ensures { layer_view result ≡ by_version version (payload_view payload.entry) }
{
    match version {
        4 | 6 => Layer::Internet(payload),
        0 => Layer::Ethernet(after(payload, 16)),
        _ => Layer::Neither(CarrierFault::OtherProtocol),
    }
}

/// Returns what a protocol of PPP carries.
fn by_ppp<'a>(protocol: u16, payload: Payload<'a>) -> Layer<'a>
    ensures { layer_view result ≡ by_ppp protocol (payload_view payload.entry) }
{
    match protocol {
        0x0021 | 0x0057 => Layer::Internet(payload),
        0x0281 | 0x0283 => labels(payload),
        _ => Layer::Neither(CarrierFault::OtherProtocol),
    }
}

/// Returns what PPP carries.
fn ppp<'a>(payload: Payload<'a>) -> Layer<'a>
    ensures { layer_view result ≡ ppp (payload_view payload.entry) }
{
    if payload.octets.len() < 2 {
        return Layer::Neither(CarrierFault::Cut);
    }
    by_ppp(read_two(payload.octets, 0), after(payload, 2))
}

/// Returns what PPP carries, perhaps after its address and control octets.
pub(crate) fn framed_ppp<'a>(payload: Payload<'a>) -> Layer<'a>
    ensures { layer_view result ≡ framed_ppp (payload_view payload.entry) }
{
    match payload.octets {
        [0xFF, 3, ..] => ppp(after(payload, 2)),
        _ => ppp(payload),
    }
}

/// Returns what an Ethernet type carries that is not a tag's.
fn by_type<'a>(protocol: u16, payload: Payload<'a>) -> Layer<'a>
    ensures { layer_view result ≡ by_type protocol (payload_view payload.entry) }
{
    match protocol {
        0x0800 | 0x86DD => Layer::Internet(payload),
        0x8847 | 0x8848 => labels(payload),
        0x8864 => ppp(after(payload, 6)),
        0x8100 | 0x88A8 | 0x9100 => Layer::Neither(CarrierFault::Cut),
        _ => Layer::Neither(CarrierFault::OtherProtocol),
    }
}

/// Returns what comes after an Ethernet type.
fn type_of<'a>(payload: Payload<'a>) -> Layer<'a>
    ensures { layer_view result ≡ type_of (payload_view payload.entry) }
{
    if payload.octets.len() < 2 {
        return Layer::Neither(CarrierFault::Cut);
    }
    by_type(read_two(payload.octets, 0), after(payload, 2))
}

/// Returns what comes after an Ethernet type, perhaps after VLAN tags.
pub(crate) fn types<'a>(payload: Payload<'a>) -> Layer<'a>
    ensures { layer_view result ≡ types (payload_view payload.entry) }
{
    type_of(untagged(payload))
}

/// Returns what an Ethernet type carries that stands before other fields.
pub(crate) fn by_protocol<'a>(protocol: u16, payload: Payload<'a>) -> Layer<'a>
    ensures { layer_view result ≡ by_protocol protocol (payload_view payload.entry) }
{
    if is_tag(protocol) {
        types(after(payload, 2))
    } else {
        by_type(protocol, payload)
    }
}

/// Returns what comes after a cooked header of this size, which has its protocol at a place.
pub(crate) fn cooked<'a>(size: u32, at: u8, payload: Payload<'a>) -> Layer<'a>
    requires { at + 2 ≤ size }
    ensures { layer_view result ≡ cooked size at (payload_view payload.entry) }
{
    if payload.octets.len() < size as usize {
        return Layer::Neither(CarrierFault::Cut);
    }
    by_protocol(
        read_two(payload.octets, usize::from(at)),
        after(payload, size),
    )
}

/// Returns whether octets begin with the address of Cisco HDLC.
fn is_cisco(octets: &[u8]) -> bool
    requires { 4 ≤ length octets.now }
    ensures { result ≡ is_cisco octets.now }
{
    octets[0] == 0x0F || octets[0] == 0x8F
}

/// Returns what Cisco HDLC carries.
pub(crate) fn cisco<'a>(payload: Payload<'a>) -> Layer<'a>
    ensures { layer_view result ≡ cisco (payload_view payload.entry) }
{
    if payload.octets.len() < 4 {
        return Layer::Neither(CarrierFault::Cut);
    }
    if !is_cisco(payload.octets) {
        return Layer::Neither(CarrierFault::OtherProtocol);
    }
    by_protocol(read_two(payload.octets, 2), after(payload, 4))
}
