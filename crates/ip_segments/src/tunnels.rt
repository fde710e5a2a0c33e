//! Tunnels in datagrams: GRE and VXLAN.

ghost use Rattle.std.specs.Prelude.{◌≡◌, ◌≤◌, length};
ghost use Rattle.capture_model.specs.Views.{payload_view};
ghost use Rattle.ip_segments.specs.CarrierViews.{layer_view};
ghost use Rattle.ip_segments.specs.Carriers.{gre, gre_size, in_gre, is_gre_0, is_vxlan, vxlan};

use crate::carriers::{CarrierFault, Layer};
use crate::ethernet::{by_protocol, types};
use crate::numbers::{after, read_two};
use capture_model::carried::Payload;

/// The protocol of Ethernet in GRE.
const ETHERNET: u16 = 0x6558;

/// Returns how many octets a GRE header has: four, and four each for a checksum, a key and a sequence number.
fn gre_size(flags: u8) -> u32
    ensures { result ≡ gre_size flags }
{
    4 + 4 * u32::from(flags / 128 + flags / 32 % 2 + flags / 16 % 2)
}

/// Returns whether octets begin with a GRE header of version 0 without routing.
fn is_gre_0(octets: &[u8]) -> bool
    requires { 4 ≤ length octets.now }
    ensures { result ≡ is_gre_0 octets.now }
{
    octets[1] % 8 == 0 && octets[0] / 64 % 2 == 0
}

/// Returns what a protocol of GRE carries. Ethernet begins with two addresses.
fn in_gre<'a>(protocol: u16, payload: Payload<'a>) -> Layer<'a>
    ensures { layer_view result ≡ in_gre protocol (payload_view payload.entry) }
{
    if protocol == ETHERNET {
        types(after(payload, 12))
    } else {
        by_protocol(protocol, payload)
    }
}

/// Returns what GRE carries (RFC 2784, RFC 2890).
pub(crate) fn gre<'a>(payload: Payload<'a>) -> Layer<'a>
    ensures { layer_view result ≡ gre (payload_view payload.entry) }
{
    let octets = payload.octets;
    if octets.len() < 4 {
        return Layer::Neither(CarrierFault::Cut);
    }
    if !is_gre_0(octets) {
        return Layer::Neither(CarrierFault::OtherProtocol);
    }
    in_gre(read_two(octets, 2), after(payload, gre_size(octets[0])))
}

/// Returns whether octets begin with the headers of UDP and of VXLAN, with the flag that says that the network has a number.
fn is_vxlan(octets: &[u8]) -> bool
    requires { 16 ≤ length octets.now }
    ensures { result ≡ is_vxlan octets.now }
{
    matches!(read_two(octets, 2), 4789 | 8472) && octets[8] / 8 % 2 == 1
}

/// Returns what UDP carries, which may be VXLAN (RFC 7348): Ethernet after two headers of eight octets.
pub(crate) fn vxlan<'a>(payload: Payload<'a>) -> Layer<'a>
    ensures { layer_view result ≡ vxlan (payload_view payload.entry) }
{
    if payload.octets.len() < 16 {
        return Layer::Neither(CarrierFault::OtherProtocol);
    }
    if !is_vxlan(payload.octets) {
        return Layer::Neither(CarrierFault::OtherProtocol);
    }
    types(after(payload, 28))
}
