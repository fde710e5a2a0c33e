//! Carriers of datagrams: MPLS, PPPoE, IP in IP, GRE and VXLAN.

ghost use Rattle.std.specs.Prelude.{◌≡◌};
ghost use Rattle.std.specs.Result.{result_map_both};
ghost use Rattle.capture_model.specs.Views.{payload_view};
ghost use Rattle.ip_segments.specs.Carriers.{entered, frame, in_datagram, in_frame, opened, tunnel};
ghost use Rattle.ip_segments.specs.CarrierViews.{inner_view, layer_view};

use crate::ethernet::{by_protocol, cisco, cooked, framed_ppp, types};
use crate::numbers::after;
use crate::tunnels::{gre, vxlan};
use capture_model::carried::Payload;
use capture_model::kind::LinkKind;

/// How many carriers may be around a datagram, one in another (profile).
pub const DEEPEST: u8 = 8;

/// Why a carrier has no datagram.
#[derive(Clone, Copy, PartialEq, Eq, Debug)]
pub enum CarrierFault {
    /// A header of it is cut.
    Cut,
    /// It carries another protocol, or is another carrier.
    OtherProtocol,
    /// More than eight carriers are one in another.
    TooDeep,
}

/// What comes next in a carrier.
#[derive(Clone, Copy)]
pub(crate) enum Layer<'a> {
    /// A datagram.
    Internet(Payload<'a>),
    /// An Ethernet type, perhaps after tags, in a further carrier.
    Ethernet(Payload<'a>),
    /// Neither.
    Neither(CarrierFault),
}

/// A datagram in a carrier.
#[derive(Clone, Copy)]
pub struct Inner<'a> {
    /// The datagram.
    pub payload: Payload<'a>,
    /// How many carriers may be in it.
    pub left: u8,
}

/// Returns the datagram in a frame, after carriers of its link: VLAN tags, MPLS labels, PPPoE.
pub fn in_frame(kind: LinkKind, payload: Payload<'_>) -> Result<Inner<'_>, CarrierFault>
    ensures { result_map_both inner_view (λ fault. fault) result ≡ in_frame kind (payload_view payload.entry) }
{
    opened(DEEPEST, frame(kind, payload))
}

/// Returns the datagram in another one, of which the protocol and the payload are given: IP in IP, GRE or VXLAN. `left` is
/// how many carriers may be in that one.
pub fn in_datagram(left: u8, protocol: u8, payload: Payload<'_>) -> Result<Inner<'_>, CarrierFault>
    ensures { result_map_both inner_view (λ fault. fault) result ≡ in_datagram left protocol (payload_view payload.entry) }
{
    entered(left, tunnel(protocol, payload))
}

/// Returns what comes after a link header.
fn frame<'a>(kind: LinkKind, payload: Payload<'a>) -> Layer<'a>
    ensures { layer_view result ≡ frame kind (payload_view payload.entry) }
{
    match kind {
        LinkKind::Ethernet => types(after(payload, 12)),
        LinkKind::Cooked1 => cooked(16, 14, payload),
        LinkKind::Cooked2 => cooked(20, 0, payload),
        LinkKind::Internet => Layer::Internet(payload),
        LinkKind::Loopback => Layer::Internet(after(payload, 4)),
        LinkKind::Ppp => framed_ppp(payload),
        LinkKind::Cisco => cisco(payload),
        LinkKind::Lapb
        | LinkKind::DirectedLapb
        | LinkKind::CheckedLapb
        | LinkKind::Packet
        | LinkKind::DirectedPacket => Layer::Neither(CarrierFault::OtherProtocol),
    }
}

/// Returns what comes after the headers of a datagram of this protocol.
fn tunnel<'a>(protocol: u8, payload: Payload<'a>) -> Layer<'a>
    ensures { layer_view result ≡ tunnel protocol (payload_view payload.entry) }
{
    match protocol {
        4 | 41 => Layer::Internet(payload),
        47 => gre(payload),
        17 => vxlan(payload),
        _ => Layer::Neither(CarrierFault::OtherProtocol),
    }
}

/// Opens a carrier around a datagram, which counts as one.
fn entered<'a>(left: u8, layer: Layer<'a>) -> Result<Inner<'a>, CarrierFault>
    ensures { result_map_both inner_view (λ fault. fault) result ≡ entered left (layer_view layer.entry) }
{
    match layer {
        Layer::Neither(fault) => Err(fault),
        layer => {
            if left == 0 {
                return Err(CarrierFault::TooDeep);
            }
            opened(left - 1, layer)
        }
    }
}

/// Opens carriers up to a datagram; so many may be one in another.
#[tactic(auto, using(crate::proofs::Opening::opened_found, crate::proofs::Opening::opened_neither, crate::proofs::Opening::opened_deep, crate::proofs::Opening::opened_on))]
fn opened<'a>(left: u8, layer: Layer<'a>) -> Result<Inner<'a>, CarrierFault>
    ensures { result_map_both inner_view (λ fault. fault) result ≡ opened left (layer_view layer.entry) }
{
    match layer {
        Layer::Internet(payload) => Ok(Inner { payload, left }),
        Layer::Neither(fault) => Err(fault),
        Layer::Ethernet(payload) => {
            if left == 0 {
                return Err(CarrierFault::TooDeep);
            }
            opened(left - 1, types(payload))
        }
    }
}
