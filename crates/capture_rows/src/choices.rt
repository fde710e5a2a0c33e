//! How the frames of a line are read.

ghost use Rattle.std.specs.Prelude.{◌≡◌};
ghost use Rattle.capture_rows.specs.Choosing.{is_chosen, is_on, is_wanted, kind_of};

use crate::station::StationBy;
use capture_model::kind::{LinkKind, kind_of_link};
use line_model::state::Side;

/// What carries the packets of a line.
#[derive(Clone, Copy, PartialEq, Eq, Debug)]
pub enum Carrier {
    /// I frames of LAPB.
    Lapb,
    /// Frames that are packets.
    Packet,
}

/// How the frames of a line are read.
#[derive(Clone, Copy)]
pub struct Choices {
    /// The link header of frames whose link type is unknown.
    pub unknown: Option<LinkKind>,
    /// Where it is chosen: what carries the packets.
    pub carrier: Option<Carrier>,
    /// Where it is chosen: the interface, that of the link header where it has one.
    pub interface: Option<u32>,
    /// What distinguishes the stations of a link.
    pub station_by: StationBy,
    /// The side of the recording host, for packets without a link header.
    pub host: Side,
}

impl Choices {
    /// Returns the link header of a link type; `None` where it is unknown and none is chosen for it.
    pub(crate) fn kind(&self, link: u16) -> Option<LinkKind>
        ensures { result ≡ kind_of self.now link }
    {
        kind_of_link(link).or(self.unknown)
    }

    /// Returns whether frames of a carrier are read.
    pub(crate) fn is_chosen(&self, carrier: Carrier) -> bool
        ensures { result ≡ is_chosen self.now carrier }
    {
        match self.carrier {
            Some(chosen) => is_wanted(chosen, carrier),
            None => true,
        }
    }

    /// Returns whether frames of an interface are read.
    pub(crate) fn is_on(&self, interface: u32) -> bool
        ensures { result ≡ is_on self.now interface }
    {
        match self.interface {
            Some(chosen) => chosen == interface,
            None => true,
        }
    }
}

/// Returns whether a carrier is the chosen one.
fn is_wanted(chosen: Carrier, carrier: Carrier) -> bool
    ensures { result ≡ is_wanted chosen carrier }
{
    match chosen {
        Carrier::Lapb => matches!(carrier, Carrier::Lapb),
        Carrier::Packet => matches!(carrier, Carrier::Packet),
    }
}
