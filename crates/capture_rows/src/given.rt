//! What a frame gives.

ghost use Rattle.std.specs.Prelude.{◌≡◌};
ghost use Rattle.capture_rows.specs.Givens.{channel_in, given_view, lost, packet_or_gap};

use capture_model::reason::Reason;
use lapb_link::control::Unnumbered;
use lapb_link::frames::HeldFrame;
use line_model::state::Side;

/// The most octets of a packet (profile).
pub const LONGEST: usize = 4200;

/// What a frame gives: one of these.
#[derive(Clone, Copy)]
pub enum Given<'a> {
    /// A packet of a side.
    Packet(Side, &'a [u8]),
    /// A packet that is left out for a reason: a gap of this channel, or of all channels.
    Gap(Option<u16>, Reason),
    /// A LAPB I frame that is held: a later frame shows whether its packet was accepted.
    Held {
        /// The side that sent it.
        side: Side,
        /// Its packet, or the part of it that was recorded.
        octets: &'a [u8],
        /// Whether the recorder cut it.
        is_cut: bool,
    },
    /// A LAPB frame that sets up, ends or rejects the link.
    Unnumbered(Unnumbered),
    /// It carries no packet, or is left out for a reason.
    LeftOut(Reason),
}

/// Returns the channel that the octets of a packet name; `None` where they are too few, or name all channels.
fn channel_in(octets: &[u8]) -> Option<u16>
    ensures { result ≡ channel_in octets.now }
{
    match octets {
        [first, second, ..] => match u16::from(*first % 16) * 256 + u16::from(*second) {
            0 => None,
            channel => Some(channel),
        },
        _ => None,
    }
}

/// Returns the gap of a packet that is left out.
pub(crate) fn lost<'a>(octets: &[u8], reason: Reason) -> Given<'a>
    ensures { given_view result ≡ lost octets.now reason }
{
    Given::Gap(channel_in(octets), reason)
}

/// Returns a packet, or its gap where the recorder cut it, or it is longer than a row of a trace may be.
pub fn packet_or_gap<'a>(side: Side, octets: &'a [u8], is_cut: bool) -> Given<'a>
    ensures { given_view result ≡ packet_or_gap side octets.now is_cut }
{
    if is_cut {
        return lost(octets, Reason::CutPacket);
    }
    if octets.len() > LONGEST {
        return lost(octets, Reason::LongPacket);
    }
    Given::Packet(side, octets)
}

/// Returns what a held frame gives that was accepted.
pub fn of_held<'a>(held: &'a HeldFrame) -> Given<'a>
    ensures { given_view result ≡ packet_or_gap held.now.side held.now.octets held.now.is_cut }
{
    packet_or_gap(held.side, held.octets.as_slice(), held.is_cut)
}
