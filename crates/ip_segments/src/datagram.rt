//! Datagrams of IPv4 (RFC 791) and IPv6 (RFC 8200).

ghost use Rattle.std.specs.Prelude.{◌≡◌};
ghost use Rattle.std.specs.Result.{result_map_both};
ghost use Rattle.capture_model.specs.Views.{payload_view};
ghost use Rattle.ip_segments.specs.Datagrams.{datagram_of};
ghost use Rattle.ip_segments.specs.Views.{datagram_view};

use crate::fault::HeaderFault;
use crate::version_4::read_version_4;
use crate::version_6::read_version_6;
use capture_model::carried::Payload;

/// Where a fragment lies in its datagram.
#[derive(Clone, Copy, PartialEq, Eq, Debug)]
pub struct Fragment {
    /// The identification, which all fragments of a datagram share.
    pub identification: u32,
    /// How many octets of the datagram's payload come before those of the fragment: a multiple of 8.
    pub place: u16,
    /// Whether no fragment comes after it.
    pub is_last: bool,
}

/// What a datagram carries.
#[derive(Clone, Copy)]
pub struct Datagram<'a> {
    /// The protocol of the payload; 6 is TCP.
    pub protocol: u8,
    /// The address of its sender: 4 octets, or 16 of IPv6.
    pub source: &'a [u8],
    /// The address of its receiver, as long.
    pub target: &'a [u8],
    /// Which part of a datagram it is; `None` for a whole one.
    pub fragment: Option<Fragment>,
    /// What comes after its headers.
    pub payload: Payload<'a>,
}

/// Reads the headers of a datagram. A total length of 0 is that of the frame, as a host records what it leaves to its
/// network card to cut. Checksums are not judged.
#[tactic(auto, unfolding(crate::specs::Datagrams::datagram_by))]
pub fn read_datagram(payload: Payload<'_>) -> Result<Datagram<'_>, HeaderFault>
    ensures { result_map_both datagram_view (λ fault. fault) result ≡ datagram_of (payload_view payload.entry) }
{
    let Some(first) = payload.octets.first() else {
        return Err(HeaderFault::InternetCut);
    };
    match first / 16 {
        4 => read_version_4(payload),
        6 => read_version_6(payload),
        0 => Err(HeaderFault::InternetCut),
        version => Err(HeaderFault::Version(version)),
    }
}
