//! The header of an IPv4 datagram (RFC 791).

ghost use Rattle.std.specs.Prelude.{◌≡◌, ◌≤◌, length};
ghost use Rattle.std.specs.Result.{result_map_both};
ghost use Rattle.capture_model.specs.Views.{payload_view};
ghost use Rattle.ip_segments.specs.Datagrams.{fragment_4, version_4};
ghost use Rattle.ip_segments.specs.Views.{datagram_view};

use crate::datagram::{Datagram, Fragment};
use crate::fault::HeaderFault;
use crate::numbers::{after, read_two, within};
use capture_model::carried::Payload;

/// Reads an IPv4 datagram.
#[tactic(auto, unfolding(crate::specs::Datagrams::version_4))]
pub(crate) fn read_version_4(payload: Payload<'_>) -> Result<Datagram<'_>, HeaderFault>
    ensures { result_map_both datagram_view (λ fault. fault) result ≡ version_4 (payload_view payload.entry) }
{
    let octets = payload.octets;
    if octets.len() < 20 {
        return Err(HeaderFault::InternetCut);
    }
    let header = octets[0] % 16 * 4;
    let total = match read_two(octets, 2) {
        0 => payload.length,
        total => u32::from(total),
    };
    if header < 20 || total < u32::from(header) {
        return Err(HeaderFault::Lengths { header, total });
    }
    Ok(Datagram {
        protocol: octets[9],
        source: &octets[12..16],
        target: &octets[16..20],
        fragment: fragment(octets),
        payload: after(within(octets, total), u32::from(header)),
    })
}

/// Returns which part of a datagram it is, by the identification, the flags and the fragment offset.
#[tactic(auto, unfolding(crate::specs::Datagrams::fragment_4))]
fn fragment(octets: &[u8]) -> Option<Fragment>
    requires { 20 ≤ length octets.now }
    ensures { result ≡ fragment_4 octets.now }
{
    let flags = read_two(octets, 6);
    if flags % 0x4000 == 0 {
        return None;
    }
    Some(Fragment {
        identification: u32::from(read_two(octets, 4)),
        place: flags % 0x2000 * 8,
        is_last: flags / 0x2000 % 2 == 0,
    })
}
