//! The headers of an IPv6 datagram (RFC 8200).

ghost use Rattle.std.specs.Prelude.{◌≡◌, ◌≤◌, drop, length, take};
ghost use Rattle.std.specs.Result.{result_map_both};
ghost use Rattle.capture_model.specs.Views.{payload_view};
ghost use Rattle.ip_segments.specs.Datagrams.{above_6, extension_size, fragment_6, is_extension, is_fragment, length_6, opened, version_6, with_ends};
ghost use Rattle.ip_segments.specs.Views.{datagram_view, upper_view};

use crate::datagram::{Datagram, Fragment};
use crate::fault::HeaderFault;
use crate::numbers::{after, read_four, read_two, within};
use capture_model::carried::Payload;

/// How many extension headers are read at the most (profile).
const MOST_EXTENSIONS: u8 = 64;

/// The fragment header.
const FRAGMENT: u8 = 44;

/// The authentication header, whose length is in words of four octets (RFC 4302).
const AUTHENTICATION: u8 = 51;

/// What comes after the extension headers.
#[derive(Clone, Copy)]
pub(crate) struct Upper<'a> {
    /// Its protocol.
    pub protocol: u8,
    /// Which part of a datagram it is.
    pub fragment: Option<Fragment>,
    /// Its octets.
    pub payload: Payload<'a>,
}

/// Reads an IPv6 datagram.
#[tactic(auto, unfolding(crate::specs::Datagrams::version_6), using(crate::proofs::Extensions::version_upper))]
pub(crate) fn read_version_6(payload: Payload<'_>) -> Result<Datagram<'_>, HeaderFault>
    ensures { result_map_both datagram_view (λ fault. fault) result ≡ version_6 (payload_view payload.entry) }
{
    let octets = payload.octets;
    if octets.len() < 40 {
        return Err(HeaderFault::InternetCut);
    }
    match read_upper(payload) {
        Ok(upper) => Ok(with_ends(octets, upper)),
        Err(fault) => Err(fault),
    }
}

/// Returns what comes after the headers, with the addresses of the first one.
fn with_ends<'a>(octets: &'a [u8], upper: Upper<'a>) -> Datagram<'a>
    requires { 40 ≤ length octets.now }
    ensures { datagram_view result ≡ with_ends (take 16 (drop 8 octets.entry.now)) (take 16 (drop 24 octets.entry.now)) (upper_view upper.entry) }
{
    Datagram {
        protocol: upper.protocol,
        source: &octets[8..24],
        target: &octets[24..40],
        fragment: upper.fragment,
        payload: upper.payload,
    }
}

/// Reads what comes after the first header.
#[tactic(auto, unfolding(crate::specs::Datagrams::above_6))]
fn read_upper(payload: Payload<'_>) -> Result<Upper<'_>, HeaderFault>
    requires { 40 ≤ length payload.octets.now }
    ensures { result_map_both upper_view (λ fault. fault) result ≡ above_6 (payload_view payload.entry) }
{
    let octets = payload.octets;
    let (_, rest) = octets.split_at(40);
    open(MOST_EXTENSIONS, octets[6], within(rest, length(payload)))
}

/// Returns how many octets come after the first header; 0 is what the frame has.
fn length(payload: Payload<'_>) -> u32
    requires { 40 ≤ length payload.octets.now }
    ensures { result ≡ length_6 (payload_view payload.entry) }
{
    match read_two(payload.octets, 4) {
        0 => payload.length.saturating_sub(40),
        length => u32::from(length),
    }
}

/// Passes over extension headers, of which so many are left to be read, up to the protocol that they carry.
#[tactic(auto, using(crate::proofs::Extensions::opened_upper, crate::proofs::Extensions::opened_cut, crate::proofs::Extensions::opened_part, crate::proofs::Extensions::opened_on))]
fn open<'a>(left: u8, next: u8, payload: Payload<'a>) -> Result<Upper<'a>, HeaderFault>
    ensures { result_map_both upper_view (λ fault. fault) result ≡ opened left next (payload_view payload.entry) }
{
    if !is_extension(next) {
        return Ok(Upper {
            protocol: next,
            fragment: None,
            payload,
        });
    }
    let octets = payload.octets;
    if left == 0 || octets.len() < 8 {
        return Err(HeaderFault::ExtensionsCut);
    }
    if is_fragment(next, octets) {
        return Ok(Upper {
            protocol: octets[0],
            fragment: Some(fragment(octets)),
            payload: after(payload, 8),
        });
    }
    open(left - 1, octets[0], after(payload, size(next, octets[1])))
}

/// Returns whether a header is that of a part of a datagram: it has an offset, or says that more fragments come.
fn is_fragment(next: u8, octets: &[u8]) -> bool
    requires { 8 ≤ length octets.now }
    ensures { result ≡ is_fragment next octets.now }
{
    let place = read_two(octets, 2);
    next == FRAGMENT && (place / 8 != 0 || place % 2 == 1)
}

/// Returns whether a header is an extension header: hop-by-hop options, routing, fragment, authentication, destination
/// options, mobility, host identity or shim.
fn is_extension(next: u8) -> bool
    ensures { result ≡ is_extension next }
{
    matches!(
        next,
        0 | 43 | FRAGMENT | AUTHENTICATION | 60 | 135 | 139 | 140
    )
}

/// Returns how many octets an extension header has, by its length field.
fn size(next: u8, length: u8) -> u32
    ensures { result ≡ extension_size next length }
{
    match next {
        FRAGMENT => 8,
        AUTHENTICATION => 4 * (u32::from(length) + 2),
        _ => 8 * (u32::from(length) + 1),
    }
}

/// Returns which part of a datagram a fragment header says.
#[tactic(auto, unfolding(crate::specs::Datagrams::fragment_6))]
fn fragment(octets: &[u8]) -> Fragment
    requires { 8 ≤ length octets.now }
    ensures { result ≡ fragment_6 octets.now }
{
    let place = read_two(octets, 2);
    Fragment {
        identification: read_four(octets, 4),
        place: place / 8 * 8,
        is_last: place % 2 == 0,
    }
}
