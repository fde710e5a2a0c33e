//! Where the packets of a stream are joined again after a gap.

ghost use Rattle.std.specs.Prelude.{◌≡◌, ◌<◌, ◌≤◌, MatchOption, false, length};
ghost use Rattle.xot_circuits.specs.Joining.{are_plausible, beginning, is_expected, is_plausible, may_be_on, may_begin, may_have, modulus_of};

use crate::header::{Header, read_header};

/// The most octets of a packet that a row has room for (profile).
const LONGEST: u16 = 4200;

/// The logical channels of the packets of one direction.
#[derive(Clone, Copy)]
pub struct SeenChannels {
    /// That of the first packet.
    pub first: u16,
    /// That of the last packet.
    pub last: u16,
}

/// What the packets of a circuit have in one direction, as far as it is known.
#[derive(Clone, Copy)]
pub struct Expected {
    /// The modulus of their sequence numbers, 8 or 128.
    pub modulus: Option<u8>,
    /// Their logical channels.
    pub channels: Option<SeenChannels>,
}

/// Whether a packet begins at the front of octets.
#[derive(Clone, Copy)]
pub enum Beginning {
    /// It does: a plausible header, an expected packet, and plausible headers up to the end.
    Begins,
    /// The octets are too few to decide.
    TooFew,
    /// It does not.
    Other,
}

/// Returns the modulus that the first octet of a packet shows (X.25 clause 5.1.1).
pub fn modulus_of(first: u8) -> Option<u8>
    ensures { result ≡ modulus_of first }
{
    match first / 16 % 4 {
        1 => Some(8),
        2 => Some(128),
        _ => None,
    }
}

/// Returns whether packets of a modulus may be of a circuit with a known one.
fn may_have(known: Option<u8>, modulus: Option<u8>) -> bool
    ensures { result ≡ may_have known modulus }
{
    match modulus {
        None => false,
        Some(modulus) => match known {
            None => true,
            Some(known) => known == modulus,
        },
    }
}

/// Returns whether a packet on a logical channel may be of a direction with these.
fn may_be_on(channels: Option<SeenChannels>, channel: u16) -> bool
    ensures { result ≡ may_be_on channels channel }
{
    match channels {
        None => true,
        Some(seen) => channel == seen.first || channel == seen.last,
    }
}

/// Returns whether octets may go on as a header of version 0.
fn may_begin(octets: &[u8]) -> bool
    ensures { result ≡ may_begin octets.now }
{
    match octets {
        [] => true,
        [first] => *first == 0,
        [first, second, ..] => *first == 0 && *second == 0,
    }
}

/// Returns whether a header is that of a packet with its own header of three octets, and no longer than a row may be.
fn is_plausible(header: Header) -> bool
    ensures { result ≡ is_plausible header }
{
    match header {
        Header::Cut | Header::OtherVersion(_) => false,
        Header::Length(length) => 3 <= length && length <= LONGEST,
    }
}

/// Returns the octets after a plausible header and its packet, none where the packet is cut.
#[tactic(auto, using(crate::proofs::Plausible::plausible_after, crate::proofs::Plausible::plausible_not))]
fn after_plausible(octets: &[u8]) -> Option<&[u8]>
    requires { 4 ≤ length octets.now }
    ensures { MatchOption result (are_plausible 0 octets.now ≡ false)
        (λ rest. (are_plausible 0 octets.now ≡ are_plausible 0 rest.now) × (length rest.now < length octets.now)) }
{
    let header = read_header(octets);
    if !is_plausible(header) {
        return None;
    }
    let Header::Length(length) = header else {
        return None;
    };
    let (_, rest) = octets.split_at((4 + usize::from(length)).min(octets.len()));
    Some(rest)
}

/// Returns whether plausible headers follow each other up to the end of octets.
#[tactic(auto, using(crate::proofs::Plausible::plausible_few))]
fn are_plausible(octets: &[u8]) -> bool
    ensures { result ≡ are_plausible 0 octets.now }
{
    let mut left = octets;
    while left.len() >= 4 {
        let Some(rest) = after_plausible(left) else {
            return false;
        };
        left = rest;
    }
    true
}

impl Expected {
    /// Returns whether a packet with these first two octets is expected.
    fn is_expected(&self, first: u8, second: u8) -> bool
        ensures { result ≡ is_expected self.now first second }
    {
        may_have(self.modulus, modulus_of(first))
            && may_be_on(
                self.channels,
                u16::from(first % 16) * 256 + u16::from(second),
            )
    }

    /// Returns whether octets begin with an expected packet after a header, and go on with headers up to their end.
    pub fn beginning(&self, octets: &[u8]) -> Beginning
        ensures { result ≡ beginning self.now octets.now }
    {
        match octets {
            [_, _, _, _, first, second, _, ..] => {
                if self.is_expected(*first, *second) && are_plausible(octets) {
                    Beginning::Begins
                } else {
                    Beginning::Other
                }
            }
            _ => {
                if may_begin(octets) {
                    Beginning::TooFew
                } else {
                    Beginning::Other
                }
            }
        }
    }
}
