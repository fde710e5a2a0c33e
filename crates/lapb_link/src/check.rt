//! The frame check sequence.

ghost use Rattle.std.specs.Prelude.{◌≡◌, ◌≤◌, IfSome, length};
ghost use Rattle.std.specs.Option.{option_map};
ghost use Rattle.lapb_link.specs.Checks.{checked_end, divided, unflagged, unframed};

/// The flag between frames (X.25 clause 2.2.2).
const FLAG: u8 = 0x7E;

/// The rest of the division after a frame with its right check sequence (X.25 clause 2.2.7).
const RIGHT: u16 = 0xF0B8;

/// Returns the rest of the division by x^16 + x^12 + x^5 + 1 after four bits more, low bit first. The multiple of 1081h
/// is what four steps of the division make of four bits.
#[tactic(auto, using(crate::proofs::Steps::divided_is))]
fn divided(rest: u16, bits: u8) -> u16
    ensures { result ≡ divided rest bits }
{
    rest / 16 ^ (rest ^ u16::from(bits)) % 16 * 0x1081
}

/// Returns the octets after the flags at the front.
fn unflagged(octets: &[u8]) -> &[u8]
    ensures { result.now ≡ unflagged octets.now }
{
    let mut rest = octets;
    while let [FLAG, after @ ..] = rest {
        rest = after;
    }
    rest
}

/// Returns the end of the longest frame at the front that has its right check sequence and only flags after it.
fn checked_end(octets: &[u8]) -> Option<usize>
    ensures end { result ≡ checked_end octets.now }
    ensures within { IfSome result (λ end. end ≤ length octets.now) }
{
    let mut rest = 0xFFFF;
    let mut end = None;
    for (at, octet) in octets.iter().enumerate() {
        rest = divided(divided(rest, *octet), *octet / 16);
        if rest == RIGHT && at >= 3 {
            end = Some(at + 1);
        } else if *octet != FLAG {
            end = None;
        }
    }
    end
}

/// Returns the octets of a frame between its flags, without its check sequence, which may end like a flag; `None` where
/// the check sequence is wrong.
pub fn unframe(octets: &[u8]) -> Option<&[u8]>
    ensures { option_map (λ o. o.now) result ≡ unframed octets.now }
{
    let octets = unflagged(octets);
    match checked_end(octets) {
        Some(end) => Some(&octets[..end.saturating_sub(2)]),
        None => None,
    }
}
