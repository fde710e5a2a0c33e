//! The addresses of a call packet, half an octet for each digit (X.25 clause 5.2.1).

ghost use Rattle.std.specs.Prelude.{◌≡◌, ◌≤◌, ◌+◌, ◌*◌, length, nat_lt, true, false, IfSome, IfNone};
ghost use Rattle.std.specs.List.{list_any};
ghost use Rattle.line_model.specs.basics.Octets.{half_octet, half_octets};
ghost use Rattle.line_model.specs.packets.Facilities.{ascii_digits};

use line_model::address::Address;

/// Returns half octet `k`, the higher bits of an octet first.
fn half_octet(octets: &[u8], k: usize) -> u8
    requires { k + 1 ≤ 2 * length octets.now }
    ensures { result ≡ half_octet k octets.now }
{
    if k % 2 == 0 {
        octets[k / 2] / 16
    } else {
        octets[k / 2] % 16
    }
}

/// Returns the address of `count` half octets from `from` on, `None` where a digit is over 9.
#[tactic(auto, using(crate::proofs::OctetLemmas::half_octets_until))]
pub(crate) fn address(octets: &[u8], from: usize, count: usize) -> Option<Address>
    requires within { from + count ≤ 2 * length octets.now }
    requires start { from ≤ 15 }
    requires few { count ≤ 15 }
    ensures none { IfNone result (list_any (λ d.
        nat_lt 9 d) (half_octets from count octets.now) ≡ true) }
    ensures digits { IfSome result (λ a. list_any (λ d.
        nat_lt 9 d) (half_octets from count octets.now) ≡ false) }
    ensures written { IfSome result (λ a. a ≡ ascii_digits (half_octets from count octets.now)) }
{
    let mut address = Address::absent();
    for k in from..from + count {
        let digit = half_octet(octets, k);
        if digit > 9 {
            return None;
        }
        address.push(digit);
    }
    Some(address)
}
