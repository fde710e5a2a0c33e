//! The fields of call packets (X.25 clauses 5.2.1 and 5.2.2).

ghost use Rattle.std.specs.Prelude.{◌≡◌, ◌≤◌, ◌^◌, ◌/◌, ◌%◌, length, MatchResult, MatchOption, option_map, IfSome, IfOk, None, Some, true, false, drop, ◌+◌};
ghost use Rattle.line_model.specs.packets.Classes.{class_of};
ghost use Rattle.line_model.specs.basics.Octets.{octet};
ghost use Rattle.line_model.specs.packets.Facilities.{fields_of, no_fields, call_fault, accepted_fault, block_fault, has_a_bit, user_data_limit};
ghost use Rattle.packet_decode.specs.CallFaults.{tail_fault, is_field_cut, call_packet_fault, IsCallPacket, facility_field};
ghost use Rattle.packet_decode.specs.Shown.{shown, IsPacketSize, IsUsable};
ghost use Rattle.packet_decode.specs.Reading.{ReadsAs, powers};
ghost use Rattle.packet_decode.specs.Blocks.{AreAddresses, address_fault};
ghost use Rattle.packet_decode.specs.Asked.{IsInRange};

use crate::address::address;
use crate::facility::{Asked, facilities};
use line_model::address::Address;
use line_model::diagnostic::{
    FACILITY_PARAMETER_NOT_ALLOWED, INVALID_CALLED_DTE_ADDRESS, INVALID_CALLING_DTE_ADDRESS,
    INVALID_FACILITY_OR_REGISTRATION_LENGTH, PACKET_TOO_LONG, PACKET_TOO_SHORT,
};
use line_model::interface::Interface;

/// The fields of a call packet without fault (X.25 clauses 5.2.1, 5.2.2 and 7.2).
#[derive(Drop)]
pub struct CallFields<'a> {
    /// The address of the called DTE.
    pub called: Address,
    /// The address of the calling DTE.
    pub calling: Address,
    /// Whether reverse charging is asked.
    pub reverse: bool,
    /// Whether fast select is asked.
    pub fast: bool,
    /// Packet sizes in octets for data from the called and from the calling DTE.
    pub sizes: Option<(u16, u16)>,
    /// Windows for data from the called and from the calling DTE.
    pub windows: Option<(u8, u8)>,
    /// The user data, at most 16 octets, or 128 with fast select.
    pub user_data: &'a [u8],
}

/// What follows the addresses of a call packet.
#[derive(Drop)]
struct Tail<'a> {
    asked: Asked,
    user_data: &'a [u8],
}

/// Returns the facilities and the user data, `None` where the facility length is over 109 or passes the end of the
/// packet.
fn split_tail(octets: &[u8]) -> Option<(&[u8], &[u8])>
    ensures { MatchOption result (is_field_cut octets.now ≡ true) (λ p.
        (is_field_cut octets.now ≡ false) × (p.0.now ≡ facility_field octets.now)
        × (p.1.now ≡ drop (1 + octet 1 octets.now) octets.now)) }
{
    match octets {
        [] => Some((octets, octets)),
        [size, rest @ ..] => {
            let size = usize::from(*size);
            if size > 109 || rest.len() < size {
                return None;
            }
            Some(rest.split_at(size))
        }
    }
}

/// Returns what follows the addresses, or its first fault.
fn read_tail<'a>(interface: &Interface, octets: &'a [u8], fast_before: bool) -> Result<Tail<'a>, u8>
    ensures reads { IfOk result (λ t. ReadsAs interface.now (facility_field octets.now) t.asked) }
    ensures in_range { IfOk result (λ t. IsInRange interface.now t.asked) }
    ensures usable { IfOk result (λ t. t.asked.out_of_range ≡ false) }
    ensures user_data { IfOk result (λ t. t.user_data.now
        ≡ drop (1 + octet 1 octets.now) octets.now) }
    ensures fault { MatchResult result (λ _. tail_fault interface.now fast_before octets.now
        ≡ None) (λ code. tail_fault interface.now fast_before octets.now ≡ Some code) }
{
    let Some((field, user_data)) = split_tail(octets) else {
        return Err(INVALID_FACILITY_OR_REGISTRATION_LENGTH);
    };
    let Some(asked) = facilities(interface, field) else {
        return Err(INVALID_FACILITY_OR_REGISTRATION_LENGTH);
    };
    if asked.out_of_range {
        return Err(FACILITY_PARAMETER_NOT_ALLOWED);
    }
    if user_data.len() > user_data_limit(asked.fast() || fast_before) {
        return Err(PACKET_TOO_LONG);
    }
    Ok(Tail { asked, user_data })
}

/// Returns how many octets of user data a call packet may have.
fn user_data_limit(fast: bool) -> usize
    ensures { result ≡ user_data_limit fast }
{
    if fast { 128 } else { 16 }
}

/// A packet size by its logarithm.
fn size(logarithm: u8) -> u16
    requires low { 4 ≤ logarithm }
    requires high { logarithm ≤ 12 }
    ensures power { result ≡ 2 ^ logarithm }
    ensures listed { IsPacketSize result }
{
    match logarithm {
        4 => 16,
        5 => 32,
        6 => 64,
        7 => 128,
        8 => 256,
        9 => 512,
        10 => 1024,
        11 => 2048,
        _ => 4096,
    }
}

/// The addresses of a call packet, and what follows them.
#[derive(Drop)]
struct Addresses<'a> {
    called: Address,
    calling: Address,
    after: &'a [u8],
}

/// Returns the addresses, or their first fault.
fn read_addresses(octets: &[u8]) -> Result<Addresses<'_>, u8>
    requires { 4 ≤ length octets.now }
    ensures addresses { IfOk result (λ a. AreAddresses a octets.now) }
    ensures fault { MatchResult result (λ _. address_fault octets.now ≡ None) (λ code.
        address_fault octets.now ≡ Some code) }
{
    let called_length = usize::from(octets[3] % 16);
    let calling_length = usize::from(octets[3] / 16);
    let digits = &octets[4..];
    let block = (called_length + calling_length).div_ceil(2);
    if digits.len() < block {
        return Err(PACKET_TOO_SHORT);
    }
    let Some(called) = address(digits, 0, called_length) else {
        return Err(INVALID_CALLED_DTE_ADDRESS);
    };
    let Some(calling) = address(digits, called_length, calling_length) else {
        return Err(INVALID_CALLING_DTE_ADDRESS);
    };
    Ok(Addresses {
        called,
        calling,
        after: &digits[block..],
    })
}

/// The fields of a call packet whose address block is read, or its first fault.
fn block_fields<'a>(
    interface: &Interface,
    octets: &'a [u8],
    fast_before: bool,
) -> Result<CallFields<'a>, u8>
    requires block { 4 ≤ length octets.now }
    requires read { has_a_bit octets.now ≡ false }
    ensures fields { IfOk result (λ f. shown f ≡ fields_of octets.now) }
    ensures usable { IfOk result (λ f. IsUsable interface.now f) }
    ensures fault { MatchResult result (λ _. block_fault interface.now fast_before octets.now
        ≡ None) (λ code. block_fault interface.now fast_before octets.now ≡ Some code) }
{
    let Addresses {
        called,
        calling,
        after,
    } = read_addresses(octets)?;
    let Tail { asked, user_data } = read_tail(interface, after, fast_before)?;
    Ok(CallFields {
        called,
        calling,
        reverse: asked.reverse(),
        fast: asked.fast(),
        sizes: sizes(interface, &asked),
        windows: asked.windows,
        user_data,
    })
}

/// Returns the packet sizes that are asked, in octets.
fn sizes(interface: &Interface, asked: &Asked) -> Option<(u16, u16)>
    requires in_range { IsInRange interface.now asked.now }
    requires usable { asked.now.out_of_range ≡ false }
    ensures sizes { result ≡ option_map powers asked.now.sizes }
    ensures usable { IfSome result (λ p. IsPacketSize p.0 × IsPacketSize p.1) }
{
    match asked.sizes {
        Some((called, calling)) => Some((size(called), size(calling))),
        None => None,
    }
}

/// The fields of a call request or incoming call, or its first fault.
fn opening_fields<'a>(interface: &Interface, octets: &'a [u8]) -> Result<CallFields<'a>, u8>
    requires { 3 ≤ length octets.now }
    ensures fields { IfOk result (λ f. shown f ≡ fields_of octets.now) }
    ensures usable { IfOk result (λ f. IsUsable interface.now f) }
    ensures fault { MatchResult result (λ _. call_fault interface.now octets.now ≡ None) (λ code.
        call_fault interface.now octets.now ≡ Some code) }
{
    if octets[0] >= 128 {
        return Ok(no_fields());
    }
    if octets.len() < 4 || octets.len() < 5 + address_octets(octets[3]) {
        return Err(PACKET_TOO_SHORT);
    }
    block_fields(interface, octets, false)
}

/// The fields of a call accepted or connected, or its first fault.
fn accepting_fields<'a>(
    interface: &Interface,
    octets: &'a [u8],
    fast_before: bool,
) -> Result<CallFields<'a>, u8>
    requires { 3 ≤ length octets.now }
    ensures fields { IfOk result (λ f. shown f ≡ fields_of octets.now) }
    ensures usable { IfOk result (λ f. IsUsable interface.now f) }
    ensures fault { MatchResult result (λ _. accepted_fault interface.now fast_before octets.now
        ≡ None) (λ code. accepted_fault interface.now fast_before octets.now ≡ Some code) }
{
    if octets[0] >= 128 || octets.len() == 3 {
        return Ok(no_fields());
    }
    block_fields(interface, octets, fast_before)
}

/// Returns how many octets the addresses have, by the octet with their lengths.
fn address_octets(lengths: u8) -> usize
    ensures { result ≡ (lengths / 16 + lengths % 16 + 1) / 2 }
{
    usize::from(lengths / 16 + lengths % 16).div_ceil(2)
}

/// Returns the fields of a call packet, or the code of its first fault, in the order 38 (address block cut), 67 and 68
/// (a called, a calling digit over 9), 69 (facilities cut or too long), 66 (a size or window out of range), 39 (user
/// data too long); the codes and their order are profile. `fast_before` is whether the packet that opened the call
/// asked for fast select; it is used only for call accepted and connected. With the A bit there are no fields and no
/// fault (profile).
#[tactic(auto, using(crate::proofs::CallTypes::call_types))]
pub fn call_fields<'a>(
    interface: &Interface,
    octets: &'a [u8],
    fast_before: bool,
) -> Result<CallFields<'a>, u8>
    requires { IsCallPacket (class_of interface.now octets.now) }
    ensures fields { IfOk result (λ f. shown f ≡ fields_of octets.now) }
    ensures usable { IfOk result (λ f. IsUsable interface.now f) }
    ensures fault { MatchResult result (λ _. call_packet_fault interface.now fast_before octets.now
        ≡ None) (λ code. call_packet_fault interface.now fast_before octets.now ≡ Some code) }
{
    if octets[2] == 0x0b {
        opening_fields(interface, octets)
    } else {
        accepting_fields(interface, octets, fast_before)
    }
}

/// Returns the fields of a call packet that has none.
fn no_fields() -> CallFields<'static>
    ensures { shown result ≡ no_fields }
{
    CallFields {
        called: Address::absent(),
        calling: Address::absent(),
        reverse: false,
        fast: false,
        sizes: None,
        windows: None,
        user_data: &[],
    }
}
