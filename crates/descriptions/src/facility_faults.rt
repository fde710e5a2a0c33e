//! What is wrong with the facilities of a call packet, in words.

use crate::prose::{Prose, count, say_number};
use line_model::interface::Interface;

/// Returns what comes after the addresses of a call packet (X.25 clauses 5.2.1.1 and 5.2.2.1).
fn after_addresses(octets: &[u8]) -> Option<&[u8]> {
    let [_, _, _, lengths, rest @ ..] = octets else {
        return None;
    };
    let digits = usize::from(*lengths % 16) + usize::from(*lengths / 16);
    let (_, tail) = rest.split_at_checked((digits + 1) / 2)?;
    Some(tail)
}

/// Writes the facility length of a call packet, and what it has to fit.
pub fn facility_length<P: Prose>(out: &mut P, octets: &[u8]) -> bool {
    let Some([length, rest @ ..]) = after_addresses(octets) else {
        return false;
    };
    say_number(out, "facility length ", u64::from(*length));
    if *length > 109 {
        out.say(" where 109 is the highest");
    } else if rest.len() < usize::from(*length) {
        count(out, ", and the packet has ", rest.len() as u64, " octet");
        out.say(" after it");
    } else {
        out.say(", and the last facility is longer");
    }
    true
}

/// Writes the first packet size or window facility of a call packet whose values are out of range. A code says how many
/// octets its facility has after it (X.25 clause 7.1).
pub fn facility_value<P: Prose>(out: &mut P, interface: &Interface, octets: &[u8]) -> bool {
    let Some([_, field @ ..]) = after_addresses(octets) else {
        return false;
    };
    let mut left = field;
    while let [code, rest @ ..] = left {
        if let [first, second, ..] = rest {
            if is_out_of_range(interface, *code, &[*first, *second]) {
                values(out, interface, *code, &[*first, *second]);
                return true;
            }
        }
        let length = if *code < 192 {
            usize::from(*code / 64) + 1
        } else {
            rest.first().map_or(0, |size| usize::from(*size)) + 1
        };
        if rest.len() < length {
            return false;
        }
        left = &rest[length..];
    }
    false
}

/// Whether the values of a facility for both directions are out of range (X.25 clause 7.2.2.1).
fn is_out_of_range(interface: &Interface, code: u8, values: &[u8; 2]) -> bool {
    match code {
        0x42 => values.iter().any(|size| *size < 4 || *size > 12),
        0x43 => values
            .iter()
            .any(|window| *window == 0 || *window >= interface.modulus),
        _ => false,
    }
}

/// Writes the values of a size or window facility, and which are allowed.
fn values<P: Prose>(out: &mut P, interface: &Interface, code: u8, values: &[u8; 2]) {
    if code == 0x42 {
        out.say("packet sizes ");
        out.octets(&values[..1]);
        out.say(" and ");
        out.octets(&values[1..]);
        out.say(" where 04 to 0C (16 to 4096 octets) are allowed");
        return;
    }
    say_number(out, "windows ", u64::from(values[0]));
    say_number(out, " and ", u64::from(values[1]));
    say_number(
        out,
        " where 1 to ",
        u64::from(interface.modulus.saturating_sub(1)),
    );
    out.say(" are allowed");
}
