//! The hex digits of octets.

ghost use Rattle.std.specs.Prelude.{◌≡◌, ◌-◌, ◌++◌, ◌<◌, OnOk, length, map, replicate};
ghost use Rattle.std.specs.List.{AllPass};
ghost use Rattle.hex.specs.Hex.{encode_upper};
ghost use Rattle.capture_report.specs.HexDigits.{half_digit, is_half};

use std::alloc::AllocError;
use std::simd::prelude::*;

/// The octets whose digits are made at once.
const BLOCK: usize = 16;

/// The digits of half octets.
#[inline(always)]
fn digits_of(halves: u8x16) -> u8x16
    requires { AllPass is_half halves }
    ensures { result ≡ map half_digit halves }
{
    let base = halves
        .simd_gt(u8x16::splat(9))
        .select(u8x16::splat(b'A' - 10), u8x16::splat(b'0'));
    base + halves
}

/// Returns the digits of 16 octets.
#[inline(always)]
fn block_digits(octets: &[u8]) -> [u8; 2 * BLOCK]
    requires { length octets.now ≡ BLOCK }
    ensures { result ≡ encode_upper octets.now }
{
    let octets = u8x16::from_slice(octets);
    let high = digits_of(octets >> u8x16::splat(4));
    let low = digits_of(octets & u8x16::splat(15));
    high.shuffle(
        low,
        [
            0, 16, 1, 17, 2, 18, 3, 19, 4, 20, 5, 21, 6, 22, 7, 23, 8, 24, 9, 25, 10, 26, 11, 27,
            12, 28, 13, 29, 14, 30, 15, 31,
        ],
    )
    .to_array()
}

/// Returns fewer than 16 octets with zeros after them.
fn padded(octets: &[u8]) -> [u8; BLOCK]
    requires { length octets.now < BLOCK }
    ensures { result ≡ octets.now ++ replicate (BLOCK - length octets.now) 0 }
{
    let mut block = [0; BLOCK];
    block[..octets.len()].copy_from_slice(octets);
    block
}

/// Appends the digits of fewer than 16 octets.
fn append_few(octets: &[u8], out: &mut Vec<u8>) -> Result<(), AllocError>
    requires { length octets.now < BLOCK }
    ensures { OnOk result (out.new.items ≡ out.old.items ++ encode_upper octets.now) }
{
    let digits = block_digits(&padded(octets));
    out.extend_from_slice(&digits[..2 * octets.len()])
}

/// Appends the digits of octets. Fails only when memory is refused.
pub(crate) fn append_digits(octets: &[u8], out: &mut Vec<u8>) -> Result<(), AllocError>
    ensures { OnOk result (out.new.items ≡ out.old.items ++ encode_upper octets.now) }
{
    let mut rest = octets;
    while let Some((block, more)) = rest.split_at_checked(BLOCK) {
        out.extend_from_slice(&block_digits(block))?;
        rest = more;
    }
    append_few(rest, out)
}
