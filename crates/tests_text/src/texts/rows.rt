//! Rows that are read in one pass, against the same rows byte by byte, which are read by their words.

use crate::checks::holds_for;
use crate::texts::{HEADER, take_rows};
use std::alloc::Global;
use std::process::Abort;
use std::test::Fail;

/// Digits of both cases, more than two blocks of 32: of a packet that is no data, of data with Q 0, and of data with Q 1.
const DIGITS: [&[u8]; 3] = [
    b"0123456789abcdefABCDEF9876543210fedcbaFEDCBA0123456789abcdefABCDEF9876",
    b"1001006789abcdefABCDEF9876543210fedcbaFEDCBA0123456789abcdefABCDEF9876",
    b"9001006789abcdefABCDEF9876543210fedcbaFEDCBA0123456789abcdefABCDEF9876",
];

/// Digits of data with Q 0, more than 32 and two blocks of 64 after these.
const LONG_DIGITS: &[u8] =
    b"1001006789abcdefABCDEF9876543210fedcbaFEDCBA0123456789abcdefABCDEF9876543210fedcbaFEDCBA0123456789abcdefABCDEF9876543210fedcbaFEDCBA0123456789abcdefABCDEF9876543210fedcba";

/// Lines that come after those that are tested, so that these lie far from the end.
const AFTER: &[u8] = b"1000 N 0123456789abcdefABCDEF9876543210fedcbaFEDCBA0123456789\n1001 T -\n";

/// Bytes that are no digits, beside the digits and far from them.
const OTHERS: [u8; 14] = [
    0, b'\t', b'\n', b' ', b'/', b':', b'@', b'G', b'`', b'g', 0x7f, 0x80, 0xb0, 0xff,
];

/// Numbers of 1 to 10 digits, and words that are no numbers.
const NUMBERS: [&[u8]; 14] = [
    b"1",
    b"12",
    b"123",
    b"1234",
    b"12345",
    b"123456",
    b"1234567",
    b"12345678",
    b"999999999",
    b"1234567890",
    b"0",
    b"01",
    b"1x",
    b"",
];

/// Lines say the same in one chunk and byte by byte.
fn check_lines(rt: &impl Abort, alloc: Global, text: &[u8]) {
    let (mut whole, mut parts) = (Vec::new(alloc), Vec::new(alloc));
    let answer = take_rows(alloc, HEADER, text, text.len(), &mut whole);
    let again = take_rows(alloc, HEADER, text, 1, &mut parts);
    let same = answer == again && whole.as_slice() == parts.as_slice();
    holds_for(rt, same, text);
}

/// So does the line of a row of these digits alone, and before others.
fn check_row(rt: &impl Abort, alloc: Global, number: &[u8], digits: &[u8]) -> Result<(), Fail> {
    let mut line = number.to_vec(alloc)?;
    line.extend_from_slice(b" T ")?;
    line.extend_from_slice(digits)?;
    line.push(b'\n')?;
    check_lines(rt, alloc, &line);
    line.extend_from_slice(AFTER)?;
    check_lines(rt, alloc, &line);
    Ok(())
}

/// Rows of the first of these digits, of each length.
fn check_lengths(rt: &impl Abort, alloc: Global, digits: &[u8]) -> Result<(), Fail> {
    for count in 0..=digits.len() {
        check_row(rt, alloc, b"7", &digits[..count])?;
    }
    Ok(())
}

#[test]
fn digits_of_each_length_are_read_in_one_pass(rt: HostRuntime) -> Result<(), Fail> {
    for digits in DIGITS {
        check_lengths(&rt, rt.alloc(), digits)?;
    }
    check_lengths(&rt, rt.alloc(), LONG_DIGITS)?;
    for number in NUMBERS {
        check_row(&rt, rt.alloc(), number, DIGITS[1])?;
    }
    Ok(())
}

/// Puts each other byte at each place of these digits from one on.
fn check_places(rt: &impl Abort, alloc: Global, digits: &[u8], from: usize) -> Result<(), Fail> {
    for place in from..digits.len() {
        for other in OTHERS {
            let mut changed = digits.to_vec(alloc)?;
            if let Some(byte) = changed.get_mut(place) {
                *byte = other;
            }
            check_row(rt, alloc, b"7", &changed)?;
        }
    }
    Ok(())
}

#[test]
fn each_other_byte_is_seen_at_each_place(rt: HostRuntime) -> Result<(), Fail> {
    for digits in DIGITS {
        check_places(&rt, rt.alloc(), digits, 0)?;
    }
    check_places(&rt, rt.alloc(), LONG_DIGITS, 64)
}
