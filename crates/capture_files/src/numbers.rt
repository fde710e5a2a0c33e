//! Numbers in the byte order of a file.

ghost use Rattle.std.specs.Prelude.{◌≡◌, ◌+◌, ◌≤◌, drop, length};
ghost use Rattle.capture_files.specs.Numbers.{next_number, number, short_number};

/// Returns the number that four octets write.
#[tactic(auto, unfolding(crate::specs::Numbers::number))]
pub(crate) fn read_four(is_big: bool, octets: &[u8], at: usize) -> u32
    requires { at + 4 ≤ length octets.now }
    ensures { result ≡ number is_big (drop at octets.now) }
{
    let four = [octets[at], octets[at + 1], octets[at + 2], octets[at + 3]];
    if is_big {
        u32::from_be_bytes(four)
    } else {
        u32::from_le_bytes(four)
    }
}

/// Returns the number that two octets write.
#[tactic(auto, unfolding(crate::specs::Numbers::short_number))]
pub(crate) fn read_two(is_big: bool, octets: &[u8], at: usize) -> u16
    requires { at + 2 ≤ length octets.now }
    ensures { result ≡ short_number is_big (drop at octets.now) }
{
    let two = [octets[at], octets[at + 1]];
    if is_big {
        u16::from_be_bytes(two)
    } else {
        u16::from_le_bytes(two)
    }
}

/// Returns the number after one; no capture has so many frames that it stays the same.
pub(crate) fn next_number(number: u64) -> u64
    ensures { result ≡ next_number number }
{
    number.saturating_add(1)
}
