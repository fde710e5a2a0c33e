//! Numbers of 1 to 9 digits.

ghost use Rattle.std.specs.Prelude.{◌≡◌, ◌<◌, ◌≤◌, decimal, length};
ghost use Rattle.line_model.specs.text.Header.{is_number as is_number_word};
ghost use Rattle.line_model.specs.text.Header.{number_of};
ghost use Rattle.std.specs.List.{list_all};
ghost use Rattle.std.specs.Char.{is_ascii_digit};

fn all_digits(word: &[u8]) -> bool
    ensures { result ≡ list_all is_ascii_digit word.now }
{
    word.iter().all(|b| b.is_ascii_digit())
}

fn is_number(word: &[u8]) -> bool
    ensures { result ≡ is_number_word word.now }
{
    if word.is_empty() || word.len() > 9 {
        return false;
    }
    if !all_digits(word) {
        return false;
    }
    word.len() == 1 || word[0] != b'0'
}

/// Returns the number of a word of 1 to 9 digits without leading zeros; `None` for any other word.
pub fn read_number(word: &[u8]) -> Option<u32>
    ensures value { result ≡ number_of word.now }
{
    if !is_number(word) {
        return None;
    }
    let mut value = 0;
    for digit in word {
        value = value * 10 + (*digit - b'0') as u32;
    }
    Some(value)
}

/// The largest number of a row.
pub const LARGEST_NUMBER: u32 = 999_999_999;

/// Returns how many digits the number of a row has.
#[inline(always)]
pub fn digit_count(number: u32) -> usize
    requires some { 0 < number }
    requires small { number < 1000000000 }
    ensures value { result ≡ length (decimal number) }
    ensures few { result ≤ 9 }
{
    match number {
        0..=9 => 1,
        10..=99 => 2,
        100..=999 => 3,
        1000..=9999 => 4,
        10_000..=99_999 => 5,
        100_000..=999_999 => 6,
        1_000_000..=9_999_999 => 7,
        10_000_000..=99_999_999 => 8,
        _ => 9,
    }
}
