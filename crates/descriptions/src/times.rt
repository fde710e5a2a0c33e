//! Times, frames and circuits of rows, which are in comments before them.

ghost use Rattle.std.specs.Prelude.{◌≡◌, drop};
ghost use Rattle.std.specs.Char.{is_ascii_digit};
ghost use Rattle.std.specs.List.{list_all};
ghost use Rattle.descriptions.specs.CallTable.{point_before, trimmed};
ghost use Rattle.descriptions.specs.Circuits.{is_whole, whole_number};

use trace_text::cuts::split_at_byte;

/// A time in seconds.
#[derive(Clone, Copy)]
pub struct Time {
    /// Whole seconds.
    pub seconds: u64,
    /// Billionths of a second, below 1,000,000,000.
    pub billionths: u32,
}

/// The billionths of a second that a digit counts, by its place after the point.
const BILLIONTHS: [u32; 9] = [
    100_000_000,
    10_000_000,
    1_000_000,
    100_000,
    10_000,
    1_000,
    100,
    10,
    1,
];

/// When and where a row was recorded, as the comment before it says.
#[derive(Clone, Copy)]
pub struct Recorded {
    /// The time.
    pub time: Option<Time>,
    /// The number of the frame that holds the last octet, from 1.
    pub frame: Option<u64>,
    /// The number of the circuit of XOT that carried it, from 1.
    pub circuit: Option<u64>,
}

impl Recorded {
    /// The value where no comment says when or where.
    pub const UNKNOWN: Recorded = Recorded {
        time: None,
        frame: None,
        circuit: None,
    };

    /// Reads a comment `#@ SECONDS`, `#@ SECONDS FRAME` or `#@ SECONDS FRAME CIRCUIT`; a word in place of SECONDS that
    /// is not a time, such as `-`, means no time, and neither a frame nor a circuit is 0. Returns `None` for any other
    /// line.
    pub fn of_comment(line: &[u8]) -> Option<Recorded> {
        let [b'#', b'@', b' ', words @ ..] = line else {
            return None;
        };
        let words = match words {
            [words @ .., b'\r', b'\n'] => words,
            [words @ .., b'\n'] => words,
            words => words,
        };
        match split_at_byte(words, b' ') {
            Some((time, places)) => {
                let (frame, circuit) = places_of_words(places)?;
                Some(Recorded {
                    time: Time::of_word(time),
                    frame: Some(frame),
                    circuit,
                })
            }
            None => Some(Recorded {
                time: Some(Time::of_word(words)?),
                frame: None,
                circuit: None,
            }),
        }
    }
}

/// Reads a frame, and the number of a circuit after it, where there is one.
fn places_of_words(words: &[u8]) -> Option<(u64, Option<u64>)> {
    match split_at_byte(words, b' ') {
        Some((frame, circuit)) => Some((counted(frame)?, Some(counted(circuit)?))),
        None => Some((counted(words)?, None)),
    }
}

/// Reads a number that is not 0.
fn counted(word: &[u8]) -> Option<u64> {
    match whole_number(word) {
        Some(0) => None,
        number => number,
    }
}

impl Time {
    /// Reads a time: one to twelve digits, and perhaps a point with one to nine more.
    fn of_word(word: &[u8]) -> Option<Time> {
        let (whole, part) = match split_at_byte(word, b'.') {
            Some((whole, part)) => (whole, Some(part)),
            None => (word, None),
        };
        let seconds = whole_number(whole)?;
        let billionths = match part {
            Some(part) => part_of_second(part)?,
            None => 0,
        };
        Some(Time {
            seconds,
            billionths,
        })
    }

    /// Returns how long it is after another time; none where that is later.
    pub fn since(&self, start: &Time) -> Option<Time> {
        let seconds = self.seconds.checked_sub(start.seconds)?;
        match self.billionths.checked_sub(start.billionths) {
            Some(billionths) => Some(Time {
                seconds,
                billionths,
            }),
            None => Some(Time {
                seconds: seconds.checked_sub(1)?,
                billionths: self
                    .billionths
                    .saturating_add(1_000_000_000)
                    .saturating_sub(start.billionths),
            }),
        }
    }
}

/// A decimal digit.
fn digit(byte: u8) -> Option<u8> {
    if byte.is_ascii_digit() {
        Some(byte.saturating_sub(b'0'))
    } else {
        None
    }
}

/// Whether all bytes are digits.
fn all_digits(word: &[u8]) -> bool
    ensures { result ≡ list_all is_ascii_digit word.now }
{
    word.iter().all(|byte| byte.is_ascii_digit())
}

/// Whether a word has one to twelve digits and nothing else.
fn is_whole(word: &[u8]) -> bool
    ensures { result ≡ is_whole word.now }
{
    !word.is_empty() && word.len() <= 12 && all_digits(word)
}

/// Returns the number that one to twelve digits write; `None` for any other word.
pub fn whole_number(word: &[u8]) -> Option<u64>
    ensures { result ≡ whole_number word.now }
{
    if !is_whole(word) {
        return None;
    }
    let mut number = 0;
    for digit in word {
        number = number * 10 + (*digit - b'0') as u64;
    }
    Some(number)
}

/// Up to nine digits after the point.
fn part_of_second(digits: &[u8]) -> Option<u32> {
    if digits.is_empty() || digits.len() > 9 {
        return None;
    }
    let mut billionths: u32 = 0;
    for (byte, place_value) in digits.iter().zip(&BILLIONTHS) {
        let value = digit(*byte)?;
        billionths = billionths.saturating_add(place_value.saturating_mul(u32::from(value)));
    }
    Some(billionths)
}

/// Returns digits without the zeros at their end.
#[tactic(auto, using(crate::proofs::TableLemmas::trimmed_last, crate::proofs::TableLemmas::trimmed_front))]
pub fn trimmed(digits: &[u8]) -> &[u8]
    ensures { result.now ≡ trimmed digits.now }
{
    let mut rest = digits;
    while let [front @ .., b'0'] = rest {
        rest = front;
    }
    rest
}

/// Returns what comes after the first digit.
pub fn after_first(digits: &[u8]) -> &[u8]
    ensures { result.now ≡ drop 1 digits.now }
{
    match digits {
        [_, rest @ ..] => rest,
        [] => digits,
    }
}

/// Returns the point before digits, nothing before none.
pub fn point_before(is_none: bool) -> &'static [u8]
    ensures { result.now ≡ point_before is_none }
{
    if is_none { b"" } else { b"." }
}
