//! The front of a row: its number and its side.

ghost use Rattle.std.specs.Prelude.{IfSome};
ghost use Rattle.trace_text.specs.Reads.{BeginsRow};

use line_model::state::Side;

/// The most digits that a number has.
const NUMBER_DIGITS: usize = 9;

/// Returns the number and the side at the front of a row after one with the number `last`, and what follows the space
/// after them. `None` where the line is faulty or not a row, or the text ends within them.
#[inline(always)]
pub fn split_front(last: u32, text: &[u8]) -> Option<(u32, Side, &[u8])>
    ensures { IfSome result (λ parts. BeginsRow last text.now parts.0 parts.1 parts.2.now) }
{
    if text.len() <= NUMBER_DIGITS {
        return None;
    }
    let mut number = 0;
    let mut count = 0;
    while count < NUMBER_DIGITS {
        // It wraps: above 9 for any byte that is no digit.
        let digit = (text[count] as u32).wrapping_sub(b'0' as u32);
        if digit > 9 {
            break;
        }
        number = number * 10 + digit;
        count += 1;
    }
    if count == 0 || text[0] == b'0' || number <= last {
        return None;
    }
    match &text[count..] {
        [b' ', b'T', b' ', digits @ ..] => Some((number, Side::T, digits)),
        [b' ', b'N', b' ', digits @ ..] => Some((number, Side::N, digits)),
        _ => None,
    }
}
