//! The line that writes a row.

ghost use Rattle.std.specs.Prelude.{◌≡◌, ◌++◌, None, OnOk};
ghost use Rattle.trace_text.specs.RowTexts.{octets_word, row_text, side_letter};

use hex::encode_upper;
use itoa::Buffer;
use line_model::state::Side;
use std::alloc::{AllocError, Allocator};

/// The letter of a side.
fn side_letter(side: Side) -> u8
    ensures { result ≡ side_letter side }
{
    match side {
        Side::T => b'T',
        Side::N => b'N',
    }
}

/// Appends the word of a row's octets.
fn append_octets<A: Allocator + Copy>(
    line: &mut Vec<u8, A>,
    octets: &[u8],
) -> Result<(), AllocError>
    ensures { OnOk result (line.new.items ≡ line.old.items ++ octets_word octets.now) }
{
    if octets.is_empty() {
        return line.extend_from_slice(b"-");
    }
    let digits = encode_upper(*line.allocator(), octets)?;
    line.extend_from_slice(digits.as_bytes())
}

/// Writes the line of a packet's row, with its line feed, in place of what `line` has. Fails only when memory is
/// refused.
pub fn put_row<A: Allocator + Copy>(
    line: &mut Vec<u8, A>,
    number: u32,
    side: Side,
    octets: &[u8],
) -> Result<(), AllocError>
    ensures { OnOk result (line.new.items
        ≡ row_text (record { number = number; side = side; octets = octets.now; gap = None })) }
{
    let mut digits = Buffer::new();
    line.clear();
    line.extend_from_slice(digits.format(number).as_bytes())?;
    line.extend_from_slice(&[b' ', side_letter(side), b' '])?;
    append_octets(line, octets)?;
    line.extend_from_slice(b"\n")
}
