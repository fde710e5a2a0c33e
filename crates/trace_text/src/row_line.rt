//! The line of a row: `number side hex`, or a gap's `number ? channel` or `number ? *`.

ghost use Rattle.std.specs.Prelude.{◌≡◌, None, Some, MatchResult, ◌⊎◌};
ghost use Rattle.line_model.specs.declared.fault.Kind.TheVariants.{Hex};
ghost use Rattle.trace_text.specs.declared.content.LineFault.TheVariants.{Memory, Broken};
ghost use Rattle.line_model.specs.text.RowLine.{RowWords, gap_kind, gap_row, gap_within, octets_of, packet_kind, packet_row, rising_number, row_kind, row_of, row_words, side_of};
ghost use Rattle.trace_text.specs.Reads.{Breaks, whole_row};

use crate::content::LineFault;
use crate::number::read_number;
use crate::words::Words;
use hex::decode_to_slice;
use line_model::fault::Kind;
use line_model::interface::Interface;
use line_model::row::ReadRow;
use line_model::state::Side;
use std::alloc::Allocator;
use std::marker::Model;

/// The octets that a row may have.
pub const OCTET_LIMIT: usize = 4200;

/// The three words of a row's line.
#[derive(Drop)]
struct Fields<'a> {
    number: &'a [u8],
    side: &'a [u8],
    hex: &'a [u8],
}

impl<'a> Model for Fields<'a> {
    ghost use Rattle.line_model.specs.text.RowLine.{RowWords};

    ghost Value = { RowWords };

    ghost view = { λ f. record { number = f.number.now; side = f.side.now; hex = f.hex.now } };
}

#[tactic(auto, unfolding(line_model::specs::text::RowLine::row_words))]
fn split_fields(line: &[u8]) -> Option<Fields<'_>>
    ensures { result ≡ row_words line.now }
{
    let mut words = Words::new(line);
    let number = words.next()?;
    let side = words.next()?;
    let hex = words.next()?;
    match words.next() {
        None if !number.is_empty() && !side.is_empty() && !hex.is_empty() => Some(Fields {
            number,
            side,
            hex,
        }),
        _ => None,
    }
}

/// Returns the number of a row after one with the number `last`.
fn read_rising(last: u32, word: &[u8]) -> Option<u32>
    ensures { result ≡ rising_number last word.now }
{
    match read_number(word) {
        Some(number) if last < number => Some(number),
        _ => None,
    }
}

fn read_side(word: &[u8]) -> Option<Side>
    ensures { result ≡ side_of word.now }
{
    match word {
        [b'T'] => Some(Side::T),
        [b'N'] => Some(Side::N),
        _ => None,
    }
}

/// Puts the octets that hex digits write, or none for `-`, in place of those in a list, whose memory is used again.
#[tactic(auto, unfolding(line_model::specs::text::RowLine::octets_of))]
fn read_octets<A: Allocator>(word: &[u8], octets: &mut Vec<u8, A>) -> Result<(), LineFault>
    ensures { MatchResult result (λ _. octets_of word.now ≡ Some octets.new.items) (λ fault.
        (fault ≡ Memory) ⊎ ((fault ≡ Broken Hex) × (octets_of word.now ≡ None))) }
{
    if word == b"-".as_slice() {
        octets.clear();
        return Ok(());
    }
    if word.len() > 2 * OCTET_LIMIT {
        return Err(LineFault::Broken(Kind::Hex));
    }
    octets.resize(word.len() / 2, 0)?;
    match decode_to_slice(word, octets.as_mut_slice()) {
        Ok(()) => Ok(()),
        Err(_) => Err(LineFault::Broken(Kind::Hex)),
    }
}

/// Returns the channel that a word names, or that it names all.
fn read_gap(svc: u16, word: &[u8]) -> Option<Option<u16>>
    ensures { result ≡ gap_within svc word.now }
{
    if word == b"*".as_slice() {
        return Some(None);
    }
    match read_number(word) {
        Some(channel) if 1 <= channel && channel <= svc as u32 => Some(Some(channel as u16)),
        _ => None,
    }
}

/// Reads the row of a packet with a number into `row`.
fn read_packet<A: Allocator>(
    number: u32,
    fields: &Fields<'_>,
    row: &mut ReadRow<A>,
) -> Result<(), LineFault>
    ensures { MatchResult result (λ _. (packet_kind fields.now ≡ None)
        × (packet_row fields.now number ≡ Some (whole_row row.new))) (Breaks (packet_kind fields.now)) }
{
    let Some(side) = read_side(fields.side) else {
        return Err(LineFault::Broken(Kind::Side));
    };
    read_octets(fields.hex, &mut row.octets)?;
    row.number = number;
    row.side = side;
    row.gap = None;
    Ok(())
}

/// Reads the row of a gap with a number into `row`.
fn read_gap_row<A: Allocator>(
    number: u32,
    svc: u16,
    fields: &Fields<'_>,
    row: &mut ReadRow<A>,
) -> Result<(), LineFault>
    ensures { MatchResult result (λ _. (gap_kind svc fields.now ≡ None)
        × (gap_row fields.now number ≡ Some (whole_row row.new))) (Breaks (gap_kind svc fields.now)) }
{
    let Some(gap) = read_gap(svc, fields.hex) else {
        return Err(LineFault::Broken(Kind::Hex));
    };
    row.octets.clear();
    row.number = number;
    row.side = Side::T;
    row.gap = Some(gap);
    Ok(())
}

/// Reads the row of a line after one with the number `last`, with all its octets, into `row`, whose length it does not
/// set. Fails with the rule that the line breaks, or when memory is refused; `row` has no meaning then.
#[tactic(auto, unfolding(line_model::specs::text::RowLine::row_kind, line_model::specs::text::RowLine::row_of))]
pub fn read_row<A: Allocator>(
    interface: &Interface,
    last: u32,
    line: &[u8],
    row: &mut ReadRow<A>,
) -> Result<(), LineFault>
    ensures { MatchResult result (λ _. (row_kind interface.now last line.now ≡ None)
        × (row_of line.now ≡ Some (whole_row row.new))) (Breaks (row_kind interface.now last line.now)) }
{
    let Some(fields) = split_fields(line) else {
        return Err(LineFault::Broken(Kind::LineForm));
    };
    let Some(number) = read_rising(last, fields.number) else {
        return Err(LineFault::Broken(Kind::Number));
    };
    if interface.gaps && fields.side == b"?".as_slice() {
        return read_gap_row(number, interface.svc, &fields, row);
    }
    read_packet(number, &fields, row)
}
