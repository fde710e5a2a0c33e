//! The restart packets of worked traces, and the rows of an epoch by channel.

ghost use Rattle.std.specs.Prelude.{◌≤◌, ◌∷◌, ◌^◌, All, IfOk, length, map, sum_by};
ghost use Rattle.std.specs.List.Sorted.{IsStrictlyIncreasing};
ghost use Rattle.line_model.specs.basics.Bounds.{AreRows};
ghost use Rattle.line_model.specs.declared.interface.Interface.{Interface as AnyInterface};

mod lists;
mod refused;

use crate::checks::holds_for;
use line_model::finding::{Code, Finding};
use line_model::piece::Piece;
use line_model::row::Row;
use line_model::state::Side;
use packet_decode::decode::decode;
use restart_epochs::cutter::Cutter;
use std::alloc::Allocator;
use std::test::Fail;
use tests_devices::interfaces::PLAIN;

/// Pushes the next row.
fn push(cutter: &mut Cutter, side: Side, octets: &[u8], out: &mut Vec<Piece>) -> Result<(), Fail> {
    let last = cutter.last();
    if last >= 1000 || cutter.octets() >= 1000 || octets.len() >= 1000 {
        return Err("more rows than a test has")?;
    }
    let row = Row {
        number: last + 1,
        side,
        octets: octets.to_vec(*out.allocator())?,
        gap: None,
    };
    let packet = decode(&cutter.interface(), row.octets.as_slice());
    cutter.push(&row.item(packet), out)?;
    Ok(())
}

/// A piece's number, epoch, channel, rows and end.
type Shape = (u32, u32, u16, usize, Option<u32>);

fn shape(piece: &Piece) -> Shape {
    (
        piece.id,
        piece.epoch,
        piece.channel,
        piece.items.len(),
        piece.end.map(|end| end.row),
    )
}

/// The pieces have these shapes, in this order.
fn shapes_are(pieces: &[Piece], shapes: &[Shape]) -> bool {
    pieces.len() == shapes.len()
        && pieces
            .iter()
            .zip(shapes)
            .all(|(piece, wanted)| shape(piece) == *wanted)
}

/// The findings of the restart machine have these rows and codes, in this order.
fn line_is(line: &[Finding], wanted: &[(u32, Code)]) -> bool {
    line.len() == wanted.len()
        && line.iter().zip(wanted).all(|(finding, wanted)| (finding.packet, finding.code)
            == *wanted)
}

/// Two channels with rows before a restart, and what comes after it; with each row, how many pieces are given out up to
/// it.
const TWO_EPOCHS: [(Side, &[u8], usize); 8] = [
    (Side::T, b"\x10\x02\x0b\x00\x00", 0),
    (Side::T, b"\x10\x01\x0b\x00\x00", 0),
    (Side::N, b"\x10\x02\x0f", 0),
    (Side::T, b"\x10\x00\xfb\x00\x00", 2),
    (Side::T, b"\x10\x00\xfb\x00\x00", 2),
    (Side::N, b"\x10\x00\xff", 2),
    (Side::T, b"\x10\x02\x0b\x00\x00", 2),
    (Side::N, b"\x10\x00\xff", 2),
];

/// The pieces of the first epoch.
const FIRST_EPOCH: [Shape; 2] = [(0, 1, 1, 1, Some(4)), (1, 1, 2, 2, Some(4))];

/// At the end the second epoch has a piece, and the last of eight rows a finding.
#[test]
fn row_that_leaves_r1_gives_out_its_epoch(rt: HostRuntime) -> Result<(), Fail> {
    let mut cutter = Cutter::new(rt.alloc(), &PLAIN);
    let mut out = Vec::new(rt.alloc());
    for (side, octets, given) in &TWO_EPOCHS {
        push(&mut cutter, *side, octets, &mut out)?;
        holds_for(&rt, out.len() == *given && cutter.given() == *given, octets);
    }
    assert!(rt; shapes_are(&out, &FIRST_EPOCH));
    let cut = cutter.end()?;
    assert!(rt; cut.packets == 8 && shapes_are(&cut.pieces, &[(2, 2, 2, 1, None)]));
    assert!(rt; line_is(&cut.interface_findings, &[(8, Code::Number(17))]));
    Ok(())
}

/// A row that goes to a channel, and one with a finding.
#[test]
fn pieces_of_the_open_epoch_are_shown_and_stay(rt: HostRuntime) -> Result<(), Fail> {
    let mut cutter = Cutter::new(rt.alloc(), &PLAIN);
    let mut pieces = Vec::new(rt.alloc());
    push(&mut cutter, Side::T, b"\x10\x02\x00\xaa", &mut pieces)?;
    push(&mut cutter, Side::N, b"\x10\x00\xff", &mut pieces)?;
    for _ in 0..2 {
        assert!(rt; shapes_are(&cutter.peek()?, &[(0, 1, 2, 1, None)]));
        assert!(rt; line_is(cutter.interface_findings(), &[(2, Code::Number(17))]));
    }
    Ok(())
}

/// The rows of a trace, which count from 1.
fn rows_of<A: Allocator + Copy>(alloc: A, packets: &[(Side, &[u8])]) -> Result<Vec<Row<A>, A>, Fail>
    ensures rising { IfOk result (λ rows.
        IsStrictlyIncreasing (0 ∷ map (λ r. r.number) rows.items)) }
    ensures numbers { IfOk result (λ rows. All (λ r. r.number ≤ 999999999) rows.items) }
    ensures octets { IfOk result (λ rows. sum_by (λ r. length r.octets) rows.items ≤ 2 ^ 31) }
    ensures lawful { (i : AnyInterface) → IfOk result (λ rows. AreRows i rows.items) }
{
    let mut rows = Vec::new(alloc);
    let mut number = 0;
    for (side, octets) in packets {
        if number >= 1000 || octets.len() > 1000 {
            return Err("more rows than a test has")?;
        }
        number += 1;
        rows.push(Row {
            number,
            side: *side,
            octets: octets.to_vec(alloc)?,
            gap: None,
        })?;
    }
    Ok(rows)
}

/// A data packet on each channel, and a restart that is confirmed.
const EPOCH: [(Side, &[u8]); 6] = [
    (Side::T, b"\x10\x01\x00\xaa"),
    (Side::T, b"\x10\x02\x00\xaa"),
    (Side::T, b"\x10\x03\x00\xaa"),
    (Side::T, b"\x10\x04\x00\xaa"),
    (Side::T, b"\x10\x00\xfb\x00\x00"),
    (Side::N, b"\x10\x00\xff"),
];
