//! What rows say in two lists, by values from outside.

use line_model::items::shared::SharedItems;
use line_model::items::{ItemRef, Items};
use line_model::packet::{DataHeader, Packet, PacketKind};
use line_model::part_items::PartItems;
use line_model::piece_items::PieceItems;
use line_model::state::Side;
use std::alloc::Global;
use std::test::Fail;

/// A row: its number, its side, its packet, its length, and the octets that are kept.
type Line = (u32, Side, Packet, usize, &'static [u8]);

/// Packets on channel 1: a call request, one that is connected, and data with Q 0.
const CALL: Packet = Packet::Channel {
    channel: 1,
    kind: PacketKind::Call,
};

const ACCEPTED: Packet = Packet::Channel {
    channel: 1,
    kind: PacketKind::Accepted,
};

const DATA: Packet = Packet::Channel {
    channel: 1,
    kind: PacketKind::Data(Some(DataHeader {
        send: 1,
        receive: 1,
        more: false,
        delivery: false,
        qualified: false,
    })),
};

/// Those, a row without octets, and one on no channel. Of the data no octet is kept.
const LINES: [Line; 5] = [
    (1, Side::T, CALL, 5, b"\x10\x01\x0b\x00\x00"),
    (2, Side::T, Packet::Short, 0, b""),
    (4, Side::N, ACCEPTED, 3, b"\x10\x01\x0f"),
    (9, Side::T, DATA, 131, b""),
    (
        11,
        Side::N,
        Packet::Unassigned,
        7,
        b"\x10\x02\x23\xaa\0\x01\0",
    ),
];

/// Appends rows.
fn push_all(items: &mut Items, lines: &[Line]) -> Result<(), Fail> {
    for (number, side, packet, length, octets) in lines {
        items.push(&ItemRef {
            number: *number,
            side: *side,
            packet: *packet,
            length: *length,
            octets,
        })?;
    }
    Ok(())
}

/// Whether the rows are these, in this order.
fn rows_are(items: &Items, lines: &[Line]) -> bool {
    let mut same = items.len() == lines.len() && items.is_empty() == lines.is_empty();
    let mut rows = items.iter();
    for (number, side, packet, length, octets) in lines {
        let wanted = (*number, *side, *packet, *length);
        same = same
            && rows.next().is_some_and(|row| {
                (row.number, row.side, row.packet, row.length) == wanted && row.octets == *octets
            });
    }
    same && rows.next().is_none()
}

/// The rows of a piece: `count` lines in a part, the others up to the last in another part of the same list, and the
/// last one pushed.
fn in_parts(alloc: Global, count: usize) -> Result<PieceItems, Fail> {
    let (mut list, mut last) = (Items::new(alloc), Items::new(alloc));
    push_all(&mut list, &LINES[..4])?;
    push_all(&mut last, &LINES[4..])?;
    let mut others = SharedItems::of(list)?;
    let first = others.split_first(count.min(others.len()))?;
    let mut items = PieceItems::of(PartItems::shared(first));
    items.add(PartItems::shared(others))?;
    for item in last.iter() {
        items.push(&item)?;
    }
    Ok(items)
}

/// The same rows in one list.
fn in_one_list(alloc: Global, items: &PieceItems) -> Result<Items, Fail> {
    let mut list = Items::new(alloc);
    for item in items.iter() {
        list.push(&item)?;
    }
    Ok(list)
}

#[test]
fn rows_are_copied_and_cleared(rt: HostRuntime) -> Result<(), Fail> {
    let (mut items, mut copy) = (Items::new(rt.alloc()), Items::new(rt.alloc()));
    push_all(&mut items, &LINES)?;
    copy.append(items.iter())?;
    items.clear();
    assert!(rt; rows_are(&items, &[]) && rows_are(&copy, &LINES));
    push_all(&mut items, &LINES[2..])?;
    assert!(rt; rows_are(&items, &LINES[2..]) && rows_are(&copy, &LINES));
    Ok(())
}

#[test]
fn rows_that_are_added_in_parts_stay_in_order(rt: HostRuntime) -> Result<(), Fail> {
    for count in 0..5 {
        let items = in_parts(rt.alloc(), count)?;
        let copy = items.copy()?;
        assert!(rt; items.len() == LINES.len() && !items.is_empty() && copy.len() == LINES.len());
        assert!(rt; rows_are(&in_one_list(rt.alloc(), &items)?, &LINES));
        assert!(rt; rows_are(&in_one_list(rt.alloc(), &copy)?, &LINES));
    }
    Ok(())
}
