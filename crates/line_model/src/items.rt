//! What rows say, in two lists: the head of each row, and the octets that are kept.

ghost use Rattle.std.specs.Prelude.{◌≡◌, ◌++◌, ◌∷◌, [], length, OnErr, OnOk, IfOk, ◌==◌};
ghost use Rattle.line_model.specs.packets.Says.{gap_item};

use crate::packet::Packet;
use crate::state::Side;
use std::alloc::{AllocError, Allocator, Global};
use std::marker::Model;

/// What a row says, without its octets.
#[derive(Clone, Copy)]
pub struct Head {
    number: u32,
    side: Side,
    packet: Packet,
    /// How many octets the row has.
    length: u32,
    /// How many of them are kept.
    kept: u32,
}

/// What rows say, in order. One list has the heads of all rows, and the other the octets that are kept of them.
///
/// ```text
///  heads   1 T call, 5 octets │ 2 N accepted, 3 octets │ 3 T data, 68 octets
///  octets  10 01 0B 00 01       10 01 0F                 none: its Q bit is 0
/// ```
#[derive(Drop)]
pub struct Items<A: Allocator = Global> {
    heads: Vec<Head, A>,
    octets: Vec<u8, A>,
}

impl<A: Allocator> Model for Items<A> {
    ghost use Rattle.std.specs.Prelude.{◌≡◌, List, length};
    ghost use Rattle.line_model.specs.basics.Records as records;
    ghost use Rattle.line_model.specs.basics.Items.{items_of, octets_of};

    ghost Value = { List records.Item };

    ghost view = { λ i. items_of i.heads.items i.octets.items };

    ghost invariant = { λ i. octets_of i.heads.items ≡ length i.octets.items };
}

/// What a row says (X.25 clause 5); the octets are borrowed.
#[derive(Drop)]
pub struct ItemRef<'a> {
    /// The packet number.
    pub number: u32,
    /// The side that sent it.
    pub side: Side,
    /// What its octets are.
    pub packet: Packet,
    /// How many octets it has.
    pub length: usize,
    /// The octets that are kept: none of data with Q 0, all of any other row.
    pub octets: &'a [u8],
}

impl ItemRef<'_> {
    /// Returns what a gap of all channels says, by its number (profile).
    pub fn gap_of_all(number: u32) -> ItemRef<'static>
        ensures { result ≡ gap_item number }
    {
        ItemRef {
            number,
            side: Side::T,
            packet: Packet::GapOfAll,
            length: 0,
            octets: &[],
        }
    }
}

impl<'a> Model for ItemRef<'a> {
    ghost use Rattle.line_model.specs.basics.Records as records;

    ghost Value = { records.Item };

    ghost view = { λ i. record { number = i.number; side = i.side; packet = i.packet; length = i.length; octets = i.octets.now } };
}

/// An iterator over what rows say, in order.
#[derive(Drop)]
pub struct Iter<'a> {
    heads: &'a [Head],
    octets: &'a [u8],
}

impl<'a> Model for Iter<'a> {
    ghost use Rattle.std.specs.Prelude.{◌≡◌, List, length};
    ghost use Rattle.line_model.specs.basics.Records as records;
    ghost use Rattle.line_model.specs.basics.Items.{items_of, octets_of};

    ghost Value = { List records.Item };

    ghost view = { λ i. items_of i.heads.now i.octets.now };

    ghost invariant = { λ i. octets_of i.heads.now ≡ length i.octets.now };
}

impl<'a> Iter<'a> {
    /// Returns no rows.
    pub(crate) fn none() -> Self
        ensures { result ≡ [] }
    {
        Iter {
            heads: [].as_slice(),
            octets: [].as_slice(),
        }
    }
}

impl<'a> Iterator for Iter<'a> {
    type Item = ItemRef<'a>;

    ghost use Rattle.std.specs.Iterator.{YieldsFirst, item_count};

    ghost next_gives = { YieldsFirst (λ left. left) };

    ghost remaining = { item_count (λ left. left) };

    fn next(&mut self) -> Option<ItemRef<'a>> {
        let (head, heads) = self.heads.split_first()?;
        let (octets, rest) = self.octets.split_at(head.kept as usize);
        self.heads = heads;
        self.octets = rest;
        Some(ItemRef {
            number: head.number,
            side: head.side,
            packet: head.packet,
            length: head.length as usize,
            octets,
        })
    }
}

impl<A: Allocator> Items<A> {
    /// Returns how many rows there are.
    pub fn len(&self) -> usize
        ensures { result ≡ length self.now }
    {
        self.heads.len()
    }

    /// Returns whether there is no row.
    pub fn is_empty(&self) -> bool
        ensures { result ≡ (length self.now == 0) }
    {
        self.heads.is_empty()
    }

    /// Returns the allocator of both lists.
    pub fn allocator(&self) -> &A {
        self.heads.allocator()
    }

    /// Returns what the rows say, in order.
    pub fn iter(&self) -> Iter<'_>
        ensures { result ≡ self.now }
    {
        Iter {
            heads: self.heads.as_slice(),
            octets: self.octets.as_slice(),
        }
    }

    /// Drops all rows. The memory of both lists is kept.
    pub fn clear(&mut self)
        ensures { self.new ≡ [] }
    {
        self.heads.clear();
        self.octets.clear();
    }

    /// Appends what a row says. Fails when memory is refused, and for a row of 2^32 octets or more; nothing changes
    /// then.
    pub fn push(&mut self, item: &ItemRef<'_>) -> Result<(), AllocError>
        ensures ok { OnOk result (self.new ≡ self.old ++ item.now ∷ []) }
        ensures refused { OnErr result (self.new ≡ self.old) }
    {
        let (Ok(length), Ok(kept)) = (u32::try_from(item.length), u32::try_from(item.octets.len()))
        else {
            return Err(AllocError);
        };
        self.heads.reserve(1)?;
        self.octets.extend_from_slice(item.octets)?;
        self.heads.push_reserved(Head {
            number: item.number,
            side: item.side,
            packet: item.packet,
            length,
            kept,
        });
        Ok(())
    }

    /// Appends rows. Where memory is refused nothing changes.
    pub fn append(&mut self, rows: Iter<'_>) -> Result<(), AllocError>
        ensures ok { OnOk result (self.new ≡ self.old ++ rows.entry) }
        ensures refused { OnErr result (self.new ≡ self.old) }
    {
        self.heads.reserve(rows.heads.len())?;
        self.octets.extend_from_slice(rows.octets)?;
        let Ok(()) = self.heads.extend_from_slice(rows.heads) else {
            unreachable!();
        };
        Ok(())
    }
}

impl<A: Allocator + Copy> Items<A> {
    /// Returns a list without rows. It needs no memory.
    pub fn new(alloc: A) -> Self
        ensures { result ≡ [] }
    {
        Items {
            heads: Vec::new(alloc),
            octets: Vec::new(alloc),
        }
    }

    /// Returns a list without rows, with room for `rows` rows and `octets` octets.
    pub fn with_capacity(alloc: A, rows: usize, octets: usize) -> Result<Self, AllocError>
        ensures { IfOk result (λ items. items ≡ []) }
    {
        Ok(Items {
            heads: Vec::with_capacity(alloc, rows)?,
            octets: Vec::with_capacity(alloc, octets)?,
        })
    }
}

pub mod shared;
