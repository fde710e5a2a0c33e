//! What the rows of a piece say: parts that were added whole, and rows that were added one by one.

ghost use Rattle.std.specs.Prelude.{◌≡◌, ◌++◌, ◌∷◌, [], length, OnErr, OnOk, IfOk, ◌==◌};

use crate::items::{self, ItemRef, Items};
use crate::part_items::PartItems;
use std::alloc::{AllocError, Allocator, Global};
use std::marker::Model;
use std::mem;

/// What the rows of a piece say, in order. A part that is added keeps its memory: none of its rows is copied.
///
/// ```text
///  parts   1 │ 2 │ 3    4 │ 5
///  last    6 │ 7
/// ```
#[derive(Drop)]
pub struct PieceItems<A: Allocator = Global> {
    /// All parts but the last.
    parts: Vec<PartItems<A>, A>,
    /// The part that goes on.
    last: PartItems<A>,
    /// How many rows there are.
    count: usize,
}

impl<A: Allocator> Model for PieceItems<A> {
    ghost use Rattle.std.specs.Prelude.{◌≡◌, List, length};
    ghost use Rattle.line_model.specs.basics.Records as records;
    ghost use Rattle.line_model.specs.basics.Items.{all_items};

    ghost Value = { List records.Item };

    ghost view = { λ p. all_items p.parts.items p.last };

    ghost invariant = { λ p. p.count ≡ length (all_items p.parts.items p.last) };
}

/// An iterator over what the rows of a piece say, in order.
#[derive(Drop)]
pub struct Iter<'a, A: Allocator = Global> {
    /// The rest of the part that was begun.
    begun: items::Iter<'a>,
    parts: &'a [PartItems<A>],
    last: items::Iter<'a>,
}

impl<'a, A: Allocator> Model for Iter<'a, A> {
    ghost use Rattle.std.specs.Prelude.{List, ◌++◌};
    ghost use Rattle.line_model.specs.basics.Records as records;
    ghost use Rattle.line_model.specs.basics.Items.{all_items};

    ghost Value = { List records.Item };

    ghost view = { λ i. i.begun ++ all_items i.parts.now i.last };
}

impl<'a, A: Allocator> Iterator for Iter<'a, A> {
    type Item = ItemRef<'a>;

    ghost use Rattle.std.specs.Iterator.{YieldsFirst, item_count};

    ghost next_gives = { YieldsFirst (λ left. left) };

    ghost remaining = { item_count (λ left. left) };

    fn next(&mut self) -> Option<ItemRef<'a>> {
        loop {
            if let Some(item) = self.begun.next() {
                return Some(item);
            }
            let Some((part, parts)) = self.parts.split_first() else {
                return self.last.next();
            };
            self.begun = part.iter();
            self.parts = parts;
        }
    }
}

impl<A: Allocator> PieceItems<A> {
    /// Returns how many rows there are.
    pub fn len(&self) -> usize
        ensures { result ≡ length self.now }
    {
        self.count
    }

    /// Returns whether there is no row.
    pub fn is_empty(&self) -> bool
        ensures { result ≡ (length self.now == 0) }
    {
        self.count == 0
    }

    /// Returns the allocator of all parts.
    pub fn allocator(&self) -> &A {
        self.parts.allocator()
    }

    /// Returns what the rows say, in order.
    pub fn iter(&self) -> Iter<'_, A>
        ensures { result ≡ self.now }
    {
        Iter {
            begun: items::Iter::none(),
            parts: self.parts.as_slice(),
            last: self.last.iter(),
        }
    }

    /// Appends the rows of a part, without a copy. Fails only when memory is refused, and nothing changes then.
    pub fn add(&mut self, part: PartItems<A>) -> Result<(), AllocError>
        ensures ok { OnOk result (self.new ≡ self.old ++ part) }
        ensures refused { OnErr result (self.new ≡ self.old) }
    {
        let Some(count) = self.count.checked_add(part.len()) else {
            return Err(AllocError);
        };
        self.parts.reserve(1)?;
        let before = mem::replace(&mut self.last, part);
        self.parts.push_reserved(before);
        self.count = count;
        Ok(())
    }
}

impl<A: Allocator + Copy> PieceItems<A> {
    /// Returns a list without rows. It needs no memory.
    pub fn new(alloc: A) -> Self
        ensures { result ≡ [] }
    {
        PieceItems::of(PartItems::own(Items::new(alloc)))
    }

    /// Returns the rows of a part. It needs no memory.
    pub fn of(part: PartItems<A>) -> Self
        ensures { result ≡ part }
    {
        PieceItems {
            parts: Vec::new(*part.allocator()),
            count: part.len(),
            last: part,
        }
    }

    /// Appends what a row says. Fails when memory is refused, and for a row of 2^32 octets or more; nothing changes
    /// then.
    pub fn push(&mut self, item: &ItemRef<'_>) -> Result<(), AllocError>
        ensures ok { OnOk result (self.new ≡ self.old ++ item.now ∷ []) }
        ensures refused { OnErr result (self.new ≡ self.old) }
    {
        let Some(count) = self.count.checked_add(1) else {
            return Err(AllocError);
        };
        if self.last.push(item)? {
            self.count = count;
            return Ok(());
        }
        let mut part = Items::new(*self.parts.allocator());
        part.push(item)?;
        self.add(PartItems::own(part))
    }

    /// Returns a copy of the rows, as one part. Fails only when memory is refused.
    pub fn copy(&self) -> Result<PieceItems<A>, AllocError>
        ensures { IfOk result (λ items. items ≡ self.now) }
    {
        let mut rows = PieceItems::new(*self.parts.allocator());
        for item in self.iter() {
            rows.push(&item)?;
        }
        Ok(rows)
    }
}
