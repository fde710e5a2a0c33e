//! Rows of a piece that were added together.

ghost use Rattle.std.specs.Prelude.{◌≡◌, ◌++◌, ◌∷◌, [], cond, length, IfOk, OnErr};

use crate::items::shared::SharedItems;
use crate::items::{ItemRef, Items, Iter};
use std::alloc::{AllocError, Allocator, Global};
use std::marker::Model;

/// The list that has the rows of a part.
#[derive(Drop)]
enum PartRows<A: Allocator> {
    /// A list of their own.
    Own(Items<A>),
    /// A list with rows of other parts.
    Shared(SharedItems<A>),
}

/// Rows of a piece, one after the other.
#[derive(Drop)]
pub struct PartItems<A: Allocator = Global> {
    rows: PartRows<A>,
}

impl<A: Allocator> Model for PartItems<A> {
    ghost use Rattle.std.specs.Prelude.{List};
    ghost use Rattle.line_model.specs.basics.Records as records;
    ghost use Rattle.line_model.specs.basics.Parts.{part_rows};

    ghost Value = { List records.Item };

    ghost view = { λ p. part_rows p.rows };
}

impl<A: Allocator> PartItems<A> {
    /// Returns rows in a list of their own.
    pub fn own(items: Items<A>) -> Self
        ensures { result ≡ items }
    {
        PartItems {
            rows: PartRows::Own(items),
        }
    }

    /// Returns rows of a list that others share.
    pub fn shared(items: SharedItems<A>) -> Self
        ensures { result ≡ items }
    {
        PartItems {
            rows: PartRows::Shared(items),
        }
    }

    /// Returns how many rows there are.
    pub fn len(&self) -> usize
        ensures { result ≡ length self.now }
    {
        match &self.rows {
            PartRows::Own(items) => items.len(),
            PartRows::Shared(items) => items.len(),
        }
    }

    /// Returns the allocator of the rows.
    pub fn allocator(&self) -> &A {
        match &self.rows {
            PartRows::Own(items) => items.allocator(),
            PartRows::Shared(items) => items.allocator(),
        }
    }

    /// Returns what the rows say, in order.
    pub fn iter(&self) -> Iter<'_>
        ensures { result ≡ self.now }
    {
        match &self.rows {
            PartRows::Own(items) => items.iter(),
            PartRows::Shared(items) => items.iter(),
        }
    }

    /// Appends what a row says, if the rows have a list of their own, and returns whether they do. Where memory is
    /// refused nothing changes.
    pub(crate) fn push(&mut self, item: &ItemRef<'_>) -> Result<bool, AllocError>
        ensures pushed { IfOk result (λ pushed. self.new ≡ cond pushed (self.old ++ item.now ∷ []) self.old) }
        ensures refused { OnErr result (self.new ≡ self.old) }
    {
        match &mut self.rows {
            PartRows::Own(items) => {
                items.push(item)?;
                Ok(true)
            }
            PartRows::Shared(_) => Ok(false),
        }
    }
}
