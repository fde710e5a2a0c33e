//! Rows of a list that is shared.

ghost use Rattle.std.specs.Prelude.{◌≡◌, ◌+◌, ◌<◌, ◌≤◌, ◌^◌, ◌++◌, length, take, drop, IfOk};
ghost use Rattle.line_model.specs.basics.Items.{octets_of};

use super::{Head, Items, Iter};
use std::alloc::{AllocError, Allocator, Global};
use std::marker::Model;
use std::sync::Arc;

/// The two lists of some rows.
#[derive(Drop)]
struct Lists<A: Allocator> {
    heads: Vec<Head, A>,
    octets: Vec<u8, A>,
}

/// Rows that are one after the other in a shared list. The memory of the list is freed with the last of its rows.
///
/// ```text
///  list   1 │ 2 │ 3 │ 4 │ 5 │ 6
///  rows           3 │ 4
/// ```
#[derive(Drop)]
pub struct SharedItems<A: Allocator = Global> {
    lists: Arc<Lists<A>, A>,
    /// The place of the first row.
    first: usize,
    count: usize,
    /// The place of its first octet.
    octet: usize,
    /// How many octets are kept of all rows.
    kept: usize,
}

impl<A: Allocator> Model for SharedItems<A> {
    ghost use Rattle.std.specs.Prelude.{◌≡◌, ◌+◌, ◌≤◌, List, length, take, drop};
    ghost use Rattle.std.specs.Arc.{arc_value};
    ghost use Rattle.line_model.specs.basics.Records as records;
    ghost use Rattle.line_model.specs.basics.Items.{items_of, octets_of};

    ghost Value = { List records.Item };

    ghost view = { λ s. items_of (take s.count (drop s.first (arc_value s.lists).heads.items))
        (take s.kept (drop s.octet (arc_value s.lists).octets.items)) };

    ghost invariant = { λ s. (s.first + s.count ≤ length (arc_value s.lists).heads.items)
        × (s.octet + s.kept ≤ length (arc_value s.lists).octets.items)
        × (octets_of (take s.count (drop s.first (arc_value s.lists).heads.items)) ≡ s.kept) };
}

/// Returns `count` items of a list, from `first` on.
fn cut<T>(list: &[T], first: usize, count: usize) -> &[T]
    requires inside { first + count ≤ length list.now }
    ensures { result.now ≡ take count (drop first list.now) }
{
    let (_, rest) = list.split_at(first);
    let (part, _) = rest.split_at(count);
    part
}

/// How many octets are kept of some rows.
fn count_kept(heads: &[Head]) -> usize
    requires few { octets_of heads.now < 2 ^ 64 }
    ensures { result ≡ octets_of heads.now }
{
    let mut kept = 0;
    for head in heads {
        kept += head.kept as usize;
    }
    kept
}

impl<A: Allocator> SharedItems<A> {
    /// Returns how many rows there are.
    pub fn len(&self) -> usize
        ensures { result ≡ length self.now }
    {
        self.count
    }

    /// Returns the allocator of the list.
    pub fn allocator(&self) -> &A {
        self.lists.heads.allocator()
    }

    /// Returns what the rows say, in order.
    pub fn iter(&self) -> Iter<'_>
        ensures { result ≡ self.now }
    {
        Iter {
            heads: cut(self.lists.heads.as_slice(), self.first, self.count),
            octets: cut(self.lists.octets.as_slice(), self.octet, self.kept),
        }
    }

    /// Splits off the first `count` rows, by another reference to the list and without a copy. Fails only where the
    /// list can't have another reference.
    pub fn split_first(&mut self, count: usize) -> Result<SharedItems<A>, AllocError>
        requires some { count ≤ length self.old }
        ensures rows { IfOk result (λ first. self.old ≡ first ++ self.new) }
        ensures count { IfOk result (λ first. length first ≡ count) }
    {
        let lists = Arc::try_clone(&self.lists)?;
        let kept = count_kept(cut(self.lists.heads.as_slice(), self.first, count));
        let part = SharedItems {
            lists,
            first: self.first,
            count,
            octet: self.octet,
            kept,
        };
        self.first += count;
        self.count -= count;
        self.octet += kept;
        self.kept -= kept;
        Ok(part)
    }
}

impl<A: Allocator + Copy> SharedItems<A> {
    /// Returns the rows of a list, which can be split. Fails only when memory is refused.
    pub fn of(items: Items<A>) -> Result<Self, AllocError>
        ensures { IfOk result (λ shared. shared ≡ items) }
    {
        let Items { heads, octets } = items;
        let (count, kept) = (heads.len(), octets.len());
        let lists = Arc::new(*heads.allocator(), Lists { heads, octets })?;
        Ok(SharedItems {
            lists,
            first: 0,
            count,
            octet: 0,
            kept,
        })
    }
}
