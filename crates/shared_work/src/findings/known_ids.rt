//! The ids of the posts.
ghost use Rattle.std.specs.Prelude.{◌≡◌, ℕ, ◌<◌, [], true, false, not, length, OnOk, OnErr, IfOk};
ghost use Rattle.shared_work.specs.findings.Sums.{is_known, HasFlag};

use std::alloc::{AllocError, Allocator};
use std::marker::Model;

/// Which ids are known: a flag for each number up to the largest of them, in a byte. Contracts see the flags.
#[derive(Drop)]
pub(crate) struct KnownIds<A: Allocator> {
    flags: Vec<bool, A>,
}

impl<A: Allocator> Model for KnownIds<A> {
    ghost use Rattle.std.specs.Prelude.{Bool, List};

    ghost Value = { List Bool };

    ghost view = { λ k. k.flags.items };
}

impl<A: Allocator> KnownIds<A> {
    /// Returns a set without ids. Needs no memory.
    pub(crate) fn new(alloc: A) -> Self
        ensures { result ≡ [] }
    {
        KnownIds {
            flags: Vec::new(alloc),
        }
    }

    /// Returns whether an id is known.
    pub(crate) fn contains(&self, id: u32) -> bool
        ensures { result ≡ is_known self.now id }
    {
        let place = id as usize;
        if place < self.flags.len() {
            self.flags[place]
        } else {
            false
        }
    }

    /// Makes a flag for each number up to this id. Where memory is refused nothing changes.
    fn widen(&mut self, id: u32) -> Result<(), AllocError>
        ensures wide { OnOk result (id < length self.new) }
        ensures same { OnOk result ((x : ℕ) → is_known self.new x ≡ is_known self.old x) }
        ensures refused { OnErr result (self.new ≡ self.old) }
    {
        let count = id as usize + 1;
        if self.flags.len() < count {
            self.flags.resize(count, false)?;
        }
        Ok(())
    }

    /// Inserts an id, and returns whether it was not known. Fails only when memory is refused, and nothing has changed
    /// then.
    pub(crate) fn insert(&mut self, id: u32) -> Result<bool, AllocError>
        ensures added { IfOk result (λ added. added ≡ not (is_known self.old id)) }
        ensures updates { OnOk result (HasFlag self.old self.new id true) }
        ensures refused { OnErr result (self.new ≡ self.old) }
    {
        let is_new = !self.contains(id);
        self.widen(id)?;
        self.flags[id as usize] = true;
        Ok(is_new)
    }

    /// Removes an id.
    pub(crate) fn remove(&mut self, id: u32)
        ensures updates { HasFlag self.old self.new id false }
    {
        let place = id as usize;
        if place < self.flags.len() {
            self.flags[place] = false;
        }
    }
}
