//! What waits to be taken.

ghost use Rattle.std.specs.Prelude.{◌≡◌, ◌≤◌, ◌++◌, ◌∷◌, [], None, Some, OnErr, OnOk, IfSome, drop, length};

use line_model::device::Sink;
use line_model::history::Count;
use std::alloc::{AllocError, Allocator};

/// A list that grows at its end, and is taken from its front.
#[derive(Drop)]
pub struct Waiting<T: Copy, A: Allocator> {
    items: Vec<T, A>,
    taken: usize,
    /// How often it could not grow.
    failures: Count,
    ghost few: { taken ≤ length items.items },
}

impl<T: Copy, A: Allocator + Copy> Waiting<T, A> {
    ghost use Rattle.x25scan_c.specs.Waits.{waiting};

    /// Returns an empty list. Allocates nothing.
    pub(crate) fn new(alloc: A) -> Self
        ensures { waiting result ≡ [] }
    {
        Waiting {
            items: Vec::new(alloc),
            taken: 0,
            failures: Count::new(),
        }
    }

    /// Returns what waits.
    pub(crate) fn as_slice(&self) -> &[T]
        ensures { result.now ≡ waiting self.now }
    {
        &self.items[self.taken..]
    }

    /// Appends to what waits. Fails when memory is refused.
    pub(crate) fn append(&mut self, more: &[T]) -> Result<(), AllocError>
        ensures appended { OnOk result (waiting self.new ≡ waiting self.old ++ more.now) }
        ensures same { OnErr result (waiting self.new ≡ waiting self.old) }
    {
        self.items.extend_from_slice(more)
    }

    /// Takes the first ones, and frees what was taken once it is as much as what waits.
    pub(crate) fn take(&mut self, count: usize)
        requires { count ≤ length (waiting self.old) }
        ensures { waiting self.new ≡ drop count (waiting self.old) }
    {
        self.taken += count;
        let rest = self.as_slice();
        if rest.len() > self.taken {
            return;
        }
        if let Ok(items) = Vec::from_slice(*self.items.allocator(), rest) {
            self.taken = 0;
            self.items = items;
        }
    }

    /// Takes the first one.
    pub(crate) fn take_first(&mut self) -> Option<T>
        ensures next { IfSome result (λ first. waiting self.old ≡ first ∷ waiting self.new) }
        ensures none { result ≡ None → (waiting self.old ≡ []) × (waiting self.new ≡ []) }
    {
        let first = *self.as_slice().first()?;
        self.take(1);
        Some(first)
    }
}

impl<A: Allocator + Copy> Sink for Waiting<u8, A> {
    ghost use Rattle.x25scan_c.specs.Waits.{waiting};

    ghost taken = { λ w. Some (waiting w) };

    ghost failures = { λ w. w.failures };

    fn write(&mut self, bytes: &[u8]) -> Result<usize, ()> {
        match self.items.extend_from_slice(bytes) {
            Ok(()) => Ok(bytes.len()),
            Err(_) => {
                self.failures.add_one();
                Err(())
            }
        }
    }
}
