//! A list of values that only contracts see. It has no bytes, and its functions do nothing when they run.

ghost use Rattle.std.specs.Prelude.{◌≡◌, List, [], ◌∷◌, ◌++◌};
ghost use Rattle.std.specs.Borrow.{ftrue};

use std::marker::{Model, PhantomData};

/// The values so far.
#[derive(Drop)]
pub(crate) struct Log<T> {
    of: PhantomData<T>,
    pub(crate) ghost items: { List T },
}

impl<T> Model for Log<T> {
    ghost also_owns = { λ _. ftrue };
}

// A log has no value of `T`.
unsafe impl<T: Send> Send for Log<T> {}

impl<T> Log<T> {
    /// Returns the log without values.
    pub(crate) fn new() -> Log<T>
        ensures { result.items ≡ [] }
    {
        Log { of: PhantomData }
    }

    /// Returns the log with one more value.
    pub(crate) fn and(&self, item: &T) -> Log<T>
        ensures { result.items ≡ self.now.items ++ item.now ∷ [] }
    {
        Log { of: PhantomData }
    }
}
