//! Counts and bytes that contracts alone see. The types have no bytes at run time, and their functions do nothing. They
//! say what happened as far as the type that keeps them ties them to it.

ghost use Rattle.std.specs.Prelude.{◌≡◌, ℕ, ◌+◌, List, [], ◌∷◌, ◌++◌};
ghost use Rattle.std.specs.Borrow.{ftrue};

use std::marker::Model;

/// A list of bytes.
#[derive(Drop)]
pub struct History {
    pub ghost bytes: { List ℕ },
}

impl Model for History {
    ghost also_owns = { λ _. ftrue };
}

impl History {
    /// Returns an empty list.
    pub fn new() -> History
        ensures { result.bytes ≡ [] }
    {
        History::of(b"")
    }

    /// Returns the list of these bytes.
    pub fn of(_bytes: &[u8]) -> History
        ensures { result.bytes ≡ _bytes.now }
    {
        History {}
    }

    /// Returns the list with one more byte.
    pub fn with(_before: &History, _byte: &u8) -> History
        ensures { result.bytes ≡ _before.now.bytes ++ _byte.now ∷ [] }
    {
        History {}
    }
}

/// A count without a bound. Contracts see the number.
#[derive(Drop)]
pub struct Count {
    // A byte for each time.
    times: History,
}

impl Model for Count {
    ghost use Rattle.std.specs.Prelude.{ℕ, length};

    ghost Value = { ℕ };

    ghost view = { λ c. length c.times.bytes };
}

impl Count {
    /// Returns the count 0.
    pub fn new() -> Count
        ensures { result ≡ 0 }
    {
        Count {
            times: History::new(),
        }
    }

    /// Adds 1.
    pub fn add_one(&mut self)
        ensures { self.new ≡ self.old + 1 }
    {
        self.times = History::with(&self.times, &0);
    }
}
