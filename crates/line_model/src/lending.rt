//! A sink that is lent to a value which writes to it, and is given back.
//!
//! A function that is generic over sinks promises what its sink accepted, and not which sink it was. So a value that
//! holds the `&mut` of another sink can't promise by a field that it still holds the same one afterwards: its type has
//! to. The type of a sink that was lent, a `LentSink`, knows what the sink had accepted before. A function with a
//! `&mut K` calls another one, which is generic over the `Origin` and lends the sink, and receives what that returns:
//!
//! ```text
//!  write_lines(sink: &mut K) ─▶ write_to::<K, Brand>(sink) ─▶ Borrowed ─▶ a value that writes to any LentSink
//!  take_back(sink)           ◀─ (sink, result)             ◀─ give_back
//! ```

ghost use Rattle.std.specs.Prelude.{◌≡◌};

use crate::device::Sink;
use std::marker::{Brand, PhantomData};

/// Which sink is lent, and what it had accepted and how often it had failed before. Contracts alone see it, and each
/// call chooses one.
pub trait Origin {
    ghost use Rattle.std.specs.Prelude.{ℕ, List, Option};

    ghost name: { ℕ };

    ghost before: { Option (List ℕ) × ℕ };
}

impl Origin for Brand {
    ghost use Rattle.std.specs.Prelude.{None};

    ghost name = { 0 };

    ghost before = { (None, 0) };
}

/// A sink that was lent.
pub trait LentSink: Sink {
    ghost use Rattle.std.specs.Prelude.{ℕ, List, Option};

    /// What it had accepted, and how often it had failed before.
    ghost before: { Option (List ℕ) × ℕ };
}

/// The sink of an origin.
#[derive(Drop)]
pub struct Borrowed<'a, K: Sink, B: Origin> {
    sink: &'a mut K,
    origin: PhantomData<B>,
    ghost same: { sink.ghost_name ≡ B.name },
}

impl<'a, K: Sink, B: Origin> Borrowed<'a, K, B> {
    /// Returns the sink of the origin, borrowed.
    pub fn new(sink: &'a mut K) -> Self
        requires name { sink.ghost_name ≡ B.name }
        ensures taken { ⟦<Borrowed<'a, K, B> as Sink>⟧.taken result ≡ K.taken sink.entry.now }
        ensures failures { ⟦<Borrowed<'a, K, B> as Sink>⟧.failures result
            ≡ K.failures sink.entry.now }
    {
        Borrowed {
            sink,
            origin: PhantomData,
        }
    }

    /// Returns the sink.
    pub fn get_ref(&self) -> &K
        ensures taken { K.taken result.now ≡ ⟦<Borrowed<'a, K, B> as Sink>⟧.taken self.now }
        ensures failures { K.failures result.now
            ≡ ⟦<Borrowed<'a, K, B> as Sink>⟧.failures self.now }
    {
        self.sink
    }

    /// Returns the sink that was lent.
    pub fn give_back(self) -> &'a mut K
        ensures name { result.ghost_name ≡ B.name }
        ensures taken { K.taken result.now ≡ ⟦<Borrowed<'a, K, B> as Sink>⟧.taken self.entry }
        ensures failures { K.failures result.now
            ≡ ⟦<Borrowed<'a, K, B> as Sink>⟧.failures self.entry }
    {
        self.sink
    }
}

impl<K: Sink, B: Origin> Sink for Borrowed<'_, K, B> {
    ghost taken = { λ s. K.taken s.sink.now };

    ghost failures = { λ s. K.failures s.sink.now };

    fn write(&mut self, bytes: &[u8]) -> Result<usize, ()> {
        self.sink.write(bytes)
    }
}

impl<K: Sink, B: Origin> LentSink for Borrowed<'_, K, B> {
    ghost before = { B.before };
}

/// Takes back what was lent, as it was given back.
pub fn take_back<T>(_lent: &mut T)
    ensures { _lent.new ≡ _lent.old }
{}
