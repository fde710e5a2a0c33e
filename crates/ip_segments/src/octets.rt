//! Octets that are kept.

ghost use Rattle.std.specs.Prelude.{◌≡◌, ◌++◌, [], IfOk, OnOk, take};

use std::alloc::{AllocError, Global};
use std::marker::Model;

/// Octets, copied from frames.
#[derive(Drop)]
pub struct Octets {
    bytes: Vec<u8>,
}

impl Model for Octets {
    ghost use Rattle.std.specs.Prelude.{ℕ, List};

    ghost Value = { List ℕ };

    ghost view = { λ o. o.bytes.items };
}

impl Octets {
    /// Returns none.
    pub(crate) fn new(alloc: Global) -> Self
        ensures { result ≡ [] }
    {
        Octets {
            bytes: Vec::new(alloc),
        }
    }

    /// Returns a copy of octets.
    pub(crate) fn copied(alloc: Global, octets: &[u8]) -> Result<Self, AllocError>
        ensures { IfOk result (λ o. o ≡ octets.now) }
    {
        let mut bytes = Vec::new(alloc);
        bytes.extend_from_slice(octets)?;
        Ok(Octets { bytes })
    }

    /// Appends octets.
    pub(crate) fn append(&mut self, octets: &[u8]) -> Result<(), AllocError>
        ensures { OnOk result (self.new ≡ self.old ++ octets.now) }
    {
        self.bytes.extend_from_slice(octets)
    }

    /// Removes those after a number of octets.
    pub(crate) fn truncate(&mut self, count: usize)
        ensures { self.new ≡ take count self.old }
    {
        self.bytes.truncate(count);
    }

    /// Returns them.
    pub fn as_slice(&self) -> &[u8]
        ensures { result.now ≡ self.now }
    {
        &self.bytes
    }
}
