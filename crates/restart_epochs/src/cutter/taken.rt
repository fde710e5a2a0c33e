//! What a cutter has read.

ghost use Rattle.std.specs.Prelude.{◌≡◌};

use crate::cutter::Cutter;
use line_model::interface::Interface;
use std::alloc::Allocator;

impl<A: Allocator + Copy> Cutter<A> {
    /// Returns the interface of the trace.
    pub fn interface(&self) -> Interface
        ensures { result ≡ self.now.interface }
    {
        self.walk.interface
    }

    /// Returns the number of the last row that was read, or 0.
    pub fn last(&self) -> u32
        ensures { result ≡ self.now.last }
    {
        self.last
    }

    /// Returns how many octets the rows that were read have.
    pub fn octets(&self) -> u32
        ensures { result ≡ self.now.octets }
    {
        self.octets
    }
}
