//! The terms of a call after which another call may be hidden.

ghost use Rattle.std.specs.Prelude.{◌≡◌};
ghost use Rattle.channel_machine.specs.Largest.{largest_values};

use crate::terms::{Terms, Values};

/// The largest packet size that a call may agree to, in octets (X.25 clause 7.2.2.1).
const LARGEST_SIZE: u16 = 4096;

impl Terms {
    /// Returns the same call under the largest packet sizes and windows.
    pub(crate) fn largest(self) -> Terms
        ensures interface { result.interface ≡ self.interface }
        ensures call { result.call ≡ self.call }
        ensures values { result.values ≡ largest_values self.interface }
    {
        let window = self.interface.modulus - 1;
        Terms {
            interface: self.interface,
            call: self.call,
            values: Values {
                size_t: LARGEST_SIZE,
                size_n: LARGEST_SIZE,
                window_t: window,
                window_n: window,
            },
        }
    }
}
