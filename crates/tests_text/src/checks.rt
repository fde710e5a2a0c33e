//! Assertions that say where they failed.

use std::process::Abort;

/// Checks that something holds for these octets.
pub(crate) fn holds_for(rt: &impl Abort, holds: bool, octets: &[u8]) {
    assert!(rt; holds, "for {octets:?}");
}

/// Checks that something holds at this number.
pub(crate) fn holds_at(rt: &impl Abort, holds: bool, number: u64) {
    assert!(rt; holds, "at {number}");
}
