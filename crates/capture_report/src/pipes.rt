//! Systems that have pipes.

ghost use Rattle.std.specs.Prelude.{◌≡◌, None, true};

use std::rt::Files;
use std::time::Clock;
use streams::opener::Opener;
use streams::system::System;

/// Opens files by their names, of which some are pipes.
pub trait Pipes: Opener {
    /// Returns whether the file of this name can't be opened again, to be read from its first byte on. Such a file shows no
    /// bytes: each opening may give others.
    fn is_pipe(&self, name: &str) -> bool
        ensures { result ≡ true → Self.named self.now name.now ≡ None };
}

impl<R: Files + Clock> Pipes for System<'_, R> {
    fn is_pipe(&self, name: &str) -> bool {
        !self.lasts(name)
    }
}
