//! A line that is kept after it was read.

ghost use Rattle.std.specs.Prelude.{◌≡◌, IfSome};
ghost use Rattle.streams.specs.KeptLines.{IsCopyOf};

use line_model::device::LastLine;
use line_model::interface::Interface;
use std::alloc::Global;

/// A copy of the last line of a text that was read.
#[derive(Drop)]
pub struct KeptLine {
    first: Vec<u8>,
    text: Vec<u8>,
    number_before: u32,
    interface: Option<Interface>,
}

impl KeptLine {
    /// Returns a copy of a line; `None` where memory is refused.
    pub fn of(alloc: Global, line: LastLine<'_>) -> Option<KeptLine>
        ensures { IfSome result (IsCopyOf line.entry) }
    {
        let mut first = Vec::new(alloc);
        first.extend_from_slice(line.first).ok()?;
        let mut text = Vec::new(alloc);
        text.extend_from_slice(line.text).ok()?;
        Some(KeptLine {
            first,
            text,
            number_before: line.number_before,
            interface: line.interface,
        })
    }

    /// Returns the line.
    pub fn line(&self) -> LastLine<'_>
        ensures { IsCopyOf result self.now }
    {
        LastLine {
            first: self.first.as_slice(),
            text: self.text.as_slice(),
            number_before: self.number_before,
            interface: self.interface,
        }
    }
}
