//! The frames of a capture, wherever they come from.

ghost use Rattle.std.specs.Prelude.{◌≡◌, List, Option, OnErr, OnOk};
ghost use Rattle.std.specs.Option.{option_map};
ghost use Rattle.capture_report.specs.Records as records;
ghost use Rattle.capture_report.specs.Records.{Follows, record_view};

use capture_files::entry::Dropped;
use capture_model::frame::Frame;
use line_model::fault::Fault;

/// What comes next in a capture: a frame, frames that are missing before it, or both.
#[derive(Clone, Copy)]
pub struct Record<'a> {
    /// The frames that are missing before it.
    pub dropped: Option<Dropped>,
    /// The frame.
    pub frame: Option<Frame<'a>>,
}

/// The frames of a capture, one after the other.
pub trait Frames {
    /// What it will give, where it shows it.
    ghost left: { Self → Option (List records.Record) };

    /// What its last call gave; none at the end.
    ghost latest: { Self → Option records.Record };

    /// Goes on to what comes next; at the end that is nothing. Fails where the capture can't be read, and when memory is
    /// refused.
    fn advance(&mut self) -> Result<(), Fault>
        ensures given { OnOk result (Follows (left self.old) (left self.new) (latest self.new)) }
        ensures failed { OnErr result (left self.new ≡ left self.old) };

    /// Returns what the last call gave; `None` at the end.
    fn record(&self) -> Option<Record<'_>>
        ensures { option_map record_view result ≡ latest self.now };
}
