//! The numbers that the exports return, and their words.

ghost use Rattle.std.specs.Prelude.{◌≡◌, ◌≢◌};
ghost use Rattle.x25scan_c.specs.Sound.{number_of};

use line_model::fault::Fault;

/// The call succeeded.
pub const OK: u32 = 0;
/// Memory was refused.
pub const MEMORY: u32 = 1;
/// The trace is refused by a faulty line.
pub const TRACE: u32 = 2;
/// The handle was closed.
pub const CLOSED: u32 = 3;
/// The trace has ended.
pub const ENDED: u32 = 4;
/// Nothing is left to return.
pub const NONE_LEFT: u32 = 5;
/// The buffer is too short.
pub const SHORT: u32 = 6;
/// An argument is out of its range.
pub const ARGUMENT: u32 = 7;
/// The handle was not opened.
pub const NOT_OPEN: u32 = 8;
/// The handle is open.
pub const OPEN: u32 = 10;
/// The handle gives rows, and no findings or reports.
pub const ROWS: u32 = 11;
/// The last line that was fed has not ended.
pub const LINE: u32 = 12;

/// Returns the number of a fault.
pub(crate) fn number_of(fault: Fault) -> u32
    ensures number { result ≡ number_of fault }
    ensures some { result ≢ 0 }
{
    match fault {
        Fault::Trace(_, _) => TRACE,
        _ => MEMORY,
    }
}

/// Returns the words of a number; the header makes number 9.
pub(crate) fn words_of(error: u32) -> &'static [u8] {
    match error {
        OK => b"no error",
        MEMORY => b"out of memory",
        TRACE => b"the trace is refused by a faulty line",
        CLOSED => b"the handle was closed",
        ENDED => b"the trace has ended",
        NONE_LEFT => b"nothing is left to be taken",
        SHORT => b"the buffer is too short",
        ARGUMENT => b"an argument is out of its range",
        NOT_OPEN => b"the handle was not opened",
        9 => b"a pointer is null",
        OPEN => b"the handle is open",
        ROWS => b"the handle gives rows, and no findings or reports",
        LINE => b"the last line that was fed has not ended",
        _ => b"unknown error",
    }
}
