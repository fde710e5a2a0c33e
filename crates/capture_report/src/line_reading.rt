//! What comes next in a capture, for its line.

ghost use Rattle.std.specs.Prelude.{◌≡◌, ◌++◌, IfOk, OnOk};
ghost use Rattle.std.specs.Option.{option_map};
ghost use Rattle.capture_model.specs.Frames.{frame_view};
ghost use Rattle.capture_rows.specs.Lines.{read_view};
ghost use Rattle.capture_report.specs.Records.{record_view};
ghost use Rattle.capture_report.specs.Rows.{after_dropped, after_frame, after_record, frame_given, frame_shown, record_given, record_shown};

use crate::frames::Record;
use capture_files::entry::Dropped;
use capture_model::frame::Frame;
use capture_rows::line::{FrameRead, Line};
use lapb_link::receiver::Shown;
use std::alloc::{AllocError, Global};

/// Notes that frames of an unknown number were dropped.
fn miss(line: &mut Line, dropped: Option<Dropped>)
    ensures { line.new ≡ after_dropped dropped line.old }
{
    match dropped {
        Some(dropped) if dropped.count == 0 => line.miss(),
        _ => {}
    }
}

/// Reads a frame, and appends what it shows of frames before it.
fn read_frame<'a>(
    alloc: Global,
    line: &mut Line,
    frame: Option<Frame<'a>>,
    shown: &mut Vec<Shown>,
) -> Result<Option<FrameRead<'a>>, AllocError>
    ensures read { IfOk result (λ read. option_map read_view read ≡ frame_given (option_map frame_view frame.entry) line.old) }
    ensures after { OnOk result (line.new ≡ after_frame (option_map frame_view frame.entry) line.old) }
    ensures shown { OnOk result (shown.new.items ≡ shown.old.items ++ frame_shown (option_map frame_view frame.entry) line.old) }
{
    match frame {
        Some(frame) => Ok(Some(line.read(alloc, &frame, shown)?)),
        None => Ok(None),
    }
}

/// Reads what comes next in a capture, appends what it shows of frames before it, and returns what its frame gives.
/// Fails only when memory is refused; drop the line then.
pub(crate) fn read_record<'a>(
    alloc: Global,
    line: &mut Line,
    record: &Record<'a>,
    shown: &mut Vec<Shown>,
) -> Result<Option<FrameRead<'a>>, AllocError>
    ensures read { IfOk result (λ read. option_map read_view read ≡ record_given (record_view record.now) line.old) }
    ensures after { OnOk result (line.new ≡ after_record (record_view record.now) line.old) }
    ensures shown { OnOk result (shown.new.items ≡ shown.old.items ++ record_shown (record_view record.now) line.old) }
{
    miss(line, record.dropped);
    read_frame(alloc, line, record.frame, shown)
}
