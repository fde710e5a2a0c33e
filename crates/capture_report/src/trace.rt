//! The trace of a capture, as a source.

ghost use Rattle.std.specs.Prelude.{◌≡◌, ◌<◌, ◌≤◌, ◌^◌, [], IfOk, IsTrue, OnOk, length};
ghost use Rattle.line_model.specs.basics.Device.{Gives};
ghost use Rattle.capture_report.specs.Traces.{IsFilled, IsMade, IsReady, page_of, text_left};

use crate::frames::Frames;
use crate::reader::Reader;
use line_model::device::{CHUNK, Source};
use line_model::history::Count;
use std::alloc::Global;
use std::marker::Model;
use std::snapshot::Snapshot;
use streams::room_source::RoomSource;

/// Makes the text of what comes next in a capture, or at its end; returns whether there was anything.
fn make<F: Frames>(alloc: Global, frames: &mut F, reader: &mut Reader) -> Result<bool, ()>
    ensures { IfOk result (IsMade (F.left frames.old) (F.left frames.new) reader.old reader.new) }
{
    let Ok(()) = frames.advance() else {
        return Err(());
    };
    let Some(record) = frames.record() else {
        return match reader.finish() {
            Ok(()) => Ok(false),
            Err(_) => Err(()),
        };
    };
    match reader.read(alloc, &record) {
        Ok(()) => Ok(true),
        Err(_) => Err(()),
    }
}

/// How much text is made at once, at least; the last part may have less.
const PART: usize = 1 << 15;

/// Returns whether there is enough text to give: a part, or any text where it is given as frames come.
fn is_enough(is_live: bool, length: usize) -> bool
    ensures { IsTrue result → 0 < length }
{
    length >= PART || is_live && length > 0
}

/// Makes text, until there is a part, or some where it is given as frames come, or the capture ends.
#[tactic(auto, using(crate::proofs::GivingLemmas::filled_none, crate::proofs::GivingLemmas::filled_more, crate::proofs::GivingLemmas::filled_end, crate::proofs::GivingLemmas::filled_some))]
fn fill<F: Frames>(
    alloc: Global,
    frames: &mut F,
    reader: &mut Reader,
    is_live: bool,
) -> Result<(), ()>
    ensures { OnOk result (IsFilled (F.left frames.old) (F.left frames.new) reader.old reader.new) }
{
    for _ in 0..u64::MAX {
        if is_enough(is_live, reader.page().text().len()) {
            return Ok(());
        }
        if !make(alloc, frames, reader)? {
            return Ok(());
        }
    }
    Err(())
}

/// Makes text where all that was made is given, up to `to`. Returns where the bytes begin that come next.
#[tactic(auto, using(crate::proofs::GivingLemmas::ready_kept, crate::proofs::GivingLemmas::ready_filled))]
fn refill<F: Frames>(
    alloc: Global,
    frames: &mut F,
    reader: &mut Reader,
    is_live: bool,
    to: usize,
) -> Result<usize, ()>
    requires { to ≤ length (page_of reader.old).text }
    ensures ready { IfOk result (IsReady (text_left (F.left frames.old) reader.old to) (F.left frames.new) reader.new) }
    ensures within { IfOk result (λ place. place ≤ length (page_of reader.new).text) }
{
    if to < reader.page().text().len() {
        return Ok(to);
    }
    reader.clear();
    fill(alloc, frames, reader, is_live)?;
    Ok(0)
}

/// The text of a trace, which is made of the frames of a capture as it is given.
///
/// ```text
///  1 T 1000FB0700\n2 N 1000FF\n3 T 10010B0000\n..
///  `-- given ----'`-- latest -'`---- ahead ---'
/// ```
#[derive(Drop)]
struct MadeText<F: Frames + Drop> {
    alloc: Global,
    frames: F,
    reader: Reader,
    /// Whether it is given as frames come.
    is_live: bool,
    /// Where the bytes that were given last begin in the text that was made, and where they end.
    from: usize,
    to: usize,
}

impl<F: Frames + Drop> Model for MadeText<F> {
    ghost use Rattle.std.specs.Prelude.{◌≤◌, ◌-◌, drop, length, take};
    ghost use Rattle.capture_report.specs.Traces.{Made, page_of, text_left};

    ghost Value = { Made };

    ghost view = { λ m. record { left = text_left (F.left m.frames) m.reader m.to; latest = take (m.to - m.from) (drop m.from (page_of m.reader).text) } };

    ghost invariant = { λ m. (m.from ≤ m.to) × (m.to ≤ length (page_of m.reader).text) };
}

impl<F: Frames + Drop> MadeText<F> {
    /// Gives the next bytes.
    #[tactic(auto, using(crate::proofs::GivingLemmas::given_next))]
    fn give(&mut self) -> Result<(), ()>
        ensures given { OnOk result (Gives self.old.left self.new.left self.new.latest) }
        ensures few { OnOk result (length self.new.latest ≤ 2 ^ 16) }
    {
        let to = self.to;
        self.from = 0;
        self.to = 0;
        let place = refill(
            self.alloc,
            &mut self.frames,
            &mut self.reader,
            self.is_live,
            to,
        )?;
        let ahead = self.reader.page().text().len() - place;
        self.from = place;
        self.to = place + ahead.min(CHUNK);
        Ok(())
    }

    /// Returns the bytes that were given last.
    fn latest(&self) -> &[u8]
        ensures { result.now ≡ self.now.latest }
    {
        &self.reader.page().text()[self.from..self.to]
    }
}

/// The trace of a capture as a source: what stands on the page of its reader, and the rows of its frames. After a call
/// that fails each further one fails.
#[derive(Drop)]
pub struct CaptureTrace<F: Frames + Drop> {
    made: MadeText<F>,
    /// The text as it was before the last call. Only contracts see it.
    before: Snapshot<MadeText<F>>,
    has_failed: bool,
    calls: Count,
    failures: Count,
}

impl<F: Frames + Drop> CaptureTrace<F> {
    /// Returns the trace of these frames, of which nothing was read.
    pub fn new(alloc: Global, frames: F, reader: Reader) -> Self
        ensures left { ⟦<CaptureTrace<F> as Source>⟧.left result ≡ text_left (F.left frames) reader 0 }
        ensures latest { ⟦<CaptureTrace<F> as Source>⟧.last_given result ≡ [] }
        ensures calls { ⟦<CaptureTrace<F> as Source>⟧.calls result ≡ 0 }
        ensures failures { ⟦<CaptureTrace<F> as Source>⟧.failures result ≡ 0 }
    {
        CaptureTrace::given_as(alloc, frames, reader, false)
    }

    /// Returns the trace of frames that are still being recorded: the rows of a frame are given before the next frame is
    /// read.
    pub fn live(alloc: Global, frames: F, reader: Reader) -> Self
        ensures left { ⟦<CaptureTrace<F> as Source>⟧.left result ≡ text_left (F.left frames) reader 0 }
        ensures latest { ⟦<CaptureTrace<F> as Source>⟧.last_given result ≡ [] }
        ensures calls { ⟦<CaptureTrace<F> as Source>⟧.calls result ≡ 0 }
        ensures failures { ⟦<CaptureTrace<F> as Source>⟧.failures result ≡ 0 }
    {
        CaptureTrace::given_as(alloc, frames, reader, true)
    }

    /// Returns the trace of these frames, which is given as frames come, or in parts.
    fn given_as(alloc: Global, frames: F, reader: Reader, is_live: bool) -> Self
        ensures left { ⟦<CaptureTrace<F> as Source>⟧.left result ≡ text_left (F.left frames) reader 0 }
        ensures latest { ⟦<CaptureTrace<F> as Source>⟧.last_given result ≡ [] }
        ensures calls { ⟦<CaptureTrace<F> as Source>⟧.calls result ≡ 0 }
        ensures failures { ⟦<CaptureTrace<F> as Source>⟧.failures result ≡ 0 }
    {
        let made = MadeText {
            alloc,
            frames,
            reader,
            is_live,
            from: 0,
            to: 0,
        };
        let before = Snapshot::of(&made);
        CaptureTrace {
            made,
            before,
            has_failed: false,
            calls: Count::new(),
            failures: Count::new(),
        }
    }

    /// Returns the frames, of which those were read whose rows were made.
    pub fn frames(&self) -> &F {
        &self.made.frames
    }
}

impl<F: Frames + Drop> Source for CaptureTrace<F> {
    ghost use Rattle.std.specs.Prelude.{if◌then◌else◌};

    ghost left = { λ s. (if s.has_failed then s.before.value.left else s.made.left) };

    ghost before = { λ s. s.before.value.left };

    ghost last_given = { λ s. s.made.latest };

    ghost calls = { λ s. s.calls };

    ghost failures = { λ s. s.failures };

    fn read(&mut self) -> Result<(), ()> {
        self.calls.add_one();
        if self.has_failed {
            self.failures.add_one();
            return Err(());
        }
        self.before = Snapshot::of(&self.made);
        match self.made.give() {
            Ok(()) => Ok(()),
            Err(()) => {
                self.has_failed = true;
                self.failures.add_one();
                Err(())
            }
        }
    }

    fn latest(&self) -> &[u8] {
        self.made.latest()
    }
}

impl<F: Frames + Drop> RoomSource for CaptureTrace<F> {}
