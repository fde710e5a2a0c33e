//! Devices for tests: a source and a sink, which cut what they give and accept, and fail; an allocator that refuses; and
//! the interface of tests that bring their own rows.
#![tactic(auto)]

ghost use Rattle.std.specs.Prelude.{◌≡◌, [], Some};

pub mod interfaces;
pub mod scarce;

use line_model::device::{CHUNK, Sink, Source};
use line_model::history::{Count, History};
use std::alloc::Global;
use streams::room_source::RoomSource;

/// How a source is read.
pub trait Pace: Drop {
    /// Returns how many bytes the next read gives, at least one and at most what is left, or nothing where it fails.
    /// `rest` is what is left. The read waits until this returns.
    fn next_read(&mut self, rest: &[u8]) -> Option<usize>;
}

/// Gives the bytes of a slice at a pace.
#[derive(Drop)]
pub struct PacedSource<'a, P: Pace> {
    pub rest: &'a [u8],
    pub latest: &'a [u8],
    pub pace: P,
    pub before: History,
    pub calls: Count,
    pub failures: Count,
}

impl<'a, P: Pace> PacedSource<'a, P> {
    /// Returns a source of these bytes.
    pub fn at(bytes: &'a [u8], pace: P) -> Self
        ensures left { ⟦<PacedSource<'a, P> as Source>⟧.left result ≡ Some bytes.entry.now }
        ensures calls { ⟦<PacedSource<'a, P> as Source>⟧.calls result ≡ 0 }
        ensures failures { ⟦<PacedSource<'a, P> as Source>⟧.failures result ≡ 0 }
    {
        PacedSource {
            rest: bytes,
            latest: b"",
            pace,
            before: History::of(bytes),
            calls: Count::new(),
            failures: Count::new(),
        }
    }
}

impl<P: Pace> Source for PacedSource<'_, P> {
    ghost use Rattle.std.specs.Prelude.{Some};

    ghost left = { λ s. Some s.rest.now };

    ghost before = { λ s. Some s.before.bytes };

    ghost last_given = { λ s. s.latest.now };

    ghost calls = { λ s. s.calls };

    ghost failures = { λ s. s.failures };

    fn read(&mut self) -> Result<(), ()> {
        self.before = History::of(self.rest);
        self.calls.add_one();
        let Some(step) = self.pace.next_read(self.rest) else {
            self.failures.add_one();
            return Err(());
        };
        let n = self.rest.len().min(CHUNK).min(step.max(1));
        let (front, back) = self.rest.split_at(n);
        self.latest = front;
        self.rest = back;
        Ok(())
    }

    fn latest(&self) -> &[u8] {
        self.latest
    }
}

impl<P: Pace> RoomSource for PacedSource<'_, P> {}

/// Gives at most `step` bytes a call, and fails once `good` of them were given.
#[derive(Drop)]
pub struct Cut {
    step: usize,
    good: usize,
}

impl Pace for Cut {
    fn next_read(&mut self, rest: &[u8]) -> Option<usize> {
        if self.good == 0 {
            return None;
        }
        let n = rest.len().min(CHUNK).min(self.step.max(1)).min(self.good);
        self.good -= n;
        Some(n)
    }
}

/// A source that cuts what it gives, and fails.
pub type CutSource<'a> = PacedSource<'a, Cut>;

impl<'a> PacedSource<'a, Cut> {
    /// Returns a source of these bytes, with these cuts.
    pub fn new(bytes: &'a [u8], cuts: Cuts) -> Self
        ensures left { ⟦<PacedSource<'a, Cut> as Source>⟧.left result ≡ Some bytes.entry.now }
        ensures calls { ⟦<PacedSource<'a, Cut> as Source>⟧.calls result ≡ 0 }
        ensures failures { ⟦<PacedSource<'a, Cut> as Source>⟧.failures result ≡ 0 }
    {
        let pace = Cut {
            step: cuts.read_step,
            good: cuts.good_bytes,
        };
        PacedSource::at(bytes, pace)
    }
}

/// Keeps the bytes that it accepts, at most `step` a call, and fails at the call after `good_calls` good ones. Counts
/// how often it was asked.
#[derive(Drop)]
pub struct CutSink {
    pub taken: Vec<u8, Global>,
    pub step: usize,
    pub good_calls: usize,
    pub asked: usize,
    pub failures: Count,
}

impl CutSink {
    /// Returns a sink that has accepted nothing, with these cuts.
    pub fn new(alloc: Global, cuts: Cuts) -> Self
        ensures taken { ⟦<CutSink as Sink>⟧.taken result ≡ Some [] }
        ensures failures { ⟦<CutSink as Sink>⟧.failures result ≡ 0 }
    {
        CutSink {
            taken: Vec::new(alloc),
            step: cuts.write_step,
            good_calls: cuts.good_writes,
            asked: 0,
            failures: Count::new(),
        }
    }
}

impl Sink for CutSink {
    ghost use Rattle.std.specs.Prelude.{Some};

    ghost taken = { λ s. Some s.taken.items };

    ghost failures = { λ s. s.failures };

    fn write(&mut self, bytes: &[u8]) -> Result<usize, ()> {
        let n = bytes.len().min(self.step.max(1));
        self.asked = self.asked.saturating_add(1);
        if self.good_calls == 0 {
            self.failures.add_one();
            return Err(());
        }
        match self.taken.extend_from_slice(&bytes[..n]) {
            Ok(()) => {
                self.good_calls -= 1;
                Ok(n)
            }
            Err(_) => {
                self.failures.add_one();
                Err(())
            }
        }
    }
}

/// How a source and a sink cut, and where they fail.
#[derive(Clone, Copy)]
pub struct Cuts {
    pub read_step: usize,
    pub good_bytes: usize,
    pub write_step: usize,
    pub good_writes: usize,
}

impl Cuts {
    /// Returns devices that give and accept all at once, and do not fail.
    pub fn none() -> Self {
        Cuts::of_steps(usize::MAX, usize::MAX)
    }

    /// Returns devices that give and accept at most these counts of bytes a call, and do not fail.
    pub fn of_steps(read_step: usize, write_step: usize) -> Self {
        Cuts {
            read_step,
            good_bytes: usize::MAX,
            write_step,
            good_writes: usize::MAX,
        }
    }

    /// Returns the same, of which the source fails once it gave so many bytes.
    pub fn with_bytes(self, good_bytes: usize) -> Self {
        Cuts { good_bytes, ..self }
    }

    /// Returns the same, of which the sink fails after so many good calls.
    pub fn with_writes(self, good_writes: usize) -> Self {
        Cuts {
            good_writes,
            ..self
        }
    }
}
