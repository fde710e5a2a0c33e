//! Where traces come from and where reports go: the two traits that the scans are generic over, and devices over memory.

ghost use Rattle.std.specs.Prelude.{◌≡◌, ℕ, List, Option, Some, IfOk, IfErr, OnOk, OnErr, IfSome, ◌+◌, ◌^◌, ◌++◌, ◌≤◌, ◌<◌, length, take, drop, if◌then◌else◌, IsErr};
ghost use Rattle.std.specs.Result.{is_err};
ghost use Rattle.line_model.specs.basics.Device.{Gives, with_more};

use crate::history::{Count, History};
use crate::interface::Interface;
use std::alloc::Allocator;

/// The most bytes that a source gives at once.
pub const CHUNK: usize = 1 << 16;

/// The last line of a trace text that was read: the one by which it was refused, or the one that no LF has ended.
#[derive(Clone, Copy)]
pub struct LastLine<'a> {
    /// The first bytes of the text, at most 32.
    pub first: &'a [u8],
    /// The line, and what was read after it, at most 8,500 bytes in all.
    pub text: &'a [u8],
    /// The number of the row before it, or 0.
    pub number_before: u32,
    /// The interface of the header, once it was read.
    pub interface: Option<Interface>,
}

/// Where a trace comes from, in chunks of any size up to 65,536 bytes, which it lends.
pub trait Source {
    /// The bytes that it will give up to its end, where it shows them.
    ghost left: { Self → Option (List ℕ) };

    /// The bytes that were left before its last call, where it shows them.
    ghost before: { Self → Option (List ℕ) };

    /// The bytes that its last call gave.
    ghost last_given: { Self → List ℕ };

    /// How often it was asked.
    ghost calls: { Self → ℕ };

    /// How often it failed.
    ghost failures: { Self → ℕ };

    /// Reads the next bytes, at most 65,536; none at the end. Fails where the source fails; nothing was read then.
    fn read(&mut self) -> Result<(), ()>
        ensures few { OnOk result (length (last_given self.new) ≤ 2 ^ 16) }
        ensures given { OnOk result (Gives (left self.old) (left self.new) (last_given self.new)) }
        ensures failed { OnErr result (left self.new ≡ left self.old) }
        ensures before { before self.new ≡ left self.old }
        ensures calls { calls self.new ≡ calls self.old + 1 }
        ensures failures { failures self.new ≡ (if is_err result then failures self.old + 1 else failures self.old) };

    /// Returns the bytes that its last call gave.
    fn latest(&self) -> &[u8]
        ensures { result.now ≡ last_given self.now };

    /// Receives the last line of its text that was read. A source that is asked later what is wrong with it keeps it; by
    /// default it does nothing.
    fn keep_line(&mut self, line: LastLine<'_>)
        ensures left { left self.new ≡ left self.old }
        ensures before { before self.new ≡ before self.old }
        ensures calls { calls self.new ≡ calls self.old }
        ensures failures { failures self.new ≡ failures self.old }
    {}
}

/// Where a report goes.
pub trait Sink {
    /// The bytes that it accepted, where it shows them.
    ghost taken: { Self → Option (List ℕ) };

    /// How often it failed.
    ghost failures: { Self → ℕ };

    /// Accepts bytes from the front of a slice and returns how many: at least one of a slice that is not empty. Fails
    /// where the sink fails; nothing was accepted then.
    fn write(&mut self, bytes: &[u8]) -> Result<usize, ()>
        ensures fits { IfOk result (λ n. n ≤ length bytes.now) }
        ensures some { IfOk result (λ n. 0 < length bytes.now → 0 < n) }
        ensures ok { IfOk result (λ n. taken self.new ≡ with_more (taken self.old) (take n bytes.now)) }
        ensures failed { OnErr result (taken self.new ≡ taken self.old) }
        ensures failures { failures self.new ≡ (if is_err result then failures self.old + 1 else failures self.old) };
}

/// The bytes of a slice, as a source.
#[derive(Drop)]
pub struct SliceSource<'a> {
    rest: &'a [u8],
    latest: &'a [u8],
    before: History,
    calls: Count,
}

impl<'a> SliceSource<'a> {
    /// Returns a source of these bytes.
    pub fn new(bytes: &'a [u8]) -> Self
        ensures left { ⟦<SliceSource<'a> as Source>⟧.left result ≡ Some bytes.entry.now }
        ensures calls { ⟦<SliceSource<'a> as Source>⟧.calls result ≡ 0 }
    {
        SliceSource {
            rest: bytes,
            latest: b"",
            before: History::of(bytes),
            calls: Count::new(),
        }
    }
}

impl Source for SliceSource<'_> {
    ghost left = { λ s. Some s.rest.now };

    ghost before = { λ s. Some s.before.bytes };

    ghost last_given = { λ s. s.latest.now };

    ghost calls = { λ s. s.calls };

    ghost failures = { λ s. 0 };

    fn read(&mut self) -> Result<(), ()> {
        self.before = History::of(self.rest);
        self.calls.add_one();
        let (front, back) = self.rest.split_at(self.rest.len().min(CHUNK));
        self.latest = front;
        self.rest = back;
        Ok(())
    }

    fn latest(&self) -> &[u8] {
        self.latest
    }
}

/// Bytes in memory, as a sink. It fails where its list cannot grow.
#[derive(Drop)]
pub struct VecSink<A: Allocator> {
    bytes: Vec<u8, A>,
    failures: Count,
}

impl<A: Allocator> VecSink<A> {
    /// Returns a sink that goes on after these bytes.
    pub fn new(bytes: Vec<u8, A>) -> Self
        ensures taken { ⟦<VecSink<A> as Sink>⟧.taken result ≡ Some bytes.items }
        ensures failures { ⟦<VecSink<A> as Sink>⟧.failures result ≡ 0 }
    {
        VecSink {
            bytes,
            failures: Count::new(),
        }
    }

    /// Returns the bytes that it holds.
    pub fn as_slice(&self) -> &[u8]
        ensures { ⟦<VecSink<A> as Sink>⟧.taken self.now ≡ Some result.now }
    {
        self.bytes.as_slice()
    }
}

impl<A: Allocator> Sink for VecSink<A> {
    ghost taken = { λ s. Some s.bytes.items };

    ghost failures = { λ s. s.failures };

    fn write(&mut self, bytes: &[u8]) -> Result<usize, ()> {
        match self.bytes.extend_from_slice(bytes) {
            Ok(()) => Ok(bytes.len()),
            Err(_) => {
                self.failures.add_one();
                Err(())
            }
        }
    }
}
