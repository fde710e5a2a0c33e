//! The room of the next block of the trace text.

ghost use Rattle.std.specs.Prelude.{◌≡◌, ℕ, ◌+◌, ◌≤◌, ◌^◌, ◌++◌, List, [], IfErr, IfOk, IfSome, MatchOption, OnErr, if◌then◌else◌, drop, length, true};
ghost use Rattle.std.specs.Result.{is_err};
ghost use Rattle.line_model.specs.basics.Device.{Gives};
ghost use Rattle.line_model.specs.declared.fault.Fault.TheVariants.{Memory};

use line_model::device::CHUNK;
use line_model::fault::Fault;
use std::alloc::{Allocator, Global};
use std::marker::Model;
use std::mem::replace;
use streams::room_source::RoomSource;

/// Bytes that were read one after the other, and spare bytes for more.
///
/// ```text
///  5 T 10..\n6 N 1|0000000000000000
///  `--- items ---'`---- spare ----'
/// ```
#[derive(Drop)]
pub struct Room<A: Allocator = Global> {
    bytes: Vec<u8, A>,
    len: usize,
}

impl<A: Allocator> Model for Room<A> {
    ghost use Rattle.std.specs.Prelude.{◌-◌, ◌≤◌, ◌^◌, length, take};
    ghost use Rattle.trace_reading.specs.TextBlocks.{RoomView};

    ghost Value = { RoomView };

    ghost view = { λ r. record { items = take r.len r.bytes.items; spare = length r.bytes.items - r.len } };

    ghost invariant = { λ r. (r.len ≤ length r.bytes.items) × (2 ^ 16 ≤ length r.bytes.items) };
}

impl<A: Allocator> Room<A> {
    /// Returns a room without bytes, which uses this memory. Fails only when memory is refused.
    pub fn new(memory: Vec<u8, A>) -> Result<Self, Fault>
        ensures none { IfOk result (λ room. room.items ≡ []) }
        ensures wide { IfOk result (λ room. 2 ^ 16 ≤ room.spare) }
        ensures refused { IfErr result (λ fault. fault ≡ Memory) }
    {
        let mut bytes = memory;
        if bytes.len() < CHUNK {
            bytes.resize(CHUNK, 0)?;
        }
        Ok(Room { bytes, len: 0 })
    }

    /// Returns the allocator of its memory.
    pub fn allocator(&self) -> &A {
        self.bytes.allocator()
    }

    /// Returns how many bytes were read.
    pub fn len(&self) -> usize
        ensures { result ≡ length self.now.items }
    {
        self.len
    }

    /// Returns the bytes that were read.
    pub fn as_slice(&self) -> &[u8]
        ensures { result.now ≡ self.now.items }
    {
        &self.bytes[..self.len]
    }

    /// Removes the bytes.
    pub fn clear(&mut self)
        ensures none { self.new.items ≡ [] }
        ensures wide { 2 ^ 16 ≤ self.new.spare }
    {
        self.len = 0;
    }

    /// Removes the first `count` bytes.
    pub fn drop_front(&mut self, count: usize)
        requires { count ≤ length self.old.items }
        ensures { self.new.items ≡ drop count self.old.items }
    {
        self.bytes.copy_within(count..self.len, 0);
        self.len -= count;
    }

    /// Makes the spare bytes enough for a read. Returns `false` where memory is refused, and nothing has changed then.
    pub fn widen(&mut self) -> bool
        ensures same { self.new.items ≡ self.old.items }
        ensures wide { result ≡ true → 2 ^ 16 ≤ self.new.spare }
    {
        if self.bytes.len() - self.len >= CHUNK {
            return true;
        }
        self.bytes.resize(self.len + CHUNK, 0).is_ok()
    }

    /// Appends bytes. Returns `false` where memory is refused, and nothing has changed then.
    fn append(&mut self, more: &[u8]) -> bool
        requires few { length more.now ≤ 2 ^ 16 }
        ensures appended { result ≡ true → self.new.items ≡ self.old.items ++ more.now }
    {
        if !self.widen() {
            return false;
        }
        let end = self.len + more.len();
        self.bytes[self.len..end].copy_from_slice(more);
        self.len = end;
        true
    }

    /// Reads once, after the bytes, and returns how many bytes were read. Fails where the source fails.
    pub fn read<S: RoomSource>(&mut self, source: &mut S) -> Result<usize, ()>
        requires wide { 2 ^ 16 ≤ self.old.spare }
        ensures read { IfOk result (λ count. (more : List ℕ) × (self.new.items ≡ self.old.items ++ more)
            × (length more ≡ count) × (count ≤ 2 ^ 16) × Gives (S.left source.old) (S.left source.new) more) }
        ensures same { OnErr result (self.new.items ≡ self.old.items) }
        ensures failed { OnErr result (S.left source.new ≡ S.left source.old) }
        ensures before { S.before source.new ≡ S.left source.old }
        ensures calls { S.calls source.new ≡ S.calls source.old + 1 }
        ensures failures { S.failures source.new ≡ (if is_err result then S.failures source.old + 1 else S.failures source.old) }
    {
        let count = source.read_into(&mut self.bytes[self.len..self.len + CHUNK])?;
        self.len += count;
        Ok(count)
    }

    /// Removes and returns the first bytes; the others begin the next room, which uses this memory. Returns `None`
    /// where memory is refused, and nothing has changed then.
    pub fn split(&mut self, count: usize, memory: Vec<u8, A>) -> Option<Vec<u8, A>>
        requires { count ≤ length self.old.items }
        ensures parts { MatchOption result (self.new.items ≡ self.old.items)
            (λ lines. self.old.items ≡ lines.items ++ self.new.items) }
        ensures count { IfSome result (λ lines. length lines.items ≡ count) }
    {
        let mut next = Room::new(memory).ok()?;
        let rest = &self.as_slice()[count..];
        if rest.len() > CHUNK || !next.append(rest) {
            return None;
        }
        let Room { mut bytes, .. } = replace(self, next);
        bytes.truncate(count);
        Some(bytes)
    }
}
