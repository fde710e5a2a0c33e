//! The part of a file that is in memory.

ghost use Rattle.std.specs.Prelude.{◌≡◌, ◌+◌, ◌≤◌, ◌^◌, ◌⊎◌, ℕ, List, [], ◌++◌, IfOk, OnErr, OnOk, drop, length, take};
ghost use Rattle.line_model.specs.basics.Device.{Gives};
ghost use Rattle.capture_files.specs.Windows.{Advances, IsAtEnd, still};

use line_model::device::CHUNK;
use line_model::fault::Fault;
use std::alloc::Global;
use std::marker::Model;
use streams::room_source::RoomSource;

/// Octets of a file, read one after the other: those that were consumed last, and those ahead. Octets that were
/// consumed before may be let go.
///
/// ```text
///  000 A1B2C3D4.. 5F3E1A00.. 000000000
///      `- last -' `- ahead -'`- spare -'
/// ```
#[derive(Drop)]
pub struct Window {
    bytes: Vec<u8>,
    /// Where those that were consumed last begin.
    from: usize,
    /// Where those ahead begin.
    at: usize,
    /// Where the spare bytes begin.
    end: usize,
}

impl Model for Window {
    ghost use Rattle.std.specs.Prelude.{◌≤◌, ◌-◌, drop, length, take};
    ghost use Rattle.capture_files.specs.Windows.{WindowView};

    ghost Value = { WindowView };

    ghost view = { λ w. record { last = take (w.at - w.from) (drop w.from w.bytes.items); ahead = take (w.end - w.at) (drop w.at w.bytes.items); spare = length w.bytes.items - w.end } };

    ghost invariant = { λ w. (w.from ≤ w.at) × (w.at ≤ w.end) × (w.end ≤ length w.bytes.items) };
}

impl Window {
    /// Returns a window before the first octet.
    pub fn new(alloc: Global) -> Self
        ensures last { result.last ≡ [] }
        ensures ahead { result.ahead ≡ [] }
    {
        Window {
            bytes: Vec::new(alloc),
            from: 0,
            at: 0,
            end: 0,
        }
    }

    /// Returns how many octets are ahead.
    pub fn len(&self) -> usize
        ensures { result ≡ length self.now.ahead }
    {
        self.end - self.at
    }

    /// Returns the octets ahead.
    pub fn ahead(&self) -> &[u8]
        ensures { result.now ≡ self.now.ahead }
    {
        &self.bytes[self.at..self.end]
    }

    /// Returns the octets that were consumed last.
    pub fn last(&self) -> &[u8]
        ensures { result.now ≡ self.now.last }
    {
        &self.bytes[self.from..self.at]
    }

    /// Consumes the next octets.
    pub fn take(&mut self, count: usize)
        requires { count ≤ length self.old.ahead }
        ensures last { self.new.last ≡ take count self.old.ahead }
        ensures ahead { self.new.ahead ≡ drop count self.old.ahead }
    {
        self.from = self.at;
        self.at += count;
    }

    /// Moves the octets ahead to the front.
    fn compact(&mut self)
        ensures { self.new.ahead ≡ self.old.ahead }
    {
        self.bytes.copy_within(self.at..self.end, 0);
        self.end -= self.at;
        self.from = 0;
        self.at = 0;
    }

    /// Makes the spare bytes enough for a read. Fails only when memory is refused.
    fn widen(&mut self) -> Result<(), Fault>
        ensures ahead { self.new.ahead ≡ self.old.ahead }
        ensures wide { OnOk result (2 ^ 16 ≤ self.new.spare) }
    {
        if self.bytes.len() - self.end < CHUNK {
            self.bytes.resize(self.end + CHUNK, 0)?;
        }
        Ok(())
    }

    /// Makes room for a read. Octets ahead are moved once as many were consumed. Fails only when memory is refused.
    fn make_room(&mut self) -> Result<(), Fault>
        ensures ahead { self.new.ahead ≡ self.old.ahead }
        ensures wide { OnOk result (2 ^ 16 ≤ self.new.spare) }
    {
        if self.bytes.len() - self.end < CHUNK && self.end - self.at <= self.at {
            self.compact();
        }
        self.widen()
    }

    /// Reads once into the spare bytes, and returns how many octets were read.
    fn read<S: RoomSource>(&mut self, source: &mut S) -> Result<usize, Fault>
        requires wide { 2 ^ 16 ≤ self.old.spare }
        ensures read { IfOk result (λ count. (more : List ℕ) × (self.new.ahead ≡ self.old.ahead ++ more)
            × (length more ≡ count) × Gives (S.left source.old) (S.left source.new) more) }
        ensures same { OnErr result (self.new.ahead ≡ self.old.ahead) }
        ensures failed { OnErr result (S.left source.new ≡ S.left source.old) }
    {
        let Ok(count) = source.read_into(&mut self.bytes[self.end..self.end + CHUNK]) else {
            return Err(Fault::Read);
        };
        self.end += count;
        Ok(count)
    }

    /// Has this number of octets ahead, or all up to the end of the source. Fails where the source fails, and when
    /// memory is refused; no octet is lost then.
    #[inline(always)]
    pub fn fill<S: RoomSource>(&mut self, source: &mut S, many: usize) -> Result<(), Fault>
        ensures passes { Advances self.old (S.left source.old) self.new (S.left source.new) [] }
        ensures grown { (more : List ℕ) × (self.new.ahead ≡ self.old.ahead ++ more) }
        ensures there { OnOk result ((many ≤ length self.new.ahead) ⊎ IsAtEnd (still self.old.ahead (S.left source.old)) (S.left source.new)) }
    {
        if self.len() < many {
            return self.read_on(source, many);
        }
        Ok(())
    }

    /// Reads until there are so many octets ahead, or the source ends. It is not inlined: most records are there.
    #[cold]
    #[inline(never)]
    fn read_on<S: RoomSource>(&mut self, source: &mut S, many: usize) -> Result<(), Fault>
        ensures passes { Advances self.old (S.left source.old) self.new (S.left source.new) [] }
        ensures grown { (more : List ℕ) × (self.new.ahead ≡ self.old.ahead ++ more) }
        ensures there { OnOk result ((many ≤ length self.new.ahead) ⊎ IsAtEnd (still self.old.ahead (S.left source.old)) (S.left source.new)) }
    {
        while self.len() < many {
            self.make_room()?;
            if self.read(source)? == 0 {
                return Ok(());
            }
        }
        Ok(())
    }
}
