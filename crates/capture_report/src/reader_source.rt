//! A reader as a source of octets.

ghost use Rattle.std.specs.Prelude.{◌≡◌, ◌+◌, ◌≤◌, ◌^◌, IfOk, IsTrue, OnErr, OnOk, length, take};
ghost use Rattle.line_model.specs.basics.Device.{Gives};
ghost use Rattle.streams.specs.Shown.{shown, still_shows};

use line_model::device::{CHUNK, Source};
use line_model::history::Count;
use std::alloc::Global;
use std::io;
use std::io::{ErrorKind, Read};
use std::snapshot::Snapshot;
use streams::room_source::RoomSource;

/// A reader as a source. It shows the octets that the reader shows.
#[derive(Drop)]
pub struct ReaderSource<R: Read + Drop> {
    reader: R,
    /// The reader as it was when this was made, and before its last read. Only contracts see them.
    first: Snapshot<R>,
    before: Snapshot<R>,
    /// The octets of the last read that had no room of its caller.
    latest: Vec<u8>,
    /// The error of the last read that failed.
    failure: Option<io::Error>,
    calls: Count,
    failures: Count,
    ghost shows: { IsTrue (still_shows (R.remaining first.value) (R.remaining reader)) },
}

impl<R: Read + Drop> ReaderSource<R> {
    /// Returns the source of a reader.
    pub fn new(alloc: Global, reader: R) -> Self
        ensures left { ⟦<ReaderSource<R> as Source>⟧.left result ≡ R.remaining reader }
        ensures calls { ⟦<ReaderSource<R> as Source>⟧.calls result ≡ 0 }
        ensures failures { ⟦<ReaderSource<R> as Source>⟧.failures result ≡ 0 }
    {
        let first = Snapshot::of(&reader);
        let before = Snapshot::of(&reader);
        ReaderSource {
            reader,
            first,
            before,
            latest: Vec::new(alloc),
            failure: None,
            calls: Count::new(),
            failures: Count::new(),
        }
    }

    /// Reads the next octets, which are then the latest ones.
    fn read_latest(&mut self) -> io::Result<()>
        ensures few { length self.new.latest.items ≤ 2 ^ 16 }
        ensures given { OnOk result (Gives (⟦<ReaderSource<R> as Source>⟧.left self.old)
            (⟦<ReaderSource<R> as Source>⟧.left self.new) self.new.latest.items) }
        ensures failed { OnErr result (⟦<ReaderSource<R> as Source>⟧.left self.new ≡ ⟦<ReaderSource<R> as Source>⟧.left self.old) }
        ensures before { ⟦<ReaderSource<R> as Source>⟧.before self.new ≡ ⟦<ReaderSource<R> as Source>⟧.left self.old }
        ensures calls { self.new.calls ≡ self.old.calls }
        ensures failures { self.new.failures ≡ self.old.failures }
    {
        self.before = Snapshot::of(&self.reader);
        self.latest.clear();
        self.latest.resize(CHUNK, 0)?;
        let count = self.reader.read(&mut self.latest)?;
        self.latest.truncate(count);
        Ok(())
    }

    /// Records that a read has failed.
    fn fail(&mut self, error: io::Error)
        ensures left { ⟦<ReaderSource<R> as Source>⟧.left self.new ≡ ⟦<ReaderSource<R> as Source>⟧.left self.old }
        ensures before { ⟦<ReaderSource<R> as Source>⟧.before self.new ≡ ⟦<ReaderSource<R> as Source>⟧.before self.old }
        ensures latest { self.new.latest ≡ self.old.latest }
        ensures calls { self.new.calls ≡ self.old.calls }
        ensures failures { self.new.failures ≡ self.old.failures + 1 }
    {
        self.failure = Some(error);
        self.failures.add_one();
    }

    /// Returns why reading stopped: the error of the last read that failed, otherwise that memory was refused.
    pub fn reason(&self) -> io::Error {
        match self.failure {
            Some(error) => error,
            None => io::Error::from(ErrorKind::OutOfMemory),
        }
    }
}

impl<R: Read + Drop> Source for ReaderSource<R> {
    ghost use Rattle.streams.specs.Shown.{shown};

    ghost left = { λ s. shown (R.remaining s.first.value) (R.remaining s.reader) };

    ghost before = { λ s. shown (R.remaining s.first.value) (R.remaining s.before.value) };

    ghost last_given = { λ s. s.latest.items };

    ghost calls = { λ s. s.calls };

    ghost failures = { λ s. s.failures };

    fn read(&mut self) -> Result<(), ()> {
        self.calls.add_one();
        match self.read_latest() {
            Ok(()) => Ok(()),
            Err(error) => {
                self.fail(error);
                Err(())
            }
        }
    }

    fn latest(&self) -> &[u8] {
        &self.latest
    }
}

impl<R: Read + Drop> RoomSource for ReaderSource<R> {
    fn read_into(&mut self, room: &mut [u8]) -> Result<usize, ()> {
        self.calls.add_one();
        self.before = Snapshot::of(&self.reader);
        match self.reader.read(room) {
            Ok(count) => Ok(count),
            Err(error) => {
                self.fail(error);
                Err(())
            }
        }
    }
}
