//! Readers and writers as sources and sinks. They show the bytes that the readers and writers show: those over memory
//! do, and those of the system hide theirs.

ghost use Rattle.std.specs.Prelude.{◌≡◌, ◌+◌, ◌≤◌, ◌^◌, IfOk, IsTrue, OnErr, OnOk, length, take};
ghost use Rattle.line_model.specs.basics.Device.{Gives};
ghost use Rattle.streams.specs.Shown.{still_shows};

use crate::chunk::Chunk;
use crate::input::{Input, OpenRefusal};
use crate::kept_line::KeptLine;
use crate::opener::Opener;
use crate::output::Output;
use crate::progress::{Progress, ShowProgress};
use crate::room_source::RoomSource;
use crate::shown_reader::ShownReader;
use line_model::device::{LastLine, Sink, Source};
use line_model::history::Count;
use std::alloc::Global;
use std::io;
use std::io::{Read, Write};
use std::snapshot::Snapshot;
use std::time::Clock;

/// Standard input, or the file that was opened in its place, as a source. Each read is one of the reader's.
#[derive(Drop)]
pub struct FileInput<'a, R: Opener + Clock, I: Read + Drop, W: Write + Drop> {
    alloc: Global,
    system: &'a R,
    standard: ShownReader<I>,
    // Whether it is still to be printed that standard input is a terminal.
    is_terminal: bool,
    file: Option<ShownReader<R::File>>,
    // The name of the file; none where memory for it was refused.
    name: Option<String>,
    // The bytes of the last read, except where a room of the caller has them.
    latest: Chunk,
    // The last line of its text that was read.
    last_line: Option<KeptLine>,
    progress: Progress<W>,
    // The system's error of the last read that failed.
    failure: Option<io::Error>,
    calls: Count,
    failures: Count,
}

impl<'a, R: Opener + Clock, I: Read + Drop, W: Write + Drop> FileInput<'a, R, I, W> {
    /// Returns standard input as a source, with the system that opens files and has a clock, and the progress that is
    /// shown. Where standard input is a terminal, that is printed once, before the first read.
    pub fn new(
        alloc: Global,
        system: &'a R,
        standard: I,
        is_terminal: bool,
        progress: Progress<W>,
    ) -> Self
        ensures left { ⟦<FileInput<'a, R, I, W> as Source>⟧.left result ≡ I.remaining standard }
        ensures calls { ⟦<FileInput<'a, R, I, W> as Source>⟧.calls result ≡ 0 }
        ensures failures { ⟦<FileInput<'a, R, I, W> as Source>⟧.failures result ≡ 0 }
    {
        FileInput {
            alloc,
            system,
            standard: ShownReader::new(standard),
            is_terminal,
            file: None,
            name: None,
            latest: Chunk::new(),
            last_line: None,
            progress,
            failure: None,
            calls: Count::new(),
            failures: Count::new(),
        }
    }

    /// Counts a read. Where standard input is read and is a terminal, that is printed once.
    fn begin_read(&mut self)
        ensures standard { self.new.standard ≡ self.old.standard }
        ensures file { self.new.file ≡ self.old.file }
        ensures calls { self.new.calls ≡ self.old.calls + 1 }
        ensures failures { self.new.failures ≡ self.old.failures }
    {
        self.calls.add_one();
        if self.is_terminal && self.file.is_none() {
            self.is_terminal = false;
            self.progress.print_terminal();
        }
    }

    /// Reads from the file that was opened, otherwise from standard input.
    fn read_some(&mut self) -> io::Result<()>
        ensures few { length self.new.latest ≤ 2 ^ 16 }
        ensures given { OnOk result (Gives (⟦<FileInput<'a, R, I, W> as Source>⟧.left self.old)
            (⟦<FileInput<'a, R, I, W> as Source>⟧.left self.new) self.new.latest) }
        ensures failed { OnErr result (⟦<FileInput<'a, R, I, W> as Source>⟧.left self.new
            ≡ ⟦<FileInput<'a, R, I, W> as Source>⟧.left self.old) }
        ensures before { ⟦<FileInput<'a, R, I, W> as Source>⟧.before self.new
            ≡ ⟦<FileInput<'a, R, I, W> as Source>⟧.left self.old }
        ensures calls { self.new.calls ≡ self.old.calls }
        ensures failures { self.new.failures ≡ self.old.failures }
    {
        match &mut self.file {
            Some(file) => file.read(&mut self.latest),
            None => self.standard.read(&mut self.latest),
        }
    }

    /// Reads into a room from the file that was opened, otherwise from standard input.
    fn read_room(&mut self, room: &mut [u8]) -> io::Result<usize>
        requires room { length room.old ≡ 2 ^ 16 }
        ensures few { IfOk result (λ n. n ≤ 2 ^ 16) }
        ensures given { IfOk result (λ n. Gives (⟦<FileInput<'a, R, I, W> as Source>⟧.left self.old)
            (⟦<FileInput<'a, R, I, W> as Source>⟧.left self.new) (take n room.new)) }
        ensures failed { OnErr result (⟦<FileInput<'a, R, I, W> as Source>⟧.left self.new
            ≡ ⟦<FileInput<'a, R, I, W> as Source>⟧.left self.old) }
        ensures before { ⟦<FileInput<'a, R, I, W> as Source>⟧.before self.new
            ≡ ⟦<FileInput<'a, R, I, W> as Source>⟧.left self.old }
        ensures calls { self.new.calls ≡ self.old.calls }
        ensures failures { self.new.failures ≡ self.old.failures }
    {
        match &mut self.file {
            Some(file) => file.read_into(room),
            None => self.standard.read_into(room),
        }
    }

    /// Records that the reader has failed.
    fn fail(&mut self, error: io::Error)
        ensures standard { self.new.standard ≡ self.old.standard }
        ensures file { self.new.file ≡ self.old.file }
        ensures calls { self.new.calls ≡ self.old.calls }
        ensures failures { self.new.failures ≡ self.old.failures + 1 }
    {
        self.failure = Some(error);
        self.failures.add_one();
    }
}

impl<R: Opener + Clock, I: Read + Drop, W: Write + Drop> Source for FileInput<'_, R, I, W> {
    ghost use Rattle.std.specs.Option.{option_map_or};
    ghost use Rattle.streams.specs.Shown.{Left};

    ghost left = { λ s. option_map_or (λ (f : Left). f.left) s.file s.standard.left };

    ghost before = { λ s. option_map_or (λ (f : Left). f.before) s.file s.standard.before };

    ghost last_given = { λ s. s.latest };

    ghost calls = { λ s. s.calls };

    ghost failures = { λ s. s.failures };

    fn read(&mut self) -> Result<(), ()> {
        self.begin_read();
        match self.read_some() {
            Ok(()) => {
                self.progress.read(self.system, self.latest.as_slice());
                Ok(())
            }
            Err(error) => {
                self.fail(error);
                Err(())
            }
        }
    }

    fn latest(&self) -> &[u8] {
        self.latest.as_slice()
    }

    fn keep_line(&mut self, line: LastLine<'_>) {
        self.last_line = KeptLine::of(self.alloc, line);
    }
}

impl<R: Opener + Clock, I: Read + Drop, W: Write + Drop> RoomSource for FileInput<'_, R, I, W> {
    fn read_into(&mut self, room: &mut [u8]) -> Result<usize, ()> {
        self.begin_read();
        match self.read_room(room) {
            Ok(count) => {
                self.progress.read(self.system, &room[..count]);
                Ok(count)
            }
            Err(error) => {
                self.fail(error);
                Err(())
            }
        }
    }
}

impl<R: Opener + Clock, I: Read + Drop, W: Write + Drop> Input for FileInput<'_, R, I, W> {
    ghost use Rattle.std.specs.Prelude.{option_map, string_bytes};

    ghost named = { λ s name. R.named s.system.now name };

    ghost name_of = { λ s. option_map string_bytes s.name };

    fn open(&mut self, name: &str) -> Result<(), OpenRefusal> {
        let file = self.system.open(name)?;
        self.file = Some(ShownReader::new(file));
        self.name = String::from_str(self.alloc, name).ok();
        Ok(())
    }

    fn name(&self) -> Option<&str> {
        match &self.name {
            Some(name) => Some(name.as_str()),
            None => None,
        }
    }

    fn failure(&self) -> Option<io::Error> {
        self.failure
    }

    fn last_line(&self) -> Option<LastLine<'_>> {
        match &self.last_line {
            Some(kept) => Some(kept.line()),
            None => None,
        }
    }

    fn show_progress(&mut self, when: ShowProgress) {
        self.progress.choose(when);
    }

    fn shows_terminal(&self) -> bool {
        self.progress.is_terminal()
    }

    fn lacks_packets(&self) -> bool {
        match &self.file {
            Some(file) => self.system.lacks_packets(file.reader()),
            None => false,
        }
    }

    fn circuits(&self) -> &[u8] {
        match &self.file {
            Some(file) => self.system.circuits(file.reader()),
            None => b"",
        }
    }
}

/// A writer as a sink. Each write is one of the writer's, unbuffered, so nothing is left to flush.
#[derive(Drop)]
pub struct WriteSink<W: Write + Drop> {
    writer: W,
    // The writer as it was when this was made. Only contracts see it.
    first: Snapshot<W>,
    // The system's error of the last write that failed.
    failure: Option<io::Error>,
    failures: Count,
    ghost shows: { IsTrue (still_shows (W.contents first.value) (W.contents writer)) },
}

impl<W: Write + Drop> WriteSink<W> {
    /// Returns a sink over a writer.
    pub fn new(writer: W) -> Self
        ensures taken { ⟦<WriteSink<W> as Sink>⟧.taken result ≡ W.contents writer }
        ensures failures { ⟦<WriteSink<W> as Sink>⟧.failures result ≡ 0 }
    {
        let first = Snapshot::of(&writer);
        WriteSink {
            writer,
            first,
            failure: None,
            failures: Count::new(),
        }
    }
}

impl<W: Write + Drop> Sink for WriteSink<W> {
    ghost use Rattle.streams.specs.Shown.{shown};

    ghost taken = { λ s. shown (W.contents s.first.value) (W.contents s.writer) };

    ghost failures = { λ s. s.failures };

    fn write(&mut self, bytes: &[u8]) -> Result<usize, ()> {
        let written = self.writer.write(bytes);
        match written {
            Ok(n) if n > 0 || bytes.is_empty() => Ok(n),
            _ => {
                self.failure = written.err();
                self.failures.add_one();
                Err(())
            }
        }
    }
}

impl<W: Write + Drop> Output for WriteSink<W> {
    fn failure(&self) -> Option<io::Error> {
        self.failure
    }
}
