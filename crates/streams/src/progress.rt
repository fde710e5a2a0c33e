//! Prints the progress of reading, once a second, and that the trace is read from a terminal.

use std::io::Write;
use std::time::{Clock, Duration, Instant};

/// When progress is printed (profile).
#[derive(Clone, Copy, PartialEq, Eq)]
pub enum ShowProgress {
    /// Never.
    Never,
    /// Each second, if the writer is a terminal.
    OnTerminal,
    /// Each second, and at the end.
    Always,
}

/// Counts of what was read, and the writer to which they are printed, a line each time.
#[derive(Drop)]
pub struct Progress<W: Write + Drop> {
    errors: W,
    is_terminal: bool,
    when: ShowProgress,
    began: Option<Instant>,
    /// The second of the last line printed.
    shown: u64,
    bytes: u64,
    lines: u64,
}

fn line_feeds(bytes: &[u8]) -> u64 {
    let count = bytes.iter().filter(|byte| **byte == b'\n').count();
    u64::try_from(count).unwrap_or(u64::MAX)
}

/// Returns the rate per second of a count over some time.
fn rate(count: u64, time: Duration) -> u64 {
    let millis = u64::try_from(time.as_millis()).unwrap_or(u64::MAX);
    count.saturating_mul(1000) / millis.max(1)
}

impl<W: Write + Drop> Progress<W> {
    /// Returns progress with nothing read. Nothing is printed before `choose` sets when.
    pub fn new(errors: W, is_terminal: bool) -> Self {
        Progress {
            errors,
            is_terminal,
            when: ShowProgress::Never,
            began: None,
            shown: 0,
            bytes: 0,
            lines: 0,
        }
    }

    /// Returns whether the writer is a terminal.
    pub fn is_terminal(&self) -> bool {
        self.is_terminal
    }

    /// Sets when progress is printed.
    pub fn choose(&mut self, when: ShowProgress) {
        self.when = when;
    }

    fn is_shown(&self) -> bool {
        match self.when {
            ShowProgress::Never => false,
            ShowProgress::OnTerminal => self.is_terminal,
            ShowProgress::Always => true,
        }
    }

    /// Returns the time since the first reading, 0 where there is no clock.
    fn time(&mut self, clock: &impl Clock) -> Duration {
        match self.began {
            Some(began) => began.elapsed(clock).unwrap_or(Duration::ZERO),
            None => {
                self.began = Instant::now(clock).ok();
                Duration::ZERO
            }
        }
    }

    fn print(&mut self, time: Duration) {
        let bytes = self.bytes;
        let lines = self.lines;
        let rate = rate(lines, time);
        let _ = writeln!(
            self.errors,
            "x25scan: {bytes} bytes read, {lines} lines, {rate} lines a second"
        );
    }

    /// Prints that the trace is read from a terminal.
    pub fn print_terminal(&mut self) {
        let _ = writeln!(
            self.errors,
            "x25scan: reads the trace from the terminal, until Ctrl-D at the beginning of a line (--help says more)"
        );
    }

    /// Counts bytes that were read, and prints a line where one is due; an empty slice is the end.
    pub fn read(&mut self, clock: &impl Clock, bytes: &[u8]) {
        if !self.is_shown() {
            return;
        }
        let time = self.time(clock);
        self.bytes = self
            .bytes
            .saturating_add(u64::try_from(bytes.len()).unwrap_or(u64::MAX));
        self.lines = self.lines.saturating_add(line_feeds(bytes));
        let is_end = bytes.is_empty() && self.when == ShowProgress::Always;
        if time.as_secs() > self.shown || is_end {
            self.shown = time.as_secs();
            self.print(time);
        }
    }
}
