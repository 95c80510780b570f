//! A line on standard error that reports how much of a file is read.
ghost use Rattle.std.specs.Prelude.{◌≡◌};

use std::fs::File;
use std::io::{self, IsTerminal, Read};
use std::time::Instant;

/// A line on standard error, if that is a terminal: how many MiB of a file are read. It is written over
/// once a second at most.
#[derive(Drop)]
pub struct ProgressLine<'r> {
    rt: &'r HostRuntime,
    // The bytes of the whole file, where the line is to be shown.
    whole: Option<u64>,
    read: u64,
    // When it was shown last, or when the run began.
    last: Option<Instant>,
    is_shown: bool,
}

impl<'r> ProgressLine<'r> {
    /// Nothing is read yet of a file of so many bytes; without a number nothing is shown. It has no
    /// contract: the line goes to a terminal alone.
    pub fn new(rt: &'r HostRuntime, whole: Option<u64>) -> ProgressLine<'r> {
        let whole = if rt.stderr().is_terminal() {
            whole
        } else {
            None
        };
        ProgressLine {
            rt,
            whole,
            read: 0,
            last: Instant::now(rt).ok(),
            is_shown: false,
        }
    }

    /// The same where lines go to standard output: nothing is shown between lines on a terminal. It has
    /// no contract, as `new`.
    pub fn beside_output(rt: &'r HostRuntime, whole: Option<u64>) -> ProgressLine<'r> {
        let whole = if rt.stdout().is_terminal() {
            None
        } else {
            whole
        };
        ProgressLine::new(rt, whole)
    }

    /// Removes the line; it has no contract, as `new`.
    pub fn end(&mut self) {
        if self.is_shown {
            let _ = eprint!(self.rt; "\r\x1b[K");
        }
    }

    // So many bytes more are read.
    fn add(&mut self, count: usize) {
        let Some(whole) = self.whole else {
            return;
        };
        self.read = self.read.saturating_add(count as u64);
        if self.is_due() {
            self.is_shown = true;
            let (read, whole) = (self.read >> 20, whole >> 20);
            let _ = eprint!(self.rt; "\r{read} of {whole} MiB");
        }
    }

    // Whether a second has passed. Then the next one begins.
    fn is_due(&mut self) -> bool {
        let Ok(now) = Instant::now(self.rt) else {
            return false;
        };
        match self.last {
            Some(last) if now.duration_since(last).as_secs() == 0 => false,
            _ => {
                self.last = Some(now);
                true
            }
        }
    }
}

/// How many bytes a file has, if it is a regular one. It has no contract: it rests with the system.
pub fn len_of(file: &File) -> Option<u64> {
    match file.metadata() {
        Ok(metadata) if metadata.is_file() => Some(metadata.len()),
        _ => None,
    }
}

/// A reader whose progress is reported.
#[derive(Drop)]
pub struct ProgressReader<'a, 'r, R> {
    reader: R,
    line: &'a mut ProgressLine<'r>,
}

impl<'a, 'r, R: Read> ProgressReader<'a, 'r, R> {
    /// What this reader gives is reported by the line.
    pub fn new(reader: R, line: &'a mut ProgressLine<'r>) -> ProgressReader<'a, 'r, R>
        ensures { result.reader ≡ reader }
    {
        ProgressReader { reader, line }
    }
}

impl<R: Read> Read for ProgressReader<'_, '_, R> {
    ghost remaining = { λ reporting. R.remaining reporting.reader };

    fn read(&mut self, buf: &mut [u8]) -> io::Result<usize> {
        let given = self.reader.read(buf);
        if let Ok(count) = &given {
            self.line.add(*count);
        }
        given
    }
}
