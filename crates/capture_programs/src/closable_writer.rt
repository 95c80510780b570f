//! A writer whose reader may go away.
ghost use Rattle.std.specs.Prelude.{◌≡◌, ◌↔◌, IsTrue, false};
ghost use Rattle.std.specs.Io.{WritesAtMost};
ghost use Rattle.std.specs.Io.KnownBytes.{Keeps, WriteAppends};
ghost use Rattle.capture_programs.specs.Closings.{IsBrokenPipe, RemembersClosed};

use std::io::{self, ErrorKind, Write};

/// A writer that remembers whether a write or a flush found its pipe closed: nobody reads what it
/// writes.
#[derive(Drop)]
pub struct ClosableWriter<W> {
    writer: W,
    closed: bool,
}

impl<W: Write> ClosableWriter<W> {
    /// Nothing is written yet.
    pub fn new(writer: W) -> ClosableWriter<W>
        ensures writer { result.writer ≡ writer }
        ensures closed { result.closed ≡ false }
    {
        ClosableWriter {
            writer,
            closed: false,
        }
    }

    /// Whether a write or a flush failed with `BrokenPipe`.
    pub fn is_closed(&self) -> bool
        ensures { result ≡ self.now.closed }
    {
        self.closed
    }
}

impl<W: Write> Write for ClosableWriter<W> {
    ghost contents = { λ closable. W.contents closable.writer };

    fn write(&mut self, buf: &[u8]) -> io::Result<usize>
        ensures bound { WritesAtMost result buf.now }
        ensures bytes { WriteAppends (W.contents self.old.writer) (W.contents self.new.writer)
            result buf.now }
        ensures closed { RemembersClosed self.old.closed result self.new.closed }
    {
        let written = self.writer.write(buf);
        self.closed = self.closed || is_broken_pipe(&written);
        written
    }

    fn flush(&mut self) -> io::Result<()>
        ensures bytes { Keeps (W.contents self.old.writer) (W.contents self.new.writer) }
        ensures closed { RemembersClosed self.old.closed result self.new.closed }
    {
        let flushed = self.writer.flush();
        self.closed = self.closed || is_broken_pipe(&flushed);
        flushed
    }
}

fn is_broken_pipe<T>(done: &io::Result<T>) -> bool
    ensures { IsTrue result ↔ IsBrokenPipe done.now }
{
    matches!(done, Err(error) if error.kind() == ErrorKind::BrokenPipe)
}
