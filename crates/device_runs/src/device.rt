//! What a run reads from and writes to.
ghost use Rattle.std.specs.Prelude.{◌≡◌, ◌<◌, length};
ghost use Rattle.std.specs.Result.{result_ok};
ghost use Rattle.std.specs.Io.{ReadsAtMost, WritesAtMost};
ghost use Rattle.device_runs.specs.Calls.{Call, Reads, Writes, bytes_of_read};
ghost use Rattle.device_runs.specs.Known.{KnownCall, known_of};

use std::io;
use std::io::{Read, Write};

/// Gives bytes and takes bytes, one call at a time.
///
/// The contract of a run names the transitions that its calls made, so it says as much about failed
/// calls as `transition` does.
pub trait Device {
    // From one state this call, with what it gives or takes, may lead to another.
    ghost transition: { Self → Call → Self → Type 0 };

    /// Puts bytes at the start of `buf`, and returns how many. 0 means the end of the input, unless
    /// `buf` is empty.
    fn read_some(&mut self, buf: &mut [u8]) -> io::Result<usize>
        ensures bound { ReadsAtMost result buf.new }
        ensures call { 0 < length buf.old
            → transition self.old (Reads (bytes_of_read result buf.new)) self.new };

    /// Takes bytes from the start of `buf`, and returns how many.
    fn write_some(&mut self, buf: &[u8]) -> io::Result<usize>
        ensures bound { WritesAtMost result buf.now }
        ensures call { transition self.old (Writes buf.now (result_ok result)) self.new };
}

/// A reader and a writer as one device. Its transitions are those of the known bytes of both.
#[derive(Drop)]
pub struct ReaderWriter<'a, R, W> {
    /// What is read from.
    pub reader: &'a mut R,
    /// What is written to.
    pub writer: &'a mut W,
}

impl<'a, R: Read, W: Write> Device for ReaderWriter<'a, R, W> {
    ghost transition = { λ s call t. (t.reader.ghost_name ≡ s.reader.ghost_name)
        × (t.writer.ghost_name ≡ s.writer.ghost_name)
        × KnownCall (known_of (R.remaining s.reader.now) (W.contents s.writer.now)) call
        (known_of (R.remaining t.reader.now) (W.contents t.writer.now)) };

    fn read_some(&mut self, buf: &mut [u8]) -> io::Result<usize> {
        self.reader.read(buf)
    }

    fn write_some(&mut self, buf: &[u8]) -> io::Result<usize> {
        self.writer.write(buf)
    }
}
