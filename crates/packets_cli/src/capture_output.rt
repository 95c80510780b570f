//! Where a capture is written.
use std::fs::File;
use std::io::{self, Stdout, Write};

/// The file that a capture is written to.
#[derive(Drop)]
pub enum CaptureOutput {
    /// Standard output.
    Standard(Stdout),
    /// A file that was created, or of which the earlier content is lost.
    Named(File),
}

impl CaptureOutput {
    /// The file with this name, `-` for standard output. It has no contract: it rests with the system
    /// which file that is.
    pub fn create(rt: &HostRuntime, name: &str) -> io::Result<CaptureOutput> {
        match name {
            "-" => Ok(CaptureOutput::Standard(rt.stdout())),
            _ => Ok(CaptureOutput::Named(File::create(rt, name)?)),
        }
    }
}

impl Write for CaptureOutput {
    fn write(&mut self, buf: &[u8]) -> io::Result<usize> {
        match self {
            CaptureOutput::Standard(output) => output.write(buf),
            CaptureOutput::Named(file) => file.write(buf),
        }
    }

    fn flush(&mut self) -> io::Result<()> {
        match self {
            CaptureOutput::Standard(output) => output.flush(),
            CaptureOutput::Named(file) => file.flush(),
        }
    }
}
