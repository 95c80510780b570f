//! Why a run ends before the end of its input.
ghost use Rattle.std.specs.Prelude.{◌≡◌};
ghost use Rattle.device_runs.specs.Endings.{Stopped};
ghost use Rattle.lines.specs.Endings.{cause};

use device_runs::Fault;
use thiserror::Error;

/// Why a run ends before the end of its input.
#[derive(Clone, Copy, Debug, PartialEq, Eq, Hash, Error)]
pub enum RunError {
    /// A read failed, with an error of any kind.
    #[error("the input cannot be read")]
    Read,
    /// A write failed, with an error of any kind.
    #[error("the output cannot be written")]
    Write,
    /// A write of some bytes took none of them.
    #[error("the output takes no more bytes")]
    WriteZero,
    /// There was no memory: for the buffers, and then nothing was read or written; or for a line,
    /// and then the answers to all lines before it are written.
    #[error("out of memory")]
    Memory,
    /// As many reads as a run may make gave bytes.
    #[error("too many reads")]
    TooManyReads,
}

impl From<Fault> for RunError {
    ghost from_gives = { λ fault error. cause error ≡ Stopped fault };

    fn from(fault: Fault) -> RunError {
        match fault {
            Fault::ReadFailed => RunError::Read,
            Fault::WriteFailed => RunError::Write,
            Fault::NothingTaken => RunError::WriteZero,
        }
    }
}
