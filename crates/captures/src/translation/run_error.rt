//! Why a run ends before all packets are reported, or all frames written.
ghost use Rattle.std.specs.Prelude.{◌≡◌};
ghost use Rattle.device_runs.specs.Endings.{Refused, Stopped};
ghost use Rattle.captures.specs.Endings.{cause};
ghost use Rattle.captures.specs.declared.translation.run_error.RunError.TheVariants as run_error;

use crate::CaptureError;
use crate::position::Position;
use crate::text::bad_line::BadLine;
use crate::translation::refusal::Refusal;
use device_runs::Fault;
use thiserror::Error;

/// Why a run ends before all packets are reported, or all frames written.
#[derive(Clone, Copy, Debug, PartialEq, Eq, Error)]
pub enum RunError {
    /// A read failed, for whatever reason.
    #[error("the input cannot be read")]
    Read,
    /// A write failed, for whatever reason.
    #[error("the output cannot be written")]
    Write,
    /// A write of some bytes took none of them.
    #[error("the output takes no more bytes")]
    WriteZero,
    /// There was no memory for the buffers, so nothing was read or written.
    #[error("out of memory")]
    Memory,
    /// As many reads as a run may make gave bytes.
    #[error("too many reads")]
    TooManyReads,
    /// The input of [`run`](crate::run) is no capture whose packets can be reported, or is cut off,
    /// at this position.
    #[error("{1}: {0}")]
    Capture(CaptureError, Position),
    /// This line of the input of [`write_capture`](crate::write_capture) gives no frame.
    #[error("{0}")]
    BadLine(BadLine),
}

impl From<Fault> for RunError {
    ghost from_gives = { λ fault error. cause error ≡ Stopped fault };

    fn from(fault: Fault) -> RunError {
        match fault {
            Fault::ReadFailed => RunError::Read,
            Fault::WriteFailed => RunError::Write,
            Fault::NothingTaken => RunError::WriteZero,
        }
    }
}

impl From<Refusal> for RunError {
    ghost from_gives = { λ refusal error. cause error ≡ Refused refusal };

    fn from(refusal: Refusal) -> RunError {
        match refusal {
            Refusal::InCapture(error, position) => RunError::Capture(error, position),
            Refusal::InLine(line) => RunError::BadLine(line),
        }
    }
}
