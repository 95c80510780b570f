//! Why no packet follows.
ghost use Rattle.std.specs.Prelude.{◌≡◌};
ghost use Rattle.captures.specs.Endings.{cause, read_cause};

use crate::position::Position;
use crate::{CaptureError, RunError};
use std::error::Error;
use std::fmt;

/// Why a [`PacketReader`](crate::PacketReader) gives no further packet.
#[derive(Clone, Copy, Debug, PartialEq, Eq)]
pub enum ReadError {
    /// A read failed, for whatever reason.
    Read,
    /// The input is no capture whose packets can be reported, or is cut off, at this position.
    Capture(CaptureError, Position),
    /// As many reads as a reader may make gave bytes.
    TooManyReads,
}

impl From<ReadError> for RunError {
    ghost from_gives = { λ read error. cause error ≡ read_cause read };

    fn from(error: ReadError) -> RunError {
        match error {
            ReadError::Read => RunError::Read,
            ReadError::Capture(error, position) => RunError::Capture(error, position),
            ReadError::TooManyReads => RunError::TooManyReads,
        }
    }
}

// The text of the run's error.
impl fmt::Display for ReadError {
    fn fmt<W: fmt::Write>(&self, f: &mut fmt::Formatter<W>) -> fmt::Result {
        let error = RunError::from(*self);
        write!(f, "{error}")
    }
}

impl Error for ReadError {}
