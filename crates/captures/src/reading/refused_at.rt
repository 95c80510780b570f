//! Why a capture is refused, and where.

use crate::CaptureError;
use crate::position::Position;
use std::error::Error;
use std::fmt;

/// Why a capture is refused, and where.
#[derive(Clone, Copy, Debug, PartialEq, Eq)]
pub struct RefusedAt {
    /// Why.
    pub error: CaptureError,
    /// Where.
    pub position: Position,
}

impl fmt::Display for RefusedAt {
    fn fmt<W: fmt::Write>(&self, f: &mut fmt::Formatter<W>) -> fmt::Result {
        let (error, position) = (self.error, self.position);
        write!(f, "{position}: {error}")
    }
}

impl Error for RefusedAt {}
