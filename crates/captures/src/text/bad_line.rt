//! Lines that give no frame.
use std::fmt;

/// A line of the input of [`write_capture`](crate::write_capture) that gives no frame.
#[derive(Clone, Copy, Debug, PartialEq, Eq)]
pub struct BadLine {
    /// The line's number, counted from 1.
    pub number: u64,
    /// Why it gives none.
    pub fault: LineFault,
}

/// Why a line gives no frame.
#[derive(Clone, Copy, Debug, PartialEq, Eq)]
pub enum LineFault {
    /// It has no frame, or one of more than [`FRAME_LIMIT`](crate::FRAME_LIMIT) bytes, or it is longer
    /// than any line that gives one.
    NoFrame,
    /// After the frame it has the seconds of a time alone, without microseconds.
    NoFraction,
    /// After the frame it has something else: neither a time nor a time with its nanoseconds and a
    /// length on the wire.
    OtherAfterFrame,
}

/// It has no contract: tests compare the texts.
impl fmt::Display for BadLine {
    fn fmt<W: fmt::Write>(&self, f: &mut fmt::Formatter<W>) -> fmt::Result {
        let BadLine { number, fault } = *self;
        match fault {
            LineFault::NoFrame => write!(f, "line {number} has no frame"),
            LineFault::NoFraction => {
                write!(
                    f,
                    "line {number} has a time without its fraction, the microseconds"
                )
            }
            LineFault::OtherAfterFrame => {
                write!(
                    f,
                    "line {number} has neither a time nor a time and a length after its frame"
                )
            }
        }
    }
}
