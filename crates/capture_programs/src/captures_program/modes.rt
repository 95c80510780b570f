//! What the program makes of its input.
use captures::{Extra, TimeUnit, Unfit};

/// What is made of the input.
#[derive(Clone, Copy, Debug, PartialEq, Eq)]
pub enum Mode {
    /// The lines of the packets of a capture: what they hold beside frames, and what happens to
    /// packets that can't be reported.
    Lines(Extra, Unfit),
    /// A capture of the frames of lines, with times in this unit.
    Capture(TimeUnit),
}
