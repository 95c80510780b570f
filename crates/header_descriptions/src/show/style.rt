//! How lines look.

/// Whether lines have colours.
#[derive(Clone, Copy, Debug, PartialEq, Eq)]
pub enum Style {
    /// No colours: text alone.
    Plain,
    /// Colours of a terminal, by the sequences of ECMA-48.
    Ansi,
}

/// Which time a line has.
#[derive(Clone, Copy, Debug, PartialEq, Eq)]
pub enum TimeForm {
    /// The time since the first packet, in seconds.
    SinceFirst,
    /// The time since the packet before, in seconds; of the first one 0.
    SincePrevious,
    /// The time since 1970 began in UTC, in seconds, to the nanosecond.
    Epoch,
    /// Date and time, in UTC.
    Utc,
    /// Date and time at a place, with the offset from UTC there.
    Local,
}

/// What a section of a line is, by which its colour is chosen.
#[derive(Clone, Copy, Debug, PartialEq, Eq)]
pub enum Tone {
    /// Of less importance than the rest, as the number and the time.
    Faint,
    /// The name of a protocol.
    Protocol,
    /// A right checksum.
    Good,
    /// An error: a refusal or a wrong checksum.
    Bad,
    /// A fragment.
    Fragment,
}

impl Tone {
    /// The sequence that begins this tone on a terminal. It has no contract: tests compare the
    /// texts.
    pub fn sequence(self) -> &'static [u8] {
        match self {
            Tone::Faint => b"\x1b[2m",
            Tone::Protocol => b"\x1b[36m",
            Tone::Good => b"\x1b[32m",
            Tone::Bad => b"\x1b[1;31m",
            Tone::Fragment => b"\x1b[33m",
        }
    }
}
