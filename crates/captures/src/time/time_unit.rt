//! The unit in which a classic capture counts the fraction of a second.
ghost use Rattle.std.specs.Prelude.{◌≡◌};
ghost use Rattle.captures.specs.Times.{nanoseconds_in, record_time, unit_of};

use crate::limits::TIME_LIMIT;

/// The unit in which a classic capture counts the fraction of a second.
#[derive(Clone, Copy, Debug, PartialEq, Eq)]
pub enum TimeUnit {
    /// Magic number a1b2c3d4.
    Microseconds,
    /// Magic number a1b23c4d.
    Nanoseconds,
}

impl TimeUnit {
    pub(crate) fn of(magic: u32) -> TimeUnit
        ensures { result ≡ unit_of magic }
    {
        if magic == 0xa1b2_3c4d {
            TimeUnit::Nanoseconds
        } else {
            TimeUnit::Microseconds
        }
    }

    /// How many nanoseconds one has.
    pub(crate) fn nanoseconds(self) -> u32
        ensures { result ≡ nanoseconds_in self }
    {
        match self {
            TimeUnit::Microseconds => 1000,
            TimeUnit::Nanoseconds => 1,
        }
    }

    /// This many seconds and units, in nanoseconds.
    pub(crate) fn time(self, seconds: u32, parts: u32) -> u64
        ensures { result ≡ record_time self seconds parts }
    {
        let whole = 1_000_000_000 * u64::from(seconds);
        let nanoseconds = u64::from(self.nanoseconds()) * u64::from(parts);
        (whole + nanoseconds).min(TIME_LIMIT)
    }
}
