//! The times of packets, in nanoseconds since the year 1970 began.

pub(crate) mod clock;
pub(crate) mod time_unit;
