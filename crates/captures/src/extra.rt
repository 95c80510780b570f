//! What lines hold beside frames.

/// What lines hold beside frames.
#[derive(Clone, Copy, Debug, PartialEq, Eq)]
pub enum Extra {
    /// Nothing: each line gives a frame.
    Nothing,
    /// The time of each frame, after its digits: seconds since the year 1970 began and
    /// microseconds, and nanoseconds where there are any. Where the frame had another length on the
    /// wire, the nanoseconds and that length.
    Times,
    /// Which reassemblies may be dropped: whenever this many seconds have passed by the packets'
    /// times since the last such line, or the first packet, a line `forget NUMBER` comes before the
    /// packet's, with the number of that last line, or 1. Lines are numbered from 1, these too.
    /// What 0 seconds mean, [`Spans::go_on`](crate::Spans::go_on) says.
    Forget(u32),
}
