//! Sequence numbers.

ghost use Rattle.std.specs.Prelude.{◌≡◌};
ghost use Rattle.tcp_streams.specs.SequenceNumbers.{distance};

/// How far a sequence number lies from the one that is expected, the shorter way round.
#[derive(Clone, Copy, Debug, PartialEq, Eq)]
pub enum Distance {
    /// So many after it; 0 at it.
    After(u32),
    /// So many before it.
    Before(u32),
}

/// How far a sequence number lies from the one that is expected. They count modulo 2 to the 32 (RFC
/// 9293, section 3.4), so of both ways round the shorter one counts. One that lies 2 to the 31 away
/// lies before it.
pub fn distance_between(expected: u32, number: u32) -> Distance
    ensures { result ≡ distance expected number }
{
    let after = number.wrapping_sub(expected);
    if after < 1 << 31 {
        Distance::After(after)
    } else {
        Distance::Before(after.wrapping_neg())
    }
}
