//! How an interface of a pcapng file counts times.
ghost use Rattle.std.specs.Prelude.{◌≡◌, ◌<◌, ◌≤◌, ◌+◌, ◌*◌, ◌^◌, false, length, min};
ghost use Rattle.captures.specs.Times.{clock_of, clock_time, ends_options, long_word, moved, nanoseconds_of};
ghost use Rattle.captures.specs.Times.{option_len, with_option};
ghost use Rattle.captures.specs.declared.limits.TheConstants.{TIME_LIMIT};

use crate::byte_order::ByteOrder;
use crate::limits::TIME_LIMIT;

const RESOLUTION: u16 = 9;

const OFFSET: u16 = 14;

/// How an interface counts times.
#[derive(Clone, Copy)]
pub(crate) struct Clock {
    /// How many units make a second: a power of ten with this exponent, or of two, where 128 is
    /// added to the exponent.
    pub resolution: u8,
    /// The seconds between 1970 and what it counts from, in two's complement.
    pub offset: u64,
}

impl Clock {
    /// Microseconds since 1970.
    pub(crate) const USUAL: Clock = Clock {
        resolution: 6,
        offset: 0,
    };

    /// The clock that an interface's options state.
    pub(crate) fn of(order: ByteOrder, options: &[u8]) -> Clock
        ensures { result ≡ clock_of order options.now }
    {
        let mut clock = Clock::USUAL;
        let mut rest = options;
        'options: while !ends_options(order, rest) {
            clock = with_option(order, rest, clock);
            let len = option_len(order, rest).min(rest.len());
            let (_, later) = rest.split_at(len);
            rest = later;
        }
        clock
    }

    /// A time on this clock, in nanoseconds.
    pub(crate) fn time(self, high: u32, low: u32) -> u64
        ensures { result ≡ clock_time self high low }
    {
        let count = (u64::from(high) << 32) + u64::from(low);
        if self.resolution == 6 && self.offset == 0 {
            usual_time(count)
        } else {
            other_time(self, count)
        }
    }
}

// A time on the usual clock.
fn usual_time(count: u64) -> u64
    ensures { result ≡ min (1000 * count) TIME_LIMIT }
{
    count.saturating_mul(1000).min(TIME_LIMIT)
}

// A time on any clock.
fn other_time(clock: Clock, count: u64) -> u64
    ensures { result ≡ min (moved clock.offset (nanoseconds_of clock.resolution count)) TIME_LIMIT }
{
    moved(clock.offset, nanoseconds_of(clock.resolution, count))
}

fn nanoseconds_of(resolution: u8, count: u64) -> u128
    ensures { result ≡ nanoseconds_of resolution count }
{
    if resolution < 10 {
        u128::from(count) * u128::from(power_of_ten(9 - resolution))
    } else if resolution < 29 {
        u128::from(count / power_of_ten(resolution - 9))
    } else if resolution < 128 {
        // A second has more units than any count of 64 bits reaches.
        0
    } else {
        (1_000_000_000 * u128::from(count)) >> u32::from(resolution - 128)
    }
}

fn power_of_ten(exponent: u8) -> u64
    requires { exponent < 20 }
    ensures { result ≡ 10 ^ exponent }
{
    10u64.pow(u32::from(exponent))
}

fn moved(offset: u64, time: u128) -> u64
    ensures { result ≡ min (moved offset time) TIME_LIMIT }
{
    let moved = if offset < 1 << 63 {
        time.saturating_add(1_000_000_000 * u128::from(offset))
    } else {
        time.saturating_sub(1_000_000_000 * ((1u128 << 64) - u128::from(offset)))
    };
    moved.min(u128::from(TIME_LIMIT)) as u64
}

fn ends_options(order: ByteOrder, bytes: &[u8]) -> bool
    ensures { result ≡ ends_options order bytes.now }
{
    bytes.len() < 4
        || order.half(bytes, 0) == 0
        || bytes.len() < 4 + usize::from(order.half(bytes, 2))
}

fn option_len(order: ByteOrder, bytes: &[u8]) -> usize
    requires { 4 ≤ length bytes.now }
    ensures { result ≡ option_len order bytes.now }
{
    4 + 4 * ((usize::from(order.half(bytes, 2)) + 3) / 4)
}

fn with_option(order: ByteOrder, bytes: &[u8], clock: Clock) -> Clock
    requires { ends_options order bytes.now ≡ false }
    ensures { result ≡ with_option order bytes.now clock }
{
    let code = order.half(bytes, 0);
    let len = order.half(bytes, 2);
    if code == RESOLUTION && len == 1 {
        Clock {
            resolution: bytes[4],
            offset: clock.offset,
        }
    } else if code == OFFSET && len == 8 {
        Clock {
            resolution: clock.resolution,
            offset: long_word(order, bytes, 4),
        }
    } else {
        clock
    }
}

fn long_word(order: ByteOrder, bytes: &[u8], at: usize) -> u64
    requires { at + 8 ≤ length bytes.now }
    ensures { result ≡ long_word order bytes.now at }
{
    let first = u64::from(order.word(bytes, at));
    let second = u64::from(order.word(bytes, at + 4));
    match order {
        ByteOrder::Big => (first << 32) + second,
        ByteOrder::Little => first + (second << 32),
    }
}
