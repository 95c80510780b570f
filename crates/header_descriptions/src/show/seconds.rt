//! Times as text: seconds in decimal, a point, and digits of the fraction.
ghost use Rattle.std.specs.Prelude.{◌≡◌, ◌≤◌, ◌<◌, ◌+◌, ◌++◌, length};
ghost use Rattle.header_descriptions.specs.Seconds.{between_text, digit_at, exact_text, seconds_text};

use arrayvec::ArrayVec;
use itoa::Buffer;

/// The text of a time: a sign, eleven digits, a point and nine digits at most.
pub type SecondsText = ArrayVec<u8, 22>;

/// What is between two times in nanoseconds: seconds and six digits of the fraction, after `-` where
/// the second one is earlier by a microsecond or more. What is less than a microsecond is left out.
pub fn between(from: u64, to: u64) -> SecondsText
    ensures { result.items ≡ between_text from to }
{
    let mut text = ArrayVec::new();
    if from.saturating_sub(to) >= 1000 {
        text.push(b'-');
    }
    append_seconds(&mut text, from.abs_diff(to));
    text
}

/// A time in nanoseconds: seconds and six digits of the fraction, or nine where the time isn't one
/// of whole microseconds.
pub fn exact(time: u64) -> SecondsText
    ensures { result.items ≡ exact_text time }
{
    let mut text = ArrayVec::new();
    append_seconds(&mut text, time);
    if time % 1000 != 0 {
        let digits = [digit(time, 100), digit(time, 10), digit(time, 1)];
        append(&mut text, &digits);
    }
    text
}

// Appends seconds and six digits, for which there is space.
fn append_seconds(text: &mut SecondsText, time: u64)
    requires { length text.old.items ≤ 1 }
    ensures items { text.new.items ≡ text.old.items ++ seconds_text time }
    ensures size { length text.new.items ≤ length text.old.items + 18 }
{
    append(text, Buffer::new().format(time / 1_000_000_000).as_bytes());
    let fraction = [
        b'.',
        digit(time, 100_000_000),
        digit(time, 10_000_000),
        digit(time, 1_000_000),
        digit(time, 100_000),
        digit(time, 10_000),
        digit(time, 1000),
    ];
    append(text, &fraction);
}

fn append(text: &mut SecondsText, more: &[u8])
    requires { length text.old.items + length more.now ≤ 22 }
    ensures { text.new.items ≡ text.old.items ++ more.now }
{
    text.try_extend_from_slice(more).unwrap();
}

// The digit of a number that counts this unit, a power of ten.
fn digit(n: u64, unit: u64) -> u8
    requires { 0 < unit }
    ensures { result ≡ digit_at unit n }
{
    b'0' + (n / unit % 10) as u8
}
