//! Which packet it is, and when it came.

use crate::show::line::Line;
use crate::show::seconds;
use crate::show::style::{TimeForm, Tone};
use arrayvec::ArrayString;
use itoa::Buffer;
use jiff::Timestamp;
use jiff::tz::Offset;
use std::alloc::AllocError;

// The fewest columns of a time in seconds.
const COLUMNS: usize = 10;

/// The text of a date and a time of day, with an offset of hours, minutes and seconds.
pub type TimeText = ArrayString<36>;

/// When a packet was captured and two others were, in nanoseconds since 1970 began in UTC.
#[derive(Drop)]
pub struct Times {
    /// The packet.
    pub own: u64,
    /// The first one.
    pub first: u64,
    /// The one before; of the first one itself.
    pub previous: u64,
    /// The seconds that clocks at the place are ahead of UTC at the time of the packet.
    pub ahead: i32,
}

/// The number of a packet, and its time in this form; one in seconds has ten columns at least. The
/// texts of seconds are those of [`seconds`]. It has no contract: tests compare the texts.
pub fn number_and_time(
    line: &mut Line<'_>,
    form: TimeForm,
    number: u64,
    times: &Times,
) -> Result<(), AllocError> {
    line.begin_tone(Tone::Faint)?;
    line.spaces(5usize.saturating_sub(digits(number)))?;
    line.number(number)?;
    line.text(" ")?;
    match form {
        TimeForm::SinceFirst => aligned(line, &seconds::between(times.first, times.own))?,
        TimeForm::SincePrevious => aligned(line, &seconds::between(times.previous, times.own))?,
        TimeForm::Epoch => aligned(line, &seconds::exact(times.own))?,
        TimeForm::Utc => line.text(utc_text(times.own).as_str())?,
        TimeForm::Local => line.text(local_text(times.own, times.ahead).as_str())?,
    }
    line.end_tone()?;
    line.text(" ")
}

// A time in seconds, after spaces where it has fewer columns than others.
fn aligned(line: &mut Line<'_>, text: &[u8]) -> Result<(), AllocError> {
    line.spaces(COLUMNS.saturating_sub(text.len()))?;
    line.bytes(text)
}

/// A time in nanoseconds since 1970 as date and time of day in UTC, to the microsecond (RFC 3339). It
/// has no contract: tests compare the texts.
pub fn utc_text(time: u64) -> TimeText {
    let mut text = date_and_time(time, Offset::UTC);
    push(&mut text, "Z");
    text
}

/// The same where clocks are so many seconds ahead of UTC, with hours and minutes of that, and
/// seconds where there are some. It has no contract: tests compare the texts.
pub fn local_text(time: u64, ahead: i32) -> TimeText {
    let Ok(offset) = Offset::from_seconds(ahead) else {
        return utc_text(time);
    };
    let mut text = date_and_time(time, offset);
    push(&mut text, if ahead < 0 { "-" } else { "+" });
    let seconds = u64::from(ahead.unsigned_abs());
    push_padded(&mut text, seconds / 3600, 2);
    push(&mut text, ":");
    push_padded(&mut text, seconds / 60 % 60, 2);
    if seconds % 60 > 0 {
        push(&mut text, ":");
        push_padded(&mut text, seconds % 60, 2);
    }
    text
}

// Without the offset.
fn date_and_time(time: u64, offset: Offset) -> TimeText {
    let mut text = TimeText::new();
    let Ok(timestamp) = Timestamp::from_nanosecond(time.into()) else {
        push_padded(&mut text, time, 0);
        return text;
    };
    let at = offset.to_datetime(timestamp);
    for (n, count, suffix) in [
        (u64::from(at.year().unsigned_abs()), 4, "-"),
        (u64::from(at.month().unsigned_abs()), 2, "-"),
        (u64::from(at.day().unsigned_abs()), 2, "T"),
        (u64::from(at.hour().unsigned_abs()), 2, ":"),
        (u64::from(at.minute().unsigned_abs()), 2, ":"),
        (u64::from(at.second().unsigned_abs()), 2, "."),
        (time / 1000 % 1_000_000, 6, ""),
    ] {
        push_padded(&mut text, n, count);
        push(&mut text, suffix);
    }
    text
}

// A number with zeros before it, up to so many digits.
fn push_padded(text: &mut TimeText, n: u64, count: usize) {
    for _ in 0..count.saturating_sub(digits(n)) {
        push(text, "0");
    }
    push(text, Buffer::new().format(n));
}

// What has no space is left out: no time has so many digits.
fn push(text: &mut TimeText, more: &str) {
    let _ = text.try_push_str(more);
}

// How many decimal digits a number has; 7 of one that has more.
fn digits(n: u64) -> usize {
    match n {
        0..=9 => 1,
        10..=99 => 2,
        100..=999 => 3,
        1000..=9999 => 4,
        10_000..=99_999 => 5,
        100_000..=999_999 => 6,
        _ => 7,
    }
}
