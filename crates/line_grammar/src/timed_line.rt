//! A line of a frame that may have the time at which it was captured.
ghost use Rattle.std.specs.Prelude.{◌≡◌, ◌+◌, ◌<◌, ◌≤◌, ◌++◌, codes, length, position, Some, None, IfSome, MatchOption};
ghost use Rattle.std.specs.Char.{is_ascii_digit};
ghost use Rattle.std.specs.List.{list_all};
ghost use Rattle.hex.specs.Hex.{decode_of};
ghost use Rattle.line_grammar.specs.Commands.{frame_on, is_space};
ghost use Rattle.line_grammar.specs.TimedLines.{digits_frame, frame_at, number_below, number_of_digits, parts_of};
ghost use Rattle.line_grammar.specs.TimedLines.{text_frame, time_of, timed_frame_of};

use crate::line_head::FRAME;

/// When a frame was captured, since the start of the year 1970.
#[derive(Drop)]
pub struct Time {
    pub seconds: u32,
    /// The nanoseconds after the seconds, less than 1,000,000,000.
    pub nanoseconds: u32,
}

/// The fields of a line of a frame. The digits may encode no frame.
#[derive(Drop)]
pub struct TimedLine<'l> {
    pub channel: u32,
    pub time: Time,
    pub digits: &'l [u8],
}

/// The fields of a whole line of the form `frame CHANNEL DIGITS`, which the time may follow,
/// `SECONDS MICROSECONDS` or `SECONDS MICROSECONDS NANOSECONDS`.
pub fn read_timed_line(line: &[u8]) -> Option<TimedLine<'_>>
    ensures frame { MatchOption result (timed_frame_of line.now ≡ None)
        (λ t. timed_frame_of line.now ≡ frame_at (Some t.time) (frame_on t.channel (decode_of t.digits.now))) }
    ensures short { IfSome result (λ t. length t.digits.now + 8 ≤ length line.now) }
{
    if !line.starts_with(FRAME) {
        return None;
    }
    channel_and_digits(&line[FRAME.len()..])
}

fn channel_and_digits(text: &[u8]) -> Option<TimedLine<'_>>
    ensures frame { MatchOption result (text_frame text.now ≡ None)
        (λ t. text_frame text.now ≡ frame_at (Some t.time) (frame_on t.channel (decode_of t.digits.now))) }
    ensures short { IfSome result (λ t. length t.digits.now + 2 ≤ length text.now) }
{
    let space = space_in(text)?;
    let channel = number(&text[..space])?;
    timed_digits(channel, &text[space + 1..])
}

fn timed_digits(channel: u32, text: &[u8]) -> Option<TimedLine<'_>>
    ensures frame { MatchOption result (digits_frame channel text.now ≡ None)
        (λ t. digits_frame channel text.now
        ≡ frame_at (Some t.time) (frame_on t.channel (decode_of t.digits.now))) }
    ensures short { IfSome result (λ t. length t.digits.now ≤ length text.now) }
{
    let Some(space) = space_in(text) else {
        return Some(TimedLine {
            channel,
            time: Time {
                seconds: 0,
                nanoseconds: 0,
            },
            digits: text,
        });
    };
    let time = read_time(&text[space + 1..])?;
    Some(TimedLine {
        channel,
        time,
        digits: &text[..space],
    })
}

fn read_time(text: &[u8]) -> Option<Time>
    ensures { result ≡ time_of text.now }
{
    let space = space_in(text)?;
    let seconds = number(&text[..space])?;
    let nanoseconds = read_parts(&text[space + 1..])?;
    Some(Time {
        seconds,
        nanoseconds,
    })
}

fn read_parts(text: &[u8]) -> Option<u32>
    ensures value { result ≡ parts_of text.now }
    ensures fits { IfSome result (λ n. n < 1_000_000_000) }
{
    let Some(space) = space_in(text) else {
        let microseconds = number_below(1_000_000, text)?;
        return Some(1000 * microseconds);
    };
    let microseconds = number_below(1_000_000, &text[..space])?;
    let nanoseconds = number_below(1000, &text[space + 1..])?;
    Some(1000 * microseconds + nanoseconds)
}

fn number_below(limit: u32, digits: &[u8]) -> Option<u32>
    ensures value { result ≡ number_below limit digits.now }
    ensures fits { IfSome result (λ n. n < limit) }
{
    let value = number(digits)?;
    if value < limit { Some(value) } else { None }
}

fn space_in(text: &[u8]) -> Option<usize>
    ensures { result ≡ position is_space text.now }
{
    text.iter().position(|byte| *byte == b' ')
}

// The number of one to ten decimal digits, if it fits.
fn number(digits: &[u8]) -> Option<u32>
    ensures { result ≡ number_of_digits digits.now }
{
    if digits.is_empty() || digits.len() > 10 || !is_decimal(digits) {
        return None;
    }
    str::from_utf8(digits).ok()?.parse().ok()
}

fn is_decimal(text: &[u8]) -> bool
    ensures { result ≡ list_all is_ascii_digit text.now }
{
    text.iter().all(|byte| byte.is_ascii_digit())
}
