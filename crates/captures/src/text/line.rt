//! The line of a packet.
ghost use Rattle.std.specs.Prelude.{◌≡◌, ◌+◌, ◌*◌, ◌/◌, ◌%◌, ◌≤◌, ◌++◌, codes, length, take, decimal};
ghost use Rattle.hex.specs.Hex.{encode_lower};
ghost use Rattle.captures.specs.Framed.{frame_bytes};
ghost use Rattle.captures.specs.Lines.{forget_line, line_of, origin_text, timed_line_of, wire_text};
ghost use Rattle.line_grammar.specs.Written.{time_text};

use crate::link::frame::Frame;
use crate::origin::Origin;
use itoa::Buffer;

/// Puts the line that gives a frame after the first `used` bytes, and returns how many are used
/// then.
#[inline(always)]
pub(crate) fn append_line(out: &mut [u8], used: usize, origin: Origin, frame: &Frame<'_>) -> usize
    requires { used + 18 + 2 * length (frame_bytes frame.now) ≤ length out.old }
    ensures end { result ≤ used + 18 + 2 * length (frame_bytes frame.now) }
    ensures text { take result out.new ≡ take used out.old
        ++ line_of (record { origin = origin; frame = frame_bytes frame.now }) }
{
    let digits = append_frame(out, used, origin.channel, frame);
    append(out, digits, b"\n")
}

/// The same with the packet's time, and the length of its frame on the wire where it has another.
#[inline(always)]
pub(crate) fn append_timed_line(
    out: &mut [u8],
    used: usize,
    origin: Origin,
    frame: &Frame<'_>,
) -> usize
    requires { used + 52 + 2 * length (frame_bytes frame.now) ≤ length out.old }
    ensures end { result ≤ used + 52 + 2 * length (frame_bytes frame.now) }
    ensures text { take result out.new ≡ take used out.old
        ++ timed_line_of (record { origin = origin; frame = frame_bytes frame.now }) }
{
    let digits = append_frame(out, used, origin.channel, frame);
    let end = append_origin(out, digits, origin.time, origin.wire_len, frame.len());
    append(out, end, b"\n")
}

/// The same of the line that has reassemblies dropped.
pub(crate) fn append_forget_line(out: &mut [u8], used: usize, number: u64) -> usize
    requires { used + 28 ≤ length out.old }
    ensures end { result ≤ used + 28 }
    ensures text { take result out.new ≡ take used out.old ++ forget_line number }
{
    let command = append(out, used, b"forget ");
    let digits = append(out, command, Buffer::new().format(number).as_bytes());
    append(out, digits, b"\n")
}

// A line up to the digits of its frame.
#[inline(always)]
fn append_frame(out: &mut [u8], used: usize, channel: u32, frame: &Frame<'_>) -> usize
    requires { used + 17 + 2 * length (frame_bytes frame.now) ≤ length out.old }
    ensures end { result ≤ used + 17 + 2 * length (frame_bytes frame.now) }
    ensures text { take result out.new ≡ take used out.old
        ++ (codes "frame " ++ decimal channel ++ codes " " ++ encode_lower (frame_bytes frame.now)) }
{
    let head = append_head(out, used, channel);
    frame.append_hex(out, head)
}

// A line up to its frame. Most captures have one interface, or few.
#[inline(always)]
fn append_head(out: &mut [u8], used: usize, channel: u32) -> usize
    requires { used + 17 ≤ length out.old }
    ensures end { result ≤ used + 17 }
    ensures text { take result out.new ≡ take used out.old
        ++ (codes "frame " ++ decimal channel ++ codes " ") }
{
    if channel < 10 {
        let digit = b'0' + channel as u8;
        append(
            out,
            used,
            &[b'f', b'r', b'a', b'm', b'e', b' ', digit, b' '],
        )
    } else {
        append_long_head(out, used, channel)
    }
}

fn append_long_head(out: &mut [u8], used: usize, channel: u32) -> usize
    requires { used + 17 ≤ length out.old }
    ensures end { result ≤ used + 17 }
    ensures text { take result out.new ≡ take used out.old
        ++ (codes "frame " ++ decimal channel ++ codes " ") }
{
    let command = append(out, used, b"frame ");
    let number = append(out, command, Buffer::new().format(channel).as_bytes());
    append(out, number, b" ")
}

// What follows the digits of a frame of so many bytes.
fn append_origin(out: &mut [u8], used: usize, time: u64, wire_len: u32, len: usize) -> usize
    requires { used + 34 ≤ length out.old }
    ensures end { result ≤ used + 34 }
    ensures text { take result out.new ≡ take used out.old ++ origin_text len time wire_len }
{
    if wire_len as usize == len {
        append_time(out, used, time)
    } else {
        append_length(out, used, time, wire_len)
    }
}

fn append_time(out: &mut [u8], used: usize, time: u64) -> usize
    requires { used + 23 ≤ length out.old }
    ensures end { result ≤ used + 23 }
    ensures text { take result out.new ≡ take used out.old ++ time_text time }
{
    let microseconds = append_microseconds(out, used, time);
    let nanoseconds = time % 1000;
    if nanoseconds == 0 {
        microseconds
    } else {
        append_number(out, microseconds, nanoseconds)
    }
}

// A time with its nanoseconds, and the length of a frame on the wire.
fn append_length(out: &mut [u8], used: usize, time: u64, wire_len: u32) -> usize
    requires { used + 34 ≤ length out.old }
    ensures end { result ≤ used + 34 }
    ensures text { take result out.new ≡ take used out.old ++ wire_text time wire_len }
{
    let microseconds = append_microseconds(out, used, time);
    let nanoseconds = append_number(out, microseconds, time % 1000);
    append_number(out, nanoseconds, u64::from(wire_len))
}

// A time up to its microseconds.
fn append_microseconds(out: &mut [u8], used: usize, time: u64) -> usize
    requires { used + 19 ≤ length out.old }
    ensures end { result ≤ used + 19 }
    ensures text { take result out.new ≡ take used out.old ++ (codes " "
        ++ decimal (time / 1000000000) ++ codes " " ++ decimal (time / 1000 % 1000000)) }
{
    let seconds = append_number(out, used, time / 1_000_000_000);
    append_number(out, seconds, time / 1000 % 1_000_000)
}

fn append_number(out: &mut [u8], used: usize, number: u64) -> usize
    requires { used + 1 + length (decimal number) ≤ length out.old }
    ensures end { result ≡ used + 1 + length (decimal number) }
    ensures text { take result out.new ≡ take used out.old ++ codes " " ++ decimal number }
{
    let space = append(out, used, b" ");
    append(out, space, Buffer::new().format(number).as_bytes())
}

/// Puts a text after the first `used` bytes, and returns how many are used then.
#[inline(always)]
pub(crate) fn append(out: &mut [u8], used: usize, text: &[u8]) -> usize
    requires { used + length text.now ≤ length out.old }
    ensures end { result ≡ used + length text.now }
    ensures text { take result out.new ≡ take used out.old ++ text.now }
{
    let end = used + text.len();
    out[used..end].copy_from_slice(text);
    end
}

/// The same of the hex digits of some bytes.
#[inline(always)]
pub(crate) fn append_hex(out: &mut [u8], used: usize, bytes: &[u8]) -> usize
    requires { used + 2 * length bytes.now ≤ length out.old }
    ensures end { result ≡ used + 2 * length bytes.now }
    ensures text { take result out.new ≡ take used out.old ++ encode_lower bytes.now }
{
    let end = used + 2 * bytes.len();
    digits::encode(bytes, &mut out[used..end]);
    end
}
