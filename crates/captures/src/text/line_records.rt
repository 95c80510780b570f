//! All whole lines at the start of some bytes, as the packet records of their frames.
ghost use Rattle.std.specs.Prelude.{◌≡◌, ◌≤◌, ◌+◌, ◌*◌, ◌++◌, length, take, position, nat_lt};
ghost use Rattle.std.specs.Prelude.{if◌then◌else◌, MatchOption, IfSome, None, Some};
ghost use Rattle.line_grammar.specs.TimedLines.{TimedFrame, timed_frame_of};
ghost use Rattle.captures.specs.CapturedFrames.{CapturedFrame, captured_frame_of, captured_with, fault_after, fault_of};
ghost use Rattle.captures.specs.CapturedFrames.{length_after, sixth_space, wire_len_given};
ghost use Rattle.captures.specs.declared.limits.TheConstants.{CAPTURED_LINE_LIMIT};
ghost use Rattle.captures.specs.declared.text.bad_line.LineFault.TheVariants.{NoFrame};
ghost use Rattle.captures.specs.Encoding.{record_of};
ghost use Rattle.captures.specs.Texts.{TakesLines, is_newline};

use crate::FRAME_LIMIT;
use crate::limits::CAPTURED_LINE_LIMIT;
use crate::link::wire_len::frame_wire_len;
use crate::pcap::writer::record_head;
use crate::text::bad_line::LineFault;
use crate::text::line::append;
use crate::text::line_words::{number, sixth_space, third_space};
use crate::time::time_unit::TimeUnit;
use line_grammar::read_timed_line;

/// What is known after the lines at the start of some bytes.
#[derive(Drop)]
pub(crate) struct TakenLines<'a> {
    /// How many lines give frames, before one that doesn't.
    pub count: usize,
    /// What follows them.
    pub rest: &'a [u8],
    /// How many bytes the records of their frames have.
    pub used: usize,
    /// Why the line that follows gives no frame, if one follows that gives none.
    pub fault: Option<LineFault>,
}

/// Takes all whole lines of some bytes up to a bad one, and puts the records of their frames at the
/// start of `out`.
pub(crate) fn take_lines<'a>(time_unit: TimeUnit, bytes: &'a [u8], out: &mut [u8]) -> TakenLines<'a>
    requires { 2 * length bytes.now ≤ length out.old }
    ensures fits { result.used ≤ length out.new }
    ensures count { result.count ≤ length bytes.now }
    ensures takes { TakesLines time_unit bytes.now result.count result.rest.now
        (take result.used out.new) result.fault }
{
    let mut count = 0;
    let mut rest = bytes;
    let mut used = 0;
    'lines: while let Some(end) = newline_in(rest) {
        let (line, later) = rest.split_at(end);
        let Some(used_then) = append_record(time_unit, out, used, line) else {
            return TakenLines {
                count,
                rest,
                used,
                fault: Some(fault_in(time_unit, out, used, line)),
            };
        };
        used = used_then;
        count += 1;
        rest = &later[1..];
    }
    TakenLines {
        count,
        rest,
        used,
        fault: fault_of_length(rest.len()),
    }
}

// Why a line gives no frame that has so many bytes before its end is known.
fn fault_of_length(len: usize) -> Option<LineFault>
    ensures { result ≡ (if nat_lt CAPTURED_LINE_LIMIT len then Some NoFrame else None) }
{
    if len > CAPTURED_LINE_LIMIT {
        Some(LineFault::NoFrame)
    } else {
        None
    }
}

fn newline_in(bytes: &[u8]) -> Option<usize>
    ensures { result ≡ position is_newline bytes.now }
{
    bytes.iter().position(|byte| *byte == b'\n')
}

/// Puts the record of a line's frame after the first `used` bytes, and returns how many are used
/// then: none where the line gives no frame.
fn append_record(time_unit: TimeUnit, out: &mut [u8], used: usize, line: &[u8]) -> Option<usize>
    requires { used + 2 * length line.now ≤ length out.old }
    ensures record { MatchOption result (captured_frame_of line.now ≡ None)
        (λ end. (given : CapturedFrame) × (captured_frame_of line.now ≡ Some given)
        × (take end out.new ≡ take used out.old ++ record_of time_unit given)) }
    ensures end { IfSome result (λ end. end ≤ used + 2 * length line.now) }
    ensures same { take used out.new ≡ take used out.old }
{
    match append_timed(time_unit, out, used, line, None) {
        Some(end) => Some(end),
        None => append_with_length(time_unit, out, used, line),
    }
}

// The same of a line that has a length on the wire.
fn append_with_length(
    time_unit: TimeUnit,
    out: &mut [u8],
    used: usize,
    line: &[u8],
) -> Option<usize>
    requires { used + 2 * length line.now ≤ length out.old }
    ensures record { MatchOption result (length_after (sixth_space line.now) line.now ≡ None)
        (λ end. (given : CapturedFrame) × (length_after (sixth_space line.now) line.now ≡ Some given)
        × (take end out.new ≡ take used out.old ++ record_of time_unit given)) }
    ensures end { IfSome result (λ end. end ≤ used + 2 * length line.now) }
    ensures same { take used out.new ≡ take used out.old }
{
    let space = sixth_space(line)?;
    let wire_len = number(&line[space + 1..])?;
    append_timed(time_unit, out, used, &line[..space], Some(wire_len))
}

// The same of a line that has none, with that length of its frame on the wire, or the one that the
// frame has.
fn append_timed(
    time_unit: TimeUnit,
    out: &mut [u8],
    used: usize,
    line: &[u8],
    wire_len: Option<u32>,
) -> Option<usize>
    requires { used + 2 * length line.now ≤ length out.old }
    ensures record { MatchOption result (timed_frame_of line.now ≡ None)
        (λ end. (timed : TimedFrame) × (timed_frame_of line.now ≡ Some timed)
        × (take end out.new ≡ take used out.old ++ record_of time_unit (captured_with wire_len timed))) }
    ensures end { IfSome result (λ end. end ≤ used + 2 * length line.now) }
    ensures same { take used out.new ≡ take used out.old }
{
    let line = read_timed_line(line)?;
    let len = line.digits.len() / 2;
    if len == 0 || len > FRAME_LIMIT {
        return None;
    }
    let parts = line.time.nanoseconds / time_unit.nanoseconds();
    let head = record_head(
        line.time.seconds,
        parts,
        len as u32,
        wire_len_given(wire_len, len),
    );
    let start = append(out, used, &head);
    let end = start + len;
    if digits::decode(line.digits, &mut out[start..end]) {
        Some(end)
    } else {
        None
    }
}

// How many bytes a frame of so many had on the wire: as many as are given, but no fewer.
fn wire_len_given(wire_len: Option<u32>, len: usize) -> u32
    requires { len ≤ FRAME_LIMIT }
    ensures { result ≡ wire_len_given wire_len len }
{
    match wire_len {
        Some(wire_len) => frame_wire_len(len, len, wire_len),
        None => len as u32,
    }
}

// Why a line gives no frame. What comes after the first `used` bytes is lost.
fn fault_in(time_unit: TimeUnit, out: &mut [u8], used: usize, line: &[u8]) -> LineFault
    requires { used + 2 * length line.now ≤ length out.old }
    ensures fault { result ≡ fault_of line.now }
    ensures same { take used out.new ≡ take used out.old }
{
    let Some(space) = third_space(line) else {
        return LineFault::NoFrame;
    };
    match append_timed(time_unit, out, used, &line[..space], None) {
        Some(_) => fault_after(&line[space + 1..]),
        None => LineFault::NoFrame,
    }
}

// Why a frame with this after it isn't given.
fn fault_after(rest: &[u8]) -> LineFault
    ensures { result ≡ fault_after rest.now }
{
    match number(rest) {
        Some(_) => LineFault::NoFraction,
        None => LineFault::OtherAfterFrame,
    }
}
