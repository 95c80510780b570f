//! Runs whose reads and writes move one byte, fail, or move none.
use crate::checks::{equal, equal_bytes};
use crate::formats::blocks::{TWO_SECTIONS, TWO_SECTIONS_LINES};
use crate::formats::classic::LITTLE_NANOSECONDS;
use crate::formats::text::capture_of;
use crate::packet_lines::{LINES, lines_to, reports_read};
use captures::{CaptureError, Position, RunError, TimeUnit, write_capture};
use fault_devices::{Fault, FaultReader, FaultWriter};
use std::io::ErrorKind;

// What a call ends by that fails.
const FAILS: Fault = Fault::Fails(ErrorKind::Other);

#[test]
fn one_byte_a_call(rt: HostRuntime) {
    for (file, lines) in [
        (LITTLE_NANOSECONDS.as_slice(), LINES.as_slice()),
        (TWO_SECTIONS, TWO_SECTIONS_LINES),
    ] {
        let mut reader = FaultReader::new(file, 1);
        let mut writer = FaultWriter::new(rt.alloc(), 1);
        let result = lines_to(rt.alloc(), &mut reader, &mut writer);
        equal(rt, result, Ok(()));
        equal(rt, writer.taken.as_slice(), lines);
    }
}

#[test]
fn reads_that_fail(rt: HostRuntime) {
    let failed = Err(RunError::Read);
    // The first line, and a byte of the second.
    let mut reader = FaultReader::failing(&LINES[..110], 1, 110, FAILS);
    let capture = capture_of(rt, TimeUnit::Microseconds, &mut reader, failed);
    equal(rt, capture.len(), 90);
    let mut reader = FaultReader::failing(capture.as_slice(), 1, 90, FAILS);
    reports_read(rt, &mut reader, failed, &LINES[..109]);
}

#[test]
fn writes_that_fail(rt: HostRuntime) {
    // Within the header, and within the second packet's head.
    for capacity in [0, 23, 100] {
        let mut writer = FaultWriter::failing(rt.alloc(), 1, capacity, FAILS);
        let result = write_capture(
            rt.alloc(),
            TimeUnit::Microseconds,
            &mut LINES.as_slice(),
            &mut writer,
        );
        equal(rt, result, Err(RunError::Write));
        equal(rt, writer.taken.len(), capacity);
    }
}

#[test]
fn writer_without_capacity(rt: HostRuntime) {
    let mut capacity = [0u8; 111];
    let mut reader = LITTLE_NANOSECONDS.as_slice();
    let result = lines_to(rt.alloc(), &mut reader, &mut capacity.as_mut_slice());
    equal(rt, result, Err(RunError::WriteZero));
    equal_bytes(rt, capacity.as_slice(), &LINES[..111]);
}

#[test]
fn texts_of_errors(rt: HostRuntime) {
    for (error, block, text) in [
        (
            CaptureError::LinkType(9),
            None,
            "packet 1, byte 48: link type 9 is not read",
        ),
        (
            CaptureError::BlockTooLong(262_148),
            Some(6),
            "packet 1, byte 48, block type 0x6 (enhanced packet): a block of 262148 bytes is too long",
        ),
        (
            CaptureError::BadBlock,
            Some(7),
            "packet 1, byte 48, block type 0x7: a block is not well made",
        ),
    ] {
        let position = Position {
            packet: 1,
            offset: 48,
            block,
        };
        let actual = format!(in rt.alloc(); "{}", RunError::Capture(error, position));
        let actual = actual.expect(&rt, "no memory");
        equal(rt, actual.as_str(), text);
    }
}
