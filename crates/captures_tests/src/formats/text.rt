//! Captures that are written of lines.
//! Calls have no contracts: tests alone make them, and are run.
use crate::checks::{equal, joined, repeated};
use crate::packet_lines::{LINES, reports};
use captures::{BadLine, LineFault, RunError, TimeUnit, write_capture};
use fault_devices::{Fault, FaultReader};
use std::io::{ErrorKind, Read};
use std::process::Abort;

// The file header, by the draft: low byte first, microseconds, version 2.4, snap length 262,144,
// Ethernet.
const HEADER: &[u8; 24] = b"\
    \xd4\xc3\xb2\xa1\x02\x00\x04\x00\x00\x00\x00\x00\x00\x00\x00\x00\x00\x00\x04\x00\x01\x00\x00\x00";

/// The capture that a run makes of what is read, which ends so.
pub fn capture_of<R: Read>(
    rt: impl Abort + AllocGlobal + Copy,
    time_unit: TimeUnit,
    reader: &mut R,
    wanted: Result<(), RunError>,
) -> Vec<u8> {
    let mut capture = Vec::new(rt.alloc());
    let result = write_capture(rt.alloc(), time_unit, reader, &mut capture);
    equal(rt, result, wanted);
    capture
}

// Compares what follows the file header too.
fn writes<R: Read>(
    rt: impl Abort + AllocGlobal + Copy,
    reader: &mut R,
    wanted: Result<(), RunError>,
    packets: &[u8],
) {
    let capture = capture_of(rt, TimeUnit::Microseconds, reader, wanted);
    equal(rt, capture.as_slice().strip_prefix(HEADER), Some(packets));
}

#[test]
fn lines_come_back(rt: HostRuntime) {
    let capture = capture_of(rt, TimeUnit::Microseconds, &mut LINES.as_slice(), Ok(()));
    let capture = capture.as_slice();
    let record = b"\0\0\0\0\0\0\0\0\x32\0\0\0\x32\0\0\0".as_slice();
    equal(rt, capture.get(..24), Some(HEADER.as_slice()));
    equal(rt, capture.get(24..40), Some(record));
    reports(rt, capture, Ok(()), LINES);
}

/// A run that ends at a first line without a frame.
pub const BAD: Result<(), RunError> = Err(RunError::BadLine(BadLine {
    number: 1,
    fault: LineFault::NoFrame,
}));

const SECOND_BAD: Result<(), RunError> = Err(RunError::BadLine(BadLine {
    number: 2,
    fault: LineFault::NoFrame,
}));

// After the seconds of a time its microseconds are missing.
const NO_FRACTION: Result<(), RunError> = Err(RunError::BadLine(BadLine {
    number: 1,
    fault: LineFault::NoFraction,
}));

/// After the frame of a first line comes something else than a time, or a time and a length.
pub const OTHER: Result<(), RunError> = Err(RunError::BadLine(BadLine {
    number: 1,
    fault: LineFault::OtherAfterFrame,
}));

// Each with how its run ends, and what follows the file header.
#[rattlefmt::skip]
const TEXTS: &[(&[u8], Result<(), RunError>, &[u8])] = &[
    (b"", Ok(()), b""),
    // digits of either case, and a last line that nothing ends
    (b"frame 0 0aFf", Ok(()), b"\0\0\0\0\0\0\0\0\x02\0\0\0\x02\0\0\0\x0a\xff"),
    // a time
    (b"frame 4294967295 01 1700000000 250000\n", Ok(()), b"\x00\xf1\x53\x65\x90\xd0\x03\x00\x01\0\0\0\x01\0\0\0\x01"),
    (b"frame 0 01 4294967295 999999\n", Ok(()), b"\xff\xff\xff\xff\x3f\x42\x0f\x00\x01\0\0\0\x01\0\0\0\x01"),
    // a million microseconds, a second beyond 32 bits, no time, a thousand nanoseconds
    (b"frame 0 01 0 1000000\n", OTHER, b""),
    (b"frame 0 01 4294967296 0\n", OTHER, b""),
    (b"frame 0 01 \n", OTHER, b""),
    (b"frame 0 01 5 6 1000\n", OTHER, b""),
    // the seconds alone, or what are none; after no frame they are not what is missing
    (b"frame 0 01 5\n", NO_FRACTION, b""),
    (b"frame 0 00 1700000000\n", NO_FRACTION, b""),
    (b"frame 0 01 4294967295", NO_FRACTION, b""),
    (b"frame 0 01 4294967296\n", OTHER, b""),
    (b"frame 0 01 1700000000.25\n", OTHER, b""),
    (b"frame 0 01 5 \n", OTHER, b""),
    (b"frame 0 01 five\n", OTHER, b""),
    (b"frame 0 01 5 6\r\n", OTHER, b""),
    (b"frame 0 0 5\n", BAD, b""),
    (b"frame 0  5\n", BAD, b""),
    // no channel, one beyond 32 bits, one of 11 digits
    (b"frame  01\n", BAD, b""),
    (b"frame 4294967296 01\n", BAD, b""),
    (b"frame 00000000000 01\n", BAD, b""),
    (b"frame +1 01\n", BAD, b""),
    // no byte, half a byte, no digit
    (b"frame 0 \n", BAD, b""),
    (b"frame 0 012\n", BAD, b""),
    (b"frame 0 0g\n", BAD, b""),
    (b"frame 0\n", BAD, b""),
    (b"\n", BAD, b""),
    (b"Frame 0 01\n", BAD, b""),
    (b"frame 0 01\r\n", BAD, b""),
    // the packets before a bad line are written
    (b"frame 0 01\nforget\nframe 0 02\n", SECOND_BAD, b"\0\0\0\0\0\0\0\0\x01\0\0\0\x01\0\0\0\x01"),
    (b"frame 0 01\nframe 0 0", SECOND_BAD, b"\0\0\0\0\0\0\0\0\x01\0\0\0\x01\0\0\0\x01"),
];

#[test]
fn each_line(rt: HostRuntime) {
    for (text, wanted, packets) in TEXTS.iter() {
        writes(rt, &mut &**text, *wanted, *packets);
    }
}

// The lines end at 17 and 28. What is left of a line at the end is one too, where it gives a frame:
// after each pair of digits, or a whole time.
const TWO_LINES: &[u8; 28] = b"frame 7 0aff 5 6\nframe 0 01\n";

// The result for a prefix of the two lines, and what follows the file header.
fn prefix_of_two(n: usize) -> (Result<(), RunError>, &'static [u8]) {
    match n {
        0 => (Ok(()), b""),
        10 => (Ok(()), b"\0\0\0\0\0\0\0\0\x01\0\0\0\x01\0\0\0\x0a"),
        12 => (Ok(()), b"\0\0\0\0\0\0\0\0\x02\0\0\0\x02\0\0\0\x0a\xff"),
        14 => (NO_FRACTION, b""),
        13 | 15 => (OTHER, b""),
        1..=11 => (BAD, b""),
        16 | 17 => (Ok(()), b"\x05\0\0\0\x06\0\0\0\x02\0\0\0\x02\0\0\0\x0a\xff"),
        18..=26 => (
            SECOND_BAD,
            b"\x05\0\0\0\x06\0\0\0\x02\0\0\0\x02\0\0\0\x0a\xff",
        ),
        _ => (
            Ok(()),
            b"\x05\0\0\0\x06\0\0\0\x02\0\0\0\x02\0\0\0\x0a\xff\
            \0\0\0\0\0\0\0\0\x01\0\0\0\x01\0\0\0\x01",
        ),
    }
}

#[test]
fn each_prefix_of_a_text(rt: HostRuntime) {
    for n in 0..=28 {
        let (wanted, packets) = prefix_of_two(n);
        let text = &TWO_LINES[..n];
        writes(rt, &mut &*text, wanted, packets);
        writes(rt, &mut FaultReader::new(text, 1), wanted, packets);
    }
}

#[test]
fn longest_frame(rt: HostRuntime) {
    for (len, wanted, size) in [
        (99_991, Ok(()), 24 + 16 + 99_991),
        (99_992, BAD, 24),
        (200_000, BAD, 24),
    ] {
        // A frame of so many bytes, all of them 0.
        let line = joined(
            rt,
            &[
                b"frame 0000000000 ",
                repeated(rt, b"00", len).as_slice(),
                b" 0000000000 0000000000 0000000000 0000000000",
            ],
        );
        let capture = capture_of(rt, TimeUnit::Microseconds, &mut line.as_slice(), wanted);
        equal(rt, capture.len(), size);
    }
}

// The longest line that gives a frame has 200,043 bytes. After one more nothing is read.
#[test]
fn line_without_end(rt: HostRuntime) {
    for (len, wanted) in [(200_043, Err(RunError::Read)), (200_044, BAD)] {
        let text = repeated(rt, b"0", len);
        let fault = Fault::Fails(ErrorKind::Other);
        let mut reader = text
            .as_slice()
            .chain(FaultReader::failing(b"", 1, 0, fault));
        let capture = capture_of(rt, TimeUnit::Microseconds, &mut reader, wanted);
        equal(rt, capture.len(), 24);
    }
}
