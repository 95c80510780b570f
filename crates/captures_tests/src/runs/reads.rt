//! Runs of which one read fails or gives nothing, before and after the last byte of each header and
//! packet, and runs of few reads. Each other read gives a byte.
use crate::checks::equal;
use crate::formats::text::capture_of;
use crate::packet_lines::{refused, reports_read};
use captures::device::ReaderWriter;
use captures::{
    CaptureError, Extra, RunError, Skipped, TimeUnit, Unfit, run_over, write_capture_over,
};
use fault_devices::{Fault, FaultReader};
use std::alloc::Global;
use std::io::ErrorKind;

// A header of 24 bytes, and packets of one byte and of two.
const CAPTURE: &[u8; 59] = b"\
    \xd4\xc3\xb2\xa1\x02\x00\x04\x00\x00\x00\x00\x00\x00\x00\x00\x00\x00\x00\x04\x00\x01\x00\x00\x00\
    \x05\0\0\0\x06\0\0\0\x01\0\0\0\x01\0\0\0\x01\
    \x07\0\0\0\x08\0\0\0\x02\0\0\0\x02\0\0\0\x02\x03";

const LINES: &[u8; 24] = b"frame 0 01\nframe 0 0203\n";

// The same packets with their times, in a line of 15 bytes and one of 17.
const TIMED_LINES: &[u8; 32] = b"frame 0 01 5 6\nframe 0 0203 7 8\n";

const INTERRUPTED: Fault = Fault::Fails(ErrorKind::Interrupted);

const FAILS: Fault = Fault::Fails(ErrorKind::Other);

// The lines that a prefix of the capture gives.
fn lines_of(n: usize) -> &'static [u8] {
    match n {
        0..=40 => b"",
        41..=58 => b"frame 0 01\n",
        _ => LINES,
    }
}

// How a run of a prefix of the capture ends.
fn end_of_capture(n: usize) -> Result<(), RunError> {
    match n {
        0..=23 => refused(CaptureError::NotCapture, 1, 0, None),
        24 | 41 | 59 => Ok(()),
        25..=40 => refused(CaptureError::CutOff, 1, 24, None),
        _ => refused(CaptureError::CutOff, 2, 41, None),
    }
}

#[test]
fn each_read_of_a_run(rt: HostRuntime) {
    for fault in [INTERRUPTED, FAILS, Fault::MovesNone] {
        for before in [0usize, 23, 24, 40, 41, 58, 59] {
            let wanted = match fault {
                Fault::MovesNone => end_of_capture(before),
                _ => Err(RunError::Read),
            };
            let mut reader = FaultReader::failing(CAPTURE, 1, before, fault);
            reports_read(rt, &mut reader, wanted, lines_of(before));
            equal(rt, reader.calls, before.saturating_add(1));
        }
    }
}

// The prefix of the capture that a prefix of the lines gives, where more may come.
fn prefix_of(n: usize) -> &'static [u8] {
    match n {
        0..=14 => &CAPTURE[..24],
        15..=31 => &CAPTURE[..41],
        _ => CAPTURE,
    }
}

#[test]
fn each_read_of_lines(rt: HostRuntime) {
    for fault in [INTERRUPTED, FAILS] {
        for before in [0usize, 14, 15, 31, 32] {
            let mut reader = FaultReader::failing(TIMED_LINES, 1, before, fault);
            let wanted = Err(RunError::Read);
            let capture = capture_of(rt, TimeUnit::Microseconds, &mut reader, wanted);
            equal(rt, reader.calls, before.saturating_add(1));
            equal(rt, capture.as_slice(), prefix_of(before));
        }
    }
}

fn run_of(
    alloc: Global,
    reader: &mut FaultReader<'_>,
    writer: &mut Vec<u8>,
    reads: u8,
) -> Result<(), RunError> {
    let mut device = ReaderWriter { reader, writer };
    let mut skipped = Skipped::NONE;
    run_over(
        alloc,
        Extra::Nothing,
        Unfit::Refuse,
        &mut device,
        u64::from(reads),
        &mut skipped,
    )
}

// How a run ends that may make this many reads, where it needs that many, and how many it makes.
fn end_of_reads(reads: u8, needed: u8) -> (Result<(), RunError>, usize) {
    if reads < needed {
        (Err(RunError::TooManyReads), usize::from(reads))
    } else {
        (Ok(()), usize::from(needed))
    }
}

// The read that gives nothing counts: so a run of 59 bytes makes 60 reads.
#[test]
fn runs_of_few_reads(rt: HostRuntime) {
    for reads in [0u8, 1, 41, 59, 60, 61] {
        let mut reader = FaultReader::new(CAPTURE, 1);
        let mut lines = Vec::new(rt.alloc());
        let result = run_of(rt.alloc(), &mut reader, &mut lines, reads);
        equal(rt, (result, reader.calls), end_of_reads(reads, 60));
        equal(rt, lines.as_slice(), lines_of(usize::from(reads)));
    }
}

fn run_of_lines(
    alloc: Global,
    reader: &mut FaultReader<'_>,
    writer: &mut Vec<u8>,
    reads: u8,
) -> Result<(), RunError> {
    let mut device = ReaderWriter { reader, writer };
    write_capture_over(alloc, TimeUnit::Microseconds, &mut device, u64::from(reads))
}

#[test]
fn runs_of_few_reads_of_lines(rt: HostRuntime) {
    for reads in [0u8, 1, 15, 32, 33, 34] {
        let mut reader = FaultReader::new(TIMED_LINES, 1);
        let mut capture = Vec::new(rt.alloc());
        let result = run_of_lines(rt.alloc(), &mut reader, &mut capture, reads);
        equal(rt, (result, reader.calls), end_of_reads(reads, 33));
        equal(rt, capture.as_slice(), prefix_of(usize::from(reads)));
    }
}
