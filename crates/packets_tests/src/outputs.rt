//! Outputs that can't be written or flushed or that are closed, statuses, and the text of an error.

use crate::checks::{equal, fail, is_text};
use crate::outcomes::every_packet;
use capture_programs::packets_arguments::PROGRAM;
use capture_programs::{ClosableWriter, Look, Subject};
use captures::{CaptureError, Position, RunError, Skipped};
use fault_devices::{Fault, FaultWriter, UnflushableWriter};
use packets::program::{exit_code, goes_on, write_flushed, write_summary};
use packets::{JsonLines, Omitted, Summary, SummaryText};
use std::alloc::Global;
use std::hash::{BuildHasherDefault, FoldHasher};
use std::io::{ErrorKind, Write};
use std::process::{Abort, ExitCode};

// A file header of low byte first, in microseconds, of Ethernet frames, with snap length 262,144.
const HEADER: &[u8; 24] = b"\
    \xd4\xc3\xb2\xa1\x02\x00\x04\x00\x00\x00\x00\x00\x00\x00\x00\x00\x00\x00\x04\x00\x01\x00\x00\x00";

const FIRST: Position = Position {
    packet: 1,
    offset: 0,
    block: None,
};

fn is_unflushed(rt: impl Abort + Copy, alloc: Global, input: &[u8], wanted: RunError) {
    let written = write_flushed(
        alloc,
        BuildHasherDefault::<FoldHasher>::new(),
        &every_packet(alloc),
        &JsonLines::new(alloc, false),
        input,
        &mut UnflushableWriter::new(alloc, 0),
        &mut Omitted::NOTHING,
    );
    equal(rt, written, Err(wanted));
}

// A capture of no packet writes nothing, and is flushed.
#[test]
fn a_flush_that_fails_is_a_failed_write(rt: HostRuntime) {
    is_unflushed(rt, rt.alloc(), HEADER, RunError::Write);
    let refusal = RunError::Capture(CaptureError::NotCapture, FIRST);
    is_unflushed(rt, rt.alloc(), b"text", refusal);
}

// Writes the summary of no packet.
fn summarized<W: Write>(alloc: Global, skipped: Skipped, writer: &mut W) -> Result<(), RunError> {
    let text = SummaryText {
        summary: &Summary::new(alloc),
        open: 0,
        dropped: 0,
        skipped,
    };
    write_summary(alloc, &text, writer)
}

// The text has 11 bytes.
#[test]
fn reports_that_cannot_be_written(rt: HostRuntime) {
    let mut full = UnflushableWriter::new(rt.alloc(), 10);
    let written = summarized(rt.alloc(), Skipped::NONE, &mut full);
    equal(rt, written, Err(RunError::WriteZero));
    let mut roomy = UnflushableWriter::new(rt.alloc(), 11);
    let written = summarized(rt.alloc(), Skipped::NONE, &mut roomy);
    equal(rt, written, Err(RunError::Write));
}

const SKIPPED: Skipped = Skipped {
    of_other_links: 1,
    too_long: 2,
    without_frame: 3,
};

const REPORT: &str = "no packets\n\npassed over: 1 of other links, 2 too long, 3 without a frame\n";

#[test]
fn an_empty_report(rt: HostRuntime) {
    let mut text = Vec::new(rt.alloc());
    let written = summarized(rt.alloc(), SKIPPED, &mut text);
    equal(rt, written, Ok(()));
    is_text(rt, text.as_slice(), REPORT);
}

#[rattlefmt::skip]
const STATUSES: &[(RunError, u8)] = &[
    (RunError::Capture(CaptureError::CutOff, Position { packet: 3, offset: 112, block: None, }), 3),
    (RunError::Read, 4),
    (RunError::Write, 4),
    (RunError::WriteZero, 4),
    (RunError::Memory, 5),
    (RunError::TooManyReads, 5),
];

const SUBJECT: Subject<'static> = Subject {
    program: PROGRAM,
    input: "x.pcap",
};

#[test]
fn errors_have_a_status(rt: HostRuntime) {
    for (error, status) in STATUSES.iter() {
        let code = exit_code(&rt, SUBJECT, "show", Err(*error), false, Look::Other);
        equal(rt, code, ExitCode::from(*status));
    }
    let code = exit_code(&rt, SUBJECT, "show", Ok(()), false, Look::Other);
    equal(rt, code, ExitCode::SUCCESS);
}

// A run ends by a failed write of either kind; only the status of a closed pipe is 0.
#[test]
fn reports_to_a_closed_pipe(rt: HostRuntime) {
    for (kind, code) in [
        (ErrorKind::BrokenPipe, ExitCode::SUCCESS),
        (ErrorKind::StorageFull, ExitCode::from(4)),
    ] {
        let writer = FaultWriter::failing(rt.alloc(), 5, 1, Fault::Fails(kind));
        let mut output = ClosableWriter::new(writer);
        let written = summarized(rt.alloc(), Skipped::NONE, &mut output);
        equal(rt, written, Err(RunError::Write));
        let closed = output.is_closed();
        equal(
            rt,
            exit_code(&rt, SUBJECT, "show", written, closed, Look::Other),
            code,
        );
    }
}

// What a compressed file is read by.
#[test]
#[should_panic(expected = "no capture file: the input is compressed, `zstdcat x.pcap | packets json` reads it")]
fn compressed_inputs_are_named(rt: HostRuntime) {
    let error = RunError::Capture(CaptureError::NotCapture, FIRST);
    let _ = exit_code(&rt, SUBJECT, "json", Err(error), false, Look::Zstd);
    fail(rt, "reported");
}

#[test]
fn what_two_runs_leave_out(rt: HostRuntime) {
    let left = |of_other_links, too_long, without_frame, dropped| Omitted {
        skipped: Skipped {
            of_other_links,
            too_long,
            without_frame,
        },
        dropped,
    };
    let both = left(1, 2, u64::MAX, 3).with(left(10, 20, 30, 40));
    equal(rt, both, left(11, 22, u64::MAX, 43));
}

// What follows an input that is refused is read.
#[test]
fn inputs_that_are_followed(rt: HostRuntime) {
    for (error, follows) in [
        (RunError::Capture(CaptureError::CutOff, FIRST), true),
        (RunError::Read, true),
        (RunError::TooManyReads, true),
        (RunError::Write, false),
        (RunError::WriteZero, false),
        (RunError::Memory, false),
    ] {
        equal(rt, goes_on(Err(error), false), follows);
        equal(rt, goes_on(Err(error), true), false);
    }
    equal(
        rt,
        (goes_on(Ok(()), false), goes_on(Ok(()), true)),
        (true, false),
    );
}

#[test]
#[should_panic(expected = "packets: x.pcap: no capture file: the input is text")]
fn errors_are_reported(rt: HostRuntime) {
    let error = RunError::Capture(CaptureError::NotCapture, FIRST);
    let _ = exit_code(&rt, SUBJECT, "show", Err(error), false, Look::Text);
    fail(rt, "reported");
}
