//! Runs that fail before the end, reports of how far they are, and when lines are written.

ghost use Rattle.std.specs.Prelude.{[]};

use crate::captured::{captured, captured_prefix};
use crate::checks::{equal, fail, holds};
use crate::classic_captures::capture_of;
use crate::frames::FRAMES;
use crate::outcomes::{LINES, are_counted, are_written, end_of_lines, every_packet};
use captures::{RunError, Skipped, Unfit};
use fault_devices::{Fault, FaultReader, FaultWriter};
use hex::FromHexError;
use packets::{Dissection, Ending, LineWriter, Progress, Rules, Summary, summarize};
use std::alloc::{AllocError, Global};
use std::cell::Cell;
use std::hash::BuildHasherDefault;
use std::io::{self, ErrorKind, Read, Write};
use std::process::Abort;

// The file header, and the first record: its header and a frame of 54 bytes.
const FIRST_END: usize = 24 + 16 + 54;

const READ_FAILED: Ending = Ending {
    open: 0,
    dropped: 0,
    skipped: Skipped::NONE,
    result: Err(RunError::Read),
};

// Each read gives a byte. The one after the first packet fails.
fn is_failed_by_read(rt: impl Abort + Copy, alloc: Global, capture: &[u8], kind: ErrorKind) {
    let rules = every_packet(alloc);
    let fails = Fault::Fails(kind);
    let reader = FaultReader::failing(capture, 1, FIRST_END, fails);
    let wanted = Err(RunError::Read);
    are_written(rt, alloc, &rules, &LINES, reader, wanted, b"    1   0.00\n");
    let reader = FaultReader::failing(capture, 1, FIRST_END, fails);
    are_counted(rt, alloc, &rules, reader, READ_FAILED, 1);
}

#[test]
fn readers_that_fail(rt: HostRuntime) {
    let capture = captured(rt, rt.alloc(), 1, FRAMES);
    is_failed_by_read(rt, rt.alloc(), capture.as_slice(), ErrorKind::Other);
    is_failed_by_read(rt, rt.alloc(), capture.as_slice(), ErrorKind::Interrupted);
}

// Of a link that isn't read: the first packet is passed over by then.
#[test]
fn packets_are_passed_over_before_a_failed_read(rt: HostRuntime) {
    let capture = captured(rt, rt.alloc(), 9, FRAMES);
    let rules = Rules {
        unfit: Unfit::Skip,
        ..every_packet(rt.alloc())
    };
    let fails = Fault::Fails(ErrorKind::Other);
    let reader = FaultReader::failing(capture.as_slice(), 1, FIRST_END, fails);
    let mut writer = FaultWriter::new(rt.alloc(), usize::MAX);
    let ended = end_of_lines(rt.alloc(), &rules, &LINES, reader, &mut writer);
    let skipped = Skipped {
        of_other_links: 1,
        ..Skipped::NONE
    };
    equal(rt, ended, (Err(RunError::Read), skipped));
}

const TAKEN: &[u8] = b"    1   0.00\n    2  ";

// The first write takes 20 bytes, and the next one fails or takes none.
fn is_failed_by_write(
    rt: impl Abort + Copy,
    alloc: Global,
    capture: &[u8],
    fault: Fault,
    wanted: RunError,
) {
    let rules = every_packet(alloc);
    let mut writer = FaultWriter::failing(alloc, 20, 1, fault);
    let (result, _) = end_of_lines(alloc, &rules, &LINES, capture, &mut writer);
    equal(rt, (result, writer.calls), (Err(wanted), 2));
    equal(rt, writer.taken.as_slice(), TAKEN);
}

const FAILED_WRITES: &[(Fault, RunError)] = &[
    (Fault::Fails(ErrorKind::Other), RunError::Write),
    (Fault::Fails(ErrorKind::Interrupted), RunError::Write),
    (Fault::MovesNone, RunError::WriteZero),
];

#[test]
fn what_failing_writers_took(rt: HostRuntime) {
    let capture = captured(rt, rt.alloc(), 1, FRAMES);
    for (fault, wanted) in FAILED_WRITES.iter() {
        is_failed_by_write(rt, rt.alloc(), capture.as_slice(), *fault, *wanted);
    }
}

// Describes each packet in so many bytes, and runs out of memory at one of them.
#[derive(Drop)]
struct LongLines {
    len: usize,
    out_of_memory_at: u64,
}

impl LineWriter for LongLines {
    // Its texts are compared here.
    ghost describes = { λ lines packet text. Unit {0} };

    ghost details = { λ lines packet. [] };

    fn write_line(&self, packet: &Dissection<'_>, out: &mut Vec<u8>) -> Result<(), AllocError> {
        if packet.number == self.out_of_memory_at {
            return Err(AllocError);
        }
        out.resize(self.len, b'x')
    }

    fn write_details(
        &self,
        _packet: &Dissection<'_>,
        _out: &mut Vec<u8>,
    ) -> Result<(), AllocError> {
        Ok(())
    }
}

// What comes before is written.
#[test]
fn no_memory_for_a_line(rt: HostRuntime) {
    let capture = captured(rt, rt.alloc(), 1, FRAMES);
    are_written(
        rt,
        rt.alloc(),
        &every_packet(rt.alloc()),
        &LongLines {
            len: 2,
            out_of_memory_at: 4,
        },
        capture.as_slice(),
        Err(RunError::Memory),
        b"xx\nxx\nxx\n",
    );
}

fn is_long_line(line: &[u8]) -> bool {
    match line.split_last() {
        Some((end, text)) => {
            *end == b'\n' && text.len() == 40_000 && text.iter().all(|byte| *byte == b'x')
        }
        None => false,
    }
}

// Lines wait for a read that isn't needed, up to 64 KB: here two lines each time, and then the
// rest.
#[test]
fn long_output_is_written_in_chunks(rt: HostRuntime) {
    let capture = captured_prefix(rt, rt.alloc(), 5);
    let rules = every_packet(rt.alloc());
    let lines = LongLines {
        len: 40_000,
        out_of_memory_at: 0,
    };
    let mut writer = FaultWriter::new(rt.alloc(), usize::MAX);
    let (result, _) = end_of_lines(rt.alloc(), &rules, &lines, capture.as_slice(), &mut writer);
    let written = (result, writer.calls, writer.taken.len());
    equal(rt, written, (Ok(()), 3, 5 * 40_001));
    holds(rt, writer.taken.as_slice().chunks(40_001).all(is_long_line));
}

// A text of three lines.
#[derive(Drop)]
struct ThreeLines;

impl LineWriter for ThreeLines {
    // Its text is compared here.
    ghost describes = { λ lines packet text. Unit {0} };

    ghost details = { λ lines packet. [] };

    fn write_line(&self, _packet: &Dissection<'_>, out: &mut Vec<u8>) -> Result<(), AllocError> {
        out.extend_from_slice(b"\none\ntwo\r\n\n")
    }

    fn write_details(
        &self,
        _packet: &Dissection<'_>,
        _out: &mut Vec<u8>,
    ) -> Result<(), AllocError> {
        Ok(())
    }
}

// Newlines other than that at the end of the line are left out.
#[test]
fn a_packet_has_one_line(rt: HostRuntime) {
    let capture = captured_prefix(rt, rt.alloc(), 2);
    are_written(
        rt,
        rt.alloc(),
        &every_packet(rt.alloc()),
        &ThreeLines,
        capture.as_slice(),
        Ok(()),
        b"onetwo\r\nonetwo\r\n",
    );
}

// Gives the file header, and then a record a call. Each call checks that the lines of all records
// that were given are written, or notes that they are late.
#[derive(Drop)]
struct WatchingReader<'a> {
    rest: &'a [u8],
    chunk_len: usize,
    lines: usize,
    written: &'a Cell<usize>,
    late: &'a Cell<bool>,
}

impl Read for WatchingReader<'_> {
    fn read(&mut self, buf: &mut [u8]) -> io::Result<usize> {
        if self.written.get() != self.lines {
            self.late.set(true);
        }
        let count = self.chunk_len.min(buf.len()).min(self.rest.len());
        let (given, rest) = self.rest.split_at(count);
        buf[..count].copy_from_slice(given);
        if count == RECORD {
            self.lines = self.lines.saturating_add(LINE);
        }
        self.rest = rest;
        self.chunk_len = RECORD;
        Ok(count)
    }
}

// Counts what it takes.
#[derive(Drop)]
struct WatchedWriter<'a>(&'a Cell<usize>);

impl Write for WatchedWriter<'_> {
    fn write(&mut self, buf: &[u8]) -> io::Result<usize> {
        self.0.set(self.0.get().saturating_add(buf.len()));
        Ok(buf.len())
    }

    fn flush(&mut self) -> io::Result<()> {
        Ok(())
    }
}

// A record of a frame of 42 bytes, and its line.
const RECORD: usize = 16 + 42;

const LINE: usize = 13;

// The third of the frames.
const ARP: &str =
    "ffffffffffff020000000001080600010800060400010200000000010a0000010000000000000a000002";

#[test]
fn lines_are_written_before_the_next_read(rt: HostRuntime) {
    let capture = captured(rt, rt.alloc(), 1, &[ARP; 4]);
    let rules = every_packet(rt.alloc());
    let (written, late) = (Cell::new(0usize), Cell::new(false));
    let reader = WatchingReader {
        rest: capture.as_slice(),
        chunk_len: 24,
        lines: 0,
        written: &written,
        late: &late,
    };
    let mut writer = WatchedWriter(&written);
    let (result, _) = end_of_lines(rt.alloc(), &rules, &LINES, reader, &mut writer);
    let ended = (result, written.get(), late.get());
    equal(rt, ended, (Ok(()), 4 * LINE, false));
}

// Keeps the last report, and counts them.
#[derive(Drop)]
struct Steps {
    count: usize,
    last: u64,
}

impl Progress for Steps {
    fn notify(&mut self, passed: u64) {
        self.count = self.count.saturating_add(1);
        self.last = passed;
    }
}

// A packet of 90,000 bytes, of an ether type that isn't looked into.
fn long_record(alloc: Global) -> Result<Vec<u8>, FromHexError> {
    let mut record = hex::decode(
        alloc,
        "6553f1000000000000015f9000015f9002000000000202000000000188b5",
    )?;
    record.resize(16 + 90_000, 0)?;
    Ok(record)
}

// 100 of them.
fn long_capture(alloc: Global) -> Result<Vec<u8>, FromHexError> {
    let mut capture = capture_of(alloc, 1, &[])?;
    let record = long_record(alloc)?;
    for _ in 0..100 {
        capture.extend_from_slice(record.as_slice())?;
    }
    Ok(capture)
}

// Each 4 MiB are reported, before the read after them.
#[test]
fn progress_is_reported(rt: HostRuntime) {
    let Ok(capture) = long_capture(rt.alloc()) else {
        fail(rt, "no memory");
    };
    let rules = every_packet(rt.alloc());
    let mut summary = Summary::new(rt.alloc());
    let mut steps = Steps { count: 0, last: 0 };
    let reader = capture.as_slice();
    let state = BuildHasherDefault::new();
    let ending = summarize(rt.alloc(), state, &rules, &mut summary, reader, &mut steps);
    let counted = (ending.result, summary.all.packets, summary.all.bytes);
    equal(rt, counted, (Ok(()), 100, 9_000_000));
    // The second step came within a read of 64 KB and a packet of its end.
    let is_near = steps.last >= 1 << 23 && steps.last < (1 << 23) + 262_144;
    holds(rt, steps.count == 2 && is_near);
}
