//! Runs over readers and writers that give and take little, and fail, some of them while a
//! reassembly waits.
//! Calls have no contracts: tests alone make them, and are run.
use crate::checks::{ended_lines, equal, equal_bytes, holds, print_tally, repeated};
use crate::runs::texts::{BAD_ANSWERS, BAD_LINES, INCOMPLETE, INCOMPLETE_ANSWERS};
use fault_devices::{Fault, FaultReader, FaultWriter, Tally};
use netlines::{RunError, run};
use std::io::ErrorKind;
use std::process::Abort;
use std::test::*;

const INTERRUPTED: Fault = Fault::Fails(ErrorKind::Interrupted);

const FAILS: Fault = Fault::Fails(ErrorKind::Other);

// A text, its answers, a fault of a read, and how the run ends then.
type Read = (&'static [u8], &'static [u8], Fault, Result<(), RunError>);

const FAILING_READS: &[Read] = &[
    (BAD_LINES, BAD_ANSWERS, INTERRUPTED, Err(RunError::Read)),
    (BAD_LINES, BAD_ANSWERS, FAILS, Err(RunError::Read)),
    (INCOMPLETE, INCOMPLETE_ANSWERS, FAILS, Err(RunError::Read)),
];

const ENDING_READS: &[Read] = &[(BAD_LINES, BAD_ANSWERS, Fault::MovesNone, Ok(()))];

// How many lines at the start of a text have an answer: those that are ended, and one that the end
// of the input ends.
fn answered_lines(prefix: &[u8], ends: bool) -> usize {
    let started = match prefix.last() {
        Some(byte) => ends && *byte != b'\n',
        None => false,
    };
    ended_lines(prefix).saturating_add(started as usize)
}

// Whether these are the first so many answers.
fn are_first(actual: &[u8], answers: &[u8], count: usize) -> bool {
    answers.starts_with(actual)
        && ended_lines(actual) == count
        && (actual.is_empty() || actual.ends_with(b"\n"))
}

// This read of a byte is the fault, and no other follows. What was read by then is answered.
fn read_is_last(rt: impl Abort + AllocGlobal + Copy, row: &Read, at: usize) {
    let (text, answers, fault, end) = *row;
    let mut reader = FaultReader::failing(text, 1, at, fault);
    let mut output = Vec::new(rt.alloc());
    let result = run(rt.alloc(), &mut reader, &mut output);
    equal(
        rt,
        (at, result, reader.calls),
        (at, end, at.saturating_add(1)),
    );
    let lines = answered_lines(text.get(..at).unwrap_or(&[]), end.is_ok());
    holds(rt, are_first(output.as_slice(), answers, lines));
}

fn each_read_is_last(rt: impl Abort + AllocGlobal + Copy, tally: &mut Tally, row: &Read) {
    let calls = row.0.len().saturating_add(1);
    tally.count(calls);
    for at in 0..calls {
        read_is_last(rt, row, at);
        tally.tries();
    }
}

#[test]
fn stops_at_each_read_that_fails(rt: HostRuntime) -> Result<(), Fail> {
    let mut tally = Tally::new("run", "a read fails or is interrupted");
    for row in FAILING_READS.iter() {
        each_read_is_last(rt, &mut tally, row);
    }
    print_tally(&rt, &tally)
}

#[test]
fn ends_at_a_read_that_gives_nothing(rt: HostRuntime) {
    let mut tally = Tally::new("run", "a read gives nothing");
    for row in ENDING_READS.iter() {
        each_read_is_last(rt, &mut tally, row);
    }
}

// A text, how many bytes a read gives, its answers, a fault of a write, and the error.
type Write = (&'static [u8], usize, &'static [u8], Fault, RunError);

#[rattlefmt::skip]
const FAILING_WRITES: &[Write] = &[
    (BAD_LINES, 1, BAD_ANSWERS, INTERRUPTED, RunError::Write),
    (BAD_LINES, 1, BAD_ANSWERS, FAILS, RunError::Write),
    (BAD_LINES, 1, BAD_ANSWERS, Fault::MovesNone, RunError::WriteZero),
    (INCOMPLETE, 65_536, INCOMPLETE_ANSWERS, FAILS, RunError::Write),
    (INCOMPLETE, 65_536, INCOMPLETE_ANSWERS, Fault::MovesNone, RunError::WriteZero),
];

/// Compares a run over a reader of so many bytes a call and a writer of a byte a call, of which one
/// is a fault: its end, the writes, and what they took.
pub(crate) fn are_writes(
    rt: impl Abort + AllocGlobal + Copy,
    text: &[u8],
    chunk_size: usize,
    at: usize,
    fault: Fault,
    wanted: (Result<(), RunError>, usize, &[u8]),
) {
    let mut reader = FaultReader::new(text, chunk_size);
    let mut writer = FaultWriter::failing(rt.alloc(), 1, at, fault);
    let result = run(rt.alloc(), &mut reader, &mut writer);
    let actual = (result, writer.calls, writer.taken.as_slice());
    equal(rt, (at, actual), (at, wanted));
}

// This write of a byte is the fault, and no other follows.
fn write_is_last(rt: impl Abort + AllocGlobal + Copy, row: &Write, at: usize) {
    let (text, chunk_size, answers, fault, error) = *row;
    let taken = answers.get(..at).unwrap_or(&[]);
    let wanted = (Err(error), at.saturating_add(1), taken);
    are_writes(rt, text, chunk_size, at, fault, wanted);
}

fn each_write_is_last(rt: impl Abort + AllocGlobal + Copy, tally: &mut Tally, row: &Write) {
    let calls = row.2.len();
    tally.count(calls);
    for at in 0..calls {
        write_is_last(rt, row, at);
        tally.tries();
    }
}

#[test]
fn stops_at_each_write_that_fails(rt: HostRuntime) -> Result<(), Fail> {
    let mut tally = Tally::new("run", "a write fails, is interrupted or takes nothing");
    for row in FAILING_WRITES.iter() {
        each_write_is_last(rt, &mut tally, row);
    }
    print_tally(&rt, &tally)
}

// So many empty lines, and the writes of their answers: those to the lines of one read are written
// together, as 65536 bytes and one answer more fit a write.
const FEW_WRITES: &[(usize, usize)] = &[
    (0, 0),
    (1, 1),
    (3, 1),
    (7_282, 1),
    (7_283, 2),
    (30_000, 5),
];

fn writes_so_often(
    rt: impl Abort + AllocGlobal + Copy,
    lines: usize,
    calls: usize,
) -> Result<(), Fail> {
    let input = repeated(rt.alloc(), b"\n", lines)?;
    let wanted = repeated(rt.alloc(), b"bad line\n", lines)?;
    let mut writer = FaultWriter::new(rt.alloc(), usize::MAX);
    let result = run(rt.alloc(), &mut input.as_slice(), &mut writer);
    equal(rt, (lines, result, writer.calls), (lines, Ok(()), calls));
    equal_bytes(rt, writer.taken.as_slice(), wanted.as_slice());
    Ok(())
}

#[test]
fn writes_few_times(rt: HostRuntime) -> Result<(), Fail> {
    for (lines, calls) in FEW_WRITES.iter() {
        writes_so_often(rt, *lines, *calls)?;
    }
    Ok(())
}

#[test]
fn reads_up_to_65536_bytes(rt: HostRuntime) {
    let mut reader = FaultReader::new(b"", 1);
    let mut writer = FaultWriter::new(rt.alloc(), 1);
    let result = run(rt.alloc(), &mut reader, &mut writer);
    equal(rt, (result, reader.room), (Ok(()), 65536));
}
