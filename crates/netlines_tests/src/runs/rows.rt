//! Worked rows from a reader that fails, and to writers that take little.
use crate::checks::equal;
use crate::runs::faults::are_writes;
use fault_devices::{Fault, FaultReader, FaultWriter};
use netlines::{RunError, run, run_bounded};
use std::io::ErrorKind;
use std::process::Abort;
use std::test::*;

/// A UDP message in one frame.
pub const UNCUT_UDP: &[u8] = b"frame 0 \
    0200000000020200000000010800\
    4500002400070000401166c00a0000010a000002000100020010dbb40102030405060708\n";

/// The answer to it.
pub const MESSAGE: &[u8] = b"message 17 good 000100020010dbb40102030405060708\n";

/// The fragments of that message in two frames.
pub const TWO_FRAGMENTS: &[u8] = b"frame 0 \
    0200000000020200000000010800\
    4500001c00072000401146c80a0000010a000002000100020010dbb4\n\
    frame 0 \
    0200000000020200000000010800\
    4500001c00070001401166c70a0000010a0000020102030405060708\n";

/// The answers to them.
pub const TWO_ANSWERS: &[u8] = b"wait\nmessage 17 good 000100020010dbb40102030405060708\n";

#[test]
fn three_reads_of_one_byte(rt: HostRuntime) {
    let mut reader = FaultReader::new(UNCUT_UDP, 1);
    let mut writer = FaultWriter::new(rt.alloc(), usize::MAX);
    let result = run_bounded(rt.alloc(), &mut reader, &mut writer, 3);
    let actual = (result, reader.calls, writer.calls);
    equal(rt, actual, (Err(RunError::TooManyReads), 3, 0));
}

// The index of the write that fails, its fault, the result, how many writes are made, and the bytes
// that they take, one each. In the last row no write fails.
type Row = (usize, Fault, Result<(), RunError>, usize, &'static [u8]);

#[rattlefmt::skip]
const WRITES: &[Row] = &[
    (3, Fault::Fails(ErrorKind::Other), Err(RunError::Write), 4, b"wai"),
    (0, Fault::MovesNone, Err(RunError::WriteZero), 1, b""),
    (usize::MAX, Fault::MovesNone, Ok(()), 54, TWO_ANSWERS),
];

#[test]
fn each_write_takes_one_byte(rt: HostRuntime) {
    for (at, fault, answer, calls, taken) in WRITES.iter() {
        let wanted = (*answer, *calls, *taken);
        are_writes(rt, TWO_FRAGMENTS, usize::MAX, *at, *fault, wanted);
    }
}

// The answer to the line before the failing read is written.
#[test]
fn a_read_fails_after_a_line(rt: HostRuntime) {
    let fault = Fault::Fails(ErrorKind::Other);
    let mut reader = FaultReader::failing(UNCUT_UDP, 4096, 1, fault);
    let mut output = Vec::new(rt.alloc());
    let result = run(rt.alloc(), &mut reader, &mut output);
    let actual = (result, reader.calls, output.as_slice());
    equal(rt, actual, (Err(RunError::Read), 2, MESSAGE));
}
