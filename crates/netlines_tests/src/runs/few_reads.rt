//! Runs that may make few reads, by each call that has a bound on them: with the names of messages
//! hashed by a fixed seed and by random keys.
use crate::checks::equal;
use fault_devices::{FaultReader, FaultWriter};
use netlines::device::{Device, ReaderWriter};
use netlines::{
    FrameAnswerer, RunError, run_bounded, run_over, run_over_with_hasher, run_with, run_with_hasher,
};
use std::alloc::Global;
use std::hash::RandomState;
use std::process::Abort;
use std::test::*;

// The call that runs; the last passes an answerer to the run.
#[derive(Clone, Copy)]
enum Call {
    Bounded,
    WithHasher,
    Over,
    OverWithHasher,
    With,
}

fn call_over<D: Device>(
    alloc: Global,
    state: RandomState,
    call: Call,
    device: &mut D,
    reads: u8,
) -> Result<(), RunError> {
    match call {
        Call::OverWithHasher => { run_over_with_hasher(alloc, state, device, u64::from(reads)) }
        Call::With => match FrameAnswerer::with_hasher(alloc, state) {
            Ok(answerer) => run_with(alloc, answerer, device, u64::from(reads)),
            Err(_) => Err(RunError::Memory),
        },
        _ => run_over(alloc, device, u64::from(reads)),
    }
}

fn run_by(
    alloc: Global,
    state: RandomState,
    call: Call,
    reader: &mut FaultReader<'_>,
    writer: &mut FaultWriter,
    reads: u8,
) -> Result<(), RunError> {
    match call {
        Call::Bounded => run_bounded(alloc, reader, writer, u64::from(reads)),
        Call::WithHasher => { run_with_hasher(alloc, state, reader, writer, u64::from(reads)) }
        _ => call_over(
            alloc,
            state,
            call,
            &mut ReaderWriter { reader, writer },
            reads,
        ),
    }
}

// A text, how many reads of a byte may be made, how many are made, the answer, and what is written.
type Row = (
    Call,
    &'static [u8],
    u8,
    usize,
    Result<(), RunError>,
    &'static [u8],
);

const TOO_MANY: Result<(), RunError> = Err(RunError::TooManyReads);

const BAD_LINE: &[u8] = b"bad line\n";

const TWO_BAD: &[u8] = b"bad line\nbad line\n";

// A text of two lines takes three reads of one byte a line, and one more that finds the end, which
// is one of those that may be made.
const ROWS: &[Row] = &[
    (Call::Bounded, b"", 0, 0, TOO_MANY, b""),
    (Call::Bounded, b"", 1, 1, Ok(()), b""),
    (Call::Over, b"a\nb", 0, 0, TOO_MANY, b""),
    (Call::Over, b"a\nb", 2, 2, TOO_MANY, BAD_LINE),
    (Call::Over, b"a\nb", 3, 3, TOO_MANY, BAD_LINE),
    (Call::Over, b"a\nb", 4, 4, Ok(()), TWO_BAD),
    (Call::WithHasher, b"", 0, 0, TOO_MANY, b""),
    (Call::WithHasher, b"", 1, 1, Ok(()), b""),
    (Call::WithHasher, b"a\nb", 3, 3, TOO_MANY, BAD_LINE),
    (Call::WithHasher, b"a\nb", 4, 4, Ok(()), TWO_BAD),
    (Call::OverWithHasher, b"a\nb", 3, 3, TOO_MANY, BAD_LINE),
    (Call::With, b"a\nb", 3, 3, TOO_MANY, BAD_LINE),
];

fn makes_so_many(rt: impl Abort + AllocGlobal + Copy, state: RandomState, row: &Row) {
    let (call, text, reads, calls, answer, written) = *row;
    let mut reader = FaultReader::new(text, 1);
    let mut writer = FaultWriter::new(rt.alloc(), 1);
    let result = run_by(rt.alloc(), state, call, &mut reader, &mut writer, reads);
    let call = call as u8;
    equal(rt, (call, result, reader.calls), (call, answer, calls));
    equal(
        rt,
        (writer.calls, writer.taken.as_slice()),
        (written.len(), written),
    );
}

#[test]
fn makes_no_more_reads_than_it_may(rt: HostRuntime) -> Result<(), Fail> {
    let state = RandomState::new(&rt)?;
    for row in ROWS.iter() {
        makes_so_many(rt, state, row);
    }
    Ok(())
}
