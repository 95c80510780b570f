//! A run with random keys for the names of messages: the bytes that the state of a fixed seed has.
use crate::checks::equal;
use crate::runs::texts::{TWO_ROUNDS, TWO_ROUNDS_ANSWERS};
use fault_devices::{FaultReader, FaultWriter};
use netlines::{READ_COUNT_LIMIT, run_with_hasher};
use std::hash::RandomState;
use std::process::Abort;
use std::test::*;

// A byte a call.
fn answers_by_random_keys(
    rt: impl Abort + AllocGlobal + Copy,
    state: RandomState,
    text: &[u8],
    wanted: &[u8],
) {
    let mut reader = FaultReader::new(text, 1);
    let mut writer = FaultWriter::new(rt.alloc(), 1);
    let result = run_with_hasher(
        rt.alloc(),
        state,
        &mut reader,
        &mut writer,
        READ_COUNT_LIMIT,
    );
    equal(rt, (result, writer.taken.as_slice()), (Ok(()), wanted));
}

#[test]
fn reassembles_messages(rt: HostRuntime) -> Result<(), Fail> {
    let state = RandomState::new(&rt)?;
    answers_by_random_keys(rt, state, TWO_ROUNDS, TWO_ROUNDS_ANSWERS);
    Ok(())
}
