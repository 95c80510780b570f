//! A run whose buffers were used before. The functions have no contracts: tests alone call them,
//! and are run.
//!
//! `tools/faults_tried` runs both tests: ten rounds have no more growths than one, and pass with
//! each growth after those of the first round refused.

use crate::checks::{equal_bytes, holds};
use netlines::run;
use std::alloc::{AllocError, Global};
use std::process::Abort;
use std::test::*;

// The fragments of a UDP datagram whose length field counts a byte too many, those of one that is
// whole, one fragment of a message that is given up, and the fragments of one over IPv6.
const ROUND: &[u8] = b"\
    frame 0 02000000000202000000000108004500001c00072000401146c80a0000010a000002\
    000100020011dbb4\n\
    frame 0 02000000000202000000000108004500001c00070001401166c70a0000010a000002\
    0102030405060708\n\
    frame 0 02000000000202000000000108004500001c00070001401166c70a0000010a000002\
    0102030405060708\n\
    frame 0 02000000000202000000000108004500001c00072000401146c80a0000010a000002\
    000100020010dbb4\n\
    frame 0 02000000000202000000000108004500001c00072000401146c80a0000010a000002\
    000100020010dbb4\n\
    forget 18446744073709551615\n\
    frame 0 02000000000202000000000186dd6000000000102c40\
    fd000000000000000000000000000001fd000000000000000000000000000002\
    1100000100000007000100020010f5b2\n\
    frame 0 02000000000202000000000186dd6000000000102c40\
    fd000000000000000000000000000001fd000000000000000000000000000002\
    11000008000000070102030405060708\n";

const ANSWERS: &[u8] = b"\
    wait\nrefused message\nwait\nmessage 17 good 000100020010dbb40102030405060708\nwait\nok\n\
    wait\nmessage 17 good 000100020010f5b20102030405060708\n";

// So many rounds in one run. What the test itself takes is one growth for each of its three texts.
fn go_rounds(rt: impl Abort + Copy, alloc: Global, count: usize) -> Result<(), AllocError> {
    let text = ROUND.repeat(alloc, count)?;
    let wanted = ANSWERS.repeat(alloc, count)?;
    let mut actual = Vec::with_capacity(alloc, wanted.len())?;
    holds(rt, run(alloc, &mut text.as_slice(), &mut actual).is_ok());
    equal_bytes(rt, actual.as_slice(), wanted.as_slice());
    Ok(())
}

#[test]
fn one_round_in_a_run(rt: HostRuntime) -> Result<(), Fail> {
    go_rounds(rt, rt.alloc(), 1)?;
    Ok(())
}

#[test]
fn ten_rounds_in_a_run(rt: HostRuntime) -> Result<(), Fail> {
    go_rounds(rt, rt.alloc(), 10)?;
    Ok(())
}
