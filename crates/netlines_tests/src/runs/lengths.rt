//! Datagrams of two fragments of each length that networks have, in both orders and over both
//! versions, through `run`. The functions have no contracts: tests alone call them, and are run.

use crate::checks::{ended_lines, equal, holds};
use fault_devices::FaultReader;
use netlines::run;
use std::alloc::{AllocError, Global};
use std::process::Abort;
use std::test::*;

// Beside each length up to 1600: a block of NFS, the greatest payload over IPv4, and the greatest
// fragment that others follow.
const GREAT: &[usize] = &[8192, 65_515, 65_528];

const LONGEST: usize = 65_535;

// A line with a fragment of protocol 253.
fn push_line(
    text: &mut String,
    version: u8,
    units: usize,
    more: bool,
    digits: &str,
) -> Result<(), AllocError> {
    let len = digits.len() / 2;
    if version == 4 {
        let total = len.saturating_add(20);
        let place = if more { 0x2000 } else { units % 8192 };
        write!(
            text,
            "frame 0 02000000000202000000000108004500{total:04x}0007{place:04x}40fd0000\
            0a0000010a000002{digits}\n"
        )
    } else {
        // A length that 16 bits don't hold is 0: the packet has all that is there.
        let payload = u16::try_from(len.saturating_add(8)).unwrap_or(0);
        let place = if more { 1 } else { units % 8192 * 8 };
        write!(
            text,
            "frame 0 02000000000202000000000186dd60000000{payload:04x}2c40\
            fd000000000000000000000000000001fd000000000000000000000000000002\
            fd00{place:04x}00000007{digits}\n"
        )
    }
}

// Lines, and their answers.
#[derive(Drop)]
struct TestCase {
    text: String,
    wanted: String,
}

// Adds a datagram that is cut there, in both orders.
fn push_datagram(
    alloc: Global,
    test_case: &mut TestCase,
    version: u8,
    whole: &[u8],
    cut: usize,
) -> Result<(), AllocError> {
    let (first, last) = whole.split_at(cut.min(whole.len()));
    if version == 4 && first.len().max(last.len()) > 65_515 {
        return Ok(());
    }
    let first = hex::encode(alloc, first)?;
    let last = hex::encode(alloc, last)?;
    push_line(&mut test_case.text, version, 0, true, first.as_str())?;
    push_line(&mut test_case.text, version, cut / 8, false, last.as_str())?;
    push_line(&mut test_case.text, version, cut / 8, false, last.as_str())?;
    push_line(&mut test_case.text, version, 0, true, first.as_str())?;
    for _ in 0..2 {
        write!(test_case.wanted, "wait\nmessage 253 none {first}{last}\n")?;
    }
    Ok(())
}

// After a first fragment of this length, and before a last one.
fn push_length(
    alloc: Global,
    test_case: &mut TestCase,
    version: u8,
    bytes: &[u8],
    len: usize,
) -> Result<(), AllocError> {
    if len != 0 && len % 8 == 0 {
        let whole = bytes.get(..len.saturating_mul(2)).unwrap_or(bytes);
        push_datagram(alloc, test_case, version, whole, len)?;
    }
    match bytes.get(..len.saturating_add(8)) {
        Some(whole) => push_datagram(alloc, test_case, version, whole, 8),
        None => Ok(()),
    }
}

// How many lines at the start are the same in both texts.
fn lines_alike(actual: &[u8], wanted: &[u8]) -> usize {
    let mut count = 0usize;
    for (one, other) in actual.iter().zip(wanted.iter()) {
        if *one != *other {
            return count;
        }
        if *one == b'\n' {
            count = count.saturating_add(1);
        }
    }
    count
}

// All lengths in one run.
fn are_answered(rt: impl Abort + Copy, alloc: Global, version: u8) -> Result<(), AllocError> {
    let mut bytes = Vec::with_capacity(alloc, LONGEST)?;
    for place in 0..LONGEST {
        bytes.push((place % 251) as u8)?;
    }
    let mut test_case = TestCase {
        text: String::new(alloc),
        wanted: String::new(alloc),
    };
    for len in (0..=1600).chain(GREAT.iter().copied()) {
        push_length(alloc, &mut test_case, version, &bytes, len)?;
    }
    let mut actual = Vec::new(alloc);
    let mut reader = FaultReader::new(test_case.text.as_bytes(), usize::MAX);
    holds(rt, run(alloc, &mut reader, &mut actual).is_ok());
    let wanted = test_case.wanted.as_bytes();
    equal(rt, lines_alike(&actual, wanted), ended_lines(wanted));
    equal(rt, actual.len(), wanted.len());
    Ok(())
}

#[test]
fn each_length_over_ipv4(rt: HostRuntime) -> Result<(), Fail> {
    are_answered(rt, rt.alloc(), 4)?;
    Ok(())
}

#[test]
fn each_length_over_ipv6(rt: HostRuntime) -> Result<(), Fail> {
    are_answered(rt, rt.alloc(), 6)?;
    Ok(())
}
