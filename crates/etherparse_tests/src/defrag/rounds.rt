//! Memory that served before. The functions have no contracts: tests alone call them, and are run.
//!
//! `tools/faults_tried` runs each pair of one round and ten rounds: ten have no more growths than one, and
//! pass with each growth after those of the first round refused.

use crate::checks::{equal, fail, holds};
use crate::defrag::fragments::{ZEROS, offset};
use crate::defrag::frames::{
    DATAGRAM, FIRST, IPV6_FIRST, IPV6_SECOND, SECOND, keep_from, process, waits,
};
use crate::defrag::pool_refusals::UNALIGNED;
use ep_base::{IpFragOffset, IpNumber};
use etherparse::defrag::{IpDefragBuf, IpDefragPayloadVec, IpDefragPool, OverlapRule};
use std::alloc::{AllocError, Global};
use std::process::Abort;
use std::test::*;

// The rest of a datagram, which is returned.
fn whole(
    rt: impl Abort + Copy,
    pool: &mut IpDefragPool<u64, u32>,
    frame: &[u8],
) -> IpDefragPayloadVec {
    let Ok(Some(message)) = process(rt, pool, frame, 1, 0) else {
        fail(rt, "no message");
    };
    message
}

// The same, and it is given back.
fn completes(rt: impl Abort + Copy, pool: &mut IpDefragPool<u64, u32>, frame: &[u8]) {
    let message = whole(rt, pool, frame);
    holds(rt, pool.return_buf(message).is_ok());
}

// Datagrams over both versions, one that is dropped, and a refused fragment.
fn go_round(rt: impl Abort + Copy, pool: &mut IpDefragPool<u64, u32>) {
    waits(rt, pool, FIRST, 1, 0);
    completes(rt, pool, SECOND);
    waits(rt, pool, IPV6_SECOND, 1, 0);
    completes(rt, pool, IPV6_FIRST);
    holds(rt, process(rt, pool, UNALIGNED, 1, 0).is_err());
    waits(rt, pool, SECOND, 1, 0);
    keep_from(rt, pool, 2);
}

fn go_rounds(rt: impl Abort + Copy, alloc: Global, count: usize) {
    let mut pool = IpDefragPool::new(alloc);
    for _ in 0..count {
        go_round(rt, &mut pool);
    }
}

#[test]
fn one_round_in_a_pool(rt: HostRuntime) {
    go_rounds(rt, rt.alloc(), 1);
}

#[test]
fn ten_rounds_in_a_pool(rt: HostRuntime) {
    go_rounds(rt, rt.alloc(), 10);
}

// Nine reassemblies at once, which are dropped, then as many that complete: so many that each slot
// for them is taken more than once.
fn go_round_at_once(rt: impl Abort + Copy, pool: &mut IpDefragPool<u64, u32>) {
    for channel in 0..9u32 {
        waits(rt, pool, SECOND, 1, channel);
    }
    keep_from(rt, pool, 2);
    for channel in 0..9u32 {
        waits(rt, pool, IPV6_SECOND, 1, channel);
    }
    for channel in 0..9u32 {
        let Ok(Some(message)) = process(rt, pool, IPV6_FIRST, 1, channel) else {
            fail(rt, "no message");
        };
        holds(rt, pool.return_buf(message).is_ok());
    }
}

fn go_rounds_at_once(rt: impl Abort + Copy, alloc: Global, count: usize) {
    let mut pool = IpDefragPool::new(alloc);
    for _ in 0..count {
        go_round_at_once(rt, &mut pool);
    }
}

#[test]
fn one_round_of_reassemblies_at_once(rt: HostRuntime) {
    go_rounds_at_once(rt, rt.alloc(), 1);
}

#[test]
fn ten_rounds_of_reassemblies_at_once(rt: HostRuntime) {
    go_rounds_at_once(rt, rt.alloc(), 10);
}

// Two fragments, in the memory of those before.
fn fill_again(rt: impl Abort + Copy, alloc: Global, rule: OverlapRule, count: usize) {
    let mut data = Vec::new(alloc);
    let mut sections = Vec::new(alloc);
    for _ in 0..count {
        let mut buf = IpDefragBuf::of_rule(rule, alloc, IpNumber::UDP, data, sections);
        holds(rt, buf.add(offset(rt, 2), false, &ZEROS[..8]).is_ok());
        holds(rt, buf.add(IpFragOffset::ZERO, true, &ZEROS[..16]).is_ok());
        (data, sections) = buf.take_bufs();
    }
    equal(rt, data.len(), 24);
    equal(rt, sections.len(), 1);
}

#[test]
fn one_round_in_a_buffer(rt: HostRuntime) {
    fill_again(rt, rt.alloc(), OverlapRule::Overwrites, 1);
    fill_again(rt, rt.alloc(), OverlapRule::Refuses, 1);
}

#[test]
fn ten_rounds_in_a_buffer(rt: HostRuntime) {
    fill_again(rt, rt.alloc(), OverlapRule::Overwrites, 10);
    fill_again(rt, rt.alloc(), OverlapRule::Refuses, 10);
}

// Whether a buffer by each call has the memory that it is given.
fn keeps_memory(rt: impl Abort + Copy, buf: &IpDefragBuf) {
    equal(
        rt,
        (buf.data().capacity(), buf.sections().capacity()),
        (4096, 64),
    );
}

#[test]
fn a_buffer_has_the_memory_that_it_is_given(rt: HostRuntime) -> Result<(), Fail> {
    let alloc = rt.alloc();
    let number = IpNumber::UDP;
    let (data, sections) = (
        Vec::with_capacity(alloc, 4096)?,
        Vec::with_capacity(alloc, 64)?,
    );
    let buf = IpDefragBuf::new(number, data, sections);
    keeps_memory(rt, &buf);
    let (data, sections) = buf.take_bufs();
    let buf = IpDefragBuf::new_refusing_overlap(alloc, number, data, sections);
    keeps_memory(rt, &buf);
    let (data, sections) = buf.take_bufs();
    let buf = IpDefragBuf::of_rule(OverlapRule::Overwrites, alloc, number, data, sections);
    keeps_memory(rt, &buf);
    let (data, sections) = buf.take_bufs();
    let buf = IpDefragBuf::of_rule(OverlapRule::Refuses, alloc, number, data, sections);
    keeps_memory(rt, &buf);
    Ok(())
}

// A datagram with capacity for so many bytes, given to a pool.
fn give(
    rt: impl Abort + Copy,
    alloc: Global,
    pool: &mut IpDefragPool<u64, u32>,
    room: usize,
) -> Result<(), AllocError> {
    waits(rt, pool, FIRST, 1, 7);
    let Ok(Some(mut message)) = process(rt, pool, SECOND, 1, 7) else {
        fail(rt, "no message");
    };
    message.payload = Vec::with_capacity(alloc, room)?;
    holds(rt, pool.return_buf(message).is_ok());
    Ok(())
}

/// Memory that was given back is that of the next datagram, also where one was dropped or its first
/// fragment refused in between.
#[test]
fn the_next_reassembly_has_the_memory_that_was_given_back(rt: HostRuntime) -> Result<(), Fail> {
    let mut pool = IpDefragPool::new(rt.alloc());
    give(rt, rt.alloc(), &mut pool, 5000)?;
    let halves = [(FIRST, SECOND), (SECOND, FIRST), (IPV6_FIRST, IPV6_SECOND)];
    for (one, other) in halves {
        holds(rt, process(rt, &mut pool, UNALIGNED, 1, 0).is_err());
        waits(rt, &mut pool, FIRST, 1, 0);
        keep_from(rt, &mut pool, 2);
        waits(rt, &mut pool, one, 1, 0);
        let message = whole(rt, &mut pool, other);
        equal(rt, message.payload.len(), DATAGRAM.len());
        equal(rt, message.payload.capacity(), 5000);
        holds(rt, pool.return_buf(message).is_ok());
    }
    Ok(())
}
