//! Out of memory in a pool. `tools/faults_tried` runs these tests with each allocation failing in
//! turn: then one of the calls finds no memory and leaves the pool as it was, and the next one finds
//! it.

use crate::checks::{equal, fail, holds};
use crate::defrag::frames::{
    DATAGRAM, FIRST, IPV6_FIRST, IPV6_SECOND, SECOND, delivers, keep_from, process, waits,
};
use etherparse::defrag::{IpDefragError, IpDefragPool, PoolAnswer, PoolCall, run_calls};
use std::alloc::Global;
use std::process::Abort;
use std::test::*;

#[test]
fn a_datagram_runs_out_of_memory(rt: HostRuntime) {
    let mut pool = IpDefragPool::new(rt.alloc());
    if let Err(error) = process(rt, &mut pool, FIRST, 1, 0) {
        equal(rt, error, IpDefragError::AllocationFailure { len: 8 });
        waits(rt, &mut pool, FIRST, 1, 0);
    }
    if let Err(error) = process(rt, &mut pool, SECOND, 2, 1) {
        equal(rt, error, IpDefragError::AllocationFailure { len: 16 });
        waits(rt, &mut pool, SECOND, 2, 1);
    }
    keep_from(rt, &mut pool, 2);
    holds(rt, !delivers_at_last(rt, &mut pool, SECOND, 0, 16));
    holds(rt, delivers_at_last(rt, &mut pool, FIRST, 1, 8));
}

#[rattlefmt::skip]
const TWICE: &[PoolCall<'static>] = &[
    PoolCall::Frame { frame: FIRST, timestamp: 1, channel: 0 },
    PoolCall::Frame { frame: FIRST, timestamp: 1, channel: 0 },
];

// Whether one of the answers is that nothing is complete; no contract, as tests alone call it.
fn one_waits(pool_answers: &[PoolAnswer]) -> bool {
    for pool_answer in pool_answers {
        if matches!(pool_answer, PoolAnswer::Nothing) {
            return true;
        }
    }
    false
}

#[test]
fn a_list_of_calls_runs_out_of_memory(rt: HostRuntime) {
    let mut pool = IpDefragPool::new(rt.alloc());
    match run_calls(rt.alloc(), &mut pool, TWICE) {
        Ok(pool_answers) => {
            // At most one of the two found no memory.
            holds(rt, one_waits(&pool_answers));
            holds(rt, delivers_at_last(rt, &mut pool, SECOND, 0, 16));
        }
        Err(_) => {
            waits(rt, &mut pool, SECOND, 2, 0);
            holds(rt, run_calls(rt.alloc(), &mut pool, TWICE).is_ok());
        }
    }
}

// Passes a frame to a pool until it finds memory, and returns whether it completes a datagram. One
// that finds none is answered with its end. It has no contract, as tests alone call it.
fn delivers_at_last(
    rt: impl Abort + Copy,
    pool: &mut IpDefragPool<u64, u32>,
    frame: &[u8],
    channel: u32,
    end: usize,
) -> bool {
    match process(rt, pool, frame, 1, channel) {
        Ok(message) => message.is_some(),
        Err(error) => {
            equal(rt, error, IpDefragError::AllocationFailure { len: end });
            delivers(rt, pool, frame, 1, channel)
        }
    }
}

/// So many datagrams that the pool grows several times, whichever growth is refused.
#[test]
fn many_reassemblies_run_out_of_memory(rt: HostRuntime) {
    let mut pool = IpDefragPool::new(rt.alloc());
    for channel in 0..10u32 {
        holds(rt, !delivers_at_last(rt, &mut pool, FIRST, channel, 8));
        holds(
            rt,
            !delivers_at_last(rt, &mut pool, IPV6_SECOND, channel, 16),
        );
    }
    for channel in 0..10u32 {
        holds(rt, delivers_at_last(rt, &mut pool, SECOND, channel, 16));
        holds(rt, delivers_at_last(rt, &mut pool, IPV6_FIRST, channel, 8));
    }
}

#[rattlefmt::skip]
const HALVES: &[PoolCall<'static>] = &[
    PoolCall::Frame { frame: FIRST, timestamp: 1, channel: 0 },
    PoolCall::Frame { frame: FIRST, timestamp: 1, channel: 1 },
    PoolCall::Frame { frame: FIRST, timestamp: 1, channel: 2 },
    PoolCall::Frame { frame: FIRST, timestamp: 1, channel: 3 },
    PoolCall::Frame { frame: FIRST, timestamp: 1, channel: 4 },
    PoolCall::Frame { frame: FIRST, timestamp: 1, channel: 5 },
];

#[rattlefmt::skip]
const RESTS: &[PoolCall<'static>] = &[
    PoolCall::Frame { frame: SECOND, timestamp: 2, channel: 0 },
    PoolCall::Frame { frame: SECOND, timestamp: 2, channel: 1 },
    PoolCall::Frame { frame: SECOND, timestamp: 2, channel: 2 },
    PoolCall::Frame { frame: SECOND, timestamp: 2, channel: 3 },
    PoolCall::Frame { frame: SECOND, timestamp: 2, channel: 4 },
    PoolCall::Frame { frame: SECOND, timestamp: 2, channel: 5 },
];

// Whether both halves of a datagram found memory: one of them may not have. It has no contract, as
// tests alone call it.
fn had_memory(rt: impl Abort + Copy, started: &PoolAnswer, ended: &PoolAnswer) -> bool {
    match (started, ended) {
        (PoolAnswer::Nothing, PoolAnswer::Payload(message)) => {
            equal(rt, message.payload.as_slice(), DATAGRAM);
            true
        }
        (PoolAnswer::Refused(IpDefragError::AllocationFailure { len: 8 }), PoolAnswer::Nothing)
        | (
            PoolAnswer::Nothing,
            PoolAnswer::Refused(IpDefragError::AllocationFailure { len: 16 }),
        ) => { false }
        _ => fail(rt, "the replies are others"),
    }
}

/// A call whose answer reports out of memory did nothing, and the others did as ever.
#[test]
fn one_of_many_calls_runs_out_of_memory(rt: HostRuntime) {
    let mut pool = IpDefragPool::new(rt.alloc());
    let started = at_last(rt, rt.alloc(), &mut pool, HALVES);
    let ended = at_last(rt, rt.alloc(), &mut pool, RESTS);
    let mut failures = 0u32;
    for (started, ended) in started.iter().zip(ended.iter()) {
        if !had_memory(rt, started, ended) {
            failures = failures.wrapping_add(1);
        }
    }
    holds(rt, failures <= 1);
}

// The answers to calls, once there is capacity for them. It has no contract, as tests alone call
// it.
fn at_last(
    rt: impl Abort + Copy,
    alloc: Global,
    pool: &mut IpDefragPool<u64, u32>,
    calls: &[PoolCall<'_>],
) -> Vec<PoolAnswer> {
    if let Ok(pool_answers) = run_calls(alloc, pool, calls) {
        return pool_answers;
    }
    match run_calls(alloc, pool, calls) {
        Ok(pool_answers) => pool_answers,
        Err(_) => fail(rt, "no room for the replies, twice"),
    }
}
