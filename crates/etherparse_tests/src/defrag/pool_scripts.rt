//! Scripts for pools: calls, the answer to each as `{:?}` shows it, and how many reassemblies there
//! are and how many buffers are spare then. The functions have no contracts: tests alone call them,
//! and are run.

use crate::checks::{equal_in, fail, holds, holds_in};
use ep_packet::SlicedPacket;
use etherparse::defrag::{IpDefragPool, PoolAnswer, PoolCall, run_calls};
use std::alloc::Global;
use std::hash::BuildHasher;
use std::process::Abort;

/// A frame, when it came and its channel; the answer; and how many reassemblies there are and how
/// many buffers are spare then.
pub type Step = (&'static [u8], u64, u32, &'static str, usize, usize);

/// A name, and calls of a new pool.
pub type Script = (&'static str, &'static [Step]);

/// Instead of a frame: the reassemblies of the time and of later ones are kept.
pub const KEEP_FROM: &[u8] = &[];

pub const NOTHING: &str = "Nothing";

pub const RETAINED: &str = "Retained";

/// Eight bytes at the greatest offset.
pub const REFUSED_LONG: &str =
    "Refused(SegmentTooBig { offset: IpFragOffset(8191), payload_len: 8, max: 65535 })";

/// Seven bytes, after which more follow.
pub const REFUSED_UNALIGNED: &str =
    "Refused(UnalignedFragmentPayloadLen { offset: IpFragOffset(0), payload_len: 7 })";

/// Bytes after the datagram's end.
pub const REFUSED_LATER: &str = "Refused(ConflictingEnd { previous_end: 16, conflicting_end: 24 })";

// What follows the answer where its datagram is given back then.
const GIVEN_BACK: &str = " given back";

/// Fails where an answer is shown otherwise; no contract, as above.
pub fn is_shown(
    rt: impl Abort + Copy,
    alloc: Global,
    row: &str,
    pool_answer: &PoolAnswer,
    wanted: &str,
) {
    match format!(in alloc; "{pool_answer:?}") {
        Ok(described) => equal_in(rt, row, &described.as_str(), &wanted),
        Err(_) => fail(rt, "no memory for a text"),
    }
}

// The answer to a frame; no contract, as above.
fn answer_to_step(pool: &mut IpDefragPool<u64, u32>, step: &Step) -> PoolAnswer {
    match SlicedPacket::from_ethernet(step.0) {
        Ok(packet) => match pool.process_sliced_packet(&packet, step.1, step.2) {
            Ok(Some(message)) => PoolAnswer::Payload(message),
            Ok(None) => PoolAnswer::Nothing,
            Err(error) => PoolAnswer::Refused(error),
        },
        Err(error) => PoolAnswer::NotSliced(error),
    }
}

// The answer to a call by the pool's own functions; no contract, as above.
fn answer_to_call(pool: &mut IpDefragPool<u64, u32>, step: &Step) -> PoolAnswer {
    if !step.0.is_empty() {
        return answer_to_step(pool, step);
    }
    match pool.retain(|time: &u64| *time >= step.1) {
        Ok(()) => PoolAnswer::Retained,
        Err(_) => PoolAnswer::NoMemory,
    }
}

// The call as one of a list; no contract, as above.
fn in_list(step: &Step) -> PoolCall<'static> {
    if step.0.is_empty() {
        return PoolCall::RetainFrom(step.1);
    }
    PoolCall::Frame {
        frame: step.0,
        timestamp: step.1,
        channel: step.2,
    }
}

// The answer to a list of one call; no contract, as above.
fn answer_to_list(
    rt: impl Abort + Copy,
    alloc: Global,
    pool: &mut IpDefragPool<u64, u32>,
    step: &Step,
) -> PoolAnswer {
    let Ok(mut pool_answers) = run_calls(alloc, pool, &[in_list(step)]) else {
        fail(rt, "no room for a reply");
    };
    match pool_answers.pop() {
        Some(pool_answer) if pool_answers.is_empty() => pool_answer,
        _ => fail(rt, "the replies to one call are more or none"),
    }
}

// Fails where the answer or a number is another one; no contract, as above.
fn settles(
    rt: impl Abort + Copy,
    alloc: Global,
    row: &str,
    pool: &mut IpDefragPool<u64, u32>,
    pool_answer: PoolAnswer,
    step: &Step,
) {
    let (_, _, _, answer, open, spare) = *step;
    match (answer.strip_suffix(GIVEN_BACK), pool_answer) {
        (Some(answer), pool_answer) => {
            is_shown(rt, alloc, row, &pool_answer, answer);
            give_back(rt, row, pool, pool_answer);
        }
        (None, pool_answer) => is_shown(rt, alloc, row, &pool_answer, answer),
    }
    equal_in(
        rt,
        row,
        &(pool.open_len(), pool.spare_len()),
        &(open, spare),
    );
}

// Gives a datagram back; no contract, as above.
fn give_back(
    rt: impl Abort + Copy,
    row: &str,
    pool: &mut IpDefragPool<u64, u32>,
    pool_answer: PoolAnswer,
) {
    if let PoolAnswer::Payload(message) = pool_answer {
        holds_in(rt, row, pool.return_buf(message).is_ok());
    }
}

/// Makes a call, and fails where the answer or a number is another one; no contract, as above.
pub fn goes(
    rt: impl Abort + Copy,
    alloc: Global,
    row: &str,
    pool: &mut IpDefragPool<u64, u32>,
    step: &Step,
) {
    let pool_answer = answer_to_call(pool, step);
    settles(rt, alloc, row, pool, pool_answer, step);
}

// The same by a list of the one call; no contract, as above.
fn goes_by_list(
    rt: impl Abort + Copy,
    alloc: Global,
    row: &str,
    pool: &mut IpDefragPool<u64, u32>,
    step: &Step,
) {
    let pool_answer = answer_to_list(rt, alloc, pool, step);
    settles(rt, alloc, row, pool, pool_answer, step);
}

/// Makes a script's calls; no contract, as above.
pub fn goes_through(
    rt: impl Abort + Copy,
    alloc: Global,
    pool: &mut IpDefragPool<u64, u32>,
    script: &Script,
) {
    for step in script.1.iter() {
        goes(rt, alloc, script.0, pool, step);
    }
}

// The same by lists of one call each; no contract, as above.
fn goes_through_by_lists(rt: impl Abort + Copy, alloc: Global, script: &Script) {
    let mut pool = IpDefragPool::new(alloc);
    for step in script.1.iter() {
        goes_by_list(rt, alloc, script.0, &mut pool, step);
    }
}

// Fails where answers are others; no contract, as above.
fn are_shown(rt: impl Abort + Copy, alloc: Global, pool_answers: &[PoolAnswer], script: &Script) {
    equal_in(rt, script.0, &pool_answers.len(), &script.1.len());
    for (pool_answer, step) in pool_answers.iter().zip(script.1.iter()) {
        let answer = step.3.strip_suffix(GIVEN_BACK).unwrap_or(step.3);
        is_shown(rt, alloc, script.0, pool_answer, answer);
    }
}

// The calls as a list; no contract, as above.
fn list_of(rt: impl Abort + Copy, alloc: Global, steps: &[Step]) -> Vec<PoolCall<'static>> {
    let mut calls = Vec::new(alloc);
    for step in steps.iter() {
        holds(rt, calls.push(in_list(step)).is_ok());
    }
    calls
}

/// Makes a script's calls in one list; no contract, as above.
pub fn goes_in_a_row<S: BuildHasher + Drop>(
    rt: impl Abort + Copy,
    alloc: Global,
    mut pool: IpDefragPool<u64, u32, S>,
    script: &Script,
) {
    let calls = list_of(rt, alloc, script.1);
    match run_calls(alloc, &mut pool, &calls) {
        Ok(pool_answers) => are_shown(rt, alloc, &pool_answers, script),
        Err(_) => fail(rt, "no room for the replies"),
    }
}

/// Runs each script by calls, by lists of one call and by one list, each time with a pool of its
/// own; no contract, as above.
pub fn runs_all(rt: impl Abort + Copy, alloc: Global, scripts: &[Script]) {
    for script in scripts.iter() {
        goes_through(rt, alloc, &mut IpDefragPool::new(alloc), script);
        goes_through_by_lists(rt, alloc, script);
        goes_in_a_row(rt, alloc, IpDefragPool::new(alloc), script);
    }
}
