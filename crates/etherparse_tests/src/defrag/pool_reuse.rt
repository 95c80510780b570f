//! Buffers that are kept for later reassemblies: how many there are, and that nothing of what they
//! held is seen.

use crate::checks::{equal, fail, holds};
use crate::defrag::frames::{
    DATAGRAM, FIRST, IPV6_FIRST, IPV6_SECOND, LENT_IPV6_UDP, LENT_UDP, SECOND, UDP, keep_from,
    process, waits,
};
use crate::defrag::pool_refusals::UNALIGNED;
use crate::defrag::pool_scripts::{
    KEEP_FROM, NOTHING, REFUSED_UNALIGNED, RETAINED, Script, goes_through, runs_all,
};
use ep_base::{IpNumber, LenSource};
use etherparse::defrag::{IpDefragPayloadVec, IpDefragPool};
use std::process::Abort;
use std::test::*;

const SCRIPTS: &[Script] = &[
    // It leaves its buffer, and the next one takes it.
    (
        "a message that is dropped",
        &[
            (FIRST, 1, 0, NOTHING, 1, 0),
            (KEEP_FROM, 2, 0, RETAINED, 0, 1),
            (FIRST, 3, 0, NOTHING, 1, 0),
        ],
    ),
    // It leaves nothing, and takes no spare buffer.
    (
        "a refused first fragment",
        &[
            (UNALIGNED, 1, 0, REFUSED_UNALIGNED, 0, 0),
            (FIRST, 1, 0, NOTHING, 1, 0),
            (KEEP_FROM, u64::MAX, 0, RETAINED, 0, 1),
            (UNALIGNED, 1, 0, REFUSED_UNALIGNED, 0, 1),
        ],
    ),
    // A buffer that held other bytes has 0 at the missing bytes of the next datagram, and its
    // sections complete nothing there.
    (
        "used memory shows nothing",
        &[
            (FIRST, 1, 0, NOTHING, 1, 0),
            (KEEP_FROM, u64::MAX, 0, RETAINED, 0, 1),
            (SECOND, 1, 0, NOTHING, 1, 0),
            (FIRST, 1, 0, UDP, 0, 0),
        ],
    ),
];

#[test]
fn buffers_to_spare(rt: HostRuntime) {
    runs_all(rt, rt.alloc(), SCRIPTS);
}

/// A pool takes the buffer of a datagram of another one, too.
#[test]
fn a_datagram_that_is_given(rt: HostRuntime) -> Result<(), Fail> {
    let mut pool = IpDefragPool::<u64, u32>::new(rt.alloc());
    let mut payload = Vec::new(rt.alloc());
    payload.extend_from_slice(DATAGRAM)?;
    let message = IpDefragPayloadVec {
        ip_number: IpNumber::UDP,
        len_source: LenSource::Ipv4HeaderTotalLen,
        payload,
    };
    holds(rt, pool.return_buf(message).is_ok());
    has_counts(rt, &pool, 0, 1);
    Ok(())
}

// Datagrams in turn, from the start and from the end.
const IN_TURN: Script = (
    "ten times over",
    &[
        (FIRST, 1, 0, NOTHING, 1, 0),
        (SECOND, 2, 0, LENT_UDP, 0, 1),
        (IPV6_SECOND, 1, 0, NOTHING, 1, 0),
        (IPV6_FIRST, 2, 0, LENT_IPV6_UDP, 0, 1),
    ],
);

#[test]
fn ten_times_over(rt: HostRuntime) {
    let mut pool = IpDefragPool::new(rt.alloc());
    for _ in 0..10 {
        goes_through(rt, rt.alloc(), &mut pool, &IN_TURN);
    }
}

// There are so many reassemblies, and so many buffers are spare. It has no contract, as tests alone
// call it.
fn has_counts(rt: impl Abort + Copy, pool: &IpDefragPool<u64, u32>, open: usize, spare: usize) {
    equal(rt, (pool.open_len(), pool.spare_len()), (open, spare));
}

/// To be run with each allocation failing in turn, too: a fragment that finds no memory leaves both
/// numbers, a buffer is kept or returned as it was, and the next call has memory.
#[test]
fn reuse_runs_out_of_memory(rt: HostRuntime) {
    let mut pool = IpDefragPool::new(rt.alloc());
    for channel in 0..3u32 {
        let spare = pool.spare_len();
        let open = pool.open_len();
        if process(rt, &mut pool, FIRST, 1, channel).is_err() {
            has_counts(rt, &pool, open, spare);
            waits(rt, &mut pool, FIRST, 1, channel);
        }
    }
    has_counts(rt, &pool, 3, 0);
    keep_from(rt, &mut pool, u64::MAX);
    has_counts(rt, &pool, 0, 3);
    for channel in 0..3u32 {
        // The half ends after what the buffer held.
        if process(rt, &mut pool, SECOND, 1, channel).is_err() {
            waits(rt, &mut pool, SECOND, 1, channel);
        }
        let Ok(Some(whole)) = process(rt, &mut pool, FIRST, 1, channel) else {
            fail(rt, "the first half doesn't complete the message");
        };
        let spare = pool.spare_len();
        if let Err(whole) = pool.return_buf(whole) {
            holds(
                rt,
                whole.payload.as_slice() == DATAGRAM && pool.spare_len() == spare,
            );
            holds(rt, pool.return_buf(whole).is_ok());
        }
        holds(rt, pool.spare_len() > spare);
    }
}
