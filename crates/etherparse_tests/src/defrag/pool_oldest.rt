//! Which reassembly a pool forgets first, and how many bytes its reassemblies hold.

use crate::checks::{equal, holds};
use crate::defrag::frames::{
    AFTER, FIRST, IPV6_FIRST, IPV6_LATER, SECOND, delivers, keep_from, process, waits,
};
use crate::defrag::pool_overlaps::IPV6_OTHER_BYTES;
use etherparse::defrag::IpDefragPool;
use std::process::Abort;
use std::test::*;

type Pool = IpDefragPool<u64, u32>;

// The pool forgets the reassemblies of these channels in turn, and then there is none. It has no
// contract, as tests alone call it.
fn forgets(rt: impl Abort + Copy, pool: &mut Pool, channels: &[(u32, u64)]) {
    for (channel, timestamp) in channels {
        match pool.forget_oldest() {
            Some((id, time)) => equal(rt, (id.channel_id, time), (*channel, *timestamp)),
            None => holds(rt, false),
        }
    }
    holds(rt, pool.forget_oldest().is_none());
    equal(rt, (pool.open_len(), pool.open_bytes()), (0, 0));
}

// Starts a reassembly of this channel.
fn starts(rt: impl Abort + Copy, pool: &mut Pool, timestamp: u64, channel: u32) {
    waits(rt, pool, FIRST, timestamp, channel);
}

/// A later fragment leaves the place in the order: the second one of channel 0 comes last.
#[test]
fn the_oldest_start_goes_first(rt: HostRuntime) {
    let mut pool = IpDefragPool::new(rt.alloc());
    for channel in 0..3u32 {
        starts(rt, &mut pool, u64::from(channel), channel);
    }
    waits(rt, &mut pool, AFTER, 9, 0);
    forgets(rt, &mut pool, &[(0, 9), (1, 1), (2, 2)]);
    equal(rt, pool.spare_len(), 3);
    pool.free_spare();
    equal(rt, pool.spare_len(), 0);
}

/// A datagram that starts anew is the newest.
#[test]
fn datagrams_that_are_complete_leave_the_order(rt: HostRuntime) {
    let mut pool = IpDefragPool::new(rt.alloc());
    for channel in 0..4u32 {
        starts(rt, &mut pool, 1, channel);
    }
    holds(rt, delivers(rt, &mut pool, SECOND, 2, 1));
    starts(rt, &mut pool, 3, 1);
    forgets(rt, &mut pool, &[(0, 1), (2, 1), (3, 1), (1, 3)]);
}

#[test]
fn retained_reassemblies_keep_their_order(rt: HostRuntime) {
    let mut pool = IpDefragPool::new(rt.alloc());
    for (channel, timestamp) in [(0u32, 10u64), (1, 1), (2, 11), (3, 2), (4, 12)] {
        starts(rt, &mut pool, timestamp, channel);
    }
    keep_from(rt, &mut pool, 10);
    starts(rt, &mut pool, 13, 5);
    forgets(rt, &mut pool, &[(0, 10), (2, 11), (4, 12), (5, 13)]);
}

/// So does one that is dropped for an overlap (RFC 8200, section 4.5), here the first half with
/// another byte.
#[test]
fn reassemblies_that_overlap_leave_the_order(rt: HostRuntime) {
    let mut pool: Pool = IpDefragPool::new(rt.alloc());
    for channel in 0..3u32 {
        waits(rt, &mut pool, IPV6_FIRST, 1, channel);
    }
    waits(rt, &mut pool, IPV6_LATER, 2, 1);
    equal(rt, (pool.open_len(), pool.open_bytes()), (3, 8 + 24 + 8));
    holds(rt, process(rt, &mut pool, IPV6_OTHER_BYTES, 3, 1).is_err());
    equal(rt, (pool.open_len(), pool.open_bytes()), (2, 8 + 8));
    waits(rt, &mut pool, IPV6_FIRST, 5, 1);
    forgets(rt, &mut pool, &[(0, 1), (2, 1), (1, 5)]);
}

/// The first halves hold 8 bytes, the second half alone 16, since it begins at byte 8.
#[test]
fn bytes_are_counted(rt: HostRuntime) {
    let mut pool: Pool = IpDefragPool::new(rt.alloc());
    equal(rt, pool.open_bytes(), 0);
    starts(rt, &mut pool, 1, 0);
    equal(rt, pool.open_bytes(), 8);
    waits(rt, &mut pool, SECOND, 1, 1);
    equal(rt, pool.open_bytes(), 8 + 16);
    // Bytes 16 to 24.
    waits(rt, &mut pool, AFTER, 1, 0);
    equal(rt, pool.open_bytes(), 24 + 16);
    // The same again.
    waits(rt, &mut pool, AFTER, 1, 0);
    equal(rt, pool.open_bytes(), 24 + 16);
    holds(rt, delivers(rt, &mut pool, FIRST, 1, 1));
    equal(rt, pool.open_bytes(), 24);
    keep_from(rt, &mut pool, u64::MAX);
    equal(rt, pool.open_bytes(), 0);
}

/// To be run with each allocation failing in turn, too: a fragment that finds no memory starts
/// nothing, and the order and the sum are as before.
#[test]
fn starts_run_out_of_memory(rt: HostRuntime) {
    let mut pool: Pool = IpDefragPool::new(rt.alloc());
    let mut before = 0;
    for (channel, bytes) in [(0u32, 8usize), (1, 16), (2, 24), (3, 32), (4, 40), (5, 48)] {
        if process(rt, &mut pool, FIRST, 1, channel).is_err() {
            equal(rt, pool.open_bytes(), before);
            starts(rt, &mut pool, 1, channel);
        }
        equal(rt, pool.open_bytes(), bytes);
        before = bytes;
    }
    forgets(
        rt,
        &mut pool,
        &[(0, 1), (1, 1), (2, 1), (3, 1), (4, 1), (5, 1)],
    );
}
