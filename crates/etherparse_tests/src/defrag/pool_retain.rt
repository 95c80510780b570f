//! Which reassemblies a pool keeps by their times, and how often it calls the test.

use crate::checks::holds;
use crate::defrag::frames::{FIRST, SECOND, UDP, waits};
use crate::defrag::pool_scripts::{KEEP_FROM, NOTHING, RETAINED, Script, runs_all};
use etherparse::defrag::IpDefragPool;
use std::cell::Cell;
use std::test::*;

const SCRIPTS: &[Script] = &[
    (
        "a time at the bound",
        &[
            (FIRST, 1, 0, NOTHING, 1, 0),
            (FIRST, 2, 1, NOTHING, 2, 0),
            (FIRST, 3, 2, NOTHING, 3, 0),
            (KEEP_FROM, 2, 0, RETAINED, 2, 1),
            (SECOND, 4, 0, NOTHING, 3, 0),
            (SECOND, 4, 1, UDP, 2, 0),
            (SECOND, 4, 2, UDP, 1, 0),
        ],
    ),
    // An accepted fragment renews its reassembly's time.
    (
        "a renewed time at the bound",
        &[
            (FIRST, 1, 0, NOTHING, 1, 0),
            (FIRST, 1, 1, NOTHING, 2, 0),
            (FIRST, 2, 1, NOTHING, 2, 0),
            (KEEP_FROM, 2, 0, RETAINED, 1, 1),
            (SECOND, 3, 0, NOTHING, 2, 0),
            (SECOND, 3, 1, UDP, 1, 0),
        ],
    ),
];

#[test]
fn times_at_the_bound(rt: HostRuntime) {
    runs_all(rt, rt.alloc(), SCRIPTS);
}

/// No clause states how often the test is called: once for each reassembly, whether it stays or is
/// dropped.
#[test]
fn called_once_for_each_reassembly(rt: HostRuntime) {
    let mut pool = IpDefragPool::new(rt.alloc());
    let calls = Cell::new(0u32);
    let times = Cell::new(0u64);
    for (channel, time) in [(0, 1), (1, 10), (2, 100), (3, 1000), (4, 10000)] {
        waits(rt, &mut pool, FIRST, time, channel);
    }
    for (bound, left, sum) in [
        (100, 5, 11111),
        (1000, 3, 11100),
        (20000, 2, 11000),
        (0, 0, 0),
    ] {
        calls.set(0);
        times.set(0);
        let kept = pool.retain(|time: &u64| {
            calls.set(calls.get().wrapping_add(1));
            times.set(times.get().wrapping_add(*time));
            *time >= bound
        });
        holds(rt, kept.is_ok());
        holds(rt, calls.get() == left && times.get() == sum);
    }
}
