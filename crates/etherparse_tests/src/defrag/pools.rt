//! Many datagrams reassembled at a time, with memory enough.

use crate::checks::{equal, fail};
use crate::defrag::frames::{
    AFTER, FIRST, IPV6_FIRST, IPV6_SECOND, IPV6_UDP, LENT_UDP, SECOND, UDP,
};
use crate::defrag::pool_scripts::{
    KEEP_FROM, NOTHING, REFUSED_LATER, RETAINED, Script, is_shown, runs_all,
};
use ep_packet::Class;
use etherparse::defrag::{IpDefragError, IpDefragPayloadVec, IpDefragPool, PoolAnswer};
use std::process::Abort;
use std::test::*;

/// Calls of each kind.
pub const CALLS_IN_A_ROW: Script = (
    "calls in a row",
    &[
        (SECOND, 1, 0, NOTHING, 1, 0),
        (SECOND, 2, 0, NOTHING, 1, 0),
        (FIRST, 3, 0, UDP, 0, 0),
        (FIRST, 4, 0, NOTHING, 1, 0),
        (KEEP_FROM, 5, 0, RETAINED, 0, 1),
    ],
);

#[rattlefmt::skip]
const SCRIPTS: &[Script] = &[
    CALLS_IN_A_ROW,
    ("two fragments", &[(FIRST, 1, 0, NOTHING, 1, 0), (SECOND, 2, 0, LENT_UDP, 0, 1), (SECOND, 3, 0, NOTHING, 1, 0)]),
    ("two fragments over IPv6", &[(IPV6_SECOND, 1, 0, NOTHING, 1, 0), (IPV6_FIRST, 2, 0, IPV6_UDP, 0, 0)]),
    ("channels apart", &[(FIRST, 1, 0, NOTHING, 1, 0), (SECOND, 2, 1, NOTHING, 2, 0), (SECOND, 3, 0, UDP, 1, 0)]),
    (
        "refused fragments keep the time",
        &[
            (SECOND, 1, 0, NOTHING, 1, 0),
            (AFTER, 5, 0, REFUSED_LATER, 1, 0),
            (KEEP_FROM, 2, 0, RETAINED, 0, 1),
            (FIRST, 6, 0, NOTHING, 1, 0),
        ],
    ),
];

#[test]
fn datagrams_of_two_halves(rt: HostRuntime) {
    runs_all(rt, rt.alloc(), SCRIPTS);
}

// Passes a fragment to a pool by its class. It has no contract, as tests alone call it.
fn process_by_class(
    rt: impl Abort + Copy,
    pool: &mut IpDefragPool<u64, u32>,
    frame: &[u8],
) -> Result<Option<IpDefragPayloadVec>, IpDefragError> {
    let Class::Cut(message) = Class::from_ethernet(frame) else {
        fail(rt, "a frame has no part");
    };
    pool.process_fragment(message, 1, 0)
}

#[test]
fn two_fragments_by_their_class(rt: HostRuntime) {
    let mut pool = IpDefragPool::new(rt.alloc());
    equal(rt, process_by_class(rt, &mut pool, FIRST), Ok(None));
    let Ok(Some(message)) = process_by_class(rt, &mut pool, SECOND) else {
        fail(rt, "the second half doesn't complete the message");
    };
    let message = PoolAnswer::Payload(message);
    is_shown(rt, rt.alloc(), "two parts", &message, UDP);
}
