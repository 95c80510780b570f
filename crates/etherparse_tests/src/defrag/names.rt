//! Names that differ in one component alone: their datagrams stay apart.

use crate::checks::holds_in;
use crate::defrag::frames::{
    FIRST, IPV6_FIRST, IPV6_SECOND, SECOND, TAGGED_FIRST, TAGGED_SECOND, UDP, delivers,
};
use crate::defrag::pool_scripts::{NOTHING, Script, runs_all};
use etherparse::defrag::IpDefragPool;
use std::alloc::Global;
use std::process::Abort;
use std::test::*;

/// The halves of a datagram, and the byte of the second one that is of its name.
#[rattlefmt::skip]
const NAMES: &[(&str, &[u8], &[u8], usize)] = &[
    ("first byte of the identification", FIRST, SECOND, 18),
    ("last byte of the identification", FIRST, SECOND, 19),
    ("protocol", FIRST, SECOND, 23),
    ("first byte of the source", FIRST, SECOND, 26),
    ("last byte of the source", FIRST, SECOND, 29),
    ("first byte of the destination", FIRST, SECOND, 30),
    ("last byte of the destination", FIRST, SECOND, 33),
    ("first byte of the source over IPv6", IPV6_FIRST, IPV6_SECOND, 22),
    ("last byte of the source over IPv6", IPV6_FIRST, IPV6_SECOND, 37),
    ("first byte of the destination over IPv6", IPV6_FIRST, IPV6_SECOND, 38),
    ("last byte of the destination over IPv6", IPV6_FIRST, IPV6_SECOND, 53),
    ("protocol over IPv6", IPV6_FIRST, IPV6_SECOND, 54),
    ("identification over IPv6, byte 0", IPV6_FIRST, IPV6_SECOND, 58),
    ("identification over IPv6, byte 1", IPV6_FIRST, IPV6_SECOND, 59),
    ("identification over IPv6, byte 2", IPV6_FIRST, IPV6_SECOND, 60),
    ("identification over IPv6, byte 3", IPV6_FIRST, IPV6_SECOND, 61),
    ("first identifier", TAGGED_FIRST, TAGGED_SECOND, 15),
    ("second identifier", TAGGED_FIRST, TAGGED_SECOND, 19),
    ("third identifier", TAGGED_FIRST, TAGGED_SECOND, 23),
];

// Whether the second half completes the datagram, and not where one byte is changed. It has no
// contract, as tests alone call it.
fn stays_apart(
    rt: impl Abort + Copy,
    alloc: Global,
    first: &[u8],
    second: &[u8],
    changed: usize,
) -> bool {
    let mut other = [0; 70];
    assert!(rt; second.len() <= other.len() && changed < second.len());
    other[..second.len()].copy_from_slice(second);
    other[changed] ^= 0x80;
    let mut pool = IpDefragPool::new(alloc);
    !delivers(rt, &mut pool, first, 1, 0)
        && !delivers(rt, &mut pool, &other[..second.len()], 2, 0)
        && delivers(rt, &mut pool, second, 3, 0)
}

#[test]
fn names_in_each_component(rt: HostRuntime) {
    for (row, first, second, changed) in NAMES.iter() {
        let apart = stays_apart(rt, rt.alloc(), first, second, *changed);
        holds_in(rt, row, apart);
    }
}

// The second half with a time to live of 1.
const OTHER_TIME: &[u8] = &[
    0x02, 0, 0, 0, 0, 0x02, 0x02, 0, 0, 0, 0, 0x01, 0x08, 0, 0x45, 0, 0, 0x1c, 0, 0x07, 0, 0x01,
    0x01, 0x11, 0x66, 0xc7, 0x0a, 0, 0, 0x01, 0x0a, 0, 0, 0x02, 0x01, 0x02, 0x03, 0x04, 0x05, 0x06,
    0x07, 0x08,
];

#[rattlefmt::skip]
const SCRIPTS: &[Script] = &[
    ("the time to live names nothing", &[(FIRST, 1, 0, NOTHING, 1, 0), (OTHER_TIME, 2, 0, UDP, 0, 0)]),
    ("tags and none", &[(TAGGED_FIRST, 1, 0, NOTHING, 1, 0), (SECOND, 2, 0, NOTHING, 2, 0)]),
];

#[test]
fn names_with_other_components(rt: HostRuntime) {
    runs_all(rt, rt.alloc(), SCRIPTS);
}
