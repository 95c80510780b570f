//! Ranges of bytes.

use crate::checks::{equal, holds};
use etherparse::defrag::IpFragRange;
use std::test::*;

// Two ranges, and what they are as one.
const MERGED: &[((u16, u16), (u16, u16), Option<(u16, u16)>)] = &[
    ((3, 7), (1, 8), Some((1, 8))),
    ((1, 8), (3, 7), Some((1, 8))),
    ((0, 1), (2, 3), None),
    ((2, 3), (0, 1), None),
    ((5, 3), (1, 8), Some((1, 8))),
    ((0, 8), (8, 16), Some((0, 16))),
];

// A range and another one, with what they are as one; no contract, as tests alone call it.
fn merged(a: (u16, u16), b: (u16, u16)) -> ((u16, u16), (u16, u16), Option<(u16, u16)>) {
    let first = IpFragRange {
        start: a.0,
        end: a.1,
    };
    let second = IpFragRange {
        start: b.0,
        end: b.1,
    };
    match first.merge(second) {
        Some(both) => (a, b, Some((both.start, both.end))),
        None => (a, b, None),
    }
}

#[test]
fn ranges_merge(rt: HostRuntime) {
    for row in MERGED.iter() {
        equal(rt, merged(row.0, row.1), *row);
    }
}

#[test]
fn ranges_are_ordered_by_their_start(rt: HostRuntime) {
    let early = IpFragRange { start: 1, end: 9 };
    let late = IpFragRange { start: 2, end: 3 };
    holds(rt, early < late);
    holds(rt, early < IpFragRange { start: 1, end: 10 });
}
