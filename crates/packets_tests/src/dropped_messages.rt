//! Which messages are dropped so that the incomplete ones take no more than they may.

use crate::captured::{captured, dissected};
use crate::checks::{equal, fail};
use crate::outcomes::{are_counted, every_packet};
use captures::{Packets, Skipped, Unfit};
use packets::{Dissector, Ending, Rules};
use std::alloc::Global;
use std::process::Abort;

// The first 16 bytes of three UDP datagrams, and then the last 12 of each. They count as 656 bytes
// until they are complete, and as 668 where the last ones came first.
const FRAGMENTS: &[&str] = &[
    "02000000000202000000000108004500002400012000401146c60a0000010a00000200350fa0001c0000\
        6162636465666768",
    "02000000000202000000000108004500002400022000401146c50a0000010a00000200350fa0001c0000\
        6162636465666768",
    "02000000000202000000000108004500002400032000401146c40a0000010a00000200350fa0001c0000\
        6162636465666768",
    "02000000000202000000000108004500002000010002401166c80a0000010a000002696a6b6c6d6e6f70\
        71727374",
    "02000000000202000000000108004500002000020002401166c70a0000010a000002696a6b6c6d6e6f70\
        71727374",
    "02000000000202000000000108004500002000030002401166c60a0000010a000002696a6b6c6d6e6f70\
        71727374",
];

// A fragment of 8 bytes at offset 65,000, which counts as 65,648 bytes.
const HIGH: &str =
    "02000000000202000000000108004500001c00013fbd401127110a0000010a0000026162636465666768";

fn ends(
    rt: impl Abort + Copy,
    alloc: Global,
    frames: &[&str],
    size: u64,
    open: usize,
    dropped: u64,
) {
    let capture = captured(rt, alloc, 1, frames);
    let rules = Rules {
        reassembly_memory: size,
        ..every_packet(alloc)
    };
    let ending = Ending {
        open,
        dropped,
        skipped: Skipped::NONE,
        result: Ok(()),
    };
    are_counted(
        rt,
        alloc,
        &rules,
        capture.as_slice(),
        ending,
        frames.len() as u64,
    );
}

// All three take 1,968 bytes. With one less the first one is dropped with the third packet, and then
// the oldest with each.
#[test]
fn the_oldest_are_dropped(rt: HostRuntime) {
    ends(rt, rt.alloc(), FRAGMENTS, 1968, 0, 0);
    ends(rt, rt.alloc(), FRAGMENTS, 1967, 2, 4);
    ends(rt, rt.alloc(), FRAGMENTS, 668, 1, 5);
    ends(rt, rt.alloc(), FRAGMENTS, 655, 0, 6);
    ends(rt, rt.alloc(), FRAGMENTS, 0, 0, 6);
    ends(rt, rt.alloc(), FRAGMENTS, u64::MAX, 0, 0);
}

#[test]
fn gaps_count(rt: HostRuntime) {
    ends(rt, rt.alloc(), &[HIGH], 65_648, 1, 0);
    ends(rt, rt.alloc(), &[HIGH], 65_647, 0, 1);
}

// A call drops as many as it has to.
#[test]
fn several_are_dropped_at_once(rt: HostRuntime) {
    let Some(frames) = FRAGMENTS.get(..3) else {
        fail(rt, "no three frames");
    };
    let capture = captured(rt, rt.alloc(), 1, frames);
    let mut dissector = Dissector::new(rt.alloc());
    for packet in Packets::new(Unfit::Refuse, capture.as_slice()) {
        drop(dissected(rt, &mut dissector, &packet));
    }
    for (size, open, dropped) in [
        (1968, 3, 0),
        (1311, 1, 2),
        (656, 1, 2),
        (655, 0, 3),
        (0, 0, 3),
    ] {
        dissector.keep_within(size);
        equal(rt, (dissector.open(), dissector.dropped()), (open, dropped));
    }
}
