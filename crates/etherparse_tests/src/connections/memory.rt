//! Out of memory. `tools/faults_tried` runs these tests with each allocation failing in turn: then
//! one of the calls finds none, and the same call succeeds after it.

use crate::checks::{equal, equal_in, fail, holds_in};
use std::num::NonZeroUsize;
use std::process::Abort;
use tcp_streams::{
    Control, Direction, FlowPacket, Flows, Gap, Refused, SegmentFlags, StreamBuf, StreamCounter,
    StreamCounts,
};

const NONE: SegmentFlags = SegmentFlags {
    syn: false,
    fin: false,
    rst: false,
};

/// How much a buffer holds, its first gap, the end of what is available, and a sum over all gaps
/// and the bytes after them.
#[derive(Clone, Copy, Debug, PartialEq, Eq)]
struct Contents(u64, Option<Gap>, u64, u64);

fn shown(buf: &StreamBuf) -> Contents {
    let mut sum = 0u64;
    let mut position = 0;
    'gaps: for _ in 0..u64::MAX {
        let Some((gap, bytes)) = buf.gap_after(position) else {
            break 'gaps;
        };
        position = gap.end;
        sum = mixed(mixed(sum, gap.start), gap.end);
        for byte in bytes {
            sum = mixed(sum, u64::from(*byte));
        }
    }
    Contents(buf.size(), buf.gap(), buf.available_end(), sum)
}

fn mixed(sum: u64, value: u64) -> u64 {
    sum.wrapping_mul(31).wrapping_add(value)
}

// Where there is no memory, all stays as it was.
fn add(rt: impl Abort + Copy, buf: &mut StreamBuf, number: u32, payload: &[u8]) {
    let before = shown(buf);
    match buf.add(number, NONE, payload) {
        Ok(_) => {}
        Err(Refused::OutOfMemory) => {
            equal_in(rt, "as before", &shown(buf), &before);
            holds_in(rt, "again", buf.add(number, NONE, payload).is_ok());
        }
        Err(_) => fail(rt, "refused"),
    }
}

// Twenty gaps of three bytes, each of which is then made two, from the last one on: among so many a
// gap is added and a gap is made two both where there is a place for it and where memory is needed.
#[test]
fn a_stream_runs_out_of_memory(rt: HostRuntime) {
    let mut buf = StreamBuf::new(rt.alloc(), 256);
    add(&rt, &mut buf, 100, b"a");
    for i in 1..21u32 {
        add(&rt, &mut buf, 100 + 4 * i, b"b");
    }
    for i in 0..20u32 {
        add(&rt, &mut buf, 178 - 4 * i, b"c");
    }
    equal_in(&rt, "size", &buf.size(), &(81 + 40 * 16));
    add(&rt, &mut buf, 100, b"abc");
    add(&rt, &mut buf, 178, &[7; 100]);
    equal_in(&rt, "available", &buf.available_end(), &3);
    equal_in(&rt, "gap", &buf.gap(), &Some(Gap { start: 3, end: 4 }));
}

// A segment that begins in a gap and goes beyond the last byte needs two gaps at once.
#[test]
fn a_longer_stream_runs_out_of_memory(rt: HostRuntime) {
    let mut buf = StreamBuf::new(rt.alloc(), 256);
    add(&rt, &mut buf, 100, b"a");
    for i in 1..31u32 {
        add(&rt, &mut buf, 100 + 8 * i, b"b");
        add(&rt, &mut buf, 98 + 8 * i, b"cdbfg");
    }
    equal_in(&rt, "size", &buf.size(), &(243 + 30 * 16));
}

#[test]
fn a_counter_runs_out_of_memory(rt: HostRuntime) {
    let mut counter = StreamCounter::new(rt.alloc(), 64);
    for number in [100, 104, 108] {
        let is_followed = counter.is_followed();
        let counts = counter.counts(Direction::FromLower);
        let added = counter.add(Direction::FromLower, number, Some(500), NONE, b"ab");
        if added.is_err() {
            holds_in(&rt, "followed before", is_followed);
            holds_in(&rt, "stopped", !counter.is_followed());
            equal_in(&rt, "size", &counter.size(), &0);
            equal_in(
                &rt,
                "counts",
                &counter.counts(Direction::FromLower),
                &counts,
            );
        }
    }
    // One that is stopped takes each segment, and counts none.
    let counts = counter.counts(Direction::FromLower);
    let repeated = counter.add(Direction::FromLower, 100, Some(500), NONE, b"ab");
    holds_in(&rt, "taken", repeated.is_ok());
    let wanted = StreamCounts {
        repeated: if counter.is_followed() { 2 } else { 0 },
        ..counts
    };
    equal_in(&rt, "then", &counter.counts(Direction::FromLower), &wanted);
}

#[test]
fn connections_run_out_of_memory(rt: HostRuntime) {
    let Some(most) = NonZeroUsize::new(64) else {
        fail(&rt, "it is zero")
    };
    let packet = FlowPacket {
        time: 1,
        bytes: 60,
        direction: Direction::FromLower,
        control: Control::Syn,
    };
    let mut table = match Flows::<u8, u32>::new(rt.alloc(), most) {
        Ok(table) => table,
        Err(_) => return,
    };
    for key in 0..64u32 {
        let len = table.len();
        if table.add(key, packet, 7).is_err() {
            equal(&rt, (table.len(), table.get(&key).is_some()), (len, false));
            holds_in(&rt, "again", table.add(key, packet, 7).is_ok());
        }
        equal(&rt, table.len(), len.saturating_add(1));
    }
}
