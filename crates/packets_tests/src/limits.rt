//! Runs that end at a limit of their rules.

use crate::captured::captured;
use crate::checks::fail;
use crate::classic_captures::capture_of;
use crate::frames::FRAMES;
use crate::outcomes::{LINES, are_counted, are_written, every_packet, packets_of};
use captures::Skipped;
use fault_devices::{Fault, FaultReader};
use packets::{Ending, Rules};
use std::alloc::{AllocError, Global};
use std::io::ErrorKind;
use std::process::Abort;

// The file header, and the records of five frames, of 54, 46, 42, 74 and 50 bytes.
const FIFTH_END: usize = 24 + 5 * 16 + 54 + 46 + 42 + 74 + 50;

const FIVE_LINES: &[u8] = b"    1   0.00\n    2   0.00\n    3   0.00\n    4   0.00\n    5   0.00\n";

// The fifth packet is a fragment whose datagram is not complete then.
const ONE_OPEN: Ending = Ending {
    open: 1,
    dropped: 0,
    skipped: Skipped::NONE,
    result: Ok(()),
};

fn counting(rt: impl Abort + Copy, alloc: Global, word: &str, count: u64) -> Rules {
    Rules {
        count: Some(count),
        ..packets_of(rt, alloc, word)
    }
}

// A read after the fifth packet would fail: it isn't made.
#[test]
fn nothing_is_read_after_so_many_packets(rt: HostRuntime) {
    let capture = captured(rt, rt.alloc(), 1, FRAMES);
    let rules = Rules {
        count: Some(5),
        ..every_packet(rt.alloc())
    };
    let fails = Fault::Fails(ErrorKind::Other);
    let reader = FaultReader::failing(capture.as_slice(), 1, FIFTH_END, fails);
    are_written(rt, rt.alloc(), &rules, &LINES, reader, Ok(()), FIVE_LINES);
    let reader = FaultReader::failing(capture.as_slice(), 1, FIFTH_END, fails);
    are_counted(rt, rt.alloc(), &rules, reader, ONE_OPEN, 5);
}

// The sixth packet is cut off.
#[test]
fn what_follows_a_limit_is_not_refused(rt: HostRuntime) {
    let capture = captured(rt, rt.alloc(), 1, FRAMES);
    let rules = Rules {
        count: Some(5),
        ..every_packet(rt.alloc())
    };
    let Some(cut) = capture.as_slice().get(..FIFTH_END + 20) else {
        fail(rt, "too short");
    };
    are_written(rt, rt.alloc(), &rules, &LINES, cut, Ok(()), FIVE_LINES);
}

#[test]
fn packets_that_are_kept_back_count(rt: HostRuntime) {
    let capture = captured(rt, rt.alloc(), 1, FRAMES);
    let lines = b"    2   0.00\n    5   0.00\n";
    let rules = counting(rt, rt.alloc(), "udp", 5);
    let reader = capture.as_slice();
    are_written(rt, rt.alloc(), &rules, &LINES, reader, Ok(()), lines);
    are_counted(rt, rt.alloc(), &rules, reader, ONE_OPEN, 2);
    // There are ten packets.
    let rules = counting(rt, rt.alloc(), "arp", 11);
    are_counted(rt, rt.alloc(), &rules, reader, ONE_OPEN, 1);
}

const LLDP: &str = "02000000000202000000000188cc";

// Records of that frame at these times.
fn timed(
    rt: impl Abort + Copy,
    alloc: Global,
    times: &[(u32, u32)],
) -> Result<Vec<u8>, AllocError> {
    let (Ok(mut capture), Ok(one)) = (capture_of(alloc, 1, &[]), capture_of(alloc, 1, &[LLDP]))
    else {
        fail(rt, "no capture");
    };
    let Some(rest) = one.as_slice().get(24 + 8..) else {
        fail(rt, "too short");
    };
    for (seconds, microseconds) in times {
        capture.extend_from_slice(&seconds.to_be_bytes())?;
        capture.extend_from_slice(&microseconds.to_be_bytes())?;
        capture.extend_from_slice(rest)?;
    }
    Ok(capture)
}

const TIMES: &[(u32, u32)] = &[
    (100, 500_000),
    (99, 0),
    (102, 499_999),
    (102, 500_000),
    (100, 500_000),
];

const ALL_READ: Ending = Ending {
    open: 0,
    dropped: 0,
    skipped: Skipped::NONE,
    result: Ok(()),
};

// So many of them are taken in so many seconds.
fn are_in_time(rt: impl Abort + Copy, alloc: Global, duration: u32, packets: u64) {
    let Ok(capture) = timed(rt, alloc, TIMES) else {
        fail(rt, "no memory");
    };
    let rules = Rules {
        duration: Some(duration),
        ..every_packet(alloc)
    };
    are_counted(rt, alloc, &rules, capture.as_slice(), ALL_READ, packets);
}

#[test]
fn packets_in_so_many_seconds(rt: HostRuntime) {
    are_in_time(rt, rt.alloc(), 1, 2);
    are_in_time(rt, rt.alloc(), 2, 3);
    are_in_time(rt, rt.alloc(), 3, 5);
    are_in_time(rt, rt.alloc(), u32::MAX, 5);
}

// Each record has 30 bytes. A read after the fourth one, which comes too late, would fail.
#[test]
fn nothing_is_read_after_so_many_seconds(rt: HostRuntime) {
    let Ok(capture) = timed(rt, rt.alloc(), TIMES) else {
        fail(rt, "no memory");
    };
    let rules = Rules {
        duration: Some(2),
        ..every_packet(rt.alloc())
    };
    let fails = Fault::Fails(ErrorKind::Other);
    let reader = FaultReader::failing(capture.as_slice(), 1, 24 + 4 * 30, fails);
    are_counted(rt, rt.alloc(), &rules, reader, ALL_READ, 3);
}
