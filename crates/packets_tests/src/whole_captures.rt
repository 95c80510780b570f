//! Runs over whole captures by reads of one byte, and over packets that are passed over.

use crate::captured::captured;
use crate::checks::equal;
use crate::frames::FRAMES;
use crate::outcomes::{LINES, are_counted, are_written, end_of_lines, every_packet, packets_of};
use captures::{CaptureError, Position, RunError, Skipped, Unfit};
use fault_devices::FaultReader;
use packets::{Ending, Rules};
use std::alloc::Global;
use std::process::Abort;

const LINES_OF_UDP: &[u8] =
    b"    2   0.00\n    5   0.00\n    6   0.00\n    9   0.01\n   10   0.01\n";

// Packets that the filter keeps back are counted too.
#[test]
fn lines_of_packets_that_are_let_through(rt: HostRuntime) {
    let capture = captured(rt, rt.alloc(), 1, FRAMES);
    let rules = packets_of(rt, rt.alloc(), "udp");
    let reader = FaultReader::new(capture.as_slice(), 1);
    are_written(rt, rt.alloc(), &rules, &LINES, reader, Ok(()), LINES_OF_UDP);
}

const ONE_OPEN: Ending = Ending {
    open: 1,
    dropped: 0,
    skipped: Skipped::NONE,
    result: Ok(()),
};

// One datagram is not complete at the end, of whose fragments the first one came.
#[test]
fn counts_of_packets_that_are_let_through(rt: HostRuntime) {
    let capture = captured(rt, rt.alloc(), 1, FRAMES);
    let rules = packets_of(rt, rt.alloc(), "udp");
    let reader = FaultReader::new(capture.as_slice(), 1);
    are_counted(rt, rt.alloc(), &rules, reader, ONE_OPEN, 5);
}

// Bytes that are not the start of an IP packet, between two packets.
const RAW: &[&str] = &[
    "450000140001000040fd00000a0000010a000063",
    "00",
    "450000140001000040fd00000a0000020a000063",
];

// After the file header and the first record.
const REFUSED: Ending = Ending {
    open: 0,
    dropped: 0,
    skipped: Skipped::NONE,
    result: Err(RunError::Capture(
        CaptureError::NoFrame,
        Position {
            packet: 2,
            offset: 24 + 16 + 20,
            block: None,
        },
    )),
};

const PASSED_OVER: Ending = Ending {
    open: 0,
    dropped: 0,
    skipped: Skipped {
        without_frame: 1,
        ..Skipped::NONE
    },
    result: Ok(()),
};

// A run that ends so, with lines of 13 bytes, of so many packets.
fn passes_over(
    rt: impl Abort + Copy,
    alloc: Global,
    unfit: Unfit,
    ending: Ending,
    len: usize,
    packets: u64,
) {
    let capture = captured(rt, alloc, 101, RAW);
    let rules = Rules {
        unfit,
        ..every_packet(alloc)
    };
    let mut out = Vec::new(alloc);
    let ended = end_of_lines(alloc, &rules, &LINES, capture.as_slice(), &mut out);
    equal(
        rt,
        (ended, out.len()),
        ((ending.result, ending.skipped), len),
    );
    are_counted(rt, alloc, &rules, capture.as_slice(), ending, packets);
}

#[test]
fn packets_that_are_passed_over(rt: HostRuntime) {
    passes_over(rt, rt.alloc(), Unfit::Refuse, REFUSED, 13, 1);
    passes_over(rt, rt.alloc(), Unfit::Skip, PASSED_OVER, 2 * 13, 2);
}

// Packets have the numbers of their records: one of which no byte was captured has one, too, and so
// has one that is passed over.
#[test]
fn numbers_of_records(rt: HostRuntime) {
    let capture = captured(rt, rt.alloc(), 101, &[RAW[0], "", RAW[1], RAW[2]]);
    let rules = Rules {
        unfit: Unfit::Skip,
        ..every_packet(rt.alloc())
    };
    let mut out = Vec::new(rt.alloc());
    let (result, _) = end_of_lines(rt.alloc(), &rules, &LINES, capture.as_slice(), &mut out);
    equal(rt, result, Ok(()));
    equal(
        rt,
        out.as_slice(),
        b"    1   0.00\n    4   0.00\n".as_slice(),
    );
}
