//! The times of packets, in lines and in captures that are written of them. The files are laid out
//! byte by byte after the formats' descriptions.
//! Calls have no contracts: tests alone make them, and are run.
use crate::checks::{append, equal, joined};
use crate::formats::classic::{
    BIG_MICROSECONDS, BIG_NANOSECONDS, LITTLE_MICROSECONDS, LITTLE_NANOSECONDS,
};
use crate::formats::text::{BAD, OTHER, capture_of};
use crate::packet_lines::reports_all;
use captures::{Extra, RunError, TimeUnit};
use std::process::Abort;

const TIMED_LINES: &[u8; 238] =
    b"frame 0 02000000000202000000000108004500002400010000401166c60a0000010a000002000100020010dbb40102030405060708 1700000000 250000\n\
    frame 0 ffffffffffff020000000001080600010800060400010200000000010a0000010000000000000a000002 1700000001 250000\n";

// The files of scapy, of which a capture in either unit is written, and read again.
#[test]
fn times_of_scapy(rt: HostRuntime) {
    for file in [
        LITTLE_MICROSECONDS,
        BIG_MICROSECONDS,
        LITTLE_NANOSECONDS,
        BIG_NANOSECONDS,
    ] {
        reports_all(rt, Extra::Times, file, TIMED_LINES);
    }
    for time_unit in [TimeUnit::Microseconds, TimeUnit::Nanoseconds] {
        let file = capture_of(rt, time_unit, &mut TIMED_LINES.as_slice(), Ok(()));
        reports_all(rt, Extra::Times, file.as_slice(), TIMED_LINES);
    }
}

// The fraction of a second may be more than one second, and no time is later than the last one of
// 32 bits.
#[test]
fn times_of_classic_captures(rt: HostRuntime) {
    let micro = b"\xa1\xb2\xc3\xd4".as_slice();
    let nano = b"\xa1\xb2\x3c\x4d".as_slice();
    for (magic, time, line) in [
        (
            micro,
            b"\0\0\0\x05\0\x0f\x42\x3f".as_slice(),
            "frame 0 01 5 999999\n",
        ),
        (micro, b"\0\0\0\x05\0\x1e\x84\x81", "frame 0 01 7 1\n"),
        (
            micro,
            b"\xff\xff\xff\xff\xff\xff\xff\xff",
            "frame 0 01 4294967295 999999 999\n",
        ),
        (
            nano,
            b"\0\0\0\x01\x07\x5b\xcd\x15",
            "frame 0 01 1 123456 789\n",
        ),
        (nano, b"\0\0\0\0\0\0\0\x07", "frame 0 01 0 0 7\n"),
        (nano, b"\0\0\0\x01\x3b\x9a\xca\x00", "frame 0 01 2 0\n"),
    ] {
        // High byte first, with one packet of one byte.
        let file = joined(
            rt,
            &[
                magic,
                b"\x00\x02\x00\x04\0\0\0\0\0\0\0\0\x00\x04\x00\x00\0\0\0\x01",
                time,
                b"\0\0\0\x01\0\0\0\x01\x01",
            ],
        );
        reports_all(rt, Extra::Times, file.as_slice(), line.as_bytes());
    }
}

// A section header, low byte first.
const SECTION: &[u8; 28] = b"\
    \x0a\x0d\x0d\x0a\x1c\0\0\0\x4d\x3c\x2b\x1a\x01\0\0\0\xff\xff\xff\xff\xff\xff\xff\xff\x1c\0\0\0";

// The description of an Ethernet interface with these options.
fn describe(rt: impl Abort + Copy, file: &mut Vec<u8>, options: &[u8]) {
    let len = 20u8.saturating_add((options.len() % 256) as u8);
    append(
        rt,
        file,
        &[
            &[1, 0, 0, 0, len, 0, 0, 0, 1, 0, 0, 0, 0, 0, 0, 0],
            options,
            &[len, 0, 0, 0],
        ],
    );
}

// An enhanced packet of one byte, at this count of its clock's units.
fn add_packet(rt: impl Abort + Copy, file: &mut Vec<u8>, interface: u8, count: u64) {
    append(
        rt,
        file,
        &[
            &[6, 0, 0, 0, 36, 0, 0, 0, interface, 0, 0, 0],
            &((count >> 32) as u32).to_le_bytes(),
            &((count % 0x1_0000_0000) as u32).to_le_bytes(),
            b"\x01\0\0\0\x01\0\0\0\x01\0\0\0\x24\0\0\0",
        ],
    );
}

// The options of an interface, a count of its clock's units, and the line.
#[rattlefmt::skip]
const CLOCKS: &[(&[u8], u64, &str)] = &[
    // Microseconds, where no option states another unit.
    (b"", 1_700_000_000_250_000, "frame 0 01 1700000000 250000\n"),
    // Powers of ten: a second, a nanosecond, a picosecond, and what no count reaches.
    (b"\x09\0\x01\0\x00\0\0\0", 5, "frame 0 01 5 0\n"),
    (b"\x09\0\x01\0\x09\0\0\0", 1_700_000_000_123_456_789, "frame 0 01 1700000000 123456 789\n"),
    (b"\x09\0\x01\0\x0c\0\0\0", 1_500_000_000_999, "frame 0 01 1 500000\n"),
    (b"\x09\0\x01\0\x1c\0\0\0", 0xffff_ffff_ffff_ffff, "frame 0 01 0 0 1\n"),
    (b"\x09\0\x01\0\x1d\0\0\0", 0xffff_ffff_ffff_ffff, "frame 0 01 0 0\n"),
    (b"\x09\0\x01\0\x7f\0\0\0", 0xffff_ffff_ffff_ffff, "frame 0 01 0 0\n"),
    // Powers of two: a second, a 1024th of one, and what no count reaches.
    (b"\x09\0\x01\0\x80\0\0\0", 7, "frame 0 01 7 0\n"),
    (b"\x09\0\x01\0\x8a\0\0\0", 1_740_800_000_512, "frame 0 01 1700000000 500000\n"),
    (b"\x09\0\x01\0\x8a\0\0\0", 1_740_800_000_001, "frame 0 01 1700000000 976 562\n"),
    (b"\x09\0\x01\0\xff\0\0\0", 0xffff_ffff_ffff_ffff, "frame 0 01 0 0\n"),
    // An offset of an hour, of an hour before, and before 1970; a time after 2106.
    (b"\x0e\0\x08\0\x10\x0e\0\0\0\0\0\0", 1_000_000, "frame 0 01 3601 0\n"),
    (b"\x0e\0\x08\0\xf0\xf1\xff\xff\xff\xff\xff\xff", 3_601_000_000, "frame 0 01 1 0\n"),
    (b"\x0e\0\x08\0\xf0\xf1\xff\xff\xff\xff\xff\xff", 3_599_000_000, "frame 0 01 0 0\n"),
    (b"\x09\0\x01\0\x00\0\0\0", 0x1_0000_0000, "frame 0 01 4294967295 999999 999\n"),
    // Two signed numbers of 64 bits: beyond 2106, and the first below 0.
    (b"\x0e\0\x08\0\0\0\0\0\0\0\0\x40", 0, "frame 0 01 4294967295 999999 999\n"),
    (b"\x0e\0\x08\0\0\0\0\0\0\0\0\x80", 1, "frame 0 01 0 0\n"),
    // After a comment; after the end of the options; of another length; cut off.
    (b"\x01\0\x05\0hello\0\0\0\x09\0\x01\0\x00\0\0\0\0\0\0\0", 5, "frame 0 01 5 0\n"),
    (b"\0\0\0\0\x09\0\x01\0\x00\0\0\0", 5, "frame 0 01 0 5\n"),
    (b"\x09\0\x02\0\x00\0\0\0", 5, "frame 0 01 0 5\n"),
    (b"\x0e\0\x08\0\x10\x0e\0\0", 5, "frame 0 01 0 5\n"),
];

#[test]
fn clocks_of_interfaces(rt: HostRuntime) {
    for (options, count, line) in CLOCKS.iter() {
        let mut file = joined(rt, &[SECTION]);
        describe(rt, &mut file, *options);
        add_packet(rt, &mut file, 0, *count);
        reports_all(rt, Extra::Times, file.as_slice(), line.as_bytes());
    }
}

// An obsolete packet of interface 0 at a second, 16 dropped; a simple one, which has no time; and a
// section in the other byte order, whose interface counts seconds.
#[test]
fn times_of_other_blocks(rt: HostRuntime) {
    let mut file = joined(rt, &[SECTION]);
    describe(rt, &mut file, b"");
    append(
        rt,
        &mut file,
        &[
            b"\x02\0\0\0\x24\0\0\0\0\0\x10\0\0\0\0\0\x40\x42\x0f\0\x01\0\0\0\x01\0\0\0\
              \x02\0\0\0\x24\0\0\0",
            b"\x03\0\0\0\x14\0\0\0\x01\0\0\0\x03\0\0\0\x14\0\0\0",
            b"\x0a\x0d\x0d\x0a\0\0\0\x1c\x1a\x2b\x3c\x4d\0\x01\0\0\xff\xff\xff\xff\xff\
              \xff\xff\xff\0\0\0\x1c",
            b"\0\0\0\x01\0\0\0\x28\0\x01\0\0\0\0\0\0\0\x09\0\x01\x00\0\0\0\0\x0e\0\x08\
              \0\0\0\0\0\0\0\x02\0\0\0\x28",
            b"\0\0\0\x06\0\0\0\x24\0\0\0\0\0\0\0\0\0\0\0\x05\0\0\0\x01\0\0\0\x01\x04\0\
              \0\0\0\0\0\x24",
        ],
    );
    let lines = b"frame 0 02 1 0\nframe 0 03 0 0\nframe 1 04 7 0\n";
    reports_all(rt, Extra::Times, file.as_slice(), lines);
}

// The first 32 interfaces have clocks of their own. After them all have that of the last one.
#[test]
fn clocks_after_the_32nd(rt: HostRuntime) {
    let mut file = joined(rt, &[SECTION]);
    for _ in 0..31 {
        describe(rt, &mut file, b"");
    }
    describe(rt, &mut file, b"\x09\0\x01\0\x03\0\0\0");
    describe(rt, &mut file, b"\x09\0\x01\0\x00\0\0\0");
    add_packet(rt, &mut file, 31, 1);
    add_packet(rt, &mut file, 32, 1);
    describe(rt, &mut file, b"");
    add_packet(rt, &mut file, 32, 1);
    add_packet(rt, &mut file, 31, 1);
    add_packet(rt, &mut file, 0, 1);
    let lines = b"frame 31 01 0 1000\nframe 32 01 1 0\nframe 32 01 0 1\n\
        frame 31 01 0 1000\nframe 0 01 0 1\n";
    reports_all(rt, Extra::Times, file.as_slice(), lines);
}

// A line, how a run of it ends, and what follows the file header of a capture in microseconds, and
// in nanoseconds.
const CAPTURED: &[(&str, Result<(), RunError>, &[u8], &[u8])] = &[
    (
        "frame 0 01 5 6 7",
        Ok(()),
        b"\x05\0\0\0\x06\0\0\0\x01\0\0\0\x01\0\0\0\x01",
        b"\x05\0\0\0\x77\x17\0\0\x01\0\0\0\x01\0\0\0\x01",
    ),
    (
        "frame 0 01 5 999999 0000000999\n",
        Ok(()),
        b"\x05\0\0\0\x3f\x42\x0f\0\x01\0\0\0\x01\0\0\0\x01",
        b"\x05\0\0\0\xff\xc9\x9a\x3b\x01\0\0\0\x01\0\0\0\x01",
    ),
    ("frame 0 01 5 6 1000\n", OTHER, b"", b""),
    ("frame 0 01 5 1000000 0\n", OTHER, b"", b""),
    ("frame 0 01 5 6 \n", OTHER, b"", b""),
    ("forget 1\n", BAD, b"", b""),
];

// Such a run, and the magic number of its capture.
fn is_captured(
    rt: impl Abort + AllocGlobal + Copy,
    time_unit: TimeUnit,
    text: &str,
    wanted: Result<(), RunError>,
    (magic, packets): (&[u8], &[u8]),
) {
    let file = capture_of(rt, time_unit, &mut text.as_bytes(), wanted);
    equal(rt, file.as_slice().get(..4), Some(magic));
    equal(rt, file.as_slice().get(24..), Some(packets));
}

#[test]
fn nanoseconds_of_lines(rt: HostRuntime) {
    for (text, wanted, micro, nano) in CAPTURED.iter() {
        let micro = (b"\xd4\xc3\xb2\xa1".as_slice(), *micro);
        is_captured(rt, TimeUnit::Microseconds, text, *wanted, micro);
        let nano = (b"\x4d\x3c\xb2\xa1".as_slice(), *nano);
        is_captured(rt, TimeUnit::Nanoseconds, text, *wanted, nano);
    }
}
