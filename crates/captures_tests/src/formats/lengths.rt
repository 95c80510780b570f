//! The lengths that packets had on the wire, in lines and in captures that are written of them. The
//! files are laid out byte by byte after the formats' descriptions.
//! Calls have no contracts: tests alone make them, and are run.
use crate::checks::{equal, joined};
use crate::formats::text::{BAD, OTHER, capture_of};
use crate::packet_lines::reports_all;
use captures::{Extra, RunError, TimeUnit, frame_wire_len};

// Of a classic capture, high byte first: the last byte of the link type; the head of a record at 5 seconds, after the
// time; its bytes; and the line.
#[rattlefmt::skip]
const RECORDS: &[(&[u8], &[u8], &[u8], &str)] = &[
    // Ethernet: 2 bytes of 2, of 1500, of the most that a record can state; and of 1 and of none, which
    // is wrong.
    (b"\x01", b"\0\0\0\x02\0\0\0\x02", b"\x0a\xff", "frame 0 0aff 5 6\n"),
    (b"\x01", b"\0\0\0\x02\0\0\x05\xdc", b"\x0a\xff", "frame 0 0aff 5 6 0 1500\n"),
    (b"\x01", b"\0\0\0\x02\xff\xff\xff\xff", b"\x0a\xff", "frame 0 0aff 5 6 0 4294967295\n"),
    (b"\x01", b"\0\0\0\x02\0\0\0\x01", b"\x0a\xff", "frame 0 0aff 5 6\n"),
    (b"\x01", b"\0\0\0\x02\0\0\0\0", b"\x0a\xff", "frame 0 0aff 5 6\n"),
    // IP: 1 byte of 1, of 20, of the most, and of none. An Ethernet II header has 14 bytes.
    (b"\x65", b"\0\0\0\x01\0\0\0\x01", b"\x45", "frame 0 000000000000000000000000080045 5 6\n"),
    (b"\x65", b"\0\0\0\x01\0\0\0\x14", b"\x45", "frame 0 000000000000000000000000080045 5 6 0 34\n"),
    (b"\x65", b"\0\0\0\x01\xff\xff\xff\xff", b"\x45", "frame 0 000000000000000000000000080045 5 6 0 4294967295\n"),
    (b"\x65", b"\0\0\0\x01\0\0\0\0", b"\x45", "frame 0 000000000000000000000000080045 5 6\n"),
    // OpenBSD loopback: 4 bytes before the packet.
    (b"\x6c", b"\0\0\0\x05\0\0\0\x18", b"\0\0\0\x02\x45", "frame 0 000000000000000000000000080045 5 6 0 34\n"),
    // Linux cooked: 16 bytes, from an address of 6, IPv4; of 1 on the wire.
    (
        b"\x71",
        b"\0\0\0\x11\0\0\0\x24",
        b"\0\0\0\x01\0\x06\x02\0\0\0\0\x01\0\0\x08\0\x45",
        "frame 0 000000000000020000000001080045 5 6 0 34\n",
    ),
    (
        b"\x71",
        b"\0\0\0\x11\0\0\0\x01",
        b"\0\0\0\x01\0\x06\x02\0\0\0\0\x01\0\0\x08\0\x45",
        "frame 0 000000000000020000000001080045 5 6\n",
    ),
];

#[test]
fn lengths_of_records(rt: HostRuntime) {
    for (link_type, lengths, bytes, line) in RECORDS.iter() {
        let file = joined(
            rt,
            &[
                b"\xa1\xb2\xc3\xd4\x00\x02\x00\x04\0\0\0\0\0\0\0\0\x00\x04\x00\x00\0\0\0".as_slice(),
                *link_type,
                b"\0\0\0\x05\0\0\0\x06",
                *lengths,
                *bytes,
            ],
        );
        reports_all(rt, Extra::Times, file.as_slice(), line.as_bytes());
    }
}

// A section whose interface cuts packets at 2 bytes and counts nanoseconds, and packets of 9: an
// enhanced, an obsolete and a simple one; and a simple one of 2.
const BLOCKS: &[u8; 172] = b"\
    \x0a\x0d\x0d\x0a\x1c\0\0\0\x4d\x3c\x2b\x1a\x01\0\0\0\xff\xff\xff\xff\xff\xff\xff\xff\x1c\0\0\0\
    \x01\0\0\0\x20\0\0\0\x01\0\0\0\x02\0\0\0\x09\0\x01\0\x09\0\0\0\0\0\0\0\x20\0\0\0\
    \x06\0\0\0\x24\0\0\0\0\0\0\0\0\0\0\0\x07\0\0\0\x02\0\0\0\x09\0\0\0\x0a\xff\0\0\x24\0\0\0\
    \x02\0\0\0\x24\0\0\0\0\0\0\0\0\0\0\0\x07\0\0\0\x02\0\0\0\x09\0\0\0\x0a\xff\0\0\x24\0\0\0\
    \x03\0\0\0\x14\0\0\0\x09\0\0\0\x0a\xff\0\0\x14\0\0\0\
    \x03\0\0\0\x14\0\0\0\x02\0\0\0\x0a\xff\0\0\x14\0\0\0\
";

#[test]
fn lengths_of_blocks(rt: HostRuntime) {
    let lines =
        b"frame 0 0aff 0 0 7 9\nframe 0 0aff 0 0 7 9\nframe 0 0aff 0 0 0 9\nframe 0 0aff 0 0\n";
    reports_all(rt, Extra::Times, BLOCKS, lines);
}

// Nothing but `--times` shows a length.
#[test]
fn lines_without_times_have_no_lengths(rt: HostRuntime) {
    let line = "frame 0 0aff\n".as_bytes();
    let lines = joined(rt, &[line, line, line, line]);
    reports_all(rt, Extra::Nothing, BLOCKS, lines.as_slice());
    reports_all(rt, Extra::Forget(1), BLOCKS, lines.as_slice());
}

// A line, how a run of it ends, and what follows the file header.
#[rattlefmt::skip]
const LINES: &[(&str, Result<(), RunError>, &[u8])] = &[
    ("frame 0 01 5 6 7 8\n", Ok(()), b"\x05\0\0\0\x77\x17\0\0\x01\0\0\0\x08\0\0\0\x01"),
    ("frame 0 01 5 6 0 1500", Ok(()), b"\x05\0\0\0\x70\x17\0\0\x01\0\0\0\xdc\x05\0\0\x01"),
    // As many bytes as the frame has, or fewer, of which as many are written; the greatest number of 32
    // bits, and ten digits.
    ("frame 0 01 5 6 0 1\n", Ok(()), b"\x05\0\0\0\x70\x17\0\0\x01\0\0\0\x01\0\0\0\x01"),
    ("frame 0 01 5 6 0 0\n", Ok(()), b"\x05\0\0\0\x70\x17\0\0\x01\0\0\0\x01\0\0\0\x01"),
    ("frame 0 0aff 5 6 0 1\n", Ok(()), b"\x05\0\0\0\x70\x17\0\0\x02\0\0\0\x02\0\0\0\x0a\xff"),
    ("frame 0 01 0 0 0 4294967295\n", Ok(()), b"\0\0\0\0\0\0\0\0\x01\0\0\0\xff\xff\xff\xff\x01"),
    ("frame 0 01 0 0 0 0000000009\n", Ok(()), b"\0\0\0\0\0\0\0\0\x01\0\0\0\x09\0\0\0\x01"),
    // 33 bits, eleven digits, no digit, a sign; one number more; a frame of no byte, and a time that
    // is none.
    ("frame 0 01 0 0 0 4294967296\n", OTHER, b""),
    ("frame 0 01 0 0 0 00000000009\n", OTHER, b""),
    ("frame 0 01 0 0 0 \n", OTHER, b""),
    ("frame 0 01 0 0 0 +9\n", OTHER, b""),
    ("frame 0 01 0 0 0 9 9\n", OTHER, b""),
    ("frame 0  0 0 0 9\n", BAD, b""),
    ("frame 0 01 0 0 1000 9\n", OTHER, b""),
    ("frame 0 01 0 0  9\n", OTHER, b""),
];

#[test]
fn lengths_of_lines(rt: HostRuntime) {
    for (text, wanted, packets) in LINES.iter() {
        let file = capture_of(rt, TimeUnit::Nanoseconds, &mut text.as_bytes(), *wanted);
        equal(rt, file.as_slice().get(24..), Some(*packets));
    }
}

// How many bytes a frame has, and how many of its packet were captured and were on the wire: whole, cut,
// one of raw IP, a wrong record, and more than 32 bits hold.
#[rattlefmt::skip]
const FRAMES: &[(usize, usize, u32, u32)] = &[
    (60, 60, 60, 60),
    (60, 60, 1514, 1514),
    (34, 20, 1500, 1514),
    (34, 20, 6, 34),
    (34, 20, 0, 34),
    (34, 20, 4_294_967_295, 4_294_967_295),
];

#[test]
fn lengths_of_frames(rt: HostRuntime) {
    for (len, captured, wire_len, wanted) in FRAMES.iter() {
        equal(rt, frame_wire_len(*len, *captured, *wire_len), *wanted);
    }
}

// The lines of the blocks are a capture with the same lines.
#[test]
fn lengths_come_back(rt: HostRuntime) {
    let lines =
        b"frame 0 0aff 0 0 7 9\nframe 0 0aff 5 6\nframe 0 0aff 5 6 7\nframe 0 0aff 4294967295 999999 999 3\n";
    let file = capture_of(rt, TimeUnit::Nanoseconds, &mut lines.as_slice(), Ok(()));
    reports_all(rt, Extra::Times, file.as_slice(), lines);
}
