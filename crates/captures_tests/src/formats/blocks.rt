//! Pcapng files. The first was written by scapy 2.5.0, the second is laid out byte by byte after
//! the format's description.
ghost use Rattle.std.specs.Prelude.{◌+◌, ◌≤◌, length};

use crate::checks::joined;
use crate::packet_lines::{LINES, refused, reports};
use captures::CaptureError;

const SCAPY: &[u8; 208] = b"\
    \x0a\x0d\x0d\x0a\x1c\x00\x00\x00\x4d\x3c\x2b\x1a\x01\x00\x00\x00\x00\x00\x00\x00\
    \x00\x00\x00\x00\x1c\x00\x00\x00\x01\x00\x00\x00\x14\x00\x00\x00\x01\x00\x00\x00\
    \x00\x00\x04\x00\x14\x00\x00\x00\x06\x00\x00\x00\x54\x00\x00\x00\x00\x00\x00\x00\
    \x24\x0a\x06\x00\x90\x10\x22\x18\x32\x00\x00\x00\x32\x00\x00\x00\x02\x00\x00\x00\
    \x00\x02\x02\x00\x00\x00\x00\x01\x08\x00\x45\x00\x00\x24\x00\x01\x00\x00\x40\x11\
    \x66\xc6\x0a\x00\x00\x01\x0a\x00\x00\x02\x00\x01\x00\x02\x00\x10\xdb\xb4\x01\x02\
    \x03\x04\x05\x06\x07\x08\x00\x00\x54\x00\x00\x00\x06\x00\x00\x00\x4c\x00\x00\x00\
    \x00\x00\x00\x00\x24\x0a\x06\x00\xd0\x52\x31\x18\x2a\x00\x00\x00\x2a\x00\x00\x00\
    \xff\xff\xff\xff\xff\xff\x02\x00\x00\x00\x00\x01\x08\x06\x00\x01\x08\x00\x06\x04\
    \x00\x01\x02\x00\x00\x00\x00\x01\x0a\x00\x00\x01\x00\x00\x00\x00\x00\x00\x0a\x00\
    \x00\x02\x00\x00\x4c\x00\x00\x00\
";

// A section of either byte order, each with two interfaces. The first has a block of another kind
// and a packet with options, the second a comment and a simple packet that its interface cut.
pub(crate) const TWO_SECTIONS: &[u8; 320] = b"\
    \x0a\x0d\x0d\x0a\x1c\x00\x00\x00\x4d\x3c\x2b\x1a\x01\x00\x00\x00\xff\xff\xff\xff\
    \xff\xff\xff\xff\x1c\x00\x00\x00\x01\x00\x00\x00\x14\x00\x00\x00\x01\x00\x00\x00\
    \x00\x00\x00\x00\x14\x00\x00\x00\x01\x00\x00\x00\x14\x00\x00\x00\x01\x00\x00\x00\
    \x00\x00\x00\x00\x14\x00\x00\x00\x05\x00\x00\x00\x14\x00\x00\x00\x00\x00\x00\x00\
    \x00\x00\x00\x00\x14\x00\x00\x00\x06\x00\x00\x00\x2c\x00\x00\x00\x01\x00\x00\x00\
    \x01\x00\x00\x00\x02\x00\x00\x00\x05\x00\x00\x00\x3c\x00\x00\x00\x01\x02\x03\x04\
    \x05\x00\x00\x00\x00\x00\x00\x00\x2c\x00\x00\x00\x03\x00\x00\x00\x14\x00\x00\x00\
    \x03\x00\x00\x00\xaa\xbb\xcc\x00\x14\x00\x00\x00\x0a\x0d\x0d\x0a\x00\x00\x00\x28\
    \x1a\x2b\x3c\x4d\x00\x01\x00\x00\xff\xff\xff\xff\xff\xff\xff\xff\x00\x01\x00\x02\
    \x68\x69\x00\x00\x00\x00\x00\x00\x00\x00\x00\x28\x00\x00\x00\x01\x00\x00\x00\x14\
    \x00\x01\x00\x00\x00\x00\x00\x04\x00\x00\x00\x14\x00\x00\x00\x01\x00\x00\x00\x14\
    \x00\x01\x00\x00\x00\x00\x00\x09\x00\x00\x00\x14\x00\x00\x00\x03\x00\x00\x00\x14\
    \x00\x00\x00\x06\x11\x22\x33\x44\x00\x00\x00\x14\x00\x00\x00\x06\x00\x00\x00\x24\
    \x00\x00\x00\x01\x00\x00\x00\x01\x00\x00\x00\x02\x00\x00\x00\x02\x00\x00\x00\x02\
    \x55\x66\x00\x00\x00\x00\x00\x24\x00\x00\x00\x06\x00\x00\x00\x20\x00\x00\x00\x00\
    \x00\x00\x00\x01\x00\x00\x00\x02\x00\x00\x00\x00\x00\x00\x00\x07\x00\x00\x00\x20\
";

pub(crate) const TWO_SECTIONS_LINES: &[u8; 64] = b"frame 1 0102030405\n\
    frame 0 aabbcc\n\
    frame 2 11223344\n\
    frame 3 5566\n";

#[test]
fn file_of_scapy(rt: HostRuntime) {
    reports(rt, SCAPY, Ok(()), LINES);
}

const SECTION: u32 = 0x0a0d_0d0a;

// Where a prefix of the two sections ends: the packet, the block's offset and its type.
fn block_at(n: usize) -> (u64, usize, u32) {
    match n {
        0..=27 => (1, 0, SECTION),
        28..=47 => (1, 28, 1),
        48..=67 => (1, 48, 1),
        68..=87 => (1, 68, 5),
        88..=131 => (1, 88, 6),
        132..=151 => (2, 132, 3),
        152..=191 => (3, 152, SECTION),
        192..=211 => (3, 192, 1),
        212..=231 => (3, 212, 1),
        232..=251 => (3, 232, 3),
        252..=287 => (4, 252, 6),
        _ => (5, 288, 6),
    }
}

// The lines that a prefix of the two sections gives.
fn lines_before(n: usize) -> &'static [u8] {
    match n {
        0..=131 => b"",
        132..=151 => &TWO_SECTIONS_LINES[..19],
        152..=251 => &TWO_SECTIONS_LINES[..34],
        252..=287 => &TWO_SECTIONS_LINES[..51],
        _ => TWO_SECTIONS_LINES,
    }
}

#[test]
fn each_prefix_of_two_sections(rt: HostRuntime) {
    for n in 0..=320 {
        let (packet, offset, kind) = block_at(n);
        // Four bytes of a block give its type.
        let block = if n.saturating_sub(offset) < 4 {
            None
        } else {
            Some(kind)
        };
        let wanted = match n {
            0..=23 => refused(CaptureError::NotCapture, packet, offset as u64, block),
            28 | 48 | 68 | 88 | 132 | 152 | 192 | 212 | 232 | 252 | 288 | 320 => Ok(()),
            _ => refused(CaptureError::CutOff, packet, offset as u64, block),
        };
        reports(rt, &TWO_SECTIONS[..n], wanted, lines_before(n));
    }
}

// The two sections with other bytes at an offset.
fn with_bytes(at: usize, bytes: &[u8]) -> [u8; 320]
    requires { at + length bytes.now ≤ 320 }
{
    let mut file = *TWO_SECTIONS;
    file[at..at + bytes.len()].copy_from_slice(bytes);
    file
}

#[test]
fn each_refusal(rt: HostRuntime) {
    let bad = CaptureError::BadBlock;
    let none = b"".as_slice();
    let two = lines_before(152);
    let three = lines_before(252);
    for (at, bytes, error, lines, (packet, offset, block)) in [
        // no kind of a section header
        (
            0,
            b"\x0b".as_slice(),
            CaptureError::NotCapture,
            none,
            (1, 0, None),
        ),
        // no byte order magic
        (
            8,
            b"\x4e",
            CaptureError::NotCapture,
            none,
            (1, 0, Some(SECTION)),
        ),
        // versions 2.0, 1.1 and 1.3
        (
            12,
            b"\x02",
            CaptureError::Version(2, 0),
            none,
            (1, 0, Some(SECTION)),
        ),
        (
            14,
            b"\x01",
            CaptureError::Version(1, 1),
            none,
            (1, 0, Some(SECTION)),
        ),
        (
            167,
            b"\x03",
            CaptureError::Version(1, 3),
            two,
            (3, 152, Some(SECTION)),
        ),
        // another length at the end
        (24, b"\x20", bad, none, (1, 0, Some(SECTION))),
        // less than a block has
        (4, b"\x08", bad, none, (1, 0, Some(SECTION))),
        // no whole words
        (32, b"\x15", bad, none, (1, 28, Some(1))),
        // link type of PPP, on whose interface the second packet is
        (
            36,
            b"\x09",
            CaptureError::LinkType(9),
            lines_before(132),
            (2, 132, Some(3)),
        ),
        // 4 bytes above the limit
        (
            32,
            b"\x04\x00\x04",
            CaptureError::BlockTooLong(262_148),
            none,
            (1, 28, Some(1)),
        ),
        // an interface that is not described
        (96, b"\x02", bad, none, (1, 88, Some(6))),
        // more bytes than the block has
        (108, b"\x0d", bad, none, (1, 88, Some(6))),
        // a second section without byte order magic
        (160, b"\x1b", bad, two, (3, 152, Some(SECTION))),
        // a simple packet of 4 bytes, and other blocks instead of the interfaces before it
        (
            192,
            b"\x00\x00\x00\x05\x00\x00\x00\x14\x00\x01\x00\x00\x00\x00\x00\x04\
            \x00\x00\x00\x14\x00\x00\x00\x05\x00\x00\x00\x14\x00\x01\x00\x00\
            \x00\x00\x00\x09\x00\x00\x00\x14\x00\x00\x00\x03\x00\x00\x00\x14\
            \x00\x00\x00\x04",
            bad,
            two,
            (3, 232, Some(3)),
        ),
        // a packet of the third interface of the file, in a section of two
        (260, b"\x00\x00\x00\x02", bad, three, (4, 252, Some(6))),
    ] {
        let wanted = refused(error, packet, offset, block);
        reports(rt, &with_bytes(at, bytes), wanted, lines);
    }
}

// An interface that cuts packets at 4 bytes, and simple packets of 3, 4 and 1500 bytes: the lesser
// of both lengths is there.
#[test]
fn simple_packets_under_a_snap_length(rt: HostRuntime) {
    let file = joined(
        rt,
        &[
            &TWO_SECTIONS[..28],
            b"\x01\0\0\0\x14\0\0\0\x01\0\0\0\x04\0\0\0\x14\0\0\0",
            b"\x03\0\0\0\x14\0\0\0\x03\0\0\0\x01\x02\x03\0\x14\0\0\0",
            b"\x03\0\0\0\x14\0\0\0\x04\0\0\0\x01\x02\x03\x04\x14\0\0\0",
            b"\x03\0\0\0\x14\0\0\0\xdc\x05\0\0\x01\x02\x03\x04\x14\0\0\0",
        ],
    );
    let lines = b"frame 0 010203\nframe 0 01020304\nframe 0 01020304\n";
    reports(rt, file.as_slice(), Ok(()), lines);
}

#[test]
fn fields_that_are_ignored(rt: HostRuntime) {
    for (at, bytes) in [
        // minor version 2, which is to be read as 0
        (14, b"\x02".as_slice()),
        (167, b"\x02"),
        // the length of the first section
        (16, b"\x7c\x00\x00\x00\x00\x00\x00\x00"),
        // the reserved half of an interface description, in either byte order
        (38, b"\xff\xff"),
        (202, b"\xff\xff"),
        // what a block of another kind holds
        (76, b"\xff\xff\xff\xff\xff\xff\xff\xff"),
        // the time of a packet
        (100, b"\xff\xff\xff\xff\xff\xff\xff\xff"),
        // the padding of a packet
        (121, b"\xff\xff\xff"),
        (147, b"\xff"),
    ] {
        reports(rt, &with_bytes(at, bytes), Ok(()), TWO_SECTIONS_LINES);
    }
}
