//! Blocks that are skipped and longer than what a run holds, in a section with one Ethernet
//! interface. The files are laid out byte by byte after the format's description.
//! Calls have no contracts: tests alone make them, and are run.
use crate::checks::{append, joined, repeated};
use crate::packet_lines::{refused, reports_read};
use captures::CaptureError;
use fault_devices::FaultReader;
use std::process::Abort;

// A section header, and an interface of link type 1 that cuts nothing.
const PREFIX: &[u8; 48] = b"\
    \x0a\x0d\x0d\x0a\x1c\x00\x00\x00\x4d\x3c\x2b\x1a\x01\x00\x00\x00\xff\xff\xff\xff\
    \xff\xff\xff\xff\x1c\x00\x00\x00\x01\x00\x00\x00\x14\x00\x00\x00\x01\x00\x00\x00\
    \x00\x00\x00\x00\x14\x00\x00\x00";

// A simple packet of two bytes.
const PACKET: &[u8; 20] = b"\
    \x03\x00\x00\x00\x14\x00\x00\x00\x02\x00\x00\x00\xab\xcd\x00\x00\x14\x00\x00\x00";

// The kind of a custom block.
pub(crate) const CUSTOM: u32 = 0x0bad;

// The content of a block of this length: words that could be taken for its end too.
fn words_within(rt: impl Abort + AllocGlobal + Copy, len: u32) -> Vec<u8> {
    let mut words = Vec::new(rt.alloc());
    for position in 0..len.saturating_sub(12) / 4 {
        let word = if position % 3 == 0 { len } else { position };
        append(rt, &mut words, &[&word.to_le_bytes()]);
    }
    words
}

// A packet, a block of this kind and length, which ends with another one, and two packets.
pub(crate) fn with_long_block(
    rt: impl Abort + AllocGlobal + Copy,
    kind: u32,
    len: u32,
    second: u32,
) -> Vec<u8> {
    joined(
        rt,
        &[
            PREFIX,
            PACKET,
            &kind.to_le_bytes(),
            &len.to_le_bytes(),
            words_within(rt, len).as_slice(),
            &second.to_le_bytes(),
            PACKET,
            PACKET,
        ],
    )
}

// A word longer than what a run holds, and some times as long, however reads cut it.
#[test]
fn long_blocks_are_skipped(rt: HostRuntime) {
    let lines = b"frame 0 abcd\nframe 0 abcd\nframe 0 abcd\n";
    for len in [262_148, 262_152, 1_000_000] {
        let file = with_long_block(rt, CUSTOM, len, len);
        for size in [1, 3, 4_096, 262_144] {
            let mut reader = FaultReader::new(file.as_slice(), size);
            reports_read(rt, &mut reader, Ok(()), lines);
        }
    }
}

// The kinds that are read are refused, and so are lengths of no whole words and ends with another
// length. The packet before each is reported.
#[test]
fn long_blocks_that_are_refused(rt: HostRuntime) {
    let too_long = CaptureError::BlockTooLong(262_148);
    for (kind, len, second, error) in [
        (1, 262_148, 262_148, too_long),
        (3, 262_148, 262_148, too_long),
        (6, 262_148, 262_148, too_long),
        (CUSTOM, 262_149, 262_149, CaptureError::BadBlock),
        (CUSTOM, 262_148, 262_144, CaptureError::BadBlock),
        (CUSTOM, 1_000_000, 1_000_001, CaptureError::BadBlock),
    ] {
        let file = with_long_block(rt, kind, len, second);
        let wanted = refused(error, 2, 68, Some(kind));
        for size in [3, 262_144] {
            let mut reader = FaultReader::new(file.as_slice(), size);
            reports_read(rt, &mut reader, wanted, b"frame 0 abcd\n");
        }
    }
}

// The block has the bytes from 68 to 600,068.
#[test]
fn long_block_cut_off(rt: HostRuntime) {
    let file = with_long_block(rt, CUSTOM, 600_000, 600_000);
    let cut = refused(CaptureError::CutOff, 2, 68, Some(CUSTOM));
    for (len, wanted) in [
        // One byte gives no type.
        (69, refused(CaptureError::CutOff, 2, 68, None)),
        (80, cut),
        (262_144, cut),
        (262_212, cut),
        (600_063, cut),
        (600_064, cut),
        (600_067, cut),
        (600_068, Ok(())),
    ] {
        assert!(rt; len <= file.len());
        for size in [3, 262_144] {
            let mut reader = FaultReader::new(&file.as_slice()[..len], size);
            reports_read(rt, &mut reader, wanted, b"frame 0 abcd\n");
        }
    }
}

// A section of the other byte order with an interface, and a long block of it around what it holds.
const OTHER_SECTION: &[u8; 48] = b"\
    \x0a\x0d\x0d\x0a\x00\x00\x00\x1c\x1a\x2b\x3c\x4d\x00\x01\x00\x00\xff\xff\xff\xff\
    \xff\xff\xff\xff\x00\x00\x00\x1c\x00\x00\x00\x01\x00\x00\x00\x14\x00\x01\x00\x00\
    \x00\x00\x00\x00\x00\x00\x00\x14";

const HEAD: &[u8; 8] = b"\x00\x00\x00\x05\x00\x04\x00\x04";

const END: &[u8; 4] = b"\x00\x04\x00\x04";

// Two long blocks in a row, and a section of the other byte order that has one.
#[test]
fn long_blocks_of_both_byte_orders(rt: HostRuntime) {
    let low_order = with_long_block(rt, CUSTOM, 300_000, 300_000);
    let within = repeated(rt, b"\xff", 262_136);
    let file = joined(
        rt,
        &[
            low_order.as_slice(),
            OTHER_SECTION,
            HEAD,
            within.as_slice(),
            END,
            HEAD,
            within.as_slice(),
            END,
            b"\x00\x00\x00\x03\x00\x00\x00\x14\x00\x00\x00\x01\xef\x00\x00\x00\x00\x00\x00\x14",
        ],
    );
    let lines = b"frame 0 abcd\nframe 0 abcd\nframe 0 abcd\nframe 1 ef\n";
    for size in [7, 100_000, 262_144] {
        let mut reader = FaultReader::new(file.as_slice(), size);
        reports_read(rt, &mut reader, Ok(()), lines);
    }
}
