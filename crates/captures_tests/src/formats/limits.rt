//! Blocks of least and greatest lengths, in a section with one Ethernet interface that cuts
//! nothing.
use crate::checks::{append, joined, repeated};
use crate::packet_lines::{refused, reports, reports_bytes};
use captures::CaptureError;
use std::process::Abort;

const PREFIX: &[u8; 48] = b"\
    \x0a\x0d\x0d\x0a\x1c\x00\x00\x00\x4d\x3c\x2b\x1a\x01\x00\x00\x00\xff\xff\xff\xff\
    \xff\xff\xff\xff\x1c\x00\x00\x00\x01\x00\x00\x00\x14\x00\x00\x00\x01\x00\x00\x00\
    \x00\x00\x00\x00\x14\x00\x00\x00";

// The start and a block of this kind and length, 0 but for these words after its two lengths.
fn with_block(rt: impl Abort + AllocGlobal + Copy, kind: u32, len: u32, words: &[u32]) -> Vec<u8> {
    let mut file = joined(rt, &[PREFIX, &kind.to_le_bytes(), &len.to_le_bytes()]);
    let mut left = (len as usize).saturating_sub(12);
    for word in words {
        if left >= 4 {
            append(rt, &mut file, &[&word.to_le_bytes()]);
            left -= 4;
        }
    }
    let zeros = repeated(rt, b"\0", left);
    append(rt, &mut file, &[zeros.as_slice(), &len.to_le_bytes()]);
    file
}

#[test]
fn each_length(rt: HostRuntime) {
    let bad = Err(CaptureError::BadBlock);
    let too_long = Err(CaptureError::FrameTooLong(99_992));
    let block_too_long = Err(CaptureError::BlockTooLong(262_148));
    for (kind, len, words, wanted, line_len) in [
        // The least that each kind has: 12 of any, 20 of an interface, 32 and 16 of packets; and 4
        // bytes less. An obsolete packet has as many as an enhanced one.
        (2, 32, [0, 0, 0, 0, 0].as_slice(), Ok(()), 0),
        (2, 28, [0, 0, 0, 0].as_slice(), bad, 0),
        (5, 12, [0u32, 0, 0, 0].as_slice(), Ok(()), 0),
        (1, 16, [1].as_slice(), bad, 0),
        (6, 32, [0, 0, 0, 0, 0].as_slice(), Ok(()), 0),
        (6, 28, [0, 0, 0, 0].as_slice(), bad, 0),
        (3, 16, [0].as_slice(), Ok(()), 0),
        (3, 12, [].as_slice(), bad, 0),
        // No whole words.
        (5, 13, [].as_slice(), bad, 0),
        // A packet's bytes up to the second length, and into it.
        (3, 20, [4, 0].as_slice(), Ok(()), 17),
        (3, 20, [5, 0].as_slice(), bad, 0),
        (6, 36, [0, 0, 0, 4, 4, 0].as_slice(), Ok(()), 17),
        (6, 36, [0, 0, 0, 5, 5, 0].as_slice(), bad, 0),
        // The interface of an obsolete packet is in the lower half, and the upper may hold any
        // number of dropped packets.
        (
            2,
            36,
            [0xffff_0000, 0, 0, 4, 4, 0x0403_0201].as_slice(),
            Ok(()),
            17,
        ),
        (2, 36, [1, 0, 0, 4, 4, 0].as_slice(), bad, 0),
        (2, 36, [0, 0, 0, 5, 5, 0].as_slice(), bad, 0),
        (2, 262_148, [].as_slice(), block_too_long, 0),
        (
            2,
            100_024,
            [0, 0, 0, 99_992, 99_992].as_slice(),
            too_long,
            0,
        ),
        // As long as a line can hold, and one byte more.
        (
            6,
            100_024,
            [0, 0, 0, 99_991, 99_991].as_slice(),
            Ok(()),
            199_991,
        ),
        (
            6,
            100_024,
            [0, 0, 0, 99_992, 99_992].as_slice(),
            too_long,
            0,
        ),
        // As long as a block that is read may be, and a word more.
        (1, 262_144, [1].as_slice(), Ok(()), 0),
        (1, 262_148, [1].as_slice(), block_too_long, 0),
        (3, 262_144, [1].as_slice(), Ok(()), 11),
        (3, 262_148, [1].as_slice(), block_too_long, 0),
        // Any other may be longer, but has whole words.
        (5, 262_144, [].as_slice(), Ok(()), 0),
        (5, 262_148, [].as_slice(), Ok(()), 0),
        (5, 262_149, [].as_slice(), bad, 0),
    ] {
        let file = with_block(rt, kind, len, words);
        // The block follows the 48 bytes of the start.
        let wanted = match wanted {
            Ok(()) => Ok(()),
            Err(error) => refused(error, 1, 48, Some(kind)),
        };
        reports_bytes(rt, file.as_slice(), wanted, line_len);
    }
}

// Fewer bytes than a file header has are no capture, whatever their lengths are.
#[test]
fn prefix_of_a_bad_section(rt: HostRuntime) {
    let mut file = *PREFIX;
    file[4] = 7;
    for (len, error) in [(20, CaptureError::NotCapture), (24, CaptureError::BadBlock)] {
        let wanted = refused(error, 1, 0, Some(0x0a0d_0d0a));
        reports(rt, &file[..len], wanted, b"");
    }
}
