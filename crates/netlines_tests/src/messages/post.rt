//! Posted messages. The frames were worked out by hand after RFC 791 and RFC 1071.
//! Calls have no contracts: tests alone make them, and are run.
use crate::checks::{equal, holds};
use crate::runs::texts::answers_in_memory;
use arrayvec::ArrayVec;
use ep_base::IpNumber;
use hex::FromHexError;
use netlines::{IpFragVersionSpecId, Letter, PostError, RunError, VlanId, post};
use std::alloc::Global;
use std::fmt::Display;
use std::process::Abort;
use std::test::*;

// A UDP message with a right checksum.
pub(crate) const MESSAGE: &[u8] = &[0, 1, 0, 2, 0, 0x10, 0xdb, 0xb4, 1, 2, 3, 4, 5, 6, 7, 8];

// The frame that it is posted as.
pub(crate) const FRAME: &[u8] = &[
    2, 0, 0, 0, 0, 2, 2, 0, 0, 0, 0, 1, 8, 0, 0x45, 0, 0, 0x24, 0, 7, 0, 0, 0x40, 0x11, 0x66, 0xc0,
    10, 0, 0, 1, 10, 0, 0, 2, 0, 1, 0, 2, 0, 0x10, 0xdb, 0xb4, 1, 2, 3, 4, 5, 6, 7, 8,
];

// The same message with a right checksum between the IPv6 addresses.
pub(crate) const MESSAGE_V6: &[u8] = &[0, 1, 0, 2, 0, 0x10, 0xf5, 0xb2, 1, 2, 3, 4, 5, 6, 7, 8];

// A TCP segment with a right checksum.
pub(crate) const SEGMENT: &[u8] = &[
    0, 1, 0, 2, 0, 0, 0, 3, 0, 0, 0, 0, 0x50, 2, 4, 0, 0x97, 0xda, 0, 0,
];

pub(crate) fn version_id(version: u8) -> IpFragVersionSpecId {
    if version == 6 {
        return IpFragVersionSpecId::Ipv6 {
            source: [0xfd, 0, 0, 0, 0, 0, 0, 0, 0, 0, 0, 0, 0, 0, 0, 1],
            destination: [0xfd, 0, 0, 0, 0, 0, 0, 0, 0, 0, 0, 0, 0, 0, 0, 2],
            identification: 7,
        };
    }
    IpFragVersionSpecId::Ipv4 {
        source: [10, 0, 0, 1],
        destination: [10, 0, 0, 2],
        identification: 7,
    }
}

// A letter over this version with this number and these tags: a refused number would leave a 0,
// which no frame here has.
pub(crate) fn letter(rt: impl Abort + Copy, version: u8, number: u8, tags: &[u16]) -> Letter {
    let mut vlans = ArrayVec::new();
    for tag in tags {
        let tag = VlanId::try_new(*tag).unwrap_or(VlanId::ZERO);
        assert!(rt; vlans.try_push(tag).is_ok());
    }
    Letter {
        ethernet_source: [2, 0, 0, 0, 0, 1],
        ethernet_destination: [2, 0, 0, 0, 0, 2],
        vlans,
        version_id: version_id(version),
        number: IpNumber(number),
    }
}

// The IP version, a number, tags, a message, cuts, and the expected text.
type Posted = (
    u8,
    u8,
    &'static [u16],
    &'static [u8],
    &'static [u32],
    &'static str,
);

const POSTED: &[Posted] = &[
    (
        4,
        17,
        &[],
        MESSAGE,
        &[],
        "frames: 1\n\
            50 02000000000202000000000108004500002400070000401166c00a0000010a000002000\
            100020010dbb40102030405060708\n",
    ),
    (
        6,
        17,
        &[],
        MESSAGE_V6,
        &[],
        "frames: 1\n\
            70 02000000000202000000000186dd6000000000101140fd0000000000000000000000000\
            00001fd000000000000000000000000000002000100020010f5b20102030405060708\n",
    ),
    (
        6,
        17,
        &[5],
        MESSAGE_V6,
        &[],
        "frames: 1\n\
            74 0200000000020200000000018100000586dd6000000000101140fd00000000000000000\
            0000000000001fd000000000000000000000000000002000100020010f5b20102030405060\
            708\n",
    ),
    (
        4,
        17,
        &[5, 9],
        MESSAGE,
        &[],
        "frames: 1\n\
            58 02000000000202000000000188a800058100000908004500002400070000401166c00a0\
            000010a000002000100020010dbb40102030405060708\n",
    ),
    // The greatest tag, and no bytes.
    (
        6,
        253,
        &[4095, 256],
        &[],
        &[],
        "frames: 1\n\
            62 02000000000202000000000188a80fff8100010086dd600000000000fd40fd000000000\
            000000000000000000001fd000000000000000000000000000002\n",
    ),
    (
        4,
        6,
        &[],
        SEGMENT,
        &[],
        "frames: 1\n\
            54 02000000000202000000000108004500002800070000400666c70a0000010a000002000\
            1000200000003000000005002040097da0000\n",
    ),
    (
        4,
        6,
        &[],
        SEGMENT,
        &[8, 16],
        "frames: 3\n\
            42 02000000000202000000000108004500001c00072000400646d30a0000010a000002000\
            1000200000003\n\
            42 02000000000202000000000108004500001c00072001400646d20a0000010a000002000\
            0000050020400\n\
            38 02000000000202000000000108004500001800070002400666d50a0000010a00000297d\
            a0000\n",
    ),
    (
        6,
        17,
        &[],
        MESSAGE_V6,
        &[8],
        "frames: 2\n\
            70 02000000000202000000000186dd6000000000102c40fd0000000000000000000000000\
            00001fd0000000000000000000000000000021100000100000007000100020010f5b2\n\
            70 02000000000202000000000186dd6000000000102c40fd0000000000000000000000000\
            00001fd00000000000000000000000000000211000008000000070102030405060708\n",
    ),
    (
        4,
        17,
        &[5, 9],
        MESSAGE,
        &[8],
        "frames: 2\n\
            50 02000000000202000000000188a800058100000908004500001c00072000401146c80a0\
            000010a000002000100020010dbb4\n\
            50 02000000000202000000000188a800058100000908004500001c00070001401166c70a0\
            000010a0000020102030405060708\n",
    ),
];

// The length of a frame and its first 86 bytes.
fn frame_line(alloc: Global, frame: &[u8]) -> Result<String, FromHexError> {
    let digits = hex::encode(alloc, frame.get(..86).unwrap_or(frame))?;
    Ok(format!(in alloc; "{} {digits}\n", frame.len())?)
}

// How many frames there are, and a line for each.
fn frame_lines(alloc: Global, frames: &[Vec<u8>]) -> Result<String, FromHexError> {
    let mut text = format!(in alloc; "frames: {}\n", frames.len())?;
    for frame in frames.iter() {
        text.push_str(frame_line(alloc, frame.as_slice())?.as_str())?;
    }
    Ok(text)
}

// The frames that a message is posted as, or why it isn't.
fn actual(
    alloc: Global,
    letter: &Letter,
    message: &[u8],
    cuts: &[u32],
) -> Result<String, FromHexError> {
    match post(alloc, letter, message, cuts) {
        Ok(frames) => frame_lines(alloc, frames.as_slice()),
        Err(error) => Ok(format!(in alloc; "{error:?}")?),
    }
}

/// Compares the start of the text for a letter over this version and with this number and tags.
pub(crate) fn is_expected(
    rt: impl Abort + AllocGlobal + Copy,
    version: u8,
    number: u8,
    tags: &[u16],
    message: &[u8],
    cuts: &[u32],
    wanted: &str,
) {
    let letter = letter(rt, version, number, tags);
    let Ok(actual) = actual(rt.alloc(), &letter, message, cuts) else {
        panic!(rt; "no memory");
    };
    let prefix = actual
        .as_str()
        .get(..wanted.len())
        .unwrap_or(actual.as_str());
    let row = (version, number, message.len(), cuts);
    equal(rt, (row, prefix), (row, wanted));
}

#[test]
fn posted_messages(rt: HostRuntime) {
    for (version, number, tags, message, cuts, wanted) in POSTED.iter() {
        is_expected(rt, *version, *number, tags, message, cuts, wanted);
    }
}

// The greatest packets: the IP version, the length of the message, and the expected text.
#[rattlefmt::skip]
const LONGEST: &[(u8, usize, &str)] = &[
    (6, 65535, "frames: 1\n65589 02000000000202000000000186dd60000000fffffd40"),
    (4, 65515, "frames: 1\n65549 02000000000202000000000108004500ffff0007000040fd65f8"),
];

#[test]
fn longest_packets(rt: HostRuntime) -> Result<(), Fail> {
    let zeros = vec![in rt.alloc(); 0u8; 65535]?;
    for (version, len, wanted) in LONGEST.iter() {
        let message = zeros.get(..*len).unwrap_or(&[]);
        is_expected(rt, *version, 253, &[], message, &[], wanted);
    }
    Ok(())
}

const GOOD: &[u8] = b"message 17 good 000100020010dbb40102030405060708\n\
    message 17 good 000100020010dbb40102030405060708\n";

const CHANGED: &[u8] = &[0, 1, 0, 2, 0, 0x10, 0xdb, 0xb4, 1, 2, 3, 4, 5, 6, 7, 9];

const UNREADABLE: &[u8] = &[0, 1, 0, 2, 0, 0x20, 0xdb, 0xb4, 1, 2, 3, 4, 5, 6, 7, 8];

// A number, a message, and the answers to its frame in small and in capital digits.
const WORKED_ROWS: &[(u8, &[u8], &[u8])] = &[
    (17, MESSAGE, GOOD),
    (
        17,
        CHANGED,
        b"message 17 bad 000100020010dbb40102030405060709\n\
        message 17 bad 000100020010dbb40102030405060709\n",
    ),
    (17, UNREADABLE, b"refused frame\nrefused frame\n"),
    (
        253,
        MESSAGE,
        b"message 253 none 000100020010dbb40102030405060708\n\
        message 253 none 000100020010dbb40102030405060708\n",
    ),
];

// The lines of the one frame that a message is posted as, in small and in capital digits.
fn lines_of(alloc: Global, letter: &Letter, message: &[u8]) -> Result<String, FromHexError> {
    let Ok(frames) = post(alloc, letter, message, &[]) else {
        return Ok(String::new(alloc));
    };
    let frame = match frames.first() {
        Some(frame) => frame.as_slice(),
        None => &[],
    };
    let lower = hex::encode(alloc, frame)?;
    let upper = hex::encode_upper(alloc, frame)?;
    Ok(format!(in alloc; "frame 4294967295 {lower}\nframe 4294967295 {upper}")?)
}

fn posted_is_answered(
    rt: impl Abort + AllocGlobal + Copy,
    number: u8,
    message: &[u8],
    answers: &[u8],
) {
    match lines_of(rt.alloc(), &letter(rt, 4, number, &[]), message) {
        Ok(lines) => answers_in_memory(rt, lines.as_bytes(), answers),
        Err(_) => panic!(rt; "no memory"),
    }
}

#[test]
fn posted_frames_are_answered(rt: HostRuntime) {
    for (number, message, answers) in WORKED_ROWS.iter() {
        posted_is_answered(rt, *number, message, answers);
    }
}

#[test]
fn letters_are_copied(rt: HostRuntime) {
    let original = letter(rt, 6, 17, &[]);
    let copy: Result<_, _> = original.clone();
    let Ok(mut copy) = copy else {
        panic!(rt; "no memory");
    };
    let same = copy == original;
    let pushed = copy.vlans.try_push(VlanId::ZERO).is_ok();
    equal(rt, [same, pushed, copy == original], [true, true, false]);
}

// Whether a letter is the same with one field changed.
fn is_same_but_for(rt: impl Abort + Copy, field: u8) -> bool {
    let version = if field == 1 { 6 } else { 4 };
    let number = if field == 2 { 6 } else { 17 };
    let mut changed = letter(rt, version, number, &[]);
    if field == 3 {
        changed.ethernet_source[5] = 0xee;
    }
    if field == 4 {
        changed.ethernet_destination[0] = 0xee;
    }
    changed == letter(rt, 4, 17, &[])
}

#[test]
fn letters_differ_by_each_field(rt: HostRuntime) {
    for field in 0..5u8 {
        equal(rt, (field, is_same_but_for(rt, field)), (field, field == 0));
    }
}

// Whether the error has this text.
fn reads_as<E: Display + Drop>(alloc: Global, error: E, text: &str) -> bool {
    match format!(in alloc; "{error}") {
        Ok(found) => found.as_str() == text,
        Err(_) => false,
    }
}

#[rattlefmt::skip]
const POST_ERRORS: &[(PostError, &str)] = &[
    (PostError::Cuts { index: 1 }, "the message can't be cut at the cut with index 1"),
    (PostError::MessageTooLong, "the message is longer than 65535 bytes"),
    (PostError::ExtensionNumber, "the number is that of an extension header"),
    (PostError::IcmpOfOtherVersion, "the number is that of the other IP version's ICMP"),
    (PostError::PieceTooLong { index: 0 }, "the piece with index 0 is longer than a packet leaves room for"),
    (PostError::Memory, "out of memory"),
];

#[test]
fn texts_of_errors(rt: HostRuntime) {
    for (error, text) in POST_ERRORS.iter() {
        holds(rt, reads_as(rt.alloc(), *error, text));
    }
}

const RUN_ERRORS: &[(RunError, &str)] = &[
    (RunError::Read, "the input cannot be read"),
    (RunError::Write, "the output cannot be written"),
    (RunError::WriteZero, "the output takes no more bytes"),
    (RunError::Memory, "out of memory"),
    (RunError::TooManyReads, "too many reads"),
];

#[test]
fn texts_of_errors_of_a_run(rt: HostRuntime) {
    for (error, text) in RUN_ERRORS.iter() {
        holds(rt, reads_as(rt.alloc(), *error, text));
    }
}
