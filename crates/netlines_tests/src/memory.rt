//! Out of memory. `tools/faults_tried` runs each of these tests once for each of its growths, and
//! refuses that one: then a call returns this error and no other, what it changes is as before, and
//! the same call succeeds after it. All growths are those of the calls.
use crate::checks::{equal, holds};
use crate::messages::post::{FRAME, MESSAGE, MESSAGE_V6, SEGMENT, letter, version_id};
use crate::messages::sealing::{Header, transport};
use crate::runs::rows::{TWO_ANSWERS, TWO_FRAGMENTS};
use crate::runs::texts::{TWO_ROUNDS, TWO_ROUNDS_ANSWERS};
use fault_devices::FaultReader;
use netlines::{PostError, RunError, SealError, post, run, seal_message};
use std::process::Abort;
use std::test::*;

// The first fragment of a message, a line that forgets it, both fragments and a line that forgets
// nothing.
const FORGOTTEN_HALF: &[u8] = b"\
    frame 0 02000000000202000000000108004500001c00072000401146c80a0000010a000002\
    000100020010dbb4\n\
    forget 2\n\
    frame 0 02000000000202000000000108004500001c00072000401146c80a0000010a000002\
    000100020010dbb4\n\
    frame 0 02000000000202000000000108004500001c00070001401166c70a0000010a000002\
    0102030405060708\n\
    forget 100\n";

const FORGOTTEN_ANSWERS: &[u8] = b"wait\nok\nwait\n\
    message 17 good 000100020010dbb40102030405060708\nok\n";

// The input and its answers, and the lengths of the answers to the lines before one that takes
// memory.
type Run = (&'static [u8], &'static [u8], &'static [usize]);

#[rattlefmt::skip]
const RUNS: &[Run] = &[
    (TWO_FRAGMENTS, TWO_ANSWERS, &[0, 5]),
    // The second round takes the buffers of the first.
    (TWO_ROUNDS, TWO_ROUNDS_ANSWERS, &[0, 5, 54, 59, 64, 120, 125, 174, 179, 184]),
    (FORGOTTEN_HALF, FORGOTTEN_ANSWERS, &[0, 8, 13]),
    // Lines that hold no fragment take no memory, so a run answers all of them or reads nothing.
    (b"\nforget\nforget 7", b"bad line\nbad line\nok\n", &[0]),
];

// Whether a run answers the whole input. If not, it was out of memory, and what it wrote are the
// answers to the lines before one that takes some: so many bytes. Without memory for its buffers it
// reads nothing.
fn is_answered(
    rt: impl Abort + AllocGlobal + Copy,
    input: &[u8],
    answers: &[u8],
    prefixes: &[usize],
) -> bool {
    let mut room = [0u8; 512];
    let mut left = room.as_mut_slice();
    let mut reader = FaultReader::new(input, 4096);
    let result = run(rt.alloc(), &mut reader, &mut left);
    let written = 512 - left.len().min(512);
    holds(rt, answers.starts_with(&room[..written]));
    if result.is_ok() {
        holds(rt, written == answers.len());
        return true;
    }
    holds(
        rt,
        result == Err(RunError::Memory) && prefixes.contains(&written),
    );
    holds(rt, reader.calls > 0 || written == 0);
    false
}

#[test]
fn runs_run_out_of_memory(rt: HostRuntime) {
    for (input, answers, prefixes) in RUNS.iter() {
        let first = is_answered(rt, input, answers, prefixes);
        let second = is_answered(rt, input, answers, prefixes);
        holds(rt, first || second);
    }
}

// After two tags over IPv6.
const TAGGED: &[u8] = &[
    2, 0, 0, 0, 0, 2, 2, 0, 0, 0, 0, 1, 0x88, 0xa8, 0, 5, 0x81, 0, 0, 9, 0x86, 0xdd, 0x60, 0, 0, 0,
    0, 0x10, 0x11, 0x40, 0xfd, 0, 0, 0, 0, 0, 0, 0, 0, 0, 0, 0, 0, 0, 0, 1, 0xfd, 0, 0, 0, 0, 0, 0,
    0, 0, 0, 0, 0, 0, 0, 0, 2, 0, 1, 0, 2, 0, 0x10, 0xf5, 0xb2, 1, 2, 3, 4, 5, 6, 7, 8,
];

// The worked row of three frames.
const FRAGMENT_FRAMES: &[&[u8]] = &[
    &[
        2, 0, 0, 0, 0, 2, 2, 0, 0, 0, 0, 1, 8, 0, 0x45, 0, 0, 0x1c, 0, 7, 0x20, 0, 0x40, 6, 0x46,
        0xd3, 10, 0, 0, 1, 10, 0, 0, 2, 0, 1, 0, 2, 0, 0, 0, 3,
    ],
    &[
        2, 0, 0, 0, 0, 2, 2, 0, 0, 0, 0, 1, 8, 0, 0x45, 0, 0, 0x1c, 0, 7, 0x20, 1, 0x40, 6, 0x46,
        0xd2, 10, 0, 0, 1, 10, 0, 0, 2, 0, 0, 0, 0, 0x50, 2, 4, 0,
    ],
    &[
        2, 0, 0, 0, 0, 2, 2, 0, 0, 0, 0, 1, 8, 0, 0x45, 0, 0, 0x18, 0, 7, 0, 2, 0x40, 6, 0x66,
        0xd5, 10, 0, 0, 1, 10, 0, 0, 2, 0x97, 0xda, 0, 0,
    ],
];

// The IP version, a number, tags, a message, cuts, and the frames that it is posted as.
type Posted = (
    u8,
    u8,
    &'static [u16],
    &'static [u8],
    &'static [u32],
    &'static [&'static [u8]],
);

const POSTED: &[Posted] = &[
    (4, 17, &[], MESSAGE, &[], &[FRAME]),
    (6, 17, &[5, 9], MESSAGE_V6, &[], &[TAGGED]),
    (4, 6, &[], SEGMENT, &[8, 16], FRAGMENT_FRAMES),
];

// Whether the message is posted; the only refusal is out of memory.
fn posts(rt: impl Abort + AllocGlobal + Copy, row: &Posted) -> bool {
    let (version, number, tags, message, cuts, frames) = *row;
    match post(
        rt.alloc(),
        &letter(rt, version, number, tags),
        message,
        cuts,
    ) {
        Ok(posted) => {
            equal(rt, posted.len(), frames.len());
            for (posted, frame) in posted.iter().zip(frames) {
                equal(rt, posted.as_slice(), *frame);
            }
            true
        }
        Err(error) => {
            equal(rt, error, PostError::Memory);
            false
        }
    }
}

// One frame, one with tags, and three.
#[test]
fn a_frame_runs_out_of_memory(rt: HostRuntime) {
    for row in POSTED.iter() {
        let first = posts(rt, row);
        let second = posts(rt, row);
        holds(rt, first || second);
    }
}

// The IP version, a number, cuts, and why the message isn't posted.
type Refused = (u8, u8, &'static [u32], PostError);

const REFUSED: &[Refused] = &[
    (4, 51, &[], PostError::ExtensionNumber),
    (6, 1, &[], PostError::IcmpOfOtherVersion),
    (4, 17, &[7], PostError::Cuts { index: 0 }),
];

fn is_refused(rt: impl Abort + AllocGlobal + Copy, row: &Refused) {
    let (version, number, cuts, refusal) = *row;
    let actual = post(rt.alloc(), &letter(rt, version, number, &[]), MESSAGE, cuts).err();
    equal(rt, actual, Some(refusal));
}

// Refused for another reason than memory, with all of it or without.
#[test]
fn refused_letters_take_no_memory(rt: HostRuntime) {
    for row in REFUSED.iter() {
        is_refused(rt, row);
    }
}

// Whether the message's payload is sealed as the message; the only refusal is out of memory.
fn seals(rt: impl Abort + AllocGlobal + Copy, version: u8, message: &[u8]) -> bool {
    let payload = message.get(8..).unwrap_or(&[]);
    match seal_message(
        rt.alloc(),
        &version_id(version),
        transport(Header::Udp(0)),
        payload,
    ) {
        Ok(sealed) => {
            equal(rt, sealed.as_slice(), message);
            true
        }
        Err(error) => {
            equal(rt, error, SealError::Memory);
            false
        }
    }
}

#[test]
fn sealed_messages_run_out_of_memory(rt: HostRuntime) {
    let first = seals(rt, 4, MESSAGE);
    let second = seals(rt, 4, MESSAGE);
    holds(rt, first || second);
    holds(rt, seals(rt, 6, MESSAGE_V6) || seals(rt, 6, MESSAGE_V6));
}
