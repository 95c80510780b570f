//! Texts with their answers, by each call that answers a whole text.
//! Calls have no contracts: tests alone make them, and are run.
use crate::checks::{equal, repeated};
use fault_devices::{FaultReader, FaultWriter};
use netlines::{answers, run};
use std::process::Abort;
use std::test::*;

// No line of it is a command. 0a ends the first five, and the last one ends with the input.
pub const BAD_LINES: &[u8] = b"\nx\nframe\nframe 0 0\n\r\nlast";

/// The answers to these lines.
pub const BAD_ANSWERS: &[u8] = b"bad line\nbad line\nbad line\nbad line\nbad line\nbad line\n";

/// Two fragments of a UDP message with another message between them, a first fragment on a channel
/// of its own, and `forget` lines: the rows `two_fragments`, `uncut_udp` and `forget_keeps_stream`
/// in one.
pub const INCOMPLETE: &[u8] = b"\
    frame 0 02000000000202000000000108004500001c00072000401146c80a0000010a000002\
    000100020010dbb4\n\
    frame 7 02000000000202000000000108004500001c00072000401146c80a0000010a000002\
    000100020010dbb4\n\
    frame 0 02000000000202000000000108004500002400070000401166c00a0000010a000002\
    000100020010dbb40102030405060708\n\
    forget 1\n\
    frame 0 02000000000202000000000108004500001c00070001401166c70a0000010a000002\
    0102030405060708\n\
    forget 3\n\
    frame 7 02000000000202000000000108004500001c00070001401166c70a0000010a000002\
    0102030405060708\n\
    forget\n";

/// The answers to these lines.
pub const INCOMPLETE_ANSWERS: &[u8] = b"\
    wait\n\
    wait\n\
    message 17 good 000100020010dbb40102030405060708\n\
    ok\n\
    message 17 good 000100020010dbb40102030405060708\n\
    ok\n\
    wait\n\
    bad line\n";

/// Twice the two fragments of a UDP message (the row `two_fragments`), and then the three fragments
/// of a TCP segment in the order third, first, second (the row `posted_tcp`).
pub const TWO_ROUNDS: &[u8] = b"\
    frame 0 02000000000202000000000108004500001c00072000401146c80a0000010a000002\
    000100020010dbb4\n\
    frame 0 02000000000202000000000108004500001c00070001401166c70a0000010a000002\
    0102030405060708\n\
    frame 0 02000000000202000000000108004500001800070002400666d50a0000010a000002\
    97da0000\n\
    frame 0 02000000000202000000000108004500001c00072000400646d30a0000010a000002\
    0001000200000003\n\
    frame 0 02000000000202000000000108004500001c00072001400646d20a0000010a000002\
    0000000050020400\n\
    frame 0 02000000000202000000000108004500001c00072000401146c80a0000010a000002\
    000100020010dbb4\n\
    frame 0 02000000000202000000000108004500001c00070001401166c70a0000010a000002\
    0102030405060708\n\
    frame 0 02000000000202000000000108004500001800070002400666d50a0000010a000002\
    97da0000\n\
    frame 0 02000000000202000000000108004500001c00072000400646d30a0000010a000002\
    0001000200000003\n\
    frame 0 02000000000202000000000108004500001c00072001400646d20a0000010a000002\
    0000000050020400\n";

/// The answers to these lines.
pub const TWO_ROUNDS_ANSWERS: &[u8] = b"\
    wait\nmessage 17 good 000100020010dbb40102030405060708\n\
    wait\nwait\nmessage 6 good 0001000200000003000000005002040097da0000\n\
    wait\nmessage 17 good 000100020010dbb40102030405060708\n\
    wait\nwait\nmessage 6 good 0001000200000003000000005002040097da0000\n";

const BAD_LINE: &[u8] = b"bad line\n";

const TWO_BAD: &[u8] = b"bad line\nbad line\n";

const TEXTS: &[(&[u8], &[u8])] = &[
    (b"", b""),
    (b"\n", BAD_LINE),
    (b"x", BAD_LINE),
    (b"x\n", BAD_LINE),
    (b"\n\n", TWO_BAD),
    (b"\nx", TWO_BAD),
    (b"\n\nx\n", b"bad line\nbad line\nbad line\n"),
    (BAD_LINES, BAD_ANSWERS),
    (INCOMPLETE, INCOMPLETE_ANSWERS),
    // Frames that messages are posted as, without an end of the line.
    (
        b"frame 4294967295 02000000000202000000000186dd6000000000101140fd00000000000\
        0000000000000000001fd000000000000000000000000000002000100020010f5b201020\
        30405060708",
        b"message 17 good 000100020010f5b20102030405060708\n",
    ),
    (
        b"frame 4294967295 02000000000202000000000188a800058100000908004500002400070\
        000401166c00a0000010a000002000100020010dbb40102030405060708",
        b"message 17 good 000100020010dbb40102030405060708\n",
    ),
    (
        b"frame 4294967295 02000000000202000000000108004500002800070000400666c70a000\
        0010a0000020001000200000003000000005002040097da0000",
        b"message 6 good 0001000200000003000000005002040097da0000\n",
    ),
];

// A text in memory.
pub(crate) fn answers_in_memory(rt: impl Abort + AllocGlobal + Copy, text: &[u8], wanted: &[u8]) {
    match answers(rt.alloc(), text) {
        Ok(actual) => equal(rt, actual.as_slice(), wanted),
        Err(_) => panic!(rt; "no memory"),
    }
}

// So many bytes a call.
fn answers_in_chunks(
    rt: impl Abort + AllocGlobal + Copy,
    text: &[u8],
    wanted: &[u8],
    chunk_size: usize,
) {
    let mut reader = FaultReader::new(text, chunk_size);
    let mut writer = FaultWriter::new(rt.alloc(), chunk_size);
    let result = run(rt.alloc(), &mut reader, &mut writer);
    equal(rt, (result, writer.taken.as_slice()), (Ok(()), wanted));
}

#[test]
fn answers_each_line_once(rt: HostRuntime) {
    for (text, wanted) in TEXTS.iter() {
        answers_in_memory(rt, text, wanted);
        answers_in_chunks(rt, text, wanted, usize::MAX);
        answers_in_chunks(rt, text, wanted, 1);
    }
}

// Bytes and how often they are repeated, the text's end, and an answer and how often it is
// repeated: the rest of a long line is skipped, and messages are reassembled in the buffers of
// those before them.
type Long = (&'static [u8], usize, &'static [u8], &'static [u8], usize);

const LONG_TEXTS: &[Long] = &[
    (b"\n", 150_000, b"", BAD_LINE, 150_000),
    (b"x", 199_999, b"\nx\n", BAD_LINE, 2),
    (b"x", 200_000, b"\nx\n", BAD_LINE, 2),
    (b"x", 200_001, b"\nx\n", BAD_LINE, 2),
    (b"x", 400_003, b"\nx\n", BAD_LINE, 2),
    (TWO_ROUNDS, 5, b"", TWO_ROUNDS_ANSWERS, 5),
];

fn answers_long_text(rt: impl Abort + AllocGlobal + Copy, row: &Long) -> Result<(), Fail> {
    let (bytes, times, end, answer, count) = *row;
    let mut text = repeated(rt.alloc(), bytes, times)?;
    text.extend_from_slice(end)?;
    let wanted = repeated(rt.alloc(), answer, count)?;
    answers_in_memory(rt, &text, &wanted);
    answers_in_chunks(rt, &text, &wanted, usize::MAX);
    Ok(())
}

#[test]
fn answers_long_texts(rt: HostRuntime) -> Result<(), Fail> {
    for row in LONG_TEXTS.iter() {
        answers_long_text(rt, row)?;
    }
    Ok(())
}
