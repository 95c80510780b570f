//! What is made of an input, the flush, the status and the text of an error.
use crate::checks::{equal, equal_bytes, holds, joined, repeated};
use crate::packet_lines::refused;
use capture_programs::captures_arguments::{PROGRAM, command};
use capture_programs::captures_program::{Mode, exit_code, make, note, requested_by};
use capture_programs::{
    Input, Look, ProgressLine, ProgressReader, ReportedError, Subject, look_at,
};
use captures::{
    BadLine, CaptureError, Extra, LineFault, Position, RunError, Skipped, TimeUnit, Unfit,
};
use fault_devices::{Fault, FaultReader, UnflushableWriter};
use std::alloc::Global;
use std::io::{ErrorKind, Read};
use std::process::{Abort, ExitCode};
use std::test::Fail;

// A file header of low byte first, in microseconds, of Ethernet frames, with snap length 262,144.
const HEADER: &[u8; 24] = b"\
    \xd4\xc3\xb2\xa1\x02\x00\x04\x00\x00\x00\x00\x00\x00\x00\x00\x00\x00\x00\x04\x00\x01\x00\x00\x00";

// A frame of two bytes, captured 1,700,000,000.25 seconds after 1970 began.
const PACKET: &[u8; 18] =
    b"\x00\xf1\x53\x65\x90\xd0\x03\x00\x02\x00\x00\x00\x02\x00\x00\x00\x0a\xff";

// What is made of an input, if all of it is.
fn made(
    alloc: Global,
    mode: Mode,
    mut input: &[u8],
    skipped: &mut Skipped,
) -> Result<Vec<u8>, Fail> {
    let mut bytes = Vec::new(alloc);
    make(alloc, mode, &mut input, &mut bytes, skipped)?;
    Ok(bytes)
}

#[test]
fn lines_are_made_a_capture_and_lines_again(rt: HostRuntime) -> Result<(), Fail> {
    let text = b"frame 0 0aff 1700000000 250000\n".as_slice();
    let mut skipped = Skipped::NONE;
    let to_capture = Mode::Capture(TimeUnit::Microseconds);
    let capture = made(rt.alloc(), to_capture, text, &mut skipped)?;
    let wanted = joined(rt, &[HEADER.as_slice(), PACKET.as_slice()]);
    equal_bytes(rt, capture.as_slice(), wanted.as_slice());
    let to_lines = Mode::Lines(Extra::Nothing, Unfit::Refuse);
    let lines = made(rt.alloc(), to_lines, capture.as_slice(), &mut skipped)?;
    equal_bytes(rt, lines.as_slice(), b"frame 0 0aff\n".as_slice());
    Ok(())
}

// What words request, of standard input, if they request anything.
fn mode_of(alloc: Global, words: &[&str]) -> Result<Option<Mode>, Fail> {
    let matches = match command(alloc)?.try_get_matches_from(words) {
        Ok(matches) => matches,
        Err(_) => return Ok(None),
    };
    match requested_by(&matches) {
        Some(requested) if requested.name == "-" => Ok(Some(requested.mode)),
        _ => Ok(None),
    }
}

// The frames of a file that scapy 2.5.0 wrote, and when they were captured.
const LINES: &[u8; 238] =
    b"frame 0 02000000000202000000000108004500002400010000401166c60a0000010a000002000100020010dbb40102030405060708 1700000000 250000\n\
    frame 0 ffffffffffff020000000001080600010800060400010200000000010a0000010000000000000a000002 1700000001 250000\n";

// That file, with a snap length of 262,144 instead of 65,535.
const CAPTURE: &[u8; 148] = b"\
    \xd4\xc3\xb2\xa1\x02\x00\x04\x00\x00\x00\x00\x00\x00\x00\x00\x00\x00\x00\x04\x00\
    \x01\x00\x00\x00\x00\xf1\x53\x65\x90\xd0\x03\x00\x32\x00\x00\x00\x32\x00\x00\x00\
    \x02\x00\x00\x00\x00\x02\x02\x00\x00\x00\x00\x01\x08\x00\x45\x00\x00\x24\x00\x01\
    \x00\x00\x40\x11\x66\xc6\x0a\x00\x00\x01\x0a\x00\x00\x02\x00\x01\x00\x02\x00\x10\
    \xdb\xb4\x01\x02\x03\x04\x05\x06\x07\x08\x01\xf1\x53\x65\x90\xd0\x03\x00\x2a\x00\
    \x00\x00\x2a\x00\x00\x00\xff\xff\xff\xff\xff\xff\x02\x00\x00\x00\x00\x01\x08\x06\
    \x00\x01\x08\x00\x06\x04\x00\x01\x02\x00\x00\x00\x00\x01\x0a\x00\x00\x01\x00\x00\
    \x00\x00\x00\x00\x0a\x00\x00\x02\
";

// The stored run is one of the other mode.
#[test]
fn the_word_capture_makes_a_capture(rt: HostRuntime) -> Result<(), Fail> {
    let Some(mode) = mode_of(rt.alloc(), &["captures", "capture", "-"])? else {
        panic!(rt; "no mode");
    };
    let capture = made(rt.alloc(), mode, LINES, &mut Skipped::NONE)?;
    equal_bytes(rt, capture.as_slice(), CAPTURE.as_slice());
    Ok(())
}

// The same header, of PPP instead of Ethernet.
const PPP_HEADER: &[u8; 24] = b"\
    \xd4\xc3\xb2\xa1\x02\x00\x04\x00\x00\x00\x00\x00\x00\x00\x00\x00\x00\x00\x04\x00\x09\x00\x00\x00";

#[test]
fn the_word_skip_passes_packets_over(rt: HostRuntime) -> Result<(), Fail> {
    let Some(mode) = mode_of(rt.alloc(), &["captures", "lines", "--skip", "-"])? else {
        panic!(rt; "no mode");
    };
    let file = joined(rt, &[PPP_HEADER.as_slice(), PACKET.as_slice()]);
    let mut skipped = Skipped::NONE;
    let lines = made(rt.alloc(), mode, file.as_slice(), &mut skipped)?;
    holds(rt, lines.is_empty());
    equal(
        rt,
        format!(in rt.alloc(); "{skipped}")?.as_str(),
        "1 of other links, 0 too long, 0 without a frame",
    );
    Ok(())
}

// SECONDS is a whole number of 32 bits that isn't 0, and no run has times and `forget` lines.
#[rattlefmt::skip]
const OPTIONS: &[(&[&str], Option<Mode>)] = &[
    (&["captures", "lines", "--times"], Some(Mode::Lines(Extra::Times, Unfit::Refuse))),
    (&["captures", "lines", "--forget", "30", "--skip"], Some(Mode::Lines(Extra::Forget(30), Unfit::Skip))),
    (
        &["captures", "lines", "--forget", "4294967295"],
        Some(Mode::Lines(Extra::Forget(4_294_967_295), Unfit::Refuse)),
    ),
    (&["captures", "capture", "--nanoseconds"], Some(Mode::Capture(TimeUnit::Nanoseconds))),
    (&["captures", "lines", "--forget", "0"], None),
    (&["captures", "lines", "--forget", "4294967296"], None),
    (&["captures", "lines", "--forget", "1", "--times"], None),
];

#[test]
fn words_of_options(rt: HostRuntime) -> Result<(), Fail> {
    for (words, wanted) in OPTIONS.iter() {
        let mode = mode_of(rt.alloc(), *words)?;
        equal(rt, mode, *wanted);
    }
    Ok(())
}

#[test]
fn a_flush_that_fails_is_a_failed_write(rt: HostRuntime) {
    for mode in [
        Mode::Lines(Extra::Nothing, Unfit::Refuse),
        Mode::Capture(TimeUnit::Microseconds),
    ] {
        let mut writer = UnflushableWriter::new(rt.alloc(), usize::MAX);
        let (input, wanted) = match mode {
            Mode::Lines(_, _) => (HEADER.as_slice(), b"".as_slice()),
            Mode::Capture(_) => (b"".as_slice(), HEADER.as_slice()),
        };
        let mut skipped = Skipped::NONE;
        let made = make(rt.alloc(), mode, &mut &*input, &mut writer, &mut skipped);
        assert_eq!(rt; made, Err(RunError::Write));
        equal(rt, writer.taken.as_slice(), wanted);
    }
}

const SUBJECT: Subject<'static> = Subject {
    program: PROGRAM,
    input: "x.pcap",
};

// What is reported of an error, after the program and its input.
fn message(alloc: Global, error: RunError, look: Look) -> Result<String, Fail> {
    let actual = ReportedError {
        error,
        note: note(error, look),
    };
    Ok(format!(in alloc; "{actual}")?)
}

// Where a capture is refused: in its third packet, or in a block of a known type.
const THIRD: Position = Position {
    packet: 3,
    offset: 112,
    block: None,
};

const ENHANCED: Position = Position {
    packet: 3,
    offset: 112,
    block: Some(6),
};

const SECTION: Position = Position {
    packet: 3,
    offset: 112,
    block: Some(0x0a0d_0d0a),
};

const DESCRIPTION: Position = Position {
    packet: 3,
    offset: 112,
    block: Some(1),
};

const BAD_LINE: RunError = RunError::BadLine(BadLine {
    number: 7,
    fault: LineFault::NoFrame,
});

const FIRST_LINE: RunError = RunError::BadLine(BadLine {
    number: 1,
    fault: LineFault::NoFrame,
});

const NO_FRACTION: RunError = RunError::BadLine(BadLine {
    number: 1,
    fault: LineFault::NoFraction,
});

const OTHER_AFTER_FRAME: RunError = RunError::BadLine(BadLine {
    number: 3,
    fault: LineFault::OtherAfterFrame,
});

// Each error with what is reported of it, and the status.
#[rattlefmt::skip]
const ERRORS: &[(RunError, &str, u8)] = &[
    (RunError::Read, "the input cannot be read", 4),
    (RunError::Write, "the output cannot be written", 4),
    (RunError::WriteZero, "the output takes no more bytes", 4),
    (RunError::Memory, "out of memory", 5),
    (RunError::TooManyReads, "too many reads", 5),
    (BAD_LINE, "line 7 has no frame", 3),
    (NO_FRACTION, "line 1 has a time without its fraction, the microseconds", 3),
    (OTHER_AFTER_FRAME, "line 3 has neither a time nor a time and a length after its frame", 3),
    (RunError::Capture(CaptureError::NotCapture, THIRD), "no capture file", 3),
    (
        RunError::Capture(CaptureError::LinkType(105), THIRD),
        "packet 3, byte 112: link type 105 is not read: it is IEEE802_11, of wireless networks; --skip passes over its packets",
        3,
    ),
    (
        RunError::Capture(CaptureError::InterfaceLimit(101), DESCRIPTION),
        "packet 3, byte 112, block type 0x1 (interface description): interfaces after the 32nd of a section are read with link type 1 alone, not 101",
        3,
    ),
    (
        RunError::Capture(CaptureError::NoFrame, ENHANCED),
        "packet 3, byte 112, block type 0x6 (enhanced packet): a packet has no ether type",
        3,
    ),
    (
        RunError::Capture(CaptureError::FrameTooLong(99_992), ENHANCED),
        "packet 3, byte 112, block type 0x6 (enhanced packet): a packet of 99992 bytes is too long for a line",
        3,
    ),
    (RunError::Capture(CaptureError::CutOff, THIRD), "packet 3, byte 112: the capture ends within a packet", 3),
    (
        RunError::Capture(CaptureError::BadBlock, SECTION),
        "packet 3, byte 112, block type 0xa0d0d0a (section header): a block is not well made",
        3,
    ),
    (
        RunError::Capture(CaptureError::Version(1, 3), SECTION),
        "packet 3, byte 112, block type 0xa0d0d0a (section header): version 1.3 of pcapng is not read",
        3,
    ),
    (
        RunError::Capture(CaptureError::BlockTooLong(262_148), ENHANCED),
        "packet 3, byte 112, block type 0x6 (enhanced packet): a block of 262148 bytes is too long",
        3,
    ),
];

#[test]
fn errors_have_messages_and_a_status(rt: HostRuntime) -> Result<(), Fail> {
    for (error, text, status) in ERRORS.iter() {
        let actual = message(rt.alloc(), *error, Look::Other)?;
        equal(rt, actual.as_str(), *text);
        let code = exit_code(&rt, SUBJECT, Err(*error), false, Look::Other);
        equal(rt, code, ExitCode::from(*status));
    }
    let code = exit_code(&rt, SUBJECT, Ok(()), false, Look::Other);
    equal(rt, code, ExitCode::SUCCESS);
    Ok(())
}

// The names of the registry of link types (tcpdump.org/linktypes.html), without their prefix, and
// the option.
#[rattlefmt::skip]
const LINK_TYPES: &[(u16, &str)] = &[
    (9, ": it is PPP; --skip passes over its packets"),
    (105, ": it is IEEE802_11, of wireless networks; --skip passes over its packets"),
    (127, ": it is IEEE802_11_RADIOTAP, of wireless networks; --skip passes over its packets"),
    (189, ": it is USB_LINUX; --skip passes over its packets"),
    (220, ": it is USB_LINUX_MMAPPED; --skip passes over its packets"),
    (251, ": it is BLUETOOTH_LE_LL; --skip passes over its packets"),
    (252, ": it is WIRESHARK_UPPER_PDU, of exported packets; --skip passes over its packets"),
    (253, ": it is NETLINK; --skip passes over its packets"),
    (8, "; --skip passes over its packets"),
    (10, "; --skip passes over its packets"),
    (265, "; --skip passes over its packets"),
];

#[test]
fn names_of_link_types(rt: HostRuntime) {
    for (number, text) in LINK_TYPES.iter() {
        let error = RunError::Capture(CaptureError::LinkType(*number), THIRD);
        equal(rt, note(error, Look::Other), *text);
    }
}

// The names of pcapng's block types (draft-ietf-opsawg-pcapng, sections 4 and 11.1).
const BLOCK_TYPES: &[(u32, &str)] = &[
    (0x0a0d_0d0a, " (section header)"),
    (1, " (interface description)"),
    (2, " (obsolete packet)"),
    (3, " (simple packet)"),
    (4, " (name resolution)"),
    (5, " (interface statistics)"),
    (6, " (enhanced packet)"),
    (9, " (systemd journal export)"),
    (10, " (decryption secrets)"),
    (0x0bad, " (custom)"),
    (0x4000_0bad, " (custom)"),
    (0, ""),
    (7, ""),
    (8, ""),
    (0x8000_0006, ""),
];

#[test]
fn names_of_block_types(rt: HostRuntime) -> Result<(), Fail> {
    for (kind, name) in BLOCK_TYPES.iter() {
        let position = Position {
            packet: 3,
            offset: 112,
            block: Some(*kind),
        };
        let actual = format!(in rt.alloc(); "{position}")?;
        let wanted = format!(in rt.alloc(); "packet 3, byte 112, block type {kind:#x}{name}")?;
        equal(rt, actual.as_str(), wanted.as_str());
    }
    Ok(())
}

// The first bytes that gzip 1.12, zstd 1.5, xz 5.4 and bzip2 1.0.8 write, and of other inputs.
#[rattlefmt::skip]
const FIRST_BYTES: &[(&[u8], Look, &str)] = &[
    (b"", Look::Empty, "no capture file: the input is empty"),
    (
        b"\x1f\x8b\x08\x00\x00\x00\x00\x00\x00\x03",
        Look::Gzip,
        "no capture file: the input is compressed, `gzip -dc` opens it",
    ),
    (b"\x28\xb5\x2f\xfd\x04\x58", Look::Zstd, "no capture file: the input is compressed, `zstd -dc` opens it"),
    (b"\xfd\x37\x7a\x58\x5a\x00\x00\x04", Look::Xz, "no capture file: the input is compressed, `xz -dc` opens it"),
    (b"\x42\x5a\x68\x39\x31\x41", Look::Bzip2, "no capture file: the input is compressed, `bzip2 -dc` opens it"),
    (b"frame 0 0aff\n", Look::Text, "no capture file: the input is text, `captures capture` reads lines of frames"),
    (b"\x7fELF", Look::Other, "no capture file"),
    (b"\xd4\xc3\xb2\xa1\x01", Look::Capture, "no capture file"),
];

#[test]
fn what_inputs_look_like(rt: HostRuntime) -> Result<(), Fail> {
    let error = RunError::Capture(CaptureError::NotCapture, THIRD);
    for (prefix, seen, text) in FIRST_BYTES.iter() {
        equal(rt, look_at(*prefix), *seen);
        let actual = message(rt.alloc(), error, *seen)?;
        equal(rt, actual.as_str(), *text);
    }
    Ok(())
}

// An input that looks so.
fn looked<R: Read + Drop>(
    rt: impl Abort + AllocGlobal + Copy,
    reader: R,
    wanted: Look,
) -> Input<R> {
    let Ok(mut input) = Input::new(rt.alloc(), reader) else {
        panic!(rt; "no memory for a buffer");
    };
    equal(rt, input.look(), wanted);
    input
}

#[test]
fn what_first_reads_look_like(rt: HostRuntime) {
    for (prefix, seen, _) in FIRST_BYTES.iter() {
        looked(rt, *prefix, *seen);
    }
    // 64 bytes are looked at.
    let text = repeated(rt, b"a", 64);
    let long = joined(rt, &[text.as_slice(), b"\0"]);
    looked(rt, long.as_slice(), Look::Text);
    let text = repeated(rt, b"a", 63);
    let short = joined(rt, &[text.as_slice(), b"\0"]);
    looked(rt, short.as_slice(), Look::Other);
}

const MODES: [(Mode, &[u8]); 2] = [
    (Mode::Lines(Extra::Nothing, Unfit::Refuse), b""),
    (Mode::Capture(TimeUnit::Microseconds), HEADER),
];

// The look is the first read of a run: a run ends by its fault, and there is no other read.
#[test]
fn a_look_that_fails_ends_the_run(rt: HostRuntime) {
    for (mode, written) in MODES {
        for (kind, seen) in [
            (ErrorKind::IsADirectory, Look::Directory),
            (ErrorKind::Interrupted, Look::Other),
            (ErrorKind::Other, Look::Other),
        ] {
            let mut reader = FaultReader::failing(HEADER, 64, 0, Fault::Fails(kind));
            let mut lines = Vec::new(rt.alloc());
            {
                let mut input = looked(rt, &mut reader, seen);
                let mut skipped = Skipped::NONE;
                let made = make(rt.alloc(), mode, &mut input, &mut lines, &mut skipped);
                equal(rt, made, Err(RunError::Read));
                let code = exit_code(&rt, SUBJECT, made, false, seen);
                equal(rt, code, ExitCode::from(4));
                equal(rt, input.look(), seen);
            }
            equal(rt, reader.calls, 1);
            equal_bytes(rt, lines.as_slice(), written);
        }
    }
}

// So does the end that it reports, as a terminal does before which nothing was typed.
#[test]
fn a_look_that_reports_the_end_ends_the_run(rt: HostRuntime) {
    for (mode, written) in MODES {
        let mut reader = FaultReader::failing(HEADER, 64, 0, Fault::MovesNone);
        let mut lines = Vec::new(rt.alloc());
        {
            let mut input = looked(rt, &mut reader, Look::Empty);
            let mut skipped = Skipped::NONE;
            let made = make(rt.alloc(), mode, &mut input, &mut lines, &mut skipped);
            let wanted = match mode {
                Mode::Lines(_, _) => refused(CaptureError::NotCapture, 1, 0, None),
                Mode::Capture(_) => Ok(()),
            };
            equal(rt, made, wanted);
            equal(rt, input.look(), Look::Empty);
        }
        equal(rt, reader.calls, 1);
        equal_bytes(rt, lines.as_slice(), written);
    }
}

// What a look has read is given once, and the reads of a run continue after it.
#[test]
fn a_look_takes_nothing(rt: HostRuntime) {
    let file = joined(rt, &[HEADER.as_slice(), PACKET.as_slice()]);
    let mut reader = FaultReader::new(file.as_slice(), 7);
    let mut lines = Vec::new(rt.alloc());
    {
        let mut input = looked(rt, &mut reader, Look::Capture);
        equal(rt, input.look(), Look::Capture);
        let mode = Mode::Lines(Extra::Nothing, Unfit::Refuse);
        let made = make(rt.alloc(), mode, &mut input, &mut lines, &mut Skipped::NONE);
        equal(rt, made, Ok(()));
    }
    equal_bytes(rt, lines.as_slice(), b"frame 0 0aff\n");
    // Six reads of 42 bytes, and one that reports the end.
    equal(rt, reader.calls, 7);
}

// The first line of what is no text of lines.
#[rattlefmt::skip]
const NO_LINES: &[(RunError, Look, &str)] = &[
    (
        FIRST_LINE,
        Look::Capture,
        "line 1 has no frame: the input is a capture, `captures lines` reads it",
    ),
    (FIRST_LINE, Look::Gzip, "line 1 has no frame: the input is compressed, `gzip -dc` opens it"),
    (FIRST_LINE, Look::Text, "line 1 has no frame"),
    (RunError::Read, Look::Directory, "the input cannot be read: it is a directory"),
];

#[test]
fn captures_are_no_lines(rt: HostRuntime) -> Result<(), Fail> {
    for (error, look, text) in NO_LINES.iter() {
        let actual = message(rt.alloc(), *error, *look)?;
        equal(rt, actual.as_str(), *text);
    }
    Ok(())
}

// A reader whose progress may be shown gives what it would give.
#[test]
fn progress_takes_nothing(rt: HostRuntime) -> Result<(), Fail> {
    let mut line = ProgressLine::new(&rt, Some(6));
    let mut text = Vec::new(rt.alloc());
    ProgressReader::new(b"abc".as_slice(), &mut line).read_to_end(&mut text)?;
    line.end();
    let mut line = ProgressLine::beside_output(&rt, None);
    ProgressReader::new(b"def".as_slice(), &mut line).read_to_end(&mut text)?;
    line.end();
    equal_bytes(rt, text.as_slice(), b"abcdef");
    Ok(())
}
