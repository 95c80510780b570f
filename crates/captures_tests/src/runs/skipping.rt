//! Runs that pass over packets that can't be reported. The files are laid out byte by byte after
//! the formats' descriptions.
use crate::checks::{equal, equal_bytes, joined, repeated};
use crate::formats::blocks::TWO_SECTIONS;
use crate::formats::classic::{BIG_NANOSECONDS, LITTLE_MICROSECONDS};
use crate::formats::links::{SECTION, capture, interface_of, packet_of};
use crate::packet_lines::{lines_of, refused, reports, reports_skipping};
use captures::{CaptureError, Extra, RunError, Skipped, Unfit, run};
use fault_devices::{Fault, FaultReader, FaultWriter};
use std::io::ErrorKind;
use std::process::Abort;

// The record of a packet of one byte, 45.
const RECORD: &[u8; 17] = b"\0\0\0\0\0\0\0\0\0\0\0\x01\0\0\0\x01\x45";

// A classic capture of a packet of `len` bytes, which are 0, and of RECORD.
fn two_packets(rt: impl Abort + AllocGlobal + Copy, link_type: u8, len: usize) -> Vec<u8> {
    let packet = repeated(rt, b"\0", len);
    let file = capture(rt, link_type, packet.as_slice());
    joined(rt, &[file.as_slice(), RECORD])
}

// How many packets of each kind are passed over, and what is reported of the others.
#[test]
fn packets_of_each_kind(rt: HostRuntime) {
    let none = Skipped::NONE;
    let long = Skipped {
        too_long: 1,
        ..none
    };
    let ip = "frame 0 000000000000000000000000080045\n";
    for (link_type, len, skipped, lines) in [
        // An Ethernet frame is reported, and is too long for a line with 99,992 bytes. 262,128 are
        // the most that are passed over.
        (1, 3, none, "frame 0 000000\nframe 0 45\n"),
        (1, 99_992, long, "frame 0 45\n"),
        (1, 262_128, long, "frame 0 45\n"),
        // The first four bits are no version of IP. Too long is reported before that.
        (
            101,
            3,
            Skipped {
                without_frame: 1,
                ..none
            },
            ip,
        ),
        (101, 99_978, long, ip),
        // Of PPP no packet is reported, however long it is; of no byte nothing is reported anyway.
        (
            9,
            3,
            Skipped {
                of_other_links: 2,
                ..none
            },
            "",
        ),
        (
            9,
            262_128,
            Skipped {
                of_other_links: 2,
                ..none
            },
            "",
        ),
        (
            9,
            0,
            Skipped {
                of_other_links: 1,
                ..none
            },
            "",
        ),
    ] {
        let file = two_packets(rt, link_type, len);
        reports_skipping(rt, file.as_slice(), Ok(()), lines.as_bytes(), skipped);
    }
}

// Captures of which every packet is reported are reported the same, whatever would happen to
// another.
#[test]
fn captures_that_are_reported_whole(rt: HostRuntime) {
    for file in [
        LITTLE_MICROSECONDS.as_slice(),
        BIG_NANOSECONDS,
        TWO_SECTIONS,
    ] {
        let lines = lines_of(rt, Extra::Nothing, &mut &*file, Ok(()));
        reports_skipping(rt, file, Ok(()), lines.as_slice(), Skipped::NONE);
    }
}

// What still ends a run: a packet above that, and an end within one. What was passed over before is
// counted, in the position too.
#[test]
fn refusals_after_packets_are_passed_over(rt: HostRuntime) {
    let packet = capture(rt, 101, b"\0");
    let head = b"\0\0\0\0\0\0\0\0\0\x03\xff\xf1\0\x03\xff\xf1";
    let file = joined(rt, &[packet.as_slice(), head]);
    let one = Skipped {
        without_frame: 1,
        ..Skipped::NONE
    };
    for (len, error) in [
        (57, CaptureError::FrameTooLong(262_129)),
        (56, CaptureError::CutOff),
    ] {
        assert!(rt; len <= file.len());
        let wanted = refused(error, 2, 41, None);
        reports_skipping(rt, &file.as_slice()[..len], wanted, b"", one);
    }
}

// Interfaces of PPP, Ethernet and raw IP, and packets of one byte, 45: those of PPP are passed
// over, and a second section continues the counts.
#[test]
fn interfaces_of_two_sections(rt: HostRuntime) {
    let section = joined(
        rt,
        &[
            SECTION,
            &interface_of(9),
            &interface_of(1),
            &interface_of(101),
            &packet_of(0),
            &packet_of(1),
            &packet_of(2),
            &packet_of(0),
        ],
    );
    let file = repeated(rt, section.as_slice(), 2);
    let lines = b"frame 1 45\nframe 2 000000000000000000000000080045\n\
        frame 4 45\nframe 5 000000000000000000000000080045\n";
    let passed = Skipped {
        of_other_links: 4,
        ..Skipped::NONE
    };
    reports_skipping(rt, file.as_slice(), Ok(()), lines, passed);
    // Without that, the run ends at the first packet of PPP.
    let wanted = refused(CaptureError::LinkType(9), 1, 88, Some(6));
    reports(rt, file.as_slice(), wanted, b"");
}

// The least and the greatest packets that are passed over for their length in blocks: an enhanced
// packet of 99,992 bytes and a simple one of 262,128, in a block of 262,144.
#[test]
fn long_packets_of_blocks(rt: HostRuntime) {
    let least = repeated(rt, b"\0", 99_992);
    let greatest = repeated(rt, b"\0", 262_128);
    let file = joined(
        rt,
        &[
            SECTION,
            &interface_of(1),
            b"\x06\0\0\0\xb8\x86\x01\0\0\0\0\0\0\0\0\0\0\0\0\0\x98\x86\x01\0\x98\x86\x01\0",
            least.as_slice(),
            b"\xb8\x86\x01\0",
            b"\x03\0\0\0\0\0\x04\0\xf0\xff\x03\0",
            greatest.as_slice(),
            b"\0\0\x04\0",
            &packet_of(0),
        ],
    );
    let passed = Skipped {
        too_long: 2,
        ..Skipped::NONE
    };
    reports_skipping(rt, file.as_slice(), Ok(()), b"frame 0 45\n", passed);
}

// A run that passes over packets ends so, and has passed over this many.
fn skips(
    rt: impl Abort + AllocGlobal + Copy,
    reader: &mut FaultReader<'_>,
    writer: &mut FaultWriter,
    wanted: Result<(), RunError>,
    passed: Skipped,
) {
    let mut skipped = Skipped {
        of_other_links: 7,
        too_long: 8,
        without_frame: 9,
    };
    let result = run(
        rt.alloc(),
        Extra::Nothing,
        Unfit::Skip,
        reader,
        writer,
        &mut skipped,
    );
    equal(rt, result, wanted);
    equal(rt, skipped, passed);
}

// A capture of raw IP: the packets of bytes 24 to 41 and 58 to 75 have no frame, the one between
// has a line. A run reports how many were passed over by then where its read or its write fails.
#[test]
fn faults_after_packets_are_passed_over(rt: HostRuntime) {
    let packet = b"\0\0\0\0\0\0\0\0\0\0\0\x01\0\0\0\x01\x55".as_slice();
    let file = joined(rt, &[capture(rt, 101, b"\x55").as_slice(), RECORD, packet]);
    let count = |without_frame| Skipped {
        without_frame,
        ..Skipped::NONE
    };
    let failure = Fault::Fails(ErrorKind::Other);
    for (before, passed) in [(0usize, 0), (40, 0), (41, 1), (58, 1), (74, 1), (75, 2)] {
        let mut reader = FaultReader::failing(file.as_slice(), 1, before, failure);
        let mut writer = FaultWriter::new(rt.alloc(), 50);
        skips(
            rt,
            &mut reader,
            &mut writer,
            Err(RunError::Read),
            count(passed),
        );
    }
    for (fault, error) in [
        (failure, RunError::Write),
        (Fault::MovesNone, RunError::WriteZero),
    ] {
        // Byte by byte the line is written before the last packet is read, and else after it.
        for (chunk, passed) in [(1, 1), (75, 2)] {
            let mut reader = FaultReader::new(file.as_slice(), chunk);
            let mut writer = FaultWriter::failing(rt.alloc(), 50, 0, fault);
            skips(rt, &mut reader, &mut writer, Err(error), count(passed));
        }
    }
}

// A capture of PPP (9), of one packet.
const OF_PPP: &[u8; 41] = b"\
    \xa1\xb2\xc3\xd4\x00\x02\x00\x04\0\0\0\0\0\0\0\0\x00\x04\x00\x00\0\0\0\x09\
    \0\0\0\0\0\0\0\0\0\0\0\x01\0\0\0\x01\x45";

// To be run without memory, too: then nothing is read and nothing was passed over.
#[test]
fn a_run_runs_out_of_memory(rt: HostRuntime) {
    let mut lines = Vec::new(rt.alloc());
    let mut skipped = Skipped {
        of_other_links: 7,
        too_long: 8,
        without_frame: 9,
    };
    let mut input = OF_PPP.as_slice();
    let result = run(
        rt.alloc(),
        Extra::Nothing,
        Unfit::Skip,
        &mut input,
        &mut lines,
        &mut skipped,
    );
    let (wanted, left, passed) = match result {
        Err(_) => (Err(RunError::Memory), OF_PPP.as_slice(), Skipped::NONE),
        Ok(()) => (
            Ok(()),
            b"".as_slice(),
            Skipped {
                of_other_links: 1,
                ..Skipped::NONE
            },
        ),
    };
    equal(rt, result, wanted);
    equal_bytes(rt, input, left);
    equal(rt, skipped, passed);
}
