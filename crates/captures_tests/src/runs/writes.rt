//! Runs of which one write fails, takes nothing or takes one byte, whichever it is. All other
//! writes take 50 bytes at most.
use crate::checks::equal;
use crate::formats::classic::LITTLE_MICROSECONDS;
use crate::formats::text::capture_of;
use crate::packet_lines::{LINES, lines_to};
use captures::device::ReaderWriter;
use captures::{RunError, TimeUnit, write_capture};
use device_runs::write_whole;
use fault_devices::{Fault, FaultReader, FaultWriter};
use std::io::{self, ErrorKind};

const FAILS: Fault = Fault::Fails(ErrorKind::Other);

// How a run ends whose odd write begins at this offset of so many bytes, and how many are taken.
fn ended_by(fault: Fault, position: usize, len: usize) -> (Result<(), RunError>, usize) {
    match fault {
        _ if position == len => (Ok(()), len),
        Fault::Fails(_) => (Err(RunError::Write), position),
        Fault::MovesNone => (Err(RunError::WriteZero), position),
        Fault::MovesOne => (Ok(()), len),
    }
}

#[test]
fn each_write_of_some_bytes(rt: HostRuntime) {
    for (fault, wanted, len) in [
        (FAILS, Err(device_runs::Fault::WriteFailed), 50),
        (Fault::MovesNone, Err(device_runs::Fault::NothingTaken), 50),
        (Fault::MovesOne, Ok(()), 202),
    ] {
        let mut nothing = io::empty();
        let mut writer = FaultWriter::failing(rt.alloc(), 50, 1, fault);
        let mut device = ReaderWriter {
            reader: &mut nothing,
            writer: &mut writer,
        };
        equal(rt, write_whole(&mut device, LINES), wanted);
        equal(rt, Some(writer.taken.as_slice()), LINES.get(..len));
    }
}

// The lines have 109 and 93 bytes, and reads of one byte let each be written by itself: so the
// writes begin at these offsets, and there is no sixth.
#[test]
fn each_write_of_a_run(rt: HostRuntime) {
    for fault in [FAILS, Fault::MovesNone, Fault::MovesOne] {
        for (before, position) in [(0, 0), (1, 50), (2, 100), (3, 109), (4, 159), (5, 202)] {
            let mut reader = FaultReader::new(LITTLE_MICROSECONDS, 1);
            let mut writer = FaultWriter::failing(rt.alloc(), 50, before, fault);
            let result = lines_to(rt.alloc(), &mut reader, &mut writer);
            let (wanted, len) = ended_by(fault, position, 202);
            equal(rt, result, wanted);
            equal(rt, Some(writer.taken.as_slice()), LINES.get(..len));
        }
    }
}

// The header has 24 bytes, and the two records, which one read lets be written together, 66 and 58.
#[test]
fn each_write_of_a_capture(rt: HostRuntime) {
    let whole = capture_of(rt, TimeUnit::Microseconds, &mut LINES.as_slice(), Ok(()));
    equal(rt, whole.len(), 148);
    for fault in [FAILS, Fault::MovesNone, Fault::MovesOne] {
        for (before, position) in [(0, 0), (1, 24), (2, 74), (3, 124), (4, 148)] {
            let mut writer = FaultWriter::failing(rt.alloc(), 50, before, fault);
            let result = write_capture(
                rt.alloc(),
                TimeUnit::Microseconds,
                &mut LINES.as_slice(),
                &mut writer,
            );
            let (wanted, len) = ended_by(fault, position, 148);
            equal(rt, result, wanted);
            equal(
                rt,
                Some(writer.taken.as_slice()),
                whole.as_slice().get(..len),
            );
        }
    }
}
