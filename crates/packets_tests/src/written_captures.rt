//! Captures that are written: their bytes, and runs that fail.

use crate::captured::captured;
use crate::checks::{equal, fail};
use crate::frames::FRAMES;
use crate::outcomes::{every_packet, packets_of};
use captures::RunError;
use fault_devices::{Fault, FaultReader, FaultWriter, UnflushableWriter};
use packets::program::{write_capture_flushed, write_records_flushed};
use packets::{Omitted, Rules, write_capture, write_records};
use std::alloc::Global;
use std::hash::{BuildHasherDefault, FoldHasher};
use std::io::{ErrorKind, Read, Write};
use std::process::Abort;

// Low byte first, in nanoseconds, version 2.4, a snap length of 262,144, Ethernet.
const HEADER: &[u8; 24] = b"\
    \x4d\x3c\xb2\xa1\x02\x00\x04\x00\x00\x00\x00\x00\x00\x00\x00\x00\x00\x00\x04\x00\x01\x00\x00\x00";

// The record of the third frame: at 1700000000 s and 3,000,000 ns, 42 bytes.
const RECORD: &str =
    "00f15365c0c62d002a0000002a000000ffffffffffff020000000001080600010800060400010200000000010a000001\
        0000000000000a000002";

// A Linux cooked capture of an IPv4 packet of 28 bytes, of which 20 were captured.
const COOKED: &str =
    "a1b2c3d400020004000000000000000000040000000000716553f10000000001000000240000002c0000000100060200\
        00000001000008004500001c00010000401166ce0a0000010a000002";

const OF_COOKED: &str =
    "00f15365e8030000220000002a00000000000000000002000000000108004500001c00010000401166ce0a0000010a00\
        0002";

fn bytes(rt: impl Abort + Copy, alloc: Global, digits: &str) -> Vec<u8> {
    let Ok(bytes) = hex::decode(alloc, digits) else {
        fail(rt, "no digits");
    };
    bytes
}

fn capture<R: Read + Drop, W: Write>(
    alloc: Global,
    rules: &Rules,
    reader: R,
    writer: &mut W,
) -> Result<(), RunError> {
    let state = BuildHasherDefault::<FoldHasher>::new();
    write_capture(alloc, state, rules, reader, writer, &mut Omitted::NOTHING)
}

fn records<R: Read + Drop, W: Write>(
    alloc: Global,
    rules: &Rules,
    reader: R,
    writer: &mut W,
) -> Result<(), RunError> {
    let state = BuildHasherDefault::<FoldHasher>::new();
    write_records(alloc, state, rules, reader, writer, &mut Omitted::NOTHING)
}

// The packets that are let through: of two captures, the second of another link and with a packet that
// was cut.
#[test]
fn packets_of_two_captures(rt: HostRuntime) {
    let alloc = rt.alloc();
    let mut file = Vec::new(alloc);
    let first = captured(rt, alloc, 1, FRAMES);
    let written = capture(
        alloc,
        &packets_of(rt, alloc, "arp"),
        first.as_slice(),
        &mut file,
    );
    equal(rt, written, Ok(()));
    let second = bytes(rt, alloc, COOKED);
    let written = records(alloc, &every_packet(alloc), second.as_slice(), &mut file);
    equal(rt, written, Ok(()));
    let (header, rest) = file.as_slice().split_at(24.min(file.len()));
    equal(rt, header, HEADER.as_slice());
    let (one, other) = rest.split_at(58.min(rest.len()));
    equal(rt, one, bytes(rt, alloc, RECORD).as_slice());
    equal(rt, other, bytes(rt, alloc, OF_COOKED).as_slice());
}

// Each write takes 20 bytes at most. The header takes two, and the second, third or fourth one fails
// or takes nothing. Before the header is written nothing is read.
#[test]
fn what_failing_writers_took(rt: HostRuntime) {
    let alloc = rt.alloc();
    let input = bytes(rt, alloc, COOKED);
    let rules = every_packet(alloc);
    for (fault, wanted) in [
        (Fault::Fails(ErrorKind::Other), RunError::Write),
        (Fault::MovesNone, RunError::WriteZero),
    ] {
        for (calls, taken) in [(1, 20), (2, 24), (3, 44)] {
            let mut writer = FaultWriter::failing(alloc, 20, calls, fault);
            let written = capture(alloc, &rules, input.as_slice(), &mut writer);
            equal(rt, (written, writer.taken.len()), (Err(wanted), taken));
        }
        let reader = FaultReader::failing(input.as_slice(), 1, 0, Fault::Fails(ErrorKind::Other));
        let mut writer = FaultWriter::failing(alloc, 20, 1, fault);
        equal(rt, capture(alloc, &rules, reader, &mut writer), Err(wanted));
    }
}

// A write of one byte at a time writes all, and a read that fails ends the run after the header.
#[test]
fn short_writes_and_a_failed_read(rt: HostRuntime) {
    let alloc = rt.alloc();
    let input = bytes(rt, alloc, COOKED);
    let rules = every_packet(alloc);
    let mut writer = FaultWriter::new(alloc, 1);
    let written = capture(alloc, &rules, input.as_slice(), &mut writer);
    equal(
        rt,
        (written, writer.calls, writer.taken.len()),
        (Ok(()), 74, 74),
    );
    let reader = FaultReader::failing(input.as_slice(), 1, 0, Fault::Fails(ErrorKind::Other));
    let mut writer = FaultWriter::new(alloc, 24);
    let written = capture(alloc, &rules, reader, &mut writer);
    equal(rt, (written, writer.calls), (Err(RunError::Read), 1));
    equal(rt, writer.taken.as_slice(), HEADER.as_slice());
}

#[test]
fn a_flush_that_fails_is_a_failed_write(rt: HostRuntime) {
    let alloc = rt.alloc();
    let input = bytes(rt, alloc, COOKED);
    let rules = every_packet(alloc);
    let state = BuildHasherDefault::<FoldHasher>::new();
    let mut writer = UnflushableWriter::new(alloc, 74);
    let mut omitted = Omitted::NOTHING;
    let reader = input.as_slice();
    let written = write_capture_flushed(alloc, state, &rules, reader, &mut writer, &mut omitted);
    equal(rt, written, Err(RunError::Write));
    let state = BuildHasherDefault::<FoldHasher>::new();
    let mut writer = UnflushableWriter::new(alloc, 50);
    let written = write_records_flushed(alloc, state, &rules, reader, &mut writer, &mut omitted);
    equal(rt, written, Err(RunError::Write));
}
