//! A reader and a writer as one device: each of its calls is one call of theirs and returns what
//! that one returns, whatever the size of the buffer; and writes of all of some bytes. `Read` and
//! `Write` give a failing call no meaning, so no clause says it.
use crate::checks::equal;
use device_runs::{Device, ReaderWriter, flush_after, write_whole};
use fault_devices::{Fault, FaultReader, FaultWriter, Tally, UnflushableWriter};
use std::io::{self, ErrorKind};
use std::process::Abort;
use std::test::Fail;

const FAILS: Fault = Fault::Fails(ErrorKind::Other);

// The sizes of buffers that runs read and write by, and their neighbours; those up to 200 are
// tried, too.
const SIZES: &[usize] = &[4096, 65_535, 65_536, 65_537, 262_144, 265_568];

const GREATEST: usize = 265_568;

// How many bytes one call gives, if it doesn't fail.
fn given(reader: &mut FaultReader<'_>, writer: &mut FaultWriter, room: &mut [u8]) -> Option<usize> {
    ReaderWriter { reader, writer }.read_some(room).ok()
}

// One call reads by a buffer of this size, and gives so many bytes, if it doesn't fail.
fn reads(
    rt: impl Abort + AllocGlobal + Copy,
    mut reader: FaultReader<'_>,
    size: usize,
    wanted: Option<usize>,
) {
    let mut room = b"\0".repeat(rt.alloc(), size).expect(&rt, "no memory");
    let mut writer = FaultWriter::new(rt.alloc(), 0);
    let count = given(&mut reader, &mut writer, room.as_mut_slice());
    let reported = (count, reader.calls, reader.room, writer.calls);
    equal(rt, reported, (wanted, 1, size, 0));
}

fn reads_of(rt: impl Abort + AllocGlobal + Copy, tally: &mut Tally, bytes: &[u8], size: usize) {
    reads(rt, FaultReader::new(bytes, GREATEST), size, Some(size));
    tally.count(1);
    reads(
        rt,
        FaultReader::failing(bytes, GREATEST, 0, FAILS),
        size,
        None,
    );
    tally.tries();
}

#[test]
fn reads_of_each_size(rt: HostRuntime) -> Result<(), Fail> {
    let mut tally = Tally::new("ReaderWriter::read_some", "a read fails");
    let bytes = vec![in rt.alloc(); 7u8; GREATEST]?;
    for size in 0..=200 {
        reads_of(rt, &mut tally, bytes.as_slice(), size);
    }
    for size in SIZES.iter() {
        reads_of(rt, &mut tally, bytes.as_slice(), *size);
    }
    println!(rt; "{tally}")?;
    Ok(())
}

// How many bytes one call takes, if it doesn't fail.
fn taken(reader: &mut FaultReader<'_>, writer: &mut FaultWriter, bytes: &[u8]) -> Option<usize> {
    ReaderWriter { reader, writer }.write_some(bytes).ok()
}

// One call writes bytes of this size, and takes so many, if it doesn't fail.
fn writes(
    rt: impl Abort + AllocGlobal + Copy,
    mut writer: FaultWriter,
    bytes: &[u8],
    wanted: Option<usize>,
) {
    let mut reader = FaultReader::new(b"", 0);
    let count = taken(&mut reader, &mut writer, bytes);
    let reported = (count, writer.calls, writer.taken.len(), reader.calls);
    equal(rt, reported, (wanted, 1, wanted.unwrap_or(0), 0));
}

fn writes_of(rt: impl Abort + AllocGlobal + Copy, tally: &mut Tally, bytes: &[u8], size: usize) {
    let bytes = bytes.get(..size).expect(&rt, "no such size");
    writes(
        rt,
        FaultWriter::new(rt.alloc(), GREATEST),
        bytes,
        Some(size),
    );
    tally.count(1);
    let failing = FaultWriter::failing(rt.alloc(), GREATEST, 0, FAILS);
    writes(rt, failing, bytes, None);
    tally.tries();
}

#[test]
fn writes_of_each_size(rt: HostRuntime) -> Result<(), Fail> {
    let mut tally = Tally::new("ReaderWriter::write_some", "a write fails");
    let bytes = vec![in rt.alloc(); 7u8; GREATEST]?;
    for size in 0..=200 {
        writes_of(rt, &mut tally, bytes.as_slice(), size);
    }
    for size in SIZES.iter() {
        writes_of(rt, &mut tally, bytes.as_slice(), *size);
    }
    println!(rt; "{tally}")?;
    Ok(())
}

// What a read can do instead of giving a byte, and how many it gives then, if it doesn't fail.
const READS: &[(Fault, Option<usize>)] = &[
    (Fault::Fails(ErrorKind::Interrupted), None),
    (FAILS, None),
    (Fault::MovesNone, Some(0)),
];

// Three calls, of which this one is a fault.
fn reads_with(
    rt: impl Abort + AllocGlobal + Copy,
    fault: Fault,
    failing: usize,
    odd: Option<usize>,
) {
    let mut reader = FaultReader::failing(b"abc", 1, failing, fault);
    let mut writer = FaultWriter::new(rt.alloc(), 0);
    let mut read = Vec::new(rt.alloc());
    for call in 0..3usize {
        let mut room = [0u8; 200];
        let count = given(&mut reader, &mut writer, &mut room);
        let wanted = if call == failing { odd } else { Some(1) };
        equal(
            rt,
            (fault, failing, call, count),
            (fault, failing, call, wanted),
        );
        let prefix = &room[..count.unwrap_or(0).min(200)];
        assert!(rt; read.extend_from_slice(prefix).is_ok());
    }
    let reported = (reader.calls, read.as_slice(), writer.calls);
    equal(rt, reported, (3, b"ab".as_slice(), 0));
}

// Nothing is tried again, and no fault is made up.
#[test]
fn each_read_is_one_read(rt: HostRuntime) {
    for (fault, odd) in READS.iter() {
        for failing in 0..3 {
            reads_with(rt, *fault, failing, *odd);
        }
    }
}

// What a write can do instead of taking two bytes, and what is reported of it.
#[rattlefmt::skip]
const WRITES: &[(Fault, device_runs::Fault)] = &[
    (Fault::Fails(ErrorKind::Interrupted), device_runs::Fault::WriteFailed),
    (FAILS, device_runs::Fault::WriteFailed),
    (Fault::MovesNone, device_runs::Fault::NothingTaken),
];

// A whole write of five bytes, of which this write is a fault.
fn writes_with(
    rt: impl Abort + AllocGlobal + Copy,
    fault: Fault,
    failing: usize,
    wanted: Result<(), device_runs::Fault>,
    taken: &[u8],
) {
    let mut reader = io::empty();
    let mut writer = FaultWriter::failing(rt.alloc(), 2, failing, fault);
    let mut device = ReaderWriter {
        reader: &mut reader,
        writer: &mut writer,
    };
    let result = write_whole(&mut device, b"abcde".as_slice());
    let reported = (fault, result, writer.calls, writer.taken.as_slice());
    let calls = 3.min(failing.saturating_add(1));
    equal(rt, reported, (fault, wanted, calls, taken));
}

// The same of writes, which end where one of them is a fault.
#[test]
fn writes_end_at_a_fault(rt: HostRuntime) {
    for (fault, reported) in WRITES.iter() {
        writes_with(rt, *fault, 0, Err(*reported), b"");
        writes_with(rt, *fault, 1, Err(*reported), b"ab");
        writes_with(rt, *fault, 2, Err(*reported), b"abcd");
        writes_with(rt, *fault, 3, Ok(()), b"abcde");
    }
}

#[test]
fn writes_of_no_bytes(rt: HostRuntime) {
    let mut reader = io::empty();
    let mut writer = FaultWriter::failing(rt.alloc(), 2, 0, FAILS);
    let mut device = ReaderWriter {
        reader: &mut reader,
        writer: &mut writer,
    };
    let result = write_whole(&mut device, b"".as_slice());
    equal(rt, (result, writer.calls), (Ok(()), 0));
}

// The end of a run, and what it is with a flush after it: of a writer that flushes, and of one that
// doesn't. The flush fails by 1, the run by 2.
#[test]
fn flushes_after_runs(rt: HostRuntime) {
    for (done, flushed, unflushed) in [(Ok(()), Ok(()), Err(1)), (Err(2), Err(2), Err(2))] {
        let mut writer = FaultWriter::new(rt.alloc(), 1);
        equal(rt, flush_after(&mut writer, done, 1), flushed);
        let mut writer = UnflushableWriter::new(rt.alloc(), 1);
        equal(rt, flush_after(&mut writer, done, 1), unflushed);
    }
}
