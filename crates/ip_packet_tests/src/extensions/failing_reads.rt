//! Each read of each header fails, over every length that a header can have: which calls are made,
//! what is returned, and how much was read.

use super::kinds::Kind;
use super::readers::limited;
use super::reads::{Read, Refusal, read, read_limited};
use super::rows::range;
use crate::checks::{fail, shows};
use fault_devices::{Fault, FaultReader, Tally};
use std::io::ErrorKind;
use std::process::Abort;
use std::test::*;

// What is read: a header whose second byte is the number, within a limit too; options of that
// length and a header after them; so many bytes, and eight more.
#[derive(Clone, Copy)]
enum Source {
    Header(Kind),
    Limited(Kind),
    Chain,
    Buffers,
}

// A reader that gives all that is requested but for this call, which fails.
fn failing(bytes: &[u8], call: usize) -> FaultReader<'_> {
    FaultReader::failing(bytes, 4096, call, Fault::Fails(ErrorKind::PermissionDenied))
}

fn byte(number: usize) -> u8 {
    u8::try_from(number).unwrap_or(255)
}

fn header(number: usize) -> [u8; 2050] {
    let mut bytes = [0x33; 2050];
    bytes[1] = byte(number);
    bytes
}

// Why nothing was read, and how many bytes were read by then.
fn refused(read: Read, len: usize) -> (Option<Refusal>, usize) {
    match read {
        Ok(_) => (None, 0),
        Err(refusal) => (Some(refusal), len),
    }
}

// What is returned where this call fails, and how many calls there are.
fn read_failing(kind: Kind, number: usize, call: usize) -> ((Option<Refusal>, usize), usize) {
    let bytes = header(number);
    let mut reader = failing(&bytes, call);
    let read = read(kind, &mut reader, &[]);
    let len = bytes.len().saturating_sub(reader.rest.len());
    (refused(read, len), reader.calls)
}

// The same within a limit: how many bytes count as read.
fn limited_failing(kind: Kind, number: usize, call: usize) -> ((Option<Refusal>, usize), usize) {
    let bytes = header(number);
    let mut reader = limited(failing(&bytes, call), 2048);
    let read = read_limited(kind, &mut reader, &[]);
    let len = reader.read_len();
    (refused(read, len), reader.take_reader().calls)
}

// Destination options (number 60) and after them an authentication header (51) of 20 bytes: what is
// read, how many bytes are left and were options, and how many calls there are.
fn chain_failing(number: usize, call: usize) -> (Read, Option<usize>, usize) {
    let options = (usize::from(byte(number)) + 1) * 8;
    let mut bytes = [0x33; 2068];
    bytes[..2].copy_from_slice(&[51, byte(number)]);
    bytes[options..options + 2].copy_from_slice(&[17, 3]);
    let mut reader = failing(&bytes, call);
    let read = read(Kind::Ipv6(60), &mut reader, &bytes);
    let left = match read {
        Ok(_) => Some(reader.rest.len().saturating_add(options)),
        Err(_) => None,
    };
    (read, left, reader.calls)
}

// Whether a buffer of so many bytes is filled, and then one of 8; how many more bytes than those of
// the first count as read, and how many calls there are.
fn filled(len: usize, call: usize) -> (bool, bool, usize, usize) {
    let bytes = [0x33; 2056];
    let mut buffer = [0u8; 2056];
    let mut reader = limited(failing(&bytes, call), 2056);
    let (first, _) = buffer.split_at_mut(len.min(2048));
    let filled = reader.read_exact(first).is_ok();
    let more = reader.read_exact(&mut [0; 8]).is_ok();
    let of_first = if filled { len } else { 0 };
    let counted = reader.read_len().wrapping_sub(of_first);
    (filled, more, counted, reader.take_reader().calls)
}

// Fails where another result is returned, and returns how many calls there are.
fn is_reported(
    rt: impl Abort + AllocGlobal + Copy,
    source: Source,
    number: usize,
    call: usize,
    wanted: &str,
) -> usize {
    match source {
        Source::Header(kind) => {
            let observed = read_failing(kind, number, call);
            shows(rt, number, &observed, wanted);
            observed.1
        }
        Source::Limited(kind) => {
            let observed = limited_failing(kind, number, call);
            shows(rt, number, &observed, wanted);
            observed.1
        }
        Source::Chain => {
            let observed = chain_failing(number, call);
            shows(rt, number, &observed, wanted);
            observed.2
        }
        Source::Buffers => {
            let observed = filled(number, call);
            shows(rt, number, &observed, wanted);
            observed.3
        }
    }
}

// What is returned where no call fails, and then where each of them does.
fn each_call_fails(
    rt: impl Abort + AllocGlobal + Copy,
    tally: &mut Tally,
    source: Source,
    number: usize,
    wanted: &str,
) {
    let Some((whole, failing)) = wanted.split_once(" | ") else {
        panic!(rt; "no row: {wanted}");
    };
    tally.count(is_reported(rt, source, number, usize::MAX, whole));
    let mut call = 0usize;
    for wanted in failing.split(" | ") {
        let _calls = is_reported(rt, source, number, call, wanted);
        tally.tries();
        call = call.saturating_add(1);
    }
}

// Rows as those of `rows`, with several answers.
fn each_read_fails(
    rt: impl Abort + AllocGlobal + Print + Copy,
    source: Source,
    call: &'static str,
    table: &str,
) {
    let mut tally = Tally::new(call, "a read fails");
    for line in table.lines() {
        let Some((row, wanted)) = line.trim().split_once(": ") else {
            panic!(rt; "no row: {line}");
        };
        let (first, after) = range(rt, row);
        for number in first..after {
            each_call_fails(rt, &mut tally, source, number, wanted);
        }
    }
    if println!(rt; "{tally}").is_err() {
        fail(rt, "no output");
    }
}

// Headers of each length. A header is read by so many bytes first and then the rest, if there is
// one: the shortest has none.
#[test]
fn each_read_of_raw_headers_fails(rt: HostRuntime) {
    each_read_fails(
        rt,
        Source::Header(Kind::Raw),
        "Ipv6RawExtHeader::read",
        "0: ((None, 0), 1) | ((Some(Io(PermissionDenied)), 0), 1)
        1..256: ((None, 0), 2) | ((Some(Io(PermissionDenied)), 0), 1) \
            | ((Some(Io(PermissionDenied)), 8), 2)",
    );
}

// The check value is at least 0 bytes long.
#[test]
fn each_read_of_authentication_headers_fails(rt: HostRuntime) {
    each_read_fails(
        rt,
        Source::Header(Kind::Auth),
        "IpAuthHeader::read",
        "1: ((None, 0), 1) | ((Some(Io(PermissionDenied)), 0), 1)
        2..256: ((None, 0), 2) | ((Some(Io(PermissionDenied)), 0), 1) \
            | ((Some(Io(PermissionDenied)), 12), 2)",
    );
}

// Where a read fails, what it was to give doesn't count.
#[test]
fn each_read_of_limited_raw_headers_fails(rt: HostRuntime) {
    each_read_fails(
        rt,
        Source::Limited(Kind::Raw),
        "Ipv6RawExtHeader::read_limited",
        "0: ((None, 0), 1) | ((Some(Io(PermissionDenied)), 0), 1)
        1..256: ((None, 0), 2) | ((Some(Io(PermissionDenied)), 0), 1) \
            | ((Some(Io(PermissionDenied)), 8), 2)",
    );
}

#[test]
fn each_read_of_limited_authentication_headers_fails(rt: HostRuntime) {
    each_read_fails(
        rt,
        Source::Limited(Kind::Auth),
        "IpAuthHeader::read_limited",
        "1: ((None, 0), 1) | ((Some(Io(PermissionDenied)), 0), 1)
        2..256: ((None, 0), 2) | ((Some(Io(PermissionDenied)), 0), 1) \
            | ((Some(Io(PermissionDenied)), 12), 2)",
    );
}

// Both headers are read by two calls but for options of 8 bytes.
#[test]
fn each_read_of_chains_fails(rt: HostRuntime) {
    each_read_fails(
        rt,
        Source::Chain,
        "Ipv6Extensions::read",
        "0: (Ok((true, IpNumber(17))), Some(2048), 3) | (Err(Io(PermissionDenied)), None, 1) \
            | (Err(Io(PermissionDenied)), None, 2) | (Err(Io(PermissionDenied)), None, 3)
        1..256: (Ok((true, IpNumber(17))), Some(2048), 4) | (Err(Io(PermissionDenied)), None, 1) \
            | (Err(Io(PermissionDenied)), None, 2) | (Err(Io(PermissionDenied)), None, 3) \
            | (Err(Io(PermissionDenied)), None, 4)",
    );
}

// Reads into buffers of each size up to the greatest that a header needs, and then into one of 8
// bytes: one call for each, and none for an empty buffer.
#[test]
fn buffers_of_each_size(rt: HostRuntime) {
    each_read_fails(
        rt,
        Source::Buffers,
        "LimitedReader::read_exact",
        "0: (true, true, 8, 1) | (true, false, 0, 1)
        1..2049: (true, true, 8, 2) | (false, true, 8, 2) | (true, false, 0, 2)",
    );
}
