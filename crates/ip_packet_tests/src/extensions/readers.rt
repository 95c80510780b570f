//! Headers of each kind from readers.
//! Calls have no contracts: tests alone make them, and are run.

use super::headers::prefix;
use super::ipv4_extensions;
use super::ipv6_extensions::CHAIN;
use super::kinds::Kind;
use super::reads::{Limited, Read, read, read_limited};
use super::rows::{Call, rows};
use crate::checks::shows;
use ep_base::LenSource;
use ep_base::err::Layer;
use ep_ext::io::LimitedReader;
use fault_devices::{Fault, FaultReader};
use std::io::ErrorKind;
use std::test::*;

/// A header with two bytes after it.
pub const RAW: [u8; 18] = [17, 1, 1, 4, 0, 0, 0, 0, 1, 6, 0, 0, 0, 0, 0, 0, 0xaa, 0xbb];

/// The same.
pub const FRAGMENT: [u8; 10] = [58, 0, 0xab, 0xc9, 0x12, 0x34, 0x56, 0x78, 0xaa, 0xbb];

const AUTH: [u8; 18] = [
    6, 2, 0, 0, 1, 2, 3, 4, 5, 6, 7, 8, 9, 10, 11, 12, 0xaa, 0xbb,
];

/// What is read of each kind, and bytes after it.
pub fn bytes_of(kind: Kind) -> &'static [u8] {
    match kind {
        Kind::Raw => &RAW,
        Kind::Fragment => &FRAGMENT,
        Kind::Auth => &AUTH,
        Kind::Ipv4(_) => &ipv4_extensions::AUTH,
        Kind::Ipv6(_) => &CHAIN,
    }
}

/// The same without the bytes after it.
pub fn header_of(kind: Kind) -> &'static [u8] {
    let len = match kind {
        Kind::Raw | Kind::Auth | Kind::Ipv4(_) => 16,
        Kind::Fragment => 8,
        Kind::Ipv6(_) => 72,
    };
    prefix(bytes_of(kind), len)
}

/// What is read where a call gives so many bytes, and what is left.
pub fn in_chunks(kind: Kind, chunk: usize) -> (Read, &'static [u8]) {
    let mut reader = FaultReader::new(bytes_of(kind), chunk);
    let read = read(kind, &mut reader, header_of(kind));
    (read, reader.rest)
}

// However few bytes a call gives, the header is read, and nothing after it.
#[test]
fn headers_are_read_in_chunks(rt: HostRuntime) {
    rows(
        rt,
        Call::ReadInChunks(Kind::Raw),
        "1: (Ok((true, IpNumber(17))), [170, 187])
        3: (Ok((true, IpNumber(17))), [170, 187])
        100: (Ok((true, IpNumber(17))), [170, 187])",
    );
}

#[test]
fn fragment_headers_are_read_in_chunks(rt: HostRuntime) {
    rows(
        rt,
        Call::ReadInChunks(Kind::Fragment),
        "1: (Ok((true, IpNumber(58))), [170, 187])
        3: (Ok((true, IpNumber(58))), [170, 187])
        100: (Ok((true, IpNumber(58))), [170, 187])",
    );
}

#[test]
fn authentication_headers_are_read_in_chunks(rt: HostRuntime) {
    rows(
        rt,
        Call::ReadInChunks(Kind::Auth),
        "1: (Ok((true, IpNumber(6))), [170, 187])
        3: (Ok((true, IpNumber(6))), [170, 187])
        100: (Ok((true, IpNumber(6))), [170, 187])",
    );
}

#[test]
fn chains_are_read_in_chunks(rt: HostRuntime) {
    rows(
        rt,
        Call::ReadInChunks(Kind::Ipv6(0)),
        "1: (Ok((true, IpNumber(17))), [170, 187])
        5: (Ok((true, IpNumber(17))), [170, 187])
        100: (Ok((true, IpNumber(17))), [170, 187])",
    );
    let wanted = "1: (Ok((true, IpNumber(6))), [170])";
    rows(rt, Call::ReadInChunks(Kind::Ipv4(51)), wanted);
}

/// The kind of a failing read.
pub fn failure(kind: Kind) -> ErrorKind {
    match kind {
        Kind::Ipv4(_) | Kind::Ipv6(_) => ErrorKind::ConnectionReset,
        _ => ErrorKind::PermissionDenied,
    }
}

// What is read where this call fails so, and how many calls there were.
fn read_failing(kind: Kind, chunk: usize, call: usize, failure: ErrorKind) -> (Read, usize) {
    let fault = Fault::Fails(failure);
    let mut reader = FaultReader::failing(bytes_of(kind), chunk, call, fault);
    let read = read(kind, &mut reader, header_of(kind));
    (read, reader.calls)
}

/// What is read where this call fails, and where it is interrupted; and how many calls there were
/// from the one that fails on.
pub fn failing(kind: Kind, chunk: usize, call: usize) -> (Read, Read, usize) {
    let (read, calls) = read_failing(kind, chunk, call, failure(kind));
    let (interrupted, _) = read_failing(kind, chunk, call, ErrorKind::Interrupted);
    (read, interrupted, calls.wrapping_sub(call))
}

// Of a header that is read by two calls, or byte by byte: each of them fails, or is made again
// where it is interrupted, and none after them is made.
#[test]
fn a_raw_header_from_a_failing_reader(rt: HostRuntime) {
    rows(
        rt,
        Call::ReadFailing(Kind::Raw, 100),
        "0..2: (Err(Io(PermissionDenied)), Ok((true, IpNumber(17))), 1)
        2: (Ok((true, IpNumber(17))), Ok((true, IpNumber(17))), 0)",
    );
    rows(
        rt,
        Call::ReadFailing(Kind::Raw, 1),
        "0..16: (Err(Io(PermissionDenied)), Ok((true, IpNumber(17))), 1)
        16: (Ok((true, IpNumber(17))), Ok((true, IpNumber(17))), 0)",
    );
}

#[test]
fn a_fragment_header_from_a_failing_reader(rt: HostRuntime) {
    rows(
        rt,
        Call::ReadFailing(Kind::Fragment, 100),
        "0: (Err(Io(PermissionDenied)), Ok((true, IpNumber(58))), 1)
        1: (Ok((true, IpNumber(58))), Ok((true, IpNumber(58))), 0)",
    );
    rows(
        rt,
        Call::ReadFailing(Kind::Fragment, 1),
        "0..8: (Err(Io(PermissionDenied)), Ok((true, IpNumber(58))), 1)
        8: (Ok((true, IpNumber(58))), Ok((true, IpNumber(58))), 0)",
    );
}

#[test]
fn an_authentication_header_from_a_failing_reader(rt: HostRuntime) {
    rows(
        rt,
        Call::ReadFailing(Kind::Auth, 100),
        "0..2: (Err(Io(PermissionDenied)), Ok((true, IpNumber(6))), 1)
        2: (Ok((true, IpNumber(6))), Ok((true, IpNumber(6))), 0)",
    );
    rows(
        rt,
        Call::ReadFailing(Kind::Auth, 1),
        "0..16: (Err(Io(PermissionDenied)), Ok((true, IpNumber(6))), 1)
        16: (Ok((true, IpNumber(6))), Ok((true, IpNumber(6))), 0)",
    );
}

#[test]
fn each_read_of_a_chain_fails(rt: HostRuntime) {
    rows(
        rt,
        Call::ReadFailing(Kind::Ipv6(0), 1),
        "0..72: (Err(Io(ConnectionReset)), Ok((true, IpNumber(17))), 1)",
    );
    rows(
        rt,
        Call::ReadFailing(Kind::Ipv4(51), 1),
        "0..16: (Err(Io(ConnectionReset)), Ok((true, IpNumber(6))), 1)",
    );
}

// No call is made where the first number names no header.
#[test]
fn another_number_than_51_leaves_a_reader(rt: HostRuntime) {
    rows(
        rt,
        Call::ReadFailing(Kind::Ipv4(6), 1),
        "0: (Ok((true, IpNumber(6))), Ok((true, IpNumber(6))), 0)",
    );
}

/// What is read of a reader that ends after so many bytes.
pub fn of_prefix(kind: Kind, chunk: usize, len: usize) -> Read {
    let mut reader = FaultReader::new(prefix(header_of(kind), len), chunk);
    read(kind, &mut reader, &[])
}

#[test]
fn readers_that_end_within_a_header(rt: HostRuntime) {
    let (short, long) = (
        "0..8: Err(Io(UnexpectedEof))",
        "0..16: Err(Io(UnexpectedEof))",
    );
    rows(rt, Call::ReadOfPrefix(Kind::Raw, 5), long);
    rows(rt, Call::ReadOfPrefix(Kind::Auth, 5), long);
    rows(rt, Call::ReadOfPrefix(Kind::Fragment, 5), short);
    let wanted = "0..72: Err(Io(UnexpectedEof))";
    rows(rt, Call::ReadOfPrefix(Kind::Ipv6(0), 100), wanted);
}

// What is read of 16 bytes of zero, and how many of them are left.
fn zeros(kind: Kind) -> (Read, usize) {
    let mut reader = FaultReader::new(&[0; 16], 100);
    let read = read(kind, &mut reader, &[]);
    (read, reader.rest.len())
}

#[test]
fn faults_of_headers_that_are_read(rt: HostRuntime) {
    let zero = "(Err(Content(IpAuth(ZeroPayloadLen))), 4)";
    shows(rt, "a header", &zeros(Kind::Auth), zero);
    shows(rt, "IPv4", &zeros(Kind::Ipv4(51)), zero);
    shows(rt, "IPv6", &zeros(Kind::Ipv6(51)), zero);
    let misplaced = "(Err(Content(HopByHopNotAtStart)), 8)";
    shows(rt, "options", &zeros(Kind::Ipv6(60)), misplaced);
}

// The length that a header of this kind names by its second byte.
fn named_len(kind: Kind, words: usize) -> usize {
    match kind {
        Kind::Raw => (words.min(255) + 1) * 8,
        _ => (words.min(255) + 2) * 4,
    }
}

/// What is read of a header of this length, and the sum of its length and of what is left; within a
/// limit at its end, too, and how many bytes more than its own count as read.
pub fn of_each_len(kind: Kind, words: usize) -> (Read, usize, Read, usize) {
    let mut bytes = [0x33; 2050];
    // The reserved bytes of an authentication header.
    bytes[2] = 0;
    bytes[3] = 0;
    bytes[1] = u8::try_from(words).unwrap_or(255);
    let len = named_len(kind, words);
    let mut whole = FaultReader::new(&bytes, 4096);
    let found = read(kind, &mut whole, prefix(&bytes, len));
    let mut reader = limited(FaultReader::new(&bytes, 4096), len);
    let within = read_limited(kind, &mut reader, prefix(&bytes, len));
    let left = whole.rest.len().saturating_add(len);
    (found, left, within, reader.read_len().wrapping_sub(len))
}

/// A reader of which so many bytes may be read.
pub fn limited(inner: FaultReader<'_>, max_len: usize) -> Limited<'_> {
    LimitedReader::new(inner, max_len, LenSource::Slice, 0, Layer::Ipv6Packet)
}

#[test]
fn headers_of_every_length_are_read(rt: HostRuntime) {
    rows(
        rt,
        Call::ReadOfEachLen(Kind::Raw),
        "0..256: (Ok((true, IpNumber(51))), 2050, Ok((true, IpNumber(51))), 0)",
    );
    rows(
        rt,
        Call::ReadOfEachLen(Kind::Auth),
        "1..256: (Ok((true, IpNumber(51))), 2050, Ok((true, IpNumber(51))), 0)",
    );
}
