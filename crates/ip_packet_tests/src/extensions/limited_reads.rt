//! Headers of each kind from readers with a limit.
//! Calls have no contracts: tests alone make them, and are run.

use super::headers::prefix;
use super::kinds::Kind;
use super::readers::{FRAGMENT, RAW, bytes_of, failure, header_of, limited};
use super::reads::{Limited, Read, Refusal, read_limited};
use super::rows::{Call, rows};
use crate::checks::shows;
use ep_base::LenSource;
use ep_base::err::Layer;
use ep_ext::io::LimitedReader;
use fault_devices::{Fault, FaultReader};
use std::test::*;

// A reader that gives three bytes a call, of which so many may be read, and how far into a packet.
fn limited_at(bytes: &[u8], max_len: usize, position: u8) -> Limited<'_> {
    let source = LenSource::Ipv6HeaderPayloadLen;
    let reader = FaultReader::new(bytes, 3);
    let (max_len, position) = (max_len.min(4096), usize::from(position));
    LimitedReader::new(reader, max_len, source, position, Layer::Ipv6Packet)
}

// The offset of a single header, and of headers in a row.
fn offset_of(kind: Kind) -> u8 {
    match kind {
        Kind::Ipv4(_) | Kind::Ipv6(_) => 40,
        _ => 10,
    }
}

// The same with how many bytes of the limit are not there, which doesn't change with the limit.
fn of_limit(read: Read, limit: usize) -> Read {
    match read {
        Err(Refusal::Len((required, len, source, layer, position))) => {
            let before = limit.wrapping_sub(len);
            Err(Refusal::Len((required, before, source, layer, position)))
        }
        read => read,
    }
}

/// What is read within such a limit, how many bytes of which layer count as read, and how many are
/// left.
pub fn within(kind: Kind, limit: usize) -> (Read, usize, Layer, usize) {
    let mut reader = limited_at(bytes_of(kind), limit, offset_of(kind));
    let read = of_limit(read_limited(kind, &mut reader, header_of(kind)), limit);
    let (read_len, layer) = (reader.read_len(), reader.layer());
    (read, read_len, layer, reader.take_reader().rest.len())
}

#[test]
fn a_raw_header_and_its_limit(rt: HostRuntime) {
    rows(
        rt,
        Call::ReadWithin(Kind::Raw),
        "0..8: (Err(Len((8, 0, Ipv6HeaderPayloadLen, Ipv6ExtHeader, 10))), 0, Ipv6ExtHeader, 18)
        8..16: (Err(Len((16, 0, Ipv6HeaderPayloadLen, Ipv6ExtHeader, 10))), 8, Ipv6ExtHeader, 10)
        16..18: (Ok((true, IpNumber(17))), 16, Ipv6ExtHeader, 2)",
    );
}

#[test]
fn a_fragment_header_and_its_limit(rt: HostRuntime) {
    rows(
        rt,
        Call::ReadWithin(Kind::Fragment),
        "0..8: (Err(Len((8, 0, Ipv6HeaderPayloadLen, Ipv6FragHeader, 10))), 0, Ipv6FragHeader, 10)
        8..10: (Ok((true, IpNumber(58))), 8, Ipv6FragHeader, 2)",
    );
}

#[test]
fn an_authentication_header_and_its_limit(rt: HostRuntime) {
    rows(
        rt,
        Call::ReadWithin(Kind::Auth),
        "0..12: (Err(Len((12, 0, Ipv6HeaderPayloadLen, IpAuthHeader, 10))), 0, IpAuthHeader, 18)
        12..16: (Err(Len((16, 0, Ipv6HeaderPayloadLen, IpAuthHeader, 10))), 12, IpAuthHeader, 6)
        16..18: (Ok((true, IpNumber(6))), 16, IpAuthHeader, 2)",
    );
}

// Hop-by-hop options are at 40, the routing header of 16 bytes at 56, the fragment header at 72,
// the authentication header of 24 bytes at 80, the last header at 104.
#[test]
fn a_chain_and_its_limit(rt: HostRuntime) {
    rows(
        rt,
        Call::ReadWithin(Kind::Ipv6(0)),
        "0..8: (Err(Len((8, 0, Ipv6HeaderPayloadLen, Ipv6ExtHeader, 40))), 0, Ipv6ExtHeader, 74)
        8..16: (Err(Len((8, 8, Ipv6HeaderPayloadLen, Ipv6ExtHeader, 48))), 0, Ipv6ExtHeader, 66)
        16..24: (Err(Len((8, 16, Ipv6HeaderPayloadLen, Ipv6ExtHeader, 56))), 0, Ipv6ExtHeader, 58)
        24..32: (Err(Len((16, 16, Ipv6HeaderPayloadLen, Ipv6ExtHeader, 56))), 8, Ipv6ExtHeader, 50)
        32..40: (Err(Len((8, 32, Ipv6HeaderPayloadLen, Ipv6FragHeader, 72))), 0, Ipv6FragHeader, 42)
        40..52: (Err(Len((12, 40, Ipv6HeaderPayloadLen, IpAuthHeader, 80))), 0, IpAuthHeader, 34)
        52..64: (Err(Len((24, 40, Ipv6HeaderPayloadLen, IpAuthHeader, 80))), 12, IpAuthHeader, 22)
        64..72: (Err(Len((8, 64, Ipv6HeaderPayloadLen, Ipv6ExtHeader, 104))), 0, Ipv6ExtHeader, 10)
        72..74: (Ok((true, IpNumber(17))), 8, Ipv6ExtHeader, 2)",
    );
}

#[test]
fn the_header_of_ipv4_and_its_limit(rt: HostRuntime) {
    rows(
        rt,
        Call::ReadWithin(Kind::Ipv4(51)),
        "12..16: (Err(Len((16, 0, Ipv6HeaderPayloadLen, IpAuthHeader, 40))), 12, IpAuthHeader, 5)
        16..18: (Ok((true, IpNumber(6))), 16, IpAuthHeader, 1)",
    );
    // Another number than 51 leaves the reader.
    let wanted = "16: (Ok((true, IpNumber(6))), 0, Ipv6Packet, 17)";
    rows(rt, Call::ReadWithin(Kind::Ipv4(6)), wanted);
}

/// What is read byte by byte where this call fails, and how many bytes of the layer count as read.
pub fn failing(kind: Kind, call: usize) -> (Read, usize) {
    let inner = FaultReader::failing(bytes_of(kind), 1, call, Fault::Fails(failure(kind)));
    let mut reader = limited(inner, header_of(kind).len());
    let read = read_limited(kind, &mut reader, &[]);
    (read, reader.read_len())
}

// A header is read by so many bytes first, and then the rest: what was read of either doesn't count
// where a call fails.
#[test]
fn limited_headers_from_failing_readers(rt: HostRuntime) {
    rows(
        rt,
        Call::LimitedFailing(Kind::Raw),
        "0..8: (Err(Io(PermissionDenied)), 0)
        8..16: (Err(Io(PermissionDenied)), 8)",
    );
    rows(
        rt,
        Call::LimitedFailing(Kind::Auth),
        "0..12: (Err(Io(PermissionDenied)), 0)
        12..16: (Err(Io(PermissionDenied)), 12)",
    );
    let wanted = "0..8: (Err(Io(PermissionDenied)), 0)";
    rows(rt, Call::LimitedFailing(Kind::Fragment), wanted);
}

#[test]
fn each_read_of_limited_chains_fails(rt: HostRuntime) {
    rows(
        rt,
        Call::LimitedFailing(Kind::Ipv6(0)),
        "0..24: (Err(Io(ConnectionReset)), 0)
        24..32: (Err(Io(ConnectionReset)), 8)
        32..52: (Err(Io(ConnectionReset)), 0)
        52..64: (Err(Io(ConnectionReset)), 12)
        64..72: (Err(Io(ConnectionReset)), 0)",
    );
    rows(
        rt,
        Call::LimitedFailing(Kind::Ipv4(51)),
        "0..12: (Err(Io(ConnectionReset)), 0)
        12..16: (Err(Io(ConnectionReset)), 12)",
    );
}

/// What is read of a reader that ends after so many bytes, within its limit.
pub fn of_prefix(kind: Kind, len: usize) -> Read {
    let inner = FaultReader::new(prefix(header_of(kind), len), 100);
    read_limited(kind, &mut limited(inner, header_of(kind).len()), &[])
}

#[test]
fn limited_readers_that_end_within_a_chain(rt: HostRuntime) {
    let (v6, v4) = (
        "0..72: Err(Io(UnexpectedEof))",
        "0..16: Err(Io(UnexpectedEof))",
    );
    rows(rt, Call::LimitedOfPrefix(Kind::Ipv6(0)), v6);
    rows(rt, Call::LimitedOfPrefix(Kind::Ipv4(51)), v4);
}

// What is read of 16 bytes of zero, and how many of the layer count as read.
fn zeros(kind: Kind) -> (Read, usize) {
    let mut reader = limited(FaultReader::new(&[0; 16], 100), 16);
    let read = read_limited(kind, &mut reader, &[]);
    (read, reader.read_len())
}

#[test]
fn faults_of_headers_within_a_limit(rt: HostRuntime) {
    let zero = "(Err(Content(IpAuth(ZeroPayloadLen))), 12)";
    shows(rt, "a header", &zeros(Kind::Auth), zero);
    shows(rt, "IPv4", &zeros(Kind::Ipv4(51)), zero);
    shows(rt, "IPv6", &zeros(Kind::Ipv6(51)), zero);
    let misplaced = "(Err(Content(HopByHopNotAtStart)), 8)";
    shows(rt, "options", &zeros(Kind::Ipv6(60)), misplaced);
}

// What is read within 23 bytes of a raw header and of the fragment header after it.
fn in_a_row() -> (Read, Read) {
    let mut bytes = [0; 24];
    bytes[..16].copy_from_slice(&RAW[..16]);
    bytes[16..].copy_from_slice(&FRAGMENT[..8]);
    let mut reader = limited_at(&bytes, 23, 10);
    let first = read_limited(Kind::Raw, &mut reader, &RAW[..16]);
    (first, read_limited(Kind::Fragment, &mut reader, &[]))
}

#[test]
fn headers_in_a_row_within_a_limit(rt: HostRuntime) {
    let wanted = "(Ok((true, IpNumber(17))), \
        Err(Len((8, 7, Ipv6HeaderPayloadLen, Ipv6FragHeader, 26))))";
    shows(rt, "in a row", &in_a_row(), wanted);
}
