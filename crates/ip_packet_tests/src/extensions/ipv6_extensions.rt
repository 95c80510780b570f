//! IPv6 extension headers in a row, from slices.
//! Calls have no contracts: tests alone make them, and are run.

use super::headers::{Missing, fault_of, prefix};
use super::rows::{Call, rows};
use crate::checks::{missing_in_slice, shows};
use ep_base::IpNumber;
use ep_base::err::{Layer, LenError};
use ep_ext::err::ipv6_exts::{HeaderError, HeaderSliceError};
use ep_ext::{IpAuthHeader, Ipv6Extensions, Ipv6FragmentHeader, Ipv6RawExtHeader, laws};
use ep_ip::Ipv6Header;
use std::process::Abort;
use std::test::*;

/// A header of each slot by RFC 8200, section 4, and RFC 4302, section 2, and two bytes: hop-by-hop
/// options, destination options, a routing header of 16 bytes, a fragment header, an authentication
/// header of 24 bytes and final destination options.
pub const CHAIN: [u8; 74] = [
    60, 0, 1, 4, 0, 0, 0, 0, // at 0
    43, 0, 1, 4, 0, 0, 0, 0, // at 8
    44, 1, 0, 0, 1, 2, 3, 4, 5, 6, 7, 8, 9, 10, 11, 12, // at 16
    51, 0, 0, 9, 0, 0, 0, 7, // at 32
    60, 4, 0, 0, 0, 0, 0, 1, 0, 0, 0, 2, 1, 2, 3, 4, 5, 6, 7, 8, 9, 10, 11, 12, // at 40
    17, 0, 1, 4, 0, 0, 0, 0, // at 64
    0xaa, 0xbb,
];

/// The headers of `CHAIN`.
pub fn all_headers() -> Ipv6Extensions {
    Ipv6Extensions::from_slice_lax(IpNumber(0), &CHAIN).0
}

type Fault = Result<Missing, HeaderError>;

// The length of the headers from this number on, the number after them and what is left, or why
// they are refused.
type Chain<'a> = Result<(usize, IpNumber, &'a [u8]), Fault>;

fn chain(first: u8, bytes: &[u8]) -> Chain<'_> {
    match Ipv6Extensions::from_slice(IpNumber(first), bytes) {
        Ok((headers, number, rest)) => Ok((headers.header_len(), number, rest)),
        Err(error) => Err(fault_of(error, bytes.len())),
    }
}

/// A prefix of `CHAIN`.
pub fn chain_prefix(len: usize) -> Chain<'static> {
    chain(0, prefix(&CHAIN, len))
}

#[test]
fn every_prefix_of_a_chain_is_refused(rt: HostRuntime) {
    rows(
        rt,
        Call::Ipv6,
        "0..8: Err(Ok((8, 0, Slice, Ipv6ExtHeader, 0)))
        8..16: Err(Ok((8, 8, Slice, Ipv6ExtHeader, 8)))
        16..24: Err(Ok((8, 16, Slice, Ipv6ExtHeader, 16)))
        24..32: Err(Ok((16, 16, Slice, Ipv6ExtHeader, 16)))
        32..40: Err(Ok((8, 32, Slice, Ipv6FragHeader, 32)))
        40..52: Err(Ok((12, 40, Slice, IpAuthHeader, 40)))
        52..64: Err(Ok((24, 40, Slice, IpAuthHeader, 40)))
        64..72: Err(Ok((8, 64, Slice, Ipv6ExtHeader, 64)))
        74: Ok((72, IpNumber(17), [170, 187]))",
    );
}

// What is seen of the headers from this number on, up to a fault: their length, the number after
// them, how many bytes are read, the fault, and the layer beside it.
type Lax = (usize, IpNumber, usize, Option<(Fault, Layer)>);

fn up_to_the_fault(first: u8, bytes: &[u8]) -> Lax {
    let (headers, number, rest, fault) = Ipv6Extensions::from_slice_lax(IpNumber(first), bytes);
    let fault = match fault {
        Some((error, layer)) => Some((fault_of(error, bytes.len()), layer)),
        None => None,
    };
    let read = bytes.len().wrapping_sub(rest.len());
    (headers.header_len(), number, read, fault)
}

/// A prefix of `CHAIN`.
pub fn chain_up_to_the_fault(len: usize) -> Lax {
    up_to_the_fault(0, prefix(&CHAIN, len))
}

// The number and the layer of the header in which the prefix ends.
#[test]
fn every_prefix_of_a_chain_up_to_the_fault(rt: HostRuntime) {
    rows(
        rt,
        Call::Ipv6UpToTheFault,
        "0..8: (0, IpNumber(0), 0, \
            Some((Ok((8, 0, Slice, Ipv6ExtHeader, 0)), Ipv6HopByHopHeader)))
        8..16: (8, IpNumber(60), 8, \
            Some((Ok((8, 8, Slice, Ipv6ExtHeader, 8)), Ipv6DestOptionsHeader)))
        16..24: (16, IpNumber(43), 16, \
            Some((Ok((8, 16, Slice, Ipv6ExtHeader, 16)), Ipv6RouteHeader)))
        24..32: (16, IpNumber(43), 16, \
            Some((Ok((16, 16, Slice, Ipv6ExtHeader, 16)), Ipv6RouteHeader)))
        32..40: (32, IpNumber(44), 32, \
            Some((Ok((8, 32, Slice, Ipv6FragHeader, 32)), Ipv6FragHeader)))
        40..52: (40, IpNumber(51), 40, \
            Some((Ok((12, 40, Slice, IpAuthHeader, 40)), IpAuthHeader)))
        52..64: (40, IpNumber(51), 40, \
            Some((Ok((24, 40, Slice, IpAuthHeader, 40)), IpAuthHeader)))
        64..72: (64, IpNumber(60), 64, \
            Some((Ok((8, 64, Slice, Ipv6ExtHeader, 64)), Ipv6DestOptionsHeader)))
        74: (72, IpNumber(17), 72, None)",
    );
}

// What the skip walk of all bytes gives, and what the law says of it.
type Skipped<'a> = Result<(IpNumber, &'a [u8]), LenError>;

fn skipped(bytes: &[u8]) -> (Skipped<'_>, Skipped<'_>) {
    (
        Ipv6Header::skip_all_header_extensions_in_slice(bytes, IpNumber(0)),
        laws::skip_call_agrees_with_chain(IpNumber(0), bytes),
    )
}

#[test]
fn all_six_headers(rt: HostRuntime) {
    let headers = all_headers();
    let found = (headers.is_fragmenting_payload(), headers.is_empty());
    shows(rt, "headers", &found, "(true, false)");
    let wanted = "(Ok((IpNumber(17), [170, 187])), Ok((IpNumber(17), [170, 187])))";
    shows(rt, "skipped", &skipped(&CHAIN), wanted);
}

// The length of a routing header and of the options after it, and its payload.
fn routing_of(headers: &Ipv6Extensions) -> Option<(usize, &[u8])> {
    match &headers.routing {
        Some(header) => Some((header.header_len(), header.routing.payload())),
        None => None,
    }
}

// The number that options name, or None where there are none.
fn next_of(options: &Option<Ipv6RawExtHeader>) -> Option<IpNumber> {
    match options {
        Some(header) => Some(header.next_header),
        None => None,
    }
}

fn identification_of(fragment: &Option<Ipv6FragmentHeader>) -> Option<u32> {
    match fragment {
        Some(header) => Some(header.identification),
        None => None,
    }
}

fn icv_of(auth: &Option<IpAuthHeader>) -> Option<&[u8]> {
    match auth {
        Some(header) => Some(header.raw_icv()),
        None => None,
    }
}

#[test]
fn each_header_in_its_slot(rt: HostRuntime) {
    let headers = all_headers();
    let named = next_of(&headers.hop_by_hop_options);
    shows(rt, "hop by hop", &named, "Some(IpNumber(60))");
    let named = next_of(&headers.destination_options);
    shows(rt, "destination", &named, "Some(IpNumber(43))");
    let payload = "Some((24, [0, 0, 1, 2, 3, 4, 5, 6, 7, 8, 9, 10, 11, 12]))";
    shows(rt, "routing", &routing_of(&headers), payload);
    let identification = identification_of(&headers.fragment);
    shows(rt, "fragment", &identification, "Some(7)");
    let icv = "Some([1, 2, 3, 4, 5, 6, 7, 8, 9, 10, 11, 12])";
    shows(rt, "authentication", &icv_of(&headers.auth), icv);
}

fn ends(rt: impl Abort + AllocGlobal + Copy, first: u8, bytes: &[u8], wanted: &str) {
    shows(rt, first, &chain(first, bytes), wanted);
}

#[test]
fn a_second_header_of_a_kind_ends_the_chain(rt: HostRuntime) {
    // Fragment headers.
    let bytes = &[
        0x2c, 0, 0, 1, 0, 0, 0, 7, 0x11, 0, 0, 0, 0, 0, 0, 7, 0xaa, 0xbb,
    ];
    let rest = "Ok((8, IpNumber(44), [17, 0, 0, 0, 0, 0, 0, 7, 170, 187]))";
    ends(rt, 44, bytes, rest);
    // Routing headers, each of 8 bytes.
    let bytes = &[43, 0, 0, 0, 0, 0, 0, 0, 17, 0, 0, 0, 0, 0, 0, 0];
    let rest = "Ok((8, IpNumber(43), [17, 0, 0, 0, 0, 0, 0, 0]))";
    ends(rt, 43, bytes, rest);
    // Destination options after destination options.
    let bytes = &[60, 0, 0, 0, 0, 0, 0, 0, 17, 0, 0, 0, 0, 0, 0, 0];
    let rest = "Ok((8, IpNumber(60), [17, 0, 0, 0, 0, 0, 0, 0]))";
    ends(rt, 60, bytes, rest);
    // The same after a routing header, where one more has a slot.
    let bytes = &[
        60, 0, 0, 0, 0, 0, 0, 0, 60, 0, 0, 0, 0, 0, 0, 0, 17, 0, 0, 0, 0, 0, 0, 0,
    ];
    let rest = "Ok((16, IpNumber(60), [17, 0, 0, 0, 0, 0, 0, 0]))";
    ends(rt, 43, bytes, rest);
    // Authentication headers, each of 12 bytes.
    let bytes = &[
        51, 1, 1, 1, 1, 1, 1, 1, 1, 1, 1, 1, 1, 1, 1, 1, 1, 1, 1, 1, 1, 1, 1, 1,
    ];
    let rest = "Ok((12, IpNumber(51), [1, 1, 1, 1, 1, 1, 1, 1, 1, 1, 1, 1]))";
    ends(rt, 51, bytes, rest);
}

#[test]
fn hop_by_hop_options_after_a_header_are_refused(rt: HostRuntime) {
    let bytes = &[0, 0, 0, 0, 0, 0, 0, 0, 17, 0, 0, 0, 0, 0, 0, 0];
    // The options before it are there.
    let wanted = "(8, IpNumber(0), 8, Some((Err(HopByHopNotAtStart), Ipv6HopByHopHeader)))";
    shows(rt, "lax", &up_to_the_fault(60, bytes), wanted);
    ends(rt, 60, bytes, "Err(Err(HopByHopNotAtStart))");
}

#[test]
fn an_authentication_header_of_length_zero_is_refused(rt: HostRuntime) {
    let bytes = &[0; 12];
    let wanted = "(0, IpNumber(51), 0, Some((Err(IpAuth(ZeroPayloadLen)), IpAuthHeader)))";
    shows(rt, "lax", &up_to_the_fault(51, bytes), wanted);
    ends(rt, 51, bytes, "Err(Err(IpAuth(ZeroPayloadLen)))");
}

/// Whether there is no header after this number.
pub fn ends_at_once(number: usize) -> bool {
    let number = IpNumber(u8::try_from(number).unwrap_or(0));
    match Ipv6Extensions::from_slice(number, &[1, 2, 3]) {
        Ok((headers, last, rest)) => headers.is_empty()
            && last == number
            && rest == [1, 2, 3].as_slice(),
        Err(_) => false,
    }
}

// Mobility, host identity and shim6 headers end it too.
#[test]
fn numbers_without_a_slot_end_the_chain(rt: HostRuntime) {
    rows(
        rt,
        Call::NoIpv6,
        "6: true
        17: true
        50: true
        58: true
        59: true
        135: true
        139: true
        140: true
        253: true",
    );
}

#[test]
fn an_error_seen_from_an_earlier_start(rt: HostRuntime) {
    let missing = HeaderSliceError::Len(missing_in_slice(8, 7, Layer::Ipv6ExtHeader));
    let moved = fault_of(missing.add_slice_offset(40), 7);
    shows(rt, "a want", &moved, "Ok((8, 0, Slice, Ipv6ExtHeader, 40))");
    let fault = HeaderSliceError::Content(HeaderError::HopByHopNotAtStart).add_slice_offset(40);
    shows(rt, "a fault", &fault, "Content(HopByHopNotAtStart)");
}
