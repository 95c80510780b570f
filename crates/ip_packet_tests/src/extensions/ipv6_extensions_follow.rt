//! The headers that a value holds: followed, written, linked.

use super::ipv6_extensions::{CHAIN, all_headers};
use crate::checks::{holds, shows};
use ep_base::{IpFragOffset, IpNumber};
use ep_ext::err::ipv6_exts::{ExtsWalkError, HeaderWriteError};
use ep_ext::{IpAuthHeader, Ipv6Extensions, Ipv6FragmentHeader, Ipv6RawExtHeader, laws};
use std::alloc::Global;
use std::process::Abort;
use std::test::*;

// The number after headers, or the one of the header that is not reached: None for options that are
// named later.
fn number_after(headers: &Ipv6Extensions, first: u8) -> Result<u8, Option<u8>> {
    match headers.next_header(IpNumber(first)) {
        Ok(number) => Ok(number.0),
        Err(ExtsWalkError::ExtNotReferenced { missing_ext }) => Err(Some(missing_ext.0)),
        Err(ExtsWalkError::HopByHopNotAtStart) => Err(None),
    }
}

fn leads(rt: impl Abort + AllocGlobal + Copy, headers: &Ipv6Extensions, first: u8, wanted: &str) {
    shows(rt, first, &number_after(headers, first), wanted);
}

// How headers are written after a byte: the result, and whether these are the bytes after it.
fn written_after_a_byte(
    alloc: Global,
    headers: &Ipv6Extensions,
    first: u8,
    bytes: &[u8],
) -> (Result<(), HeaderWriteError>, bool) {
    let mut buffer = Vec::new(alloc);
    if buffer.push(9).is_err() {
        return (Err(HeaderWriteError::Memory), false);
    }
    let done = headers.write(&mut buffer, IpNumber(first));
    let are_appended = buffer.first() == Some(&9) && buffer.get(1..) == Some(bytes);
    (done, are_appended)
}

fn is_written(
    rt: impl Abort + AllocGlobal + Copy,
    headers: &Ipv6Extensions,
    first: u8,
    bytes: &[u8],
) {
    let written = written_after_a_byte(rt.alloc(), headers, first, bytes);
    shows(rt, first, &written, "(Ok(()), true)");
}

#[test]
fn a_chain_is_followed_and_written(rt: HostRuntime) {
    let headers = all_headers();
    leads(rt, &headers, 0, "Ok(17)");
    is_written(rt, &headers, 0, &CHAIN[..72]);
}

// What is read again of headers that are written over the start of these bytes: whether they are
// the same, the number after them, and how many bytes are left.
fn read_back(headers: &Ipv6Extensions, bytes: &[u8]) -> Option<(bool, IpNumber, usize)> {
    match laws::read_call_gives_written_chain(headers, IpNumber(0), bytes) {
        Ok((again, number, rest)) => Some((&again == headers, number, rest.len())),
        Err(_) => None,
    }
}

#[test]
fn what_is_written_reads_back(rt: HostRuntime) {
    let read = read_back(&all_headers(), &CHAIN);
    shows(rt, "all", &read, "Some((true, IpNumber(17), 2))");
}

fn are_their_copy(headers: Ipv6Extensions) -> bool {
    let copy: Result<_, _> = headers.clone();
    copy == Ok(headers)
}

#[test]
fn headers_are_their_copy(rt: HostRuntime) {
    holds(rt, are_their_copy(all_headers()));
}

fn fragment_alone() -> Ipv6Extensions {
    let mut headers = Ipv6Extensions::default();
    headers.fragment = Some(Ipv6FragmentHeader::new(IpNumber(17), IpFragOffset::ZERO, false, 0));
    headers
}

#[test]
fn a_fragment_header_alone(rt: HostRuntime) {
    let headers = fragment_alone();
    holds(rt, !headers.is_fragmenting_payload());
    leads(rt, &headers, 17, "Err(Some(44))");
    leads(rt, &headers, 44, "Ok(17)");
    is_written(rt, &headers, 44, &[0x11, 0, 0, 0, 0, 0, 0, 0]);
}

#[test]
fn no_header_at_all(rt: HostRuntime) {
    let headers = Ipv6Extensions::default();
    let found = (
        headers.is_empty(),
        headers.is_fragmenting_payload(),
        headers.header_len(),
        Ipv6Extensions::MAX_LEN,
    );
    shows(rt, "none", &found, "(true, false, 0, 9228)");
    leads(rt, &headers, 0, "Ok(0)");
    is_written(rt, &headers, 17, &[]);
}

// The headers are named in the order hop by hop, destination, routing, fragment, authentication,
// final destination.
#[test]
fn the_first_header_that_is_not_reached(rt: HostRuntime) {
    let mut headers = all_headers();
    leads(rt, &headers, 17, "Err(Some(0))");
    leads(rt, &headers, 60, "Err(Some(0))");
    headers.hop_by_hop_options = None;
    leads(rt, &headers, 17, "Err(Some(60))");
    headers.destination_options = None;
    leads(rt, &headers, 17, "Err(Some(43))");
    leads(rt, &headers, 51, "Err(Some(43))");
}

// Headers from a routing header on that names 17.
fn from_routing() -> Ipv6Extensions {
    let mut headers = all_headers();
    headers.hop_by_hop_options = None;
    headers.destination_options = None;
    if let Some(routing) = &mut headers.routing {
        routing.routing.next_header = IpNumber(17);
    }
    headers
}

#[test]
fn the_later_headers_that_are_not_reached(rt: HostRuntime) {
    let mut headers = from_routing();
    leads(rt, &headers, 43, "Err(Some(44))");
    headers.fragment = None;
    leads(rt, &headers, 43, "Err(Some(51))");
    headers.auth = None;
    leads(rt, &headers, 43, "Err(Some(60))");
}

// Headers whose destination options name hop-by-hop options.
fn with_later_options() -> Ipv6Extensions {
    let mut headers = all_headers();
    if let Some(destination) = &mut headers.destination_options {
        destination.next_header = IpNumber(0);
    }
    headers
}

#[test]
fn hop_by_hop_options_that_are_named_later(rt: HostRuntime) {
    let headers = with_later_options();
    leads(rt, &headers, 60, "Err(None)");
    // Where they were taken first, a later 0 ends the walk.
    leads(rt, &headers, 0, "Err(Some(43))");
    let written = written_after_a_byte(rt.alloc(), &headers, 60, &[]);
    shows(
        rt,
        "write",
        &written,
        "(Err(Content(HopByHopNotAtStart)), true)",
    );
}

// What headers are made to name first where the last of them is to name 6.
fn names(rt: impl Abort + AllocGlobal + Copy, headers: &mut Ipv6Extensions, wanted: &str) {
    shows(rt, "6", &headers.set_next_headers(IpNumber(6)), wanted);
}

// Options of 8 bytes and an authentication header of 16.
fn options_and_auth() -> Ipv6Extensions {
    let mut headers = Ipv6Extensions::default();
    headers.auth = IpAuthHeader::new(IpNumber(0), 1, 2, &[1, 2, 3, 4]).ok();
    let options = Ipv6RawExtHeader::new_raw(IpNumber(0), &[1, 4, 0, 0, 0, 0]);
    headers.destination_options = options.ok();
    headers
}

#[test]
fn headers_made_to_name_one_another(rt: HostRuntime) {
    names(rt, &mut Ipv6Extensions::default(), "IpNumber(6)");
    let mut headers = options_and_auth();
    names(rt, &mut headers, "IpNumber(60)");
    let bytes = &[
        51, 0, 1, 4, 0, 0, 0, 0, 6, 2, 0, 0, 0, 0, 0, 1, 0, 0, 0, 2, 1, 2, 3, 4,
    ];
    is_written(rt, &headers, 60, bytes);
}

#[test]
fn all_headers_made_to_name_one_another(rt: HostRuntime) {
    let mut headers = all_headers();
    let mut bytes = CHAIN;
    bytes[64] = 6;
    names(rt, &mut headers, "IpNumber(0)");
    leads(rt, &headers, 0, "Ok(6)");
    is_written(rt, &headers, 0, &bytes[..72]);
}
