//! The extension headers of IPv4.
//! Calls have no contracts: tests alone make them, and are run.

use super::headers::{Missing, fault_of, prefix};
use super::kinds::{Kind, is_appended};
use super::rows::{Call, rows};
use crate::checks::{holds, shows};
use ep_base::IpNumber;
use ep_ext::err::ip_auth::HeaderError;
use ep_ext::err::ipv4_exts::HeaderWriteError;
use ep_ext::{Ipv4Extensions, laws};
use std::alloc::Global;
use std::test::*;

/// An authentication header by RFC 4302, section 2, and a byte.
pub const AUTH: [u8; 17] = [6, 2, 0, 0, 0, 0, 0, 1, 0, 0, 0, 2, 1, 2, 3, 4, 0xaa];

// The header of `AUTH`.
fn auth_header() -> Ipv4Extensions {
    Ipv4Extensions::from_slice_lax(IpNumber(51), &AUTH).0
}

// Whether there are no headers, the number after them, how many bytes of the slice are read, and
// the fault.
type Lax = (bool, IpNumber, usize, Option<Result<Missing, HeaderError>>);

fn up_to_the_fault(first: u8, bytes: &[u8]) -> Lax {
    let (headers, number, rest, fault) = Ipv4Extensions::from_slice_lax(IpNumber(first), bytes);
    let fault = match fault {
        Some(error) => Some(fault_of(error, bytes.len())),
        None => None,
    };
    let read = bytes.len().wrapping_sub(rest.len());
    (headers.is_empty(), number, read, fault)
}

// Whether headers after the number 51 are none, their length, the number after them and what is
// left, or why they are refused.
type Chain<'a> = Result<(bool, usize, IpNumber, &'a [u8]), Result<Missing, HeaderError>>;

fn chain(bytes: &[u8]) -> Chain<'_> {
    match Ipv4Extensions::from_slice(IpNumber(51), bytes) {
        Ok((headers, number, rest)) => {
            Ok((headers.is_empty(), headers.header_len(), number, rest))
        }
        Err(error) => Err(fault_of(error, bytes.len())),
    }
}

/// A prefix of `AUTH`, and the same up to the fault.
pub fn auth_prefix(len: usize) -> (Chain<'static>, Lax) {
    let bytes = prefix(&AUTH, len);
    (chain(bytes), up_to_the_fault(51, bytes))
}

#[test]
fn an_authentication_header_and_its_prefixes(rt: HostRuntime) {
    rows(
        rt,
        Call::Ipv4,
        "0..12: (Err(Ok((12, 0, Slice, IpAuthHeader, 0))), \
            (true, IpNumber(51), 0, Some(Ok((12, 0, Slice, IpAuthHeader, 0)))))
        12..16: (Err(Ok((16, 0, Slice, IpAuthHeader, 0))), \
            (true, IpNumber(51), 0, Some(Ok((16, 0, Slice, IpAuthHeader, 0)))))
        17: (Ok((false, 16, IpNumber(6), [170])), (false, IpNumber(6), 16, None))",
    );
}

// A fault keeps the number and the slice.
#[test]
fn a_length_field_of_zero_is_refused(rt: HostRuntime) {
    shows(rt, "0", &chain(&[0; 12]), "Err(Err(ZeroPayloadLen))");
    let wanted = "(true, IpNumber(51), 0, Some(Err(ZeroPayloadLen)))";
    shows(rt, "0", &up_to_the_fault(51, &[0; 12]), wanted);
}

// The length of no headers, the number after them, and the one that they name first where the last
// names 17.
fn none() -> (usize, IpNumber, IpNumber) {
    let mut headers = Ipv4Extensions::from_slice_lax(IpNumber::UDP, &[0, 1, 2, 3]).0;
    let after = headers.next_header(IpNumber::UDP).unwrap_or(IpNumber(0));
    (
        headers.header_len(),
        after,
        headers.set_next_headers(IpNumber(17)),
    )
}

#[test]
fn no_header_after_udp(rt: HostRuntime) {
    let wanted = "(true, IpNumber(17), 0, None)";
    shows(rt, "UDP", &up_to_the_fault(17, &[0, 1, 2, 3]), wanted);
    shows(rt, "none", &none(), "(0, IpNumber(17), IpNumber(17))");
}

#[test]
fn an_authentication_header_is_appended(rt: HostRuntime) {
    let is_so = is_appended(rt.alloc(), Kind::Ipv4(51), &AUTH, &AUTH[..16]);
    holds(rt, is_so);
}

// Whether headers are the same that are written over the start of these bytes and read again, and
// their copy.
fn read_back(headers: Ipv4Extensions, bytes: &[u8]) -> bool {
    let is_read = match laws::written_ipv4_chain_reads_back(&headers, IpNumber(51), bytes) {
        Ok((again, _, _)) => again == headers,
        Err(_) => false,
    };
    let copy: Result<_, _> = headers.clone();
    is_read && copy == Ok(headers)
}

#[test]
fn what_is_written_reads_back(rt: HostRuntime) {
    holds(rt, read_back(auth_header(), &AUTH));
}

// How the header is written after a number, and how much was written.
fn written(alloc: Global, first: u8) -> (Result<(), HeaderWriteError>, usize) {
    let mut buffer = Vec::new(alloc);
    let done = auth_header().write(&mut buffer, IpNumber(first));
    (done, buffer.len())
}

#[test]
fn numbers_after_a_header(rt: HostRuntime) {
    let named = auth_header().next_header(IpNumber(51));
    shows(rt, "51", &named, "Ok(IpNumber(6))");
    let missing = auth_header().next_header(IpNumber(6));
    let wanted = "Err(ExtNotReferenced { missing_ext: IpNumber(51) })";
    shows(rt, "6", &missing, wanted);
    let wanted = "(Err(Content(ExtNotReferenced { missing_ext: IpNumber(51) })), 0)";
    shows(rt, "write", &written(rt.alloc(), 6), wanted);
}

// What `set_next_headers` returns where a header is made to name 17, and what it names then.
fn renamed() -> (IpNumber, Option<IpNumber>) {
    let mut headers = auth_header();
    let first = headers.set_next_headers(IpNumber(17));
    (first, headers.next_header(IpNumber(51)).ok())
}

#[test]
fn a_header_that_names_another(rt: HostRuntime) {
    let wanted = "(IpNumber(51), Some(IpNumber(17)))";
    shows(rt, "17", &renamed(), wanted);
    shows(rt, "MAX_LEN", &Ipv4Extensions::MAX_LEN, "1028");
    let mut none = Ipv4Extensions::default();
    let named = none.set_next_headers(IpNumber(17));
    shows(rt, "none", &named, "IpNumber(17)");
}
