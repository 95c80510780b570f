//! The texts of errors of extension headers in a row.

use crate::checks::{missing_in_slice, read_alike, read_as, reads_as};
use ep_base::IpNumber;
use ep_base::err::Layer;
use ep_ext::err::{ip_auth, ip_exts, ipv4_exts, ipv6_exts};
use std::io::ErrorKind;
use std::test::*;

#[test]
fn texts_of_headers_that_are_not_reached(rt: HostRuntime) {
    let missing_ext = IpNumber(44);
    let v6 = ipv6_exts::ExtsWalkError::ExtNotReferenced { missing_ext };
    let written = ipv6_exts::HeaderWriteError::Content(v6);
    let walked = ip_exts::ExtsWalkError::Ipv6Exts(v6);
    let text = "IPv6 extension headers: no header names the one of number 44";
    read_as(rt, (&v6, &written, &walked), text);
}

#[test]
fn texts_of_a_header_of_ipv4_that_is_not_reached(rt: HostRuntime) {
    let missing_ext = IpNumber(51);
    let v4 = ipv4_exts::ExtsWalkError::ExtNotReferenced { missing_ext };
    let written = ipv4_exts::HeaderWriteError::Content(v4);
    let walked = ip_exts::ExtsWalkError::Ipv4Exts(v4);
    let text = "IPv4 extension headers: no header names the one of number 51";
    read_as(rt, (&v4, &written, &walked), text);
}

#[test]
fn texts_of_misplaced_options(rt: HostRuntime) {
    let text = "IPv6 extension headers: hop-by-hop options are not at the start";
    let fault = ipv6_exts::HeaderError::HopByHopNotAtStart;
    let walked = ipv6_exts::ExtsWalkError::HopByHopNotAtStart;
    let of_slice = ipv6_exts::HeaderSliceError::Content(fault);
    read_as(rt, (&walked, &fault, &of_slice), text);
    let read = ipv6_exts::HeaderReadError::Content(fault);
    let limited = ipv6_exts::HeaderLimitedReadError::Content(fault);
    read_as(
        rt,
        (&read, &limited, &ip_exts::HeaderError::Ipv6Ext(fault)),
        text,
    );
}

#[test]
fn texts_of_the_authentication_header_among_others(rt: HostRuntime) {
    let text = "authentication header: the payload length is 0";
    let zero = ip_auth::HeaderError::ZeroPayloadLen;
    let v4 = ip_exts::HeaderError::Ipv4Ext(zero);
    let of_slice = ip_exts::HeadersSliceError::Content(v4);
    reads_as(rt, &zero, text);
    read_as(
        rt,
        (&ipv6_exts::HeaderError::IpAuth(zero), &v4, &of_slice),
        text,
    );
}

// An error that holds a `LenError` has its text.
#[test]
fn texts_of_missing_bytes(rt: HostRuntime) {
    let error = missing_in_slice(8, 7, Layer::Ipv6FragHeader);
    let of_slice = ipv6_exts::HeaderSliceError::Len(error);
    let limited = ipv6_exts::HeaderLimitedReadError::Len(error);
    let of_headers = ip_exts::HeadersSliceError::Len(error);
    read_alike(rt, (&of_slice, &limited, &of_headers), &error);
}

#[test]
fn texts_of_out_of_memory(rt: HostRuntime) {
    let v6 = ipv6_exts::HeaderWriteError::Memory;
    reads_as(rt, &v6, "no memory left for IPv6 extension headers");
    let v4 = ipv4_exts::HeaderWriteError::Memory;
    reads_as(rt, &v4, "no memory left for IPv4 extension headers");
}

#[test]
fn texts_of_failed_reads(rt: HostRuntime) {
    let text = "permission denied";
    let read = ipv6_exts::HeaderReadError::Io(ErrorKind::PermissionDenied.into());
    reads_as(rt, &read, text);
    let limited = ipv6_exts::HeaderLimitedReadError::Io(ErrorKind::PermissionDenied.into());
    reads_as(rt, &limited, text);
}
