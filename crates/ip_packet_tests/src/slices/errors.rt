//! The texts of the errors of IP packets.

use crate::checks::{missing_in_slice, read_as, reads_as};
use ep_base::err::Layer;
use ep_ext::err::{ip_auth, ipv6_exts};
use ep_ipslice::err::{ip, ipv4, ipv6};
use std::process::Abort;
use std::test::*;

// This is the text of a fault of a base header, and of the errors that hold it. It has no contract:
// tests alone call it, and are run.
fn is_text_of(rt: impl Abort + AllocGlobal + Copy, fault: ip::HeaderError, text: &str) {
    let headers = ip::HeadersError::Ip(fault);
    let of_slice = ip::HeadersSliceError::Content(headers);
    read_as(rt, (&fault, &headers, &of_slice), text);
    reads_as(rt, &ip::SliceError::IpHeaders(headers), text);
}

#[test]
fn texts_of_base_headers(rt: HostRuntime) {
    let version = ip::HeaderError::UnsupportedIpVersion { version_number: 5 };
    let text = "unsupported IP version 5, which is neither 4 nor 6";
    is_text_of(rt, version, text);
    let length = ip::HeaderError::Ipv4HeaderLengthSmallerThanHeader { ihl: 4 };
    let text = "an IPv4 header length of 4 words of 4 bytes, where 5 are the least";
    is_text_of(rt, length, text);
}

// An error that holds another one has its text.
#[test]
fn texts_of_missing_bytes(rt: HostRuntime) -> Result<(), Fail> {
    let error = missing_in_slice(20, 3, Layer::Ipv4Header);
    let text = format!(in rt.alloc(); "{error}")?;
    let (v4, v6) = (ipv4::SliceError::Len(error), ipv6::SliceError::Len(error));
    let of_headers = ip::HeadersSliceError::Len(error);
    read_as(rt, (&v4, &v6, &of_headers), text.as_str());
    reads_as(rt, &ip::SliceError::Len(error), text.as_str());
    Ok(())
}

#[test]
fn texts_of_versions(rt: HostRuntime) {
    let v4 = ep_ip::err::ipv4::HeaderError::UnexpectedVersion { version_number: 6 };
    let text = "IPv4 header: the version number is 6 and not 4";
    reads_as(rt, &v4, text);
    reads_as(rt, &ipv4::SliceError::Header(v4), text);
    let v6 = ep_ip::err::ipv6::HeaderError::UnexpectedVersion { version_number: 4 };
    let text = "IPv6 header error: unexpected version number 4";
    reads_as(rt, &v6, text);
    reads_as(rt, &ipv6::SliceError::Header(v6), text);
}

#[test]
fn texts_of_extension_headers(rt: HostRuntime) {
    let v4 = ip_auth::HeaderError::ZeroPayloadLen;
    let (of_packet, of_headers) = (ipv4::SliceError::Exts(v4), ip::HeadersError::Ipv4Ext(v4));
    let text = "authentication header: the payload length is 0";
    read_as(rt, (&v4, &of_packet, &of_headers), text);
    let v6 = ipv6_exts::HeaderError::HopByHopNotAtStart;
    let (of_packet, of_headers) = (ipv6::SliceError::Exts(v6), ip::HeadersError::Ipv6Ext(v6));
    let text = "IPv6 extension headers: hop-by-hop options are not at the start";
    read_as(rt, (&v6, &of_packet, &of_headers), text);
}
