//! IP packets as far as they are there. The bytes are those of `packets`, cut or changed.
//! Calls have no contracts: tests alone make them, and are run.

use super::packets::{IPV4, IPV6};
use crate::checks::{fail, missing_in_slice};
use ep_base::err::{Layer, LenError};
use ep_base::{IpNumber, LenSource};
use ep_ext::err::{ip_auth, ip_exts, ipv6_exts};
use ep_ip::err::{ipv4, ipv6};
use ep_ipslice::err::ip;
use ep_ipslice::{LaxIpPayloadSlice, LaxIpSlice, LaxIpv4Slice, LaxIpv6Slice};
use std::net::IpAddr;
use std::test::*;

// Whether bytes are missing, the number, the source of the length and the bytes of a payload.
fn parts<'a>(payload: &LaxIpPayloadSlice<'a>) -> (bool, IpNumber, LenSource, &'a [u8]) {
    let source = payload.len_source;
    (
        payload.incomplete,
        payload.ip_number,
        source,
        payload.payload,
    )
}

// Whether there is no authentication header, the payload, and what stopped the packet.
fn ipv4_parts(
    bytes: &[u8],
) -> Option<
    (
        bool,
        (bool, IpNumber, LenSource, &[u8]),
        Option<ip_auth::HeaderSliceError>,
    ),
> {
    match LaxIpv4Slice::from_slice(bytes) {
        Ok((packet, fault)) => {
            let payload = parts(packet.payload());
            Some((packet.extensions().is_empty(), payload, fault))
        }
        Err(_) => None,
    }
}

#[test]
fn a_whole_ipv4_packet(rt: HostRuntime) {
    let bytes = IPV4;
    let payload = (
        false,
        IpNumber::UDP,
        LenSource::Ipv4HeaderTotalLen,
        &bytes[32..34],
    );
    assert!(rt; ipv4_parts(&bytes) == Some((false, payload, None)));
}

#[test]
fn an_ipv4_packet_cut_in_its_payload(rt: HostRuntime) {
    let bytes = IPV4;
    let payload = (true, IpNumber::UDP, LenSource::Slice, &bytes[32..33]);
    assert!(rt; ipv4_parts(&bytes[..33]) == Some((false, payload, None)));
}

// The authentication header of 12 bytes at offset 20, of which 5 are there.
fn missing_of_auth(len_source: LenSource) -> ip_auth::HeaderSliceError {
    ip_auth::HeaderSliceError::Len(LenError {
        required_len: 12,
        len: 5,
        len_source,
        layer: Layer::IpAuthHeader,
        layer_start_offset: 20,
    })
}

#[test]
fn an_ipv4_packet_cut_in_its_authentication_header(rt: HostRuntime) {
    let bytes = IPV4;
    let payload = (true, IpNumber(51), LenSource::Slice, &bytes[20..25]);
    let fault = missing_of_auth(LenSource::Slice);
    assert!(rt; ipv4_parts(&bytes[..25]) == Some((true, payload, Some(fault))));
}

#[test]
fn an_authentication_header_cut_by_the_total_length(rt: HostRuntime) {
    let mut bytes = IPV4;
    bytes[3] = 25;
    let source = LenSource::Ipv4HeaderTotalLen;
    let payload = (false, IpNumber(51), source, &bytes[20..25]);
    let fault = missing_of_auth(source);
    assert!(rt; ipv4_parts(&bytes) == Some((true, payload, Some(fault))));
}

#[test]
fn an_authentication_header_of_no_length(rt: HostRuntime) {
    let mut bytes = IPV4;
    bytes[21] = 0;
    let source = LenSource::Ipv4HeaderTotalLen;
    let payload = (false, IpNumber(51), source, &bytes[20..34]);
    let fault = ip_auth::HeaderSliceError::Content(ip_auth::HeaderError::ZeroPayloadLen);
    assert!(rt; ipv4_parts(&bytes) == Some((true, payload, Some(fault))));
}

#[test]
fn a_total_length_below_the_header_takes_the_slice(rt: HostRuntime) {
    let mut bytes = IPV4;
    bytes[3] = 19;
    let payload = (false, IpNumber::UDP, LenSource::Slice, &bytes[32..]);
    assert!(rt; ipv4_parts(&bytes) == Some((false, payload, None)));
}

#[test]
fn a_fragment_of_an_ipv4_packet(rt: HostRuntime) {
    let mut bytes = IPV4;
    bytes[6] = 0x20;
    let Ok((packet, _)) = LaxIpv4Slice::from_slice(&bytes[..33]) else {
        fail(rt, "no packet");
    };
    let found = (
        packet.is_payload_fragmented(),
        packet.payload().fragmented,
        packet.payload_ip_number(),
        packet.header().slice(),
    );
    assert!(rt; found == (true, true, IpNumber::UDP, &bytes[..20]));
}

// The extension headers, the payload, and what stopped the packet.
fn ipv6_parts(
    bytes: &[u8],
) -> Option<
    (
        &[u8],
        (bool, IpNumber, LenSource, &[u8]),
        Option<(ipv6_exts::HeaderSliceError, Layer)>,
    ),
> {
    match LaxIpv6Slice::from_slice(bytes) {
        Ok((packet, fault)) => {
            let payload = parts(packet.payload());
            Some((packet.extensions().slice(), payload, fault))
        }
        Err(_) => None,
    }
}

#[test]
fn a_whole_ipv6_packet(rt: HostRuntime) {
    let bytes = IPV6;
    let source = LenSource::Ipv6HeaderPayloadLen;
    let payload = (false, IpNumber::UDP, source, &bytes[84..86]);
    assert!(rt; ipv6_parts(&bytes) == Some((&bytes[40..84], payload, None)));
}

#[test]
fn an_ipv6_packet_cut_in_its_payload(rt: HostRuntime) {
    let bytes = IPV6;
    let payload = (true, IpNumber::UDP, LenSource::Slice, &bytes[84..85]);
    assert!(rt; ipv6_parts(&bytes[..85]) == Some((&bytes[40..84], payload, None)));
}

#[test]
fn an_ipv6_packet_cut_in_its_routing_header(rt: HostRuntime) {
    let bytes = IPV6;
    let payload = (true, IpNumber(43), LenSource::Slice, &bytes[48..50]);
    let fault = ipv6_exts::HeaderSliceError::Len(LenError {
        required_len: 8,
        len: 2,
        len_source: LenSource::Slice,
        layer: Layer::Ipv6ExtHeader,
        layer_start_offset: 48,
    });
    let stop = Some((fault, Layer::Ipv6RouteHeader));
    assert!(rt; ipv6_parts(&bytes[..50]) == Some((&bytes[40..48], payload, stop)));
}

#[test]
fn hop_by_hop_options_after_another_header_stop(rt: HostRuntime) {
    let mut bytes = IPV6;
    bytes[48] = 0;
    let source = LenSource::Ipv6HeaderPayloadLen;
    let payload = (false, IpNumber(0), source, &bytes[56..86]);
    let fault = ipv6_exts::HeaderSliceError::Content(ipv6_exts::HeaderError::HopByHopNotAtStart);
    let stop = Some((fault, Layer::Ipv6HopByHopHeader));
    assert!(rt; ipv6_parts(&bytes) == Some((&bytes[40..56], payload, stop)));
}

#[test]
fn a_payload_length_of_zero_takes_the_slice(rt: HostRuntime) {
    let mut bytes = IPV6;
    bytes[5] = 0;
    let payload = (false, IpNumber::UDP, LenSource::Slice, &bytes[84..]);
    assert!(rt; ipv6_parts(&bytes) == Some((&bytes[40..84], payload, None)));
}

#[test]
fn a_fragment_of_an_ipv6_packet(rt: HostRuntime) {
    let bytes = IPV6;
    let Ok((packet, _)) = LaxIpv6Slice::from_slice(&bytes[..85]) else {
        fail(rt, "no packet");
    };
    let found = (
        packet.is_payload_fragmented(),
        packet.payload_ip_number(),
        packet.header().slice(),
    );
    assert!(rt; found == (true, IpNumber::UDP, &bytes[..40]));
}

// What stops a packet of either version.
fn ip_stop(bytes: &[u8]) -> Option<(ip_exts::HeadersSliceError, Layer)> {
    match LaxIpSlice::from_slice(bytes) {
        Ok((_, stop)) => stop,
        Err(_) => None,
    }
}

#[test]
fn what_stops_packets_of_either_version(rt: HostRuntime) {
    let mut v4 = IPV4;
    v4[21] = 0;
    let mut v6 = IPV6;
    v6[48] = 0;
    let auth = ip_exts::HeaderError::Ipv4Ext(ip_auth::HeaderError::ZeroPayloadLen);
    let row = ip_exts::HeaderError::Ipv6Ext(ipv6_exts::HeaderError::HopByHopNotAtStart);
    let stops = (
        Some((
            ip_exts::HeadersSliceError::Content(auth),
            Layer::IpAuthHeader,
        )),
        Some((
            ip_exts::HeadersSliceError::Content(row),
            Layer::Ipv6HopByHopHeader,
        )),
    );
    assert!(rt; (ip_stop(&v4), ip_stop(&v6)) == stops);
}

// The error of a layer that the slice cuts.
fn missing_at(
    layer: Layer,
    required_len: usize,
    len: usize,
    layer_start_offset: usize,
) -> LenError {
    LenError {
        required_len,
        len,
        len_source: LenSource::Slice,
        layer,
        layer_start_offset,
    }
}

#[test]
fn missing_bytes_stop_packets_of_either_version(rt: HostRuntime) {
    let (v4, v6) = (IPV4, IPV6);
    let auth = missing_at(Layer::IpAuthHeader, 12, 5, 20);
    let row = missing_at(Layer::Ipv6ExtHeader, 8, 2, 48);
    let stops = (
        Some((ip_exts::HeadersSliceError::Len(auth), Layer::IpAuthHeader)),
        Some((ip_exts::HeadersSliceError::Len(row), Layer::Ipv6RouteHeader)),
    );
    assert!(rt; (ip_stop(&v4[..25]), ip_stop(&v6[..50])) == stops);
}

#[test]
fn a_cut_packet_of_version_four(rt: HostRuntime) {
    let bytes = IPV4;
    let Ok((packet, _)) = LaxIpSlice::from_slice(&bytes[..33]) else {
        fail(rt, "no packet");
    };
    let found = (
        packet.source_addr(),
        packet.destination_addr(),
        packet.ipv4().is_some(),
        packet.ipv6().is_some(),
        packet.is_fragmenting_payload(),
        packet.payload().incomplete,
    );
    let addresses = (IpAddr::from([10, 0, 0, 1]), IpAddr::from([10, 0, 0, 2]));
    assert!(rt; found == (addresses.0, addresses.1, true, false, false, true));
}

#[test]
fn a_cut_packet_of_version_six(rt: HostRuntime) {
    let bytes = IPV6;
    let Ok((packet, _)) = LaxIpSlice::from_slice(&bytes[..85]) else {
        fail(rt, "no packet");
    };
    let source = IpAddr::from([0xfd, 0, 0, 0, 0, 0, 0, 0, 0, 0, 0, 0, 0, 0, 0, 1]);
    let found = (
        packet.source_addr(),
        packet.payload_ip_number(),
        packet.ipv4().is_some(),
        packet.ipv6().is_some(),
        packet.is_fragmenting_payload(),
    );
    assert!(rt; found == (source, IpNumber::UDP, false, true, true));
}

fn ip_refusal(bytes: &[u8]) -> Option<ip::LaxHeaderSliceError> {
    match LaxIpSlice::from_slice(bytes) {
        Ok(_) => None,
        Err(error) => Some(error),
    }
}

#[test]
fn base_headers_that_cannot_be_read(rt: HostRuntime) {
    let v6 = IPV6;
    let found = (
        ip_refusal(&[]),
        ip_refusal(&[0x50]),
        ip_refusal(&[0x44; 20]),
        ip_refusal(&v6[..39]),
    );
    let version = ip::HeaderError::UnsupportedIpVersion { version_number: 5 };
    let length = ip::HeaderError::Ipv4HeaderLengthSmallerThanHeader { ihl: 4 };
    let refusals = (
        Some(ip::LaxHeaderSliceError::Len(missing_in_slice(1, 0, Layer::IpHeader))),
        Some(ip::LaxHeaderSliceError::Content(version)),
        Some(ip::LaxHeaderSliceError::Content(length)),
        Some(ip::LaxHeaderSliceError::Len(missing_in_slice(40, 39, Layer::Ipv6Header))),
    );
    assert!(rt; found == refusals);
}

#[test]
fn headers_of_the_other_version(rt: HostRuntime) {
    let (v4, v6) = (IPV4, IPV6);
    let of_v6 = match LaxIpv4Slice::from_slice(&v6) {
        Ok(_) => None,
        Err(error) => Some(error),
    };
    let of_v4 = match LaxIpv6Slice::from_slice(&v4) {
        Ok(_) => None,
        Err(error) => Some(error),
    };
    let six = ipv4::HeaderError::UnexpectedVersion { version_number: 6 };
    assert!(rt; of_v6 == Some(ipv4::HeaderSliceError::Content(six)));
    let missing = missing_in_slice(40, 35, Layer::Ipv6Header);
    assert!(rt; of_v4 == Some(ipv6::HeaderSliceError::Len(missing)));
}
