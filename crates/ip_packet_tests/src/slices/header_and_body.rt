//! The header of an IPv6 packet and the body that its payload length bounds, by the packet of
//! `packets`.
use super::packets::IPV6;
use ep_base::LenSource;
use ep_base::err::{Layer, LenError};
use ep_ext::err::{ip_auth, ip_exts, ipv6_exts};
use ep_ipslice::err::ip::{
    HeaderError, HeadersError, HeadersSliceError, LaxHeaderSliceError, SliceError,
};
use ep_ipslice::err::{ipv4, ipv6};
use ep_ipslice::{Ipv6Slice, LaxIpSlice, LaxIpv6Slice};

// The bytes of the header, the source of the length and the body, where there is a packet.
fn header_and_body(bytes: &[u8]) -> Option<(&[u8], LenSource, &[u8])> {
    match Ipv6Slice::header_and_body(bytes) {
        Ok((header, len_source, body)) => Some((header.slice(), len_source, body)),
        Err(_) => None,
    }
}

#[test]
fn body_of_a_packet(rt: HostRuntime) {
    let bytes = IPV6;
    let source = LenSource::Ipv6HeaderPayloadLen;
    let parts = Some((&bytes[..40], source, &bytes[40..86]));
    let is_refused = header_and_body(&bytes[..85]).is_none();
    assert!(rt; (header_and_body(&bytes), is_refused) == (parts, true));
}

#[test]
fn faults_of_packets_are_of_headers(rt: HostRuntime) {
    let missing = LenError {
        required_len: 1,
        len: 0,
        len_source: LenSource::Slice,
        layer: Layer::IpHeader,
        layer_start_offset: 0,
    };
    let fault = HeadersSliceError::of_packet(SliceError::Len(missing));
    assert!(rt; fault == HeadersSliceError::Len(missing));
}

#[test]
fn faults_of_either_version(rt: HostRuntime) {
    let other = HeadersError::Ip(HeaderError::UnsupportedIpVersion { version_number: 5 });
    let v4 = ep_ip::err::ipv4::HeaderError::UnexpectedVersion { version_number: 5 };
    let v6 = ep_ip::err::ipv6::HeaderError::UnexpectedVersion { version_number: 5 };
    let found = [
        SliceError::of_ipv4(ipv4::SliceError::Header(v4)),
        SliceError::of_ipv6(ipv6::SliceError::Header(v6)),
    ];
    assert!(rt; found == [SliceError::IpHeaders(other); 2]);
}

#[test]
fn faults_of_ipv6_headers(rt: HostRuntime) {
    let error = ep_ip::err::ipv6::HeaderError::UnexpectedVersion { version_number: 4 };
    let version = ipv6::SliceError::of_header(ep_ip::err::ipv6::HeaderSliceError::Content(error));
    // After the header of 40 bytes.
    let missing = LenError {
        required_len: 8,
        len: 7,
        len_source: LenSource::Slice,
        layer: Layer::Ipv6FragHeader,
        layer_start_offset: 16,
    };
    let source = LenSource::Ipv6HeaderPayloadLen;
    let fault = ipv6::SliceError::of_extensions(ipv6_exts::HeaderSliceError::Len(missing), source);
    let moved = LenError {
        len_source: source,
        layer_start_offset: 56,
        ..missing
    };
    assert!(rt;
        (version, fault)
            == (
                ipv6::SliceError::Header(error),
                ipv6::SliceError::Len(moved)
            )
    );
}

// The same as far as the body is there, and whether bytes of it are missing.
fn lax_header_and_body(bytes: &[u8]) -> Option<(usize, LenSource, bool, &[u8])> {
    match LaxIpv6Slice::header_and_body(bytes) {
        Ok((header, source, incomplete, body)) => {
            Some((header.slice().len(), source, incomplete, body))
        }
        Err(_) => None,
    }
}

#[test]
fn body_of_a_cut_packet(rt: HostRuntime) {
    let bytes = IPV6;
    let source = LenSource::Ipv6HeaderPayloadLen;
    let found = [
        lax_header_and_body(&bytes),
        lax_header_and_body(&bytes[..85]),
        lax_header_and_body(&bytes[..39]),
    ];
    let wanted = [
        Some((40, source, false, &bytes[40..86])),
        Some((40, LenSource::Slice, true, &bytes[40..85])),
        None,
    ];
    assert!(rt; found == wanted);
}

// The first header of a body that lacks a byte, with the offset in the packet.
#[test]
fn faults_of_a_body(rt: HostRuntime) {
    let missing = LenError::too_few_bytes(Layer::Ipv6FragHeader, 8, 7);
    let layer = Layer::Ipv6FragHeader;
    let source = LenSource::Ipv6HeaderPayloadLen;
    let fault = Some((ipv6_exts::HeaderSliceError::Len(missing), layer));
    let moved = LenError {
        len_source: source,
        layer_start_offset: 40,
        ..missing
    };
    let found = LaxIpv6Slice::fault_of_body(fault, source);
    assert!(rt; found == Some((ipv6_exts::HeaderSliceError::Len(moved), layer)));
    assert!(rt;
        LaxIpSlice::stop_of_ipv6(found) == Some((ip_exts::HeadersSliceError::Len(moved), layer))
    );
}

#[test]
fn stops_of_either_version(rt: HostRuntime) {
    let zero = ip_auth::HeaderError::ZeroPayloadLen;
    let error = ip_exts::HeaderError::Ipv4Ext(zero);
    let wanted = Some((
        ip_exts::HeadersSliceError::Content(error),
        Layer::IpAuthHeader,
    ));
    let fault = Some(ip_auth::HeaderSliceError::Content(zero));
    assert!(rt; LaxIpSlice::stop_of_ipv4(fault) == wanted);
    let v4 = ep_ip::err::ipv4::HeaderError::UnexpectedVersion { version_number: 5 };
    let v6 = ep_ip::err::ipv6::HeaderError::UnexpectedVersion { version_number: 5 };
    let found = [
        HeaderError::of_ipv4_slice(ep_ip::err::ipv4::HeaderSliceError::Content(v4)),
        HeaderError::of_ipv6_slice(ep_ip::err::ipv6::HeaderSliceError::Content(v6)),
    ];
    let other = HeaderError::UnsupportedIpVersion { version_number: 5 };
    assert!(rt; found == [LaxHeaderSliceError::Content(other); 2]);
}
