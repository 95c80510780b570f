//! Headers of IP packets in slices. The bytes were worked out by hand after RFC 791 and 8200.
use crate::checks::equal;
use ep_base::err::{Layer, LenError};
use ep_base::{IpNumber, LenSource};
use ep_ipslice::err::ip::{HeaderError, HeadersError, HeadersSliceError};
use ep_ipslice::err::ipv6::SliceError;
use ep_packet::IpHeaders;
use std::process::Abort;
use std::test::*;

// The functions below have no contracts, as tests alone call them.

// An IPv6 packet whose payload length is 16: a fragment header of a first fragment that names this
// number, eight bytes, and one of padding.
fn ipv6_packet(next: u8) -> [u8; 57] {
    let mut packet = [
        0x60, 0, 0, 0, 0, 16, 44, 64, 7, 7, 7, 7, 7, 7, 7, 7, 7, 7, 7, 7, 7, 7, 7, 7, 7, 7, 7, 7,
        7, 7, 7, 7, 7, 7, 7, 7, 7, 7, 7, 7, 0, 0, 0, 1, 0, 0, 0, 7, 1, 2, 3, 4, 5, 6, 7, 8, 0,
    ];
    packet[40] = next;
    packet
}

// The length of the headers, and whether they mark the payload as a fragment.
fn headers_of_ipv6(packet: &[u8]) -> Option<(usize, bool)> {
    match IpHeaders::from_ipv6_slice(packet) {
        Ok((headers, _)) => Some((headers.header_len(), headers.is_fragmenting_payload())),
        Err(_) => None,
    }
}

// The payload after the headers: its number, whether it is a fragment, what bounds it, its bytes.
fn payload_of_ipv6(packet: &[u8]) -> Option<(IpNumber, bool, LenSource, &[u8])> {
    match IpHeaders::from_ipv6_slice(packet) {
        Ok((_, payload)) => Some((
            payload.ip_number,
            payload.fragmented,
            payload.len_source,
            payload.payload,
        )),
        Err(_) => None,
    }
}

#[test]
fn headers_and_payload_of_an_ipv6_packet(rt: HostRuntime) {
    let packet = ipv6_packet(17);
    equal(rt, headers_of_ipv6(&packet), Some((48, true)));
    let bytes = [1, 2, 3, 4, 5, 6, 7, 8].as_slice();
    let payload = (IpNumber(17), true, LenSource::Ipv6HeaderPayloadLen, bytes);
    equal(rt, payload_of_ipv6(&packet), Some(payload));
}

// Destination options after the fragment header, of (2 + 1) * 8 bytes, where eight are left.
#[test]
fn extension_header_cut_off(rt: HostRuntime) {
    let mut packet = ipv6_packet(60);
    packet[49] = 2;
    let missing = LenError {
        required_len: 24,
        len: 8,
        len_source: LenSource::Ipv6HeaderPayloadLen,
        layer: Layer::Ipv6ExtHeader,
        layer_start_offset: 48,
    };
    let refused = IpHeaders::from_ipv6_slice(&packet).err();
    equal(rt, refused, Some(SliceError::Len(missing)));
    refuses(rt, &packet, HeadersSliceError::Len(missing));
}

// Whether the headers are of IPv6, the number after them, and the length of the payload.
fn read(packet: &[u8]) -> Option<(bool, IpNumber, usize)> {
    match IpHeaders::read_from_slice(packet) {
        Ok((headers, number, payload)) => Some((headers.ipv6().is_some(), number, payload.len())),
        Err(_) => None,
    }
}

// A second fragment header ends the headers, since a value holds one.
#[test]
fn second_fragment_header(rt: HostRuntime) {
    equal(rt, read(&ipv6_packet(44)), Some((true, IpNumber(44), 8)));
}

#[test]
fn version_determines_the_headers(rt: HostRuntime) {
    let mut ipv4 = [0; 20];
    ipv4[0] = 0x45;
    ipv4[3] = 20;
    equal(rt, read(&ipv6_packet(17)), Some((true, IpNumber(17), 8)));
    equal(rt, IpHeaders::from_slice(&ipv4).is_ok(), true);
    equal(rt, read(&ipv4[..19]), None);
}

fn refuses(rt: impl Abort + Copy, packet: &[u8], error: HeadersSliceError) {
    equal(rt, IpHeaders::from_slice(packet).err(), Some(error));
}

#[test]
fn neither_version(rt: HostRuntime) {
    let missing = LenError {
        required_len: 1,
        len: 0,
        len_source: LenSource::Slice,
        layer: Layer::IpHeader,
        layer_start_offset: 0,
    };
    refuses(rt, &[], HeadersSliceError::Len(missing));
    let other = HeaderError::UnsupportedIpVersion { version_number: 5 };
    refuses(
        rt,
        &[0x5f],
        HeadersSliceError::Content(HeadersError::Ip(other)),
    );
}
