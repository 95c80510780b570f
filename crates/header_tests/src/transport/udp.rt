//! UDP headers and datagrams.

use crate::checks::{equal, fail, shows};
use ep_base::LenSource;
use ep_base::err::{Layer, LenError, ValueTooBigError, ValueType};
use ep_tcpudp::{UdpHeader, UdpHeaderSlice, UdpSlice, laws};
use std::process::Abort;
use std::test::*;

// Ports 1 and 2 of a datagram of 16 bytes with the payload 1 to 8, and two bytes after it.
const BYTES: [u8; 18] = [
    0, 1, 0, 2, 0, 16, 0xdb, 0xb4, 1, 2, 3, 4, 5, 6, 7, 8, 0xaa, 0xbb,
];

// The functions below have no contracts, as tests alone call them.

fn fields() -> UdpHeader {
    UdpHeader {
        source_port: 1,
        destination_port: 2,
        length: 16,
        checksum: 0xdbb4,
    }
}

fn missing(required_len: usize, len: usize, len_source: LenSource, layer: Layer) -> LenError {
    LenError {
        required_len,
        len,
        len_source,
        layer,
        layer_start_offset: 0,
    }
}

#[test]
fn header_by_position(rt: HostRuntime) {
    let short = missing(8, 7, LenSource::Slice, Layer::UdpHeader);
    equal(
        rt,
        UdpHeader::from_slice(&BYTES),
        Ok((fields(), &BYTES[8..])),
    );
    equal(rt, UdpHeader::from_slice(&BYTES[..7]), Err(short));
}

#[test]
fn bytes_by_position(rt: HostRuntime) {
    let bytes = [0, 1, 0, 2, 0, 16, 0xdb, 0xb4];
    let written = [fields().to_bytes(), UdpHeader::default().to_bytes()];
    equal(rt, written, [bytes, [0; 8]]);
    equal(rt, UdpHeader::from_bytes(bytes), fields());
    equal(rt, (fields().header_len(), UdpHeader::LEN_U16), (8, 8));
}

#[test]
fn header_appended(rt: HostRuntime) {
    let mut buffer = Vec::new(rt.alloc());
    let written = buffer.push(9).is_ok() && fields().write(&mut buffer).is_ok();
    let wanted = (true, [9, 0, 1, 0, 2, 0, 16, 0xdb, 0xb4].as_slice());
    equal(rt, (written, buffer.as_slice()), wanted);
}

// Both ports, the length and the checksum.
fn numbers_of(header: &UdpHeaderSlice<'_>) -> [u16; 4] {
    [
        header.source_port(),
        header.destination_port(),
        header.length(),
        header.checksum(),
    ]
}

fn numbers_of_datagram(datagram: &UdpSlice<'_>) -> [u16; 4] {
    [
        datagram.source_port(),
        datagram.destination_port(),
        datagram.length(),
        datagram.checksum(),
    ]
}

#[test]
fn getters_of_the_header_slice(rt: HostRuntime) {
    match UdpHeaderSlice::from_slice(&BYTES) {
        Ok(header) => {
            equal(rt, numbers_of(&header), [1, 2, 16, 0xdbb4]);
            equal(rt, header.slice(), &BYTES[..8]);
            equal(rt, header.to_header(), fields());
        }
        Err(_) => fail(rt, "no header"),
    }
}

#[test]
fn getters_of_the_datagram(rt: HostRuntime) {
    match UdpSlice::from_slice(&BYTES) {
        Ok(datagram) => {
            equal(rt, numbers_of_datagram(&datagram), [1, 2, 16, 0xdbb4]);
            equal(rt, datagram.to_header(), fields());
            equal(rt, datagram.slice(), &BYTES[..16]);
            equal(rt, datagram.header_slice(), &BYTES[..8]);
            equal(rt, datagram.header_len(), 8);
        }
        Err(_) => fail(rt, "no datagram"),
    }
}

// A datagram of 10 bytes whose length field is this.
fn datagram_of(length: u8) -> [u8; 10] {
    [0, 1, 0, 2, 0, length, 0, 0, 7, 8]
}

// The payload of a datagram and what bounds it, or why it is refused.
fn payload(bytes: &[u8]) -> Result<(&[u8], LenSource), LenError> {
    match UdpSlice::from_slice(bytes) {
        Ok(datagram) => Ok((datagram.payload(), datagram.payload_len_source())),
        Err(error) => Err(error),
    }
}

fn has_payload(rt: impl Abort + Copy, bytes: &[u8], wanted: &[u8], bound: LenSource) {
    equal(rt, payload(bytes), Ok((wanted, bound)));
}

#[test]
fn lengths_of_datagrams(rt: HostRuntime) {
    has_payload(rt, &datagram_of(0), &[7, 8], LenSource::Slice);
    has_payload(rt, &datagram_of(8), &[], LenSource::UdpHeaderLen);
    has_payload(rt, &datagram_of(10), &[7, 8], LenSource::UdpHeaderLen);
    has_payload(rt, &BYTES, &BYTES[8..16], LenSource::UdpHeaderLen);
}

#[test]
fn lengths_of_no_datagrams(rt: HostRuntime) {
    let beyond = missing(11, 10, LenSource::Slice, Layer::UdpPayload);
    let short = missing(8, 7, LenSource::Slice, Layer::UdpHeader);
    equal(rt, payload(&datagram_of(11)), Err(beyond));
    equal(rt, payload(&[0; 7]), Err(short));
}

#[test]
fn lengths_below_eight(rt: HostRuntime) {
    for length in 1..8u8 {
        let below = missing(8, length.into(), LenSource::UdpHeaderLen, Layer::UdpHeader);
        equal(rt, payload(&datagram_of(length)), Err(below));
    }
}

// The same of a lax read.
fn lax_payload(bytes: &[u8]) -> Result<(&[u8], LenSource), LenError> {
    match UdpSlice::from_slice_lax(bytes) {
        Ok(datagram) => Ok((datagram.payload(), datagram.payload_len_source())),
        Err(error) => Err(error),
    }
}

fn has_lax_payload(rt: impl Abort + Copy, bytes: &[u8], wanted: &[u8], bound: LenSource) {
    equal(rt, lax_payload(bytes), Ok((wanted, bound)));
}

#[test]
fn lax_lengths_of_datagrams(rt: HostRuntime) {
    has_lax_payload(rt, &datagram_of(0), &[7, 8], LenSource::Slice);
    has_lax_payload(rt, &datagram_of(7), &[7, 8], LenSource::Slice);
    has_lax_payload(rt, &datagram_of(8), &[], LenSource::UdpHeaderLen);
    has_lax_payload(rt, &datagram_of(9), &[7], LenSource::UdpHeaderLen);
    has_lax_payload(rt, &datagram_of(10), &[7, 8], LenSource::UdpHeaderLen);
    has_lax_payload(rt, &datagram_of(11), &[7, 8], LenSource::Slice);
    has_lax_payload(rt, &BYTES, &BYTES[8..16], LenSource::UdpHeaderLen);
    has_lax_payload(rt, &BYTES[..15], &BYTES[8..15], LenSource::Slice);
}

#[test]
fn a_header_that_is_cut_off(rt: HostRuntime) {
    let short = missing(8, 7, LenSource::Slice, Layer::UdpHeader);
    equal(rt, lax_payload(&[0; 7]), Err(short));
    equal(rt, lax_payload(&BYTES[..7]), Err(short));
}

#[test]
fn getters_of_a_datagram_that_is_cut_off(rt: HostRuntime) {
    match UdpSlice::from_slice_lax(&BYTES[..10]) {
        Ok(datagram) => {
            equal(rt, numbers_of_datagram(&datagram), [1, 2, 16, 0xdbb4]);
            equal(rt, datagram.to_header(), fields());
            equal(rt, datagram.slice(), &BYTES[..10]);
            equal(rt, datagram.header_slice(), &BYTES[..8]);
        }
        Err(_) => fail(rt, "no header"),
    }
}

#[test]
fn headers_of_payload_lengths(rt: HostRuntime) {
    let header = UdpHeader {
        length: 65535,
        checksum: 0,
        ..fields()
    };
    let refused = ValueTooBigError {
        actual: 65528,
        max_allowed: 65527,
        value_type: ValueType::UdpPayloadLengthIpv4,
    };
    equal(
        rt,
        UdpHeader::without_ipv4_checksum(1, 2, 65527),
        Ok(header),
    );
    equal(
        rt,
        UdpHeader::without_ipv4_checksum(1, 2, 65528),
        Err(refused),
    );
}

// Each view prints its own name, though both are one type.
#[test]
fn views_as_text(rt: HostRuntime) {
    let bytes = [0, 1, 0, 2, 0, 9, 0, 0, 7];
    let header = "Ok(UdpHeaderSlice { slice: [0, 1, 0, 2, 0, 9, 0, 0] })";
    shows(rt, &UdpHeaderSlice::from_slice(&bytes), header);
    let datagram = "Ok(UdpSlice { slice: [0, 1, 0, 2, 0, 9, 0, 0, 7] })";
    shows(rt, &UdpSlice::from_slice(&bytes), datagram);
}

#[test]
fn laws_are_called(rt: HostRuntime) {
    laws::udp::headers_are_their_bytes(&fields());
    laws::udp::lax_reads_find_what_is_there();
    let again = laws::udp::header_is_read_again(&fields(), &BYTES);
    equal(rt, again, Ok((fields(), &BYTES[8..])));
}
