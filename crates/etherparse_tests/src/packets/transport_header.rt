//! Headers of transport messages.

use crate::checks::{equal, equal_bytes};
use ep_base::err::{ValueTooBigError, ValueType};
use ep_base::{IpNumber, Ipv6FlowLabel};
use ep_icmp::{IcmpEchoHeader, Icmpv4Header, Icmpv4Type, Icmpv6Header, Icmpv6Type};
use ep_ip::{Ipv4Header, Ipv6Header};
use ep_packet::TransportHeader;
use ep_packet::err::packet::TransportChecksumError;
use ep_tcpudp::{TcpHeader, UdpHeader};
use std::process::Abort;
use std::test::*;

const PAYLOAD: [u8; 8] = [1, 2, 3, 4, 5, 6, 7, 8];

fn ipv4_header() -> Ipv4Header {
    Ipv4Header {
        total_len: 36,
        time_to_live: 64,
        protocol: IpNumber::UDP,
        source: [10, 0, 0, 1],
        destination: [10, 0, 0, 2],
        ..Ipv4Header::default()
    }
}

fn ipv6_header() -> Ipv6Header {
    Ipv6Header {
        traffic_class: 0,
        flow_label: Ipv6FlowLabel::ZERO,
        payload_length: 16,
        next_header: IpNumber::UDP,
        hop_limit: 64,
        source: [0xfd, 0, 0, 0, 0, 0, 0, 0, 0, 0, 0, 0, 0, 0, 0, 1],
        destination: [0xfd, 0, 0, 0, 0, 0, 0, 0, 0, 0, 0, 0, 0, 0, 0, 2],
    }
}

fn udp() -> TransportHeader {
    TransportHeader::Udp(UdpHeader {
        source_port: 1,
        destination_port: 2,
        length: 16,
        checksum: 0,
    })
}

fn tcp() -> TransportHeader {
    let mut header = TcpHeader::new(1, 2, 3, 1024);
    header.syn = true;
    TransportHeader::Tcp(header)
}

fn echo() -> IcmpEchoHeader {
    IcmpEchoHeader { id: 1, seq: 2 }
}

fn icmpv4() -> TransportHeader {
    TransportHeader::Icmpv4(Icmpv4Header::new(Icmpv4Type::EchoRequest(echo())))
}

fn icmpv6() -> TransportHeader {
    TransportHeader::Icmpv6(Icmpv6Header::new(Icmpv6Type::EchoRequest(echo())))
}

// The functions below return the checksum of a header that is of their protocol.

fn as_udp(header: Option<TransportHeader>) -> Option<u16> {
    Some(header?.udp()?.checksum)
}

fn as_tcp(header: Option<TransportHeader>) -> Option<u16> {
    Some(header?.tcp()?.checksum)
}

fn as_icmpv4(header: Option<TransportHeader>) -> Option<u16> {
    Some(header?.icmpv4()?.checksum)
}

fn as_icmpv6(header: Option<TransportHeader>) -> Option<u16> {
    Some(header?.icmpv6()?.checksum)
}

// The header with its checksum.
fn over_ipv4(mut header: TransportHeader, payload: &[u8]) -> Option<TransportHeader> {
    match header.update_checksum_ipv4(&ipv4_header(), payload) {
        Ok(()) => Some(header),
        Err(_) => None,
    }
}

fn over_ipv6(mut header: TransportHeader, payload: &[u8]) -> Option<TransportHeader> {
    match header.update_checksum_ipv6(&ipv6_header(), payload) {
        Ok(()) => Some(header),
        Err(_) => None,
    }
}

// Messages that other tools give between 10.0.0.1 and 10.0.0.2.
#[test]
fn checksums_over_ipv4(rt: HostRuntime) {
    equal(rt, as_udp(over_ipv4(udp(), &PAYLOAD)), Some(0xdbb4));
    equal(rt, as_tcp(over_ipv4(tcp(), &[])), Some(0x97da));
    equal(rt, as_icmpv4(over_ipv4(icmpv4(), &PAYLOAD)), Some(0xe7e8));
}

// The same between fd00::1 and fd00::2; an ICMPv4 message covers no addresses.
#[test]
fn checksums_over_ipv6(rt: HostRuntime) {
    equal(rt, as_udp(over_ipv6(udp(), &PAYLOAD)), Some(0xf5b2));
    equal(rt, as_tcp(over_ipv6(tcp(), &[])), Some(0xb1d8));
    equal(rt, as_icmpv4(over_ipv6(icmpv4(), &PAYLOAD)), Some(0xe7e8));
    equal(rt, as_icmpv6(over_ipv6(icmpv6(), &PAYLOAD)), Some(0x7599));
}

fn too_long(value_type: ValueType, max_allowed: usize) -> TransportChecksumError {
    TransportChecksumError::PayloadLen(ValueTooBigError {
        actual: 65528,
        max_allowed,
        value_type,
    })
}

// What `update_checksum_ipv4` answers. The header stays as it was.
fn is_refused(
    rt: impl Abort + Copy,
    mut header: TransportHeader,
    before: &TransportHeader,
    payload: &[u8],
    error: TransportChecksumError,
) {
    equal(
        rt,
        header.update_checksum_ipv4(&ipv4_header(), payload),
        Err(error),
    );
    equal(rt, &header, before);
}

#[test]
fn refused_checksums(rt: HostRuntime) {
    let payload = [0; 65528];
    let error = too_long(ValueType::UdpPayloadLengthIpv4, 65527);
    is_refused(rt, udp(), &udp(), &payload, error);
    let error = too_long(ValueType::TcpPayloadLengthIpv4, 65515);
    is_refused(rt, tcp(), &tcp(), &payload, error);
    is_refused(
        rt,
        icmpv6(),
        &icmpv6(),
        &PAYLOAD,
        TransportChecksumError::Icmpv6InIpv4,
    );
}

// Each header is of one protocol alone.
#[test]
fn header_of_its_protocol(rt: HostRuntime) {
    equal(rt, as_udp(Some(udp())), Some(0));
    equal(rt, as_tcp(Some(tcp())), Some(0));
    equal(rt, as_icmpv4(Some(icmpv4())), Some(0));
    equal(rt, as_icmpv6(Some(icmpv6())), Some(0));
}

#[test]
fn header_of_no_other_protocol(rt: HostRuntime) {
    equal(rt, as_tcp(Some(udp())), None);
    equal(rt, as_icmpv4(Some(tcp())), None);
    equal(rt, as_icmpv6(Some(icmpv4())), None);
    equal(rt, as_udp(Some(icmpv6())), None);
}

// The functions below set the checksum of a header that is of their protocol.

fn set_udp(header: &mut TransportHeader) -> bool {
    match header.mut_udp() {
        Some(udp) => {
            udp.checksum = 0xdbb4;
            true
        }
        None => false,
    }
}

fn set_tcp(header: &mut TransportHeader) -> bool {
    match header.mut_tcp() {
        Some(tcp) => {
            tcp.checksum = 0x97da;
            true
        }
        None => false,
    }
}

fn set_icmpv4(header: &mut TransportHeader) -> bool {
    match header.mut_icmpv4() {
        Some(icmpv4) => {
            icmpv4.checksum = 1;
            true
        }
        None => false,
    }
}

fn set_icmpv6(header: &mut TransportHeader) -> bool {
    match header.mut_icmpv6() {
        Some(icmpv6) => {
            icmpv6.checksum = 2;
            true
        }
        None => false,
    }
}

fn checksum(header: &TransportHeader) -> u16 {
    match header {
        TransportHeader::Udp(udp) => udp.checksum,
        TransportHeader::Tcp(tcp) => tcp.checksum,
        TransportHeader::Icmpv4(icmpv4) => icmpv4.checksum,
        TransportHeader::Icmpv6(icmpv6) => icmpv6.checksum,
    }
}

// Which of them set it, and the checksum then.
fn set(mut header: TransportHeader) -> ([bool; 4], u16) {
    let done = [
        set_udp(&mut header),
        set_tcp(&mut header),
        set_icmpv4(&mut header),
        set_icmpv6(&mut header),
    ];
    (done, checksum(&header))
}

#[test]
fn headers_are_written_to(rt: HostRuntime) {
    equal(rt, set(udp()), ([true, false, false, false], 0xdbb4));
    equal(rt, set(tcp()), ([false, true, false, false], 0x97da));
    equal(rt, set(icmpv4()), ([false, false, true, false], 1));
    equal(rt, set(icmpv6()), ([false, false, false, true], 2));
}

// Whether the header is written, its length, and how many bytes there are then.
fn appended(header: TransportHeader, bytes: &mut Vec<u8>) -> (bool, usize, usize) {
    let written = header.write(bytes).is_ok();
    (written, header.header_len(), bytes.len())
}

// The bytes of each header after those of the headers before it.
#[test]
fn headers_are_appended(rt: HostRuntime) {
    let mut bytes = Vec::new(rt.alloc());
    equal(rt, appended(udp(), &mut bytes), (true, 8, 8));
    equal(rt, appended(tcp(), &mut bytes), (true, 20, 28));
    equal(rt, appended(icmpv4(), &mut bytes), (true, 8, 36));
    equal(rt, appended(icmpv6(), &mut bytes), (true, 8, 44));
    let expected = [
        0, 1, 0, 2, 0, 16, 0, 0, 0, 1, 0, 2, 0, 0, 0, 3, 0, 0, 0, 0, 0x50, 2, 4, 0, 0, 0, 0, 0, 8,
        0, 0, 0, 0, 1, 0, 2, 128, 0, 0, 0, 0, 1, 0, 2,
    ];
    equal_bytes(rt, bytes.as_slice(), expected.as_slice());
}
