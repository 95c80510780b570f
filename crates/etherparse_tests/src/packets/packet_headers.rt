//! Headers of frames. The bytes were worked out by hand after IEEE 802.1Q and 802.1AE and RFC 768,
//! 791, 792, 826, 8200 and 9293; addresses are zero.
use crate::checks::{equal, fail};
use ep_base::err::{Layer, LenError};
use ep_base::{EtherType, IpNumber, LenSource};
use ep_ipslice::err::ip;
use ep_packet::err::packet::SliceError;
use ep_packet::{NetHeaders, PacketHeaders, PayloadSlice, SlicedPacket, TransportHeader};
use ep_tag::{EtherPayloadSlice, VlanHeader};
use std::process::Abort;
use std::test::*;

// The functions below have no contracts, as tests alone call them.

// Two VLAN tags before an IPv4 packet of 36 bytes: UDP of 16 bytes, of which eight are payload, and
// two of padding.
const UDP: [u8; 60] = [
    0, 0, 0, 0, 0, 0, 0, 0, 0, 0, 0, 0, 0x88, 0xa8, 0, 5, 0x81, 0, 0, 9, 8, 0, 0x45, 0, 0, 36, 0,
    7, 0, 0, 64, 17, 0, 0, 0, 0, 0, 0, 0, 0, 0, 0, 0, 1, 0, 2, 0, 16, 0, 0, 1, 2, 3, 4, 5, 6, 7, 8,
    9, 9,
];

type Read<'a> = Result<PacketHeaders<'a>, SliceError>;

fn is_ipv4(net: &Option<NetHeaders>) -> bool {
    match net {
        Some(net) => net.is_ipv4(),
        None => false,
    }
}

// Headers of the link, of so many tags, and of IPv4 and UDP, and the payload of the frame above.
fn are_headers_of_udp(rt: impl Abort + Copy, headers: &Read<'_>, link: bool, tags: usize) {
    match headers {
        Ok(headers) => {
            equal(
                rt,
                (headers.link.is_some(), headers.link_exts.len()),
                (link, tags),
            );
            let udp = matches!(headers.transport, Some(TransportHeader::Udp(_)));
            equal(rt, [is_ipv4(&headers.net), udp], [true; 2]);
            equal(
                rt,
                &headers.payload,
                &PayloadSlice::Udp(&[1, 2, 3, 4, 5, 6, 7, 8]),
            );
        }
        Err(_) => fail(rt, "no headers"),
    }
}

#[test]
fn headers_of_a_udp_frame(rt: HostRuntime) {
    are_headers_of_udp(rt, &PacketHeaders::from_ethernet_slice(&UDP), true, 2);
}

// The packet alone, without a link header and tags.
#[test]
fn headers_of_a_packet(rt: HostRuntime) {
    are_headers_of_udp(rt, &PacketHeaders::from_ip_slice(&UDP[22..]), false, 0);
}

// What the first ether type of the frame names.
#[test]
fn headers_after_an_ether_type(rt: HostRuntime) {
    let headers = PacketHeaders::from_ether_type(EtherType(0x88a8), &UDP[14..]);
    are_headers_of_udp(rt, &headers, false, 2);
}

// No tags, one tag without a number here, or the identifiers of two.
fn outer_and_inner(tags: &Option<VlanHeader>) -> Option<(u16, u16)> {
    match tags {
        Some(VlanHeader::Double(tags)) => {
            Some((tags.outer.vlan_id.value(), tags.inner.vlan_id.value()))
        }
        Some(VlanHeader::Single(_)) => Some((0, 0)),
        None => None,
    }
}

// The number of VLAN tags, the first identifier, and the tags as one header.
type Tags = (usize, Option<u16>, Option<(u16, u16)>);

fn tags(headers: &PacketHeaders<'_>) -> Tags {
    let ids = headers.vlan_ids();
    let first = match ids.first() {
        Some(id) => Some(id.value()),
        None => None,
    };
    (ids.len(), first, outer_and_inner(&headers.vlan()))
}

fn are_tags(rt: impl Abort + Copy, headers: &Read<'_>, wanted: Tags) {
    match headers {
        Ok(headers) => equal(rt, tags(headers), wanted),
        Err(_) => fail(rt, "no headers"),
    }
}

#[test]
fn tags_of_a_frame(rt: HostRuntime) {
    let two = (2, Some(5), Some((5, 9)));
    are_tags(rt, &PacketHeaders::from_ethernet_slice(&UDP), two);
    are_tags(
        rt,
        &PacketHeaders::from_ip_slice(&UDP[22..]),
        (0, None, None),
    );
    equal(rt, PacketHeaders::LINK_EXTS_CAP, 3);
}

fn is_read(frame: &[u8]) -> bool {
    PacketHeaders::from_ethernet_slice(frame).is_ok()
}

fn is_sliced(frame: &[u8]) -> bool {
    SlicedPacket::from_ethernet(frame).is_ok()
}

// A UDP length above the bytes that are there is no fault of the headers.
#[test]
fn udp_length_is_not_looked_at(rt: HostRuntime) {
    let mut frame = UDP;
    frame[47] = 17;
    equal(rt, [is_read(&frame), is_sliced(&frame)], [true, false]);
}

fn len_error(layer: Layer, required_len: usize, len: usize, position: usize) -> LenError {
    LenError {
        required_len,
        len,
        len_source: LenSource::Slice,
        layer,
        layer_start_offset: position,
    }
}

// A MACsec header whose short length leaves two bytes after the ether type of a VLAN tag.
#[test]
fn vlan_tag_beyond_a_short_length(rt: HostRuntime) {
    let frame = [
        0, 0, 0, 0, 0, 0, 0, 0, 0, 0, 0, 0, 0x88, 0xe5, 0, 4, 0, 0, 0, 1, 0x81, 0, 0, 5, 0xff,
    ];
    let missing = SliceError::Len(len_error(Layer::VlanHeader, 4, 2, 22));
    equal(
        rt,
        PacketHeaders::from_ethernet_slice(&frame).err(),
        Some(missing),
    );
}

// A timestamp message of ICMPv4 that has eight bytes in place of 20.
#[test]
fn memory_error_of_a_datagram(rt: HostRuntime) {
    let mut frame = [
        0, 0, 0, 0, 0, 0, 0, 0, 0, 0, 0, 0, 8, 0, 0x45, 0, 0, 28, 0, 7, 0, 0, 64, 1, 0, 0, 0, 0, 0,
        0, 0, 0, 0, 0, 13, 0, 0, 0, 0, 0, 0, 0,
    ];
    let mut missing = len_error(Layer::Icmpv4Timestamp, 20, 8, 34);
    missing.len_source = LenSource::Ipv4HeaderTotalLen;
    equal(
        rt,
        PacketHeaders::from_ethernet_slice(&frame).err(),
        Some(SliceError::Len(missing)),
    );
    missing.layer_start_offset = 20;
    equal(
        rt,
        PacketHeaders::from_ip_slice(&frame[14..]).err(),
        Some(SliceError::Len(missing)),
    );
}

#[test]
fn faults_of_ip(rt: HostRuntime) {
    let other = ip::HeaderError::UnsupportedIpVersion { version_number: 5 };
    equal(
        rt,
        PacketHeaders::from_ip_slice(&[0x50]).err(),
        Some(SliceError::Ip(other)),
    );
    let missing = SliceError::Len(len_error(Layer::Ipv6Header, 40, 1, 0));
    equal(
        rt,
        PacketHeaders::from_ether_type(EtherType::IPV6, &[0x60]).err(),
        Some(missing),
    );
}

// The payload after an ether type.
fn is_payload(rt: impl Abort + Copy, ether_type: u16, bytes: &[u8], wanted: PayloadSlice<'_>) {
    match PacketHeaders::from_ether_type(EtherType(ether_type), bytes) {
        Ok(headers) => equal(rt, headers.payload, wanted),
        Err(_) => fail(rt, "no headers"),
    }
}

fn named(len_source: LenSource, payload: &[u8]) -> PayloadSlice<'_> {
    PayloadSlice::Ether(EtherPayloadSlice {
        ether_type: EtherType(0x1234),
        len_source,
        payload,
    })
}

// None, encrypted bytes, those that the ether type names, and none within the short length, which
// bounds what a tag before it names.
#[test]
fn payloads_without_a_message(rt: HostRuntime) {
    is_payload(rt, 0x0806, &[0, 1, 8, 0, 0, 0, 0, 1], PayloadSlice::Empty);
    is_payload(
        rt,
        0x88e5,
        &[12, 0, 0, 0, 0, 1, 7],
        PayloadSlice::MacsecMod(&[7]),
    );
    is_payload(rt, 0x1234, &[7], named(LenSource::Slice, &[7]));
    let bytes = [0, 6, 0, 0, 0, 1, 0x81, 0, 0, 5, 0x12, 0x34, 7];
    is_payload(rt, 0x88e5, &bytes, named(LenSource::MacsecShortLength, &[]));
}

// An IPv6 packet whose payload length is 16: a fragment header that names this number, with these
// two bytes of offset and flag, and eight bytes more.
fn number_after(next: u8, more: u8) -> Option<IpNumber> {
    let mut packet = [0; 56];
    packet[0] = 0x60;
    packet[5] = 16;
    packet[6] = 44;
    packet[7] = 64;
    packet[40] = next;
    packet[43] = more;
    match PacketHeaders::from_ip_slice(&packet) {
        Ok(
            PacketHeaders {
                payload: PayloadSlice::Ip(payload),
                ..
            },
        ) => Some(payload.ip_number),
        _ => None,
    }
}

// A fragment, another protocol, a second fragment header, and a whole message.
#[test]
fn payloads_of_ip(rt: HostRuntime) {
    equal(rt, number_after(17, 1), Some(IpNumber(17)));
    equal(rt, number_after(253, 0), Some(IpNumber(253)));
    equal(rt, number_after(44, 0), Some(IpNumber(44)));
    equal(rt, number_after(17, 0), None);
}

#[test]
fn payloads_in_order(rt: HostRuntime) {
    let ordered = [
        PayloadSlice::Udp(&[9]) < PayloadSlice::Tcp(&[]),
        PayloadSlice::Udp(&[1]) < PayloadSlice::Udp(&[1, 0]),
    ];
    equal(rt, ordered, [true, true]);
    let lengths = [
        PayloadSlice::Icmpv4(&[3]).slice().len(),
        PayloadSlice::Empty.slice().len(),
    ];
    equal(rt, lengths, [1, 0]);
}
