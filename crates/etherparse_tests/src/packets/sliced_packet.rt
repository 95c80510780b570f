//! The layers of packets. The bytes were worked out by hand after IEEE 802.3, 802.1Q and 802.1AE,
//! libpcap's page on LINKTYPE_LINUX_SLL, and RFC 768, 791, 8200 and 9293.
use crate::checks::{equal, fail};
use ep_base::{EtherType, LenSource};
use ep_link::LinkSlice;
use ep_link::err::linux_sll;
use ep_packet::err::packet::SliceError;
use ep_packet::{
    Addresses, Class, IpFragment, Message, NetSlice, SlicedPacket, TransportSlice, WholeMessage,
};
use ep_tag::VlanSlice;
use std::process::Abort;
use std::test::*;

// The functions below have no contracts, as tests alone call them.

// An IPv4 packet with a UDP message of eight bytes of payload, from 10.0.0.1 to 10.0.0.2.
const IPV4: [u8; 36] = [
    0x45, 0, 0, 0x24, 0, 7, 0, 0, 0x40, 0x11, 0x66, 0xc0, 10, 0, 0, 1, 10, 0, 0, 2, 0, 1, 0, 2, 0,
    0x10, 0xdb, 0xb4, 1, 2, 3, 4, 5, 6, 7, 8,
];

// That packet in a Linux cooked capture.
const COOKED: [u8; 52] = [
    0, 0, 0, 1, 0, 6, 1, 2, 3, 4, 5, 6, 0, 0, 8, 0, 0x45, 0, 0, 0x24, 0, 7, 0, 0, 0x40, 0x11, 0x66,
    0xc0, 10, 0, 0, 1, 10, 0, 0, 2, 0, 1, 0, 2, 0, 0x10, 0xdb, 0xb4, 1, 2, 3, 4, 5, 6, 7, 8,
];

// It after a VLAN tag with identifier 5, a MACsec header with a short length of 42 that follows
// that tag, and a tag with identifier 9, whose ether type names it.
const TAGGED: [u8; 66] = [
    0, 0, 0, 0, 0, 0, 0, 0, 0, 0, 0, 0, 0x88, 0xa8, 0, 5, 0x88, 0xe5, 0, 42, 0, 0, 0, 1, 0x81, 0,
    0, 9, 8, 0, 0x45, 0, 0, 0x24, 0, 7, 0, 0, 0x40, 0x11, 0x66, 0xc0, 10, 0, 0, 1, 10, 0, 0, 2, 0,
    1, 0, 2, 0, 0x10, 0xdb, 0xb4, 1, 2, 3, 4, 5, 6, 7, 8,
];

// Whether there are a header of a cooked capture, a packet of IPv4, a message of UDP and a payload
// after an ether type in it, or why it is refused.
fn kinds(packet: Result<SlicedPacket<'_>, SliceError>) -> Result<[bool; 4], SliceError> {
    match packet {
        Ok(packet) => Ok([
            matches!(packet.link, Some(LinkSlice::LinuxSll(_))),
            matches!(packet.net, Some(NetSlice::Ipv4(_))),
            matches!(packet.transport, Some(TransportSlice::Udp(_))),
            packet.ether_payload().is_some(),
        ]),
        Err(error) => Err(error),
    }
}

fn kinds_in_cooked_capture(bytes: &[u8]) -> Result<[bool; 4], SliceError> {
    kinds(SlicedPacket::from_linux_sll(bytes))
}

#[test]
fn cooked_capture_of_udp(rt: HostRuntime) {
    equal(rt, kinds_in_cooked_capture(&COOKED), Ok([true; 4]));
    let mut bytes = COOKED;
    bytes[1] = 5;
    let error = linux_sll::HeaderError::UnsupportedPacketTypeField { packet_type: 5 };
    equal(
        rt,
        kinds_in_cooked_capture(&bytes),
        Err(SliceError::LinuxSll(error)),
    );
}

#[test]
fn ip_packet_without_a_link_header(rt: HostRuntime) {
    let wanted = Ok([false, true, true, false]);
    equal(rt, kinds(SlicedPacket::from_ip(&IPV4)), wanted);
}

// Source and destination of a datagram, the identification of a fragment, and whether the bytes are
// refused.
type Reported = (Option<[[u8; 4]; 2]>, Option<u32>, bool);

fn described(class: &Class<'_>) -> Reported {
    match class {
        Class::Whole(
            WholeMessage {
                addresses: Addresses::V4 {
                    source,
                    destination,
                },
                message: Message::Udp(_),
                ..
            },
        ) => (Some([*source, *destination]), None, false),
        Class::Cut(IpFragment { identification, .. }) => (None, Some(*identification), false),
        Class::Refused => (None, None, true),
        _ => (None, None, false),
    }
}

const ENDS: Option<[[u8; 4]; 2]> = Some([[10, 0, 0, 1], [10, 0, 0, 2]]);

#[test]
fn class_of_a_packet(rt: HostRuntime) {
    match SlicedPacket::from_ip(&IPV4) {
        Ok(packet) => equal(rt, described(&packet.class()), (ENDS, None, false)),
        Err(_) => fail(rt, "no packet"),
    }
}

#[test]
fn classes_of_a_frame(rt: HostRuntime) {
    equal(
        rt,
        described(&Class::from_ethernet(&TAGGED)),
        (ENDS, None, false),
    );
    // More fragments follow.
    let mut fragment = TAGGED;
    fragment[36] = 0x20;
    equal(
        rt,
        described(&Class::from_ethernet(&fragment)),
        (None, Some(7), false),
    );
    equal(
        rt,
        described(&Class::from_ethernet(&TAGGED[..13])),
        (None, None, true),
    );
}

// The number of VLAN tags, the first identifier, and whether they are read as a double tag.
fn tags(packet: &SlicedPacket<'_>) -> (usize, Option<u16>, bool) {
    let ids = packet.vlan_ids();
    let first = match ids.first() {
        Some(id) => Some(id.value()),
        None => None,
    };
    (
        ids.len(),
        first,
        matches!(packet.vlan(), Some(VlanSlice::DoubleVlan(_))),
    )
}

// The ether type and the bound of the payload after the tags.
fn ether_payload(packet: &SlicedPacket<'_>) -> Option<(EtherType, LenSource)> {
    match packet.ether_payload() {
        Some(payload) => Some((payload.ether_type, payload.len_source)),
        None => None,
    }
}

// The length of the IP payload.
fn ip_payload(packet: &SlicedPacket<'_>) -> Option<usize> {
    match packet.ip_payload() {
        Some(payload) => Some(payload.payload.len()),
        None => None,
    }
}

// Each of these; the frame names no ether type that is not looked into, and is no fragment.
fn has_tags_and_payloads(rt: impl Abort + Copy, packet: &SlicedPacket<'_>) {
    equal(rt, tags(packet), (2, Some(5), true));
    let payload = Some((EtherType::IPV4, LenSource::MacsecShortLength));
    equal(rt, ether_payload(packet), payload);
    equal(rt, packet.payload_ether_type(), None);
    equal(rt, ip_payload(packet), Some(16));
    equal(rt, packet.is_ip_payload_fragmented(), false);
}

#[test]
fn tags_and_payloads_of_a_frame(rt: HostRuntime) {
    match SlicedPacket::from_ethernet(&TAGGED) {
        Ok(packet) => has_tags_and_payloads(rt, &packet),
        Err(_) => fail(rt, "no packet"),
    }
    equal(rt, SlicedPacket::LINK_EXTS_CAP, 3);
}

// How many tags are read after a VLAN ether type, and the ether type that is not looked into.
fn after_tags(bytes: &[u8]) -> Option<(usize, Option<EtherType>)> {
    match SlicedPacket::from_ether_type(EtherType::VLAN_TAGGED_FRAME, bytes) {
        Ok(packet) => Some((packet.link_exts.len(), packet.payload_ether_type())),
        Err(_) => None,
    }
}

// A fourth tag is payload, be it whole or not; after an encrypted MACsec payload and after one that
// was changed nothing is named; after an authenticated one the ether type is.
#[test]
fn ends_of_the_tags(rt: HostRuntime) {
    let bytes = [0, 1, 0x88, 0xa8, 0, 2, 0x91, 0, 0, 3, 0x81, 0, 0];
    let vlan = Some(EtherType::VLAN_TAGGED_FRAME);
    equal(rt, after_tags(&bytes), Some((3, vlan)));
    let bytes = [0, 1, 0x88, 0xe5, 12, 0, 0, 0, 0, 1, 8, 0, 0x45];
    equal(rt, after_tags(&bytes), Some((2, None)));
    let bytes = [0, 1, 0x88, 0xe5, 4, 0, 0, 0, 0, 1, 8, 0, 0x45];
    equal(rt, after_tags(&bytes), Some((2, None)));
    let bytes = [0, 1, 0x88, 0xe5, 0, 0, 0, 0, 0, 1, 0x12, 0x34, 0x45];
    equal(rt, after_tags(&bytes), Some((2, Some(EtherType(0x1234)))));
}
