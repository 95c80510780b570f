//! Headers of Linux cooked captures.
use crate::checks::{equal, equal_bytes, fail, reads, shows};
use ep_base::err::{Layer, LenError};
use ep_base::{EtherType, LenSource};
use ep_link::err::linux_sll::{HeaderError, HeaderSliceError};
use ep_link::laws::linux_sll::*;
use ep_link::{
    ArpHardwareId, LinkSlice, LinuxSllHeader, LinuxSllHeaderSlice, LinuxSllPacketType,
    LinuxSllPayloadSlice, LinuxSllProtocolType, LinuxSllSlice,
};
use ep_tag::EtherPayloadSlice;
use std::process::Abort;

// To this machine over Ethernet, an address of 6 bytes, IPv4; and what follows it.
const BYTES: [u8; 18] = [0, 0, 0, 1, 0, 6, 1, 2, 3, 4, 5, 6, 0, 0, 8, 0, 21, 22];

// 2048 is 0800.
const FIELDS: &str = "LinuxSllHeader { packet_type: LinuxSllPacketType(0), \
    arp_hrd_type: ArpHardwareId(1), sender_address_valid_length: 6, \
    sender_address: [1, 2, 3, 4, 5, 6, 0, 0], protocol_type: EtherType(EtherType(2048)) }";

// The fields but the protocol, and the protocol.
const NUMBERS: &str = "(LinuxSllPacketType(0), ArpHardwareId(1), 6, [1, 2, 3, 4, 5, 6, 0, 0])";

const PROTOCOL: &str = "EtherType(EtherType(2048))";

type Numbers = (LinuxSllPacketType, ArpHardwareId, u16, [u8; 8]);

#[test]
fn a_header_both_ways(rt: HostRuntime) {
    let Ok((header, rest)) = LinuxSllHeader::from_slice(&BYTES) else {
        fail(rt, "no header");
    };
    shows(rt, &header, FIELDS);
    equal(rt, rest, [21, 22].as_slice());
    equal_bytes(rt, header.to_bytes().as_slice(), &BYTES[..16]);
    equal(rt, header.header_len(), 16);
}

fn numbers_of_view(slice: &LinuxSllHeaderSlice<'_>) -> Numbers {
    (
        slice.packet_type(),
        slice.arp_hrd_type(),
        slice.sender_address_valid_length(),
        slice.sender_address(),
    )
}

#[test]
fn fields_of_a_view(rt: HostRuntime) {
    let Ok(slice) = LinuxSllHeaderSlice::from_slice(&BYTES) else {
        fail(rt, "no header");
    };
    equal(rt, slice.slice(), &BYTES[..16]);
    shows(rt, &numbers_of_view(&slice), NUMBERS);
    shows(rt, &slice.protocol_type(), PROTOCOL);
    shows(rt, &slice.to_header(), FIELDS);
}

fn numbers(slice: &LinuxSllSlice<'_>) -> Numbers {
    (
        slice.packet_type(),
        slice.arp_hrd_type(),
        slice.sender_address_valid_length(),
        slice.sender_address(),
    )
}

#[test]
fn fields_of_a_packet(rt: HostRuntime) {
    let Ok(slice) = LinuxSllSlice::from_slice(&BYTES) else {
        fail(rt, "no packet");
    };
    shows(rt, &numbers(&slice), NUMBERS);
    shows(rt, &slice.protocol_type(), PROTOCOL);
    shows(rt, &slice.to_header(), FIELDS);
}

// All bytes and those after the header, and the header's length.
fn parts<'a>(slice: &LinuxSllSlice<'a>) -> ([&'a [u8]; 2], usize) {
    ([slice.slice(), slice.payload_slice()], slice.header_len())
}

#[test]
fn parts_of_a_packet(rt: HostRuntime) {
    let Ok(slice) = LinuxSllSlice::from_slice(&BYTES) else {
        fail(rt, "no packet");
    };
    equal(rt, parts(&slice), ([&BYTES, &[21, 22]], 16));
    let payload =
        "LinuxSllPayloadSlice { protocol_type: EtherType(EtherType(2048)), payload: [21, 22] }";
    shows(rt, &slice.payload(), payload);
}

// A payload as one that an ether type names, as a text, and that one back.
fn is_named(rt: impl Abort + AllocGlobal + Copy, payload: LinuxSllPayloadSlice<'_>) {
    let Ok(ether_payload) = EtherPayloadSlice::try_from(payload) else {
        fail(rt, "no ether type");
    };
    let named =
        "EtherPayloadSlice { ether_type: EtherType(2048), len_source: Slice, payload: [21, 22] }";
    shows(rt, &ether_payload, named);
    let again =
        "LinuxSllPayloadSlice { protocol_type: EtherType(EtherType(2048)), payload: [21, 22] }";
    shows(rt, &LinuxSllPayloadSlice::from(ether_payload), again);
}

#[test]
fn an_ether_payload_and_back(rt: HostRuntime) {
    match LinuxSllSlice::from_slice(&BYTES) {
        Ok(slice) => is_named(rt, slice.payload()),
        Err(_) => fail(rt, "no packet"),
    }
}

// From a netlink socket (hardware type 824), of family 16.
const NETLINK: [u8; 18] = [0, 4, 3, 0x38, 0, 0, 0, 0, 0, 0, 0, 0, 0, 0, 0, 16, 21, 22];

#[test]
fn payload_of_a_netlink_packet(rt: HostRuntime) {
    let Ok(slice) = LinuxSllSlice::from_slice(&NETLINK) else {
        fail(rt, "no packet");
    };
    let payload =
        "LinuxSllPayloadSlice { protocol_type: NetlinkProtocolType(16), payload: [21, 22] }";
    shows(rt, &LinkSlice::LinuxSll(slice).sll_payload(), payload);
}

#[test]
fn payloads_without_a_link_header(rt: HostRuntime) {
    let arp = LinkSlice::EtherPayload(EtherPayloadSlice {
        ether_type: EtherType::ARP,
        len_source: LenSource::Slice,
        payload: &[21, 22],
    });
    let payload =
        "LinuxSllPayloadSlice { protocol_type: EtherType(EtherType(2054)), payload: [21, 22] }";
    shows(rt, &arp.sll_payload(), payload);
    let gre = LinkSlice::LinuxSllPayload(LinuxSllPayloadSlice {
        protocol_type: LinuxSllProtocolType::GenericRoutingEncapsulationProtocolType(0x6558),
        payload: &[23],
    });
    let payload = "LinuxSllPayloadSlice { protocol_type: \
        GenericRoutingEncapsulationProtocolType(25944), payload: [23] }";
    shows(rt, &gre.sll_payload(), payload);
}

const WITHOUT_AN_ETHER_TYPE: &[LinuxSllProtocolType] = &[
    LinuxSllProtocolType::Ignored(0x0800),
    LinuxSllProtocolType::NetlinkProtocolType(0x0800),
    LinuxSllProtocolType::GenericRoutingEncapsulationProtocolType(0x0800),
    LinuxSllProtocolType::LinuxNonstandardEtherType(4),
];

#[test]
fn payloads_after_no_ether_type(rt: HostRuntime) {
    for protocol_type in WITHOUT_AN_ETHER_TYPE.iter() {
        let payload = LinuxSllPayloadSlice {
            protocol_type: *protocol_type,
            payload: &BYTES,
        };
        let is_refused = EtherPayloadSlice::try_from(payload).is_err();
        let found = (*protocol_type, is_refused);
        equal(rt, found, (*protocol_type, true));
    }
}

// Why these bytes are no header, no view of one and no packet.
fn header_refusal(bytes: &[u8]) -> Option<HeaderSliceError> {
    match LinuxSllHeader::from_slice(bytes) {
        Ok(_) => None,
        Err(error) => Some(error),
    }
}

fn header_slice_refusal(bytes: &[u8]) -> Option<HeaderSliceError> {
    match LinuxSllHeaderSlice::from_slice(bytes) {
        Ok(_) => None,
        Err(error) => Some(error),
    }
}

fn refusal(bytes: &[u8]) -> Option<HeaderSliceError> {
    match LinuxSllSlice::from_slice(bytes) {
        Ok(_) => None,
        Err(error) => Some(error),
    }
}

fn is_refused(rt: impl Abort + Copy, bytes: &[u8], error: HeaderSliceError) {
    equal(rt, header_refusal(bytes), Some(error));
    equal(rt, header_slice_refusal(bytes), Some(error));
    equal(rt, refusal(bytes), Some(error));
}

fn too_short(len: usize) -> HeaderSliceError {
    HeaderSliceError::Len(LenError {
        required_len: 16,
        len,
        len_source: LenSource::Slice,
        layer: Layer::LinuxSllHeader,
        layer_start_offset: 0,
    })
}

#[test]
fn every_prefix_of_a_header(rt: HostRuntime) {
    for len in 0..16usize {
        is_refused(rt, &BYTES[..len], too_short(len));
    }
    equal(rt, refusal(&BYTES[..16]), None);
}

#[test]
fn a_packet_type_that_is_refused(rt: HostRuntime) {
    let mut bytes = BYTES;
    bytes[1] = 5;
    let error = HeaderError::UnsupportedPacketTypeField { packet_type: 5 };
    is_refused(rt, &bytes, HeaderSliceError::from(error));
}

fn packet_type(number: u16) -> Option<u16> {
    match LinuxSllPacketType::try_from(number) {
        Ok(packet_type) => Some(u16::from(packet_type)),
        Err(_) => None,
    }
}

#[test]
fn packet_types(rt: HostRuntime) {
    for number in 0..5u16 {
        equal(rt, packet_type(number), Some(number));
    }
    let unsupported = "Err(UnsupportedPacketTypeField { packet_type: 5 })";
    shows(rt, &LinuxSllPacketType::try_from(5), unsupported);
    shows(rt, &LinuxSllPacketType::default(), "LinuxSllPacketType(0)");
    equal(rt, LinuxSllPacketType::OUTGOING.value(), 4);
}

#[test]
fn errors_further_on(rt: HostRuntime) {
    let unsupported = HeaderError::UnsupportedPacketTypeField { packet_type: 5 };
    let content = HeaderSliceError::from(unsupported);
    equal(rt, content.add_slice_offset(3), content);
    let missing = LenError::too_few_bytes(Layer::LinuxSllHeader, 16, 7).add_offset(4);
    let further = "Len(LenError { required_len: 16, len: 7, len_source: Slice, \
        layer: LinuxSllHeader, layer_start_offset: 7 })";
    shows(
        rt,
        &HeaderSliceError::Len(missing).add_slice_offset(3),
        further,
    );
}

// The hardware type and the number of a protocol, and what they name.
#[rattlefmt::skip]
const PROTOCOLS: &[(u16, u16, LinuxSllProtocolType)] = &[
    (824, 7, LinuxSllProtocolType::NetlinkProtocolType(7)),
    (778, 0x0800, LinuxSllProtocolType::GenericRoutingEncapsulationProtocolType(0x0800)),
    (803, 0x0800, LinuxSllProtocolType::Ignored(0x0800)),
    (770, 7, LinuxSllProtocolType::Ignored(7)),
    (1, 0x0600, LinuxSllProtocolType::EtherType(EtherType(0x0600))),
    (1, 0x05ff, LinuxSllProtocolType::LinuxNonstandardEtherType(0x05ff)),
    (65535, 0x86dd, LinuxSllProtocolType::EtherType(EtherType(0x86dd))),
];

#[test]
fn protocols_by_hardware_type(rt: HostRuntime) {
    for (hardware_type, number, protocol) in PROTOCOLS.iter() {
        let read = LinuxSllProtocolType::from((ArpHardwareId(*hardware_type), *number));
        equal(rt, read, *protocol);
        equal(rt, u16::from(*protocol), *number);
    }
}

// A protocol, its new number, and what it is then.
#[rattlefmt::skip]
const CHANGED_PROTOCOLS: &[(LinuxSllProtocolType, u16, LinuxSllProtocolType)] = &[
    (LinuxSllProtocolType::Ignored(1), 9, LinuxSllProtocolType::Ignored(9)),
    (LinuxSllProtocolType::NetlinkProtocolType(1), 9, LinuxSllProtocolType::NetlinkProtocolType(9)),
    (
        LinuxSllProtocolType::GenericRoutingEncapsulationProtocolType(1),
        9,
        LinuxSllProtocolType::GenericRoutingEncapsulationProtocolType(9),
    ),
    (LinuxSllProtocolType::EtherType(EtherType::IPV4), 9, LinuxSllProtocolType::LinuxNonstandardEtherType(9)),
    (LinuxSllProtocolType::LinuxNonstandardEtherType(9), 0x86dd, LinuxSllProtocolType::EtherType(EtherType::IPV6)),
];

#[test]
fn numbers_set_anew(rt: HostRuntime) {
    for (before, number, wanted) in CHANGED_PROTOCOLS.iter() {
        let mut protocol = *before;
        protocol.change_value(*number);
        equal(rt, protocol, *wanted);
    }
}

#[test]
fn error_texts(rt: HostRuntime) {
    let packet_type = HeaderError::UnsupportedPacketTypeField { packet_type: 5 };
    let text = "Linux cooked capture header error: unsupported packet type 5";
    reads(rt, &HeaderSliceError::Content(packet_type), text);
    let hardware_type = HeaderError::UnsupportedArpHardwareId {
        arp_hardware_type: ArpHardwareId(7),
    };
    let text = "Linux cooked capture header error: unsupported hardware type 7";
    reads(rt, &hardware_type, text);
}

#[test]
fn laws(rt: HostRuntime) {
    let Ok((header, _)) = LinuxSllHeader::from_slice(&BYTES) else {
        fail(rt, "no header");
    };
    let is_read_again = header_is_read_again(&header, &BYTES).is_ok();
    equal(rt, (header_lengths(), is_read_again), ([16], true));
    equal(rt, packet_type_constants().len(), 5);
    headers_are_their_bytes(&header);
}
