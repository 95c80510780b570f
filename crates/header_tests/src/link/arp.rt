//! ARP packets (RFC 826).
use crate::checks::{equal, equal_bytes, fail, is_written, reads, shows};
use ep_base::err::{Layer, LenError};
use ep_base::{EtherType, LenSource};
use ep_link::err::arp::{ArpHwAddrError, ArpNewError, ArpProtoAddrError};
use ep_link::laws::arp::*;
use ep_link::{ArpHardwareId, ArpOperation, ArpPacket, ArpPacketSlice, Ethernet2Slice};
use std::process::Abort;

// A request of an IPv4 host on Ethernet, in the layout of RFC 826, and a byte after it.
const BYTES: [u8; 29] = [
    0, 1, 8, 0, 6, 4, 0, 1, 2, 0, 0, 0, 0, 1, 10, 0, 0, 1, 0, 0, 0, 0, 0, 0, 10, 0, 0, 2, 0xff,
];

// The types of its addresses, and its operation: 2048 is 0800.
const TYPES: &str = "(ArpHardwareId(1), EtherType(2048), ArpOperation(1))";

// The hardware and the protocol address of the sender, and those of the target.
const ADDRESSES: [&[u8]; 4] = [
    &[2, 0, 0, 0, 0, 1],
    &[10, 0, 0, 1],
    &[0, 0, 0, 0, 0, 0],
    &[10, 0, 0, 2],
];

type Types = (ArpHardwareId, EtherType, ArpOperation);

fn types(packet: &ArpPacket) -> Types {
    (
        packet.hw_addr_type,
        packet.proto_addr_type,
        packet.operation,
    )
}

fn addresses(packet: &ArpPacket) -> [&[u8]; 4] {
    [
        packet.sender_hw_addr(),
        packet.sender_protocol_addr(),
        packet.target_hw_addr(),
        packet.target_protocol_addr(),
    ]
}

// The lengths of the packet, of a hardware address and of a protocol address.
fn lengths(packet: &ArpPacket) -> (usize, u8, u8) {
    (
        packet.packet_len(),
        packet.hw_addr_size(),
        packet.protocol_addr_size(),
    )
}

#[test]
fn a_packet_both_ways(rt: HostRuntime) {
    let Ok(packet) = ArpPacket::from_slice(&BYTES) else {
        fail(rt, "no packet");
    };
    shows(rt, &types(&packet), TYPES);
    equal(rt, lengths(&packet), (28, 6, 4));
    for (reported, wanted) in addresses(&packet).into_iter().zip(ADDRESSES) {
        equal_bytes(rt, reported, wanted);
    }
    equal_bytes(rt, packet.to_bytes().as_slice(), &BYTES[..28]);
}

fn types_of_slice(packet: &ArpPacketSlice<'_>) -> Types {
    (
        packet.hw_addr_type(),
        packet.proto_addr_type(),
        packet.operation(),
    )
}

fn addresses_of_slice<'a>(packet: &ArpPacketSlice<'a>) -> [&'a [u8]; 4] {
    [
        packet.sender_hw_addr(),
        packet.sender_protocol_addr(),
        packet.target_hw_addr(),
        packet.target_protocol_addr(),
    ]
}

// The bytes, and the lengths of a hardware address and of a protocol address.
fn parts_of_slice<'a>(packet: &ArpPacketSlice<'a>) -> (&'a [u8], u8, u8) {
    (
        packet.slice(),
        packet.hw_addr_size(),
        packet.proto_addr_size(),
    )
}

#[test]
fn a_view_of_a_packet(rt: HostRuntime) {
    let Ok(packet) = ArpPacketSlice::from_slice(&BYTES) else {
        fail(rt, "no packet");
    };
    shows(rt, &types_of_slice(&packet), TYPES);
    equal(rt, addresses_of_slice(&packet), ADDRESSES);
    equal(rt, parts_of_slice(&packet), (&BYTES[..28], 6, 4));
    let fields = packet.to_packet();
    equal_bytes(rt, fields.to_bytes().as_slice(), &BYTES[..28]);
    equal(rt, ArpPacket::from_slice(&BYTES), Ok(fields));
}

// Why these bytes are no packet and no view of one.
fn packet_refusal(bytes: &[u8]) -> Option<LenError> {
    match ArpPacket::from_slice(bytes) {
        Ok(_) => None,
        Err(error) => Some(error),
    }
}

fn refusal(bytes: &[u8]) -> Option<LenError> {
    match ArpPacketSlice::from_slice(bytes) {
        Ok(_) => None,
        Err(error) => Some(error),
    }
}

fn too_short(required_len: usize, len: usize, len_source: LenSource) -> Option<LenError> {
    Some(LenError {
        required_len,
        len,
        len_source,
        layer: Layer::Arp,
        layer_start_offset: 0,
    })
}

fn is_refused(rt: impl Abort + Copy, prefix: &[u8], required_len: usize, len_source: LenSource) {
    let error = too_short(required_len, prefix.len(), len_source);
    equal(rt, packet_refusal(prefix), error);
    equal(rt, refusal(prefix), error);
}

#[test]
fn every_prefix_of_a_packet(rt: HostRuntime) {
    for len in 0..8usize {
        is_refused(rt, &BYTES[..len], 8, LenSource::Slice);
    }
    for len in 8..28usize {
        is_refused(rt, &BYTES[..len], 28, LenSource::ArpAddrLengths);
    }
    equal(rt, refusal(&BYTES[..28]), None);
}

// A packet with a sender's and a target's addresses, each by its number of bytes, which are 7.
fn made(lens: &[usize; 4]) -> Result<ArpPacket, ArpNewError> {
    let bytes = [7; 256];
    let [hw, proto, target_hw, target_proto] = *lens;
    ArpPacket::new(
        ArpHardwareId::ETHERNET,
        EtherType::IPV4,
        ArpOperation::REQUEST,
        &bytes[..hw.min(256)],
        &bytes[..proto.min(256)],
        &bytes[..target_hw.min(256)],
        &bytes[..target_proto.min(256)],
    )
}

// The length of a packet, the two bytes that state the lengths of its addresses, and whether it is
// read again.
fn encoded(packet: &ArpPacket) -> Option<(usize, usize, usize, bool)> {
    let bytes = packet.to_bytes();
    let is_read_again = match ArpPacket::from_slice(bytes.as_slice()) {
        Ok(again) => again == *packet,
        Err(_) => false,
    };
    match bytes.as_slice() {
        [_, _, _, _, hw_len, proto_len, ..] => Some((
            bytes.len(),
            usize::from(*hw_len),
            usize::from(*proto_len),
            is_read_again,
        )),
        _ => None,
    }
}

fn is_written_with(rt: impl Abort + Copy, hw_len: usize, proto_len: usize) {
    match made(&[hw_len, proto_len, hw_len, proto_len]) {
        Ok(packet) => {
            let whole = 8 + 2 * hw_len.min(255) + 2 * proto_len.min(255);
            let wanted = Some((whole, hw_len, proto_len, true));
            equal(rt, encoded(&packet), wanted);
        }
        Err(_) => fail(rt, "no packet"),
    }
}

#[test]
fn addresses_of_every_length(rt: HostRuntime) {
    for hw_len in &[0usize, 1, 6, 255] {
        for proto_len in &[0usize, 1, 6, 255] {
            is_written_with(rt, *hw_len, *proto_len);
        }
    }
}

// The lengths of addresses, and why they make no packet.
const REFUSED: &[([usize; 4], &str)] = &[
    ([6, 256, 5, 4], "Some(HwAddr(LenNonMatching(6, 5)))"),
    ([256, 4, 6, 4], "Some(HwAddr(LenNonMatching(256, 6)))"),
    ([256, 256, 256, 4], "Some(HwAddr(LenTooBig(256)))"),
    ([6, 256, 6, 4], "Some(ProtoAddr(LenNonMatching(256, 4)))"),
    ([6, 256, 6, 256], "Some(ProtoAddr(LenTooBig(256)))"),
    ([6, 4, 6, 4], "None"),
];

fn why_unmade(lens: &[usize; 4]) -> Option<ArpNewError> {
    match made(lens) {
        Ok(_) => None,
        Err(error) => Some(error),
    }
}

#[test]
fn addresses_that_make_no_packet(rt: HostRuntime) {
    for (lens, wanted) in REFUSED.iter() {
        shows(rt, &why_unmade(lens), wanted);
    }
}

// The ether type of an Ethernet II frame, and the packet after its header or why there is none,
// seen from the frame.
fn packet_in<'a>(frame: &Ethernet2Slice<'a>) -> Result<(EtherType, &'a [u8]), LenError> {
    let payload = frame.payload();
    match ArpPacketSlice::from_slice(payload.payload) {
        Ok(packet) => Ok((payload.ether_type, packet.slice())),
        Err(error) => Err(error.add_offset(frame.header_len())),
    }
}

// The packet after an Ethernet II header of ether type 0806, and the same without its last byte.
#[test]
fn a_packet_in_a_frame(rt: HostRuntime) {
    let mut bytes = [0; 42];
    bytes[12..14].copy_from_slice(&[8, 6]);
    bytes[14..].copy_from_slice(&BYTES[..28]);
    let (Ok(whole), Ok(cut)) = (
        Ethernet2Slice::from_slice_without_fcs(&bytes),
        Ethernet2Slice::from_slice_without_fcs(&bytes[..41]),
    ) else {
        fail(rt, "no frames");
    };
    equal(rt, packet_in(&whole), Ok((EtherType::ARP, &BYTES[..28])));
    let missing =
        "Err(LenError { required_len: 28, len: 27, len_source: ArpAddrLengths, layer: Arp, \
        layer_start_offset: 14 })";
    shows(rt, &packet_in(&cut), missing);
}

#[test]
fn error_texts(rt: HostRuntime) {
    let hw = ArpNewError::from(ArpHwAddrError::LenNonMatching(6, 5));
    reads(
        rt,
        &hw,
        "ARP hardware addresses of 6 and 5 bytes differ in length",
    );
    let proto = ArpNewError::from(ArpProtoAddrError::LenTooBig(256));
    let text = "ARP protocol addresses of 256 bytes are too long (at most 255 bytes)";
    reads(rt, &proto, text);
}

#[test]
fn a_packet_after_a_byte_that_is_there(rt: HostRuntime) {
    let Ok(packet) = ArpPacket::from_slice(&BYTES) else {
        fail(rt, "no packet");
    };
    let mut buffer = Vec::new(rt.alloc());
    let done = buffer.push(0xff).is_ok() && packet.write(&mut buffer).is_ok();
    let mut written = BYTES;
    written.rotate_right(1);
    is_written(rt, done, buffer.as_slice(), written.as_slice());
}

#[test]
fn numbers(rt: HostRuntime) {
    let hardware = ArpHardwareId::from(824);
    equal(
        rt,
        (hardware, u16::from(hardware)),
        (ArpHardwareId::NETLINK, 824),
    );
    equal(rt, ArpOperation::from(2), ArpOperation::REPLY);
    equal(rt, u16::from(ArpOperation::REQUEST), 1);
    reads(rt, &ArpHardwareId::FRAD, "770");
}

#[test]
fn laws(rt: HostRuntime) {
    let Ok(packet) = ArpPacket::from_slice(&BYTES) else {
        fail(rt, "no packet");
    };
    packets_are_their_bytes(&packet);
    equal(rt, packet_lengths(), [1028]);
    equal(rt, packet_is_read_again(&packet, &BYTES), Ok(packet));
}
