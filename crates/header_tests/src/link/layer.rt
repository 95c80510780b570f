//! Link headers of either kind.
use crate::checks::{equal, fail, is_written, shows};
use ep_base::{EtherType, LenSource};
use ep_link::{
    Ethernet2Header, Ethernet2Slice, LinkHeader, LinkSlice, LinuxSllHeader, LinuxSllPayloadSlice,
    LinuxSllProtocolType, LinuxSllSlice,
};
use ep_tag::EtherPayloadSlice;
use std::process::Abort;

const ETHERNET: [u8; 14] = [1, 2, 3, 4, 5, 6, 7, 8, 9, 10, 11, 12, 8, 0];

// 2048 is 0800.
const ETHERNET_FIELDS: &str = "Ethernet2Header { source: [7, 8, 9, 10, 11, 12], \
    destination: [1, 2, 3, 4, 5, 6], ether_type: EtherType(2048) }";

const SLL: [u8; 16] = [0, 4, 0, 1, 0, 6, 1, 2, 3, 4, 5, 6, 0, 0, 8, 6];

// An outgoing packet over Ethernet: 2054 is 0806.
const SLL_FIELDS: &str = "LinuxSllHeader { packet_type: LinuxSllPacketType(4), \
    arp_hrd_type: ArpHardwareId(1), sender_address_valid_length: 6, \
    sender_address: [1, 2, 3, 4, 5, 6, 0, 0], protocol_type: EtherType(EtherType(2054)) }";

fn ethernet2() -> LinkHeader {
    LinkHeader::from(Ethernet2Header::from_bytes(ETHERNET))
}

fn linux_sll(rt: impl Abort + Copy) -> LinkHeader {
    match LinuxSllHeader::from_slice(&SLL) {
        Ok((header, _)) => LinkHeader::from(header),
        Err(_) => fail(rt, "no header"),
    }
}

#[test]
fn one_kind_or_the_other(rt: HostRuntime) {
    shows(rt, &ethernet2().linux_sll(), "None");
    let Some(header) = ethernet2().ethernet2() else {
        fail(rt, "no Ethernet header");
    };
    shows(rt, &header, ETHERNET_FIELDS);
    equal(rt, LinkHeader::Ethernet2(header).header_len(), 14);
}

#[test]
fn the_other_kind_or_the_one(rt: HostRuntime) {
    shows(rt, &linux_sll(rt).ethernet2(), "None");
    let Some(header) = linux_sll(rt).linux_sll() else {
        fail(rt, "no header of a cooked capture");
    };
    shows(rt, &header, SLL_FIELDS);
    equal(rt, LinkHeader::LinuxSll(header).header_len(), 16);
}

#[test]
fn an_ethernet_header_written_anew(rt: HostRuntime) {
    let mut header = ethernet2();
    equal(rt, header.mut_linux_sll().is_some(), false);
    if let Some(ethernet2) = header.mut_ethernet2() {
        ethernet2.ether_type = EtherType::ARP;
    }
    let changed = "Ethernet2(Ethernet2Header { source: [7, 8, 9, 10, 11, 12], \
        destination: [1, 2, 3, 4, 5, 6], ether_type: EtherType(2054) })";
    shows(rt, &header, changed);
}

#[test]
fn a_cooked_header_written_anew(rt: HostRuntime) {
    let mut header = linux_sll(rt);
    equal(rt, header.mut_ethernet2().is_some(), false);
    if let Some(linux_sll) = header.mut_linux_sll() {
        linux_sll.sender_address_valid_length = 8;
    }
    let changed = "LinuxSll(LinuxSllHeader { packet_type: LinuxSllPacketType(4), \
        arp_hrd_type: ArpHardwareId(1), sender_address_valid_length: 8, \
        sender_address: [1, 2, 3, 4, 5, 6, 0, 0], protocol_type: EtherType(EtherType(2054)) })";
    shows(rt, &header, changed);
}

#[test]
fn headers_after_a_byte_that_is_there(rt: HostRuntime) {
    let (ethernet, cooked) = (ethernet2(), linux_sll(rt));
    let mut buffer = Vec::new(rt.alloc());
    let done = buffer.push(9).is_ok()
        && ethernet.write(&mut buffer).is_ok()
        && cooked.write(&mut buffer).is_ok();
    let written = [
        9, 1, 2, 3, 4, 5, 6, 7, 8, 9, 10, 11, 12, 8, 0, 0, 4, 0, 1, 0, 6, 1, 2, 3, 4, 5, 6, 0, 0,
        8, 6,
    ];
    is_written(rt, done, buffer.as_slice(), written.as_slice());
}

// The header and what an ether type names after it, if there are such, as texts.
fn is_link(rt: impl Abort + AllocGlobal + Copy, link: &LinkSlice<'_>, header: &str, payload: &str) {
    shows(rt, &link.to_header(), header);
    shows(rt, &link.ether_payload(), payload);
}

#[test]
fn a_frame(rt: HostRuntime) {
    let bytes = [1, 2, 3, 4, 5, 6, 7, 8, 9, 10, 11, 12, 8, 0, 7, 8];
    let Ok(frame) = Ethernet2Slice::from_slice_without_fcs(&bytes) else {
        fail(rt, "no frame");
    };
    let header = "Some(Ethernet2(Ethernet2Header { source: [7, 8, 9, 10, 11, 12], \
        destination: [1, 2, 3, 4, 5, 6], ether_type: EtherType(2048) }))";
    let payload = "Some(EtherPayloadSlice { ether_type: EtherType(2048), len_source: Slice, \
        payload: [7, 8] })";
    is_link(rt, &LinkSlice::Ethernet2(frame), header, payload);
}

// A packet of ether type 0806 names it; 802.11 with radiotap, hardware type 803, gives the same
// number no meaning.
#[test]
fn cooked_packets(rt: HostRuntime) {
    let mut bytes = [0, 4, 0, 1, 0, 6, 1, 2, 3, 4, 5, 6, 0, 0, 8, 6, 9];
    let Ok(packet) = LinuxSllSlice::from_slice(&bytes) else {
        fail(rt, "no packet");
    };
    let header = "Some(LinuxSll(LinuxSllHeader { packet_type: LinuxSllPacketType(4), \
        arp_hrd_type: ArpHardwareId(1), sender_address_valid_length: 6, \
        sender_address: [1, 2, 3, 4, 5, 6, 0, 0], protocol_type: EtherType(EtherType(2054)) }))";
    let payload = "Some(EtherPayloadSlice { ether_type: EtherType(2054), len_source: Slice, \
        payload: [9] })";
    is_link(rt, &LinkSlice::LinuxSll(packet), header, payload);
    bytes[2] = 3;
    bytes[3] = 0x23;
    let Ok(radiotap) = LinuxSllSlice::from_slice(&bytes) else {
        fail(rt, "no packet");
    };
    let header = "Some(LinuxSll(LinuxSllHeader { packet_type: LinuxSllPacketType(4), \
        arp_hrd_type: ArpHardwareId(803), sender_address_valid_length: 6, \
        sender_address: [1, 2, 3, 4, 5, 6, 0, 0], protocol_type: Ignored(2054) }))";
    is_link(rt, &LinkSlice::LinuxSll(radiotap), header, "None");
}

// 34525 is 86dd.
#[test]
fn payloads_without_a_header(rt: HostRuntime) {
    let ether = LinkSlice::EtherPayload(EtherPayloadSlice {
        ether_type: EtherType::IPV6,
        len_source: LenSource::MacsecShortLength,
        payload: &[1, 2],
    });
    let payload = "Some(EtherPayloadSlice { ether_type: EtherType(34525), \
        len_source: MacsecShortLength, payload: [1, 2] })";
    is_link(rt, &ether, "None", payload);
    let sll = LinkSlice::LinuxSllPayload(LinuxSllPayloadSlice {
        protocol_type: LinuxSllProtocolType::NetlinkProtocolType(0x0800),
        payload: &[1, 2],
    });
    is_link(rt, &sll, "None", "None");
}
