//! Where packets end too early. The bytes were worked out by hand after IEEE 802.3, 802.1Q and
//! 802.1AE and RFC 768, 791, 792, 826, 4302, 4443, 8200 and 9293; addresses are zero.
use crate::checks::equal;
use ep_base::err::{Layer, LenError};
use ep_base::{EtherType, LenSource};
use ep_packet::SlicedPacket;
use ep_packet::err::packet::SliceError;
use std::process::Abort;
use std::test::*;

// The functions below have no contracts, as tests alone call them.

// The layer in which bytes are missing, how many it needs, how many there are, what bounds them,
// and the offset at which it starts.
type Missing = (Layer, [usize; 2], LenSource, usize);

fn fault_is(rt: impl Abort + Copy, fault: Option<SliceError>, wanted: Missing) {
    let (layer, [required_len, len], len_source, layer_start_offset) = wanted;
    let error = LenError {
        required_len,
        len,
        len_source,
        layer,
        layer_start_offset,
    };
    equal(rt, fault, Some(SliceError::Len(error)));
}

fn refuses(rt: impl Abort + Copy, ether_type: u16, bytes: &[u8], wanted: Missing) {
    let fault = SlicedPacket::from_ether_type(EtherType(ether_type), bytes).err();
    fault_is(rt, fault, wanted);
}

// A VLAN tag within a MACsec header's short length of four, two of them for the ether type: a byte
// after these is not the tag's.
const TAG_BEYOND_A_SHORT_LENGTH: [u8; 25] = [
    0, 0, 0, 0, 0, 0, 0, 0, 0, 0, 0, 0, 0x88, 0xe5, 0, 4, 0, 0, 0, 1, 0x81, 0, 0, 5, 0xff,
];

#[test]
fn frames(rt: HostRuntime) {
    let fault = SlicedPacket::from_ethernet(&[0; 13]).err();
    fault_is(
        rt,
        fault,
        (Layer::Ethernet2Header, [14, 13], LenSource::Slice, 0),
    );
    let fault = SlicedPacket::from_ethernet(&TAG_BEYOND_A_SHORT_LENGTH).err();
    fault_is(rt, fault, (Layer::VlanHeader, [4, 2], LenSource::Slice, 22));
}

// A MACsec header has 8 bytes with an ether type; with a short length of 5, three more.
#[test]
fn tags(rt: HostRuntime) {
    refuses(
        rt,
        0x8100,
        &[0, 5, 8],
        (Layer::VlanHeader, [4, 3], LenSource::Slice, 0),
    );
    refuses(
        rt,
        0x88a8,
        &[0, 5, 0x91, 0, 0],
        (Layer::VlanHeader, [4, 1], LenSource::Slice, 4),
    );
    refuses(
        rt,
        0x88e5,
        &[0; 5],
        (Layer::MacsecHeader, [6, 5], LenSource::Slice, 0),
    );
    let macsec = [0, 5, 0x88, 0xe5, 0, 0, 0, 0, 0, 1, 8];
    refuses(
        rt,
        0x8100,
        &macsec,
        (Layer::MacsecHeader, [8, 7], LenSource::Slice, 4),
    );
    let macsec = [0, 5, 0, 0, 0, 1, 8, 0, 1, 2];
    refuses(
        rt,
        0x88e5,
        &macsec,
        (Layer::MacsecPacket, [11, 10], LenSource::Slice, 0),
    );
}

// An IPv4 header with this many words, total length and protocol, before 20 bytes.
fn ipv4_packet(words: u8, total_len: u8, protocol: u8) -> [u8; 40] {
    let mut bytes = [0; 40];
    bytes[0] = 0x40 | words;
    bytes[3] = total_len;
    bytes[9] = protocol;
    bytes
}

// So many bytes of such a packet.
fn refuses_ipv4(rt: impl Abort + Copy, packet: [u8; 40], len: usize, wanted: Missing) {
    refuses(rt, 0x0800, packet.get(..len).unwrap_or(&packet), wanted);
}

#[test]
fn ipv4_packets(rt: HostRuntime) {
    refuses(
        rt,
        0x0800,
        &[0x45],
        (Layer::Ipv4Header, [20, 1], LenSource::Slice, 0),
    );
    refuses_ipv4(
        rt,
        ipv4_packet(6, 40, 17),
        20,
        (Layer::Ipv4Header, [24, 20], LenSource::Slice, 0),
    );
    refuses_ipv4(
        rt,
        ipv4_packet(5, 28, 17),
        27,
        (Layer::Ipv4Packet, [28, 27], LenSource::Slice, 0),
    );
    let wanted = (
        Layer::IpAuthHeader,
        [12, 5],
        LenSource::Ipv4HeaderTotalLen,
        20,
    );
    refuses_ipv4(rt, ipv4_packet(5, 25, 51), 25, wanted);
}

#[test]
fn messages(rt: HostRuntime) {
    let wanted = (Layer::UdpHeader, [8, 7], LenSource::Ipv4HeaderTotalLen, 20);
    refuses_ipv4(rt, ipv4_packet(5, 27, 17), 27, wanted);
    let wanted = (
        Layer::TcpHeader,
        [20, 19],
        LenSource::Ipv4HeaderTotalLen,
        20,
    );
    refuses_ipv4(rt, ipv4_packet(5, 39, 6), 39, wanted);
    let mut options = ipv4_packet(5, 40, 6);
    options[32] = 0x60;
    let wanted = (
        Layer::TcpHeader,
        [24, 20],
        LenSource::Ipv4HeaderTotalLen,
        20,
    );
    refuses_ipv4(rt, options, 40, wanted);
    let wanted = (Layer::Icmpv4, [8, 7], LenSource::Ipv4HeaderTotalLen, 20);
    refuses_ipv4(rt, ipv4_packet(5, 27, 1), 27, wanted);
}

// A UDP message of eight bytes whose length field is nine, and seven.
#[test]
fn udp_lengths(rt: HostRuntime) {
    let mut packet = ipv4_packet(5, 28, 17);
    packet[25] = 9;
    let wanted = (Layer::UdpPayload, [9, 8], LenSource::Ipv4HeaderTotalLen, 20);
    refuses_ipv4(rt, packet, 28, wanted);
    packet[25] = 7;
    let wanted = (Layer::UdpHeader, [8, 7], LenSource::UdpHeaderLen, 20);
    refuses_ipv4(rt, packet, 28, wanted);
}

// An IPv6 header with this payload length and next header, and seven bytes.
fn refuses_ipv6(rt: impl Abort + Copy, payload_len: u8, next: u8, wanted: Missing) {
    let mut bytes = [0; 47];
    bytes[0] = 0x60;
    bytes[5] = payload_len;
    bytes[6] = next;
    refuses(rt, 0x86dd, &bytes, wanted);
}

// A layer that needs more than those seven bytes.
fn refuses_after_ipv6(rt: impl Abort + Copy, next: u8, layer: Layer, needed: usize) {
    let wanted = (layer, [needed, 7], LenSource::Ipv6HeaderPayloadLen, 40);
    refuses_ipv6(rt, 7, next, wanted);
}

#[test]
fn ipv6_packets(rt: HostRuntime) {
    let wanted = (Layer::Ipv6Header, [40, 1], LenSource::Slice, 0);
    refuses(rt, 0x86dd, &[0x60], wanted);
    let wanted = (Layer::Ipv6Packet, [48, 47], LenSource::Slice, 0);
    refuses_ipv6(rt, 8, 17, wanted);
    refuses_after_ipv6(rt, 0, Layer::Ipv6ExtHeader, 8);
    refuses_after_ipv6(rt, 44, Layer::Ipv6FragHeader, 8);
    refuses_after_ipv6(rt, 51, Layer::IpAuthHeader, 12);
    refuses_after_ipv6(rt, 58, Layer::Icmpv6, 8);
}

#[test]
fn arp_packets(rt: HostRuntime) {
    refuses(
        rt,
        0x0806,
        &[0; 7],
        (Layer::Arp, [8, 7], LenSource::Slice, 0),
    );
    let prefix = [0, 1, 8, 0, 6, 4, 0, 1];
    refuses(
        rt,
        0x0806,
        &prefix,
        (Layer::Arp, [28, 8], LenSource::ArpAddrLengths, 0),
    );
}
