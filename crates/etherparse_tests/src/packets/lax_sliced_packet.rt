//! The layers of packets as far as they are there. The bytes were worked out by hand after IEEE 802.3,
//! 802.1Q and 802.1AE, libpcap's page on LINKTYPE_LINUX_SLL, and RFC 768, 791, 8200 and 9293.
use crate::checks::{equal, fail};
use ep_base::err::{Layer, LenError};
use ep_base::{EtherType, LenSource};
use ep_ip::err::ipv4;
use ep_ipslice::err::ip;
use ep_ipslice::{LaxIpSlice, LaxIpv4Slice, LaxIpv6Slice};
use ep_link::LinkSlice;
use ep_packet::err::packet::SliceError;
use ep_packet::{LaxNetSlice, LaxSlicedPacket, TransportSlice};
use ep_tag::VlanSlice;
use ep_tag::err::macsec;
use std::process::Abort;
use std::test::*;

// The functions below have no contracts, as tests alone call them.

// An Ethernet frame with a VLAN tag with identifier 5 (byte 14), a MACsec header with a short length
// of 42 (byte 18), a VLAN tag with identifier 9 (byte 26), an IPv4 packet from 10.0.0.1 to 10.0.0.2
// (byte 30) and a UDP message from port 1 to port 2 (byte 50) with eight bytes of payload.
pub(super) const TAGGED: [u8; 66] = [
    0, 0, 0, 0, 0, 0, 0, 0, 0, 0, 0, 0, 0x88, 0xa8, 0, 5, 0x88, 0xe5, 0, 42, 0, 0, 0, 1, 0x81, 0,
    0, 9, 8, 0, 0x45, 0, 0, 0x24, 0, 7, 0, 0, 0x40, 0x11, 0x66, 0xc0, 10, 0, 0, 1, 10, 0, 0, 2, 0,
    1, 0, 2, 0, 0x10, 0xdb, 0xb4, 1, 2, 3, 4, 5, 6, 7, 8,
];

// Number of tags, the length of the IP payload and whether bytes of it are missing, the UDP ports,
// and the layer that stopped.
type Layers = (
    usize,
    Option<(usize, bool)>,
    Option<(u16, u16)>,
    Option<Layer>,
);

fn layers(packet: &LaxSlicedPacket<'_>) -> Layers {
    let payload = match packet.ip_payload() {
        Some(payload) => Some((payload.payload.len(), payload.incomplete)),
        None => None,
    };
    let ports = match &packet.transport {
        Some(TransportSlice::Udp(datagram)) => {
            Some((datagram.source_port(), datagram.destination_port()))
        }
        _ => None,
    };
    let stop = match packet.stop_err {
        Some((_, layer)) => Some(layer),
        None => None,
    };
    (packet.link_exts.len(), payload, ports, stop)
}

fn of_frame(bytes: &[u8]) -> Result<Layers, LenError> {
    match LaxSlicedPacket::from_ethernet(bytes) {
        Ok(packet) => Ok(layers(&packet)),
        Err(error) => Err(error),
    }
}

fn prefix(rt: impl Abort + Copy, len: usize) -> Result<Layers, LenError> {
    match TAGGED.get(..len) {
        Some(bytes) => of_frame(bytes),
        None => fail(rt, "no prefix"),
    }
}

// Cut at each byte, a frame shows each layer whose header is there.
#[test]
fn each_prefix_of_a_frame(rt: HostRuntime) {
    for len in 0..14usize {
        let error = LenError::too_few_bytes(Layer::Ethernet2Header, 14, len);
        equal(rt, prefix(rt, len), Err(error));
    }
    for (start, end, tags, layer) in [
        (14usize, 18usize, 0usize, Layer::VlanHeader),
        (18, 26, 1, Layer::MacsecHeader),
        (26, 30, 2, Layer::VlanHeader),
        (30, 50, 3, Layer::Ipv4Header),
    ] {
        for len in start..end {
            equal(rt, prefix(rt, len), Ok((tags, None, None, Some(layer))));
        }
    }
    for len in 50..67usize {
        let Some(payload) = TAGGED.get(50..len) else {
            fail(rt, "no prefix");
        };
        let wanted = if len < 58 {
            (3, Some((payload.len(), true)), None, Some(Layer::UdpHeader))
        } else {
            (3, Some((payload.len(), len < 66)), Some((1, 2)), None)
        };
        equal(rt, prefix(rt, len), Ok(wanted));
    }
}

// The offset of the fault counts from the start of the frame.
#[test]
fn offset_of_the_fault(rt: HostRuntime) {
    let wanted = LenError {
        layer_start_offset: 50,
        ..LenError::too_few_bytes(Layer::UdpHeader, 8, 4)
    };
    match LaxSlicedPacket::from_ethernet(&TAGGED[..54]) {
        Ok(packet) => equal(
            rt,
            packet.stop_err,
            Some((SliceError::Len(wanted), Layer::UdpHeader)),
        ),
        Err(_) => fail(rt, "no link header"),
    }
}

// The fields of an error of too few bytes: how many are needed, how many are there, what bounds them,
// and the offset of the layer; and the layers that the error names and that stopped.
type Short = (usize, usize, LenSource, usize, Layer, Layer);

fn short(packet: &LaxSlicedPacket<'_>) -> Option<Short> {
    match packet.stop_err {
        Some((SliceError::Len(error), layer)) => Some((
            error.required_len,
            error.len,
            error.len_source,
            error.layer_start_offset,
            error.layer,
            layer,
        )),
        _ => None,
    }
}

fn short_in_frame(bytes: &[u8]) -> Option<Short> {
    match LaxSlicedPacket::from_ethernet(bytes) {
        Ok(packet) => short(&packet),
        Err(_) => None,
    }
}

fn short_after(ether_type: EtherType, bytes: &[u8]) -> Option<Short> {
    short(&LaxSlicedPacket::from_ether_type(ether_type, bytes))
}

// Within the MACsec header, and within the VLAN tag after it.
#[test]
fn faults_of_tags(rt: HostRuntime) {
    let layer = Layer::MacsecHeader;
    equal(
        rt,
        short_in_frame(&TAGGED[..20]),
        Some((6, 2, LenSource::Slice, 18, layer, layer)),
    );
    let layer = Layer::VlanHeader;
    equal(
        rt,
        short_in_frame(&TAGGED[..28]),
        Some((4, 2, LenSource::Slice, 26, layer, layer)),
    );
    let layer = Layer::Arp;
    equal(
        rt,
        short_after(EtherType::ARP, &[0; 3]),
        Some((8, 3, LenSource::Slice, 0, layer, layer)),
    );
    let packet = LaxSlicedPacket::from_ether_type(EtherType::MACSEC, &[0x80; 20]);
    let error = macsec::HeaderError::UnexpectedVersion;
    equal(
        rt,
        packet.stop_err,
        Some((SliceError::Macsec(error), Layer::MacsecHeader)),
    );
}

// A whole IPv4 packet of 24 bytes with 4 of a UDP header, which its total length bounds, and 39 bytes
// of one of 40 with 19 of a TCP header.
#[test]
fn faults_of_messages(rt: HostRuntime) {
    let mut bytes = [0; 40];
    bytes[0] = 0x45;
    bytes[3] = 24;
    bytes[9] = 17;
    let layer = Layer::UdpHeader;
    equal(
        rt,
        short_after(EtherType::IPV4, &bytes),
        Some((8, 4, LenSource::Ipv4HeaderTotalLen, 20, layer, layer)),
    );
    bytes[3] = 40;
    bytes[9] = 6;
    let layer = Layer::TcpHeader;
    equal(
        rt,
        short_after(EtherType::IPV4, &bytes[..39]),
        Some((20, 19, LenSource::Slice, 20, layer, layer)),
    );
}

// 11 of the 16 bytes of destination options after hop-by-hop options, in a packet that promises 40
// after its header.
pub(super) const OPTIONS: [u8; 73] = [
    0, 0, 0, 0, 0, 0, 0, 0, 0, 0, 0, 0, 0x86, 0xdd, 0x60, 0, 0, 0, 0, 40, 0, 0x40, 0xfd, 0, 0, 0,
    0, 0, 0, 0, 0, 0, 0, 0, 0, 0, 0, 1, 0xfd, 0, 0, 0, 0, 0, 0, 0, 0, 0, 0, 0, 0, 0, 0, 2, 0x3c, 0,
    1, 4, 0, 0, 0, 0, 0x11, 1, 1, 0x0c, 0, 0, 0, 0, 0, 0, 0,
];

// 15 of the 24 bytes of an authentication header, after a VLAN tag and an IPv4 header with options.
pub(super) const AUTH: [u8; 57] = [
    0, 0, 0, 0, 0, 0, 0, 0, 0, 0, 0, 0, 0x81, 0, 0, 5, 8, 0, 0x46, 0, 0, 0x38, 0, 7, 0, 0, 0x40,
    0x33, 0, 0, 10, 0, 0, 1, 10, 0, 0, 2, 1, 1, 1, 0, 0x11, 4, 0, 0, 0, 0, 0, 1, 0, 0, 0, 2, 0xaa,
    0xbb, 0xcc,
];

// The headers before the one that is cut are there, and its bytes are the payload's first.
#[test]
fn faults_of_extension_headers(rt: HostRuntime) {
    equal(
        rt,
        short_in_frame(&OPTIONS),
        Some((
            16,
            11,
            LenSource::Slice,
            62,
            Layer::Ipv6ExtHeader,
            Layer::Ipv6DestOptionsHeader,
        )),
    );
    let layer = Layer::IpAuthHeader;
    equal(
        rt,
        short_in_frame(&AUTH),
        Some((24, 15, LenSource::Slice, 42, layer, layer)),
    );
    for (frame, tags, payload_len) in [(&OPTIONS[..], 0, 11), (&AUTH[..], 1, 15)] {
        match LaxSlicedPacket::from_ethernet(frame) {
            Ok(packet) => {
                let (tag_count, payload, ports, _) = layers(&packet);
                equal(rt, tag_count, tags);
                equal(rt, payload, Some((payload_len, true)));
                equal(rt, ports, None);
            }
            Err(_) => fail(rt, "no link header"),
        }
    }
}

// An IPv6 header where the ether type names IPv4.
#[test]
fn faults_of_the_content(rt: HostRuntime) {
    let packet = LaxSlicedPacket::from_ether_type(EtherType::IPV4, &[0x60; 40]);
    let error = ipv4::HeaderError::UnexpectedVersion { version_number: 6 };
    equal(
        rt,
        packet.stop_err,
        Some((SliceError::Ipv4(error), Layer::Ipv4Header)),
    );
    equal(rt, packet.net.is_some(), false);
    equal(rt, packet.link.is_some(), true);
}

// Without a link header, and of neither version.
#[test]
fn ip_packets(rt: HostRuntime) {
    match LaxSlicedPacket::from_ip(&TAGGED[30..60]) {
        Ok(packet) => {
            equal(
                rt,
                layers(&packet),
                (0, Some((10, true)), Some((1, 2)), None),
            );
            equal(rt, packet.link.is_some(), false);
        }
        Err(_) => fail(rt, "no packet"),
    }
    let error = ip::HeaderError::UnsupportedIpVersion { version_number: 5 };
    match LaxSlicedPacket::from_ip(&[0x50; 20]) {
        Ok(_) => fail(rt, "a packet of version 5"),
        Err(found) => equal(rt, found, ip::LaxHeaderSliceError::Content(error)),
    }
}

// A header of a cooked capture before the first 24 bytes of that packet.
pub(super) const COOKED: [u8; 40] = [
    0, 0, 0, 1, 0, 6, 1, 2, 3, 4, 5, 6, 0, 0, 8, 0, 0x45, 0, 0, 0x24, 0, 7, 0, 0, 0x40, 0x11, 0x66,
    0xc0, 10, 0, 0, 1, 10, 0, 0, 2, 0, 1, 0, 2,
];

#[test]
fn cooked_captures(rt: HostRuntime) {
    match LaxSlicedPacket::from_linux_sll(&COOKED) {
        Ok(packet) => {
            let stop = Some(Layer::UdpHeader);
            equal(rt, layers(&packet), (0, Some((4, true)), None, stop));
            equal(
                rt,
                matches!(packet.link, Some(LinkSlice::LinuxSll(_))),
                true,
            );
        }
        Err(_) => fail(rt, "no packet"),
    }
    equal(
        rt,
        LaxSlicedPacket::from_linux_sll(&COOKED[..15]).is_err(),
        true,
    );
}

// The packet of the network layer, by its version.
#[test]
fn packets_of_the_network_layer(rt: HostRuntime) {
    match LaxSlicedPacket::from_ethernet(&TAGGED[..50]) {
        Ok(LaxSlicedPacket { net: Some(net), .. }) => {
            equal(rt, net.ipv4_ref().is_some(), true);
            equal(rt, net.ipv6_ref().is_some(), false);
            equal(rt, net.arp_ref().is_some(), false);
            equal(rt, net.ip_payload_ref().is_some(), true);
            equal(rt, matches!(net, LaxNetSlice::Ipv4(_)), true);
        }
        _ => fail(rt, "no packet"),
    }
}

// The ether type after the tags, whether bytes after it are missing, and what bounds them.
fn ether_payload(packet: &LaxSlicedPacket<'_>) -> Option<(EtherType, bool, LenSource)> {
    match packet.ether_payload() {
        Some(payload) => Some((payload.ether_type, payload.incomplete, payload.len_source)),
        None => None,
    }
}

// Number and first of the VLAN identifiers, and whether the tags are read as a double tag.
fn tags(packet: &LaxSlicedPacket<'_>) -> (usize, Option<u16>, bool) {
    let ids = packet.vlan_ids();
    let first = match ids.first() {
        Some(id) => Some(id.value()),
        None => None,
    };
    (
        ids.len(),
        first,
        matches!(packet.vlan(), Some(VlanSlice::DoubleVlan(_))),
    )
}

// The MACsec header between the VLAN tags promises 42 bytes after it, which end with the frame.
#[test]
fn tags_and_payloads_of_a_frame(rt: HostRuntime) {
    for len in [60usize, 66] {
        let frame = match TAGGED.get(..len) {
            Some(frame) => frame,
            None => fail(rt, "no prefix"),
        };
        match LaxSlicedPacket::from_ethernet(frame) {
            Ok(packet) => {
                equal(rt, tags(&packet), (2, Some(5), true));
                let wanted = if len < 66 {
                    (EtherType::IPV4, true, LenSource::Slice)
                } else {
                    (EtherType::IPV4, false, LenSource::MacsecShortLength)
                };
                equal(rt, ether_payload(&packet), Some(wanted));
            }
            Err(_) => fail(rt, "no link header"),
        }
    }
    let packet = LaxSlicedPacket::from_ether_type(EtherType::ARP, &[0; 3]);
    equal(rt, tags(&packet), (0, None, false));
    equal(
        rt,
        ether_payload(&packet),
        Some((EtherType::ARP, false, LenSource::Slice)),
    );
}

// The outer MACsec header promises 40 bytes, of which 30 are there; the inner one leaves 20, which are
// a whole IPv4 packet.
const NESTED: [u8; 52] = [
    0, 0, 0, 0, 0, 0, 0, 0, 0, 0, 0, 0, 0x88, 0xe5, 0, 42, 0, 0, 0, 1, 0x88, 0xe5, 0, 22, 0, 0, 0,
    2, 8, 0, 0x45, 0, 0, 20, 0, 7, 0, 0, 0x40, 0, 0, 0, 10, 0, 0, 1, 10, 0, 0, 2, 0, 0,
];

// The last MACsec header bounds what follows it.
#[test]
fn payload_after_two_macsec_headers(rt: HostRuntime) {
    match LaxSlicedPacket::from_ethernet(&NESTED) {
        Ok(packet) => {
            let wanted = (EtherType::IPV4, false, LenSource::MacsecShortLength);
            equal(rt, ether_payload(&packet), Some(wanted));
            equal(rt, layers(&packet), (2, Some((0, false)), None, None));
        }
        Err(_) => fail(rt, "no link header"),
    }
    equal(rt, LaxSlicedPacket::LINK_EXTS_CAP, 3);
}

// The version of a packet of the network layer, its payload's length and whether bytes are missing.
fn version(packet: &LaxNetSlice<'_>) -> (u8, Option<(usize, bool)>) {
    let version = match packet {
        LaxNetSlice::Ipv4(_) => 4,
        LaxNetSlice::Ipv6(_) => 6,
        LaxNetSlice::Arp(_) => 0,
    };
    let payload = match packet.ip_payload_ref() {
        Some(payload) => Some((payload.payload.len(), payload.incomplete)),
        None => None,
    };
    (version, payload)
}

// A packet of either version is one of IP, and that one of the network layer.
#[test]
fn packets_of_either_version(rt: HostRuntime) {
    match LaxIpv4Slice::from_slice(&TAGGED[30..60]) {
        Ok((packet, _)) => {
            let packet = LaxIpSlice::from(packet);
            equal(rt, packet.ipv4().is_some(), true);
            equal(
                rt,
                version(&LaxNetSlice::from(packet)),
                (4, Some((10, true))),
            );
        }
        Err(_) => fail(rt, "no packet"),
    }
    match LaxIpv6Slice::from_slice(&OPTIONS[14..]) {
        Ok((packet, _)) => {
            let packet = LaxIpSlice::from(packet);
            equal(rt, packet.ipv6().is_some(), true);
            equal(
                rt,
                version(&LaxNetSlice::from(packet)),
                (6, Some((11, true))),
            );
        }
        Err(_) => fail(rt, "no packet"),
    }
}

// The last ether type, where no packet of the network layer is there, and whether that is a fragment.
#[test]
fn ether_types_and_fragments(rt: HostRuntime) {
    for (len, wanted) in [
        (16usize, Some(EtherType(0x88a8))),
        (20, Some(EtherType::MACSEC)),
        (40, Some(EtherType::IPV4)),
        (50, None),
    ] {
        match TAGGED.get(..len) {
            Some(frame) => match LaxSlicedPacket::from_ethernet(frame) {
                Ok(packet) => {
                    equal(rt, packet.payload_ether_type(), wanted);
                    equal(rt, packet.is_ip_payload_fragmented(), false);
                }
                Err(_) => fail(rt, "no link header"),
            },
            None => fail(rt, "no prefix"),
        }
    }
    let mut bytes = [0; 24];
    bytes[0] = 0x45;
    bytes[3] = 60;
    bytes[6] = 0x20;
    let packet = LaxSlicedPacket::from_ether_type(EtherType::IPV4, &bytes);
    equal(rt, packet.is_ip_payload_fragmented(), true);
}
