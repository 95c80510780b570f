//! Headers of packets as far as they are there. The bytes were worked out by hand after IEEE 802.3,
//! 802.1Q and 802.1AE, libpcap's page on LINKTYPE_LINUX_SLL, and RFC 768, 791, 792, 826, 8200 and 9293.
use super::lax_sliced_packet::{AUTH, COOKED, OPTIONS, TAGGED};
use crate::checks::{equal, fail};
use ep_base::err::{Layer, LenError};
use ep_base::{EtherType, IpNumber, LenSource};
use ep_ip::err::ipv6;
use ep_ipslice::err::ip;
use ep_packet::err::packet::SliceError;
use ep_packet::{IpHeaders, LaxPacketHeaders, LaxPayloadSlice, NetHeaders, TransportHeader};
use ep_tag::VlanHeader;
use std::process::Abort;
use std::test::*;

// The functions below have no contracts, as tests alone call them.

// The kind of a payload, the number of its bytes, and whether bytes are missing.
type Payload = (&'static str, usize, bool);

fn payload(headers: &LaxPacketHeaders<'_>) -> Payload {
    let len = headers.payload.slice().len();
    match &headers.payload {
        LaxPayloadSlice::Empty => ("empty", len, false),
        LaxPayloadSlice::Ether(payload) => ("ether", len, payload.incomplete),
        LaxPayloadSlice::LinuxSll(_) => ("cooked", len, false),
        LaxPayloadSlice::MacsecModified { incomplete, .. } => ("macsec", len, *incomplete),
        LaxPayloadSlice::Ip(payload) => ("ip", len, payload.incomplete),
        LaxPayloadSlice::Udp { incomplete, .. } => ("udp", len, *incomplete),
        LaxPayloadSlice::Tcp { incomplete, .. } => ("tcp", len, *incomplete),
        LaxPayloadSlice::Icmpv4 { incomplete, .. } => ("icmpv4", len, *incomplete),
        LaxPayloadSlice::Icmpv6 { incomplete, .. } => ("icmpv6", len, *incomplete),
    }
}

// The network layer: no packet, or its version, 0 for ARP.
fn version(headers: &LaxPacketHeaders<'_>) -> Option<u8> {
    match &headers.net {
        Some(NetHeaders::Ipv4(_, _)) => Some(4),
        Some(NetHeaders::Ipv6(_, _)) => Some(6),
        Some(NetHeaders::Arp(_)) => Some(0),
        None => None,
    }
}

fn stop(headers: &LaxPacketHeaders<'_>) -> Option<Layer> {
    match headers.stop_err {
        Some((_, layer)) => Some(layer),
        None => None,
    }
}

// The number of tags, the version, whether there is a transport header, the payload, and the layer
// that stopped.
type Headers = (usize, Option<u8>, bool, Payload, Option<Layer>);

fn headers(found: &LaxPacketHeaders<'_>) -> Headers {
    (
        found.link_exts.len(),
        version(found),
        found.transport.is_some(),
        payload(found),
        stop(found),
    )
}

fn of_frame(rt: impl Abort + Copy, bytes: &[u8]) -> Headers {
    match LaxPacketHeaders::from_ethernet(bytes) {
        Ok(found) => headers(&found),
        Err(_) => fail(rt, "no link header"),
    }
}

fn prefix(rt: impl Abort + Copy, len: usize) -> Headers {
    match TAGGED.get(..len) {
        Some(bytes) => of_frame(rt, bytes),
        None => fail(rt, "no prefix"),
    }
}

// The number of bytes between these offsets.
fn between(rt: impl Abort + Copy, start: usize, end: usize) -> usize {
    match TAGGED.get(start..end) {
        Some(bytes) => bytes.len(),
        None => fail(rt, "no such bytes"),
    }
}

// Cut at each byte, a frame has each header that is there, and the bytes after the last of them are
// payload. The short length of the MACsec header says that bytes after it are missing.
#[test]
fn each_prefix_of_a_frame(rt: HostRuntime) {
    for (start, end, tags, missing, layer) in [
        (14usize, 18usize, 0usize, false, Layer::VlanHeader),
        (18, 26, 1, false, Layer::MacsecHeader),
        (26, 30, 2, true, Layer::VlanHeader),
        (30, 50, 3, true, Layer::Ipv4Header),
    ] {
        for cut in start..end {
            let payload = ("ether", between(rt, start, cut), missing);
            equal(
                rt,
                prefix(rt, cut),
                (tags, None, false, payload, Some(layer)),
            );
        }
    }
    for cut in 50..58usize {
        let payload = ("ip", between(rt, 50, cut), true);
        let stop = Some(Layer::UdpHeader);
        equal(rt, prefix(rt, cut), (3, Some(4), false, payload, stop));
    }
    for cut in 58..67usize {
        let payload = ("udp", between(rt, 58, cut), cut < 66);
        equal(rt, prefix(rt, cut), (3, Some(4), true, payload, None));
    }
}

// Fewer bytes than a link header has.
#[test]
fn frames_without_a_link_header(rt: HostRuntime) {
    for len in 0..14usize {
        let error = LenError::too_few_bytes(Layer::Ethernet2Header, 14, len);
        match TAGGED.get(..len) {
            Some(bytes) => match LaxPacketHeaders::from_ethernet(bytes) {
                Ok(_) => fail(rt, "a link header"),
                Err(found) => equal(rt, found, error),
            },
            None => fail(rt, "no prefix"),
        }
    }
}

// The offset of the fault counts from the start of the frame.
#[test]
fn offset_of_the_fault(rt: HostRuntime) {
    let wanted = LenError {
        layer_start_offset: 50,
        ..LenError::too_few_bytes(Layer::UdpHeader, 8, 4)
    };
    match LaxPacketHeaders::from_ethernet(&TAGGED[..54]) {
        Ok(found) => equal(
            rt,
            found.stop_err,
            Some((SliceError::Len(wanted), Layer::UdpHeader)),
        ),
        Err(_) => fail(rt, "no link header"),
    }
}

// The tags are read as two VLAN tags, with a MACsec header between them.
#[test]
fn tags_of_a_frame(rt: HostRuntime) {
    match LaxPacketHeaders::from_ethernet(&TAGGED[..40]) {
        Ok(found) => {
            equal(rt, found.link.is_some(), true);
            equal(rt, found.vlan_ids().len(), 2);
            match found.vlan() {
                Some(VlanHeader::Double(tags)) => equal(
                    rt,
                    (tags.outer.vlan_id.value(), tags.inner.vlan_id.value()),
                    (5, 9),
                ),
                _ => fail(rt, "no two tags"),
            }
        }
        Err(_) => fail(rt, "no link header"),
    }
    equal(rt, LaxPacketHeaders::LINK_EXTS_CAP, 3);
}

// The headers before the one that is cut are there, and its bytes are the payload's first.
#[test]
fn faults_of_extension_headers(rt: HostRuntime) {
    let layer = Layer::Ipv6DestOptionsHeader;
    let wanted = (0, Some(6), false, ("ip", 11, true), Some(layer));
    equal(rt, of_frame(rt, &OPTIONS), wanted);
    let layer = Layer::IpAuthHeader;
    let wanted = (1, Some(4), false, ("ip", 15, true), Some(layer));
    equal(rt, of_frame(rt, &AUTH), wanted);
}

// What IP headers are returned: their length, the number and the length of the payload, whether bytes
// of it are missing, what bounds it, and the layer that stopped.
type IpRead = (usize, u8, usize, bool, LenSource, Option<Layer>);

fn ip_headers(rt: impl Abort + Copy, bytes: &[u8]) -> IpRead {
    match IpHeaders::from_slice_lax(bytes) {
        Ok((headers, payload, stop)) => {
            let layer = match stop {
                Some((_, layer)) => Some(layer),
                None => None,
            };
            (
                headers.header_len(),
                payload.ip_number.0,
                payload.payload.len(),
                payload.incomplete,
                payload.len_source,
                layer,
            )
        }
        Err(_) => fail(rt, "no IP header"),
    }
}

#[test]
fn ip_headers_of_cut_packets(rt: HostRuntime) {
    let stop = Some(Layer::Ipv6DestOptionsHeader);
    let wanted = (48, 60, 11, true, LenSource::Slice, stop);
    equal(rt, ip_headers(rt, &OPTIONS[14..]), wanted);
    let stop = Some(Layer::IpAuthHeader);
    let wanted = (24, 51, 15, true, LenSource::Slice, stop);
    equal(rt, ip_headers(rt, &AUTH[18..]), wanted);
    let wanted = (20, 17, 16, false, LenSource::Ipv4HeaderTotalLen, None);
    equal(rt, ip_headers(rt, &TAGGED[30..]), wanted);
}

// A total length below the header's, and an IPv6 payload length of 0, bound nothing.
#[test]
fn ip_headers_without_a_length(rt: HostRuntime) {
    let mut ipv4 = [0; 24];
    ipv4[0] = 0x45;
    ipv4[3] = 19;
    ipv4[9] = 253;
    equal(
        rt,
        ip_headers(rt, &ipv4),
        (20, 253, 4, false, LenSource::Slice, None),
    );
    let mut ipv6 = [0; 43];
    ipv6[0] = 0x60;
    ipv6[6] = 253;
    equal(
        rt,
        ip_headers(rt, &ipv6),
        (40, 253, 3, false, LenSource::Slice, None),
    );
    ipv6[5] = 2;
    let source = LenSource::Ipv6HeaderPayloadLen;
    equal(rt, ip_headers(rt, &ipv6), (40, 253, 2, false, source, None));
}

// Two destination options headers without a routing header between them: the first has a place in an
// `Ipv6Extensions`, and the payload starts with the second.
#[test]
fn repeated_extension_headers(rt: HostRuntime) {
    let mut bytes = [0; 60];
    bytes[0] = 0x60;
    bytes[5] = 20;
    bytes[6] = 60;
    bytes[40] = 60;
    bytes[48] = 17;
    let source = LenSource::Ipv6HeaderPayloadLen;
    equal(
        rt,
        ip_headers(rt, &bytes),
        (48, 60, 12, false, source, None),
    );
    let found = LaxPacketHeaders::from_ether_type(EtherType::IPV6, &bytes);
    equal(
        rt,
        headers(&found),
        (0, Some(6), false, ("ip", 12, false), None),
    );
}

// Why there are no headers, for each call.

fn refused(bytes: &[u8]) -> Option<ip::LaxHeaderSliceError> {
    match IpHeaders::from_slice_lax(bytes) {
        Ok(_) => None,
        Err(error) => Some(error),
    }
}

fn refused_packet(bytes: &[u8]) -> Option<ip::LaxHeaderSliceError> {
    match LaxPacketHeaders::from_ip(bytes) {
        Ok(_) => None,
        Err(error) => Some(error),
    }
}

fn refused_ipv4(bytes: &[u8]) -> Option<ip::LaxHeaderSliceError> {
    match IpHeaders::from_ipv4_slice_lax(bytes) {
        Ok(_) => None,
        Err(error) => Some(error),
    }
}

fn refused_ipv6(bytes: &[u8]) -> Option<ipv6::HeaderSliceError> {
    match IpHeaders::from_ipv6_slice_lax(bytes) {
        Ok(_) => None,
        Err(error) => Some(error),
    }
}

fn short(layer: Layer, required: usize, len: usize) -> ip::LaxHeaderSliceError {
    ip::LaxHeaderSliceError::Len(LenError::too_few_bytes(layer, required, len))
}

fn version_is(version_number: u8) -> ip::LaxHeaderSliceError {
    ip::LaxHeaderSliceError::Content(ip::HeaderError::UnsupportedIpVersion { version_number })
}

// No bytes, a version that is neither 4 nor 6, and a header of another version or of fewer bytes.
#[test]
fn bytes_without_an_ip_header(rt: HostRuntime) {
    let none = short(Layer::IpHeader, 1, 0);
    equal(rt, [refused(&[]), refused_packet(&[])], [Some(none); 2]);
    let five = version_is(5);
    equal(
        rt,
        [refused(&[0x50; 20]), refused_packet(&[0x50; 20])],
        [Some(five); 2],
    );
    equal(rt, refused_ipv4(&[0x60; 40]), Some(version_is(6)));
    let error = ipv6::HeaderError::UnexpectedVersion { version_number: 4 };
    let four = ipv6::HeaderSliceError::Content(error);
    equal(rt, refused_ipv6(&[0x45; 40]), Some(four));
    let ipv4 = short(Layer::Ipv4Header, 20, 19);
    equal(
        rt,
        [refused(&[0x45; 19]), refused_packet(&[0x45; 19])],
        [Some(ipv4); 2],
    );
    let ipv6 = short(Layer::Ipv6Header, 40, 39);
    equal(
        rt,
        [refused(&[0x60; 39]), refused_packet(&[0x60; 39])],
        [Some(ipv6); 2],
    );
}

// Without a link header.
#[test]
fn ip_packets(rt: HostRuntime) {
    match LaxPacketHeaders::from_ip(&TAGGED[30..60]) {
        Ok(found) => {
            equal(
                rt,
                headers(&found),
                (0, Some(4), true, ("udp", 2, true), None),
            );
            equal(rt, found.link.is_some(), false);
        }
        Err(_) => fail(rt, "no packet"),
    }
    match LaxPacketHeaders::from_ip(&OPTIONS[14..]) {
        Ok(found) => {
            let layer = Layer::Ipv6DestOptionsHeader;
            let wanted = (0, Some(6), false, ("ip", 11, true), Some(layer));
            equal(rt, headers(&found), wanted);
        }
        Err(_) => fail(rt, "no packet"),
    }
}

// A cooked packet that was cut within its UDP header, and one whose protocol is no ether type (a
// novell frame, 1).
#[test]
fn cooked_captures(rt: HostRuntime) {
    match LaxPacketHeaders::from_linux_sll(&COOKED) {
        Ok(found) => {
            let stop = Some(Layer::UdpHeader);
            equal(
                rt,
                headers(&found),
                (0, Some(4), false, ("ip", 4, true), stop),
            );
            equal(rt, found.link.is_some(), true);
        }
        Err(_) => fail(rt, "no packet"),
    }
    let mut other = COOKED;
    other[14] = 0;
    other[15] = 1;
    match LaxPacketHeaders::from_linux_sll(&other) {
        Ok(found) => equal(
            rt,
            headers(&found),
            (0, None, false, ("cooked", 24, false), None),
        ),
        Err(_) => fail(rt, "no packet"),
    }
    equal(
        rt,
        LaxPacketHeaders::from_linux_sll(&COOKED[..15]).is_err(),
        true,
    );
}

// A modified payload of 40 bytes, of which six are there; and an ARP packet of Ethernet and IPv4.
#[test]
fn payloads_without_a_packet(rt: HostRuntime) {
    let mut macsec = [0; 12];
    macsec[0] = 0x0c;
    macsec[1] = 40;
    let found = LaxPacketHeaders::from_ether_type(EtherType::MACSEC, &macsec);
    equal(
        rt,
        headers(&found),
        (1, None, false, ("macsec", 6, true), None),
    );
    let mut arp = [0; 30];
    arp[4] = 6;
    arp[5] = 4;
    let found = LaxPacketHeaders::from_ether_type(EtherType::ARP, &arp);
    equal(
        rt,
        headers(&found),
        (0, Some(0), false, ("empty", 0, false), None),
    );
    let found = LaxPacketHeaders::from_ether_type(EtherType::ARP, &arp[..27]);
    let layer = Some(Layer::Arp);
    equal(
        rt,
        headers(&found),
        (0, None, false, ("ether", 27, false), layer),
    );
    let found = LaxPacketHeaders::from_ether_type(EtherType(0x1234), &arp);
    equal(
        rt,
        headers(&found),
        (0, None, false, ("ether", 30, false), None),
    );
}

// An IPv4 packet of this protocol with 24 bytes of payload, of which 20 are there. The byte at an
// offset in it is this one, and the others of the payload are 0.
fn message(protocol: u8, offset: usize, byte: u8) -> [u8; 40] {
    let mut bytes = [0; 40];
    bytes[0] = 0x45;
    bytes[3] = 44;
    bytes[9] = protocol;
    if let Some(place) = bytes.get_mut(offset) {
        *place = byte;
    }
    bytes
}

fn of_message(protocol: u8, offset: usize, byte: u8) -> Headers {
    let bytes = message(protocol, offset, byte);
    headers(&LaxPacketHeaders::from_ether_type(EtherType::IPV4, &bytes))
}

// A UDP datagram of eight bytes and one of 24, a TCP segment without options, and an echo request of
// each ICMP.
#[test]
fn messages(rt: HostRuntime) {
    for (protocol, offset, byte, payload) in [
        (17u8, 25usize, 8u8, ("udp", 0usize, true)),
        (17, 25, 24, ("udp", 12, true)),
        (6, 32, 0x50, ("tcp", 0, true)),
        (1, 20, 8, ("icmpv4", 12, true)),
        (58, 20, 128, ("icmpv6", 12, true)),
    ] {
        let found = of_message(protocol, offset, byte);
        equal(rt, found, (0, Some(4), true, payload, None));
    }
}

// A protocol that isn't read, and a fragment, leave the IP payload.
#[test]
fn packets_without_a_message(rt: HostRuntime) {
    let wanted = (0, Some(4), false, ("ip", 20, true), None);
    equal(rt, of_message(253, 20, 0), wanted);
    let bytes = message(17, 6, 0x20);
    let found = LaxPacketHeaders::from_ether_type(EtherType::IPV4, &bytes);
    equal(rt, headers(&found), wanted);
    match &found.payload {
        LaxPayloadSlice::Ip(payload) => equal(
            rt,
            (payload.ip_number, payload.fragmented),
            (IpNumber::UDP, true),
        ),
        _ => fail(rt, "no IP payload"),
    }
}

// The fields of a UDP header are those of the bytes.
#[test]
fn fields_of_a_udp_header(rt: HostRuntime) {
    let bytes = message(17, 21, 9);
    let found = LaxPacketHeaders::from_ether_type(EtherType::IPV4, &bytes);
    match found.transport {
        Some(TransportHeader::Udp(header)) => equal(
            rt,
            (header.source_port, header.destination_port, header.length),
            (9, 0, 0),
        ),
        _ => fail(rt, "no UDP header"),
    }
}
