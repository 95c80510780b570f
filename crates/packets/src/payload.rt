//! The payloads of packets.

use ep_packet::{NetSlice, SlicedPacket, TransportSlice};
use ep_tag::{LinkExtSlice, MacsecPayloadSlice};

/// What follows the last header of a packet that is read. It has no contract: tests compare the
/// texts.
pub(crate) fn payload_of<'a>(layers: &SlicedPacket<'a>) -> &'a [u8] {
    match &layers.transport {
        Some(TransportSlice::Icmpv4(message)) => return message.payload(),
        Some(TransportSlice::Icmpv6(message)) => return message.payload(),
        Some(TransportSlice::Udp(datagram)) => return datagram.payload(),
        Some(TransportSlice::Tcp(segment)) => return segment.payload(),
        None => {}
    }
    match &layers.net {
        Some(NetSlice::Ipv4(packet)) => packet.payload().payload,
        Some(NetSlice::Ipv6(packet)) => packet.payload().payload,
        Some(NetSlice::Arp(_)) => &[],
        None => link_payload(layers),
    }
}

// What follows the tags.
fn link_payload<'a>(layers: &SlicedPacket<'a>) -> &'a [u8] {
    if let Some(LinkExtSlice::Macsec(tag)) = layers.link_exts.as_slice().last() {
        if let MacsecPayloadSlice::Modified(bytes) = &tag.payload {
            return bytes;
        }
    }
    match layers.ether_payload() {
        Some(payload) => payload.payload,
        None => &[],
    }
}
