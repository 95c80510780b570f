//! The headers of frames as values, compared with their slices, and what refuses a frame.

use ep_ext::Ipv6Extensions;
use ep_packet::err::packet::SliceError;
use ep_packet::{
    NetHeaders, NetSlice, PacketHeaders, PayloadSlice, SlicedPacket, TransportHeader,
    TransportSlice,
};
use ep_tag::{LinkExtSlice, MacsecPayloadSlice};
use std::alloc::{AllocError, Global};

/// How many frames there are, by what the two readers return, slices and values.
#[derive(Drop)]
pub struct Frames {
    /// Frames whose headers and payload are those of the slices.
    pub same: usize,
    /// Frames that both refuse, with the same error.
    pub refused: usize,
    /// Frames for which they differ: those where the length field of UDP counts other bytes than
    /// the payload's, and those with an extension header for which the values have no field.
    pub apart: usize,
    /// A line for each frame that is refused: its row, the number of its line there, and by what.
    pub refusals: String,
}

impl Frames {
    /// No frames. It has no contract: what the program prints is compared with what is stored.
    pub fn new(alloc: Global) -> Frames {
        Frames {
            same: 0,
            refused: 0,
            apart: 0,
            refusals: String::new(alloc),
        }
    }

    /// One frame more. (The numbers stay at the greatest one.)
    /// It has no contract: what the program prints is compared with what is stored.
    pub fn count(
        &mut self,
        alloc: Global,
        row: &str,
        line: usize,
        frame: &[u8],
    ) -> Result<(), AllocError> {
        if let Err(error) = SlicedPacket::from_ethernet(frame) {
            let fault = fault_of(alloc, &error)?;
            let outcome = format!(in alloc; "{row} {line} {fault}\n")?;
            self.refusals.push_str(outcome.as_str())?;
        }
        let number = match compare(frame) {
            Comparison::Same => &mut self.same,
            Comparison::Refused => &mut self.refused,
            Comparison::Apart => &mut self.apart,
        };
        *number = number.saturating_add(1);
        Ok(())
    }
}

// The layer that lacks bytes and the offset where it starts, or the header with a value that is
// refused.
fn fault_of(alloc: Global, error: &SliceError) -> Result<String, AllocError> {
    let header = match error {
        SliceError::Len(missing) => {
            return format!(in alloc; "{:?} {}", missing.layer, missing.layer_start_offset);
        }
        SliceError::LinuxSll(_) => "LinuxSll",
        SliceError::Macsec(_) => "Macsec",
        SliceError::Ip(_) => "Ip",
        SliceError::Ipv4(_) => "Ipv4",
        SliceError::Ipv6(_) => "Ipv6",
        SliceError::Ipv4Exts(_) => "Ipv4Exts",
        SliceError::Ipv6Exts(_) => "Ipv6Exts",
        SliceError::Tcp(_) => "Tcp",
    };
    String::from_str(alloc, header)
}

#[derive(Drop)]
enum Comparison {
    Same,
    Refused,
    Apart,
}

fn compare(frame: &[u8]) -> Comparison {
    let slicing = SlicedPacket::from_ethernet(frame);
    let reading = PacketHeaders::from_ethernet_slice(frame);
    match (&slicing, &reading) {
        (Ok(packet), Ok(headers)) => {
            if are_headers_of(packet, headers) {
                return Comparison::Same;
            }
        }
        (Err(slicing), Err(reading)) => {
            if slicing == reading {
                return Comparison::Refused;
            }
        }
        _ => {}
    }
    Comparison::Apart
}

// Whether headers are those of a packet, field by field.
fn are_headers_of(packet: &SlicedPacket, headers: &PacketHeaders) -> bool {
    is_same_link(packet, headers)
        && is_same_net(packet, headers)
        && is_same_transport(packet, headers)
        && is_same_payload(packet, headers)
}

fn is_same_link(packet: &SlicedPacket, headers: &PacketHeaders) -> bool {
    let link = match &packet.link {
        Some(link) => link.to_header(),
        None => None,
    };
    if link != headers.link || packet.link_exts.len() != headers.link_exts.len() {
        return false;
    }
    for (tag, fields) in packet
        .link_exts
        .as_slice()
        .iter()
        .zip(headers.link_exts.as_slice())
    {
        if tag.to_header() != *fields {
            return false;
        }
    }
    true
}

fn is_same_net(packet: &SlicedPacket, headers: &PacketHeaders) -> bool {
    match (&packet.net, &headers.net) {
        (None, None) => true,
        (Some(NetSlice::Ipv4(packet)), Some(NetHeaders::Ipv4(header, extensions))) => {
            packet.header().to_header() == *header && packet.extensions().to_header() == *extensions
        }
        (Some(NetSlice::Ipv6(packet)), Some(NetHeaders::Ipv6(header, extensions))) => {
            let first = packet.header().next_header();
            match Ipv6Extensions::from_slice(first, packet.extensions().slice()) {
                Ok((read, _, rest)) => {
                    packet.header().to_header() == *header && read == *extensions && rest.is_empty()
                }
                Err(_) => false,
            }
        }
        (Some(NetSlice::Arp(packet)), Some(NetHeaders::Arp(fields))) => {
            packet.to_packet() == *fields
        }
        _ => false,
    }
}

fn is_same_transport(packet: &SlicedPacket, headers: &PacketHeaders) -> bool {
    match (&packet.transport, &headers.transport) {
        (None, None) => true,
        (Some(TransportSlice::Udp(message)), Some(TransportHeader::Udp(header))) => {
            message.to_header() == *header
        }
        (Some(TransportSlice::Tcp(message)), Some(TransportHeader::Tcp(header))) => {
            message.to_header() == *header
        }
        (Some(TransportSlice::Icmpv4(message)), Some(TransportHeader::Icmpv4(header))) => {
            message.header() == *header
        }
        (Some(TransportSlice::Icmpv6(message)), Some(TransportHeader::Icmpv6(header))) => {
            message.header() == *header
        }
        _ => false,
    }
}

fn is_same_payload(packet: &SlicedPacket, headers: &PacketHeaders) -> bool {
    match (&packet.transport, &packet.net) {
        (Some(message), _) => headers.payload == after_message(message),
        (None, Some(packet)) => match (packet.ip_payload_ref(), &headers.payload) {
            (Some(payload), PayloadSlice::Ip(outcome)) => payload == outcome,
            (None, PayloadSlice::Empty) => true,
            _ => false,
        },
        (None, None) => headers.payload == after_tags(packet),
    }
}

fn after_message<'a>(message: &TransportSlice<'a>) -> PayloadSlice<'a> {
    match message {
        TransportSlice::Udp(message) => PayloadSlice::Udp(message.payload()),
        TransportSlice::Tcp(message) => PayloadSlice::Tcp(message.payload()),
        TransportSlice::Icmpv4(message) => PayloadSlice::Icmpv4(message.payload()),
        TransportSlice::Icmpv6(message) => PayloadSlice::Icmpv6(message.payload()),
    }
}

// The payload that the last ether type names, and else the one that MACsec changed.
fn after_tags<'a>(packet: &SlicedPacket<'a>) -> PayloadSlice<'a> {
    if let Some(payload) = packet.ether_payload() {
        return PayloadSlice::Ether(payload);
    }
    match packet.link_exts.as_slice().last() {
        Some(LinkExtSlice::Macsec(macsec)) => match &macsec.payload {
            MacsecPayloadSlice::Modified(bytes) => PayloadSlice::MacsecMod(bytes),
            MacsecPayloadSlice::Unmodified(_) => PayloadSlice::Empty,
        },
        _ => PayloadSlice::Empty,
    }
}
