//! The headers of the network and the transport layer, after the tags.
ghost use Rattle.std.specs.Prelude.{◌≡◌, ◌≤◌, ◌<◌, ◌+◌, ◌^◌, ℕ, length, IfErr, Ok, Err};
ghost use Rattle.ep_packet.specs.HeaderLayers.{HeaderLayers, in_packet, ip_layers, ipv4_layers, ipv6_layers, layers_of};
ghost use Rattle.ep_packet.specs.HeaderLayers.{message_in, message_parts, of_headers, packet_len};
ghost use Rattle.ep_packet.specs.IpHeadersAt.{ip_headers_at, ipv4_headers_at, ipv6_headers_at};
ghost use Rattle.ep_packet.specs.Payload.{payload_parsed};
ghost use Rattle.ep_packet.specs.PayloadParts.{parts_parsed};
ghost use Rattle.ep_packet.specs.ReadIpHeaders.{IsIpHeaders};
ghost use Rattle.ep_packet.specs.SliceFault.{fault_offset};

use crate::err::packet::SliceError;
use crate::laws::{ip_headers_are_their_parts, refusals_are_first_faults};
use crate::{IpHeaders, NetHeaders, PayloadSlice, TransportHeader, slice_fault};
use ep_base::{EtherType, IpNumber};
use ep_icmp::{Icmpv4Slice, Icmpv6Slice};
use ep_ipslice::err::ip::{HeadersError, HeadersSliceError};
use ep_ipslice::{IpPayloadSlice, laws};
use ep_link::ArpPacketSlice;
use ep_tag::EtherPayloadSlice;
use ep_tcpudp::{TcpSlice, UdpHeader, UdpHeaderSlice};
use std::marker::Model;

/// The headers of the network layer and of the message in it, and the payload after them.
#[derive(Drop)]
pub(crate) struct LayerHeaders<'a> {
    pub net: Option<NetHeaders>,
    pub transport: Option<TransportHeader>,
    pub payload: PayloadSlice<'a>,
}

impl<'a> Model for LayerHeaders<'a> {
    ghost Value = { HeaderLayers };

    ghost view = { λ layers. record
        { net = layers.net; transport = layers.transport; payload = payload_parsed layers.payload } };
}

impl<'a> LayerHeaders<'a> {
    /// The headers in what an ether type names.
    pub(crate) fn from_ether_payload(
        payload: EtherPayloadSlice<'a>,
    ) -> Result<LayerHeaders<'a>, SliceError>
        ensures layers { result ≡ layers_of payload.entry }
        ensures offset { IfErr result (λ e. (n : ℕ) → length payload.entry.payload + n < 2 ^ 64
            → fault_offset e + n < 2 ^ 64) }
    {
        match payload.ether_type {
            EtherType::IPV4 => Self::from_ipv4(payload.payload),
            EtherType::IPV6 => Self::from_ipv6(payload.payload),
            EtherType::ARP => match ArpPacketSlice::from_slice(payload.payload) {
                Ok(packet) => Ok(LayerHeaders {
                    net: Some(NetHeaders::Arp(packet.to_packet())),
                    transport: None,
                    payload: PayloadSlice::Empty,
                }),
                Err(error) => Err(SliceError::Len(error)),
            },
            _ => Ok(LayerHeaders {
                net: None,
                transport: None,
                payload: PayloadSlice::Ether(payload),
            }),
        }
    }

    fn from_ipv4(slice: &'a [u8]) -> Result<LayerHeaders<'a>, SliceError>
        ensures layers { result ≡ ipv4_layers (length slice.now) (ipv4_headers_at slice.now) }
        ensures offset { IfErr result (λ e. (n : ℕ) → length slice.now + n < 2 ^ 64
            → fault_offset e + n < 2 ^ 64) }
    {
        laws::faults_can_be_moved();
        ip_headers_are_their_parts();
        match IpHeaders::from_ipv4_slice(slice) {
            Ok((headers, payload)) => Self::in_packet(headers, payload, slice),
            Err(error) => Err(slice_fault::of_ipv4(error)),
        }
    }

    fn from_ipv6(slice: &'a [u8]) -> Result<LayerHeaders<'a>, SliceError>
        ensures layers { result ≡ ipv6_layers (length slice.now) (ipv6_headers_at slice.now) }
        ensures offset { IfErr result (λ e. (n : ℕ) → length slice.now + n < 2 ^ 64
            → fault_offset e + n < 2 ^ 64) }
    {
        laws::faults_can_be_moved();
        refusals_are_first_faults();
        ip_headers_are_their_parts();
        match IpHeaders::from_ipv6_slice(slice) {
            Ok((headers, payload)) => Self::in_packet(headers, payload, slice),
            Err(error) => Err(slice_fault::of_ipv6(error)),
        }
    }

    /// The headers in an IP packet of either version.
    pub(crate) fn from_ip(slice: &'a [u8]) -> Result<LayerHeaders<'a>, SliceError>
        ensures { result ≡ ip_layers (length slice.now) (ip_headers_at slice.now) }
    {
        ip_headers_are_their_parts();
        match IpHeaders::from_slice(slice) {
            Ok((headers, payload)) => Self::in_packet(headers, payload, slice),
            Err(error) => Err(of_headers(error)),
        }
    }

    // The layers of a slice that starts with these IP headers, where this is their payload.
    fn in_packet(
        headers: IpHeaders,
        payload: IpPayloadSlice<'a>,
        slice: &'a [u8],
    ) -> Result<LayerHeaders<'a>, SliceError>
        requires { IsIpHeaders slice.now headers payload }
        ensures layers { result ≡ in_packet (length slice.now) headers payload.entry }
        ensures offset { IfErr result (λ e. fault_offset e ≤ length slice.now) }
    {
        let position = packet_len(&headers, slice.len()) - payload.payload.len();
        match message_in(&payload) {
            Ok(Some((transport, payload))) => Ok(LayerHeaders {
                net: Some(NetHeaders::from(headers)),
                transport: Some(transport),
                payload,
            }),
            Ok(None) => Ok(LayerHeaders {
                net: Some(NetHeaders::from(headers)),
                transport: None,
                payload: PayloadSlice::Ip(payload),
            }),
            Err(error) => {
                let error = slice_fault::within(error, payload.len_source);
                Err(slice_fault::moved(error, position))
            }
        }
    }
}

// The number of bytes that the packet takes, by its length field. If an IPv6 payload length is 0
// and bytes follow the header, it takes all `found` bytes.
fn packet_len(headers: &IpHeaders, found: usize) -> usize
    ensures { result ≡ packet_len headers.now found }
{
    match headers {
        IpHeaders::Ipv4(header, _) => usize::from(header.total_len),
        IpHeaders::Ipv6(header, _) => {
            if header.payload_length == 0 && found > 40 {
                found
            } else {
                40 + usize::from(header.payload_length)
            }
        }
    }
}

// The header of the message in the payload, and the bytes after it. None if the payload is a
// fragment or of a protocol that isn't read.
fn message_in<'a>(
    payload: &IpPayloadSlice<'a>,
) -> Result<Option<(TransportHeader, PayloadSlice<'a>)>, SliceError>
    ensures message { parts_parsed result ≡ message_in payload.now }
    ensures offset { IfErr result (λ e. fault_offset e ≡ 0) }
{
    if payload.fragmented {
        return Ok(None);
    }
    read_message(payload.ip_number, payload.payload)
}

fn read_message(
    ip_number: IpNumber,
    payload: &[u8],
) -> Result<Option<(TransportHeader, PayloadSlice<'_>)>, SliceError>
    ensures message { parts_parsed result ≡ message_parts ip_number.0 payload.now }
    ensures offset { IfErr result (λ e. fault_offset e ≡ 0) }
{
    match ip_number {
        IpNumber::ICMP => match Icmpv4Slice::from_slice(payload) {
            Ok(message) => Ok(Some((
                TransportHeader::Icmpv4(message.header()),
                PayloadSlice::Icmpv4(message.payload()),
            ))),
            Err(error) => Err(SliceError::Len(error)),
        },
        IpNumber::TCP => match TcpSlice::from_slice(payload) {
            Ok(segment) => Ok(Some((
                TransportHeader::Tcp(segment.to_header()),
                PayloadSlice::Tcp(segment.payload()),
            ))),
            Err(error) => Err(slice_fault::of_tcp(error)),
        },
        IpNumber::UDP => match UdpHeaderSlice::from_slice(payload) {
            Ok(header) => Ok(Some((
                TransportHeader::Udp(header.to_header()),
                PayloadSlice::Udp(&payload[UdpHeader::LEN..]),
            ))),
            Err(error) => Err(SliceError::Len(error)),
        },
        IpNumber::IPV6_ICMP => match Icmpv6Slice::from_slice(payload) {
            Ok(message) => Ok(Some((
                TransportHeader::Icmpv6(message.header()),
                PayloadSlice::Icmpv6(message.payload()),
            ))),
            Err(error) => Err(SliceError::Len(error)),
        },
        _ => Ok(None),
    }
}

// An error of IP headers as one of all layers.
fn of_headers(error: HeadersSliceError) -> SliceError
    ensures { result ≡ of_headers error }
{
    match error {
        HeadersSliceError::Len(error) => SliceError::Len(error),
        HeadersSliceError::Content(HeadersError::Ip(error)) => SliceError::Ip(error),
        HeadersSliceError::Content(HeadersError::Ipv4Ext(error)) => SliceError::Ipv4Exts(error),
        HeadersSliceError::Content(HeadersError::Ipv6Ext(error)) => SliceError::Ipv6Exts(error),
    }
}
