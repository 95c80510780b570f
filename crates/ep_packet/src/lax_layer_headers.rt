//! The headers of the network and the transport layer in a payload, as far as they are there.
ghost use Rattle.std.specs.Prelude.{◌≡◌, ◌<◌, ◌^◌, ◌+◌, length, IfSome};
ghost use Rattle.std.specs.Option.{option_map};
ghost use Rattle.ep_ipslice.specs.Compared.{lax_value};
ghost use Rattle.ep_ipslice.specs.LaxPackets.{lax_ipv4_packet_at};
ghost use Rattle.ep_link.specs.Arp.{packet_at};
ghost use Rattle.ep_packet.specs.LaxFits.{Moves};
ghost use Rattle.ep_packet.specs.LaxIpHeadersAt.{lax_ipv6_headers_at};
ghost use Rattle.ep_packet.specs.LaxPacketHeaders.{LaxHeaderLayers, in_lax_ipv4_headers, in_lax_ipv6_headers};
ghost use Rattle.ep_packet.specs.LaxPacketHeaders.{lax_after_message, lax_arp_headers, lax_headers_in, lax_ip_layers};
ghost use Rattle.ep_packet.specs.LaxPacketHeaders.{lax_ipv4_headers, lax_ipv6_headers, no_lax_headers};
ghost use Rattle.ep_packet.specs.LaxPacketHeaders.{with_lax_message};
ghost use Rattle.ep_packet.specs.LaxPayload.{lax_payload_parsed};
ghost use Rattle.ep_packet.specs.LaxSliced.{auth_stop, lax_transport_in};
ghost use Rattle.ep_packet.specs.SameHeaders.{transport_fields};

use crate::err::packet::SliceError;
use crate::lax_layer_slices::{auth_stop, exts_stop, of_ipv4_header, of_ipv6_header, transport_in};
use crate::layer_slices::len_of_ipv4;
use crate::net::{LaxIpv6Headers, ipv4_parts};
use crate::{LaxPayloadSlice, NetHeaders, TransportHeader, TransportSlice};
use ep_base::EtherType;
use ep_base::err::{Layer, LenError};
use ep_ext::err::ip_auth;
use ep_ipslice::err::ip::{HeaderError, LaxHeaderSliceError};
use ep_ipslice::{LaxIpPayloadSlice, LaxIpv4Slice, laws};
use ep_link::ArpPacketSlice;
use ep_tag::LaxEtherPayloadSlice;
use std::marker::Model;

/// The headers of the network layer and of the message in it, the payload after them, where there is a
/// packet of the network layer, and what stopped, with its layer.
#[derive(Drop)]
pub(crate) struct LaxLayerHeaders<'a> {
    pub net: Option<NetHeaders>,
    pub transport: Option<TransportHeader>,
    pub payload: Option<LaxPayloadSlice<'a>>,
    pub stop: Option<(SliceError, Layer)>,
}

impl<'a> Model for LaxLayerHeaders<'a> {
    ghost Value = { LaxHeaderLayers };

    ghost view = { λ layers. record {
      net = layers.net;
      transport = layers.transport;
      payload = option_map lax_payload_parsed layers.payload;
      stop = layers.stop;
    } };
}

impl<'a> LaxLayerHeaders<'a> {
    /// The headers in what an ether type names: none if nothing is named.
    pub(crate) fn from_ether_payload(payload: &Option<LaxEtherPayloadSlice<'a>>) -> Self
        ensures layers { result ≡ lax_headers_in payload.now }
        ensures offset { IfSome payload.now (λ p. IfSome result.stop (Moves (length p.payload))) }
    {
        let Some(payload) = payload else {
            return Self::none(None);
        };
        match payload.ether_type {
            EtherType::IPV4 => Self::from_ipv4(payload.payload),
            EtherType::IPV6 => Self::from_ipv6(payload.payload),
            EtherType::ARP => Self::from_arp(payload.payload),
            _ => Self::none(None),
        }
    }

    /// The headers in an IP packet of the version in the upper half of its first byte.
    pub(crate) fn from_ip(slice: &'a [u8]) -> Result<Self, LaxHeaderSliceError>
        ensures { result ≡ lax_ip_layers slice.now }
    {
        if slice.is_empty() {
            return Err(LaxHeaderSliceError::Len(LenError::too_few_bytes(Layer::IpHeader, 1, 0)));
        }
        let version_number = slice[0] >> 4;
        if version_number == 4 {
            return match LaxIpv4Slice::from_slice(slice) {
                Ok((packet, fault)) => Ok(Self::in_ipv4(&packet, fault)),
                Err(error) => Err(HeaderError::of_ipv4_slice(error)),
            };
        }
        if version_number == 6 {
            return match LaxIpv6Headers::from_slice(slice) {
                Ok(headers) => Ok(Self::in_ipv6(headers)),
                Err(error) => Err(HeaderError::of_ipv6_slice(error)),
            };
        }
        Err(LaxHeaderSliceError::Content(HeaderError::UnsupportedIpVersion { version_number }))
    }

    fn none(stop: Option<(SliceError, Layer)>) -> Self
        ensures { result ≡ no_lax_headers stop }
    {
        LaxLayerHeaders {
            net: None,
            transport: None,
            payload: None,
            stop,
        }
    }

    fn from_arp(slice: &'a [u8]) -> Self
        ensures layers { result ≡ lax_arp_headers (packet_at slice.now) }
        ensures offset { IfSome result.stop (Moves (length slice.now)) }
    {
        match ArpPacketSlice::from_slice(slice) {
            Ok(packet) => LaxLayerHeaders {
                net: Some(NetHeaders::Arp(packet.to_packet())),
                transport: None,
                payload: Some(LaxPayloadSlice::Empty),
                stop: None,
            },
            Err(error) => Self::none(Some((SliceError::Len(error), Layer::Arp))),
        }
    }

    fn from_ipv4(slice: &'a [u8]) -> Self
        ensures layers { result ≡ lax_ipv4_headers (lax_ipv4_packet_at slice.now) }
        ensures offset { IfSome result.stop (Moves (length slice.now)) }
    {
        laws::lax_faults_can_be_moved();
        match LaxIpv4Slice::from_slice(slice) {
            Ok((packet, fault)) => Self::in_ipv4(&packet, fault),
            Err(error) => Self::none(Some((of_ipv4_header(error), Layer::Ipv4Header))),
        }
    }

    fn from_ipv6(slice: &'a [u8]) -> Self
        ensures layers { result ≡ lax_ipv6_headers (lax_ipv6_headers_at slice.now) }
        ensures offset { IfSome result.stop (Moves (length slice.now)) }
    {
        match LaxIpv6Headers::from_slice(slice) {
            Ok(headers) => Self::in_ipv6(headers),
            Err(error) => Self::none(Some((of_ipv6_header(error), Layer::Ipv6Header))),
        }
    }

    fn in_ipv4(packet: &LaxIpv4Slice<'a>, fault: Option<ip_auth::HeaderSliceError>) -> Self
        ensures { result ≡ in_lax_ipv4_headers (packet.now, fault) }
    {
        let len = len_of_ipv4(packet.header(), packet.extensions());
        let (headers, payload) = ipv4_parts(packet);
        Self::in_packet(NetHeaders::from(headers), len, payload, auth_stop(fault))
    }

    fn in_ipv6(headers: LaxIpv6Headers<'a>) -> Self
        ensures { result ≡ in_lax_ipv6_headers headers.entry }
    {
        let LaxIpv6Headers {
            len,
            headers,
            payload,
            fault,
        } = headers;
        Self::in_packet(NetHeaders::from(headers), len, payload, exts_stop(fault))
    }

    // The headers of an IP packet with so many bytes of headers before this payload, unless a fault
    // stopped these.
    fn in_packet(
        headers: NetHeaders,
        len: usize,
        payload: LaxIpPayloadSlice<'a>,
        stop: Option<(SliceError, Layer)>,
    ) -> Self
        ensures { result ≡ with_lax_message headers (lax_value payload.entry)
            (lax_transport_in len (lax_value payload.entry).1 stop) }
    {
        let (transport, stop) = transport_in(&payload, len, stop);
        match transport {
            Some(message) => {
                let (header, payload) = message_parts(&message, payload.incomplete);
                LaxLayerHeaders {
                    net: Some(headers),
                    transport: Some(header),
                    payload: Some(payload),
                    stop,
                }
            }
            None => LaxLayerHeaders {
                net: Some(headers),
                transport: None,
                payload: Some(LaxPayloadSlice::Ip(payload)),
                stop,
            },
        }
    }
}

// The header of a message, and the bytes after it, in an IP payload of which bytes may be missing.
fn message_parts<'a>(
    message: &TransportSlice<'a>,
    incomplete: bool,
) -> (TransportHeader, LaxPayloadSlice<'a>)
    ensures header { result.0 ≡ transport_fields message.now }
    ensures payload { lax_payload_parsed result.1 ≡ lax_after_message incomplete message.now }
{
    match message {
        TransportSlice::Icmpv4(message) => (
            TransportHeader::Icmpv4(message.header()),
            LaxPayloadSlice::Icmpv4 {
                payload: message.payload(),
                incomplete,
            },
        ),
        TransportSlice::Tcp(segment) => (
            TransportHeader::Tcp(segment.to_header()),
            LaxPayloadSlice::Tcp {
                payload: segment.payload(),
                incomplete,
            },
        ),
        TransportSlice::Udp(datagram) => (
            TransportHeader::Udp(datagram.to_header()),
            LaxPayloadSlice::Udp {
                payload: datagram.payload(),
                incomplete,
            },
        ),
        TransportSlice::Icmpv6(message) => (
            TransportHeader::Icmpv6(message.header()),
            LaxPayloadSlice::Icmpv6 {
                payload: message.payload(),
                incomplete,
            },
        ),
    }
}
