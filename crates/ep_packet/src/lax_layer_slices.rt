//! The network layer and the transport layer in a payload, as far as they are there.
ghost use Rattle.std.specs.Prelude.{◌≡◌, ◌<◌, ◌+◌, ◌^◌, length, IfErr, IfSome};
ghost use Rattle.std.specs.Option.{option_map};
ghost use Rattle.ep_ipslice.specs.Compared.{lax_value};
ghost use Rattle.ep_ipslice.specs.LaxPackets.{lax_ipv4_packet_at, lax_ipv6_packet_at};
ghost use Rattle.ep_link.specs.Arp.{packet_at};
ghost use Rattle.ep_packet.specs.LaxFits.{Moves};
ghost use Rattle.ep_packet.specs.LaxSliced.{LaxLayers, auth_stop, exts_stop, in_lax_ip, in_lax_ipv4, in_lax_ipv6, lax_arp_layers};
ghost use Rattle.ep_packet.specs.LaxSliced.{lax_ipv4_layers, lax_ipv6_layers, lax_layers_in, lax_message_at};
ghost use Rattle.ep_packet.specs.LaxSliced.{ipv6_exts_stop, lax_transport_in, message_layer, no_layers, of_auth, of_exts};
ghost use Rattle.ep_packet.specs.LaxSliced.{of_ipv4_header, of_ipv6_exts, of_ipv6_header};
ghost use Rattle.ep_packet.specs.SliceFault.{fault_offset};
ghost use Rattle.ep_packet.specs.Sliced.{read_transport};

use crate::err::packet::SliceError;
use crate::layer_slices::{len_of_ipv4, len_of_ipv6, read_transport};
use crate::{LaxNetSlice, TransportSlice, slice_fault};
use ep_base::err::Layer;
use ep_base::{EtherType, IpNumber};
use ep_ext::err::{ip_auth, ip_exts, ipv6_exts};
use ep_ip::err::{ipv4, ipv6};
use ep_ipslice::{LaxIpPayloadSlice, LaxIpSlice, LaxIpv4Slice, LaxIpv6Slice, laws};
use ep_link::ArpPacketSlice;
use ep_tag::LaxEtherPayloadSlice;
use ep_tcpudp::UdpSlice;
use std::marker::Model;

/// The packet of the network layer, the message in it, and what stopped, with its layer.
#[derive(Drop)]
pub(crate) struct LaxLayerSlices<'a> {
    pub net: Option<LaxNetSlice<'a>>,
    pub transport: Option<TransportSlice<'a>>,
    pub stop: Option<(SliceError, Layer)>,
}

impl<'a> Model for LaxLayerSlices<'a> {
    ghost Value = { LaxLayers };

    ghost view = { λ layers. record {
      net = layers.net;
      transport = layers.transport;
      stop = layers.stop;
    } };
}

impl<'a> LaxLayerSlices<'a> {
    /// The layers in what an ether type names: none if nothing is named.
    pub(crate) fn from_ether_payload(payload: &Option<LaxEtherPayloadSlice<'a>>) -> Self
        ensures layers { result ≡ lax_layers_in payload.now }
        ensures offset { IfSome payload.now (λ p. IfSome result.stop (Moves (length p.payload))) }
    {
        laws::lax_faults_can_be_moved();
        let Some(payload) = payload else {
            return Self::none(None);
        };
        match payload.ether_type {
            EtherType::IPV4 => Self::from_ipv4(payload.payload),
            EtherType::IPV6 => Self::from_ipv6(payload.payload),
            EtherType::ARP => Self::from_arp(payload.payload),
            _ => Self::none(None),
        }
    }

    /// The layers in an IP packet of either version, unless a fault of its extension headers
    /// stopped these.
    pub(crate) fn from_ip(
        packet: LaxIpSlice<'a>,
        stop: Option<(ip_exts::HeadersSliceError, Layer)>,
    ) -> Self
        ensures { result ≡ in_lax_ip packet.entry (option_map exts_stop stop) }
    {
        let stop = match stop {
            Some((error, layer)) => Some((of_exts(error), layer)),
            None => None,
        };
        match packet {
            LaxIpSlice::Ipv4(packet) => Self::in_ipv4(packet, stop),
            LaxIpSlice::Ipv6(packet) => Self::in_ipv6(packet, stop),
        }
    }

    fn none(stop: Option<(SliceError, Layer)>) -> Self
        ensures { result ≡ no_layers stop }
    {
        LaxLayerSlices {
            net: None,
            transport: None,
            stop,
        }
    }

    fn from_arp(slice: &'a [u8]) -> Self
        ensures { result ≡ lax_arp_layers (packet_at slice.now) }
    {
        match ArpPacketSlice::from_slice(slice) {
            Ok(packet) => LaxLayerSlices {
                net: Some(LaxNetSlice::Arp(packet)),
                transport: None,
                stop: None,
            },
            Err(error) => Self::none(Some((SliceError::Len(error), Layer::Arp))),
        }
    }

    fn from_ipv4(slice: &'a [u8]) -> Self
        ensures { result ≡ lax_ipv4_layers (lax_ipv4_packet_at slice.now) }
    {
        match LaxIpv4Slice::from_slice(slice) {
            Ok((packet, fault)) => Self::in_ipv4(packet, auth_stop(fault)),
            Err(error) => Self::none(Some((of_ipv4_header(error), Layer::Ipv4Header))),
        }
    }

    fn from_ipv6(slice: &'a [u8]) -> Self
        ensures { result ≡ lax_ipv6_layers (lax_ipv6_packet_at slice.now) }
    {
        match LaxIpv6Slice::from_slice(slice) {
            Ok((packet, fault)) => Self::in_ipv6(packet, exts_stop(fault)),
            Err(error) => Self::none(Some((of_ipv6_header(error), Layer::Ipv6Header))),
        }
    }

    fn in_ipv4(packet: LaxIpv4Slice<'a>, stop: Option<(SliceError, Layer)>) -> Self
        ensures { result ≡ in_lax_ipv4 packet.entry stop }
    {
        let headers_len = len_of_ipv4(packet.header(), packet.extensions());
        let (transport, stop) = transport_in(packet.payload(), headers_len, stop);
        LaxLayerSlices {
            net: Some(LaxNetSlice::Ipv4(packet)),
            transport,
            stop,
        }
    }

    fn in_ipv6(packet: LaxIpv6Slice<'a>, stop: Option<(SliceError, Layer)>) -> Self
        ensures { result ≡ in_lax_ipv6 packet.entry stop }
    {
        let headers_len = len_of_ipv6(packet.header(), packet.extensions());
        let (transport, stop) = transport_in(packet.payload(), headers_len, stop);
        LaxLayerSlices {
            net: Some(LaxNetSlice::Ipv6(packet)),
            transport,
            stop,
        }
    }
}

/// The message in the payload after so many bytes of headers, or what stops there, unless the headers
/// were stopped.
#[inline(always)]
pub(crate) fn transport_in<'a>(
    payload: &LaxIpPayloadSlice<'a>,
    headers_len: usize,
    stop: Option<(SliceError, Layer)>,
) -> (Option<TransportSlice<'a>>, Option<(SliceError, Layer)>)
    ensures { result ≡ lax_transport_in headers_len (lax_value payload.now).1 stop }
{
    if stop.is_some() {
        return (None, stop);
    }
    if payload.fragmented {
        return (None, None);
    }
    match read_transport_lax(payload.ip_number, payload.payload) {
        Ok(transport) => (transport, None),
        Err(error) => {
            let error = slice_fault::within(error, payload.len_source);
            let error = slice_fault::moved(error, headers_len);
            (None, Some((error, message_layer(payload.ip_number))))
        }
    }
}

// The message that bytes with this IP number are, if its protocol is known: of a UDP datagram what is
// there.
fn read_transport_lax(
    ip_number: IpNumber,
    payload: &[u8],
) -> Result<Option<TransportSlice<'_>>, SliceError>
    ensures message { result ≡ read_transport (lax_message_at ip_number.0 payload.now) }
    ensures offset { IfErr result (λ e. fault_offset e ≡ 0) }
{
    match ip_number {
        IpNumber::UDP => match UdpSlice::from_slice_lax(payload) {
            Ok(datagram) => Ok(Some(TransportSlice::Udp(datagram))),
            Err(error) => Err(SliceError::Len(error)),
        },
        ip_number => read_transport(ip_number, payload),
    }
}

fn message_layer(ip_number: IpNumber) -> Layer
    ensures { result ≡ message_layer ip_number.0 }
{
    match ip_number {
        IpNumber::ICMP => Layer::Icmpv4,
        IpNumber::TCP => Layer::TcpHeader,
        IpNumber::UDP => Layer::UdpHeader,
        _ => Layer::Icmpv6,
    }
}

/// Why there is no IPv4 header, as a fault of all layers.
pub(crate) fn of_ipv4_header(error: ipv4::HeaderSliceError) -> SliceError
    ensures { result ≡ of_ipv4_header error }
{
    match error {
        ipv4::HeaderSliceError::Len(error) => SliceError::Len(error),
        ipv4::HeaderSliceError::Content(error) => SliceError::Ipv4(error),
    }
}

/// Why there is no IPv6 header, as a fault of all layers.
pub(crate) fn of_ipv6_header(error: ipv6::HeaderSliceError) -> SliceError
    ensures { result ≡ of_ipv6_header error }
{
    match error {
        ipv6::HeaderSliceError::Len(error) => SliceError::Len(error),
        ipv6::HeaderSliceError::Content(error) => SliceError::Ipv6(error),
    }
}

/// What stopped the headers of an IPv4 packet, with its layer.
pub(crate) fn auth_stop(fault: Option<ip_auth::HeaderSliceError>) -> Option<(SliceError, Layer)>
    ensures { result ≡ option_map auth_stop fault }
{
    match fault {
        Some(error) => Some((of_auth(error), Layer::IpAuthHeader)),
        None => None,
    }
}

/// What stopped the headers of an IPv6 packet, with its layer.
pub(crate) fn exts_stop(
    fault: Option<(ipv6_exts::HeaderSliceError, Layer)>,
) -> Option<(SliceError, Layer)>
    ensures { result ≡ option_map ipv6_exts_stop fault }
{
    match fault {
        Some((error, layer)) => Some((of_ipv6_exts(error), layer)),
        None => None,
    }
}

fn of_auth(error: ip_auth::HeaderSliceError) -> SliceError
    ensures { result ≡ of_auth error }
{
    match error {
        ip_auth::HeaderSliceError::Len(error) => SliceError::Len(error),
        ip_auth::HeaderSliceError::Content(error) => SliceError::Ipv4Exts(error),
    }
}

fn of_ipv6_exts(error: ipv6_exts::HeaderSliceError) -> SliceError
    ensures { result ≡ of_ipv6_exts error }
{
    match error {
        ipv6_exts::HeaderSliceError::Len(error) => SliceError::Len(error),
        ipv6_exts::HeaderSliceError::Content(error) => SliceError::Ipv6Exts(error),
    }
}

fn of_exts(error: ip_exts::HeadersSliceError) -> SliceError
    ensures { result ≡ of_exts error }
{
    match error {
        ip_exts::HeadersSliceError::Len(error) => SliceError::Len(error),
        ip_exts::HeadersSliceError::Content(ip_exts::HeaderError::Ipv4Ext(error)) => {
            SliceError::Ipv4Exts(error)
        }
        ip_exts::HeadersSliceError::Content(ip_exts::HeaderError::Ipv6Ext(error)) => {
            SliceError::Ipv6Exts(error)
        }
    }
}
