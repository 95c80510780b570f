//! The network layer and the transport layer in a payload.
ghost use Rattle.std.specs.Prelude.{◌≡◌, ◌<◌, ◌+◌, ◌^◌, ℕ, length, IfErr, IfOk, IfSome};
ghost use Rattle.ep_link.specs.Arp.{packet_at};
ghost use Rattle.ep_ext.specs.Ipv4Exts.{auth_bytes};
ghost use Rattle.ep_ipslice.specs.IpSlice.{ip_packet_at};
ghost use Rattle.ep_ipslice.specs.Ipv4Packet.{ipv4_packet_at};
ghost use Rattle.ep_ipslice.specs.Ipv6Packet.{ipv6_packet_at};
ghost use Rattle.ep_ipslice.specs.Packet.{IsIpv4Packet, IsIpv6Packet};
ghost use Rattle.ep_packet.specs.Parts.{IsAt, LayersIn, transport_bytes};
ghost use Rattle.ep_packet.specs.Readable.{message_at};
ghost use Rattle.ep_packet.specs.SliceFault.{fault_offset};
ghost use Rattle.ep_packet.specs.Sliced.{Layers, in_ipv4, in_ipv6, ip_layers, arp_layers, ipv4_layers};
ghost use Rattle.ep_packet.specs.Sliced.{ipv6_layers, read_transport, transport_in};

use crate::err::packet::SliceError;
use crate::{NetSlice, TransportSlice, slice_fault};
use ep_base::IpNumber;
use ep_icmp::{Icmpv4Slice, Icmpv6Slice};
use ep_ip::{Ipv4HeaderSlice, Ipv6HeaderSlice};
use ep_ipslice::{
    IpPayloadSlice, IpSlice, Ipv4ExtensionsSlice, Ipv4Slice, Ipv6ExtensionsSlice, Ipv6Slice, laws,
};
use ep_link::ArpPacketSlice;
use ep_link::laws::arp::packets_are_found;
use ep_tcpudp::{TcpSlice, UdpSlice};
use std::marker::Model;

/// The packet of the network layer and the message in it.
#[derive(Drop)]
pub(crate) struct LayerSlices<'a> {
    pub net: Option<NetSlice<'a>>,
    pub transport: Option<TransportSlice<'a>>,
}

impl<'a> Model for LayerSlices<'a> {
    ghost Value = { Layers };

    ghost view = { λ layers. record { net = layers.net; transport = layers.transport } };
}

impl<'a> LayerSlices<'a> {
    /// An ARP packet, which is the only layer.
    pub(crate) fn from_arp(slice: &'a [u8]) -> Result<LayerSlices<'a>, SliceError>
        ensures layers { result ≡ arp_layers (packet_at slice.now) }
        ensures parts { IfOk result (λ layers. LayersIn slice.now 0 layers) }
        ensures offset { IfErr result (λ e. (n : ℕ) → length slice.now + n < 2 ^ 64
            → fault_offset e + n < 2 ^ 64) }
    {
        packets_are_found();
        match ArpPacketSlice::from_slice(slice) {
            Ok(packet) => Ok(LayerSlices {
                net: Some(NetSlice::Arp(packet)),
                transport: None,
            }),
            Err(error) => Err(SliceError::Len(error)),
        }
    }

    /// The layers in an IPv4 packet.
    pub(crate) fn from_ipv4(slice: &'a [u8]) -> Result<LayerSlices<'a>, SliceError>
        ensures layers { result ≡ ipv4_layers (ipv4_packet_at slice.now) }
        ensures parts { IfOk result (λ layers. LayersIn slice.now 0 layers) }
        ensures offset { IfErr result (λ e. (n : ℕ) → length slice.now + n < 2 ^ 64
            → fault_offset e + n < 2 ^ 64) }
    {
        laws::faults_can_be_moved();
        match Ipv4Slice::from_slice(slice) {
            Ok(packet) => Self::in_ipv4(packet, slice),
            Err(error) => Err(slice_fault::of_ipv4(error)),
        }
    }

    /// The layers in an IPv6 packet.
    pub(crate) fn from_ipv6(slice: &'a [u8]) -> Result<LayerSlices<'a>, SliceError>
        ensures layers { result ≡ ipv6_layers (ipv6_packet_at slice.now) }
        ensures parts { IfOk result (λ layers. LayersIn slice.now 0 layers) }
        ensures offset { IfErr result (λ e. (n : ℕ) → length slice.now + n < 2 ^ 64
            → fault_offset e + n < 2 ^ 64) }
    {
        laws::faults_can_be_moved();
        match Ipv6Slice::from_slice(slice) {
            Ok(packet) => Self::in_ipv6(packet, slice),
            Err(error) => Err(slice_fault::of_ipv6(error)),
        }
    }

    /// The layers in an IP packet of either version.
    pub(crate) fn from_ip(slice: &'a [u8]) -> Result<LayerSlices<'a>, SliceError>
        ensures layers { result ≡ ip_layers (ip_packet_at slice.now) }
        ensures parts { IfOk result (λ layers. LayersIn slice.now 0 layers) }
        ensures offset { IfErr result (λ e. (n : ℕ) → length slice.now + n < 2 ^ 64
            → fault_offset e + n < 2 ^ 64) }
    {
        laws::faults_can_be_moved();
        match IpSlice::from_slice(slice) {
            Ok(IpSlice::Ipv4(packet)) => Self::in_ipv4(packet, slice),
            Ok(IpSlice::Ipv6(packet)) => Self::in_ipv6(packet, slice),
            Err(error) => Err(slice_fault::of_ip(error)),
        }
    }

    fn in_ipv4(packet: Ipv4Slice<'a>, slice: &'a [u8]) -> Result<LayerSlices<'a>, SliceError>
        requires { IsIpv4Packet slice.now packet }
        ensures layers { result ≡ in_ipv4 packet.entry }
        ensures parts { IfOk result (λ layers. LayersIn slice.now 0 layers) }
        ensures offset { IfErr result (λ e. (n : ℕ) → length slice.now + n < 2 ^ 64
            → fault_offset e + n < 2 ^ 64) }
    {
        let transport = match transport_in(packet.payload()) {
            Ok(transport) => transport,
            Err(error) => {
                return Err(slice_fault::moved(error, ipv4_headers_len(&packet)));
            }
        };
        Ok(LayerSlices {
            net: Some(NetSlice::Ipv4(packet)),
            transport,
        })
    }

    fn in_ipv6(packet: Ipv6Slice<'a>, slice: &'a [u8]) -> Result<LayerSlices<'a>, SliceError>
        requires { IsIpv6Packet slice.now packet }
        ensures layers { result ≡ in_ipv6 packet.entry }
        ensures parts { IfOk result (λ layers. LayersIn slice.now 0 layers) }
        ensures offset { IfErr result (λ e. (n : ℕ) → length slice.now + n < 2 ^ 64
            → fault_offset e + n < 2 ^ 64) }
    {
        let transport = match transport_in(packet.payload()) {
            Ok(transport) => transport,
            Err(error) => {
                return Err(slice_fault::moved(error, ipv6_headers_len(&packet)));
            }
        };
        Ok(LayerSlices {
            net: Some(NetSlice::Ipv6(packet)),
            transport,
        })
    }
}

// The number of bytes before the payload.
fn ipv4_headers_len(packet: &Ipv4Slice<'_>) -> usize
    ensures { result ≡ length packet.now.header + length (auth_bytes packet.now.auth) }
{
    len_of_ipv4(packet.header(), packet.extensions())
}

fn ipv6_headers_len(packet: &Ipv6Slice<'_>) -> usize
    ensures { result ≡ length packet.now.header + length packet.now.exts.slice }
{
    len_of_ipv6(packet.header(), packet.extensions())
}

/// The length in bytes of an IPv4 header and of its authentication header.
pub(crate) fn len_of_ipv4(header: &Ipv4HeaderSlice<'_>, exts: &Ipv4ExtensionsSlice<'_>) -> usize
    ensures { result ≡ length header.now + length (auth_bytes exts.now.auth) }
{
    let header_len = header.slice().len();
    match &exts.auth {
        Some(auth) => header_len + auth.slice().len(),
        None => header_len,
    }
}

/// The length in bytes of an IPv6 header and of its extension headers.
pub(crate) fn len_of_ipv6(header: &Ipv6HeaderSlice<'_>, exts: &Ipv6ExtensionsSlice<'_>) -> usize
    ensures { result ≡ length header.now + length exts.now.slice }
{
    header.slice().len() + exts.slice().len()
}

// The message in the payload. None if the payload is a fragment or of a protocol that isn't read.
#[inline(always)]
fn transport_in<'a>(payload: &IpPayloadSlice<'a>) -> Result<Option<TransportSlice<'a>>, SliceError>
    ensures message { result ≡ transport_in payload.now }
    ensures parts { IfOk result
        (λ o. IfSome o (λ message. IsAt payload.now.payload 0 (transport_bytes message))) }
    ensures offset { IfErr result (λ e. fault_offset e ≡ 0) }
{
    if payload.fragmented {
        return Ok(None);
    }
    match read_transport(payload.ip_number, payload.payload) {
        Ok(transport) => Ok(transport),
        Err(error) => Err(slice_fault::within(error, payload.len_source)),
    }
}

/// The message that bytes with this IP number are, if its protocol is known.
#[inline(always)]
pub(crate) fn read_transport(
    ip_number: IpNumber,
    payload: &[u8],
) -> Result<Option<TransportSlice<'_>>, SliceError>
    ensures { result ≡ read_transport (message_at ip_number.0 payload.now) }
{
    match ip_number {
        IpNumber::ICMP => match Icmpv4Slice::from_slice(payload) {
            Ok(message) => Ok(Some(TransportSlice::Icmpv4(message))),
            Err(error) => Err(SliceError::Len(error)),
        },
        IpNumber::TCP => match TcpSlice::from_slice(payload) {
            Ok(segment) => Ok(Some(TransportSlice::Tcp(segment))),
            Err(error) => Err(slice_fault::of_tcp(error)),
        },
        IpNumber::UDP => match UdpSlice::from_slice(payload) {
            Ok(datagram) => Ok(Some(TransportSlice::Udp(datagram))),
            Err(error) => Err(SliceError::Len(error)),
        },
        IpNumber::IPV6_ICMP => match Icmpv6Slice::from_slice(payload) {
            Ok(message) => Ok(Some(TransportSlice::Icmpv6(message))),
            Err(error) => Err(SliceError::Len(error)),
        },
        _ => Ok(None),
    }
}
