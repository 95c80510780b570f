//! What conditions and conversations read of the header of a TCP, UDP or SCTP message.
ghost use Rattle.std.specs.Prelude.{◌≡◌};
ghost use Rattle.ep_packet.specs.Readable.{message_at};
ghost use Rattle.packets.specs.MessageHeaders.{completed_header, datagram_header, lax_net_header};
ghost use Rattle.packets.specs.MessageHeaders.{lax_packet_header, message_header, net_header, packet_header};
ghost use Rattle.packets.specs.MessageHeaders.{ports_header, ports_of, raw_header, sctp_header, segment_header};
ghost use Rattle.packets.specs.MessageHeaders.{transport_header, whole_header};
ghost use Rattle.packets.specs.LaxLayers.{lax_layers_of};

use crate::unread_message::sctp_ports;
use crate::{Dissection, Fragment};
use ep_base::IpNumber;
use ep_ipslice::{IpPayloadSlice, LaxIpPayloadSlice};
use ep_packet::{LaxNetSlice, LaxSlicedPacket, Message, NetSlice, TransportSlice, read_message};
use ep_tcpudp::{TcpSlice, UdpSlice};
use etherparse::defrag::IpDefragPayloadVec;

/// What conditions and conversations read of the header of a TCP, UDP or SCTP message.
#[derive(Clone, Copy)]
pub(crate) struct MessageHeader {
    pub source_port: u16,
    pub destination_port: u16,
    pub fin: bool,
    pub syn: bool,
    pub rst: bool,
    pub ack: bool,
    pub sequence_number: u32,
    pub acknowledgment_number: u32,
}

impl MessageHeader {
    /// That of a packet, or of the message that it completes, if it is there.
    pub(crate) fn of(dissection: &Dissection<'_>) -> Option<MessageHeader>
        ensures { result ≡ message_header dissection.now.layers
            (lax_layers_of dissection.now.header dissection.now.bytes) dissection.now.fragment }
    {
        match &dissection.fragment {
            Some(Fragment::Completes { message, .. }) => completed_header(message),
            _ => packet_header(dissection),
        }
    }
}

fn completed_header(message: &IpDefragPayloadVec) -> Option<MessageHeader>
    ensures { result ≡ completed_header message.now.ip_number.0
        (message_at message.now.ip_number.0 message.now.payload.items) }
{
    match read_message(message.ip_number, message.payload.as_slice()) {
        Ok(Message::Tcp(segment)) => Some(segment_header(&segment)),
        Ok(Message::Udp(datagram)) => Some(datagram_header(&datagram)),
        Ok(Message::Raw(bytes)) => raw_header(message.ip_number, bytes),
        _ => None,
    }
}

fn packet_header(dissection: &Dissection<'_>) -> Option<MessageHeader>
    ensures { result ≡ packet_header dissection.now.layers
        (lax_layers_of dissection.now.header dissection.now.bytes) }
{
    match &dissection.layers {
        Ok(packet) => match &packet.transport {
            Some(transport) => transport_header(transport),
            None => net_header(&packet.net),
        },
        Err(_) => lax_packet_header(&dissection.lax_layers()),
    }
}

fn lax_packet_header(layers: &Option<LaxSlicedPacket<'_>>) -> Option<MessageHeader>
    ensures { result ≡ lax_packet_header layers.now }
{
    match layers {
        Some(packet) => match &packet.transport {
            Some(transport) => transport_header(transport),
            None => lax_net_header(&packet.net),
        },
        None => None,
    }
}

fn transport_header(transport: &TransportSlice<'_>) -> Option<MessageHeader>
    ensures { result ≡ transport_header transport.now }
{
    match transport {
        TransportSlice::Tcp(segment) => Some(segment_header(segment)),
        TransportSlice::Udp(datagram) => Some(datagram_header(datagram)),
        _ => None,
    }
}

// That of a message that isn't read further, in an IP packet that is no fragment.
fn net_header(net: &Option<NetSlice<'_>>) -> Option<MessageHeader>
    ensures { result ≡ net_header net.now }
{
    match net {
        Some(NetSlice::Ipv4(packet)) => whole_header(packet.payload()),
        Some(NetSlice::Ipv6(packet)) => whole_header(packet.payload()),
        _ => None,
    }
}

fn whole_header(payload: &IpPayloadSlice<'_>) -> Option<MessageHeader>
    ensures { result ≡ whole_header payload.now.fragmented payload.now.ip_number.0 payload.now.payload }
{
    if payload.fragmented {
        None
    } else {
        raw_header(payload.ip_number, payload.payload)
    }
}

fn lax_net_header(net: &Option<LaxNetSlice<'_>>) -> Option<MessageHeader>
    ensures { result ≡ lax_net_header net.now }
{
    match net {
        Some(LaxNetSlice::Ipv4(packet)) => lax_whole_header(packet.payload()),
        Some(LaxNetSlice::Ipv6(packet)) => lax_whole_header(packet.payload()),
        _ => None,
    }
}

fn lax_whole_header(payload: &LaxIpPayloadSlice<'_>) -> Option<MessageHeader>
    ensures { result ≡ whole_header payload.now.fragmented payload.now.ip_number.0 payload.now.payload.now }
{
    if payload.fragmented {
        None
    } else {
        raw_header(payload.ip_number, payload.payload)
    }
}

// Of SCTP the ports (RFC 9260, section 3.1).
fn raw_header(number: IpNumber, bytes: &[u8]) -> Option<MessageHeader>
    ensures { result ≡ raw_header number.0 bytes.now }
{
    if number == IpNumber::SCTP {
        sctp_header(bytes)
    } else {
        None
    }
}

fn sctp_header(bytes: &[u8]) -> Option<MessageHeader>
    ensures { result ≡ sctp_header bytes.now }
{
    match sctp_ports(bytes) {
        Some(ports) => Some(ports_header(ports.source, ports.destination)),
        None => None,
    }
}

fn segment_header(segment: &TcpSlice<'_>) -> MessageHeader
    ensures { result ≡ segment_header segment.now }
{
    MessageHeader {
        source_port: segment.source_port(),
        destination_port: segment.destination_port(),
        fin: segment.fin(),
        syn: segment.syn(),
        rst: segment.rst(),
        ack: segment.ack(),
        sequence_number: segment.sequence_number(),
        acknowledgment_number: segment.acknowledgment_number(),
    }
}

fn datagram_header(datagram: &UdpSlice<'_>) -> MessageHeader
    ensures { result ≡ datagram_header datagram.now }
{
    ports_header(datagram.source_port(), datagram.destination_port())
}

// A header without flags and numbers of its own.
fn ports_header(source_port: u16, destination_port: u16) -> MessageHeader
    ensures { result ≡ ports_header source_port destination_port }
{
    MessageHeader {
        source_port,
        destination_port,
        fin: false,
        syn: false,
        rst: false,
        ack: false,
        sequence_number: 0,
        acknowledgment_number: 0,
    }
}

/// The ports, if the header is there.
pub(crate) fn ports_of(header: Option<MessageHeader>) -> Option<(u128, u128)>
    ensures { result ≡ ports_of header }
{
    match header {
        Some(header) => Some((
            u128::from(header.source_port),
            u128::from(header.destination_port),
        )),
        None => None,
    }
}
