//! The types of ICMPv6 messages by which conditions distinguish packets.
ghost use Rattle.std.specs.Prelude.{◌≡◌};
ghost use Rattle.ep_packet.specs.Readable.{message_at};
ghost use Rattle.packets.specs.Icmpv6Types as spec;
ghost use Rattle.packets.specs.LaxLayers.{lax_layers_of};

use crate::{Dissection, Fragment};
use ep_icmp::icmpv6;
use ep_packet::{LaxSlicedPacket, Message, TransportSlice, read_message};
use etherparse::defrag::IpDefragPayloadVec;

/// The type of the ICMPv6 message of a packet, or of the one that it completes, if it is there.
pub(crate) fn icmpv6_type(dissection: &Dissection<'_>) -> Option<u8>
    ensures { result ≡ spec.icmpv6_type dissection.now.layers
        (lax_layers_of dissection.now.header dissection.now.bytes) dissection.now.fragment }
{
    match &dissection.fragment {
        Some(Fragment::Completes { message, .. }) => completed_type(message),
        _ => packet_type(dissection),
    }
}

fn completed_type(message: &IpDefragPayloadVec) -> Option<u8>
    ensures { result ≡ spec.completed_type
        (message_at message.now.ip_number.0 message.now.payload.items) }
{
    match read_message(message.ip_number, message.payload.as_slice()) {
        Ok(Message::Icmpv6(message)) => Some(message.type_u8()),
        _ => None,
    }
}

fn packet_type(dissection: &Dissection<'_>) -> Option<u8>
    ensures { result ≡ spec.packet_type dissection.now.layers
        (lax_layers_of dissection.now.header dissection.now.bytes) }
{
    match &dissection.layers {
        Ok(packet) => transport_type(&packet.transport),
        Err(_) => lax_type(&dissection.lax_layers()),
    }
}

fn lax_type(layers: &Option<LaxSlicedPacket<'_>>) -> Option<u8>
    ensures { result ≡ spec.lax_type layers.now }
{
    match layers {
        Some(packet) => transport_type(&packet.transport),
        None => None,
    }
}

fn transport_type(transport: &Option<TransportSlice<'_>>) -> Option<u8>
    ensures { result ≡ spec.transport_type transport.now }
{
    match transport {
        Some(TransportSlice::Icmpv6(message)) => Some(message.type_u8()),
        _ => None,
    }
}

/// Whether it is a type of neighbor discovery (RFC 4861, section 4).
pub(crate) fn is_ndp(type_u8: Option<u8>) -> bool
    ensures { result ≡ spec.is_ndp type_u8 }
{
    match type_u8 {
        Some(type_u8) => {
            icmpv6::TYPE_ROUTER_SOLICITATION <= type_u8 && type_u8 <= icmpv6::TYPE_REDIRECT_MESSAGE
        }
        None => false,
    }
}

/// Whether it is a type of multicast listener discovery (RFC 2710, section 3; RFC 3810, section 5.2).
pub(crate) fn is_mld(type_u8: Option<u8>) -> bool
    ensures { result ≡ spec.is_mld type_u8 }
{
    match type_u8 {
        Some(type_u8) => {
            (icmpv6::TYPE_MULTICAST_LISTENER_QUERY <= type_u8
                && type_u8 <= icmpv6::TYPE_MULTICAST_LISTENER_REDUCTION)
                || type_u8 == 143
        }
        None => false,
    }
}
