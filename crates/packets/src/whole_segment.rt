//! The TCP segment that a packet brings, if its IP packet is whole.
ghost use Rattle.std.specs.Prelude.{◌≡◌};
ghost use Rattle.ep_packet.specs.Readable.{message_at};
ghost use Rattle.packets.specs.Followed.{completed_segment, is_whole, layers_segment, states_length};
ghost use Rattle.packets.specs.Followed.{transport_segment, whole_segment};

use crate::{Dissection, Fragment};
use ep_packet::err::packet::SliceError;
use ep_packet::{Message, NetSlice, SlicedPacket, TransportSlice, read_message};
use ep_tcpudp::TcpSlice;
use etherparse::defrag::IpDefragPayloadVec;

/// The segment of a packet, or of the message that it completes, if its IP packet is whole.
pub(crate) fn whole_segment<'a>(packet: &'a Dissection<'_>) -> Option<TcpSlice<'a>>
    ensures { result ≡ whole_segment packet.now }
{
    if !is_whole(packet) {
        return None;
    }
    match &packet.fragment {
        Some(Fragment::Completes { message, .. }) => completed_segment(message),
        _ => layers_segment(&packet.layers),
    }
}

// Whether all bytes of its IP packet were captured.
fn is_whole(packet: &Dissection<'_>) -> bool
    ensures { result ≡ is_whole packet.now.captured_len packet.now.wire_len packet.now.layers }
{
    if !packet.is_cut() {
        return true;
    }
    match &packet.layers {
        Ok(layers) => states_length(&layers.net),
        Err(_) => false,
    }
}

// Whether an IP header states the length of its packet.
fn states_length(net: &Option<NetSlice<'_>>) -> bool
    ensures { result ≡ states_length net.now }
{
    match net {
        Some(NetSlice::Ipv4(_)) => true,
        Some(NetSlice::Ipv6(packet)) => packet.header().payload_length() != 0,
        _ => false,
    }
}

fn completed_segment(message: &IpDefragPayloadVec) -> Option<TcpSlice<'_>>
    ensures { result ≡ completed_segment
        (message_at message.now.ip_number.0 message.now.payload.items) }
{
    match read_message(message.ip_number, message.payload.as_slice()) {
        Ok(Message::Tcp(segment)) => Some(segment),
        _ => None,
    }
}

fn layers_segment<'a>(layers: &'a Result<SlicedPacket<'_>, SliceError>) -> Option<TcpSlice<'a>>
    ensures { result ≡ layers_segment layers.now }
{
    match layers {
        Ok(packet) => transport_segment(&packet.transport),
        Err(_) => None,
    }
}

fn transport_segment<'a>(transport: &'a Option<TransportSlice<'_>>) -> Option<TcpSlice<'a>>
    ensures { result ≡ transport_segment transport.now }
{
    ep_tcpudp::laws::traits::types_are_plain_data();
    match transport {
        Some(TransportSlice::Tcp(segment)) => Some(segment.clone().unwrap()),
        _ => None,
    }
}
