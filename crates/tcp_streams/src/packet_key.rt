//! The keys of packets, and what their flags do.

ghost use Rattle.std.specs.Prelude.{◌≡◌};
ghost use Rattle.tcp_streams.specs.PacketKeys.{control_of, endpoints_of, key_of};

use super::connection_state::Control;
use super::direction::Direction;
use super::endpoint::Endpoint;
use super::flow_key::FlowKey;
use ep_packet::{Addresses, Class, Message, SlicedPacket, WholeMessage};
use ep_tcpudp::TcpSlice;

impl Control {
    /// That of a segment.
    pub fn of(segment: &TcpSlice<'_>) -> Control
        ensures { result ≡ control_of segment.now }
    {
        Control::of_flags(segment.syn(), segment.ack(), segment.fin(), segment.rst())
    }
}

impl<CustomChannelId: Drop> FlowKey<CustomChannelId> {
    /// The key of a packet, and its direction. There is none where the packet has no TCP segment
    /// whose header is whole, and where it is a fragment: of what was reassembled,
    /// [`FlowKey::between`] makes the key.
    pub fn of(
        packet: &SlicedPacket<'_>,
        channel_id: CustomChannelId,
    ) -> Option<(FlowKey<CustomChannelId>, Direction)>
        ensures { result ≡ key_of packet.now channel_id }
    {
        let Class::Whole(message) = packet.class() else {
            return None;
        };
        let WholeMessage {
            addresses,
            message,
            ..
        } = message;
        let Message::Tcp(segment) = message else {
            return None;
        };
        let (source, destination) = endpoints(
            addresses,
            segment.source_port(),
            segment.destination_port(),
        );
        Some(FlowKey::between(packet.vlan_ids(), source, destination, channel_id))
    }
}

// The source and the destination of a segment with these ports.
fn endpoints(addresses: Addresses, source_port: u16, destination_port: u16) -> (Endpoint, Endpoint)
    ensures { result ≡ endpoints_of addresses source_port destination_port }
{
    match addresses {
        Addresses::V4 {
            source,
            destination,
        } => (
            Endpoint::V4 {
                address: source,
                port: source_port,
            },
            Endpoint::V4 {
                address: destination,
                port: destination_port,
            },
        ),
        Addresses::V6 {
            source,
            destination,
        } => (
            Endpoint::V6 {
                address: source,
                port: source_port,
            },
            Endpoint::V6 {
                address: destination,
                port: destination_port,
            },
        ),
    }
}
