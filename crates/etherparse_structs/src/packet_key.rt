//! The key of a packet's TCP connection, as numbers.
ghost use Rattle.std.specs.Prelude.{◌≡◌, length, min};
ghost use Rattle.etherparse_structs.specs.PacketKey.{endpoint_struct, id_at, key_struct, keyed_struct, no_endpoint, no_key};
ghost use Rattle.etherparse_structs.specs.PacketKey.{packet_key_in};

use crate::connection::direction_number;
use crate::group_record::padded;
use crate::{DONE, REFUSED};
use etherparse::err::packet::SliceError;
use etherparse::{SlicedPacket, VlanId};
use tcp_streams::{Direction, Endpoint, FlowKey};

/// A packet that has no TCP segment whose header is whole, or is a fragment.
pub const NO_SEGMENT: u32 = 6;

/// One end of a TCP connection.
#[repr(C)]
#[derive(Drop)]
pub struct EpEndpoint {
    /// The IP version: 4 or 6.
    pub version: u16,
    /// The port.
    pub port: u16,
    /// The address. One of IPv4 is filled up with 0 to 16 bytes.
    pub address: [u8; 16],
}

/// What the segments of a TCP connection have in common, whichever way they go. There is no padding:
/// keys are the same where their bytes are.
#[repr(C)]
#[derive(Drop)]
pub struct EpFlowKey {
    /// The endpoint of the lower version, else of the lower address by its bytes, else of the lower
    /// port.
    pub lower: EpEndpoint,
    /// The other endpoint.
    pub higher: EpEndpoint,
    /// The caller's channel.
    pub channel: u32,
    /// The identifiers of the VLAN tags, the outer one first. 0 where there are fewer.
    pub vlan_ids: [u16; 3],
    /// How many VLAN tags there are, 0 to 3.
    pub vlan_count: u16,
}

/// The key of a packet.
#[repr(C)]
#[derive(Drop)]
pub struct EpPacketKey {
    /// 0 where there is one, 3 where the packet is refused, 6 where it has no TCP segment whose
    /// header is whole, or is a fragment. Where it isn't 0, all other fields are.
    pub status: u32,
    /// In which direction the packet goes: 1 from the lower endpoint, 2 from the higher one.
    pub direction: u32,
    /// The key.
    pub key: EpFlowKey,
}

/// The key of a packet that bytes were sliced into, which came on this channel.
pub fn key_of_packet(sliced: Result<SlicedPacket<'_>, SliceError>, channel: u32) -> EpPacketKey
    ensures { result ≡ packet_key_in sliced.entry channel }
{
    match sliced {
        Ok(packet) => keyed_struct(FlowKey::of(&packet, channel)),
        Err(_) => no_key(REFUSED),
    }
}

fn keyed_struct(keyed: Option<(FlowKey<u32>, Direction)>) -> EpPacketKey
    ensures { result ≡ keyed_struct keyed }
{
    match keyed {
        Some((key, direction)) => EpPacketKey {
            status: DONE,
            direction: direction_number(direction),
            key: key_struct(&key),
        },
        None => no_key(NO_SEGMENT),
    }
}

fn no_key(status: u32) -> EpPacketKey
    ensures { result ≡ no_key status }
{
    EpPacketKey {
        status,
        direction: 0,
        key: EpFlowKey {
            lower: no_endpoint(),
            higher: no_endpoint(),
            channel: 0,
            vlan_ids: [0; 3],
            vlan_count: 0,
        },
    }
}

fn no_endpoint() -> EpEndpoint
    ensures { result ≡ no_endpoint }
{
    EpEndpoint {
        version: 0,
        port: 0,
        address: [0; 16],
    }
}

fn key_struct(key: &FlowKey<u32>) -> EpFlowKey
    ensures { result ≡ key_struct key.now }
{
    let (lower, higher) = key.endpoints(Direction::FromLower);
    let ids = key.vlan_ids();
    EpFlowKey {
        lower: endpoint_struct(lower),
        higher: endpoint_struct(higher),
        channel: *key.channel_id(),
        vlan_ids: [id_at(ids, 0), id_at(ids, 1), id_at(ids, 2)],
        vlan_count: tag_count(ids),
    }
}

fn endpoint_struct(endpoint: Endpoint) -> EpEndpoint
    ensures { result ≡ endpoint_struct endpoint }
{
    match endpoint {
        Endpoint::V4 { address, port } => EpEndpoint {
            version: 4,
            port,
            address: padded(address),
        },
        Endpoint::V6 { address, port } => EpEndpoint {
            version: 6,
            port,
            address,
        },
    }
}

fn id_at(ids: &[VlanId], index: usize) -> u16
    ensures { result ≡ id_at ids.now index }
{
    match ids.get(index) {
        Some(id) => id.value(),
        None => 0,
    }
}

fn tag_count(ids: &[VlanId]) -> u16
    ensures { result ≡ min (length ids.now) 3 }
{
    ids.len().min(3) as u16
}
