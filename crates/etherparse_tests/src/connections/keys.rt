//! Keys of connections: the same both ways, of all parts, by hand.

use crate::checks::{equal, fail, holds_in};
use arrayvec::ArrayVec;
use ep_packet::SlicedPacket;
use ep_tag::VlanId;
use ep_tcpudp::TcpSlice;
use std::num::NonZeroUsize;
use tcp_streams::{Control, Direction, Endpoint, FlowKey, FlowPacket, Flows, laws};

const CLIENT: Endpoint = Endpoint::V4 {
    address: [10, 0, 0, 2],
    port: 50000,
};

const SERVER: Endpoint = Endpoint::V4 {
    address: [10, 0, 0, 1],
    port: 50001,
};
// Above all IPv4 addresses.
const OTHER: Endpoint = Endpoint::V6 {
    address: [0; 16],
    port: 1,
};

fn between(source: Endpoint, destination: Endpoint, channel: u32) -> (FlowKey<u32>, Direction) {
    let mut vlan_ids = ArrayVec::new();
    vlan_ids.push(VlanId::ZERO);
    FlowKey::between(vlan_ids, source, destination, channel)
}

#[test]
fn keys_are_the_same_both_ways(rt: HostRuntime) {
    let (there, direction) = between(CLIENT, SERVER, 3);
    let (back, other) = between(SERVER, CLIENT, 3);
    equal(&rt, direction, Direction::FromHigher);
    equal(&rt, other, Direction::FromLower);
    equal(&rt, direction.other(), other);
    holds_in(&rt, "both ways", there == back);
    equal(&rt, there.endpoints(direction), (CLIENT, SERVER));
    equal(&rt, there.endpoints(other), (SERVER, CLIENT));
    equal(&rt, *there.channel_id(), 3);
    equal(&rt, there.vlan_ids().len(), 1);
    let (channel, _) = between(CLIENT, SERVER, 4);
    holds_in(&rt, "channel", there != channel);
    let (untagged, _) = FlowKey::between(ArrayVec::new(), CLIENT, SERVER, 3);
    holds_in(&rt, "tags", there != untagged);
    let (six, direction) = between(CLIENT, OTHER, 3);
    equal(&rt, direction, Direction::FromLower);
    holds_in(&rt, "endpoint", there != six);
}

#[test]
fn flows_are_kept_by_keys(rt: HostRuntime) {
    laws::keys::keys_are_plain_data::<u32>();
    let Some(two) = NonZeroUsize::new(2) else {
        fail(&rt, "two is zero")
    };
    let Ok(mut table) = Flows::new(rt.alloc(), two) else {
        fail(&rt, "no memory")
    };
    let (one, direction) = between(CLIENT, SERVER, 3);
    let (other, _) = between(CLIENT, SERVER, 4);
    let packet = FlowPacket {
        time: 1,
        bytes: 60,
        direction,
        control: Control::Syn,
    };
    holds_in(&rt, "one", table.add(one, packet, 1u8).is_ok());
    holds_in(&rt, "other", table.add(other, packet, 2).is_ok());
    table.retain(|key, _| *key.channel_id() == 4);
    equal(&rt, table.len(), 1);
    let (kept, _) = between(CLIENT, SERVER, 4);
    equal(&rt, table.get(&kept).map(|flow| flow.value), Some(2));
}

// SYN of the client: Ethernet II, IPv4 (RFC 791) and TCP (RFC 9293), without options.
const FRAME: [u8; 54] = [
    2, 0, 0, 0, 0, 1, 2, 0, 0, 0, 0, 2, 0x08, 0x00, // to, from, IPv4
    0x45, 0, 0, 40, 0, 0, 0x40, 0, 64, 6, 0x26, 0xce, 10, 0, 0, 2, 10, 0, 0, 1, // 40 bytes, TCP
    0xc3, 0x50, 0xc3, 0x51, 0, 0, 0, 1, 0, 0, 0, 0, 0x50, 0x02, 0xff, 0xff, 0, 0, 0, 0,
];

#[test]
fn packets_have_keys(rt: HostRuntime) {
    let Ok(packet) = SlicedPacket::from_ethernet(&FRAME) else {
        fail(&rt, "the frame is refused")
    };
    let wanted = FlowKey::between(ArrayVec::new(), CLIENT, SERVER, 3);
    holds_in(&rt, "key", FlowKey::of(&packet, 3) == Some(wanted));
}

#[test]
fn segments_have_controls(rt: HostRuntime) {
    let Ok(segment) = TcpSlice::from_slice(&FRAME[34..]) else {
        fail(&rt, "the segment is refused")
    };
    equal(&rt, Control::of(&segment), Control::Syn);
}
