//! VLAN tags and ARP.

use etherparse::{ArpOperation, ArpPacket, NetSlice, SlicedPacket};
use std::alloc::Global;

/// Prints the VLAN tags of a frame, outer one first.
/// It has no contract: what the program prints is compared with what is stored.
pub fn print_tags(rt: &impl Print, frame: &[u8]) -> anyhow::Result<()> {
    let packet = SlicedPacket::from_ethernet(frame)?;
    for id in &packet.vlan_ids() {
        println!(rt; "VLAN {id}")?;
    }
    Ok(())
}

/// The ARP packet that answers the request in a frame, if there is one: it gives the sender a hardware
/// address. It has no contract: what the program prints is compared with what is stored.
pub fn reply(
    alloc: Global,
    frame: &[u8],
    hardware_address: [u8; 6],
) -> anyhow::Result<Option<Vec<u8>>> {
    let packet = SlicedPacket::from_ethernet(frame)?;
    let question = match &packet.net {
        Some(NetSlice::Arp(arp)) if arp.operation() == ArpOperation::REQUEST => arp,
        _ => return Ok(None),
    };
    let reply = ArpPacket::new(
        question.hw_addr_type(),
        question.proto_addr_type(),
        ArpOperation::REPLY,
        &hardware_address,
        question.target_protocol_addr(),
        question.sender_hw_addr(),
        question.sender_protocol_addr(),
    )?;
    let mut bytes = Vec::new(alloc);
    reply.write(&mut bytes)?;
    Ok(Some(bytes))
}
