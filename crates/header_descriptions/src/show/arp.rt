//! ARP packets (RFC 826).

use crate::show::addresses;
use crate::show::line::Line;
use crate::show::style::Tone;
use ep_base::EtherType;
use ep_link::{ArpHardwareId, ArpOperation, ArpPacketSlice};
use std::alloc::AllocError;

/// A packet. It has no contract: tests compare the texts.
pub fn arp(line: &mut Line<'_>, packet: &ArpPacketSlice<'_>) -> Result<(), AllocError> {
    line.toned(Tone::Protocol, "ARP")?;
    let sender = <[u8; 4]>::try_from(packet.sender_protocol_addr());
    let target = <[u8; 4]>::try_from(packet.target_protocol_addr());
    let (EtherType::IPV4, Ok(sender), Ok(target)) = (packet.proto_addr_type(), sender, target)
    else {
        return other_arp(line, packet);
    };
    match packet.operation() {
        ArpOperation::REQUEST => request(line, &target, &sender),
        ArpOperation::REPLY => reply(line, &sender, packet.sender_hw_addr()),
        _ => other_arp(line, packet),
    }
}

fn request(line: &mut Line<'_>, target: &[u8; 4], sender: &[u8; 4]) -> Result<(), AllocError> {
    line.text(" who has ")?;
    addresses::ipv4(line, target)?;
    line.text("? tell ")?;
    addresses::ipv4(line, sender)
}

fn reply(line: &mut Line<'_>, sender: &[u8; 4], hardware: &[u8]) -> Result<(), AllocError> {
    line.text(" ")?;
    addresses::ipv4(line, sender)?;
    line.text(" is at ")?;
    addresses::hardware(line, hardware)
}

fn other_arp(line: &mut Line<'_>, packet: &ArpPacketSlice<'_>) -> Result<(), AllocError> {
    line.counted(" operation ", packet.operation().0.into())?;
    match packet.hw_addr_type() {
        ArpHardwareId::ETHERNET => {}
        other => line.counted(" hardware type ", other.0.into())?,
    }
    arp_ends(line, packet)
}

// The sender and the target: their hardware addresses, and those of IPv4.
fn arp_ends(line: &mut Line<'_>, packet: &ArpPacketSlice<'_>) -> Result<(), AllocError> {
    let is_ipv4 = packet.proto_addr_type() == EtherType::IPV4;
    line.text(" from")?;
    arp_hardware(line, packet.sender_hw_addr())?;
    if is_ipv4 {
        arp_ipv4(line, packet.sender_protocol_addr())?;
    }
    line.text(" to")?;
    arp_hardware(line, packet.target_hw_addr())?;
    if is_ipv4 {
        arp_ipv4(line, packet.target_protocol_addr())?;
    }
    Ok(())
}

fn arp_hardware(line: &mut Line<'_>, address: &[u8]) -> Result<(), AllocError> {
    if address.is_empty() {
        return Ok(());
    }
    line.text(" ")?;
    addresses::hardware(line, address)
}

fn arp_ipv4(line: &mut Line<'_>, address: &[u8]) -> Result<(), AllocError> {
    match <[u8; 4]>::try_from(address) {
        Ok(address) => {
            line.text(" ")?;
            addresses::ipv4(line, &address)
        }
        Err(_) => Ok(()),
    }
}
