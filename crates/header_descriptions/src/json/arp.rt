//! ARP packets (RFC 826).

use crate::json::fields::{Hex, begin, hardware, ipv4_address, numbers, printed};
use ep_base::EtherType;
use ep_link::ArpPacketSlice;
use serde::Serializer;

/// A packet. It has no contract: tests compare the texts.
pub fn arp<S: Serializer>(out: &mut S, packet: &ArpPacketSlice<'_>) -> Result<(), S::Error> {
    begin(out, "Arp")?;
    let members = [
        ("hw_addr_type", packet.hw_addr_type().0.into()),
        ("proto_addr_type", packet.proto_addr_type().0.into()),
        ("operation", packet.operation().0.into()),
    ];
    numbers(out, &members)?;
    hardware(out, "sender_hw_addr", packet.sender_hw_addr())?;
    protocol_address(
        out,
        "sender_protocol_addr",
        packet,
        packet.sender_protocol_addr(),
    )?;
    hardware(out, "target_hw_addr", packet.target_hw_addr())?;
    protocol_address(
        out,
        "target_protocol_addr",
        packet,
        packet.target_protocol_addr(),
    )?;
    out.end_map()
}

// An address of the protocol that the packet names: over IPv4 in its usual text, else in hex.
fn protocol_address<S: Serializer>(
    out: &mut S,
    name: &str,
    packet: &ArpPacketSlice<'_>,
    address: &[u8],
) -> Result<(), S::Error> {
    match (packet.proto_addr_type(), <[u8; 4]>::try_from(address)) {
        (EtherType::IPV4, Ok(address)) => ipv4_address(out, name, address),
        _ => printed(out, name, &Hex(address)),
    }
}
