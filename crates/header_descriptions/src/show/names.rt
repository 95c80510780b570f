//! Protocols by their usual names.

use crate::ip_names::ip_number_name;
use crate::show::line::Line;
use crate::show::style::Tone;
use ep_base::{EtherType, IpNumber};
use std::alloc::AllocError;

/// The name of the protocol that an IP header names, or its number. It has no contract: tests
/// compare the texts.
pub fn protocol(line: &mut Line<'_>, number: IpNumber) -> Result<(), AllocError> {
    line.begin_tone(Tone::Protocol)?;
    match ip_number_name(number) {
        Some(name) => line.text(name)?,
        None => line.counted("protocol ", number.0.into())?,
    }
    line.end_tone()
}

/// The name of the protocol that an ether type names, or its number. Up to 1500 it is a length, and
/// what follows is of IEEE 802.2. It has no contract: tests compare the texts.
pub fn ether_type(line: &mut Line<'_>, ether_type: EtherType) -> Result<(), AllocError> {
    line.begin_tone(Tone::Protocol)?;
    match ether_type_name(ether_type) {
        Some(name) => line.text(name)?,
        None => {
            line.text("ether type ")?;
            line.hex16(ether_type.0)?;
        }
    }
    line.end_tone()
}

fn ether_type_name(ether_type: EtherType) -> Option<&'static str> {
    match ether_type.0 {
        0..=1500 => Some("LLC"),
        0x0800 => Some("IPv4"),
        0x0806 => Some("ARP"),
        0x0842 => Some("Wake-on-LAN"),
        0x8035 => Some("RARP"),
        0x8100 | 0x88a8 | 0x9100 => Some("VLAN"),
        0x86dd => Some("IPv6"),
        0x8808 => Some("MAC control"),
        0x8809 => Some("slow protocol"),
        0x8847 | 0x8848 => Some("MPLS"),
        0x8863 | 0x8864 => Some("PPPoE"),
        0x888e => Some("EAPOL"),
        0x88cc => Some("LLDP"),
        0x88e5 => Some("MACsec"),
        0x88f7 => Some("PTP"),
        0x9000 => Some("loopback"),
        _ => None,
    }
}
