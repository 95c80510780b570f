//! The protocols by which packets are distinguished.

use crate::ip_names::{ip_number_name, ip_number_named};
use ep_base::IpNumber;
use std::fmt;

/// A protocol of which a packet has a header, or which the datagram carries of which it is a
/// fragment.
#[derive(Clone, Copy, Debug, PartialEq, Eq)]
pub enum Protocol {
    /// The packet was captured as an Ethernet frame.
    Ethernet,
    /// A VLAN tag (IEEE 802.1Q).
    Vlan,
    /// A MACsec header (IEEE 802.1AE).
    Macsec,
    /// ARP (RFC 826).
    Arp,
    /// IPv4 (RFC 791).
    Ipv4,
    /// IPv6 (RFC 8200).
    Ipv6,
    /// The protocol with this number, after the IP header and its extension headers.
    OverIp(IpNumber),
}

impl Protocol {
    /// The protocol of this name, in letters of either case: `eth` or `ethernet`, `vlan`, `macsec`,
    /// `arp`, `ip4` or `ipv4`, `ip6` or `ipv6`, or a number or name that
    /// [`ip_number_named`](crate::ip_number_named) takes. It has no contract: tests compare the
    /// texts.
    pub fn named(name: &str) -> Option<Protocol> {
        if name.eq_ignore_ascii_case("eth") || name.eq_ignore_ascii_case("ethernet") {
            Some(Protocol::Ethernet)
        } else if name.eq_ignore_ascii_case("vlan") {
            Some(Protocol::Vlan)
        } else if name.eq_ignore_ascii_case("macsec") {
            Some(Protocol::Macsec)
        } else if name.eq_ignore_ascii_case("arp") {
            Some(Protocol::Arp)
        } else if name.eq_ignore_ascii_case("ip4") || name.eq_ignore_ascii_case("ipv4") {
            Some(Protocol::Ipv4)
        } else if name.eq_ignore_ascii_case("ip6") || name.eq_ignore_ascii_case("ipv6") {
            Some(Protocol::Ipv6)
        } else {
            match ip_number_named(name) {
                Some(number) => Some(Protocol::OverIp(number)),
                None => None,
            }
        }
    }
}

/// It has no contract: tests compare the texts.
impl fmt::Display for Protocol {
    fn fmt<W: fmt::Write>(&self, f: &mut fmt::Formatter<W>) -> fmt::Result {
        match self {
            Protocol::Ethernet => f.write_str("Ethernet"),
            Protocol::Vlan => f.write_str("VLAN"),
            Protocol::Macsec => f.write_str("MACsec"),
            Protocol::Arp => f.write_str("ARP"),
            Protocol::Ipv4 => f.write_str("IPv4"),
            Protocol::Ipv6 => f.write_str("IPv6"),
            Protocol::OverIp(number) => match ip_number_name(*number) {
                Some(name) => f.write_str(name),
                None => {
                    let number = number.0;
                    write!(f, "IP protocol {number}")
                }
            },
        }
    }
}
