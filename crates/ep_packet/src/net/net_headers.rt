//! IP headers with extension headers, or ARP packets, as values.
ghost use Rattle.std.specs.Prelude.{◌≡◌};
ghost use Rattle.std.specs.Option.{option_map};
ghost use Rattle.ep_packet.specs.NetHeaders.{IsNetLinked, arp_in, ipv4_in, ipv6_in, is_arp, is_ip, is_ipv4, is_ipv6};
ghost use Rattle.ep_packet.specs.NetHeaders.{net_headers_len, of_ip};
ghost use Rattle.ep_packet.specs.declared.net.net_headers.NetHeaders.TheVariants as headers;

use super::IpHeaders;
use crate::err::net::NetSetNextHeaderError;
use ep_base::{EtherType, IpNumber};
use ep_ext::{Ipv4Extensions, Ipv6Extensions};
use ep_ip::{Ipv4Header, Ipv6Header};
use ep_link::ArpPacket;

/// The headers of the network layer: of an IP packet of either version, or an ARP packet.
#[derive(Clone, Debug, PartialEq, Eq, Drop)]
pub enum NetHeaders {
    /// Of IPv4, with its extension headers.
    Ipv4(Ipv4Header, Ipv4Extensions),
    /// Of IPv6, with its extension headers.
    Ipv6(Ipv6Header, Ipv6Extensions),
    /// An ARP packet.
    Arp(ArpPacket),
}

/// An older name of [`NetHeaders`].
pub type IpHeader = NetHeaders;

impl NetHeaders {
    /// Whether they are of an IP packet.
    pub fn is_ip(&self) -> bool
        ensures { result ≡ is_ip self.now }
    {
        matches!(self, NetHeaders::Ipv4(_, _) | NetHeaders::Ipv6(_, _))
    }

    /// Whether they are of IPv4.
    pub fn is_ipv4(&self) -> bool
        ensures { result ≡ is_ipv4 self.now }
    {
        matches!(self, NetHeaders::Ipv4(_, _))
    }

    /// Whether they are of IPv6.
    pub fn is_ipv6(&self) -> bool
        ensures { result ≡ is_ipv6 self.now }
    {
        matches!(self, NetHeaders::Ipv6(_, _))
    }

    /// Whether they are an ARP packet.
    pub fn is_arp(&self) -> bool
        ensures { result ≡ is_arp self.now }
    {
        matches!(self, NetHeaders::Arp(_))
    }

    /// The headers, if they are of IPv4.
    pub fn ipv4_ref(&self) -> Option<(&Ipv4Header, &Ipv4Extensions)>
        ensures { option_map (λ r. (r.0.now, r.1.now)) result ≡ ipv4_in self.now }
    {
        match self {
            NetHeaders::Ipv4(header, extensions) => Some((header, extensions)),
            _ => None,
        }
    }

    /// The headers, if they are of IPv6.
    pub fn ipv6_ref(&self) -> Option<(&Ipv6Header, &Ipv6Extensions)>
        ensures { option_map (λ r. (r.0.now, r.1.now)) result ≡ ipv6_in self.now }
    {
        match self {
            NetHeaders::Ipv6(header, extensions) => Some((header, extensions)),
            _ => None,
        }
    }

    /// The ARP packet, where it is one.
    pub fn arp_ref(&self) -> Option<&ArpPacket>
        ensures { option_map (λ r. r.now) result ≡ arp_in self.now }
    {
        match self {
            NetHeaders::Arp(packet) => Some(packet),
            _ => None,
        }
    }

    /// Makes each header of an IP packet name the next one, and the last one this number. Returns
    /// the ether type of the version. An ARP packet is refused and unchanged.
    pub fn try_set_next_headers(
        &mut self,
        last: IpNumber,
    ) -> Result<EtherType, NetSetNextHeaderError>
        ensures { IsNetLinked self.old last.0 self.new result }
    {
        match self {
            NetHeaders::Ipv4(header, extensions) => {
                header.protocol = extensions.set_next_headers(last);
                Ok(EtherType::IPV4)
            }
            NetHeaders::Ipv6(header, extensions) => {
                header.next_header = extensions.set_next_headers(last);
                Ok(EtherType::IPV6)
            }
            NetHeaders::Arp(_) => Err(NetSetNextHeaderError::ArpHeader),
        }
    }

    /// The length of all headers in bytes, of an ARP packet that of the packet.
    pub fn header_len(&self) -> usize
        ensures { result ≡ net_headers_len self.now }
    {
        match self {
            NetHeaders::Ipv4(header, extensions) => header.header_len() + extensions.header_len(),
            NetHeaders::Ipv6(header, extensions) => header.header_len() + extensions.header_len(),
            NetHeaders::Arp(packet) => packet.packet_len(),
        }
    }
}

impl From<IpHeaders> for NetHeaders {
    ghost from_gives = { λ value gives. gives ≡ of_ip value };

    fn from(value: IpHeaders) -> NetHeaders {
        match value {
            IpHeaders::Ipv4(header, extensions) => NetHeaders::Ipv4(header, extensions),
            IpHeaders::Ipv6(header, extensions) => NetHeaders::Ipv6(header, extensions),
        }
    }
}

impl From<ArpPacket> for NetHeaders {
    ghost from_gives = { λ value gives. gives ≡ headers.Arp value };

    fn from(value: ArpPacket) -> NetHeaders {
        NetHeaders::Arp(value)
    }
}
