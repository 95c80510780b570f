//! IP or ARP packets, borrowed.
ghost use Rattle.std.specs.Prelude.{◌≡◌};
ghost use Rattle.std.specs.Option.{option_map};
ghost use Rattle.ep_packet.specs.NetSlice.{arp_in, ip_payload_in, ipv4_in, ipv6_in, is_arp, is_ip, is_ipv4, is_ipv6};
ghost use Rattle.ep_packet.specs.NetSlice.{of_ip};
ghost use Rattle.ep_packet.specs.declared.net.net_slice.NetSlice.TheVariants as view;

use ep_ipslice::{IpPayloadSlice, IpSlice, Ipv4Slice, Ipv6Slice};
use ep_link::ArpPacketSlice;

/// A packet of the network layer, borrowed.
#[derive(Clone, Debug, PartialEq, Eq, Drop)]
pub enum NetSlice<'a> {
    /// An IPv4 packet.
    Ipv4(Ipv4Slice<'a>),
    /// An IPv6 packet.
    Ipv6(Ipv6Slice<'a>),
    /// An ARP packet.
    Arp(ArpPacketSlice<'a>),
}

impl<'a> NetSlice<'a> {
    /// Whether it is an IP packet.
    pub fn is_ip(&self) -> bool
        ensures { result ≡ is_ip self.now }
    {
        matches!(self, NetSlice::Ipv4(_) | NetSlice::Ipv6(_))
    }

    /// Whether it is an IPv4 packet.
    pub fn is_ipv4(&self) -> bool
        ensures { result ≡ is_ipv4 self.now }
    {
        matches!(self, NetSlice::Ipv4(_))
    }

    /// Whether it is an IPv6 packet.
    pub fn is_ipv6(&self) -> bool
        ensures { result ≡ is_ipv6 self.now }
    {
        matches!(self, NetSlice::Ipv6(_))
    }

    /// Whether it is an ARP packet.
    pub fn is_arp(&self) -> bool
        ensures { result ≡ is_arp self.now }
    {
        matches!(self, NetSlice::Arp(_))
    }

    /// The IPv4 packet, where it is one.
    pub fn ipv4_ref(&self) -> Option<&Ipv4Slice<'a>>
        ensures { option_map (λ packet. packet.now) result ≡ ipv4_in self.now }
    {
        match self {
            NetSlice::Ipv4(packet) => Some(packet),
            _ => None,
        }
    }

    /// The IPv6 packet, where it is one.
    pub fn ipv6_ref(&self) -> Option<&Ipv6Slice<'a>>
        ensures { option_map (λ packet. packet.now) result ≡ ipv6_in self.now }
    {
        match self {
            NetSlice::Ipv6(packet) => Some(packet),
            _ => None,
        }
    }

    /// The ARP packet, where it is one.
    pub fn arp_ref(&self) -> Option<&ArpPacketSlice<'a>>
        ensures { option_map (λ packet. packet.now) result ≡ arp_in self.now }
    {
        match self {
            NetSlice::Arp(packet) => Some(packet),
            _ => None,
        }
    }

    /// The payload of an IP packet, where it is one.
    pub fn ip_payload_ref(&self) -> Option<&IpPayloadSlice<'a>>
        ensures { option_map (λ payload. payload.now) result ≡ ip_payload_in self.now }
    {
        match self {
            NetSlice::Ipv4(packet) => Some(packet.payload()),
            NetSlice::Ipv6(packet) => Some(packet.payload()),
            NetSlice::Arp(_) => None,
        }
    }
}

impl<'a> From<IpSlice<'a>> for NetSlice<'a> {
    ghost from_gives = { λ packet gives. gives ≡ of_ip packet };

    fn from(packet: IpSlice<'a>) -> NetSlice<'a> {
        match packet {
            IpSlice::Ipv4(packet) => NetSlice::Ipv4(packet),
            IpSlice::Ipv6(packet) => NetSlice::Ipv6(packet),
        }
    }
}

impl<'a> From<Ipv4Slice<'a>> for NetSlice<'a> {
    ghost from_gives = { λ packet gives. gives ≡ view.Ipv4 packet };

    fn from(packet: Ipv4Slice<'a>) -> NetSlice<'a> {
        NetSlice::Ipv4(packet)
    }
}

impl<'a> From<Ipv6Slice<'a>> for NetSlice<'a> {
    ghost from_gives = { λ packet gives. gives ≡ view.Ipv6 packet };

    fn from(packet: Ipv6Slice<'a>) -> NetSlice<'a> {
        NetSlice::Ipv6(packet)
    }
}
