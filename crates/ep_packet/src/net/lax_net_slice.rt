//! IP or ARP packets, borrowed, as far as they are there.
ghost use Rattle.std.specs.Prelude.{◌≡◌};
ghost use Rattle.std.specs.Option.{option_map};
ghost use Rattle.ep_ipslice.specs.Compared.{lax_value};
ghost use Rattle.ep_packet.specs.LaxNetSlice.{lax_arp_in, lax_ip_payload_in, lax_ipv4_in, lax_ipv6_in, of_lax_ip};

use ep_ipslice::{LaxIpPayloadSlice, LaxIpSlice, LaxIpv4Slice, LaxIpv6Slice};
use ep_link::ArpPacketSlice;

/// A packet of the network layer, as far as it is there, borrowed.
#[derive(Clone, Debug, PartialEq, Eq, Drop)]
pub enum LaxNetSlice<'a> {
    /// An IPv4 packet.
    Ipv4(LaxIpv4Slice<'a>),
    /// An IPv6 packet.
    Ipv6(LaxIpv6Slice<'a>),
    /// An ARP packet, which is there as a whole.
    Arp(ArpPacketSlice<'a>),
}

impl<'a> LaxNetSlice<'a> {
    /// The IPv4 packet, where it is one.
    pub fn ipv4_ref(&self) -> Option<&LaxIpv4Slice<'a>>
        ensures { option_map (λ packet. packet.now) result ≡ lax_ipv4_in self.now }
    {
        match self {
            LaxNetSlice::Ipv4(packet) => Some(packet),
            _ => None,
        }
    }

    /// The IPv6 packet, where it is one.
    pub fn ipv6_ref(&self) -> Option<&LaxIpv6Slice<'a>>
        ensures { option_map (λ packet. packet.now) result ≡ lax_ipv6_in self.now }
    {
        match self {
            LaxNetSlice::Ipv6(packet) => Some(packet),
            _ => None,
        }
    }

    /// The ARP packet, where it is one.
    pub fn arp_ref(&self) -> Option<&ArpPacketSlice<'a>>
        ensures { option_map (λ packet. packet.now) result ≡ lax_arp_in self.now }
    {
        match self {
            LaxNetSlice::Arp(packet) => Some(packet),
            _ => None,
        }
    }

    /// The payload of an IP packet, where it is one, with whether bytes of it are missing.
    pub fn ip_payload_ref(&self) -> Option<&LaxIpPayloadSlice<'a>>
        ensures { option_map (λ payload. lax_value payload.now) result ≡ lax_ip_payload_in self.now }
    {
        match self {
            LaxNetSlice::Ipv4(packet) => Some(packet.payload()),
            LaxNetSlice::Ipv6(packet) => Some(packet.payload()),
            LaxNetSlice::Arp(_) => None,
        }
    }
}

impl<'a> From<LaxIpSlice<'a>> for LaxNetSlice<'a> {
    ghost from_gives = { λ packet gives. gives ≡ of_lax_ip packet };

    fn from(packet: LaxIpSlice<'a>) -> LaxNetSlice<'a> {
        match packet {
            LaxIpSlice::Ipv4(packet) => LaxNetSlice::Ipv4(packet),
            LaxIpSlice::Ipv6(packet) => LaxNetSlice::Ipv6(packet),
        }
    }
}
