//! Which headers packets have, by the protocols of docs/PACKETS.md and IANA's registry "Protocol
//! Numbers".

ghost use Rattle.std.specs.Prelude.{◌≡◌, [], ◌∷◌, true, false, None, Some};
ghost use Rattle.ep_packet.specs.declared.addresses.Addresses.TheVariants.{V4};
ghost use Rattle.header_descriptions.specs.declared.protocol.Protocol.TheVariants as protocol;
ghost use Rattle.packets.specs.Examples.{back_ends, headers_over, ipv4_ends, ipv6_ends, no_headers};
ghost use Rattle.packets.specs.Headers.{has_header, net_addresses, net_number};
ghost use Rattle.packets.specs.declared.outline.Net.TheVariants as net;

/// A TCP segment over IPv4 in an Ethernet frame.
pub fn headers_over_ipv4()
    ensures ethernet { has_header (headers_over ipv4_ends 6) protocol.Ethernet ≡ true }
    ensures ipv4 { has_header (headers_over ipv4_ends 6) protocol.Ipv4 ≡ true }
    ensures tcp { has_header (headers_over ipv4_ends 6) (protocol.OverIp (record { 0 = 6 }))
        ≡ true }
    ensures others { (has_header (headers_over ipv4_ends 6) protocol.Vlan ≡ false)
        × (has_header (headers_over ipv4_ends 6) protocol.Macsec ≡ false)
        × (has_header (headers_over ipv4_ends 6) protocol.Arp ≡ false)
        × (has_header (headers_over ipv4_ends 6) protocol.Ipv6 ≡ false)
        × (has_header (headers_over ipv4_ends 6) (protocol.OverIp (record { 0 = 4 })) ≡ false)
        × (has_header (headers_over ipv4_ends 6) (protocol.OverIp (record { 0 = 17 })) ≡ false) }
{}

/// An ICMPv6 message, number 58, over IPv6 in a VLAN after MACsec, captured on another link.
pub fn headers_over_ipv6()
    ensures tags { (has_header (record (headers_over ipv6_ends 58) {
      ethernet = false;
      vlan = true;
    }) protocol.Vlan ≡ true)
        × (has_header (record (headers_over ipv6_ends 58) { macsec = true }) protocol.Macsec
        ≡ true) }
    ensures captured { has_header (record (headers_over ipv6_ends 58) {
      ethernet = false;
      vlan = true;
    }) protocol.Ethernet ≡ false }
    ensures ipv6 { has_header (headers_over ipv6_ends 58) protocol.Ipv6 ≡ true }
    ensures icmpv6 { has_header (headers_over ipv6_ends 58) (protocol.OverIp (record { 0 = 58 }))
        ≡ true }
    ensures others { (has_header (headers_over ipv6_ends 58) protocol.Ipv4 ≡ false)
        × (has_header (headers_over ipv6_ends 58) protocol.Arp ≡ false)
        × (has_header (headers_over ipv6_ends 58) (protocol.OverIp (record { 0 = 41 })) ≡ false)
        × (has_header (headers_over ipv6_ends 58) (protocol.OverIp (record { 0 = 1 })) ≡ false) }
{}

/// An ARP packet has no protocol over IP, and so has a frame of none that is read.
pub fn headers_without_ip()
    ensures arp { has_header (record no_headers { net = Some net.Arp }) protocol.Arp ≡ true }
    ensures no_ip { (has_header (record no_headers { net = Some net.Arp }) protocol.Ipv4 ≡ false)
        × (has_header (record no_headers { net = Some net.Arp }) protocol.Ipv6 ≡ false)
        × (has_header (record no_headers { net = Some net.Arp })
        (protocol.OverIp (record { 0 = 0 })) ≡ false) }
    ensures none { (has_header no_headers protocol.Arp ≡ false)
        × (has_header no_headers protocol.Ipv4 ≡ false)
        × (has_header no_headers protocol.Ipv6 ≡ false)
        × (has_header no_headers (protocol.OverIp (record { 0 = 0 })) ≡ false) }
{}

/// The addresses of IP packets, the source first, and the number of the protocol they carry. An ARP
/// packet has none of an IP header.
pub fn addresses_and_numbers()
    ensures ipv4 { (net_addresses (headers_over ipv4_ends 6).net ≡ Some ipv4_ends)
        × (net_addresses (headers_over back_ends 17).net
        ≡ Some (V4 (10 ∷ 0 ∷ 0 ∷ 2 ∷ []) (10 ∷ 0 ∷ 0 ∷ 1 ∷ []))) }
    ensures ipv6 { net_addresses (headers_over ipv6_ends 58).net ≡ Some ipv6_ends }
    ensures number { net_number (headers_over ipv6_ends 58).net ≡ Some (record { 0 = 58 }) }
    ensures arp { (net_addresses (Some net.Arp) ≡ None) × (net_number (Some net.Arp) ≡ None) }
    ensures none { (net_addresses None ≡ None) × (net_number None ≡ None) }
{}
