//! The datagrams that ICMP errors are about (RFC 792; RFC 4443).

ghost use Rattle.std.specs.Prelude.{◌≡◌, ◌++◌, [], true, false, take, None, Some};
ghost use Rattle.ep_base.specs.declared.len_source.LenSource.TheVariants as source;
ghost use Rattle.ep_packet.specs.declared.net.lax_net_slice.LaxNetSlice.TheVariants as lax;
ghost use Rattle.ep_packet.specs.declared.transport.transport_slice.TransportSlice.TheVariants as transport;
ghost use Rattle.packets.specs.Examples.{arp_request, datagram_with, icmp_with, in_part, ipv4_header, ipv4_in_part};
ghost use Rattle.packets.specs.Examples.{ipv6_header, ipv6_in_part, segment_with};
ghost use Rattle.packets.specs.OriginalDatagrams.{is_icmpv4_error, is_icmpv6_error, original_in_icmpv4};
ghost use Rattle.packets.specs.OriginalDatagrams.{original_in_icmpv6, ports_in, ports_of};

/// The types of errors, and some beside them.
pub fn types_of_errors()
    ensures icmpv4 { (is_icmpv4_error 3 ≡ true) × (is_icmpv4_error 4 ≡ true)
        × (is_icmpv4_error 5 ≡ true) × (is_icmpv4_error 11 ≡ true) × (is_icmpv4_error 12 ≡ true) }
    ensures other_icmpv4 { (is_icmpv4_error 0 ≡ false) × (is_icmpv4_error 1 ≡ false)
        × (is_icmpv4_error 2 ≡ false) × (is_icmpv4_error 6 ≡ false) × (is_icmpv4_error 8 ≡ false)
        × (is_icmpv4_error 10 ≡ false) × (is_icmpv4_error 13 ≡ false) }
    ensures icmpv6 { (is_icmpv6_error 1 ≡ true) × (is_icmpv6_error 2 ≡ true)
        × (is_icmpv6_error 3 ≡ true) × (is_icmpv6_error 4 ≡ true) }
    ensures other_icmpv6 { (is_icmpv6_error 0 ≡ false) × (is_icmpv6_error 5 ≡ false)
        × (is_icmpv6_error 128 ≡ false) × (is_icmpv6_error 137 ≡ false) }
{}

/// Errors over IPv4 about a UDP datagram of 12 bytes, of which 8 are there, and about a packet of SCTP
/// of which only the IP header is there; errors of which the IP header ends a byte early, or isn't
/// there at all; an echo request that carries the same datagram; and an error about one over IPv6.
pub fn errors_over_ipv4()
    ensures unreachable { original_in_icmpv4
        (icmp_with 3 (ipv4_header 17 ++ take 8 (datagram_with 0x11 0xef)))
        ≡ Some (in_part (Some (ipv4_in_part 17 (take 8 (datagram_with 0x11 0xef))))
        (Some (transport.Udp (take 8 (datagram_with 0x11 0xef))))) }
    ensures without_message { original_in_icmpv4 (icmp_with 11 (ipv4_header 132))
        ≡ Some (in_part (Some (ipv4_in_part 132 [])) None) }
    ensures other_version { original_in_icmpv4
        (icmp_with 3 (ipv6_header ++ take 8 (datagram_with 0x11 0xef)))
        ≡ Some (in_part (Some (ipv6_in_part (take 8 (datagram_with 0x11 0xef))))
        (Some (transport.Udp (take 8 (datagram_with 0x11 0xef))))) }
    ensures in_header { original_in_icmpv4 (icmp_with 3 (take 19 (ipv4_header 17))) ≡ None }
    ensures nothing { original_in_icmpv4 (icmp_with 3 []) ≡ None }
    ensures echo { original_in_icmpv4
        (icmp_with 8 (ipv4_header 17 ++ take 8 (datagram_with 0x11 0xef))) ≡ None }
{}

/// The same over IPv6, and an error about a datagram over IPv4.
pub fn errors_over_ipv6()
    ensures too_big { original_in_icmpv6
        (icmp_with 2 (ipv6_header ++ take 8 (datagram_with 0x11 0xef)))
        ≡ Some (in_part (Some (ipv6_in_part (take 8 (datagram_with 0x11 0xef))))
        (Some (transport.Udp (take 8 (datagram_with 0x11 0xef))))) }
    ensures other_version { original_in_icmpv6
        (icmp_with 2 (ipv4_header 17 ++ take 8 (datagram_with 0x11 0xef)))
        ≡ Some (in_part (Some (ipv4_in_part 17 (take 8 (datagram_with 0x11 0xef))))
        (Some (transport.Udp (take 8 (datagram_with 0x11 0xef))))) }
    ensures in_header { original_in_icmpv6 (icmp_with 2 (take 39 ipv6_header)) ≡ None }
    ensures echo { original_in_icmpv6
        (icmp_with 128 (ipv6_header ++ take 8 (datagram_with 0x11 0xef))) ≡ None }
{}

/// The ports of TCP from 443 to 51234, of whose header 8 and 4 bytes are there, and of UDP from 53 to
/// 5353; none of 3 bytes, of a fragment, and of SCTP, ICMP and ARP.
pub fn ports_of_original_datagrams()
    ensures tcp { ports_of (Some (ipv4_in_part 6 (take 8 (segment_with 5))))
        ≡ Some (record { source = 443; destination = 51234 }) }
    ensures least { ports_of (Some (ipv4_in_part 6 (take 4 (segment_with 5))))
        ≡ Some (record { source = 443; destination = 51234 }) }
    ensures udp { ports_of (Some (ipv6_in_part (take 8 (datagram_with 0x11 0xef))))
        ≡ Some (record { source = 53; destination = 5353 }) }
    ensures less { ports_of (Some (ipv4_in_part 6 (take 3 (segment_with 5)))) ≡ None }
    ensures fragment { ports_in (record {
      ip_number = record { 0 = 17 };
      fragmented = true;
      len_source = source.Slice;
      payload = datagram_with 0x11 0xef;
    }) ≡ None }
    ensures others { (ports_of (Some (ipv4_in_part 132 (segment_with 5))) ≡ None)
        × (ports_of (Some (ipv4_in_part 1 (segment_with 5))) ≡ None)
        × (ports_of (Some (lax.Arp arp_request)) ≡ None) × (ports_of None ≡ None) }
{}
