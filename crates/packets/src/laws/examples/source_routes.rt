//! Final destinations, and verdicts on checksums by them, of packets that were written down byte by
//! byte. The checksums were calculated apart from the code (RFC 768; RFC 8200, section 8.1).

ghost use Rattle.std.specs.Prelude.{◌≡◌, ◌++◌, true, false, [], ◌∷◌, replicate, None, Some, Ok};
ghost use Rattle.ep_ext.specs.declared.net.ipv6_ext_slot.Ipv6ExtSlot.TheVariants as slot;
ghost use Rattle.ep_packet.specs.Class.{packet_parsed};
ghost use Rattle.ep_packet.specs.Readable.ReadMessage.{Icmpv4, Icmpv6, Tcp, Udp};
ghost use Rattle.ep_packet.specs.declared.addresses.Addresses.TheVariants.{V4, V6};
ghost use Rattle.ep_packet.specs.declared.net.net_slice.NetSlice.TheVariants as net;
ghost use Rattle.etherparse.specs.PoolCalls.CallResult.{Nothing};
ghost use Rattle.packets.specs.Dissected.{verdict_by, verdict_on, verification_of};
ghost use Rattle.packets.specs.Examples.{datagram_with, ipv4_ends, ipv4_with_options, ipv6_address, ipv6_ends};
ghost use Rattle.packets.specs.Examples.{ipv6_with_routing, packet_over, routing_header};
ghost use Rattle.packets.specs.SourceRoute.{end_of_extensions, end_of_routing, ipv4_final, summed_addresses};
ghost use Rattle.packets.specs.declared.verification.Verification.TheVariants.{WithoutAddresses};
ghost use Rattle.checksum_verdicts.specs.declared.verdict.Verdict.TheVariants as verdict;

/// Loose and strict source routes (RFC 791, section 3.1) to 10.0.0.9, by way of 10.0.0.3, of packets
/// to 10.0.0.2: alone, at their last address, after other options, and used up.
pub fn source_routes()
    ensures loose { ipv4_final (ipv4_with_options
        (131 ∷ 11 ∷ 4 ∷ 10 ∷ 0 ∷ 0 ∷ 3 ∷ 10 ∷ 0 ∷ 0 ∷ 9 ∷ 0 ∷ [])) ≡ Some (10 ∷ 0 ∷ 0 ∷ 9 ∷ []) }
    ensures strict { ipv4_final (ipv4_with_options
        (1 ∷ 137 ∷ 11 ∷ 8 ∷ 10 ∷ 0 ∷ 0 ∷ 3 ∷ 10 ∷ 0 ∷ 0 ∷ 9 ∷ [])) ≡ Some (10 ∷ 0 ∷ 0 ∷ 9 ∷ []) }
    ensures following { ipv4_final (ipv4_with_options
        (148 ∷ 4 ∷ 0 ∷ 0 ∷ 131 ∷ 7 ∷ 4 ∷ 10 ∷ 0 ∷ 0 ∷ 9 ∷ 0 ∷ [])) ≡ Some (10 ∷ 0 ∷ 0 ∷ 9 ∷ []) }
    ensures used { ipv4_final (ipv4_with_options
        (131 ∷ 11 ∷ 12 ∷ 10 ∷ 0 ∷ 0 ∷ 3 ∷ 10 ∷ 0 ∷ 0 ∷ 9 ∷ 0 ∷ [])) ≡ Some (10 ∷ 0 ∷ 0 ∷ 2 ∷ []) }
    ensures empty { ipv4_final (ipv4_with_options (131 ∷ 3 ∷ 4 ∷ 0 ∷ replicate 8 0))
        ≡ Some (10 ∷ 0 ∷ 0 ∷ 2 ∷ []) }
{}

/// Options that are no source route, or follow the end of the list or an option whose length is
/// wrong: the destination is that of the header.
pub fn other_options()
    ensures none { ipv4_final (ipv4_with_options []) ≡ Some (10 ∷ 0 ∷ 0 ∷ 2 ∷ []) }
    ensures recorded { ipv4_final (ipv4_with_options
        (7 ∷ 11 ∷ 4 ∷ 10 ∷ 0 ∷ 0 ∷ 3 ∷ 10 ∷ 0 ∷ 0 ∷ 9 ∷ 0 ∷ [])) ≡ Some (10 ∷ 0 ∷ 0 ∷ 2 ∷ []) }
    ensures ended { ipv4_final (ipv4_with_options
        (0 ∷ 131 ∷ 7 ∷ 4 ∷ 10 ∷ 0 ∷ 0 ∷ 9 ∷ 0 ∷ 0 ∷ 0 ∷ 0 ∷ [])) ≡ Some (10 ∷ 0 ∷ 0 ∷ 2 ∷ []) }
    ensures short { ipv4_final (ipv4_with_options
        (148 ∷ 1 ∷ 131 ∷ 7 ∷ 4 ∷ 10 ∷ 0 ∷ 0 ∷ 9 ∷ 0 ∷ 0 ∷ 0 ∷ [])) ≡ Some (10 ∷ 0 ∷ 0 ∷ 2 ∷ []) }
    ensures long { ipv4_final (ipv4_with_options
        (148 ∷ 13 ∷ 0 ∷ 0 ∷ 131 ∷ 7 ∷ 4 ∷ 10 ∷ 0 ∷ 0 ∷ 9 ∷ 0 ∷ [])) ≡ Some (10 ∷ 0 ∷ 0 ∷ 2 ∷ []) }
{}

/// Source routes that break their format: longer than the options, without a pointer, with a part of
/// an address, and with a pointer to no address.
pub fn broken_source_routes()
    ensures long { ipv4_final (ipv4_with_options
        (131 ∷ 15 ∷ 4 ∷ 10 ∷ 0 ∷ 0 ∷ 3 ∷ 10 ∷ 0 ∷ 0 ∷ 9 ∷ 0 ∷ [])) ≡ None }
    ensures short { ipv4_final (ipv4_with_options (131 ∷ 2 ∷ 4 ∷ replicate 9 0)) ≡ None }
    ensures cut { ipv4_final (ipv4_with_options (replicate 10 1 ++ 131 ∷ 7 ∷ [])) ≡ None }
    ensures part { ipv4_final (ipv4_with_options
        (131 ∷ 10 ∷ 4 ∷ 10 ∷ 0 ∷ 0 ∷ 3 ∷ 10 ∷ 0 ∷ 0 ∷ 0 ∷ 0 ∷ [])) ≡ None }
    ensures between { ipv4_final (ipv4_with_options
        (131 ∷ 11 ∷ 5 ∷ 10 ∷ 0 ∷ 0 ∷ 3 ∷ 10 ∷ 0 ∷ 0 ∷ 9 ∷ 0 ∷ [])) ≡ None }
    ensures before { ipv4_final (ipv4_with_options
        (131 ∷ 11 ∷ 0 ∷ 10 ∷ 0 ∷ 0 ∷ 3 ∷ 10 ∷ 0 ∷ 0 ∷ 9 ∷ 0 ∷ [])) ≡ None }
{}

/// Routing headers to 2001:db8::9 of packets to 2001:db8::2: of type 0 (RFC 2460, section 4.4) and
/// 4 (RFC 8754, section 2) by way of 2001:db8::3, of type 2 (RFC 6275, section 6.4), and of another
/// type; and one of each without segments that are left.
pub fn routing_headers()
    ensures type_0 { end_of_routing (ipv6_address 2)
        (routing_header 4 0 1 0 (ipv6_address 3 ++ ipv6_address 9)) ≡ Some (ipv6_address 9) }
    ensures type_2 { end_of_routing (ipv6_address 2) (routing_header 2 2 1 0 (ipv6_address 9))
        ≡ Some (ipv6_address 9) }
    ensures type_4 { end_of_routing (ipv6_address 2)
        (routing_header 4 4 1 1 (ipv6_address 9 ++ ipv6_address 3)) ≡ Some (ipv6_address 9) }
    // The segment that is passed first may be left out (RFC 8754, section 4.1.1).
    ensures reduced { end_of_routing (ipv6_address 2)
        (routing_header 4 4 2 1 (ipv6_address 9 ++ ipv6_address 3)) ≡ Some (ipv6_address 9) }
    ensures type_3 { end_of_routing (ipv6_address 2) (routing_header 2 3 1 0 (ipv6_address 9))
        ≡ None }
    ensures used { (end_of_routing (ipv6_address 2)
        (routing_header 4 0 0 0 (ipv6_address 3 ++ ipv6_address 9)) ≡ Some (ipv6_address 2))
        × (end_of_routing (ipv6_address 2) (routing_header 2 2 0 0 (ipv6_address 9))
        ≡ Some (ipv6_address 2))
        × (end_of_routing (ipv6_address 2)
        (routing_header 4 4 0 1 (ipv6_address 9 ++ ipv6_address 3)) ≡ Some (ipv6_address 2))
        × (end_of_routing (ipv6_address 2) (routing_header 0 253 0 0 []) ≡ Some (ipv6_address 2)) }
{}

/// Routing headers that break the format of their type: with a part of an address or without one,
/// with more segments left than addresses, and with a last entry after their end.
pub fn broken_routing_headers()
    ensures type_0 { (end_of_routing (ipv6_address 2)
        (routing_header 3 0 1 0 (ipv6_address 9 ++ replicate 8 0)) ≡ None)
        × (end_of_routing (ipv6_address 2) (routing_header 0 0 1 0 []) ≡ None)
        × (end_of_routing (ipv6_address 2) (routing_header 2 0 2 0 (ipv6_address 9)) ≡ None) }
    ensures type_2 { (end_of_routing (ipv6_address 2) (routing_header 2 2 2 0 (ipv6_address 9))
        ≡ None) × (end_of_routing (ipv6_address 2)
        (routing_header 4 2 1 0 (ipv6_address 3 ++ ipv6_address 9)) ≡ None)
        × (end_of_routing (ipv6_address 2) (routing_header 0 2 1 0 []) ≡ None) }
    ensures type_4 { (end_of_routing (ipv6_address 2) (routing_header 0 4 1 0 []) ≡ None)
        × (end_of_routing (ipv6_address 2) (routing_header 2 4 2 0 (ipv6_address 9)) ≡ None)
        × (end_of_routing (ipv6_address 2) (routing_header 2 4 1 1 (ipv6_address 9)) ≡ None) }
{}

/// After several extension headers: others keep the destination, the last routing header decides,
/// and none is known after one of an unknown type.
pub fn extension_headers_in_a_row()
    ensures none { end_of_extensions (ipv6_address 2) [] ≡ Some (ipv6_address 2) }
    ensures others { end_of_extensions (ipv6_address 2) ((slot.HopByHop, 43 ∷ replicate 7 1)
        ∷ (slot.Destination, 44 ∷ replicate 7 1) ∷ (slot.Fragment, 17 ∷ replicate 7 0) ∷ [])
        ≡ Some (ipv6_address 2) }
    ensures last { end_of_extensions (ipv6_address 2)
        ((slot.Routing, routing_header 2 0 1 0 (ipv6_address 3))
        ∷ (slot.Routing, routing_header 2 0 1 0 (ipv6_address 9)) ∷ []) ≡ Some (ipv6_address 9) }
    ensures unknown { end_of_extensions (ipv6_address 2)
        ((slot.Routing, routing_header 2 3 1 0 (ipv6_address 3))
        ∷ (slot.Routing, routing_header 2 0 1 0 (ipv6_address 9)) ∷ []) ≡ None }
{}

/// The addresses in the pseudo header of whole packets.
pub fn addresses_of_packets()
    ensures ipv4 { summed_addresses (Some (net.Ipv4 (record {
      header = ipv4_with_options (131 ∷ 11 ∷ 4 ∷ 10 ∷ 0 ∷ 0 ∷ 3 ∷ 10 ∷ 0 ∷ 0 ∷ 9 ∷ 0 ∷ []);
      auth = None;
      payload = datagram_with 0x11 0xe8;
    }))) ≡ Some (V4 (10 ∷ 0 ∷ 0 ∷ 1 ∷ []) (10 ∷ 0 ∷ 0 ∷ 9 ∷ [])) }
    ensures ipv6 { summed_addresses (Some (net.Ipv6 (ipv6_with_routing
        (routing_header 4 4 1 1 (ipv6_address 9 ++ ipv6_address 3)) (datagram_with 0xca 0x75))))
        ≡ Some (V6 (ipv6_address 1) (ipv6_address 9)) }
    ensures none { summed_addresses None ≡ None }
    ensures arp { summed_addresses (Some (net.Arp (replicate 28 0))) ≡ None }
{}

/// The verdicts on the checksum of a UDP datagram from port 53 to 5353: over IPv4 from 10.0.0.1 it
/// is 11ef to 10.0.0.2 and 11e8 to 10.0.0.9; over IPv6 from 2001:db8::1 it is ca7c to 2001:db8::2
/// and ca75 to 2001:db8::9. What is right for the destination in the IP header is wrong.
pub fn verdicts_with_source_routes()
    ensures ipv4 { verdict_on (verification_of true (Ok (packet_over (net.Ipv4 (record {
      header = ipv4_with_options (131 ∷ 11 ∷ 4 ∷ 10 ∷ 0 ∷ 0 ∷ 3 ∷ 10 ∷ 0 ∷ 0 ∷ 9 ∷ 0 ∷ []);
      auth = None;
      payload = datagram_with 0x11 0xe8;
    })) (datagram_with 0x11 0xe8)))) (packet_parsed (packet_over (net.Ipv4 (record {
      header = ipv4_with_options (131 ∷ 11 ∷ 4 ∷ 10 ∷ 0 ∷ 0 ∷ 3 ∷ 10 ∷ 0 ∷ 0 ∷ 9 ∷ 0 ∷ []);
      auth = None;
      payload = datagram_with 0x11 0xe8;
    })) (datagram_with 0x11 0xe8))) Nothing ≡ Some verdict.Good }
    ensures over_ipv4 { (verdict_by (verification_of true (Ok (packet_over (net.Ipv4 (record {
      header = ipv4_with_options (131 ∷ 11 ∷ 4 ∷ 10 ∷ 0 ∷ 0 ∷ 3 ∷ 10 ∷ 0 ∷ 0 ∷ 9 ∷ 0 ∷ []);
      auth = None;
      payload = [];
    })) []))) ipv4_ends (Udp (datagram_with 0x11 0xef)) ≡ Some verdict.Bad)
        × (verdict_by (verification_of true (Ok (packet_over (net.Ipv4 (record {
          header = ipv4_with_options (131 ∷ 11 ∷ 12 ∷ 10 ∷ 0 ∷ 0 ∷ 3 ∷ 10 ∷ 0 ∷ 0 ∷ 9 ∷ 0 ∷ []);
          auth = None;
          payload = [];
        })) []))) ipv4_ends (Udp (datagram_with 0x11 0xef)) ≡ Some verdict.Good) }
    ensures over_ipv6 { (verdict_by (verification_of true (Ok (packet_over (net.Ipv6 (ipv6_with_routing
        (routing_header 4 0 1 0 (ipv6_address 3 ++ ipv6_address 9)) [])) []))) ipv6_ends
        (Udp (datagram_with 0xca 0x75)) ≡ Some verdict.Good)
        × (verdict_by (verification_of true (Ok (packet_over (net.Ipv6 (ipv6_with_routing
        (routing_header 4 0 1 0 (ipv6_address 3 ++ ipv6_address 9)) [])) []))) ipv6_ends
        (Udp (datagram_with 0xca 0x7c)) ≡ Some verdict.Bad)
        × (verdict_by (verification_of true (Ok (packet_over (net.Ipv6 (ipv6_with_routing
        (routing_header 4 0 0 0 (ipv6_address 3 ++ ipv6_address 9)) [])) []))) ipv6_ends
        (Udp (datagram_with 0xca 0x7c)) ≡ Some verdict.Good) }
    // ICMP over IPv4 has no pseudo header (RFC 792).
    ensures unknown { (verdict_by WithoutAddresses ipv4_ends (Udp (datagram_with 0x11 0xe8))
        ≡ Some verdict.None)
        × (verdict_by WithoutAddresses ipv6_ends (Tcp (replicate 20 0)) ≡ Some verdict.None)
        × (verdict_by WithoutAddresses ipv6_ends (Icmpv6 (replicate 8 0)) ≡ Some verdict.None)
        × (verdict_by WithoutAddresses ipv4_ends (Icmpv4 (255 ∷ 255 ∷ replicate 6 0))
        ≡ Some verdict.Good)
        × (verdict_by WithoutAddresses ipv4_ends (Icmpv4 (replicate 8 0)) ≡ Some verdict.Bad) }
    // Where checksums aren't verified.
    ensures off { verdict_on (verification_of false (Ok (packet_over (net.Ipv4 (record {
      header = ipv4_with_options [];
      auth = None;
      payload = datagram_with 0x11 0xef;
    })) (datagram_with 0x11 0xef)))) (packet_parsed (packet_over (net.Ipv4 (record {
      header = ipv4_with_options [];
      auth = None;
      payload = datagram_with 0x11 0xef;
    })) (datagram_with 0x11 0xef))) Nothing ≡ None }
{}
