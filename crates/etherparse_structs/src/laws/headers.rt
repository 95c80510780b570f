//! The fields that are given of headers, by the layouts of the standards.
ghost use Rattle.std.specs.Prelude.{◌≡◌, ℕ, List, [], ◌∷◌, ◌++◌, map, replicate, true, false, Some, None};
ghost use Rattle.std.specs.List.{slice_get};
ghost use Rattle.etherparse.specs.base.declared.len_source.LenSource.TheVariants as source;
ghost use Rattle.etherparse.specs.ipslice.LaxPackets.{LaxIpv4Packet, LaxIpv6Packet};
ghost use Rattle.etherparse.specs.ipslice.Packet.{IpPayload};
ghost use Rattle.etherparse.specs.link.Frame.{without_fcs};
ghost use Rattle.etherparse.specs.link.declared.link.link_slice.LinkSlice.TheVariants as link;
ghost use Rattle.etherparse.specs.packet.declared.net.lax_net_slice.LaxNetSlice.TheVariants as net;
ghost use Rattle.etherparse.specs.packet.declared.transport.transport_slice.TransportSlice.TheVariants as transport;
ghost use Rattle.etherparse.specs.tag.Ether.{EtherPayload};
ghost use Rattle.etherparse.specs.tag.MacsecLax.{LaxModified};
ghost use Rattle.etherparse.specs.tag.declared.link.lax_link_ext_slice.LaxLinkExtSlice.TheVariants as tag;
ghost use Rattle.etherparse_structs.specs.Link.{link_struct, no_tag, tag_struct, tags_end, tags_struct};
ghost use Rattle.etherparse_structs.specs.Net.{arp_struct_in, ipv4_struct_in, ipv6_struct_in, message_offset_in, net_number};
ghost use Rattle.etherparse_structs.specs.Transport.{icmp_struct_in, tcp_struct_in, transport_number, udp_struct_in};

/// Link headers: of Ethernet II (RFC 894) and of a cooked capture (LINKTYPE_LINUX_SLL), sent by us,
/// of generic routing encapsulation, with seven bytes of an address. Without one all fields are 0,
/// and so they are of bytes that a caller read up to an ether type.
pub fn link_headers()
    ensures ethernet { link_struct (Some (link.Ethernet2 (without_fcs (1 ∷ 2 ∷ 3 ∷ 4 ∷ 5 ∷ 6 ∷ 7 ∷ 8 ∷ 9 ∷
        10 ∷ 11 ∷ 12 ∷ 0x88 ∷ 0xcc ∷ [])))) ≡ record {
          kind = 1;
          protocol = 0x88cc;
          destination = 1 ∷ 2 ∷ 3 ∷ 4 ∷ 5 ∷ 6 ∷ [];
          source = 7 ∷ 8 ∷ 9 ∷ 10 ∷ 11 ∷ 12 ∷ [];
          packet_type = 0;
          hardware_type = 0;
          address_len = 0;
          address = replicate 8 0;
        } }
    ensures cooked { link_struct (Some (link.LinuxSll (0 ∷ 4 ∷ 3 ∷ 10 ∷ 0 ∷ 7 ∷ 11 ∷ 12 ∷ 13 ∷ 14 ∷ 15 ∷
        16 ∷ 17 ∷ 18 ∷ 0x86 ∷ 0xdd ∷ []))) ≡ record {
          kind = 2;
          protocol = 0x86dd;
          destination = replicate 6 0;
          source = replicate 6 0;
          packet_type = 4;
          hardware_type = 778;
          address_len = 7;
          address = 11 ∷ 12 ∷ 13 ∷ 14 ∷ 15 ∷ 16 ∷ 17 ∷ 18 ∷ [];
        } }
    ensures none { link_struct None ≡ record {
      kind = 0;
      protocol = 0;
      destination = replicate 6 0;
      source = replicate 6 0;
      packet_type = 0;
      hardware_type = 0;
      address_len = 0;
      address = replicate 8 0;
    } }
    ensures payload { (p : EtherPayload) → link_struct (Some (link.EtherPayload p)) ≡ link_struct None }
{}

/// A VLAN tag of priority 5 that may be dropped first (IEEE 802.1Q, section 9.6).
pub fn vlan_tags()
    ensures { tag_struct 14 (Some (tag.Vlan (0xb1 ∷ 0x23 ∷ 0x86 ∷ 0xdd ∷ []))) ≡ record no_tag {
      header = record { offset = 14; len = 4 };
      kind = 1;
      ether_type = 0x86dd;
      vlan_id = 0x123;
      priority = 5;
      drop_eligible = true;
    } }
{}

/// MACsec headers (IEEE 802.1AE, clause 9): with a channel and an ether type, and of an encrypted
/// payload of an end station's broadcast.
pub fn macsec_headers()
    ensures channel { tag_struct 18 (Some (tag.Macsec (record {
      header = 0x22 ∷ 0 ∷ 10 ∷ 11 ∷ 12 ∷ 13 ∷ 1 ∷ 2 ∷ 3 ∷ 4 ∷ 5 ∷ 6 ∷ 7 ∷ 8 ∷ 0x81 ∷ 0 ∷ [];
      payload = LaxModified false [];
    }))) ≡ record no_tag {
      header = record { offset = 18; len = 16 };
      kind = 2;
      ether_type = 0x8100;
      has_channel = true;
      association = 2;
      packet_number = 0x0a0b0c0d;
      channel = 0x0102030405060708;
    } }
    ensures encrypted { tag_struct 14 (Some (tag.Macsec (record {
      header = 0x5c ∷ 0x28 ∷ 0 ∷ 0 ∷ 0 ∷ 9 ∷ [];
      payload = LaxModified false [];
    }))) ≡ record no_tag {
      header = record { offset = 14; len = 6 };
      kind = 2;
      end_station = true;
      single_copy_broadcast = true;
      encrypted = true;
      changed = true;
      short_len = 40;
      packet_number = 9;
    } }
{}

/// Where tags are and end, and of which kinds: a MACsec header of 6 bytes between two VLAN tags after an
/// Ethernet II header; one tag after a cooked capture's; none, whose fields are all 0.
pub fn offsets_of_tags()
    ensures kinds { map (λ t. t.kind) (tags_struct 14 (slice_get (tag.Vlan (0 ∷ 1 ∷ 0x88 ∷ 0xe5 ∷ [])
        ∷ tag.Macsec (record { header = 0x0c ∷ 0 ∷ 0 ∷ 0 ∷ 0 ∷ 9 ∷ []; payload = LaxModified false [] })
        ∷ tag.Vlan (0 ∷ 2 ∷ 8 ∷ 0 ∷ []) ∷ []))) ≡ 1 ∷ 2 ∷ 1 ∷ [] }
    ensures three { map (λ t. t.header) (tags_struct 14 (slice_get (tag.Vlan (0 ∷ 1 ∷ 0x88 ∷ 0xe5 ∷ [])
        ∷ tag.Macsec (record { header = 0x0c ∷ 0 ∷ 0 ∷ 0 ∷ 0 ∷ 9 ∷ []; payload = LaxModified false [] })
        ∷ tag.Vlan (0 ∷ 2 ∷ 8 ∷ 0 ∷ []) ∷ []))) ≡ record { offset = 14; len = 4 }
        ∷ record { offset = 18; len = 6 } ∷ record { offset = 24; len = 4 } ∷ [] }
    ensures one { map (λ t. t.header) (tags_struct 16 (slice_get (tag.Vlan (0 ∷ 1 ∷ 8 ∷ 0 ∷ []) ∷ [])))
        ≡ record { offset = 16; len = 4 } ∷ record { offset = 0; len = 0 }
        ∷ record { offset = 0; len = 0 } ∷ [] }
    ensures ends { (tags_end 14 (slice_get (tag.Vlan (0 ∷ 1 ∷ 0x88 ∷ 0xe5 ∷ [])
        ∷ tag.Macsec (record { header = 0x0c ∷ 0 ∷ 0 ∷ 0 ∷ 0 ∷ 9 ∷ []; payload = LaxModified false [] })
        ∷ tag.Vlan (0 ∷ 2 ∷ 8 ∷ 0 ∷ []) ∷ [])) ≡ 28) × (tags_end 16 (λ _. None) ≡ 16) }
    ensures none { (tag_struct 14 None ≡ no_tag) × (no_tag.header ≡ record { offset = 0; len = 0 }) }
    ensures no_number { no_tag.kind ∷ no_tag.ether_type ∷ no_tag.vlan_id ∷ no_tag.priority
        ∷ no_tag.association ∷ no_tag.short_len ∷ no_tag.packet_number ∷ no_tag.channel ∷ []
        ≡ replicate 8 0 }
    ensures no_flag { no_tag.drop_eligible ∷ no_tag.end_station ∷ no_tag.single_copy_broadcast
        ∷ no_tag.encrypted ∷ no_tag.changed ∷ no_tag.has_channel ∷ [] ≡ replicate 6 false }
{}

/// IPv4 packets (RFC 791): the last but one fragment of a datagram, after an authentication header
/// of 12 bytes that names UDP, and a whole datagram after a header with four bytes of options.
pub fn ipv4_packets()
    ensures fragment { ipv4_struct_in 14 (Some (net.Ipv4 (record {
      header = 0x45 ∷ 0xb9 ∷ 0 ∷ 36 ∷ 0xbe ∷ 0xef ∷ 0x21 ∷ 0x23 ∷ 63 ∷ 51 ∷ 0x12 ∷ 0x34 ∷ 10 ∷ 1 ∷ 2 ∷
          3 ∷ 192 ∷ 168 ∷ 4 ∷ 5 ∷ [];
      auth = Some (17 ∷ 1 ∷ 0 ∷ 0 ∷ 0 ∷ 0 ∷ 0 ∷ 1 ∷ 0 ∷ 0 ∷ 0 ∷ 2 ∷ []);
      incomplete = false;
      payload = record {
        ip_number = record { 0 = 17 };
        fragmented = true;
        len_source = source.Ipv4HeaderTotalLen;
        payload = 7 ∷ 8 ∷ 9 ∷ 10 ∷ [];
      };
    }))) ≡ record {
      header = record { offset = 14; len = 20 };
      extensions = record { offset = 34; len = 12 };
      payload = record { offset = 46; len = 4 };
      source = 10 ∷ 1 ∷ 2 ∷ 3 ∷ [];
      destination = 192 ∷ 168 ∷ 4 ∷ 5 ∷ [];
      total_len = 36;
      identification = 0xbeef;
      fragment_offset = 0x123;
      header_checksum = 0x1234;
      dscp = 46;
      ecn = 1;
      time_to_live = 63;
      protocol = 51;
      payload_number = 17;
      dont_fragment = false;
      more_fragments = true;
      is_part = true;
    } }
    ensures whole { ipv4_struct_in 0 (Some (net.Ipv4 (record {
      header = 0x46 ∷ 2 ∷ 0 ∷ 25 ∷ 0 ∷ 7 ∷ 0x40 ∷ 0 ∷ 1 ∷ 253 ∷ 0 ∷ 1 ∷ 10 ∷ 0 ∷ 0 ∷ 1 ∷ 10 ∷ 0 ∷ 0 ∷ 2 ∷
          0x94 ∷ 4 ∷ 0 ∷ 0 ∷ [];
      auth = None;
      incomplete = false;
      payload = record {
        ip_number = record { 0 = 253 };
        fragmented = false;
        len_source = source.Ipv4HeaderTotalLen;
        payload = 9 ∷ [];
      };
    }))) ≡ record {
      header = record { offset = 0; len = 24 };
      extensions = record { offset = 24; len = 0 };
      payload = record { offset = 24; len = 1 };
      source = 10 ∷ 0 ∷ 0 ∷ 1 ∷ [];
      destination = 10 ∷ 0 ∷ 0 ∷ 2 ∷ [];
      total_len = 25;
      identification = 7;
      fragment_offset = 0;
      header_checksum = 1;
      dscp = 0;
      ecn = 2;
      time_to_live = 1;
      protocol = 253;
      payload_number = 253;
      dont_fragment = true;
      more_fragments = false;
      is_part = false;
    } }
{}

/// IPv6 packets (RFC 8200): an ICMPv6 message of four bytes right after the header, and a fragment
/// of a UDP datagram after hop-by-hop options.
#[tactic(auto, unfolding(ep_ipslice::specs::Ipv6Walk::pieces_within))]
pub fn ipv6_packets()
    ensures whole { ipv6_struct_in 14 (Some (net.Ipv6 (record {
      header = 0x6b ∷ 0x81 ∷ 0x23 ∷ 0x45 ∷ 0 ∷ 4 ∷ 58 ∷ 255 ∷ 0xfd ∷ (replicate 14 0 ++ 1 ∷ 0xfd
          ∷ (replicate 14 0 ++ 2 ∷ []));
      exts = record { first_header = None; fragmented = false; slice = [] };
      incomplete = false;
      payload = record {
        ip_number = record { 0 = 58 };
        fragmented = false;
        len_source = source.Ipv6HeaderPayloadLen;
        payload = 1 ∷ 2 ∷ 3 ∷ 4 ∷ [];
      };
    }))) ≡ record {
      header = record { offset = 14; len = 40 };
      extensions = record { offset = 54; len = 0 };
      payload = record { offset = 54; len = 4 };
      source = 0xfd ∷ (replicate 14 0 ++ 1 ∷ []);
      destination = 0xfd ∷ (replicate 14 0 ++ 2 ∷ []);
      flow_label = 0x12345;
      identification = 0;
      payload_length = 4;
      fragment_offset = 0;
      traffic_class = 0xb8;
      next_header = 58;
      hop_limit = 255;
      payload_number = 58;
      has_fragment_header = false;
      more_fragments = false;
      is_part = false;
    } }
    ensures fragment { ipv6_struct_in 18 (Some (net.Ipv6 (record {
      header = 0x60 ∷ 0 ∷ 0 ∷ 1 ∷ 0 ∷ 24 ∷ 0 ∷ 64 ∷ 0xfd ∷ (replicate 14 0 ++ 1 ∷ 0xfd
          ∷ (replicate 14 0 ++ 2 ∷ []));
      exts = record {
        first_header = Some (record { 0 = 0 });
        fragmented = true;
        slice = 44 ∷ 0 ∷ 1 ∷ 4 ∷ 0 ∷ 0 ∷ 0 ∷ 0 ∷ 17 ∷ 0 ∷ 3 ∷ 0xb9 ∷ 0xde ∷ 0xad ∷ 0xbe ∷ 0xef ∷ [];
      };
      incomplete = false;
      payload = record {
        ip_number = record { 0 = 17 };
        fragmented = true;
        len_source = source.Ipv6HeaderPayloadLen;
        payload = 1 ∷ 2 ∷ 3 ∷ 4 ∷ 5 ∷ 6 ∷ 7 ∷ 8 ∷ [];
      };
    }))) ≡ record {
      header = record { offset = 18; len = 40 };
      extensions = record { offset = 58; len = 16 };
      payload = record { offset = 74; len = 8 };
      source = 0xfd ∷ (replicate 14 0 ++ 1 ∷ []);
      destination = 0xfd ∷ (replicate 14 0 ++ 2 ∷ []);
      flow_label = 1;
      identification = 0xdeadbeef;
      payload_length = 24;
      fragment_offset = 119;
      traffic_class = 0;
      next_header = 0;
      hop_limit = 64;
      payload_number = 17;
      has_fragment_header = true;
      more_fragments = true;
      is_part = true;
    } }
{}

/// An ARP reply (RFC 826) with hardware addresses of six bytes and protocol addresses of four.
pub fn arp_packets()
    ensures { arp_struct_in 14 (Some (net.Arp (0 ∷ 6 ∷ 0x08 ∷ 0x00 ∷ 6 ∷ 4 ∷ 0 ∷ 2 ∷ replicate 20 1)))
        ≡ record {
          packet = record { offset = 14; len = 28 };
          sender_hardware = record { offset = 22; len = 6 };
          sender_protocol = record { offset = 28; len = 4 };
          target_hardware = record { offset = 32; len = 6 };
          target_protocol = record { offset = 38; len = 4 };
          hardware_type = 6;
          protocol_type = 0x0800;
          operation = 2;
        } }
{}

/// A UDP datagram (RFC 768) of four bytes, whose length field says more.
pub fn udp_datagrams()
    ensures { udp_struct_in 34 (Some (transport.Udp (0x9c ∷ 0x40 ∷ 0 ∷ 53 ∷ 1 ∷ 4 ∷ 0xab ∷ 0xcd ∷ 1 ∷
        2 ∷ 3 ∷ 4 ∷ []))) ≡ record {
          header = record { offset = 34; len = 8 };
          payload = record { offset = 42; len = 4 };
          source_port = 40000;
          destination_port = 53;
          stated_len = 260;
          checksum = 0xabcd;
        } }
{}

/// TCP segments (RFC 9293): with four bytes of options, one of payload and the flags SYN and ECE, and
/// without either, with the other flags.
pub fn tcp_segments()
    ensures options { tcp_struct_in 34 (Some (transport.Tcp (0 ∷ 80 ∷ 0x9c ∷ 0x40 ∷ 1 ∷ 2 ∷ 3 ∷ 4 ∷ 10 ∷
        11 ∷ 12 ∷ 13 ∷ 0x60 ∷ 0x42 ∷ 0x10 ∷ 1 ∷ 0xab ∷ 0xcd ∷ 0 ∷ 9 ∷ 2 ∷ 4 ∷ 5 ∷ 180 ∷ 7 ∷ [])))
        ≡ record {
          header = record { offset = 34; len = 24 };
          payload = record { offset = 58; len = 1 };
          sequence_number = 0x01020304;
          acknowledgment_number = 0x0a0b0c0d;
          source_port = 80;
          destination_port = 40000;
          window_size = 0x1001;
          checksum = 0xabcd;
          urgent_pointer = 9;
          ns = false;
          fin = false;
          syn = true;
          rst = false;
          psh = false;
          ack = false;
          urg = false;
          ece = true;
          cwr = false;
        } }
    ensures flags { tcp_struct_in 20 (Some (transport.Tcp (replicate 12 0 ++ 0x51 ∷ 0xbd
        ∷ replicate 6 0))) ≡ record {
          header = record { offset = 20; len = 20 };
          payload = record { offset = 40; len = 0 };
          sequence_number = 0;
          acknowledgment_number = 0;
          source_port = 0;
          destination_port = 0;
          window_size = 0;
          checksum = 0;
          urgent_pointer = 0;
          ns = true;
          fin = true;
          syn = false;
          rst = true;
          psh = true;
          ack = true;
          urg = true;
          ece = false;
          cwr = true;
        } }
{}

/// ICMP messages: a port unreachable of ICMPv4 (RFC 792), whose header has 8 bytes, a timestamp
/// request, whose header has 20, and a packet too big of ICMPv6 (RFC 4443).
#[tactic(auto, unfolding(ep_icmp::specs::Icmpv4::kind_at))]
pub fn icmp_messages()
    ensures unreachable { icmp_struct_in 34 (Some (transport.Icmpv4 (3 ∷ 3 ∷ 0x11 ∷ 0x19 ∷ 0 ∷ 0 ∷ 0 ∷
        0 ∷ 0x45 ∷ 0 ∷ []))) ≡ record {
          header = record { offset = 34; len = 8 };
          payload = record { offset = 42; len = 2 };
          checksum = 0x1119;
          icmp_type = 3;
          code = 3;
          rest = 0 ∷ 0 ∷ 0 ∷ 0 ∷ [];
        } }
    ensures timestamp { icmp_struct_in 34 (Some (transport.Icmpv4 (13 ∷ 0 ∷ 0xe0 ∷ 0xca ∷ 0x12 ∷ 0x34 ∷
        0 ∷ 1 ∷ replicate 12 0))) ≡ record {
          header = record { offset = 34; len = 20 };
          payload = record { offset = 54; len = 0 };
          checksum = 0xe0ca;
          icmp_type = 13;
          code = 0;
          rest = 0x12 ∷ 0x34 ∷ 0 ∷ 1 ∷ [];
        } }
    ensures too_big { icmp_struct_in 54 (Some (transport.Icmpv6 (2 ∷ 0 ∷ 0xab ∷ 0xcd ∷ 0 ∷ 0 ∷ 5 ∷ 220 ∷
        0x60 ∷ []))) ≡ record {
          header = record { offset = 54; len = 8 };
          payload = record { offset = 62; len = 1 };
          checksum = 0xabcd;
          icmp_type = 2;
          code = 0;
          rest = 0 ∷ 0 ∷ 5 ∷ 220 ∷ [];
        } }
{}

/// The offset of a message: after an IPv4 header of 20 bytes and an authentication header of 12, and
/// after an IPv6 header of 40 bytes and extension headers of 16; in no packet and in an ARP packet
/// there is none, and the offset is theirs.
pub fn offsets_of_messages()
    ensures ipv4 { (p : IpPayload) → message_offset_in 14 (Some (net.Ipv4 (record {
      header = replicate 20 0;
      auth = Some (replicate 12 0);
      incomplete = false;
      payload = p;
    }))) ≡ 46 }
    ensures ipv6 { (p : IpPayload) → message_offset_in 14 (Some (net.Ipv6 (record {
      header = replicate 40 0;
      exts = record { first_header = None; fragmented = false; slice = replicate 16 0 };
      incomplete = false;
      payload = p;
    }))) ≡ 70 }
    ensures none { (bytes : List ℕ) → (message_offset_in 14 None ≡ 14)
        × (message_offset_in 14 (Some (net.Arp bytes)) ≡ 14) }
{}

/// Which layer there is: 1 ARP, 4 IPv4, 6 IPv6; and 1 ICMPv4, 6 TCP, 17 UDP, 58 ICMPv6.
pub fn kinds_of_layers()
    ensures none { (net_number None ≡ 0) × (transport_number None ≡ 0) }
    ensures arp { (bytes : List ℕ) → net_number (Some (net.Arp bytes)) ≡ 1 }
    ensures ip { (p : LaxIpv4Packet) (q : LaxIpv6Packet) → (net_number (Some (net.Ipv4 p)) ≡ 4)
        × (net_number (Some (net.Ipv6 q)) ≡ 6) }
    ensures messages { (bytes : List ℕ) → (transport_number (Some (transport.Icmpv4 bytes)) ≡ 1)
        × (transport_number (Some (transport.Tcp bytes)) ≡ 6)
        × (transport_number (Some (transport.Udp bytes)) ≡ 17)
        × (transport_number (Some (transport.Icmpv6 bytes)) ≡ 58) }
{}
