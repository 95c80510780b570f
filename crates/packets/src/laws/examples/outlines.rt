//! What filters and summaries need of packets, by the table of docs/PACKETS.md.

ghost use Rattle.std.specs.Prelude.{◌≡◌, ℕ, List, [], ◌∷◌, ◌++◌, true, false, None, Some, Ok, Err, replicate};
ghost use Rattle.captures.specs.declared.link.kind.Link.TheVariants as link;
ghost use Rattle.ep_base.specs.declared.err.layer.Layer.TheVariants as layer;
ghost use Rattle.ep_base.specs.declared.len_source.LenSource.TheVariants as source;
ghost use Rattle.etherparse.specs.declared.defrag.ip_defrag_payload_vec.IpDefragPayloadVec.{IpDefragPayloadVec};
ghost use Rattle.etherparse.specs.declared.defrag.ip_defrag_error.IpDefragError.TheVariants as fragment_error;
ghost use Rattle.ep_ipslice.specs.LaxPackets.{LaxIpv6Packet};
ghost use Rattle.ep_ipslice.specs.Packet.{Ipv6Packet};
ghost use Rattle.ep_packet.specs.Readable.{message_at};
ghost use Rattle.ep_packet.specs.declared.err.packet.slice_error.SliceError.TheVariants as fault;
ghost use Rattle.ep_packet.specs.declared.net.lax_net_slice.LaxNetSlice.TheVariants as lax;
ghost use Rattle.ep_packet.specs.declared.net.net_slice.NetSlice.TheVariants as slice;
ghost use Rattle.ep_packet.specs.declared.sliced_packet.SlicedPacket.{SlicedPacket};
ghost use Rattle.ep_tag.specs.declared.link.lax_link_ext_slice.LaxLinkExtSlice.TheVariants as lax_tag;
ghost use Rattle.ep_tag.specs.declared.link.lax_macsec_slice.LaxMacsecSlice.{LaxMacsecSlice};
ghost use Rattle.ep_tag.specs.declared.link.link_ext_slice.LinkExtSlice.TheVariants as tag;
ghost use Rattle.ep_tag.specs.declared.link.macsec_slice.MacsecSlice.{MacsecSlice};
ghost use Rattle.ep_tcpudp.specs.declared.err.tcp.header_error.HeaderError.TheVariants as tcp;
ghost use Rattle.packets.specs.Examples.{arp_request, datagram_with, eighth, headers_over, in_part, ipv4_ends};
ghost use Rattle.packets.specs.Examples.{ipv4_header, ipv4_in_part, ipv6_ends};
ghost use Rattle.packets.specs.Examples.{ipv6_header, message, no_headers, outline_of_fragment, refused, segment_with};
ghost use Rattle.packets.specs.Outlines.{headers_of, is_ethernet, is_macsec, is_vlan, lax_headers_of};
ghost use Rattle.packets.specs.Outlines.{message_refusal, net_of};
ghost use Rattle.packets.specs.Outlines.{outline_of, fragment_state_of, fragment_refusal, refusal_of};
ghost use Rattle.packets.specs.declared.dissection.Dissection.{Dissection};
ghost use Rattle.packets.specs.declared.dissection.Fragment.TheVariants as fragment;
ghost use Rattle.packets.specs.declared.outline.Net.TheVariants as net;
ghost use Rattle.packets.specs.declared.outline.FragmentState.TheVariants as state;
ghost use Rattle.packets.specs.declared.reason.Reason.TheVariants as reason;
ghost use Rattle.checksum_verdicts.specs.declared.verdict.Verdict.TheVariants as verdict;

/// `eth` is a packet that was captured as an Ethernet frame, and on no other link.
pub fn links()
    ensures ethernet { is_ethernet link.Ethernet ≡ true }
    ensures others { (is_ethernet link.Ip ≡ false) × (is_ethernet link.Null ≡ false)
        × (is_ethernet link.Loop ≡ false) × (is_ethernet link.Sll ≡ false)
        × (is_ethernet link.Sll2 ≡ false) × (is_ethernet (link.Other 105) ≡ false) }
{}

/// The tag of VLAN 5 before an ARP packet (IEEE 802.1Q), and a MACsec header.
pub fn tags()
    ensures vlan { (is_vlan (tag.Vlan (0 ∷ 5 ∷ 8 ∷ 6 ∷ arp_request)) ≡ true)
        × (is_macsec (tag.Vlan (0 ∷ 5 ∷ 8 ∷ 6 ∷ arp_request)) ≡ false) }
    ensures macsec { (header : MacsecSlice) → (is_macsec (tag.Macsec header) ≡ true)
        × (is_vlan (tag.Macsec header) ≡ false) }
{}

/// The header of the network layer, with the number of the protocol it carries: of UDP, 17, also
/// after an authentication header (RFC 4302), which has 51.
pub fn headers_of_the_network_layer()
    ensures ipv4 { net_of (Some (slice.Ipv4 (record {
      header = ipv4_header 17;
      auth = None;
      payload = datagram_with 0x11 0xef;
    }))) ≡ Some (net.Ip ipv4_ends (record { 0 = 17 })) }
    ensures auth { net_of (Some (slice.Ipv4 (record {
      header = ipv4_header 51;
      auth = Some (17 ∷ 1 ∷ replicate 10 0);
      payload = [];
    }))) ≡ Some (net.Ip ipv4_ends (record { 0 = 17 })) }
    ensures ipv6 { (packet : Ipv6Packet) → packet.header ≡ ipv6_header
        → packet.payload.ip_number ≡ record { 0 = 17 }
        → net_of (Some (slice.Ipv6 packet)) ≡ Some (net.Ip ipv6_ends (record { 0 = 17 })) }
    ensures arp { net_of (Some (slice.Arp arp_request)) ≡ Some net.Arp }
    ensures none { net_of None ≡ None }
{}

/// The headers of an ARP packet in a VLAN; those that are there of a packet that breaks a format, of
/// which nothing may be known but that it was captured as an Ethernet frame.
pub fn headers_of_packets()
    ensures tagged { headers_of link.Sll2 (Ok (record {
      link = None;
      link_exts = record { items = tag.Vlan (0 ∷ 5 ∷ 8 ∷ 6 ∷ arp_request) ∷ [] };
      net = Some (slice.Arp arp_request);
      transport = None;
    })) None ≡ record { ethernet = false; vlan = true; macsec = false; net = Some net.Arp } }
    ensures inner { (header : MacsecSlice) → headers_of link.Ethernet (Ok (record {
      link = None;
      link_exts = record {
        items = tag.Macsec header ∷ tag.Vlan (0 ∷ 5 ∷ 0x88 ∷ 0xb5 ∷ []) ∷ [];
      };
      net = None;
      transport = None;
    })) None ≡ record { ethernet = true; vlan = true; macsec = true; net = None } }
    ensures plain { headers_of link.Ethernet (Ok (record {
      link = None;
      link_exts = record { items = [] };
      net = None;
      transport = None;
    })) None ≡ no_headers }
    ensures refused { (headers_of link.Ethernet (Err (fault.Tcp (tcp.DataOffsetTooSmall 4))) None
        ≡ no_headers)
        × (headers_of link.Ip (Err (fault.Tcp (tcp.DataOffsetTooSmall 4))) None
        ≡ record { ethernet = false; vlan = false; macsec = false; net = None })
        × (headers_of link.Ethernet (Err (fault.Tcp (tcp.DataOffsetTooSmall 4)))
        (Some (in_part (Some (ipv4_in_part 6 (segment_with 4))) None)) ≡ headers_over ipv4_ends 6) }
    ensures tagged_in_part { (header : LaxMacsecSlice) → lax_headers_of link.Ethernet (Some (record {
      link = None;
      link_exts = record {
        items = lax_tag.Macsec header ∷ lax_tag.Vlan (0 ∷ 5 ∷ 8 ∷ 6 ∷ []) ∷ [];
      };
      net = Some (lax.Arp arp_request);
      transport = None;
      stop_err = None;
    })) ≡ record { ethernet = true; vlan = true; macsec = true; net = Some net.Arp } }
    ensures ipv6_in_part { (packet : LaxIpv6Packet) → packet.header ≡ ipv6_header
        → packet.payload.ip_number ≡ record { 0 = 17 }
        → lax_headers_of link.Ethernet (Some (in_part (Some (lax.Ipv6 packet)) None))
        ≡ headers_over ipv6_ends 17 }
{}

/// Reassembled messages: a TCP header of 4 words is refused and one of 5 isn't; a UDP datagram of
/// which 11 of 12 bytes are there, and an ICMP message of 7 bytes; what isn't read is never
/// refused.
pub fn messages_are_refused()
    ensures segment { (message_refusal (message_at 6 (segment_with 4))
        ≡ Some reason.TcpDataOffset) × (message_refusal (message_at 6 (segment_with 5)) ≡ None) }
    ensures datagram { (message_refusal (message_at 17 (0 ∷ 53 ∷ 0x14 ∷ 0xe9 ∷ 0 ∷ 12 ∷ 0 ∷ 0 ∷ 97
        ∷ 98 ∷ 99 ∷ [])) ≡ Some (reason.CutOff layer.UdpPayload))
        × (message_refusal (message_at 17 (datagram_with 0x11 0xef)) ≡ None) }
    ensures icmp { message_refusal (message_at 1 (8 ∷ replicate 6 0))
        ≡ Some (reason.CutOff layer.Icmpv4) }
    ensures other { message_refusal (message_at 132 []) ≡ None }
{}

/// What became of a fragment, and why it is refused: one that waits isn't, and one that completes a
/// message is where that breaks its format.
pub fn parts()
    ensures states { (message : IpDefragPayloadVec) → (fragment_state_of None ≡ None)
        × (fragment_state_of (Some (fragment.Waits 5)) ≡ Some state.Waits)
        × (fragment_state_of (Some (fragment.Completes 5 message)) ≡ Some state.Completes)
        × (fragment_state_of (Some (fragment.Refused None (fragment_error.ConflictingEnd 24 32)))
        ≡ Some state.Refused) }
    ensures none { fragment_refusal None ≡ None }
    ensures waiting { fragment_refusal (Some (fragment.Waits 5)) ≡ None }
    ensures refused { fragment_refusal (Some (fragment.Refused (Some 3)
        (fragment_error.ConflictingEnd 24 32))) ≡ Some reason.FragmentEnd }
    ensures breaking { (message : IpDefragPayloadVec) → message.ip_number ≡ record { 0 = 6 }
        → message.payload.items ≡ segment_with 4
        → fragment_refusal (Some (fragment.Completes 5 message)) ≡ Some reason.TcpDataOffset }
    ensures completing { (message : IpDefragPayloadVec) → message.ip_number ≡ record { 0 = 6 }
        → message.payload.items ≡ segment_with 5
        → fragment_refusal (Some (fragment.Completes 5 message)) ≡ None }
{}

/// A packet is refused by its own headers, or as a fragment.
pub fn packets_are_refused()
    ensures headers { refusal_of (Err (fault.Tcp (tcp.DataOffsetTooSmall 4))) None
        ≡ Some reason.TcpDataOffset }
    ensures fragment { (packet : SlicedPacket) → refusal_of (Ok packet)
        (Some (fragment.Refused None (fragment_error.SegmentTooBig 8191 8 65535)))
        ≡ Some reason.FragmentTooLong }
    ensures waiting { (packet : SlicedPacket)
        → refusal_of (Ok packet) (Some (fragment.Waits 5)) ≡ None }
    ensures other { (packet : SlicedPacket) → refusal_of (Ok packet) None ≡ None }
{}

/// The eighth packet of the capture of docs/PACKETS.md, a TCP segment that breaks its format; the
/// seventh, an IPv4 header that is cut off; the sixth, which completes a message that started in the
/// fifth; and the second, whose checksum is wrong.
pub fn outlines_of_the_page()
    ensures eighth { outline_of eighth ≡ record (refused 8 7 54 reason.TcpDataOffset) { headers = headers_over ipv4_ends 6 } }
    ensures seventh { outline_of (record {
      number = 7;
      first_time = 1700000000250000000;
      previous_time = 1700000000875000000;
      time = 1700000001000000000;
      interface = 0;
      link = link.Ethernet;
      header = None;
      bytes = replicate 12 2 ++ 8 ∷ 0 ∷ 0x45 ∷ 0 ∷ 0 ∷ 28 ∷ 0 ∷ 1 ∷ 0 ∷ [];
      len = 21;
      captured_len = 21;
      wire_len = 21;
      layers = Err (fault.Len (record {
        required_len = 20;
        len = 7;
        len_source = source.Slice;
        layer = layer.Ipv4Header;
        layer_start_offset = 14;
      }));
      fragment = None;
      checksums = true;
      verdict = None;
    }) ≡ refused 7 6 21 (reason.CutOff layer.Ipv4Header) }
    ensures sixth { (message : IpDefragPayloadVec) → message.ip_number ≡ record { 0 = 17 }
        → message.payload.items ≡ datagram_with 0x11 0xef → outline_of (record {
          number = 6;
          first_time = 1700000000250000000;
          previous_time = 1700000000750000000;
          time = 1700000000875000000;
          interface = 0;
          link = link.Ethernet;
          header = None;
          bytes = [];
          len = 50;
          captured_len = 50;
          wire_len = 50;
          layers = Ok (record {
            link = None;
            link_exts = record { items = [] };
            net = Some (slice.Ipv4 (record {
              header = ipv4_header 17;
              auth = None;
              payload = replicate 16 0;
            }));
            transport = None;
          });
          fragment = Some (fragment.Completes 5 message);
          checksums = true;
          verdict = Some verdict.Good;
        }) ≡ outline_of_fragment 6 5 state.Completes (Some verdict.Good) }
    ensures second { outline_of (record {
      number = 2;
      first_time = 1700000000250000000;
      previous_time = 1700000000250000000;
      time = 1700000000375000000;
      interface = 0;
      link = link.Ethernet;
      header = None;
      bytes = [];
      len = 46;
      captured_len = 46;
      wire_len = 46;
      layers = Ok (record {
        link = None;
        link_exts = record { items = [] };
        net = Some (slice.Ipv4 (record {
          header = ipv4_header 17;
          auth = None;
          payload = datagram_with 0x11 0xf0;
        }));
        transport = None;
      });
      fragment = None;
      checksums = true;
      verdict = Some verdict.Bad;
    }) ≡ message 2 1 46 (headers_over ipv4_ends 17) (Some verdict.Bad) }
{}

/// A packet of which 96 of 1514 bytes were captured.
pub fn outlines_of_packets_that_were_cut()
    ensures captured { (packet : Dissection) → packet.captured_len ≡ 96
        → (outline_of packet).captured_len ≡ 96 }
    ensures wire { (packet : Dissection) → packet.wire_len ≡ 1514
        → (outline_of packet).wire_len ≡ 1514 }
{}
