//! Which packets meet a condition, by the table of docs/PACKETS.md.

ghost use Rattle.std.specs.Prelude.{◌≡◌, ◌==◌, ◌++◌, ℕ, List, [], ◌∷◌, true, false, None, Some, Ok, Err, replicate, take};
ghost use Rattle.captures.specs.declared.link.kind.Link.TheVariants as link;
ghost use Rattle.etherparse.specs.declared.defrag.ip_defrag_payload_vec.IpDefragPayloadVec.{IpDefragPayloadVec};
ghost use Rattle.ep_ipslice.specs.LaxPackets.{LaxIpv6Packet};
ghost use Rattle.ep_ipslice.specs.Packet.{Ipv6Packet};
ghost use Rattle.ep_packet.specs.Readable.{message_at};
ghost use Rattle.ep_packet.specs.declared.err.packet.slice_error.SliceError.TheVariants as fault;
ghost use Rattle.ep_packet.specs.declared.lax_sliced_packet.LaxSlicedPacket.{LaxSlicedPacket};
ghost use Rattle.ep_packet.specs.declared.net.lax_net_slice.LaxNetSlice.TheVariants as lax;
ghost use Rattle.ep_packet.specs.declared.net.net_slice.NetSlice.TheVariants as slice;
ghost use Rattle.ep_packet.specs.declared.sliced_packet.SlicedPacket.{SlicedPacket};
ghost use Rattle.ep_packet.specs.declared.transport.transport_slice.TransportSlice.TheVariants as transport;
ghost use Rattle.etherparse.specs.declared.defrag.ip_defrag_error.IpDefragError.TheVariants as fragment_error;
ghost use Rattle.ep_tag.specs.declared.link.lax_link_ext_slice.LaxLinkExtSlice.TheVariants as lax_tag;
ghost use Rattle.ep_tag.specs.declared.link.link_ext_slice.LinkExtSlice.TheVariants as tag;
ghost use Rattle.ep_tcpudp.specs.declared.err.tcp.header_error.HeaderError.TheVariants as tcp;
ghost use Rattle.header_descriptions.specs.declared.protocol.Protocol.TheVariants as protocol;
ghost use Rattle.packets.specs.Conditions.{are_within, arp_numbers, has_flag, has_host, has_port};
ghost use Rattle.packets.specs.Conditions.{has_vlan_id, holds};
ghost use Rattle.packets.specs.Conditions.{ipv4_network, ipv4_number, ipv4_numbers, ipv6_network, ipv6_numbers};
ghost use Rattle.packets.specs.Conditions.{is_within, lax_net_ipv4_numbers, lax_net_ipv6_numbers};
ghost use Rattle.packets.specs.Conditions.{net_ipv4_numbers, net_ipv6_numbers};
ghost use Rattle.packets.specs.Dissected.{verdict_on};
ghost use Rattle.packets.specs.Expressions.{IsWritten, expressions_of, formula_of, lets_through, meets};
ghost use Rattle.packets.specs.Expressions.Formula.{And, Not, Or, Test};
ghost use Rattle.packets.specs.Expressions.Part.{Alternatives};
ghost use Rattle.packets.specs.Examples.{arp_for_another_protocol, arp_of_arcnet, arp_of_ieee_802, arp_request};
ghost use Rattle.packets.specs.Examples.{datagram_with, eighth, in_part, ipv4_ends, ipv4_header, ipv4_in_part};
ghost use Rattle.packets.specs.Examples.{ipv6_header, segment_with};
ghost use Rattle.packets.specs.LaxLayers.{lax_layers_of};
ghost use Rattle.packets.specs.MessageHeaders.{completed_header, message_header, packet_header, ports_header, ports_of};
ghost use Rattle.packets.specs.MessageHeaders.{segment_header, transport_header, whole_header};
ghost use Rattle.etherparse.specs.PoolCalls.CallResult.{Delivered, Nothing};
ghost use Rattle.ep_base.specs.declared.len_source.LenSource.TheVariants as source;
ghost use Rattle.ep_packet.specs.Class.Class.{Cut};
ghost use Rattle.packets.specs.declared.dissection.Dissection.{Dissection};
ghost use Rattle.packets.specs.declared.dissection.Fragment.TheVariants as fragment;
ghost use Rattle.packets.specs.declared.condition.Condition.TheVariants as condition;
ghost use Rattle.packets.specs.declared.condition.Side.TheVariants as side;
ghost use Rattle.packets.specs.declared.condition.TcpFlag.TheVariants as tcp_flag;
ghost use Rattle.packets.specs.declared.expression.Expression.{Expression};
ghost use Rattle.packets.specs.declared.expression.Word.TheVariants as word;
ghost use Rattle.packets.specs.declared.filter.Filter.{Filter};
ghost use Rattle.packets.specs.declared.verification.Verification.TheVariants.{Over};
ghost use Rattle.std.specs.declared.net.ip_addr.IpAddr.TheVariants as ip_addr;
ghost use Rattle.checksum_verdicts.specs.declared.verdict.Verdict.TheVariants as verdict;

/// The protocol conditions: of an ARP packet in an Ethernet frame, of a TCP segment that breaks its
/// format, by the headers that are there, and of a frame of which none is.
pub fn headers_of_packets()
    ensures arp { (packet : Dissection) → packet.link ≡ link.Ethernet
        → packet.layers ≡ Ok (record {
          link = None;
          link_exts = record { items = [] };
          net = Some (slice.Arp arp_request);
          transport = None;
        }) → (holds (condition.Protocol protocol.Ethernet) packet ≡ true)
        × (holds (condition.Protocol protocol.Arp) packet ≡ true)
        × (holds (condition.Protocol protocol.Vlan) packet ≡ false) }
    ensures refused { (holds (condition.Protocol protocol.Ethernet) eighth ≡ true)
        × (holds (condition.Protocol protocol.Ipv4) eighth ≡ true)
        × (holds (condition.Protocol (protocol.OverIp (record { 0 = 6 }))) eighth ≡ true)
        × (holds (condition.Protocol (protocol.OverIp (record { 0 = 17 }))) eighth ≡ false)
        × (holds (condition.Protocol protocol.Arp) eighth ≡ false) }
    ensures short { (packet : Dissection) → packet.link ≡ link.Ethernet
        → packet.layers ≡ Err (fault.Tcp (tcp.DataOffsetTooSmall 4))
        → lax_layers_of packet.header packet.bytes ≡ None
        → (holds (condition.Protocol protocol.Ethernet) packet ≡ true)
        × (holds (condition.Protocol protocol.Ipv4) packet ≡ false) }
{}

/// The addresses of ARP packets (RFC 826), as numbers: of those for the addresses of IPv4, whatever the
/// hardware type and the length of its addresses.
pub fn addresses_of_arp_packets()
    ensures ethernet { arp_numbers arp_request ≡ Some (0x0a000001, 0x0a000002) }
    ensures ieee_802 { arp_numbers arp_of_ieee_802 ≡ Some (0x0a000001, 0x0a000002) }
    ensures arcnet { arp_numbers arp_of_arcnet ≡ Some (0x0a000001, 0x0a000002) }
    ensures protocol { arp_numbers arp_for_another_protocol ≡ None }
    ensures short { ipv4_number (10 ∷ 0 ∷ 1 ∷ []) ≡ None }
    ensures long { ipv4_number (10 ∷ 0 ∷ 0 ∷ 1 ∷ 0 ∷ []) ≡ None }
{}

/// The addresses of IP packets, as numbers: those of the header, of its own version.
pub fn addresses_of_ip_packets()
    ensures ipv4 { (payload : List ℕ) → (net_ipv4_numbers (Some (slice.Ipv4 (record {
      header = ipv4_header 17;
      auth = None;
      payload = payload;
    }))) ≡ Some (0x0a000001, 0x0a000002))
        × (net_ipv6_numbers (Some (slice.Ipv4 (record {
          header = ipv4_header 17;
          auth = None;
          payload = payload;
        }))) ≡ None) }
    ensures ipv6 { (packet : Ipv6Packet) → packet.header ≡ ipv6_header
        → (net_ipv6_numbers (Some (slice.Ipv6 packet)) ≡ Some (
          0x20010db8000000000000000000000001,
          0x20010db8000000000000000000000002,
        ))
        × (net_ipv4_numbers (Some (slice.Ipv6 packet)) ≡ None) }
    ensures arp { (net_ipv4_numbers (Some (slice.Arp arp_request)) ≡ Some (0x0a000001, 0x0a000002))
        × (net_ipv6_numbers (Some (slice.Arp arp_request)) ≡ None) }
    ensures none { (net_ipv4_numbers None ≡ None) × (net_ipv6_numbers None ≡ None) }
    ensures refused { (ipv4_numbers (Err (fault.Tcp (tcp.DataOffsetTooSmall 4)))
        (Some (in_part (Some (ipv4_in_part 6 [])) None)) ≡ Some (0x0a000001, 0x0a000002))
        × (ipv6_numbers (Err (fault.Tcp (tcp.DataOffsetTooSmall 4)))
        (Some (in_part (Some (ipv4_in_part 6 [])) None)) ≡ None)
        × (ipv4_numbers (Err (fault.Tcp (tcp.DataOffsetTooSmall 4))) None ≡ None) }
    ensures in_part { (packet : LaxIpv6Packet) → packet.header ≡ ipv6_header
        → (lax_net_ipv6_numbers (Some (lax.Ipv6 packet)) ≡ Some (
          0x20010db8000000000000000000000001,
          0x20010db8000000000000000000000002,
        ))
        × (lax_net_ipv4_numbers (Some (lax.Ipv6 packet)) ≡ None) }
    ensures arp_in_part { (lax_net_ipv4_numbers (Some (lax.Arp arp_request))
        ≡ Some (0x0a000001, 0x0a000002))
        × (lax_net_ipv6_numbers (Some (lax.Arp arp_request)) ≡ None)
        × (lax_net_ipv4_numbers None ≡ None) }
{}

/// `host` by the addresses of a packet, each of its own version, also of one that is refused, and `port`
/// by its ports: of a segment from 443 to 51234.
pub fn hosts_and_ports_of_packets()
    ensures refused { (has_host (Err (fault.Tcp (tcp.DataOffsetTooSmall 4)))
        (Some (in_part (Some (ipv4_in_part 6 [])) None))
        (ip_addr.V4 (record { octets = 10 ∷ 0 ∷ 0 ∷ 1 ∷ [] })) ≡ true)
        × (has_host (Err (fault.Tcp (tcp.DataOffsetTooSmall 4)))
        (Some (in_part (Some (ipv4_in_part 6 [])) None))
        (ip_addr.V4 (record { octets = 10 ∷ 0 ∷ 0 ∷ 2 ∷ [] })) ≡ true)
        × (has_host (Err (fault.Tcp (tcp.DataOffsetTooSmall 4)))
        (Some (in_part (Some (ipv4_in_part 6 [])) None))
        (ip_addr.V4 (record { octets = 10 ∷ 0 ∷ 0 ∷ 3 ∷ [] })) ≡ false) }
    ensures ipv6 { (packet : Ipv6Packet) (layers : SlicedPacket) → packet.header ≡ ipv6_header
        → layers.net ≡ Some (slice.Ipv6 packet) → (has_host (Ok layers) None (ip_addr.V6 (record {
          segments = 0x2001 ∷ 0x0db8 ∷ 0 ∷ 0 ∷ 0 ∷ 0 ∷ 0 ∷ 2 ∷ [];
        })) ≡ true)
        × (has_host (Ok layers) None (ip_addr.V6 (record {
          segments = 0x2001 ∷ 0x0db8 ∷ 0 ∷ 0 ∷ 0 ∷ 0 ∷ 0 ∷ 3 ∷ [];
        })) ≡ false)
        × (has_host (Ok layers) None
        (ip_addr.V4 (record { octets = 0x20 ∷ 1 ∷ 0x0d ∷ 0xb8 ∷ [] })) ≡ false) }
    ensures ports { (packet : SlicedPacket) → packet.transport ≡ Some (transport.Tcp (segment_with 5))
        → (has_port (Ok packet) None None 443 443 ≡ true)
        × (has_port (Ok packet) None None 51234 51234 ≡ true)
        × (has_port (Ok packet) None None 444 51233 ≡ false) }
{}

/// A range has both of its ends, and `src` and `dst` mean one of two addresses, as in `tcpdump`.
pub fn ranges_of_ends()
    ensures range { (are_within side.Source 1000 2000 (Some (1000, 0)) ≡ true)
        × (are_within side.Source 1000 2000 (Some (2000, 0)) ≡ true)
        × (are_within side.Source 1000 2000 (Some (999, 0)) ≡ false)
        × (are_within side.Source 1000 2000 (Some (2001, 0)) ≡ false) }
    ensures either { (are_within side.Either 1 1 (Some (1, 2)) ≡ true)
        × (are_within side.Either 2 2 (Some (1, 2)) ≡ true)
        × (are_within side.Either 3 3 (Some (1, 2)) ≡ false) }
    ensures source { (are_within side.Source 1 1 (Some (1, 2)) ≡ true)
        × (are_within side.Source 2 2 (Some (1, 2)) ≡ false) }
    ensures destination { (are_within side.Destination 2 2 (Some (1, 2)) ≡ true)
        × (are_within side.Destination 1 1 (Some (1, 2)) ≡ false) }
    ensures none { are_within side.Either 0 65535 None ≡ false }
    ensures alone { (number other : ℕ) → is_within number number other ≡ (number == other) }
{}

/// The networks 10.0.0.0/8, 192.168.4.0/22, 0.0.0.0/0 and 10.0.0.1/32, and none of 10.0.0.1/8; those
/// of 2001:db8::/32, ::/0 and ::1/128 (RFC 4632, section 3.1; RFC 4291, section 2.3).
pub fn networks()
    ensures ten { ipv4_network side.Either 0x0a000000 8
        ≡ Some (condition.Ipv4 side.Either 0x0a000000 0x0affffff) }
    ensures twenty_two { ipv4_network side.Source 0xc0a80400 22
        ≡ Some (condition.Ipv4 side.Source 0xc0a80400 0xc0a807ff) }
    ensures all { ipv4_network side.Either 0 0 ≡ Some (condition.Ipv4 side.Either 0 0xffffffff) }
    ensures one { ipv4_network side.Either 0x0a000001 32
        ≡ Some (condition.Ipv4 side.Either 0x0a000001 0x0a000001) }
    ensures bits { ipv4_network side.Either 0x0a000001 8 ≡ None }
    ensures documentation { ipv6_network side.Either 0x20010db8000000000000000000000000 32
        ≡ Some (condition.Ipv6 side.Either 0x20010db8000000000000000000000000
        0x20010db8ffffffffffffffffffffffff) }
    ensures all_of_ipv6 { ipv6_network side.Either 0 0
        ≡ Some (condition.Ipv6 side.Either 0 0xffffffffffffffffffffffffffffffff) }
    ensures loopback { ipv6_network side.Either 1 128 ≡ Some (condition.Ipv6 side.Either 1 1) }
    ensures bits_of_ipv6 { ipv6_network side.Either 1 127 ≡ None }
{}

/// The ports and flags of a message that is whole in a packet: of TCP from 443 to 51234, with `syn`,
/// and of UDP from 53 to 5353. ICMP has none. SCTP has them in a header of 12 bytes, if its packet is
/// no fragment.
pub fn headers_of_messages()
    ensures tcp { transport_header (transport.Tcp (segment_with 5)) ≡ Some (record {
      source_port = 443;
      destination_port = 51234;
      fin = false;
      syn = true;
      rst = false;
      ack = false;
      sequence_number = 17;
      acknowledgment_number = 0;
    }) }
    ensures udp { transport_header (transport.Udp (datagram_with 0x11 0xef))
        ≡ Some (ports_header 53 5353) }
    ensures icmp { (transport_header (transport.Icmpv4 (0 ∷ 53 ∷ 0x14 ∷ 0xe9 ∷ [])) ≡ None)
        × (transport_header (transport.Icmpv6 (0 ∷ 53 ∷ 0x14 ∷ 0xe9 ∷ [])) ≡ None) }
    ensures sctp { (whole_header false 132 (datagram_with 0x11 0xef) ≡ Some (ports_header 53 5353))
        × (whole_header false 132 (take 11 (datagram_with 0x11 0xef)) ≡ None)
        × (whole_header true 132 (datagram_with 0x11 0xef) ≡ None)
        × (whole_header false 133 (datagram_with 0x11 0xef) ≡ None) }
    ensures refused { (packet_header (Err (fault.Tcp (tcp.DataOffsetTooSmall 4)))
        (Some (in_part (Some (ipv4_in_part 6 (segment_with 4))) None)) ≡ None)
        × (packet_header (Err (fault.Tcp (tcp.DataOffsetTooSmall 4))) None ≡ None)
        × (ports_of (packet_header (Err (fault.Tcp (tcp.DataOffsetTooSmall 4))) (Some (in_part
        (Some (ipv4_in_part 17 (take 8 (datagram_with 0x11 0xef))))
        (Some (transport.Udp (take 8 (datagram_with 0x11 0xef))))))) ≡ Some (53, 5353)) }
{}

/// Also of the message that a fragment completes, where that can be read, and of no other fragment.
pub fn headers_of_completed_messages()
    ensures read { (ports_of (completed_header 6 (message_at 6 (segment_with 5))) ≡ Some (443, 51234))
        × (ports_of (completed_header 17 (message_at 17 (datagram_with 0x11 0xef))) ≡ Some (53, 5353))
        × (completed_header 1 (message_at 1 (0 ∷ 53 ∷ 0 ∷ 53 ∷ 0 ∷ 53 ∷ 0 ∷ 53 ∷ [])) ≡ None)
        × (completed_header 58 (message_at 58 (0 ∷ 53 ∷ 0 ∷ 53 ∷ 0 ∷ 53 ∷ 0 ∷ 53 ∷ [])) ≡ None)
        × (ports_of (completed_header 132 (message_at 132 (datagram_with 0x11 0xef))) ≡ Some (53, 5353))
        × (completed_header 132 (message_at 132 (0 ∷ 53 ∷ 0 ∷ 53 ∷ [])) ≡ None) }
    ensures refused { completed_header 6 (message_at 6 (segment_with 4)) ≡ None }
    ensures completing { (message : IpDefragPayloadVec) → message.ip_number ≡ record { 0 = 17 }
        → message.payload.items ≡ datagram_with 0x11 0xef → ports_of (message_header (Ok (record {
          link = None;
          link_exts = record { items = [] };
          net = None;
          transport = None;
        })) None (Some (fragment.Completes 5 message))) ≡ Some (53, 5353) }
    ensures others { (packet : SlicedPacket) → packet.transport ≡ None → packet.net ≡ None
        → (message_header (Ok packet) None (Some (fragment.Waits 5)) ≡ None)
        × (message_header (Ok packet) None
        (Some (fragment.Refused None (fragment_error.ConflictingEnd 24 32))) ≡ None) }
{}

/// `syn`, `fin` and `rst` are bits 1, 0 and 2 of the flags (RFC 9293, section 3.1).
pub fn flags_of_segments()
    ensures synchronizing { (has_flag tcp_flag.Syn (transport_header (transport.Tcp (segment_with 5))) ≡ true)
        × (has_flag tcp_flag.Fin (transport_header (transport.Tcp (segment_with 5))) ≡ false)
        × (has_flag tcp_flag.Rst (transport_header (transport.Tcp (segment_with 5))) ≡ false) }
    ensures others { (has_flag tcp_flag.Fin (Some (segment_header (replicate 13 0 ++ 1 ∷ []))) ≡ true)
        × (has_flag tcp_flag.Rst (Some (segment_header (replicate 13 0 ++ 4 ∷ []))) ≡ true)
        × (has_flag tcp_flag.Syn (Some (segment_header (replicate 13 0 ++ 5 ∷ []))) ≡ false) }
    ensures none { has_flag tcp_flag.Syn None ≡ false }
{}

/// `vlan=5` by any of the tags, of which two are VLANs 5 and 9 (IEEE 802.1Q, section 9.6).
pub fn identifiers_of_vlans()
    ensures outer { (packet : SlicedPacket)
        → packet.link_exts.items ≡ tag.Vlan (0 ∷ 5 ∷ 0x81 ∷ 0 ∷ []) ∷ tag.Vlan (0xe0 ∷ 9 ∷ 8 ∷ 0 ∷ []) ∷ []
        → (has_vlan_id (Ok packet) None 5 5 ≡ true) × (has_vlan_id (Ok packet) None 9 9 ≡ true)
        × (has_vlan_id (Ok packet) None 6 8 ≡ false) }
    ensures none { (packet : SlicedPacket) → packet.link_exts.items ≡ []
        → has_vlan_id (Ok packet) None 0 4095 ≡ false }
    ensures refused { (packet : LaxSlicedPacket)
        → packet.link_exts.items ≡ lax_tag.Vlan (0 ∷ 5 ∷ 8 ∷ 0 ∷ []) ∷ []
        → (has_vlan_id (Err (fault.Tcp (tcp.DataOffsetTooSmall 4))) (Some packet) 5 5 ≡ true)
        × (has_vlan_id (Err (fault.Tcp (tcp.DataOffsetTooSmall 4))) (Some packet) 4 4 ≡ false)
        × (has_vlan_id (Err (fault.Tcp (tcp.DataOffsetTooSmall 4))) None 0 4095 ≡ false) }
{}

/// Lengths on the wire and numbers of packets: of the eighth packet, of 54 bytes.
pub fn lengths_and_numbers()
    ensures at_least { (holds (condition.WireLen 54 4294967295) eighth ≡ true)
        × (holds (condition.WireLen 55 4294967295) eighth ≡ false) }
    ensures at_most { (holds (condition.WireLen 0 54) eighth ≡ true)
        × (holds (condition.WireLen 0 53) eighth ≡ false) }
    ensures numbers { (holds (condition.Number 8 8) eighth ≡ true)
        × (holds (condition.Number 1 7) eighth ≡ false) × (holds (condition.Number 9 20) eighth ≡ false) }
{}

/// `bad` by the checksum of a packet's message, and by that of the message which it completes.
pub fn bad_checksums()
    ensures bad { (packet : Dissection) → packet.verdict ≡ Some verdict.Bad
        → holds condition.Bad packet ≡ true }
    ensures others { (packet : Dissection) → packet.verdict ≡ Some verdict.Good
        → holds condition.Bad packet ≡ false }
    ensures unchecked { (packet : Dissection) → packet.verdict ≡ Some verdict.None
        → holds condition.Bad packet ≡ false }
    ensures none { (packet : Dissection) → packet.verdict ≡ None
        → holds condition.Bad packet ≡ false }
    // Over IPv4 from 10.0.0.1 to 10.0.0.2 the checksum of the datagram is 11ef (RFC 768).
    ensures completing { (verdict_on (Over ipv4_ends) (Cut (record {
      vlan_ids = [];
      addresses = ipv4_ends;
      identification = 5;
      number = 17;
    }) 1 false (97 ∷ 98 ∷ 99 ∷ 100 ∷ [])) (Delivered (record {
      ip_number = record { 0 = 17 };
      len_source = source.Ipv4HeaderTotalLen;
      bytes = datagram_with 0x11 0xf0;
    })) ≡ Some verdict.Bad)
        × (verdict_on (Over ipv4_ends) (Cut (record {
          vlan_ids = [];
          addresses = ipv4_ends;
          identification = 5;
          number = 17;
        }) 1 false (97 ∷ 98 ∷ 99 ∷ 100 ∷ [])) (Delivered (record {
          ip_number = record { 0 = 17 };
          len_source = source.Ipv4HeaderTotalLen;
          bytes = datagram_with 0x11 0xef;
        })) ≡ Some verdict.Good) }
    ensures waiting { verdict_on (Over ipv4_ends) (Cut (record {
      vlan_ids = [];
      addresses = ipv4_ends;
      identification = 5;
      number = 17;
    }) 0 true (datagram_with 0x11 0xf0)) Nothing ≡ None }
{}

/// `refused` by a packet's own headers, as a fragment, and by the message that a fragment
/// completes; `fragments` whatever becomes of a fragment.
pub fn refused_packets_and_fragments()
    ensures headers { (packet : Dissection)
        → packet.layers ≡ Err (fault.Tcp (tcp.DataOffsetTooSmall 4)) → packet.fragment ≡ None
        → (holds condition.Refused packet ≡ true) × (holds condition.Fragment packet ≡ false) }
    ensures fragment { (packet : Dissection) (layers : SlicedPacket) → packet.layers ≡ Ok layers
        → packet.fragment ≡ Some (fragment.Refused None (fragment_error.ConflictingEnd 24 32))
        → (holds condition.Refused packet ≡ true) × (holds condition.Fragment packet ≡ true) }
    ensures breaking { (packet : Dissection) (layers : SlicedPacket)
        (message : IpDefragPayloadVec) → packet.layers ≡ Ok layers
        → packet.fragment ≡ Some (fragment.Completes 5 message)
        → message.ip_number ≡ record { 0 = 6 } → message.payload.items ≡ segment_with 4
        → (holds condition.Refused packet ≡ true) × (holds condition.Fragment packet ≡ true) }
    ensures completing { (packet : Dissection) (layers : SlicedPacket)
        (message : IpDefragPayloadVec) → packet.layers ≡ Ok layers
        → packet.fragment ≡ Some (fragment.Completes 5 message)
        → message.ip_number ≡ record { 0 = 6 } → message.payload.items ≡ segment_with 5
        → (holds condition.Refused packet ≡ false) × (holds condition.Fragment packet ≡ true) }
    ensures waiting { (packet : Dissection) (layers : SlicedPacket) → packet.layers ≡ Ok layers
        → packet.fragment ≡ Some (fragment.Waits 5)
        → (holds condition.Refused packet ≡ false) × (holds condition.Fragment packet ≡ true) }
    ensures whole { (packet : Dissection) (layers : SlicedPacket) → packet.layers ≡ Ok layers
        → packet.fragment ≡ None
        → (holds condition.Refused packet ≡ false) × (holds condition.Fragment packet ≡ false) }
{}

/// `cut` where fewer bytes were captured than were on the wire: 96 of 1514, and not all of 96, nor 96
/// where the record says 64.
pub fn packets_that_were_cut()
    ensures fewer { (packet : Dissection) → packet.captured_len ≡ 96 → packet.wire_len ≡ 1514
        → holds condition.Cut packet ≡ true }
    ensures one { (packet : Dissection) → packet.captured_len ≡ 96 → packet.wire_len ≡ 97
        → holds condition.Cut packet ≡ true }
    ensures all { (packet : Dissection) → packet.captured_len ≡ 96 → packet.wire_len ≡ 96
        → holds condition.Cut packet ≡ false }
    ensures more { (packet : Dissection) → packet.captured_len ≡ 96 → packet.wire_len ≡ 64
        → holds condition.Cut packet ≡ false }
{}

/// All expressions have to hold, and none lets everything through: of a fragment that waits and of one
/// whose checksum is bad.
pub fn filters()
    ensures none { (filter : Filter) (packet : Dissection) → expressions_of filter ≡ []
        → lets_through filter packet ≡ true }
    ensures all { (filter : Filter) (packet : Dissection) (one other : Expression)
        → packet.fragment ≡ Some (fragment.Waits 5) → packet.verdict ≡ Some verdict.Bad
        → formula_of one ≡ Test condition.Fragment → formula_of other ≡ Test condition.Bad
        → expressions_of filter ≡ one ∷ other ∷ [] → lets_through filter packet ≡ true }
    ensures first { (filter : Filter) (packet : Dissection) (one other : Expression)
        → packet.fragment ≡ Some (fragment.Waits 5) → packet.verdict ≡ None
        → formula_of one ≡ Test condition.Fragment → formula_of other ≡ Test condition.Bad
        → expressions_of filter ≡ one ∷ other ∷ [] → lets_through filter packet ≡ false }
    ensures last { (filter : Filter) (packet : Dissection) (one other : Expression)
        → packet.fragment ≡ None → packet.verdict ≡ Some verdict.Bad
        → formula_of one ≡ Test condition.Fragment → formula_of other ≡ Test condition.Bad
        → expressions_of filter ≡ one ∷ other ∷ [] → lets_through filter packet ≡ false }
{}

/// What `not`, `and` and `or` mean, of a fragment without a verdict.
pub fn formulas()
    ensures negated { (packet : Dissection) → packet.fragment ≡ Some (fragment.Waits 5)
        → packet.verdict ≡ None → (meets (Not (Test condition.Bad)) packet ≡ true)
        × (meets (Not (Test condition.Fragment)) packet ≡ false) }
    ensures joint { (packet : Dissection) → packet.fragment ≡ Some (fragment.Waits 5)
        → packet.verdict ≡ None
        → (meets (And (Test condition.Fragment) (Test condition.Bad)) packet ≡ false)
        × (meets (And (Test condition.Fragment) (Test condition.Fragment)) packet ≡ true) }
    ensures alternatives { (packet : Dissection) → packet.fragment ≡ Some (fragment.Waits 5)
        → packet.verdict ≡ None
        → (meets (Or (Test condition.Bad) (Test condition.Fragment)) packet ≡ true)
        × (meets (Or (Test condition.Bad) (Test condition.Bad)) packet ≡ false) }
{}

/// `bad or not cut and refused` means `bad or ((not cut) and refused)`: `not` binds tighter than `and`,
/// and `and` tighter than `or`.
pub fn precedence()
    ensures { IsWritten Alternatives (word.Test condition.Bad ∷ word.Or ∷ word.Not ∷ word.Test condition.Cut
        ∷ word.And ∷ word.Test condition.Refused ∷ [])
        (Or (Test condition.Bad) (And (Not (Test condition.Cut)) (Test condition.Refused))) }
{}
