//! Laws that relate headers to the slices of the same packet, at values worked out by hand after
//! IEEE 802.3 and 802.1AE, and RFC 768, 791, 792, 826, 4443 and 9293.
ghost use Rattle.std.specs.Prelude.{◌≡◌, [], ◌∷◌, ◌++◌, false, Some, None};
ghost use Rattle.ep_base.specs.declared.len_source.LenSource.TheVariants as source;
ghost use Rattle.ep_link.specs.Frame.{without_fcs};
ghost use Rattle.ep_link.specs.declared.link.link_header.LinkHeader.TheVariants as link_header;
ghost use Rattle.ep_link.specs.declared.link.link_slice.LinkSlice.TheVariants as link;
ghost use Rattle.ep_packet.specs.Examples.{eight_bytes, ipv4_packet, tag_1, udp_message, vlan_named, whole_frame};
ghost use Rattle.ep_packet.specs.Payload.{Empty, Ether, Icmpv4, Icmpv6, Ip, MacsecMod, Tcp, Udp};
ghost use Rattle.ep_packet.specs.SameHeaders.{after_layers, after_message, after_packet, after_tags, link_fields};
ghost use Rattle.ep_packet.specs.SameHeaders.{transport_fields};
ghost use Rattle.ep_packet.specs.declared.net.net_slice.NetSlice.TheVariants as net;
ghost use Rattle.ep_packet.specs.declared.transport.transport_header.TransportHeader.TheVariants as header;
ghost use Rattle.ep_packet.specs.declared.transport.transport_slice.TransportSlice.TheVariants as message;
ghost use Rattle.ep_tag.specs.MacsecPayload.MacsecPayload.{Modified};
ghost use Rattle.ep_tag.specs.declared.link.link_ext_slice.LinkExtSlice.TheVariants as tag;

/// The fields of a frame's link header, and none of an ether payload without one; the fields of a
/// UDP header.
pub fn fields_at_literals()
    ensures frame { link_fields (Some (link.Ethernet2 (without_fcs whole_frame)))
        ≡ Some (link_header.Ethernet2 (record {
          source = 2 ∷ 0 ∷ 0 ∷ 0 ∷ 0 ∷ 1 ∷ [];
          destination = 2 ∷ 0 ∷ 0 ∷ 0 ∷ 0 ∷ 2 ∷ [];
          ether_type = record { 0 = 33024 };
        })) }
    ensures none { link_fields (Some (link.EtherPayload (vlan_named tag_1))) ≡ None }
    ensures udp { transport_fields (message.Udp udp_message) ≡ header.Udp (record {
      source_port = 1;
      destination_port = 2;
      length = 8;
      checksum = 0;
    }) }
{}

/// The payload after the headers of messages: eight bytes after a UDP header, after a TCP header
/// with an option of four bytes, after an ICMP header, and after one of ICMP over IPv6; nothing
/// after the twenty bytes of an ICMP timestamp.
pub fn payloads_of_messages_at_literals()
    ensures udp { after_message (message.Udp (0 ∷ 1 ∷ 0 ∷ 2 ∷ 0 ∷ 16 ∷ 0 ∷ 0 ∷ eight_bytes))
        ≡ Udp eight_bytes }
    ensures tcp { after_message
        (message.Tcp (0 ∷ 1 ∷ 0 ∷ 2 ∷ 0 ∷ 0 ∷ 0 ∷ 3 ∷ 0 ∷ 0 ∷ 0 ∷ 0 ∷ 96 ∷ 2 ∷ 4 ∷ 0 ∷ 0 ∷ 0 ∷ 0 ∷ 0
        ∷ 2 ∷ 4 ∷ 5 ∷ 180 ∷ eight_bytes)) ≡ Tcp eight_bytes }
    ensures icmpv4 { after_message (message.Icmpv4 (8 ∷ 0 ∷ 0 ∷ 0 ∷ 0 ∷ 1 ∷ 0 ∷ 2 ∷ eight_bytes))
        ≡ Icmpv4 eight_bytes }
    ensures timestamp { after_message
        (message.Icmpv4 (13 ∷ 0 ∷ 0 ∷ 0 ∷ 0 ∷ 1 ∷ 0 ∷ 2 ∷ 0 ∷ 0 ∷ 0 ∷ 9 ∷ eight_bytes))
        ≡ Icmpv4 [] }
    ensures icmpv6 { after_message (message.Icmpv6 (128 ∷ 0 ∷ 0 ∷ 0 ∷ 0 ∷ 1 ∷ 0 ∷ 2 ∷ eight_bytes))
        ≡ Icmpv6 eight_bytes }
{}

/// The payload after packets and tags: the IPv4 payload with its IP number and the source of its
/// length, nothing after ARP; what the last ether type names, or else a modified MACsec payload.
pub fn payloads_of_layers_at_literals()
    ensures ipv4 { after_packet (net.Ipv4 ipv4_packet) ≡ Ip (record {
      ip_number = record { 0 = 17 };
      fragmented = false;
      len_source = source.Ipv4HeaderTotalLen;
      payload = udp_message;
    }) }
    ensures arp { after_layers (Some (net.Arp [])) None (Ether (vlan_named tag_1)) ≡ Empty }
    ensures message { after_layers (Some (net.Ipv4 ipv4_packet))
        (Some (message.Udp udp_message)) Empty ≡ Udp [] }
    ensures none { after_layers None None (Ether (vlan_named tag_1)) ≡ Ether (vlan_named tag_1) }
    ensures named { after_tags [] (Some (vlan_named tag_1)) ≡ Ether (vlan_named tag_1) }
    ensures modified { after_tags (tag.Vlan tag_1 ∷
        tag.Macsec (record { header = []; payload = Modified (9 ∷ []) }) ∷ []) None
        ≡ MacsecMod (9 ∷ []) }
    ensures nothing { after_tags
        (tag.Macsec (record { header = []; payload = Modified (9 ∷ []) }) ∷
        tag.Vlan tag_1 ∷ []) None ≡ Empty }
{}
