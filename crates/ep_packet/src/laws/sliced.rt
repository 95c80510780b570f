//! Laws of sliced frames at literal frames: the results were worked out by hand after IEEE 802.3,
//! 802.1Q and 802.1AE and RFC 768, 791, 826 and 8200, so that a definition can't change with the
//! code.
ghost use Rattle.std.specs.Prelude.{◌≡◌, [], ◌∷◌, ◌++◌, true, false, Ok, Err, Some, None};
ghost use Rattle.ep_base.specs.declared.err.layer.Layer.TheVariants as layer;
ghost use Rattle.ep_base.specs.declared.len_source.LenSource.TheVariants as source;
ghost use Rattle.ep_ipslice.specs.declared.err.ip.header_error.HeaderError.TheVariants.{UnsupportedIpVersion};
ghost use Rattle.ep_link.specs.declared.link.link_slice.LinkSlice.TheVariants as link;
ghost use Rattle.ep_packet.specs.Class.{class_of};
ghost use Rattle.ep_packet.specs.Class.Class.{Cut, Other, Refused, Whole};
ghost use Rattle.ep_packet.specs.Examples.{bounded_packet, cooked_header, cooked_packet, cooked_without_type};
ghost use Rattle.ep_packet.specs.Examples.{fragment_frame, eight_bytes, frame_addresses, ipv4_addresses};
ghost use Rattle.ep_packet.specs.Examples.{ipv4_fragment_header, ipv4_header, ipv4_header_before, ipv4_packet};
ghost use Rattle.ep_packet.specs.Examples.{ipv6_fragment_frame, ipv6_destination, ipv6_other_frame, ipv6_source, tag_1};
ghost use Rattle.ep_packet.specs.Examples.{tag_2, tag_3, tag_4, udp_message, tag_header, vlan_named, whole_frame};
ghost use Rattle.ep_packet.specs.PacketView.{ether_payload_in, ip_payload_of, is_fragment, last_payload};
ghost use Rattle.ep_packet.specs.PacketView.{payload_ether_type_in, source_after, vlan_slice_of};
ghost use Rattle.ep_packet.specs.Parts.{headers_len, tags_len};
ghost use Rattle.ep_packet.specs.Readable.ReadMessage.{Udp};
ghost use Rattle.ep_packet.specs.SliceFault.{bounded_by, offset_by, within};
ghost use Rattle.ep_packet.specs.PacketHeaders.{vlan_header_of};
ghost use Rattle.ep_packet.specs.Sliced.{sliced_ether_type, sliced_ip, sliced_linux_sll};
ghost use Rattle.ep_packet.specs.Tags.{is_macsec_type, tags_in, vlan_ids_of};
ghost use Rattle.ep_tag.specs.Vlan.{is_vlan_type};
ghost use Rattle.ep_packet.specs.declared.addresses.Addresses.TheVariants.{V6};
ghost use Rattle.ep_packet.specs.declared.err.packet.slice_error.SliceError.TheVariants as slice_error;
ghost use Rattle.ep_packet.specs.declared.net.net_slice.NetSlice.TheVariants as net;
ghost use Rattle.ep_packet.specs.declared.transport.transport_slice.TransportSlice.TheVariants as transport;
ghost use Rattle.ep_tag.specs.MacsecPayload.MacsecPayload.{Modified};
ghost use Rattle.ep_tag.specs.declared.link.link_ext_slice.LinkExtSlice.TheVariants as tag;
ghost use Rattle.ep_tag.specs.declared.link.vlan_header.VlanHeader.TheVariants.{Double, Single};
ghost use Rattle.ep_tag.specs.declared.link.vlan_slice.VlanSlice.TheVariants.{DoubleVlan, SingleVlan};
ghost use Rattle.ep_tcpudp.specs.declared.err.tcp.header_error.HeaderError.TheVariants.{DataOffsetTooSmall};

/// The ether types that name a tag.
pub fn types_of_tags()
    ensures customer { is_vlan_type (record { 0 = 33024 }) ≡ true }
    ensures service { is_vlan_type (record { 0 = 34984 }) ≡ true }
    ensures double { is_vlan_type (record { 0 = 37120 }) ≡ true }
    ensures no_vlan { is_vlan_type (record { 0 = 35045 }) ≡ false }
    ensures macsec { is_macsec_type (record { 0 = 35045 }) ≡ true }
    ensures no_macsec { is_macsec_type (record { 0 = 33024 }) ≡ false }
    ensures ipv4_is_no_vlan { is_vlan_type (record { 0 = 2048 }) ≡ false }
    ensures ipv4_is_no_macsec { is_macsec_type (record { 0 = 2048 }) ≡ false }
{}

/// Classes of frames: a UDP message after a VLAN tag, whose class leaves the tag out; a fragment
/// after two tags, whose class has their identifiers; an unknown ether type, an ARP packet; a
/// header that is cut off, and a frame of 13 bytes.
pub fn classes_at_literals()
    ensures whole { class_of whole_frame ≡ Whole ipv4_addresses 17 udp_message (Udp udp_message) }
    ensures fragment { class_of fragment_frame ≡ Cut (record {
      vlan_ids = 5 ∷ 9 ∷ [];
      addresses = ipv4_addresses;
      identification = 258;
      number = 17;
    }) 3 true eight_bytes }
    ensures unknown { class_of (frame_addresses ++ 18 ∷ 52 ∷ []) ≡ Other }
    ensures arp { class_of (frame_addresses ++ 8 ∷ 6 ∷ 0 ∷ 1 ∷ 8 ∷ 0 ∷ 0 ∷ 0 ∷ 0 ∷ 1 ∷ []) ≡ Other }
    ensures cut_off { class_of (frame_addresses ++ 8 ∷ 0 ∷ 69 ∷ []) ≡ Refused }
    ensures too_short { class_of (frame_addresses ++ 8 ∷ []) ≡ Refused }
{}

/// Classes of frames with IPv6: a fragment, if the first fragment header says so, and something
/// else if only a later one does.
pub fn ipv6_classes_at_literals()
    ensures fragment { class_of ipv6_fragment_frame ≡ Cut (record {
      vlan_ids = [];
      addresses = V6 ipv6_source ipv6_destination;
      identification = 16909060;
      number = 17;
    }) 1 true eight_bytes }
    ensures later { class_of ipv6_other_frame ≡ Other }
{}

/// Three of four VLAN tags are read; nothing is named after a modified payload, here an encrypted
/// one; and the offset of a tag that is cut off counts from the start of the first tag.
pub fn tags_at_literals()
    ensures four { tags_in 3 (vlan_named tag_1) ≡ Ok (record {
      tags = tag.Vlan tag_1 ∷ tag.Vlan tag_2 ∷ tag.Vlan tag_3 ∷ [];
      len = 12;
      last = Some (vlan_named tag_4);
    }) }
    ensures modified { tags_in 3 (vlan_named (0 ∷ 5 ∷ 136 ∷ 229 ∷ 12 ∷ 0 ∷ 0 ∷ 0 ∷ 0 ∷ 1 ∷ 9 ∷ []))
        ≡ Ok (record {
          tags = tag.Vlan (0 ∷ 5 ∷ 136 ∷ 229 ∷ 12 ∷ 0 ∷ 0 ∷ 0 ∷ 0 ∷ 1 ∷ 9 ∷ [])
              ∷ tag.Macsec
              (record { header = 12 ∷ 0 ∷ 0 ∷ 0 ∷ 0 ∷ 1 ∷ []; payload = Modified (9 ∷ []) }) ∷ [];
          len = 10;
          last = None;
        }) }
    ensures cut_off { tags_in 3 (vlan_named (0 ∷ 5 ∷ 129 ∷ 0 ∷ 0 ∷ 6 ∷ []))
        ≡ Err (slice_error.Len (record {
          required_len = 4;
          len = 2;
          len_source = source.Slice;
          layer = layer.VlanHeader;
          layer_start_offset = 4;
        })) }
    ensures ids { vlan_ids_of (tag.Vlan tag_1 ∷
        tag.Macsec (record { header = []; payload = Modified [] }) ∷ tag.Vlan tag_2 ∷ [])
        ≡ 1 ∷ 2 ∷ [] }
{}

/// An error of too few bytes, with an offset that is 14 greater, and within a bounding length; an
/// error of the content stays the same.
pub fn faults_at_literals()
    ensures moved { offset_by 14 (slice_error.Len (record {
      required_len = 4;
      len = 2;
      len_source = source.Slice;
      layer = layer.VlanHeader;
      layer_start_offset = 8;
    })) ≡ slice_error.Len (record {
      required_len = 4;
      len = 2;
      len_source = source.Slice;
      layer = layer.VlanHeader;
      layer_start_offset = 22;
    }) }
    ensures content { offset_by 14 (slice_error.Tcp (DataOffsetTooSmall 4))
        ≡ slice_error.Tcp (DataOffsetTooSmall 4) }
    ensures within { within source.Ipv4HeaderTotalLen (slice_error.Len (record {
      required_len = 8;
      len = 7;
      len_source = source.Slice;
      layer = layer.UdpHeader;
      layer_start_offset = 0;
    })) ≡ slice_error.Len (record {
      required_len = 8;
      len = 7;
      len_source = source.Ipv4HeaderTotalLen;
      layer = layer.UdpHeader;
      layer_start_offset = 0;
    }) }
    ensures outer { bounded_by source.Ipv6HeaderPayloadLen source.Slice
        ≡ source.Ipv6HeaderPayloadLen }
    ensures own { bounded_by source.Ipv4HeaderTotalLen source.UdpHeaderLen ≡ source.UdpHeaderLen }
{}

/// Views of a packet's tags: the first two VLAN tags, what bounds the bytes after them, and what
/// the last ether type names.
pub fn views_at_literals()
    ensures no_vlan { vlan_slice_of [] ≡ None }
    ensures single { vlan_slice_of (tag_1 ∷ []) ≡ Some (SingleVlan tag_1) }
    ensures double { vlan_slice_of (tag_1 ∷ tag_2 ∷ tag_3 ∷ [])
        ≡ Some (DoubleVlan (record { outer = tag_1; inner = tag_2 })) }
    ensures slice { source_after (tag.Vlan tag_1 ∷
        tag.Macsec (record
        { header = 0 ∷ 0 ∷ 0 ∷ 0 ∷ 0 ∷ 1 ∷ 8 ∷ 0 ∷ []; payload = Modified [] }) ∷ [])
        ≡ source.Slice }
    ensures short_length { source_after
        (tag.Macsec (record
        { header = 0 ∷ 6 ∷ 0 ∷ 0 ∷ 0 ∷ 1 ∷ 8 ∷ 0 ∷ []; payload = Modified [] }) ∷
        tag.Vlan tag_1 ∷ [])
        ≡ source.MacsecShortLength }
    ensures no_link { last_payload None [] ≡ None }
    ensures link { last_payload (Some (link.EtherPayload (vlan_named tag_1))) []
        ≡ Some (vlan_named tag_1) }
    ensures last_tag { last_payload (Some (link.EtherPayload (vlan_named tag_2)))
        (tag.Vlan tag_2 ∷ tag.Vlan tag_3 ∷ [])
        ≡ Some (vlan_named tag_4) }
{}

/// Views of what the last ether type names, here IPv4 in a VLAN tag after a MACsec header with a
/// short length; and whether an IP payload is a fragment.
pub fn packet_views_at_literals()
    ensures named { payload_ether_type_in (bounded_packet None) ≡ Some (record { 0 = 2048 }) }
    ensures looked_into { payload_ether_type_in
        (bounded_packet (Some (net.Ipv4 ipv4_packet))) ≡ None }
    ensures bounded { ether_payload_in (bounded_packet None)
        ≡ Some (record {
          ether_type = record { 0 = 2048 };
          len_source = source.MacsecShortLength;
          payload = [];
        }) }
    ensures bounded_too { ether_payload_in (bounded_packet (Some (net.Ipv4 ipv4_packet)))
        ≡ Some (record {
          ether_type = record { 0 = 2048 };
          len_source = source.MacsecShortLength;
          payload = [];
        }) }
    ensures no_packet { is_fragment (ip_payload_of None) ≡ false }
    ensures whole { is_fragment (ip_payload_of (Some (net.Ipv4 ipv4_packet))) ≡ false }
    ensures fragment { is_fragment (ip_payload_of (Some (net.Ipv4 (record {
      header = ipv4_fragment_header;
      auth = None;
      payload = eight_bytes;
    })))) ≡ true }
{}

/// Packets of Linux cooked captures: the ether type of IPv4; a number that is no ether type, after
/// which nothing is parsed; and the offsets of an IPv4 header and of their own header where these
/// are cut off.
pub fn cooked_packets_at_literals()
    ensures ipv4 { sliced_linux_sll cooked_packet ≡ Ok (record {
      link = Some (link.LinuxSll cooked_packet);
      link_exts = record { items = [] };
      net = Some (net.Ipv4 ipv4_packet);
      transport = Some (transport.Udp udp_message);
    }) }
    ensures no_type { sliced_linux_sll cooked_without_type ≡ Ok (record {
      link = Some (link.LinuxSll cooked_without_type);
      link_exts = record { items = [] };
      net = None;
      transport = None;
    }) }
    ensures cut_off { sliced_linux_sll (cooked_header (8 ∷ 0 ∷ []) ++ 69 ∷ [])
        ≡ Err (slice_error.Len (record {
          required_len = 20;
          len = 1;
          len_source = source.Slice;
          layer = layer.Ipv4Header;
          layer_start_offset = 16;
        })) }
    ensures too_short { sliced_linux_sll (cooked_header []) ≡ Err (slice_error.Len (record {
      required_len = 16;
      len = 14;
      len_source = source.Slice;
      layer = layer.LinuxSllHeader;
      layer_start_offset = 0;
    })) }
{}

/// Bytes after an ether type: both are the link layer's slice. And of three VLAN tags the first is
/// the outer one and the second the inner one.
pub fn ether_type_at_literals()
    ensures ipv4 { sliced_ether_type (record { 0 = 2048 }) (ipv4_header ++ udp_message)
        ≡ Ok (record {
          link = Some (link.EtherPayload (record {
            ether_type = record { 0 = 2048 };
            len_source = source.Slice;
            payload = ipv4_header ++ udp_message;
          }));
          link_exts = record { items = [] };
          net = Some (net.Ipv4 ipv4_packet);
          transport = Some (transport.Udp udp_message);
        }) }
    ensures tags { vlan_header_of (tag_header 1 ∷ tag_header 2 ∷ tag_header 3 ∷ [])
        ≡ Some (Double (record { outer = tag_header 1; inner = tag_header 2 })) }
    ensures tag { vlan_header_of (tag_header 1 ∷ []) ≡ Some (Single (tag_header 1)) }
{}

/// IP packets without a link header: a UDP message over IPv4; bytes of another version, and none;
/// and a TCP header that the packet cuts off.
pub fn ip_packets_at_literals()
    ensures ipv4 { sliced_ip (ipv4_header ++ udp_message) ≡ Ok (record {
      link = None;
      link_exts = record { items = [] };
      net = Some (net.Ipv4 ipv4_packet);
      transport = Some (transport.Udp udp_message);
    }) }
    ensures other { sliced_ip (80 ∷ []) ≡ Err (slice_error.Ip (UnsupportedIpVersion 5)) }
    ensures empty { sliced_ip [] ≡ Err (slice_error.Len (record {
      required_len = 1;
      len = 0;
      len_source = source.Slice;
      layer = layer.IpHeader;
      layer_start_offset = 0;
    })) }
    ensures cut_off { sliced_ip (ipv4_header_before 6 ++ udp_message) ≡ Err (slice_error.Len
        (record {
          required_len = 20;
          len = 8;
          len_source = source.Ipv4HeaderTotalLen;
          layer = layer.TcpHeader;
          layer_start_offset = 20;
        })) }
{}

/// The length in bytes of the tags or headers before a payload.
pub fn lengths_at_literals()
    ensures no_tags { tags_len [] ≡ 0 }
    ensures tags { tags_len (tag.Vlan tag_1 ∷
        tag.Macsec (record
        { header = 0 ∷ 0 ∷ 0 ∷ 0 ∷ 0 ∷ 1 ∷ 8 ∷ 0 ∷ []; payload = Modified [] }) ∷ [])
        ≡ 12 }
    ensures no_headers { headers_len None ≡ 0 }
    ensures ipv4 { headers_len (Some (net.Ipv4 ipv4_packet)) ≡ 20 }
    ensures auth { headers_len (Some (net.Ipv4 (record {
      header = ipv4_header;
      auth = Some (17 ∷ 1 ∷ 0 ∷ 0 ∷ eight_bytes);
      payload = [];
    }))) ≡ 32 }
    ensures arp { headers_len (Some (net.Arp (0 ∷ 1 ∷ 8 ∷ 0 ∷ 0 ∷ 0 ∷ 0 ∷ 1 ∷ []))) ≡ 8 }
{}
