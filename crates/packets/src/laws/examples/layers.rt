//! The headers of frames, those of Ethernet II frames by their own bytes, and those after a header
//! that was made (RFC 894).

ghost use Rattle.std.specs.Prelude.{◌≡◌, ◌-◌, ◌^◌, ◌++◌, [], ◌∷◌, replicate, None, Some, Ok, Err, IfOk, IsOk};
ghost use Rattle.ep_base.specs.declared.err.layer.Layer.TheVariants as layer;
ghost use Rattle.ep_base.specs.declared.len_source.LenSource.TheVariants as source;
ghost use Rattle.ep_packet.specs.declared.err.packet.slice_error.SliceError.TheVariants as fault;
ghost use Rattle.ep_packet.specs.declared.net.net_slice.NetSlice.TheVariants as net;
ghost use Rattle.ep_packet.specs.declared.transport.transport_slice.TransportSlice.TheVariants as transport;
ghost use Rattle.ep_tcpudp.specs.declared.err.tcp.header_error.HeaderError.TheVariants as tcp;
ghost use Rattle.packets.specs.Examples.{arp_request, datagram_with, ipv4_header, segment_with};
ghost use Rattle.packets.specs.Layers.{after_header, layers_of};

/// An offset is 14 bytes more from the start of the header before, up to the greatest of 64 bits; a
/// field that is wrong has no offset.
pub fn offsets_after_a_header()
    ensures first { after_header (fault.Len (record {
      required_len = 20;
      len = 7;
      len_source = source.Slice;
      layer = layer.Ipv4Header;
      layer_start_offset = 0;
    })) ≡ fault.Len (record {
      required_len = 20;
      len = 7;
      len_source = source.Slice;
      layer = layer.Ipv4Header;
      layer_start_offset = 14;
    }) }
    ensures later { after_header (fault.Len (record {
      required_len = 8;
      len = 3;
      len_source = source.Ipv6HeaderPayloadLen;
      layer = layer.Ipv6ExtHeader;
      layer_start_offset = 40;
    })) ≡ fault.Len (record {
      required_len = 8;
      len = 3;
      len_source = source.Ipv6HeaderPayloadLen;
      layer = layer.Ipv6ExtHeader;
      layer_start_offset = 54;
    }) }
    ensures greatest { after_header (fault.Len (record {
      required_len = 8;
      len = 3;
      len_source = source.Slice;
      layer = layer.UdpHeader;
      layer_start_offset = 2 ^ 64 - 10;
    })) ≡ fault.Len (record {
      required_len = 8;
      len = 3;
      len_source = source.Slice;
      layer = layer.UdpHeader;
      layer_start_offset = 2 ^ 64 - 1;
    }) }
    ensures field { after_header (fault.Tcp (tcp.DataOffsetTooSmall 4))
        ≡ fault.Tcp (tcp.DataOffsetTooSmall 4) }
{}

/// A frame that is cut off in its header, and an IPv4 header that is cut off after a header that
/// was made and after the frame's own: its offset counts from the start of the frame.
pub fn frames_cut_off()
    ensures header { layers_of None (replicate 10 0) ≡ Err (fault.Len (record {
      required_len = 14;
      len = 10;
      len_source = source.Slice;
      layer = layer.Ethernet2Header;
      layer_start_offset = 0;
    })) }
    ensures made { layers_of (Some (record { source = replicate 6 0; ether_type = 0x0800 }))
        (0x45 ∷ 0 ∷ 0 ∷ 28 ∷ 0 ∷ 1 ∷ 0 ∷ []) ≡ Err (fault.Len (record {
          required_len = 20;
          len = 7;
          len_source = source.Slice;
          layer = layer.Ipv4Header;
          layer_start_offset = 14;
        })) }
    ensures own { layers_of None
        (replicate 12 2 ++ 8 ∷ 0 ∷ 0x45 ∷ 0 ∷ 0 ∷ 28 ∷ 0 ∷ 1 ∷ 0 ∷ []) ≡ Err (fault.Len (record {
          required_len = 20;
          len = 7;
          len_source = source.Slice;
          layer = layer.Ipv4Header;
          layer_start_offset = 14;
        })) }
{}

/// What follows a header: an ARP packet by the frame's own ether type, 0x0806, and by that of a
/// header that was made; nothing that is read after 0x88b5; and a UDP datagram in an IPv4 packet.
pub fn frames_by_their_ether_types()
    ensures arp { IfOk (layers_of None (replicate 12 2 ++ 8 ∷ 6 ∷ arp_request))
        (λ packet. (packet.net ≡ Some (net.Arp arp_request)) × (packet.link_exts.items ≡ [])) }
    ensures is_arp { IsOk (layers_of None (replicate 12 2 ++ 8 ∷ 6 ∷ arp_request)) }
    ensures made { IfOk (layers_of (Some (record { source = replicate 6 0; ether_type = 0x0806 }))
        arp_request) (λ packet. packet.net ≡ Some (net.Arp arp_request)) }
    ensures is_made { IsOk (layers_of (Some (record { source = replicate 6 0; ether_type = 0x0806 }))
        arp_request) }
    ensures other { IfOk (layers_of None (replicate 12 2 ++ 0x88 ∷ 0xb5 ∷ arp_request))
        (λ packet. (packet.net ≡ None) × (packet.transport ≡ None)) }
    ensures is_other { IsOk (layers_of None (replicate 12 2 ++ 0x88 ∷ 0xb5 ∷ arp_request)) }
    ensures datagram { IfOk (layers_of None
        (replicate 12 2 ++ 8 ∷ 0 ∷ (ipv4_header 17 ++ datagram_with 0x11 0xef)))
        (λ packet. packet.transport ≡ Some (transport.Udp (datagram_with 0x11 0xef))) }
    ensures is_datagram { IsOk (layers_of None
        (replicate 12 2 ++ 8 ∷ 0 ∷ (ipv4_header 17 ++ datagram_with 0x11 0xef))) }
{}
