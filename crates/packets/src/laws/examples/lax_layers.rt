//! What is there of packets that are refused, and which fault is shown of them.

ghost use Rattle.std.specs.Prelude.{◌≡◌, ℕ, ◌++◌, [], ◌∷◌, true, false, replicate, take, Option, None, Some, IfSome};
ghost use Rattle.std.specs.Prelude.{IsSome};
ghost use Rattle.ep_base.specs.declared.err.layer.Layer.TheVariants as layer;
ghost use Rattle.ep_base.specs.declared.len_source.LenSource.TheVariants as source;
ghost use Rattle.ep_ipslice.specs.LaxPackets.{LaxIpv6Packet};
ghost use Rattle.ep_packet.specs.declared.err.packet.slice_error.SliceError.{SliceError};
ghost use Rattle.ep_packet.specs.declared.err.packet.slice_error.SliceError.TheVariants as fault;
ghost use Rattle.ep_packet.specs.declared.net.lax_net_slice.LaxNetSlice.TheVariants as lax;
ghost use Rattle.ep_packet.specs.declared.transport.transport_slice.TransportSlice.TheVariants as transport;
ghost use Rattle.ep_tcpudp.specs.declared.err.tcp.header_error.HeaderError.TheVariants as tcp;
ghost use Rattle.packets.specs.Examples.{arp_request, datagram_with, in_part, ipv4_header, ipv4_in_part, ipv6_header};
ghost use Rattle.packets.specs.Examples.{long_timestamp, missing, segment_with};
ghost use Rattle.packets.specs.LaxLayers.{lax_layers_of, promised_len, shown_fault, stop_fault_of};

/// Frames of a UDP datagram (RFC 768) over IPv4 of which only the headers were captured, also after a
/// header that was made; one that ends in the IPv4 header, which is the fault; and one that ends in
/// its own.
pub fn frames_in_part()
    ensures datagram { IfSome (lax_layers_of None
        (replicate 12 2 ++ 8 ∷ 0 ∷ (ipv4_header 17 ++ take 8 (datagram_with 0x11 0xef))))
        (λ packet. (packet.net ≡ Some (ipv4_in_part 17 (take 8 (datagram_with 0x11 0xef))))
        × (packet.transport ≡ Some (transport.Udp (take 8 (datagram_with 0x11 0xef))))
        × (packet.stop_err ≡ None)) }
    ensures is_datagram { IsSome (lax_layers_of None
        (replicate 12 2 ++ 8 ∷ 0 ∷ (ipv4_header 17 ++ take 8 (datagram_with 0x11 0xef)))) }
    ensures made { IfSome (lax_layers_of (Some (record { source = replicate 6 0; ether_type = 0x0800 }))
        (ipv4_header 17 ++ take 8 (datagram_with 0x11 0xef)))
        (λ packet. packet.transport ≡ Some (transport.Udp (take 8 (datagram_with 0x11 0xef)))) }
    ensures in_header { IfSome (lax_layers_of None
        (replicate 12 2 ++ 8 ∷ 0 ∷ take 7 (ipv4_header 17)))
        (λ packet. (packet.net ≡ None) × (packet.transport ≡ None)) }
    ensures is_in_header { IsSome (lax_layers_of None
        (replicate 12 2 ++ 8 ∷ 0 ∷ take 7 (ipv4_header 17))) }
    ensures stop_in_header { stop_fault_of None (lax_layers_of None
        (replicate 12 2 ++ 8 ∷ 0 ∷ take 7 (ipv4_header 17))) ≡ Some (fault.Len (record {
          required_len = 20;
          len = 7;
          len_source = source.Slice;
          layer = layer.Ipv4Header;
          layer_start_offset = 14;
        })) }
    ensures in_own_header { lax_layers_of None (replicate 10 2) ≡ None }
{}

/// The lengths that the headers promise (RFC 791; RFC 8200): 12 bytes after an IPv4 header, of which 8
/// are there, and after an IPv6 header.
pub fn promised_lengths()
    ensures ipv4 { promised_len (Some (ipv4_in_part 17 (take 8 (datagram_with 0x11 0xef)))) ≡ 12 }
    ensures ipv6 { (packet : LaxIpv6Packet) → packet.header ≡ ipv6_header
        → packet.exts.slice ≡ [] → packet.incomplete ≡ true
        → promised_len (Some (lax.Ipv6 packet)) ≡ 12 }
    ensures complete { (packet : LaxIpv6Packet) → packet.incomplete ≡ false
        → packet.payload.payload ≡ 1 ∷ 2 ∷ 3 ∷ [] → promised_len (Some (lax.Ipv6 packet)) ≡ 3 }
    ensures others { (promised_len None ≡ 0) × (promised_len (Some (lax.Arp arp_request)) ≡ 0) }
{}

/// Of a frame that wasn't cut the first fault is shown, whatever is there. Of one of which 34 bytes are
/// there and 12 were cut off, none is shown where at most these are missing of an IPv4 packet of 32
/// bytes; but a fault is that more are missing, that a length field leaves too few, that a later
/// header breaks its format, or that a message has more bytes than its kind.
pub fn shown_faults()
    ensures whole { (len : ℕ) (error : SliceError) (stop : Option SliceError)
        → shown_fault len 0 error stop ≡ Some error }
    ensures cut { shown_fault 34 12 (missing source.Slice 32 20) None ≡ None }
    ensures arp { shown_fault 34 12 (missing source.ArpAddrLengths 28 20) None ≡ None }
    ensures more { shown_fault 34 11 (missing source.Slice 32 20) None
        ≡ Some (missing source.Slice 32 20) }
    ensures before { shown_fault 35 12 (missing source.Slice 32 20) None
        ≡ Some (missing source.Slice 32 20) }
    ensures fields { (shown_fault 34 12 (missing source.Ipv4HeaderTotalLen 32 20) None
        ≡ Some (missing source.Ipv4HeaderTotalLen 32 20))
        × (shown_fault 34 12 (missing source.Ipv6HeaderPayloadLen 32 20) None
        ≡ Some (missing source.Ipv6HeaderPayloadLen 32 20))
        × (shown_fault 34 12 (missing source.MacsecShortLength 32 20) None
        ≡ Some (missing source.MacsecShortLength 32 20))
        × (shown_fault 34 12 (missing source.UdpHeaderLen 32 20) None
        ≡ Some (missing source.UdpHeaderLen 32 20))
        × (shown_fault 34 12 (missing source.TcpHeaderLen 32 20) None
        ≡ Some (missing source.TcpHeaderLen 32 20)) }
    ensures too_long { shown_fault 58 16 (missing source.Slice 60 44) (Some long_timestamp)
        ≡ Some long_timestamp }
    ensures later { shown_fault 34 12 (missing source.Slice 32 20)
        (Some (fault.Tcp (tcp.DataOffsetTooSmall 4))) ≡ Some (fault.Tcp (tcp.DataOffsetTooSmall 4)) }
    ensures later_cut { shown_fault 34 12 (missing source.Slice 32 20)
        (Some (missing source.Slice 24 20)) ≡ None }
    ensures first { shown_fault 34 12 (fault.Tcp (tcp.DataOffsetTooSmall 4))
        (Some (missing source.Slice 24 20)) ≡ Some (fault.Tcp (tcp.DataOffsetTooSmall 4)) }
{}

/// The fault of the first header that isn't there: its offset counts from the start of the Ethernet II
/// header, also of one that was made.
pub fn stops()
    ensures none { (stop_fault_of None None ≡ None) × (stop_fault_of None (Some (in_part None None)) ≡ None) }
    ensures own { stop_fault_of None (Some (record (in_part None None) {
      stop_err = Some (missing source.Slice 32 20, layer.Ipv4Header);
    })) ≡ Some (missing source.Slice 32 20) }
    ensures made { stop_fault_of (Some (record { source = replicate 6 0; ether_type = 0x0800 }))
        (Some (record (in_part None None) {
          stop_err = Some (
            fault.Len (record {
              required_len = 32;
              len = 20;
              len_source = source.Slice;
              layer = layer.Ipv4Packet;
              layer_start_offset = 0;
            }),
            layer.Ipv4Packet,
          );
        })) ≡ Some (missing source.Slice 32 20) }
{}
