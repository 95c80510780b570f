//! Laws of packets that are refused, and of what is there of them.
ghost use Rattle.std.specs.Prelude.{◌≡◌, ◌++◌, ℕ, List, [], ◌∷◌, false, true, None, Some, Ok, Err, MatchResult};
ghost use Rattle.ep_base.specs.declared.err.layer.Layer.TheVariants as layer;
ghost use Rattle.ep_base.specs.declared.len_source.LenSource.TheVariants as source;
ghost use Rattle.ep_base.specs.declared.link.ether_type.EtherType.{EtherType};
ghost use Rattle.ep_ext.specs.declared.err.ip_auth.header_error.HeaderError.TheVariants.{ZeroPayloadLen};
ghost use Rattle.ep_ipslice.specs.CutPackets.{cut_ipv4};
ghost use Rattle.ep_link.specs.Ethernet.{ethernet_len, payload_of};
ghost use Rattle.ep_link.specs.Frame.{without_fcs};
ghost use Rattle.ep_link.specs.declared.link.link_slice.LinkSlice.TheVariants as link;
ghost use Rattle.ep_packet.specs.Examples.{auth_frame, auth_header_of_length, cut_after_auth, cut_after_options};
ghost use Rattle.ep_packet.specs.Examples.{cut_after_tag, cut_in_macsec, datagram_frame, ipv4_header, ipv4_header_with};
ghost use Rattle.ep_packet.specs.Examples.{ipv4_packet, ipv6_destination, ipv6_source, low_datagram, missing_bytes};
ghost use Rattle.ep_packet.specs.Examples.{short_frame, total_frame, udp_message};
ghost use Rattle.ep_packet.specs.FrameFault.{IsCookedFault, IsEtherTypeFault, IsFrameFault, IsIpPacketFault};
ghost use Rattle.ep_packet.specs.LaxSliced.{lax_sliced_ether_type, lax_sliced_ethernet, lax_sliced_ip};
ghost use Rattle.ep_packet.specs.LaxSliced.{lax_sliced_linux_sll, of_ip_header};
ghost use Rattle.ep_packet.specs.LaxWhole.{whole_packet};
ghost use Rattle.ep_packet.specs.LayersAhead.{HasCookedAhead, HasFrameAhead, HasIpAhead, HasLayersAhead};
ghost use Rattle.ep_packet.specs.LayersAhead.{NoLengthStopped, StopsAfter, StopsCooked, StopsIp};
ghost use Rattle.ep_packet.specs.LayersAhead.{is_passed_over, stopped_packet};
ghost use Rattle.ep_packet.specs.SliceFault.{of_linux_sll};
ghost use Rattle.ep_packet.specs.Sliced.{ether_payload, sliced_ether_type, sliced_ethernet, sliced_ip};
ghost use Rattle.ep_packet.specs.Sliced.{sliced_linux_sll};
ghost use Rattle.ep_packet.specs.declared.err.packet.slice_error.SliceError.{SliceError};
ghost use Rattle.ep_packet.specs.declared.err.packet.slice_error.SliceError.TheVariants.{Ipv4Exts, Len};
ghost use Rattle.ep_packet.specs.declared.net.lax_net_slice.LaxNetSlice.TheVariants as lax_net;
ghost use Rattle.ep_packet.specs.declared.net.net_slice.NetSlice.TheVariants as net;
ghost use Rattle.ep_packet.specs.declared.transport.transport_slice.TransportSlice.TheVariants as message;
ghost use Rattle.ep_tag.specs.declared.link.link_ext_slice.LinkExtSlice.TheVariants as tag;

/// Where a packet is refused, reading it as far as it is there stops at the same fault: it has exactly the
/// layers that are whole ahead of this fault, and what stopped is the fault, with its layer. A fault of the
/// link header, or of the IP header where there is no link header: both refuse, with this fault. Passed
/// over, and not spoken of here, is only a length that counts more bytes than are there (the total length
/// of IPv4, the payload length of IPv6, the short length of MACsec, the length of UDP), or a total length
/// or UDP length below that of its own header.
pub fn faults_stop_lax_packets()
    ensures ethernet { (frame : List ℕ) (e : SliceError) → sliced_ethernet frame ≡ Err e
        → is_passed_over e ≡ false
        → MatchResult (lax_sliced_ethernet frame) (λ packet. StopsAfter
        (link.Ethernet2 (without_fcs frame)) ethernet_len (payload_of frame) e packet)
        (λ short. e ≡ Len short) }
    ensures linux_sll { (bytes : List ℕ) (e : SliceError) → sliced_linux_sll bytes ≡ Err e
        → is_passed_over e ≡ false
        → MatchResult (lax_sliced_linux_sll bytes) (λ packet. StopsCooked bytes e packet)
        (λ fault. e ≡ of_linux_sll fault) }
    ensures ether_type { (t : EtherType) (bytes : List ℕ) (e : SliceError)
        → sliced_ether_type t bytes ≡ Err e → is_passed_over e ≡ false
        → StopsAfter (link.EtherPayload (ether_payload t bytes)) 0 (ether_payload t bytes) e
        (lax_sliced_ether_type t bytes) }
    ensures ip { (bytes : List ℕ) (e : SliceError) → sliced_ip bytes ≡ Err e
        → is_passed_over e ≡ false
        → MatchResult (lax_sliced_ip bytes) (λ packet. StopsIp bytes e packet)
        (λ fault. e ≡ of_ip_header fault) }
{
    ep_ipslice::laws::whole_packets_are_lax_packets();
    ep_ipslice::laws::faults_found_are_first();
    ep_ipslice::laws::rows_are_found();
    ep_tag::laws::macsec::payloads_are_found();
    ep_tag::laws::macsec_lax::lax_reads_find_what_is_there();
    ep_tcpudp::laws::udp::lax_reads_find_what_is_there();
}

/// Where a packet is refused, whatever the fault, the layers that are whole ahead of it are there: the link
/// header, the tags, and if the fault is in the message of a packet of the network layer, this packet. If
/// it is in an IP packet whose header has no fault, as a length that is passed over, this header is there.
pub fn layers_ahead_of_faults_are_kept()
    ensures ethernet { (frame : List ℕ) (e : SliceError) → sliced_ethernet frame ≡ Err e
        → (first : IsFrameFault frame e) × HasFrameAhead frame e first (lax_sliced_ethernet frame) }
    ensures linux_sll { (bytes : List ℕ) (e : SliceError) → sliced_linux_sll bytes ≡ Err e
        → (first : IsCookedFault bytes e)
        × HasCookedAhead bytes e first (lax_sliced_linux_sll bytes) }
    ensures ether_type { (t : EtherType) (bytes : List ℕ) (e : SliceError)
        → sliced_ether_type t bytes ≡ Err e → (first : IsEtherTypeFault t bytes e)
        × HasLayersAhead (ether_payload t bytes) e first (lax_sliced_ether_type t bytes) }
    ensures ip { (bytes : List ℕ) (e : SliceError) → sliced_ip bytes ≡ Err e
        → (first : IsIpPacketFault bytes e) × HasIpAhead bytes e first (lax_sliced_ip bytes) }
{
    ep_ipslice::laws::whole_packets_are_lax_packets();
    ep_ipslice::laws::faults_found_are_first();
    ep_tag::laws::macsec::payloads_are_found();
    ep_tag::laws::macsec_lax::lax_reads_find_what_is_there();
    ep_tcpudp::laws::udp::lax_reads_find_what_is_there();
}

/// What stops reading as far as a packet is there is never a length that is passed over, nor does this
/// reading refuse a packet for one.
pub fn lengths_stop_no_lax_packet()
    ensures ethernet { (frame : List ℕ) → MatchResult (lax_sliced_ethernet frame)
        (λ packet. NoLengthStopped packet.stop_err) (λ short. is_passed_over (Len short) ≡ false) }
    ensures linux_sll { (bytes : List ℕ) → MatchResult (lax_sliced_linux_sll bytes)
        (λ packet. NoLengthStopped packet.stop_err) (λ fault. is_passed_over (of_linux_sll fault) ≡ false) }
    ensures ether_type { (t : EtherType) (bytes : List ℕ)
        → NoLengthStopped (lax_sliced_ether_type t bytes).stop_err }
    ensures ip { (bytes : List ℕ) → MatchResult (lax_sliced_ip bytes)
        (λ packet. NoLengthStopped packet.stop_err) (λ fault. is_passed_over (of_ip_header fault) ≡ false) }
{}

/// What is there of frames that are refused, worked out by hand: the tag ahead of an IPv4 header that was
/// cut off; nothing ahead of a MACsec header that was; the headers ahead of a UDP header, and the hop-by-hop
/// options ahead of ICMPv6; and the IPv4 header ahead of an authentication header whose length is 0 (RFC
/// 4302, section 2.2).
pub fn stops_at_literals()
    ensures tag { lax_sliced_ethernet cut_after_tag ≡ Ok (stopped_packet
        (Some (link.Ethernet2 (without_fcs cut_after_tag)))
        (tag.Vlan (0 ∷ 5 ∷ 8 ∷ 0 ∷ 0x45 ∷ 0 ∷ 0 ∷ 28 ∷ 0 ∷ 7 ∷ 0 ∷ 0 ∷ 64 ∷ 17 ∷ []) ∷ []) None
        (missing_bytes layer.Ipv4Header 20 10 source.Slice 18, layer.Ipv4Header)) }
    ensures macsec { lax_sliced_ethernet cut_in_macsec ≡ Ok (stopped_packet
        (Some (link.Ethernet2 (without_fcs cut_in_macsec))) [] None
        (missing_bytes layer.MacsecHeader 6 5 source.Slice 14, layer.MacsecHeader)) }
    ensures message { lax_sliced_ethernet cut_after_auth ≡ Ok (stopped_packet
        (Some (link.Ethernet2 (without_fcs cut_after_auth))) []
        (Some (net.Ipv4 (record {
          header = ipv4_header_with 36 51;
          auth = Some (auth_header_of_length 1);
          payload = 0 ∷ 1 ∷ 0 ∷ 2 ∷ [];
        })))
        (missing_bytes layer.UdpHeader 8 4 source.Ipv4HeaderTotalLen 46, layer.UdpHeader)) }
    ensures options { lax_sliced_ethernet cut_after_options ≡ Ok (stopped_packet
        (Some (link.Ethernet2 (without_fcs cut_after_options))) []
        (Some (net.Ipv6 (record {
          header = 0x60 ∷ 0 ∷ 0 ∷ 0 ∷ 0 ∷ 12 ∷ 0 ∷ 64 ∷ ipv6_source ++ ipv6_destination;
          exts = record {
            first_header = Some (record { 0 = 0 });
            fragmented = false;
            slice = 58 ∷ 0 ∷ 1 ∷ 4 ∷ 0 ∷ 0 ∷ 0 ∷ 0 ∷ [];
          };
          payload = record {
            ip_number = record { 0 = 58 };
            fragmented = false;
            len_source = source.Ipv6HeaderPayloadLen;
            payload = 128 ∷ 0 ∷ 0 ∷ 0 ∷ [];
          };
        })))
        (missing_bytes layer.Icmpv6 8 4 source.Ipv6HeaderPayloadLen 62, layer.Icmpv6)) }
    ensures auth { lax_sliced_ethernet auth_frame ≡ Ok (stopped_packet
        (Some (link.Ethernet2 (without_fcs auth_frame))) []
        (Some (net.Ipv4 (record {
          header = ipv4_header_with 32 51;
          auth = None;
          payload = auth_header_of_length 0;
        })))
        (Ipv4Exts ZeroPayloadLen, layer.IpAuthHeader)) }
    ensures auth_refused { sliced_ethernet auth_frame ≡ Err (Ipv4Exts ZeroPayloadLen) }
    ensures header { is_passed_over
        (missing_bytes layer.UdpHeader 8 4 source.Ipv4HeaderTotalLen 46) ≡ false }
{}

/// Frames that are refused for a length that is passed over, worked out by hand: one that ends within the
/// UDP header of its IPv4 packet stops there; where the total length is one too many, and where the length
/// of UDP is 7, the message is there, and nothing stopped.
pub fn lengths_passed_over_at_literals()
    ensures short_refused { sliced_ethernet short_frame
        ≡ Err (missing_bytes layer.Ipv4Packet 28 24 source.Slice 14) }
    ensures short { lax_sliced_ethernet short_frame ≡ Ok (record {
      link = Some (link.Ethernet2 (without_fcs short_frame));
      link_exts = record { items = [] };
      net = Some (lax_net.Ipv4 (cut_ipv4 24 ipv4_packet));
      transport = None;
      stop_err = Some (missing_bytes layer.UdpHeader 8 4 source.Slice 34, layer.UdpHeader);
    }) }
    ensures total_refused { sliced_ethernet total_frame
        ≡ Err (missing_bytes layer.Ipv4Packet 29 28 source.Slice 14) }
    ensures total { lax_sliced_ethernet total_frame ≡ Ok (record {
      link = Some (link.Ethernet2 (without_fcs total_frame));
      link_exts = record { items = [] };
      net = Some (lax_net.Ipv4 (record {
        header = ipv4_header_with 29 17;
        auth = None;
        incomplete = true;
        payload = record {
          ip_number = record { 0 = 17 };
          fragmented = false;
          len_source = source.Slice;
          payload = udp_message;
        };
      }));
      transport = Some (message.Udp udp_message);
      stop_err = None;
    }) }
    ensures datagram_refused { sliced_ethernet datagram_frame
        ≡ Err (missing_bytes layer.UdpHeader 8 7 source.UdpHeaderLen 34) }
    ensures datagram { lax_sliced_ethernet datagram_frame ≡ Ok (whole_packet (record {
      link = Some (link.Ethernet2 (without_fcs datagram_frame));
      link_exts = record { items = [] };
      net = Some (net.Ipv4 (record { header = ipv4_header; auth = None; payload = low_datagram }));
      transport = Some (message.Udp low_datagram);
    })) }
    ensures udp_length { is_passed_over
        (missing_bytes layer.UdpPayload 9 8 source.Ipv4HeaderTotalLen 34) ≡ true }
{}
