//! Why packets are refused: the reasons that a summary counts, by the field that is wrong.

ghost use Rattle.std.specs.Prelude.{◌≡◌};
ghost use Rattle.ep_base.specs.declared.err.layer.Layer.TheVariants as layer;
ghost use Rattle.ep_base.specs.declared.len_source.LenSource.TheVariants as source;
ghost use Rattle.ep_ext.specs.declared.err.ip_auth.header_error.HeaderError.TheVariants as auth;
ghost use Rattle.ep_ext.specs.declared.err.ipv6_exts.header_error.HeaderError.TheVariants as exts;
ghost use Rattle.etherparse.specs.declared.defrag.ip_defrag_error.IpDefragError.TheVariants as fragment;
ghost use Rattle.ep_ip.specs.declared.err.ipv4.header_error.HeaderError.TheVariants as v4;
ghost use Rattle.ep_ip.specs.declared.err.ipv6.header_error.HeaderError.TheVariants as v6;
ghost use Rattle.ep_ipslice.specs.declared.err.ip.header_error.HeaderError.TheVariants as ip;
ghost use Rattle.ep_link.specs.declared.err.linux_sll.header_error.HeaderError.TheVariants as cooked;
ghost use Rattle.ep_packet.specs.declared.err.packet.slice_error.SliceError.TheVariants as fault;
ghost use Rattle.ep_tag.specs.declared.err.macsec.header_error.HeaderError.TheVariants as macsec;
ghost use Rattle.ep_tcpudp.specs.declared.err.tcp.header_error.HeaderError.TheVariants as tcp;
ghost use Rattle.packets.specs.Reasons.{fragment_reason, reason_of};
ghost use Rattle.packets.specs.declared.reason.Reason.TheVariants as reason;

/// Of what is cut off, the layer with too few bytes is named: an IPv4 header of which 7 bytes of 20
/// are there, and a UDP datagram of which 12 of 100 are, by the IPv4 total length.
pub fn layers_cut_off()
    ensures header { reason_of (fault.Len (record {
      required_len = 20;
      len = 7;
      len_source = source.Slice;
      layer = layer.Ipv4Header;
      layer_start_offset = 14;
    })) ≡ reason.CutOff layer.Ipv4Header }
    ensures datagram { reason_of (fault.Len (record {
      required_len = 100;
      len = 12;
      len_source = source.Ipv4HeaderTotalLen;
      layer = layer.UdpPayload;
      layer_start_offset = 34;
    })) ≡ reason.CutOff layer.UdpPayload }
{}

/// Packet type 5 of a cooked capture, and hardware type 824, that of netlink (LINKTYPE_LINUX_SLL);
/// version 1 of MACsec, and a short length of 1 before an ether type (IEEE 802.1AE, 9.5 and 9.7).
pub fn faults_of_links()
    ensures packet_type { reason_of (fault.LinuxSll (cooked.UnsupportedPacketTypeField 5))
        ≡ reason.CookedPacketType }
    ensures hardware { reason_of (fault.LinuxSll
        (cooked.UnsupportedArpHardwareId (record { 0 = 824 }))) ≡ reason.CookedHardwareType }
    ensures version { reason_of (fault.Macsec macsec.UnexpectedVersion) ≡ reason.MacsecVersion }
    ensures short_len { reason_of (fault.Macsec macsec.InvalidUnmodifiedShortLen)
        ≡ reason.MacsecShortLen }
{}

/// Version 7 of IP, 5 where IPv4 was named and 4 where IPv6 was; an IPv4 header of 4 words (RFC
/// 791, section 3.1); authentication headers of length 0 over both (RFC 4302, section 2.2);
/// hop-by-hop options after another header (RFC 8200, section 4.1); and a TCP header of 4 words
/// (RFC 9293, section 3.1).
pub fn faults_of_ip()
    ensures version { (reason_of (fault.Ip (ip.UnsupportedIpVersion 7)) ≡ reason.IpVersion)
        × (reason_of (fault.Ipv4 (v4.UnexpectedVersion 5)) ≡ reason.IpVersion)
        × (reason_of (fault.Ipv6 (v6.UnexpectedVersion 4)) ≡ reason.IpVersion) }
    ensures header { (reason_of (fault.Ip (ip.Ipv4HeaderLengthSmallerThanHeader 4))
        ≡ reason.Ipv4HeaderLen)
        × (reason_of (fault.Ipv4 (v4.HeaderLengthSmallerThanHeader 4)) ≡ reason.Ipv4HeaderLen) }
    ensures auth { (reason_of (fault.Ipv4Exts auth.ZeroPayloadLen) ≡ reason.AuthHeaderLen)
        × (reason_of (fault.Ipv6Exts (exts.IpAuth auth.ZeroPayloadLen)) ≡ reason.AuthHeaderLen) }
    ensures hop_by_hop { reason_of (fault.Ipv6Exts exts.HopByHopNotAtStart)
        ≡ reason.HopByHopNotFirst }
    ensures tcp { reason_of (fault.Tcp (tcp.DataOffsetTooSmall 4)) ≡ reason.TcpDataOffset }
{}

/// Fragments of 11 bytes where more follow, beyond 65,535 bytes, that end at 32 where their
/// datagram ends at 24 (RFC 791, section 3.2), that overlap another (RFC 8200, section 4.5), and
/// for which there is no memory.
pub fn faults_of_fragments()
    ensures unaligned { fragment_reason (fragment.UnalignedFragmentPayloadLen 0 11)
        ≡ reason.FragmentUnaligned }
    ensures too_long { fragment_reason (fragment.SegmentTooBig 8191 8 65535)
        ≡ reason.FragmentTooLong }
    ensures ending { fragment_reason (fragment.ConflictingEnd 24 32) ≡ reason.FragmentEnd }
    ensures overlap { fragment_reason (fragment.OverlappingFragment 1 16)
        ≡ reason.FragmentOverlap }
    ensures memory { fragment_reason (fragment.AllocationFailure 8) ≡ reason.FragmentMemory }
{}
